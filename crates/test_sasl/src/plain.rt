//! Logins by PLAIN, EXTERNAL and ANONYMOUS, and a response of PLAIN taken apart.

use crate::given::place;
use crate::same::{holds, same};
use amqp_sasl::{Login, LoginError, PlainParts, split_plain};
use std::test::Fail;

/// Whether a login is by this mechanism, with this initial response.
fn is_login(login: &Login, mechanism: &str, response: &[u8]) -> bool {
    let is_named = login.mechanism.as_str() == mechanism;
    match &login.response {
        Some(bytes) => is_named && bytes.as_slice() == response,
        None => false,
    }
}

#[test]
fn a_login_has_its_response(rt: HostRuntime) -> Result<(), Fail> {
    let plain = Login::plain(rt.alloc(), "me", "pw")?;
    holds(&rt, is_login(&plain, "PLAIN", b"\x00me\x00pw"));
    let external = Login::external(rt.alloc(), "")?;
    holds(&rt, is_login(&external, "EXTERNAL", b""));
    let anonymous = Login::anonymous(rt.alloc(), "trace")?;
    holds(&rt, is_login(&anonymous, "ANONYMOUS", b"trace"));
    Ok(())
}

#[test]
fn a_zero_inside_is_refused(rt: HostRuntime) -> Result<(), Fail> {
    let user = Login::plain(rt.alloc(), "m\x00e", "pw").is_err();
    holds(&rt, user);
    let password = match Login::plain(rt.alloc(), "me", "p\x00w") {
        Ok(login) => {
            drop(login);
            None
        }
        Err(error) => Some(error),
    };
    same(&rt, password, Some(LoginError::HasNul));
    Ok(())
}

#[test]
fn a_response_is_split_at_two_zeros(rt: HostRuntime) -> Result<(), Fail> {
    let parts = PlainParts {
        authorization: place(0, 1),
        user: place(2, 4),
        password: place(5, 7),
    };
    same(&rt, split_plain(b"a\x00me\x00pw"), Some(parts));
    let empty = PlainParts {
        authorization: place(0, 0),
        user: place(1, 1),
        password: place(2, 2),
    };
    same(&rt, split_plain(b"\x00\x00"), Some(empty));
    same(&rt, split_plain(b""), None);
    same(&rt, split_plain(b"me\x00pw"), None);
    same(&rt, split_plain(b"\x00me\x00pw\x00"), None);
    Ok(())
}
