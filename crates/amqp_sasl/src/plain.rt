//! Logins by ANONYMOUS, PLAIN and EXTERNAL (RFC 4505, RFC 4616; RFC 4422, appendix A), and a response of PLAIN taken apart.

ghost use Rattle.std.specs.Prelude.{◌≡◌, ◌↔◌, [], false, codes, IfOk, OnErr};
ghost use Rattle.amqp_memory.specs.Refusal.{SomeRefused};
ghost use Rattle.amqp_values.specs.Text.{IsSymbolText};
ghost use Rattle.amqp_sasl.specs.Plain.{IsLogin, MakesPlain, NoNul, Splits, plain_text};
ghost use Rattle.amqp_sasl.specs.Inner.Nul.{IsFirstNul, IsResponse};

use crate::opening::Login;
use crate::place::Place;
use amqp_memory::{buffer_with, copy_of, frozen, text_of};
use amqp_values::Symbol;
use bytes::Bytes;
use std::alloc::{AllocError, Global};
use thiserror::Error;

/// Why a login of PLAIN was not made.
#[derive(Clone, Copy, Debug, PartialEq, Eq, Error)]
pub enum LoginError {
    /// The user or the password has a byte 0 inside.
    #[error("a zero byte inside")]
    HasNul,
    /// The initial response would have more than 512 bytes, which no SASL frame holds.
    #[error("too large")]
    TooLarge,
    /// Memory was refused.
    #[error("out of memory")]
    OutOfMemory,
}

/// Where the texts of a response of PLAIN stand in it.
#[derive(Clone, Copy, Debug, PartialEq, Eq)]
pub struct PlainParts {
    /// As whom the client wants to act: empty where that is the user.
    pub authorization: Place,
    /// Who it is.
    pub user: Place,
    /// Its password.
    pub password: Place,
}

impl Login {
    /// A login by ANONYMOUS, with this trace, which may be empty (RFC 4505, section 2).
    pub fn anonymous(alloc: Global, trace: &str) -> Result<Login, AllocError>
        ensures login { IfOk result (IsLogin (codes "ANONYMOUS") trace.now) }
        ensures refused { OnErr result SomeRefused }
    {
        login(alloc, "ANONYMOUS", trace)
    }

    /// A login by EXTERNAL, to act as this identity: empty where it is the one that is known by other means, as a certificate.
    pub fn external(alloc: Global, authorization: &str) -> Result<Login, AllocError>
        ensures login { IfOk result (IsLogin (codes "EXTERNAL") authorization.now) }
        ensures refused { OnErr result SomeRefused }
    {
        login(alloc, "EXTERNAL", authorization)
    }

    /// A login by PLAIN, of this user with this password, with no authorization identity (RFC 4616, section 2).
    ///
    /// `HasNul` where one of them has a byte 0 inside; `TooLarge` where the response would have more than 512 bytes; `OutOfMemory` where
    /// memory is refused.
    pub fn plain(alloc: Global, user: &str, password: &str) -> Result<Login, LoginError>
        ensures { MakesPlain user.now password.now result }
    {
        if has_nul(user.as_bytes()) || has_nul(password.as_bytes()) {
            return Err(LoginError::HasNul);
        }
        let response = plain_response(alloc, user.as_bytes(), password.as_bytes())?;
        match name(alloc, "PLAIN") {
            Ok(mechanism) => Ok(Login {
                mechanism,
                response: Some(response),
            }),
            Err(_) => Err(LoginError::OutOfMemory),
        }
    }
}

/// The name of a mechanism.
fn name(alloc: Global, name: &str) -> Result<Symbol, AllocError>
    requires { IsSymbolText name.now }
    ensures value { IfOk result (λ s. s ≡ name.now) }
    ensures refused { OnErr result SomeRefused }
{
    let text = text_of(alloc, name)?;
    Ok(Symbol::new(text).unwrap())
}

/// A login by this mechanism, with this initial response.
fn login(alloc: Global, mechanism: &str, response: &str) -> Result<Login, AllocError>
    requires { IsSymbolText mechanism.now }
    ensures login { IfOk result (IsLogin mechanism.now response.now) }
    ensures refused { OnErr result SomeRefused }
{
    let response = copy_of(alloc, response.as_bytes())?;
    let mechanism = name(alloc, mechanism)?;
    Ok(Login {
        mechanism,
        response: Some(response),
    })
}

/// The place of the first 0, or the length where there is none.
fn nul_at(bytes: &[u8]) -> usize
    ensures { IsFirstNul bytes.now result }
{
    for (place, byte) in bytes.iter().enumerate() {
        if *byte == 0 {
            return place;
        }
    }
    bytes.len()
}

fn has_nul(bytes: &[u8]) -> bool
    ensures { (result ≡ false) ↔ NoNul bytes.now }
{
    nul_at(bytes) < bytes.len()
}

/// The initial response of PLAIN.
fn plain_response(alloc: Global, user: &[u8], password: &[u8]) -> Result<Bytes, LoginError>
    ensures { IsResponse (plain_text [] user.now password.now) result }
{
    let len = user.len() as u128 + password.len() as u128 + 2;
    if len > 512 {
        return Err(LoginError::TooLarge);
    }
    let Ok(mut out) = buffer_with(alloc, len as usize) else {
        return Err(LoginError::OutOfMemory);
    };
    out.extend_reserved(&[0]);
    out.extend_reserved(user);
    out.extend_reserved(&[0]);
    out.extend_reserved(password);
    match frozen(out) {
        Ok(response) => Ok(response),
        Err(_) => Err(LoginError::OutOfMemory),
    }
}

/// Takes a response of PLAIN apart, as a server does: its texts are told by their places in it, so that a password is not copied. `None`
/// where it has not exactly two bytes 0. The texts may be empty, and need not be UTF-8: that is for the caller to refuse.
///
/// ```
/// if let Some(parts) = split_plain(response) {
///     let password = &response[parts.password.from..parts.password.to];
/// }
/// ```
pub fn split_plain(response: &[u8]) -> Option<PlainParts>
    ensures { Splits response.now result }
{
    let first = nul_at(response);
    if first == response.len() {
        return None;
    }
    let (_, after) = response.split_at(first + 1);
    let second = nul_at(after);
    if second == after.len() {
        return None;
    }
    let (_, password) = after.split_at(second + 1);
    if has_nul(password) {
        return None;
    }
    let user = Place {
        from: first + 1,
        to: first + 1 + second,
    };
    Some(PlainParts {
        authorization: Place { from: 0, to: first },
        user,
        password: Place {
            from: user.to + 1,
            to: response.len(),
        },
    })
}
