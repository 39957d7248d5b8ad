//! What several tests take.

use amqp_sasl::{Login, Opening, OpeningError, Place, Taken, Told};
use amqp_values::Symbol;
use bytes::{Bytes, BytesMut};
use std::alloc::Global;
use std::test::Fail;

/// The header of AMQP, and that of SASL.
pub const AMQP: [u8; 8] = *b"AMQP\x00\x01\x00\x00";

pub const SASL: [u8; 8] = *b"AMQP\x03\x01\x00\x00";

/// The mechanisms ANONYMOUS and PLAIN, as an array.
pub const MECHANISMS: [u8; 34] =
    *b"\x00\x00\x00\x22\x02\x01\x00\x00\x00\x53\x40\xc0\x15\x01\xe0\x12\x02\xa3\x09ANONYMOUS\x05PLAIN";

/// The choice of PLAIN by the user `me` with the password `pw`.
pub const INIT: [u8; 29] =
    *b"\x00\x00\x00\x1d\x02\x01\x00\x00\x00\x53\x41\xc0\x10\x02\xa3\x05PLAIN\xa0\x06\x00me\x00pw";

/// The challenge `c`, and the response `r`.
pub const CHALLENGE: [u8; 17] =
    *b"\x00\x00\x00\x11\x02\x01\x00\x00\x00\x53\x42\xc0\x04\x01\xa0\x01c";

pub const RESPONSE: [u8; 17] =
    *b"\x00\x00\x00\x11\x02\x01\x00\x00\x00\x53\x43\xc0\x04\x01\xa0\x01r";

/// The outcome `ok`, without additional data.
pub const OK: [u8; 16] = *b"\x00\x00\x00\x10\x02\x01\x00\x00\x00\x53\x44\xc0\x03\x01\x50\x00";

/// The outcome `auth`.
pub const AUTH: [u8; 16] = *b"\x00\x00\x00\x10\x02\x01\x00\x00\x00\x53\x44\xc0\x03\x01\x50\x01";

/// A value that is there.
pub fn there<T: Drop>(value: Option<T>) -> Result<T, Fail> {
    match value {
        Some(value) => Ok(value),
        None => Err(Fail::new("no such value")),
    }
}

pub fn symbol(alloc: Global, name: &str) -> Result<Symbol, Fail> {
    there(Symbol::new(String::from_str(alloc, name)?))
}

pub fn place(from: usize, to: usize) -> Place {
    Place { from, to }
}

pub fn taken(len: usize, told: Told) -> Result<Taken, OpeningError> {
    Ok(Taken { len, told })
}

/// A server that offers ANONYMOUS and PLAIN.
pub fn server(alloc: Global) -> Result<Opening, Fail> {
    let mut mechanisms = Vec::new(alloc);
    mechanisms.push(symbol(alloc, "ANONYMOUS")?)?;
    mechanisms.push(symbol(alloc, "PLAIN")?)?;
    there(Opening::server(alloc, mechanisms))
}

/// A way of logging in.
pub fn login(alloc: Global, name: &str, response: &[u8]) -> Result<Login, Fail> {
    Ok(Login {
        mechanism: symbol(alloc, name)?,
        response: Some(Bytes::copy_from_slice(alloc, response)?),
    })
}

/// A client that logs in by a mechanism that the server does not offer, or by PLAIN.
pub fn client(alloc: Global) -> Result<Opening, Fail> {
    let mut logins = Vec::new(alloc);
    logins.push(login(alloc, "EXTERNAL", b"")?)?;
    logins.push(login(alloc, "PLAIN", b"\x00me\x00pw")?)?;
    Ok(Opening::client(alloc, logins, None))
}

/// What goes out, from nothing on.
pub fn output(alloc: Global) -> BytesMut {
    BytesMut::new(alloc)
}
