//! Reading the script, and the words of its lines.

use bytes::Bytes;
use fe2o3_amqp::{InputHandle, Performative, ReadError, Role, SessionNo, hex_bytes};
use std::alloc::{AllocError, Global};
use std::io::Read;

/// All of standard input.
pub fn text(rt: &HostRuntime) -> anyhow::Result<Vec<u8>> {
    let mut all = Vec::new(rt.alloc());
    let mut buffer = [0u8; 4096];
    for _ in 0..1000 {
        let count = rt.reader().read(&mut buffer)?;
        if count == 0 {
            return Ok(all);
        }
        let part = buffer.get(..count).unwrap_or(&[]);
        if all.extend_from_slice(part).is_err() {
            // one request alone is refused, and the second one is granted
            all.extend_from_slice(part)?;
        }
    }
    Err(anyhow::anyhow!("the script is too long"))
}

/// A session's number.
pub fn session(text: &str) -> Option<SessionNo> {
    match text.parse::<u32>() {
        Ok(number) => Some(SessionNo(number)),
        Err(_) => None,
    }
}

/// An input handle.
pub fn handle(text: &str) -> Option<InputHandle> {
    match text.parse::<u32>() {
        Ok(number) => Some(InputHandle(number)),
        Err(_) => None,
    }
}

/// A role.
pub fn role(text: &str) -> Option<Role> {
    match text {
        "receiver" => Some(Role::Receiver),
        "sender" => Some(Role::Sender),
        _ => None,
    }
}

/// The bytes of these digits; none where they are no digits.
pub fn bytes(alloc: Global, digits: &str) -> Result<Bytes, AllocError> {
    Ok(hex_bytes(alloc, digits)?.unwrap_or(Bytes::new()))
}

/// The performative of these digits, if they hold one, and what follows it.
pub fn performative(
    alloc: Global,
    digits: &str,
) -> Result<Option<(Performative, Bytes)>, AllocError> {
    match Performative::read(alloc, bytes(alloc, digits)?) {
        Ok(read) => Ok(Some(read)),
        Err(ReadError::Malformed) => Ok(None),
        Err(ReadError::OutOfMemory) => Err(AllocError),
    }
}
