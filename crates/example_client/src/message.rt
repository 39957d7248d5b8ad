//! The bytes of a message, and of the ends of its link (AMQP 1.0 part 3, sections 3.2.8, 3.5.3 and 3.5.4).

use amqp_driver::{TransferHead, flag};
use bytes::Bytes;
use fe2o3_amqp::Raw;
use std::alloc::{AllocError, Global};

/// How many bytes a tag has: it is the number of its message.
const TAG: u16 = 4;

/// A message: its tag, and then one section, a value that is this text.
pub fn message(alloc: Global, number: u32, text: &str) -> Result<Vec<u8>, AllocError> {
    let mut bytes = Vec::new(alloc);
    bytes.extend_from_slice(&number.to_be_bytes())?;
    bytes.extend_from_slice(b"\x00\x53\x77")?;
    push_string(&mut bytes, text)?;
    Ok(bytes)
}

/// The head of a message, whose tag and section have so many bytes. The server is to settle it: it lacks the flag `SETTLED`.
pub fn head(link: u32, size: usize) -> TransferHead {
    TransferHead {
        session: 0,
        link,
        format: 0,
        payload: count(size.saturating_sub(TAG as usize)),
        flags: flag::TAGGED | flag::FORMATTED,
        tag_size: TAG,
    }
}

/// A source that says nothing: a described list of no fields.
pub fn source(alloc: Global) -> Result<Option<Raw>, AllocError> {
    Ok(Raw::of_bytes(Bytes::copy_from_slice(alloc, b"\x00\x53\x28\x45")?))
}

/// The target of this address: a described list of one field.
pub fn target(alloc: Global, address: &str) -> Result<Option<Raw>, AllocError> {
    let mut bytes = Vec::new(alloc);
    bytes.extend_from_slice(b"\x00\x53\x29\xd0")?;
    let size = count(address.len()).saturating_add(9);
    bytes.extend_from_slice(&size.to_be_bytes())?;
    bytes.extend_from_slice(&1u32.to_be_bytes())?;
    push_string(&mut bytes, address)?;
    Ok(Raw::of_bytes(Bytes::copy_from_slice(alloc, bytes.as_slice())?))
}

fn push_string(bytes: &mut Vec<u8>, text: &str) -> Result<(), AllocError> {
    bytes.push(0xb1)?;
    bytes.extend_from_slice(&count(text.len()).to_be_bytes())?;
    bytes.extend_from_slice(text.as_bytes())
}

fn count(size: usize) -> u32 {
    u32::try_from(size).unwrap_or(u32::MAX)
}
