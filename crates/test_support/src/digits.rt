//! What hexadecimal digits say.

use amqp_types::Performative;
use bytes::Bytes;
use std::alloc::Global;

/// The bytes that hexadecimal digits say.
pub fn bytes(alloc: Global, digits: &str) -> anyhow::Result<Bytes> {
    Ok(Bytes::from_vec(hex::decode(alloc, digits)?)?)
}

/// The performative that hexadecimal digits say, and what follows it.
pub fn performative(alloc: Global, digits: &str) -> anyhow::Result<(Performative, Bytes)> {
    Ok(Performative::read(alloc, bytes(alloc, digits)?)?)
}
