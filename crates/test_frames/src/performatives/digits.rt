//! Performatives as hexadecimal digits.

use amqp_types::Performative;
use bytes::{Bytes, BytesMut};
use std::alloc::Global;
use std::test::Fail;

/// The performative that the digits spell, with nothing after it.
pub fn read(alloc: Global, digits: &str) -> Result<Performative, Fail> {
    let bytes = Bytes::from_vec(hex::decode(alloc, digits)?)?;
    let (performative, rest) = Performative::read(alloc, bytes)?;
    if rest.is_empty() {
        return Ok(performative);
    }
    drop(performative);
    Err("bytes are left".into())
}

/// The digits of the text that is written; its length has to be the one that `encoded_len` answers.
pub fn written(alloc: Global, performative: &Performative) -> Result<String, Fail> {
    let mut out = BytesMut::new(alloc);
    performative.write(&mut out, u32::MAX)?;
    if performative.encoded_len() != out.len() as u128 {
        return Err("the length is not what was said".into());
    }
    Ok(hex::encode(alloc, out.as_slice())?)
}
