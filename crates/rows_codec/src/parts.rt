//! A delivery as transfers of one frame each.

use crate::frame::refused;
use crate::message::{Part, read_part};
use crate::written::one_piece;
use amqp_frames::{DeliveryPart, Error, Frame, FrameBody, split_delivery};
use bytes::Bytes;
use std::alloc::Global;

// prover: a frame is looked at by reference, and ended by `drop(..)`.

/// The part as one piece at this limit, where its delivery has the greatest number.
fn widest(alloc: Global, limit: u32, part: &DeliveryPart) -> anyhow::Result<Bytes> {
    let payload = part.payload.clone()?;
    let mut performative = part.transfer.clone()?;
    performative.delivery_id = if part.is_first { Some(u32::MAX) } else { None };
    let body = FrameBody::Transfer {
        performative,
        payload,
    };
    let frame = Frame::new(0, body);
    let bytes = one_piece(alloc, limit, &frame);
    drop(frame);
    bytes
}

/// A line for each part.
fn show(alloc: Global, limit: u32, parts: &[DeliveryPart]) -> anyhow::Result<String> {
    let count = parts.len();
    let mut text = format!(in alloc; "{count} parts")?;
    for part in parts {
        let place = if part.is_first { "first" } else { "later" };
        let transfer = &part.transfer;
        let piece = hex::encode(alloc, widest(alloc, limit, part)?.as_slice())?;
        let line = format!(in alloc; "\n{place} {transfer:?} {piece}")?;
        text.push_str(line.as_str())?;
    }
    Ok(text)
}

/// The parts of the transfer.
fn of_part(alloc: Global, limit: u32, part: &Part) -> anyhow::Result<String> {
    let parts = split_delivery(alloc, &part.transfer, &part.payload, limit);
    let text = match &parts {
        Ok(parts) => show(alloc, limit, parts.as_slice()),
        Err(Error::TooLarge) => Ok(String::from_str(alloc, "too large")?),
        Err(error) => Err(refused(error)),
    };
    drop(parts);
    text
}

/// The transfers of one piece each that the one in these hexadecimal digits is split into.
pub fn describe(alloc: Global, limit: u32, digits: &str) -> anyhow::Result<String> {
    let part = read_part(alloc, Bytes::from_vec(hex::decode(alloc, digits)?)?)?;
    let text = of_part(alloc, limit, &part);
    drop(part);
    text
}
