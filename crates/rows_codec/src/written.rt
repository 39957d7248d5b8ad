//! A frame as it is written, and its performative alone: each with what is left after it.

use crate::frame::refused;
use amqp_frames::{Error, Frame, FrameDecoder, FrameEncoder, Piece};
use amqp_types::{Performative, ReadError};
use bytes::{Bytes, BytesMut};
use std::alloc::Global;

// prover: a frame or a performative is looked at by reference, and ended by `drop(..)`.

/// What was written, and what is left, in hexadecimal.
fn show(alloc: Global, written: &[u8], rest: &[u8]) -> anyhow::Result<String> {
    let written = hex::encode(alloc, written)?;
    let rest = hex::encode(alloc, rest)?;
    Ok(format!(in alloc; "{written}+{rest}")?)
}

fn malformed(alloc: Global) -> anyhow::Result<String> {
    Ok(String::from_str(alloc, "malformed")?)
}

fn only(alloc: Global, pieces: &[Piece]) -> anyhow::Result<Bytes> {
    match pieces {
        [piece] => Ok(piece.to_bytes(alloc)?),
        _ => Err(anyhow::anyhow!("not one piece")),
    }
}

/// The one piece of the frame at this limit.
pub fn one_piece(alloc: Global, limit: u32, frame: &Frame) -> anyhow::Result<Bytes> {
    if limit < 4 {
        anyhow::bail!("a limit below a header");
    }
    let pieces = FrameEncoder::new(limit).encode(alloc, frame)?;
    let bytes = only(alloc, pieces.as_slice());
    drop(pieces);
    bytes
}

fn show_frame(alloc: Global, frame: &Frame, rest: &Bytes) -> anyhow::Result<String> {
    let bytes = one_piece(alloc, u32::MAX, frame)?;
    show(alloc, bytes.as_slice(), rest.as_slice())
}

/// The frame as one piece, and what is left after it.
fn of_frame(alloc: Global, bytes: Bytes) -> anyhow::Result<String> {
    let read = FrameDecoder::new().decode(alloc, bytes);
    let text = match &read {
        Ok((frame, rest)) => show_frame(alloc, frame, rest),
        Err(Error::DecodeError) => malformed(alloc),
        Err(error) => Err(refused(error)),
    };
    drop(read);
    text
}

/// The text that is written; its length has to be the one that is said.
pub fn text_of(alloc: Global, performative: &Performative) -> anyhow::Result<Bytes> {
    let mut out = BytesMut::new(alloc);
    performative.write(&mut out, u32::MAX)?;
    if performative.encoded_len() != out.len() as u128 {
        anyhow::bail!("another length than was said");
    }
    Ok(out.freeze()?)
}

/// Whether a copy of the performative is the same, and has the same text.
fn has_its_copy(alloc: Global, performative: &Performative, text: &Bytes) -> anyhow::Result<bool> {
    let copy = performative.clone()?;
    let is_same = copy == *performative;
    let again = text_of(alloc, &copy);
    drop(copy);
    Ok(again?.as_slice() == text.as_slice() && is_same)
}

fn show_performative(
    alloc: Global,
    performative: &Performative,
    rest: &Bytes,
) -> anyhow::Result<String> {
    let text = text_of(alloc, performative)?;
    if !has_its_copy(alloc, performative, &text)? {
        anyhow::bail!("a copy that is another one");
    }
    let bytes = show(alloc, text.as_slice(), rest.as_slice())?;
    Ok(format!(in alloc; "{bytes} {performative:?}")?)
}

/// The performative's text, what is left after it, and its fields.
fn of_performative(alloc: Global, body: Bytes) -> anyhow::Result<String> {
    let read = Performative::read(alloc, body);
    let text = match &read {
        Ok((performative, rest)) => show_performative(alloc, performative, rest),
        Err(ReadError::Malformed) => malformed(alloc),
        Err(error) => Err((*error).into()),
    };
    drop(read);
    text
}

/// What the frame in these hexadecimal digits is written as, and what the performative after its header is.
pub fn describe(alloc: Global, digits: &str) -> anyhow::Result<String> {
    let bytes = Bytes::from_vec(hex::decode(alloc, digits)?)?;
    if bytes.len() < 4 {
        anyhow::bail!("no header");
    }
    let mut body = bytes.clone()?;
    body.advance(4);
    let frame = of_frame(alloc, bytes)?;
    let performative = of_performative(alloc, body)?;
    Ok(format!(in alloc; "{frame} {performative}")?)
}
