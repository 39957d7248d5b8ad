//! The pieces of a message, as they are shown and as they are read.

use crate::frame::refused;
use crate::message::{append, read_part};
use amqp_frames::{Error, Frame, FrameBody, FrameEncoder, Piece};
use bytes::{Bytes, BytesMut};
use sha2::{Digest, Sha256};
use std::alloc::Global;

/// Each piece's head in hexadecimal, the length of its part of the payload, and its own.
fn show(alloc: Global, text: &mut String, pieces: &[Piece]) -> anyhow::Result<()> {
    for piece in pieces {
        let head = hex::encode(alloc, piece.head())?;
        let part = piece.payload().len();
        let len = piece.len();
        let line = format!(in alloc; "\n{head} {part} {len}")?;
        text.push_str(line.as_str())?;
    }
    Ok(())
}

/// The payload of the transfers that the pieces are read as, in order.
fn read(alloc: Global, pieces: &[Piece], all: &mut BytesMut) -> anyhow::Result<()> {
    for piece in pieces {
        append(all, read_part(alloc, piece.to_bytes(alloc)?)?)?;
    }
    Ok(())
}

/// The payload's length and digest, which is taken of what was read back.
fn heading(alloc: Global, count: usize, payload: &Bytes, again: &[u8]) -> anyhow::Result<String> {
    let mark = if payload.as_slice() == again {
        "whole"
    } else {
        "not whole"
    };
    let digest = hex::encode(alloc, Sha256::digest(again).as_slice())?;
    let len = again.len();
    Ok(format!(in alloc; "{count} pieces, {len} bytes, {mark}, {digest}")?)
}

/// The pieces of the frame at this limit, and what they are read as.
pub fn describe(alloc: Global, limit: u32, frame: &Frame) -> anyhow::Result<String> {
    if limit < 4 {
        anyhow::bail!("a limit below a header");
    }
    let pieces = FrameEncoder::new(limit).encode(alloc, frame);
    let text = match &pieces {
        Ok(pieces) => describe_pieces(alloc, frame, pieces.as_slice()),
        Err(Error::TooLarge) => Ok(String::from_str(alloc, "too large")?),
        Err(error) => Err(refused(error)),
    };
    drop(pieces);
    text
}

/// The pieces of the frame, and what they are read as.
fn describe_pieces(alloc: Global, frame: &Frame, pieces: &[Piece]) -> anyhow::Result<String> {
    let FrameBody::Transfer {
        performative: _,
        payload,
    } = frame.body()
    else {
        anyhow::bail!("no transfer");
    };
    let mut again = BytesMut::new(alloc);
    let text = compare(alloc, pieces, payload, &mut again);
    drop(again);
    text
}

/// The pieces of this payload, and what they are read as, which is put there.
fn compare(
    alloc: Global,
    pieces: &[Piece],
    payload: &Bytes,
    again: &mut BytesMut,
) -> anyhow::Result<String> {
    read(alloc, pieces, again)?;
    let mut text = heading(alloc, pieces.len(), payload, again.as_slice())?;
    show(alloc, &mut text, pieces)?;
    Ok(text)
}
