//! The pieces of each front of a frame: of a transfer with each front of its payload.

use crate::frame::refused;
use amqp_frames::{Error, Frame, FrameDecoder, FrameEncoder, Piece};
use bytes::Bytes;
use sha2::{Digest, Sha256};
use std::alloc::Global;

// prover: a frame is looked at by reference, and ended by `drop(..)`.

/// Adds a line for each piece.
fn add_pieces(alloc: Global, text: &mut String, pieces: &[Piece]) -> anyhow::Result<()> {
    for piece in pieces {
        let digits = hex::encode(alloc, piece.to_bytes(alloc)?.as_slice())?;
        text.push_str(digits.as_str())?;
        text.push('\n')?;
    }
    Ok(())
}

/// Adds the pieces of the frame at this limit, and an empty line.
fn add(alloc: Global, limit: u32, frame: &Frame, text: &mut String) -> anyhow::Result<()> {
    if limit < 4 {
        anyhow::bail!("a limit below a header");
    }
    let pieces = FrameEncoder::new(limit).encode(alloc, frame);
    let added = match &pieces {
        Ok(pieces) => add_pieces(alloc, text, pieces.as_slice()),
        Err(Error::TooLarge) => text.push_str("too large\n").map_err(anyhow::Error::from),
        Err(error) => Err(refused(error)),
    };
    drop(pieces);
    added?;
    Ok(text.push('\n')?)
}

/// Adds those of the frame in these bytes, if they are one.
fn add_front(alloc: Global, limit: u32, bytes: &[u8], text: &mut String) -> anyhow::Result<()> {
    let bytes = Bytes::copy_from_slice(alloc, bytes)?;
    let read = FrameDecoder::new().decode(alloc, bytes);
    let added = match &read {
        Ok((frame, _)) => add(alloc, limit, frame, text),
        Err(Error::DecodeError) => Ok(()),
        Err(error) => Err(refused(error)),
    };
    drop(read);
    added
}

/// The digest of the lines of the pieces at this limit, of each front of the frame in these digits that is a frame.
pub fn digest(alloc: Global, limit: u32, digits: &str) -> anyhow::Result<String> {
    let bytes = hex::decode(alloc, digits)?;
    let mut text = String::new(alloc);
    for len in 0..bytes.len() {
        add_front(alloc, limit, bytes.get(..len).unwrap_or(&[]), &mut text)?;
    }
    add_front(alloc, limit, bytes.as_slice(), &mut text)?;
    Ok(hex::encode(alloc, Sha256::digest(text.as_bytes()).as_slice())?)
}
