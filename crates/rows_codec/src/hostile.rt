//! A frame of which a byte is another one, or the end is cut off: what the decoder answers, as a letter.

use crate::frame::refused;
use amqp_frames::{Error, Frame, FrameBody, FrameDecoder};
use amqp_types::{Performative, ReadError};
use bytes::Bytes;
use std::alloc::Global;

/// The letter of what the frame holds.
fn held(frame: &Frame) -> &'static str {
    match frame.body() {
        FrameBody::Open(_) => "O",
        FrameBody::Begin(_) => "B",
        FrameBody::Attach(_) => "A",
        FrameBody::Flow(_) => "F",
        FrameBody::Transfer { .. } => "T",
        FrameBody::Disposition(_) => "D",
        FrameBody::Detach(_) => "X",
        FrameBody::End(_) => "N",
        FrameBody::Close(_) => "C",
        FrameBody::Empty => "E",
    }
}

/// The letter of this answer.
fn letter_of(read: &Result<(Frame, Bytes), Error>) -> anyhow::Result<&'static str> {
    match read {
        Ok((frame, _)) => Ok(held(frame)),
        Err(Error::DecodeError) => Ok("d"),
        Err(Error::NotImplemented) => Ok("n"),
        Err(error) => Err(refused(error)),
    }
}

/// The letter of what the decoder answers.
fn decoded(alloc: Global, bytes: &[u8]) -> anyhow::Result<&'static str> {
    let bytes = Bytes::copy_from_slice(alloc, bytes)?;
    let read = FrameDecoder::new().decode(alloc, bytes);
    let letter = letter_of(&read);
    drop(read);
    letter
}

/// Whether a performative is read from the bytes.
fn is_performative(alloc: Global, bytes: &[u8]) -> anyhow::Result<bool> {
    let bytes = Bytes::copy_from_slice(alloc, bytes)?;
    let read = Performative::read(alloc, bytes);
    let is_one = match &read {
        Ok(_) => Ok(true),
        Err(ReadError::Malformed) => Ok(false),
        Err(error) => Err((*error).into()),
    };
    drop(read);
    is_one
}

/// The letter of what the decoder answers, or `?` where a performative is read after the header of what is no frame, or none in a frame.
fn letter(alloc: Global, bytes: &[u8]) -> anyhow::Result<&'static str> {
    let letter = decoded(alloc, bytes)?;
    let is_one = is_performative(alloc, bytes.get(4..).unwrap_or(&[]))?;
    let is_none = letter == "d" || letter == "E";
    Ok(if letter == "n" || is_one != is_none {
        letter
    } else {
        "?"
    })
}

/// The letters of the frame with a byte that is 00, ff and its complement.
fn changed(alloc: Global, bytes: &mut Vec<u8>, at: usize, said: &mut String) -> anyhow::Result<()> {
    let Some(byte) = bytes.get(at).copied() else {
        return Ok(());
    };
    for other in [0, 0xff, byte ^ 0xff] {
        if let Some(place) = bytes.get_mut(at) {
            *place = other;
        }
        said.push_str(letter(alloc, bytes.as_slice())?)?;
    }
    if let Some(place) = bytes.get_mut(at) {
        *place = byte;
    }
    Ok(())
}

/// The letters of each of the frame's proper fronts.
fn fronts(alloc: Global, bytes: &[u8], said: &mut String) -> anyhow::Result<()> {
    for length in 0..bytes.len() {
        let Some(front) = bytes.get(..length) else {
            anyhow::bail!("no front");
        };
        said.push_str(letter(alloc, front)?)?;
    }
    Ok(())
}

fn letters(alloc: Global, bytes: &mut Vec<u8>, said: &mut String) -> anyhow::Result<()> {
    for at in 0..bytes.len() {
        changed(alloc, bytes, at, said)?;
    }
    fronts(alloc, bytes.as_slice(), said)
}

/// The letters of the frame with each byte changed in turn, and then of each of its proper fronts.
pub fn answers(alloc: Global, digits: &str) -> anyhow::Result<String> {
    let mut bytes = hex::decode(alloc, digits)?;
    let mut said = String::new(alloc);
    let outcome = letters(alloc, &mut bytes, &mut said);
    drop(bytes);
    match outcome {
        Ok(()) => Ok(said),
        Err(error) => {
            drop(said);
            Err(error)
        }
    }
}
