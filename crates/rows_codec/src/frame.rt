//! One frame: decoded, shown, encoded and decoded again.

use crate::written::{one_piece, text_of};
use amqp_frames::{Error, Frame, FrameBody, FrameDecoder};
use amqp_types::{Performative, ReadError};
use bytes::Bytes;
use std::alloc::Global;

// prover: a frame or a performative is looked at by reference, and ended by `drop(..)`.

/// The decoder's refusal.
pub fn refused(error: &Error) -> anyhow::Error {
    anyhow::anyhow!("{error}")
}

/// Whether what was read is the frame, with nothing left.
fn is_frame(read: &Result<(Frame, Bytes), Error>, frame: &Frame) -> anyhow::Result<bool> {
    match read {
        Ok((again, rest)) => Ok(*again == *frame && rest.is_empty()),
        Err(error) => Err(refused(error)),
    }
}

/// Whether the frame is one piece where the limit is above it, and that is read as the frame, with nothing left.
fn is_encoded(alloc: Global, frame: &Frame) -> anyhow::Result<bool> {
    let bytes = one_piece(alloc, u32::MAX, frame)?;
    let read = FrameDecoder::new().decode(alloc, bytes);
    let is_same = is_frame(&read, frame);
    drop(read);
    is_same
}

/// Whether what was read is the performative, with nothing left.
fn is_performative(
    read: &Result<(Performative, Bytes), ReadError>,
    performative: &Performative,
) -> Result<bool, ReadError> {
    match read {
        Ok((again, rest)) => Ok(*again == *performative && rest.is_empty()),
        Err(error) => Err(*error),
    }
}

/// Whether the text that is written has the length that was said, and reads as the same performative with nothing left.
fn is_written(alloc: Global, performative: &Performative) -> anyhow::Result<bool> {
    let text = text_of(alloc, performative)?;
    let read = Performative::read(alloc, text);
    let is_same = is_performative(&read, performative);
    drop(read);
    Ok(is_same?)
}

/// Whether the performative in these bytes is written and read again as the same.
fn is_rewritten(alloc: Global, body: Bytes) -> anyhow::Result<bool> {
    let read = Performative::read(alloc, body);
    let is_same = match &read {
        Ok((performative, _)) => is_written(alloc, performative),
        Err(error) => Err((*error).into()),
    };
    drop(read);
    is_same
}

/// The channel, the performative, and how many bytes follow it.
fn show(alloc: Global, frame: &Frame, rest: usize) -> anyhow::Result<String> {
    let channel = frame.channel();
    match frame.body() {
        FrameBody::Empty => Ok(format!(in alloc; "{channel} empty")?),
        FrameBody::Transfer {
            performative,
            payload,
        } => {
            let len = payload.len();
            Ok(format!(in alloc; "{channel} Transfer({performative:?}) {len}")?)
        }
        body => Ok(format!(in alloc; "{channel} {body:?} {rest}")?),
    }
}

/// Whether frame and performative are written and read again as the same.
fn is_same_again(alloc: Global, frame: &Frame, bytes: &Bytes) -> anyhow::Result<bool> {
    let is_same = is_encoded(alloc, frame)?;
    if !is_same || bytes.len() <= 4 {
        return Ok(is_same);
    }
    let mut body = bytes.clone()?;
    body.advance(4);
    is_rewritten(alloc, body)
}

/// What the frame is shown as, with a mark where it is not read back.
fn describe_frame(
    alloc: Global,
    frame: &Frame,
    rest: usize,
    bytes: &Bytes,
) -> anyhow::Result<String> {
    let text = show(alloc, frame, rest)?;
    if is_same_again(alloc, frame, bytes)? {
        return Ok(text);
    }
    Ok(format!(in alloc; "{text} is not read back")?)
}

/// What was read is shown as.
fn describe_read(
    alloc: Global,
    read: &Result<(Frame, Bytes), Error>,
    bytes: &Bytes,
) -> anyhow::Result<String> {
    match read {
        Ok((frame, rest)) => describe_frame(alloc, frame, rest.len(), bytes),
        Err(Error::DecodeError) => Ok(String::from_str(alloc, "malformed")?),
        Err(error) => Err(refused(error)),
    }
}

fn describe_bytes(alloc: Global, bytes: &Bytes) -> anyhow::Result<String> {
    let read = FrameDecoder::new().decode(alloc, bytes.clone()?);
    let text = describe_read(alloc, &read, bytes);
    drop(read);
    text
}

/// What the frame in these hexadecimal digits says: its channel, its performative and how many bytes of payload follow.
pub fn describe(alloc: Global, line: &str) -> anyhow::Result<String> {
    let bytes = Bytes::from_vec(hex::decode(alloc, line)?)?;
    let text = describe_bytes(alloc, &bytes);
    drop(bytes);
    text
}
