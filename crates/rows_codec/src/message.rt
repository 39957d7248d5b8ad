//! A message from the frames that carried it (AMQP 1.0 part 2, section 2.6.14).

use amqp_frames::{Frame, FrameBody, FrameDecoder};
use amqp_types::Transfer;
use bytes::{Bytes, BytesMut};
use std::alloc::{AllocError, Global};

/// A transfer, its channel and its payload.
#[derive(Drop)]
pub struct Part {
    pub channel: u16,
    pub transfer: Transfer,
    pub payload: Bytes,
}

/// The transfer that stands in these bytes.
pub fn read_part(alloc: Global, bytes: Bytes) -> anyhow::Result<Part> {
    match FrameDecoder::new().decode(alloc, bytes) {
        Ok((frame, rest)) => {
            drop(rest);
            transfer_of(frame)
        }
        Err(error) => Err(error.into()),
    }
}

/// The transfer of the frame.
fn transfer_of(frame: Frame) -> anyhow::Result<Part> {
    let channel = frame.channel();
    match frame.into_body() {
        FrameBody::Transfer {
            performative,
            payload,
        } => Ok(Part {
            channel,
            transfer: performative,
            payload,
        }),
        other => {
            drop(other);
            Err(anyhow::anyhow!("no transfer"))
        }
    }
}

fn recorded(alloc: Global, digits: &str) -> anyhow::Result<Part> {
    let bytes = hex::decode(alloc, digits)?;
    read_part(alloc, Bytes::from_vec(bytes)?)
}

/// Appends the part's payload.
pub fn append(all: &mut BytesMut, part: Part) -> Result<(), AllocError> {
    let appended = all.extend_from_slice(part.payload.as_slice());
    drop(part);
    appended
}

fn append_all(alloc: Global, all: &mut BytesMut, frames: &str) -> anyhow::Result<()> {
    for digits in frames.split(' ') {
        append(all, recorded(alloc, digits)?)?;
    }
    Ok(())
}

/// The payload of all frames, in order.
fn payload(alloc: Global, frames: &str) -> anyhow::Result<Bytes> {
    let mut all = BytesMut::new(alloc);
    match append_all(alloc, &mut all, frames) {
        Ok(()) => Ok(all.freeze()?),
        Err(error) => {
            drop(all);
            Err(error)
        }
    }
}

/// The first of the frames, without its payload.
fn first(alloc: Global, frames: &str) -> anyhow::Result<(u16, Transfer)> {
    let digits = frames.split(' ').next().unwrap_or("");
    let Part {
        channel,
        transfer,
        payload,
    } = recorded(alloc, digits)?;
    drop(payload);
    Ok((channel, transfer))
}

/// The one frame that the frames in hexadecimal are the pieces of: the first transfer, after which no more follows where there are several,
/// and the payload of all.
pub fn joined(alloc: Global, frames: &str) -> anyhow::Result<Frame> {
    let payload = payload(alloc, frames)?;
    let (channel, mut performative) = first(alloc, frames)?;
    performative.more = performative.more && !frames.contains(' ');
    let body = FrameBody::Transfer {
        performative,
        payload,
    };
    Ok(Frame::new(channel, body))
}
