//! The modes of the codec. An answer is looked at where it stands, by a function of its own: so nothing can be left out, and it is not moved.

use crate::bench::of_piece;
use bytes::Bytes;
use fe2o3_amqp::{Frame, FrameBody, FrameDecoder, FrameEncoder, Performative};
use std::alloc::{AllocError, Global};

/// The modes.
pub const MODES: [&str; 5] = ["clone", "decode", "read", "length", "encode"];

/// What was seen of the codec's answers.
#[derive(Clone, Copy)]
pub struct Sum {
    /// How many there were.
    pub answers: u64,
    /// A sum over them.
    pub sum: u64,
}

impl Sum {
    pub fn new() -> Sum {
        Sum { answers: 0, sum: 0 }
    }

    fn see(&mut self, value: u64) {
        self.answers = self.answers.wrapping_add(1);
        self.sum = self.sum.wrapping_add(value);
    }
}

/// Does what the mode says, `count` times with each frame. An unknown mode does nothing.
pub fn run(
    alloc: Global,
    mode: &str,
    frames: &[Bytes],
    count: u64,
    limit: u32,
    seen: &mut Sum,
) -> anyhow::Result<()> {
    match mode {
        "clone" => share(frames, count, seen)?,
        "decode" => decode(alloc, frames, count, seen)?,
        "read" => read_bodies(alloc, frames, count, seen)?,
        "length" => measure_all(alloc, frames, count, seen)?,
        "encode" => encode_all(alloc, frames, count, limit, seen)?,
        _ => {}
    }
    Ok(())
}

// prover

fn read_bodies(
    alloc: Global,
    frames: &[Bytes],
    count: u64,
    seen: &mut Sum,
) -> Result<(), AllocError> {
    let bodies = bodies(alloc, frames)?;
    let outcome = read(alloc, bodies.as_slice(), count, seen);
    drop(bodies);
    outcome
}

fn measure_all(alloc: Global, frames: &[Bytes], count: u64, seen: &mut Sum) -> anyhow::Result<()> {
    let performatives = performatives(alloc, frames)?;
    measure(performatives.as_slice(), count, seen);
    drop(performatives);
    Ok(())
}

fn encode_all(
    alloc: Global,
    frames: &[Bytes],
    count: u64,
    limit: u32,
    seen: &mut Sum,
) -> anyhow::Result<()> {
    let decoded = decoded(alloc, frames)?;
    encode(alloc, decoded.as_slice(), count, limit, seen);
    drop(decoded);
    Ok(())
}

#[inline(never)]
fn of_bytes(bytes: &Bytes) -> u64 {
    bytes.len() as u64
}

#[inline(never)]
fn of_frame(frame: &Frame, rest: &Bytes) -> u64 {
    match frame.body() {
        FrameBody::Transfer {
            performative,
            payload,
        } => u64::from(performative.handle.0) ^ payload.len() as u64,
        FrameBody::Flow(flow) => u64::from(flow.incoming_window),
        _ => u64::from(frame.channel()) ^ rest.len() as u64,
    }
}

#[inline(never)]
fn of_performative(performative: &Performative, rest: &Bytes) -> u64 {
    match performative {
        Performative::Transfer(transfer) => u64::from(transfer.handle.0) ^ rest.len() as u64,
        Performative::Flow(flow) => u64::from(flow.incoming_window),
        _ => rest.len() as u64,
    }
}

fn share(frames: &[Bytes], count: u64, seen: &mut Sum) -> Result<(), AllocError> {
    for _ in 0..count {
        for bytes in frames {
            let copy = bytes.clone()?;
            seen.see(of_bytes(&copy));
        }
    }
    Ok(())
}

fn decode(alloc: Global, frames: &[Bytes], count: u64, seen: &mut Sum) -> Result<(), AllocError> {
    let decoder = FrameDecoder::new();
    for _ in 0..count {
        for bytes in frames {
            let answer = decoder.decode(alloc, bytes.clone()?);
            if let Ok(read) = &answer {
                seen.see(of_frame(&read.0, &read.1));
            }
        }
    }
    Ok(())
}

fn read(alloc: Global, bodies: &[Bytes], count: u64, seen: &mut Sum) -> Result<(), AllocError> {
    for _ in 0..count {
        for bytes in bodies {
            let answer = Performative::read(alloc, bytes.clone()?);
            if let Ok(read) = &answer {
                seen.see(of_performative(&read.0, &read.1));
            }
        }
    }
    Ok(())
}

fn measure(performatives: &[Performative], count: u64, seen: &mut Sum) {
    for _ in 0..count {
        for performative in performatives {
            let len = performative.encoded_len().min(u128::from(u32::MAX));
            seen.see(len as u64);
        }
    }
}

fn encode(alloc: Global, frames: &[Frame], count: u64, limit: u32, seen: &mut Sum) {
    let encoder = FrameEncoder::new(limit.max(4));
    for _ in 0..count {
        for frame in frames {
            let answer = encoder.encode(alloc, frame);
            if let Ok(pieces) = &answer {
                for piece in pieces.iter() {
                    seen.see(of_piece(piece));
                }
            }
        }
    }
}

/// What stands after the header.
fn body(bytes: &Bytes) -> Result<Bytes, AllocError> {
    let mut body = bytes.clone()?;
    if body.len() >= 4 {
        body.advance(4);
    }
    Ok(body)
}

/// What stands after the headers.
fn bodies(alloc: Global, frames: &[Bytes]) -> Result<Vec<Bytes>, AllocError> {
    let mut bodies = Vec::new(alloc);
    for bytes in frames {
        bodies.push(body(bytes)?)?;
    }
    Ok(bodies)
}

// prover
fn add<T: Drop>(all: &mut Vec<T>, value: T) -> Result<(), AllocError> {
    all.push(value)?;
    Ok(())
}

fn performatives(alloc: Global, frames: &[Bytes]) -> anyhow::Result<Vec<Performative>> {
    let mut performatives = Vec::new(alloc);
    match add_performatives(alloc, frames, &mut performatives) {
        Ok(()) => Ok(performatives),
        Err(error) => {
            drop(performatives);
            Err(error)
        }
    }
}

fn add_performatives(
    alloc: Global,
    frames: &[Bytes],
    all: &mut Vec<Performative>,
) -> anyhow::Result<()> {
    for bytes in frames {
        match Performative::read(alloc, body(bytes)?) {
            Ok((performative, rest)) => {
                drop(rest);
                add(all, performative)?;
            }
            Err(error) => return Err(error.into()),
        }
    }
    Ok(())
}

fn decoded(alloc: Global, frames: &[Bytes]) -> anyhow::Result<Vec<Frame>> {
    let mut decoded = Vec::new(alloc);
    match add_decoded(alloc, frames, &mut decoded) {
        Ok(()) => Ok(decoded),
        Err(error) => {
            drop(decoded);
            Err(error)
        }
    }
}

fn add_decoded(alloc: Global, frames: &[Bytes], all: &mut Vec<Frame>) -> anyhow::Result<()> {
    for bytes in frames {
        match FrameDecoder::new().decode(alloc, bytes.clone()?) {
            Ok((frame, rest)) => {
                drop(rest);
                add(all, frame)?;
            }
            Err(error) => return Err(error.into()),
        }
    }
    Ok(())
}
