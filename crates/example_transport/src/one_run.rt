//! All frames of a recording in one run, which sends into one buffer and tells at which place each refusal stands.

use crate::{Told, engine, push_requests};
use amqp_transport::{push, write_out};
use bytes::Bytes;
use fe2o3_amqp::{Engine, Input, KeyHash, Refusal, ReplayRelay, err_name};
use std::alloc::Global;
use std::collections::VecDeque;
use std::io::{self, Write};

/// Writes whether one run sends the same as several, and what it refuses, each with its place among the inputs.
pub fn tell<O: Write>(
    alloc: Global,
    hash: KeyHash,
    frames: &[Bytes],
    wanted: &[u8],
    out: &mut O,
) -> anyhow::Result<()> {
    let mut sent = Vec::new(alloc);
    let mut told = Told::nothing(alloc);
    let outcome = run_once(alloc, hash, frames, &mut told, &mut sent);
    let is_same = sent.as_slice() == wanted;
    drop(sent);
    let written = match outcome {
        Ok(()) => write(is_same, told.refusals.as_slice(), out),
        Err(error) => Err(error),
    };
    drop(told);
    written
}

fn run_once(
    alloc: Global,
    hash: KeyHash,
    frames: &[Bytes],
    told: &mut Told,
    sent: &mut Vec<u8>,
) -> anyhow::Result<()> {
    let mut engine = engine(alloc, hash)?;
    let mut inputs = VecDeque::new(alloc);
    let outcome = run_all(&mut engine, &mut inputs, frames, told);
    drop(inputs);
    drop(engine);
    outcome?;
    write_out(&mut told.out, sent)?;
    Ok(())
}

fn run_all(
    engine: &mut Engine<ReplayRelay>,
    inputs: &mut VecDeque<Input<ReplayRelay>>,
    frames: &[Bytes],
    told: &mut Told,
) -> anyhow::Result<()> {
    push_requests(inputs)?;
    for frame in frames {
        push(inputs, Input::Received(frame.clone()?))?;
    }
    engine.run_into(inputs, &mut told.out, &mut told.refusals)?;
    Ok(())
}

fn write<O: Write>(is_same: bool, refusals: &[Refusal], out: &mut O) -> anyhow::Result<()> {
    let word = if is_same { "the same" } else { "other" };
    writeln!(out, "one run: {word}")?;
    for refusal in refusals {
        write_refusal(refusal, out)?;
    }
    Ok(())
}

fn write_refusal<O: Write>(refusal: &Refusal, out: &mut O) -> io::Result<()> {
    match refusal {
        Refusal::Input { place, error } => writeln!(out, "at {place}: {}", err_name(error)),
        Refusal::Frame { place: _, frame: _ } => writeln!(out, "a frame does not fit"),
    }
}
