//! Frames: each line of the input is a frame in hexadecimal, and each line of the output is what it says. Other lines begin by a mark:
//!
//! - `=FRAME`: the frame as it is written, `+`, and what is left after it; the text of its performative, `+`, and what is left; the
//!   performative's fields. Either is `malformed` where it is refused.
//! - `~FRAME`: each byte of the frame is changed three times, and each proper front stands alone: a letter for each.
//! - `?TEXT TEXT ..`: for each performative after the first a letter, `=` where it is the same as the first.
//! - `LIMIT FRAME ..`: the pieces of at most so many bytes of a message, whose frames these are; or `too large`.
//! - `#LIMIT FRAME`: the digest of the pieces of each front of this transfer that is a frame: with each front of its payload, and the empty
//!   frame.
//! - `/LIMIT FRAME`: the transfers of one piece each that this one is split into, and the piece of each where its delivery has the
//!   greatest number.
#![tactic(auto)]

mod alike;
mod frame;
mod fronts;
mod hostile;
mod message;
mod parts;
mod pieces;
mod written;

use std::alloc::Global;
use std::io::{self, BufRead, BufReader, BufWriter, Write};

fn main(rt: HostRuntime) -> anyhow::Result<()> {
    let alloc = rt.alloc();
    let mut out = BufWriter::new(alloc, io::writer(&rt))?;
    for line in BufReader::new(alloc, rt.reader())?.lines(alloc) {
        let text = answer(alloc, line?.as_str())?;
        writeln!(out, "{text}")?;
    }
    out.flush()?;
    Ok(())
}

/// What a line is answered.
fn answer(alloc: Global, line: &str) -> anyhow::Result<String> {
    if let Some(digits) = line.strip_prefix("~") {
        return hostile::answers(alloc, digits);
    }
    if let Some(digits) = line.strip_prefix("=") {
        return written::describe(alloc, digits);
    }
    if let Some(texts) = line.strip_prefix("?") {
        return alike::compare(alloc, texts);
    }
    match line.split_once(' ') {
        Some((limit, frames)) => at_limit(alloc, limit, frames),
        None => frame::describe(alloc, line),
    }
}

/// What frames are cut into.
fn at_limit(alloc: Global, limit: &str, frames: &str) -> anyhow::Result<String> {
    if let Some(limit) = limit.strip_prefix("#") {
        return fronts::digest(alloc, limit.parse::<u32>()?, frames);
    }
    if let Some(limit) = limit.strip_prefix("/") {
        return parts::describe(alloc, limit.parse::<u32>()?, frames);
    }
    of_message(alloc, limit.parse::<u32>()?, frames)
}

/// The pieces of a message, at most `limit` bytes each.
fn of_message(alloc: Global, limit: u32, frames: &str) -> anyhow::Result<String> {
    let frame = message::joined(alloc, frames)?;
    let text = pieces::describe(alloc, limit, &frame);
    drop(frame);
    text
}
