//! What the engine costs: `bench_engine MODE COUNT BATCH OPEN SESSIONS` begins sessions, one after the other, and in each does one
//! thing COUNT times. What its codec costs: `bench_engine codec MODE COUNT LIMIT` does one thing with each of some frames, COUNT times.
//!
//! The first three lines of the input, in hexadecimal: the peer's Open and a transfer of the peer's, as frames without their size, and the
//! payload of the transfers that go out. Each line after them is a frame for the codec.
//!
//! | MODE | What is done COUNT times |
//! |---|---|
//! | `receive` | BATCH transfers come, and one disposition goes out that accepts them |
//! | `named` | the same, by a relay that names each; after the disposition this side settles them |
//! | `send` | BATCH settled transfers go out |
//! | `unsettled` | BATCH transfers go out, and a received disposition settles each |
//! | `held` | BATCH transfers are held back, and a received flow lets them out |
//!
//! | MODE | What is done once OPEN transfers have gone out unsettled |
//! |---|---|
//! | `forward`, `backward` | COUNT received dispositions settle the lowest that is open, or the highest; BATCH of them in a run |
//! | `middle`, `second` | the same from the number OPEN / 2 on, or of the numbers 0, 2, 4 and so on |
//! | `scattered` | the same of the numbers 7919 i mod OPEN, where i counts from 0 |
//! | `range`, `wide` | COUNT of them come over all that are open, or over 2^31 numbers |
//! | `peak` | all are settled at once, ten more go out, and then as `forward` |
//!
//! | MODE | What is done of received deliveries, which the relay names |
//! |---|---|
//! | `oldest` | OPEN come, from the number 0 on; then COUNT times one more comes, and a received disposition settles the oldest |
//! | `wrapped` | the same from the number 2^32 - OPEN / 2 on, so that half of those that are open are past 2^32 |
//! | `arrivals` | COUNT times OPEN come by the numbers 7919 i mod OPEN, and received dispositions settle them from 0 on |
//!
//! | MODE | What is done through many links, whose input handles the peer chose |
//! |---|---|
//! | `links` | OPEN links are attached at the handles from 1 on; then COUNT times a transfer comes to one of them, and the peer settles it |
//! | `colliding` | the same at handles that collide in a map whose hash has no key |
//!
//! COUNT is at most OPEN in the modes of sent deliveries that settle one after the other, and half of it in `middle` and `second`;
//! of what is not open, nothing is settled.
//!
//! With `idle` for the engine's part, as `bench_engine MODE COUNT BATCH OPEN SESSIONS idle`, the inputs are made and dropped; with `into` the
//! engine sends into one buffer, whose chunks are taken off. For each mode it prints what the engine answered, and how many deliveries of the
//! first session are then open. `tools/bench/bench_engine.py` counts the instructions.
//!
//! | MODE of the codec | What is done COUNT times with each frame |
//! |---|---|
//! | `clone` | the bytes are shared, and nothing is read |
//! | `decode` | `FrameDecoder::decode` |
//! | `read` | `Performative::read`, after the header |
//! | `length` | `Performative::encoded_len` |
//! | `encode` | `FrameEncoder::encode`, into pieces of at most LIMIT bytes |
//!
//! For each it prints how many answers it saw, and a sum over them. `tools/bench/bench.py` counts the instructions.
//!
//! `all` in the place of MODE does all that is said of the engine, the first four into a buffer too, and then all of the codec, into pieces of
//! at most 512 bytes.
#![tactic(auto)]

mod bench;
mod codec;
mod frames;
mod modes;
mod relay;

use bench::{Bench, Part, Plan, Seen};
use bytes::Bytes;
use codec::Sum;
use std::alloc::Global;
use std::env;
use std::io::{self, BufRead, BufReader, Write};

const MODES: [&str; 18] = [
    "receive",
    "named",
    "send",
    "unsettled",
    "held",
    "forward",
    "backward",
    "middle",
    "second",
    "scattered",
    "range",
    "wide",
    "peak",
    "oldest",
    "wrapped",
    "arrivals",
    "links",
    "colliding",
];

/// The most bytes of a piece, where `all` is done.
const LIMIT: u32 = 512;

/// Reads the lines of the input.
fn read_lines(rt: &HostRuntime, lines: &mut Vec<Bytes>) -> anyhow::Result<()> {
    let alloc = rt.alloc();
    for line in BufReader::new(alloc, rt.reader())?.lines(alloc) {
        take_line(alloc, lines, line?.as_str())?;
    }
    Ok(())
}

fn take_line(alloc: Global, lines: &mut Vec<Bytes>, line: &str) -> anyhow::Result<()> {
    let bytes = hex::decode(alloc, line)?;
    lines.push(Bytes::from_vec(bytes)?)?;
    Ok(())
}

/// The line at a place, or no bytes.
fn line(lines: &[Bytes], at: usize) -> anyhow::Result<Bytes> {
    match lines.get(at) {
        Some(bytes) => Ok(bytes.clone()?),
        None => Ok(Bytes::new()),
    }
}

/// The argument at a place, or nothing.
fn word(words: &[String], at: usize) -> &str {
    match words.get(at) {
        Some(word) => word.as_str(),
        None => "",
    }
}

/// COUNT, BATCH and OPEN.
fn counts(words: &[String]) -> anyhow::Result<(u32, u32, u32)> {
    let count = word(words, 2).parse::<u32>()?;
    let batch = word(words, 3).parse::<u32>()?;
    let open = word(words, 4).parse::<u32>()?;
    Ok((count, batch, open))
}

/// The engine's part.
fn part(word: &str) -> Part {
    match word {
        "idle" => Part::Idle,
        "into" => Part::Into,
        _ => Part::Answers,
    }
}

fn plan(alloc: Global, words: &[String], lines: &[Bytes]) -> anyhow::Result<Plan> {
    let (count, batch, open) = counts(words)?;
    let sessions = word(words, 5).parse::<u16>()?;
    Ok(Plan {
        count,
        batch,
        open,
        sessions,
        part: part(word(words, 6)),
        peer_open: line(lines, 0)?,
        transfer: line(lines, 1)?,
        payload: line(lines, 2)?,
        tag: Bytes::copy_from_slice(alloc, b"00000001")?,
    })
}

/// Does what one mode of the engine says, and prints what was answered.
fn measure(rt: &HostRuntime, mode: &str, part: Part, plan: &Plan) -> anyhow::Result<()> {
    let mut bench = Bench::new(rt.alloc(), part);
    let outcome = modes::run(rt.alloc(), &mut bench, mode, plan);
    let (seen, open) = (bench.seen(), bench.open());
    drop(bench);
    outcome?;
    print(rt, mode, seen, open)
}

fn print(rt: &HostRuntime, mode: &str, seen: Seen, open: usize) -> anyhow::Result<()> {
    let (done, refused, frames, sum) = (seen.done, seen.refused, seen.frames, seen.sum);
    writeln!(
        io::writer(rt),
        "{mode} done={done} refused={refused} frames={frames} sum={sum} open={open}"
    )?;
    Ok(())
}

/// Does what one mode of the codec says, and prints what was seen.
fn measure_codec(
    rt: &HostRuntime,
    mode: &str,
    frames: &[Bytes],
    count: u64,
    limit: u32,
) -> anyhow::Result<()> {
    let mut seen = Sum::new();
    codec::run(rt.alloc(), mode, frames, count, limit, &mut seen)?;
    let (answers, sum) = (seen.answers, seen.sum);
    writeln!(io::writer(rt), "{mode} answers={answers} sum={sum}")?;
    Ok(())
}

fn main(rt: HostRuntime) -> anyhow::Result<()> {
    let mut words = Vec::new(rt.alloc());
    let outcome = match read_words(&rt, &mut words) {
        Ok(()) => by_words(&rt, words.as_slice()),
        Err(error) => Err(error),
    };
    drop(words);
    outcome
}

fn read_words(rt: &HostRuntime, words: &mut Vec<String>) -> anyhow::Result<()> {
    for word in env::args(rt)? {
        words.push(word)?;
    }
    Ok(())
}

fn by_words(rt: &HostRuntime, words: &[String]) -> anyhow::Result<()> {
    let mut lines = Vec::new(rt.alloc());
    let outcome = match read_lines(rt, &mut lines) {
        Ok(()) => by_lines(rt, words, lines.as_slice()),
        Err(error) => Err(error),
    };
    drop(lines);
    outcome
}

fn by_lines(rt: &HostRuntime, words: &[String], lines: &[Bytes]) -> anyhow::Result<()> {
    if word(words, 1) == "codec" {
        let count = word(words, 3).parse::<u64>()?;
        let limit = word(words, 4).parse::<u32>()?;
        return measure_codec(rt, word(words, 2), frames_of(lines), count, limit);
    }
    by_plan(rt, words, lines)
}

/// The frames for the codec.
fn frames_of(lines: &[Bytes]) -> &[Bytes] {
    match lines.get(3..) {
        Some(frames) => frames,
        None => &[],
    }
}

fn by_plan(rt: &HostRuntime, words: &[String], lines: &[Bytes]) -> anyhow::Result<()> {
    let plan = plan(rt.alloc(), words, lines)?;
    let mode = word(words, 1);
    let outcome = if mode == "all" {
        measure_all(rt, &plan, frames_of(lines))
    } else {
        measure(rt, mode, plan.part, &plan)
    };
    drop(plan);
    outcome
}

fn measure_all(rt: &HostRuntime, plan: &Plan, frames: &[Bytes]) -> anyhow::Result<()> {
    for mode in &MODES {
        measure(rt, mode, plan.part, plan)?;
    }
    for mode in MODES.iter().take(4) {
        measure(rt, mode, Part::Into, plan)?;
    }
    for mode in &codec::MODES {
        measure_codec(rt, mode, frames, u64::from(plan.count), LIMIT)?;
    }
    Ok(())
}
