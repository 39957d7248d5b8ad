//! Frames of a recorded peer come as a stream of bytes, in chunks of several sizes, and alone: an engine answers the same, and so does a stream of
//! `amqp_driver` over a reader and a writer.
//!
//! A line `-- NAME` begins a recording; each line after it is one frame in hexadecimal, without its size. For each recording it
//! prints what the engine sent and what it refused, and of all frames in one run into one buffer at which place each refusal stands. A line
//! `stream HEX` is a stream that something is wrong with: it prints how reading it ends, by frames and by `exchange`; `unlimited HEX` is one whose frames may have any size. A
//! line `pieces HEX` is a frame: it prints its pieces under a limit of 24 bytes, each as it is written. After the lines comes what calls answer
//! that are no transport's (`src/calls.rt`).
#![tactic(auto)]

mod calls;
mod chunks;
mod exchanged;
mod handing;
mod one_run;
mod opened;
mod pieces;

use amqp_driver::refusal_number;
use amqp_transport::{exchange_headers, next_frame, push, receive, run};
use bytes::Bytes;
use chunks::Chunks;
use fe2o3_amqp::{
    ConnectionState, DEFAULT_CHANNEL_MAX, Engine, Input, KeyHash, Open, Refusal, ReplayRelay,
    SendBuffer, SessionNo, SessionSettings, err_name, hex_bytes,
};
use handing::Handing;
use opened::engine;
use std::alloc::{AllocError, Global};
use std::collections::VecDeque;
use std::hash::RandomState;
use std::io::{self, BufRead, BufReader, BufWriter, ErrorKind, Write};

/// The largest frame that this side takes.
const MAX_FRAME_SIZE: u32 = 65536;

/// The protocol header of either side.
const HEADER: [u8; 8] = *b"AMQP\x00\x01\x00\x00";

/// What an engine sent and what it refused, by names and by numbers.
#[derive(Drop)]
struct Said {
    sent: Vec<u8>,
    log: Vec<u8>,
    numbers: Vec<u32>,
}

impl Said {
    fn nothing(alloc: Global) -> Said {
        Said {
            sent: Vec::new(alloc),
            log: Vec::new(alloc),
            numbers: Vec::new(alloc),
        }
    }

    fn is_same(&self, other: &Said) -> bool {
        self.sent == other.sent && self.log == other.log
    }

    /// Notes what was refused, and lets it go.
    fn note(&mut self, refusals: &mut Vec<Refusal>) -> io::Result<()> {
        for refusal in refusals.iter() {
            if let Refusal::Input { place: _, error } = refusal {
                self.numbers.push(refusal_number(error))?;
            }
        }
        log(refusals, &mut self.log)
    }
}

/// Where runs of an engine put what is to be sent and what was refused.
#[derive(Drop)]
struct Told {
    out: SendBuffer,
    refusals: Vec<Refusal>,
}

impl Told {
    fn nothing(alloc: Global) -> Told {
        Told {
            out: SendBuffer::new(alloc),
            refusals: Vec::new(alloc),
        }
    }
}

fn main(rt: HostRuntime) -> anyhow::Result<()> {
    let alloc = rt.alloc();
    let mut out = BufWriter::new(alloc, io::writer(&rt))?;
    let mut frames = Vec::new(alloc);
    // The peer cannot know this key, and so cannot choose handles and channels that collide.
    let hash = KeyHash::Keyed(RandomState::new(&rt)?);
    for line in BufReader::new(alloc, rt.reader())?.lines(alloc) {
        take_line(alloc, hash, line?.as_str(), &mut frames, &mut out)?;
    }
    finish(alloc, hash, &mut frames, &mut out)?;
    Ok(calls::calls(&rt)?)
}

/// Tells what the last frames gave.
fn finish<O: Write>(
    alloc: Global,
    hash: KeyHash,
    frames: &mut Vec<Bytes>,
    out: &mut O,
) -> anyhow::Result<()> {
    tell(alloc, hash, frames, out)?;
    out.flush()?;
    Ok(())
}

fn take_line<O: Write>(
    alloc: Global,
    hash: KeyHash,
    line: &str,
    frames: &mut Vec<Bytes>,
    out: &mut O,
) -> anyhow::Result<()> {
    match line.split_once(' ') {
        None => gather(alloc, line, frames),
        Some(("stream", digits)) => {
            tell(alloc, hash, frames, out)?;
            tell_end(alloc, hash, digits, MAX_FRAME_SIZE, out)
        }
        Some(("unlimited", digits)) => {
            tell(alloc, hash, frames, out)?;
            tell_end(alloc, hash, digits, u32::MAX, out)
        }
        Some(("pieces", digits)) => {
            tell(alloc, hash, frames, out)?;
            pieces::tell(alloc, bytes_of(alloc, digits)?, out)
        }
        Some(_) => {
            tell(alloc, hash, frames, out)?;
            Ok(writeln!(out, "{line}")?)
        }
    }
}

fn gather(alloc: Global, digits: &str, frames: &mut Vec<Bytes>) -> anyhow::Result<()> {
    frames.push(bytes_of(alloc, digits)?)?;
    Ok(())
}

fn tell_end<O: Write>(
    alloc: Global,
    hash: KeyHash,
    digits: &str,
    max_frame_size: u32,
    out: &mut O,
) -> anyhow::Result<()> {
    let stream = bytes_of(alloc, digits)?;
    let end = ended(alloc, stream.as_slice(), max_frame_size);
    let exchanged = exchanged::ended(alloc, hash, stream.as_slice(), max_frame_size);
    drop(stream);
    writeln!(out, "{end}; {}", exchanged?)?;
    Ok(())
}

fn bytes_of(alloc: Global, digits: &str) -> anyhow::Result<Bytes> {
    match hex_bytes(alloc, digits)? {
        Some(bytes) => Ok(bytes),
        None => Err(io::Error::from(ErrorKind::InvalidData).into()),
    }
}

/// Writes what an engine says to the frames that were gathered, if any, and whether it says the same to their stream.
fn tell<O: Write>(
    alloc: Global,
    hash: KeyHash,
    frames: &mut Vec<Bytes>,
    out: &mut O,
) -> anyhow::Result<()> {
    if frames.is_empty() {
        return Ok(());
    }
    let stream = stream_of(alloc, frames.as_slice())?;
    let alone = one_by_one(alloc, hash, frames.as_slice())?;
    tell_alone(alloc, &alone, out)?;
    for size in [1, 7, 4096] {
        tell_streamed(alloc, hash, stream.as_slice(), size, &alone, out)?;
        exchanged::tell(alloc, hash, stream.as_slice(), size, &alone, out)?;
    }
    one_run::tell(alloc, hash, frames.as_slice(), alone.sent.as_slice(), out)?;
    frames.clear();
    Ok(())
}

fn tell_alone<O: Write>(alloc: Global, alone: &Said, out: &mut O) -> anyhow::Result<()> {
    let digits = hex::encode(alloc, alone.sent.as_slice())?;
    writeln!(out, "sent {digits}")?;
    out.write_all(alone.log.as_slice())?;
    Ok(())
}

/// Writes whether an engine says the same to the stream in chunks of a size.
fn tell_streamed<O: Write>(
    alloc: Global,
    hash: KeyHash,
    stream: &[u8],
    size: usize,
    alone: &Said,
    out: &mut O,
) -> anyhow::Result<()> {
    let is_same = streamed(alloc, hash, stream, size)?.is_same(alone);
    let word = if is_same { "the same" } else { "other" };
    writeln!(out, "chunks of {size}: {word}")?;
    Ok(())
}

/// The first inputs: an Open, and a Begin, which goes out at once.
fn push_requests(inputs: &mut VecDeque<Input<ReplayRelay>>) -> io::Result<()> {
    push(inputs, Input::Open)?;
    push(inputs, begin())
}

fn begin() -> Input<ReplayRelay> {
    Input::Begin(SessionNo(0), SessionSettings::default())
}

/// An engine that takes the frames one by one.
fn one_by_one(alloc: Global, hash: KeyHash, frames: &[Bytes]) -> anyhow::Result<Said> {
    let mut engine = engine(alloc, hash)?;
    let mut inputs = VecDeque::new(alloc);
    let mut told = Told::nothing(alloc);
    let mut said = Said::nothing(alloc);
    let outcome = take_each(&mut engine, &mut inputs, &mut told, frames, &mut said);
    drop(told);
    drop(inputs);
    drop(engine);
    match outcome {
        Ok(()) => Ok(said),
        Err(error) => Err(error),
    }
}

fn take_each(
    engine: &mut Engine<ReplayRelay>,
    inputs: &mut VecDeque<Input<ReplayRelay>>,
    told: &mut Told,
    frames: &[Bytes],
    said: &mut Said,
) -> anyhow::Result<()> {
    push_requests(inputs)?;
    run(
        engine,
        inputs,
        &mut told.out,
        &mut told.refusals,
        &mut said.sent,
    )?;
    said.note(&mut told.refusals)?;
    for frame in frames.iter() {
        push(inputs, Input::Received(frame.clone()?))?;
        run(
            engine,
            inputs,
            &mut told.out,
            &mut told.refusals,
            &mut said.sent,
        )?;
        said.note(&mut told.refusals)?;
    }
    Ok(())
}

/// An engine that takes the stream in chunks of a size, and writes to what hands on only what was flushed.
fn streamed(alloc: Global, hash: KeyHash, stream: &[u8], size: usize) -> anyhow::Result<Said> {
    let mut engine = engine(alloc, hash)?;
    let mut inputs = VecDeque::new(alloc);
    let mut told = Told::nothing(alloc);
    let mut sent = Handing::new(alloc);
    let mut log = Vec::new(alloc);
    let mut chunks = Chunks::new(stream, size);
    let outcome = take_stream(
        alloc,
        &mut engine,
        &mut inputs,
        &mut told,
        &mut chunks,
        &mut sent,
        &mut log,
    );
    drop(told);
    drop(inputs);
    drop(engine);
    let said = Said {
        sent: sent.on(),
        log,
        numbers: Vec::new(alloc),
    };
    match outcome {
        Ok(()) => Ok(said),
        Err(error) => Err(error),
    }
}

fn take_stream(
    alloc: Global,
    engine: &mut Engine<ReplayRelay>,
    inputs: &mut VecDeque<Input<ReplayRelay>>,
    told: &mut Told,
    stream: &mut Chunks<'_>,
    sent: &mut Handing,
    refused: &mut Vec<u8>,
) -> anyhow::Result<()> {
    exchange_headers(stream, sent)?;
    if sent.on.as_slice() != HEADER.as_slice() {
        writeln!(refused, "no header was handed on")?;
    }
    sent.on.clear();
    push_requests(inputs)?;
    run(engine, inputs, &mut told.out, &mut told.refusals, sent)?;
    log(&mut told.refusals, refused)?;
    for _ in 0..u64::MAX {
        if !receive(
            alloc,
            engine,
            inputs,
            &mut told.out,
            &mut told.refusals,
            stream,
            sent,
        )? {
            return Ok(());
        }
        log(&mut told.refusals, refused)?;
    }
    Ok(())
}

/// Logs what was refused, and lets it go.
fn log<W: Write>(refusals: &mut Vec<Refusal>, log: &mut W) -> io::Result<()> {
    for refusal in refusals.iter() {
        match refusal {
            Refusal::Input { place: _, error } => writeln!(log, "refused: {}", err_name(error))?,
            Refusal::Frame { place: _, frame: _ } => {
                writeln!(log, "a frame does not fit the peer's limit")?
            }
        }
    }
    refusals.clear();
    Ok(())
}

/// The stream of the frames: the protocol header, and each frame after its size.
fn stream_of(alloc: Global, frames: &[Bytes]) -> anyhow::Result<Vec<u8>> {
    let mut stream = Vec::new(alloc);
    stream.extend_from_slice(HEADER.as_slice())?;
    for frame in frames.iter() {
        let size = u32::try_from(frame.len().saturating_add(4))?;
        stream.extend_from_slice(&size.to_be_bytes())?;
        stream.extend_from_slice(frame.as_slice())?;
    }
    Ok(stream)
}

/// How reading a stream ends, of frames that have at most so many bytes: where its frames end, or why it is refused.
fn ended(alloc: Global, stream: &[u8], max_frame_size: u32) -> &'static str {
    let mut input = Chunks::new(stream, 3);
    if let Err(error) = exchange_headers(&mut input, &mut io::sink()) {
        return name_of(error.kind());
    }
    for _ in 0..stream.len() {
        match next_frame(alloc, &mut input, max_frame_size) {
            Ok(Some(_)) => {}
            Ok(None) => return "end",
            Err(error) => return name_of(error.kind()),
        }
    }
    "more"
}

fn name_of(kind: ErrorKind) -> &'static str {
    match kind {
        ErrorKind::InvalidData => "invalid data",
        ErrorKind::UnexpectedEof => "unexpected end",
        _ => "another error",
    }
}
