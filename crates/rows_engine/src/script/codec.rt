//! Calls of the codec, each once more where it is refused for memory.

use crate::script::offer::out;
use crate::script::{making, mark, print, reading, say, sending};
use bytes::{Bytes, BytesMut};
use fe2o3_amqp::{
    Frame, FrameDecoder, FrameEncoder, Performative, Piece, ReadError, WriteError, frames,
};
use std::alloc::Global;
use test_support::words;

/// What a call came to.
#[derive(Clone, Copy)]
pub enum Came {
    /// It answers so.
    To(&'static str),
    /// Memory is refused for what it is given.
    Unmade,
    /// It is refused for memory.
    Refused,
}

/// Makes the call of a line, and once more where it is refused for memory.
pub fn called(rt: &HostRuntime, text: &str) -> anyhow::Result<()> {
    let (name, rest) = words::word(text);
    for _ in 0..2 {
        match once(rt, name, rest)? {
            Came::To(answer) => return answered(rt, name, answer),
            Came::Unmade => {}
            Came::Refused => answered(rt, "~", name)?,
        }
    }
    Err(anyhow::anyhow!("refused twice"))
}

fn answered(rt: &HostRuntime, name: &str, answer: &str) -> anyhow::Result<()> {
    say(rt, name)?;
    say(rt, " ")?;
    print(rt, answer)
}

fn once(rt: &HostRuntime, name: &str, rest: &str) -> anyhow::Result<Came> {
    mark(rt, "@make\n");
    match name {
        "read" => Ok(read(rt, rest)),
        "write" => Ok(write(rt, rest)),
        "decode" => Ok(decode(rt, rest)),
        "bytes" => Ok(bytes(rt, rest)),
        "encode" => encode(rt, rest),
        "encode-to" => sending::encode_to(rt, rest),
        "split" => making::split(rt, rest),
        "reject" => Ok(making::reject(rt, rest)),
        "events" => Ok(making::events(rt)),
        _ => Err(anyhow::anyhow!("no call")),
    }
}

/// `Performative::read`, of bytes that hold one.
fn read(rt: &HostRuntime, digits: &str) -> Came {
    let Ok(bytes) = reading::bytes(rt.alloc(), digits) else {
        return Came::Unmade;
    };
    mark(rt, "@run\n");
    let read = Performative::read(rt.alloc(), bytes);
    mark(rt, "@print\n");
    let came = of_read(&read);
    drop(read);
    came
}

fn of_read(read: &Result<(Performative, Bytes), ReadError>) -> Came {
    match read {
        Ok((_performative, rest)) if rest.is_empty() => Came::To("whole"),
        Ok(_) => Came::To("and more"),
        Err(ReadError::Malformed) => Came::To("malformed"),
        Err(ReadError::OutOfMemory) => Came::Refused,
    }
}

/// `Performative::write`, of a performative that is spelled by these digits.
fn write(rt: &HostRuntime, digits: &str) -> Came {
    let read = reading::performative(rt.alloc(), digits);
    let came = match &read {
        Ok(Some((performative, _rest))) => written_as(rt, performative, digits),
        _ => Came::Unmade,
    };
    drop(read);
    came
}

fn written_as(rt: &HostRuntime, performative: &Performative, digits: &str) -> Came {
    match reading::bytes(rt.alloc(), digits) {
        Ok(spelled) => {
            let came = written(rt, performative, &spelled);
            drop(spelled);
            came
        }
        Err(_) => Came::Unmade,
    }
}

fn written(rt: &HostRuntime, performative: &Performative, spelled: &Bytes) -> Came {
    mark(rt, "@run\n");
    let mut text = BytesMut::new(rt.alloc());
    let written = performative.write(&mut text, u32::MAX);
    mark(rt, "@print\n");
    let came = match written {
        Ok(()) if text.as_slice() == spelled.as_slice() => Came::To("the same"),
        Ok(()) => Came::To("another"),
        Err(WriteError::TooLarge) => Came::To("too large"),
        Err(WriteError::OutOfMemory) if text.is_empty() => Came::Refused,
        Err(WriteError::OutOfMemory) => Came::To("half"),
    };
    drop(text);
    came
}

/// `FrameDecoder::decode`, of a frame without its size.
fn decode(rt: &HostRuntime, digits: &str) -> Came {
    let Ok(bytes) = reading::bytes(rt.alloc(), digits) else {
        return Came::Unmade;
    };
    mark(rt, "@run\n");
    let decoded = FrameDecoder::new().decode(rt.alloc(), bytes);
    mark(rt, "@print\n");
    let came = of_decoded(&decoded);
    drop(decoded);
    came
}

fn of_decoded(decoded: &Result<(Frame, Bytes), frames::Error>) -> Came {
    match decoded {
        Ok(_) => Came::To("a frame"),
        Err(error) => refusal(error),
    }
}

/// The frame of these digits.
pub fn frame(alloc: Global, digits: &str) -> Option<Frame> {
    let bytes = reading::bytes(alloc, digits).ok()?;
    match FrameDecoder::new().decode(alloc, bytes) {
        Ok((frame, rest)) => {
            drop(rest);
            Some(frame)
        }
        Err(error) => {
            drop(error);
            None
        }
    }
}

/// A limit of at least 4, and what follows it.
pub fn limited(text: &str) -> anyhow::Result<(u32, &str)> {
    let (limit, digits) = words::word(text);
    let limit = limit.parse::<u32>()?;
    Ok((limit.max(4), digits))
}

/// `FrameEncoder::encode` with a limit, which goes before the digits of the frame; the pieces are printed.
fn encode(rt: &HostRuntime, text: &str) -> anyhow::Result<Came> {
    let (limit, digits) = limited(text)?;
    let frame = frame(rt.alloc(), digits);
    let came = match &frame {
        Some(frame) => encode_frame(rt, limit, frame),
        None => Ok(Came::Unmade),
    };
    drop(frame);
    came
}

fn encode_frame(rt: &HostRuntime, limit: u32, frame: &Frame) -> anyhow::Result<Came> {
    mark(rt, "@run\n");
    let pieces = FrameEncoder::new(limit.max(4)).encode(rt.alloc(), frame);
    mark(rt, "@print\n");
    let came = match &pieces {
        Ok(pieces) => printed(rt, pieces),
        Err(error) => Ok(refusal(error)),
    };
    drop(pieces);
    came
}

fn printed(rt: &HostRuntime, pieces: &Vec<Piece>) -> anyhow::Result<Came> {
    out(rt, pieces)?;
    Ok(Came::To("done"))
}

/// What a call came to that is refused so.
pub fn refusal(error: &frames::Error) -> Came {
    match error {
        frames::Error::OutOfMemory => Came::Refused,
        _ => Came::To("no frame"),
    }
}

/// The pieces of the frame of these digits.
fn pieces(alloc: Global, digits: &str) -> Option<Vec<Piece>> {
    let frame = frame(alloc, digits)?;
    let pieces = FrameEncoder::new(u32::MAX).encode(alloc, &frame);
    drop(frame);
    pieces.ok()
}

/// `Piece::to_bytes`, of the frame's one piece.
fn bytes(rt: &HostRuntime, digits: &str) -> Came {
    let pieces = pieces(rt.alloc(), digits);
    let came = match &pieces {
        Some(pieces) => bytes_of_first(rt, pieces, digits),
        None => Came::Unmade,
    };
    drop(pieces);
    came
}

fn bytes_of_first(rt: &HostRuntime, pieces: &Vec<Piece>, digits: &str) -> Came {
    let Ok(spelled) = reading::bytes(rt.alloc(), digits) else {
        return Came::Unmade;
    };
    let came = match pieces.first() {
        Some(piece) => bytes_of(rt, piece, &spelled),
        None => Came::To("no piece"),
    };
    drop(spelled);
    came
}

fn bytes_of(rt: &HostRuntime, piece: &Piece, spelled: &Bytes) -> Came {
    mark(rt, "@run\n");
    let bytes = piece.to_bytes(rt.alloc());
    mark(rt, "@print\n");
    let came = of_bytes(&bytes, spelled);
    drop(bytes);
    came
}

fn of_bytes(bytes: &Result<Bytes, frames::Error>, spelled: &Bytes) -> Came {
    match bytes {
        Ok(bytes) if bytes.as_slice() == spelled.as_slice() => Came::To("the same"),
        Ok(_) => Came::To("others"),
        Err(error) => refusal(error),
    }
}
