//! Runs and calls that send into a buffer, each once more where it is refused for memory.

use crate::script::codec::{Came, frame, limited, refusal};
use crate::script::input::ScriptInput;
use crate::script::offer::{ScriptEngine, queued, refused};
use crate::script::{mark, print, reading, say};
use bytes::Bytes;
use fe2o3_amqp::{Frame, FrameEncoder, Refusal, SendBuffer};
use std::collections::VecDeque;
use test_support::words;

/// Up to how many bytes a payload is copied: a short limit, so that some are shared.
const COPIED: usize = 8;

/// Offers the input of a line to a run that sends into a buffer, and once more where it is refused for memory.
pub fn offered(rt: &HostRuntime, engine: &mut ScriptEngine, line: &str) -> anyhow::Result<()> {
    for _ in 0..2 {
        if is_answered(rt, engine, line)? {
            return Ok(());
        }
    }
    Err(anyhow::anyhow!("refused twice"))
}

fn is_answered(rt: &HostRuntime, engine: &mut ScriptEngine, line: &str) -> anyhow::Result<bool> {
    mark(rt, "@make\n");
    let mut inputs = VecDeque::new(rt.alloc());
    let outcome = match queued(rt.alloc(), &mut inputs, line) {
        Ok(true) => told(rt, engine, &mut inputs),
        Ok(false) => Err(anyhow::anyhow!("no line of a script")),
        Err(_) => Ok(false),
    };
    drop(inputs);
    outcome
}

/// Gives the inputs to the engine, and prints what comes of them; whether they are not to come again.
fn told(
    rt: &HostRuntime,
    engine: &mut ScriptEngine,
    inputs: &mut VecDeque<ScriptInput>,
) -> anyhow::Result<bool> {
    mark(rt, "@run\n");
    let mut out = SendBuffer::new(rt.alloc());
    let mut refusals = Vec::new(rt.alloc());
    let outcome = match run(rt, engine, inputs, &mut out, &mut refusals) {
        Ok(()) => printed(rt, &out, &refusals),
        Err(error) => Err(error),
    };
    drop(refusals);
    drop(out);
    outcome
}

/// Runs the engine, and once more where it stops for want of memory.
fn run(
    rt: &HostRuntime,
    engine: &mut ScriptEngine,
    inputs: &mut VecDeque<ScriptInput>,
    out: &mut SendBuffer,
    refusals: &mut Vec<Refusal>,
) -> anyhow::Result<()> {
    if engine.run_into(inputs, out, refusals).is_err() {
        print(rt, "~ Stopped")?;
        mark(rt, "@again\n");
        if engine.run_into(inputs, out, refusals).is_err() {
            anyhow::bail!("stopped twice");
        }
    }
    mark(rt, "@print\n");
    Ok(())
}

/// Prints what was refused and what is to be sent; whether nothing was refused for memory.
fn printed(rt: &HostRuntime, out: &SendBuffer, refusals: &Vec<Refusal>) -> anyhow::Result<bool> {
    let mut is_done = true;
    for refusal in refusals.iter() {
        match refusal {
            Refusal::Input { place: _, error } => is_done = is_done && refused(rt, error, false)?,
            Refusal::Frame { place: _, frame: _ } => print(rt, "err TooLarge")?,
        }
    }
    if !out.is_empty() {
        sent(rt, out.chunk())?;
    }
    Ok(is_done)
}

/// Prints bytes that lie together; the second attempt passes where the first is refused.
fn sent(rt: &HostRuntime, chunk: &[u8]) -> anyhow::Result<()> {
    let text = match hex::encode(rt.alloc(), chunk) {
        Ok(text) => text,
        Err(_) => {
            print(rt, "~ hex")?;
            hex::encode(rt.alloc(), chunk)?
        }
    };
    say(rt, "sent ")?;
    print(rt, text.as_str())
}

/// `FrameEncoder::encode_to` with a limit, which goes before the digits of the frame and of what is to be sent for it.
pub fn encode_to(rt: &HostRuntime, text: &str) -> anyhow::Result<Came> {
    let (limit, rest) = limited(text)?;
    let (digits, wire) = words::word(rest);
    let frame = frame(rt.alloc(), digits);
    let came = match &frame {
        Some(frame) => sent_as(rt, limit, frame, wire),
        None => Came::Unmade,
    };
    drop(frame);
    Ok(came)
}

fn sent_as(rt: &HostRuntime, limit: u32, frame: &Frame, digits: &str) -> Came {
    match reading::bytes(rt.alloc(), digits) {
        Ok(wire) => {
            let came = encoded_to(rt, limit, frame, &wire);
            drop(wire);
            came
        }
        Err(_) => Came::Unmade,
    }
}

fn encoded_to(rt: &HostRuntime, limit: u32, frame: &Frame, wire: &Bytes) -> Came {
    mark(rt, "@run\n");
    let mut out = SendBuffer::copying_up_to(rt.alloc(), COPIED);
    let outcome = FrameEncoder::new(limit.max(4)).encode_to(rt.alloc(), frame, &mut out);
    mark(rt, "@print\n");
    let came = match &outcome {
        Ok(()) if is_sent(&mut out, wire.as_slice()) => Came::To("the same"),
        Ok(()) => Came::To("others"),
        Err(error) if out.is_empty() => refusal(error),
        Err(_) => Came::To("half"),
    };
    drop(outcome);
    drop(out);
    came
}

/// Whether the chunks are these bytes.
fn is_sent(out: &mut SendBuffer, wire: &[u8]) -> bool {
    let mut rest = wire;
    for _ in 0..wire.len() {
        let len = out.chunk().len();
        if rest.get(..len) != Some(out.chunk()) {
            return false;
        }
        rest = rest.get(len..).unwrap_or(&[]);
        out.advance(len);
    }
    rest.is_empty() && out.is_empty()
}
