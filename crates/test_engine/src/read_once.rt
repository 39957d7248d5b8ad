//! Received frames that were read before they are run.

use crate::asking::{allot, answer, engine_in, mapped};
use crate::same::{holds, same};
use crate::telling::{Telling, Told};
use bytes::Bytes;
use fe2o3_amqp::frames::Error;
use fe2o3_amqp::{
    ConnectionState, Engine, Frame, FrameDecoder, Input, LinkRelay, ReplayRelay, SendBuffer,
    SessionNo, SessionSettings, err_name, hex_bytes,
};
use std::alloc::Global;

/// The peer's Begin on channel 5, which names channel 0 and grants a window of 1.
const BEGIN: &str = "02000005005311c009046000004352015208";

/// The peer's attach of "a" on handle 5, and its detach.
const ATTACH: &str = "02000005005312c00703a10161520541";

const DETACH: &str = "02000005005316c003015205";

/// A frame that comes; its answer; and the bytes that are sent then.
type Step = (&'static str, &'static str, &'static str);

/// This side's Begin waits, and goes out before the peer's is taken. What is refused sends nothing, nor does what was not read. A Close of the
/// peer's is answered by how it closed.
const BEGUN: &[Step] = &[
    (
        BEGIN,
        "done",
        "0000001a02000000005311c00d04404370000013887000001388",
    ),
    ("0200000900531745", "NotFound", ""),
    ("020000", "DecodeError", ""),
    ("02010000", "NotImplemented", ""),
    ("02000000", "done", ""),
    ("0200000000531845", "RemoteClosed", ""),
];

/// The peer attaches a link and detaches it, and the relay's answer goes out.
const DETACHED: &[Step] = &[
    (ATTACH, "done", ""),
    (DETACH, "done", "0000001002000000005316c003015205"),
    (DETACH, "done", ""),
];

/// What the decoder reads of a frame's bytes.
fn read(alloc: Global, bytes: Bytes) -> Result<Frame, Error> {
    match FrameDecoder::new().decode(alloc, bytes) {
        Ok((frame, rest)) => {
            drop(rest);
            Ok(frame)
        }
        Err(error) => Err(error),
    }
}

/// What the frame of these bytes is answered, where none is handed back.
fn run<R: LinkRelay>(
    alloc: Global,
    engine: &mut Engine<R>,
    bytes: Bytes,
    out: &mut SendBuffer,
) -> &'static str {
    let mut returned = Vec::new(alloc);
    let answer = engine.run_frame(read(alloc, bytes), out, &mut returned);
    let name = match &answer {
        None => "not taken",
        Some(Ok(())) => "done",
        Some(Err(error)) => err_name(error),
    };
    drop(answer);
    let is_back = !returned.is_empty();
    drop(returned);
    if is_back { "handed back" } else { name }
}

/// The same, of the bytes of these digits.
fn run_digits<R: LinkRelay>(
    alloc: Global,
    engine: &mut Engine<R>,
    digits: &str,
    out: &mut SendBuffer,
) -> &'static str {
    match hex_bytes(alloc, digits) {
        Ok(Some(bytes)) => run(alloc, engine, bytes, out),
        _ => "no bytes",
    }
}

/// Whether the bytes of these digits are to be sent.
fn sends(alloc: Global, out: &SendBuffer, digits: &str) -> bool {
    match hex_bytes(alloc, digits) {
        Ok(Some(bytes)) => out.chunk() == bytes.as_slice(),
        _ => false,
    }
}

/// How many of these steps an engine takes so, before one that it takes otherwise.
fn goes<R: LinkRelay>(alloc: Global, engine: &mut Engine<R>, steps: &[Step]) -> usize {
    let mut out = SendBuffer::new(alloc);
    for (place, (frame, want, sent)) in steps.iter().enumerate() {
        out.clear();
        if run_digits(alloc, engine, *frame, &mut out) != *want || !sends(alloc, &out, *sent) {
            return place;
        }
    }
    steps.len()
}

#[test]
fn what_waits_is_sent_before_a_frame_that_was_read(rt: HostRuntime) {
    let mut engine: Engine<ReplayRelay> = engine_in(rt.alloc(), ConnectionState::Opened);
    let own = Input::Begin(SessionNo(0), SessionSettings::new());
    let is_asked = answer(&mut engine, own) == "done" && engine.has_output();
    let count = goes(rt.alloc(), &mut engine, BEGUN);
    let state = *engine.connection().local_state();
    drop(engine);
    holds(&rt, is_asked);
    same(&rt, count, BEGUN.len());
    same(&rt, state, ConnectionState::CloseReceived);
}

#[test]
fn what_a_frame_that_was_read_hands_out_is_sent(rt: HostRuntime) {
    let told = Told::new();
    let relay = Telling {
        told: &told,
        refusals: 0,
    };
    let mut engine = mapped(rt.alloc(), BEGIN);
    let asked = allot(rt.alloc(), &mut engine, "a", relay);
    let count = goes(rt.alloc(), &mut engine, DETACHED);
    drop(engine);
    holds(&rt, asked == "done");
    same(&rt, count, DETACHED.len());
    same(&rt, told.counts(), [1, 0, 1, 0]);
}
