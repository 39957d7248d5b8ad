//! Received frames that are run by what was read of their fields, and a transfer to send by its parts.

use crate::asking::{allot, mapped};
use crate::same::{holds, same};
use crate::telling::{Telling, Told};
use amqp_values::Composite;
use bytes::Bytes;
use fe2o3_amqp::{
    Disposition, Engine, Flow, FrameDecoder, IncomingChannel, InputHandle, Kind, LinkRelay,
    Refusal, SendBuffer, SessionNo, StepError, Transfer, err_name, hex_bytes,
};
use std::alloc::Global;
use test_support::transfer_of;

/// The peer's Begin on channel 5, which names channel 0 and grants a window of 1.
const BEGIN: &str = "02000005005311c009046000004352015208";

/// A frame that comes; its answer; and the bytes that are sent then.
type Step = (&'static str, &'static str, &'static str);

/// The peer attaches "a" on handle 5. A transfer by it is accepted, and one by handle 6 is refused, and so is one on a channel without a session. A
/// flow that asks for one is answered by a flow. A disposition of what is not open is accepted. A list that ends too early is none.
const STEPS: &[Step] = &[
    ("02000005005312c00703a10161520541", "done", ""),
    ("02000005005314c00804520543a00131430102", "done", ""),
    (
        "02000005005314c00804520643a00131430102",
        "UnattachedHandle",
        "",
    ),
    ("02000009005314c00804520543a00131430102", "NotFound", ""),
    ("02000005005314c00804520543a001", "DecodeError", ""),
    ("02000005005315c003024143", "done", ""),
    ("02000009005315c003024143", "NotFound", ""),
    ("02000005005315c0030241", "DecodeError", ""),
    ("02000005005313c00d07435201520152085205435201", "done", ""),
    (
        "02000009005313c00d07435201520152085205435201",
        "NotFound",
        "",
    ),
    ("02000005005313c00d0743520152", "DecodeError", ""),
];

fn name_of(answer: Option<Result<(), StepError>>) -> &'static str {
    let name = match &answer {
        None => "not taken",
        Some(Ok(())) => "done",
        Some(Err(error)) => err_name(error),
    };
    drop(answer);
    name
}

/// What is answered to the fields of this kind.
fn run_fields<R: LinkRelay>(
    alloc: Global,
    engine: &mut Engine<R>,
    kind: Option<Kind>,
    channel: u16,
    fields: Bytes,
    out: &mut SendBuffer,
    returned: &mut Vec<Refusal>,
) -> &'static str {
    let mut rest = fields;
    let channel = IncomingChannel(channel);
    match kind {
        Some(Kind::Transfer) => match Transfer::read_list(alloc, &mut rest) {
            Ok(it) => name_of(engine.run_received_transfer(channel, it, rest, out, returned)),
            Err(_) => "DecodeError",
        },
        Some(Kind::Flow) => match Flow::read_list(alloc, &mut rest) {
            Ok(it) => name_of(engine.run_received_flow(channel, it, out, returned)),
            Err(_) => "DecodeError",
        },
        Some(Kind::Disposition) => match Disposition::read_list(alloc, &mut rest) {
            Ok(it) => name_of(engine.run_received_disposition(channel, it, out, returned)),
            Err(_) => "DecodeError",
        },
        _ => "another kind",
    }
}

/// What the frame of these bytes is answered: one of the three kinds by its fields, any other by its frame.
fn run<R: LinkRelay>(
    alloc: Global,
    engine: &mut Engine<R>,
    bytes: Bytes,
    out: &mut SendBuffer,
    returned: &mut Vec<Refusal>,
) -> &'static str {
    let mut fields = bytes;
    let head = match FrameDecoder::new().head(&mut fields) {
        Ok(head) => head,
        Err(_) => return "no head",
    };
    match head.kind {
        Some(Kind::Transfer) | Some(Kind::Flow) | Some(Kind::Disposition) => {
            run_fields(
                alloc,
                engine,
                head.kind,
                head.channel,
                fields,
                out,
                returned,
            )
        }
        _ => {
            let read = match FrameDecoder::new().fields(alloc, head, fields) {
                Ok((frame, rest)) => {
                    drop(rest);
                    Ok(frame)
                }
                Err(error) => Err(error),
            };
            name_of(engine.run_frame(read, out, returned))
        }
    }
}

/// What the frame of these digits is answered, and whether the bytes of those are to be sent then.
fn step<R: LinkRelay>(
    alloc: Global,
    engine: &mut Engine<R>,
    step: &Step,
    out: &mut SendBuffer,
) -> bool {
    let (digits, want, sent) = *step;
    let mut returned = Vec::new(alloc);
    out.clear();
    let name = match hex_bytes(alloc, digits) {
        Ok(Some(bytes)) => run(alloc, engine, bytes, out, &mut returned),
        _ => "no bytes",
    };
    let none = returned.is_empty();
    drop(returned);
    none && name == want && sends(alloc, out, sent)
}

/// Whether the bytes of these digits are to be sent.
fn sends(alloc: Global, out: &SendBuffer, digits: &str) -> bool {
    match hex_bytes(alloc, digits) {
        Ok(Some(bytes)) => out.chunk() == bytes.as_slice(),
        _ => false,
    }
}

/// How many of the steps an engine takes so, before one that it takes otherwise.
fn goes<R: LinkRelay>(alloc: Global, engine: &mut Engine<R>, out: &mut SendBuffer) -> usize {
    for (place, it) in STEPS.iter().enumerate() {
        if !step(alloc, engine, it, out) {
            return place;
        }
    }
    STEPS.len()
}

/// What is answered to a transfer that is to be sent in this session, by the link on handle 5.
fn send<R: LinkRelay>(
    alloc: Global,
    engine: &mut Engine<R>,
    session: u32,
    out: &mut SendBuffer,
) -> &'static str {
    let mut returned = Vec::new(alloc);
    out.clear();
    let answer = engine.run_transfer(
        SessionNo(session),
        InputHandle(5),
        transfer_of(0, Some(b"t")),
        Bytes::from_static(b"xy"),
        true,
        out,
        &mut returned,
    );
    drop(returned);
    name_of(answer)
}

#[test]
fn frames_are_run_by_their_fields(rt: HostRuntime) {
    let told = Told::new();
    let relay = Telling {
        told: &told,
        refusals: 0,
    };
    let mut engine = mapped(rt.alloc(), BEGIN);
    let asked = allot(rt.alloc(), &mut engine, "a", relay);
    let mut out = SendBuffer::new(rt.alloc());
    let count = goes(rt.alloc(), &mut engine, &mut out);
    let done = send(rt.alloc(), &mut engine, 0, &mut out);
    let is_sent = sends(
        rt.alloc(),
        &out,
        "0000001502000000005314c006034343a001747879",
    );
    let other = send(rt.alloc(), &mut engine, 9, &mut out);
    drop(engine);
    drop(out);
    same(&rt, count, STEPS.len());
    same(&rt, told.counts(), [1, 1, 0, 0]);
    same(&rt, (asked, done, other), ("done", "done", "NoSession"));
    holds(&rt, is_sent);
}
