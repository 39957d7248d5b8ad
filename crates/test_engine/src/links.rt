//! A relay that has a choice: what it is told, and that what it answers goes out.

use crate::asking::{
    allot, answer, mapped, puts_out, receive_digits, send_attach, send_detach, send_flow,
};
use crate::same::{holds, same};
use crate::telling::{Telling, Told};
use fe2o3_amqp::{Engine, Input, InputHandle, LinkRelay, SessionNo};
use std::alloc::{AllocError, Global};

/// The peer's Begin on channel 5, which names channel 0 and grants a window of 1.
const BEGIN: &str = "02000005005311c009046000004352015208";

/// The peer's attaches on channel 5: of "a" on handle 5, of "c" on handle 6.
const ATTACH_A: &str = "02000005005312c00703a10161520541";

const ATTACH_C: &str = "02000005005312c00703a10163520641";

/// The peer's detach of handle 5 on channel 5.
const DETACH: &str = "02000005005316c003015205";

/// A frame that comes, or, where it is empty, this side's detach; the answer; and the line that goes out.
type Step = (&'static str, &'static str, &'static str);

/// A detach that the peer is to answer goes out once.
const DETACHED: &[Step] = &[
    (ATTACH_A, "done", ""),
    ("", "done", "out 02000000005316c003024341\n"),
    ("", "done", ""),
    (DETACH, "done", ""),
    (DETACH, "done", ""),
];

/// The peer detaches the link, the relay answers, and a second detach is not answered.
const DETACHED_BY_THE_PEER: &[Step] = &[
    (ATTACH_A, "done", ""),
    (DETACH, "done", "out 02000000005316c003015205\n"),
    (DETACH, "done", ""),
];

const REFUSED_ONCE: &[Step] = &[
    (ATTACH_A, "TransferFrameToSender", ""),
    (ATTACH_A, "done", ""),
    (ATTACH_A, "HandleInUse", ""),
];

/// Whether an engine takes these steps so.
fn goes<R: LinkRelay>(alloc: Global, engine: &mut Engine<R>, steps: &[Step]) -> bool {
    for (frame, want, line) in steps.iter() {
        let answer = match *frame {
            "" => send_detach(engine),
            frame => receive_digits(alloc, engine, frame),
        };
        if answer != *want || !puts_out(alloc, engine, *line) {
            return false;
        }
    }
    true
}

/// Whether an engine takes these steps so whose link "a" has a relay that refuses so many attaches first; and what the relay was
/// told.
fn told_by(alloc: Global, refusals: u32, steps: &[Step]) -> (bool, [usize; 4]) {
    let told = Told::new();
    let relay = Telling {
        told: &told,
        refusals,
    };
    let mut engine = mapped(alloc, BEGIN);
    let is_right = allot(alloc, &mut engine, "a", relay) == "done"
        && goes(alloc, &mut engine, steps);
    drop(engine);
    (is_right, told.counts())
}

#[test]
fn a_relay_is_told_once_that_its_detach_is_answered(rt: HostRuntime) {
    holds(
        &rt,
        told_by(rt.alloc(), 0, &DETACHED[..1]) == (true, [1, 0, 0, 0]),
    );
    holds(
        &rt,
        told_by(rt.alloc(), 0, DETACHED) == (true, [1, 0, 0, 1]),
    );
}

#[test]
fn a_relay_that_refuses_an_attach_is_asked_of_the_next(rt: HostRuntime) {
    let told = told_by(rt.alloc(), 1, REFUSED_ONCE);
    holds(&rt, told == (true, [2, 0, 0, 0]));
}

#[test]
fn a_relay_is_told_of_a_detach_that_the_peer_began(rt: HostRuntime) {
    let told = told_by(rt.alloc(), 0, DETACHED_BY_THE_PEER);
    holds(&rt, told == (true, [1, 0, 1, 0]));
}

/// What the request of "c" is answered, whose attach came on handle 6.
fn allot_incoming<R: LinkRelay>(alloc: Global, engine: &mut Engine<R>, relay: R) -> &'static str {
    let number = SessionNo(0);
    let input = InputHandle(6);
    match String::from_str(alloc, "c") {
        Ok(name) => answer(
            engine,
            Input::AllocateIncomingLink(number, name, relay, input),
        ),
        Err(AllocError) => "no name",
    }
}

/// Whether "c" is attached at once, and its attach and its flow go out.
fn takes_incoming<R: LinkRelay>(alloc: Global, engine: &mut Engine<R>, relay: R) -> bool {
    let attach = "out 02000000005312c00603a101634341\n";
    let flow = "out 02000000005313c0110743700000138843700000138843405214\n";
    allot_incoming(alloc, engine, relay) == "done"
        && receive_digits(alloc, engine, ATTACH_C) == "HandleInUse"
        && puts_out(alloc, engine, "")
        && send_attach(alloc, engine, "c") == "done"
        && puts_out(alloc, engine, attach)
        && send_flow(engine) == "done"
        && puts_out(alloc, engine, flow)
}

#[test]
fn a_relay_of_an_incoming_link_is_asked_of_no_attach(rt: HostRuntime) {
    let told = Told::new();
    let relay = Telling {
        told: &told,
        refusals: 0,
    };
    let mut engine = mapped(rt.alloc(), BEGIN);
    let is_right = takes_incoming(rt.alloc(), &mut engine, relay);
    drop(engine);
    holds(&rt, is_right);
    same(&rt, told.counts(), [0, 0, 0, 0]);
}
