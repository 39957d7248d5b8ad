//! How often a relay is asked: where its link leaves the tables or never comes into one, and where this side settles. What such calls
//! answer is compared in rows (`tools/gen/session_links.py`, `session_tests.py`).

use crate::relays::{Asked, Quiet};
use crate::same::{holds, is_done, same};
use amqp_session::{InputHandle, OutgoingChannel, OutputHandle, Session, SessionSettings};
use amqp_types::{Flow, Role, SessionState};
use bytes::Bytes;
use std::alloc::Global;
use test_support::{attach_of, detach_of, disposition_of, transfer_of};

type Counted<'a> = Session<Quiet<'a>>;

/// A mapped session without a link.
fn session<'a>(alloc: Global) -> Counted<'a> {
    Session::new(
        alloc,
        SessionSettings::new(),
        OutgoingChannel(3),
        SessionState::Mapped,
        None,
    )
}

/// Whether a link is allotted whose relay waits for the peer's attach.
fn allot<'a>(alloc: Global, one: &mut Counted<'a>, name: &str, asked: &'a Asked) -> bool {
    match String::from_str(alloc, name) {
        Ok(name) => is_done(one.allocate_link(name, Some(Quiet { asked }))),
        Err(_) => false,
    }
}

/// Whether a link is allotted whose relay is put under the input handle 5.
fn allot_incoming<'a>(alloc: Global, one: &mut Counted<'a>, name: &str, asked: &'a Asked) -> bool {
    match String::from_str(alloc, name) {
        Ok(name) => is_done(one.allocate_incoming_link(name, Quiet { asked }, InputHandle(5))),
        Err(_) => false,
    }
}

/// The peer attaches under the input handle 5.
fn attach(alloc: Global, one: &mut Counted<'_>, name: &str) -> bool {
    match String::from_str(alloc, name) {
        Ok(name) => is_done(one.on_incoming_attach(attach_of(name, 5, Role::Sender))),
        Err(_) => false,
    }
}

/// Whether the peer's detach of the input handle 5 is taken, and has no answer.
fn detach(one: &mut Counted<'_>) -> bool {
    let answer = one.on_incoming_detach(detach_of(5));
    let is_silent = matches!(&answer, Ok(None));
    drop(answer);
    is_silent
}

/// This side detaches the output handle 0: whether a frame goes out.
fn leave(one: &mut Counted<'_>, expects_echo: bool) -> bool {
    let answer = one.on_outgoing_detach(detach_of(0), expects_echo);
    let is_sent = matches!(&answer, Ok(Some(_)));
    drop(answer);
    is_sent
}

#[test]
fn a_detach_is_asked_once(rt: HostRuntime) {
    let alloc = rt.alloc();
    let asked = Asked::new();
    let mut one = session(alloc);
    let are_done = [
        allot(alloc, &mut one, "a", &asked),
        attach(alloc, &mut one, "a"),
        detach(&mut one),
        detach(&mut one),
    ];
    drop(one);
    holds(&rt, are_done == [true; 4]);
    same(&rt, asked.counts(), [1, 1, 0]);
}

#[test]
fn the_relay_of_a_refused_allotment_and_a_replaced_one_are_not_asked(rt: HostRuntime) {
    let alloc = rt.alloc();
    let (first, second, third) = (Asked::new(), Asked::new(), Asked::new());
    let refused = Asked::new();
    let mut one = session(alloc);
    let are_done = [
        allot(alloc, &mut one, "a", &first),
        allot(alloc, &mut one, "a", &refused),
        allot_incoming(alloc, &mut one, "a", &refused),
        attach(alloc, &mut one, "a"),
        allot(alloc, &mut one, "b", &second),
        attach(alloc, &mut one, "b"),
        allot_incoming(alloc, &mut one, "c", &third),
    ];
    drop(one);
    holds(
        &rt,
        are_done == [true, false, false, true, true, true, true],
    );
    same(&rt, [first.counts(), second.counts()], [[1, 0, 0]; 2]);
    same(&rt, [third.counts(), refused.counts()], [[0, 0, 0]; 2]);
}

/// The input handle of the links on the output handles 0 and 1.
fn inputs(one: &Counted<'_>) -> [Option<u32>; 2] {
    [
        one.input_handle_of(OutputHandle(0)).map(|it| it.0),
        one.input_handle_of(OutputHandle(1)).map(|it| it.0),
    ]
}

#[test]
fn a_link_has_the_input_handle_of_the_last_attach(rt: HostRuntime) {
    let alloc = rt.alloc();
    let asked = Asked::new();
    let mut one = session(alloc);
    let none = inputs(&one);
    let is_first = allot(alloc, &mut one, "a", &asked);
    let waiting = inputs(&one);
    let is_attached = attach(alloc, &mut one, "a");
    let attached = inputs(&one);
    let is_second = allot(alloc, &mut one, "b", &asked) && attach(alloc, &mut one, "b");
    let taken = inputs(&one);
    let is_left = detach(&mut one);
    let detached = inputs(&one);
    let is_third = one.deallocate_link(OutputHandle(0))
        && allot_incoming(alloc, &mut one, "c", &asked);
    let incoming = inputs(&one);
    let is_gone = leave(&mut one, true);
    let gone = inputs(&one);
    drop(one);
    holds(
        &rt,
        is_first && is_attached && is_second && is_left && is_third && is_gone,
    );
    same(&rt, [none, waiting], [[None; 2]; 2]);
    same(&rt, [attached, taken], [[Some(5), None], [None, Some(5)]]);
    same(&rt, [detached, incoming], [[None; 2], [Some(5), None]]);
    same(&rt, gone, [None; 2]);
}

#[test]
fn a_released_relay_is_not_asked(rt: HostRuntime) {
    let alloc = rt.alloc();
    let asked = Asked::new();
    let mut one = session(alloc);
    let are_done = [
        allot(alloc, &mut one, "a", &asked),
        one.deallocate_link(OutputHandle(0)),
        allot(alloc, &mut one, "b", &asked),
        leave(&mut one, false),
        allot(alloc, &mut one, "c", &asked),
        leave(&mut one, true),
    ];
    drop(one);
    holds(&rt, are_done == [true; 6]);
    same(&rt, asked.counts(), [0, 0, 0]);
}

/// A delivery of the peer's comes, under the input handle 5.
fn receive(one: &mut Counted<'_>, number: u32) -> bool {
    let mut coming = transfer_of(5, Some(b"y"));
    coming.delivery_id = Some(number);
    is_done(one.on_incoming_transfer(coming, Bytes::from_static(b"m")))
}

/// The peer grants a window, and a delivery of this side's goes out.
fn send(one: &mut Counted<'_>) -> bool {
    let is_granted = is_done(one.on_incoming_flow(Flow::new(Some(0), 100, 0, 8)));
    let going = transfer_of(0, Some(b"y"));
    let payload = Bytes::from_static(b"m");
    is_done(one.on_outgoing_transfer(InputHandle(5), going, payload, true)) && is_granted
}

#[test]
fn settling_asks_none_and_is_no_walk(rt: HostRuntime) {
    let alloc = rt.alloc();
    let asked = Asked::new();
    let mut one = session(alloc);
    let are_done = [
        allot_incoming(alloc, &mut one, "a", &asked),
        receive(&mut one, 4294967295),
        receive(&mut one, 0),
        send(&mut one),
    ];
    let said = disposition_of(Role::Sender, 0, Some(1), false, None);
    let is_heard = is_done(one.on_incoming_disposition(said));
    let walk = one.last_walk();
    let before = asked.counts();
    let gone = [
        one.settle(Role::Receiver, 4294967294, Some(5)),
        one.settle(Role::Sender, 0, Some(7)),
    ];
    let is_same = one.last_walk() == walk;
    drop(one);
    holds(&rt, are_done == [true; 4] && is_heard && is_same);
    same(&rt, gone, [2, 1]);
    same(&rt, [before, asked.counts()], [[0, 0, 3]; 2]);
}
