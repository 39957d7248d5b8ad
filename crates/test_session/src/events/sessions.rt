//! A session with two links whose relays share a queue: what comes for either comes out in order, with its own link and payload.

use super::frames::{attach, flow, settled, transfer};
use super::seen::{Seen, show};
use crate::same::{holds, is_done};
use amqp_events::{EventRelay, LinkNames, Policy, Room, SharedQueue};
use amqp_session::{
    InputHandle, OutgoingChannel, OutputHandle, Session, SessionInnerError, SessionSettings,
};
use amqp_types::{ReceiverSettleMode, Role, SessionState};
use bytes::Bytes;
use std::alloc::{AllocError, Global};
use test_support::detach_of;

type Shared = Session<EventRelay<SharedQueue>>;

/// Room for two links, two flows, three transfers and one disposition.
const ROOM: Room = Room {
    links: 4,
    flows: 2,
    transfers: 3,
    dispositions: 1,
};

fn link(input: u32, output: Option<u32>) -> LinkNames {
    LinkNames {
        session: 9,
        input: Some(InputHandle(input)),
        output: output.map(|output| OutputHandle(output)),
    }
}

/// Whether a link of this name, on which this side receives, is allotted, and the peer attaches it.
fn is_attached(
    alloc: Global,
    session: &mut Shared,
    queue: &SharedQueue,
    name: &str,
    input: u32,
) -> Result<bool, AllocError> {
    let policy = Policy::new(Role::Receiver, ReceiverSettleMode::Second);
    let attach = attach(alloc, name, input)?;
    let name = String::from_str(alloc, name)?;
    let relay = EventRelay::new(queue.share()?, 9, policy);
    let is_allotted = is_done(session.allocate_link(name, Some(relay)));
    Ok(is_done(session.on_incoming_attach(attach)) && is_allotted)
}

/// A mapped session whose links `a` and `b` are attached under 5 and 6.
fn two_links(alloc: Global, queue: &SharedQueue) -> Option<Shared> {
    let mut session = Session::new(
        alloc,
        SessionSettings::new(),
        OutgoingChannel(3),
        SessionState::Mapped,
        None,
    );
    let is_first = is_attached(alloc, &mut session, queue, "a", 5);
    let is_second = is_attached(alloc, &mut session, queue, "b", 6);
    if is_first == Ok(true) && is_second == Ok(true) {
        return Some(session);
    }
    drop(session);
    None
}

/// Whether a transfer was taken.
fn send(session: &mut Shared, input: u32, number: u32, payload: &'static [u8]) -> bool {
    is_done(session.on_incoming_transfer(transfer(input, number), Bytes::from_static(payload)))
}

/// Whether a transfer was refused memory.
fn is_refused(session: &mut Shared, input: u32, number: u32) -> bool {
    let answer = session.on_incoming_transfer(transfer(input, number), Bytes::from_static(b"w"));
    let is_refused = matches!(&answer, Err(SessionInnerError::OutOfMemory));
    drop(answer);
    is_refused
}

fn settle(session: &mut Shared, number: u32) -> bool {
    is_done(session.on_incoming_disposition(settled(number)))
}

fn leave(session: &mut Shared, input: u32) -> bool {
    let answer = session.on_incoming_detach(detach_of(input));
    let is_silent = matches!(&answer, Ok(None));
    drop(answer);
    is_silent
}

/// Whether the queue gives these events next.
fn gives(queue: &SharedQueue, events: &[Seen]) -> bool {
    let mut is_so = true;
    for event in events {
        let next = show(queue.pop());
        is_so = is_so && next == *event;
    }
    is_so
}

/// What comes on two links in turn, with more transfers and dispositions than there is room for: what is taken and comes out in order,
/// what is refused and what is missed, and what is taken once there is room again.
fn in_turn(alloc: Global) -> Result<[bool; 4], AllocError> {
    let queue = SharedQueue::with_room(alloc, ROOM)?;
    let Some(mut session) = two_links(alloc, &queue) else {
        drop(queue);
        return Ok([false; 4]);
    };
    let taken = [
        send(&mut session, 6, 0, b"x"),
        send(&mut session, 5, 1, b"y"),
        is_done(session.on_incoming_flow(flow(5, 8))),
        send(&mut session, 5, 2, b"z"),
        settle(&mut session, 1),
    ];
    let refused = is_refused(&mut session, 6, 3);
    let is_heard = settle(&mut session, 0);
    let counts = [queue.len() == 7, queue.missed() == 1];
    let first = [
        Seen::Attached(link(5, None), 97),
        Seen::Attached(link(6, None), 98),
        Seen::Transfer(link(6, None), Some(0), 120),
    ];
    let is_first = gives(&queue, &first);
    let late = [send(&mut session, 6, 4, b"v"), leave(&mut session, 6)];
    drop(session);
    let rest = [
        Seen::Transfer(link(5, None), Some(1), 121),
        Seen::Flow(link(5, Some(0)), Some(8)),
        Seen::Transfer(link(5, Some(0)), Some(2), 122),
        Seen::Disposition(link(5, Some(0)), true, 116),
        Seen::Transfer(link(6, None), Some(4), 118),
        Seen::Detached(link(6, Some(1)), true),
        Seen::Nothing,
    ];
    let is_rest = gives(&queue, &rest);
    drop(queue);
    Ok([
        taken == [true; 5] && is_heard,
        refused && counts == [true; 2],
        is_first && late == [true; 2],
        is_rest,
    ])
}

#[test]
fn two_links_come_out_in_order_and_what_finds_no_room_is_refused_or_missed(rt: HostRuntime) {
    holds(&rt, in_turn(rt.alloc()) == Ok([true; 4]));
}
