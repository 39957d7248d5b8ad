//! The queue: what was put in comes out in order, each kind has its room, and what is taken out gives it back.

use super::frames::{link_flow, transfer};
use super::seen::{Seen, show};
use crate::same::{holds, same};
use amqp_events::{Event, EventBody, EventKind, EventQueue, LinkNames, Room};
use amqp_session::LinkRelayError;
use bytes::Bytes;
use std::alloc::{AllocError, Global};
use test_support::detach_of;

const LINK: LinkNames = LinkNames {
    session: 1,
    input: None,
    output: None,
};

const ROOM: Room = Room {
    links: 0,
    flows: 1,
    transfers: 2,
    dispositions: 3,
};

fn of_transfer(number: u32) -> Event {
    Event {
        link: LINK,
        body: EventBody::Transfer {
            performative: transfer(5, number),
            payload: Bytes::from_static(b"p"),
        },
    }
}

fn of_flow(credit: u32) -> Event {
    Event {
        link: LINK,
        body: EventBody::Flow(link_flow(5, credit)),
    }
}

fn of_detach() -> Event {
    Event {
        link: LINK,
        body: EventBody::Detached {
            detach: detach_of(5),
            remote_initiated: false,
        },
    }
}

/// A queue that is filled past its room, emptied a little and filled again: whether it answers, counts and gives what it should, and
/// tells its room and what was missed.
fn filled(alloc: Global) -> Result<[bool; 4], AllocError> {
    let mut queue = EventQueue::with_room(alloc, ROOM)?;
    let early = [
        queue.push(of_transfer(1)),
        queue.push(of_flow(2)),
        queue.push(of_flow(3)),
    ];
    let rooms = [
        queue.has_room(EventKind::Flow),
        queue.has_room(EventKind::Transfer),
    ];
    let then = [
        queue.push(of_transfer(4)),
        queue.push(of_transfer(5)),
        queue.push(of_detach()),
    ];
    let none = queue.missed();
    queue.miss();
    queue.miss();
    let missed = [none, queue.missed()];
    let before = queue.len();
    let first = show(queue.pop());
    let after = queue.len();
    let late = queue.push(of_transfer(6));
    let rest = [
        show(queue.pop()),
        show(queue.pop()),
        show(queue.pop()),
        show(queue.pop()),
    ];
    drop(queue);
    let full = Err(LinkRelayError::OutOfMemory);
    let events = [
        Seen::Flow(LINK, Some(2)),
        Seen::Transfer(LINK, Some(4), 112),
        Seen::Transfer(LINK, Some(6), 112),
        Seen::Nothing,
    ];
    Ok([
        early == [Ok(()), Ok(()), full] && then == [Ok(()), full, full] && late.is_ok(),
        before == 3 && after == 2,
        first == Seen::Transfer(LINK, Some(1), 112) && rest == events,
        rooms == [false, true] && missed == [0, 2],
    ])
}

#[test]
fn a_queue_keeps_the_order_refuses_by_kind_and_counts(rt: HostRuntime) {
    holds(&rt, filled(rt.alloc()) == Ok([true; 4]));
}

#[test]
fn a_room_is_counted_by_kind(rt: HostRuntime) {
    let of = [
        ROOM.of(EventKind::Transfer),
        ROOM.of(EventKind::Disposition),
    ];
    same(&rt, of, [2, 3]);
    same(&rt, ROOM.total(), 6);
    let event = of_flow(1);
    let kind = event.body.kind();
    drop(event);
    holds(&rt, kind == EventKind::Flow);
}
