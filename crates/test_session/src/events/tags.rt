//! The tags of open deliveries: what a relay is told of one has the tag that it came with, whether the session keeps it as it came or as a copy; and
//! which frames are let go for that.

use super::frames::{attach, settled};
use crate::same::{holds, is_done};
use amqp_events::{Event, EventBody, EventRelay, Policy, Room, SharedQueue};
use amqp_session::{OutgoingChannel, Session, SessionSettings};
use amqp_types::{DeliveryTag, Handle, ReceiverSettleMode, Role, SessionState, Transfer};
use bytes::Bytes;
use std::alloc::{AllocError, Global};

type Shared = Session<EventRelay<SharedQueue>>;

/// So many that most tags are copied, into more than one block.
const MANY: u32 = 600;

/// Room for an event of each kind.
const ROOM: Room = Room {
    links: 1,
    flows: 1,
    transfers: 1,
    dispositions: 1,
};

/// The tag of a delivery: some bytes, all of them the same, from none to more than the standard has.
fn tag_of(alloc: Global, number: u32) -> Result<DeliveryTag, AllocError> {
    let bytes = [(number % 251) as u8; 40];
    let len = (number % 41) as usize;
    let tag = Bytes::copy_from_slice(alloc, &bytes[..len])?;
    Ok(DeliveryTag(tag))
}

/// A session with a link at the handle 5, on which this side receives.
fn one_link(alloc: Global, queue: &SharedQueue) -> Result<Shared, AllocError> {
    let mut session = Session::new(
        alloc,
        SessionSettings::new(),
        OutgoingChannel(3),
        SessionState::Mapped,
        None,
    );
    let policy = Policy::new(Role::Receiver, ReceiverSettleMode::Second);
    let attach = attach(alloc, "a", 5)?;
    let name = String::from_str(alloc, "a")?;
    let relay = EventRelay::new(queue.share()?, 9, policy);
    let _is_allotted = is_done(session.allocate_link(name, Some(relay)));
    let _is_attached = is_done(session.on_incoming_attach(attach));
    drop(queue.pop());
    Ok(session)
}

/// Whether the transfer of a delivery is taken.
fn is_taken(
    alloc: Global,
    session: &mut Shared,
    queue: &SharedQueue,
    number: u32,
) -> Result<bool, AllocError> {
    let transfer = Transfer {
        delivery_id: Some(number),
        delivery_tag: Some(tag_of(alloc, number)?),
        ..Transfer::new(Handle(5))
    };
    let is_taken = is_done(session.on_incoming_transfer(transfer, Bytes::new()));
    drop(queue.pop());
    Ok(is_taken)
}

/// Whether an event is a disposition of the delivery with this tag.
fn is_of(event: &Event, wanted: &DeliveryTag) -> bool {
    match &event.body {
        EventBody::Disposition { tag, .. } => tag.0.as_slice() == wanted.0.as_slice(),
        _ => false,
    }
}

/// Whether the relay is told that a delivery is settled, by its tag.
fn is_told(
    alloc: Global,
    session: &mut Shared,
    queue: &SharedQueue,
    number: u32,
) -> Result<bool, AllocError> {
    let wanted = tag_of(alloc, number)?;
    let is_settled = is_done(session.on_incoming_disposition(settled(number)));
    let Some(event) = queue.pop() else {
        return Ok(false);
    };
    let is_told = is_of(&event, &wanted);
    drop(event);
    Ok(is_settled && is_told)
}

/// Deliveries that come in scattered order, and are settled in order: how many of them are told by their tags.
fn scattered(alloc: Global) -> Result<u32, AllocError> {
    let queue = SharedQueue::with_room(alloc, ROOM)?;
    let mut session = one_link(alloc, &queue)?;
    let mut told = 0_u32;
    for at in 0..MANY {
        if !is_taken(alloc, &mut session, &queue, at * 77 % MANY)? {
            return Ok(told);
        }
    }
    for number in 0..MANY {
        if is_told(alloc, &mut session, &queue, number)? {
            told = told.wrapping_add(1);
        }
    }
    Ok(told)
}

#[test]
fn many_deliveries_keep_their_tags(rt: HostRuntime) {
    holds(&rt, scattered(rt.alloc()) == Ok(MANY));
}

/// Whether the frame is let go once the delivery that came in it is open: nobody else holds it then. So many of its bytes are the tag. The
/// payload has so many, in memory of its own.
fn is_let_go(
    alloc: Global,
    session: &mut Shared,
    queue: &SharedQueue,
    number: u32,
    tag: usize,
    payload: usize,
) -> Result<bool, AllocError> {
    let bytes = [0_u8; 300];
    let frame = Bytes::copy_from_slice(alloc, &bytes)?;
    let transfer = Transfer {
        delivery_id: Some(number),
        delivery_tag: Some(DeliveryTag(frame.slice(0..tag.min(300))?)),
        ..Transfer::new(Handle(5))
    };
    let payload = Bytes::copy_from_slice(alloc, &bytes[..payload.min(300)])?;
    let _is_taken = is_done(session.on_incoming_transfer(transfer, payload));
    drop(queue.pop());
    Ok(frame.is_unique())
}

/// Of many open deliveries: the 256th, the next, and one whose tag is longer than its payload.
fn of_many(alloc: Global) -> Result<[bool; 3], AllocError> {
    let queue = SharedQueue::with_room(alloc, ROOM)?;
    let mut session = one_link(alloc, &queue)?;
    for number in 0..255 {
        let _is_taken = is_taken(alloc, &mut session, &queue, number)?;
    }
    Ok([
        is_let_go(alloc, &mut session, &queue, 255, 32, 256)?,
        is_let_go(alloc, &mut session, &queue, 256, 32, 256)?,
        is_let_go(alloc, &mut session, &queue, 257, 300, 256)?,
    ])
}

/// Of few: with a payload of 256 bytes, with a longer one, and with a tag beside it that is longer than the standard has it.
fn of_few(alloc: Global) -> Result<[bool; 3], AllocError> {
    let queue = SharedQueue::with_room(alloc, ROOM)?;
    let mut session = one_link(alloc, &queue)?;
    Ok([
        is_let_go(alloc, &mut session, &queue, 0, 32, 256)?,
        is_let_go(alloc, &mut session, &queue, 1, 32, 257)?,
        is_let_go(alloc, &mut session, &queue, 2, 33, 257)?,
    ])
}

#[test]
fn long_frames_and_those_of_many_are_let_go(rt: HostRuntime) {
    let alloc = rt.alloc();
    holds(&rt, of_many(alloc) == Ok([false, true, false]));
    holds(&rt, of_few(alloc) == Ok([false, true, true]));
}
