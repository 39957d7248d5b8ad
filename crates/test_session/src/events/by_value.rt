//! A relay over a queue of its own: what it is told is in the queue, or it is refused and nothing has changed.

use super::frames::{attach, link_flow, transfer};
use super::seen::{Seen, show};
use crate::same::holds;
use amqp_events::{EventQueue, EventRelay, LinkNames, Policy, Recorded, Room};
use amqp_session::{InputHandle, LinkRelay, LinkRelayError, OutputHandle};
use amqp_types::{DeliveryTag, ReceiverSettleMode, Role};
use bytes::Bytes;
use std::alloc::{AllocError, Global};
use test_support::detach_of;

const ROOM: Room = Room {
    links: 1,
    flows: 1,
    transfers: 1,
    dispositions: 1,
};

fn relay(alloc: Global, room: Room) -> Result<EventRelay<EventQueue>, AllocError> {
    let policy = Policy {
        recorded: Recorded::OfEitherMode,
        answers_flows: true,
        answers_detaches: true,
        ..Policy::new(Role::Receiver, ReceiverSettleMode::First)
    };
    Ok(EventRelay::new(EventQueue::with_room(alloc, room)?, 2, policy))
}

fn link(output: Option<OutputHandle>) -> LinkNames {
    LinkNames {
        session: 2,
        input: Some(InputHandle(5)),
        output,
    }
}

/// The handle of an answered flow or detach, or the number of a delivery; or why what was told is refused.
type Answer = Result<Option<u32>, LinkRelayError>;

const REFUSED: Answer = Err(LinkRelayError::OutOfMemory);

fn tell_attach<R: LinkRelay>(alloc: Global, relay: &mut R) -> Result<Answer, AllocError> {
    match relay.on_incoming_attach(attach(alloc, "a", 5)?) {
        Ok(()) => Ok(Ok(None)),
        Err(error) => Ok(Err(error)),
    }
}

fn tell_flow<R: LinkRelay>(relay: &mut R) -> Answer {
    match relay.on_incoming_flow(OutputHandle(3), link_flow(5, 20))? {
        None => Ok(None),
        Some(flow) => Ok(Some(flow.handle.0)),
    }
}

fn tell_transfer<R: LinkRelay>(relay: &mut R, number: u32, payload: &'static [u8]) -> Answer {
    match relay.on_incoming_transfer(transfer(5, number), Bytes::from_static(payload))? {
        None => Ok(None),
        Some((number, _tag)) => Ok(Some(number)),
    }
}

fn tell_disposition<R: LinkRelay>(relay: &mut R, settled: bool) -> bool {
    let tag = DeliveryTag(Bytes::from_static(b"u"));
    relay.on_incoming_disposition(Role::Receiver, settled, None, &tag)
}

fn tell_detach<R: LinkRelay>(relay: &mut R) -> Answer {
    match relay.on_incoming_detach(OutputHandle(3), detach_of(5), true) {
        None => Ok(None),
        Some(detach) => Ok(Some(detach.handle.0)),
    }
}

/// Whether a relay's queue gives these events and no more, and missed so many.
fn gives(relay: EventRelay<EventQueue>, events: &[Seen], missed: u64) -> bool {
    let mut queue = relay.into_sink();
    let mut is_so = queue.missed() == missed;
    for event in events {
        let next = show(queue.pop());
        is_so = is_so && next == *event;
    }
    let rest = queue.len();
    drop(queue);
    is_so && rest == 0
}

/// Each call twice, where there is room for one: whether the answers and the events are what they should be.
fn each_call(alloc: Global) -> Result<[bool; 3], AllocError> {
    let mut relay = relay(alloc, Room { links: 2, ..ROOM })?;
    let answers = [
        tell_attach(alloc, &mut relay)?,
        tell_flow(&mut relay),
        tell_transfer(&mut relay, 8, b"m"),
    ];
    let is_echoed = tell_disposition(&mut relay, true);
    let detached = tell_detach(&mut relay);
    let are_answered = answers == [Ok(None), Ok(Some(3)), Ok(Some(8))] && detached == Ok(Some(3));
    let refused = [
        tell_attach(alloc, &mut relay)?,
        tell_flow(&mut relay),
        tell_transfer(&mut relay, 9, b"n"),
    ];
    let _echoed_again = tell_disposition(&mut relay, false);
    let missed = tell_detach(&mut relay);
    let both = link(Some(OutputHandle(3)));
    let events = [
        Seen::Attached(link(None), 97),
        Seen::Flow(both, Some(20)),
        Seen::Transfer(both, Some(8), 109),
        Seen::Disposition(both, true, 117),
        Seen::Detached(both, true),
    ];
    Ok([
        are_answered && !is_echoed,
        refused == [REFUSED; 3] && missed == Ok(Some(3)),
        gives(relay, &events, 2),
    ])
}

#[test]
fn each_call_is_an_event_or_finds_no_room(rt: HostRuntime) {
    holds(&rt, each_call(rt.alloc()) == Ok([true; 3]));
}

/// A transfer to the sending end of a link that stands under handle 5 from the start, and a disposition.
fn to_the_sender(alloc: Global) -> Result<[bool; 2], AllocError> {
    let policy = Policy::new(Role::Sender, ReceiverSettleMode::First);
    let queue = EventQueue::with_room(alloc, ROOM)?;
    let mut relay = EventRelay::attached(queue, 2, InputHandle(5), policy);
    let answer = tell_transfer(&mut relay, 8, b"m");
    let _echoed = tell_disposition(&mut relay, false);
    let events = [Seen::Disposition(link(None), false, 117)];
    let is_refused = answer == Err(LinkRelayError::TransferFrameToSender);
    Ok([is_refused, gives(relay, &events, 0)])
}

#[test]
fn a_sending_end_takes_no_transfer(rt: HostRuntime) {
    holds(&rt, to_the_sender(rt.alloc()) == Ok([true; 2]));
}
