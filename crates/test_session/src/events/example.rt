//! The example of the library's page, and what it gives.

use super::frames::{link_flow, transfer};
use crate::same::holds;
use amqp_events::{EventBody, EventRelay, Policy, Room, SharedQueue};
use amqp_session::{LinkRelay, OutputHandle};
use amqp_types::{ReceiverSettleMode, Role};
use bytes::Bytes;
use std::alloc::{AllocError, Global};

/// The relay of a link on which this side receives, in the owner's session 7.
pub fn receiver(queue: &SharedQueue) -> Result<EventRelay<SharedQueue>, AllocError> {
    let policy = Policy::new(Role::Receiver, ReceiverSettleMode::First);
    Ok(EventRelay::new(queue.share()?, 7, policy))
}

/// The payloads of the transfers that wait, in order; what else waits is passed over.
pub fn take_payloads(queue: &SharedQueue, payloads: &mut Vec<Bytes>) -> Result<(), AllocError> {
    for _ in 0..queue.len() {
        payloads.reserve(1)?;
        let Some(event) = queue.pop() else {
            return Ok(());
        };
        match event.body {
            EventBody::Transfer {
                performative: _transfer,
                payload,
            } => payloads.push(payload)?,
            _other => {}
        }
    }
    Ok(())
}

/// The first byte of a payload, or 0.
fn first_of(payloads: &Vec<Bytes>, i: usize) -> usize {
    if i < payloads.len() && !payloads[i].is_empty() {
        usize::from(payloads[i].as_slice()[0])
    } else {
        0
    }
}

/// A transfer, a flow and a transfer are told; how many payloads come out, with the first byte of two, and what waits then.
fn told(alloc: Global) -> Result<[usize; 4], AllocError> {
    let room = Room {
        links: 0,
        flows: 1,
        transfers: 2,
        dispositions: 0,
    };
    let queue = SharedQueue::with_room(alloc, room)?;
    let mut relay = receiver(&queue)?;
    drop(relay.on_incoming_transfer(transfer(5, 0), Bytes::from_static(b"x")));
    drop(relay.on_incoming_flow(OutputHandle(0), link_flow(5, 1)));
    drop(relay.on_incoming_transfer(transfer(5, 1), Bytes::from_static(b"y")));
    drop(relay);
    let mut payloads = Vec::new(alloc);
    take_payloads(&queue, &mut payloads)?;
    Ok([
        payloads.len(),
        first_of(&payloads, 0),
        first_of(&payloads, 1),
        queue.len(),
    ])
}

#[test]
fn the_example_gives_the_payloads_in_order(rt: HostRuntime) {
    holds(&rt, told(rt.alloc()) == Ok([2, 120, 121, 0]));
}
