//! What is made for links: the parts of a delivery, the outcome rejected, and the room for events.

use crate::script::codec::{Came, frame, limited};
use crate::script::mark;
use amqp_events::{Room, SharedQueue};
use fe2o3_amqp::definitions::Error;
use fe2o3_amqp::{
    DeliveryPart, FrameBody, Raw, ReadError, Symbol, frames, rejected, split_delivery,
};
use std::alloc::Global;

/// `split_delivery` of the transfer of a frame, under a limit, which goes before the digits of the frame.
pub fn split(rt: &HostRuntime, text: &str) -> anyhow::Result<Came> {
    let (limit, digits) = limited(text)?;
    let frame = frame(rt.alloc(), digits);
    let came = match &frame {
        Some(frame) => split_body(rt, limit, frame.body()),
        None => Came::Unmade,
    };
    drop(frame);
    Ok(came)
}

fn split_body(rt: &HostRuntime, limit: u32, body: &FrameBody) -> Came {
    let FrameBody::Transfer {
        performative,
        payload,
    } = body
    else {
        return Came::To("no transfer");
    };
    mark(rt, "@run\n");
    let parts = split_delivery(rt.alloc(), performative, payload, limit);
    mark(rt, "@print\n");
    let came = of_parts(&parts);
    drop(parts);
    came
}

fn of_parts(parts: &Result<Vec<DeliveryPart>, frames::Error>) -> Came {
    match parts {
        Ok(parts) if parts.len() == 3 => Came::To("three parts"),
        Ok(_) => Came::To("other parts"),
        Err(frames::Error::OutOfMemory) => Came::Refused,
        Err(_) => Came::To("no parts"),
    }
}

/// `rejected`, for an error of this condition.
pub fn reject(rt: &HostRuntime, condition: &str) -> Came {
    let Some(error) = error(rt.alloc(), condition) else {
        return Came::Unmade;
    };
    mark(rt, "@run\n");
    let outcome = rejected(rt.alloc(), &error);
    mark(rt, "@print\n");
    drop(error);
    let came = of_outcome(&outcome);
    drop(outcome);
    came
}

fn error(alloc: Global, condition: &str) -> Option<Error> {
    let condition = String::from_str(alloc, condition).ok()?;
    Some(Error::new(Symbol::new(condition)?))
}

fn of_outcome(outcome: &Result<Raw, ReadError>) -> Came {
    match outcome {
        Ok(outcome) if outcome.bytes().starts_with(b"\x00\x53\x25") => Came::To("rejected"),
        Ok(_) => Came::To("another outcome"),
        Err(ReadError::OutOfMemory) => Came::Refused,
        Err(ReadError::Malformed) => Came::To("no outcome"),
    }
}

/// `SharedQueue::with_room`, for a few events of each kind.
pub fn events(rt: &HostRuntime) -> Came {
    let room = Room {
        links: 2,
        flows: 1,
        transfers: 8,
        dispositions: 8,
    };
    mark(rt, "@run\n");
    let queue = SharedQueue::with_room(rt.alloc(), room);
    mark(rt, "@print\n");
    let came = match &queue {
        Ok(_) => Came::To("have room"),
        Err(_) => Came::Refused,
    };
    drop(queue);
    came
}
