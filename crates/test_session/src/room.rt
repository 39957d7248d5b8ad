//! Calls that ask for memory first: where there is room, they do what the calls do beside which they stand.

use crate::relays::{Asked, Quiet};
use crate::same::{holds, is_done, same};
use amqp_session::{InputHandle, OutgoingChannel, OutputHandle, Session, SessionSettings};
use amqp_types::{Flow, Role, SessionState};
use bytes::Bytes;
use std::alloc::Global;
use test_support::{attach_of, disposition_of, transfer_of};

type Roomy<'a> = Session<Quiet<'a>>;

/// A mapped session, with a link that waits for the peer's attach.
fn session<'a>(alloc: Global, asked: &'a Asked) -> Roomy<'a> {
    let mut one = Session::new(
        alloc,
        SessionSettings::new(),
        OutgoingChannel(3),
        SessionState::Mapped,
        None,
    );
    if let Ok(name) = String::from_str(alloc, "a") {
        let _is_allotted = is_done(one.allocate_link(name, Some(Quiet { asked })));
    }
    one
}

/// Whether there was room, and the call was accepted.
fn had_room<T: Drop, E: Drop>(answer: Option<Result<T, E>>) -> bool {
    match answer {
        None => false,
        Some(answer) => is_done(answer),
    }
}

/// The peer attaches under the input handle 5.
fn attach(alloc: Global, one: &mut Roomy<'_>, name: &str) -> bool {
    match String::from_str(alloc, name) {
        Ok(name) => had_room(one.on_incoming_attach_if_room(attach_of(name, 5, Role::Sender))),
        Err(_) => false,
    }
}

/// A delivery of the peer's comes, under this input handle.
fn receive(one: &mut Roomy<'_>, input: u32) -> bool {
    let mut coming = transfer_of(input, Some(b"y"));
    coming.delivery_id = Some(7);
    had_room(one.take_transfer_if_room(coming, Bytes::from_static(b"m")))
}

#[test]
fn links_and_flows(rt: HostRuntime) {
    let asked = Asked::new();
    let mut one = session(rt.alloc(), &asked);
    let attached = attach(rt.alloc(), &mut one, "a");
    let unknown = attach(rt.alloc(), &mut one, "b");
    let output = one.output_handle_of(InputHandle(5));
    let granted = had_room(one.on_incoming_flow_if_room(Flow::new(Some(0), 100, 6, 8)));
    let numbers = [one.remote_incoming_window(), one.next_incoming_id()];
    drop(one);
    holds(&rt, attached && !unknown && granted);
    same(&rt, output, Some(OutputHandle(0)));
    same(&rt, numbers, [100, 6]);
    same(&rt, asked.counts(), [1, 0, 0]);
}

#[test]
fn deliveries(rt: HostRuntime) {
    let asked = Asked::new();
    let mut one = session(rt.alloc(), &asked);
    let attached = attach(rt.alloc(), &mut one, "a");
    let (taken, unattached) = (receive(&mut one, 5), receive(&mut one, 6));
    let open = one.settle(Role::Receiver, 7, None);
    let taken_again = receive(&mut one, 5);
    let said = disposition_of(Role::Sender, 7, None, true, None);
    let heard = had_room(one.on_incoming_disposition_if_room(said));
    let left = one.settle(Role::Receiver, 7, None);
    drop(one);
    holds(
        &rt,
        attached && taken && !unattached && taken_again && heard,
    );
    same(&rt, [open, left], [1, 0]);
}
