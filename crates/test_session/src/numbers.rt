//! The number of a delivery is shown before its first transfer is asked for, also where that waits then.

use crate::relays::Quiet;
use crate::same::{holds, is_done, same};
use amqp_session::{
    InputHandle, LinkRelay, OutgoingChannel, Session, SessionFrame, SessionFrameBody,
    SessionOutgoingItem, SessionSettings,
};
use amqp_types::{Flow, SessionState};
use bytes::Bytes;
use std::alloc::Global;
use test_support::transfer_of;

type Numbered<'a> = Session<Quiet<'a>>;

/// A mapped session without a link.
fn session<'a>(alloc: Global) -> Numbered<'a> {
    Session::new(
        alloc,
        SessionSettings::new(),
        OutgoingChannel(3),
        SessionState::Mapped,
        None,
    )
}

/// The delivery's number that a frame carries: none on a transfer that goes on with one.
fn number_of(frame: &SessionFrame) -> Option<u32> {
    match &frame.body {
        SessionFrameBody::Transfer { performative, .. } => performative.delivery_id,
        _ => Some(4294967295),
    }
}

/// How many frames go out, and the numbers of the first three.
type Sent = (usize, [Option<u32>; 3]);

/// The number of the frame at this place, if there is one.
fn number_at(frames: &Vec<SessionFrame>, i: usize) -> Option<u32> {
    if i < frames.len() {
        number_of(&frames[i])
    } else {
        None
    }
}

/// What a call hands out.
fn sent(item: Option<SessionOutgoingItem>) -> Sent {
    match item {
        None => (0, [None; 3]),
        Some(SessionOutgoingItem::SingleFrame(frame)) => (1, [number_of(&frame), None, None]),
        Some(SessionOutgoingItem::MultipleFrames(frames)) => (
            frames.len(),
            [
                number_at(&frames, 0),
                number_at(&frames, 1),
                number_at(&frames, 2),
            ],
        ),
    }
}

/// The number that is shown, and then what goes out as a transfer is asked for: the first of its delivery where it has a tag.
fn ask(one: &mut Numbered<'_>, tag: Option<&'static [u8]>) -> (u32, Sent) {
    let shown = one.next_delivery_number();
    let is_first = tag.is_some();
    let payload = Bytes::from_static(b"m");
    let answer = one.on_outgoing_transfer(InputHandle(5), transfer_of(0, tag), payload, is_first);
    match answer {
        Ok(item) => (shown, sent(item)),
        Err(_error) => (shown, (9, [None; 3])),
    }
}

/// What goes out as the peer, which has had so many transfers, takes so many more.
fn let_out(one: &mut Numbered<'_>, had: u32, window: u32) -> Sent {
    match one.on_incoming_flow(Flow::new(Some(had), window, 0, 8)) {
        Ok(item) => sent(item),
        Err(_error) => (9, [None; 3]),
    }
}

#[test]
fn deliveries_that_wait_have_their_numbers(rt: HostRuntime) {
    let alloc = rt.alloc();
    let mut one = session(alloc);
    let granted = let_out(&mut one, 0, 1);
    let first = ask(&mut one, Some(b"a"));
    let second = ask(&mut one, Some(b"b"));
    let goes_on = ask(&mut one, None);
    let third = ask(&mut one, Some(b"c"));
    let held = one.held_back();
    let shown = one.next_delivery_number();
    let later = let_out(&mut one, 1, 2);
    let meanwhile = one.next_delivery_number();
    let last = let_out(&mut one, 3, 1);
    let after = one.next_delivery_number();
    drop(one);
    same(&rt, granted, (0, [None; 3]));
    same(&rt, first, (0, (1, [Some(0), None, None])));
    same(&rt, [second.0, goes_on.0, third.0], [1, 2, 2]);
    same(&rt, [second.1, goes_on.1, third.1], [(0, [None; 3]); 3]);
    same(&rt, held, 3);
    same(&rt, later, (2, [Some(1), None, None]));
    same(&rt, last, (1, [Some(2), None, None]));
    same(&rt, [shown, meanwhile, after], [3; 3]);
}

#[test]
fn a_refused_delivery_has_no_number(rt: HostRuntime) {
    let alloc = rt.alloc();
    let mut one = session(alloc);
    let untagged = transfer_of(0, None);
    let answer = one.on_outgoing_transfer(InputHandle(5), untagged, Bytes::from_static(b"m"), true);
    let is_taken = is_done(answer);
    let shown = one.next_delivery_number();
    let next = ask(&mut one, Some(b"a"));
    let out = let_out(&mut one, 0, 1);
    drop(one);
    holds(&rt, !is_taken);
    same(&rt, [shown, next.0], [0; 2]);
    same(&rt, next.1, (0, [None; 3]));
    same(&rt, out, (1, [Some(0), None, None]));
}
