//! Two engines face to face: what one puts out, the other receives. The link is attached on both sides before transfers pass.

use crate::asking::{allot, mapped, pieces, receive, send, send_attach, send_flow};
use crate::same::{holds, same};
use crate::telling::{Telling, Told};
use bytes::Bytes;
use fe2o3_amqp::{Engine, LinkRelay, Piece, ReplayRelay};
use std::alloc::Global;

/// A Begin on channel 0, which names channel 0 and grants a window of 2.
const BEGIN: &str = "02000000005311c009046000004352025208";

/// What an engine answers to a frame of one piece.
fn arrive<R: LinkRelay>(alloc: Global, to: &mut Engine<R>, pieces: &Vec<Piece>) -> &'static str {
    match pieces.as_slice() {
        [piece] => match piece.to_bytes(alloc) {
            Ok(bytes) => receive(to, bytes),
            Err(_) => "no bytes",
        },
        _ => "not one piece",
    }
}

/// What an engine answers to the first frame that waits in the other.
fn pass<F: LinkRelay, T: LinkRelay>(
    alloc: Global,
    from: &mut Engine<F>,
    to: &mut Engine<T>,
) -> &'static str {
    match pieces(from) {
        Some(pieces) => arrive(alloc, to, &pieces),
        None => "nothing waits",
    }
}

/// What an engine answers to a transfer of the other.
fn transfer<F: LinkRelay, T: LinkRelay>(
    alloc: Global,
    from: &mut Engine<F>,
    to: &mut Engine<T>,
) -> &'static str {
    match send(from, b"\x0a", Bytes::from_static(b"\xff")) {
        "done" => pass(alloc, from, to),
        refusal => refusal,
    }
}

/// Whether "a" is live on one side and, by an attach of it, attached under 0 on the other.
fn attach<F: LinkRelay, T: LinkRelay>(
    alloc: Global,
    from: &mut Engine<F>,
    to: &mut Engine<T>,
    relay: T,
) -> bool {
    allot(alloc, to, "a", relay) == "done"
        && send_attach(alloc, from, "a") == "done"
        && pass(alloc, from, to) == "done"
}

/// Whether two transfers pass, a third one waits for the window, and a flow of the other side lets it go.
fn two_pass<F: LinkRelay, T: LinkRelay>(
    alloc: Global,
    from: &mut Engine<F>,
    to: &mut Engine<T>,
) -> bool {
    transfer(alloc, from, to) == "done"
        && transfer(alloc, from, to) == "done"
        && transfer(alloc, from, to) == "nothing waits"
        && send_flow(to) == "done"
        && pass(alloc, to, from) == "done"
        && pass(alloc, from, to) == "done"
}

#[test]
fn an_attach_that_goes_out_attaches_the_link_that_waits(rt: HostRuntime) {
    let told = Told::new();
    let relay = Telling {
        told: &told,
        refusals: 0,
    };
    let mut from: Engine<ReplayRelay> = mapped(rt.alloc(), BEGIN);
    let mut to = mapped(rt.alloc(), BEGIN);
    let is_there = attach(rt.alloc(), &mut from, &mut to, relay);
    let before = told.counts();
    let is_here = attach(rt.alloc(), &mut to, &mut from, ReplayRelay);
    let is_passed = two_pass(rt.alloc(), &mut from, &mut to);
    drop(to);
    drop(from);
    holds(&rt, is_there);
    same(&rt, before, [1, 0, 0, 0]);
    holds(&rt, is_here);
    holds(&rt, is_passed);
    same(&rt, told.counts(), [1, 3, 0, 0]);
}
