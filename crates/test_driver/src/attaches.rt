//! What the record of a peer's Attach says of its end: termini, the largest message that it takes, and how either end settles.

use crate::given::{feed, link_up, opened};
use crate::received::{BEGUN, INPUT};
use crate::same::same;
use amqp_driver::{Record, kind};
use std::alloc::Global;
use std::test::Fail;

/// An Attach of the name `py-snd`, as a receiver: with a source and a target, of snd-settle-mode 1 and rcv-settle-mode 1, and of a max-message-size
/// of 5 * 2^32 + 7.
const BOTH: [u8; 48] =
    *b"\x00\x00\x00\x30\x02\x00\x00\x00\x00\x53\x12\xc0\x23\x0b\xa1\x06py-snd\x43\x41\x50\x01\x50\x01\x00\x53\x28\x45\x00\x53\x29\x45\x40\x40\x40\x80\x00\x00\x00\x05\x00\x00\x00\x07";

/// With a source, the modes 2 and 0, and a max-message-size of 9.
const SOURCE: [u8; 38] =
    *b"\x00\x00\x00\x26\x02\x00\x00\x00\x00\x53\x12\xc0\x19\x0b\xa1\x06py-snd\x43\x41\x50\x02\x50\x00\x00\x53\x28\x45\x40\x40\x40\x40\x53\x09";

/// With a target, and neither modes nor a max-message-size.
const TARGET: [u8; 31] =
    *b"\x00\x00\x00\x1f\x02\x00\x00\x00\x00\x53\x12\xc0\x12\x07\xa1\x06py-snd\x43\x41\x40\x40\x40\x00\x53\x29\x45";

/// With neither source nor target, of snd-settle-mode 0, and of a max-message-size of 0.
const NEITHER: [u8; 33] =
    *b"\x00\x00\x00\x21\x02\x00\x00\x00\x00\x53\x12\xc0\x14\x0b\xa1\x06py-snd\x43\x41\x50\x00\x40\x40\x40\x40\x40\x40\x44";

/// The record of a frame that comes once the session has begun, where links wait for their Attaches, or where none do.
fn said(alloc: Global, are_linked: bool, frame: &[u8]) -> Result<Record, Fail> {
    let mut driver = opened(alloc)?;
    let mut found = Vec::new(alloc);
    let _ = feed(&mut driver, &INPUT[..BEGUN], BEGUN, &mut found)?;
    if are_linked {
        link_up(alloc, &mut driver)?;
    }
    let taken = feed(&mut driver, frame, frame.len(), &mut found)?;
    drop(driver);
    match found.pop() {
        Some(record) if taken == frame.len() => Ok(record),
        _ => Err(Fail::new("the frame was not taken")),
    }
}

/// Its kind and its termini.
fn ends(record: &Record) -> (u8, u8) {
    (record.kind, record.outcome)
}

/// The halves of the largest message, and the modes of sender and receiver.
fn terms(record: &Record) -> (u32, u32, u32, u32) {
    (record.first, record.last, record.credit, record.available)
}

#[test]
fn both_termini(rt: HostRuntime) -> Result<(), Fail> {
    let both = said(rt.alloc(), true, &BOTH)?;
    same(&rt, ends(&both), (kind::ATTACHED, 3));
    same(&rt, terms(&both), (7, 5, 1, 1));
    same(&rt, (both.output, both.input, both.count), (1, 0, 0));
    Ok(())
}

#[test]
fn a_source_alone(rt: HostRuntime) -> Result<(), Fail> {
    let source = said(rt.alloc(), true, &SOURCE)?;
    same(&rt, ends(&source), (kind::ATTACHED, 1));
    same(&rt, terms(&source), (9, 0, 2, 0));
    Ok(())
}

#[test]
fn a_target_alone(rt: HostRuntime) -> Result<(), Fail> {
    let target = said(rt.alloc(), true, &TARGET)?;
    same(&rt, ends(&target), (kind::ATTACHED, 2));
    same(&rt, terms(&target), (0, 0, 2, 0));
    Ok(())
}

#[test]
fn neither_of_them(rt: HostRuntime) -> Result<(), Fail> {
    let neither = said(rt.alloc(), true, &NEITHER)?;
    same(&rt, ends(&neither), (kind::ATTACHED, 0));
    same(&rt, terms(&neither), (0, 0, 0, 0));
    Ok(())
}

#[test]
fn of_a_link_that_the_peer_begins(rt: HostRuntime) -> Result<(), Fail> {
    let wanted = said(rt.alloc(), false, &BOTH)?;
    same(&rt, ends(&wanted), (kind::ATTACH_WANTED, 3));
    same(&rt, terms(&wanted), (7, 5, 1, 1));
    Ok(())
}
