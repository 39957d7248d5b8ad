//! Calls of a pair, each a letter, and what they answer, each a letter too.

use amqp_session::{
    AllocLinkError, InputHandle, OutputHandle, SessionInnerError, SessionPair, Side,
};
use amqp_types::Role;
use bytes::Bytes;
use std::alloc::Global;
use test_support::{RowRelay, attach_of, link_flow_of, transfer_of};

/// The tag of each transfer that has one.
const TAG: Option<&'static [u8]> = Some(b"t");

/// What a call answers, as a letter.
fn said(answer: Result<(), SessionInnerError>) -> &'static str {
    let letter = letter(&answer);
    drop(answer);
    letter
}

fn letter(answer: &Result<(), SessionInnerError>) -> &'static str {
    match answer {
        Ok(()) => ".",
        Err(SessionInnerError::IllegalState) => "i",
        Err(SessionInnerError::UnattachedHandle) => "u",
        Err(SessionInnerError::RemoteAttachingLinkNameNotFound) => "n",
        Err(SessionInnerError::HandleInUse) => "h",
        Err(SessionInnerError::OutOfMemory) => "m",
        Err(_) => "?",
    }
}

/// What an allotment answers, as a letter.
fn allotted(answer: Result<OutputHandle, AllocLinkError>) -> &'static str {
    match answer {
        Ok(_) => ".",
        Err(AllocLinkError::SessionNotMapped) => "s",
        Err(AllocLinkError::DuplicatedLinkName) => "d",
        Err(AllocLinkError::OutOfMemory) => "m",
        Err(_) => "?",
    }
}

/// The call of this letter, by the session of this side, and what it answers.
pub fn answer(
    alloc: Global,
    pair: &mut SessionPair<RowRelay>,
    side: Side,
    letter: u8,
) -> anyhow::Result<&'static str> {
    match letter {
        b'b' => Ok(said(pair.begin(side))),
        b'r' => Ok(said(pair.arrive(side))),
        b'a' => allot(alloc, pair, side, "a"),
        b'd' => allot(alloc, pair, side, "d"),
        b'h' => attach(alloc, pair, side, "a", 0),
        b'j' => attach(alloc, pair, side, "d", 1),
        b'f' => Ok(flow(pair, side, 0, false)),
        b'e' => Ok(flow(pair, side, 0, true)),
        b'w' => Ok(flow(pair, side, 7, false)),
        _ => transfer(pair, side, letter),
    }
}

fn flow(pair: &mut SessionPair<RowRelay>, side: Side, handle: u32, echo: bool) -> &'static str {
    said(pair.send_flow(side, link_flow_of(handle, 1, echo)))
}

fn allot(
    alloc: Global,
    pair: &mut SessionPair<RowRelay>,
    side: Side,
    name: &str,
) -> anyhow::Result<&'static str> {
    let name = String::from_str(alloc, name)?;
    Ok(allotted(pair.allocate_link(side, name, Some(RowRelay::new()))))
}

fn attach(
    alloc: Global,
    pair: &mut SessionPair<RowRelay>,
    side: Side,
    name: &str,
    handle: u32,
) -> anyhow::Result<&'static str> {
    let name = String::from_str(alloc, name)?;
    let attach = attach_of(name, handle, Role::Sender);
    Ok(said(pair.send_attach(side, attach)))
}

fn transfer(
    pair: &mut SessionPair<RowRelay>,
    side: Side,
    letter: u8,
) -> anyhow::Result<&'static str> {
    let (handle, tag, settled, is_first) = match letter {
        b't' => (0, TAG, None, true),
        b's' => (0, TAG, Some(true), true),
        b'v' => (7, TAG, None, true),
        b'u' => (0, None, None, true),
        b'c' => (0, None, None, false),
        _ => anyhow::bail!("no call"),
    };
    let mut transfer = transfer_of(handle, tag);
    transfer.settled = settled;
    let payload = Bytes::from_static(b"p");
    Ok(said(pair.send_transfer(side, InputHandle(handle), transfer, payload, is_first)))
}
