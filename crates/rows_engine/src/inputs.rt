//! The inputs of a run, as a line names them.

use crate::reading;
use bytes::Bytes;
use fe2o3_amqp::{
    DEFAULT_WINDOW, Input, InputHandle, LinkFlow, Performative, ReplayRelay, SessionNo,
    SessionSettings, Transfer,
};
use std::alloc::Global;
use test_support::{digits, reasons, words};

/// An input of an engine whose links are relayed as those of transcripts are.
pub type RowInput = Input<ReplayRelay>;

/// The input that a line names.
pub fn input(alloc: Global, word: &str, rest: &str) -> anyhow::Result<RowInput> {
    match word {
        "open" => Ok(Input::Open),
        "close" => Ok(Input::Close(reasons::error(alloc, rest)?)),
        "recv" => Ok(Input::Received(digits::bytes(alloc, rest)?)),
        _ => {
            let (session, rest) = words::word(rest);
            of_session(alloc, word, number(session)?, rest)
        }
    }
}

/// The number of a session.
pub fn number(text: &str) -> anyhow::Result<SessionNo> {
    Ok(SessionNo(words::number(text)?))
}

/// A request on a session.
fn of_session(
    alloc: Global,
    word: &str,
    number: SessionNo,
    rest: &str,
) -> anyhow::Result<RowInput> {
    match word {
        "begin" => begin(number, rest),
        "end" => Ok(Input::End(number, None)),
        "release" => Ok(Input::Release(number)),
        "forget" => Ok(Input::Forget(number)),
        "stop" => Ok(Input::Stop(number, reading::session_stop(rest)?)),
        "settle" => settle(number, rest),
        "send" => sent(alloc, number, rest),
        _ => link(alloc, word, number, rest),
    }
}

/// A Begin of default settings, or with this incoming window.
fn begin(number: SessionNo, window: &str) -> anyhow::Result<RowInput> {
    let window = match window {
        "" => DEFAULT_WINDOW,
        window => words::number(window)?,
    };
    Ok(begin_with(number, window))
}

fn begin_with(number: SessionNo, window: u32) -> RowInput {
    let mut settings = SessionSettings::new();
    settings.incoming_window = window;
    Input::Begin(number, settings)
}

/// What this side settles: its role, the first number, and the last one where it is named.
fn settle(number: SessionNo, text: &str) -> anyhow::Result<RowInput> {
    let (role, range) = words::word(text);
    let role = reading::role(role)?;
    let (first, last) = words::word(range);
    let first = words::number(first)?;
    let last = match last {
        "" => None,
        last => Some(words::number(last)?),
    };
    Ok(Input::Settle(number, role, first, last))
}

/// A link of this name, with a relay that waits, or without one, or with one whose attach came on a handle.
fn link(alloc: Global, word: &str, number: SessionNo, rest: &str) -> anyhow::Result<RowInput> {
    match word {
        "link" => {
            let name = String::from_str(alloc, rest)?;
            Ok(Input::AllocateLink(number, name, Some(ReplayRelay)))
        }
        "allot" => Ok(Input::AllocateLink(number, String::from_str(alloc, rest)?, None)),
        "incoming" => incoming(alloc, number, rest),
        _ => Err(anyhow::anyhow!("no input")),
    }
}

fn incoming(alloc: Global, number: SessionNo, text: &str) -> anyhow::Result<RowInput> {
    let (handle, name) = words::word(text);
    let handle = InputHandle(words::number(handle)?);
    let name = String::from_str(alloc, name)?;
    Ok(Input::AllocateIncomingLink(number, name, ReplayRelay, handle))
}

/// What a session sends, as a transcript has it.
fn sent(alloc: Global, number: SessionNo, digits: &str) -> anyhow::Result<RowInput> {
    let (performative, payload) = digits::performative(alloc, digits)?;
    match performative {
        Performative::Transfer(transfer) => Ok(transferred(number, transfer, payload)),
        other => {
            drop(payload);
            of_link(number, other)
        }
    }
}

fn transferred(number: SessionNo, transfer: Transfer, payload: Bytes) -> RowInput {
    let handle = InputHandle::from(transfer.handle);
    let is_first = transfer.delivery_tag.is_some();
    Input::Transfer(number, handle, transfer, payload, is_first)
}

fn of_link(number: SessionNo, performative: Performative) -> anyhow::Result<RowInput> {
    match performative {
        Performative::Attach(attach) => Ok(Input::Attach(number, attach)),
        Performative::Disposition(said) => Ok(Input::Disposition(number, said)),
        Performative::Detach(detach) => Ok(Input::Detach(number, detach, true)),
        Performative::Flow(flow) => match LinkFlow::try_from(flow) {
            Ok(flow) => Ok(Input::Flow(number, flow)),
            Err(()) => Err(anyhow::anyhow!("no flow of a link")),
        },
        other => {
            drop(other);
            Err(anyhow::anyhow!("no session sends it"))
        }
    }
}
