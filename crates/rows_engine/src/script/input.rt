//! The input that a line says.

use crate::script::reading;
use bytes::Bytes;
use fe2o3_amqp::{
    Flow, Input, InputHandle, LinkFlow, Performative, ReplayRelay, SessionNo, SessionSettings,
    Transfer,
};
use std::alloc::{AllocError, Global};
use test_support::words;

/// An input of the script.
pub type ScriptInput = Input<ReplayRelay>;

/// The input of a line; `None` where it says none. `AllocError` where memory is refused.
pub fn of_line(alloc: Global, line: &str) -> Result<Option<ScriptInput>, AllocError> {
    match words::word(line) {
        ("open", _) => Ok(Some(Input::Open)),
        ("close", _) => Ok(Some(Input::Close(None))),
        ("recv", digits) | ("take", digits) => {
            Ok(Some(Input::Received(reading::bytes(alloc, digits)?)))
        }
        (word, rest) => of_session(alloc, word, rest),
    }
}

/// The input of a line whose second word is a session's number.
fn of_session(alloc: Global, word: &str, rest: &str) -> Result<Option<ScriptInput>, AllocError> {
    let (number, rest) = words::word(rest);
    let Some(number) = reading::session(number) else {
        return Ok(None);
    };
    match word {
        "begin" => Ok(begin(number, rest)),
        "end" => Ok(Some(Input::End(number, None))),
        "release" => Ok(Some(Input::Release(number))),
        "forget" => Ok(Some(Input::Forget(number))),
        "link" => link(alloc, number, rest),
        "link-incoming" => incoming_link(alloc, number, rest),
        "send" => sent(alloc, number, rest, true),
        "detach" => sent(alloc, number, rest, false),
        "settle" => Ok(settled(number, rest)),
        _ => Ok(None),
    }
}

/// A session with default settings, or with this incoming window.
fn begin(number: SessionNo, window: &str) -> Option<ScriptInput> {
    if window.is_empty() {
        return Some(Input::Begin(number, SessionSettings::new()));
    }
    let incoming_window = window.parse::<u32>().ok()?;
    let mut settings = SessionSettings::new();
    settings.incoming_window = incoming_window;
    Some(Input::Begin(number, settings))
}

/// What this side settles by itself: its role, the first number, and the last one.
fn settled(number: SessionNo, text: &str) -> Option<ScriptInput> {
    let (role, range) = words::word(text);
    let role = reading::role(role)?;
    let (first, last) = words::word(range);
    let first = first.parse::<u32>().ok()?;
    let last = last.parse::<u32>().ok()?;
    Some(Input::Settle(number, role, first, Some(last)))
}

fn link(alloc: Global, number: SessionNo, name: &str) -> Result<Option<ScriptInput>, AllocError> {
    let name = String::from_str(alloc, name)?;
    Ok(Some(Input::AllocateLink(number, name, Some(ReplayRelay))))
}

fn incoming_link(
    alloc: Global,
    number: SessionNo,
    text: &str,
) -> Result<Option<ScriptInput>, AllocError> {
    let (handle, name) = words::word(text);
    let Some(handle) = reading::handle(handle) else {
        return Ok(None);
    };
    let name = String::from_str(alloc, name)?;
    Ok(Some(Input::AllocateIncomingLink(number, name, ReplayRelay, handle)))
}

/// The request of a performative.
fn sent(
    alloc: Global,
    number: SessionNo,
    digits: &str,
    expects_echo: bool,
) -> Result<Option<ScriptInput>, AllocError> {
    match reading::performative(alloc, digits)? {
        Some((performative, rest)) => Ok(asked_of(number, performative, rest, expects_echo)),
        None => Ok(None),
    }
}

fn asked_of(
    number: SessionNo,
    performative: Performative,
    rest: Bytes,
    expects_echo: bool,
) -> Option<ScriptInput> {
    match performative {
        Performative::Attach(attach) => Some(Input::Attach(number, attach)),
        Performative::Disposition(said) => Some(Input::Disposition(number, said)),
        Performative::Detach(detach) => Some(Input::Detach(number, detach, expects_echo)),
        Performative::Flow(flow) => flow_asked(number, flow),
        Performative::Transfer(transfer) => Some(transfer_asked(number, transfer, rest)),
        other => {
            drop(other);
            None
        }
    }
}

fn flow_asked(number: SessionNo, flow: Flow) -> Option<ScriptInput> {
    match LinkFlow::try_from(flow) {
        Ok(flow) => Some(Input::Flow(number, flow)),
        Err(()) => None,
    }
}

fn transfer_asked(number: SessionNo, transfer: Transfer, payload: Bytes) -> ScriptInput {
    let handle = InputHandle::from(transfer.handle);
    let is_first = transfer.delivery_tag.is_some();
    Input::Transfer(number, handle, transfer, payload, is_first)
}
