//! What calls answer, as lines.

use amqp_session::{
    AllocLinkError, OutputHandle, SessionFrame, SessionFrameBody, SessionInnerError,
    SessionOutgoingItem, SessionStateError,
};
use amqp_types::{Detach, Disposition, Performative};
use bytes::{Bytes, BytesMut};
use std::alloc::Global;
use std::fmt;
use std::vec::IntoIter;

/// One line.
pub fn line(alloc: Global, text: &str) -> anyhow::Result<String> {
    Ok(format!(in alloc; "{text}\n")?)
}

/// The line of a refusal. It ends the error here.
pub fn refused<E: fmt::Debug + Drop>(alloc: Global, error: E) -> anyhow::Result<String> {
    let text = format!(in alloc; "err {error:?}\n");
    drop(error);
    Ok(text?)
}

/// What a frame says, and the payload of a transfer.
fn parts(body: SessionFrameBody) -> (Performative, Bytes) {
    match body {
        SessionFrameBody::Attach(p) => (Performative::Attach(p), Bytes::new()),
        SessionFrameBody::Flow(p) => (Performative::Flow(p), Bytes::new()),
        SessionFrameBody::Transfer {
            performative,
            payload,
        } => (Performative::Transfer(performative), payload),
        SessionFrameBody::Disposition(p) => (Performative::Disposition(p), Bytes::new()),
        SessionFrameBody::Detach(p) => (Performative::Detach(p), Bytes::new()),
        SessionFrameBody::Begin(p) => (Performative::Begin(p), Bytes::new()),
        SessionFrameBody::End(p) => (Performative::End(p), Bytes::new()),
    }
}

/// The digits of a performative's text.
fn digits(alloc: Global, performative: &Performative) -> anyhow::Result<String> {
    let mut text = BytesMut::new(alloc);
    let digits = written(alloc, performative, &mut text);
    drop(text);
    digits
}

/// The digits of a performative's text, which is written first.
fn written(
    alloc: Global,
    performative: &Performative,
    text: &mut BytesMut,
) -> anyhow::Result<String> {
    performative.write(text, u32::MAX)?;
    Ok(hex::encode(alloc, text.as_slice())?)
}

/// The line of a frame.
pub fn frame(alloc: Global, frame: SessionFrame) -> anyhow::Result<String> {
    let channel = frame.channel;
    let (performative, payload) = parts(frame.body);
    let text = of_parts(alloc, channel, &performative, payload.as_slice());
    drop(performative);
    drop(payload);
    text
}

/// The line of a frame of these parts.
fn of_parts(
    alloc: Global,
    channel: u16,
    performative: &Performative,
    payload: &[u8],
) -> anyhow::Result<String> {
    let text = digits(alloc, performative)?;
    let space = if payload.is_empty() { "" } else { " " };
    let rest = hex::encode(alloc, payload)?;
    Ok(format!(in alloc; "out {channel} {text}{space}{rest}\n")?)
}

/// The lines of several frames.
fn frames(alloc: Global, frames: Vec<SessionFrame>) -> anyhow::Result<String> {
    let mut rest = frames.into_iter();
    let text = all(alloc, &mut rest);
    drop(rest);
    text
}

/// The lines of the frames that are left.
fn all(alloc: Global, rest: &mut IntoIter<SessionFrame>) -> anyhow::Result<String> {
    let mut text = line(alloc, "list")?;
    for each in rest {
        text.push_str(frame(alloc, each)?.as_str())?;
    }
    Ok(text)
}

/// The lines of an item, if there is one.
pub fn item(alloc: Global, item: Option<SessionOutgoingItem>) -> anyhow::Result<String> {
    match item {
        None => line(alloc, "none"),
        Some(SessionOutgoingItem::SingleFrame(one)) => frame(alloc, one),
        Some(SessionOutgoingItem::MultipleFrames(several)) => frames(alloc, several),
    }
}

/// The lines of what a flow or a transfer hands out.
pub fn handed_out(
    alloc: Global,
    answer: Result<Option<SessionOutgoingItem>, SessionInnerError>,
) -> anyhow::Result<String> {
    match answer {
        Ok(handed) => item(alloc, handed),
        Err(error) => refused(alloc, error),
    }
}

/// The lines of a Begin's or an End's frame.
pub fn sent(
    alloc: Global,
    answer: Result<SessionFrame, SessionStateError>,
) -> anyhow::Result<String> {
    match answer {
        Ok(one) => frame(alloc, one),
        Err(error) => refused(alloc, error),
    }
}

/// The line of a received Begin or End.
pub fn taken(alloc: Global, answer: Result<(), SessionStateError>) -> anyhow::Result<String> {
    match answer {
        Ok(()) => line(alloc, "ok"),
        Err(error) => refused(alloc, error),
    }
}

/// The line of a received transfer.
pub fn transfer_taken(
    alloc: Global,
    answer: Result<Option<Disposition>, SessionInnerError>,
) -> anyhow::Result<String> {
    match answer {
        Ok(None) => line(alloc, "none"),
        Ok(Some(said)) => disposition(alloc, said),
        Err(error) => refused(alloc, error),
    }
}

/// The line of a disposition that a relay asks for.
pub fn disposition(alloc: Global, said: Disposition) -> anyhow::Result<String> {
    asked(alloc, "disposition", Performative::Disposition(said))
}

/// The line of a performative that a relay asks for.
fn asked(alloc: Global, name: &str, performative: Performative) -> anyhow::Result<String> {
    let text = named(alloc, name, &performative);
    drop(performative);
    text
}

/// The name, and the digits of the performative's text.
fn named(alloc: Global, name: &str, performative: &Performative) -> anyhow::Result<String> {
    let text = digits(alloc, performative)?;
    Ok(format!(in alloc; "{name} {text}\n")?)
}

/// The line of an allotment.
pub fn allotted(
    alloc: Global,
    answer: Result<OutputHandle, AllocLinkError>,
) -> anyhow::Result<String> {
    match answer {
        Ok(handle) => output(alloc, handle),
        Err(error) => refused(alloc, error),
    }
}

/// The line of an output handle.
fn output(alloc: Global, handle: OutputHandle) -> anyhow::Result<String> {
    let number = handle.0;
    Ok(format!(in alloc; "handle {number}\n")?)
}

/// The line of a live link's output handle, if there is one.
pub fn live(alloc: Global, handle: Option<OutputHandle>) -> anyhow::Result<String> {
    match handle {
        None => line(alloc, "none"),
        Some(handle) => output(alloc, handle),
    }
}

/// The line of a received attach.
pub fn attached(alloc: Global, answer: Result<(), SessionInnerError>) -> anyhow::Result<String> {
    match answer {
        Ok(()) => line(alloc, "ok"),
        Err(error) => refused(alloc, error),
    }
}

/// The line of a received detach.
pub fn detached(
    alloc: Global,
    answer: Result<Option<Detach>, SessionInnerError>,
) -> anyhow::Result<String> {
    match answer {
        Ok(None) => line(alloc, "none"),
        Ok(Some(detach)) => asked(alloc, "detach", Performative::Detach(detach)),
        Err(error) => refused(alloc, error),
    }
}

/// The line of a detach that this side sends.
pub fn left(
    alloc: Global,
    answer: Result<Option<SessionFrame>, SessionInnerError>,
) -> anyhow::Result<String> {
    match answer {
        Ok(None) => line(alloc, "none"),
        Ok(Some(one)) => frame(alloc, one),
        Err(error) => refused(alloc, error),
    }
}
