//! Wishes of handles, and what became of them, by an engine of its own.

use crate::script::free::passes;
use crate::script::offer::offered;
use crate::script::{mark, print, reading, say};
use fe2o3_amqp::connection::Error as ConnectionError;
use fe2o3_amqp::definitions::Error;
use fe2o3_amqp::session::Error as SessionError;
use fe2o3_amqp::{
    HandledEngine, ReplayRelay, SessionHandle, SessionNo, Symbol, TryCloseError, TryEndError,
};
use std::alloc::{AllocError, Global};
use test_support::words;

/// The engine whose handles are used.
pub type WishedEngine = HandledEngine<ReplayRelay>;

/// Does what a line says.
pub fn called(rt: &HostRuntime, engine: &mut WishedEngine, text: &str) -> anyhow::Result<()> {
    match words::word(text) {
        ("end", rest) => end(rt, engine, rest),
        ("ended", number) => ended(rt, engine, number),
        ("close", condition) => close(rt, engine, condition),
        ("closed", _) => closed(rt, engine),
        _ => offered(rt, engine, text),
    }
}

/// The handle of the session of this number.
fn handle(engine: &WishedEngine, number: &str) -> anyhow::Result<SessionHandle> {
    let number: Option<SessionNo> = reading::session(number);
    match number.and_then(|it| engine.session_handle(it)) {
        Some(handle) => Ok(handle),
        None => Err(anyhow::anyhow!("no session")),
    }
}

/// Notes a wish for an End, with an error where a condition is named.
fn end(rt: &HostRuntime, engine: &mut WishedEngine, text: &str) -> anyhow::Result<()> {
    let (number, condition) = words::word(text);
    let handle = handle(engine, number)?;
    if condition.is_empty() {
        mark(rt, "@refuse\n");
        let is_noted = passes(handle.end(engine));
        mark(rt, "@grant\n");
        return told(rt, is_noted);
    }
    end_with_error(rt, engine, &handle, condition)
}

fn end_with_error(
    rt: &HostRuntime,
    engine: &mut WishedEngine,
    handle: &SessionHandle,
    condition: &str,
) -> anyhow::Result<()> {
    let error = error_of(rt, condition)?;
    mark(rt, "@refuse\n");
    let is_noted = passes(handle.end_with_error(error, engine));
    mark(rt, "@grant\n");
    told(rt, is_noted)
}

/// Notes a wish for a Close with an error of this condition.
fn close(rt: &HostRuntime, engine: &mut WishedEngine, condition: &str) -> anyhow::Result<()> {
    let error = error_of(rt, condition)?;
    mark(rt, "@refuse\n");
    let is_noted = passes(engine.connection_handle().close_with_error(error, engine));
    mark(rt, "@grant\n");
    told(rt, is_noted)
}

fn told(rt: &HostRuntime, is_noted: bool) -> anyhow::Result<()> {
    print(rt, if is_noted { "noted" } else { "not noted" })
}

/// An error of this condition; one request alone is refused, and the second attempt passes.
fn error_of(rt: &HostRuntime, condition: &str) -> anyhow::Result<Error> {
    mark(rt, "@make\n");
    let made = match error(rt.alloc(), condition) {
        Ok(made) => made,
        Err(_) => error(rt.alloc(), condition)?,
    };
    match made {
        Some(error) => Ok(error),
        None => Err(anyhow::anyhow!("no condition")),
    }
}

fn error(alloc: Global, condition: &str) -> Result<Option<Error>, AllocError> {
    let text = String::from_str(alloc, condition)?;
    Ok(Symbol::new(text).map(|condition| Error {
        condition,
        description: None,
        info: None,
    }))
}

/// Prints whether the session of this number ended, and how.
fn ended(rt: &HostRuntime, engine: &mut WishedEngine, number: &str) -> anyhow::Result<()> {
    let mut handle = handle(engine, number)?;
    mark(rt, "@refuse\n");
    let is_ended = handle.is_ended(engine);
    let outcome = handle.try_end(engine);
    mark(rt, "@grant\n");
    let told = tell_ended(rt, is_ended, &outcome);
    drop(outcome);
    told
}

fn tell_ended(
    rt: &HostRuntime,
    is_ended: bool,
    outcome: &Result<Result<(), SessionError>, TryEndError>,
) -> anyhow::Result<()> {
    is_or_is_not(rt, is_ended)?;
    match outcome {
        Ok(Ok(())) => print(rt, "ended"),
        Ok(Err(SessionError::RemoteEndedWithError(error))) => with_error(rt, "ended", error),
        Ok(Err(_)) => print(rt, "ended otherwise"),
        Err(_) => print(rt, "not ended"),
    }
}

/// Prints whether the connection was closed, and how.
fn closed(rt: &HostRuntime, engine: &mut WishedEngine) -> anyhow::Result<()> {
    let mut handle = engine.connection_handle();
    mark(rt, "@refuse\n");
    let is_closed = handle.is_closed(engine);
    let outcome = handle.try_close(engine);
    mark(rt, "@grant\n");
    let told = tell_closed(rt, is_closed, &outcome);
    drop(outcome);
    told
}

fn tell_closed(
    rt: &HostRuntime,
    is_closed: bool,
    outcome: &Result<Result<(), ConnectionError>, TryCloseError>,
) -> anyhow::Result<()> {
    is_or_is_not(rt, is_closed)?;
    match outcome {
        Ok(Ok(())) => print(rt, "closed"),
        Ok(Err(ConnectionError::RemoteClosedWithError(error))) => with_error(rt, "closed", error),
        Ok(Err(_)) => print(rt, "closed otherwise"),
        Err(_) => print(rt, "not closed"),
    }
}

fn is_or_is_not(rt: &HostRuntime, is: bool) -> anyhow::Result<()> {
    say(rt, if is { "is " } else { "is not " })
}

fn with_error(rt: &HostRuntime, word: &str, error: &Error) -> anyhow::Result<()> {
    say(rt, word)?;
    say(rt, " with ")?;
    print(rt, error.condition.as_str())
}
