//! Handles of a connection.

ghost use Rattle.std.specs.Prelude.{◌≡◌, None, Some, false};
ghost use Rattle.amqp_types.specs.declared.states.ConnectionState.TheVariants.{End};
ghost use Rattle.amqp_engine.specs.Handles.{is_end, is_closed, close_answer_at, close_answer_of, CloseCall, TryCloseCall};
ghost use Rattle.amqp_engine.specs.Stepped.{Stays};

use super::HandledEngine;
use crate::engine::handle_state::CloseOutcome;
use amqp_connection::{Error, TryCloseError};
use amqp_session::LinkRelay;
use amqp_types::{ConnectionState, Error as AmqpError};
use std::marker::Model;

/// A handle of an engine's connection: it closes the connection, and gives once how the peer's Close was answered (AMQP 1.0 part 2,
/// section 2.4.3).
///
/// ```
/// match handle.try_close(engine) {
///     Ok(answer) => Ok(Some(answer)), // closed at both ends: how the peer's Close was answered
///     Err(_) => Ok(None),             // not yet, or the answer was given before
/// }
/// ```
#[derive(Debug, Drop)]
pub struct ConnectionHandle {
    has_answered: bool,
}

impl Model for ConnectionHandle {
    ghost use Rattle.std.specs.Prelude.{Bool};

    ghost Value = { Bool };

    ghost view = { λ h. h.has_answered };
}

/// Whether the connection is closed at both ends in this state.
fn is_end(state: ConnectionState) -> bool
    ensures { result ≡ is_end state }
{
    matches!(state, ConnectionState::End)
}

/// How the peer's Close was answered, as a handle gives it.
fn answer_of(outcome: CloseOutcome) -> Result<(), Error>
    ensures { result ≡ close_answer_of outcome }
{
    match outcome {
        Ok(()) => Ok(()),
        Err(error) => Err(Error::from(error)),
    }
}

/// What a handle gives where the state is `End`.
fn answer_at_end(outcome: Option<CloseOutcome>) -> Result<(), Error>
    ensures { Some result ≡ close_answer_at End outcome }
{
    match outcome {
        Some(outcome) => answer_of(outcome),
        None => Err(Error::IllegalState),
    }
}

impl ConnectionHandle {
    /// A handle that has given no answer yet.
    pub(super) fn new() -> ConnectionHandle
        ensures { result ≡ false }
    {
        ConnectionHandle {
            has_answered: false,
        }
    }

    /// Whether the connection is in `End`, or this handle has given the answer.
    pub fn is_closed<R: LinkRelay>(&self, engine: &HandledEngine<R>) -> bool
        ensures { result ≡ is_closed self.now engine.now }
    {
        self.has_answered || is_end(*engine.engine.connection().local_state())
    }

    /// Requests that the connection is closed, in any state of it: the engine notes it, and the next run sends a Close, after the Ends that
    /// are noted. Where a request to close is noted already, that one stays. The run drops a request that the connection's state does not
    /// accept then: a Close goes out in `Opened`, `OpenSent`, `OpenPipe` and `CloseReceived` alone.
    ///
    /// `IllegalState` where this handle has given the answer. Nothing is noted then.
    pub fn close<R: LinkRelay>(&self, engine: &mut HandledEngine<R>) -> Result<(), Error>
        ensures said { CloseCall self.now None engine.old result engine.new }
        ensures legal { Stays R.gives engine.old engine.new }
    {
        self.wish(None, engine)
    }

    /// Requests that the connection is closed with this error, as [`ConnectionHandle::close`] does without one, and is refused as it is.
    pub fn close_with_error<R: LinkRelay>(
        &self,
        error: AmqpError,
        engine: &mut HandledEngine<R>,
    ) -> Result<(), Error>
        ensures said { CloseCall self.now (Some error) engine.old result engine.new }
        ensures legal { Stays R.gives engine.old engine.new }
    {
        self.wish(Some(error), engine)
    }

    fn wish<R: LinkRelay>(
        &self,
        error: Option<AmqpError>,
        engine: &mut HandledEngine<R>,
    ) -> Result<(), Error>
        ensures { CloseCall self.now error engine.old result engine.new }
    {
        if self.has_answered {
            drop(error);
            return Err(Error::IllegalState);
        }
        engine.engine.note_close(error);
        Ok(())
    }

    /// Gives, once, how the engine answered the peer's Close, when the connection is in `End`: the inner result, which is `Ok` where the
    /// peer's Close was accepted, and else why not. It is `IllegalState` where the engine keeps no answer, as where another handle took it
    /// before. A Close is requested, as by [`ConnectionHandle::close`], where none is noted.
    ///
    /// The outer `Err`: `AlreadyClosed` where this handle has given the answer; `RemoteCloseNotReceived` in any state but `End`.
    pub fn try_close<R: LinkRelay>(
        &mut self,
        engine: &mut HandledEngine<R>,
    ) -> Result<Result<(), Error>, TryCloseError>
        ensures said { TryCloseCall self.old engine.old result self.new engine.new }
        ensures legal { Stays R.gives engine.old engine.new }
    {
        if self.has_answered {
            return Err(TryCloseError::AlreadyClosed);
        }
        engine.engine.note_close(None);
        if !is_end(*engine.engine.connection().local_state()) {
            return Err(TryCloseError::RemoteCloseNotReceived);
        }
        self.has_answered = true;
        Ok(answer_at_end(engine.engine.take_close_outcome()))
    }
}
