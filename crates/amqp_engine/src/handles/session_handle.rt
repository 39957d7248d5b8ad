//! Handles of a session.

ghost use Rattle.std.specs.Prelude.{◌≡◌, None, Some, false, nat_eq};
ghost use Rattle.std.specs.Map.{lookup};
ghost use Rattle.amqp_types.specs.declared.states.SessionState.TheVariants.{Unmapped};
ghost use Rattle.amqp_engine.specs.Handles.{is_unmapped, has_ended, is_ended, end_answer_at, end_answer_of, EndCall, TryEndCall};
ghost use Rattle.amqp_engine.specs.Stepped.{Stays};

use super::HandledEngine;
use crate::engine::handle_state::EndOutcome;
use amqp_connection::SessionNo;
use amqp_session::{Error, LinkRelay, Session, TryEndError};
use amqp_types::{Error as AmqpError, SessionState};
use std::marker::Model;

/// A handle of one of an engine's sessions: it ends the session, and gives once how the peer's End was answered (AMQP 1.0 part 2,
/// section 2.5.3).
///
/// ```
/// if let Some(mut handle) = engine.session_handle(SessionNo(0)) {
///     handle.end(&mut engine)?;
///     // After the next run the End was sent; once the peer's End came:
///     let ended = handle.try_end(&mut engine);
/// }
/// ```
#[derive(Debug, Drop)]
pub struct SessionHandle {
    number: SessionNo,
    has_answered: bool,
}

impl Model for SessionHandle {
    ghost use Rattle.amqp_engine.specs.Handles.{SessionHandleView};

    ghost Value = { SessionHandleView };

    ghost view = { λ h. record { number = h.number.0; answered = h.has_answered } };
}

/// Whether a session is ended at both ends in this state.
fn is_unmapped(state: SessionState) -> bool
    ensures { result ≡ is_unmapped state }
{
    matches!(state, SessionState::Unmapped)
}

/// How the peer's End was answered, as a handle gives it.
fn answer_of(outcome: EndOutcome) -> Result<(), Error>
    ensures { result ≡ end_answer_of outcome }
{
    match outcome {
        Ok(()) => Ok(()),
        Err(error) => Err(Error::from(error)),
    }
}

/// What a handle gives where the state is `Unmapped`.
fn answer_at_end(outcome: Option<EndOutcome>) -> Result<(), Error>
    ensures { Some result ≡ end_answer_at Unmapped outcome }
{
    match outcome {
        Some(outcome) => answer_of(outcome),
        None => Err(Error::IllegalState),
    }
}

impl SessionHandle {
    /// A handle that has given no answer yet.
    pub(super) fn new(number: SessionNo) -> SessionHandle
        ensures { result ≡ record { number = number.0; answered = false } }
    {
        SessionHandle {
            number,
            has_answered: false,
        }
    }

    /// Whether the session is in `Unmapped`, or this handle has given the answer, or the engine has no session of its number.
    pub fn is_ended<R: LinkRelay>(&self, engine: &HandledEngine<R>) -> bool
        ensures { result ≡ is_ended self.now engine.now }
    {
        if self.has_answered {
            return true;
        }
        match engine.engine.session(self.number) {
            Some(session) => is_unmapped(*session.local_state()),
            None => true,
        }
    }

    /// Requests that the session is ended, in any state of it: the engine notes it, and the next run sends an End, those of lower session
    /// numbers first. Where a request to end the session is noted already, that one stays. The run drops a request that the session's
    /// state does not accept then: an End goes out in `Mapped` and in `EndReceived` alone.
    ///
    /// `IllegalState` where this handle has given the answer, or where the engine has no session of its number. Nothing is noted then.
    pub fn end<R: LinkRelay>(&self, engine: &mut HandledEngine<R>) -> Result<(), Error>
        ensures said { EndCall self.now None engine.old result engine.new }
        ensures legal { Stays R.gives engine.old engine.new }
    {
        self.wish(None, engine)
    }

    /// The same as [`SessionHandle::end`].
    pub fn close<R: LinkRelay>(&self, engine: &mut HandledEngine<R>) -> Result<(), Error>
        ensures said { EndCall self.now None engine.old result engine.new }
        ensures legal { Stays R.gives engine.old engine.new }
    {
        self.end(engine)
    }

    /// Requests that the session is ended with this error, as [`SessionHandle::end`] does without one, and is refused as it is.
    pub fn end_with_error<R: LinkRelay>(
        &self,
        error: AmqpError,
        engine: &mut HandledEngine<R>,
    ) -> Result<(), Error>
        ensures said { EndCall self.now (Some error) engine.old result engine.new }
        ensures legal { Stays R.gives engine.old engine.new }
    {
        self.wish(Some(error), engine)
    }

    fn wish<R: LinkRelay>(
        &self,
        error: Option<AmqpError>,
        engine: &mut HandledEngine<R>,
    ) -> Result<(), Error>
        ensures { EndCall self.now error engine.old result engine.new }
    {
        if self.has_answered || engine.engine.session(self.number).is_none() {
            drop(error);
            return Err(Error::IllegalState);
        }
        engine.engine.note_end(self.number, error);
        Ok(())
    }

    /// Gives, once, how the engine answered the peer's End, when the session is in `Unmapped`: the inner result, which is `Ok` where the
    /// peer's End was accepted, and else why not. It is `IllegalState` where the engine keeps no answer, as where another handle took it
    /// before, or where the engine has no session of its number. An End is requested, as by [`SessionHandle::end`], where none is noted.
    ///
    /// The outer `Err`: `AlreadyEnded` where this handle has given the answer; `RemoteEndNotReceived` in any state but `Unmapped`.
    pub fn try_end<R: LinkRelay>(
        &mut self,
        engine: &mut HandledEngine<R>,
    ) -> Result<Result<(), Error>, TryEndError>
        ensures said { TryEndCall self.old engine.old result self.new engine.new }
        ensures legal { Stays R.gives engine.old engine.new }
    {
        if self.has_answered {
            return Err(TryEndError::AlreadyEnded);
        }
        let Some(session) = engine.engine.session(self.number) else {
            self.has_answered = true;
            return Ok(Err(Error::IllegalState));
        };
        let is_ended = is_unmapped(*session.local_state());
        engine.engine.note_end(self.number, None);
        if !is_ended {
            return Err(TryEndError::RemoteEndNotReceived);
        }
        self.has_answered = true;
        Ok(answer_at_end(engine.engine.take_end_outcome(self.number)))
    }
}
