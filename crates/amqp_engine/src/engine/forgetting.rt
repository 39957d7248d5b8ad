//! Forgetting: a session that is over is let go, and its number stays used.

ghost use Rattle.std.specs.Prelude.{◌≡◌, []};
ghost use Rattle.amqp_connection.specs.Connection.{refusal_of};
ghost use Rattle.amqp_engine.specs.declared.engine.input.Input.TheVariants as given;
ghost use Rattle.amqp_engine.specs.Sessions.{Over, Used};
ghost use Rattle.amqp_engine.specs.Engine.{CarriedStep};

use super::Engine;
use super::step_error::StepError;
use amqp_connection::SessionNo;
use amqp_session::keys::Hints;
use amqp_session::{LinkRelay, Session, SessionStateError};
use amqp_types::SessionState;
use indexmap::IndexMap;

/// Notes which session stands where one was let go: the last session of the map moved there.
fn note_moved<R>(sessions: &IndexMap<u32, Session<R>>, hints: &mut Hints, place: Option<usize>) {
    let Some(place) = place else {
        return;
    };
    if let Some((number, _)) = sessions.get_index(place) {
        hints.note(*number, place);
    }
}

impl<R: LinkRelay> Engine<R> {
    /// Whether the number is a session's that is there, or was one's that was forgotten.
    pub(super) fn is_used(&self, number: SessionNo) -> bool
        ensures { Used self.now number.0 result }
    {
        self.sessions.contains_key(&number.0) || self.forgotten.contains(number.0)
    }

    /// Whether the session is over, or why it is not.
    fn check_over(&self, number: SessionNo) -> Result<(), StepError>
        ensures { Over self.now number.0 (refusal_of result) }
    {
        let Some(session) = self.sessions.get(&number.0) else {
            return Err(StepError::NoSession);
        };
        let SessionState::Unmapped = *session.local_state() else {
            return Err(StepError::SessionState(SessionStateError::IllegalState));
        };
        if self.kept.is_wished(number) {
            return Err(StepError::SessionState(SessionStateError::IllegalState));
        }
        let held = session.outgoing_channel();
        if self.connection.session_tx_by_outgoing_channel(held) == Some(number) {
            return Err(StepError::SessionInUse);
        }
        if self.connection.has_route(number) {
            return Err(StepError::SessionInUse);
        }
        Ok(())
    }

    /// Lets the session go, where it is over. The number is noted first: where memory is refused for that, nothing changes.
    #[inline(never)]
    pub(super) fn request_forget(&mut self, number: SessionNo) -> Result<(), StepError>
        requires { self.old.waiting ≡ [] }
        ensures { CarriedStep R.gives self.old (given.Forget number) (refusal_of result) self.new }
    {
        if let Err(error) = self.check_over(number) {
            return Err(error);
        }
        let Ok(()) = self.forgotten.insert(number.0) else {
            return Err(StepError::OutOfMemory);
        };
        let place = self.sessions.get_index_of(&number.0);
        drop(self.sessions.swap_remove(&number.0));
        note_moved(&self.sessions, &mut self.hints, place);
        self.kept.forget(number);
        Ok(())
    }
}
