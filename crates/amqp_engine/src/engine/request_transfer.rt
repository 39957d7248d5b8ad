//! A transfer that this side wants to be sent: the request that comes most often.

ghost use Rattle.std.specs.Prelude.{◌≡◌, None, [], true, false};
ghost use Rattle.amqp_memory.specs.Refusal.{SomeRefused};
ghost use Rattle.amqp_connection.specs.Connection.{refusal_of};
ghost use Rattle.amqp_engine.specs.declared.engine.input.Input.TheVariants as given;
ghost use Rattle.amqp_engine.specs.Engine.{CarriedStep};
ghost use Rattle.amqp_engine.specs.RunOne.{LacksNoMemory};

use super::step_error::StepError;
use super::{Engine, refused};
use amqp_connection::SessionNo;
use amqp_session::{InputHandle, LinkRelay, SessionInnerError, keys};
use amqp_types::Transfer;
use bytes::Bytes;

impl<R: LinkRelay> Engine<R> {
    /// `false` where memory is refused: then nothing changes, and the outcome says so.
    #[inline(never)]
    pub(super) fn request_transfer(
        &mut self,
        number: SessionNo,
        input: InputHandle,
        transfer: Transfer,
        payload: Bytes,
        is_first: bool,
        outcome: &mut Result<(), StepError>,
    ) -> bool
        requires idle { self.old.waiting ≡ [] }
        requires clear { refusal_of outcome.old ≡ None }
        ensures carried { CarriedStep R.gives self.old (given.Transfer number input transfer payload is_first) (refusal_of outcome.new) self.new }
        ensures not_done { result ≡ false → (self.new ≡ self.old) × SomeRefused }
        ensures done { result ≡ true → LacksNoMemory (refusal_of outcome.new) }
    {
        let hint = self.hints.of(number.0);
        let Some(session) = keys::get_mut(&mut self.sessions, hint, &number.0) else {
            drop(transfer);
            drop(payload);
            refused::no_session(outcome);
            return true;
        };
        match session.on_outgoing_transfer(input, transfer, payload, is_first) {
            Ok(item) => self.waiting.put_item(item),
            Err(SessionInnerError::OutOfMemory) => {
                refused::by_session(outcome, SessionInnerError::OutOfMemory);
                return false;
            }
            Err(error) => refused::by_session(outcome, error),
        }
        true
    }
}
