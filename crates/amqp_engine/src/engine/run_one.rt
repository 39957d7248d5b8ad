//! One input that is run alone.

ghost use Rattle.std.specs.Prelude.{◌≡◌, ◌≤◌, ◌+◌, ◌⊎◌, [], length, vec_capacity, IfSome};
ghost use Rattle.amqp_connection.specs.Connection.{refusal_of};
ghost use Rattle.amqp_memory.specs.Refusal.{SomeRefused};
ghost use Rattle.amqp_engine.specs.RunInto.{LacksRoom};
ghost use Rattle.amqp_engine.specs.RunOne.{LacksNoMemory, RunsOne, RunsTransfer};
ghost use Rattle.amqp_engine.specs.declared.engine.input.Input.TheVariants as given;

use super::Engine;
use super::input::Input;
use super::refusal::Refusal;
use super::step_error::StepError;
use crate::laws::{law_of_histories, law_of_views};
use amqp_connection::SessionNo;
use amqp_frames::SendBuffer;
use amqp_session::{InputHandle, LinkRelay};
use amqp_types::Transfer;
use bytes::Bytes;

impl<R: LinkRelay> Engine<R> {
    /// Runs one input, as [`Engine::run_into`] runs a list of it alone, and answers what became of it.
    ///
    /// What waits is sent first, then what the input hands out: each piece is appended to `out` after its four-byte size. A frame that does
    /// not fit the peer's limit is appended to `returned`, as [`Refusal::Frame`]: its place is `None` where it waited from before, else 0.
    ///
    /// `Some(Ok(()))` where the input is accepted. `Some(Err(_))` where it is refused, as [`Input`] says; that refusal is not appended to
    /// `returned`. Where memory is refused for what the input hands out, that waits for the next call ([`Engine::has_output`]).
    ///
    /// `None` where memory is refused for what waited: the input is not taken, and is gone with what it held; nothing changed but that some
    /// of what waited was sent. Who cannot make the input again puts it into a list, for [`Engine::run_into`].
    ///
    /// ```
    /// let answer = engine.run_one(Input::Open, out, returned);
    /// ```
    pub fn run_one(
        &mut self,
        input: Input<R>,
        out: &mut SendBuffer,
        returned: &mut Vec<Refusal>,
    ) -> Option<Result<(), StepError>>
        ensures ran { RunsOne R.gives self.old input result out.old.bytes returned.old.items self.new out.new.bytes returned.new.items }
        ensures left { (self.new.waiting ≡ []) ⊎ (LacksRoom self.new out.new returned.new × SomeRefused) }
        ensures room { out.old.room + length out.old.bytes ≤ out.new.room + length out.new.bytes }
        ensures copied { out.new.copied ≡ out.old.copied }
        ensures places { vec_capacity returned.old ≤ vec_capacity returned.new }
        ensures wishes { self.new.wishes ≡ self.old.wishes }
    {
        law_of_histories::<R>();
        law_of_views::<R>();
        match self.send_out(None, out, returned) {
            Ok(()) => {}
            Err(_) => {
                drop(input);
                return None;
            }
        }
        let answer = self.dispatch(input);
        // What is not sent now waits.
        let _ = self.send_out(Some(0), out, returned);
        Some(answer)
    }

    /// Runs one transfer that is to be sent, as [`Engine::run_one`] runs [`Input::Transfer`] of it: of the session, by the link that is attached
    /// under the peer's handle, and the first one of its delivery or a later one. `None` also where memory is refused for the transfer itself:
    /// then it is not taken either, and no transfer is refused `Session(OutOfMemory)`.
    ///
    /// ```
    /// let answer = engine.run_transfer(session, input, transfer, payload, true, out, returned);
    /// ```
    pub fn run_transfer(
        &mut self,
        session: SessionNo,
        input: InputHandle,
        transfer: Transfer,
        payload: Bytes,
        is_first: bool,
        out: &mut SendBuffer,
        returned: &mut Vec<Refusal>,
    ) -> Option<Result<(), StepError>>
        ensures ran { RunsTransfer R.gives self.old (given.Transfer session input transfer payload is_first) result
            out.old.bytes returned.old.items self.new out.new.bytes returned.new.items }
        ensures memory { IfSome result (λ a. LacksNoMemory (refusal_of a)) }
        ensures left { (self.new.waiting ≡ []) ⊎ (LacksRoom self.new out.new returned.new × SomeRefused) }
        ensures room { out.old.room + length out.old.bytes ≤ out.new.room + length out.new.bytes }
        ensures copied { out.new.copied ≡ out.old.copied }
        ensures places { vec_capacity returned.old ≤ vec_capacity returned.new }
        ensures wishes { self.new.wishes ≡ self.old.wishes }
    {
        law_of_histories::<R>();
        law_of_views::<R>();
        let Ok(()) = self.send_out(None, out, returned) else {
            drop(transfer);
            drop(payload);
            return None;
        };
        let mut outcome = Ok(());
        if !self.request_transfer(session, input, transfer, payload, is_first, &mut outcome) {
            drop(outcome);
            return None;
        }
        // What is not sent now waits.
        let _ = self.send_out(Some(0), out, returned);
        Some(outcome)
    }
}
