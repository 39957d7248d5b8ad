//! Runs whose output goes to one buffer: what is to be sent is appended there, and what was refused to a list.

ghost use Rattle.std.specs.Prelude.{◌≡◌, ◌++◌, ◌<◌, ◌≤◌, ◌+◌, [], List, Option, true, IfErr, OnOk, OnErr, length, vec_len, vec_capacity};
ghost use Rattle.amqp_memory.specs.Refusal.{SomeRefused};
ghost use Rattle.amqp_connection.specs.Connection.{refusal_of};
ghost use Rattle.amqp_frames.specs.Wire.{EncodesTo};
ghost use Rattle.amqp_frames.specs.declared.error.Error.TheVariants as no;
ghost use Rattle.amqp_frames.specs.declared.frame.Frame.{Frame};
ghost use Rattle.amqp_engine.specs.declared.engine.answer.Answer.{Answer};
ghost use Rattle.amqp_engine.specs.declared.engine.step_error.StepError.{StepError};
ghost use Rattle.amqp_engine.specs.History.{OnlyLeft};
ghost use Rattle.amqp_engine.specs.Waits.{FirstIs, has_frames};
ghost use Rattle.amqp_engine.specs.Output.{PutOut};
ghost use Rattle.amqp_engine.specs.Promise.{Ends, NoneLeft};
ghost use Rattle.amqp_engine.specs.Inner.Putting.{FirstUnfit};
ghost use Rattle.amqp_engine.specs.Inner.Running.{StepsFirst};
ghost use Rattle.amqp_engine.specs.RunInto.{FirstLacks, HandsBack, LacksRoom, RanInto, SendsFirst, Tells, refusal_at};

use super::Engine;
use super::answer::Stopped;
use super::input::Input;
use super::refusal::Refusal;
use super::step_error::StepError;
use crate::laws::{law_of_histories, law_of_views};
use amqp_frames::{Error, SendBuffer};
use amqp_memory::more_in_vector;
use amqp_session::LinkRelay;
use std::alloc::AllocError;
use std::collections::VecDeque;

/// Appends the refusal of an input, if it was refused.
#[inline(always)]
fn note(refusals: &mut Vec<Refusal>, place: usize, outcome: Result<(), StepError>)
    requires { vec_len refusals.old < vec_capacity refusals.old }
    ensures noted { refusals.new.items ≡ refusals.old.items ++ refusal_at place (refusal_of outcome) }
    ensures places { vec_capacity refusals.new ≡ vec_capacity refusals.old }
{
    match outcome {
        Ok(()) => {}
        Err(error) => refusals.push_reserved(Refusal::Input { place, error }),
    }
}

impl<R: LinkRelay> Engine<R> {
    /// Runs the inputs as [`Engine::run`] does, and appends what is to be sent to `out`, each piece after its four-byte size, and what is
    /// refused to `refusals`, with its place from 0 in this run. An input that is accepted has no entry, and a frame has no list of its
    /// own.
    ///
    /// It stops where memory is refused (`Stopped`), and says how many inputs it took; the others stay in `inputs`. What stands in `out` is
    /// always whole frames. A second call goes on: nothing is sent twice, and nothing is left out.
    ///
    /// Where room is there, sending does not fail (`lacking`): it stops only where `refusals` is full, or where the first frame that waits
    /// has no room in `out`. A frame that is whole, and whose payload is copied, has room where its bytes and the four of its size have; any
    /// other frame that fits may lack memory. What is sent takes no more of the room than its bytes (`room`), and `refusals` keeps its places
    /// (`places`).
    pub fn run_into(
        &mut self,
        inputs: &mut VecDeque<Input<R>>,
        out: &mut SendBuffer,
        refusals: &mut Vec<Refusal>,
    ) -> Result<(), Stopped>
        ensures ran { RanInto R.gives self.old inputs.old.items out.old.bytes refusals.old.items self.new inputs.new.items out.new.bytes refusals.new.items }
        ensures ends { Ends (NoneLeft inputs.new.items self.new) inputs.old.items inputs.new.items result }
        ensures lacking { OnErr result (LacksRoom self.new out.new refusals.new) }
        ensures room { out.old.room + length out.old.bytes ≤ out.new.room + length out.new.bytes }
        ensures copied { out.new.copied ≡ out.old.copied }
        ensures places { vec_capacity refusals.old ≤ vec_capacity refusals.new }
        ensures wishes { self.new.wishes ≡ self.old.wishes }
    {
        law_of_histories::<R>();
        law_of_views::<R>();
        let total = inputs.len();
        let Ok(()) = self.send_out(None, out, refusals) else {
            return Err(Stopped { done: 0 });
        };
        while !inputs.is_empty() {
            // The room for a refusal comes first: whatever is taken can be answered.
            let Ok(()) = more_in_vector(refusals, 1) else {
                return Err(Stopped {
                    done: total - inputs.len(),
                });
            };
            let place = total - inputs.len();
            self.note_first(place, inputs, refusals);
            let Ok(()) = self.send_out(Some(place), out, refusals) else {
                return Err(Stopped {
                    done: total - inputs.len(),
                });
            };
        }
        Ok(())
    }

    /// Takes the input at the front, and appends its refusal, if it was refused, where there is room for it.
    #[inline(always)]
    fn note_first(
        &mut self,
        place: usize,
        inputs: &mut VecDeque<Input<R>>,
        refusals: &mut Vec<Refusal>,
    )
        requires idle { self.old.waiting ≡ [] }
        requires some { 0 < length inputs.old.items }
        requires room { vec_len refusals.old < vec_capacity refusals.old }
        ensures stepped { (refusal : Option StepError) × StepsFirst R.gives self.old inputs.old.items refusal self.new inputs.new.items
            × (refusals.new.items ≡ refusals.old.items ++ refusal_at place refusal) }
        ensures places { vec_capacity refusals.new ≡ vec_capacity refusals.old }
    {
        let mut outcome = Ok(());
        match inputs.front() {
            Some(Input::Received(_)) => self.receive_first(inputs, &mut outcome),
            Some(Input::Transfer(..)) => self.transfer_first(inputs, &mut outcome),
            _ => self.step_first(inputs, &mut outcome),
        }
        note(refusals, place, outcome);
    }

    /// Sends what waits. A frame that does not fit is handed back as one of this place.
    pub(super) fn send_out(
        &mut self,
        place: Option<usize>,
        out: &mut SendBuffer,
        refusals: &mut Vec<Refusal>,
    ) -> Result<(), AllocError>
        ensures said { (outs : List Answer) × PutOut self.old.limit self.old.waiting self.new.waiting outs
            × Tells place outs out.old.bytes refusals.old.items out.new.bytes refusals.new.items }
        ensures taken { OnlyLeft self.old self.new }
        ensures ok { OnOk result (self.new.waiting ≡ []) }
        ensures err { OnErr result (¬ (self.new.waiting ≡ [])) }
        ensures lacking { OnErr result (LacksRoom self.new out.new refusals.new) }
        ensures room { out.old.room + length out.old.bytes ≤ out.new.room + length out.new.bytes }
        ensures copied { out.new.copied ≡ out.old.copied }
        ensures places { vec_capacity refusals.old ≤ vec_capacity refusals.new }
        ensures refused { OnErr result SomeRefused }
    {
        while self.waiting.has_frames() {
            let Ok(()) = self.send_first(place, out, refusals) else {
                return Err(AllocError);
            };
        }
        Ok(())
    }

    /// Sends the first frame that waits. Where memory is refused it still waits, and nothing was appended.
    #[inline(always)]
    fn send_first(
        &mut self,
        place: Option<usize>,
        out: &mut SendBuffer,
        refusals: &mut Vec<Refusal>,
    ) -> Result<(), AllocError>
        requires { has_frames self.old.waiting ≡ true }
        ensures ok { OnOk result (SendsFirst place self.old out.old.bytes refusals.old.items self.new out.new.bytes refusals.new.items) }
        ensures err { OnErr result (self.new ≡ self.old) }
        ensures err_out { OnErr result (out.new.bytes ≡ out.old.bytes) }
        ensures err_refusals { OnErr result (refusals.new.items ≡ refusals.old.items) }
        ensures lacking { OnErr result (LacksRoom self.new out.new refusals.new) }
        ensures room { out.old.room + length out.old.bytes ≤ out.new.room + length out.new.bytes }
        ensures copied { out.new.copied ≡ out.old.copied }
        ensures places { vec_capacity refusals.old ≤ vec_capacity refusals.new }
        ensures refused { OnErr result SomeRefused }
    {
        more_in_vector(refusals, 1)?;
        match self.encode_first_to(out) {
            Ok(()) => {
                self.waiting.discard();
                Ok(())
            }
            Err(Error::TooLarge) => {
                self.refuse_first(place, refusals);
                Ok(())
            }
            Err(_) => Err(AllocError),
        }
    }

    /// Appends the first frame that waits to what is to be sent. The frame still waits.
    #[inline(always)]
    fn encode_first_to(&self, out: &mut SendBuffer) -> Result<(), Error>
        requires { has_frames self.now.waiting ≡ true }
        ensures sent { (f : Frame) × FirstIs f self.now.waiting × EncodesTo f self.now.limit out.old.bytes result out.new.bytes }
        ensures lacking { IfErr result (λ e. e ≡ no.OutOfMemory → FirstLacks self.now.limit self.now.waiting out.new) }
        ensures room { out.old.room + length out.old.bytes ≤ out.new.room + length out.new.bytes }
        ensures copied { out.new.copied ≡ out.old.copied }
        ensures refused { IfErr result (λ e. e ≡ no.OutOfMemory → SomeRefused) }
    {
        let frame = self.waiting.first().unwrap();
        self.encoder.encode_to(self.alloc, frame, out)
    }

    /// The first frame that waits is handed back, since it does not fit.
    // No part of `send_first`, which would pay at its entry for the size of these locals.
    #[inline(never)]
    fn refuse_first(&mut self, place: Option<usize>, refusals: &mut Vec<Refusal>)
        requires unfit { FirstUnfit self.old }
        requires room { vec_len refusals.old < vec_capacity refusals.old }
        ensures back { HandsBack place self.old refusals.old.items self.new refusals.new.items }
        ensures places { vec_capacity refusals.new ≡ vec_capacity refusals.old }
    {
        let frame = self.waiting.take().unwrap();
        refusals.push_reserved(Refusal::Frame { place, frame });
    }
}
