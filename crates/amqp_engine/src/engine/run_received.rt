//! The received frames that come most often, each by what was read of it: none is made a [`Frame`](amqp_frames::Frame) first, which is large.

ghost use Rattle.std.specs.Prelude.{◌≡◌, ◌≤◌, ◌+◌, ◌⊎◌, [], length, vec_capacity, IfSome, Ok};
ghost use Rattle.amqp_memory.specs.Refusal.{SomeRefused};
ghost use Rattle.amqp_frames.specs.declared.frame.FrameBody.TheVariants as body;
ghost use Rattle.amqp_engine.specs.RunInto.{LacksRoom};
ghost use Rattle.amqp_connection.specs.Connection.{refusal_of};
ghost use Rattle.amqp_engine.specs.RunFrame.{AnswersRead, OfRelay, RunsFrame};

use super::Engine;
use super::refusal::Refusal;
use super::step_error::StepError;
use crate::laws::{law_of_histories, law_of_views};
use amqp_frames::SendBuffer;
use amqp_session::{IncomingChannel, LinkRelay};
use amqp_types::{Disposition, Flow, Transfer};
use bytes::Bytes;

impl<R: LinkRelay> Engine<R> {
    /// Runs a received Transfer, as [`Engine::run_frame`] runs its frame: of the head that
    /// [`FrameDecoder::head`](amqp_frames::FrameDecoder::head) read it has the channel, of the fields the transfer, and what is after them is
    /// the payload (AMQP 1.0 part 2, section 2.7.5). Answers, and what is said of them, are those of `run_frame`.
    ///
    /// ```
    /// let transfer = Transfer::read_list(alloc, &mut fields)?;
    /// let answer = engine.run_received_transfer(channel, transfer, fields, out, returned);
    /// ```
    pub fn run_received_transfer(
        &mut self,
        channel: IncomingChannel,
        transfer: Transfer,
        payload: Bytes,
        out: &mut SendBuffer,
        returned: &mut Vec<Refusal>,
    ) -> Option<Result<(), StepError>>
        ensures ran { RunsFrame R.gives self.old (Ok (record { channel = channel.0; body = body.Transfer transfer payload })) result
            out.old.bytes returned.old.items self.new out.new.bytes returned.new.items }
        ensures answers { AnswersRead self.new (Ok (record { channel = channel.0; body = body.Transfer transfer payload })) result }
        ensures memory { IfSome result (λ a. OfRelay R.gives (body.Transfer transfer payload) (refusal_of a)) }
        ensures left { (self.new.waiting ≡ []) ⊎ (LacksRoom self.new out.new returned.new × SomeRefused) }
        ensures room { out.old.room + length out.old.bytes ≤ out.new.room + length out.new.bytes }
        ensures copied { out.new.copied ≡ out.old.copied }
        ensures places { vec_capacity returned.old ≤ vec_capacity returned.new }
        ensures wishes { self.new.wishes ≡ self.old.wishes }
    {
        law_of_histories::<R>();
        law_of_views::<R>();
        let Ok(()) = self.send_out(None, out, returned) else {
            drop(transfer);
            drop(payload);
            return None;
        };
        let mut outcome = Ok(());
        if !self.try_transfer(channel, transfer, payload, &mut outcome) {
            drop(outcome);
            return None;
        }
        // What is not sent now waits.
        let _ = self.send_out(Some(0), out, returned);
        Some(outcome)
    }

    /// Runs a received Flow (section 2.7.4), as [`Engine::run_frame`] runs its frame.
    ///
    /// ```
    /// let answer = engine.run_received_flow(channel, flow, out, returned);
    /// ```
    pub fn run_received_flow(
        &mut self,
        channel: IncomingChannel,
        flow: Flow,
        out: &mut SendBuffer,
        returned: &mut Vec<Refusal>,
    ) -> Option<Result<(), StepError>>
        ensures ran { RunsFrame R.gives self.old (Ok (record { channel = channel.0; body = body.Flow flow })) result
            out.old.bytes returned.old.items self.new out.new.bytes returned.new.items }
        ensures answers { AnswersRead self.new (Ok (record { channel = channel.0; body = body.Flow flow })) result }
        ensures memory { IfSome result (λ a. OfRelay R.gives (body.Flow flow) (refusal_of a)) }
        ensures left { (self.new.waiting ≡ []) ⊎ (LacksRoom self.new out.new returned.new × SomeRefused) }
        ensures room { out.old.room + length out.old.bytes ≤ out.new.room + length out.new.bytes }
        ensures copied { out.new.copied ≡ out.old.copied }
        ensures places { vec_capacity returned.old ≤ vec_capacity returned.new }
        ensures wishes { self.new.wishes ≡ self.old.wishes }
    {
        law_of_histories::<R>();
        law_of_views::<R>();
        let Ok(()) = self.send_out(None, out, returned) else {
            drop(flow);
            return None;
        };
        let mut outcome = Ok(());
        if !self.try_flow(channel, flow, &mut outcome) {
            drop(outcome);
            return None;
        }
        // What is not sent now waits.
        let _ = self.send_out(Some(0), out, returned);
        Some(outcome)
    }

    /// Runs a received Disposition (section 2.7.6), as [`Engine::run_frame`] runs its frame.
    ///
    /// ```
    /// let answer = engine.run_received_disposition(channel, disposition, out, returned);
    /// ```
    pub fn run_received_disposition(
        &mut self,
        channel: IncomingChannel,
        disposition: Disposition,
        out: &mut SendBuffer,
        returned: &mut Vec<Refusal>,
    ) -> Option<Result<(), StepError>>
        ensures ran { RunsFrame R.gives self.old (Ok (record { channel = channel.0; body = body.Disposition disposition })) result
            out.old.bytes returned.old.items self.new out.new.bytes returned.new.items }
        ensures answers { AnswersRead self.new (Ok (record { channel = channel.0; body = body.Disposition disposition })) result }
        ensures memory { IfSome result (λ a. OfRelay R.gives (body.Disposition disposition) (refusal_of a)) }
        ensures left { (self.new.waiting ≡ []) ⊎ (LacksRoom self.new out.new returned.new × SomeRefused) }
        ensures room { out.old.room + length out.old.bytes ≤ out.new.room + length out.new.bytes }
        ensures copied { out.new.copied ≡ out.old.copied }
        ensures places { vec_capacity returned.old ≤ vec_capacity returned.new }
        ensures wishes { self.new.wishes ≡ self.old.wishes }
    {
        law_of_histories::<R>();
        law_of_views::<R>();
        let Ok(()) = self.send_out(None, out, returned) else {
            drop(disposition);
            return None;
        };
        let mut outcome = Ok(());
        if !self.on_disposition(channel, disposition, &mut outcome) {
            drop(outcome);
            return None;
        }
        // What is not sent now waits.
        let _ = self.send_out(Some(0), out, returned);
        Some(outcome)
    }
}
