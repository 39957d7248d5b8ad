//! A received frame that was read before: it runs as its bytes would.

ghost use Rattle.std.specs.Prelude.{◌≡◌, ◌≤◌, ◌+◌, ◌⊎◌, [], length, vec_capacity, IfSome};
ghost use Rattle.amqp_connection.specs.Connection.{refusal_of};
ghost use Rattle.amqp_memory.specs.Refusal.{SomeRefused};
ghost use Rattle.amqp_frames.specs.declared.frame.FrameBody.TheVariants as body;
ghost use Rattle.amqp_engine.specs.RunInto.{LacksRoom};
ghost use Rattle.amqp_engine.specs.RunFrame.{AnswersRead, OfRead, OfRelay, RunsFrame};
ghost use Rattle.amqp_engine.specs.Inner.Taken.{TakesBody, TakesFrame, TakesRead};

use super::Engine;
use super::handle_state::copy_of;
use super::refusal::Refusal;
use super::step_error::StepError;
use crate::laws::{law_of_histories, law_of_views};
use amqp_frames::{Error, Frame, FrameBody, SendBuffer};
use amqp_session::{IncomingChannel, LinkRelay};
use amqp_types::{Close, Disposition, End, Flow, Transfer};
use bytes::Bytes;

impl<R: LinkRelay> Engine<R> {
    /// Runs one received frame that [`FrameDecoder::decode`](amqp_frames::FrameDecoder::decode) has read, or why it read none: as
    /// [`Engine::run_into`] runs [`Input::Received`](crate::Input::Received) of the frame's bytes, which are not read again (AMQP 1.0 part
    /// 2, section 2.3). The caller brings what `decode` answered for those bytes, without the rest; nothing is said of a frame that can be
    /// read from no bytes.
    ///
    /// What waits is sent first, then what the frame hands out: each piece is appended to `out` after its four-byte size. A frame that does
    /// not fit the peer's limit is appended to `returned`, as [`Refusal::Frame`]: its place is `None` where it waited from before, else 0.
    ///
    /// `Some(Ok(()))` where the frame is accepted. `Some(Err(_))` where it is refused, as `Input::Received` says: of an error that was read,
    /// it is `StepError::Frame` with it, and nothing changes. The refusal is not appended to `returned`. Where memory is refused for what
    /// the frame hands out, that waits for the next call ([`Engine::has_output`]).
    ///
    /// `None` where the frame is not taken: memory is refused for what waited, or before the frame does anything (for the record of a transfer's
    /// delivery, the transfers that a Flow lets out, the place of an attach, the echoes of a disposition, the route of a Begin, the copy of the
    /// error that a Close or an End names); or `read` is `Err(Error::OutOfMemory)`. Then nothing changed but that some of what waited was sent,
    /// and the caller may read the frame and give it again. A frame that is taken and refused `OutOfMemory` is so by its link's relay, or
    /// since the state of an echo could not be said again.
    ///
    /// ```
    /// let read = match FrameDecoder::new().decode(alloc, bytes) {
    ///     Ok((frame, _rest)) => Ok(frame),
    ///     Err(error) => Err(error),
    /// };
    /// let answer = engine.run_frame(read, out, returned);
    /// ```
    pub fn run_frame(
        &mut self,
        read: Result<Frame, Error>,
        out: &mut SendBuffer,
        returned: &mut Vec<Refusal>,
    ) -> Option<Result<(), StepError>>
        ensures ran { RunsFrame R.gives self.old read result out.old.bytes returned.old.items self.new out.new.bytes returned.new.items }
        ensures answers { AnswersRead self.new read result }
        ensures memory { IfSome result (λ a. OfRead R.gives read (refusal_of a)) }
        ensures left { (self.new.waiting ≡ []) ⊎ (LacksRoom self.new out.new returned.new × SomeRefused) }
        ensures room { out.old.room + length out.old.bytes ≤ out.new.room + length out.new.bytes }
        ensures copied { out.new.copied ≡ out.old.copied }
        ensures places { vec_capacity returned.old ≤ vec_capacity returned.new }
        ensures wishes { self.new.wishes ≡ self.old.wishes }
    {
        law_of_histories::<R>();
        law_of_views::<R>();
        let Ok(()) = self.send_out(None, out, returned) else {
            drop(read);
            return None;
        };
        let Some(answer) = self.take_read(read) else {
            return None;
        };
        // What is not sent now waits.
        let _ = self.send_out(Some(0), out, returned);
        Some(answer)
    }

    /// Takes what was read. `None` where memory was refused, and nothing changes.
    fn take_read(&mut self, read: Result<Frame, Error>) -> Option<Result<(), StepError>>
        requires { self.old.waiting ≡ [] }
        ensures taken { TakesRead R.gives self.old read result self.new }
        ensures memory { IfSome result (λ a. OfRead R.gives read (refusal_of a)) }
    {
        match read {
            Ok(frame) => self.take_frame(frame),
            Err(Error::OutOfMemory) => None,
            Err(error) => Some(Err(StepError::Frame(error))),
        }
    }

    /// Takes a frame: its body's kind decides who handles it. An empty one changes nothing.
    fn take_frame(&mut self, frame: Frame) -> Option<Result<(), StepError>>
        requires { self.old.waiting ≡ [] }
        ensures taken { TakesFrame R.gives self.old frame result self.new }
        ensures memory { IfSome result (λ a. OfRelay R.gives frame.body (refusal_of a)) }
    {
        let Frame { channel, body } = frame;
        let channel = IncomingChannel(channel);
        match body {
            FrameBody::Transfer {
                performative,
                payload,
            } => self.take_transfer(channel, performative, payload),
            FrameBody::Disposition(disposition) => self.take_disposition(channel, disposition),
            FrameBody::Flow(flow) => self.take_flow(channel, flow),
            FrameBody::Attach(attach) => self.try_attach(channel, attach),
            FrameBody::Detach(detach) => Some(self.on_detach(channel, detach)),
            FrameBody::Begin(begin) => self.try_begin(channel, begin),
            FrameBody::End(end) => self.take_end(channel, end),
            FrameBody::Open(open) => Some(self.on_open(channel, open)),
            FrameBody::Close(close) => self.take_close(channel, close),
            FrameBody::Empty => Some(Ok(())),
        }
    }

    /// Takes a transfer, where there is memory for the record of its delivery.
    fn take_transfer(
        &mut self,
        channel: IncomingChannel,
        transfer: Transfer,
        payload: Bytes,
    ) -> Option<Result<(), StepError>>
        requires { self.old.waiting ≡ [] }
        ensures taken { TakesBody R.gives self.old channel.0 (body.Transfer transfer payload) result self.new }
        ensures memory { IfSome result (λ a. OfRelay R.gives (body.Transfer transfer payload) (refusal_of a)) }
    {
        let mut outcome = Ok(());
        if !self.try_transfer(channel, transfer, payload, &mut outcome) {
            drop(outcome);
            return None;
        }
        Some(outcome)
    }

    /// Takes a Flow, where there is memory for what it lets out.
    fn take_flow(&mut self, channel: IncomingChannel, flow: Flow) -> Option<Result<(), StepError>>
        requires { self.old.waiting ≡ [] }
        ensures taken { TakesBody R.gives self.old channel.0 (body.Flow flow) result self.new }
        ensures memory { IfSome result (λ a. OfRelay R.gives (body.Flow flow) (refusal_of a)) }
    {
        let mut outcome = Ok(());
        if !self.try_flow(channel, flow, &mut outcome) {
            drop(outcome);
            return None;
        }
        Some(outcome)
    }

    /// Takes a disposition, where there is memory for its echoes.
    fn take_disposition(
        &mut self,
        channel: IncomingChannel,
        disposition: Disposition,
    ) -> Option<Result<(), StepError>>
        requires { self.old.waiting ≡ [] }
        ensures taken { TakesBody R.gives self.old channel.0 (body.Disposition disposition) result self.new }
        ensures memory { IfSome result (λ a. OfRelay R.gives (body.Disposition disposition) (refusal_of a)) }
    {
        let mut outcome = Ok(());
        if !self.on_disposition(channel, disposition, &mut outcome) {
            drop(outcome);
            return None;
        }
        Some(outcome)
    }

    /// Takes the peer's End, of whose error a copy is kept for handles.
    fn take_end(&mut self, channel: IncomingChannel, end: End) -> Option<Result<(), StepError>>
        requires { self.old.waiting ≡ [] }
        ensures { TakesBody R.gives self.old channel.0 (body.End end) result self.new }
    {
        let Ok(copy) = copy_of(&end.error) else {
            drop(end);
            return None;
        };
        Some(self.on_end(channel, end, copy))
    }

    /// Takes the peer's Close, of whose error a copy is kept for handles.
    fn take_close(
        &mut self,
        channel: IncomingChannel,
        close: Close,
    ) -> Option<Result<(), StepError>>
        requires { self.old.waiting ≡ [] }
        ensures { TakesBody R.gives self.old channel.0 (body.Close close) result self.new }
    {
        let Ok(copy) = copy_of(&close.error) else {
            drop(close);
            return None;
        };
        Some(self.on_close(channel, close, copy))
    }
}
