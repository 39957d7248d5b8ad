//! Received frames: the bytes of each are read, and its performative is handled. An empty frame changes nothing.

ghost use Rattle.std.specs.Prelude.{◌≡◌, Option, Some, None, []};
ghost use Rattle.amqp_types.specs.declared.performatives.kind.Kind.TheVariants as kind;
ghost use Rattle.amqp_connection.specs.Connection.{refusal_of};
ghost use Rattle.amqp_engine.specs.Engine.{ReceivedStep, FieldsStep, FieldsKept};

use super::handle_state::copy_of;
use super::step_error::StepError;
use super::{Engine, refused};
use amqp_session::{IncomingChannel, LinkRelay};
use amqp_types::{Attach, Begin, Close, Detach, Disposition, End, Flow, Kind, Open, Transfer};
use amqp_values::Composite;
use bytes::Bytes;

impl<R: LinkRelay> Engine<R> {
    /// Takes a received frame: its kind decides who handles its fields. An empty one changes nothing. The most frequent kinds are picked out
    /// here. What is refused is written where the answer stays.
    #[inline(always)]
    pub(super) fn receive(&mut self, bytes: Bytes, outcome: &mut Result<(), StepError>)
        requires idle { self.old.waiting ≡ [] }
        requires clear { refusal_of outcome.old ≡ None }
        ensures { ReceivedStep R.gives self.old bytes (refusal_of outcome.new) self.new }
    {
        let mut fields = bytes;
        let head = match self.decoder.head(&mut fields) {
            Ok(head) => head,
            Err(error) => return refused::no_frame(outcome, error),
        };
        let channel = IncomingChannel(head.channel);
        match head.kind {
            None => {},
            Some(Kind::Transfer) => self.receive_transfer(channel, fields, outcome),
            Some(Kind::Disposition) => self.receive_disposition(channel, fields, outcome),
            Some(Kind::Flow) => self.receive_flow(channel, fields, outcome),
            Some(kind) => self.receive_any(kind, channel, fields, outcome),
        }
    }

    /// Takes the fields of any kind.
    #[inline(never)]
    fn receive_any(
        &mut self,
        kind: Kind,
        channel: IncomingChannel,
        fields: Bytes,
        outcome: &mut Result<(), StepError>,
    )
        requires idle { self.old.waiting ≡ [] }
        requires clear { refusal_of outcome.old ≡ None }
        ensures { FieldsKept R.gives self.old channel.0 (Some kind) fields (refusal_of outcome.new) self.new }
    {
        let answer = match kind {
            Kind::Transfer => return self.receive_transfer(channel, fields, outcome),
            Kind::Disposition => return self.receive_disposition(channel, fields, outcome),
            Kind::Flow => return self.receive_flow(channel, fields, outcome),
            Kind::Attach => self.receive_attach(channel, fields),
            Kind::Detach => self.receive_detach(channel, fields),
            Kind::Begin => self.receive_begin(channel, fields),
            Kind::End => self.receive_end(channel, fields),
            Kind::Open => self.receive_open(channel, fields),
            Kind::Close => self.receive_close(channel, fields),
        };
        *outcome = answer;
    }

    #[inline(never)]
    fn receive_transfer(
        &mut self,
        channel: IncomingChannel,
        fields: Bytes,
        outcome: &mut Result<(), StepError>,
    )
        requires idle { self.old.waiting ≡ [] }
        requires clear { refusal_of outcome.old ≡ None }
        ensures { FieldsStep R.gives self.old channel.0 (Some kind.Transfer) fields (refusal_of outcome.new) self.new }
    {
        let mut rest = fields;
        match Transfer::read_list(self.alloc, &mut rest) {
            Ok(transfer) => self.on_transfer(channel, transfer, rest, outcome),
            Err(error) => refused::unread(outcome, error),
        }
    }

    #[inline(never)]
    fn receive_flow(
        &mut self,
        channel: IncomingChannel,
        fields: Bytes,
        outcome: &mut Result<(), StepError>,
    )
        requires idle { self.old.waiting ≡ [] }
        requires clear { refusal_of outcome.old ≡ None }
        ensures { FieldsStep R.gives self.old channel.0 (Some kind.Flow) fields (refusal_of outcome.new) self.new }
    {
        let mut rest = fields;
        match Flow::read_list(self.alloc, &mut rest) {
            Ok(flow) => self.on_flow(channel, flow, outcome),
            Err(error) => refused::unread(outcome, error),
        }
    }

    #[inline(never)]
    fn receive_disposition(
        &mut self,
        channel: IncomingChannel,
        fields: Bytes,
        outcome: &mut Result<(), StepError>,
    )
        requires idle { self.old.waiting ≡ [] }
        requires clear { refusal_of outcome.old ≡ None }
        ensures { FieldsStep R.gives self.old channel.0 (Some kind.Disposition) fields (refusal_of outcome.new) self.new }
    {
        let mut rest = fields;
        match Disposition::read_list(self.alloc, &mut rest) {
            Ok(disposition) => {
                let _done = self.on_disposition(channel, disposition, outcome);
            }
            Err(error) => refused::unread(outcome, error),
        }
    }

    #[inline(never)]
    fn receive_attach(&mut self, channel: IncomingChannel, fields: Bytes) -> Result<(), StepError>
        requires { self.old.waiting ≡ [] }
        ensures { FieldsStep R.gives self.old channel.0 (Some kind.Attach) fields (refusal_of result) self.new }
    {
        let mut rest = fields;
        let attach = Attach::read_list(self.alloc, &mut rest)?;
        self.on_attach(channel, attach)
    }

    #[inline(never)]
    fn receive_detach(&mut self, channel: IncomingChannel, fields: Bytes) -> Result<(), StepError>
        requires { self.old.waiting ≡ [] }
        ensures { FieldsStep R.gives self.old channel.0 (Some kind.Detach) fields (refusal_of result) self.new }
    {
        let mut rest = fields;
        let detach = Detach::read_list(self.alloc, &mut rest)?;
        self.on_detach(channel, detach)
    }

    #[inline(never)]
    fn receive_begin(&mut self, channel: IncomingChannel, fields: Bytes) -> Result<(), StepError>
        requires { self.old.waiting ≡ [] }
        ensures { FieldsStep R.gives self.old channel.0 (Some kind.Begin) fields (refusal_of result) self.new }
    {
        let mut rest = fields;
        let begin = Begin::read_list(self.alloc, &mut rest)?;
        self.on_begin(channel, begin)
    }

    #[inline(never)]
    fn receive_end(&mut self, channel: IncomingChannel, fields: Bytes) -> Result<(), StepError>
        requires { self.old.waiting ≡ [] }
        ensures { FieldsKept R.gives self.old channel.0 (Some kind.End) fields (refusal_of result) self.new }
    {
        let mut rest = fields;
        let end = End::read_list(self.alloc, &mut rest)?;
        let Ok(copy) = copy_of(&end.error) else {
            drop(end);
            return Err(StepError::OutOfMemory);
        };
        self.on_end(channel, end, copy)
    }

    #[inline(never)]
    fn receive_open(&mut self, channel: IncomingChannel, fields: Bytes) -> Result<(), StepError>
        requires { self.old.waiting ≡ [] }
        ensures { FieldsStep R.gives self.old channel.0 (Some kind.Open) fields (refusal_of result) self.new }
    {
        let mut rest = fields;
        let open = Open::read_list(self.alloc, &mut rest)?;
        self.on_open(channel, open)
    }

    #[inline(never)]
    fn receive_close(&mut self, channel: IncomingChannel, fields: Bytes) -> Result<(), StepError>
        requires { self.old.waiting ≡ [] }
        ensures { FieldsKept R.gives self.old channel.0 (Some kind.Close) fields (refusal_of result) self.new }
    {
        let mut rest = fields;
        let close = Close::read_list(self.alloc, &mut rest)?;
        let Ok(copy) = copy_of(&close.error) else {
            drop(close);
            return Err(StepError::OutOfMemory);
        };
        self.on_close(channel, close, copy)
    }
}
