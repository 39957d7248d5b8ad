//! The frames that come most often, told by their fields: none is made a [`Frame`](amqp_frames::Frame), which is large.

ghost use Rattle.std.specs.Prelude.{◌≡◌, ◌≤◌, ◌<◌, ◌+◌, ◌^◌, length, Ok, Some};
ghost use Rattle.std.specs.FinMap as map;
ghost use Rattle.std.specs.Option.{option_map};
ghost use Rattle.amqp_types.specs.declared.performatives.kind.Kind.TheVariants as kind;
ghost use Rattle.amqp_frames.specs.declared.frame.FrameBody.TheVariants as body;
ghost use Rattle.amqp_driver.specs.Driver.{RunsRead, TellsFields};
ghost use Rattle.amqp_driver.specs.Told.{link_at, session_at};

use super::Driver;
use super::telling::counted;
use crate::saying;
use crate::told::{Told, told_of};
use amqp_connection::SessionNo;
use amqp_engine::StepError;
use amqp_frames::Error;
use amqp_session::{IncomingChannel, InputHandle, LinkRelay, OutputHandle};
use amqp_types::laws::lists_are_read;
use amqp_types::{Disposition, Flow, Transfer};
use amqp_values::Composite;
use bytes::Bytes;

impl<R: LinkRelay> Driver<R> {
    /// Runs the Transfer on this channel whose fields these are, with the payload behind them, and tells what it says. The frame begins at this
    /// place of the input, and has so many bytes.
    #[inline(never)]
    pub(super) fn tell_transfer(&mut self, channel: u16, fields: Bytes, at: u32, size: u32) -> Told
        requires within { 8 + length fields ≤ size }
        requires fits { at + size < 2 ^ 32 }
        ensures { TellsFields R.gives self.old (record { channel = channel; kind = Some kind.Transfer }) fields at size result self.new }
    {
        lists_are_read();
        let mut rest = fields;
        let transfer = match Transfer::read_list(self.alloc, &mut rest) {
            Ok(transfer) => transfer,
            Err(error) => return self.tell_unread(Error::from(error), at, size),
        };
        let route = self.route_on(channel);
        let link = self.link_at(route, Some(transfer.handle.0));
        let said = saying::of_transfer(channel, at, size, &transfer, rest.len() as u32);
        let answer = self.run_transfer(channel, transfer, rest);
        told_of(answer, route, link, false, false, said)
    }

    /// The same of a Flow.
    #[inline(never)]
    pub(super) fn tell_flow(&mut self, channel: u16, fields: Bytes, at: u32, size: u32) -> Told
        requires within { 8 + length fields ≤ size }
        requires fits { at + size < 2 ^ 32 }
        ensures { TellsFields R.gives self.old (record { channel = channel; kind = Some kind.Flow }) fields at size result self.new }
    {
        lists_are_read();
        let mut rest = fields;
        let flow = match Flow::read_list(self.alloc, &mut rest) {
            Ok(flow) => flow,
            Err(error) => return self.tell_unread(Error::from(error), at, size),
        };
        drop(rest);
        let route = self.route_on(channel);
        let link = self.link_at(route, input_of(&flow));
        let said = saying::of_flow(channel, at, size, &flow);
        let answer = self.run_flow(channel, flow);
        told_of(answer, route, link, false, false, said)
    }

    /// The same of a Disposition.
    #[inline(never)]
    pub(super) fn tell_disposition(
        &mut self,
        channel: u16,
        fields: Bytes,
        at: u32,
        size: u32,
    ) -> Told
        requires within { 8 + length fields ≤ size }
        requires fits { at + size < 2 ^ 32 }
        ensures { TellsFields R.gives self.old (record { channel = channel; kind = Some kind.Disposition }) fields at size result self.new }
    {
        lists_are_read();
        let mut rest = fields;
        let disposition = match Disposition::read_list(self.alloc, &mut rest) {
            Ok(disposition) => disposition,
            Err(error) => return self.tell_unread(Error::from(error), at, size),
        };
        drop(rest);
        let route = self.route_on(channel);
        let said = saying::of_disposition(channel, at, size, &disposition);
        let answer = self.run_disposition(channel, disposition);
        told_of(answer, route, None, false, false, said)
    }

    /// The session to which a channel of the peer's leads.
    #[inline(always)]
    fn route_on(&self, channel: u16) -> Option<SessionNo>
        ensures { option_map (λ n. n.0) result ≡ map.get self.now.engine.connection.session_by_incoming_channel channel }
    {
        self.engine.session_of(IncomingChannel(channel))
    }

    /// This side's handle of the link that is attached in this session under a handle of the peer's, if one is named.
    #[inline(always)]
    fn link_at(&self, route: Option<SessionNo>, input: Option<u32>) -> Option<OutputHandle>
        ensures { result ≡ link_at input (session_at self.now.engine (option_map (λ n. n.0) route)) }
    {
        let session = self.engine.session(route?)?;
        session.output_handle_of(InputHandle(input?))
    }

    #[inline(always)]
    fn run_transfer(
        &mut self,
        channel: u16,
        transfer: Transfer,
        payload: Bytes,
    ) -> Option<Result<(), StepError>>
        ensures { RunsRead R.gives self.old (Ok (record { channel = channel; body = body.Transfer transfer payload })) result self.new }
    {
        let answer = self.engine.run_received_transfer(
            IncomingChannel(channel),
            transfer,
            payload,
            &mut self.out,
            &mut self.returned,
        );
        self.unfit = counted(self.unfit, &self.returned);
        self.returned.clear();
        answer
    }

    #[inline(always)]
    fn run_flow(&mut self, channel: u16, flow: Flow) -> Option<Result<(), StepError>>
        ensures { RunsRead R.gives self.old (Ok (record { channel = channel; body = body.Flow flow })) result self.new }
    {
        let answer = self.engine.run_received_flow(
            IncomingChannel(channel),
            flow,
            &mut self.out,
            &mut self.returned,
        );
        self.unfit = counted(self.unfit, &self.returned);
        self.returned.clear();
        answer
    }

    #[inline(always)]
    fn run_disposition(
        &mut self,
        channel: u16,
        disposition: Disposition,
    ) -> Option<Result<(), StepError>>
        ensures { RunsRead R.gives self.old (Ok (record { channel = channel; body = body.Disposition disposition })) result self.new }
    {
        let answer = self.engine.run_received_disposition(
            IncomingChannel(channel),
            disposition,
            &mut self.out,
            &mut self.returned,
        );
        self.unfit = counted(self.unfit, &self.returned);
        self.returned.clear();
        answer
    }
}

/// The handle of the peer's that a flow names, if it names one.
fn input_of(flow: &Flow) -> Option<u32>
    ensures { result ≡ «flow».now.handle }
{
    match flow.handle {
        Some(handle) => Some(handle.0),
        None => None,
    }
}
