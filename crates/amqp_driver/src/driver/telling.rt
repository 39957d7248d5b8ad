//! One frame that is run, and what is told of it.

ghost use Rattle.std.specs.Prelude.{◌≡◌, ◌≤◌, ◌<◌, ◌+◌, ◌^◌, length, Ok, Err};
ghost use Rattle.std.specs.Option.{option_map};
ghost use Rattle.amqp_frames.specs.Frame.{payload_of};
ghost use Rattle.amqp_driver.specs.Driver.{RunsRead, Tells, TellsFields, TellsRead, counted, route_by};
ghost use Rattle.amqp_driver.specs.Told.{begins_on, is_empty_body, link_in, session_at};

use super::Driver;
use crate::told::{Told, told_of};
use crate::{record, saying};
use amqp_connection::SessionNo;
use amqp_engine::{Refusal, StepError};
use amqp_frames::{Error, Frame, FrameBody, FrameDecoder, FrameHead};
use amqp_session::{IncomingChannel, InputHandle, LinkRelay, OutgoingChannel, OutputHandle};
use amqp_types::Kind;
use bytes::Bytes;

/// How many frames did not fit, with those that were handed back now.
pub(super) fn counted(unfit: u32, returned: &Vec<Refusal>) -> u32
    ensures { result ≡ counted unfit returned.now.items }
{
    match u32::try_from(returned.len()) {
        Ok(more) => unfit.saturating_add(more),
        Err(_) => u32::MAX,
    }
}

impl<R: LinkRelay> Driver<R> {
    /// Runs the frame in these bytes, which are one frame without its size, and tells what it says. The frame begins at this place of the
    /// input, and has so many bytes.
    pub(super) fn tell(&mut self, bytes: Bytes, at: u32, size: u32) -> Told
        requires whole { length bytes + 4 ≡ size }
        requires least { 8 ≤ size }
        requires fits { at + size < 2 ^ 32 }
        ensures { Tells R.gives self.old bytes at size result self.new }
    {
        let mut fields = bytes;
        let head = match FrameDecoder::new().head(&mut fields) {
            Ok(head) => head,
            Err(error) => return self.tell_unread(error, at, size),
        };
        match head.kind {
            Some(Kind::Transfer) => self.tell_transfer(head.channel, fields, at, size),
            Some(Kind::Disposition) => self.tell_disposition(head.channel, fields, at, size),
            Some(Kind::Flow) => self.tell_flow(head.channel, fields, at, size),
            _ => self.tell_fields(head, fields, at, size),
        }
    }

    /// Runs the frame of this head whose fields these are, and tells what it says.
    #[inline(never)]
    fn tell_fields(&mut self, head: FrameHead, fields: Bytes, at: u32, size: u32) -> Told
        requires within { 8 + length fields ≤ size }
        requires fits { at + size < 2 ^ 32 }
        ensures { TellsFields R.gives self.old head fields at size result self.new }
    {
        match FrameDecoder::new().fields(self.alloc, head, fields) {
            Ok((frame, rest)) => {
                drop(rest);
                self.tell_frame(frame, at, size)
            }
            Err(error) => self.tell_unread(error, at, size),
        }
    }

    /// Runs a frame, and tells what it says.
    fn tell_frame(&mut self, frame: Frame, at: u32, size: u32) -> Told
        requires inside { 8 + length (payload_of frame.body) ≤ size }
        requires fits { at + size < 2 ^ 32 }
        ensures { TellsRead R.gives self.old (Ok frame) at size result self.new }
    {
        let route = self.route_of(&frame);
        let link = self.link_of(route, &frame.body);
        let silent = is_empty(&frame.body);
        let anew = self.begins_anew(&frame);
        let said = saying::of_frame(at, size, &frame);
        let answer = self.run_read(Ok(frame));
        told_of(answer, route, link, silent, anew, said)
    }

    /// Runs what could not be read, and tells why.
    #[inline(never)]
    pub(super) fn tell_unread(&mut self, error: Error, at: u32, size: u32) -> Told
        requires least { 8 ≤ size }
        requires fits { at + size < 2 ^ 32 }
        ensures { TellsRead R.gives self.old (Err error) at size result self.new }
    {
        let answer = self.run_read(Err(error));
        told_of(answer, None, None, false, false, record::bare(at, size))
    }

    /// Runs what was read.
    pub(super) fn run_read(&mut self, read: Result<Frame, Error>) -> Option<Result<(), StepError>>
        ensures { RunsRead R.gives self.old read result self.new }
    {
        let answer = self
            .engine
            .run_frame(read, &mut self.out, &mut self.returned);
        self.unfit = counted(self.unfit, &self.returned);
        self.returned.clear();
        answer
    }

    /// The session to which the connection passes the frame, where it passes it on.
    fn route_of(&self, frame: &Frame) -> Option<SessionNo>
        ensures { option_map (λ n. n.0) result ≡ route_by self.now.engine.connection frame.now.channel frame.now.body }
    {
        match &frame.body {
            FrameBody::Begin(begin) => {
                let channel = OutgoingChannel(begin.remote_channel?);
                self.engine
                    .connection()
                    .session_tx_by_outgoing_channel(channel)
            }
            FrameBody::Open(_) | FrameBody::Close(_) | FrameBody::Empty => None,
            _ => self.engine.session_of(IncomingChannel(frame.channel)),
        }
    }

    /// Whether a frame is a Begin that answers none, on a channel of the peer's that leads to no session.
    fn begins_anew(&self, frame: &Frame) -> bool
        ensures { result ≡ begins_on self.now.engine.connection frame.now.channel frame.now.body }
    {
        let FrameBody::Begin(begin) = &frame.body else {
            return false;
        };
        begin.remote_channel.is_none()
            && self
                .engine
                .session_of(IncomingChannel(frame.channel))
                .is_none()
    }

    /// This side's handle of the link that a frame names in this session.
    fn link_of(&self, route: Option<SessionNo>, body: &FrameBody) -> Option<OutputHandle>
        ensures { result ≡ link_in body.now (session_at self.now.engine (option_map (λ n. n.0) route)) }
    {
        let session = self.engine.session(route?)?;
        match body {
            FrameBody::Attach(p) => session.output_handle(p.name.as_str()),
            FrameBody::Flow(p) => session.output_handle_of(InputHandle(p.handle?.0)),
            FrameBody::Transfer {
                performative,
                payload: _,
            } => session.output_handle_of(InputHandle(performative.handle.0)),
            FrameBody::Detach(p) => session.output_handle_of(InputHandle(p.handle.0)),
            _ => None,
        }
    }
}

/// Whether a frame is empty.
fn is_empty(body: &FrameBody) -> bool
    ensures { result ≡ is_empty_body body.now }
{
    match body {
        FrameBody::Empty => true,
        _ => false,
    }
}
