//! Routing: the session to which a received frame goes, and the frames of sessions that go out.

ghost use Rattle.std.specs.Prelude.{◌≡◌, ℕ, Result};
ghost use Rattle.std.specs.Option.{option_map};
ghost use Rattle.std.specs.FinMap as map;
ghost use Rattle.amqp_session.specs.declared.frame.SessionFrameBody.TheVariants as said;
ghost use Rattle.amqp_frames.specs.declared.frame.FrameBody.TheVariants as body;
ghost use Rattle.amqp_connection.specs.declared.error.ConnectionInnerError.{ConnectionInnerError};
ghost use Rattle.amqp_connection.specs.declared.numbers.SessionNo.{SessionNo};
ghost use Rattle.amqp_connection.specs.Connection.{BeginRouteStep, EndRouteStep, IsRouted, RouteStep, passed_on, result_map};

use super::Connection;
use crate::error::ConnectionInnerError;
use crate::numbers::SessionNo;
use amqp_frames::{Frame, FrameBody};
use amqp_session::{IncomingChannel, OutgoingChannel, SessionFrame, SessionFrameBody};
use amqp_types::{Begin, ConnectionState, End};

impl Connection {
    /// Takes the peer's Begin, which came on this channel: from now on the channel leads to the session that holds the
    /// Begin's `remote-channel`. Gives that session's number, and the frame for it.
    ///
    /// `IllegalState` in every state but `Opened`. `NotImplemented(None)` without a `remote-channel`: sessions that the peer begins are
    /// left out. `NotFound(None)` where no session holds that channel. `OutOfMemory` where memory is refused. Then the route
    /// stays as it was.
    pub fn on_incoming_begin(
        &mut self,
        channel: IncomingChannel,
        begin: Begin,
    ) -> Result<(SessionNo, SessionFrame), ConnectionInnerError>
        ensures { (found : Result ℕ ConnectionInnerError) × BeginRouteStep self.old channel.0 begin.remote_channel found self.new
            × (result ≡ passed_on (record { channel = channel.0; body = said.Begin begin }) found) }
    {
        match self.route_begin(channel, begin.remote_channel) {
            Ok(number) => Ok((
                number,
                SessionFrame::new(channel.0, SessionFrameBody::Begin(begin)),
            )),
            Err(error) => Err(error),
        }
    }

    /// Takes the peer's End, which came on this channel: from now on the channel leads to no session. Gives the number of the
    /// session to which it led, and the frame for it. Takes no memory.
    ///
    /// `IllegalState` in every state but `Opened`. `NotFound(None)` where the channel leads to no session. Nothing changes then.
    pub fn on_incoming_end(
        &mut self,
        channel: IncomingChannel,
        end: End,
    ) -> Result<(SessionNo, SessionFrame), ConnectionInnerError>
        ensures { (found : Result ℕ ConnectionInnerError) × EndRouteStep self.old channel.0 found self.new
            × (result ≡ passed_on (record { channel = channel.0; body = said.End end }) found) }
    {
        match self.route_end(channel) {
            Ok(number) => Ok((
                number,
                SessionFrame::new(channel.0, SessionFrameBody::End(end)),
            )),
            Err(error) => {
                drop(end);
                Err(error)
            }
        }
    }

    /// The number of the session to which frames on this channel of the peer's go, in every state. `None` where they go to none.
    #[inline(always)]
    pub fn session_tx_by_incoming_channel(&self, channel: IncomingChannel) -> Option<SessionNo>
        ensures { result ≡ option_map (λ n. record { 0 = n }) (map.get self.now.session_by_incoming_channel channel.0) }
    {
        match self.session_by_incoming_channel.of(channel) {
            Some(number) => Some(SessionNo(number)),
            None => None,
        }
    }

    /// Whether a frame of the peer's can reach this session: a channel of the peer's leads to it, since a Begin on that
    /// channel named the session's channel, and no End on it came since (AMQP 1.0 part 2, sections 2.5.1 and 2.5.2). That is one
    /// look-up, however many channels there are.
    pub fn has_route(&self, number: SessionNo) -> bool
        ensures { IsRouted self.now number.0 result }
    {
        self.session_by_incoming_channel.leads_to(number.0)
    }

    /// The frame of a session's Begin. Takes no memory, and tests no state.
    pub fn on_outgoing_begin(&self, channel: OutgoingChannel, begin: Begin) -> Frame
        ensures { result ≡ record { channel = channel.0; body = body.Begin begin } }
    {
        Frame::new(channel.0, FrameBody::Begin(begin))
    }

    /// The frame of a session's End. Takes no memory, and tests no state.
    pub fn on_outgoing_end(&self, channel: OutgoingChannel, end: End) -> Frame
        ensures { result ≡ record { channel = channel.0; body = body.End end } }
    {
        Frame::new(channel.0, FrameBody::End(end))
    }

    /// What [`Connection::on_incoming_begin`] does, for a caller that holds the Begin itself: of the peer's Begin it takes the
    /// `remote-channel` alone, and gives no frame. It has the same errors.
    pub fn route_begin(
        &mut self,
        channel: IncomingChannel,
        remote_channel: Option<u16>,
    ) -> Result<SessionNo, ConnectionInnerError>
        ensures { BeginRouteStep self.old channel.0 remote_channel (result_map (λ (n : SessionNo). n.0) result) self.new }
    {
        let ConnectionState::Opened = self.state else {
            return Err(ConnectionInnerError::IllegalState);
        };
        let Some(held) = remote_channel else {
            return Err(ConnectionInnerError::NotImplemented(None));
        };
        let Some(number) = self
            .session_by_outgoing_channel
            .holder(OutgoingChannel(held))
        else {
            return Err(ConnectionInnerError::NotFound(None));
        };
        let Ok(()) = self.session_by_incoming_channel.put(channel, number) else {
            return Err(ConnectionInnerError::OutOfMemory);
        };
        Ok(SessionNo(number))
    }

    /// What [`Connection::on_incoming_end`] does, for a caller that holds the End itself: it gives no frame. It has the same errors.
    pub fn route_end(&mut self, channel: IncomingChannel) -> Result<SessionNo, ConnectionInnerError>
        ensures { EndRouteStep self.old channel.0 (result_map (λ (n : SessionNo). n.0) result) self.new }
    {
        let ConnectionState::Opened = self.state else {
            return Err(ConnectionInnerError::IllegalState);
        };
        let Some(number) = self.session_by_incoming_channel.of(channel) else {
            return Err(ConnectionInnerError::NotFound(None));
        };
        self.session_by_incoming_channel.take(channel);
        Ok(SessionNo(number))
    }
}
