//! The channels of sessions: allotted, and given back.

ghost use Rattle.std.specs.Prelude.{◌≡◌, ◌⊎◌, true, false, is_some, unwrap_or};
ghost use Rattle.std.specs.Option.{option_map};
ghost use Rattle.amqp_session.specs.declared.stop.ConnectionStopReason.TheVariants.{Closed};
ghost use Rattle.std.specs.FinMap as map;
ghost use Rattle.amqp_connection.specs.Connection.{AllocateStep, DeallocateStep, is_unopened, has_stopped, result_map};

use super::Connection;
use super::channel_table::AllotError;
use crate::error::AllocSessionError;
use crate::numbers::SessionNo;
use amqp_session::{ConnectionStopReason, OutgoingChannel};
use amqp_types::ConnectionState;

/// Whether no channel is allotted yet, since no Open went out or came.
fn is_unopened(state: ConnectionState) -> bool
    ensures { result ≡ is_unopened state }
{
    matches!(
        state,
        ConnectionState::Start
            | ConnectionState::HeaderSent
            | ConnectionState::HeaderReceived
            | ConnectionState::HeaderExchange
    )
}

/// Whether no channel is allotted any more, since the connection is closed or this side's Close went out.
fn has_stopped(state: ConnectionState) -> bool
    ensures { result ≡ has_stopped state }
{
    matches!(
        state,
        ConnectionState::CloseSent | ConnectionState::Discarding | ConnectionState::End
    )
}

impl Connection {
    /// Allots to a session the lowest channel that no session holds (AMQP 1.0 part 2, section 2.5.1): 0 to the agreed maximum, which is
    /// this side's channel-max until the peer's Open is accepted, and then the smaller of both. The time grows with the logarithm of the
    /// number of channels.
    ///
    /// `ConnectionNotOpened` in `Start`, `HeaderSent`, `HeaderReceived` and `HeaderExchange`. `ConnectionStopped` in
    /// `CloseSent`, `Discarding` and `End`, with the recorded reason, else `Closed`. In every other state: `ChannelMaxReached` where all
    /// channels are held up to the agreed maximum, and `OutOfMemory` where memory is refused. Nothing changes then.
    pub fn allocate_session(
        &mut self,
        number: SessionNo,
    ) -> Result<OutgoingChannel, AllocSessionError>
        ensures { AllocateStep self.old number.0 (result_map (λ c. c.0) result) self.new }
    {
        if is_unopened(self.state) {
            return Err(AllocSessionError::ConnectionNotOpened);
        }
        if has_stopped(self.state) {
            let reason = self.stop_reason.unwrap_or(ConnectionStopReason::Closed);
            return Err(AllocSessionError::ConnectionStopped(reason));
        }
        match self
            .session_by_outgoing_channel
            .allot(self.agreed_channel_max, number.0)
        {
            Ok(channel) => Ok(channel),
            Err(AllotError::Full) => Err(AllocSessionError::ChannelMaxReached),
            Err(AllotError::OutOfMemory) => Err(AllocSessionError::OutOfMemory),
        }
    }

    /// Takes a channel back, and says whether a session held it: `false` changes nothing. Takes no memory. The peer's channel that leads to
    /// the session still leads there, until an End comes on it.
    pub fn deallocate_session(&mut self, channel: OutgoingChannel) -> bool
        ensures { DeallocateStep self.old channel.0 result self.new }
    {
        if self.session_by_outgoing_channel.holder(channel).is_none() {
            return false;
        }
        self.session_by_outgoing_channel.give_back(channel);
        true
    }

    /// The number of the session that holds this channel of this side's. `None` where no session does.
    pub fn session_tx_by_outgoing_channel(&self, channel: OutgoingChannel) -> Option<SessionNo>
        ensures { result ≡ option_map (λ n. record { 0 = n }) (map.get self.now.session_by_outgoing_channel channel.0) }
    {
        match self.session_by_outgoing_channel.holder(channel) {
            Some(number) => Some(SessionNo(number)),
            None => None,
        }
    }
}
