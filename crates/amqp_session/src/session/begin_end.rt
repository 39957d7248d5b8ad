//! How a session begins and ends (AMQP 1.0 part 2, sections 2.5.1 to 2.5.5).

ghost use Rattle.std.specs.Prelude.{◌≡◌, is_some};
ghost use Rattle.std.specs.Option.{option_map};
ghost use Rattle.amqp_session.specs.States.{sends_begin, takes_begin, sends_end, takes_end, answers_end};
ghost use Rattle.amqp_session.specs.Step.{SendBeginStep, SendEndStep, TakeBeginStep, TakeEndStep};

use super::Session;
use crate::error::SessionStateError;
use crate::frame::{SessionFrame, SessionFrameBody};
use crate::numbers::IncomingChannel;
use crate::relay::LinkRelay;
use amqp_types::{Begin, End, Error, SessionState};

/// The state after a Begin is sent, where that is allowed.
fn after_sent_begin(state: SessionState) -> Option<SessionState>
    ensures { result ≡ sends_begin state }
{
    match state {
        SessionState::Unmapped => Some(SessionState::BeginSent),
        SessionState::BeginReceived => Some(SessionState::Mapped),
        _ => None,
    }
}

/// The state after a Begin is received, where that is allowed.
fn after_received_begin(state: SessionState) -> Option<SessionState>
    ensures { result ≡ takes_begin state }
{
    match state {
        SessionState::Unmapped => Some(SessionState::BeginReceived),
        SessionState::BeginSent => Some(SessionState::Mapped),
        _ => None,
    }
}

/// The state after an End is sent, where that is allowed.
fn after_sent_end(state: SessionState, with_error: bool) -> Option<SessionState>
    ensures { result ≡ sends_end with_error state }
{
    match state {
        SessionState::Mapped if with_error => Some(SessionState::Discarding),
        SessionState::Mapped => Some(SessionState::EndSent),
        SessionState::EndReceived => Some(SessionState::Unmapped),
        _ => None,
    }
}

/// The state after an End is received, where that is allowed.
fn after_received_end(state: SessionState) -> Option<SessionState>
    ensures { result ≡ takes_end state }
{
    match state {
        SessionState::BeginSent | SessionState::BeginReceived | SessionState::Mapped => {
            Some(SessionState::EndReceived)
        }
        SessionState::EndSent | SessionState::Discarding => Some(SessionState::Unmapped),
        _ => None,
    }
}

/// The number of the channel, if there is one.
fn channel_number(channel: Option<IncomingChannel>) -> Option<u16>
    ensures { result ≡ option_map (λ c. c.0) channel }
{
    match channel {
        None => None,
        Some(channel) => Some(channel.0),
    }
}

/// Whether a received End answers one that was sent.
fn is_answer(state: SessionState) -> bool
    ensures { result ≡ answers_end state }
{
    matches!(state, SessionState::EndSent | SessionState::Discarding)
}

impl<R: LinkRelay> Session<R> {
    /// Whether the state lets a Begin go out.
    #[inline(always)]
    pub(crate) fn can_begin(&self) -> bool
        ensures { result ≡ is_some (sends_begin self.now.view.state) }
    {
        after_sent_begin(self.state).is_some()
    }

    /// Begins the session, or answers the peer's Begin: the frame names the settings, the number of the next transfer, and
    /// the channel of the peer's Begin, if it came (AMQP 1.0 part 2, section 2.7.2).
    ///
    /// It moves `Unmapped` to `BeginSent`, and `BeginReceived` to `Mapped`. `IllegalState` in any other state. `OutOfMemory` where memory
    /// for the copy of the settings is refused. Nothing changes then.
    pub fn send_begin(&mut self) -> Result<SessionFrame, SessionStateError>
        ensures step { SendBeginStep self.old.view result self.new.view }
        ensures walk { self.new.last_walk ≡ self.old.last_walk }
        ensures reads { self.new.reads ≡ self.old.reads }
    {
        let Some(state) = after_sent_begin(self.state) else {
            return Err(SessionStateError::IllegalState);
        };
        let Ok(settings) = self.settings.clone() else {
            return Err(SessionStateError::OutOfMemory);
        };
        self.state = state;
        let remote_channel = channel_number(self.incoming_channel);
        let begin = settings.into_begin(remote_channel, self.sending.next_outgoing_id());
        Ok(SessionFrame::new(self.outgoing_channel.0, SessionFrameBody::Begin(begin)))
    }

    /// Ends the session, with an error or without, or answers the peer's End (AMQP 1.0 part 2, section 2.7.8). Takes no memory.
    ///
    /// It moves `Mapped` to `EndSent`, or with an error to `Discarding`, and `EndReceived` to `Unmapped`. `IllegalState` in any other
    /// state. Nothing changes then.
    pub fn send_end(&mut self, error: Option<Error>) -> Result<SessionFrame, SessionStateError>
        ensures step { SendEndStep self.old.view error result self.new.view }
        ensures walk { self.new.last_walk ≡ self.old.last_walk }
        ensures reads { self.new.reads ≡ self.old.reads }
    {
        let Some(state) = after_sent_end(self.state, error.is_some()) else {
            return Err(SessionStateError::IllegalState);
        };
        self.state = state;
        Ok(SessionFrame::new(
            self.outgoing_channel.0,
            SessionFrameBody::End(End { error }),
        ))
    }

    /// Takes the peer's Begin, which came on this channel: it gives both windows and the peer's next number. Transfers
    /// that wait go on waiting. Takes no memory.
    ///
    /// It moves `Unmapped` to `BeginReceived`, and `BeginSent` to `Mapped`. `IllegalState` in any other state. Nothing changes then.
    pub fn on_incoming_begin(
        &mut self,
        channel: IncomingChannel,
        begin: Begin,
    ) -> Result<(), SessionStateError>
        ensures step { TakeBeginStep self.old.view channel.0 begin result self.new.view }
        ensures walk { self.new.last_walk ≡ self.old.last_walk }
        ensures reads { self.new.reads ≡ self.old.reads }
    {
        let Some(state) = after_received_begin(self.state) else {
            return Err(SessionStateError::IllegalState);
        };
        self.state = state;
        self.incoming_channel = Some(channel);
        self.sending.begin_window(begin.incoming_window);
        self.receiving
            .set_numbers(begin.next_outgoing_id, begin.outgoing_window);
        Ok(())
    }

    /// Takes the peer's End. Takes no memory. The channel is not looked at.
    ///
    /// It moves `BeginSent`, `BeginReceived` and `Mapped` to `EndReceived`, and `EndSent` and `Discarding` to `Unmapped`. The answer is
    /// `RemoteEndedWithError` where the End has an error, in each of these states. Without an error it is `RemoteEnded` where this side has
    /// sent no End, and else `Ok`. The state moves in each case. `IllegalState` in `Unmapped` and `EndReceived`: nothing changes then.
    pub fn on_incoming_end(
        &mut self,
        _channel: IncomingChannel,
        end: End,
    ) -> Result<(), SessionStateError>
        ensures step { TakeEndStep self.old.view end result self.new.view }
        ensures walk { self.new.last_walk ≡ self.old.last_walk }
        ensures reads { self.new.reads ≡ self.old.reads }
    {
        let is_answer = is_answer(self.state);
        let Some(state) = after_received_end(self.state) else {
            return Err(SessionStateError::IllegalState);
        };
        self.state = state;
        match end.error {
            Some(error) => Err(SessionStateError::RemoteEndedWithError(error)),
            None if is_answer => Ok(()),
            None => Err(SessionStateError::RemoteEnded),
        }
    }
}
