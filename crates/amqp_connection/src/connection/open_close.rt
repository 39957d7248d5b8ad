//! Open and Close: the connection's states.

ghost use Rattle.std.specs.Prelude.{◌≡◌, is_some};
ghost use Rattle.amqp_connection.specs.States.{sends_open, takes_open, sends_close, takes_close};
ghost use Rattle.amqp_connection.specs.Connection.{SendOpenStep, IncomingOpenStep, SendCloseStep, IncomingCloseStep, close_error, refusal_of};

use super::Connection;
use crate::error::ConnectionStateError;
use amqp_frames::{Frame, FrameBody};
use amqp_session::IncomingChannel;
use amqp_types::{Close, ConnectionState, Error, Open};

fn after_sending_open(state: ConnectionState) -> Option<ConnectionState>
    ensures { result ≡ sends_open state }
{
    match state {
        ConnectionState::HeaderExchange => Some(ConnectionState::OpenSent),
        ConnectionState::OpenReceived => Some(ConnectionState::Opened),
        ConnectionState::HeaderSent => Some(ConnectionState::OpenPipe),
        _ => None,
    }
}

fn after_incoming_open(state: ConnectionState) -> Option<ConnectionState>
    ensures { result ≡ takes_open state }
{
    match state {
        ConnectionState::HeaderExchange => Some(ConnectionState::OpenReceived),
        ConnectionState::OpenSent => Some(ConnectionState::Opened),
        ConnectionState::ClosePipe => Some(ConnectionState::CloseSent),
        _ => None,
    }
}

fn after_sending_close(state: ConnectionState, error: &Option<Error>) -> Option<ConnectionState>
    ensures { result ≡ sends_close (is_some error.now) state }
{
    match (state, error) {
        (ConnectionState::CloseReceived, _) => Some(ConnectionState::End),
        (ConnectionState::Opened, None) => Some(ConnectionState::CloseSent),
        (ConnectionState::OpenSent, None) => Some(ConnectionState::ClosePipe),
        (ConnectionState::OpenPipe, None) => Some(ConnectionState::OpenClosePipe),
        (
            ConnectionState::Opened | ConnectionState::OpenSent | ConnectionState::OpenPipe,
            Some(_),
        ) => Some(ConnectionState::Discarding),
        _ => None,
    }
}

fn after_incoming_close(state: ConnectionState) -> Option<ConnectionState>
    ensures { result ≡ takes_close state }
{
    match state {
        ConnectionState::Opened
        | ConnectionState::OpenPipe
        | ConnectionState::OpenClosePipe
        | ConnectionState::OpenReceived
        | ConnectionState::OpenSent => Some(ConnectionState::CloseReceived),
        ConnectionState::CloseSent | ConnectionState::Discarding => Some(ConnectionState::End),
        _ => None,
    }
}

/// How the peer's Close is answered, in the state that it led to.
fn answer_close(state: ConnectionState, error: Option<Error>) -> Result<(), ConnectionStateError>
    ensures { refusal_of result ≡ close_error state error }
{
    match error {
        Some(error) => Err(ConnectionStateError::RemoteClosedWithError(error)),
        None => match state {
            ConnectionState::CloseReceived => Err(ConnectionStateError::RemoteClosed),
            _ => Ok(()),
        },
    }
}

impl Connection {
    /// Sends this side's Open: gives the frame, on channel 0, and moves the state (AMQP 1.0 part 2, sections 2.4.6 and 2.7.1).
    ///
    /// It moves `HeaderExchange` to `OpenSent`, `OpenReceived` to `Opened`, and `HeaderSent` to `OpenPipe`. `IllegalState` in any other
    /// state. `OutOfMemory` where the copy of the Open is refused. Nothing changes then.
    pub fn send_open(&mut self) -> Result<Frame, ConnectionStateError>
        ensures { SendOpenStep self.old result self.new }
    {
        let Some(next) = after_sending_open(self.state) else {
            return Err(ConnectionStateError::IllegalState);
        };
        let Ok(open) = self.local_open.clone() else {
            return Err(ConnectionStateError::OutOfMemory);
        };
        self.state = next;
        Ok(Frame::new(0, FrameBody::Open(open)))
    }

    /// Takes the peer's Open: moves the state, agrees on the smaller channel-max, and keeps the Open (AMQP 1.0 part 2, sections 2.4.6 and
    /// 2.7.1). Takes no memory. The channel is not looked at.
    ///
    /// It moves `HeaderExchange` to `OpenReceived`, `OpenSent` to `Opened`, and `ClosePipe` to `CloseSent`. `IllegalState` in any other
    /// state. Nothing changes then.
    pub fn on_incoming_open(
        &mut self,
        _channel: IncomingChannel,
        open: Open,
    ) -> Result<(), ConnectionStateError>
        ensures { IncomingOpenStep self.old «open» (refusal_of result) self.new }
    {
        let Some(next) = after_incoming_open(self.state) else {
            drop(open);
            return Err(ConnectionStateError::IllegalState);
        };
        self.state = next;
        self.agreed_channel_max = self.local_open.channel_max.min(open.channel_max);
        let earlier = self.remote_open.replace(open);
        drop(earlier);
        Ok(())
    }

    /// Sends this side's Close, with an error or without: gives the frame, on channel 0, and moves the state (AMQP 1.0 part 2, sections
    /// 2.4.6 and 2.7.9). Takes no memory.
    ///
    /// Without an error it moves `Opened` to `CloseSent`, `OpenSent` to `ClosePipe`, and `OpenPipe` to `OpenClosePipe`; with an error it
    /// moves each of these to `Discarding`. It moves `CloseReceived` to `End`. `IllegalState` in any other state. Nothing changes then.
    pub fn send_close(&mut self, error: Option<Error>) -> Result<Frame, ConnectionStateError>
        ensures { SendCloseStep self.old error result self.new }
    {
        let Some(next) = after_sending_close(self.state, &error) else {
            return Err(ConnectionStateError::IllegalState);
        };
        self.state = next;
        Ok(Frame::new(0, FrameBody::Close(Close { error })))
    }

    /// The state to which a Close of the peer's would move (AMQP 1.0 part 2, section 2.4.6). `None` where
    /// [`Connection::on_incoming_close`] would be `IllegalState`.
    pub fn state_after_incoming_close(&self) -> Option<ConnectionState>
        ensures { result ≡ takes_close self.now.state }
    {
        after_incoming_close(self.state)
    }

    /// Takes the peer's Close and moves the state. Takes no memory. The channel is not looked at.
    ///
    /// It moves `Opened`, `OpenPipe`, `OpenClosePipe`, `OpenReceived` and `OpenSent` to `CloseReceived`, and `CloseSent` and `Discarding` to
    /// `End`. The answer is `RemoteClosedWithError` where the Close has an error, in each of these states. Without an error it is
    /// `RemoteClosed` where the state moved to `CloseReceived`, and `Ok` where it moved to `End`. The state moves in each case.
    /// `IllegalState` in any other state: nothing changes then.
    pub fn on_incoming_close(
        &mut self,
        _channel: IncomingChannel,
        close: Close,
    ) -> Result<(), ConnectionStateError>
        ensures { IncomingCloseStep self.old close (refusal_of result) self.new }
    {
        let Some(next) = self.state_after_incoming_close() else {
            return Err(ConnectionStateError::IllegalState);
        };
        self.state = next;
        answer_close(next, close.error)
    }
}
