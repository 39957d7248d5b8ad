//! Why a call of a connection is refused.

ghost use Rattle.std.specs.Prelude.{◌≡◌};
ghost use Rattle.amqp_connection.specs.ConnectionErrors.{inner_of, error_of_state, error_of_inner, begin_of};

use amqp_session::{BeginError, ConnectionStopReason};
use amqp_types::Error as AmqpError;

/// Why a change of the connection's state is refused, or how the peer closed.
#[derive(Debug, Drop, PartialEq, thiserror::Error)]
pub enum ConnectionStateError {
    /// The state does not take this: nothing has changed.
    #[error("Illegal local state")]
    IllegalState,
    /// The peer closed the connection; its state has moved.
    #[error("Remote peer closed")]
    RemoteClosed,
    /// The peer closed the connection with this error; its state has moved.
    #[error("Remote peer closed connection with error {}", .0)]
    RemoteClosedWithError(AmqpError),
    /// The transport failed. No call of this crate answers it: the transport is the caller's.
    #[error("{0}")]
    TransportError(String),
    /// Memory was refused: nothing has changed.
    #[error("out of memory")]
    OutOfMemory,
}

/// Why a session gets no channel (AMQP 1.0 part 2, section 2.5.1). Nothing has changed.
#[derive(Clone, Copy, Debug, PartialEq, Eq, thiserror::Error)]
pub enum AllocSessionError {
    /// The state is `Start`, `HeaderSent`, `HeaderReceived` or `HeaderExchange`: no Open has come or gone out yet.
    #[error("The connection has not been opened")]
    ConnectionNotOpened,
    /// The state is `CloseSent`, `Discarding` or `End`. The reason is the recorded one, else `Closed`.
    #[error("The connection stopped: {:?}", .0)]
    ConnectionStopped(ConnectionStopReason),
    /// All channels up to the highest that both sides allow are held.
    #[error("Reached connection channel max")]
    ChannelMaxReached,
    /// Memory was refused: nothing has changed.
    #[error("out of memory")]
    OutOfMemory,
}

/// Why the connection does not pass a session's frame on.
#[derive(Debug, Drop, PartialEq, thiserror::Error)]
pub enum ConnectionInnerError {
    /// The transport failed. Only a conversion makes it.
    #[error("{0}")]
    TransportError(String),
    /// The state does not take this.
    #[error("Illegal local state")]
    IllegalState,
    /// The peer asks for something that is left out, such as a session that it begins itself.
    #[error("Not implemented {:?}", .0)]
    NotImplemented(Option<String>),
    /// No session is on this channel.
    #[error("Not found {:?}", .0)]
    NotFound(Option<String>),
    /// The peer closed the connection. Only a conversion makes it.
    #[error("Remote peer closed")]
    RemoteClosed,
    /// The peer closed the connection with this error. Only a conversion makes it.
    #[error("Remote peer closed connection with error {}", .0)]
    RemoteClosedWithError(AmqpError),
    /// Memory was refused.
    #[error("out of memory")]
    OutOfMemory,
}

impl From<ConnectionStateError> for ConnectionInnerError {
    ghost from_gives = { λ s e. e ≡ inner_of s };

    fn from(error: ConnectionStateError) -> ConnectionInnerError {
        match error {
            ConnectionStateError::IllegalState => ConnectionInnerError::IllegalState,
            ConnectionStateError::RemoteClosed => ConnectionInnerError::RemoteClosed,
            ConnectionStateError::RemoteClosedWithError(error) => {
                ConnectionInnerError::RemoteClosedWithError(error)
            }
            ConnectionStateError::TransportError(text) => {
                ConnectionInnerError::TransportError(text)
            }
            ConnectionStateError::OutOfMemory => ConnectionInnerError::OutOfMemory,
        }
    }
}

/// Why a connection fails, as a handle of it says.
#[derive(Debug, Drop, PartialEq, thiserror::Error)]
pub enum Error {
    /// The transport failed.
    #[error("{0}")]
    TransportError(String),
    /// The state does not take this.
    #[error("Illegal local state")]
    IllegalState,
    /// What is asked for is left out.
    #[error("Not implemented {:?}", .0)]
    NotImplemented(Option<String>),
    /// No session is on this channel.
    #[error("Not found {:?}", .0)]
    NotFound(Option<String>),
    /// What is asked for is not allowed.
    #[error("Not allowed {:?}", .0)]
    NotAllowed(Option<String>),
    /// The peer closed the connection.
    #[error("Remote peer closed")]
    RemoteClosed,
    /// The peer closed the connection with this error.
    #[error("Remote peer closed connection with error {}", .0)]
    RemoteClosedWithError(AmqpError),
    /// Memory was refused.
    #[error("out of memory")]
    OutOfMemory,
}

/// Why a handle does not give how the connection closed.
#[derive(Clone, Copy, Debug, PartialEq, Eq, thiserror::Error)]
pub enum TryCloseError {
    /// This handle has given the answer before.
    #[error("Illegal local state")]
    AlreadyClosed,
    /// The connection is not closed at both ends: its state is not `End`.
    #[error("The connection has not received a close frame from the remote peer")]
    RemoteCloseNotReceived,
}

impl From<ConnectionStateError> for Error {
    ghost from_gives = { λ s e. e ≡ error_of_state s };

    fn from(error: ConnectionStateError) -> Error {
        match error {
            ConnectionStateError::IllegalState => Error::IllegalState,
            ConnectionStateError::RemoteClosed => Error::RemoteClosed,
            ConnectionStateError::RemoteClosedWithError(error) => {
                Error::RemoteClosedWithError(error)
            }
            ConnectionStateError::TransportError(text) => Error::TransportError(text),
            ConnectionStateError::OutOfMemory => Error::OutOfMemory,
        }
    }
}

impl From<ConnectionInnerError> for Error {
    ghost from_gives = { λ i e. e ≡ error_of_inner i };

    fn from(error: ConnectionInnerError) -> Error {
        match error {
            ConnectionInnerError::TransportError(text) => Error::TransportError(text),
            ConnectionInnerError::IllegalState => Error::IllegalState,
            ConnectionInnerError::NotImplemented(text) => Error::NotImplemented(text),
            ConnectionInnerError::NotFound(text) => Error::NotFound(text),
            ConnectionInnerError::RemoteClosed => Error::RemoteClosed,
            ConnectionInnerError::RemoteClosedWithError(error) => {
                Error::RemoteClosedWithError(error)
            }
            ConnectionInnerError::OutOfMemory => Error::OutOfMemory,
        }
    }
}

impl AllocSessionError {
    /// Why the session does not begin. `BeginError::from` gives the same, where this crate is named in `crates.txt`.
    pub fn begin_error(self) -> BeginError
        ensures { result ≡ begin_of self }
    {
        BeginError::from(self)
    }
}

impl From<AllocSessionError> for BeginError {
    ghost from_gives = { λ a e. e ≡ begin_of a };

    fn from(error: AllocSessionError) -> BeginError {
        match error {
            AllocSessionError::ConnectionNotOpened => BeginError::ConnectionNotOpened,
            AllocSessionError::ConnectionStopped(reason) => BeginError::ConnectionStopped(reason),
            AllocSessionError::ChannelMaxReached => BeginError::LocalChannelMaxReached,
            AllocSessionError::OutOfMemory => BeginError::OutOfMemory,
        }
    }
}
