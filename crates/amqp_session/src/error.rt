//! Why a call of a session is refused.

ghost use Rattle.std.specs.Prelude.{◌≡◌};
ghost use Rattle.amqp_session.specs.Errors.{inner_of_state, inner_of_relay, error_of_inner, error_of_state, error_of_relay, begin_of_state};

use crate::stop::{ConnectionStopReason, SessionStopReason};
use amqp_types::Error as ErrorCondition;

/// Why a Begin or an End is refused, or how the peer ended the session (AMQP 1.0 part 2, section 2.5.5).
#[derive(Debug, Drop, PartialEq, thiserror::Error)]
pub enum SessionStateError {
    /// The state does not allow the call.
    #[error("Illegal session state")]
    IllegalState,
    /// The connection stopped before. No call of a session answers it.
    #[error("The connection stopped: {:?}", .0)]
    ConnectionStopped(ConnectionStopReason),
    /// The peer ended the session.
    #[error("Remote session ended")]
    RemoteEnded,
    /// The peer ended the session with an error.
    #[error("Remote ended with error")]
    RemoteEndedWithError(ErrorCondition),
    /// Memory was refused.
    #[error("out of memory")]
    OutOfMemory,
}

/// Why a link gets no handle. Nothing has changed.
#[derive(Clone, Copy, Debug, PartialEq, Eq, thiserror::Error)]
pub enum AllocLinkError {
    /// The session is in `Unmapped`, `BeginSent` or `BeginReceived`, and no stop reason is recorded.
    #[error("The session is not in a state that permits link allocation")]
    SessionNotMapped,
    /// The session is not in `Mapped`, and stopped for this reason; `Ended` where none is recorded and an End was sent or received.
    #[error("The session stopped before the link was attached: {:?}", .0)]
    SessionStopped(SessionStopReason),
    /// A live link has the name.
    #[error("Link name must be unique")]
    DuplicatedLinkName,
    /// No handle of four bytes is left.
    #[error("No output handle is left")]
    HandlesExhausted,
    /// Memory was refused.
    #[error("out of memory")]
    OutOfMemory,
}

/// Why a relay refuses what it is asked.
#[derive(Clone, Copy, Debug, PartialEq, Eq, thiserror::Error)]
pub enum LinkRelayError {
    /// The relay says that the link is not attached.
    #[error("A frame was received for a link that is not attached")]
    UnattachedHandle,
    /// A transfer came to the sending end of a link.
    #[error("Found Transfer frame being sent to a Sender")]
    TransferFrameToSender,
    /// Memory was refused.
    #[error("out of memory")]
    OutOfMemory,
}

/// Why any other call of a session is refused. The peer's ending and the connection's stop come of a conversion alone, from
/// [`SessionStateError`].
#[derive(Debug, Drop, PartialEq, thiserror::Error)]
pub enum SessionInnerError {
    /// The input handle has no attached link.
    #[error("A frame (other than attach) was received referencing a handle which is not currently in use of an attached link.")]
    UnattachedHandle,
    /// No live link of this side has the name of the peer's attach.
    #[error("Remote sent an attach with a name that cannot be found locally")]
    RemoteAttachingLinkNameNotFound,
    /// No relay waits under the name of the peer's attach: its link is attached already, or has no relay.
    #[error("An attach was received using a handle that is already in use for an attached link.")]
    HandleInUse,
    /// The state does not allow the call, or the first transfer of a delivery has no tag. Nothing has changed.
    #[error("Illegal session state")]
    IllegalState,
    /// The connection stopped before.
    #[error("The connection stopped: {:?}", .0)]
    ConnectionStopped(ConnectionStopReason),
    /// A transfer came to the sending end of a link.
    #[error("Found Transfer frame being sent to a Sender")]
    TransferFrameToSender,
    /// The peer ended the session.
    #[error("Remote session ended")]
    RemoteEnded,
    /// The peer ended the session with an error.
    #[error("Remote ended with error")]
    RemoteEndedWithError(ErrorCondition),
    /// No transaction has the number (AMQP 1.0 part 4, section 4.5.8). No call of a session answers it.
    #[error("Unknown transaction ID")]
    UnknownTxnId,
    /// Memory was refused.
    #[error("out of memory")]
    OutOfMemory,
}

/// What a handle of a session answers: why it notes no request, or how the peer's End was answered.
#[derive(Debug, Drop, PartialEq, thiserror::Error)]
pub enum Error {
    /// The input handle has no attached link.
    #[error("A frame (other than attach) was received referencing a handle which is not currently in use of an attached link.")]
    UnattachedHandle,
    /// No live link of this side has the name of the peer's attach.
    #[error("Remote sent an attach with a name that cannot be found locally")]
    RemoteAttachingLinkNameNotFound,
    /// No relay waits under the name of the peer's attach: its link is attached already, or has no relay.
    #[error("An attach was received using a handle that is already in use for an attached link.")]
    HandleInUse,
    /// The state does not allow the call.
    #[error("Illegal session state")]
    IllegalState,
    /// The connection stopped before.
    #[error("The connection stopped: {:?}", .0)]
    ConnectionStopped(ConnectionStopReason),
    /// A transfer came to the sending end of a link.
    #[error("Found Transfer frame being sent to a Sender")]
    TransferFrameToSender,
    /// The peer ended the session.
    #[error("Remote session ended")]
    RemoteEnded,
    /// The peer ended the session with an error.
    #[error("Remote ended with error")]
    RemoteEndedWithError(ErrorCondition),
    /// No transaction has the number.
    #[error("Unknown transaction ID")]
    UnknownTxnId,
    /// Memory was refused.
    #[error("out of memory")]
    OutOfMemory,
}

/// Why a session does not begin.
#[derive(Debug, Drop, PartialEq, thiserror::Error)]
pub enum BeginError {
    /// The state does not allow a Begin.
    #[error("Illegal session state")]
    IllegalState,
    /// The connection stopped.
    #[error("The connection stopped: {:?}", .0)]
    ConnectionStopped(ConnectionStopReason),
    /// The connection has not been opened yet.
    #[error("The connection has not been opened")]
    ConnectionNotOpened,
    /// The peer ended the session.
    #[error("Remote session ended")]
    RemoteEnded,
    /// The peer ended the session with an error.
    #[error("Remote ended with error")]
    RemoteEndedWithError(ErrorCondition),
    /// Every channel up to the agreed maximum is held.
    #[error("Local channel-max reached")]
    LocalChannelMaxReached,
    /// Memory was refused.
    #[error("out of memory")]
    OutOfMemory,
}

/// Why a handle does not give how the session ended.
#[derive(Clone, Copy, Debug, PartialEq, Eq, thiserror::Error)]
pub enum TryEndError {
    /// This handle has given the answer before.
    #[error("Session is already ended")]
    AlreadyEnded,
    /// The session is not ended at both ends: its state is not `Unmapped`.
    #[error("The session has not received a remote end frame")]
    RemoteEndNotReceived,
}

impl From<SessionStateError> for SessionInnerError {
    ghost from_gives = { λ e x. x ≡ inner_of_state e };

    fn from(error: SessionStateError) -> SessionInnerError {
        match error {
            SessionStateError::IllegalState => SessionInnerError::IllegalState,
            SessionStateError::ConnectionStopped(reason) => {
                SessionInnerError::ConnectionStopped(reason)
            }
            SessionStateError::RemoteEnded => SessionInnerError::RemoteEnded,
            SessionStateError::RemoteEndedWithError(condition) => {
                SessionInnerError::RemoteEndedWithError(condition)
            }
            SessionStateError::OutOfMemory => SessionInnerError::OutOfMemory,
        }
    }
}

impl From<LinkRelayError> for SessionInnerError {
    ghost from_gives = { λ e x. x ≡ inner_of_relay e };

    fn from(error: LinkRelayError) -> SessionInnerError {
        match error {
            LinkRelayError::UnattachedHandle => SessionInnerError::UnattachedHandle,
            LinkRelayError::TransferFrameToSender => SessionInnerError::TransferFrameToSender,
            LinkRelayError::OutOfMemory => SessionInnerError::OutOfMemory,
        }
    }
}

impl From<SessionInnerError> for Error {
    ghost from_gives = { λ e x. x ≡ error_of_inner e };

    fn from(error: SessionInnerError) -> Error {
        match error {
            SessionInnerError::UnattachedHandle => Error::UnattachedHandle,
            SessionInnerError::RemoteAttachingLinkNameNotFound => {
                Error::RemoteAttachingLinkNameNotFound
            }
            SessionInnerError::HandleInUse => Error::HandleInUse,
            SessionInnerError::IllegalState => Error::IllegalState,
            SessionInnerError::ConnectionStopped(reason) => Error::ConnectionStopped(reason),
            SessionInnerError::TransferFrameToSender => Error::TransferFrameToSender,
            SessionInnerError::RemoteEnded => Error::RemoteEnded,
            SessionInnerError::RemoteEndedWithError(condition) => {
                Error::RemoteEndedWithError(condition)
            }
            SessionInnerError::UnknownTxnId => Error::UnknownTxnId,
            SessionInnerError::OutOfMemory => Error::OutOfMemory,
        }
    }
}

impl From<LinkRelayError> for Error {
    ghost from_gives = { λ e x. x ≡ error_of_relay e };

    fn from(error: LinkRelayError) -> Error {
        Error::from(SessionInnerError::from(error))
    }
}

impl From<SessionStateError> for Error {
    ghost from_gives = { λ e x. x ≡ error_of_state e };

    fn from(error: SessionStateError) -> Error {
        Error::from(SessionInnerError::from(error))
    }
}

impl From<SessionStateError> for BeginError {
    ghost from_gives = { λ e x. x ≡ begin_of_state e };

    fn from(error: SessionStateError) -> BeginError {
        match error {
            SessionStateError::IllegalState => BeginError::IllegalState,
            SessionStateError::ConnectionStopped(reason) => BeginError::ConnectionStopped(reason),
            SessionStateError::RemoteEnded => BeginError::RemoteEnded,
            SessionStateError::RemoteEndedWithError(condition) => {
                BeginError::RemoteEndedWithError(condition)
            }
            SessionStateError::OutOfMemory => BeginError::OutOfMemory,
        }
    }
}
