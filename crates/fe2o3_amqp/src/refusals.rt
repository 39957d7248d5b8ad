//! How a refused frame is answered: the condition, and the frame that carries it to the peer.

ghost use Rattle.std.specs.Prelude.{◌≡◌};
ghost use Rattle.fe2o3_amqp.specs.Refusals.{answer_of, step_answer, frame_answer, state_answer, connection_answer, session_state_answer, session_answer, has_closed};

use crate::conditions::ErrorCondition;
use amqp_connection::{ConnectionInnerError, ConnectionStateError};
use amqp_engine::StepError;
use amqp_frames::Error as FrameError;
use amqp_session::{SessionInnerError, SessionStateError};
use amqp_types::ConnectionState;

/// How a refused frame is answered. [`ErrorCondition::to_error`] makes the error of its condition.
///
/// ```
/// match answer_to(&error, *engine.connection().local_state()) {
///     Some(PeerAnswer::End(condition)) => {
///         let error = condition.to_error(alloc)?;
///         inputs.push_back(Input::End(number, Some(error)))?; // the session of the frame's channel
///     }
///     Some(PeerAnswer::Close(condition)) => {
///         let error = condition.to_error(alloc)?;
///         inputs.push_back(Input::Close(Some(error)))?;
///     }
///     None => {}
/// }
/// ```
#[derive(Clone, Copy, Debug, PartialEq, Eq)]
pub enum PeerAnswer {
    /// The session to which the frame went is ended with this condition: `Input::End` (AMQP 1.0 part 2, section 2.7.8).
    End(ErrorCondition),
    /// The connection is closed with this condition: `Input::Close` (part 2, section 2.7.9).
    Close(ErrorCondition),
}

/// How a received frame is answered that was refused with this error, where the connection is in this state (AMQP 1.0 part 2,
/// sections 2.7.8, 2.7.9 and 2.8.15 to 2.8.17). `docs/PROTOCOL.md` has it as a table.
///
/// `None` where no answer is due:
///
/// - after this side's Close, where what comes is passed over (section 2.4.6): in `ClosePipe`, `OpenClosePipe`, `CloseSent`,
///   `Discarding` and `End`;
/// - where the peer ended the session or closed the connection: then this side's own End or Close is due, without an error;
/// - where the transport failed;
/// - and where only a request of this side's is refused so.
///
/// Call it for received frames alone. A request of this side's is refused with some of the same errors, of which the peer is not
/// informed.
///
/// The session of an `End` is that of the frame's channel: `Connection::session_tx_by_incoming_channel`. The engine refuses an End of
/// a session that this side has ended, and a Close before this side's Open; nothing goes out then. So a side that has sent no Open
/// requests that first.
pub fn answer_to(error: &StepError, state: ConnectionState) -> Option<PeerAnswer>
    ensures { result ≡ answer_of error.now state }
{
    if has_closed(state) {
        return None;
    }
    step_answer(error)
}

fn step_answer(error: &StepError) -> Option<PeerAnswer>
    ensures { result ≡ step_answer error.now }
{
    match error {
        StepError::Frame(inner) => frame_answer(inner),
        StepError::ConnectionState(inner) => state_answer(inner),
        StepError::Connection(inner) => connection_answer(inner),
        StepError::SessionState(inner) => session_state_answer(inner),
        StepError::Session(inner) => session_answer(inner),
        StepError::OutOfMemory => Some(PeerAnswer::Close(ErrorCondition::ResourceLimitExceeded)),
        StepError::OutputWaiting
        | StepError::AllocSession(_)
        | StepError::AllocLink(_)
        | StepError::NoSession
        | StepError::SessionInUse => None,
    }
}

fn frame_answer(error: &FrameError) -> Option<PeerAnswer>
    ensures { result ≡ frame_answer error.now }
{
    match error {
        FrameError::DecodeError => Some(PeerAnswer::Close(ErrorCondition::DecodeError)),
        FrameError::NotImplemented => Some(PeerAnswer::Close(ErrorCondition::NotImplemented)),
        FrameError::OutOfMemory => Some(PeerAnswer::Close(ErrorCondition::ResourceLimitExceeded)),
        FrameError::Io(_) | FrameError::TooLarge => None,
    }
}

fn state_answer(error: &ConnectionStateError) -> Option<PeerAnswer>
    ensures { result ≡ state_answer error.now }
{
    match error {
        ConnectionStateError::IllegalState => Some(PeerAnswer::Close(ErrorCondition::IllegalState)),
        ConnectionStateError::RemoteClosed
        | ConnectionStateError::RemoteClosedWithError(_)
        | ConnectionStateError::TransportError(_)
        | ConnectionStateError::OutOfMemory => None,
    }
}

fn connection_answer(error: &ConnectionInnerError) -> Option<PeerAnswer>
    ensures { result ≡ connection_answer error.now }
{
    match error {
        ConnectionInnerError::IllegalState => Some(PeerAnswer::Close(ErrorCondition::IllegalState)),
        ConnectionInnerError::NotImplemented(_) => {
            Some(PeerAnswer::Close(ErrorCondition::NotImplemented))
        }
        ConnectionInnerError::NotFound(_) => Some(PeerAnswer::Close(ErrorCondition::NotFound)),
        ConnectionInnerError::OutOfMemory => {
            Some(PeerAnswer::Close(ErrorCondition::ResourceLimitExceeded))
        }
        ConnectionInnerError::TransportError(_)
        | ConnectionInnerError::RemoteClosed
        | ConnectionInnerError::RemoteClosedWithError(_) => None,
    }
}

fn session_state_answer(error: &SessionStateError) -> Option<PeerAnswer>
    ensures { result ≡ session_state_answer error.now }
{
    match error {
        SessionStateError::IllegalState => Some(PeerAnswer::End(ErrorCondition::IllegalState)),
        SessionStateError::ConnectionStopped(_)
        | SessionStateError::RemoteEnded
        | SessionStateError::RemoteEndedWithError(_)
        | SessionStateError::OutOfMemory => None,
    }
}

fn session_answer(error: &SessionInnerError) -> Option<PeerAnswer>
    ensures { result ≡ session_answer error.now }
{
    match error {
        SessionInnerError::UnattachedHandle => {
            Some(PeerAnswer::End(ErrorCondition::UnattachedHandle))
        }
        SessionInnerError::RemoteAttachingLinkNameNotFound => {
            Some(PeerAnswer::End(ErrorCondition::NotFound))
        }
        SessionInnerError::HandleInUse => Some(PeerAnswer::End(ErrorCondition::HandleInUse)),
        SessionInnerError::TransferFrameToSender => {
            Some(PeerAnswer::End(ErrorCondition::NotAllowed))
        }
        SessionInnerError::UnknownTxnId => {
            Some(PeerAnswer::End(ErrorCondition::UnknownTransaction))
        }
        SessionInnerError::OutOfMemory => {
            Some(PeerAnswer::End(ErrorCondition::ResourceLimitExceeded))
        }
        SessionInnerError::IllegalState
        | SessionInnerError::ConnectionStopped(_)
        | SessionInnerError::RemoteEnded
        | SessionInnerError::RemoteEndedWithError(_) => None,
    }
}

/// Whether this side's Close went out, so that nothing more may.
fn has_closed(state: ConnectionState) -> bool
    ensures { result ≡ has_closed state }
{
    matches!(
        state,
        ConnectionState::ClosePipe
            | ConnectionState::OpenClosePipe
            | ConnectionState::CloseSent
            | ConnectionState::Discarding
            | ConnectionState::End
    )
}
