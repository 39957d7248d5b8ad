//! The names of refusals.

ghost use Rattle.std.specs.Prelude.{◌≡◌};
ghost use Rattle.fe2o3_amqp.specs.Transcript.{name_of, frame_name, state_name, inner_name, alloc_name, session_state_name, session_name, link_name};

use amqp_connection::{AllocSessionError, ConnectionInnerError, ConnectionStateError};
use amqp_engine::StepError;
use amqp_frames::Error as FrameError;
use amqp_session::{AllocLinkError, SessionInnerError, SessionStateError};

/// The name of the refusal: that of its innermost variant.
pub fn err_name(error: &StepError) -> &'static str
    ensures { result.now ≡ name_of error.now }
{
    match error {
        StepError::OutputWaiting => "OutputWaiting",
        StepError::Frame(inner) => frame_name(inner),
        StepError::ConnectionState(inner) => state_name(inner),
        StepError::Connection(inner) => inner_name(inner),
        StepError::AllocSession(inner) => alloc_name(inner),
        StepError::SessionState(inner) => session_state_name(inner),
        StepError::Session(inner) => session_name(inner),
        StepError::AllocLink(inner) => link_name(inner),
        StepError::SessionInUse => "SessionInUse",
        StepError::NoSession => "NoSession",
        StepError::OutOfMemory => "OutOfMemory",
    }
}

fn frame_name(error: &FrameError) -> &'static str
    ensures { result.now ≡ frame_name error.now }
{
    match error {
        FrameError::Io(_) => "Io",
        FrameError::DecodeError => "DecodeError",
        FrameError::NotImplemented => "NotImplemented",
        FrameError::TooLarge => "TooLarge",
        FrameError::OutOfMemory => "OutOfMemory",
    }
}

fn state_name(error: &ConnectionStateError) -> &'static str
    ensures { result.now ≡ state_name error.now }
{
    match error {
        ConnectionStateError::IllegalState => "IllegalState",
        ConnectionStateError::RemoteClosed => "RemoteClosed",
        ConnectionStateError::RemoteClosedWithError(_) => "RemoteClosedWithError",
        ConnectionStateError::TransportError(_) => "TransportError",
        ConnectionStateError::OutOfMemory => "OutOfMemory",
    }
}

fn inner_name(error: &ConnectionInnerError) -> &'static str
    ensures { result.now ≡ inner_name error.now }
{
    match error {
        ConnectionInnerError::TransportError(_) => "TransportError",
        ConnectionInnerError::IllegalState => "IllegalState",
        ConnectionInnerError::NotImplemented(_) => "NotImplemented",
        ConnectionInnerError::NotFound(_) => "NotFound",
        ConnectionInnerError::RemoteClosed => "RemoteClosed",
        ConnectionInnerError::RemoteClosedWithError(_) => "RemoteClosedWithError",
        ConnectionInnerError::OutOfMemory => "OutOfMemory",
    }
}

fn alloc_name(error: &AllocSessionError) -> &'static str
    ensures { result.now ≡ alloc_name error.now }
{
    match error {
        AllocSessionError::ConnectionNotOpened => "ConnectionNotOpened",
        AllocSessionError::ConnectionStopped(_) => "ConnectionStopped",
        AllocSessionError::ChannelMaxReached => "ChannelMaxReached",
        AllocSessionError::OutOfMemory => "OutOfMemory",
    }
}

fn link_name(error: &AllocLinkError) -> &'static str
    ensures { result.now ≡ link_name error.now }
{
    match error {
        AllocLinkError::SessionNotMapped => "SessionNotMapped",
        AllocLinkError::SessionStopped(_) => "SessionStopped",
        AllocLinkError::DuplicatedLinkName => "DuplicatedLinkName",
        AllocLinkError::HandlesExhausted => "HandlesExhausted",
        AllocLinkError::OutOfMemory => "OutOfMemory",
    }
}

fn session_state_name(error: &SessionStateError) -> &'static str
    ensures { result.now ≡ session_state_name error.now }
{
    match error {
        SessionStateError::IllegalState => "IllegalState",
        SessionStateError::ConnectionStopped(_) => "ConnectionStopped",
        SessionStateError::RemoteEnded => "RemoteEnded",
        SessionStateError::RemoteEndedWithError(_) => "RemoteEndedWithError",
        SessionStateError::OutOfMemory => "OutOfMemory",
    }
}

fn session_name(error: &SessionInnerError) -> &'static str
    ensures { result.now ≡ session_name error.now }
{
    match error {
        SessionInnerError::UnattachedHandle => "UnattachedHandle",
        SessionInnerError::RemoteAttachingLinkNameNotFound => "RemoteAttachingLinkNameNotFound",
        SessionInnerError::HandleInUse => "HandleInUse",
        SessionInnerError::IllegalState => "IllegalState",
        SessionInnerError::ConnectionStopped(_) => "ConnectionStopped",
        SessionInnerError::TransferFrameToSender => "TransferFrameToSender",
        SessionInnerError::RemoteEnded => "RemoteEnded",
        SessionInnerError::RemoteEndedWithError(_) => "RemoteEndedWithError",
        SessionInnerError::UnknownTxnId => "UnknownTxnId",
        SessionInnerError::OutOfMemory => "OutOfMemory",
    }
}
