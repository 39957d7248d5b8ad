//! The numbers of refusals.

ghost use Rattle.std.specs.Prelude.{◌≡◌};
ghost use Rattle.amqp_driver.specs.Refusals.{refusal_number, frame_number, state_number, inner_number, alloc_number, session_state_number, session_number, link_number};

use amqp_connection::{AllocSessionError, ConnectionInnerError, ConnectionStateError};
use amqp_engine::StepError;
use amqp_frames::Error as FrameError;
use amqp_session::{AllocLinkError, SessionInnerError, SessionStateError};

/// The number of a refusal. No number changes its meaning, and none is used again. 0 is none of them.
///
/// | | |
/// |---|---|
/// | 1 to 4 | `OutputWaiting`, `NoSession`, `SessionInUse`, `OutOfMemory` |
/// | 11 to 15 | `Frame`: `Io`, `DecodeError`, `NotImplemented`, `TooLarge`, `OutOfMemory` |
/// | 21 to 25 | `ConnectionState`: `IllegalState`, `RemoteClosed`, `RemoteClosedWithError`, `TransportError`, `OutOfMemory` |
/// | 31 to 37 | `Connection`: `TransportError`, `IllegalState`, `NotImplemented`, `NotFound`, `RemoteClosed`, `RemoteClosedWithError`, `OutOfMemory` |
/// | 41 to 44 | `AllocSession`: `ConnectionNotOpened`, `ConnectionStopped`, `ChannelMaxReached`, `OutOfMemory` |
/// | 51 to 55 | `SessionState`: `IllegalState`, `ConnectionStopped`, `RemoteEnded`, `RemoteEndedWithError`, `OutOfMemory` |
/// | 61 to 70 | `Session`: `UnattachedHandle`, `RemoteAttachingLinkNameNotFound`, `HandleInUse`, `IllegalState`, `ConnectionStopped`, `TransferFrameToSender`, `RemoteEnded`, `RemoteEndedWithError`, `UnknownTxnId`, `OutOfMemory` |
/// | 81 to 85 | `AllocLink`: `SessionNotMapped`, `SessionStopped`, `DuplicatedLinkName`, `HandlesExhausted`, `OutOfMemory` |
pub fn refusal_number(error: &StepError) -> u32
    ensures { result ≡ refusal_number error.now }
{
    match error {
        StepError::OutputWaiting => 1,
        StepError::NoSession => 2,
        StepError::SessionInUse => 3,
        StepError::OutOfMemory => 4,
        StepError::Frame(inner) => frame_number(inner),
        StepError::ConnectionState(inner) => state_number(inner),
        StepError::Connection(inner) => inner_number(inner),
        StepError::AllocSession(inner) => alloc_number(inner),
        StepError::SessionState(inner) => session_state_number(inner),
        StepError::Session(inner) => session_number(inner),
        StepError::AllocLink(inner) => link_number(inner),
    }
}

fn frame_number(error: &FrameError) -> u32
    ensures { result ≡ frame_number error.now }
{
    match error {
        FrameError::Io(_) => 11,
        FrameError::DecodeError => 12,
        FrameError::NotImplemented => 13,
        FrameError::TooLarge => 14,
        FrameError::OutOfMemory => 15,
    }
}

fn state_number(error: &ConnectionStateError) -> u32
    ensures { result ≡ state_number error.now }
{
    match error {
        ConnectionStateError::IllegalState => 21,
        ConnectionStateError::RemoteClosed => 22,
        ConnectionStateError::RemoteClosedWithError(_) => 23,
        ConnectionStateError::TransportError(_) => 24,
        ConnectionStateError::OutOfMemory => 25,
    }
}

fn inner_number(error: &ConnectionInnerError) -> u32
    ensures { result ≡ inner_number error.now }
{
    match error {
        ConnectionInnerError::TransportError(_) => 31,
        ConnectionInnerError::IllegalState => 32,
        ConnectionInnerError::NotImplemented(_) => 33,
        ConnectionInnerError::NotFound(_) => 34,
        ConnectionInnerError::RemoteClosed => 35,
        ConnectionInnerError::RemoteClosedWithError(_) => 36,
        ConnectionInnerError::OutOfMemory => 37,
    }
}

fn alloc_number(error: &AllocSessionError) -> u32
    ensures { result ≡ alloc_number error.now }
{
    match error {
        AllocSessionError::ConnectionNotOpened => 41,
        AllocSessionError::ConnectionStopped(_) => 42,
        AllocSessionError::ChannelMaxReached => 43,
        AllocSessionError::OutOfMemory => 44,
    }
}

fn session_state_number(error: &SessionStateError) -> u32
    ensures { result ≡ session_state_number error.now }
{
    match error {
        SessionStateError::IllegalState => 51,
        SessionStateError::ConnectionStopped(_) => 52,
        SessionStateError::RemoteEnded => 53,
        SessionStateError::RemoteEndedWithError(_) => 54,
        SessionStateError::OutOfMemory => 55,
    }
}

fn session_number(error: &SessionInnerError) -> u32
    ensures { result ≡ session_number error.now }
{
    match error {
        SessionInnerError::UnattachedHandle => 61,
        SessionInnerError::RemoteAttachingLinkNameNotFound => 62,
        SessionInnerError::HandleInUse => 63,
        SessionInnerError::IllegalState => 64,
        SessionInnerError::ConnectionStopped(_) => 65,
        SessionInnerError::TransferFrameToSender => 66,
        SessionInnerError::RemoteEnded => 67,
        SessionInnerError::RemoteEndedWithError(_) => 68,
        SessionInnerError::UnknownTxnId => 69,
        SessionInnerError::OutOfMemory => 70,
    }
}

fn link_number(error: &AllocLinkError) -> u32
    ensures { result ≡ link_number error.now }
{
    match error {
        AllocLinkError::SessionNotMapped => 81,
        AllocLinkError::SessionStopped(_) => 82,
        AllocLinkError::DuplicatedLinkName => 83,
        AllocLinkError::HandlesExhausted => 84,
        AllocLinkError::OutOfMemory => 85,
    }
}
