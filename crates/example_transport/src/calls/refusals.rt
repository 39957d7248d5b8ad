//! What the peer is told of each refusal, and in which states nothing.

use fe2o3_amqp::definitions::Error;
use fe2o3_amqp::frames::Error as FrameError;
use fe2o3_amqp::{
    AllocLinkError, AllocSessionError, ConnectionInnerError, ConnectionState, ConnectionStateError,
    ConnectionStopReason, ErrorCondition, PeerAnswer, SessionInnerError, SessionStateError,
    StepError, answer_to, err_name,
};
use std::io;

/// Prints what the peer is told of each refusal, where the connection is open.
pub fn refusals(rt: &HostRuntime) -> io::Result<()> {
    engine(rt)?;
    frames(rt)?;
    connection_states(rt)?;
    connection(rt)?;
    session_states(rt)?;
    session(rt)?;
    session_ended(rt)
}

fn engine(rt: &HostRuntime) -> io::Result<()> {
    tell(rt, "", StepError::OutputWaiting)?;
    tell(rt, "", StepError::NoSession)?;
    tell(rt, "", StepError::SessionInUse)?;
    tell(rt, "", StepError::OutOfMemory)?;
    let channels = StepError::AllocSession(AllocSessionError::ChannelMaxReached);
    tell(rt, "AllocSession ", channels)?;
    let handles = StepError::AllocLink(AllocLinkError::HandlesExhausted);
    tell(rt, "AllocLink ", handles)
}

fn frames(rt: &HostRuntime) -> io::Result<()> {
    frame(rt, FrameError::Io(String::new(rt.alloc())))?;
    frame(rt, FrameError::DecodeError)?;
    frame(rt, FrameError::NotImplemented)?;
    frame(rt, FrameError::TooLarge)?;
    frame(rt, FrameError::OutOfMemory)
}

fn frame(rt: &HostRuntime, error: FrameError) -> io::Result<()> {
    tell(rt, "Frame ", StepError::Frame(error))
}

fn connection_states(rt: &HostRuntime) -> io::Result<()> {
    connection_state(rt, ConnectionStateError::IllegalState)?;
    connection_state(rt, ConnectionStateError::RemoteClosed)?;
    connection_state(rt, ConnectionStateError::RemoteClosedWithError(error(rt)?))?;
    let failed = ConnectionStateError::TransportError(String::new(rt.alloc()));
    connection_state(rt, failed)?;
    connection_state(rt, ConnectionStateError::OutOfMemory)
}

fn connection_state(rt: &HostRuntime, error: ConnectionStateError) -> io::Result<()> {
    tell(rt, "ConnectionState ", StepError::ConnectionState(error))
}

fn connection(rt: &HostRuntime) -> io::Result<()> {
    let failed = ConnectionInnerError::TransportError(String::new(rt.alloc()));
    passed_on(rt, failed)?;
    passed_on(rt, ConnectionInnerError::IllegalState)?;
    passed_on(rt, ConnectionInnerError::NotImplemented(None))?;
    passed_on(rt, ConnectionInnerError::NotFound(None))?;
    passed_on(rt, ConnectionInnerError::RemoteClosed)?;
    passed_on(rt, ConnectionInnerError::RemoteClosedWithError(error(rt)?))?;
    passed_on(rt, ConnectionInnerError::OutOfMemory)
}

fn passed_on(rt: &HostRuntime, error: ConnectionInnerError) -> io::Result<()> {
    tell(rt, "Connection ", StepError::Connection(error))
}

fn session_states(rt: &HostRuntime) -> io::Result<()> {
    let reason = ConnectionStopReason::Closed;
    session_state(rt, SessionStateError::IllegalState)?;
    session_state(rt, SessionStateError::ConnectionStopped(reason))?;
    session_state(rt, SessionStateError::RemoteEnded)?;
    session_state(rt, SessionStateError::RemoteEndedWithError(error(rt)?))?;
    session_state(rt, SessionStateError::OutOfMemory)
}

fn session_state(rt: &HostRuntime, error: SessionStateError) -> io::Result<()> {
    tell(rt, "SessionState ", StepError::SessionState(error))
}

fn session(rt: &HostRuntime) -> io::Result<()> {
    of_session(rt, SessionInnerError::UnattachedHandle)?;
    of_session(rt, SessionInnerError::RemoteAttachingLinkNameNotFound)?;
    of_session(rt, SessionInnerError::HandleInUse)?;
    of_session(rt, SessionInnerError::IllegalState)?;
    of_session(rt, SessionInnerError::TransferFrameToSender)?;
    of_session(rt, SessionInnerError::UnknownTxnId)?;
    of_session(rt, SessionInnerError::OutOfMemory)
}

fn session_ended(rt: &HostRuntime) -> io::Result<()> {
    let reason = ConnectionStopReason::Closed;
    of_session(rt, SessionInnerError::ConnectionStopped(reason))?;
    of_session(rt, SessionInnerError::RemoteEnded)?;
    of_session(rt, SessionInnerError::RemoteEndedWithError(error(rt)?))
}

fn of_session(rt: &HostRuntime, error: SessionInnerError) -> io::Result<()> {
    tell(rt, "Session ", StepError::Session(error))
}

/// An error of the peer's.
fn error(rt: &HostRuntime) -> io::Result<Error> {
    Ok(ErrorCondition::ConnectionForced.to_error(rt.alloc())?)
}

fn tell(rt: &HostRuntime, of: &str, error: StepError) -> io::Result<()> {
    let name = err_name(&error);
    let answer = answer_to(&error, ConnectionState::Opened);
    drop(error);
    match answer {
        Some(PeerAnswer::End(condition)) => println!(rt; "{of}{name}: End {}", condition.as_str()),
        Some(PeerAnswer::Close(condition)) => {
            println!(rt; "{of}{name}: Close {}", condition.as_str())
        }
        None => println!(rt; "{of}{name}: nothing"),
    }
}

/// Prints in which states of the connection the peer is told of a malformed frame.
pub fn states(rt: &HostRuntime) -> io::Result<()> {
    for state in [
        ConnectionState::Start,
        ConnectionState::HeaderReceived,
        ConnectionState::HeaderSent,
        ConnectionState::HeaderExchange,
        ConnectionState::OpenPipe,
        ConnectionState::OpenClosePipe,
        ConnectionState::OpenReceived,
        ConnectionState::OpenSent,
        ConnectionState::ClosePipe,
        ConnectionState::Opened,
        ConnectionState::CloseReceived,
        ConnectionState::CloseSent,
        ConnectionState::Discarding,
        ConnectionState::End,
    ] {
        state_told(rt, state)?;
    }
    Ok(())
}

fn state_told(rt: &HostRuntime, state: ConnectionState) -> io::Result<()> {
    let error = StepError::Frame(FrameError::DecodeError);
    let is_told = answer_to(&error, state).is_some();
    drop(error);
    println!(rt; "{state:?}: {}", if is_told { "told" } else { "nothing" })
}
