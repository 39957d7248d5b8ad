//! Words of a line that are names: roles, states and reasons.

use amqp_session::SessionStopReason;
use amqp_types::{Role, SessionState};
use test_support::reasons;

/// The role of this name.
pub fn role(name: &str) -> anyhow::Result<Role> {
    match name {
        "receiver" => Ok(Role::Receiver),
        "sender" => Ok(Role::Sender),
        _ => Err(anyhow::anyhow!("no role")),
    }
}

/// The state of this name.
pub fn state(name: &str) -> anyhow::Result<SessionState> {
    match name {
        "Unmapped" => Ok(SessionState::Unmapped),
        "BeginSent" => Ok(SessionState::BeginSent),
        "BeginReceived" => Ok(SessionState::BeginReceived),
        "Mapped" => Ok(SessionState::Mapped),
        "EndSent" => Ok(SessionState::EndSent),
        "EndReceived" => Ok(SessionState::EndReceived),
        "Discarding" => Ok(SessionState::Discarding),
        _ => Err(anyhow::anyhow!("no state of a session")),
    }
}

/// The reason of this name why a session stopped.
pub fn session_stop(name: &str) -> anyhow::Result<SessionStopReason> {
    match name {
        "Ended" => Ok(SessionStopReason::Ended),
        "EndedWithError" => Ok(SessionStopReason::EndedWithError),
        "RemoteEnded" => Ok(SessionStopReason::RemoteEnded),
        "RemoteEndedWithError" => Ok(SessionStopReason::RemoteEndedWithError),
        _ => Ok(SessionStopReason::ConnectionStopped(reasons::connection_stop(name)?)),
    }
}
