//! What a line names: the state of a connection, its Open, a performative on a channel, a role, and why a session stopped.

use fe2o3_amqp::{ConnectionState, Open, Performative, Role, SessionStopReason};
use std::alloc::Global;
use test_support::{digits, open_of, reasons, words};

/// The state of this name.
pub fn state(name: &str) -> anyhow::Result<ConnectionState> {
    match name {
        "Start" => Ok(ConnectionState::Start),
        "HeaderReceived" => Ok(ConnectionState::HeaderReceived),
        "HeaderSent" => Ok(ConnectionState::HeaderSent),
        "HeaderExchange" => Ok(ConnectionState::HeaderExchange),
        "OpenPipe" => Ok(ConnectionState::OpenPipe),
        "OpenClosePipe" => Ok(ConnectionState::OpenClosePipe),
        "OpenReceived" => Ok(ConnectionState::OpenReceived),
        "OpenSent" => Ok(ConnectionState::OpenSent),
        "ClosePipe" => Ok(ConnectionState::ClosePipe),
        _ => later_state(name),
    }
}

/// The same for the states from `Opened` on.
fn later_state(name: &str) -> anyhow::Result<ConnectionState> {
    match name {
        "Opened" => Ok(ConnectionState::Opened),
        "CloseReceived" => Ok(ConnectionState::CloseReceived),
        "CloseSent" => Ok(ConnectionState::CloseSent),
        "Discarding" => Ok(ConnectionState::Discarding),
        "End" => Ok(ConnectionState::End),
        _ => Err(anyhow::anyhow!("no state of a connection")),
    }
}

/// An Open with this name and the limits of a transcript's engine, and nothing else.
pub fn open(alloc: Global, name: &str) -> anyhow::Result<Open> {
    Ok(open_of(String::from_str(alloc, name)?))
}

/// A channel, and the performative after it.
pub fn on_channel(alloc: Global, text: &str) -> anyhow::Result<(u16, Performative)> {
    let Some((number, text)) = text.split_once(' ') else {
        anyhow::bail!("no channel");
    };
    let channel = words::channel(number)?;
    let (performative, rest) = digits::performative(alloc, text)?;
    drop(rest);
    Ok((channel, performative))
}

/// The role of this name.
pub fn role(name: &str) -> anyhow::Result<Role> {
    match name {
        "receiver" => Ok(Role::Receiver),
        "sender" => Ok(Role::Sender),
        _ => Err(anyhow::anyhow!("no role")),
    }
}

/// The reason of this name why a session stopped.
pub fn session_stop(name: &str) -> anyhow::Result<SessionStopReason> {
    match name {
        "Ended" => Ok(SessionStopReason::Ended),
        "EndedWithError" => Ok(SessionStopReason::EndedWithError),
        "RemoteEnded" => Ok(SessionStopReason::RemoteEnded),
        "RemoteEndedWithError" => Ok(SessionStopReason::RemoteEndedWithError),
        _ => Ok(SessionStopReason::ConnectionStopped(reasons::connection_stop(name)?)),
    }
}
