//! Errors by their conditions, and why a connection stopped by its name.

use amqp_session::ConnectionStopReason;
use amqp_types::{Error, Symbol};
use std::alloc::Global;

/// The symbol of this text.
pub fn symbol(alloc: Global, text: &str) -> anyhow::Result<Symbol> {
    match Symbol::new(String::from_str(alloc, text)?) {
        Some(symbol) => Ok(symbol),
        None => Err(anyhow::anyhow!("no symbol")),
    }
}

/// An error of this condition; none where the text is empty.
pub fn error(alloc: Global, condition: &str) -> anyhow::Result<Option<Error>> {
    if condition.is_empty() {
        return Ok(None);
    }
    Ok(Some(Error::new(symbol(alloc, condition)?)))
}

/// The reason of this name why a connection stopped.
pub fn connection_stop(name: &str) -> anyhow::Result<ConnectionStopReason> {
    match name {
        "Closed" => Ok(ConnectionStopReason::Closed),
        "ClosedWithError" => Ok(ConnectionStopReason::ClosedWithError),
        "RemoteClosed" => Ok(ConnectionStopReason::RemoteClosed),
        "RemoteClosedWithError" => Ok(ConnectionStopReason::RemoteClosedWithError),
        _ => Err(anyhow::anyhow!("no reason")),
    }
}
