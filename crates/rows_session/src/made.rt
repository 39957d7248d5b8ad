//! Making a session.

use crate::reading;
use amqp_session::{ConnectionStopReason, OutgoingChannel, Session, SessionSettings};
use amqp_types::Symbol;
use std::alloc::Global;
use std::mem;
use test_support::{RowRelay, reasons, words};

/// What a session is made of, but for its state.
#[derive(Drop)]
struct Parts {
    settings: SessionSettings,
    channel: u16,
    connection_stop: Option<ConnectionStopReason>,
}

/// Default settings, on channel 0 of a connection that did not stop.
fn plain() -> Parts {
    Parts {
        settings: SessionSettings::new(),
        channel: 0,
        connection_stop: None,
    }
}

/// A list of this symbol alone.
fn one_symbol(alloc: Global, text: &str) -> anyhow::Result<Vec<Symbol>> {
    let symbol = reasons::symbol(alloc, text)?;
    Ok(vec![in alloc; symbol]?)
}

/// Puts a list of this symbol alone there.
fn put_symbol(alloc: Global, there: &mut Option<Vec<Symbol>>, text: &str) -> anyhow::Result<()> {
    let symbols = one_symbol(alloc, text)?;
    drop(mem::replace(there, Some(symbols)));
    Ok(())
}

/// A number of the settings, where the name is one of them.
fn number_mut<'a>(settings: &'a mut SessionSettings, name: &str) -> Option<&'a mut u32> {
    match name {
        "next-outgoing-id" => Some(&mut settings.next_outgoing_id),
        "incoming-window" => Some(&mut settings.incoming_window),
        "outgoing-window" => Some(&mut settings.outgoing_window),
        "handle-max" => Some(&mut settings.handle_max.0),
        _ => None,
    }
}

/// Sets a number of the settings.
fn set_number(settings: &mut SessionSettings, name: &str, value: &str) -> anyhow::Result<()> {
    match number_mut(settings, name) {
        Some(number) => *number = words::number(value)?,
        None => anyhow::bail!("no part of a session"),
    }
    Ok(())
}

/// Sets the part of this name.
fn set(alloc: Global, parts: &mut Parts, name: &str, value: &str) -> anyhow::Result<()> {
    match name {
        "offered" => put_symbol(alloc, &mut parts.settings.offered_capabilities, value)?,
        "desired" => put_symbol(alloc, &mut parts.settings.desired_capabilities, value)?,
        "channel" => parts.channel = words::channel(value)?,
        "stopped" => parts.connection_stop = Some(reasons::connection_stop(value)?),
        _ => set_number(&mut parts.settings, name, value)?,
    }
    Ok(())
}

/// Sets the parts that a line names after its first word.
fn set_all(alloc: Global, parts: &mut Parts, line: &str) -> anyhow::Result<()> {
    for word in line.split(' ').skip(1) {
        match word.split_once('=') {
            Some((name, value)) => set(alloc, parts, name, value)?,
            None => anyhow::bail!("a name without a value"),
        }
    }
    Ok(())
}

/// The session that a line says: its state, and then names with their values.
pub fn session(alloc: Global, line: &str) -> anyhow::Result<Session<RowRelay>> {
    let (state, _) = words::word(line);
    let state = reading::state(state)?;
    let mut parts = plain();
    match set_all(alloc, &mut parts, line) {
        Ok(()) => {
            let channel = OutgoingChannel(parts.channel);
            Ok(Session::new(alloc, parts.settings, channel, state, parts.connection_stop))
        }
        Err(error) => {
            drop(parts);
            Err(error)
        }
    }
}
