//! Calls that take no memory, made while every request for memory is refused.

use crate::script::input::{ScriptInput, of_line};
use crate::script::offer::{ScriptEngine, out};
use crate::script::{mark, print, reading, say};
use bytes::Bytes;
use fe2o3_amqp::connection::Connection;
use fe2o3_amqp::{
    Close, ConnectionState, ConnectionStopReason, Disposition, End, Fields, FrameEncoder,
    IncomingChannel, Open, OutgoingChannel, OutputError, OutputHandle, Performative, Piece, Raw,
    ReplayRelay, Role, Session, SessionSettings, SessionState, SessionStopReason, StepError,
    Symbol, err_name, is_terminal,
};
use std::alloc::{AllocError, Global};
use test_support::{begin_of, detach_of, disposition_of, link_flow_of, open_of, words};

/// The session of the direct calls.
type ScriptSession = Session<ReplayRelay>;

/// Makes the calls of a line.
pub fn called(rt: &HostRuntime, engine: &mut ScriptEngine, text: &str) -> anyhow::Result<()> {
    mark(rt, "@make\n");
    match words::word(text) {
        ("getters", number) => getters(rt, engine, number),
        ("values", _) => values(rt),
        ("session", _) => session(rt),
        ("connection", _) => connection(rt),
        _ => stepped(rt, engine, text),
    }
}

/// Says whether the calls answer as ever.
fn said(rt: &HostRuntime, name: &str, is_as_ever: bool) -> anyhow::Result<()> {
    mark(rt, "@grant\n");
    say(rt, name)?;
    print(rt, if is_as_ever { " as ever" } else { " otherwise" })
}

/// The input of a line, by `step`, and then what goes out.
fn stepped(rt: &HostRuntime, engine: &mut ScriptEngine, line: &str) -> anyhow::Result<()> {
    let input = input(rt.alloc(), line)?;
    step(rt, engine, input)?;
    for _ in 0..20 {
        if !puts_out(rt, engine)? {
            return Ok(());
        }
    }
    Err(anyhow::anyhow!("frames without end"))
}

/// The input of a line; the second attempt passes where the first is refused.
fn input(alloc: Global, line: &str) -> anyhow::Result<ScriptInput> {
    let made = match of_line(alloc, line) {
        Ok(made) => made,
        Err(_) => of_line(alloc, line)?,
    };
    match made {
        Some(input) => Ok(input),
        None => Err(anyhow::anyhow!("no line of a script")),
    }
}

fn step(rt: &HostRuntime, engine: &mut ScriptEngine, input: ScriptInput) -> anyhow::Result<()> {
    mark(rt, "@refuse\n");
    let outcome = engine.step(input);
    mark(rt, "@grant\n");
    let told = refusal(rt, &outcome);
    drop(outcome);
    told
}

/// Prints a refusal, if there is one.
fn refusal(rt: &HostRuntime, outcome: &Result<(), StepError>) -> anyhow::Result<()> {
    match outcome {
        Ok(()) => Ok(()),
        Err(error) => {
            say(rt, "err ")?;
            print(rt, err_name(error))
        }
    }
}

/// Puts out the first frame that waits; whether there was one.
fn puts_out(rt: &HostRuntime, engine: &mut ScriptEngine) -> anyhow::Result<bool> {
    mark(rt, "@next_output\n");
    let next = engine.next_output();
    let is_there = !matches!(&next, Ok(None));
    let outcome = sent(rt, &next);
    drop(next);
    outcome?;
    Ok(is_there)
}

/// Prints what goes out, if anything does.
fn sent(rt: &HostRuntime, next: &Result<Option<Vec<Piece>>, OutputError>) -> anyhow::Result<()> {
    match next {
        Ok(None) => Ok(()),
        Ok(Some(pieces)) => out(rt, pieces),
        Err(OutputError::Memory) => print(rt, "~ next_output"),
        Err(OutputError::TooLarge(_)) => print(rt, "err TooLarge"),
    }
}

/// What reads an engine and its session.
fn getters(rt: &HostRuntime, engine: &ScriptEngine, number: &str) -> anyhow::Result<()> {
    let session = match reading::session(number) {
        Some(number) => engine.session(number),
        None => None,
    };
    let Some(session) = session else {
        anyhow::bail!("no session");
    };
    mark(rt, "@refuse\n");
    let is_read = reads_session(session) && reads_connection(engine);
    said(rt, "getters", is_read)
}

fn reads_session(session: &ScriptSession) -> bool {
    let walk = session.last_walk();
    session.can_send()
        && *session.local_state() == SessionState::Mapped
        && session.outgoing_channel() == OutgoingChannel(0)
        && session.session_stop_reason().is_none()
        && session.connection_stop_reason().is_none()
        && session.next_outgoing_id() >= session.next_incoming_id().min(0)
        && session.remote_incoming_window() >= session.remote_outgoing_window().min(0)
        && session.held_back() <= session.open_deliveries().max(9)
        && session.output_handle("no name").is_none()
        && walk.comparisons <= 64
}

fn reads_connection(engine: &ScriptEngine) -> bool {
    let connection = engine.connection();
    !engine.has_output()
        && *connection.local_state() == ConnectionState::Opened
        && connection.local_open().channel_max == 255
        && connection.connection_stop_reason().is_none()
        && connection
            .session_tx_by_incoming_channel(IncomingChannel(9))
            .is_none()
}

fn open(alloc: Global) -> Result<Open, AllocError> {
    let mut open = open_of(String::from_str(alloc, "a")?);
    open.max_frame_size = 512;
    open.channel_max = 7;
    Ok(open)
}

/// The second attempt passes where the first is refused.
fn open_again(alloc: Global) -> Result<Open, AllocError> {
    match open(alloc) {
        Ok(open) => Ok(open),
        Err(_) => open(alloc),
    }
}

/// Whether a call passes; what it answers is dropped here, and not at each of its callers.
pub fn passes<T: Drop, E: Drop>(answer: Result<T, E>) -> bool {
    answer.is_ok()
}

/// Calls of a connection alone.
fn connection(rt: &HostRuntime) -> anyhow::Result<()> {
    let ours = open_again(rt.alloc())?;
    let mut connection = Connection::new(rt.alloc(), ConnectionState::OpenSent, ours);
    let outcome = opened(rt, &mut connection);
    // prover
    drop(connection);
    said(rt, "connection", outcome?)
}

/// Whether a connection that the peer opens answers as ever.
fn opened(rt: &HostRuntime, connection: &mut Connection) -> anyhow::Result<bool> {
    let theirs = open_again(rt.alloc())?;
    mark(rt, "@refuse\n");
    let is_opened = passes(connection.on_incoming_open(IncomingChannel(0), theirs));
    Ok(is_opened && routes_none(connection) && closes(connection))
}

/// What a connection without sessions is asked.
fn routes_none(connection: &mut Connection) -> bool {
    drop(connection.on_outgoing_begin(OutgoingChannel(1), begin_of(8)));
    drop(connection.on_outgoing_end(OutgoingChannel(1), End { error: None }));
    let was_held = connection.deallocate_session(OutgoingChannel(1));
    let was_routed = passes(connection.on_incoming_end(IncomingChannel(1), End { error: None }));
    !was_held && !was_routed
}

fn closes(connection: &mut Connection) -> bool {
    let is_sent = passes(connection.send_close(None));
    let close = Close { error: None };
    let is_answered = passes(connection.on_incoming_close(IncomingChannel(0), close));
    connection.set_connection_stop_reason(ConnectionStopReason::Closed);
    is_sent && is_answered && *connection.local_state() == ConnectionState::End
}

/// A receiver's disposition from 1 on, without a state.
fn disposition(last: u32, settled: bool) -> Disposition {
    disposition_of(Role::Receiver, 1, Some(last), settled, None)
}

/// Calls of a session alone.
fn session(rt: &HostRuntime) -> anyhow::Result<()> {
    let settings = SessionSettings::new();
    let channel = OutgoingChannel(0);
    let mut session: ScriptSession = Session::new(
        rt.alloc(),
        settings,
        channel,
        SessionState::BeginSent,
        None,
    );
    mark(rt, "@refuse\n");
    let is_begun = passes(session.on_incoming_begin(IncomingChannel(0), begin_of(8)));
    let is_as_ever = is_begun
        && works(&mut session)
        && means_none(&mut session)
        && ends(&mut session);
    drop(session);
    said(rt, "session", is_as_ever)
}

/// What a mapped session without links is asked.
fn works(session: &mut ScriptSession) -> bool {
    drop(session.on_outgoing_flow(link_flow_of(0, 1, false)));
    drop(session.on_outgoing_disposition(disposition(3, true)));
    let is_left = passes(session.on_outgoing_detach(detach_of(0), false));
    let is_ignored = passes(session.on_incoming_detach(detach_of(0)));
    let flow = session.maybe_outgoing_session_flow();
    let is_quiet = flow.is_none();
    drop(flow);
    is_left && is_ignored && is_quiet && !session.deallocate_link(OutputHandle(0))
}

/// A settled disposition, and a backward one.
fn means_none(session: &mut ScriptSession) -> bool {
    let is_settled = passes(session.on_incoming_disposition(disposition(3, true)));
    let is_backward = passes(session.on_incoming_disposition(disposition(0, false)));
    is_settled && is_backward
}

fn ends(session: &mut ScriptSession) -> bool {
    let is_sent = passes(session.send_end(None));
    let is_answered = passes(session.on_incoming_end(IncomingChannel(0), End { error: None }));
    session.set_session_stop_reason(SessionStopReason::Ended);
    is_sent && is_answered && *session.local_state() == SessionState::Unmapped
}

/// The performative of these digits; the second attempt passes where the first is refused.
fn performative(alloc: Global, digits: &str) -> anyhow::Result<Performative> {
    let read = match reading::performative(alloc, digits) {
        Ok(read) => read,
        Err(_) => reading::performative(alloc, digits)?,
    };
    match read {
        Some((performative, rest)) => {
            drop(rest);
            Ok(performative)
        }
        None => Err(anyhow::anyhow!("no performative")),
    }
}

/// Calls of values and of performatives.
fn values(rt: &HostRuntime) -> anyhow::Result<()> {
    let transfer = performative(rt.alloc(), "005314c0020143")?;
    let outcome = values_beside(rt, &transfer);
    drop(transfer);
    said(rt, "values", outcome?)
}

fn values_beside(rt: &HostRuntime, transfer: &Performative) -> anyhow::Result<bool> {
    let text = match String::from_str(rt.alloc(), "x") {
        Ok(text) => text,
        Err(_) => String::from_str(rt.alloc(), "x")?,
    };
    mark(rt, "@refuse\n");
    let symbol = Symbol::new(text);
    let is_symbol = symbol.is_some();
    drop(symbol);
    Ok(views() && is_symbol && has_room(transfer) && transfer.encoded_len() > 4)
}

/// Whether a piece has room beside the transfer.
fn has_room(performative: &Performative) -> bool {
    match performative {
        Performative::Transfer(transfer) => {
            FrameEncoder::new(512).payload_room(transfer).is_some()
        }
        _ => false,
    }
}

/// Whether raw values give their parts.
fn views() -> bool {
    let accepted = Raw::read(Bytes::from_static(b"\x00\x53\x24\x45"));
    let has_parts = match &accepted {
        Ok((accepted, _rest)) => has_parts(accepted),
        Err(_) => false,
    };
    drop(accepted);
    has_parts && holds_a_map()
}

fn has_parts(accepted: &Raw) -> bool {
    let view = accepted.view();
    let parts = view.descriptor().is_some() && view.inner().is_some() && view.items().is_none();
    parts && view.code() == 0 && is_terminal(accepted)
}

fn holds_a_map() -> bool {
    match Raw::read(Bytes::from_static(b"\xc1\x06\x02\xa3\x01\x78\x52\x05")) {
        Ok((map, rest)) => {
            drop(rest);
            let has_two = has_two(&map);
            is_of_fields(map) && has_two
        }
        Err(_) => false,
    }
}

fn has_two(map: &Raw) -> bool {
    let Some(mut items) = map.view().items() else {
        return false;
    };
    items.next().is_some() && items.next().is_some() && items.next().is_none()
}

fn is_of_fields(map: Raw) -> bool {
    let fields = Fields::new(map);
    let is_there = fields.is_some();
    drop(fields);
    is_there
}
