//! A line of the rows, and its answer.

use crate::{answer, call, disposition, link, made, reading};
use amqp_session::Session;
use amqp_types::SessionState;
use std::alloc::Global;
use std::mem;
use test_support::{RowRelay, reasons, words};

/// What a line prints.
pub fn answer(
    alloc: Global,
    session: &mut Session<RowRelay>,
    line: &str,
) -> anyhow::Result<String> {
    match words::word(line) {
        ("", _) => Ok(String::new(alloc)),
        ("#", _) => answer::line(alloc, line),
        ("times", rest) => times(alloc, session, words::without_note(rest)),
        ("retry", rest) => retry(alloc, session, words::without_note(rest)),
        _ => once(alloc, session, words::without_note(line)),
    }
}

/// The answers to a line that is given several times: each that is another than the one before.
fn times(alloc: Global, session: &mut Session<RowRelay>, text: &str) -> anyhow::Result<String> {
    let (count, line) = words::word(text);
    let mut all = String::new(alloc);
    let mut last = String::new(alloc);
    for _ in 0..words::number(count)? {
        let next = once(alloc, session, line)?;
        if next.as_str() != last.as_str() {
            all.push_str(next.as_str())?;
        }
        last = next;
    }
    Ok(all)
}

/// The answer to a line; where memory is refused to its call, the answer to the same line once more. A refused call leaves what it is
/// to leave, and the window of the peer's that the first word says.
fn retry(alloc: Global, session: &mut Session<RowRelay>, text: &str) -> anyhow::Result<String> {
    let (window, line) = words::word(text);
    let window = words::number(window)?;
    let before = kept(session);
    let first = once(alloc, session, line)?;
    if first.as_str() != "err OutOfMemory\n" {
        return Ok(first);
    }
    if kept(session) != before || session.remote_incoming_window() != window {
        anyhow::bail!("a refused call has changed the session");
    }
    once(alloc, session, line)
}

/// What a refused call leaves: the state, the numbers, this side's window at the peer, and how many wait and are open.
fn kept(session: &Session<RowRelay>) -> (SessionState, [u64; 5]) {
    let numbers = [
        session.next_outgoing_id() as u64,
        session.next_incoming_id() as u64,
        session.remote_outgoing_window() as u64,
        session.held_back() as u64,
        session.open_deliveries() as u64,
    ];
    (*session.local_state(), numbers)
}

/// What one call answers.
fn once(alloc: Global, session: &mut Session<RowRelay>, line: &str) -> anyhow::Result<String> {
    match words::word(line) {
        ("new", rest) => made_anew(alloc, session, rest),
        ("recv", rest) => call::received(alloc, session, rest),
        ("flow", rest) => call::flow(alloc, session, rest),
        ("first", rest) => call::transfer(alloc, session, rest, true),
        ("later", rest) => call::transfer(alloc, session, rest, false),
        ("end", rest) => end(alloc, session, rest),
        ("stop", rest) => stop(alloc, session, rest),
        ("disposition", rest) => disposition::sent(alloc, session, rest),
        ("settle", rest) => disposition::settled(alloc, session, rest),
        ("walk", rest) => disposition::walk(alloc, session, rest),
        ("messages", rest) => disposition::messages(alloc, rest),
        _ => plain(alloc, session, line),
    }
}

/// What a call without an argument, or one for links, answers.
fn plain(alloc: Global, session: &mut Session<RowRelay>, line: &str) -> anyhow::Result<String> {
    match line {
        "begin" => answer::sent(alloc, session.send_begin()),
        "session-flow" => answer::item(alloc, session.maybe_outgoing_session_flow()),
        "show" => show(alloc, session),
        "reasons" => reasons(alloc, session),
        _ => link::answer(alloc, session, line),
    }
}

fn made_anew(alloc: Global, session: &mut Session<RowRelay>, text: &str) -> anyhow::Result<String> {
    let anew = made::session(alloc, text)?;
    // prover
    drop(mem::replace(session, anew));
    answer::line(alloc, "ok")
}

fn end(alloc: Global, session: &mut Session<RowRelay>, text: &str) -> anyhow::Result<String> {
    let error = reasons::error(alloc, text)?;
    answer::sent(alloc, session.send_end(error))
}

fn stop(alloc: Global, session: &mut Session<RowRelay>, text: &str) -> anyhow::Result<String> {
    session.set_session_stop_reason(reading::session_stop(text)?);
    answer::line(alloc, "ok")
}

/// The numbers and windows of what goes out, and of what comes.
fn numbers(alloc: Global, session: &Session<RowRelay>) -> anyhow::Result<String> {
    let next = session.next_outgoing_id();
    let window = session.remote_incoming_window();
    let sent = format!(in alloc; "next-outgoing-id={next} remote-incoming-window={window}")?;
    let next = session.next_incoming_id();
    let window = session.remote_outgoing_window();
    Ok(format!(in alloc; "{sent} next-incoming-id={next} remote-outgoing-window={window}")?)
}

/// The state, the numbers, and how many transfers wait and deliveries are open.
fn show(alloc: Global, session: &Session<RowRelay>) -> anyhow::Result<String> {
    let state = session.local_state();
    let sends = session.can_send();
    let numbers = numbers(alloc, session)?;
    let held = session.held_back();
    let open = session.open_deliveries();
    Ok(format!(in alloc;
        "{state:?} can-send={sends} {numbers} held-back={held} open-deliveries={open}\n"
    )?)
}

/// The channel of what goes out, and why session and connection stopped.
fn reasons(alloc: Global, session: &Session<RowRelay>) -> anyhow::Result<String> {
    let channel = session.outgoing_channel().0;
    let own = session.session_stop_reason();
    let connection = session.connection_stop_reason();
    Ok(format!(in alloc; "channel={channel} session={own:?} connection={connection:?}\n")?)
}
