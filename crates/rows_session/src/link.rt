//! Calls of a session for its links.

use crate::{answer, kinds};
use amqp_session::{InputHandle, OutputHandle, Session};
use std::alloc::Global;
use test_support::{RowRelay, words};

/// What a call for links answers.
pub fn answer(
    alloc: Global,
    session: &mut Session<RowRelay>,
    line: &str,
) -> anyhow::Result<String> {
    match words::word(line) {
        ("link", name) => allot(alloc, session, name, Some(RowRelay::new())),
        ("link-refusing", rest) => allot_refusing(alloc, session, rest),
        ("link-bare", name) => allot(alloc, session, name, None),
        ("link-incoming", rest) => allot_incoming(alloc, session, rest, false),
        ("link-deaf", rest) => allot_incoming(alloc, session, rest, true),
        ("unlink", handle) => release(alloc, session, handle),
        ("handle-of", name) => answer::live(alloc, session.output_handle(name)),
        _ => sent(alloc, session, line),
    }
}

/// What is handed out for a link.
fn sent(alloc: Global, session: &mut Session<RowRelay>, line: &str) -> anyhow::Result<String> {
    match words::word(line) {
        ("attach", digits) => attach(alloc, session, digits),
        ("detach", digits) => detach(alloc, session, digits, false),
        ("detach-awaited", digits) => detach(alloc, session, digits, true),
        _ => Err(anyhow::anyhow!("no call")),
    }
}

fn allot(
    alloc: Global,
    session: &mut Session<RowRelay>,
    name: &str,
    relay: Option<RowRelay>,
) -> anyhow::Result<String> {
    let name = String::from_str(alloc, name)?;
    answer::allotted(alloc, session.allocate_link(name, relay))
}

/// With a relay that refuses as many attaches as the first word says.
fn allot_refusing(
    alloc: Global,
    session: &mut Session<RowRelay>,
    text: &str,
) -> anyhow::Result<String> {
    let (count, name) = words::word(text);
    let mut relay = RowRelay::new();
    relay.refusals = words::number(count)?;
    allot(alloc, session, name, Some(relay))
}

fn allot_incoming(
    alloc: Global,
    session: &mut Session<RowRelay>,
    text: &str,
    is_deaf: bool,
) -> anyhow::Result<String> {
    let (input, name) = words::word(text);
    let input = InputHandle(words::number(input)?);
    let name = String::from_str(alloc, name)?;
    let mut relay = RowRelay::new();
    relay.is_deaf = is_deaf;
    answer::allotted(alloc, session.allocate_incoming_link(name, relay, input))
}

fn release(alloc: Global, session: &mut Session<RowRelay>, text: &str) -> anyhow::Result<String> {
    let handle = OutputHandle(words::number(text)?);
    let was = session.deallocate_link(handle);
    Ok(format!(in alloc; "{was}\n")?)
}

fn attach(alloc: Global, session: &Session<RowRelay>, digits: &str) -> anyhow::Result<String> {
    let attach = kinds::attach(alloc, digits)?;
    answer::frame(alloc, session.on_outgoing_attach(attach))
}

fn detach(
    alloc: Global,
    session: &mut Session<RowRelay>,
    digits: &str,
    expects_echo: bool,
) -> anyhow::Result<String> {
    let detach = kinds::detach(alloc, digits)?;
    answer::left(alloc, session.on_outgoing_detach(detach, expects_echo))
}
