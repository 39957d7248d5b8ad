//! Calls of a session that take a performative.

use crate::{answer, disposition, kinds};
use amqp_session::{IncomingChannel, InputHandle, Session};
use amqp_types::Performative;
use std::alloc::Global;
use test_support::{RowRelay, digits, words};

/// What is answered to a performative that came on a channel.
pub fn received(
    alloc: Global,
    session: &mut Session<RowRelay>,
    text: &str,
) -> anyhow::Result<String> {
    let (channel, digits) = words::word(text);
    let channel = IncomingChannel(words::channel(channel)?);
    let (performative, payload) = digits::performative(alloc, digits)?;
    match performative {
        Performative::Transfer(transfer) => {
            answer::transfer_taken(alloc, session.on_incoming_transfer(transfer, payload))
        }
        other => {
            drop(payload);
            of_session(alloc, session, channel, other)
        }
    }
}

/// What is answered to a Begin or an End, or to what a link is told.
fn of_session(
    alloc: Global,
    session: &mut Session<RowRelay>,
    channel: IncomingChannel,
    performative: Performative,
) -> anyhow::Result<String> {
    match performative {
        Performative::Begin(begin) => answer::taken(
            alloc,
            session.on_incoming_begin(channel, begin),
        ),
        Performative::End(end) => answer::taken(alloc, session.on_incoming_end(channel, end)),
        other => of_link(alloc, session, other),
    }
}

fn of_link(
    alloc: Global,
    session: &mut Session<RowRelay>,
    performative: Performative,
) -> anyhow::Result<String> {
    match performative {
        Performative::Attach(attach) => answer::attached(alloc, session.on_incoming_attach(attach)),
        Performative::Flow(flow) => answer::handed_out(alloc, session.on_incoming_flow(flow)),
        Performative::Disposition(said) => {
            disposition::echoed(alloc, session.on_incoming_disposition(said))
        }
        Performative::Detach(detach) => answer::detached(alloc, session.on_incoming_detach(detach)),
        other => {
            drop(other);
            Err(anyhow::anyhow!("no call takes it"))
        }
    }
}

/// What is handed out for a link's flow.
pub fn flow(alloc: Global, session: &Session<RowRelay>, digits: &str) -> anyhow::Result<String> {
    let flow = kinds::link_flow(alloc, digits)?;
    answer::frame(alloc, session.on_outgoing_flow(flow))
}

/// What is answered to a transfer for the link of an input handle.
pub fn transfer(
    alloc: Global,
    session: &mut Session<RowRelay>,
    text: &str,
    is_first: bool,
) -> anyhow::Result<String> {
    let (input, digits) = words::word(text);
    let input = InputHandle(words::number(input)?);
    let (transfer, payload) = kinds::transfer(alloc, digits)?;
    answer::handed_out(
        alloc,
        session.on_outgoing_transfer(input, transfer, payload, is_first),
    )
}
