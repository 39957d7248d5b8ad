//! Calls for flows.

use crate::answer;
use crate::held::Held;
use crate::words::Words;
use amqp_links::{CreditFlow, FlowWish, LinkFlow, SessionLinks};
use std::alloc::Global;

/// What a call answers.
pub fn answer(
    alloc: Global,
    held: &mut Held,
    call: &str,
    words: &mut Words<'_>,
) -> anyhow::Result<String> {
    match call {
        "flow" => came(alloc, &mut held.links, words),
        "prepare-flow" => prepare(alloc, held, words),
        "finish-flow" => finish(alloc, held),
        _ => answer::flow(alloc, said(&mut held.links, call, words)?),
    }
}

fn came(alloc: Global, links: &mut SessionLinks, words: &mut Words<'_>) -> anyhow::Result<String> {
    let handle = words.number()?;
    let flow = CreditFlow {
        delivery_count: words.number_if_any()?,
        link_credit: words.number_if_any()?,
        drain: words.flag()?,
        echo: words.flag()?,
    };
    answer::used(alloc, links.on_flow(handle, flow))
}

/// What a link says.
fn said(
    links: &mut SessionLinks,
    call: &str,
    words: &mut Words<'_>,
) -> anyhow::Result<Option<LinkFlow>> {
    let handle = words.number()?;
    Ok(match wish(call, words)? {
        FlowWish::Answer(available) => links.answer(handle, available),
        FlowWish::Grant(credit) => links.grant(handle, credit),
        FlowWish::Drain => links.drain(handle),
        FlowWish::Renew => links.renew(handle),
    })
}

/// What a link is to say, by the name of a call, whose handle was read.
fn wish(call: &str, words: &mut Words<'_>) -> anyhow::Result<FlowWish> {
    match call {
        "answer" => Ok(FlowWish::Answer(words.number()?)),
        "grant" => Ok(FlowWish::Grant(words.number()?)),
        "drain" => Ok(FlowWish::Drain),
        "renew" => Ok(FlowWish::Renew),
        _ => Err(anyhow::anyhow!("no flow")),
    }
}

fn prepare(alloc: Global, held: &mut Held, words: &mut Words<'_>) -> anyhow::Result<String> {
    let call = words.word();
    let handle = words.number()?;
    let wish = wish(call, words)?;
    held.flow = held.links.prepare_flow(handle, wish);
    match &held.flow {
        None => answer::flow(alloc, None),
        Some(prepared) => answer::flow(alloc, Some(prepared.said())),
    }
}

fn finish(alloc: Global, held: &mut Held) -> anyhow::Result<String> {
    let Some(prepared) = held.flow else {
        return Err(anyhow::anyhow!("no flow is prepared"));
    };
    held.links.finish_flow(&prepared);
    answer::line(alloc, "ok")
}
