//! Calls for what is unsettled.

use crate::answer;
use crate::words::Words;
use amqp_links::SessionLinks;
use std::alloc::Global;

/// What a call for numbers answers.
pub fn answer(
    alloc: Global,
    links: &mut SessionLinks,
    call: &str,
    words: &mut Words<'_>,
) -> anyhow::Result<String> {
    let first = words.number()?;
    match call {
        "settle-sent" => settle_sent(alloc, links, first, words.number()?),
        "settle-received" => settle_received(alloc, links, first, words.number()?),
        "sent" => answer::entry(alloc, links.sent(first)),
        _ => answer::entry(alloc, links.received(first)),
    }
}

fn settle_sent(
    alloc: Global,
    links: &mut SessionLinks,
    first: u32,
    last: u32,
) -> anyhow::Result<String> {
    answer::entry(alloc, links.settle_sent(first, last))
}

fn settle_received(
    alloc: Global,
    links: &mut SessionLinks,
    first: u32,
    last: u32,
) -> anyhow::Result<String> {
    answer::entry(alloc, links.settle_received(first, last))
}

/// What is left on a link, or of all.
pub fn left(
    alloc: Global,
    links: &mut SessionLinks,
    call: &str,
    words: &mut Words<'_>,
) -> anyhow::Result<String> {
    match call {
        "left" => of_link(alloc, links, words.number()?),
        "left-of-sent" => answer::entry(alloc, links.left_of_sent()),
        _ => answer::entry(alloc, links.left_of_received()),
    }
}

fn of_link(alloc: Global, links: &mut SessionLinks, handle: u32) -> anyhow::Result<String> {
    answer::entry(alloc, links.left_next(handle))
}
