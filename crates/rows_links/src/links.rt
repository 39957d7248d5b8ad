//! Calls by which links come and go.

use crate::answer;
use crate::words::Words;
use amqp_links::{PeerAttach, Renewal, SessionLinks};
use std::alloc::Global;

/// What a call answers.
pub fn answer(
    alloc: Global,
    links: &mut SessionLinks,
    call: &str,
    words: &mut Words<'_>,
) -> anyhow::Result<String> {
    match call {
        "sender" => sender(alloc, links, words),
        "receiver" => receiver(alloc, links, words),
        "attach" => attach(alloc, links, words),
        _ => of_one(alloc, links, call, words.number()?),
    }
}

/// What a call that takes a handle alone answers.
fn of_one(
    alloc: Global,
    links: &mut SessionLinks,
    call: &str,
    handle: u32,
) -> anyhow::Result<String> {
    match call {
        "room" => answer::done(alloc, links.make_room(handle)),
        "detach" => answer::name(alloc, links.detach(handle)),
        "on-detach" => answer::name(alloc, links.on_detach(handle)),
        "remove" => answer::done(alloc, links.remove(handle)),
        "end" => answer::end(alloc, &links.end(handle)),
        _ => Err(anyhow::anyhow!("no call")),
    }
}

fn sender(
    alloc: Global,
    links: &mut SessionLinks,
    words: &mut Words<'_>,
) -> anyhow::Result<String> {
    let (handle, initial) = (words.number()?, words.number()?);
    answer::done(alloc, links.add_sender(handle, initial))
}

fn receiver(
    alloc: Global,
    links: &mut SessionLinks,
    words: &mut Words<'_>,
) -> anyhow::Result<String> {
    let handle = words.number()?;
    let (low, high) = (words.number_if_any()?, words.number_if_any()?);
    let renewal = match (low, high) {
        (Some(low), Some(high)) => Some(Renewal { low, high }),
        _ => None,
    };
    answer::done(
        alloc,
        links.add_receiver(handle, renewal, words.long_if_any()?),
    )
}

fn attach(
    alloc: Global,
    links: &mut SessionLinks,
    words: &mut Words<'_>,
) -> anyhow::Result<String> {
    let handle = words.number()?;
    let attach = PeerAttach {
        is_accepted: words.flag()?,
        initial_delivery_count: words.number()?,
        max_message_size: words.long_if_any()?,
    };
    answer::name(alloc, links.on_attach(handle, attach))
}
