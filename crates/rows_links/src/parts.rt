//! Calls for parts of deliveries.

use crate::answer;
use crate::held::Held;
use crate::words::Words;
use amqp_links::{PartEnd, PartHead, PartTag, PreparedPart, SentPart, SessionLinks};
use std::alloc::Global;

/// What a call answers.
pub fn answer(
    alloc: Global,
    held: &mut Held,
    call: &str,
    words: &mut Words<'_>,
) -> anyhow::Result<String> {
    match call {
        "send" => send(alloc, &mut held.links, words),
        "prepare-send" => prepare(alloc, held, words),
        "finish-send" => finish(alloc, held),
        "cancel-send" => cancel(alloc, held),
        _ => came(alloc, &mut held.links, words),
    }
}

/// The part to send that a line says.
fn sent(words: &mut Words<'_>) -> anyhow::Result<SentPart> {
    Ok(SentPart {
        number: words.number()?,
        size: words.long()?,
        end: end(words.word())?,
        settled: words.flag()?,
        given: words.long()?,
    })
}

fn end(word: &str) -> anyhow::Result<PartEnd> {
    match word {
        "more" => Ok(PartEnd::More),
        "last" => Ok(PartEnd::Last),
        "aborted" => Ok(PartEnd::Aborted),
        _ => Err(anyhow::anyhow!("no end of a part")),
    }
}

fn send(alloc: Global, links: &mut SessionLinks, words: &mut Words<'_>) -> anyhow::Result<String> {
    let handle = words.number()?;
    let part = sent(words)?;
    answer::sent(alloc, links.send(handle, part))
}

fn prepare(alloc: Global, held: &mut Held, words: &mut Words<'_>) -> anyhow::Result<String> {
    let handle = words.number()?;
    let part = sent(words)?;
    match held.links.prepare_send(handle, part) {
        Ok(prepared) => {
            held.part = Some(prepared);
            answer::prepared(alloc, &prepared)
        }
        Err(error) => answer::sent(alloc, Err(error)),
    }
}

/// The transfer that was prepared.
fn prepared(held: &Held) -> anyhow::Result<PreparedPart> {
    match held.part {
        Some(prepared) => Ok(prepared),
        None => Err(anyhow::anyhow!("no transfer is prepared")),
    }
}

fn finish(alloc: Global, held: &mut Held) -> anyhow::Result<String> {
    let prepared = prepared(held)?;
    answer::given(alloc, held.links.finish_send(&prepared))
}

fn cancel(alloc: Global, held: &mut Held) -> anyhow::Result<String> {
    let prepared = prepared(held)?;
    held.links.cancel_send(&prepared);
    answer::line(alloc, "ok")
}

fn came(alloc: Global, links: &mut SessionLinks, words: &mut Words<'_>) -> anyhow::Result<String> {
    let handle = words.number()?;
    let head = PartHead {
        number: words.number_if_any()?,
        tag: tag(words.word())?,
        format: words.number_if_any()?,
        settled: words.flag_if_any()?,
        more: words.flag()?,
        aborted: words.flag()?,
        size: words.number()?,
    };
    let given = words.long()?;
    answer::taken(alloc, links.on_transfer(handle, head, given))
}

fn tag(word: &str) -> anyhow::Result<PartTag> {
    match word {
        "same" => Ok(PartTag::Same),
        "new" => Ok(PartTag::New),
        "-" => Ok(PartTag::Absent),
        _ => Err(anyhow::anyhow!("no tag")),
    }
}
