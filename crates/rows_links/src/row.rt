//! A line of the rows, and its answer.

use crate::held::Held;
use crate::words::Words;
use crate::{answer, flows, links, parts, settling};
use std::alloc::Global;
use std::mem;

/// What a line prints.
pub fn answer(alloc: Global, held: &mut Held, line: &str) -> anyhow::Result<String> {
    let mut words = Words::of(line);
    match words.word() {
        "" => Ok(String::new(alloc)),
        "#" => answer::line(alloc, line),
        "new" => anew(alloc, held),
        call => of_links(alloc, held, call, &mut words),
    }
}

fn anew(alloc: Global, held: &mut Held) -> anyhow::Result<String> {
    // prover
    drop(mem::replace(held, Held::new(alloc)));
    answer::line(alloc, "ok")
}

/// What a call for links answers.
fn of_links(
    alloc: Global,
    held: &mut Held,
    call: &str,
    words: &mut Words<'_>,
) -> anyhow::Result<String> {
    match call {
        "flow" | "answer" | "grant" | "drain" | "renew" | "prepare-flow" | "finish-flow" => {
            flows::answer(alloc, held, call, words)
        }
        "send" | "prepare-send" | "finish-send" | "cancel-send" | "transfer" => {
            parts::answer(alloc, held, call, words)
        }
        "settle-sent" | "settle-received" | "sent" | "received" => {
            settling::answer(alloc, &mut held.links, call, words)
        }
        "left" | "left-of-sent" | "left-of-received" => {
            settling::left(alloc, &mut held.links, call, words)
        }
        _ => links::answer(alloc, &mut held.links, call, words),
    }
}
