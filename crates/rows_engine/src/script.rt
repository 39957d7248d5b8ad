//! A script: a whole exchange, each input given to the engine one at a time, and once more where it is refused for memory.
//!
//! | Line | What is done |
//! |---|---|
//! | `# TEXT` | a script begins, with a new engine, and the line is repeated |
//! | `open`, `close`, `begin N`, `end N`, `release N`, `forget N` | the request of that name |
//! | `begin N WINDOW` | the same, with that incoming window |
//! | `link N NAME`, `link-incoming N HANDLE NAME` | `AllocateLink`, `AllocateIncomingLink` |
//! | `send N HEX` | one performative of a link: a detach is one that the peer is to answer |
//! | `detach N HEX` | a detach that the peer is not to answer |
//! | `settle N ROLE FIRST LAST` | `Settle`, as the receiver or the sender |
//! | `recv HEX` | a received frame, without its size |
//! | `take HEX` | a received transfer: where its session refuses it for memory it is not offered again |
//! | `into LINE` | the input of that line, by a run that sends into a buffer |
//! | `free LINE` | the input of that line, by `step`, while every request for memory is refused; then what goes out |
//! | `free getters N`, `free values`, `free session`, `free connection` | calls that take none, while every request is refused |
//! | `call NAME HEX` | a call of the codec: `read`, `write`, `decode`, `encode`, `encode-to`, `bytes` |
//! | `wished LINE` | the input of that line, for an engine whose handles are used; of none (`wished run`), where wishes alone are to be heard |
//! | `wished end N`, `wished end N CONDITION`, `wished close CONDITION` | a wish of a handle, noted while every request is refused |
//! | `wished ended N`, `wished closed` | what became of it, told while every request is refused |
//! | `replays` | `replay` of a transcript, with a reader and a writer that fail at each call in turn |
//! | `show N` | the numbers of a session that received transfers move |
//!
//! A line of the output is `out` and a piece, `sent` and pieces after their sizes, `err` and a refusal, or what a call answers. After `~` stands a refusal for memory.
//! Marks on standard error, `@make`, `@run`, `@print`, say to `tools/gate/refuse_nth.c` what asks for memory from then on, and
//! `@refuse`, `@grant` that every request is to be refused, or none.

mod codec;
mod free;
mod input;
mod making;
mod offer;
pub mod reading;
mod replays;
mod sending;
mod wishes;

use std::io::Write;

/// Runs the lines of scripts.
pub fn run(rt: &HostRuntime, lines: &str) -> anyhow::Result<()> {
    offer::script(rt, lines)
}

/// Says what asks for memory from now on. It takes none itself.
pub fn mark(rt: &HostRuntime, text: &str) {
    let _ = rt.stderr().write_all(text.as_bytes());
}

/// Prints a text without an end of its line. Takes no memory.
pub fn say(rt: &HostRuntime, text: &str) -> anyhow::Result<()> {
    rt.stdout().write_all(text.as_bytes())?;
    Ok(())
}

/// Prints a text and the end of its line. Takes no memory.
pub fn print(rt: &HostRuntime, text: &str) -> anyhow::Result<()> {
    say(rt, text)?;
    say(rt, "\n")
}
