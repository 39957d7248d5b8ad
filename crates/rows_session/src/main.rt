//! Rows of a session: each line of the input is a call, and the output is what the session answers.
//!
//! | Line | Call |
//! |---|---|
//! | `# TEXT` | none: a row begins, and the line is repeated |
//! | `new STATE [NAME=VALUE]..` | `Session::new`; the names are in `made.rt`, and what is not named has its default |
//! | `begin`, `end`, `end CONDITION` | `send_begin`, `send_end` |
//! | `recv CHANNEL HEX` | what came on a channel: one performative, and what follows a transfer is its payload |
//! | `flow HEX` | `on_outgoing_flow`, by a flow that names a link |
//! | `first INPUT HEX`, `later INPUT HEX` | `on_outgoing_transfer` on an input handle: the first of its delivery, or a later one |
//! | `link NAME`, `link-bare NAME` | `allocate_link`, with a relay and without one |
//! | `link-refusing N NAME` | `allocate_link`, with a relay that refuses N attaches first |
//! | `link-incoming INPUT NAME` | `allocate_incoming_link` |
//! | `link-deaf INPUT NAME` | the same, with a relay that asks for no echo of a disposition |
//! | `unlink OUTPUT`, `handle-of NAME` | `deallocate_link`, `output_handle` |
//! | `attach HEX` | `on_outgoing_attach` |
//! | `detach HEX`, `detach-awaited HEX` | `on_outgoing_detach`, with no answer to come and with one |
//! | `disposition HEX` | `on_outgoing_disposition` |
//! | `walk LEAST MOST COMPARISONS` | `last_walk`: from LEAST to MOST turns, and at most so many comparisons |
//! | `messages FIRST`, `messages FIRST LAST` | `num_messages_settled_by_disposition` |
//! | `session-flow` | `maybe_outgoing_session_flow` |
//! | `stop REASON` | `set_session_stop_reason` |
//! | `show`, `reasons` | the calls that read |
//! | `times N LINE` | the call of that line N times; an answer is printed where it is another than the one before |
//! | `retry WINDOW LINE` | the call of that line; where memory is refused to it, it has left the session as it was, with this window of the peer's, and is made once more |
//!
//! What stands in a line after ` ;` is a note for readers: what its hexadecimal says.
//!
//! An answer is `ok`, `none` or `err` and the refusal; of an allotment `handle` and its number, of a release whether there was a
//! link. A frame is `out`, its channel, the performative's text and, after a transfer, its payload; `list` goes before several
//! frames, and before the echoes of a disposition. What a relay has to say is `disposition` or `detach`, and its text.
//!
//! After a line `pairs` the lines are those of a pair of sessions (`pair.rt`).
#![tactic(auto)]

mod answer;
mod call;
mod disposition;
mod kinds;
mod link;
mod made;
mod pair;
mod reading;
mod row;

use amqp_session::{Session, SessionPair, SessionSettings};
use std::alloc::Global;
use std::io::{self, BufRead, BufReader, BufWriter, Write};
use test_support::RowRelay;

fn main(rt: HostRuntime) -> anyhow::Result<()> {
    let mut session = made::session(rt.alloc(), "Unmapped")?;
    let mut pair = SessionPair::new(rt.alloc(), SessionSettings::new(), SessionSettings::new());
    let outcome = run(&rt, &mut session, &mut pair);
    // prover
    drop(session);
    drop(pair);
    outcome
}

/// Gives the session, and then the pair, the lines of the input, and prints what they answer.
fn run(
    rt: &HostRuntime,
    session: &mut Session<RowRelay>,
    pair: &mut SessionPair<RowRelay>,
) -> anyhow::Result<()> {
    let alloc = rt.alloc();
    let mut out = BufWriter::new(alloc, io::writer(rt))?;
    let mut is_pair = false;
    for line in BufReader::new(alloc, rt.reader())?.lines(alloc) {
        let text = next(alloc, session, pair, &mut is_pair, line?.as_str())?;
        out.write_all(text.as_bytes())?;
    }
    out.flush()?;
    Ok(())
}

/// What a line prints.
fn next(
    alloc: Global,
    session: &mut Session<RowRelay>,
    pair: &mut SessionPair<RowRelay>,
    is_pair: &mut bool,
    line: &str,
) -> anyhow::Result<String> {
    if *is_pair {
        return pair::answer(alloc, pair, line);
    }
    if line == "pairs" {
        *is_pair = true;
        return Ok(String::new(alloc));
    }
    row::answer(alloc, session, line)
}
