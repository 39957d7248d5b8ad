//! Rows of an engine: a line `-- TITLE` begins one, and is repeated; the lines after it are a transcript, as `amqp_replay`
//! reads it, for an engine of its own. What the transcript prints follows, then what it says of a line that it cannot read,
//! and its status where that is not 0. What stands in a line after ` ;` is a note for readers: what its hexadecimal says.
//!
//! After `each-channel HEX` a transcript goes on with that performative on each channel from 0 to 65535, and then with the lines after
//! `then`; what is the same several times in a row is printed once, after its count.
//!
//! After `connection STATE` the lines are calls of a connection alone, in that state:
//!
//! | Line | Call |
//! |---|---|
//! | `open`, `close`, `close CONDITION` | `send_open`, `send_close` |
//! | `recv CHANNEL HEX` | what came on a channel: an Open, a Close, a Begin or an End |
//! | `send CHANNEL HEX` | `on_outgoing_begin`, `on_outgoing_end` |
//! | `allocate N`, `deallocate CHANNEL` | `allocate_session`, `deallocate_session` |
//! | `stop REASON` | `set_connection_stop_reason` |
//! | `route CHANNEL`, `holder CHANNEL`, `show` | the calls that read |
//!
//! After `handled STATE` the lines are runs of a handled engine, whose connection is in that state, and calls of its handles. Where the
//! engine's Open is not named `replay`, its name stands after the state.
//!
//! | Line | Run or call |
//! |---|---|
//! | `run` | a run without inputs |
//! | `open`, `close`, `close CONDITION`, `begin N`, `begin N WINDOW`, `end N`, `release N`, `forget N`, `recv HEX` | a run with this input |
//! | `settle N ROLE FIRST LAST`, `settle N ROLE FIRST`, `send N HEX`, `link N NAME` | the same, as a transcript has it |
//! | `allot N NAME`, `incoming N HANDLE NAME`, `stop N REASON` | the same: a link without a relay, a link whose attach came on a handle, `Input::Stop` |
//! | `with INPUT` | the input waits for the next run, which takes it before its own |
//! | `why INPUT` | a run with this input, whose answers are printed as `Debug` shows them |
//! | `connection CALL`, `other CALL` | of the first handle of the connection, of the second: `is`, `try`, `close`, `close CONDITION` |
//! | `handle N` | two handles of session N |
//! | `session CALL`, `twin CALL` | of the first of these, of the second: `is`, `try`, `end`, `end CONDITION`, `close` |
//! | `engine STATE` | another engine is handed to the handles |
//! | `show`, `show N`, `route CHANNEL`, `led N`, `output N NAME` | the calls that read: the engine and a session as `Debug` shows them, `session_tx_by_incoming_channel`, `has_route`, `output_handle` |
//!
//! After a line `scripts`, or where the first line begins with `# `, the lines are scripts: `src/script.rt` says which lines they have.
#![tactic(auto)]

mod connection;
mod handled;
mod inputs;
mod reading;
mod row;
mod script;

use std::alloc::Global;
use std::io::{self, BufWriter, Write};

fn main(rt: HostRuntime) -> anyhow::Result<()> {
    let text = script::reading::text(&rt)?;
    let (rows, scripts) = parts(std::str::from_utf8(text.as_slice())?);
    write_rows(&rt, rows)?;
    script::run(&rt, scripts)
}

/// The lines of rows, and those of scripts.
fn parts(text: &str) -> (&str, &str) {
    if text.starts_with("# ") {
        return ("", text);
    }
    text.split_once("\nscripts\n").unwrap_or((text, ""))
}

/// Writes what the rows print. Where there is none it takes no memory.
fn write_rows(rt: &HostRuntime, rows: &str) -> anyhow::Result<()> {
    if rows.is_empty() {
        return Ok(());
    }
    let alloc = rt.alloc();
    let mut out = BufWriter::new(alloc, io::writer(rt))?;
    let mut lines = String::new(alloc);
    for line in rows.lines() {
        take_line(alloc, &mut lines, line, &mut out)?;
    }
    finish(alloc, lines.as_str(), &mut out)
}

fn take_line<O: Write>(
    alloc: Global,
    lines: &mut String,
    line: &str,
    out: &mut O,
) -> anyhow::Result<()> {
    let text = row::next(alloc, lines, line)?;
    out.write_all(text.as_slice())?;
    Ok(())
}

/// Writes what the last row prints.
fn finish<O: Write>(alloc: Global, lines: &str, out: &mut O) -> anyhow::Result<()> {
    let text = row::answer(alloc, lines)?;
    out.write_all(text.as_slice())?;
    out.flush()?;
    Ok(())
}
