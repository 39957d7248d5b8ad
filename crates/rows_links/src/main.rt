//! Rows of the links of a session: each line of the input is a call of `SessionLinks`, and the output is what it answers.
//!
//! | Line | Call |
//! |---|---|
//! | `# TEXT` | none: a row begins, and the line is repeated |
//! | `new` | `new` |
//! | `room HANDLE` | `make_room` |
//! | `sender HANDLE COUNT` | `add_sender` |
//! | `receiver HANDLE LOW HIGH LIMIT` | `add_receiver`; without renewal LOW is `-` |
//! | `attach HANDLE ACCEPTED COUNT LIMIT` | `on_attach` |
//! | `flow HANDLE COUNT CREDIT DRAIN ECHO` | `on_flow` |
//! | `answer HANDLE AVAILABLE`, `grant HANDLE CREDIT`, `drain HANDLE`, `renew HANDLE` | the calls of these names |
//! | `prepare-flow LINE`, `finish-flow` | `prepare_flow`, by one of the four lines before, and `finish_flow` |
//! | `send HANDLE NUMBER SIZE END SETTLED GIVEN` | `send`; END is `more`, `last` or `aborted` |
//! | `prepare-send HANDLE ..`, `finish-send`, `cancel-send` | `prepare_send`, by the same words, `finish_send` and `cancel_send` |
//! | `transfer HANDLE NUMBER TAG FORMAT SETTLED MORE ABORTED SIZE GIVEN` | `on_transfer`; TAG is `same`, `new` or `-` |
//! | `settle-sent FIRST LAST`, `settle-received FIRST LAST` | `settle_sent`, `settle_received` |
//! | `sent NUMBER`, `received NUMBER` | `sent`, `received` |
//! | `detach HANDLE`, `on-detach HANDLE` | `detach`, `on_detach` |
//! | `left HANDLE`, `left-of-sent`, `left-of-received` | `left_next`, `left_of_sent`, `left_of_received` |
//! | `remove HANDLE`, `end HANDLE` | `remove`, `end` |
//!
//! A `-` says that a field is not set; what is true or false is `true` or `false`.
//!
//! An answer is `ok`, `none`, a name, or `err` and the refusal, after which the condition stands by which the link ends. A flow is `flow` and
//! its fields, what was used up `used`, an unsettled delivery `entry` with its number, link and value, a value that is given back `given`. A part is
//! `part`, whether it is the first one, its delivery's number, whether that ends, is settled, and its size.
#![tactic(auto)]

mod answer;
mod flows;
mod held;
mod links;
mod parts;
mod row;
mod settling;
mod words;

use held::Held;
use std::io::{self, BufRead, BufReader, BufWriter, Write};

fn main(rt: HostRuntime) -> anyhow::Result<()> {
    let mut held = Held::new(rt.alloc());
    let outcome = run(&rt, &mut held);
    // prover
    drop(held);
    outcome
}

/// Gives the links the lines of the input, and prints what they answer.
fn run(rt: &HostRuntime, held: &mut Held) -> anyhow::Result<()> {
    let alloc = rt.alloc();
    let mut out = BufWriter::new(alloc, io::writer(rt))?;
    for line in BufReader::new(alloc, rt.reader())?.lines(alloc) {
        let text = row::answer(alloc, held, line?.as_str())?;
        out.write_all(text.as_bytes())?;
    }
    out.flush()?;
    Ok(())
}
