//! Calls of a session for dispositions, and their answers.

use crate::{answer, kinds, reading};
use amqp_session::{Session, SessionInnerError, num_messages_settled_by_disposition};
use amqp_types::Disposition;
use std::alloc::Global;
use std::vec::IntoIter;
use test_support::{RowRelay, words};

/// The lines of the echoes that a received disposition is answered.
pub fn echoed(
    alloc: Global,
    answer: Result<Option<Vec<Disposition>>, SessionInnerError>,
) -> anyhow::Result<String> {
    match answer {
        Ok(None) => answer::line(alloc, "none"),
        Ok(Some(echoes)) => all(alloc, echoes),
        Err(error) => answer::refused(alloc, error),
    }
}

/// The lines of several dispositions.
fn all(alloc: Global, echoes: Vec<Disposition>) -> anyhow::Result<String> {
    let mut rest = echoes.into_iter();
    let text = left(alloc, &mut rest);
    drop(rest);
    text
}

/// The lines of the dispositions that are left.
fn left(alloc: Global, rest: &mut IntoIter<Disposition>) -> anyhow::Result<String> {
    let mut text = answer::line(alloc, "list")?;
    for echo in rest {
        text.push_str(answer::disposition(alloc, echo)?.as_str())?;
    }
    Ok(text)
}

/// What is handed out for a disposition.
pub fn sent(
    alloc: Global,
    session: &mut Session<RowRelay>,
    digits: &str,
) -> anyhow::Result<String> {
    let said = kinds::disposition(alloc, digits)?;
    answer::frame(alloc, session.on_outgoing_disposition(said))
}

/// Whether the counts of the latest walk are within these bounds; the counts, where they are not.
pub fn walk(alloc: Global, session: &Session<RowRelay>, text: &str) -> anyhow::Result<String> {
    let (least, rest) = words::word(text);
    let (most, comparisons) = words::word(rest);
    let walk = session.last_walk();
    let (turns, compared) = (walk.turns, walk.comparisons);
    let is_in = turns >= words::number(least)? as u64 && turns <= words::number(most)? as u64;
    if is_in && compared <= words::number(comparisons)? {
        return answer::line(alloc, "ok");
    }
    Ok(format!(in alloc; "turns={turns} comparisons={compared}\n")?)
}

/// How many messages a disposition settles over a range of numbers.
pub fn messages(alloc: Global, text: &str) -> anyhow::Result<String> {
    let (first, last) = range(text)?;
    let count = num_messages_settled_by_disposition(first, last);
    Ok(format!(in alloc; "{count}\n")?)
}

/// How many open deliveries of a range are let go, in which this side has a role.
pub fn settled(
    alloc: Global,
    session: &mut Session<RowRelay>,
    text: &str,
) -> anyhow::Result<String> {
    let (role, rest) = words::word(text);
    let role = reading::role(role)?;
    let (first, last) = range(rest)?;
    let count = session.settle(role, first, last);
    Ok(format!(in alloc; "{count}\n")?)
}

/// The first number of a range, and the last one, where it is named.
fn range(text: &str) -> anyhow::Result<(u32, Option<u32>)> {
    let (first, last) = words::word(text);
    let first = words::number(first)?;
    let last = match last {
        "" => None,
        last => Some(words::number(last)?),
    };
    Ok((first, last))
}
