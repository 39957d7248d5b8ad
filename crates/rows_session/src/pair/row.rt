//! A line of the rows, and what it prints.

use super::call;
use amqp_session::{SessionPair, SessionSettings, Side};
use std::alloc::Global;
use std::mem;
use test_support::{RowRelay, words};

/// What a line prints.
pub fn answer(
    alloc: Global,
    pair: &mut SessionPair<RowRelay>,
    line: &str,
) -> anyhow::Result<String> {
    match line.split_once(' ') {
        Some(("#", _)) => Ok(format!(in alloc; "{line}\n")?),
        Some(("new", numbers)) => made_anew(alloc, pair, numbers),
        Some(_) => Err(anyhow::anyhow!("no line of a pair")),
        None => calls(alloc, pair, line),
    }
}

/// The settings of a session, by its first number and its window: the first two words of the text; and what follows them.
fn settings(text: &str) -> anyhow::Result<(SessionSettings, &str)> {
    let (first, rest) = words::word(text);
    let (window, rest) = words::word(rest);
    let first = words::number(first)?;
    let window = words::number(window)?;
    let mut settings = SessionSettings::new();
    settings.next_outgoing_id = first;
    settings.incoming_window = window;
    Ok((settings, rest))
}

fn made_anew(
    alloc: Global,
    pair: &mut SessionPair<RowRelay>,
    text: &str,
) -> anyhow::Result<String> {
    let (a, rest) = settings(text)?;
    match settings(rest) {
        Ok((b, _)) => {
            // prover
            drop(mem::replace(pair, SessionPair::new(alloc, a, b)));
            Ok(String::new(alloc))
        }
        Err(error) => {
            drop(a);
            Err(error)
        }
    }
}

/// The answers of several calls, a sum over the numbers of both sides after each of them, and what both show in the end.
fn calls(alloc: Global, pair: &mut SessionPair<RowRelay>, letters: &str) -> anyhow::Result<String> {
    let mut said = String::new(alloc);
    let sum = each(alloc, pair, letters, &mut said);
    let text = match sum {
        Ok(sum) => told(alloc, pair, said.as_str(), sum),
        Err(error) => Err(error),
    };
    drop(said);
    text
}

/// Appends the answers, and gives the sum.
fn each(
    alloc: Global,
    pair: &mut SessionPair<RowRelay>,
    letters: &str,
    said: &mut String,
) -> anyhow::Result<u64> {
    let mut sum = 0;
    for letter in letters.as_bytes() {
        said.push_str(one(alloc, pair, *letter)?)?;
        sum = over(over(sum, pair, Side::A), pair, Side::B);
    }
    Ok(sum)
}

fn told(
    alloc: Global,
    pair: &SessionPair<RowRelay>,
    said: &str,
    sum: u64,
) -> anyhow::Result<String> {
    let a = shown(alloc, pair, Side::A)?;
    let b = shown(alloc, pair, Side::B)?;
    Ok(format!(in alloc; "{said} {sum}\nA {a}\nB {b}\n")?)
}

/// A small letter is a call of A, a capital one a call of B.
fn one(
    alloc: Global,
    pair: &mut SessionPair<RowRelay>,
    letter: u8,
) -> anyhow::Result<&'static str> {
    let side = if letter.is_ascii_lowercase() {
        Side::A
    } else {
        Side::B
    };
    call::answer(alloc, pair, side, letter.to_ascii_lowercase())
}

/// The numbers that a side shows.
fn numbers(pair: &SessionPair<RowRelay>, side: Side) -> [u64; 7] {
    let session = pair.session(side);
    [
        session.next_outgoing_id() as u64,
        session.remote_incoming_window() as u64,
        session.next_incoming_id() as u64,
        session.remote_outgoing_window() as u64,
        session.held_back() as u64,
        session.open_deliveries() as u64,
        pair.on_the_way(side) as u64,
    ]
}

/// The sum goes on over the numbers that a side shows.
fn over(sum: u64, pair: &SessionPair<RowRelay>, side: Side) -> u64 {
    let mut sum = sum;
    for number in numbers(pair, side) {
        sum = sum.wrapping_mul(1000003).wrapping_add(number);
    }
    sum
}

fn shown(alloc: Global, pair: &SessionPair<RowRelay>, side: Side) -> anyhow::Result<String> {
    let state = pair.session(side).local_state();
    let [next, window, incoming, outgoing, held, open, coming] = numbers(pair, side);
    Ok(format!(in alloc;
        "{state:?} next={next} window={window} incoming={incoming} outgoing={outgoing} held={held} open={open} coming={coming}"
    )?)
}
