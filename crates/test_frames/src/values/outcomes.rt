//! Which delivery states are terminal.

use crate::same::same;
use amqp_values::{Raw, is_terminal};
use bytes::{Bytes, BytesMut};
use std::alloc::Global;
use std::test::Fail;

/// Whether the value of these bytes is a terminal state; `None` where they are no value.
fn is_terminal_value(bytes: Bytes) -> Option<bool> {
    let read = Raw::read(bytes);
    let answer = match &read {
        Ok((state, _)) => Some(is_terminal(state)),
        Err(_) => None,
    };
    drop(read);
    answer
}

/// The same of bytes that are these parts, one after the other.
fn is_terminal_text(
    alloc: Global,
    head: &[u8],
    middle: &[u8],
    tail: &[u8],
) -> Result<Option<bool>, Fail> {
    let mut text = BytesMut::new(alloc);
    text.extend_from_slice(head)?;
    text.extend_from_slice(middle)?;
    text.extend_from_slice(tail)?;
    Ok(is_terminal_value(text.freeze()?))
}

#[test]
fn states_by_number(rt: HostRuntime) -> Result<(), Fail> {
    for number in 0x20u8..0x2c {
        let want = Some(0x24 <= number && number <= 0x27);
        let small = is_terminal_text(rt.alloc(), &[0x00, 0x53], &[number], &[0x45])?;
        same(&rt, (0x53, number, small), (0x53, number, want));
        let code = [0x00, 0x80, 0, 0, 0, 0, 0, 0, 0];
        let large = is_terminal_text(rt.alloc(), &code, &[number], &[0x45])?;
        same(&rt, (0x80, number, large), (0x80, number, want));
    }
    Ok(())
}

#[test]
fn states_by_name(rt: HostRuntime) -> Result<(), Fail> {
    let rows: [(&'static [u8], bool); 7] = [
        (b"amqp:received:list", false),
        (b"amqp:accepted:list", true),
        (b"amqp:rejected:list", true),
        (b"amqp:released:list", true),
        (b"amqp:modified:list", true),
        (b"amqp:accepted:lisp", false),
        (b"amqp:declared:list", false),
    ];
    for (name, want) in rows {
        let short = is_terminal_text(rt.alloc(), &[0x00, 0xa3, 18], name, &[0x45])?;
        same(&rt, (0xa3, name, short), (0xa3, name, Some(want)));
        let head = [0x00, 0xb3, 0, 0, 0, 18];
        let long = is_terminal_text(rt.alloc(), &head, name, &[0xc0, 1, 0])?;
        same(&rt, (0xb3, name, long), (0xb3, name, Some(want)));
    }
    Ok(())
}

#[test]
fn other_values_are_not_terminal(rt: HostRuntime) {
    let rows: [&'static [u8]; 6] = [
        &[0x45],
        &[0x53, 0x24],
        &[0x00, 0x52, 0x24, 0x45],
        &[0x00, 0x44, 0x45],
        &[0x00, 0xa1, 1, 0x24, 0x45],
        &[0x00, 0x80, 0x24, 0, 0, 0, 0, 0, 0, 0x24, 0x45],
    ];
    for row in rows {
        let answer = is_terminal_value(Bytes::from_static(row));
        same(&rt, (row, answer), (row, Some(false)));
    }
}

#[test]
fn outcomes_without_fields(rt: HostRuntime) {
    for (outcome, number) in [
        (Raw::accepted(), 0x24u8),
        (Raw::released(), 0x26),
        (Raw::modified(), 0x27),
    ] {
        let is_spelled = outcome.bytes() == [0x00, 0x53, number, 0x45].as_slice();
        let ends = is_terminal(&outcome);
        drop(outcome);
        same(&rt, (number, is_spelled, ends), (number, true, true));
    }
}

/// How long the value is that these bytes are, if they are one.
fn value_len(bytes: &'static [u8]) -> Option<usize> {
    let value = Raw::of_bytes(Bytes::from_static(bytes));
    let len = match &value {
        Some(value) => Some(value.bytes().len()),
        None => None,
    };
    drop(value);
    len
}

#[test]
fn bytes_that_are_one_value(rt: HostRuntime) {
    same(&rt, value_len(b"\x43"), Some(1));
    same(&rt, value_len(b"\xa1\x02ab"), Some(4));
    same(&rt, value_len(b"\x43\x43"), None);
    same(&rt, value_len(b"\x40"), None);
    same(&rt, value_len(b"\xa1\x02a"), None);
    same(&rt, value_len(b""), None);
}
