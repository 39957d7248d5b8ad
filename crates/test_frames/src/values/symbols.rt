//! Symbols, one and many, and the error for refused memory.

use crate::same::{holds, same};
use amqp_values::{Field, ReadError, Symbol};
use bytes::Bytes;
use std::alloc::{AllocError, Global};
use std::test::Fail;

fn symbol(alloc: Global, text: &str) -> Result<Option<Symbol>, Fail> {
    Ok(Symbol::new(String::from_str(alloc, text)?))
}

/// Whether the text makes a symbol that gives the text back and equals its copy.
fn is_symbol(alloc: Global, text: &str) -> Result<bool, Fail> {
    match symbol(alloc, text)? {
        Some(symbol) => {
            let copy = symbol.clone()?;
            Ok(symbol.as_str() == text && copy == symbol)
        }
        None => Ok(false),
    }
}

#[test]
fn symbols_are_texts_of_ascii_bytes(rt: HostRuntime) -> Result<(), Fail> {
    let rows = [
        ("", true),
        ("amqp:not-found", true),
        ("\0\u{7f}", true),
        ("\u{80}", false),
        ("x\u{e9}", false),
    ];
    for (text, want) in rows {
        let found = is_symbol(rt.alloc(), text)?;
        same(&rt, (text, found), (text, want));
    }
    Ok(())
}

#[test]
fn symbols_of_other_texts_are_others(rt: HostRuntime) -> Result<(), Fail> {
    let one = symbol(rt.alloc(), "amqp:accepted:list")?.ok_or("a symbol")?;
    let other = symbol(rt.alloc(), "amqp:accepted:lisp")?.ok_or("a symbol")?;
    let are_others = one != other;
    drop(one);
    drop(other);
    holds(&rt, are_others);
    Ok(())
}

#[test]
fn want_of_memory_is_no_malformed_value(rt: HostRuntime) {
    assert_eq!(rt; ReadError::from(AllocError), ReadError::OutOfMemory);
}

/// What stands at the front of bytes.
#[derive(Clone, Copy, Debug, PartialEq)]
enum Many {
    /// So many symbols whose texts have so many bytes, in a list with so much room; and so many bytes after them.
    Symbols {
        count: usize,
        len: usize,
        room: usize,
        left: usize,
    },
    /// No symbols.
    Malformed,
    /// Memory was refused.
    OutOfMemory,
}

fn text_len(symbols: &[Symbol]) -> usize {
    let mut len: usize = 0;
    for symbol in symbols {
        len = len.saturating_add(symbol.as_str().len());
    }
    len
}

fn read(alloc: Global, bytes: &'static [u8]) -> Many {
    let [code, ..] = bytes else {
        return Many::Malformed;
    };
    let mut place = 1;
    let whole = Bytes::from_static(bytes);
    let read = <Vec<Symbol> as Field>::read(alloc, *code, bytes, &mut place, &whole);
    let answer = match &read {
        Ok(symbols) => Many::Symbols {
            count: symbols.len(),
            len: text_len(symbols.as_slice()),
            room: symbols.capacity(),
            left: bytes.len() - place,
        },
        Err(ReadError::Malformed) => Many::Malformed,
        Err(ReadError::OutOfMemory) => Many::OutOfMemory,
    };
    drop(read);
    answer
}

#[test]
fn many_symbols_are_read_into_a_list_of_their_number(rt: HostRuntime) {
    let three = Many::Symbols {
        count: 3,
        len: 3,
        room: 3,
        left: 1,
    };
    let short = b"\xe0\x08\x03\xa3\x00\x02ab\x01c\x40";
    same(&rt, read(rt.alloc(), short), three);
    let long =
        b"\xf0\x00\x00\x00\x14\x00\x00\x00\x03\xb3\x00\x00\x00\x00\x00\x00\x00\x02ab\x00\x00\x00\x01c\x40";
    same(&rt, read(rt.alloc(), long), three);
    let alone = Many::Symbols {
        count: 1,
        len: 2,
        room: 1,
        left: 1,
    };
    same(&rt, read(rt.alloc(), b"\xa3\x02ab\x40"), alone);
}

/// Also where the first request for memory is refused.
#[test]
fn symbols_of_a_wrong_count_are_malformed(rt: HostRuntime) {
    for bytes in [
        b"\xe0\x08\x02\xa3\x00\x02ab\x01c",
        b"\xe0\x08\x04\xa3\x00\x02ab\x01c",
        b"\xe0\x08\x03\xa3\x00\x02ab\x02c",
        b"\xe0\x08\x03\xa3\x00\x02ab\x01\xff",
    ] {
        same(&rt, read(rt.alloc(), bytes), Many::Malformed);
    }
    let many = b"\xf0\x00\x00\x00\x08\xff\xff\xff\xff\xa3\x00\x00\x00";
    same(&rt, read(rt.alloc(), many), Many::Malformed);
}
