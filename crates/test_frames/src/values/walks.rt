//! Walks over the parts of a list.

use crate::same::same;
use amqp_values::{ListWalk, ReadError};
use bytes::Bytes;
use std::alloc::Global;

/// What a list at the front of bytes has for its fields.
#[derive(Clone, Copy, Debug, PartialEq)]
enum Found {
    /// A number that is mandatory, another, and a boolean that is true by default; and so many bytes after the list.
    Fields(u32, Option<u16>, bool, usize),
    /// No list of these.
    Malformed,
    /// Memory was refused.
    OutOfMemory,
}

fn walk_over(alloc: Global, bytes: &'static [u8]) -> Result<Found, ReadError> {
    let (mut walk, end) = ListWalk::enter(bytes)?;
    let (text, left) = bytes.split_at(end);
    let whole = Bytes::from_static(bytes);
    let first = walk.required(alloc, text, &whole)?;
    let second = walk.next(alloc, text, &whole)?;
    let third = walk.or(alloc, text, &whole, true)?;
    walk.finish(text)?;
    Ok(Found::Fields(first, second, third, left.len()))
}

fn read(alloc: Global, bytes: &'static [u8]) -> Found {
    match walk_over(alloc, bytes) {
        Ok(fields) => fields,
        Err(ReadError::Malformed) => Found::Malformed,
        Err(ReadError::OutOfMemory) => Found::OutOfMemory,
    }
}

#[test]
fn fields_are_read_one_after_the_other(rt: HostRuntime) {
    let whole = b"\xc0\x07\x03\x43\x60\x01\x02\x56\x00";
    same(
        &rt,
        read(rt.alloc(), whole),
        Found::Fields(0, Some(258), false, 0),
    );
    let null = b"\xc0\x05\x03\x52\x05\x40\x42\xff";
    same(
        &rt,
        read(rt.alloc(), null),
        Found::Fields(5, None, false, 1),
    );
    let short = b"\xc0\x03\x01\x52\x05";
    same(
        &rt,
        read(rt.alloc(), short),
        Found::Fields(5, None, true, 0),
    );
    let long = b"\xd0\x00\x00\x00\x06\x00\x00\x00\x01\x52\x05\x45\x45";
    same(&rt, read(rt.alloc(), long), Found::Fields(5, None, true, 2));
}

#[test]
fn lists_of_other_fields_are_malformed(rt: HostRuntime) {
    for bytes in [
        b"\x45".as_slice(),
        b"\xc0\x02\x01\x40",
        b"\xc0\x03\x01\xa1\x00",
        b"\xc0\x05\x04\x43\x40\x40\x40",
        b"\xc0\x04\x02\x43\x40\x40",
        b"\xc0\x03\x02\x43\x60",
        b"\xc0\x04\x01\x43",
        b"\xc1\x03\x01\x52\x05",
        b"",
    ] {
        same(&rt, read(rt.alloc(), bytes), Found::Malformed);
    }
}
