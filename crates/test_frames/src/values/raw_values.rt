//! Which bytes are a raw value, and what is left after one.

ghost use Rattle.std.specs.Prelude.{◌<◌};

use crate::same::{holds, same};
use crate::values::reading::{Answer, WHOLE, read};
use amqp_values::{Fields, Raw};
use bytes::{Bytes, BytesMut};
use std::alloc::Global;
use std::test::Fail;

#[test]
fn values_are_told_from_other_bytes(rt: HostRuntime) -> Result<(), Fail> {
    let rows: [(&'static [u8], Answer); 32] = [
        (&[0xf0, 0, 0, 0, 5, 0xff, 0xff, 0xff, 0xff, 0x40], WHOLE),
        (&[0xf0, 0, 0, 0, 5, 0xff, 0xff, 0xff, 0xff, 0x45], WHOLE),
        (
            &[0xf0, 0, 0, 0, 6, 0xff, 0xff, 0xff, 0xff, 0x40, 0],
            Answer::Malformed,
        ),
        (&[0xe0, 2, 0, 0x45], WHOLE),
        (&[0xe0, 1, 0], WHOLE),
        (&[0xe0, 4, 0, 0, 0x40, 0xc0], WHOLE),
        (&[0xe0, 3, 2, 0x50, 7], Answer::Malformed),
        (&[0xe0, 4, 2, 0x50, 7, 8], WHOLE),
        (&[0x40], Answer::Malformed),
        (&[0xc1, 2, 1, 0x40], Answer::Malformed),
        (&[0xc1, 3, 2, 0x40, 0x40], WHOLE),
        (&[0x56, 0], WHOLE),
        (&[0x56, 1], WHOLE),
        (&[0x56, 2], Answer::Malformed),
        (&[0x45], WHOLE),
        (&[0xc0, 1, 0], WHOLE),
        (&[0xc0, 2, 1, 0x40], WHOLE),
        (&[0xc0, 3, 1, 0x40, 0x40], Answer::Malformed),
        (&[0xd0, 0, 0, 0, 5, 0, 0, 0, 1, 0x41], WHOLE),
        (&[0xa1, 2, 0xff, 0xff], WHOLE),
        (&[0xa1, 2, 0xff], Answer::Malformed),
        (&[0xb3, 0, 0, 0, 1, 0xff], WHOLE),
        (
            &[0x98, 1, 2, 3, 4, 5, 6, 7, 8, 9, 10, 11, 12, 13, 14, 15, 16],
            WHOLE,
        ),
        (&[0x80, 1, 2, 3, 4, 5, 6, 7], Answer::Malformed),
        (&[0x00, 0x53, 0x24, 0x45], WHOLE),
        (&[0x00, 0x40, 0x40], WHOLE),
        (&[0x00, 0x53, 0x24], Answer::Malformed),
        (&[0x57, 0], Answer::Malformed),
        (&[], Answer::Malformed),
        (&[0x41, 0x40], Answer::Value { left: 1 }),
        (&[0xc0, 1, 0, 0x53, 7], Answer::Value { left: 2 }),
        (&[0xe0, 4, 2, 0x50, 7, 8, 0xff], Answer::Value { left: 1 }),
    ];
    for (bytes, want) in rows {
        let found = read(Bytes::from_static(bytes));
        same(&rt, (bytes, found), (bytes, want));
    }
    Ok(())
}

/// So many lists of one part each, one inside the other; the innermost list is empty.
fn nested(alloc: Global, lists: u8) -> Result<Bytes, Fail>
    requires { lists < 80 }
{
    let mut text = BytesMut::new(alloc);
    for i in 0..lists {
        let inside = lists - 1 - i;
        text.extend_from_slice(&[0xc0, 3 * inside + 2, 1])?;
    }
    text.extend_from_slice(&[0x45])?;
    Ok(text.freeze()?)
}

#[test]
fn a_depth_of_64_is_the_deepest(rt: HostRuntime) -> Result<(), Fail> {
    let deepest = read_nested(rt.alloc(), 63)?;
    same(&rt, deepest, (190, WHOLE));
    let deeper = read_nested(rt.alloc(), 64)?;
    same(&rt, deeper, (193, Answer::Malformed));
    Ok(())
}

/// How long so many lists are, and what they are read as.
fn read_nested(alloc: Global, lists: u8) -> Result<(usize, Answer), Fail>
    requires { lists < 80 }
{
    let text = nested(alloc, lists)?;
    let len = text.len();
    Ok((len, read(text)))
}

#[test]
fn the_rest_is_given_back(rt: HostRuntime) -> Result<(), Fail> {
    let bytes = Bytes::from_static(&[0x53, 7, 0x40, 0xff]);
    let (raw, rest) = Raw::read(bytes)?;
    let is_seven = raw.bytes() == [0x53, 7].as_slice();
    let is_rest = rest.as_slice() == [0x40, 0xff].as_slice();
    drop(raw);
    drop(rest);
    same(&rt, (is_seven, is_rest), (true, true));
    Ok(())
}

/// The value of these bytes.
fn raw(bytes: &'static [u8]) -> Result<Raw, Fail> {
    let (raw, _) = Raw::read(Bytes::from_static(bytes))?;
    Ok(raw)
}

/// Whether the values of two spellings are equal.
fn are_equal(one: &'static [u8], other: &'static [u8]) -> Result<bool, Fail> {
    let one = raw(one)?;
    let answer = is_equal(&one, other);
    drop(one);
    answer
}

fn is_equal(one: &Raw, other: &'static [u8]) -> Result<bool, Fail> {
    let other = raw(other)?;
    let is_same = *one == other && !(*one != other);
    drop(other);
    Ok(is_same)
}

fn is_its_copy(value: &Raw) -> Result<bool, Fail> {
    let copy = value.clone()?;
    let is_same = copy == *value;
    drop(copy);
    Ok(is_same)
}

#[test]
fn values_are_equal_where_their_bytes_are(rt: HostRuntime) -> Result<(), Fail> {
    let wide = &[0x80, 0, 0, 0, 0, 0, 0, 0, 7];
    holds(&rt, are_equal(&[0x53, 7], &[0x53, 7])?);
    holds(&rt, !are_equal(&[0x53, 7], wide)?);
    let seven = raw(&[0x53, 7])?;
    let is_copied = is_its_copy(&seven);
    drop(seven);
    holds(&rt, is_copied?);
    Ok(())
}

/// Whether the fields of a map are there, give the map back, and are the same as their copy.
fn are_the_map(map: Raw) -> Result<[bool; 2], Fail> {
    let copy = map.clone()?;
    let fields = Fields::new(map);
    let answer = match &fields {
        Some(fields) => [*fields.raw() == copy, are_their_copy(fields)],
        None => [false; 2],
    };
    drop(fields);
    Ok(answer)
}

fn are_their_copy(fields: &Fields) -> bool {
    match fields.clone() {
        Ok(copy) => *fields == copy,
        Err(_) => false,
    }
}

fn are_fields(raw: Raw) -> bool {
    Fields::new(raw).is_some()
}

#[test]
fn fields_are_maps(rt: HostRuntime) -> Result<(), Fail> {
    let map = are_the_map(raw(&[0xc1, 6, 2, 0xa3, 1, 0x78, 0x52, 5])?)?;
    let wide = are_fields(raw(&[0xd1, 0, 0, 0, 4, 0, 0, 0, 0])?);
    let list = are_fields(raw(&[0xc0, 3, 2, 0x40, 0x40])?);
    same(&rt, map, [true; 2]);
    holds(&rt, wide);
    holds(&rt, !list);
    Ok(())
}
