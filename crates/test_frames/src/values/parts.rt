//! The code, the descriptor and the parts of a value.

use crate::same::{holds, same};
use amqp_values::{Raw, ValueRef};
use bytes::Bytes;
use std::test::Fail;

/// The value of these bytes.
fn raw(bytes: &'static [u8]) -> Result<Raw, Fail> {
    let (raw, _) = Raw::read(Bytes::from_static(bytes))?;
    Ok(raw)
}

/// Whether there is a value, and it is these bytes.
fn is_value(value: Option<ValueRef>, bytes: &[u8]) -> bool {
    match value {
        Some(value) => value.bytes() == bytes,
        None => false,
    }
}

/// Whether it has the code of a map, its own bytes, no descriptor and no value inside.
fn shows_a_map(map: &Raw) -> [bool; 4] {
    let view = map.view();
    [
        view.code() == 0xc1,
        view.bytes() == map.bytes(),
        view.descriptor().is_none(),
        view.inner().is_none(),
    ]
}

/// Whether it gives a key, its value, and then nothing, twice.
fn gives_a_key_and_a_value(map: &Raw) -> [bool; 4] {
    let Some(mut items) = map.view().items() else {
        return [false; 4];
    };
    [
        is_value(items.next(), &[0xa3, 1, 0x78]),
        is_value(items.next(), &[0x52, 5]),
        items.next().is_none(),
        items.next().is_none(),
    ]
}

#[test]
fn a_map_gives_its_keys_and_values_in_turn(rt: HostRuntime) -> Result<(), Fail> {
    let map = raw(&[0xc1, 6, 2, 0xa3, 1, 0x78, 0x52, 5])?;
    let shown = shows_a_map(&map);
    let given = gives_a_key_and_a_value(&map);
    drop(map);
    same(&rt, shown, [true; 4]);
    same(&rt, given, [true; 4]);
    Ok(())
}

/// Whether it has the code of a described value, and no items.
fn shows_a_described_value(accepted: &Raw) -> [bool; 2] {
    let view = accepted.view();
    [view.code() == 0, view.items().is_none()]
}

/// Whether its descriptor has these bytes and this code.
fn has_its_descriptor(accepted: &Raw) -> [bool; 2] {
    match accepted.view().descriptor() {
        Some(it) => [it.bytes() == [0x53, 0x24].as_slice(), it.code() == 0x53],
        None => [false; 2],
    }
}

/// Whether the value inside it has these bytes and no items.
fn has_a_list_inside(accepted: &Raw) -> [bool; 2] {
    match accepted.view().inner() {
        Some(it) => [it.bytes() == [0x45].as_slice(), is_without_items(&it)],
        None => [false; 2],
    }
}

/// Whether it is a list or a map, of no parts.
fn is_without_items(value: &ValueRef) -> bool {
    match value.items() {
        Some(mut items) => items.next().is_none(),
        None => false,
    }
}

#[test]
fn a_described_value_has_a_descriptor_and_a_value_inside(rt: HostRuntime) -> Result<(), Fail> {
    let accepted = raw(&[0x00, 0x53, 0x24, 0x45])?;
    let shown = shows_a_described_value(&accepted);
    let descriptor = has_its_descriptor(&accepted);
    let inside = has_a_list_inside(&accepted);
    drop(accepted);
    same(&rt, shown, [true; 2]);
    same(&rt, descriptor, [true; 2]);
    same(&rt, inside, [true; 2]);
    Ok(())
}

#[test]
fn lists_and_maps_alone_have_items(rt: HostRuntime) -> Result<(), Fail> {
    let rows: [(&'static [u8], Option<usize>); 9] = [
        (&[0x45], Some(0)),
        (&[0xc0, 1, 0], Some(0)),
        (&[0xc0, 3, 2, 0x40, 0x41], Some(2)),
        (&[0xd0, 0, 0, 0, 6, 0, 0, 0, 2, 0x40, 0x41], Some(2)),
        (&[0xd1, 0, 0, 0, 6, 0, 0, 0, 2, 0x40, 0x41], Some(2)),
        (&[0xf0, 0, 0, 0, 5, 0xff, 0xff, 0xff, 0xff, 0x40], None),
        (&[0xe0, 4, 2, 0x50, 7, 8], None),
        (&[0x00, 0x53, 0x24, 0x45], None),
        (&[0x53, 7], None),
    ];
    for (bytes, want) in rows {
        let value = raw(bytes)?;
        let count = value.view().items().map(|items| items.count());
        drop(value);
        same(&rt, (bytes, count), (bytes, want));
    }
    Ok(())
}

/// Whether the values of two spellings are alike.
fn are_alike(one: &'static [u8], other: &'static [u8]) -> Result<bool, Fail> {
    let one = raw(one)?;
    let answer = is_like(&one, other);
    drop(one);
    answer
}

fn is_like(one: &Raw, other: &'static [u8]) -> Result<bool, Fail> {
    let other = raw(other)?;
    let is_same = one.view() == other.view() && !(one.view() != other.view());
    drop(other);
    Ok(is_same)
}

fn is_like_its_copy(value: &Raw) -> Result<bool, Fail> {
    let copy = value.view().clone()?;
    Ok(value.view() == copy)
}

#[test]
fn values_are_compared_by_their_spelling(rt: HostRuntime) -> Result<(), Fail> {
    holds(&rt, are_alike(&[0x52, 5], &[0x52, 5])?);
    holds(&rt, !are_alike(&[0x52, 5], &[0x70, 0, 0, 0, 5])?);
    let five = raw(&[0x52, 5])?;
    let is_copied = is_like_its_copy(&five);
    drop(five);
    holds(&rt, is_copied?);
    Ok(())
}

/// Whether parts are unlike their copy once one of them is taken, and like it again once one is taken there too.
fn is_like_a_copy_in_step(list: &Raw) -> Result<[bool; 3], Fail> {
    let Some(mut items) = list.view().items() else {
        return Ok([false; 3]);
    };
    let mut copy = items.clone()?;
    let before = items == copy;
    let first = items.next();
    let ahead = items != copy;
    let again = copy.next();
    Ok([before, ahead, first == again && items == copy])
}

#[test]
fn parts_are_compared_by_what_is_left(rt: HostRuntime) -> Result<(), Fail> {
    let list = raw(&[0xc0, 3, 2, 0x40, 0x40])?;
    let alike = is_like_a_copy_in_step(&list)?;
    same(&rt, alike, [true; 3]);
    Ok(())
}

/// Whether the parts of two lists are the same.
fn have_the_same_parts(one: &'static [u8], other: &'static [u8]) -> Result<bool, Fail> {
    let one = raw(one)?;
    let answer = has_the_parts_of(&one, other);
    drop(one);
    answer
}

fn has_the_parts_of(one: &Raw, other: &'static [u8]) -> Result<bool, Fail> {
    let other = raw(other)?;
    let is_same = one.view().items() == other.view().items();
    drop(other);
    Ok(is_same)
}

#[test]
fn parts_are_the_same_in_a_short_list_and_in_a_long_one(rt: HostRuntime) -> Result<(), Fail> {
    let short = &[0xc0, 3, 2, 0x40, 0x41];
    let long = &[0xd0, 0, 0, 0, 6, 0, 0, 0, 2, 0x40, 0x41];
    holds(&rt, have_the_same_parts(short, long)?);
    holds(&rt, !have_the_same_parts(short, &[0xc0, 3, 2, 0x41, 0x40])?);
    Ok(())
}
