//! Untrusted values: deep ones, and sizes and counts that promise more than there is.

use crate::same::same;
use crate::values::reading::{Answer, WHOLE, read};
use bytes::{Bytes, BytesMut};
use std::alloc::Global;
use std::test::Fail;

/// A value of this depth: described values, one inside the other; the innermost value has no depth.
fn described(alloc: Global, depth: u8) -> Result<Bytes, Fail> {
    let mut text = BytesMut::new(alloc);
    for _ in 0..depth {
        text.extend_from_slice(&[0x00, 0x53, 0x24])?;
    }
    text.extend_from_slice(&[0x41])?;
    Ok(text.freeze()?)
}

/// A value of this depth: descriptors, one inside the other.
fn in_descriptors(alloc: Global, depth: u8) -> Result<Bytes, Fail> {
    let mut text = BytesMut::new(alloc);
    for _ in 0..depth {
        text.extend_from_slice(&[0x00])?;
    }
    text.extend_from_slice(&[0x44])?;
    for _ in 0..depth {
        text.extend_from_slice(&[0x41])?;
    }
    Ok(text.freeze()?)
}

/// Arrays of one element each, `around` of them, one inside the other; the innermost array has no element. The depth is
/// `around` + 1.
fn arrays(alloc: Global, around: u8) -> Result<Bytes, Fail> {
    let mut text = BytesMut::new(alloc);
    text.extend_from_slice(&[0xe0])?;
    for inside in (0..around).rev() {
        let size = inside.saturating_mul(3).saturating_add(5);
        text.extend_from_slice(&[size, 1, 0xe0])?;
    }
    text.extend_from_slice(&[2, 0, 0x40])?;
    Ok(text.freeze()?)
}

/// Maps, `around` of them, each the value of a key in the one before; the innermost map is empty. The depth is `around` + 1.
fn maps(alloc: Global, around: u8) -> Result<Bytes, Fail> {
    let mut text = BytesMut::new(alloc);
    for inside in (0..around).rev() {
        let size = u32::from(inside) * 11 + 9;
        text.extend_from_slice(&[0xd1])?;
        text.extend_from_slice(&size.to_be_bytes())?;
        text.extend_from_slice(&[0, 0, 0, 2, 0x52, 7])?;
    }
    text.extend_from_slice(&[0xc1, 1, 0])?;
    Ok(text.freeze()?)
}

#[test]
fn described_values_nest_64_times(rt: HostRuntime) -> Result<(), Fail> {
    for (depth, want) in [(63, WHOLE), (64, WHOLE), (65, Answer::Malformed)] {
        let found = read(described(rt.alloc(), depth)?);
        same(&rt, (depth, found), (depth, want));
        let found = read(in_descriptors(rt.alloc(), depth)?);
        same(&rt, (depth, found), (depth, want));
    }
    Ok(())
}

#[test]
fn arrays_and_maps_nest_64_times(rt: HostRuntime) -> Result<(), Fail> {
    for (around, want) in [(62, WHOLE), (63, WHOLE), (64, Answer::Malformed)] {
        let found = read(arrays(rt.alloc(), around)?);
        same(&rt, ("arrays", around, found), ("arrays", around, want));
        let found = read(maps(rt.alloc(), around)?);
        same(&rt, ("maps", around, found), ("maps", around, want));
    }
    Ok(())
}

/// Lengths, sizes and counts of 32 bits that say more than what follows. None of these asks for memory: the test passes too
/// where the first request is refused (`rt try --test --fail-alloc 1`).
const TOO_LONG: [&'static [u8]; 12] = [
    &[0xb0, 0xff, 0xff, 0xff, 0xff, 0x61],
    &[0xb1, 0xff, 0xff, 0xff, 0xff, 0x61],
    &[0xb3, 0xff, 0xff, 0xff, 0xff, 0x61],
    &[0xd0, 0xff, 0xff, 0xff, 0xff, 0, 0, 0, 1, 0x40],
    &[0xd0, 0, 0, 0, 5, 0xff, 0xff, 0xff, 0xff, 0x40],
    &[0xd1, 0xff, 0xff, 0xff, 0xff, 0, 0, 0, 2, 0x40, 0x40],
    &[0xd1, 0, 0, 0, 6, 0xff, 0xff, 0xff, 0xfe, 0x40, 0x40],
    &[0xf0, 0xff, 0xff, 0xff, 0xff, 0, 0, 0, 1, 0x50, 7],
    &[0xf0, 0, 0, 0, 6, 0xff, 0xff, 0xff, 0xff, 0x50, 7],
    &[0xf0, 0, 0, 0, 7, 0xff, 0xff, 0xff, 0xff, 0xa0, 1, 7],
    &[
        0xf0, 0, 0, 0, 8, 0xff, 0xff, 0xff, 0xff, 0x00, 0x44, 0x50, 7,
    ],
    &[0xf0, 0, 0, 0, 8, 0xff, 0xff, 0xff, 0xff, 0xe0, 2, 0, 0x40],
];

#[test]
fn lengths_of_32_bits_against_short_input(rt: HostRuntime) {
    for bytes in TOO_LONG {
        let found = read(Bytes::from_static(bytes));
        same(&rt, (bytes, found), (bytes, Answer::Malformed));
    }
}
