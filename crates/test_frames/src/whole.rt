//! Bytes that are no frame, and how frames and errors are shown.

use crate::given::delivery;
use crate::same::{holds, same};
use amqp_frames::{Error, Frame, FrameBody, FrameDecoder};
use amqp_types::ReadError;
use bytes::Bytes;
use std::alloc::{AllocError, Global};
use std::test::Fail;

fn decode(rt: &HostRuntime, bytes: &'static [u8]) -> Result<(Frame, Bytes), Error> {
    FrameDecoder::new().decode(rt.alloc(), Bytes::from_static(bytes))
}

/// Whether the bytes are refused by this error.
fn is_refused(rt: &HostRuntime, bytes: &'static [u8], want: &Error) -> bool {
    let decoded = decode(rt, bytes);
    let answer = match &decoded {
        Ok(_) => false,
        Err(error) => *error == *want,
    };
    drop(decoded);
    answer
}

/// Lengths, sizes and counts of 32 bits that say more than what follows. None of these asks for memory: the test passes too
/// where the first request is refused (`rt try --test --fail-alloc 1`).
const TOO_LONG: [&'static [u8]; 8] = [
    b"\x02\0\0\0\0\x53\x18\xd0\xff\xff\xff\xff\0\0\0\x01\x40",
    b"\x02\0\0\0\0\x53\x18\xd0\0\0\0\x05\xff\xff\xff\xff\x40",
    b"\x02\0\0\0\0\x53\x10\xc0\x07\x01\xb1\xff\xff\xff\xff\x61",
    b"\x02\0\0\0\0\x53\x11\xc0\x0f\x06\x40\x43\x43\x43\x40\xf0\xff\xff\xff\xff\0\0\0\0",
    b"\x02\0\0\0\0\x53\x11\xc0\x10\x06\x40\x43\x43\x43\x40\xf0\0\0\0\x05\xff\xff\xff\xff\xa3",
    b"\x02\0\0\0\0\x53\x14\xc0\x09\x03\x43\x40\xb0\xff\xff\xff\xff\x07",
    b"\x02\0\0\0\0\x53\x15\xc0\x0f\x05\x41\x43\x40\x40\xd0\0\0\0\x05\xff\xff\xff\xff\x40",
    b"\x02\0\0\0\0\xb3\xff\xff\xff\xff\x61\x6d\x71\x70",
];

#[test]
fn lengths_of_32_bits_against_short_input(rt: HostRuntime) {
    for bytes in TOO_LONG {
        same(
            &rt,
            (bytes, is_refused(&rt, bytes, &Error::DecodeError)),
            (bytes, true),
        );
    }
}

#[test]
fn bytes_that_are_no_frame(rt: HostRuntime) {
    let others: [&'static [u8]; 3] = [&[2, 1, 0, 0], &[3, 0, 0, 0, 0, 0, 0, 0], &[3, 1, 0, 0]];
    for bytes in others {
        same(
            &rt,
            (bytes, is_refused(&rt, bytes, &Error::NotImplemented)),
            (bytes, true),
        );
    }
    let malformed: [&'static [u8]; 4] = [
        &[2, 0, 0],
        &[],
        &[2, 0, 0, 0, 0x00, 0x53, 0x10, 0x45],
        &[2, 0, 0, 0, 0x00],
    ];
    for bytes in malformed {
        same(
            &rt,
            (bytes, is_refused(&rt, bytes, &Error::DecodeError)),
            (bytes, true),
        );
    }
}

fn are_equal<T: PartialEq + Drop>(told: T, want: T) -> bool {
    told == want
}

#[test]
fn errors_of_reading_and_of_memory(rt: HostRuntime) {
    holds(
        &rt,
        are_equal(ReadError::Malformed.into(), Error::DecodeError),
    );
    holds(
        &rt,
        are_equal(ReadError::OutOfMemory.into(), Error::OutOfMemory),
    );
    holds(&rt, are_equal(AllocError.into(), Error::OutOfMemory));
}

fn shown_transfer(alloc: Global) -> Result<String, Fail> {
    let transfer = delivery(0);
    let shown = format!(in alloc; "{transfer:?}");
    drop(transfer);
    Ok(shown?)
}

fn shown_body(alloc: Global) -> Result<String, Fail> {
    let body = FrameBody::Transfer {
        performative: delivery(0),
        payload: Bytes::from_static(&[1, 2, 3]),
    };
    let shown = format!(in alloc; "{body:?}");
    drop(body);
    Ok(shown?)
}

fn shown_frame(alloc: Global) -> Result<String, Fail> {
    let frame = Frame::empty();
    let shown = format!(in alloc; "{frame:?}");
    drop(frame);
    Ok(shown?)
}

#[test]
fn how_frames_are_shown(rt: HostRuntime) -> Result<(), Fail> {
    let alloc = rt.alloc();
    let performative = shown_transfer(alloc)?;
    let want = format!(in alloc; "Transfer {{ performative: {performative}, payload.len: 3 }}")?;
    drop(performative);
    holds(&rt, are_equal(shown_body(alloc)?, want));
    let frame = shown_frame(alloc)?;
    same(&rt, frame.as_str(), "Frame { channel: 0, body: Empty }");
    drop(frame);
    Ok(())
}

fn is_shown_as(alloc: Global, error: &Error, want: &str) -> Result<bool, Fail> {
    Ok(format!(in alloc; "{error}")?.as_str() == want)
}

#[test]
fn how_errors_are_shown(rt: HostRuntime) -> Result<(), Fail> {
    let alloc = rt.alloc();
    holds(
        &rt,
        is_shown_as(alloc, &Error::DecodeError, "Decode Error")?,
    );
    holds(
        &rt,
        is_shown_as(alloc, &Error::NotImplemented, "AmqpError: NotImplemented")?,
    );
    holds(&rt, is_shown_as(alloc, &Error::TooLarge, "too large")?);
    holds(
        &rt,
        is_shown_as(alloc, &Error::OutOfMemory, "out of memory")?,
    );
    Ok(())
}
