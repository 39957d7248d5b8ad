//! What waits to be sent: sizes, heads and payloads, which are copied, shared or cut.

ghost use Rattle.std.specs.Prelude.{◌≤◌};

use crate::given::{continuation, delivery, payload};
use crate::same::holds;
use amqp_frames::{Error, Frame, FrameBody, FrameEncoder, SendBuffer};
use amqp_types::Transfer;
use bytes::Bytes;
use std::alloc::Global;
use std::test::Fail;

/// A delivery with a payload of four bytes, after its size.
const WHOLE: [u8; 28] = [
    0x00, 0x00, 0x00, 0x1c, 0x02, 0x00, 0x00, 0x00, 0x00, 0x53, 0x14, 0xc0, 0x0b, 0x05, 0x43, 0x43,
    0xa0, 0x04, 0x00, 0x00, 0x00, 0x01, 0x43, 0x42, 0x00, 0x01, 0x02, 0x03,
];

/// A delivery with a payload of eleven bytes, cut under a limit of 24 bytes: three bytes, and eight.
const CUT: [u8; 51] = [
    0x00, 0x00, 0x00, 0x1c, 0x02, 0x00, 0x00, 0x00, 0x00, 0x53, 0x14, 0xc0, 0x0c, 0x06, 0x43, 0x43,
    0xa0, 0x04, 0x00, 0x00, 0x00, 0x01, 0x43, 0x42, 0x41, 0x00, 0x01, 0x02, 0x00, 0x00, 0x00, 0x17,
    0x02, 0x00, 0x00, 0x00, 0x00, 0x53, 0x14, 0xc0, 0x02, 0x01, 0x43, 0x03, 0x04, 0x05, 0x06, 0x07,
    0x08, 0x09, 0x0a,
];

/// The empty frame on channel 0, after its size.
const EMPTY: [u8; 8] = [0x00, 0x00, 0x00, 0x08, 0x02, 0x00, 0x00, 0x00];

/// Whether a transfer with this payload is appended, under a limit of 24 bytes.
fn put(alloc: Global, out: &mut SendBuffer, performative: Transfer, payload: Bytes) -> bool {
    let body = FrameBody::Transfer {
        performative,
        payload,
    };
    let frame = Frame::new(0, body);
    let is_put = put_frame(alloc, out, &frame);
    drop(frame);
    is_put
}

/// The same of a frame.
// prover
fn put_frame(alloc: Global, out: &mut SendBuffer, frame: &Frame) -> bool {
    FrameEncoder::new(24).encode_to(alloc, frame, out).is_ok()
}

/// Takes off the next chunk, or `most` bytes of it, and says whether they are a front of what is wanted; the rest of that is left.
fn takes<'a>(out: &mut SendBuffer, most: usize, want: &mut &'a [u8]) -> bool {
    let chunk = out.chunk();
    let len = chunk.len().min(most);
    let is_front = want.get(..len) == chunk.get(..len);
    out.advance(len);
    if let Some(rest) = want.get(len..) {
        *want = rest;
    }
    is_front
}

/// Whether chunks of which at most `most` bytes are taken at once are what is wanted, and how many there were.
fn chunks(out: &mut SendBuffer, most: usize, want: &[u8]) -> Option<u8> {
    let mut rest = want;
    for count in 0..100 {
        if out.is_empty() {
            return if rest.is_empty() { Some(count) } else { None };
        }
        if !takes(out, most, &mut rest) {
            return None;
        }
    }
    None
}

#[test]
fn a_short_payload_is_copied(rt: HostRuntime) -> Result<(), Fail> {
    let alloc = rt.alloc();
    let payload = payload(alloc, 4)?;
    let mut out = SendBuffer::new(alloc);
    holds(&rt, put(alloc, &mut out, delivery(0), payload));
    holds(&rt, chunks(&mut out, 4096, &WHOLE) == Some(1));
    holds(&rt, out.chunk().is_empty());
    Ok(())
}

#[test]
fn a_long_payload_is_a_chunk_of_its_own(rt: HostRuntime) -> Result<(), Fail> {
    let alloc = rt.alloc();
    let payload = payload(alloc, 4)?;
    let again = payload.clone()?;
    let mut out = SendBuffer::copying_up_to(alloc, 3);
    holds(&rt, put(alloc, &mut out, delivery(0), payload));
    holds(
        &rt,
        FrameEncoder::new(24)
            .encode_to(alloc, &Frame::empty(), &mut out)
            .is_ok(),
    );
    let mut want = WHOLE.as_slice();
    holds(
        &rt,
        takes(&mut out, 4096, &mut want) && takes(&mut out, 4096, &mut want),
    );
    holds(&rt, chunks(&mut out, 4096, &EMPTY) == Some(1));
    holds(&rt, put(alloc, &mut out, delivery(0), again));
    holds(&rt, chunks(&mut out, 3, &WHOLE) == Some(10));
    Ok(())
}

#[test]
fn pieces_stand_after_one_another(rt: HostRuntime) -> Result<(), Fail> {
    let alloc = rt.alloc();
    let payload = payload(alloc, 11)?;
    let again = payload.clone()?;
    let mut out = SendBuffer::new(alloc);
    holds(&rt, put(alloc, &mut out, delivery(0), payload));
    holds(&rt, chunks(&mut out, 4096, &CUT) == Some(1));
    let mut sharing = SendBuffer::copying_up_to(alloc, 3);
    holds(&rt, put(alloc, &mut sharing, delivery(0), again));
    holds(&rt, chunks(&mut sharing, 4096, &CUT) == Some(2));
    Ok(())
}

#[test]
fn what_is_too_large_appends_nothing(rt: HostRuntime) -> Result<(), Fail> {
    let alloc = rt.alloc();
    let short = payload(alloc, 4)?;
    let long = payload(alloc, 1)?;
    let mut out = SendBuffer::new(alloc);
    holds(&rt, put(alloc, &mut out, delivery(0), short));
    let body = FrameBody::Transfer {
        performative: continuation(true),
        payload: long,
    };
    let frame = Frame::new(0, body);
    let outcome = FrameEncoder::new(16).encode_to(alloc, &frame, &mut out);
    drop(frame);
    let is_too_large = matches!(&outcome, Err(Error::TooLarge));
    drop(outcome);
    holds(&rt, is_too_large);
    holds(&rt, chunks(&mut out, 4096, &WHOLE) == Some(1));
    holds(&rt, put(alloc, &mut out, delivery(0), Bytes::new()));
    out.clear();
    holds(&rt, out.is_empty());
    Ok(())
}
