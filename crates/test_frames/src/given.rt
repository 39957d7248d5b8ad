//! Performatives that several tests send.

ghost use Rattle.std.specs.Prelude.{◌≤◌};

use amqp_frames::{Error, Frame, FrameBody, FrameEncoder, Piece};
use amqp_types::{DeliveryTag, Handle, Transfer};
use bytes::Bytes;
use std::alloc::Global;
use std::test::Fail;

/// A delivery's transfer on handle 0 with a tag of four bytes, message-format 0, and not settled.
pub(crate) fn delivery(number: u32) -> Transfer {
    Transfer {
        handle: Handle(0),
        delivery_id: Some(number),
        delivery_tag: Some(DeliveryTag(Bytes::from_static(&[0, 0, 0, 1]))),
        message_format: Some(0),
        settled: Some(false),
        more: false,
        rcv_settle_mode: None,
        state: None,
        resume: false,
        aborted: false,
        batchable: false,
    }
}

/// A transfer that goes on with a delivery on handle 0.
pub(crate) fn continuation(more: bool) -> Transfer {
    Transfer {
        handle: Handle(0),
        delivery_id: None,
        delivery_tag: None,
        message_format: None,
        settled: None,
        more,
        rcv_settle_mode: None,
        state: None,
        resume: false,
        aborted: false,
        batchable: false,
    }
}

/// The pieces of such a transfer on channel 0.
pub(crate) fn pieces(
    alloc: Global,
    limit: u32,
    performative: Transfer,
    payload: Bytes,
) -> Result<Vec<Piece>, Error>
    requires { 4 ≤ limit }
{
    let body = FrameBody::Transfer {
        performative,
        payload,
    };
    let frame = Frame::new(0, body);
    let pieces = FrameEncoder::new(limit).encode(alloc, &frame);
    drop(frame);
    pieces
}

/// As many bytes as are asked for; each differs from the one before.
pub(crate) fn payload(alloc: Global, len: u8) -> Result<Bytes, Fail> {
    let mut bytes = Vec::new(alloc);
    for byte in 0..len {
        bytes.push(byte)?;
    }
    Ok(Bytes::from_vec(bytes)?)
}
