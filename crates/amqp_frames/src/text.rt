//! The body of a frame as bytes: the text of its performative, and its payload.

ghost use Rattle.std.specs.Prelude.{◌≡◌, ◌≤◌, ◌<◌, ◌+◌, ◌^◌, ◌++◌, ◌↔◌, IsTrue, IfOk, OnErr, length};
ghost use Rattle.amqp_memory.specs.Refusal.{SomeRefused};
ghost use Rattle.amqp_frames.specs.Frame.{text_of, payload_of};

use crate::frame::FrameBody;
use amqp_memory::shared;
use bytes::{Bytes, BytesMut};
use std::alloc::AllocError;

impl FrameBody {
    /// The length of the performative's text.
    pub(crate) fn text_len(&self) -> u128
        ensures value { result ≡ length (text_of self.now) }
        ensures bound { result < 2 ^ 127 }
    {
        match self {
            FrameBody::Attach(p) => p.encoded_len(),
            FrameBody::Flow(p) => p.encoded_len(),
            FrameBody::Transfer {
                performative,
                payload: _,
            } => performative.encoded_len(),
            FrameBody::Disposition(p) => p.encoded_len(),
            FrameBody::Detach(p) => p.encoded_len(),
            FrameBody::Begin(p) => p.encoded_len(),
            FrameBody::End(p) => p.encoded_len(),
            FrameBody::Open(p) => p.encoded_len(),
            FrameBody::Close(p) => p.encoded_len(),
            FrameBody::Empty => 0,
        }
    }

    /// Appends the performative's text, whose length is `len`, to a buffer that has room for it.
    pub(crate) fn put_text(&self, len: usize, out: &mut BytesMut)
        requires len_is { len ≡ length (text_of self.now) }
        requires room { length (text_of self.now) ≤ out.old.spare }
        requires fits { length (text_of self.now) < 2 ^ 32 }
        ensures items { out.new.items ≡ out.old.items ++ text_of self.now }
        ensures spare { out.new.spare + length (text_of self.now) ≡ out.old.spare }
    {
        match self {
            FrameBody::Attach(p) => p.put(len, out),
            FrameBody::Flow(p) => p.put(len, out),
            FrameBody::Transfer {
                performative,
                payload: _,
            } => performative.put(len, out),
            FrameBody::Disposition(p) => p.put(len, out),
            FrameBody::Detach(p) => p.put(len, out),
            FrameBody::Begin(p) => p.put(len, out),
            FrameBody::End(p) => p.put(len, out),
            FrameBody::Open(p) => p.put(len, out),
            FrameBody::Close(p) => p.put(len, out),
            FrameBody::Empty => {}
        }
    }

    /// The length of the payload.
    #[inline(always)]
    pub(crate) fn payload_len(&self) -> usize
        ensures value { result ≡ length (payload_of self.now) }
        ensures bound { result < 2 ^ 63 }
    {
        match self {
            FrameBody::Transfer {
                performative: _,
                payload,
            } => payload.len(),
            _ => 0,
        }
    }

    /// The payload, empty where there is none. It shares the frame's bytes.
    #[inline(always)]
    pub(crate) fn payload(&self) -> Result<Bytes, AllocError>
        ensures value { IfOk result (λ b. b ≡ payload_of self.now) }
        ensures refused { OnErr result SomeRefused }
    {
        match self {
            FrameBody::Transfer {
                performative: _,
                payload,
            } => shared(payload),
            _ => Ok(Bytes::new()),
        }
    }

    /// Whether a text of this length and the payload have at most `room` bytes.
    #[inline(always)]
    pub(crate) fn is_within(&self, len: u128, room: u32) -> bool
        requires text { len ≡ length (text_of self.now) }
        requires bound { len < 2 ^ 127 }
        ensures { IsTrue result ↔ (length (text_of self.now) + length (payload_of self.now) ≤ room) }
    {
        len + self.payload_len() as u128 <= u128::from(room)
    }
}
