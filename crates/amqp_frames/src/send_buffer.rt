//! Bytes that wait to be sent: frames after their sizes, in one buffer.

ghost use Rattle.std.specs.Prelude.{◌≡◌, ℕ, ◌+◌, ◌≤◌, ◌<◌, ◌^◌, ◌++◌, ◌==◌, [], List, OnOk, OnErr, length, drop};
ghost use Rattle.std.specs.Int.{w32, to_be_bytes};
ghost use Rattle.amqp_memory.specs.Refusal.{SomeRefused};
ghost use Rattle.amqp_frames.specs.Frame.{header_text, text_of, payload_of};
ghost use Rattle.amqp_frames.specs.Wire.{sized, whole_size, wire_of};

use crate::frame::Frame;
use crate::laying::{pieces_room, put_head, put_payload, put_pieces};
use crate::piece::Piece;
use crate::woven::Woven;
use std::alloc::{AllocError, Global};
use std::marker::Model;

/// Up to how many bytes a payload is copied, where the caller says nothing else.
const COPIED: usize = 4096;

/// Bytes that wait to be sent, in order. [`FrameEncoder::encode_to`](crate::FrameEncoder::encode_to) appends frames, each piece after its
/// four-byte size. A transport writes [`SendBuffer::chunk`], and takes off by [`SendBuffer::advance`] what was written.
///
/// A short payload is copied into the buffer; a long one is shared, and is a chunk of its own. The memory of bytes that were taken off
/// is used again.
///
/// A contract sees the bytes that wait, the room, which is how many more are appended before memory is asked for, and up to how many
/// bytes a payload is copied. Its room does not shrink but by bytes that are appended.
///
/// ```
/// let mut out = SendBuffer::new(alloc);
/// encoder.encode_to(alloc, &frame, &mut out)?;
/// while !out.is_empty() {
///     let sent = socket.write(out.chunk())?;
///     out.advance(sent);
/// }
/// ```
#[derive(Drop)]
pub struct SendBuffer {
    /// The longest payload that is copied.
    most: usize,
    bytes: Woven,
}

impl Model for SendBuffer {
    ghost use Rattle.amqp_frames.specs.Wire.{SendBufferView};

    ghost Value = { SendBufferView };

    ghost view = { λ b. record { bytes = b.bytes.waits; room = b.bytes.spare; copied = b.most } };
}

impl SendBuffer {
    /// Nothing waits. Payloads of up to 4096 bytes are copied, longer ones are shared. Takes no memory.
    pub fn new(alloc: Global) -> SendBuffer
        ensures bytes { result.bytes ≡ [] }
        ensures copied { result.copied ≡ 4096 }
    {
        SendBuffer::copying_up_to(alloc, COPIED)
    }

    /// Nothing waits. Payloads of up to `most` bytes are copied, longer ones are shared. Takes no memory.
    pub fn copying_up_to(alloc: Global, most: usize) -> SendBuffer
        ensures bytes { result.bytes ≡ [] }
        ensures copied { result.copied ≡ most }
    {
        SendBuffer {
            most,
            bytes: Woven::new(alloc),
        }
    }

    /// Whether nothing waits.
    pub fn is_empty(&self) -> bool
        ensures { result ≡ (length self.now.bytes == 0) }
    {
        self.bytes.is_empty()
    }

    /// The next bytes to send, as many as lie together: a front of what waits, and empty only where nothing waits.
    pub fn chunk(&self) -> &[u8]
        ensures front { (rest : List ℕ) × (self.now.bytes ≡ result.now ++ rest) }
        ensures some { result.now ≡ [] → self.now.bytes ≡ [] }
    {
        self.bytes.chunk()
    }

    /// Takes the first `count` bytes off: they were sent. No more than wait, so as many as a chunk has, or fewer.
    pub fn advance(&mut self, count: usize)
        requires { count ≤ length self.old.bytes }
        ensures bytes { self.new.bytes ≡ drop count self.old.bytes }
        ensures room { self.old.room ≤ self.new.room }
        ensures copied { self.new.copied ≡ self.old.copied }
    {
        self.bytes.advance(count);
    }

    /// Drops all that waits. The memory stays.
    pub fn clear(&mut self)
        ensures bytes { self.new.bytes ≡ [] }
        ensures room { self.old.room ≤ self.new.room }
        ensures copied { self.new.copied ≡ self.old.copied }
    {
        self.bytes.clear();
    }

    /// Appends a frame in one piece, whose text has this length, and whose size fits four bytes. Where memory is refused nothing is
    /// appended; where its payload is copied, that is only where there is no room.
    #[inline(always)]
    pub(crate) fn put_frame(&mut self, frame: &Frame, len: usize) -> Result<(), AllocError>
        requires text { len ≡ length (text_of frame.now.body) }
        requires fits { 8 + length (text_of frame.now.body) + length (payload_of frame.now.body) < 2 ^ 32 }
        ensures ok { OnOk result (self.new.bytes ≡ self.old.bytes ++ sized ((header_text frame.now.channel ++ text_of frame.now.body) ++ payload_of frame.now.body)) }
        ensures err { OnErr result (self.new.bytes ≡ self.old.bytes) }
        ensures refused { OnErr result SomeRefused }
        ensures lacking { OnErr result (length (payload_of frame.now.body) ≤ self.new.copied → self.new.room < whole_size frame.now) }
        ensures room { self.old.room + length self.old.bytes ≤ self.new.room + length self.new.bytes }
        ensures copied { self.new.copied ≡ self.old.copied }
    {
        let payload = frame.body.payload_len();
        let size = (8 + len + payload) as u32;
        if self.most < payload {
            return self.put_sharing(frame, len, size);
        }
        self.bytes.reserve(8 + len + payload, 0)?;
        put_head(&mut self.bytes, size, frame, len);
        put_payload(&mut self.bytes, &frame.body);
        Ok(())
    }

    /// Appends a frame of this size in one piece, whose payload is shared.
    #[inline(never)]
    fn put_sharing(&mut self, frame: &Frame, len: usize, size: u32) -> Result<(), AllocError>
        requires text { len ≡ length (text_of frame.now.body) }
        requires fits { length (text_of frame.now.body) < 2 ^ 32 }
        requires some { 0 < length (payload_of frame.now.body) }
        ensures ok { OnOk result (self.new.bytes ≡ self.old.bytes ++ (to_be_bytes w32 size ++ ((header_text frame.now.channel ++ text_of frame.now.body) ++ payload_of frame.now.body))) }
        ensures err { OnErr result (self.new.bytes ≡ self.old.bytes) }
        ensures refused { OnErr result SomeRefused }
        ensures room { self.old.room + length self.old.bytes ≤ self.new.room + length self.new.bytes }
        ensures copied { self.new.copied ≡ self.old.copied }
    {
        let part = frame.body.payload()?;
        self.bytes.reserve(8 + len, 1)?;
        put_head(&mut self.bytes, size, frame, len);
        self.bytes.share(part);
        Ok(())
    }

    /// Appends pieces. Where memory is refused none is appended.
    pub(crate) fn put_pieces(&mut self, pieces: Vec<Piece>) -> Result<(), AllocError>
        ensures ok { OnOk result (self.new.bytes ≡ self.old.bytes ++ wire_of pieces.items) }
        ensures err { OnErr result (self.new.bytes ≡ self.old.bytes) }
        ensures refused { OnErr result SomeRefused }
        ensures room { self.old.room + length self.old.bytes ≤ self.new.room + length self.new.bytes }
        ensures copied { self.new.copied ≡ self.old.copied }
    {
        let room = pieces_room(self.most, pieces.as_slice());
        self.bytes.reserve_for(pieces.as_slice(), room)?;
        put_pieces(&mut self.bytes, self.most, pieces);
        Ok(())
    }
}
