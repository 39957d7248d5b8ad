//! The encoder: a frame as pieces that keep a limit.

ghost use Rattle.std.specs.Prelude.{◌≡◌, ◌≤◌, ◌<◌, ◌+◌, ◌^◌, ◌⊎◌, ℕ, [], ◌∷◌, IfOk, IfErr, OnOk, OnErr, length};
ghost use Rattle.amqp_memory.specs.Refusal.{SomeRefused};
ghost use Rattle.amqp_types.specs.Transfer.{widest};
ghost use Rattle.amqp_frames.specs.Frame.{text_of, payload_of};
ghost use Rattle.amqp_frames.specs.Cut.{Encodes, IsWholePiece, Whole, room_beside};
ghost use Rattle.amqp_frames.specs.HeaderPool.{CutsHead, CutsOff, CutsOrLeaves, RoomAfter};
ghost use Rattle.amqp_frames.specs.Piece.{piece_bytes};
ghost use Rattle.amqp_frames.specs.ReadBack.{DecodesTo};
ghost use Rattle.amqp_frames.specs.Wire.{EncodesTo, HasNoSize, HasRoomFor};
ghost use Rattle.amqp_frames.specs.declared.error.Error.TheVariants as no;

use crate::cut::cut;
use crate::error::Error;
use crate::frame::{Frame, FrameBody};
use crate::head::whole_head;
use crate::header_pool::{HeadRoom, HeaderPool, OwnRoom};
use crate::laws::whole_is_read;
use crate::piece::Piece;
use crate::send_buffer::SendBuffer;
use amqp_memory::vector_with;
use amqp_types::{Transfer, TransferFragment};
use std::alloc::{AllocError, Global};
use std::marker::Model;

/// The most bytes of a piece whose size fits four bytes.
const MOST_SIZED: u32 = u32::MAX - 4;

/// Encodes frames for a peer, into pieces that are no longer than the peer takes.
///
/// ```
/// let encoder = FrameEncoder::new(65536 - 4);  // the peer's max-frame-size, less a frame's size
/// let pieces = encoder.encode(alloc, &frame)?;
/// ```
#[derive(Clone, Debug, Drop)]
pub struct FrameEncoder {
    /// The most bytes of a piece: 4 less than the peer's max-frame-size, which counts the frame's size too.
    max_piece_len: u32,
}

impl Model for FrameEncoder {
    ghost use Rattle.std.specs.Prelude.{ℕ, ◌≤◌};

    ghost Value = { ℕ };

    ghost view = { λ e. e.max_piece_len };

    ghost invariant = { λ e. 4 ≤ e.max_piece_len };
}

impl FrameEncoder {
    /// An encoder whose pieces have at most `max_piece_len` bytes, 4 or more: the peer's max-frame-size less the four bytes of
    /// a frame's size.
    pub fn new(max_piece_len: u32) -> FrameEncoder
        requires { 4 ≤ max_piece_len }
        ensures { result ≡ max_piece_len }
    {
        FrameEncoder { max_piece_len }
    }

    /// The pieces of the frame, in the order in which they are to be sent.
    ///
    /// A frame that fits is one piece. A transfer that does not fit is cut: each piece but the last is full, and only the
    /// first one says what concerns the whole delivery (AMQP 1.0 part 2, section 2.6.14). `TooLarge` exactly where no
    /// cut fits, or another performative is too long; `OutOfMemory` where memory is refused. The parts share the bytes of the
    /// payload; none is copied.
    ///
    /// The pieces are read back. [`FrameDecoder`](crate::FrameDecoder) decodes the one piece of a frame as that frame. It
    /// decodes the pieces of a transfer that was cut as its first, middle and last transfers, each with its part of the
    /// payload.
    pub fn encode(&self, alloc: Global, frame: &Frame) -> Result<Vec<Piece>, Error>
        ensures { Encodes (λ v. v.items) frame.now self.now result }
    {
        self.encode_in(alloc, &mut OwnRoom(alloc), frame)
    }

    /// As [`FrameEncoder::encode`], with the head of a frame that is one piece cut from the room of many. A head that fits
    /// in the room is cut off it; for another one of at most 32768 bytes the room is first a block of 4096 bytes or more. A head
    /// that is longer has a buffer of its own. It leaves the room as it was, and so does a frame that is cut, or too large.
    #[tactic(auto, using(crate::proofs::HeaderRoomLemmas::room_after))]
    pub fn encode_from(
        &self,
        alloc: Global,
        heads: &mut HeaderPool,
        frame: &Frame,
    ) -> Result<Vec<Piece>, Error>
        ensures pieces { Encodes (λ v. v.items) frame.now self.now result }
        ensures room { RoomAfter CutsHead heads.old frame.now self.now result heads.new }
    {
        self.encode_in(alloc, heads, frame)
    }

    /// Appends the frame to what is to be sent: the pieces of [`FrameEncoder::encode`] in order, each after its four-byte size. A frame
    /// that is whole has no list of pieces. Where its payload is copied, and there is room for its bytes and the four of its size, it does
    /// not fail for want of memory (`lacking`). What is appended takes no more of the room than its bytes (`room`).
    ///
    /// The errors are those of [`FrameEncoder::encode`], and of each nothing is appended: what waits is always whole frames. It answers
    /// `OutOfMemory` too where the size of a piece does not fit its four bytes, which no max-frame-size allows.
    pub fn encode_to(&self, alloc: Global, frame: &Frame, out: &mut SendBuffer) -> Result<(), Error>
        ensures sent { EncodesTo frame.now self.now out.old.bytes result out.new.bytes }
        ensures lacking { IfErr result (λ e. e ≡ no.OutOfMemory → HasNoSize frame.now self.now ⊎ ¬ HasRoomFor frame.now self.now out.new) }
        ensures room { out.old.room + length out.old.bytes ≤ out.new.room + length out.new.bytes }
        ensures copied { out.new.copied ≡ out.old.copied }
    {
        let limit = self.max_piece_len;
        let room = limit - 4;
        let len = frame.body.text_len();
        if frame.body.is_within(len, room) {
            if limit > MOST_SIZED && !frame.body.is_within(len, MOST_SIZED - 4) {
                return Err(Error::OutOfMemory);
            }
            whole_is_read(frame);
            out.put_frame(frame, len as usize)?;
            return Ok(());
        }
        let pieces = in_pieces(alloc, frame, limit)?;
        if limit > MOST_SIZED {
            return Err(Error::OutOfMemory);
        }
        out.put_pieces(pieces)?;
        Ok(())
    }

    /// How many bytes of payload fit beside this transfer in one piece; `None` where its own text does not fit.
    /// Takes no memory. It is that of the transfer as it is: a session gives it a number afterwards, which may take four bytes more, and
    /// [`FrameEncoder::widest_payload_room`] leaves room for that.
    pub fn payload_room(&self, transfer: &Transfer) -> Option<u32>
        ensures { result ≡ room_beside transfer.now self.now }
    {
        let room = self.max_piece_len - 4;
        let len = transfer.encoded_len();
        if u128::from(room) < len {
            return None;
        }
        Some(room - len as u32)
    }

    /// How many bytes of payload fit beside this transfer in one piece, whatever number its delivery gets: the widest takes five bytes,
    /// where an absent one takes one. `None` where its own text does not fit then. Takes no memory.
    pub fn widest_payload_room(&self, transfer: &Transfer) -> Option<u32>
        ensures { result ≡ room_beside (widest transfer.now) self.now }
    {
        let room = self.max_piece_len - 4;
        let text = transfer.widest_len_in(TransferFragment::Whole);
        if u128::from(room) < text {
            return None;
        }
        Some(room - text as u32)
    }

    /// The most bytes of a piece: at least four.
    pub fn max_piece_len(&self) -> u32
        ensures value { result ≡ self.now }
        ensures header { 4 ≤ result }
    {
        let limit = &self.max_piece_len;
        *limit
    }

    /// The pieces of the frame, the head of one that is whole in this room.
    #[tactic(auto, using(crate::proofs::HeaderRoomLemmas::room_kept))]
    #[inline(always)]
    fn encode_in<H: HeadRoom>(
        &self,
        alloc: Global,
        heads: &mut H,
        frame: &Frame,
    ) -> Result<Vec<Piece>, Error>
        ensures pieces { Encodes (λ v. v.items) frame.now self.now result }
        ensures room { RoomAfter (CutsOrLeaves H.too_long (CutsOff H.gives H.keeps)) heads.old frame.now self.now result heads.new }
    {
        let limit = self.max_piece_len;
        let len = frame.body.text_len();
        if frame.body.is_within(len, limit - 4) {
            let pieces = whole(alloc, heads, frame, len as usize)?;
            return Ok(pieces);
        }
        in_pieces(alloc, frame, limit)
    }
}

/// The one piece of a frame that is whole, whose text has this length.
fn whole<H: HeadRoom>(
    alloc: Global,
    heads: &mut H,
    frame: &Frame,
    len: usize,
) -> Result<Vec<Piece>, AllocError>
    requires text { len ≡ length (text_of frame.now.body) }
    requires fits { length (text_of frame.now.body) + length (payload_of frame.now.body) + 4 < 2 ^ 32 }
    ensures piece { IfOk result (λ v. (p : _) × (v.items ≡ p ∷ []) × IsWholePiece frame.now p × DecodesTo frame.now (piece_bytes p)) }
    ensures room { OnOk result (CutsOrLeaves H.too_long (CutsOff H.gives H.keeps) heads.old (4 + length (text_of frame.now.body)) heads.new) }
    ensures refused { OnErr result SomeRefused }
{
    whole_is_read(frame);
    let mut pieces = vector_with(alloc, 1)?;
    let payload = frame.body.payload()?;
    let head = whole_head(alloc, heads, frame.channel, &frame.body, len)?;
    pieces.push_reserved(Piece::own(head, payload));
    Ok(pieces)
}

/// The pieces of a frame that is not whole: only a transfer is cut.
fn in_pieces(alloc: Global, frame: &Frame, limit: u32) -> Result<Vec<Piece>, Error>
    requires header { 4 ≤ limit }
    requires big { Whole frame.now limit → ⊥ }
    ensures { Encodes (λ v. v.items) frame.now limit result }
{
    match &frame.body {
        FrameBody::Transfer {
            performative,
            payload,
        } => cut(alloc, frame.channel, performative, payload, limit),
        _ => Err(Error::TooLarge),
    }
}
