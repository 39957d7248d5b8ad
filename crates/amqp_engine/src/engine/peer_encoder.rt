//! The encoder for the peer, whose limit is that of a max-frame-size: so the size of each piece fits its four bytes.

ghost use Rattle.std.specs.Prelude.{◌≡◌, ◌≤◌, ◌+◌, ◌-◌, ◌^◌, IfErr, length};
ghost use Rattle.amqp_memory.specs.Refusal.{SomeRefused};
ghost use Rattle.amqp_types.specs.Transfer.{widest};
ghost use Rattle.amqp_frames.specs.declared.error.Error.TheVariants as no;
ghost use Rattle.amqp_frames.specs.Cut.{Encodes, Fits, room_beside};
ghost use Rattle.amqp_frames.specs.HeaderPool.{CutsHead, RoomAfter};
ghost use Rattle.amqp_frames.specs.Wire.{EncodesTo, HasRoomFor};

use amqp_frames::{Error, Frame, FrameEncoder, HeaderPool, Piece, SendBuffer};
use amqp_types::Transfer;
use std::alloc::Global;
use std::marker::Model;

/// An encoder under the limit of a max-frame-size.
#[derive(Drop)]
pub(crate) struct PeerEncoder {
    encoder: FrameEncoder,
}

impl Model for PeerEncoder {
    ghost use Rattle.std.specs.Prelude.{ℕ, ◌≤◌, ◌-◌, ◌^◌};

    ghost Value = { ℕ };

    ghost view = { λ e. e.encoder };

    ghost invariant = { λ e. e.encoder ≤ 2 ^ 32 - 5 };
}

impl PeerEncoder {
    /// An encoder under this limit of a piece.
    pub(crate) fn new(limit: u32) -> PeerEncoder
        requires header { 4 ≤ limit }
        requires sized { limit ≤ 2 ^ 32 - 5 }
        ensures { result ≡ limit }
    {
        PeerEncoder {
            encoder: FrameEncoder::new(limit),
        }
    }

    /// The pieces of a frame, as [`FrameEncoder::encode_from`] gives them.
    #[inline(always)]
    pub(crate) fn encode_from(
        &self,
        alloc: Global,
        heads: &mut HeaderPool,
        frame: &Frame,
    ) -> Result<Vec<Piece>, Error>
        ensures pieces { Encodes (λ v. v.items) frame.now self.now result }
        ensures room { RoomAfter CutsHead heads.old frame.now self.now result heads.new }
    {
        self.encoder.encode_from(alloc, heads, frame)
    }

    /// Appends a frame, as [`FrameEncoder::encode_to`] does. It is `OutOfMemory` where memory is refused alone.
    #[inline(always)]
    #[tactic(auto, using(crate::proofs::SizedLemmas::refused_sized, crate::proofs::SizedLemmas::lacking_sized))]
    pub(crate) fn encode_to(
        &self,
        alloc: Global,
        frame: &Frame,
        out: &mut SendBuffer,
    ) -> Result<(), Error>
        ensures sent { EncodesTo frame.now self.now out.old.bytes result out.new.bytes }
        ensures lacking { IfErr result (λ e. e ≡ no.OutOfMemory → Fits frame.now self.now × ¬ HasRoomFor frame.now self.now out.new) }
        ensures room { out.old.room + length out.old.bytes ≤ out.new.room + length out.new.bytes }
        ensures copied { out.new.copied ≡ out.old.copied }
        ensures refused { IfErr result (λ e. e ≡ no.OutOfMemory → SomeRefused) }
    {
        self.encoder.encode_to(alloc, frame, out)
    }

    /// The limit of a piece.
    pub(crate) fn max_piece_len(&self) -> u32
        ensures value { result ≡ self.now }
        ensures header { 4 ≤ result }
    {
        self.encoder.max_piece_len()
    }

    /// How much payload fits beside a transfer, whatever number its delivery gets.
    pub(crate) fn payload_room(&self, transfer: &Transfer) -> Option<u32>
        ensures { result ≡ room_beside (widest transfer.now) self.now }
    {
        self.encoder.widest_payload_room(transfer)
    }
}
