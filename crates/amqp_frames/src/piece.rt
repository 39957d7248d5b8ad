//! Pieces: physical frames, ready to be sent after their four-byte size.

ghost use Rattle.std.specs.Prelude.{◌≡◌, ℕ, List, ◌+◌, ◌++◌, ◌<◌, ◌^◌, length, IfOk, OnErr};
ghost use Rattle.amqp_memory.specs.Refusal.{SomeRefused};
ghost use Rattle.amqp_frames.specs.Piece.{piece_bytes, JoinsBytes};

use crate::error::Error;
use amqp_memory::{buffer_with, frozen};
use bytes::{Bytes, BytesMut};
use std::alloc::{AllocError, Global};
use std::marker::Model;

/// The bytes of a head. A buffer that one piece has needs no count of owners.
#[derive(Debug, Drop)]
enum HeadBytes {
    Own(BytesMut),
    Shared(Bytes),
}

/// One physical frame without its four-byte size: a head, of header and performative, and a part of a payload. Only the
/// encoder makes one. The part shares the bytes of the frame's payload.
///
/// ```
/// let size = (4 + piece.len()) as u32;
/// socket.write_all(&size.to_be_bytes())?;
/// socket.write_all(piece.head())?;
/// socket.write_all(piece.payload().as_slice())?;
/// ```
#[derive(Debug, Drop)]
pub struct Piece {
    head: HeadBytes,
    payload: Bytes,
}

impl Model for Piece {
    ghost use Rattle.amqp_frames.specs.Piece.{PieceParts, IsPiece, head_bytes};

    ghost Value = { PieceParts };

    ghost view = { λ p. record { head = head_bytes p.head; payload = p.payload } };

    ghost invariant = { λ p. IsPiece (record { head = head_bytes p.head; payload = p.payload }) };
}

impl PartialEq for Piece {
    ghost use Rattle.std.specs.Cmp.{partial_equiv_from_equiv};
    ghost use Rattle.amqp_frames.specs.Piece.{piece_same};

    ghost eq = { piece_same.test };

    ghost laws = { partial_equiv_from_equiv piece_same.laws };

    /// Whether the heads are the same, and the parts are. Whether others share the bytes does not matter.
    fn eq(&self, other: &Piece) -> bool {
        self.head() == other.head() && self.payload == other.payload
    }
}

impl Piece {
    /// The piece of this head, which no other piece has, and this part.
    pub(crate) fn own(head: BytesMut, payload: Bytes) -> Piece
        requires { length head.items + length payload < 2 ^ 32 }
        ensures { result ≡ record { head = head.items; payload = payload } }
    {
        Piece {
            head: HeadBytes::Own(head),
            payload,
        }
    }

    /// The piece of this head, which others share, and this part.
    pub(crate) fn shared(head: Bytes, payload: Bytes) -> Piece
        requires { length head + length payload < 2 ^ 32 }
        ensures { result ≡ record { head = head; payload = payload } }
    {
        Piece {
            head: HeadBytes::Shared(head),
            payload,
        }
    }

    /// Header and performative.
    pub fn head(&self) -> &[u8]
        ensures { result.now ≡ self.now.head }
    {
        match &self.head {
            HeadBytes::Own(head) => head.as_slice(),
            HeadBytes::Shared(head) => head.as_slice(),
        }
    }

    /// The part of the payload, empty where the frame has none.
    pub fn payload(&self) -> &Bytes
        ensures { result.now ≡ self.now.payload }
    {
        &self.payload
    }

    /// The part of the payload, moved out.
    pub(crate) fn into_payload(self) -> Bytes
        ensures { result ≡ self.payload }
    {
        self.payload
    }

    /// Its length in bytes: at most the limit of the encoder that made it. Takes no memory.
    pub fn len(&self) -> usize
        ensures value { result ≡ length (piece_bytes self.now) }
        ensures bound { result < 2 ^ 32 }
    {
        self.head().len() + self.payload.len()
    }

    /// Its bytes in one buffer; `OutOfMemory` where memory is refused. This copies the part of the payload: to send a piece,
    /// write its two parts.
    pub fn to_bytes(&self, alloc: Global) -> Result<Bytes, Error>
        ensures { JoinsBytes self.now result }
    {
        match joined(alloc, self.head(), self.payload.as_slice()) {
            Ok(bytes) => Ok(bytes),
            Err(_) => Err(Error::OutOfMemory),
        }
    }
}

fn joined(alloc: Global, head: &[u8], payload: &[u8]) -> Result<Bytes, AllocError>
    requires { length head.now + length payload.now < 2 ^ 32 }
    ensures bytes { IfOk result (λ b. b ≡ head.now ++ payload.now) }
    ensures refused { OnErr result SomeRefused }
{
    let mut out = buffer_with(alloc, head.len() + payload.len())?;
    out.extend_reserved(head);
    out.extend_reserved(payload);
    Ok(frozen(out)?)
}
