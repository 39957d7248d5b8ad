//! Room for the heads of many frames.

ghost use Rattle.std.specs.Prelude.{◌≡◌, ◌≤◌, ◌↔◌, ◌^◌, ℕ, [], IsTrue, IfOk, OnOk, OnErr};
ghost use Rattle.amqp_memory.specs.Refusal.{SomeRefused};
ghost use Rattle.amqp_frames.specs.HeaderPool.{GivesRoom, IsTooLong};

use amqp_memory::{buffer_with, filled_of};
use bytes::BytesMut;
use std::alloc::{AllocError, Global};
use std::marker::Model;
use std::mem;

/// How many bytes the first block has: about a hundred heads of transfers.
const FIRST: usize = 4096;

/// How many bytes a block has at most. Each block that is asked for is twice as long as the one before.
const MOST: usize = 32768;

/// Where an encoder writes the head of a frame.
pub(crate) trait HeadRoom {
    /// The heads of so many bytes that it has no room for.
    ghost too_long: { Self → ℕ → Type 0 };

    /// The room that is given for a head of so many bytes.
    ghost gives: { Self → ℕ → ℕ → Type 0 };

    /// What is kept of the room after a head.
    ghost keeps: { ℕ → Self → Type 0 };

    /// Whether a head of `len` bytes has to have a buffer of its own.
    fn is_too_long(&self, len: usize) -> bool
        ensures { IsTrue result ↔ too_long self.now len };

    /// An empty buffer with room for `len` bytes.
    fn take(&mut self, len: usize) -> Result<BytesMut, AllocError>
        requires short { ¬ too_long self.old len }
        requires few { len ≤ 2 ^ 34 }
        ensures empty { IfOk result (λ b. (b.items ≡ []) × (len ≤ b.spare)) }
        ensures room { IfOk result (λ b. gives self.old len b.spare) }
        ensures refused { OnErr result SomeRefused };

    /// The head that stands in the buffer.
    fn cut(&mut self, written: BytesMut) -> Result<BytesMut, AllocError>
        ensures head { IfOk result (λ b. b.items ≡ written.items) }
        ensures room { OnOk result (keeps written.spare self.new) }
        ensures refused { OnErr result SomeRefused };
}

/// Each head has a buffer of its own.
#[derive(Drop)]
pub(crate) struct OwnRoom(pub(crate) Global);

impl HeadRoom for OwnRoom {
    ghost too_long = { λ before len. ⊥ };

    ghost gives = { λ before len room. Unit {0} };

    ghost keeps = { λ room after. Unit {0} };

    #[inline(always)]
    fn is_too_long(&self, _len: usize) -> bool {
        false
    }

    #[inline(always)]
    fn take(&mut self, len: usize) -> Result<BytesMut, AllocError> {
        buffer_with(self.0, len)
    }

    #[inline(always)]
    fn cut(&mut self, written: BytesMut) -> Result<BytesMut, AllocError> {
        Ok(written)
    }
}

/// Room from which an encoder cuts the heads of many frames. It asks for memory once for hundreds of them: for a block of 4096
/// bytes first, then for longer ones, up to 32768 bytes, and takes the block before once more where all of its heads are dropped. It
/// keeps up to two blocks; a head keeps its whole block. A head of more than 32768 bytes that does not fit has a buffer of its own,
/// which goes with the head, and the room stays as it was: no longer block is asked for, nor kept.
///
/// ```
/// let mut pool = HeaderPool::new(alloc);
/// let pieces = encoder.encode_from(alloc, &mut pool, &frame)?;
/// ```
#[derive(Drop)]
pub struct HeaderPool {
    alloc: Global,
    /// How long the next block is to be.
    next: usize,
    room: BytesMut,
    /// What is left of the block before.
    before: BytesMut,
}

impl Model for HeaderPool {
    ghost use Rattle.std.specs.Prelude.{◌≡◌, ◌≤◌, ℕ, []};

    ghost Value = { ℕ };

    ghost view = { λ h. h.room.spare };

    ghost invariant = { λ h. (4096 ≤ h.next) × (h.next ≤ 32768) × (h.room.items ≡ []) × (h.before.items ≡ []) };
}

impl HeaderPool {
    /// No room yet: the first head asks for it. Takes no memory.
    pub fn new(alloc: Global) -> HeaderPool
        ensures { result ≡ 0 }
    {
        HeaderPool {
            alloc,
            next: FIRST,
            room: BytesMut::new(alloc),
            before: BytesMut::new(alloc),
        }
    }

    /// Another block, with room for `len` bytes and for 4096: the one before, where none of its heads is left.
    #[inline(never)]
    fn next_block(&mut self, used: BytesMut, len: usize) -> Result<BytesMut, AllocError>
        requires empty { used.items ≡ [] }
        requires short { len ≤ 32768 }
        ensures block { IfOk result (λ b. (b.items ≡ []) × (len ≤ b.spare) × (4096 ≤ b.spare)) }
        ensures refused { OnErr result SomeRefused }
    {
        let size = len.max(self.next);
        self.next = (2 * self.next).min(MOST);
        let mut block = mem::replace(&mut self.before, used);
        if block.try_reclaim(size) {
            return Ok(block);
        }
        drop(block);
        new_block(self.alloc, size)
    }
}

/// A block of `size` bytes. All blocks are asked for here, so none is longer than `MOST`.
fn new_block(alloc: Global, size: usize) -> Result<BytesMut, AllocError>
    requires { size ≤ 32768 }
    ensures block { IfOk result (λ b. (b.items ≡ []) × (size ≤ b.spare)) }
    ensures refused { OnErr result SomeRefused }
{
    buffer_with(alloc, size)
}

impl HeadRoom for HeaderPool {
    ghost too_long = { IsTooLong };

    ghost gives = { GivesRoom };

    ghost keeps = { λ room after. after ≡ room };

    #[inline(always)]
    fn is_too_long(&self, len: usize) -> bool {
        len > MOST && len > self.room.capacity()
    }

    #[inline(always)]
    fn take(&mut self, len: usize) -> Result<BytesMut, AllocError> {
        let room = mem::replace(&mut self.room, BytesMut::new(self.alloc));
        if len <= room.capacity() {
            return Ok(room);
        }
        self.next_block(room, len)
    }

    /// The room after the head is that of the next one.
    #[inline(always)]
    fn cut(&mut self, written: BytesMut) -> Result<BytesMut, AllocError> {
        let mut rest = written;
        let head = filled_of(&mut rest)?;
        self.room = rest;
        Ok(head)
    }
}
