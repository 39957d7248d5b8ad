//! The copy of a part of the input: made once for as many whole frames as stand there, and shared by them.

ghost use Rattle.std.specs.Prelude.{◌≡◌, ◌≤◌, [], length, slice_range, IfOk, OnErr};
ghost use Rattle.amqp_memory.specs.Refusal.{SomeRefused};
ghost use Rattle.amqp_driver.specs.Driver.{Mirrors};

use crate::front::end_of_wholes;
use crate::head::{TransferHead, end_of_heads};
use amqp_memory::{copy_of, part_of};
use bytes::Bytes;
use std::alloc::{AllocError, Global};

/// A copy of the bytes of the input between two places.
#[derive(Drop)]
pub(crate) struct Copied {
    start: usize,
    end: usize,
    bytes: Bytes,
}

impl Copied {
    /// A copy of no bytes. Takes no memory.
    pub(crate) fn none() -> Copied
        ensures { result ≡ record { start = 0; end = 0; bytes = [] } }
    {
        Copied {
            start: 0,
            end: 0,
            bytes: Bytes::new(),
        }
    }

    /// A copy that has the bytes between these places, which are a frame: this one where it has them, else one of that frame and of as many whole
    /// ones after it as `most` records need, where a frame has at most `limit` bytes.
    pub(crate) fn covering(
        self,
        alloc: Global,
        input: &[u8],
        start: usize,
        end: usize,
        limit: u32,
        most: usize,
    ) -> Result<Copied, AllocError>
        requires copy { Mirrors self input.now }
        requires from { self.start ≤ start }
        requires order { start ≤ end }
        requires within { end ≤ length input.now }
        ensures copy { IfOk result (λ c. Mirrors c input.now) }
        ensures from { IfOk result (λ c. c.start ≤ start) }
        ensures to { IfOk result (λ c. end ≤ c.end) }
        ensures refused { OnErr result SomeRefused }
    {
        if end <= self.end {
            return Ok(self);
        }
        drop(self);
        let upto = end_of_wholes(input, end, limit, most);
        Copied::of(alloc, input, start, upto)
    }

    /// A copy that has the bytes between these places, which are those of the first of these transfers: this one where it has them, else one of
    /// theirs and of the others', as many as there are places for.
    pub(crate) fn holding(
        self,
        alloc: Global,
        input: &[u8],
        start: usize,
        end: usize,
        heads: &[TransferHead],
        most: usize,
    ) -> Result<Copied, AllocError>
        requires copy { Mirrors self input.now }
        requires from { self.start ≤ start }
        requires order { start ≤ end }
        requires within { end ≤ length input.now }
        ensures copy { IfOk result (λ c. Mirrors c input.now) }
        ensures from { IfOk result (λ c. c.start ≤ start) }
        ensures to { IfOk result (λ c. end ≤ c.end) }
        ensures refused { OnErr result SomeRefused }
    {
        if self.end >= end {
            return Ok(self);
        }
        drop(self);
        let upto = end_of_heads(heads, start, input.len(), most);
        Copied::of(alloc, input, start, upto.max(end))
    }

    /// A copy of the bytes between these places.
    fn of(alloc: Global, input: &[u8], start: usize, end: usize) -> Result<Copied, AllocError>
        requires order { start ≤ end }
        requires within { end ≤ length input.now }
        ensures copy { IfOk result (λ c. Mirrors c input.now) }
        ensures from { IfOk result (λ c. c.start ≡ start) }
        ensures to { IfOk result (λ c. c.end ≡ end) }
        ensures refused { OnErr result SomeRefused }
    {
        let bytes = copy_of(alloc, &input[start..end])?;
        Ok(Copied { start, end, bytes })
    }

    /// The bytes between two places of the input.
    pub(crate) fn part(&self, input: &[u8], start: usize, end: usize) -> Result<Bytes, AllocError>
        requires copy { Mirrors self.now input.now }
        requires from { self.now.start ≤ start }
        requires order { start ≤ end }
        requires to { end ≤ self.now.end }
        ensures ok { IfOk result (λ b. b ≡ slice_range input.now start end) }
        ensures refused { OnErr result SomeRefused }
    {
        part_of(&self.bytes, start - self.start, end - self.start)
    }
}
