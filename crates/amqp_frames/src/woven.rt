//! Bytes that wait to be sent, in one buffer, with parts between them that are shared and not copied.

ghost use Rattle.std.specs.Prelude.{◌≡◌, ℕ, ◌+◌, ◌-◌, ◌*◌, ◌≤◌, ◌<◌, ◌^◌, ◌++◌, ◌⊎◌, ◌↔◌, IsTrue, [], List, OnOk, OnErr, length, drop, min, ◌==◌};
ghost use Rattle.std.specs.VecDeque.{deque_capacity, deque_len};
ghost use Rattle.amqp_memory.specs.Refusal.{SomeRefused};
ghost use Rattle.amqp_frames.specs.declared.woven.SharedPart.{SharedPart};
ghost use Rattle.amqp_frames.specs.Frame.{text_of};
ghost use Rattle.amqp_frames.specs.Inner.Woven.{TakesPart, TakesBefore};

use crate::frame::FrameBody;
use crate::piece::Piece;
use amqp_memory::{more_in_buffer, more_in_buffer_for, more_in_queue, more_in_queue_for};
use bytes::{Bytes, BytesMut};
use std::alloc::{AllocError, Global};
use std::collections::VecDeque;
use std::marker::Model;

/// A part that is shared.
#[derive(Drop)]
struct SharedPart {
    /// How many bytes of the buffer stand before it, after the shared part before it.
    before: usize,
    part: Bytes,
}

/// Bytes of a buffer with shared parts between them.
#[derive(Drop)]
pub(crate) struct Woven {
    buffer: BytesMut,
    shared: VecDeque<SharedPart>,
    /// How many bytes of the buffer stand before the last shared part.
    placed: usize,
}

impl Model for Woven {
    ghost use Rattle.std.specs.Prelude.{◌-◌, length};
    ghost use Rattle.std.specs.VecDeque.{deque_capacity, deque_len};
    ghost use Rattle.amqp_frames.specs.Inner.Woven.{IsWoven, WovenView, woven};

    ghost Value = { WovenView };

    ghost view = { λ w. record {
      waits = woven w.shared.items w.buffer.items;
      spare = w.buffer.spare;
      places = deque_capacity w.shared - deque_len w.shared;
    } };

    ghost invariant = { λ w. IsWoven w.shared.items w.placed (length w.buffer.items) };
}

impl Woven {
    /// No bytes. Takes no memory.
    pub(crate) fn new(alloc: Global) -> Woven
        ensures { result.waits ≡ [] }
    {
        Woven {
            buffer: BytesMut::new(alloc),
            shared: VecDeque::new(alloc),
            placed: 0,
        }
    }

    /// Makes room for so many bytes and shared parts more. It asks for memory only where there is none, and fails only where there is
    /// none afterwards.
    #[inline(always)]
    pub(crate) fn reserve(&mut self, bytes: usize, parts: usize) -> Result<(), AllocError>
        requires few { bytes ≤ 2 ^ 34 }
        requires few_parts { parts ≤ 2 ^ 34 }
        ensures waits { self.new.waits ≡ self.old.waits }
        ensures kept { self.old.spare ≤ self.new.spare }
        ensures bytes { OnOk result (bytes ≤ self.new.spare) }
        ensures parts { OnOk result (parts ≤ self.new.places) }
        ensures lacking { OnErr result ((self.old.places < parts) ⊎ (self.new.spare < bytes)) }
        ensures refused { OnErr result SomeRefused }
    {
        more_in_queue(&mut self.shared, parts)?;
        match more_in_buffer(&mut self.buffer, bytes) {
            // The kit leaves open what room a refusal leaves.
            Err(refused) if !has_room(&self.buffer, bytes) => Err(refused),
            _ => Ok(()),
        }
    }

    /// Makes room for so many bytes more, and for a shared part of each of these pieces.
    pub(crate) fn reserve_for(&mut self, pieces: &[Piece], bytes: usize) -> Result<(), AllocError>
        requires { bytes ≤ 2 ^ 33 * length pieces.now }
        ensures waits { self.new.waits ≡ self.old.waits }
        ensures kept { self.old.spare ≤ self.new.spare }
        ensures bytes { OnOk result (bytes ≤ self.new.spare) }
        ensures short { OnOk result (self.new.spare < 2 ^ 63) }
        ensures parts { OnOk result (length pieces.now ≤ self.new.places) }
        ensures refused { OnErr result SomeRefused }
    {
        more_in_queue_for(&mut self.shared, pieces, pieces.len())?;
        more_in_buffer_for(&mut self.buffer, pieces, bytes)?;
        is_short(&mut self.buffer);
        Ok(())
    }

    /// Appends bytes, for which there is room.
    #[inline(always)]
    pub(crate) fn put(&mut self, bytes: &[u8])
        requires { length bytes.now ≤ self.old.spare }
        ensures waits { self.new.waits ≡ self.old.waits ++ bytes.now }
        ensures spare { self.new.spare + length bytes.now ≡ self.old.spare }
        ensures places { self.new.places ≡ self.old.places }
    {
        self.buffer.extend_reserved(bytes);
    }

    /// Appends the text of a body, which has this length. There is room for it.
    #[inline(always)]
    pub(crate) fn put_text(&mut self, body: &FrameBody, len: usize)
        requires len_is { len ≡ length (text_of body.now) }
        requires room { length (text_of body.now) ≤ self.old.spare }
        requires fits { length (text_of body.now) < 2 ^ 32 }
        ensures waits { self.new.waits ≡ self.old.waits ++ text_of body.now }
        ensures spare { self.new.spare + length (text_of body.now) ≡ self.old.spare }
        ensures places { self.new.places ≡ self.old.places }
    {
        body.put_text(len, &mut self.buffer);
    }

    /// Appends a part that is shared. There is a place for it.
    pub(crate) fn share(&mut self, part: Bytes)
        requires some { 1 ≤ length part }
        requires place { 1 ≤ self.old.places }
        ensures waits { self.new.waits ≡ self.old.waits ++ part }
        ensures spare { self.new.spare ≡ self.old.spare }
        ensures places { self.new.places + 1 ≡ self.old.places }
    {
        let len = self.buffer.len();
        let before = len - self.placed;
        self.placed = len;
        self.shared.push_back_reserved(SharedPart { before, part });
    }

    /// Whether there are no bytes.
    #[inline(always)]
    pub(crate) fn is_empty(&self) -> bool
        ensures { result ≡ (length self.now.waits == 0) }
    {
        self.buffer.is_empty() && self.shared.is_empty()
    }

    /// The first bytes, as many as lie together: none only where there are none at all.
    pub(crate) fn chunk(&self) -> &[u8]
        ensures front { (rest : List ℕ) × (self.now.waits ≡ result.now ++ rest) }
        ensures some { result.now ≡ [] → self.now.waits ≡ [] }
    {
        match self.shared.front() {
            None => self.buffer.as_slice(),
            Some(first) if first.before == 0 => first.part.as_slice(),
            Some(first) => &self.buffer.as_slice()[..first.before],
        }
    }

    /// Takes so many bytes off the front.
    pub(crate) fn advance(&mut self, count: usize)
        requires { count ≤ length self.old.waits }
        ensures waits { self.new.waits ≡ drop count self.old.waits }
        ensures spare { self.old.spare ≤ self.new.spare }
    {
        let mut left = count;
        while left > 0 {
            left -= self.take_some(left);
        }
    }

    /// Takes up to `most` bytes off the front, of those that lie together there, and says how many.
    fn take_some(&mut self, most: usize) -> usize
        ensures taken { self.new.waits ≡ drop result self.old.waits }
        ensures within { result ≤ most }
        ensures some { 0 < most → 0 < length self.old.waits → 0 < result }
        ensures spare { self.old.spare ≤ self.new.spare }
    {
        let Some(first) = self.shared.front() else {
            return take_bytes(&mut self.buffer, most);
        };
        if first.before == 0 {
            return take_part(&mut self.shared, most);
        }
        let count = take_before(&mut self.shared, most);
        self.placed -= count;
        take_bytes(&mut self.buffer, count)
    }

    /// Drops all bytes. The memory stays.
    pub(crate) fn clear(&mut self)
        ensures waits { self.new.waits ≡ [] }
        ensures spare { self.old.spare ≤ self.new.spare }
    {
        self.buffer.clear();
        self.shared.clear();
        self.placed = 0;
    }
}

/// Whether there is room for so many bytes more.
#[inline(never)]
fn has_room(buffer: &BytesMut, bytes: usize) -> bool
    ensures { IsTrue result ↔ (bytes ≤ buffer.now.spare) }
{
    bytes <= buffer.capacity() - buffer.len()
}

/// No buffer has 2^63 bytes, those counted that are spare: not even with all of them filled. It is left as it was.
fn is_short(buffer: &mut BytesMut)
    ensures items { buffer.new.items ≡ buffer.old.items }
    ensures spare { buffer.new.spare ≡ buffer.old.spare }
    ensures short { buffer.new.spare < 2 ^ 63 }
{
    let len = buffer.len();
    buffer.advance_mut(buffer.capacity() - len);
    let _all = buffer.len();
    buffer.truncate(len);
}

/// Takes up to `most` bytes off the front of a buffer, and says how many. Where none are left, all of its memory is room again.
fn take_bytes(buffer: &mut BytesMut, most: usize) -> usize
    ensures count { result ≡ min most (length buffer.old.items) }
    ensures rest { buffer.new.items ≡ drop result buffer.old.items }
    ensures spare { buffer.old.spare ≤ buffer.new.spare }
{
    let count = most.min(buffer.len());
    if count == buffer.len() {
        buffer.clear();
    } else {
        buffer.advance(count);
    }
    count
}

/// Takes up to `most` bytes off the first shared part, and says how many. A part of which nothing is left goes.
fn take_part(shared: &mut VecDeque<SharedPart>, most: usize) -> usize
    requires { 0 < length shared.old.items }
    ensures { TakesPart most shared.old.items result shared.new.items }
{
    let len = shared[0].part.len();
    if most < len {
        shared[0].part.advance(most);
        return most;
    }
    drop(shared.pop_front());
    len
}

/// Counts up to `most` bytes less before the first shared part, and says how many.
fn take_before(shared: &mut VecDeque<SharedPart>, most: usize) -> usize
    requires { 0 < length shared.old.items }
    ensures { TakesBefore most shared.old.items result shared.new.items }
{
    let before = shared[0].before;
    let count = most.min(before);
    shared[0].before = before - count;
    count
}
