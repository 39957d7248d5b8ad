//! Where each block ends. All from a block on change together, and a change near the last one costs little.

ghost use Rattle.std.specs.Prelude.{◌≡◌, ℕ, ◌+◌, ◌-◌, ◌%◌, ◌^◌, ◌<◌, ◌≤◌, [], ◌++◌, length, map, take, drop, slice_index, slice_set, vec_capacity, OnOk, OnErr};
ghost use Rattle.std.specs.List.{insert, remove};
ghost use Rattle.amqp_memory.specs.Refusal.{RefusedWithin};
ghost use Rattle.amqp_blocks.specs.Inner.Shifted.{more, over, plain, shifted};

use crate::adding::insert_reserved;
use amqp_memory::more_in_vector;
use std::alloc::{AllocError, Global};
use std::marker::Model;

/// A change is written up to the nearer end where the shift is so many times as far away. Else the shift moves to it, since the next change
/// may be near.
pub(crate) const NEARER: usize = 4;

/// Running lengths.
#[derive(Drop)]
pub(crate) struct Ends {
    // Those from the block `from` on are `shift` more than is written, modulo 2^64.
    written: Vec<usize>,
    from: usize,
    shift: usize,
}

impl Model for Ends {
    ghost use Rattle.std.specs.Prelude.{vec_capacity, length, ◌≤◌};
    ghost use Rattle.amqp_blocks.specs.Chunked.{RunningLengths};
    ghost use Rattle.amqp_blocks.specs.Inner.Shifted.{shifted};

    ghost Value = { RunningLengths };

    ghost view = { λ e. record { items = shifted e.from e.shift e.written.items; capacity = vec_capacity e.written } };

    ghost invariant = { λ e. e.from ≤ length e.written.items };
}

/// Shifts the running lengths from a block on and before another, modulo 2^64.
fn shift_within(ends: &mut [usize], first: usize, next: usize, shift: usize)
    requires order { first ≤ next }
    requires within { next ≤ length ends.old }
    ensures shifted { ends.new ≡ over first (next - first) (more shift) ends.old }
{
    for i in first..next {
        ends[i] = ends[i].wrapping_add(shift);
    }
}

/// The same of all that are written.
fn shift_written(written: &mut Vec<usize>, first: usize, next: usize, shift: usize)
    requires order { first ≤ next }
    requires within { next ≤ length written.old.items }
    ensures shifted { written.new.items ≡ over first (next - first) (more shift) written.old.items }
    ensures capacity { vec_capacity written.new ≡ vec_capacity written.old }
{
    shift_within(&mut written[0..], first, next, shift);
}

/// The running length of a block.
#[inline(always)]
fn read(written: &Vec<usize>, from: usize, shift: usize, block: usize) -> usize
    requires block { block < length written.now.items }
    ensures { result ≡ slice_index (shifted from shift written.now.items) block }
{
    let end = written[block];
    if block < from {
        return end;
    }
    end.wrapping_add(shift)
}

/// Writes the running lengths between two blocks so that the shift is from the second one on.
fn move_shift(written: &mut Vec<usize>, from: usize, shift: usize, to: usize)
    requires from { from ≤ length written.old.items }
    requires to { to ≤ length written.old.items }
    ensures same { shifted to shift written.new.items ≡ shifted from shift written.old.items }
    ensures count { length written.new.items ≡ length written.old.items }
    ensures capacity { vec_capacity written.new ≡ vec_capacity written.old }
{
    if to < from {
        shift_written(written, to, from, 0usize.wrapping_sub(shift));
    } else {
        shift_written(written, from, to, shift);
    }
}

/// Shifts the running lengths from a block on, modulo 2^64: where they are written, if they are few (see `NEARER`), or by the shift. Answers
/// where the shift begins, and the shift.
#[inline(never)]
fn shift_from(
    written: &mut Vec<usize>,
    from: usize,
    shift: usize,
    block: usize,
    by: usize,
) -> (usize, usize)
    requires from { from ≤ length written.old.items }
    requires block { block ≤ length written.old.items }
    ensures from { result.0 ≤ length written.new.items }
    ensures shifted { shifted result.0 result.1 written.new.items ≡ take block (shifted from shift written.old.items)
        ++ map (more by) (drop block (shifted from shift written.old.items)) }
    ensures capacity { vec_capacity written.new ≡ vec_capacity written.old }
{
    let count = written.len();
    if count - block <= block.abs_diff(from) / NEARER {
        shift_written(written, block, count, by);
        return (from, shift);
    }
    move_shift(written, from, shift, block);
    (block, shift.wrapping_add(by))
}

/// Shifts the running lengths before a block, modulo 2^64.
fn shift_before(written: &mut Vec<usize>, from: usize, shift: usize, block: usize, by: usize)
    requires from { from ≤ length written.old.items }
    requires block { block ≤ length written.old.items }
    ensures shifted { shifted from shift written.new.items ≡ map (more by) (take block (shifted from shift written.old.items))
        ++ drop block (shifted from shift written.old.items) }
    ensures count { length written.new.items ≡ length written.old.items }
    ensures capacity { vec_capacity written.new ≡ vec_capacity written.old }
{
    shift_written(written, 0, block, by);
}

/// Writes all running lengths, so that none is shifted. Answers how many there are.
fn write_all(written: &mut Vec<usize>, from: usize, shift: usize) -> usize
    requires from { from ≤ length written.old.items }
    ensures all { map plain written.new.items ≡ shifted from shift written.old.items }
    ensures count { result ≡ length written.new.items }
    ensures kept { result ≡ length written.old.items }
    ensures capacity { vec_capacity written.new ≡ vec_capacity written.old }
{
    let count = written.len();
    move_shift(written, from, shift, count);
    count
}

/// Those from `first` on and before `next` go.
fn drain_written(written: &mut Vec<usize>, first: usize, next: usize)
    requires order { first ≤ next }
    requires within { next ≤ length written.old.items }
    ensures items { written.new.items ≡ take first written.old.items ++ drop next written.old.items }
    ensures capacity { vec_capacity written.new ≡ vec_capacity written.old }
{
    written.drain(first..next);
}

impl Ends {
    /// Of no block.
    pub(crate) fn new(alloc: Global) -> Ends
        ensures items { result.items ≡ [] }
    {
        Ends {
            written: Vec::new(alloc),
            from: 0,
            shift: 0,
        }
    }

    /// Of how many blocks.
    #[inline(always)]
    pub(crate) fn len(&self) -> usize
        ensures { result ≡ length self.now.items }
    {
        self.written.len()
    }

    /// Where a block ends.
    #[inline(always)]
    pub(crate) fn at(&self, block: usize) -> usize
        requires block { block < length self.now.items }
        ensures { result ≡ slice_index self.now.items block }
    {
        read(&self.written, self.from, self.shift, block)
    }

    /// How far a change from a block on would move the shift.
    #[inline(always)]
    pub(crate) fn far(&self, block: usize) -> usize {
        block.abs_diff(self.from)
    }

    /// Shifts those from a block on, modulo 2^64.
    #[inline(always)]
    pub(crate) fn shift_from(&mut self, block: usize, by: usize)
        requires block { block ≤ length self.old.items }
        ensures small { (i : ℕ) → i < length self.old.items → slice_index self.old.items i < 2 ^ 64 }
        ensures shifted { self.new.items ≡ take block self.old.items ++ map (more by) (drop block self.old.items) }
        ensures capacity { self.new.capacity ≡ self.old.capacity }
    {
        // Many changes come to one block.
        if block == self.from {
            self.shift = self.shift.wrapping_add(by);
            return;
        }
        let (from, shift) = shift_from(&mut self.written, self.from, self.shift, block, by);
        self.from = from;
        self.shift = shift;
    }

    /// Shifts those before a block, modulo 2^64.
    pub(crate) fn shift_before(&mut self, block: usize, by: usize)
        requires block { block ≤ length self.old.items }
        ensures shifted { self.new.items ≡ map (more by) (take block self.old.items) ++ drop block self.old.items }
        ensures capacity { self.new.capacity ≡ self.old.capacity }
    {
        shift_before(&mut self.written, self.from, self.shift, block, by);
    }

    /// Makes room for so many blocks more. A refusal leaves all as they were.
    pub(crate) fn reserve(&mut self, additional: usize) -> Result<(), AllocError>
        ensures items { self.new.items ≡ self.old.items }
        ensures kept { self.old.capacity ≤ self.new.capacity }
        ensures room { OnOk result (length self.new.items + additional ≤ self.new.capacity) }
        ensures refused { OnErr result (RefusedWithin additional) }
    {
        more_in_vector(&mut self.written, additional)
    }

    /// A block comes before another, or after the last. It needs room for one, and asks for no memory.
    pub(crate) fn insert(&mut self, block: usize, end: usize)
        requires within { block ≤ length self.old.items }
        requires room { length self.old.items < self.old.capacity }
        ensures items { self.new.items ≡ insert self.old.items block end }
        ensures capacity { self.old.capacity ≤ self.new.capacity }
    {
        let count = write_all(&mut self.written, self.from, self.shift);
        insert_reserved(&mut self.written, block, end);
        self.from = count + 1;
    }

    /// A block goes.
    pub(crate) fn remove(&mut self, block: usize)
        requires within { block < length self.old.items }
        ensures items { self.new.items ≡ remove self.old.items block }
        ensures capacity { self.new.capacity ≡ self.old.capacity }
    {
        let count = write_all(&mut self.written, self.from, self.shift);
        self.written.remove(block);
        self.from = count - 1;
    }

    /// The blocks from `first` on and before `next` go.
    pub(crate) fn drain(&mut self, first: usize, next: usize)
        requires order { first ≤ next }
        requires within { next ≤ length self.old.items }
        ensures items { self.new.items ≡ take first self.old.items ++ drop next self.old.items }
        ensures capacity { self.new.capacity ≡ self.old.capacity }
    {
        let count = write_all(&mut self.written, self.from, self.shift);
        drain_written(&mut self.written, first, next);
        self.from = count - (next - first);
    }

    /// A block ends elsewhere.
    pub(crate) fn set(&mut self, block: usize, end: usize)
        requires within { block < length self.old.items }
        ensures items { self.new.items ≡ slice_set self.old.items block end }
        ensures capacity { self.new.capacity ≡ self.old.capacity }
    {
        self.from = write_all(&mut self.written, self.from, self.shift);
        self.written[block] = end;
    }
}
