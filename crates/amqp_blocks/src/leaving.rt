//! Items leave one block. An empty block goes.

ghost use Rattle.std.specs.Prelude.{◌≡◌, ◌+◌, ◌-◌, ◌^◌, ◌<◌, ◌≤◌, [], ◌∷◌, length, vec_capacity, slice_index_or};
ghost use Rattle.amqp_blocks.specs.Chunked.{Block, items_of, start_of, ends_from, IsChunked, EachSpare, Within, without};
ghost use Rattle.amqp_blocks.specs.Inner.Changes.{IsPopped, IsSwept, EachSomeBut, KeepsSpares};

use crate::ends::Ends;
use crate::lengths::{settle, sink_or_rise};
use crate::rings::thin;
use crate::search::Place;
use crate::sequence::BLOCK;
use std::collections::VecDeque;

/// How many spare rings are kept: while items come at one end and leave at the other, one is filled and one is emptied.
const SPARES: usize = 2;

/// An empty ring is kept as a spare one, where few are left and it has so many places at least. Else it is freed.
pub(crate) fn keep<T>(spare: &mut Vec<VecDeque<T>>, ring: VecDeque<T>, least: usize)
    requires empty { ring.items ≡ [] }
    requires least { 0 < least }
    requires spares { EachSpare spare.old.items }
    ensures spares { EachSpare spare.new.items }
    ensures count { length spare.new.items ≤ length spare.old.items + 1 }
    ensures kept { KeepsSpares spare.old.items spare.new.items }
{
    if spare.len() < SPARES.min(spare.capacity()) && ring.capacity() >= least {
        spare.push_reserved(ring);
    } else {
        ring.destroy_empty();
    }
}

/// An empty block goes.
#[inline(always)]
fn sweep<T>(
    blocks: &mut Vec<VecDeque<T>>,
    ends: &mut Ends,
    spare: &mut Vec<VecDeque<T>>,
    block: usize,
)
    requires block { block < length blocks.old.items }
    requires ends { length ends.old.items ≡ length blocks.old.items }
    requires spares { EachSpare spare.old.items }
    ensures swept { IsSwept blocks.old.items ends.old.items block blocks.new.items ends.new.items }
    ensures spares { EachSpare spare.new.items }
    ensures count { length blocks.new.items ≤ length blocks.old.items }
    ensures rings { length blocks.new.items + length spare.new.items ≤ length blocks.old.items + length spare.old.items }
    ensures kept { KeepsSpares spare.old.items spare.new.items }
    ensures capacity { (vec_capacity blocks.new ≡ vec_capacity blocks.old) × (ends.new.capacity ≡ ends.old.capacity) }
{
    if blocks[block].is_empty() {
        let ring = blocks.remove(block);
        ends.remove(block);
        keep(spare, ring, if blocks.is_empty() { 1 } else { BLOCK });
    }
}

/// Puts in order what a block that lost items leaves: it goes where it is empty, and a large base is counted from 0 again. Answers the base.
#[inline(always)]
fn tidy<T>(
    blocks: &mut Vec<VecDeque<T>>,
    ends: &mut Ends,
    spare: &mut Vec<VecDeque<T>>,
    base: usize,
    block: usize,
) -> usize
    requires stops { ends.old.items ≡ ends_from base blocks.old.items }
    requires some { EachSomeBut blocks.old.items block }
    requires few { length (items_of blocks.old.items) ≤ 2 ^ 33 }
    requires block { block < length blocks.old.items }
    requires spares { EachSpare spare.old.items }
    ensures chunked { IsChunked result blocks.new.items ends.new.items }
    ensures items { items_of blocks.new.items ≡ items_of blocks.old.items }
    ensures spares { EachSpare spare.new.items }
    ensures count { length blocks.new.items ≤ length blocks.old.items }
    ensures rings { length blocks.new.items + length spare.new.items ≤ length blocks.old.items + length spare.old.items }
    ensures kept { KeepsSpares spare.old.items spare.new.items }
    ensures capacity { (vec_capacity blocks.new ≡ vec_capacity blocks.old) × (ends.new.capacity ≡ ends.old.capacity) }
{
    sweep(blocks, ends, spare, block);
    settle(ends, base)
}

/// Items of one block leave. Answers the base.
pub(crate) fn leave<T: Drop>(
    blocks: &mut Vec<VecDeque<T>>,
    ends: &mut Ends,
    spare: &mut Vec<VecDeque<T>>,
    base: usize,
    place: Place,
    count: usize,
) -> usize
    requires chunked { IsChunked base blocks.old.items ends.old.items }
    requires spares { EachSpare spare.old.items }
    requires block { place.block < length blocks.old.items }
    requires within { Within blocks.old.items place.block (place.at + count) }
    ensures chunked { IsChunked result blocks.new.items ends.new.items }
    ensures items { items_of blocks.new.items ≡ without (start_of blocks.old.items place.block + place.at) count (items_of blocks.old.items) }
    ensures spares { EachSpare spare.new.items }
    ensures count { length blocks.new.items ≤ length blocks.old.items }
    ensures rings { length blocks.new.items + length spare.new.items ≤ length blocks.old.items + length spare.old.items }
    ensures kept { KeepsSpares spare.old.items spare.new.items }
    ensures capacity { (vec_capacity blocks.new ≡ vec_capacity blocks.old) × (ends.new.capacity ≡ ends.old.capacity) }
{
    thin(blocks, place, count);
    let base = sink_or_rise(ends, base, place.block, count);
    tidy(blocks, ends, spare, base, place.block)
}

/// Takes the first item out of a ring.
fn take_first<T>(ring: &mut VecDeque<T>) -> T
    requires some { 0 < length ring.old.items }
    ensures items { ring.old.items ≡ result ∷ ring.new.items }
{
    ring.pop_front().unwrap()
}

/// Takes the first item out of a block.
fn pop_first<T>(blocks: &mut Vec<VecDeque<T>>, block: usize) -> T
    requires block { block < length blocks.old.items }
    requires some { (b : Block T) → b ≡ slice_index_or blocks.old.items block b → 0 < length b.items }
    ensures popped { IsPopped blocks.old.items block result blocks.new.items }
    ensures capacity { vec_capacity blocks.new ≡ vec_capacity blocks.old }
{
    take_first(&mut blocks[block])
}

/// The first item leaves. Answers it, and the base.
#[inline(always)]
pub(crate) fn pop<T>(
    blocks: &mut Vec<VecDeque<T>>,
    ends: &mut Ends,
    spare: &mut Vec<VecDeque<T>>,
    base: usize,
) -> (T, usize)
    requires chunked { IsChunked base blocks.old.items ends.old.items }
    requires spares { EachSpare spare.old.items }
    requires some { 0 < length blocks.old.items }
    ensures chunked { IsChunked result.1 blocks.new.items ends.new.items }
    ensures items { items_of blocks.old.items ≡ result.0 ∷ items_of blocks.new.items }
    ensures spares { EachSpare spare.new.items }
    ensures count { length blocks.new.items ≤ length blocks.old.items }
    ensures rings { length blocks.new.items + length spare.new.items ≤ length blocks.old.items + length spare.old.items }
    ensures kept { KeepsSpares spare.old.items spare.new.items }
    ensures capacity { (vec_capacity blocks.new ≡ vec_capacity blocks.old) × (ends.new.capacity ≡ ends.old.capacity) }
{
    let item = pop_first(blocks, 0);
    let base = tidy(blocks, ends, spare, base + 1, 0);
    (item, base)
}
