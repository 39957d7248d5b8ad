//! Room for items to come: places in the one ring there is, or spare rings.

ghost use Rattle.std.specs.Prelude.{◌≡◌, ◌+◌, ◌-◌, ◌*◌, ◌^◌, ◌/◌, ◌<◌, ◌≤◌, [], max, length, slice_index_or, vec_capacity, OnOk, OnErr, min};
ghost use Rattle.std.specs.VecDeque.{deque_capacity};
ghost use Rattle.amqp_memory.specs.Refusal.{RefusedWithin};
ghost use Rattle.amqp_blocks.specs.Chunked.{Block, items_of, EachSpare, places_of, end_room, IsSound};
ghost use Rattle.amqp_blocks.specs.Inner.Changes.{IsGrown, MakesSpares};

use crate::ends::Ends;
use crate::search::total;
use crate::sequence::BLOCK;
use amqp_memory::{more_in_queue, more_in_vector, queue_with};
use std::alloc::{AllocError, Global};
use std::collections::VecDeque;

/// Makes places in a ring. A refusal leaves its items.
fn grow<T>(ring: &mut VecDeque<T>, additional: usize) -> Result<(), AllocError>
    ensures items { ring.new.items ≡ ring.old.items }
    ensures places { deque_capacity ring.old ≤ deque_capacity ring.new }
    ensures ok { OnOk result (length ring.new.items + additional ≤ deque_capacity ring.new) }
    ensures refused { OnErr result (RefusedWithin additional) }
{
    more_in_queue(ring, additional)
}

/// Makes places in one of these rings. A refusal leaves the items.
pub(crate) fn grow_at<T>(
    rings: &mut Vec<VecDeque<T>>,
    at: usize,
    additional: usize,
) -> Result<(), AllocError>
    requires at { at < length rings.old.items }
    ensures grown { IsGrown rings.old.items at rings.new.items }
    ensures ok { OnOk result ((b : Block T) → b ≡ slice_index_or rings.new.items at b → length b.items + additional ≤ b.cap) }
    ensures refused { OnErr result (RefusedWithin additional) }
    ensures capacity { vec_capacity rings.new ≡ vec_capacity rings.old }
{
    grow(&mut rings[at], additional)
}

/// Makes all spare rings as wide as a block.
pub(crate) fn widen<T>(spare: &mut Vec<VecDeque<T>>) -> Result<(), AllocError>
    requires spares { EachSpare spare.old.items }
    ensures spares { EachSpare spare.new.items }
    ensures count { length spare.new.items ≡ length spare.old.items }
    ensures places { places_of spare.old.items ≤ places_of spare.new.items }
    ensures ok { OnOk result (256 * length spare.new.items ≤ places_of spare.new.items) }
    ensures refused { OnErr result (RefusedWithin 256) }
    ensures capacity { vec_capacity spare.new ≡ vec_capacity spare.old }
{
    for at in 0..spare.len() {
        grow_at(spare, at, BLOCK)?;
    }
    Ok(())
}

/// Makes spare rings as wide as a block until there are so many.
pub(crate) fn make_spares<T>(
    alloc: Global,
    spare: &mut Vec<VecDeque<T>>,
    count: usize,
) -> Result<(), AllocError>
    requires spares { EachSpare spare.old.items }
    requires room { count ≤ vec_capacity spare.old }
    requires wide { 256 * length spare.old.items ≤ places_of spare.old.items }
    ensures spares { EachSpare spare.new.items }
    ensures kept { length spare.old.items ≤ length spare.new.items }
    ensures most { length spare.new.items ≤ max (length spare.old.items) count }
    ensures places { places_of spare.old.items + 256 * (length spare.new.items - length spare.old.items) ≤ places_of spare.new.items }
    ensures ok { OnOk result (256 * count ≤ places_of spare.new.items) }
    ensures refused { OnErr result (RefusedWithin 256) }
{
    while spare.len() < count {
        spare.push_reserved(queue_with(alloc, BLOCK)?);
    }
    Ok(())
}

/// Makes a first spare ring, with so many places.
pub(crate) fn make_first<T>(
    alloc: Global,
    spare: &mut Vec<VecDeque<T>>,
    places: usize,
) -> Result<(), AllocError>
    requires none { spare.old.items ≡ [] }
    requires some { 0 < places }
    requires most { places ≤ 256 }
    requires room { 0 < vec_capacity spare.old }
    ensures spares { EachSpare spare.new.items }
    ensures most { length spare.new.items ≤ 1 }
    ensures ok { OnOk result (places ≤ places_of spare.new.items) }
    ensures refused { OnErr result (RefusedWithin places) }
{
    spare.push_reserved(queue_with(alloc, places)?);
    Ok(())
}

/// Makes a place for each of so many spare rings among the blocks.
fn make_slots<T>(
    blocks: &mut Vec<VecDeque<T>>,
    ends: &mut Ends,
    spare: &mut Vec<VecDeque<T>>,
    count: usize,
) -> Result<(), AllocError>
    ensures blocks { (blocks.new.items ≡ blocks.old.items) × (vec_capacity blocks.old ≤ vec_capacity blocks.new) }
    ensures ends { (ends.new.items ≡ ends.old.items) × (ends.old.capacity ≤ ends.new.capacity) }
    ensures spare { (spare.new.items ≡ spare.old.items) × (vec_capacity spare.old ≤ vec_capacity spare.new) }
    ensures ok { OnOk result ((length blocks.new.items + count ≤ vec_capacity blocks.new) × (length ends.new.items + count ≤ ends.new.capacity) × (count ≤ vec_capacity spare.new)) }
    ensures refused { OnErr result (RefusedWithin count) }
{
    more_in_vector(blocks, count)?;
    ends.reserve(count)?;
    more_in_vector(spare, count)
}

/// Makes places in the one block there is.
fn make_room_in_block<T>(
    blocks: &mut Vec<VecDeque<T>>,
    ends: &Ends,
    base: usize,
    spare: &Vec<VecDeque<T>>,
    additional: usize,
) -> Result<(), AllocError>
    requires sound { IsSound base blocks.old ends.now spare.now }
    requires one { length blocks.old.items ≡ 1 }
    requires fits { length (items_of blocks.old.items) + additional ≤ 256 }
    ensures sound { IsSound base blocks.new ends.now spare.now }
    ensures items { items_of blocks.new.items ≡ items_of blocks.old.items }
    ensures kept { places_of blocks.old.items ≤ places_of blocks.new.items }
    ensures blocks { length blocks.new.items ≡ length blocks.old.items }
    ensures at_end { end_room blocks.old.items ≤ end_room blocks.new.items }
    ensures ok { OnOk result (length (items_of blocks.new.items) + additional ≤ places_of blocks.new.items) }
    ensures refused { OnErr result (RefusedWithin additional) }
{
    grow_at(blocks, 0, additional)
}

/// Makes places in a spare ring, for the first block.
fn make_room_for_first<T>(
    blocks: &mut Vec<VecDeque<T>>,
    ends: &mut Ends,
    base: usize,
    spare: &mut Vec<VecDeque<T>>,
    additional: usize,
) -> Result<(), AllocError>
    requires sound { IsSound base blocks.old ends.old spare.old }
    requires none { length blocks.old.items ≡ 0 }
    requires some { 0 < additional }
    requires fits { additional ≤ 256 }
    ensures sound { IsSound base blocks.new ends.new spare.new }
    ensures items { blocks.new.items ≡ blocks.old.items }
    ensures kept { places_of spare.old.items ≤ places_of spare.new.items }
    ensures rings { (length spare.old.items ≤ length spare.new.items) × (length spare.new.items ≤ max (length spare.old.items) 1) }
    ensures ok { OnOk result (additional ≤ places_of spare.new.items) }
    ensures refused { OnErr result (RefusedWithin additional) }
{
    make_slots(blocks, ends, spare, 1)?;
    if spare.len() == 0 {
        let alloc = *spare.allocator();
        return make_first(alloc, spare, additional);
    }
    grow_at(spare, 0, additional)
}

/// Makes so many spare rings as wide as a block.
fn make_room_in_spares<T>(
    blocks: &mut Vec<VecDeque<T>>,
    ends: &mut Ends,
    base: usize,
    spare: &mut Vec<VecDeque<T>>,
    count: usize,
) -> Result<(), AllocError>
    requires sound { IsSound base blocks.old ends.old spare.old }
    ensures sound { IsSound base blocks.new ends.new spare.new }
    ensures items { blocks.new.items ≡ blocks.old.items }
    ensures kept { places_of spare.old.items ≤ places_of spare.new.items }
    ensures rings { MakesSpares count blocks.old.items spare.old.items blocks.new.items spare.new.items }
    ensures ok { OnOk result (256 * count ≤ places_of spare.new.items) }
    ensures refused { OnErr result (RefusedWithin (256 + count)) }
{
    make_slots(blocks, ends, spare, count)?;
    widen(spare)?;
    let alloc = *spare.allocator();
    make_spares(alloc, spare, count)
}

/// Makes room for so many items more. A refusal leaves all items.
pub(crate) fn make_room<T>(
    blocks: &mut Vec<VecDeque<T>>,
    ends: &mut Ends,
    base: usize,
    spare: &mut Vec<VecDeque<T>>,
    additional: usize,
) -> Result<(), AllocError>
    requires sound { IsSound base blocks.old ends.old spare.old }
    requires some { 0 < additional }
    ensures sound { IsSound base blocks.new ends.new spare.new }
    ensures items { items_of blocks.new.items ≡ items_of blocks.old.items }
    ensures kept { places_of blocks.old.items + places_of spare.old.items ≤ places_of blocks.new.items + places_of spare.new.items }
    ensures rings { MakesSpares (additional / 256 + 1) blocks.old.items spare.old.items blocks.new.items spare.new.items }
    ensures alone { length blocks.old.items ≡ 1 → length (items_of blocks.old.items) + additional ≤ 256 → length spare.new.items ≡ length spare.old.items }
    ensures ok { OnOk result (length (items_of blocks.new.items) + additional ≤ places_of blocks.new.items + places_of spare.new.items) }
    ensures refused { OnErr result (RefusedWithin (256 + additional)) }
{
    let count = blocks.len();
    let rest = BLOCK - total(ends, base).min(BLOCK);
    if count == 1 && additional <= rest {
        return make_room_in_block(blocks, ends, base, spare, additional);
    }
    if count == 0 && additional <= rest {
        return make_room_for_first(blocks, ends, base, spare, additional);
    }
    make_room_in_spares(blocks, ends, base, spare, additional / BLOCK + 1)
}
