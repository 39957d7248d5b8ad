//! Whether the room for items to come is there.

ghost use Rattle.std.specs.Prelude.{◌≡◌, ◌+◌, ◌-◌, ◌/◌, ◌<◌, ◌≤◌, false, length, slice_index_or, min, IsTrue, OnOk, OnErr};
ghost use Rattle.amqp_memory.specs.Refusal.{RefusedWithin};
ghost use Rattle.amqp_blocks.specs.Chunked.{Block, items_of, EachSome, EachSpare, places_of, IsSound};
ghost use Rattle.amqp_blocks.specs.Inner.Changes.{free_of, MakesSpares};

use crate::ends::Ends;
use crate::room::make_room;
use crate::sequence::BLOCK;
use std::alloc::AllocError;
use std::collections::VecDeque;

/// How many places of a ring are free.
fn free_at<T>(rings: &Vec<VecDeque<T>>, at: usize) -> usize
    requires at { at < length rings.now.items }
    ensures free { (b : Block T) → b ≡ slice_index_or rings.now.items at b → result ≡ min b.cap 256 - length b.items }
{
    let ring = &rings[at];
    ring.capacity().min(BLOCK).saturating_sub(ring.len())
}

/// How many of so many items the free places of the rings don't take.
fn left_over<T>(rings: &Vec<VecDeque<T>>, additional: usize) -> usize
    ensures left { result ≡ additional - free_of rings.now.items }
{
    let mut left = additional;
    for at in 0..rings.len() {
        left = left.saturating_sub(free_at(rings, at));
    }
    left
}

/// Whether there is room for so many items.
#[inline(never)]
pub(crate) fn is_there<T>(
    blocks: &Vec<VecDeque<T>>,
    spare: &Vec<VecDeque<T>>,
    additional: usize,
) -> bool
    requires some { EachSome blocks.now.items }
    requires spares { EachSpare spare.now.items }
    ensures there { IsTrue result → length (items_of blocks.now.items) + additional ≤ places_of blocks.now.items + places_of spare.now.items }
    ensures lacking { result ≡ false → places_of blocks.now.items + places_of spare.now.items < length (items_of blocks.now.items) + additional }
{
    left_over(spare, left_over(blocks, additional)) == 0
}

/// Makes room for so many items more. A refusal leaves all items, and is answered only where the room is not there without it: so the free
/// places are counted only then.
#[inline(always)]
pub(crate) fn make_lacking<T>(
    blocks: &mut Vec<VecDeque<T>>,
    ends: &mut Ends,
    base: usize,
    spare: &mut Vec<VecDeque<T>>,
    additional: usize,
) -> Result<(), AllocError>
    requires sound { IsSound base blocks.old ends.old spare.old }
    requires some { 0 < additional }
    ensures sound { IsSound base blocks.new ends.new spare.new }
    ensures items { items_of blocks.new.items ≡ items_of blocks.old.items }
    ensures kept { places_of blocks.old.items + places_of spare.old.items ≤ places_of blocks.new.items + places_of spare.new.items }
    ensures rings { MakesSpares (additional / 256 + 1) blocks.old.items spare.old.items blocks.new.items spare.new.items }
    ensures alone { length blocks.old.items ≡ 1 → length (items_of blocks.old.items) + additional ≤ 256 → length spare.new.items ≡ length spare.old.items }
    ensures ok { OnOk result (length (items_of blocks.new.items) + additional ≤ places_of blocks.new.items + places_of spare.new.items) }
    ensures lacking { OnErr result (places_of blocks.new.items + places_of spare.new.items < length (items_of blocks.new.items) + additional) }
    ensures refused { OnErr result (RefusedWithin (256 + additional)) }
{
    let Err(error) = make_room(blocks, ends, base, spare, additional) else {
        return Ok(());
    };
    if is_there(blocks, spare, additional) {
        return Ok(());
    }
    Err(error)
}
