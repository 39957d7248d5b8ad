//! Where an item comes in, and how.

ghost use Rattle.std.specs.Prelude.{ℕ, ◌≡◌, ◌+◌, ◌-◌, ◌^◌, ◌<◌, ◌≤◌, length};
ghost use Rattle.std.specs.List.{insert};
ghost use Rattle.amqp_blocks.specs.Chunked.{Block, items_of, start_of, places_of, end_room, IsSound, Within, HasItem, HasPlace, IsFull};
ghost use Rattle.amqp_blocks.specs.Inner.Changes.{KeepsPlaces, HoldsRank};

use crate::adding::{put_alone, put_in, split};
use crate::cascade::{cascade, end_of, has_place};
use crate::ends::Ends;
use crate::search::{Place, locate_near, total};
use std::collections::VecDeque;

/// An item comes to a place in a full block, with a spare ring.
#[inline(never)]
fn put_with_spare<T>(
    blocks: &mut Vec<VecDeque<T>>,
    ends: &mut Ends,
    base: usize,
    spare: &mut Vec<VecDeque<T>>,
    place: Place,
    item: T,
)
    requires sound { IsSound base blocks.old ends.old spare.old }
    requires spare { 0 < length spare.old.items }
    requires block { place.block < length blocks.old.items }
    requires within { Within blocks.old.items place.block place.at }
    requires few { length (items_of blocks.old.items) < 2 ^ 33 }
    ensures sound { IsSound base blocks.new ends.new spare.new }
    ensures items { items_of blocks.new.items ≡ insert (items_of blocks.old.items) (start_of blocks.old.items place.block + place.at) item }
    ensures kept { KeepsPlaces blocks.old.items spare.old.items blocks.new.items spare.new.items }
    ensures count { length blocks.new.items ≡ length blocks.old.items + 1 }
{
    if place.at == 0 {
        put_alone(blocks, ends, base, spare, place.block, item);
        return;
    }
    if place.at == blocks[place.block].len() {
        put_alone(blocks, ends, base, spare, place.block + 1, item);
        return;
    }
    let place = split(blocks, ends, base, spare, place);
    put_in(blocks, ends, base, place, item);
}

/// An item comes to a place: into its block where that has a place for it, else with a spare ring, else over the borders of blocks.
#[inline(always)]
pub(crate) fn put_at<T>(
    blocks: &mut Vec<VecDeque<T>>,
    ends: &mut Ends,
    base: usize,
    spare: &mut Vec<VecDeque<T>>,
    place: Place,
    item: T,
)
    requires sound { IsSound base blocks.old ends.old spare.old }
    requires block { place.block < length blocks.old.items }
    requires within { Within blocks.old.items place.block place.at }
    requires item { place.block + 1 < length blocks.old.items → HasItem blocks.old.items place.block place.at }
    requires room { length (items_of blocks.old.items) < places_of blocks.old.items + places_of spare.old.items }
    requires few { length (items_of blocks.old.items) < 2 ^ 33 }
    ensures sound { IsSound base blocks.new ends.new spare.new }
    ensures items { items_of blocks.new.items ≡ insert (items_of blocks.old.items) (start_of blocks.old.items place.block + place.at) item }
    ensures kept { KeepsPlaces blocks.old.items spare.old.items blocks.new.items spare.new.items }
    ensures count { length blocks.new.items ≤ length blocks.old.items + 1 }
    ensures grows { length blocks.old.items ≤ length blocks.new.items }
    ensures taken { IsFull blocks.old.items place.block → 0 < length spare.old.items → length blocks.new.items ≡ length blocks.old.items + 1 }
    ensures begun { HasPlace blocks.old.items place.block → length blocks.new.items ≡ length blocks.old.items }
    ensures at_end { place.block + 1 ≡ length blocks.old.items → end_room blocks.old.items ≤ end_room blocks.new.items + 1 }
{
    if has_place(blocks, place.block) {
        put_in(blocks, ends, base, place, item);
        return;
    }
    if spare.len() == 0 {
        cascade(blocks, ends, base, place, item);
        return;
    }
    put_with_spare(blocks, ends, base, spare, place, item);
}

/// An item comes to the end.
#[inline(always)]
pub(crate) fn put_last<T>(
    blocks: &mut Vec<VecDeque<T>>,
    ends: &mut Ends,
    base: usize,
    spare: &mut Vec<VecDeque<T>>,
    item: T,
)
    requires sound { IsSound base blocks.old ends.old spare.old }
    requires room { length (items_of blocks.old.items) < places_of blocks.old.items + places_of spare.old.items }
    requires few { length (items_of blocks.old.items) < 2 ^ 33 }
    ensures sound { IsSound base blocks.new ends.new spare.new }
    ensures items { items_of blocks.new.items ≡ insert (items_of blocks.old.items) (length (items_of blocks.old.items)) item }
    ensures kept { KeepsPlaces blocks.old.items spare.old.items blocks.new.items spare.new.items }
    ensures count { length blocks.new.items ≤ length blocks.old.items + 1 }
    ensures grows { length blocks.old.items ≤ length blocks.new.items }
    ensures taken { end_room blocks.old.items ≡ 0 → 0 < length spare.old.items → length blocks.new.items ≡ length blocks.old.items + 1 }
    ensures begun { 0 < end_room blocks.old.items → length blocks.new.items ≡ length blocks.old.items }
    ensures at_end { end_room blocks.old.items ≤ end_room blocks.new.items + 1 }
{
    let count = blocks.len();
    if count == 0 {
        put_alone(blocks, ends, base, spare, 0, item);
        return;
    }
    let end = end_of(blocks, count - 1);
    put_at(blocks, ends, base, spare, end, item);
}

/// An item comes before that of a place. Where that one is the first of its block, it comes to the end of the block before, if that has a
/// place: else items that come in rising order before a full block would get a block each.
fn put_near<T>(
    blocks: &mut Vec<VecDeque<T>>,
    ends: &mut Ends,
    base: usize,
    spare: &mut Vec<VecDeque<T>>,
    place: Place,
    item: T,
)
    requires sound { IsSound base blocks.old ends.old spare.old }
    requires block { place.block < length blocks.old.items }
    requires item { HasItem blocks.old.items place.block place.at }
    requires room { length (items_of blocks.old.items) < places_of blocks.old.items + places_of spare.old.items }
    requires few { length (items_of blocks.old.items) < 2 ^ 33 }
    ensures sound { IsSound base blocks.new ends.new spare.new }
    ensures items { items_of blocks.new.items ≡ insert (items_of blocks.old.items) (start_of blocks.old.items place.block + place.at) item }
    ensures kept { KeepsPlaces blocks.old.items spare.old.items blocks.new.items spare.new.items }
    ensures count { length blocks.new.items ≤ length blocks.old.items + 1 }
    ensures grows { length blocks.old.items ≤ length blocks.new.items }
    ensures begun { HasPlace blocks.old.items place.block → length blocks.new.items ≡ length blocks.old.items }
    ensures before { place.at ≡ 0 → 0 < place.block → HasPlace blocks.old.items (place.block - 1) → length blocks.new.items ≡ length blocks.old.items }
{
    if place.at == 0 && place.block > 0 {
        let end = end_of(blocks, place.block - 1);
        if has_place(blocks, end.block) {
            return put_in(blocks, ends, base, end, item);
        }
    }
    put_at(blocks, ends, base, spare, place, item);
}

/// An item comes before that of a rank, which may be in the hinted block, or to the end.
pub(crate) fn put_before<T>(
    blocks: &mut Vec<VecDeque<T>>,
    ends: &mut Ends,
    base: usize,
    spare: &mut Vec<VecDeque<T>>,
    hint: usize,
    rank: usize,
    item: T,
)
    requires sound { IsSound base blocks.old ends.old spare.old }
    requires within { rank ≤ length (items_of blocks.old.items) }
    requires room { length (items_of blocks.old.items) < places_of blocks.old.items + places_of spare.old.items }
    requires few { length (items_of blocks.old.items) < 2 ^ 33 }
    ensures sound { IsSound base blocks.new ends.new spare.new }
    ensures items { items_of blocks.new.items ≡ insert (items_of blocks.old.items) rank item }
    ensures kept { KeepsPlaces blocks.old.items spare.old.items blocks.new.items spare.new.items }
    ensures count { length blocks.new.items ≤ length blocks.old.items + 1 }
    ensures grows { length blocks.old.items ≤ length blocks.new.items }
    ensures between { (i : ℕ) → HoldsRank blocks.old.items rank i → HasPlace blocks.old.items i → length blocks.new.items ≡ length blocks.old.items }
    ensures taken { rank ≡ length (items_of blocks.old.items) → end_room blocks.old.items ≡ 0 → 0 < length spare.old.items → length blocks.new.items ≡ length blocks.old.items + 1 }
    ensures begun { rank ≡ length (items_of blocks.old.items) → 0 < end_room blocks.old.items → length blocks.new.items ≡ length blocks.old.items }
    ensures at_end { rank ≡ length (items_of blocks.old.items) → end_room blocks.old.items ≤ end_room blocks.new.items + 1 }
{
    if rank == total(ends, base) {
        put_last(blocks, ends, base, spare, item);
        return;
    }
    let place = locate_near(ends, base, hint, rank);
    put_near(blocks, ends, base, spare, place, item);
}
