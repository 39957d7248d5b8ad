//! An item comes into the sequence: into a block that has a place, or with a new block for it.

ghost use Rattle.std.specs.Prelude.{◌≡◌, ◌+◌, ◌-◌, ◌/◌, ◌^◌, ◌<◌, ◌≤◌, length, slice_index, slice_index_or, vec_capacity, min};
ghost use Rattle.std.specs.List.{insert};
ghost use Rattle.amqp_blocks.specs.Chunked.{Block, items_of, start_of, places_of, end_room, IsChunked, EachSpare, Within, HasItem, HasPlace};
ghost use Rattle.amqp_blocks.specs.Inner.Changes.{KeepsPlaces};

use crate::ends::Ends;
use crate::lengths::raise_from;
use crate::rings::{halve, put};
use crate::search::Place;
use crate::sequence::BLOCK;
use std::collections::VecDeque;

/// An item comes into a block that has a place for it.
#[inline(always)]
pub(crate) fn put_in<T>(
    blocks: &mut Vec<VecDeque<T>>,
    ends: &mut Ends,
    base: usize,
    place: Place,
    item: T,
)
    requires chunked { IsChunked base blocks.old.items ends.old.items }
    requires block { place.block < length blocks.old.items }
    requires within { Within blocks.old.items place.block place.at }
    requires place { HasPlace blocks.old.items place.block }
    requires few { length (items_of blocks.old.items) < 2 ^ 33 }
    ensures chunked { IsChunked base blocks.new.items ends.new.items }
    ensures items { items_of blocks.new.items ≡ insert (items_of blocks.old.items) (start_of blocks.old.items place.block + place.at) item }
    ensures places { places_of blocks.old.items ≤ places_of blocks.new.items }
    ensures at_end { place.block + 1 ≡ length blocks.old.items → end_room blocks.old.items ≤ end_room blocks.new.items + 1 }
    ensures count { length blocks.new.items ≡ length blocks.old.items }
    ensures capacity { (vec_capacity blocks.new ≡ vec_capacity blocks.old) × (ends.new.capacity ≡ ends.old.capacity) }
{
    put(blocks, place, item);
    raise_from(ends, place.block);
}

/// Where a block begins: where the one before it ends.
fn start(ends: &Ends, base: usize, block: usize) -> usize
    requires { block ≤ length ends.now.items }
    ensures first { block ≡ 0 → result ≡ base }
    ensures other { 0 < block → result ≡ slice_index ends.now.items (block - 1) }
{
    if block == 0 {
        return base;
    }
    ends.at(block - 1)
}

/// A value comes into a vector that has room for it. At the end nothing has to move: that is so of a block that is alone.
#[inline(always)]
pub(crate) fn insert_reserved<U>(values: &mut Vec<U>, at: usize, value: U)
    requires within { at ≤ length values.old.items }
    requires room { length values.old.items < vec_capacity values.old }
    ensures values { values.new.items ≡ insert values.old.items at value }
    ensures capacity { vec_capacity values.old ≤ vec_capacity values.new }
{
    if at == values.len() {
        values.push_reserved(value);
    } else {
        values.insert(at, value).unwrap();
    }
}

/// A spare ring becomes a block of one item.
pub(crate) fn put_alone<T>(
    blocks: &mut Vec<VecDeque<T>>,
    ends: &mut Ends,
    base: usize,
    spare: &mut Vec<VecDeque<T>>,
    block: usize,
    item: T,
)
    requires chunked { IsChunked base blocks.old.items ends.old.items }
    requires spares { EachSpare spare.old.items }
    requires spare { 0 < length spare.old.items }
    requires blocks_fit { length blocks.old.items + length spare.old.items ≤ vec_capacity blocks.old }
    requires ends_fit { length blocks.old.items + length spare.old.items ≤ ends.old.capacity }
    requires block { block ≤ length blocks.old.items }
    requires few { length (items_of blocks.old.items) < 2 ^ 33 }
    ensures chunked { IsChunked base blocks.new.items ends.new.items }
    ensures spares { EachSpare spare.new.items }
    ensures items { items_of blocks.new.items ≡ insert (items_of blocks.old.items) (start_of blocks.old.items block) item }
    ensures kept { KeepsPlaces blocks.old.items spare.old.items blocks.new.items spare.new.items }
    ensures count { length blocks.new.items ≡ length blocks.old.items + 1 }
    ensures capacity { (vec_capacity blocks.old ≤ vec_capacity blocks.new) × (ends.old.capacity ≤ ends.new.capacity) }
{
    let mut ring = spare.pop().unwrap();
    ring.push_back_reserved(item);
    let end = start(ends, base, block) + 1;
    raise_from(ends, block);
    ends.insert(block, end);
    insert_reserved(blocks, block, ring);
}

/// Where a full block is cut in two for an item that comes to a place in it: there, but with a quarter of the block at least on each side.
/// Else items that come in falling order before its last one would get a block each.
fn cut_point(most: usize, at: usize, places: usize) -> usize
    requires some { 0 < at }
    requires within { at < most }
    requires most { most ≤ 256 }
    requires places { 0 < places }
    ensures some { 0 < result }
    ensures less { result < most }
    ensures fits { most - result ≤ places }
    ensures room { result < at → most - result < min places 256 }
    ensures quarter { 256 ≤ places → (most / 4 ≤ result) × (result + most / 4 ≤ most) }
{
    if places < BLOCK {
        return at.max(most.saturating_sub(places));
    }
    at.max(most / 4).min(most - most / 4)
}

/// Where a place of a block is once that is cut in two.
fn side_of(place: Place, half: usize) -> Place
    requires { place.block < 2 ^ 64 - 1 }
    ensures lower { place.at ≤ half → (result.block ≡ place.block) × (result.at ≡ place.at) }
    ensures upper { half < place.at → (result.block ≡ place.block + 1) × (result.at + half ≡ place.at) }
{
    if place.at <= half {
        return place;
    }
    Place {
        block: place.block + 1,
        at: place.at - half,
    }
}

/// A block is cut in two near a place in it, with a spare ring for the upper part. No item is lost. Answers where the place is now, in a
/// block that has a place for an item more.
pub(crate) fn split<T>(
    blocks: &mut Vec<VecDeque<T>>,
    ends: &mut Ends,
    base: usize,
    spare: &mut Vec<VecDeque<T>>,
    place: Place,
) -> Place
    requires chunked { IsChunked base blocks.old.items ends.old.items }
    requires spares { EachSpare spare.old.items }
    requires spare { 0 < length spare.old.items }
    requires blocks_fit { length blocks.old.items + length spare.old.items ≤ vec_capacity blocks.old }
    requires ends_fit { length blocks.old.items + length spare.old.items ≤ ends.old.capacity }
    requires block { place.block < length blocks.old.items }
    requires some { 0 < place.at }
    requires within { HasItem blocks.old.items place.block place.at }
    ensures chunked { IsChunked base blocks.new.items ends.new.items }
    ensures spares { EachSpare spare.new.items }
    ensures items { items_of blocks.new.items ≡ items_of blocks.old.items }
    ensures kept { KeepsPlaces blocks.old.items spare.old.items blocks.new.items spare.new.items }
    ensures count { length blocks.new.items ≡ length blocks.old.items + 1 }
    ensures block { result.block < length blocks.new.items }
    ensures start { start_of blocks.new.items result.block + result.at ≡ start_of blocks.old.items place.block + place.at }
    ensures within { Within blocks.new.items result.block result.at }
    ensures place { HasPlace blocks.new.items result.block }
    ensures capacity { (vec_capacity blocks.old ≤ vec_capacity blocks.new) × (ends.old.capacity ≤ ends.new.capacity) }
{
    let ring = spare.pop().unwrap();
    let most = blocks[place.block].len();
    let half = cut_point(most, place.at, ring.capacity());
    let upper = halve(blocks, place.block, half, ring);
    let end = ends.at(place.block) - upper.len();
    ends.insert(place.block, end);
    blocks.insert(place.block + 1, upper).unwrap();
    side_of(place, half)
}
