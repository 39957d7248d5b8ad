//! Where a full block gets an item and no spare ring is left: one item goes over each border towards a block that has a place.

ghost use Rattle.std.specs.Prelude.{◌≡◌, ℕ, false, ◌+◌, ◌-◌, ◌^◌, ◌<◌, ◌≤◌, length, slice_index_or, vec_capacity, min, IsTrue};
ghost use Rattle.std.specs.List.{insert};
ghost use Rattle.amqp_blocks.specs.Chunked.{Block, items_of, start_of, places_of, IsChunked, EachSome, Within, HasItem, HasPlace, IsFull};
ghost use Rattle.amqp_blocks.specs.Inner.Changes.{IsPassed};

use crate::adding::put_in;
use crate::ends::Ends;
use crate::rings::{shift, unshift};
use crate::search::Place;
use crate::sequence::BLOCK;
use std::collections::VecDeque;

/// Whether a block takes one item more with no request for memory.
#[inline(always)]
pub(crate) fn has_place<T>(blocks: &Vec<VecDeque<T>>, block: usize) -> bool
    requires block { block < length blocks.now.items }
    ensures place { IsTrue result → HasPlace blocks.now.items block }
    ensures full { result ≡ false → IsFull blocks.now.items block }
{
    let ring = &blocks[block];
    ring.len() < ring.capacity().min(BLOCK)
}

/// Whether there is such a block, and it has a place.
fn is_free<T>(blocks: &Vec<VecDeque<T>>, block: usize) -> bool
    ensures place { IsTrue result → (block < length blocks.now.items) × HasPlace blocks.now.items block }
    ensures full { result ≡ false → block < length blocks.now.items → IsFull blocks.now.items block }
{
    if block >= blocks.len() {
        return false;
    }
    has_place(blocks, block)
}

/// The block with a place that is nearest to this one.
fn nearest<T>(blocks: &Vec<VecDeque<T>>, block: usize) -> usize
    requires block { block < length blocks.now.items }
    requires room { length (items_of blocks.now.items) < places_of blocks.now.items }
    ensures block { result < length blocks.now.items }
    ensures place { HasPlace blocks.now.items result }
{
    for away in 0..blocks.len() {
        let after = block + away;
        if is_free(blocks, after) {
            return after;
        }
        let before = block.saturating_sub(away);
        if is_free(blocks, before) {
            return before;
        }
    }
    unreachable!()
}

/// The place after a block's last item.
pub(crate) fn end_of<T>(blocks: &Vec<VecDeque<T>>, block: usize) -> Place
    requires block { block < length blocks.now.items }
    ensures block { result.block ≡ block }
    ensures at { (b : Block T) → b ≡ slice_index_or blocks.now.items result.block b → result.at ≡ length b.items }
{
    Place {
        block,
        at: blocks[block].len(),
    }
}

/// Passes an item on from a place towards a later block. Answers the item that comes to the front of that one.
fn pass_back<T>(blocks: &mut Vec<VecDeque<T>>, place: Place, free: usize, item: T) -> T
    requires order { place.block < free }
    requires block { free < length blocks.old.items }
    requires within { HasItem blocks.old.items place.block place.at }
    requires some { EachSome blocks.old.items }
    requires place { HasPlace blocks.old.items free }
    ensures passed { IsPassed blocks.old.items (start_of blocks.old.items place.block + place.at) item blocks.new.items (start_of blocks.new.items free) result }
    ensures place { HasPlace blocks.new.items free }
    ensures capacity { vec_capacity blocks.new ≡ vec_capacity blocks.old }
{
    let mut item = shift(blocks, place, item);
    for block in place.block + 1..free {
        item = shift(blocks, Place { block, at: 0 }, item);
    }
    item
}

/// Takes an item into the block of a place. Answers the item that is to come before all of that block.
fn turn<T>(blocks: &mut Vec<VecDeque<T>>, place: Place, item: T) -> T
    requires block { place.block < length blocks.old.items }
    requires within { Within blocks.old.items place.block place.at }
    ensures passed { IsPassed blocks.old.items (start_of blocks.old.items place.block + place.at) item blocks.new.items (start_of blocks.new.items place.block) result }
    ensures others { (k : ℕ) → k < place.block → HasPlace blocks.old.items k → HasPlace blocks.new.items k }
    ensures capacity { vec_capacity blocks.new ≡ vec_capacity blocks.old }
{
    if place.at == 0 {
        return item;
    }
    unshift(blocks, place, item)
}

/// Passes an item on from a place towards an earlier block. Answers the item that comes to the end of that one.
fn pass_on<T>(blocks: &mut Vec<VecDeque<T>>, place: Place, free: usize, item: T) -> T
    requires order { free < place.block }
    requires block { place.block < length blocks.old.items }
    requires within { Within blocks.old.items place.block place.at }
    requires place { HasPlace blocks.old.items free }
    ensures passed { IsPassed blocks.old.items (start_of blocks.old.items place.block + place.at) item blocks.new.items (start_of blocks.new.items (free + 1)) result }
    ensures place { HasPlace blocks.new.items free }
    ensures capacity { vec_capacity blocks.new ≡ vec_capacity blocks.old }
{
    let mut item = turn(blocks, place, item);
    let mut block = place.block;
    while block > free + 1 {
        block -= 1;
        let end = end_of(blocks, block);
        item = turn(blocks, end, item);
    }
    item
}

/// Passes an item on to a block that has a place. Answers the item that is left, and where it comes.
fn make_way<T>(blocks: &mut Vec<VecDeque<T>>, place: Place, item: T) -> (Place, T)
    requires block { place.block < length blocks.old.items }
    requires some { EachSome blocks.old.items }
    requires within { Within blocks.old.items place.block place.at }
    requires item { place.block + 1 < length blocks.old.items → HasItem blocks.old.items place.block place.at }
    requires room { length (items_of blocks.old.items) < places_of blocks.old.items }
    ensures block { result.0.block < length blocks.new.items }
    ensures within { Within blocks.new.items result.0.block result.0.at }
    ensures place { HasPlace blocks.new.items result.0.block }
    ensures passed { IsPassed blocks.old.items (start_of blocks.old.items place.block + place.at) item blocks.new.items (start_of blocks.new.items result.0.block + result.0.at) result.1 }
    ensures capacity { vec_capacity blocks.new ≡ vec_capacity blocks.old }
{
    let free = nearest(blocks, place.block);
    if place.block < free {
        let item = pass_back(blocks, place, free, item);
        return (Place { block: free, at: 0 }, item);
    }
    if free < place.block {
        let item = pass_on(blocks, place, free, item);
        return (end_of(blocks, free), item);
    }
    (place, item)
}

/// An item comes in where some block has a place, if need be with one item over each border.
#[inline(never)]
pub(crate) fn cascade<T>(
    blocks: &mut Vec<VecDeque<T>>,
    ends: &mut Ends,
    base: usize,
    place: Place,
    item: T,
)
    requires chunked { IsChunked base blocks.old.items ends.old.items }
    requires block { place.block < length blocks.old.items }
    requires within { Within blocks.old.items place.block place.at }
    requires item { place.block + 1 < length blocks.old.items → HasItem blocks.old.items place.block place.at }
    requires room { length (items_of blocks.old.items) < places_of blocks.old.items }
    requires few { length (items_of blocks.old.items) < 2 ^ 33 }
    ensures chunked { IsChunked base blocks.new.items ends.new.items }
    ensures items { items_of blocks.new.items ≡ insert (items_of blocks.old.items) (start_of blocks.old.items place.block + place.at) item }
    ensures places { places_of blocks.old.items ≤ places_of blocks.new.items }
    ensures count { length blocks.new.items ≡ length blocks.old.items }
    ensures capacity { (vec_capacity blocks.new ≡ vec_capacity blocks.old) × (ends.new.capacity ≡ ends.old.capacity) }
{
    let (place, item) = make_way(blocks, place, item);
    put_in(blocks, ends, base, place, item);
}
