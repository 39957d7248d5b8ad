//! Changes of one block's ring.

ghost use Rattle.std.specs.Prelude.{◌≡◌, ◌+◌, ◌-◌, ◌<◌, ◌≤◌, [], ◌∷◌, ◌++◌, length, slice_index_or, slice_set, take, drop, vec_capacity};
ghost use Rattle.std.specs.List.{insert, remove};
ghost use Rattle.std.specs.VecDeque.{deque_capacity};
ghost use Rattle.amqp_blocks.specs.Chunked.{Block, items_of, Within, HasItem};
ghost use Rattle.amqp_blocks.specs.Inner.Changes.{IsThinned, IsPut, IsShifted, IsUnshifted, IsReplaced, IsHalved};

use crate::search::Place;
use std::collections::VecDeque;

/// Takes one item out of a ring, and drops it. The shorter side moves.
fn cut_one<T: Drop>(ring: &mut VecDeque<T>, at: usize)
    requires within { at < length ring.old.items }
    ensures items { ring.new.items ≡ remove ring.old.items at }
{
    drop(ring.remove(at).unwrap());
}

/// Takes items out of a ring, and drops them.
fn cut_ring<T: Drop>(ring: &mut VecDeque<T>, at: usize, count: usize)
    requires within { at + count ≤ length ring.old.items }
    ensures items { ring.new.items ≡ take at ring.old.items ++ drop (at + count) ring.old.items }
{
    // A drain would turn the ring twice.
    if count == 1 {
        return cut_one(ring, at);
    }
    ring.drain(at..at + count);
}

/// Takes items out of the block of a place.
pub(crate) fn thin<T: Drop>(blocks: &mut Vec<VecDeque<T>>, place: Place, count: usize)
    requires block { place.block < length blocks.old.items }
    requires within { Within blocks.old.items place.block (place.at + count) }
    ensures thinned { IsThinned blocks.old.items place.block place.at count blocks.new.items }
    ensures capacity { vec_capacity blocks.new ≡ vec_capacity blocks.old }
{
    cut_ring(&mut blocks[place.block], place.at, count);
}

/// An item comes into a ring that has a place for it.
#[inline(always)]
fn add<T>(ring: &mut VecDeque<T>, at: usize, item: T)
    requires within { at ≤ length ring.old.items }
    requires place { length ring.old.items < deque_capacity ring.old }
    ensures items { ring.new.items ≡ insert ring.old.items at item }
    ensures places { deque_capacity ring.old ≤ deque_capacity ring.new }
{
    if at == ring.len() {
        ring.push_back_reserved(item);
    } else {
        ring.insert(at, item).unwrap();
    }
}

/// An item comes into the block of a place.
#[inline(always)]
pub(crate) fn put<T>(blocks: &mut Vec<VecDeque<T>>, place: Place, item: T)
    requires block { place.block < length blocks.old.items }
    requires within { Within blocks.old.items place.block place.at }
    requires place { (b : Block T) → b ≡ slice_index_or blocks.old.items place.block b → length b.items < b.cap }
    ensures put { IsPut blocks.old.items place.block place.at item blocks.new.items }
    ensures capacity { vec_capacity blocks.new ≡ vec_capacity blocks.old }
{
    add(&mut blocks[place.block], place.at, item);
}

/// An item comes into a ring, and its last one comes out.
fn turn_out_last<T>(ring: &mut VecDeque<T>, at: usize, item: T) -> T
    requires within { at < length ring.old.items }
    ensures items { ring.new.items ++ result ∷ [] ≡ insert ring.old.items at item }
    ensures places { deque_capacity ring.old ≤ deque_capacity ring.new }
{
    let last = ring.pop_back().unwrap();
    add(ring, at, item);
    last
}

/// An item comes into a ring, and its first one comes out.
fn turn_out_first<T>(ring: &mut VecDeque<T>, at: usize, item: T) -> T
    requires some { 0 < at }
    requires within { at ≤ length ring.old.items }
    ensures items { result ∷ ring.new.items ≡ insert ring.old.items at item }
    ensures places { deque_capacity ring.old ≤ deque_capacity ring.new }
{
    let first = ring.pop_front().unwrap();
    add(ring, at - 1, item);
    first
}

/// An item comes into the block of a place, and the block's last one comes out.
pub(crate) fn shift<T>(blocks: &mut Vec<VecDeque<T>>, place: Place, item: T) -> T
    requires block { place.block < length blocks.old.items }
    requires within { HasItem blocks.old.items place.block place.at }
    ensures shifted { IsShifted blocks.old.items place.block place.at item result blocks.new.items }
    ensures capacity { vec_capacity blocks.new ≡ vec_capacity blocks.old }
{
    turn_out_last(&mut blocks[place.block], place.at, item)
}

/// An item comes into the block of a place after its first one, which comes out.
pub(crate) fn unshift<T>(blocks: &mut Vec<VecDeque<T>>, place: Place, item: T) -> T
    requires block { place.block < length blocks.old.items }
    requires some { 0 < place.at }
    requires within { Within blocks.old.items place.block place.at }
    ensures unshifted { IsUnshifted blocks.old.items place.block place.at item result blocks.new.items }
    ensures capacity { vec_capacity blocks.new ≡ vec_capacity blocks.old }
{
    turn_out_first(&mut blocks[place.block], place.at, item)
}

/// Another item takes the place of one, which is dropped.
fn write<T: Drop>(ring: &mut VecDeque<T>, at: usize, item: T)
    requires within { at < length ring.old.items }
    ensures items { ring.new.items ≡ slice_set ring.old.items at item }
    ensures places { deque_capacity ring.new ≡ deque_capacity ring.old }
{
    ring[at] = item;
}

/// Another item takes the place of one in a block.
pub(crate) fn write_at<T: Drop>(blocks: &mut Vec<VecDeque<T>>, place: Place, item: T)
    requires block { place.block < length blocks.old.items }
    requires within { HasItem blocks.old.items place.block place.at }
    ensures replaced { IsReplaced blocks.old.items place.block place.at item blocks.new.items }
    ensures capacity { vec_capacity blocks.new ≡ vec_capacity blocks.old }
{
    write(&mut blocks[place.block], place.at, item);
}

/// The items of a ring from a place on go to another ring, which has places for them.
fn move_rest<T>(ring: &mut VecDeque<T>, half: usize, upper: &mut VecDeque<T>)
    requires half { half ≤ length ring.old.items }
    requires empty { upper.old.items ≡ [] }
    requires places { length ring.old.items - half ≤ deque_capacity upper.old }
    ensures items { ring.new.items ≡ take half ring.old.items }
    ensures rest { upper.new.items ≡ drop half ring.old.items }
    ensures places { deque_capacity ring.new ≡ deque_capacity ring.old }
    ensures upper_places { deque_capacity upper.new ≡ deque_capacity upper.old }
{
    while ring.len() > half {
        let item = ring.pop_back().unwrap();
        upper.push_front_reserved(item);
    }
}

/// The items of a block from a place on go to another ring.
pub(crate) fn halve<T>(
    blocks: &mut Vec<VecDeque<T>>,
    block: usize,
    half: usize,
    spare: VecDeque<T>,
) -> VecDeque<T>
    requires block { block < length blocks.old.items }
    requires half { Within blocks.old.items block half }
    requires empty { spare.items ≡ [] }
    requires places { (b : Block T) → b ≡ slice_index_or blocks.old.items block b → length b.items - half ≤ spare.cap }
    ensures halved { IsHalved blocks.old.items block half blocks.new.items spare result }
    ensures capacity { vec_capacity blocks.new ≡ vec_capacity blocks.old }
{
    let mut upper = spare;
    move_rest(&mut blocks[block], half, &mut upper);
    upper
}
