//! A stretch over several blocks leaves in one cut.

ghost use Rattle.std.specs.Prelude.{◌≡◌, ℕ, ◌+◌, ◌-◌, ◌^◌, ◌<◌, ◌≤◌, ◌++◌, length, slice_index, slice_index_or, take, drop, vec_capacity};
ghost use Rattle.amqp_blocks.specs.Chunked.{Block, items_of, start_of, IsChunked, HasItem, without};
ghost use Rattle.amqp_blocks.specs.Inner.Changes.{IsFront, IsTrimmed};

use crate::ends::Ends;
use crate::lengths::{settle, sink};
use crate::rings::thin;
use crate::search::Place;
use std::collections::VecDeque;

/// Keeps what is before a place in its block, and says where that block ends now. Answers the first block of which nothing is kept.
fn keep_front<T: Drop>(
    blocks: &mut Vec<VecDeque<T>>,
    ends: &mut Ends,
    base: usize,
    place: Place,
    rank: usize,
) -> usize
    requires chunked { IsChunked base blocks.old.items ends.old.items }
    requires block { place.block < length blocks.old.items }
    requires within { HasItem blocks.old.items place.block place.at }
    requires rank { rank ≡ start_of blocks.old.items place.block + place.at }
    ensures next { (place.block ≤ result) × (result ≤ place.block + 1) }
    ensures front { IsFront base rank (items_of blocks.old.items) (take result blocks.new.items) (take result ends.new.items) }
    ensures rest { (drop (place.block + 1) blocks.new.items ≡ drop (place.block + 1) blocks.old.items) × (drop (place.block + 1) ends.new.items ≡ drop (place.block + 1) ends.old.items) }
    ensures count { (length blocks.new.items ≡ length blocks.old.items) × (length ends.new.items ≡ length ends.old.items) }
    ensures capacity { (vec_capacity blocks.new ≡ vec_capacity blocks.old) × (ends.new.capacity ≡ ends.old.capacity) }
{
    if place.at == 0 {
        return place.block;
    }
    let count = blocks[place.block].len() - place.at;
    thin(blocks, place, count);
    ends.set(place.block, base + rank);
    place.block + 1
}

/// Keeps what is from a place on in its block.
fn keep_back<T: Drop>(blocks: &mut Vec<VecDeque<T>>, place: Place)
    requires within { 0 < place.at → (place.block < length blocks.old.items) × HasItem blocks.old.items place.block place.at }
    ensures before { take place.block blocks.new.items ≡ take place.block blocks.old.items }
    ensures trimmed { IsTrimmed (drop place.block blocks.old.items) place.at (drop place.block blocks.new.items) }
    ensures count { length blocks.new.items ≡ length blocks.old.items }
    ensures capacity { vec_capacity blocks.new ≡ vec_capacity blocks.old }
{
    if place.at > 0 {
        let count = place.at;
        thin(
            blocks,
            Place {
                block: place.block,
                at: 0,
            },
            count,
        );
    }
}

/// Takes whole blocks out.
fn take_out<T: Drop>(blocks: &mut Vec<VecDeque<T>>, ends: &mut Ends, first: usize, next: usize)
    requires order { first ≤ next }
    requires within { next ≤ length blocks.old.items }
    requires ends { length ends.old.items ≡ length blocks.old.items }
    ensures blocks { blocks.new.items ≡ take first blocks.old.items ++ drop next blocks.old.items }
    ensures ends { ends.new.items ≡ take first ends.old.items ++ drop next ends.old.items }
    ensures capacity { (vec_capacity blocks.new ≡ vec_capacity blocks.old) × (ends.new.capacity ≡ ends.old.capacity) }
{
    blocks.drain(first..next);
    ends.drain(first, next);
}

/// The items from one place to another leave. The second place is in a later block, or after the last. Answers the base.
pub(crate) fn cut_wide<T: Drop>(
    blocks: &mut Vec<VecDeque<T>>,
    ends: &mut Ends,
    base: usize,
    from: Place,
    to: Place,
    rank: usize,
    count: usize,
) -> usize
    requires chunked { IsChunked base blocks.old.items ends.old.items }
    requires order { from.block < to.block }
    requires within { to.block ≤ length blocks.old.items }
    requires from { HasItem blocks.old.items from.block from.at }
    requires to { 0 < to.at → (to.block < length blocks.old.items) × HasItem blocks.old.items to.block to.at }
    requires rank { rank ≡ start_of blocks.old.items from.block + from.at }
    requires count { rank + count ≡ start_of blocks.old.items to.block + to.at }
    ensures chunked { IsChunked result blocks.new.items ends.new.items }
    ensures items { items_of blocks.new.items ≡ without rank count (items_of blocks.old.items) }
    ensures rings { length blocks.new.items ≤ length blocks.old.items }
    ensures capacity { (vec_capacity blocks.new ≡ vec_capacity blocks.old) × (ends.new.capacity ≡ ends.old.capacity) }
{
    let first = keep_front(blocks, ends, base, from, rank);
    keep_back(blocks, to);
    take_out(blocks, ends, first, to.block);
    let base = sink(ends, base, first, count);
    settle(ends, base)
}
