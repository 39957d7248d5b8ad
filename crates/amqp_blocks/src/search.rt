//! Where a rank is. No item is read, the running lengths alone.

ghost use Rattle.std.specs.Prelude.{◌≡◌, ◌+◌, ◌-◌, ◌^◌, ◌<◌, ◌≤◌, length, slice_index, IsTrue, IfSome};
ghost use Rattle.amqp_blocks.specs.Chunked.{HoldsTarget};

use crate::ends::Ends;
use crate::sequence::BLOCK;

/// The place of an item: its block, and where it is there.
#[derive(Clone, Copy)]
pub(crate) struct Place {
    pub(crate) block: usize,
    pub(crate) at: usize,
}

/// How many blocks from the guessed one on are looked at before the search halves.
const NEAR: usize = 4;

/// Whether a block holds a target.
#[inline(always)]
fn holds(ends: &Ends, target: usize, block: usize) -> bool
    requires block { block < length ends.now.items }
    ensures { IsTrue result → HoldsTarget ends.now.items target block }
{
    if target >= ends.at(block) {
        return false;
    }
    block == 0 || ends.at(block - 1) <= target
}

/// The block that holds a target, by halving.
fn halving(ends: &Ends, target: usize) -> usize
    requires some { 0 < length ends.now.items }
    requires within { target < slice_index ends.now.items (length ends.now.items - 1) }
    ensures holds { HoldsTarget ends.now.items target result }
{
    let mut low = 0;
    let mut high = ends.len() - 1;
    while low < high {
        let middle = low + (high - low) / 2;
        if ends.at(middle) <= target {
            low = middle + 1;
        } else {
            high = middle;
        }
    }
    low
}

/// A block nearer to a target than this one. None has more than `BLOCK` items, so that of the target is not passed over.
fn towards(ends: &Ends, target: usize, block: usize) -> usize
    requires block { block < length ends.now.items }
    ensures { result < length ends.now.items }
{
    let end = ends.at(block);
    if target < end {
        return block.saturating_sub(((end - target) / BLOCK).max(1));
    }
    let steps = (target - end) / BLOCK;
    block
        .saturating_add(steps)
        .saturating_add(1)
        .min(ends.len() - 1)
}

/// The block that holds a target, if it is near a guess.
fn near(ends: &Ends, target: usize, guess: usize) -> Option<usize>
    requires guess { guess < length ends.now.items }
    ensures holds { IfSome result (λ block. HoldsTarget ends.now.items target block) }
{
    let mut block = guess;
    for _ in 0..NEAR {
        if holds(ends, target, block) {
            return Some(block);
        }
        block = towards(ends, target, block);
    }
    None
}

/// The block where a rank would be if all blocks held as many items.
fn by_proportion(count: usize, len: usize, rank: usize) -> usize
    requires some { 0 < count }
    ensures { result < count }
{
    (rank.wrapping_mul(count) / len.max(1)).min(count - 1)
}

/// The block that holds a rank: one near the guess by proportion, or by halving.
#[inline(never)]
fn between(ends: &Ends, base: usize, rank: usize) -> usize
    requires some { 0 < length ends.now.items }
    requires fits { base + rank < 2 ^ 64 }
    requires within { base + rank < slice_index ends.now.items (length ends.now.items - 1) }
    ensures holds { HoldsTarget ends.now.items (base + rank) result }
{
    let target = base + rank;
    let guess = by_proportion(ends.len(), total(ends, base), rank);
    match near(ends, target, guess) {
        Some(block) => block,
        None => halving(ends, target),
    }
}

/// The block that holds a rank: the first or the last, or one between them.
#[inline(always)]
fn block_of(ends: &Ends, base: usize, rank: usize) -> usize
    requires some { 0 < length ends.now.items }
    requires fits { base + rank < 2 ^ 64 }
    requires within { base + rank < slice_index ends.now.items (length ends.now.items - 1) }
    ensures holds { HoldsTarget ends.now.items (base + rank) result }
{
    let target = base + rank;
    let last = ends.len() - 1;
    if holds(ends, target, 0) {
        return 0;
    }
    if holds(ends, target, last) {
        return last;
    }
    between(ends, base, rank)
}

/// The place of a rank in the block that holds it.
#[inline(always)]
fn place_in(ends: &Ends, base: usize, rank: usize, block: usize) -> Place
    requires fits { base + rank < 2 ^ 64 }
    requires holds { HoldsTarget ends.now.items (base + rank) block }
    ensures block { result.block ≡ block }
    ensures first { result.block ≡ 0 → result.at ≡ rank }
    ensures other { 0 < result.block → slice_index ends.now.items (result.block - 1) + result.at ≡ base + rank }
{
    if block == 0 {
        return Place { block, at: rank };
    }
    Place {
        block,
        at: base + rank - ends.at(block - 1),
    }
}

/// Where a rank is: its block, and its place there.
#[inline(always)]
pub(crate) fn locate(ends: &Ends, base: usize, rank: usize) -> Place
    requires some { 0 < length ends.now.items }
    requires fits { base + rank < 2 ^ 64 }
    requires within { base + rank < slice_index ends.now.items (length ends.now.items - 1) }
    ensures block { result.block < length ends.now.items }
    ensures first { result.block ≡ 0 → result.at ≡ rank }
    ensures other { 0 < result.block → slice_index ends.now.items (result.block - 1) + result.at ≡ base + rank }
    ensures after { base + rank < slice_index ends.now.items result.block }
{
    let block = block_of(ends, base, rank);
    place_in(ends, base, rank, block)
}

/// Where a rank is, which may be in the hinted block. A hint may be wrong.
#[inline(always)]
pub(crate) fn locate_near(ends: &Ends, base: usize, hint: usize, rank: usize) -> Place
    requires some { 0 < length ends.now.items }
    requires fits { base + rank < 2 ^ 64 }
    requires within { base + rank < slice_index ends.now.items (length ends.now.items - 1) }
    ensures block { result.block < length ends.now.items }
    ensures first { result.block ≡ 0 → result.at ≡ rank }
    ensures other { 0 < result.block → slice_index ends.now.items (result.block - 1) + result.at ≡ base + rank }
    ensures after { base + rank < slice_index ends.now.items result.block }
{
    let block = hint.min(ends.len() - 1);
    if holds(ends, base + rank, block) {
        return place_in(ends, base, rank, block);
    }
    locate(ends, base, rank)
}

/// Where a rank is that may be the length: then it is after the last block.
pub(crate) fn locate_end(ends: &Ends, base: usize, rank: usize) -> Place
    requires some { 0 < length ends.now.items }
    requires fits { base + rank < 2 ^ 64 }
    requires within { base + rank ≤ slice_index ends.now.items (length ends.now.items - 1) }
    ensures block { result.block ≤ length ends.now.items }
    ensures first { result.block ≡ 0 → result.at ≡ rank }
    ensures other { 0 < result.block → slice_index ends.now.items (result.block - 1) + result.at ≡ base + rank }
    ensures after { result.block < length ends.now.items → base + rank < slice_index ends.now.items result.block }
    ensures end { result.block ≡ length ends.now.items → result.at ≡ 0 }
{
    let count = ends.len();
    if base + rank == ends.at(count - 1) {
        return Place {
            block: count,
            at: 0,
        };
    }
    locate(ends, base, rank)
}

/// How many items there are. It reads the last running length.
#[inline(always)]
pub(crate) fn total(ends: &Ends, base: usize) -> usize
    requires { 0 < length ends.now.items → base ≤ slice_index ends.now.items (length ends.now.items - 1) }
    ensures none { length ends.now.items ≡ 0 → result ≡ 0 }
    ensures some { 0 < length ends.now.items → base + result ≡ slice_index ends.now.items (length ends.now.items - 1) }
{
    let count = ends.len();
    if count == 0 {
        return 0;
    }
    ends.at(count - 1) - base
}
