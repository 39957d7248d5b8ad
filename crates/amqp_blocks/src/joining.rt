//! Two blocks of few items become one, so that blocks stay few under scattered removals.

ghost use Rattle.std.specs.Prelude.{◌≡◌, ◌+◌, ◌-◌, ◌<◌, ◌≤◌, ◌↔◌, ◌⊎◌, [], ◌++◌, length, slice_index_or, vec_capacity, IsTrue};
ghost use Rattle.std.specs.VecDeque.{deque_capacity};
ghost use Rattle.amqp_blocks.specs.Chunked.{Block, items_of, IsSound};
ghost use Rattle.amqp_blocks.specs.Inner.Changes.{IsJoined, AreFew, FewTogether, IsApart, NoneToJoin, KeepsSpares};

use crate::ends::Ends;
use crate::leaving::keep;
use crate::sequence::BLOCK;
use std::collections::VecDeque;

/// How many items two blocks have together at most where they are joined.
const FEW: usize = 64;

/// Whether two rings have few items together, and the first has places for all of them.
fn are_few<T>(lower: &VecDeque<T>, upper: &VecDeque<T>) -> bool
    ensures few { IsTrue result ↔ AreFew lower.now upper.now }
{
    lower.len() + upper.len() <= FEW.min(lower.capacity())
}

/// Whether a block and the next one are to be joined.
fn is_to_join<T>(blocks: &Vec<VecDeque<T>>, block: usize) -> bool
    requires block { block + 1 < length blocks.now.items }
    ensures few { IsTrue result ↔ FewTogether blocks.now.items block }
{
    are_few(&blocks[block], &blocks[block + 1])
}

/// The items of a ring go to the end of another, which has places for them.
fn take_over<T>(ring: &mut VecDeque<T>, other: &mut VecDeque<T>)
    requires places { length ring.old.items + length other.old.items ≤ deque_capacity ring.old }
    ensures items { ring.new.items ≡ ring.old.items ++ other.old.items }
    ensures empty { other.new.items ≡ [] }
{
    ring.append(other).unwrap();
}

/// A block takes the items of the next one over. Answers the ring that is left.
fn join_next<T>(blocks: &mut Vec<VecDeque<T>>, block: usize) -> VecDeque<T>
    requires block { block + 1 < length blocks.old.items }
    requires places { (b : Block T) (c : Block T) → b ≡ slice_index_or blocks.old.items block b → c ≡ slice_index_or blocks.old.items (block + 1) c → length b.items + length c.items ≤ b.cap }
    ensures joined { IsJoined blocks.old.items block blocks.new.items }
    ensures empty { result.items ≡ [] }
    ensures capacity { vec_capacity blocks.new ≡ vec_capacity blocks.old }
{
    let mut upper = blocks.remove(block + 1);
    take_over(&mut blocks[block], &mut upper);
    upper
}

/// Joins a block and the next one, if there are both, and they have few items together.
fn join<T>(
    blocks: &mut Vec<VecDeque<T>>,
    ends: &mut Ends,
    base: usize,
    spare: &mut Vec<VecDeque<T>>,
    block: usize,
)
    requires sound { IsSound base blocks.old ends.old spare.old }
    ensures sound { IsSound base blocks.new ends.new spare.new }
    ensures items { items_of blocks.new.items ≡ items_of blocks.old.items }
    ensures count { length blocks.new.items ≤ length blocks.old.items }
    ensures rings { length blocks.new.items + length spare.new.items ≤ length blocks.old.items + length spare.old.items }
    ensures kept { KeepsSpares spare.old.items spare.new.items }
    ensures either { ((length blocks.new.items < length blocks.old.items) × FewTogether blocks.old.items block) ⊎ ((blocks.new.items ≡ blocks.old.items) × IsApart blocks.old.items block) }
{
    if block >= blocks.len().saturating_sub(1) {
        return;
    }
    if !is_to_join(blocks, block) {
        return;
    }
    let upper = join_next(blocks, block);
    ends.remove(block);
    keep(spare, upper, BLOCK);
}

/// Joins a block with the next one, and with the one before, where they have few items together.
pub(crate) fn join_near<T>(
    blocks: &mut Vec<VecDeque<T>>,
    ends: &mut Ends,
    base: usize,
    spare: &mut Vec<VecDeque<T>>,
    block: usize,
)
    requires sound { IsSound base blocks.old ends.old spare.old }
    ensures sound { IsSound base blocks.new ends.new spare.new }
    ensures items { items_of blocks.new.items ≡ items_of blocks.old.items }
    ensures count { length blocks.new.items ≤ length blocks.old.items }
    ensures rings { length blocks.new.items + length spare.new.items ≤ length blocks.old.items + length spare.old.items }
    ensures kept { KeepsSpares spare.old.items spare.new.items }
    ensures either { (length blocks.new.items < length blocks.old.items) ⊎ ((blocks.new.items ≡ blocks.old.items) × NoneToJoin blocks.old.items block) }
{
    // A block of many is joined with neither.
    if block < blocks.len() && blocks[block].len() > FEW {
        return;
    }
    join(blocks, ends, base, spare, block);
    join(blocks, ends, base, spare, block.saturating_sub(1));
}
