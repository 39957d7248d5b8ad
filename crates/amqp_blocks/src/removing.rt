//! Which items leave, and how.

ghost use Rattle.std.specs.Prelude.{ℕ, ◌≡◌, ◌⊎◌, ◌+◌, ◌-◌, ◌^◌, ◌<◌, ◌≤◌, ◌++◌, length, take, drop};
ghost use Rattle.amqp_blocks.specs.Chunked.{items_of, IsSound};
ghost use Rattle.amqp_blocks.specs.Inner.Changes.{KeepsSpares, HoldsRank, NoneToJoin};

use crate::cutting::cut_wide;
use crate::ends::Ends;
use crate::joining::join_near;
use crate::leaving::leave;
use crate::search::{locate_end, locate_near};
use std::collections::VecDeque;

/// The items of a stretch of ranks leave. Answers the base, and the block that the stretch began in. What is left of the block that it
/// ended in is joined with its neighbours, where they have few items together.
fn cut_out<T: Drop>(
    blocks: &mut Vec<VecDeque<T>>,
    ends: &mut Ends,
    base: usize,
    spare: &mut Vec<VecDeque<T>>,
    hint: usize,
    from: usize,
    to: usize,
) -> (usize, usize)
    requires sound { IsSound base blocks.old ends.old spare.old }
    requires order { from < to }
    requires within { to ≤ length (items_of blocks.old.items) }
    ensures sound { IsSound result.0 blocks.new ends.new spare.new }
    ensures items { items_of blocks.new.items ≡ take from (items_of blocks.old.items) ++ drop to (items_of blocks.old.items) }
    ensures block { HoldsRank blocks.old.items from result.1 }
    ensures count { length blocks.new.items ≤ length blocks.old.items }
    ensures rings { length blocks.new.items + length spare.new.items ≤ length blocks.old.items + length spare.old.items }
    ensures kept { KeepsSpares spare.old.items spare.new.items }
{
    let first = locate_near(ends, base, hint, from);
    if to - from <= blocks[first.block].len() - first.at {
        let base = leave(blocks, ends, spare, base, first, to - from);
        return (base, first.block);
    }
    let last = locate_end(ends, base, to);
    let base = cut_wide(blocks, ends, base, first, last, from, to - from);
    join_near(blocks, ends, base, spare, first.block + 1);
    (base, first.block)
}

/// The items of a stretch of ranks leave, and blocks of few items are joined there. Answers the base.
pub(crate) fn remove_some<T: Drop>(
    blocks: &mut Vec<VecDeque<T>>,
    ends: &mut Ends,
    base: usize,
    spare: &mut Vec<VecDeque<T>>,
    hint: usize,
    from: usize,
    to: usize,
) -> usize
    requires sound { IsSound base blocks.old ends.old spare.old }
    requires order { from < to }
    requires within { to ≤ length (items_of blocks.old.items) }
    ensures sound { IsSound result blocks.new ends.new spare.new }
    ensures items { items_of blocks.new.items ≡ take from (items_of blocks.old.items) ++ drop to (items_of blocks.old.items) }
    ensures count { length blocks.new.items ≤ length blocks.old.items }
    ensures rings { length blocks.new.items + length spare.new.items ≤ length blocks.old.items + length spare.old.items }
    ensures kept { KeepsSpares spare.old.items spare.new.items }
    ensures either { (length blocks.new.items < length blocks.old.items) ⊎ ((i : ℕ) → HoldsRank blocks.old.items from i → NoneToJoin blocks.new.items i) }
{
    let (base, block) = cut_out(blocks, ends, base, spare, hint, from, to);
    join_near(blocks, ends, base, spare, block);
    base
}
