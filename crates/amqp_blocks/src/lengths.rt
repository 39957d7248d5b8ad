//! Changes of running lengths.

ghost use Rattle.std.specs.Prelude.{◌≡◌, ℕ, ◌+◌, ◌-◌, ◌^◌, ◌<◌, ◌≤◌, ◌++◌, length, map, take, drop, slice_index, vec_capacity};
ghost use Rattle.amqp_blocks.specs.Inner.Changes.{IsSunk};

use crate::ends::{Ends, NEARER};

/// Lowers the running lengths from a block on.
pub(crate) fn lower_from(ends: &mut Ends, block: usize, count: usize)
    requires block { block ≤ length ends.old.items }
    requires enough { (i : ℕ) → i < length (drop block ends.old.items) → count ≤ slice_index (drop block ends.old.items) i }
    ensures lowered { ends.new.items ≡ take block ends.old.items ++ map (λ e. e - count) (drop block ends.old.items) }
    ensures capacity { ends.new.capacity ≡ ends.old.capacity }
{
    ends.shift_from(block, 0usize.wrapping_sub(count));
}

/// Raises the running lengths from a block on by one.
pub(crate) fn raise_from(ends: &mut Ends, block: usize)
    requires block { block ≤ length ends.old.items }
    requires few { (i : ℕ) → i < length (drop block ends.old.items) → slice_index (drop block ends.old.items) i < 2 ^ 64 - 1 }
    ensures raised { ends.new.items ≡ take block ends.old.items ++ map (λ e. e + 1) (drop block ends.old.items) }
    ensures capacity { ends.new.capacity ≡ ends.old.capacity }
{
    ends.shift_from(block, 1);
}

/// Updates the running lengths once items have left a block: the base rises where it is the first one. Answers the base.
pub(crate) fn sink(ends: &mut Ends, base: usize, block: usize, count: usize) -> usize
    requires block { block ≤ length ends.old.items }
    requires fits { base + count < 2 ^ 64 }
    requires enough { (i : ℕ) → i < length (drop block ends.old.items) → count ≤ slice_index (drop block ends.old.items) i }
    ensures first { block ≡ 0 → (ends.new.items ≡ ends.old.items) × (result ≡ base + count) }
    ensures other { 0 < block → (result ≡ base) × (ends.new.items ≡ take block ends.old.items ++ map (λ e. e - count) (drop block ends.old.items)) }
    ensures capacity { ends.new.capacity ≡ ends.old.capacity }
{
    if block == 0 {
        return base + count;
    }
    lower_from(ends, block, count);
    base
}

/// Updates the running lengths once items have left a block: those from it on sink, or the base and those before it rise, if these are few
/// (see `NEARER`). Answers the base.
pub(crate) fn sink_or_rise(ends: &mut Ends, base: usize, block: usize, count: usize) -> usize
    requires block { block ≤ length ends.old.items }
    requires fits { base + count < 2 ^ 64 }
    requires enough { (i : ℕ) → i < length (drop block ends.old.items) → count ≤ slice_index (drop block ends.old.items) i }
    requires few { (i : ℕ) → i < length (take block ends.old.items) → slice_index (take block ends.old.items) i + count < 2 ^ 64 }
    ensures either { IsSunk base ends.old.items block count result ends.new.items }
    ensures capacity { ends.new.capacity ≡ ends.old.capacity }
{
    if block <= ends.far(block).min(ends.len() - block) / NEARER {
        ends.shift_before(block, count);
        return base + count;
    }
    lower_from(ends, block, count);
    base
}

/// Counts from 0 again, where the base is large. Answers the base.
pub(crate) fn settle(ends: &mut Ends, base: usize) -> usize
    requires enough { (i : ℕ) → i < length ends.old.items → base ≤ slice_index ends.old.items i }
    ensures small { base ≤ 2 ^ 32 → (ends.new.items ≡ ends.old.items) × (result ≡ base) }
    ensures large { 2 ^ 32 < base → (ends.new.items ≡ map (λ e. e - base) ends.old.items) × (result ≡ 0) }
    ensures capacity { ends.new.capacity ≡ ends.old.capacity }
{
    if base <= 0x1_0000_0000 {
        return base;
    }
    lower_from(ends, 0, base);
    0
}
