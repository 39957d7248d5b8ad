//! A new number joins the ranges beside it.

ghost use Rattle.std.specs.Prelude.{◌<◌};
ghost use Rattle.amqp_numbers.specs.Ranges.{IsSpaced, IsApart, IsLower, IsUpper};

use crate::ranges::Range;
use amqp_blocks::Blocks;

/// The rank and the first number of the range that a new number comes into. Where a range ends right before the number, it is that one.
pub(crate) fn lower_end(ranges: &Blocks<Range>, rank: usize, number: u32) -> (usize, u32)
    requires spaced { IsSpaced 0 ranges.now.items }
    requires apart { IsApart ranges.now.items number rank }
    ensures lower { IsLower ranges.now.items number rank result.0 result.1 }
{
    if rank > 0 {
        let before = ranges.get(rank - 1);
        if number - before.last == 1 {
            return (rank - 1, before.first);
        }
    }
    (rank, number)
}

/// The rank after the range that a new number comes into, and its last number. Where a range begins right after the number, it is that one.
pub(crate) fn upper_end(ranges: &Blocks<Range>, rank: usize, number: u32) -> (usize, u32)
    requires spaced { IsSpaced 0 ranges.now.items }
    requires apart { IsApart ranges.now.items number rank }
    ensures upper { IsUpper ranges.now.items number rank result.0 result.1 }
{
    if rank < ranges.len() {
        let after = ranges.get(rank);
        if after.first - number == 1 {
            return (rank + 1, after.last);
        }
    }
    (rank, number)
}
