//! Where a number is among ranges.

ghost use Rattle.std.specs.Prelude.{◌≡◌, ◌<◌, length, false};
ghost use Rattle.amqp_numbers.specs.Ranges.{IsSpaced, IsRank, IsApart, begins_by, is_held};

use crate::ranges::Range;
use amqp_blocks::Blocks;

/// Whether the range of a rank begins at the number or before it.
fn begins_at_or_before(ranges: &Blocks<Range>, rank: usize, number: u32) -> bool
    requires within { rank < length ranges.now.items }
    ensures { result ≡ begins_by ranges.now.items rank number }
{
    ranges.get(rank).first <= number
}

/// How many ranges begin at the number or before it, by halving.
fn halving(ranges: &Blocks<Range>, number: u32) -> usize
    requires spaced { IsSpaced 0 ranges.now.items }
    ensures rank { IsRank ranges.now.items number result }
{
    let mut low = 0;
    let mut high = ranges.len();
    while low < high {
        let middle = low + (high - low) / 2;
        if begins_at_or_before(ranges, middle, number) {
            low = middle + 1;
        } else {
            high = middle;
        }
    }
    low
}

/// How many ranges begin at the number or before it. The last range is looked at first, for numbers that come in order.
pub(crate) fn rank_of(ranges: &Blocks<Range>, number: u32) -> usize
    requires spaced { IsSpaced 0 ranges.now.items }
    ensures rank { IsRank ranges.now.items number result }
{
    match ranges.last() {
        Some(range) if number < range.first => halving(ranges, number),
        _ => ranges.len(),
    }
}

/// Whether the range before a number's rank holds it: no other one can.
pub(crate) fn is_in_range_before(ranges: &Blocks<Range>, rank: usize, number: u32) -> bool
    requires spaced { IsSpaced 0 ranges.now.items }
    requires rank { IsRank ranges.now.items number rank }
    ensures held { result ≡ is_held number ranges.now.items }
    ensures apart { result ≡ false → IsApart ranges.now.items number rank }
{
    rank > 0 && number <= ranges.get(rank - 1).last
}
