//! Where cells of at least so much begin: in the part that can hold the place, by halving.

ghost use Rattle.std.specs.Prelude.{◌≡◌, ◌<◌, ◌≤◌, length, slice_index};
ghost use Rattle.amqp_unsettled.specs.Inner.Order.{IsRising, Begins, HoldsPlace};
ghost use Rattle.amqp_unsettled.specs.Inner.Rows.{fars};

use crate::cells::Cell;
use crate::numbered::Numbered;
use crate::serial::distance;

/// Ranks between which a place is: nothing before `low` lies so far, and all from `high` on does.
#[derive(Clone, Copy)]
struct Part {
    low: usize,
    high: usize,
}

/// How far the number of a cell lies after the base.
#[inline(always)]
fn far_at<T: Numbered>(cells: &[Cell<T>], base: u32, at: usize) -> usize
    requires within { at < length cells.now }
    ensures { result ≡ slice_index (fars T.number_of base cells.now) at }
{
    distance(base, cells[at].item.number()) as usize
}

/// The part that can hold the place, by the first cell and the last. No two lie equally far: so there are no more
/// before the place than there are numbers from the first one to the target, and after it none more than to the last.
fn part_of<T: Numbered>(cells: &[Cell<T>], base: u32, target: usize) -> Part
    requires some { 0 < length cells.now }
    requires rising { IsRising (fars T.number_of base cells.now) }
    ensures { HoldsPlace (fars T.number_of base cells.now) target result.low result.high }
{
    let begin = far_at(cells, base, 0);
    if target <= begin {
        return Part { low: 0, high: 0 };
    }
    let len = cells.len();
    let high = len.min(target - begin);
    let end = far_at(cells, base, len - 1);
    if end < target {
        return Part { low: len, high };
    }
    Part {
        low: (len - 1).saturating_sub(end - target),
        high,
    }
}

/// A smaller part, by its first cell and its last: the place is there where all numbers are missing in one stretch.
fn by_borders<T: Numbered>(cells: &[Cell<T>], base: u32, target: usize, part: Part) -> Part
    requires rising { IsRising (fars T.number_of base cells.now) }
    requires holds { HoldsPlace (fars T.number_of base cells.now) target part.low part.high }
    ensures { HoldsPlace (fars T.number_of base cells.now) target result.low result.high }
{
    let (low, high) = (part.low, part.high);
    if low == high {
        return part;
    }
    // The first cell and the last are known already.
    if low > 0 && far_at(cells, base, low) >= target {
        return Part { low, high: low };
    }
    if high < cells.len() && far_at(cells, base, high - 1) < target {
        return Part { low: high, high };
    }
    part
}

/// The rank of the first cell that lies at least so far after the base; the length, where none does.
pub(crate) fn place<T: Numbered>(cells: &[Cell<T>], base: u32, target: usize) -> usize
    requires some { 0 < length cells.now }
    requires rising { IsRising (fars T.number_of base cells.now) }
    ensures { Begins (fars T.number_of base cells.now) target result }
{
    let part = by_borders(cells, base, target, part_of(cells, base, target));
    let mut low = part.low;
    let mut high = part.high;
    while low < high {
        let middle = low + (high - low) / 2;
        if far_at(cells, base, middle) < target {
            low = middle + 1;
        } else {
            high = middle;
        }
    }
    low
}
