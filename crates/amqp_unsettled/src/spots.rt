//! The cells of the items that a number or a range means.

ghost use Rattle.std.specs.Prelude.{◌≡◌, ◌-◌, ◌^◌, ◌<◌, ◌≤◌, drop, length};
ghost use Rattle.amqp_unsettled.specs.Inner.Order.{Below, start_of};
ghost use Rattle.amqp_unsettled.specs.Inner.Rows.{FirstGone, InSerial, IsThereAt, RunsGone, IsSpot, ReachesTo};
ghost use Rattle.amqp_unsettled.specs.Inner.Rows.{numbered};
ghost use Rattle.amqp_unsettled.specs.Inner.Rows.{numbers, ranged};

use crate::cells::Cell;
use crate::numbered::Numbered;
use crate::search::place;
use crate::serial::{HALF, distance, is_within};

/// The cells from one on to that of the item which is meant.
#[derive(Clone, Copy)]
pub(crate) struct Found {
    // All from here on and before the other have gone.
    pub(crate) from: usize,
    pub(crate) at: usize,
}

/// The first cell from one on whose item is there; the number of cells or more, where none is.
fn there_from<T: Copy>(cells: &[Cell<T>], from: usize) -> usize
    requires runs { RunsGone cells.now }
    requires within { from ≤ length cells.now }
    ensures order { from ≤ result }
    ensures gone { FirstGone (result - from) (drop from cells.now) }
    ensures is { IsThereAt cells.now result }
{
    let mut at = from;
    while at < cells.len() {
        let run = cells[at].run;
        if run == 0 {
            return at;
        }
        at += run as usize;
    }
    at
}

/// The cell of the item of a number.
pub(crate) fn spot<T: Numbered>(cells: &[Cell<T>], number: u32) -> Option<usize>
    requires small { Below (2 ^ 32) (numbers T.number_of cells.now) }
    requires serial { InSerial (numbers T.number_of cells.now) }
    ensures { IsSpot (numbered T.number_of number) cells.now result }
{
    if cells.len() == 0 {
        return None;
    }
    let base = cells[0].item.number();
    let at = place(cells, base, distance(base, number) as usize);
    if at >= cells.len() {
        return None;
    }
    let cell = cells[at];
    if cell.run == 0 && cell.item.number() == number {
        Some(at)
    } else {
        None
    }
}

/// How far from the base on a range is sought: not at all, where it begins before the base.
#[inline(always)]
fn start_of(base: u32, first: u32) -> u32
    ensures { result ≡ start_of base first }
{
    let far = distance(base, first);
    if far < HALF { far } else { 0 }
}

/// The first cell from the range's first number on whose item is there. `None` where there is none.
pub(crate) fn reach<T: Numbered>(cells: &[Cell<T>], first: u32, _last: u32) -> Option<Found>
    requires small { Below (2 ^ 32) (numbers T.number_of cells.now) }
    requires serial { InSerial (numbers T.number_of cells.now) }
    requires runs { RunsGone cells.now }
    ensures { ReachesTo (ranged T.number_of first _last) cells.now result }
{
    if cells.len() == 0 {
        return None;
    }
    let base = cells[0].item.number();
    let from = place(cells, base, start_of(base, first) as usize);
    let at = there_from(cells, from);
    if at >= cells.len() {
        return None;
    }
    Some(Found { from, at })
}

/// The cell of the first item that a range means.
pub(crate) fn span<T: Numbered>(cells: &[Cell<T>], first: u32, last: u32) -> Option<usize>
    requires small { Below (2 ^ 32) (numbers T.number_of cells.now) }
    requires serial { InSerial (numbers T.number_of cells.now) }
    requires runs { RunsGone cells.now }
    ensures { IsSpot (ranged T.number_of first last) cells.now result }
{
    let at = reach(cells, first, last)?.at;
    if is_within(first, last, cells[at].item.number()) {
        Some(at)
    } else {
        None
    }
}
