//! Items of cells are found, and taken out.

ghost use Rattle.std.specs.Prelude.{◌≡◌, ◌+◌, ◌<◌, ◌≤◌, drop, length};
ghost use Rattle.std.specs.List.{find};
ghost use Rattle.amqp_unsettled.specs.Inner.Rows.{IsRow, Takes, items_in, numbered, ranged, used};

use crate::cells::{Cell, Cells};
use crate::numbered::Numbered;
use crate::serial::is_within;
use crate::spots::{Found, reach, span, spot};

impl<T: Numbered> Cells<T> {
    /// The cells in use.
    #[inline(always)]
    fn in_use(&self) -> &[Cell<T>]
        requires within { self.now.head ≤ length self.now.cells.items }
        ensures { result.now ≡ used self.now }
    {
        &self.cells[self.head..]
    }

    /// The item of a number.
    pub(crate) fn get(&self, number: u32) -> Option<T>
        requires row { IsRow T.number_of self.now }
        ensures { result ≡ find (numbered T.number_of number) (items_in self.now) }
    {
        let cells = self.in_use();
        let at = spot(cells, number)?;
        Some(cells[at].item)
    }

    /// The first item that a range means.
    pub(crate) fn find_within(&self, first: u32, last: u32) -> Option<T>
        requires row { IsRow T.number_of self.now }
        ensures { result ≡ find (ranged T.number_of first last) (items_in self.now) }
    {
        let cells = self.in_use();
        let at = span(cells, first, last)?;
        Some(cells[at].item)
    }

    /// Takes the item of a number out.
    pub(crate) fn take(&mut self, number: u32) -> Option<T>
        requires row { IsRow T.number_of self.old }
        ensures row { IsRow T.number_of self.new }
        ensures takes { Takes (numbered T.number_of number) (items_in self.old) result (items_in self.new) }
    {
        let at = spot(self.in_use(), number)?;
        Some(self.cut(at, at))
    }

    /// Takes the first item out that a range means.
    pub(crate) fn take_within(&mut self, first: u32, last: u32) -> Option<T>
        requires row { IsRow T.number_of self.old }
        ensures row { IsRow T.number_of self.new }
        ensures takes { Takes (ranged T.number_of first last) (items_in self.old) result (items_in self.new) }
    {
        let Found { from, at } = reach(self.in_use(), first, last)?;
        self.join(from, at);
        if !is_within(first, last, self.cells[self.head + at].item.number()) {
            return None;
        }
        Some(self.cut(from, at))
    }

    /// The first item goes, where no other has gone that keeps its cell.
    #[inline(always)]
    pub(crate) fn skip_first(&mut self)
        requires row { IsRow T.number_of self.old }
        requires plain { self.old.gone ≡ 0 }
        requires some { 0 < length (items_in self.old) }
        ensures row { IsRow T.number_of self.new }
        ensures items { items_in self.new ≡ drop 1 (items_in self.old) }
    {
        self.head += 1;
        if self.head == self.cells.len() {
            self.cells.clear();
            self.head = 0;
        }
    }
}
