//! A row of numbered items in serial order.

ghost use Rattle.std.specs.Prelude.{◌≡◌, ◌==◌, ◌+◌, ◌-◌, ◌^◌, ◌<◌, [], ◌∷◌, ◌++◌, true, length, drop, slice_get, OnOk};
ghost use Rattle.std.specs.Prelude.{OnErr};
ghost use Rattle.std.specs.List.{find};
ghost use Rattle.amqp_memory.specs.Refusal.{SomeRefused};
ghost use Rattle.amqp_unsettled.specs.Inner.Rows.{Takes, comes_next, numbered, ranged};

use crate::cells::{Cells, MANY};
use crate::numbered::Numbered;
use std::alloc::{AllocError, Global};
use std::marker::Model;

/// Numbered items, each of which lies after those before it by less than half of the circle.
#[derive(Drop)]
pub(crate) struct Row<T: Numbered> {
    row: Cells<T>,
}

impl<T: Numbered> Model for Row<T> {
    ghost use Rattle.std.specs.Prelude.{◌-◌, vec_len, vec_capacity};
    ghost use Rattle.amqp_unsettled.specs.Inner.Rows.{Row, IsRow, items_in};

    ghost Value = { Row T };

    ghost view = { λ r. record {
      items = items_in r.row;
      room = vec_capacity r.row.cells - vec_len r.row.cells;
      gone =
          r.row.gone;
    } };

    ghost invariant = { λ r. IsRow T.number_of r.row };
}

impl<T: Numbered> Row<T> {
    /// A row of no items. It asks for no memory.
    pub(crate) fn new(alloc: Global) -> Row<T>
        ensures items { result.items ≡ [] }
    {
        Row {
            row: Cells::new(alloc),
        }
    }

    /// How many items there are.
    #[inline(always)]
    pub(crate) fn len(&self) -> usize
        ensures { result ≡ length self.now.items }
    {
        self.row.len()
    }

    /// Whether there are no items.
    #[inline(always)]
    pub(crate) fn is_empty(&self) -> bool
        ensures { result ≡ (length self.now.items == 0) }
    {
        self.row.len() == 0
    }

    /// The first item.
    #[inline(always)]
    pub(crate) fn first(&self) -> Option<T>
        ensures { result ≡ slice_get self.now.items 0 }
    {
        self.row.first()
    }

    /// Whether a number may come next: it lies after that of each item.
    #[inline(always)]
    pub(crate) fn is_next(&self, number: u32) -> bool
        ensures { result ≡ comes_next T.number_of number self.now.items }
    {
        self.row.is_next(number)
    }

    /// Whether there is room for an item more.
    #[inline(always)]
    pub(crate) fn has_room(&self) -> bool
        ensures { result ≡ true → 0 < self.now.room }
    {
        self.row.cells.len() < self.row.cells.capacity()
    }

    /// Makes room for an item more. No item changes, whether memory is refused or not.
    pub(crate) fn reserve(&mut self) -> Result<(), AllocError>
        ensures items { self.new.items ≡ self.old.items }
        ensures ok { OnOk result (0 < self.new.room) }
        ensures refused { OnErr result SomeRefused }
    {
        self.row.reserve()
    }

    /// Puts an item after the others.
    #[inline(always)]
    pub(crate) fn push(&mut self, item: T)
        requires room { 0 < self.old.room }
        requires small { T.number_of item < 2 ^ 32 }
        requires next { comes_next T.number_of (T.number_of item) self.old.items ≡ true }
        ensures items { self.new.items ≡ self.old.items ++ item ∷ [] }
    {
        self.row.push(item);
    }

    /// The item of a number.
    pub(crate) fn get(&self, number: u32) -> Option<T>
        ensures { result ≡ find (numbered T.number_of number) self.now.items }
    {
        self.row.get(number)
    }

    /// The first item that a range means.
    pub(crate) fn find_within(&self, first: u32, last: u32) -> Option<T>
        ensures { result ≡ find (ranged T.number_of first last) self.now.items }
    {
        self.row.find_within(first, last)
    }

    /// Takes the item of a number out.
    pub(crate) fn take(&mut self, number: u32) -> Option<T>
        ensures { Takes (numbered T.number_of number) self.old.items result self.new.items }
    {
        self.row.take(number)
    }

    /// Takes the first item out that a range means.
    pub(crate) fn take_within(&mut self, first: u32, last: u32) -> Option<T>
        ensures { Takes (ranged T.number_of first last) self.old.items result self.new.items }
    {
        self.row.take_within(first, last)
    }

    /// Whether nothing is to be done beside, where the first item goes: no other has gone that keeps its cell, and the
    /// row is not to be made smaller.
    #[inline(always)]
    pub(crate) fn is_plain(&self) -> bool
        ensures { result ≡ true → self.now.gone ≡ 0 }
    {
        self.row.gone == 0 && self.row.head / MANY <= self.row.cells.len() - self.row.head
    }

    /// The first item goes, where nothing is to be done beside.
    #[inline(always)]
    pub(crate) fn drop_first(&mut self)
        requires plain { self.old.gone ≡ 0 }
        requires some { 0 < length self.old.items }
        ensures items { self.new.items ≡ drop 1 self.old.items }
    {
        self.row.skip_first();
    }
}
