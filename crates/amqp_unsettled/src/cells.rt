//! Cells of numbered items, of which those whose item has gone keep their place for a while.

ghost use Rattle.std.specs.Prelude.{◌≡◌, ℕ, ◌+◌, ◌-◌, ◌*◌, ◌^◌, ◌<◌, ◌≤◌, [], ◌∷◌, ◌++◌, true, Some, OnOk, OnErr};
ghost use Rattle.std.specs.Prelude.{length, min, take, drop, slice_get};
ghost use Rattle.std.specs.Prelude.{slice_index, vec_len, vec_capacity};
ghost use Rattle.amqp_memory.specs.Refusal.{SomeRefused};
ghost use Rattle.amqp_unsettled.specs.Inner.Rows.{Alike, FirstGone, IsLoose, IsRow, IsRunSet, IsThereAt, comes_next};
ghost use Rattle.amqp_unsettled.specs.Inner.Rows.{fars};
ghost use Rattle.amqp_unsettled.specs.Inner.Rows.{items_in, live, there, used};

use crate::numbered::Numbered;
use crate::serial::{distance, is_after};
use amqp_memory::more_in_vector;
use std::alloc::{AllocError, Global};

/// A row of at most so many cells keeps its memory.
const FEW: usize = 64;

/// Of so many cells one is to have an item.
pub(crate) const MANY: usize = 16;

/// What a run says at most.
const MOST: usize = 0xffff_ffff;

/// An item, or the place of one that has gone.
#[derive(Clone, Copy)]
pub(crate) struct Cell<T> {
    pub(crate) item: T,
    // How many have gone from here on, this one first, as far as is known: 0 where it is there.
    pub(crate) run: u32,
}

/// The cells of a row.
#[derive(Drop)]
pub(crate) struct Cells<T> {
    pub(crate) cells: Vec<Cell<T>>,
    // Those before it are not in use.
    pub(crate) head: usize,
    // Of those in use so many have no item.
    pub(crate) gone: usize,
}

/// Says how many have gone from a cell on.
fn set_run<T: Copy>(cells: &mut Vec<Cell<T>>, at: usize, run: usize)
    requires within { at < length cells.old.items }
    ensures set { IsRunSet cells.old.items at (min run (2 ^ 32 - 1)) cells.new.items }
    ensures capacity { vec_capacity cells.new ≡ vec_capacity cells.old }
{
    cells[at].run = run.min(MOST) as u32;
}

/// Moves the cells from `head` on whose items are there to the front. Answers how many these are.
fn move_down<T: Copy>(cells: &mut [Cell<T>], head: usize) -> usize
    requires within { head ≤ length cells.old }
    ensures within { result ≤ length cells.new }
    ensures moved { take result cells.new ≡ live (drop head cells.old) }
{
    let mut kept: usize = 0;
    for at in head..cells.len() {
        let cell = cells[at];
        if cell.run == 0 {
            cells[kept] = cell;
            kept += 1;
        }
    }
    kept
}

/// Keeps the cells from `head` on whose items are there, and no others.
fn keep_there<T: Copy>(cells: &mut Vec<Cell<T>>, head: usize)
    requires within { head ≤ length cells.old.items }
    ensures kept { cells.new.items ≡ live (drop head cells.old.items) }
    ensures capacity { vec_capacity cells.new ≡ vec_capacity cells.old }
{
    let kept = move_down(&mut cells[0..], head);
    cells.truncate(kept);
}

impl<T: Numbered> Cells<T> {
    pub(crate) fn new(alloc: Global) -> Cells<T>
        ensures row { IsRow T.number_of result }
        ensures items { items_in result ≡ [] }
    {
        Cells {
            cells: Vec::new(alloc),
            head: 0,
            gone: 0,
        }
    }

    /// How many items there are.
    #[inline(always)]
    pub(crate) fn len(&self) -> usize
        requires row { IsLoose T.number_of self.now }
        ensures { result ≡ length (items_in self.now) }
    {
        self.cells.len() - self.head - self.gone
    }

    /// The first item.
    #[inline(always)]
    pub(crate) fn first(&self) -> Option<T>
        requires row { IsRow T.number_of self.now }
        ensures { result ≡ slice_get (items_in self.now) 0 }
    {
        match self.cells.get(self.head) {
            Some(cell) => Some(cell.item),
            None => None,
        }
    }

    /// Whether a number may come next: it lies after the first and the last.
    #[inline(always)]
    pub(crate) fn is_next(&self, number: u32) -> bool
        requires row { IsRow T.number_of self.now }
        ensures { result ≡ comes_next T.number_of number (items_in self.now) }
    {
        let len = self.cells.len();
        if self.head >= len {
            return true;
        }
        is_after(self.cells[self.head].item.number(), number)
            && is_after(self.cells[len - 1].item.number(), number)
    }

    /// Makes a cell for one item more. Where memory was refused all stays as it was.
    pub(crate) fn reserve(&mut self) -> Result<(), AllocError>
        requires row { IsRow T.number_of self.old }
        ensures row { IsRow T.number_of self.new }
        ensures items { items_in self.new ≡ items_in self.old }
        ensures ok { OnOk result (vec_len self.new.cells < vec_capacity self.new.cells) }
        ensures refused { OnErr result SomeRefused }
    {
        if self.cells.len() < self.cells.capacity() {
            return Ok(());
        }
        if self.len() < self.cells.len() / 4 {
            self.drop_gone();
            return Ok(());
        }
        more_in_vector(&mut self.cells, 1)
    }

    /// Leaves the cells alone whose items are there.
    fn drop_gone(&mut self)
        requires row { IsLoose T.number_of self.old }
        ensures row { IsRow T.number_of self.new }
        ensures items { items_in self.new ≡ items_in self.old }
        ensures len { vec_len self.new.cells ≡ length (items_in self.old) }
        ensures capacity { vec_capacity self.new.cells ≡ vec_capacity self.old.cells }
    {
        keep_there(&mut self.cells, self.head);
        self.head = 0;
        self.gone = 0;
    }

    /// Puts an item after the others.
    #[inline(always)]
    pub(crate) fn push(&mut self, item: T)
        requires row { IsRow T.number_of self.old }
        requires room { vec_len self.old.cells < vec_capacity self.old.cells }
        requires small { T.number_of item < 2 ^ 32 }
        requires next { comes_next T.number_of (T.number_of item) (items_in self.old) ≡ true }
        ensures row { IsRow T.number_of self.new }
        ensures items { items_in self.new ≡ items_in self.old ++ item ∷ [] }
    {
        self.cells.push_reserved(Cell { item, run: 0 });
    }

    /// Takes out the item of a cell, counted from the first in use. All from another on and before it have gone.
    pub(crate) fn cut(&mut self, from: usize, at: usize) -> T
        requires row { IsRow T.number_of self.old }
        requires within { at < length (used self.old) }
        requires is { IsThereAt (used self.old) at }
        requires order { from ≤ at }
        requires gone { FirstGone (at - from) (drop from (used self.old)) }
        ensures row { IsRow T.number_of self.new }
        ensures item { slice_get (there (drop at (used self.old))) 0 ≡ Some result }
        ensures left { items_in self.new ≡ there (take at (used self.old)) ++ there (drop (at + 1) (used self.old)) }
    {
        let place = self.head + at;
        let item = self.cells[place].item;
        if at == 0 {
            self.drop_first();
        } else if place + 1 == self.cells.len() {
            self.drop_last();
        } else {
            self.mark(from, at);
        }
        self.tidy();
        item
    }

    /// The first item goes.
    fn drop_first(&mut self)
        requires row { IsRow T.number_of self.old }
        requires some { 0 < length (used self.old) }
        ensures row { IsRow T.number_of self.new }
        ensures items { items_in self.new ≡ there (drop 1 (used self.old)) }
    {
        self.head += 1;
        while self.head < self.cells.len() && self.cells[self.head].run > 0 {
            self.head += 1;
            self.gone -= 1;
        }
    }

    /// The last item goes, which is not the first one.
    fn drop_last(&mut self)
        requires row { IsRow T.number_of self.old }
        requires some { 1 < length (used self.old) }
        ensures row { IsRow T.number_of self.new }
        ensures items { items_in self.new ≡ there (take (length (used self.old) - 1) (used self.old)) }
    {
        drop(self.cells.pop());
        while self.cells[self.cells.len() - 1].run > 0 {
            drop(self.cells.pop());
            self.gone -= 1;
        }
    }

    /// The item of a cell goes that is neither the first nor the last. Its cell stays.
    fn mark(&mut self, from: usize, at: usize)
        requires row { IsRow T.number_of self.old }
        requires some { 0 < at }
        requires within { at + 1 < length (used self.old) }
        requires is { IsThereAt (used self.old) at }
        requires order { from ≤ at }
        requires gone { FirstGone (at - from) (drop from (used self.old)) }
        ensures row { IsRow T.number_of self.new }
        ensures left { items_in self.new ≡ there (take at (used self.old)) ++ there (drop (at + 1) (used self.old)) }
    {
        set_run(&mut self.cells, self.head + at, 1);
        set_run(&mut self.cells, self.head + from, at - from + 1);
        self.gone += 1;
    }

    /// Has the cells that a walk from one to another passes say how far it is to that. All from the one on and before
    /// the other have gone.
    pub(crate) fn join(&mut self, from: usize, to: usize)
        requires row { IsRow T.number_of self.old }
        requires order { from ≤ to }
        requires within { to < length (used self.old) }
        requires gone { FirstGone (to - from) (drop from (used self.old)) }
        ensures row { IsRow T.number_of self.new }
        ensures alike { Alike (used self.old) (used self.new) }
    {
        let mut at = from;
        while at < to {
            let place = self.head + at;
            let run = self.cells[place].run as usize;
            set_run(&mut self.cells, place, to - at);
            at += run;
        }
    }

    /// Makes the row smaller, where few items are left of many.
    fn tidy(&mut self)
        requires row { IsRow T.number_of self.old }
        ensures row { IsRow T.number_of self.new }
        ensures items { items_in self.new ≡ items_in self.old }
    {
        let count = self.len();
        if self.cells.len() / MANY > count {
            self.drop_gone();
        }
        if self.cells.capacity() > FEW && self.cells.capacity() / MANY > count {
            self.cells.shrink_to(count);
        }
    }
}
