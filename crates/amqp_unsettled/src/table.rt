//! The table of what is unsettled.

ghost use Rattle.std.specs.Prelude.{◌≡◌, ◌==◌, [], ◌∷◌, ◌++◌, true, Some, IfErr, IfOk, drop, length, slice_get};
ghost use Rattle.std.specs.List.{find};
ghost use Rattle.amqp_memory.specs.Refusal.{SomeRefused};
ghost use Rattle.amqp_unsettled.specs.Table.{InsertStep, TakeStep, has_number, is_any, is_in, is_next, is_of, count_of};

use crate::entry::{Entry, InsertError};
use crate::lists;
use crate::row::Row;
use crate::serial::is_within;
use std::alloc::Global;
use std::marker::Model;

/// What is unsettled in one direction of one session (AMQP 1.0 part 2, section 2.6.12): the deliveries that this side
/// has sent, or those that it has received, from the oldest to the newest.
///
/// Delivery numbers are serial numbers, which wrap at 2^32. All that are in a table at once lie within half of that
/// circle, so that each two of them have an order.
///
/// It keeps a row for each link up to the highest number of one that had a delivery: 40 bytes each, on machines with
/// addresses of 8 bytes, and 8 for each delivery.
#[derive(Drop)]
pub struct Unsettled {
    alloc: Global,
    entries: Row<Entry>,
    // Of each link the numbers of its deliveries, at the place that the link's number is.
    lists: Vec<Row<u32>>,
}

impl Model for Unsettled {
    ghost use Rattle.std.specs.Prelude.{List};
    ghost use Rattle.amqp_unsettled.specs.declared.entry.Entry.{Entry};
    ghost use Rattle.amqp_unsettled.specs.Inner.Lists.{IsKept};

    ghost Value = { List Entry };

    ghost view = { λ s. s.entries.items };

    ghost invariant = { λ s. IsKept s.entries.items s.lists.items };
}

impl Unsettled {
    /// A table with nothing unsettled. It asks for no memory.
    pub fn new(alloc: Global) -> Unsettled
        ensures { result ≡ [] }
    {
        Unsettled {
            alloc,
            entries: Row::new(alloc),
            lists: Vec::new(alloc),
        }
    }

    /// How many deliveries are unsettled.
    #[inline(always)]
    pub fn len(&self) -> usize
        ensures { result ≡ length self.now }
    {
        self.entries.len()
    }

    /// Whether nothing is unsettled.
    #[inline(always)]
    pub fn is_empty(&self) -> bool
        ensures { result ≡ (length self.now == 0) }
    {
        self.entries.is_empty()
    }

    /// A delivery was sent, or has come, that is not settled. It is the newest one then.
    ///
    /// # Errors
    /// [`InsertError::NotNext`] where its number does not lie after that of each delivery in the table, by less than
    /// 2^31, in serial order (AMQP 1.0 part 2, section 2.8.10): it is there already, or lies before one, or so far
    /// after the oldest one that no order holds. [`InsertError::OutOfMemory`] where memory was refused, for the
    /// delivery or for the lists of the links up to its own. Nothing changes then.
    pub fn insert(&mut self, entry: Entry) -> Result<(), InsertError>
        ensures { InsertStep self.old entry result self.new }
    {
        if !self.entries.is_next(entry.number) {
            return Err(InsertError::NotNext);
        }
        if self.entries.has_room() && lists::has_room(&self.lists, entry.link) {
            lists::put(&mut self.lists, entry.link, entry.number);
            self.entries.push(entry);
            return Ok(());
        }
        self.insert_later(entry)
    }

    /// The same of one that may come next, once there is room.
    #[inline(never)]
    fn insert_later(&mut self, entry: Entry) -> Result<(), InsertError>
        requires next { is_next entry.number self.old ≡ true }
        ensures { InsertStep self.old entry result self.new }
    {
        let Ok(()) = self.entries.reserve() else {
            return Err(InsertError::OutOfMemory);
        };
        let Ok(()) = lists::make_room(&mut self.lists, self.alloc, entry.link) else {
            return Err(InsertError::OutOfMemory);
        };
        lists::put(&mut self.lists, entry.link, entry.number);
        self.entries.push(entry);
        Ok(())
    }

    /// The delivery of a number, which stays. `None` where it is not unsettled.
    pub fn get(&self, number: u32) -> Option<Entry>
        ensures { result ≡ find (has_number number) self.now }
    {
        self.entries.get(number)
    }

    /// The oldest unsettled delivery of the range from `first` to `last`, which stays. A range is as for
    /// [`Unsettled::settle_next`].
    pub fn find_next(&self, first: u32, last: u32) -> Option<Entry>
        ensures { result ≡ find (is_in first last) self.now }
    {
        self.entries.find_within(first, last)
    }

    /// How many deliveries of a link are unsettled.
    pub fn count_of(&self, link: u32) -> usize
        ensures { result ≡ count_of link self.now }
    {
        lists::count_of(&self.lists, link)
    }

    /// Takes out the delivery of a number: this side settles it. `None` where it is not unsettled; nothing changes
    /// then.
    pub fn remove(&mut self, number: u32) -> Option<Entry>
        ensures { TakeStep (has_number number) self.old result self.new }
    {
        let entry = self.entries.take(number)?;
        lists::forget(&mut self.lists, entry.link, entry.number);
        Some(entry)
    }

    /// Takes out the oldest unsettled delivery of the range from `first` to `last`, both of them in it, as a
    /// disposition with these and `settled` wants (AMQP 1.0 part 2, section 2.7.6). Called until it answers `None`, it
    /// gives back each unsettled delivery of the range, once, in the order of their numbers. A disposition without
    /// `last` has one number: `last` is `first`. A range that does not go forward by less than 2^31 has none (section
    /// 2.8.10).
    pub fn settle_next(&mut self, first: u32, last: u32) -> Option<Entry>
        ensures { TakeStep (is_in first last) self.old result self.new }
    {
        let oldest = self.entries.first()?;
        // Most often it is meant.
        if is_within(first, last, oldest.number)
            && self.entries.is_plain()
            && lists::is_plain(&self.lists, oldest.link)
        {
            self.entries.drop_first();
            lists::drop_first(&mut self.lists, oldest.link);
            return Some(oldest);
        }
        self.settle_later(first, last)
    }

    /// The same of any delivery.
    #[inline(never)]
    fn settle_later(&mut self, first: u32, last: u32) -> Option<Entry>
        ensures { TakeStep (is_in first last) self.old result self.new }
    {
        let entry = self.entries.take_within(first, last)?;
        lists::forget(&mut self.lists, entry.link, entry.number);
        Some(entry)
    }

    /// The oldest unsettled delivery of a link, which [`Unsettled::remove_next_of`] takes out.
    pub fn next_of(&self, link: u32) -> Option<Entry>
        ensures { result ≡ find (is_of link) self.now }
    {
        let number = lists::first_of(&self.lists, link)?;
        self.get(number)
    }

    /// Takes out the oldest unsettled delivery of a link. Called until it answers `None`, it tells each delivery of a
    /// link that goes which is unsettled then (AMQP 1.0 part 2, section 2.6.13), once, in the order of their numbers.
    pub fn remove_next_of(&mut self, link: u32) -> Option<Entry>
        ensures { TakeStep (is_of link) self.old result self.new }
    {
        let number = lists::first_of(&self.lists, link)?;
        self.remove(number)
    }

    /// The link has gone: the memory of its list goes, where no delivery of it is unsettled. No delivery changes.
    pub fn forget_link(&mut self, link: u32)
        ensures { self.new ≡ self.old }
    {
        lists::let_go(&mut self.lists, self.alloc, link);
    }

    /// Takes out the oldest unsettled delivery, of any link. Called until it answers `None`, it tells all that is
    /// unsettled where the session goes, in the order of their numbers.
    pub fn remove_oldest(&mut self) -> Option<Entry>
        ensures { TakeStep is_any self.old result self.new }
    {
        let oldest = self.entries.first()?;
        self.remove(oldest.number)
    }
}
