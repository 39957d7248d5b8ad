//! The table of open deliveries, which counts each read of it. Search and walk stand outside this module.

ghost use Rattle.std.specs.Prelude.{◌≡◌, ℕ, ◌+◌, ◌-◌, ◌*◌, ◌%◌, ◌^◌, ◌<◌, ◌≤◌, [], length, slice_get, slice_set, Some, OnOk, OnErr, IsTrue, false};
ghost use Rattle.std.specs.Borrow.{sem};
ghost use Rattle.amqp_memory.specs.Refusal.{SomeRefused};
ghost use Rattle.amqp_session.specs.Deliveries.{IsRising, IsTable, IsMissing, compared, cut, nothing_counted, number_at, recorded};

mod ranges;

use super::part::{Clues, Landmark, Part, closer, probe};
use super::{Delivery, ReadCount};
use amqp_blocks::Blocks;
use std::alloc::{AllocError, Global};
use std::marker::Model;

/// The open deliveries of one role, by rising number.
///
/// Another module reads a record by [`Deliveries::delivery`] and a number by [`Deliveries::number`] or
/// [`Deliveries::first_number`], and by no other call; each counts the read, and no call sets the count back. The numbers of the
/// first and of the last record are also read without being counted: [`Deliveries::missing`] takes the one from the other. A record
/// that comes at the end costs constant time.
#[derive(Drop)]
pub(crate) struct Deliveries {
    rows: Blocks<Delivery>,
    reads: ReadCount,
    /// Where the last search ended.
    landmark: Landmark,
}

impl Model for Deliveries {
    ghost use Rattle.std.specs.Prelude.{◌+◌, length};
    ghost use Rattle.amqp_session.specs.Deliveries.{TableView, IsTable};

    ghost Value = { TableView };

    ghost view = { λ t. record {
      rows = t.rows.items;
      capacity = length t.rows.items + t.rows.room;
      reads = t.reads;
    } };

    ghost invariant = { λ t. IsTable t.rows.items };
}

/// How many numbers are missing between the first and the last of a table. Both ends are read, and no count tells.
#[inline(always)]
fn missing(rows: &Blocks<Delivery>) -> usize
    requires table { IsTable rows.now.items }
    ensures missing { IsMissing result rows.now.items }
{
    let (Some(first), Some(last)) = (rows.first(), rows.last()) else {
        return 0;
    };
    (last.number - first.number) as usize - (rows.len() - 1)
}

/// The number at the front.
#[inline(always)]
fn front_of(rows: &Blocks<Delivery>) -> u32
    requires some { 0 < length rows.now.items }
    ensures value { result ≡ number_at rows.now.items 0 }
{
    let Some(first) = rows.first() else {
        unreachable!()
    };
    first.number
}

/// The number at a place. A search comes near to it next.
#[inline(always)]
fn number_in(rows: &mut Blocks<Delivery>, at: usize) -> u32
    requires within { at < length rows.old.items }
    ensures value { result ≡ number_at rows.old.items at }
    ensures kept { rows.new ≡ rows.old }
{
    rows.seek(at).number
}

/// Whether the number stands at the place.
fn stands_at(rows: &Blocks<Delivery>, place: usize, number: u32) -> bool
    ensures there { IsTrue result → (place < length rows.now.items) × (number_at rows.now.items place ≡ number) }
    ensures not_there { result ≡ false → place < length rows.now.items → ¬ (number_at rows.now.items place ≡ number) }
{
    place < rows.len() && rows.get(place).number == number
}

/// Puts a record at its place: that of an older one of its number, or between the others.
fn put_at(rows: &mut Blocks<Delivery>, place: usize, delivery: Delivery)
    requires table { IsTable rows.old.items }
    requires room { 0 < rows.old.room }
    requires within { place ≤ length rows.old.items }
    requires below { (i : ℕ) → i < place → number_at rows.old.items i < delivery.number }
    requires above { (i : ℕ) → place ≤ i → i < length rows.old.items → delivery.number ≤ number_at rows.old.items i }
    ensures items { rows.new.items ≡ recorded delivery rows.old.items }
    ensures room { length rows.old.items + rows.old.room ≤ length rows.new.items + rows.new.room }
{
    if stands_at(rows, place, delivery.number) {
        rows.replace(place, delivery);
    } else {
        rows.insert(place, delivery);
    }
}

/// Takes away `count` records from a place on; those past the end are the first ones. What moves is within a block.
#[inline(always)]
fn cut_out(rows: &mut Blocks<Delivery>, from: usize, count: usize)
    requires from { from ≤ length rows.old.items }
    requires count { count ≤ length rows.old.items }
    ensures items { rows.new.items ≡ cut from count rows.old.items }
{
    // The oldest alone: a range would pay for its own record.
    if from == 0 && count == 1 {
        drop(rows.pop_front());
        return;
    }
    cut_wide(rows, from, count);
}

/// The same of any range.
#[inline(never)]
fn cut_wide(rows: &mut Blocks<Delivery>, from: usize, count: usize)
    requires from { from ≤ length rows.old.items }
    requires count { count ≤ length rows.old.items }
    ensures items { rows.new.items ≡ cut from count rows.old.items }
{
    let len = rows.len();
    let rest = len - from;
    if count <= rest {
        rows.remove_range(from, from + count);
    } else {
        rows.remove_range(from, len);
        rows.remove_range(0, count - rest);
    }
}

/// Where the numbers from `number` on begin. They are expected at the guess, and so many numbers are thought to be missing.
fn place_among(rows: &mut Blocks<Delivery>, number: u32, guess: usize, missing: usize) -> usize
    requires rising { IsRising rows.old.items }
    requires few { length rows.old.items ≤ 2 ^ 32 }
    ensures within { result ≤ length rows.old.items }
    ensures below { (i : ℕ) → i < result → number_at rows.old.items i < number }
    ensures above { (i : ℕ) → result ≤ i → i < length rows.old.items → number ≤ number_at rows.old.items i }
    ensures kept { rows.new ≡ rows.old }
{
    let high = rows.len();
    let mut left = Part {
        low: 0,
        high,
        guess,
    };
    let mut clues = Clues::of(guess, high, missing, None);
    // Nothing is counted here: so there may be two reads more, which leave the first ones free to be near the guess.
    let mut half = (high + 1).next_power_of_two() * 4;
    while left.low < left.high {
        half /= 2;
        let at = probe(left, half);
        let value = number_in(rows, at);
        clues = clues.learned(at, value);
        left = closer(left, at, value, number, clues);
    }
    left.low
}

impl Deliveries {
    ghost use Rattle.amqp_session.specs.Lending.{CountsTurn};

    /// A table with no record.
    pub(crate) fn new(alloc: Global) -> Deliveries
        ensures rows { result.rows ≡ [] }
        ensures reads { result.reads ≡ nothing_counted }
    {
        Deliveries {
            rows: Blocks::new(alloc),
            reads: ReadCount::new(),
            landmark: Landmark::new(),
        }
    }

    /// How much of it was ever read.
    pub(crate) fn reads(&self) -> ReadCount
        ensures { result ≡ self.now.reads }
    {
        self.reads
    }

    /// How many records there are.
    #[inline(always)]
    pub(crate) fn len(&self) -> usize
        ensures len { result ≡ length self.now.rows }
        ensures rising { IsRising self.now.rows }
        ensures table { IsTable self.now.rows }
        ensures few { result ≤ 2 ^ 32 }
        ensures turns { self.now.reads.turns < 2 ^ 64 }
        ensures comparisons { self.now.reads.comparisons < 2 ^ 64 }
    {
        // prover
        let _turns = self.reads.turns;
        let _comparisons = self.reads.comparisons;
        self.rows.len()
    }

    /// How many numbers are missing between the first and the last, both of which are read without being counted.
    #[inline(always)]
    pub(crate) fn missing(&self) -> usize
        ensures { IsMissing result self.now.rows }
    {
        missing(&self.rows)
    }

    /// The number at the front: one comparison.
    #[inline(always)]
    pub(crate) fn first_number(&mut self) -> u32
        requires some { 0 < length self.old.rows }
        ensures value { result ≡ number_at self.old.rows 0 }
        ensures counted { self.new ≡ compared 1 self.old }
    {
        self.reads.comparisons = self.reads.comparisons.wrapping_add(1);
        front_of(&self.rows)
    }

    /// The number at a place: one comparison.
    #[inline(always)]
    pub(crate) fn number(&mut self, at: usize) -> u32
        requires within { at < length self.old.rows }
        ensures value { result ≡ number_at self.old.rows at }
        ensures counted { self.new ≡ compared 1 self.old }
    {
        self.reads.comparisons = self.reads.comparisons.wrapping_add(1);
        number_in(&mut self.rows, at)
    }

    /// Where the last search ended.
    #[inline(always)]
    pub(super) fn landmark(&self) -> Landmark {
        self.landmark
    }

    /// Notes where a search ended, for the next one.
    #[inline(always)]
    pub(super) fn note(&mut self, landmark: Landmark)
        ensures { self.new ≡ self.old }
    {
        self.landmark = landmark;
    }

    /// The record at a place: one turn. A walk comes near to it next.
    #[inline(always)]
    pub(crate) fn delivery(&mut self, at: usize) -> &Delivery
        requires within { at < length self.old.rows }
        ensures* counted { sem 𝓛 (CountsTurn self.entry) }
        ensures value { slice_get self.old.rows at ≡ Some result.now }
    {
        self.reads.turns = self.reads.turns.wrapping_add(1);
        self.rows.seek(at)
    }

    /// Reserves room for more records. When memory is refused the table stays as it is.
    #[inline(always)]
    pub(crate) fn reserve(&mut self, additional: usize) -> Result<(), AllocError>
        ensures room { OnOk result (length self.new.rows + additional ≤ self.new.capacity) }
        ensures rows { self.new ≡ record self.old { capacity = self.new.capacity } }
        ensures wanted { OnErr result (0 < additional) }
        ensures refused { additional ≤ 2 ^ 33 → OnErr result SomeRefused }
    {
        self.rows.reserve(additional)
    }

    /// Puts a record in its place; it takes the place of an older one of its number.
    #[inline(always)]
    pub(crate) fn record(&mut self, delivery: Delivery)
        requires room { length self.old.rows < self.old.capacity }
        ensures rows { self.new.rows ≡ recorded delivery self.old.rows }
        ensures capacity { self.old.capacity ≤ self.new.capacity }
        ensures reads { self.new.reads ≡ self.old.reads }
    {
        if !self.is_last(delivery.number) {
            return self.put(delivery);
        }
        self.rows.push_back(delivery);
    }

    /// Whether all numbers are below this one.
    #[inline(always)]
    fn is_last(&self, number: u32) -> bool
        ensures last { IsTrue result → (i : ℕ) → i < length self.now.rows → number_at self.now.rows i < number }
        ensures not_last { result ≡ false → number ≤ number_at self.now.rows (length self.now.rows - 1) }
    {
        match self.rows.last() {
            None => true,
            Some(last) => last.number < number,
        }
    }

    /// Puts a record in its place, which the search finds.
    #[inline(never)]
    fn put(&mut self, delivery: Delivery)
        requires room { length self.old.rows < self.old.capacity }
        ensures rows { self.new.rows ≡ recorded delivery self.old.rows }
        ensures capacity { self.old.capacity ≤ self.new.capacity }
        ensures reads { self.new.reads ≡ self.old.reads }
    {
        let (number, missing) = (delivery.number, self.missing());
        let guess = self.landmark.expected(number, self.rows.len(), missing);
        let place = place_among(&mut self.rows, number, guess, missing);
        put_at(&mut self.rows, place, delivery);
        self.landmark = Landmark::after(number, place.wrapping_add(1));
    }

    /// Where the numbers from `number` on begin, which are expected at the guess. It is of this module alone, and counts nothing.
    fn find(&mut self, number: u32, guess: usize) -> usize
        ensures within { result ≤ length self.old.rows }
        ensures below { (i : ℕ) → i < result → number_at self.old.rows i < number }
        ensures above { (i : ℕ) → result ≤ i → i < length self.old.rows → number ≤ number_at self.old.rows i }
        ensures kept { self.new ≡ self.old }
    {
        let missing = self.missing();
        place_among(&mut self.rows, number, guess, missing)
    }

    /// Takes away `count` records from a place on; those past the end are the first ones. What moves is within a block.
    #[inline(always)]
    pub(crate) fn remove(&mut self, from: usize, count: usize)
        requires from { from ≤ length self.old.rows }
        requires count { count ≤ length self.old.rows }
        ensures rows { self.new.rows ≡ cut from count self.old.rows }
        ensures reads { self.new.reads ≡ self.old.reads }
    {
        cut_out(&mut self.rows, from, count);
    }
}
