//! The set.

ghost use Rattle.std.specs.Prelude.{◌≡◌, true, is_some, OnOk, OnErr};
ghost use Rattle.std.specs.FinMap as map;
ghost use Rattle.amqp_memory.specs.Refusal.{RefusedWithin};
ghost use Rattle.amqp_numbers.specs.Ranges.{IsAlone};

use crate::joining::{lower_end, upper_end};
use crate::ranges::{Range, put};
use crate::search::{is_in_range_before, rank_of};
use amqp_blocks::Blocks;
use std::alloc::{AllocError, Global};
use std::marker::Model;

/// A set of numbers of 32 bits, kept as ranges: numbers that follow one another take one place together.
///
/// ```
/// let mut numbers = NumberSet::new(alloc);
/// numbers.insert(7)?;
/// let is_there = numbers.contains(7);      // true
/// ```
#[derive(Drop)]
pub struct NumberSet {
    ranges: Blocks<Range>,
}

impl Model for NumberSet {
    ghost use Rattle.std.specs.Coded.{coded_ℕ, coded_bool};
    ghost use Rattle.std.specs.FinMap as map;
    ghost use Rattle.amqp_numbers.specs.Ranges.{Numbers, numbers_of, IsSpaced};

    ghost Value = { Numbers };

    ghost coded = { map.code coded_ℕ coded_bool };

    ghost view = { λ s. numbers_of s.ranges.items };

    ghost invariant = { λ s. IsSpaced 0 s.ranges.items };
}

impl NumberSet {
    /// A set of no numbers. It asks for no memory.
    pub fn new(alloc: Global) -> NumberSet
        ensures { result ≡ map.empty }
    {
        NumberSet {
            ranges: Blocks::new(alloc),
        }
    }

    /// Whether the number is in the set.
    pub fn contains(&self, number: u32) -> bool
        ensures { result ≡ is_some (map.get self.now number) }
    {
        is_in_range_before(&self.ranges, rank_of(&self.ranges, number), number)
    }

    /// Puts a number into the set. One that is there already changes nothing. Where memory is refused, nothing changes either: it is asked
    /// for only where the number follows no other, and none follows it.
    pub fn insert(&mut self, number: u32) -> Result<(), AllocError>
        ensures ok { OnOk result (self.new ≡ map.insert self.old number true) }
        ensures err { OnErr result (self.new ≡ self.old) }
        ensures alone { OnErr result (IsAlone self.old number) }
        ensures refused { OnErr result (RefusedWithin 257) }
    {
        let rank = rank_of(&self.ranges, number);
        if is_in_range_before(&self.ranges, rank, number) {
            return Ok(());
        }
        let (from, first) = lower_end(&self.ranges, rank, number);
        let (to, last) = upper_end(&self.ranges, rank, number);
        put(&mut self.ranges, from, to, Range { first, last })
    }
}
