//! Open deliveries, and how much of them was read.

ghost use Rattle.std.specs.Prelude.{◌≡◌, ◌^◌, ◌<◌};
ghost use Rattle.amqp_session.specs.Deliveries.{nothing_counted, nothing_read, risen};

mod part;
mod search;
mod table;
mod tags;

pub(crate) use self::table::Deliveries;
pub(crate) use self::tags::Tags;
use crate::numbers::InputHandle;
use amqp_types::DeliveryTag;

/// An open delivery: one that is not settled (AMQP 1.0 part 2, section 2.6.12).
#[derive(Debug, Drop, PartialEq)]
pub struct Delivery {
    /// Its number, modulo 2^32.
    pub number: u32,
    /// The input handle of its link.
    pub input_handle: InputHandle,
    /// Its tag.
    pub tag: DeliveryTag,
}

/// How much the latest received disposition read of the open deliveries: what `Session::last_walk` gives.
#[derive(Clone, Copy, Debug, PartialEq, Eq)]
pub struct WalkCount {
    /// How many records were read.
    pub turns: u64,
    /// How many numbers were compared, in the search for the place where the walk begins.
    pub comparisons: u32,
}

/// How much of a table was ever read, modulo 2^64: the table counts it, and no call sets it back.
#[derive(Clone, Copy, Debug, PartialEq, Eq)]
pub(crate) struct ReadCount {
    /// How many records were read.
    pub(crate) turns: u64,
    /// How many numbers were read.
    pub(crate) comparisons: u64,
}

impl WalkCount {
    /// Nothing is read.
    pub(crate) fn new() -> WalkCount
        ensures { result ≡ nothing_read }
    {
        WalkCount {
            turns: 0,
            comparisons: 0,
        }
    }
}

impl ReadCount {
    /// Nothing was ever read.
    fn new() -> ReadCount
        ensures { result ≡ nothing_counted }
    {
        ReadCount {
            turns: 0,
            comparisons: 0,
        }
    }

    /// What was read since the count was `before`.
    pub(crate) fn since(self, before: ReadCount) -> WalkCount
        ensures { (w : WalkCount) → w.turns < 2 ^ 64 → w.comparisons < 2 ^ 32 → self ≡ risen w before → result ≡ w }
    {
        WalkCount {
            turns: self.turns.wrapping_sub(before.turns),
            comparisons: (self.comparisons.wrapping_sub(before.comparisons) % 0x1_0000_0000) as u32,
        }
    }
}
