//! A range of numbers in a table of open deliveries: its records are let go by two searches and one cut.

ghost use Rattle.std.specs.Prelude.{◌≡◌, ◌≤◌, ◌+◌, ◌-◌, true, false, not, nat_le, length, if◌then◌else◌};
ghost use Rattle.std.specs.List.{filter};
ghost use Rattle.amqp_session.specs.Disposing.{distance};

use super::{Deliveries, Landmark};
use crate::session::range::SerialRange;

/// How many places there are from one up to another. A range that passes the end goes on at the front.
fn stretch(from: usize, to: usize, len: usize, passes: bool) -> usize
    requires from { from ≤ len }
    requires forward { passes ≡ false → from ≤ to }
    requires passing { passes ≡ true → to ≤ from }
    ensures value { result ≡ if passes then (len - from) + to else to - from }
{
    if passes { len - from + to } else { to - from }
}

impl Deliveries {
    /// Lets the records go whose numbers are in the range, and answers how many they were. Where its
    /// numbers pass 4294967295 they are the last ones of the table and the first ones. Its two searches count nowhere.
    pub(crate) fn let_go(&mut self, range: SerialRange) -> usize
        ensures rows { self.new.rows ≡ filter (λ r. not (nat_le (distance range.first r.number) range.span)) self.old.rows }
        ensures count { result ≡ length (filter (λ r. nat_le (distance range.first r.number) range.span) self.old.rows) }
        ensures reads { self.new.reads ≡ self.old.reads }
    {
        let SerialRange { first, span } = range;
        let len = self.len();
        let after = first.wrapping_add(span).wrapping_add(1);
        let guess = self.landmark.expected(first, len, self.missing());
        let from = self.find(first, guess);
        let to = self.find(after, from + span as usize + 1);
        let count = stretch(from, to, len, after <= first);
        self.note(Landmark::after(after.wrapping_sub(1), from));
        self.remove(from, count);
        count
    }
}
