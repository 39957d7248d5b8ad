//! The walk of a disposition over the open deliveries that it means (AMQP 1.0 part 2, section 2.6.12).

ghost use Rattle.std.specs.Prelude.{◌≡◌, ◌≤◌, ◌<◌, ◌+◌, ◌-◌, ◌/◌, ◌^◌, ℕ, List, [], None, length, map, min, take, drop, false, vec_len, vec_capacity};
ghost use Rattle.amqp_session.specs.Deliveries.{IsTable, stepped};
ghost use Rattle.amqp_session.specs.Relay.{DispositionQuestion};
ghost use Rattle.amqp_session.specs.Runs.{DeliveryRange, goes_on};
ghost use Rattle.amqp_session.specs.Disposing.{distance, span, in_order, meant, echo_of, AsksEach, AreRuns};
ghost use Rattle.amqp_session.specs.Inner.Walks.{around, range_of, turned, noted, noted_by, IsSplit};

use super::range::SerialRange;
use super::runs::extend;
use crate::deliveries::Deliveries;
use crate::link::Links;
use crate::relay::LinkRelay;
use amqp_types::Disposition;

/// The place `count` after `from`; past the end it goes on at the front.
#[inline(always)]
fn around(from: usize, count: usize, len: usize) -> usize
    requires from { from ≤ len }
    requires count { count < len }
    ensures value { result ≡ around from count len }
    ensures within { result < len }
{
    let rest = len - from;
    if count < rest {
        from + count
    } else {
        count - rest
    }
}

/// Notes a number for the answers where its relay answered true, unless the disposition settles.
fn note(echoes: &mut Vec<Disposition>, number: u32, settled: bool, answer: bool)
    requires { settled ≡ false → (runs : List DeliveryRange) × (echoes.old.items ≡ map (echo_of None) runs)
        × (goes_on number runs ≡ false → vec_len echoes.old < vec_capacity echoes.old) }
    ensures items { (runs : List DeliveryRange) → echoes.old.items ≡ map (echo_of None) runs
        → echoes.new.items ≡ map (echo_of None) (noted_by settled answer number runs) }
    ensures len { vec_len echoes.new ≤ vec_len echoes.old + 1 }
    ensures capacity { vec_capacity echoes.new ≡ vec_capacity echoes.old }
{
    if !settled && answer {
        extend(echoes, number);
    }
}

/// Asks the relay of the delivery that a disposition of one number means, if it is open, and says how many are meant. No second record is
/// read.
#[inline(always)]
pub(super) fn ask_one<R: LinkRelay>(
    links: &mut Links<R>,
    rows: &mut Deliveries,
    disposition: &Disposition,
    range: SerialRange,
    from: usize,
) -> usize
    requires range { range ≡ range_of disposition.now }
    requires from { from ≤ length rows.old.rows }
    requires order { in_order disposition.now.first rows.old.rows ≡ turned from rows.old.rows }
    requires alone { span disposition.now.first disposition.now.last ≡ 0 }
    ensures within { result ≤ length rows.old.rows }
    ensures split { IsSplit disposition.now (turned from rows.old.rows) result }
    ensures asked { (asked : List (DispositionQuestion R))
        × AsksEach R.gives.disposition_gives disposition.now (take result (turned from rows.old.rows)) asked links.old links.new }
    ensures read { (k : ℕ) × (k ≤ result + 1) × (result ≤ k) × (rows.new ≡ stepped k rows.old) }
{
    let len = rows.len();
    if len == 0 {
        return 0;
    }
    let delivery = rows.delivery(around(from, 0, len));
    if delivery.number != range.first {
        return 0;
    }
    links.ask_disposition(disposition, delivery);
    1
}

/// Asks the relays of the deliveries that a disposition means, in order, from the place of its first number on, and says how
/// many deliveries are meant. An unsettled one has the numbers noted for which a relay answered true: two runs of them have a
/// missing number between them, so there are at most half as many runs as numbers in the range, and one.
pub(super) fn ask_each<R: LinkRelay>(
    links: &mut Links<R>,
    rows: &mut Deliveries,
    disposition: &Disposition,
    range: SerialRange,
    from: usize,
    echoes: &mut Vec<Disposition>,
) -> usize
    requires range { range ≡ range_of disposition.now }
    requires from { from ≤ length rows.old.rows }
    requires order { in_order disposition.now.first rows.old.rows ≡ turned from rows.old.rows }
    requires forward { span disposition.now.first disposition.now.last < 2 ^ 31 }
    requires no_echoes { echoes.old.items ≡ [] }
    requires room { disposition.now.settled ≡ false → min (length rows.old.rows) (span disposition.now.first disposition.now.last / 2 + 1) ≤ vec_capacity echoes.old }
    ensures within { result ≤ length rows.old.rows }
    ensures split { IsSplit disposition.now (turned from rows.old.rows) result }
    ensures asked { (asked : List (DispositionQuestion R))
        × AsksEach R.gives.disposition_gives disposition.now (take result (turned from rows.old.rows)) asked links.old links.new
        × (runs : List DeliveryRange) × AreRuns disposition.now.first (noted disposition.now.settled asked) runs × (echoes.new.items ≡ map (echo_of None) runs) }
    ensures read { (k : ℕ) × (k ≤ result + 1) × (result ≤ k) × (rows.new ≡ stepped k rows.old) }
{
    let len = rows.len();
    for count in 0..len {
        let delivery = rows.delivery(around(from, count, len));
        let number = delivery.number;
        if !range.has(number) {
            return count;
        }
        let answer = links.ask_disposition(disposition, delivery);
        note(echoes, number, disposition.settled, answer);
    }
    len
}
