//! How many channels of the peer's lead to each session: counts that go up and down with the routes.

ghost use Rattle.std.specs.Prelude.{◌≡◌, ℕ, ◌<◌, ◌≤◌};
ghost use Rattle.indexmap.specs.IndexMap.{spare, hasher_of};
ghost use Rattle.amqp_connection.specs.RouteCounts.{Lowered, Raised, count_at, leads};

use amqp_session::keys::{self, Hints, Numbered};

/// The count of the session: 0 where there is none.
fn count_of(counts: &Numbered<u32>, hints: &Hints, number: u32) -> u32
    ensures { result ≡ count_at counts.now.entries number }
{
    keys::get(counts, hints, number).copied().unwrap_or(0)
}

/// One more channel leads to the session. Room for its count was made before.
pub(super) fn raise(counts: &mut Numbered<u32>, hints: &mut Hints, number: u32)
    requires room { 0 < spare counts.old }
    requires small { count_at counts.old.entries number ≤ 65536 }
    ensures raised { Raised number counts.old.entries counts.new.entries }
    ensures hasher { hasher_of counts.new ≡ hasher_of counts.old }
{
    let count = count_of(counts, hints, number);
    keys::put(counts, hints, number, count + 1);
}

/// One channel fewer leads to the session, where one is named. Takes no memory.
pub(super) fn lower(counts: &mut Numbered<u32>, hints: &mut Hints, number: Option<u32>)
    requires { (n : ℕ) → leads number n ≤ count_at counts.old.entries n }
    ensures lowered { Lowered number counts.old.entries counts.new.entries }
    ensures hasher { hasher_of counts.new ≡ hasher_of counts.old }
{
    let Some(left) = number else {
        return;
    };
    let count = count_of(counts, hints, left);
    if count == 1 {
        keys::take(counts, hints, left);
        return;
    }
    counts.insert(left, count - 1).unwrap();
}
