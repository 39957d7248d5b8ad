//! What a part of a delivery makes unsettled, or settles.

ghost use Rattle.std.specs.Prelude.{◌≡◌, OnErr};
ghost use Rattle.amqp_links.specs.Noting.{Notes, GivesBack};

use amqp_unsettled::{Entry, InsertError, Unsettled};

/// Notes a part of this delivery: the first one, unless it is settled, makes the delivery unsettled, and a later one that settles it answers what was given
/// with it.
#[inline(always)]
pub(super) fn note(
    table: &mut Unsettled,
    is_first: bool,
    is_settled: bool,
    entry: Entry,
) -> Result<Option<u64>, InsertError>
    ensures notes { Notes is_first is_settled table.old entry result table.new }
    ensures kept { OnErr result (table.new ≡ table.old) }
{
    match (is_first, is_settled) {
        (true, true) | (false, false) => Ok(None),
        (true, false) => match table.insert(entry) {
            Ok(()) => Ok(None),
            Err(error) => Err(error),
        },
        (false, true) => Ok(settle_own(table, entry.link, entry.number)),
    }
}

/// Takes out the delivery of a number, where it is of this link, and answers what was given with it.
pub(super) fn settle_own(table: &mut Unsettled, link: u32, number: u32) -> Option<u64>
    ensures { GivesBack table.old link number result table.new }
{
    let entry = table.get(number)?;
    if entry.link != link {
        return None;
    }
    drop(table.remove(number));
    Some(entry.given)
}
