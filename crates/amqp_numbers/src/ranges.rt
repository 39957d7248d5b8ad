//! Ranges of numbers, and how one comes among others.

ghost use Rattle.std.specs.Prelude.{◌≡◌, ◌^◌, ◌<◌, ◌≤◌, ◌++◌, ◌∷◌, length, take, drop, OnOk, OnErr};
ghost use Rattle.amqp_memory.specs.Refusal.{RefusedWithin};

use amqp_blocks::Blocks;
use std::alloc::AllocError;

/// The numbers from the first to the last, both among them.
#[derive(Clone, Copy)]
pub(crate) struct Range {
    pub(crate) first: u32,
    pub(crate) last: u32,
}

/// Puts a range in the place of those of the ranks from `from` on and below `to`. It asks for memory only where there are none of these.
pub(crate) fn put(
    ranges: &mut Blocks<Range>,
    from: usize,
    to: usize,
    range: Range,
) -> Result<(), AllocError>
    requires order { from ≤ to }
    requires within { to ≤ length ranges.old.items }
    requires few { length ranges.old.items < 2 ^ 33 }
    ensures ok { OnOk result (ranges.new.items ≡ take from ranges.old.items ++ range ∷ drop to ranges.old.items) }
    ensures err { OnErr result (ranges.new.items ≡ ranges.old.items) }
    ensures none { OnErr result (from ≡ to) }
    ensures refused { OnErr result (RefusedWithin 257) }
{
    if from == to {
        ranges.reserve(1)?;
        ranges.insert(from, range);
        return Ok(());
    }
    ranges.replace(from, range);
    ranges.remove_range(from + 1, to);
    Ok(())
}
