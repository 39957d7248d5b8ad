//! Dispositions by numbers.

ghost use Rattle.std.specs.Prelude.{◌≡◌, [], ◌∷◌, is_some};
ghost use Rattle.amqp_driver.specs.Settling.{state_of};
ghost use Rattle.amqp1.specs.Disposing.{FindsDispose};

use crate::reading;
use amqp_types::Role;

/// A disposition that is to be sent.
#[derive(Clone, Copy)]
pub(crate) struct DisposeAsked {
    /// The session.
    pub(crate) session: u32,
    /// The end on which this side stands.
    pub(crate) role: Role,
    /// The number of the first delivery.
    pub(crate) first: u32,
    /// The number of the last delivery.
    pub(crate) last: u32,
    /// Whether the deliveries are settled.
    pub(crate) settled: bool,
    /// The number of their state.
    pub(crate) outcome: u8,
}

/// The disposition that the bytes ask for. `None` exactly where they do not have its form.
pub(crate) fn asked(input: &[u8]) -> Option<DisposeAsked>
    ensures { FindsDispose input.now result }
{
    let (session, after) = reading::number(input)?;
    let (role, numbers) = reading::byte(after)?;
    let role = reading::role(role)?;
    let (first, second) = reading::number(numbers)?;
    let (last, flags) = reading::number(second)?;
    let (settled, end) = reading::byte(flags)?;
    let settled = reading::flag(settled)?;
    match end {
        [outcome] => Some(DisposeAsked {
            session,
            role,
            first,
            last,
            settled,
            outcome: *outcome,
        }),
        _ => None,
    }
}

/// Whether the number is that of a state.
pub(crate) fn has_state(outcome: u8) -> bool
    ensures { result ≡ is_some (state_of outcome) }
{
    matches!(outcome, 0 | 1 | 3 | 4)
}
