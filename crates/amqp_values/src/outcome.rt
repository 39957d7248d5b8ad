//! Terminal delivery states: accepted, rejected, released and modified (AMQP 1.0 part 3, section 3.4).

ghost use Rattle.std.specs.Prelude.{◌≡◌, ◌↔◌, IsTrue};
ghost use Rattle.amqp_values.specs.Outcome.{IsTerminal, has_outcome_name, has_outcome_number};
ghost use Rattle.amqp_values.specs.Outcome.{spells_large, spells_name, spells_small, stands_for_outcome};

use crate::codes;
use crate::raw::Raw;
use crate::walk::{first, region};

/// Whether a delivery state is terminal: a described value whose descriptor is that of accepted, rejected, released or
/// modified, by number or by name, in any spelling. No other value is terminal; the state received is not. The value after
/// the descriptor does not count (part 3, section 3.4).
pub fn is_terminal(value: &Raw) -> bool
    ensures { IsTrue result ↔ IsTerminal value.now }
{
    match value.view().descriptor() {
        Some(descriptor) => stands_for_outcome(descriptor.bytes()),
        None => false,
    }
}

/// Whether a descriptor is that of a terminal state.
#[tactic(auto, unfolding(crate::specs::Outcome::spells_outcome))]
fn stands_for_outcome(descriptor: &[u8]) -> bool
    ensures { result ≡ stands_for_outcome descriptor.now }
{
    match first(descriptor) {
        Some((codes::SMALL_ULONG, data)) => spells_small(data),
        Some((codes::ULONG, data)) => spells_large(data),
        Some((codes::SYMBOL8, data)) => spells_name(false, data),
        Some((codes::SYMBOL32, data)) => spells_name(true, data),
        _ => false,
    }
}

/// Whether the one byte of an ulong is the number of a terminal state.
fn spells_small(bytes: &[u8]) -> bool
    ensures { result ≡ spells_small bytes.now }
{
    match bytes {
        [number] => has_outcome_number(u64::from(*number)),
        _ => false,
    }
}

/// Whether the eight bytes of an ulong are the number of a terminal state.
fn spells_large(bytes: &[u8]) -> bool
    ensures { result ≡ spells_large bytes.now }
{
    if bytes.len() != 8 {
        return false;
    }
    has_outcome_number(u64::from_be_bytes([
        bytes[0], bytes[1], bytes[2], bytes[3], bytes[4], bytes[5], bytes[6], bytes[7],
    ]))
}

/// Whether the length and the bytes of a symbol are the name of a terminal state.
#[tactic(auto, unfolding(crate::specs::Outcome::spells_name))]
fn spells_name(wide: bool, bytes: &[u8]) -> bool
    ensures { result ≡ spells_name wide bytes.now }
{
    match region(wide, bytes) {
        Some((name, rest)) => rest.is_empty() && has_outcome_name(name),
        None => false,
    }
}

/// Whether this is the number of a terminal state.
fn has_outcome_number(number: u64) -> bool
    ensures { result ≡ has_outcome_number number }
{
    number == 0x24 || number == 0x25 || number == 0x26 || number == 0x27
}

/// Whether this is the name of a terminal state.
fn has_outcome_name(name: &[u8]) -> bool
    ensures { result ≡ has_outcome_name name.now }
{
    name == b"amqp:accepted:list".as_slice()
        || name == b"amqp:rejected:list".as_slice()
        || name == b"amqp:released:list".as_slice()
        || name == b"amqp:modified:list".as_slice()
}
