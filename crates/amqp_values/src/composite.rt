//! Composites: described lists, read by the table of their fields.

ghost use Rattle.std.specs.Prelude.{◌≡◌, ◌≤◌, ℕ, List, Option, take, drop, length, IfErr};
ghost use Rattle.amqp_values.specs.declared.error.ReadError.TheVariants.{Malformed};
ghost use Rattle.amqp_values.specs.Slots.{PartsLeft};
ghost use Rattle.amqp_values.specs.Reading.{Gives};
ghost use Rattle.amqp_values.specs.Composite.{composite_at, code_of, meaning_at, name_at, code_at, descriptor_at, described_at};

use crate::codes;
use crate::cursor::{take_byte, take_region, take_u64};
use crate::error::ReadError;
use crate::list_walk::ListWalk;
use amqp_memory::part_of;
use bytes::Bytes;
use std::alloc::Global;

/// A type whose fields stand in a described list (AMQP 1.0 part 1, section 1.4).
pub trait Composite: Drop {
    ghost body_at: { PartsLeft → Option (Self × PartsLeft) };

    /// Reads the list at the front of the bytes, after its descriptor, by one walk, and leaves the rest: all parts are taken, and no more
    /// than the table has. `Malformed` where no list stands there, a part is not of its type, a mandatory one is null or absent,
    /// or one is left over; `OutOfMemory` as the fields answer it. After an error the bytes are of no use.
    ///
    /// Each type enters its list and leaves it by itself, so that its value is made where it stays.
    fn read_list(alloc: Global, bytes: &mut Bytes) -> Result<Self, ReadError>
        ensures { Gives (λ x. x) result bytes.new (composite_at body_at bytes.old) };
}

#[tactic(auto, unfolding(crate::specs::Composite::code_of))]
fn code_of_name(name: &[u8]) -> Option<u8>
    ensures { result ≡ code_of name.now }
{
    if name == b"amqp:open:list".as_slice() {
        Some(codes::OPEN)
    } else if name == b"amqp:begin:list".as_slice() {
        Some(codes::BEGIN)
    } else if name == b"amqp:attach:list".as_slice() {
        Some(codes::ATTACH)
    } else if name == b"amqp:flow:list".as_slice() {
        Some(codes::FLOW)
    } else if name == b"amqp:transfer:list".as_slice() {
        Some(codes::TRANSFER)
    } else if name == b"amqp:disposition:list".as_slice() {
        Some(codes::DISPOSITION)
    } else if name == b"amqp:detach:list".as_slice() {
        Some(codes::DETACH)
    } else if name == b"amqp:end:list".as_slice() {
        Some(codes::END)
    } else if name == b"amqp:close:list".as_slice() {
        Some(codes::CLOSE)
    } else if name == b"amqp:error:list".as_slice() {
        Some(codes::ERROR)
    } else {
        None
    }
}

#[inline(never)]
fn meaning(name: &[u8]) -> Result<u64, ReadError>
    ensures value { (rest : List ℕ) → Gives (λ x. x) result rest (meaning_at (name.now, rest)) }
    ensures malformed { IfErr result (λ e. e ≡ Malformed) }
{
    match code_of_name(name) {
        Some(code) => Ok(u64::from(code)),
        None => Err(ReadError::Malformed),
    }
}

/// What the name at this place means.
#[inline(never)]
fn named(wide: bool, text: &[u8], at: &mut usize) -> Result<u64, ReadError>
    requires { at.old ≤ length text.now }
    ensures value { Gives (λ x. x) result (drop at.new text.now) (name_at wide (drop at.old text.now)) }
    ensures bound { at.new ≤ length text.now }
    ensures malformed { IfErr result (λ e. e ≡ Malformed) }
{
    let from = take_region(wide, text, at)?;
    meaning(&text[from..*at])
}

/// The code at this place, after the byte that says that it is a descriptor.
fn code(text: &[u8], at: &mut usize) -> Result<u64, ReadError>
    requires { at.old ≤ length text.now }
    ensures value { Gives (λ x. x) result (drop at.new text.now) (code_at (drop at.old text.now)) }
    ensures bound { at.new ≤ length text.now }
    ensures malformed { IfErr result (λ e. e ≡ Malformed) }
{
    match take_byte(text, at)? {
        codes::ULONG0 => Ok(0),
        codes::SMALL_ULONG => Ok(u64::from(take_byte(text, at)?)),
        codes::ULONG => take_u64(text, at),
        codes::SYMBOL8 => named(false, text, at),
        codes::SYMBOL32 => named(true, text, at),
        _ => Err(ReadError::Malformed),
    }
}

/// The code of the descriptor at the front, in every spelling: a number, or one of the standard's names.
#[tactic(auto, unfolding(crate::specs::Composite::descriptor_at))]
#[inline(always)]
pub fn descriptor(bytes: &mut Bytes) -> Result<u64, ReadError>
    ensures value { Gives (λ x. x) result bytes.new (descriptor_at bytes.old) }
    ensures malformed { IfErr result (λ e. e ≡ Malformed) }
{
    match bytes.as_slice() {
        [codes::DESCRIBED, codes::SMALL_ULONG, code, ..] => {
            let code = *code;
            bytes.advance(3);
            Ok(u64::from(code))
        }
        [codes::DESCRIBED, ..] => {
            let mut at = 1;
            let code = code(bytes.as_slice(), &mut at)?;
            bytes.advance(at);
            Ok(code)
        }
        _ => Err(ReadError::Malformed),
    }
}

/// The described list at a place of the text, with this code for its descriptor; the place is behind it then. The text is the front of
/// the bytes.
#[tactic(auto, using(crate::proofs::WalkLemmas::rest_slice, crate::proofs::WalkLemmas::front_short, crate::proofs::WalkLemmas::described_left, crate::proofs::WalkLemmas::described_short, crate::proofs::WalkLemmas::described_is), unfolding(crate::specs::Composite::described_at))]
pub fn described<C: Composite>(
    alloc: Global,
    code: u64,
    text: &[u8],
    at: &mut usize,
    bytes: &Bytes,
) -> Result<C, ReadError>
    requires inside { at.old ≤ length text.now }
    requires front { text.now ≡ take (length text.now) bytes.now }
    ensures value { Gives (λ x. x) result (drop at.new text.now) (described_at code C.body_at (drop at.old text.now)) }
    ensures bound { at.new ≤ length text.now }
{
    let mut rest = part_of(bytes, *at, text.len())?;
    if descriptor(&mut rest)? != code {
        return Err(ReadError::Malformed);
    }
    let (_, end) = ListWalk::enter(rest.as_slice())?;
    *at = text.len() - (rest.len() - end);
    C::read_list(alloc, &mut rest)
}
