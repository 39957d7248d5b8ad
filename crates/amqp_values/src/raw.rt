//! Raw values: one whole value of any type, kept as it came (AMQP 1.0 part 1, section 1.2).

ghost use Rattle.std.specs.Prelude.{◌≡◌, ◌≤◌, Some, None, take, drop, length, IfOk, IfErr, OnErr};
ghost use Rattle.amqp_memory.specs.Refusal.{SomeRefused};
ghost use Rattle.amqp_values.specs.declared.error.ReadError.TheVariants.{Malformed};
ghost use Rattle.amqp_values.specs.Reading.{Answers, Gives, ReadsFront};
ghost use Rattle.amqp_values.specs.Raw.{IsRaw, MakesRaw, SpellsRaw, begins_null, is_raw_text, raw_at};
ghost use Rattle.amqp_values.specs.Outcome.{outcome_text};

use crate::codes;
use crate::error::ReadError;
use crate::field::Field;
use crate::value::ValueRef;
use crate::walk::{first, value_rest};
use amqp_memory::{front_of, part_of, shared};
use bytes::Bytes;
use std::alloc::{AllocError, Global};
use std::marker::Model;

/// One whole value of any type but the bare null, of a depth of at most 64, as it was spelled.
///
/// A value with no values inside has a depth of 0, the list without data one of 1. Lists, maps, arrays and described
/// values have one more than the deepest value inside.
///
/// It shares the bytes that it was read from; none is copied. Only its structure was checked: codes, sizes, lengths, counts
/// and the data of booleans. The bytes of texts, symbols and characters may be any.
///
/// ```
/// let (raw, rest) = Raw::read(bytes)?;     // the first value of the bytes, and what follows it
/// let is_composite = raw.view().code() == 0;
/// let outcome = Raw::accepted();           // the outcome `accepted`, for a disposition
/// ```
#[derive(Debug, Drop)]
pub struct Raw {
    bytes: Bytes,
}

impl Model for Raw {
    ghost use Rattle.std.specs.Prelude.{ℕ, List};
    ghost use Rattle.amqp_values.specs.Raw.{IsRaw};

    ghost Value = { List ℕ };

    ghost view = { λ r. r.bytes };

    ghost invariant = { λ r. IsRaw r.bytes };
}

impl Clone for Raw {
    ghost is_clone = { λ p q. q ≡ p };

    fn clone(&self) -> Result<Raw, AllocError>
        ensures value { IfOk result (λ q. q ≡ self.now) }
        ensures refused { OnErr result SomeRefused }
    {
        Ok(Raw {
            bytes: shared(&self.bytes)?,
        })
    }
}

impl PartialEq for Raw {
    ghost use Rattle.std.specs.Prelude.{nat_eq};
    ghost use Rattle.std.specs.Cmp.{partial_equiv_from_equiv};
    ghost use Rattle.std.specs.Cmp.Lexicographic.{nat_list_eq_equiv, pointwise};

    ghost eq = { pointwise nat_eq };

    ghost laws = { partial_equiv_from_equiv nat_list_eq_equiv };

    /// Whether both are spelled alike. A number in another encoding is another spelling.
    fn eq(&self, other: &Raw) -> bool {
        self.bytes == other.bytes
    }
}

impl Raw {
    /// Reads the first value of the bytes, and answers it and the rest (part 1, section 1.6).
    ///
    /// `Malformed` where no front of the bytes is a value of a depth of at most 64, or where it is the null.
    /// `OutOfMemory` where memory was refused.
    pub fn read(bytes: Bytes) -> Result<(Raw, Bytes), ReadError>
        ensures { ReadsFront SpellsRaw bytes result }
    {
        Raw::front(bytes)
    }

    /// The raw value that these bytes are. None where they are not exactly one value of a depth of at most 64, or are the null. Takes no
    /// memory.
    pub fn of_bytes(bytes: Bytes) -> Option<Raw>
        ensures { MakesRaw bytes result }
    {
        if is_raw(bytes.as_slice()) {
            Some(Raw { bytes })
        } else {
            None
        }
    }

    /// The outcome accepted (part 3, section 3.4.2). Takes no memory.
    #[tactic(auto, using(crate::proofs::OutcomeLemmas::outcome_is_raw))]
    pub fn accepted() -> Raw
        ensures { result ≡ outcome_text 0x24 }
    {
        Raw {
            bytes: Bytes::from_static(&[
                codes::DESCRIBED,
                codes::SMALL_ULONG,
                codes::ACCEPTED,
                codes::LIST0,
            ]),
        }
    }

    /// The outcome released (part 3, section 3.4.4). Takes no memory.
    #[tactic(auto, using(crate::proofs::OutcomeLemmas::outcome_is_raw))]
    pub fn released() -> Raw
        ensures { result ≡ outcome_text 0x26 }
    {
        Raw {
            bytes: Bytes::from_static(&[
                codes::DESCRIBED,
                codes::SMALL_ULONG,
                codes::RELEASED,
                codes::LIST0,
            ]),
        }
    }

    /// The outcome modified, in which neither field is set (part 3, section 3.4.5): as released, by the standard. Takes no memory.
    #[tactic(auto, using(crate::proofs::OutcomeLemmas::outcome_is_raw))]
    pub fn modified() -> Raw
        ensures { result ≡ outcome_text 0x27 }
    {
        Raw {
            bytes: Bytes::from_static(&[
                codes::DESCRIBED,
                codes::SMALL_ULONG,
                codes::MODIFIED,
                codes::LIST0,
            ]),
        }
    }

    /// The first value and the rest, as `take` gives them.
    fn front(bytes: Bytes) -> Result<(Raw, Bytes), ReadError>
        ensures { Answers (λ x. (x.0, x.1)) result (raw_at bytes) }
    {
        let mut rest = bytes;
        let raw = Raw::take(&mut rest)?;
        Ok((raw, rest))
    }

    /// Cuts the first value off the bytes, and leaves the rest there.
    #[tactic(auto, using(crate::proofs::WalkLemmas::raw_front))]
    fn take(bytes: &mut Bytes) -> Result<Raw, ReadError>
        ensures { Gives (λ v. v) result bytes.new (raw_at bytes.old) }
    {
        let len = raw_len(bytes.as_slice())?;
        let bytes = front_of(bytes, len)?;
        Ok(Raw { bytes })
    }

    /// The bytes of the value, from its constructor to its end.
    pub fn bytes(&self) -> &[u8]
        ensures value { result.now ≡ self.now }
        ensures raw { IsRaw self.now }
    {
        self.bytes.as_slice()
    }

    /// The value, borrowed. Its parts are reached from there.
    pub fn view(&self) -> ValueRef<'_>
        ensures { result ≡ self.now }
    {
        ValueRef::new(self.bytes.as_slice())
    }
}

impl Field for Raw {
    ghost use Rattle.std.specs.Prelude.{ℕ, List};

    ghost Seen = { List ℕ };

    ghost view = { λ v. v };

    ghost at = { raw_at };

    #[tactic(auto, unfolding(crate::specs::Raw::raw_at))]
    #[inline(always)]
    fn never_empty() {}

    #[tactic(auto, using(crate::proofs::WalkLemmas::front_slice, crate::proofs::WalkLemmas::front_short, crate::proofs::WalkLemmas::slice_is, crate::proofs::WalkLemmas::drop_past, crate::proofs::WalkLemmas::raw_inside))]
    #[inline(never)]
    fn read(
        _alloc: Global,
        _code: u8,
        text: &[u8],
        place: &mut usize,
        bytes: &Bytes,
    ) -> Result<Raw, ReadError> {
        let from = *place - 1;
        let (_, rest) = text.split_at(from);
        let end = from + raw_len(rest)?;
        let bytes = part_of(bytes, from, end)?;
        *place = end;
        Ok(Raw { bytes })
    }
}

/// How long the first value of the bytes is. `Malformed` where no front of them is one of a depth of at most 64, or where it is the null.
#[tactic(auto, unfolding(crate::specs::Raw::raw_at))]
fn raw_len(bytes: &[u8]) -> Result<usize, ReadError>
    ensures value { IfOk result (λ len. raw_at bytes.now ≡ Some (take len bytes.now, drop len bytes.now)) }
    ensures bound { IfOk result (λ len. len ≤ length bytes.now) }
    ensures malformed { IfErr result (λ e. (e ≡ Malformed) × (raw_at bytes.now ≡ None)) }
{
    let Some(rest) = value_rest(bytes, 64) else {
        return Err(ReadError::Malformed);
    };
    let Some((code, _)) = first(bytes) else {
        return Err(ReadError::Malformed);
    };
    if code == codes::NULL {
        return Err(ReadError::Malformed);
    }
    Ok(bytes.len() - rest.len())
}

/// Whether the bytes are exactly one value, and not the null.
#[tactic(auto, unfolding(crate::specs::Raw::is_raw_text))]
fn is_raw(bytes: &[u8]) -> bool
    ensures { result ≡ is_raw_text bytes.now }
{
    if begins_null(bytes) {
        return false;
    }
    match value_rest(bytes, 64) {
        Some(rest) => rest.is_empty(),
        None => false,
    }
}

/// Whether the first code is that of the null.
fn begins_null(bytes: &[u8]) -> bool
    ensures { result ≡ begins_null bytes.now }
{
    match first(bytes) {
        Some((code, _)) => code == codes::NULL,
        None => false,
    }
}
