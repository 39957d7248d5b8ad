//! Fields: what stands in a part of a list, read in every spelling of its type.

ghost use Rattle.std.specs.Prelude.{◌≡◌, ◌<◌, ◌≤◌, ◌-◌, ◌∷◌, [], ℕ, List, Option, None, Bool, take, drop, length, IfErr};
ghost use Rattle.amqp_values.specs.declared.error.ReadError.TheVariants.{Malformed};
ghost use Rattle.amqp_values.specs.Reading.{Gives};
ghost use Rattle.amqp_values.specs.Number.{ubyte_at, ushort_at, uint_at, ulong_at, boolean_at};

use crate::codes;
use crate::cursor::{take_byte, take_u16, take_u32, take_u64};
use crate::error::ReadError;
use bytes::Bytes;
use std::alloc::Global;

/// A type that a part of a list may have (AMQP 1.0 part 1, section 1.6).
pub trait Field: Drop {
    ghost Seen: { Type 0 };

    ghost view: { Self → Seen };

    ghost at: { List ℕ → Option (Seen × List ℕ) };

    /// That every value of the type has a code.
    fn never_empty()
        ensures { at [] ≡ None };

    /// Reads the value whose code this is, in any spelling of its type. The place is behind the code, and then behind the value. The text is
    /// the front of the bytes, of which what is kept is cut. `Malformed` where no value of the type stands there, `OutOfMemory`
    /// where memory for a text or a cut is refused. After an error the place is of no use.
    fn read(
        alloc: Global,
        code: u8,
        text: &[u8],
        place: &mut usize,
        bytes: &Bytes,
    ) -> Result<Self, ReadError>
        requires inside { place.old ≤ length text.now }
        requires behind { 0 < place.old }
        requires coded { drop (place.old - 1) text.now ≡ code ∷ drop place.old text.now }
        requires front { text.now ≡ take (length text.now) bytes.now }
        ensures value { Gives view result (drop place.new text.now) (at (code ∷ drop place.old text.now)) }
        ensures bound { place.new ≤ length text.now };
}

impl Field for u8 {
    ghost Seen = { ℕ };

    ghost view = { λ x. x };

    ghost at = { ubyte_at };

    #[tactic(auto, unfolding(crate::specs::Number::ubyte_at))]
    #[inline(always)]
    fn never_empty() {}

    #[tactic(auto, unfolding(crate::specs::Number::ubyte_at))]
    #[inline(always)]
    fn read(
        _alloc: Global,
        code: u8,
        text: &[u8],
        place: &mut usize,
        _bytes: &Bytes,
    ) -> Result<u8, ReadError>
        requires { place.old ≤ length text.now }
        ensures value { Gives (λ x. x) result (drop place.new text.now) (ubyte_at (code ∷ drop place.old text.now)) }
        ensures bound { place.new ≤ length text.now }
        ensures malformed { IfErr result (λ e. e ≡ Malformed) }
    {
        match code {
            codes::UBYTE => take_byte(text, place),
            _ => Err(ReadError::Malformed),
        }
    }
}

impl Field for u16 {
    ghost Seen = { ℕ };

    ghost view = { λ x. x };

    ghost at = { ushort_at };

    #[tactic(auto, unfolding(crate::specs::Number::ushort_at))]
    #[inline(always)]
    fn never_empty() {}

    #[tactic(auto, unfolding(crate::specs::Number::ushort_at))]
    #[inline(always)]
    fn read(
        _alloc: Global,
        code: u8,
        text: &[u8],
        place: &mut usize,
        _bytes: &Bytes,
    ) -> Result<u16, ReadError>
        requires { place.old ≤ length text.now }
        ensures value { Gives (λ x. x) result (drop place.new text.now) (ushort_at (code ∷ drop place.old text.now)) }
        ensures bound { place.new ≤ length text.now }
        ensures malformed { IfErr result (λ e. e ≡ Malformed) }
    {
        match code {
            codes::USHORT => take_u16(text, place),
            _ => Err(ReadError::Malformed),
        }
    }
}

impl Field for u32 {
    ghost Seen = { ℕ };

    ghost view = { λ x. x };

    ghost at = { uint_at };

    #[tactic(auto, unfolding(crate::specs::Number::uint_at))]
    #[inline(always)]
    fn never_empty() {}

    #[tactic(auto, unfolding(crate::specs::Number::uint_at))]
    #[inline(always)]
    fn read(
        _alloc: Global,
        code: u8,
        text: &[u8],
        place: &mut usize,
        _bytes: &Bytes,
    ) -> Result<u32, ReadError>
        requires { place.old ≤ length text.now }
        ensures value { Gives (λ x. x) result (drop place.new text.now) (uint_at (code ∷ drop place.old text.now)) }
        ensures bound { place.new ≤ length text.now }
        ensures malformed { IfErr result (λ e. e ≡ Malformed) }
    {
        match code {
            codes::UINT0 => Ok(0),
            codes::SMALL_UINT => match take_byte(text, place) {
                Ok(byte) => Ok(u32::from(byte)),
                Err(error) => Err(error),
            },
            codes::UINT => take_u32(text, place),
            _ => Err(ReadError::Malformed),
        }
    }
}

impl Field for u64 {
    ghost Seen = { ℕ };

    ghost view = { λ x. x };

    ghost at = { ulong_at };

    #[tactic(auto, unfolding(crate::specs::Number::ulong_at))]
    #[inline(always)]
    fn never_empty() {}

    #[tactic(auto, unfolding(crate::specs::Number::ulong_at))]
    #[inline(always)]
    fn read(
        _alloc: Global,
        code: u8,
        text: &[u8],
        place: &mut usize,
        _bytes: &Bytes,
    ) -> Result<u64, ReadError>
        requires { place.old ≤ length text.now }
        ensures value { Gives (λ x. x) result (drop place.new text.now) (ulong_at (code ∷ drop place.old text.now)) }
        ensures bound { place.new ≤ length text.now }
        ensures malformed { IfErr result (λ e. e ≡ Malformed) }
    {
        match code {
            codes::ULONG0 => Ok(0),
            codes::SMALL_ULONG => match take_byte(text, place) {
                Ok(byte) => Ok(u64::from(byte)),
                Err(error) => Err(error),
            },
            codes::ULONG => take_u64(text, place),
            _ => Err(ReadError::Malformed),
        }
    }
}

impl Field for bool {
    ghost Seen = { Bool };

    ghost view = { λ x. x };

    ghost at = { boolean_at };

    #[tactic(auto, unfolding(crate::specs::Number::boolean_at))]
    #[inline(always)]
    fn never_empty() {}

    #[tactic(auto, unfolding(crate::specs::Number::boolean_at))]
    #[inline(always)]
    fn read(
        _alloc: Global,
        code: u8,
        text: &[u8],
        place: &mut usize,
        _bytes: &Bytes,
    ) -> Result<bool, ReadError>
        requires { place.old ≤ length text.now }
        ensures value { Gives (λ x. x) result (drop place.new text.now) (boolean_at (code ∷ drop place.old text.now)) }
        ensures bound { place.new ≤ length text.now }
        ensures malformed { IfErr result (λ e. e ≡ Malformed) }
    {
        match code {
            codes::TRUE => Ok(true),
            codes::FALSE => Ok(false),
            codes::BOOLEAN => match take_byte(text, place) {
                Ok(0) => Ok(false),
                Ok(1) => Ok(true),
                _ => Err(ReadError::Malformed),
            },
            _ => Err(ReadError::Malformed),
        }
    }
}
