//! Binaries and strings.

ghost use Rattle.std.specs.Prelude.{◌≡◌, ◌<◌, ◌≤◌, ◌+◌, ◌^◌, ◌∷◌, ℕ, List, drop, length, string_bytes, IfOk, IfErr};
ghost use Rattle.amqp_values.specs.declared.error.ReadError.TheVariants.{Malformed};
ghost use Rattle.amqp_values.specs.Walking.{IsRegion};
ghost use Rattle.amqp_values.specs.Text.{var_at, binary_at, string_at};

use crate::codes;
use crate::cursor::take_region;
use crate::error::ReadError;
use crate::field::Field;
use amqp_memory::{part_of, text_of};
use bytes::Bytes;
use std::alloc::Global;

/// Where the bytes of a length and that many bytes stand, after the short code or the long one, which was read. The place is after them then.
#[tactic(auto, unfolding(crate::specs::Text::var_at))]
#[inline(always)]
pub(crate) fn variable(
    code: u8,
    text: &[u8],
    at: &mut usize,
    short: u8,
    long: u8,
) -> Result<usize, ReadError>
    requires { at.old ≤ length text.now }
    ensures value { IsRegion text.now at.new result (var_at short long (code ∷ drop at.old text.now)) }
    ensures bound { at.new ≤ length text.now }
    ensures short { IfOk result (λ from. at.new < from + 2 ^ 32) }
    ensures malformed { IfErr result (λ e. e ≡ Malformed) }
{
    if code != short && code != long {
        return Err(ReadError::Malformed);
    }
    take_region(code != short, text, at)
}

impl Field for Bytes {
    ghost Seen = { List ℕ };

    ghost view = { λ b. b };

    ghost at = { binary_at };

    #[tactic(auto, unfolding(crate::specs::Text::binary_at, crate::specs::Text::var_at))]
    #[inline(always)]
    fn never_empty() {}

    #[tactic(auto, using(crate::proofs::WalkLemmas::front_slice, crate::proofs::WalkLemmas::front_short), unfolding(crate::specs::Text::binary_at))]
    #[inline(always)]
    fn read(
        _alloc: Global,
        code: u8,
        text: &[u8],
        place: &mut usize,
        bytes: &Bytes,
    ) -> Result<Bytes, ReadError> {
        let from = variable(code, text, place, codes::BINARY8, codes::BINARY32)?;
        Ok(part_of(bytes, from, *place)?)
    }
}

impl Field for String {
    ghost Seen = { List ℕ };

    ghost view = { λ s. string_bytes s };

    ghost at = { string_at };

    #[tactic(auto, unfolding(crate::specs::Text::string_at, crate::specs::Text::var_at))]
    #[inline(always)]
    fn never_empty() {}

    #[tactic(auto, unfolding(crate::specs::Text::string_at))]
    fn read(
        alloc: Global,
        code: u8,
        text: &[u8],
        place: &mut usize,
        _bytes: &Bytes,
    ) -> Result<String, ReadError> {
        let from = variable(code, text, place, codes::STRING8, codes::STRING32)?;
        match str::from_utf8(&text[from..*place]) {
            Ok(string) => Ok(text_of(alloc, string)?),
            Err(_) => Err(ReadError::Malformed),
        }
    }
}
