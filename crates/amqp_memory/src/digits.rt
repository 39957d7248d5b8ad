//! Requests for hexadecimal digits and the bytes that they spell.

ghost use Rattle.std.specs.Prelude.{◌≡◌, ◌⊎◌, ◌%◌, length, string_bytes, Ok, Err, OnErr, IfOk, IfErr};
ghost use Rattle.hex.specs.Hex.{decode_of, encode_lower};
ghost use Rattle.hex.specs.declared.FromHexError.TheVariants.{OddLength, OutOfMemory};
ghost use Rattle.amqp_memory.specs.Refusal.{SomeRefused};

use hex::FromHexError;
use std::alloc::{AllocError, Global};

/// The digits of bytes, in lower case.
#[inline(always)]
#[tactic(auto, unfolding(crate::specs::Refusal::WasRefused))]
pub fn digits_of(alloc: Global, bytes: &[u8]) -> Result<String, AllocError>
    ensures ok { IfOk result (λ text. string_bytes text ≡ encode_lower bytes.now) }
    ensures refused { OnErr result SomeRefused }
{
    hex::encode(alloc, bytes)
}

/// The bytes that digits of either case spell.
#[inline(always)]
#[tactic(auto, unfolding(crate::specs::Refusal::WasRefused))]
pub fn spelled_by(alloc: Global, digits: &str) -> Result<Vec<u8>, FromHexError>
    ensures ok { IfOk result (λ bytes. decode_of digits.now ≡ Ok bytes.items) }
    ensures err { IfErr result (λ e. (e ≡ OutOfMemory) ⊎ (decode_of digits.now ≡ Err e)) }
    ensures odd { length digits.now % 2 ≡ 1 → result ≡ Err OddLength }
    ensures refused { IfErr result (λ e. e ≡ OutOfMemory → SomeRefused) }
{
    hex::decode(alloc, digits)
}
