//! Symbols: texts of ASCII bytes that name things (AMQP 1.0 part 1, section 1.6.21).

ghost use Rattle.std.specs.Prelude.{◌≡◌, ◌<◌, ◌^◌, ℕ, List, IsSome, IfSome, IfOk, OnErr, ◌↔◌, string_bytes, length, true};
ghost use Rattle.amqp_memory.specs.Refusal.{SomeRefused};
ghost use Rattle.amqp_values.specs.Reading.{Answers};
ghost use Rattle.amqp_values.specs.Text.{symbol_at, is_ascii, IsSymbolText};
ghost use Rattle.amqp_values.specs.Symbols.{symbol_of};

use crate::codes;
use crate::error::ReadError;
use crate::field::Field;
use crate::text::variable;
use amqp_memory::{text_again, text_of};
use bytes::Bytes;
use std::alloc::{AllocError, Global};
use std::marker::Model;

/// A text of bytes up to 7f, at most 4294967295 of them, which is what a symbol can spell.
///
/// ```
/// let text = String::from_str(alloc, "amqp:not-found")?;
/// let condition = Symbol::new(text);       // `None` where a byte is above 7f
/// ```
#[derive(Debug, Drop)]
pub struct Symbol(String);

impl Model for Symbol {
    ghost use Rattle.std.specs.Prelude.{ℕ, List, string_bytes};
    ghost use Rattle.amqp_values.specs.Text.{IsSymbolText};

    ghost Value = { List ℕ };

    ghost view = { λ s. string_bytes s.0 };

    ghost invariant = { λ s. IsSymbolText (string_bytes s.0) };
}

impl Clone for Symbol {
    ghost is_clone = { λ p q. q ≡ p };

    fn clone(&self) -> Result<Symbol, AllocError>
        ensures value { IfOk result (λ q. q ≡ self.now) }
        ensures refused { OnErr result SomeRefused }
    {
        Ok(Symbol(text_again(&self.0)?))
    }
}

pub(crate) fn all_ascii(bytes: &[u8]) -> bool
    ensures { result ≡ is_ascii bytes.now }
{
    bytes.iter().all(|b| *b < 128)
}

impl Symbol {
    /// The symbol of this text, which is moved in; `None` exactly where it has a byte above 7f, or more than
    /// 4294967295 bytes.
    pub fn new(text: String) -> Option<Symbol>
        ensures value { IfSome result (λ s. s ≡ string_bytes text) }
        ensures only { IsSome result ↔ IsSymbolText (string_bytes text) }
    {
        if all_ascii(text.as_bytes()) && text.len() <= u32::MAX as usize {
            Some(Symbol(text))
        } else {
            None
        }
    }

    /// A symbol of bytes that were received, which are copied.
    pub(crate) fn of_bytes(alloc: Global, bytes: &[u8]) -> Result<Symbol, ReadError>
        requires { length bytes.now < 2 ^ 32 }
        ensures { Answers (λ s. s) result (symbol_of bytes.now) }
    {
        if !all_ascii(bytes) {
            return Err(ReadError::Malformed);
        }
        let text = str::from_utf8(bytes).unwrap();
        Ok(Symbol(text_of(alloc, text)?))
    }

    /// The text.
    pub fn as_str(&self) -> &str
        ensures value { result.now ≡ self.now }
        ensures symbol { IsSymbolText self.now }
    {
        self.0.as_str()
    }
}

impl PartialEq for Symbol {
    ghost use Rattle.std.specs.Prelude.{nat_eq};
    ghost use Rattle.std.specs.Cmp.Lexicographic.{pointwise, nat_list_eq_equiv};
    ghost use Rattle.std.specs.Cmp.{partial_equiv_from_equiv};

    ghost eq = { pointwise nat_eq };

    ghost laws = { partial_equiv_from_equiv nat_list_eq_equiv };

    fn eq(&self, other: &Symbol) -> bool {
        self.0 == other.0
    }
}

impl Field for Symbol {
    ghost Seen = { List ℕ };

    ghost view = { λ s. s };

    ghost at = { symbol_at };

    #[tactic(auto, unfolding(crate::specs::Text::symbol_at, crate::specs::Text::var_at))]
    #[inline(always)]
    fn never_empty() {}

    #[tactic(auto, unfolding(crate::specs::Text::symbol_at))]
    fn read(
        alloc: Global,
        code: u8,
        text: &[u8],
        place: &mut usize,
        _bytes: &Bytes,
    ) -> Result<Symbol, ReadError> {
        let from = variable(code, text, place, codes::SYMBOL8, codes::SYMBOL32)?;
        Symbol::of_bytes(alloc, &text[from..*place])
    }
}
