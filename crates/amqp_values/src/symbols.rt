//! Multiple symbols: a field that holds one symbol or an array of them. An array is walked and its symbols are counted before
//! memory is asked for.

ghost use Rattle.std.specs.Prelude.{◌≡◌, ◌≤◌, ◌∷◌, ℕ, List, drop, length, is_some, IsSome, IfOk, IfErr, vec_capacity, vec_len};
ghost use Rattle.std.specs.Option.{option_map};
ghost use Rattle.amqp_values.specs.declared.error.ReadError.TheVariants.{OutOfMemory};
ghost use Rattle.amqp_values.specs.Reading.{Answers, Gives};
ghost use Rattle.amqp_values.specs.Symbols.{item_at, run_at, all_at, array_at, alone_at, symbols_at};

use crate::codes;
use crate::cursor::take_region;
use crate::error::ReadError;
use crate::field::Field;
use crate::symbol::{Symbol, all_ascii};
use crate::walk::{count, region};
use amqp_memory::vector_with;
use bytes::Bytes;
use std::alloc::Global;

/// One symbol without its constructor.
#[tactic(auto, unfolding(crate::specs::Symbols::item_at))]
fn item(alloc: Global, long: bool, text: &[u8], at: &mut usize) -> Result<Symbol, ReadError>
    requires { at.old ≤ length text.now }
    ensures value { Gives (λ s. s) result (drop at.new text.now) (item_at long (drop at.old text.now)) }
    ensures bound { at.new ≤ length text.now }
{
    let from = take_region(long, text, at)?;
    Symbol::of_bytes(alloc, &text[from..*at])
}

/// The text of one symbol without its constructor, and the rest. Takes no memory.
#[tactic(auto, unfolding(crate::specs::Symbols::item_at))]
fn item_text(long: bool, bytes: &[u8]) -> Option<(&[u8], &[u8])>
    ensures { option_map (λ x. (x.0.now, x.1.now)) result ≡ item_at long bytes.now }
{
    let (text, rest) = region(long, bytes)?;
    if all_ascii(text) {
        Some((text, rest))
    } else {
        None
    }
}

/// Whether the bytes are `count` symbols, and nothing after them. Takes no memory.
fn is_run(count: u32, long: bool, bytes: &[u8]) -> bool
    ensures { result ≡ is_some (run_at count long bytes.now) }
{
    let mut rest = bytes;
    for _ in 0..count {
        match item_text(long, rest) {
            Some((_, after)) => rest = after,
            None => return false,
        }
    }
    rest.is_empty()
}

/// The `count` symbols that the bytes are, in a list that is asked for once.
fn fill(alloc: Global, count: u32, long: bool, bytes: &[u8]) -> Result<Vec<Symbol>, ReadError>
    requires { IsSome (run_at count long bytes.now) }
    ensures value { Answers (λ v. v.items) result (run_at count long bytes.now) }
    ensures exact { IfOk result (λ v. vec_capacity v ≡ vec_len v) }
{
    let mut items = vector_with(alloc, count as usize)?;
    let mut at = 0;
    for _ in 0..count {
        let symbol = match item(alloc, long, bytes, &mut at) {
            Ok(symbol) => symbol,
            Err(e) => return Err(e),
        };
        items.push_reserved(symbol);
    }
    Ok(items)
}

/// Reads `count` symbols, which have to fill the bytes. The count may be wrong, so they are counted before memory is asked for.
fn run(alloc: Global, count: u32, long: bool, bytes: &[u8]) -> Result<Vec<Symbol>, ReadError>
    ensures value { Answers (λ v. v.items) result (run_at count long bytes.now) }
    ensures exact { IfOk result (λ v. vec_capacity v ≡ vec_len v) }
    ensures counted { IfErr result (λ e. e ≡ OutOfMemory → IsSome (run_at count long bytes.now)) }
{
    if !is_run(count, long, bytes) {
        return Err(ReadError::Malformed);
    }
    fill(alloc, count, long, bytes)
}

/// Reads the region of an array after its count.
#[tactic(auto, unfolding(crate::specs::Symbols::all_at))]
fn all(alloc: Global, count: u32, bytes: &[u8]) -> Result<Vec<Symbol>, ReadError>
    ensures value { Answers (λ v. v.items) result (all_at count bytes.now) }
    ensures exact { IfOk result (λ v. vec_capacity v ≡ vec_len v) }
{
    match bytes {
        [] if count == 0 => Ok(Vec::new(alloc)),
        [codes::SYMBOL8, items @ ..] => run(alloc, count, false, items),
        [codes::SYMBOL32, items @ ..] => run(alloc, count, true, items),
        _ => Err(ReadError::Malformed),
    }
}

#[tactic(auto, unfolding(crate::specs::Symbols::array_at))]
fn array(alloc: Global, wide: bool, text: &[u8], at: &mut usize) -> Result<Vec<Symbol>, ReadError>
    requires { at.old ≤ length text.now }
    ensures value { Gives (λ v. v.items) result (drop at.new text.now) (array_at wide (drop at.old text.now)) }
    ensures bound { at.new ≤ length text.now }
    ensures exact { IfOk result (λ v. vec_capacity v ≡ vec_len v) }
{
    let from = take_region(wide, text, at)?;
    match count(wide, &text[from..*at]) {
        Some((count, items)) => all(alloc, count, items),
        None => Err(ReadError::Malformed),
    }
}

fn alone(alloc: Global, long: bool, text: &[u8], at: &mut usize) -> Result<Vec<Symbol>, ReadError>
    requires { at.old ≤ length text.now }
    ensures value { Gives (λ v. v.items) result (drop at.new text.now) (alone_at long (drop at.old text.now)) }
    ensures bound { at.new ≤ length text.now }
    ensures exact { IfOk result (λ v. vec_capacity v ≡ vec_len v) }
{
    let symbol = item(alloc, long, text, at)?;
    let mut items = vector_with(alloc, 1)?;
    items.push_reserved(symbol);
    Ok(items)
}

impl Field for Vec<Symbol> {
    ghost Seen = { List (List ℕ) };

    ghost view = { λ v. v.items };

    ghost at = { symbols_at };

    #[tactic(auto, unfolding(crate::specs::Symbols::symbols_at))]
    #[inline(always)]
    fn never_empty() {}

    /// Asks for a list of exactly as many symbols as there are, and for the text of each that is not empty. For an array
    /// whose size, count, lengths or texts are wrong nothing is asked for.
    #[tactic(auto, unfolding(crate::specs::Symbols::symbols_at))]
    fn read(
        alloc: Global,
        code: u8,
        text: &[u8],
        place: &mut usize,
        _bytes: &Bytes,
    ) -> Result<Vec<Symbol>, ReadError>
        requires { place.old ≤ length text.now }
        ensures value { Gives (λ v. v.items) result (drop place.new text.now) (symbols_at (code ∷ drop place.old text.now)) }
        ensures bound { place.new ≤ length text.now }
        ensures exact { IfOk result (λ v. vec_capacity v ≡ vec_len v) }
    {
        match code {
            codes::SYMBOL8 => alone(alloc, false, text, place),
            codes::SYMBOL32 => alone(alloc, true, text, place),
            codes::ARRAY8 => array(alloc, false, text, place),
            codes::ARRAY32 => array(alloc, true, text, place),
            _ => Err(ReadError::Malformed),
        }
    }
}
