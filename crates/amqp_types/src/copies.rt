//! Copies of fields that own memory. A copy says the same as its original.

ghost use Rattle.std.specs.Prelude.{◌≡◌, IfOk, OnErr, string_bytes};
ghost use Rattle.std.specs.Option.{option_map};
ghost use Rattle.amqp_memory.specs.Refusal.{SomeRefused};

use amqp_memory::{text_again, vector_for};
use amqp_values::{Fields, Symbol};
use std::alloc::AllocError;

pub(crate) fn text(text: &Option<String>) -> Result<Option<String>, AllocError>
    ensures copy { IfOk result (λ t. option_map string_bytes t ≡ option_map string_bytes text.now) }
    ensures refused { OnErr result SomeRefused }
{
    match text {
        Some(text) => Ok(Some(text_again(text)?)),
        None => Ok(None),
    }
}

pub(crate) fn fields(fields: &Option<Fields>) -> Result<Option<Fields>, AllocError>
    ensures copy { IfOk result (λ f. f ≡ fields.now) }
    ensures refused { OnErr result SomeRefused }
{
    match fields {
        Some(fields) => Ok(Some(fields.clone()?)),
        None => Ok(None),
    }
}

pub(crate) fn symbols(symbols: &Option<Vec<Symbol>>) -> Result<Option<Vec<Symbol>>, AllocError>
    ensures copy { IfOk result (λ s. option_map (λ v. v.items) s ≡ option_map (λ v. v.items) symbols.now) }
    ensures refused { OnErr result SomeRefused }
{
    match symbols {
        Some(symbols) => Ok(Some(each(symbols)?)),
        None => Ok(None),
    }
}

/// A copy of each symbol, in a list of exactly their number.
fn each(symbols: &Vec<Symbol>) -> Result<Vec<Symbol>, AllocError>
    ensures copy { IfOk result (λ v. v.items ≡ symbols.now.items) }
    ensures refused { OnErr result SomeRefused }
{
    let mut copies = vector_for(*symbols.allocator(), symbols.as_slice(), symbols.len())?;
    for at in 0..symbols.len() {
        let copy = symbols[at].clone()?;
        copies.push_reserved(copy);
    }
    Ok(copies)
}
