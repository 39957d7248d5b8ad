//! Values of fields, where they stand: binaries, strings and symbols (AMQP 1.0 part 1, sections 1.6.19 to 1.6.21).

ghost use Rattle.std.specs.Prelude.{◌≡◌, ◌≤◌, ◌∷◌, drop, length, IfSome};
ghost use Rattle.amqp_values.specs.Text.{is_ascii, var_at};
ghost use Rattle.amqp_sasl.specs.SaslFrame.{part, IsWithin};
ghost use Rattle.amqp_sasl.specs.Inner.Reading.{Reads, bytes_at};
ghost use Rattle.amqp_sasl.specs.declared.value.FieldType.TheVariants as type;

use crate::cursor::take_region;
use crate::place::Place;
use amqp_values::codes;

/// The type of a field that is read as bytes.
#[derive(Clone, Copy, Debug, PartialEq, Eq)]
pub(crate) enum FieldType {
    Binary,
    String,
    Symbol,
}

/// Whether no byte is above 7f.
pub(crate) fn all_ascii(bytes: &[u8]) -> bool
    ensures { result ≡ is_ascii bytes.now }
{
    bytes.iter().all(|b| *b < 128)
}

/// Where the bytes stand after a length, and after the short code or the long one, which was read.
#[tactic(auto, unfolding(amqp_values::specs::Text::var_at))]
fn variable(code: u8, text: &[u8], at: &mut usize, short: u8, long: u8) -> Option<Place>
    requires { at.old ≤ length text.now }
    ensures value { Reads (part text.now) result (drop at.new text.now) (var_at short long (code ∷ drop at.old text.now)) }
    ensures within { IfSome result (IsWithin (length text.now)) }
    ensures bound { at.new ≤ length text.now }
{
    if code != short && code != long {
        return None;
    }
    take_region(code != short, text, at)
}

/// Where a binary has its bytes, whose code was read.
#[tactic(auto, unfolding(amqp_values::specs::Text::binary_at))]
fn binary(code: u8, text: &[u8], at: &mut usize) -> Option<Place>
    requires { at.old ≤ length text.now }
    ensures value { Reads (part text.now) result (drop at.new text.now) (bytes_at type.Binary (code ∷ drop at.old text.now)) }
    ensures within { IfSome result (IsWithin (length text.now)) }
    ensures bound { at.new ≤ length text.now }
{
    variable(code, text, at, codes::BINARY8, codes::BINARY32)
}

/// Where a string has its bytes, whose code was read.
#[tactic(auto, unfolding(amqp_values::specs::Text::string_at))]
fn string(code: u8, text: &[u8], at: &mut usize) -> Option<Place>
    requires { at.old ≤ length text.now }
    ensures value { Reads (part text.now) result (drop at.new text.now) (bytes_at type.String (code ∷ drop at.old text.now)) }
    ensures within { IfSome result (IsWithin (length text.now)) }
    ensures bound { at.new ≤ length text.now }
{
    let place = variable(code, text, at, codes::STRING8, codes::STRING32)?;
    match str::from_utf8(&text[place.from..place.to]) {
        Ok(_) => Some(place),
        Err(_) => None,
    }
}

/// Where a symbol has its bytes, whose code was read.
#[tactic(auto, unfolding(amqp_values::specs::Text::symbol_at))]
fn symbol(code: u8, text: &[u8], at: &mut usize) -> Option<Place>
    requires { at.old ≤ length text.now }
    ensures value { Reads (part text.now) result (drop at.new text.now) (bytes_at type.Symbol (code ∷ drop at.old text.now)) }
    ensures within { IfSome result (IsWithin (length text.now)) }
    ensures bound { at.new ≤ length text.now }
{
    let place = variable(code, text, at, codes::SYMBOL8, codes::SYMBOL32)?;
    if all_ascii(&text[place.from..place.to]) {
        Some(place)
    } else {
        None
    }
}

/// Where a value of this type has its bytes, whose code was read.
pub(crate) fn value(field_type: FieldType, code: u8, text: &[u8], at: &mut usize) -> Option<Place>
    requires { at.old ≤ length text.now }
    ensures value { Reads (part text.now) result (drop at.new text.now) (bytes_at field_type (code ∷ drop at.old text.now)) }
    ensures within { IfSome result (IsWithin (length text.now)) }
    ensures bound { at.new ≤ length text.now }
{
    match field_type {
        FieldType::Binary => binary(code, text, at),
        FieldType::String => string(code, text, at),
        FieldType::Symbol => symbol(code, text, at),
    }
}
