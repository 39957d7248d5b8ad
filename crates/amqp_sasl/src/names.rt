//! Names of mechanisms: one symbol, or an array of symbols (AMQP 1.0 part 5, section 5.3.3.1).

ghost use Rattle.std.specs.Prelude.{◌≡◌, ◌≤◌, ◌<◌, ◌∷◌, drop, length, IfSome};
ghost use Rattle.std.specs.Option.{option_map};
ghost use Rattle.amqp_values.specs.Symbols.{item_at, run_at};
ghost use Rattle.amqp_sasl.specs.SaslFrame.{part, names_in, has_name, IsWithin};
ghost use Rattle.amqp_sasl.specs.Inner.Reading.{Reads, counted_names_at, array_names_at, alone_name_at, names_at, searched};

use crate::cursor::{take_byte, take_count, take_region};
use crate::place::Place;
use crate::value::all_ascii;
use amqp_values::codes;

/// Where a symbol without its constructor has its bytes.
#[tactic(auto, unfolding(amqp_values::specs::Symbols::item_at))]
fn item(long: bool, text: &[u8], at: &mut usize) -> Option<Place>
    requires { at.old ≤ length text.now }
    ensures value { Reads (part text.now) result (drop at.new text.now) (item_at long (drop at.old text.now)) }
    ensures within { IfSome result (IsWithin (length text.now)) }
    ensures bound { at.new ≤ length text.now }
{
    let place = take_region(long, text, at)?;
    if all_ascii(&text[place.from..place.to]) {
        Some(place)
    } else {
        None
    }
}

/// Whether one of `count` symbols, which have to fill the bytes from a place on, is this name.
fn search_run(count: u32, long: bool, text: &[u8], from: usize, name: &[u8]) -> Option<bool>
    requires { from ≤ length text.now }
    ensures { result ≡ option_map (has_name name.now) (run_at count long (drop from text.now)) }
{
    let mut at = from;
    let mut found = false;
    for _ in 0..count {
        let place = match item(long, text, &mut at) {
            Some(place) => place,
            None => return None,
        };
        found |= &text[place.from..place.to] == name;
    }
    if at == text.len() { Some(found) } else { None }
}

/// Whether one of `count` symbols is this name, of which there has to be one or more: they are the region of an array after its count.
#[tactic(auto, unfolding(amqp_values::specs::Symbols::all_at))]
fn search_all(count: u32, text: &[u8], from: usize, name: &[u8]) -> Option<bool>
    requires { from ≤ length text.now }
    ensures { result ≡ option_map (has_name name.now) (counted_names_at count (drop from text.now)) }
{
    let mut at = from;
    match take_byte(text, &mut at) {
        _ if count == 0 => None,
        Some(codes::SYMBOL8) => search_run(count, false, text, at, name),
        Some(codes::SYMBOL32) => search_run(count, true, text, at, name),
        _ => None,
    }
}

/// Whether an array of symbols, whose code was read, has this name.
#[tactic(auto, unfolding(amqp_values::specs::Symbols::array_at))]
fn search_array(wide: bool, text: &[u8], at: &mut usize, name: &[u8]) -> Option<bool>
    requires { at.old ≤ length text.now }
    ensures value { Reads (λ x. x) result (drop at.new text.now) (searched name.now (array_names_at wide (drop at.old text.now))) }
    ensures bound { at.new ≤ length text.now }
{
    let place = take_region(wide, text, at)?;
    let region = &text[place.from..place.to];
    let mut from = 0;
    let count = take_count(wide, region, &mut from)?;
    search_all(count, region, from, name)
}

/// Whether the one symbol, whose code was read, is this name.
fn search_alone(long: bool, text: &[u8], at: &mut usize, name: &[u8]) -> Option<bool>
    requires { at.old ≤ length text.now }
    ensures value { Reads (λ x. x) result (drop at.new text.now) (searched name.now (alone_name_at long (drop at.old text.now))) }
    ensures bound { at.new ≤ length text.now }
{
    let place = item(long, text, at)?;
    Some(&text[place.from..place.to] == name)
}

/// Whether one symbol or more, whose code was read, have this name.
#[tactic(auto, unfolding(amqp_values::specs::Symbols::symbols_at, crate::specs::Inner::Reading::names_at))]
pub(crate) fn search_names(code: u8, text: &[u8], at: &mut usize, name: &[u8]) -> Option<bool>
    requires { at.old ≤ length text.now }
    ensures value { Reads (λ x. x) result (drop at.new text.now) (searched name.now (names_at (code ∷ drop at.old text.now))) }
    ensures bound { at.new ≤ length text.now }
{
    match code {
        codes::SYMBOL8 => search_alone(false, text, at, name),
        codes::SYMBOL32 => search_alone(true, text, at, name),
        codes::ARRAY8 => search_array(false, text, at, name),
        codes::ARRAY32 => search_array(true, text, at, name),
        _ => None,
    }
}

/// Whether a server offers this mechanism: `names` are the bytes at the place of [`Body::Mechanisms`](crate::Body::Mechanisms). False
/// where they spell no symbols.
pub fn is_offered(names: &[u8], name: &[u8]) -> bool
    ensures { result ≡ has_name name.now (names_in names.now) }
{
    let mut at = 0;
    match take_byte(names, &mut at) {
        Some(code) => match search_names(code, names, &mut at, name) {
            Some(found) => found,
            None => false,
        },
        None => false,
    }
}
