//! Multiple symbols, written as an array.

ghost use Rattle.std.specs.Prelude.{◌≡◌, ℕ, ◌+◌, ◌*◌, ◌^◌, ◌<◌, ◌≤◌, List, ◌∷◌, [], ◌++◌, length, map, Bool, true, false, nat_lt};
ghost use Rattle.amqp_values.specs.Reading.{joined};
ghost use Rattle.amqp_values.specs.Writing.{number_text, item_text, is_long, run_text, is_wide, symbols_body, symbols_text};

use crate::codes;
use crate::symbol::Symbol;
use bytes::BytesMut;

/// How an array of symbols is laid out.
#[derive(Clone, Copy)]
struct Layout {
    /// Each item's length has four bytes.
    long: bool,
    /// The size and the count have four bytes each.
    wide: bool,
    /// The length of all after the count.
    body: u128,
}

fn is_short(symbol: &Symbol) -> bool
    ensures { result ≡ nat_lt (length symbol.now) 256 }
{
    symbol.as_str().len() < 256
}

fn is_long(items: &[Symbol]) -> bool
    ensures { result ≡ is_long items.now }
{
    for symbol in items {
        if !is_short(symbol) {
            return true;
        }
    }
    false
}

fn item_len(long: bool, symbol: &Symbol) -> u128
    ensures value { result ≡ length (item_text long symbol.now) }
    ensures small { result < 2 ^ 33 }
{
    let len = symbol.as_str().len() as u128;
    if long { len + 4 } else { len + 1 }
}

fn run_len(long: bool, items: &[Symbol]) -> u128
    ensures value { result ≡ length (run_text long items.now) }
    ensures small { result ≤ 2 ^ 33 * length items.now }
{
    let mut total: u128 = 0;
    for symbol in items {
        total += item_len(long, symbol);
    }
    total
}

fn layout_of(items: &[Symbol]) -> Layout
    ensures long { result.long ≡ is_long items.now }
    ensures body { result.body ≡ length (symbols_body (is_long items.now) items.now) }
    ensures wide { result.wide ≡ is_wide (length items.now) result.body }
    ensures small { result.body ≤ 2 ^ 98 }
{
    let long = is_long(items);
    let body = run_len(long, items) + 1;
    let wide = !(body < 255 && items.len() < 256);
    Layout { long, wide, body }
}

/// The length of the array of these symbols.
#[tactic(auto, unfolding(crate::specs::Writing::symbols_text))]
pub(crate) fn symbols_len(items: &[Symbol]) -> u128
    ensures value { result ≡ length (symbols_text items.now) }
    ensures small { result ≤ 2 ^ 99 }
{
    let layout = layout_of(items);
    if layout.wide {
        layout.body + 9
    } else {
        layout.body + 3
    }
}

fn put_number(out: &mut BytesMut, wide: bool, n: u32)
    requires room { length (number_text wide n) ≤ out.old.spare }
    requires narrow { wide ≡ false → n < 256 }
    ensures items { out.new.items ≡ out.old.items ++ number_text wide n }
    ensures spare { out.new.spare + length (number_text wide n) ≡ out.old.spare }
{
    if wide {
        out.extend_reserved(&n.to_be_bytes());
    } else {
        out.extend_reserved(&[n as u8]);
    }
}

fn put_item(out: &mut BytesMut, long: bool, symbol: &Symbol)
    requires room { length (item_text long symbol.now) ≤ out.old.spare }
    requires short { long ≡ false → length symbol.now < 256 }
    ensures items { out.new.items ≡ out.old.items ++ item_text long symbol.now }
    ensures spare { out.new.spare + length (item_text long symbol.now) ≡ out.old.spare }
{
    let text = symbol.as_str().as_bytes();
    put_number(out, long, text.len() as u32);
    out.extend_reserved(text);
}

fn put_run(out: &mut BytesMut, long: bool, items: &[Symbol])
    requires room { length (run_text long items.now) ≤ out.old.spare }
    requires short { long ≡ is_long items.now }
    ensures items { out.new.items ≡ out.old.items ++ run_text long items.now }
    ensures spare { out.new.spare + length (run_text long items.now) ≡ out.old.spare }
{
    for symbol in items {
        put_item(out, long, symbol);
    }
}

/// Appends the array of these symbols.
#[tactic(auto, unfolding(crate::specs::Writing::symbols_text))]
pub(crate) fn put_symbols(out: &mut BytesMut, items: &[Symbol])
    requires room { length (symbols_text items.now) ≤ out.old.spare }
    requires fits { length (symbols_text items.now) < 2 ^ 32 }
    ensures items { out.new.items ≡ out.old.items ++ symbols_text items.now }
    ensures spare { out.new.spare + length (symbols_text items.now) ≡ out.old.spare }
{
    let layout = layout_of(items);
    let count = items.len() as u32;
    let head = if layout.wide { 4 } else { 1 };
    out.extend_reserved(&[if layout.wide {
        codes::ARRAY32
    } else {
        codes::ARRAY8
    }]);
    put_number(out, layout.wide, layout.body as u32 + head);
    put_number(out, layout.wide, count);
    out.extend_reserved(&[if layout.long {
        codes::SYMBOL32
    } else {
        codes::SYMBOL8
    }]);
    put_run(out, layout.long, items);
}
