//! Walking over one value: where it ends, if its depth keeps a limit (AMQP 1.0 part 1, section 1.6).

ghost use Rattle.std.specs.Prelude.{◌≡◌, ◌<◌, length};
ghost use Rattle.std.specs.Option.{option_map};
ghost use Rattle.amqp_values.specs.Reading.{byte_at, count_at, cut_at, region_at};
ghost use Rattle.amqp_values.specs.Walk.{compound_of, constructor_of, data_of, elements_of, inside};
ghost use Rattle.amqp_values.specs.Walk.{is_dataless, level, may_hold, repeat, run_of, under};
ghost use Rattle.amqp_values.specs.Walk.{value_at, value_of};

use crate::codes;
use crate::format_class::{FormatClass, class_at};

/// A length or a count of one byte, or of four, and the rest.
pub(crate) fn count(wide: bool, bytes: &[u8]) -> Option<(u32, &[u8])>
    ensures { option_map (λ x. (x.0, x.1.now)) result ≡ count_at wide bytes.now }
{
    if wide {
        if bytes.len() < 4 {
            return None;
        }
        let (front, rest) = bytes.split_at(4);
        let count = u32::from_be_bytes([front[0], front[1], front[2], front[3]]);
        Some((count, rest))
    } else {
        match bytes {
            [] => None,
            [first, rest @ ..] => Some((u32::from(*first), rest)),
        }
    }
}

/// The first byte, and the rest.
pub(crate) fn first(bytes: &[u8]) -> Option<(u8, &[u8])>
    ensures { option_map (λ x. (x.0, x.1.now)) result ≡ byte_at bytes.now }
{
    match bytes {
        [] => None,
        [first, rest @ ..] => Some((*first, rest)),
    }
}

/// The first `len` bytes, and the rest.
#[tactic(auto, unfolding(crate::specs::Reading::cut_at))]
fn cut(len: usize, bytes: &[u8]) -> Option<(&[u8], &[u8])>
    ensures { option_map (λ x. (x.0.now, x.1.now)) result ≡ cut_at len bytes.now }
{
    if bytes.len() < len {
        None
    } else {
        Some(bytes.split_at(len))
    }
}

/// A length, that many bytes, and the rest.
#[tactic(auto, unfolding(crate::specs::Reading::region_at))]
pub(crate) fn region(wide: bool, bytes: &[u8]) -> Option<(&[u8], &[u8])>
    ensures { option_map (λ x. (x.0.now, x.1.now)) result ≡ region_at wide bytes.now }
{
    let (len, rest) = count(wide, bytes)?;
    cut(len as usize, rest)
}

/// The bytes after the first value, if its depth is at most `depth`.
#[cycle(walk)]
#[tactic(auto, unfolding(crate::specs::Walk::value_of))]
fn value(bytes: &[u8], depth: u8) -> Option<&[u8]>
    ensures { option_map (λ r. r.now) result ≡ value_of (under depth) bytes.now }
{
    let (code, rest) = first(bytes)?;
    if code != 0 {
        return data(class_at(code), rest, depth);
    }
    if depth == 0 {
        return None;
    }
    let rest = value(rest, depth - 1)?;
    value(rest, depth - 1)
}

/// The bytes after the data of one value of this class.
#[cycle(walk)]
#[tactic(auto, unfolding(crate::specs::Walk::data_of))]
fn data(class: FormatClass, bytes: &[u8], depth: u8) -> Option<&[u8]>
    ensures { option_map (λ r. r.now) result ≡ data_of (under depth) class bytes.now }
{
    match class {
        FormatClass::Fixed(n) => {
            let (_, rest) = cut(n, bytes)?;
            Some(rest)
        }
        FormatClass::Flag => match bytes {
            [0 | 1, rest @ ..] => Some(rest),
            _ => None,
        },
        FormatClass::Variable(wide) => {
            let (_, rest) = region(wide, bytes)?;
            Some(rest)
        }
        FormatClass::List0 if depth == 0 => None,
        FormatClass::List0 => Some(bytes),
        FormatClass::List(wide) | FormatClass::Map(wide) | FormatClass::Array(wide) => compound(
            class, wide, bytes, depth,
        ),
        FormatClass::Unknown => None,
    }
}

/// The bytes after a size, a count and the parts or elements, which have to fill the size exactly.
#[cycle(walk)]
#[tactic(auto, unfolding(crate::specs::Walk::inside))]
fn compound(class: FormatClass, wide: bool, bytes: &[u8], depth: u8) -> Option<&[u8]>
    ensures { option_map (λ r. r.now) result ≡ compound_of (under depth) class wide bytes.now }
{
    if depth == 0 {
        return None;
    }
    let below = depth - 1;
    let (region, rest) = region(wide, bytes)?;
    let (count, inner) = count(wide, region)?;
    let left = inside(class, count, inner, below)?;
    if left.is_empty() { Some(rest) } else { None }
}

/// What is left of a region after its count.
#[cycle(walk)]
#[tactic(auto, unfolding(crate::specs::Walk::inside))]
fn inside(class: FormatClass, count: u32, bytes: &[u8], depth: u8) -> Option<&[u8]>
    ensures { option_map (λ r. r.now) result ≡ inside (level depth) class count bytes.now }
{
    match class {
        FormatClass::List(_) => values(count, bytes, depth),
        FormatClass::Map(_) if count % 2 == 0 => values(count, bytes, depth),
        FormatClass::Array(_) if count > 0 => elements(count, bytes, depth),
        FormatClass::Array(_) if bytes.is_empty() => Some(bytes),
        FormatClass::Array(_) => constructor(bytes, depth),
        _ => None,
    }
}

/// The bytes after so many values.
#[cycle(walk)]
fn values(count: u32, bytes: &[u8], depth: u8) -> Option<&[u8]>
    ensures { option_map (λ r. r.now) result ≡ repeat count (value_of (under depth)) bytes.now }
{
    let mut rest = bytes;
    for _ in 0..count {
        rest = value(rest, depth)?;
    }
    Some(rest)
}

/// The bytes after the elements of an array: one constructor, and their data.
#[cycle(walk)]
#[tactic(auto, unfolding(crate::specs::Walk::elements_of))]
fn elements(count: u32, bytes: &[u8], depth: u8) -> Option<&[u8]>
    requires { 0 < count }
    ensures { option_map (λ r. r.now) result ≡ elements_of (under depth) count bytes.now }
{
    let (code, rest) = first(bytes)?;
    if code != 0 {
        return run(class_at(code), count, rest, depth);
    }
    if depth == 0 {
        return None;
    }
    let rest = value(rest, depth - 1)?;
    elements(count, rest, depth - 1)
}

/// The bytes after the constructor of an array with no elements. Its descriptors stand after one another, on one level.
#[cycle(walk)]
fn constructor(bytes: &[u8], depth: u8) -> Option<&[u8]>
    ensures { option_map (λ r. r.now) result ≡ constructor_of (under depth) (length bytes.now) bytes.now }
{
    let mut rest = bytes;
    for _ in 0..bytes.len() {
        let (code, after) = first(rest)?;
        if code != 0 {
            return if may_hold(class_at(code), depth) {
                Some(after)
            } else {
                None
            };
        }
        if depth == 0 {
            return None;
        }
        rest = value(after, depth)?;
    }
    None
}

/// The bytes after so many data of one class. Data of no bytes are looked at once, however many there are.
#[cycle(walk)]
fn run(class: FormatClass, count: u32, bytes: &[u8], depth: u8) -> Option<&[u8]>
    requires { 0 < count }
    ensures { option_map (λ r. r.now) result ≡ run_of (under depth) class count bytes.now }
{
    if is_dataless(class) {
        return data(class, bytes, depth);
    }
    let mut rest = bytes;
    for _ in 0..count {
        rest = data(class, rest, depth)?;
    }
    Some(rest)
}

/// Whether an array may have a constructor of this kind and no element, where so much depth is left.
#[tactic(auto, using(crate::proofs::DepthBoundLemmas::under_some, crate::proofs::DepthBoundLemmas::under_none, crate::proofs::DepthBoundLemmas::under_more))]
fn may_hold(class: FormatClass, depth: u8) -> bool
    ensures { result ≡ may_hold (under depth) class }
{
    match class {
        FormatClass::Fixed(_) | FormatClass::Flag | FormatClass::Variable(_) | FormatClass::List0 =>
            true,
        FormatClass::List(_) | FormatClass::Map(_) | FormatClass::Array(_) => depth > 0,
        FormatClass::Unknown => false,
    }
}

/// The bytes after the first value, if its depth is at most `depth`. `None` where no front of the bytes is such a
/// value.
#[tactic(auto, using(crate::proofs::SmallDescribedLemmas::bare_is_read), unfolding(crate::specs::Walk::value_at))]
#[inline(always)]
pub(crate) fn value_rest(bytes: &[u8], depth: u8) -> Option<&[u8]>
    ensures { option_map (λ r. r.now) result ≡ value_at depth bytes.now }
{
    match bytes {
        // an outcome without fields, as `accepted`: what most values are that come here
        [0, codes::SMALL_ULONG, _, codes::LIST0, rest @ ..] if depth > 1 => Some(rest),
        _ => value(bytes, depth),
    }
}

/// Whether the data of this kind have no bytes.
fn is_dataless(class: FormatClass) -> bool
    ensures { result ≡ is_dataless class }
{
    match class {
        FormatClass::Fixed(n) => n == 0,
        FormatClass::List0 => true,
        _ => false,
    }
}
