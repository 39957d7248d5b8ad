//! Borrowed values: the code, the descriptor and the parts of a value; no call takes memory (AMQP 1.0 part 1, section 1.6).

ghost use Rattle.std.specs.Prelude.{◌≡◌, ℕ, List, ◌∷◌};
ghost use Rattle.std.specs.Iterator.{YieldsFirst, item_count};
ghost use Rattle.std.specs.Option.{option_map};
ghost use Rattle.amqp_values.specs.Grammar.{IsValue};
ghost use Rattle.amqp_values.specs.Parts.{Lends, LendsDescriptor, LendsInner, front_at, halves_at, open_at};

use crate::format_class::{FormatClass, class_at};
use crate::walk::{count, first, region, value_rest};
use std::marker::Model;

/// One whole value, borrowed: a raw value, or a part of one. It may be the null.
///
/// None of its calls takes memory.
///
/// ```
/// if let Some(inner) = raw.view().inner() {
///     let parts = inner.items();           // those of a described list
/// }
/// ```
#[derive(Clone, Debug, Drop)]
pub struct ValueRef<'a> {
    bytes: &'a [u8],
}

impl<'a> Model for ValueRef<'a> {
    ghost use Rattle.std.specs.Prelude.{ℕ, List};
    ghost use Rattle.amqp_values.specs.Grammar.{IsValue};

    ghost Value = { List ℕ };

    ghost view = { λ v. v.bytes.now };

    ghost invariant = { λ v. IsValue 64 v.bytes.now };
}

impl<'a> PartialEq for ValueRef<'a> {
    ghost use Rattle.std.specs.Prelude.{nat_eq};
    ghost use Rattle.std.specs.Cmp.{partial_equiv_from_equiv};
    ghost use Rattle.std.specs.Cmp.Lexicographic.{nat_list_eq_equiv, pointwise};

    ghost eq = { pointwise nat_eq };

    ghost laws = { partial_equiv_from_equiv nat_list_eq_equiv };

    /// Whether both are spelled alike. A number in another encoding is another spelling.
    fn eq(&self, other: &ValueRef<'a>) -> bool {
        self.bytes == other.bytes
    }
}

/// The parts of a list or a map in their order, each borrowed. A map gives key, value, key, value. The iterator ends.
///
/// None of its calls takes memory.
///
/// ```
/// if let Some(items) = raw.view().items() {
///     for part in items {
///         let is_null = part.code() == codes::NULL;
///     }
/// }
/// ```
#[derive(Clone, Debug, Drop)]
pub struct Items<'a> {
    left: u32,
    bytes: &'a [u8],
}

impl<'a> Model for Items<'a> {
    ghost use Rattle.std.specs.Prelude.{ℕ, List};
    ghost use Rattle.amqp_values.specs.Parts.{AllParts, parts_at};

    ghost Value = { List (List ℕ) };

    ghost view = { λ i. parts_at i.left i.bytes.now };

    ghost invariant = { λ i. AllParts i.left i.bytes.now };
}

impl<'a> PartialEq for Items<'a> {
    ghost use Rattle.std.specs.Prelude.{nat_eq};
    ghost use Rattle.std.specs.Cmp.{partial_equiv_from_equiv};
    ghost use Rattle.std.specs.Cmp.Lexicographic.{nat_list_eq_equiv, lists_equiv, pointwise};

    ghost eq = { pointwise (pointwise nat_eq) };

    ghost laws = { partial_equiv_from_equiv (lists_equiv nat_list_eq_equiv) };

    /// Whether the parts that are left are spelled alike.
    #[tactic(auto, using(crate::proofs::SameItemsLemmas::same_parts))]
    fn eq(&self, other: &Items<'a>) -> bool {
        self.left == other.left && self.bytes == other.bytes
    }
}

impl<'a> ValueRef<'a> {
    /// Bytes that are one value, borrowed.
    pub(crate) fn new(bytes: &'a [u8]) -> ValueRef<'a>
        requires { IsValue 64 bytes.now }
        ensures { result ≡ bytes.now }
    {
        ValueRef { bytes }
    }

    /// The format code, which is the first byte; 0 for a described value (part 1, section 1.2).
    pub fn code(&self) -> u8
        ensures { (others : List ℕ) × (self.now ≡ result ∷ others) }
    {
        match self.bytes {
            [code, ..] => *code,
            [] => 0,
        }
    }

    /// The bytes of the value, from its constructor to its end.
    pub fn bytes(&self) -> &'a [u8]
        ensures same { result.now ≡ self.now }
        ensures value { IsValue 64 self.now }
    {
        self.bytes
    }

    /// The descriptor of a described value; `None` exactly for any other value (part 1, section 1.2).
    pub fn descriptor(&self) -> Option<ValueRef<'a>>
        ensures { LendsDescriptor self.now result }
    {
        let (descriptor, _) = halves(self.bytes)?;
        Some(ValueRef { bytes: descriptor })
    }

    /// The value inside a described value; `None` exactly for any other value (part 1, section 1.2).
    pub fn inner(&self) -> Option<ValueRef<'a>>
        ensures { LendsInner self.now result }
    {
        let (_, inner) = halves(self.bytes)?;
        Some(ValueRef { bytes: inner })
    }

    /// The parts of a list or a map; `None` exactly for any other value, arrays and described lists too
    /// (part 1, sections 1.6.22 and 1.6.23).
    pub fn items(&self) -> Option<Items<'a>>
        ensures { Lends self.now result }
    {
        let (left, bytes) = open(self.bytes)?;
        Some(Items { left, bytes })
    }
}

/// How many parts a list or a map has, and their bytes.
#[tactic(auto, unfolding(crate::specs::Parts::open_at))]
fn open(bytes: &[u8]) -> Option<(u32, &[u8])>
    ensures { option_map (λ x. (x.0, x.1.now)) result ≡ open_at bytes.now }
{
    let (code, data) = first(bytes)?;
    match class_at(code) {
        FormatClass::List0 => Some((0, data)),
        FormatClass::List(wide) | FormatClass::Map(wide) => {
            let (inner, _) = region(wide, data)?;
            count(wide, inner)
        }
        _ => None,
    }
}

/// The descriptor of a described value, and the value inside.
#[tactic(auto, unfolding(crate::specs::Parts::halves_at))]
fn halves(bytes: &[u8]) -> Option<(&[u8], &[u8])>
    ensures { option_map (λ x. (x.0.now, x.1.now)) result ≡ halves_at bytes.now }
{
    let (code, data) = first(bytes)?;
    if code == 0 { front(data) } else { None }
}

/// The first value, and what stands after it.
#[tactic(auto, unfolding(crate::specs::Parts::front_at))]
fn front(bytes: &[u8]) -> Option<(&[u8], &[u8])>
    ensures { option_map (λ x. (x.0.now, x.1.now)) result ≡ front_at bytes.now }
{
    let rest = value_rest(bytes, 64)?;
    Some(bytes.split_at(bytes.len() - rest.len()))
}

impl<'a> Iterator for Items<'a> {
    type Item = ValueRef<'a>;

    ghost next_gives = { YieldsFirst (λ s. s) };

    ghost remaining = { item_count (λ s. s) };

    fn next(&mut self) -> Option<ValueRef<'a>> {
        if self.left == 0 {
            return None;
        }
        let (first, rest) = front(self.bytes)?;
        self.left -= 1;
        self.bytes = rest;
        Some(ValueRef { bytes: first })
    }
}
