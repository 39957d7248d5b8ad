//! Fields: a map of any keys and values, kept as it came (AMQP 1.0 part 2, section 2.8.13, `fields`).

ghost use Rattle.std.specs.Prelude.{◌≡◌, IfOk, OnErr};
ghost use Rattle.amqp_memory.specs.Refusal.{SomeRefused};
ghost use Rattle.amqp_values.specs.Raw.{IsMap, MakesFields, has_map_code, map_at};

use crate::codes;
use crate::error::ReadError;
use crate::field::Field;
use crate::raw::Raw;
use bytes::Bytes;
use std::alloc::{AllocError, Global};
use std::marker::Model;

/// A raw value that is a map.
///
/// ```
/// let (raw, _rest) = Raw::read(bytes)?;
/// let properties = Fields::new(raw);       // `None` where the value is no map
/// ```
#[derive(Debug, Drop)]
pub struct Fields {
    raw: Raw,
}

impl Model for Fields {
    ghost use Rattle.std.specs.Prelude.{ℕ, List};
    ghost use Rattle.amqp_values.specs.Raw.{IsMap};

    ghost Value = { List ℕ };

    ghost view = { λ f. f.raw };

    ghost invariant = { λ f. IsMap f.raw };
}

impl Clone for Fields {
    ghost is_clone = { λ p q. q ≡ p };

    fn clone(&self) -> Result<Fields, AllocError>
        ensures value { IfOk result (λ q. q ≡ self.now) }
        ensures refused { OnErr result SomeRefused }
    {
        Ok(Fields {
            raw: self.raw.clone()?,
        })
    }
}

impl PartialEq for Fields {
    ghost use Rattle.std.specs.Prelude.{nat_eq};
    ghost use Rattle.std.specs.Cmp.{partial_equiv_from_equiv};
    ghost use Rattle.std.specs.Cmp.Lexicographic.{nat_list_eq_equiv, pointwise};

    ghost eq = { pointwise nat_eq };

    ghost laws = { partial_equiv_from_equiv nat_list_eq_equiv };

    /// Whether both are spelled alike. The same entries in another order are another spelling.
    fn eq(&self, other: &Fields) -> bool {
        self.raw == other.raw
    }
}

impl Fields {
    /// The value as a map; `None` exactly where it is none (its code is neither `c1` nor `d1`; part 1, section 1.6.23).
    pub fn new(raw: Raw) -> Option<Fields>
        ensures { MakesFields raw result }
    {
        if is_map(&raw) {
            Some(Fields { raw })
        } else {
            None
        }
    }

    /// The whole map as a raw value.
    pub fn raw(&self) -> &Raw
        ensures value { result.now ≡ self.now }
        ensures map { IsMap self.now }
    {
        &self.raw
    }
}

impl Field for Fields {
    ghost use Rattle.std.specs.Prelude.{ℕ, List};

    ghost Seen = { List ℕ };

    ghost view = { λ v. v };

    ghost at = { map_at };

    #[tactic(auto, unfolding(crate::specs::Raw::map_at, crate::specs::Raw::raw_at))]
    #[inline(always)]
    fn never_empty() {}

    #[tactic(auto, unfolding(crate::specs::Raw::map_at))]
    fn read(
        alloc: Global,
        code: u8,
        text: &[u8],
        place: &mut usize,
        bytes: &Bytes,
    ) -> Result<Fields, ReadError> {
        let raw = <Raw as Field>::read(alloc, code, text, place, bytes)?;
        if is_map(&raw) {
            Ok(Fields { raw })
        } else {
            Err(ReadError::Malformed)
        }
    }
}

/// Whether the value is a map.
fn is_map(raw: &Raw) -> bool
    ensures { result ≡ has_map_code raw.now }
{
    matches!(raw.bytes(), [codes::MAP8 | codes::MAP32, ..])
}
