//! End (AMQP 1.0 part 2, section 2.7.8).

ghost use Rattle.std.specs.Prelude.{◌≡◌, ◌<◌, ◌≤◌, ◌+◌, ◌^◌, ◌++◌, length, List, ℕ, Option};
ghost use Rattle.amqp_values.specs.Reading.{Gives};
ghost use Rattle.amqp_types.specs.End.{end_body_at, end_table};
ghost use Rattle.amqp_types.specs.declared.performatives.Performative.TheVariants as performative;
ghost use Rattle.amqp_types.specs.Performatives.{performative_text};

use crate::error::Error;
use crate::error_ref::ErrorRef;
use amqp_values::{
    Composite, ListWalk, ReadError, Row1, codes, described_len, field_list, put_described,
};
use bytes::{Bytes, BytesMut};
use std::alloc::Global;
use std::marker::Model;

/// A session ends (AMQP 1.0 part 2, section 2.7.8).
///
/// ```
/// let end = End { error: None };
/// ```
#[derive(Clone, Debug, Drop)]
pub struct End {
    /// The error that is the reason, if any.
    pub error: Option<Error>,
}

impl Model for End {
    ghost use Rattle.amqp_types.specs.End.{EndModel};

    ghost Value = { EndModel };

    ghost view = { λ p. record {
      error = p.error;
    } };
}

impl PartialEq for End {
    ghost use Rattle.std.specs.Cmp.{partial_equiv_from_equiv};
    ghost use Rattle.amqp_types.specs.End.{end_same};

    ghost eq = { end_same.test };

    ghost laws = { partial_equiv_from_equiv end_same.laws };

    fn eq(&self, other: &End) -> bool {
        self.error == other.error
    }
}

impl Composite for End {
    ghost body_at = { end_body_at };

    #[tactic(auto, unfolding(crate::specs::End::end_body_at))]
    #[inline(always)]
    fn read_list(alloc: Global, bytes: &mut Bytes) -> Result<End, ReadError> {
        let (mut walk, end) = match ListWalk::enter(bytes.as_slice()) {
            Ok(entered) => entered,
            Err(error) => return Err(error),
        };
        let (text, _) = bytes.as_slice().split_at(end);
        let error = walk.next(alloc, text, &*bytes)?;
        walk.finish(text)?;
        bytes.advance(end);
        Ok(End { error })
    }
}

/// The fields, borrowed for writing, by types of their own.
pub(crate) type EndRow<'a> = Row1<Option<ErrorRef<'a>>>;

impl End {
    /// The fields, borrowed for writing.
    #[tactic(auto, unfolding(crate::specs::End::end_table))]
    #[inline(always)]
    pub(crate) fn parts(&self) -> EndRow<'_>
        ensures { result ≡ (end_table self.now).canonical }
    {
        field_list![ErrorRef::optional(&self.error)]
    }

    /// The length in bytes of the canonical text. Takes no memory and writes nothing.
    #[inline(never)]
    pub fn encoded_len(&self) -> u128
        ensures value { result ≡ length (performative_text (performative.End self.now)) }
        ensures bound { result < 2 ^ 127 }
    {
        described_len(&self.parts())
    }

    /// Appends the canonical text, whose length is `len`, to a buffer that has room for it.
    #[inline(never)]
    pub fn put(&self, len: usize, out: &mut BytesMut)
        requires len_is { len ≡ length (performative_text (performative.End self.now)) }
        requires room { length (performative_text (performative.End self.now)) ≤ out.old.spare }
        requires fits { length (performative_text (performative.End self.now)) < 2 ^ 32 }
        ensures items { out.new.items ≡ out.old.items ++ performative_text (performative.End self.now) }
        ensures spare { out.new.spare + length (performative_text (performative.End self.now)) ≡ out.old.spare }
    {
        put_described(codes::END, &self.parts(), len, out)
    }
}
