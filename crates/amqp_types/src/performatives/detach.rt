//! Detach (AMQP 1.0 part 2, section 2.7.7).

ghost use Rattle.std.specs.Prelude.{◌≡◌, ◌<◌, ◌≤◌, ◌+◌, ◌^◌, ◌++◌, length, List, ℕ, Option};
ghost use Rattle.amqp_values.specs.Reading.{Gives};
ghost use Rattle.amqp_types.specs.Detach.{detach_body_at, detach_table};
ghost use Rattle.amqp_types.specs.declared.performatives.Performative.TheVariants as performative;
ghost use Rattle.amqp_types.specs.Performatives.{performative_text};

use crate::borrowed;
use crate::definitions::Handle;
use crate::error::Error;
use crate::error_ref::ErrorRef;
use amqp_values::{
    Composite, Cons2, ListWalk, ReadError, Row1, codes, described_len, field_list, put_described,
};
use bytes::{Bytes, BytesMut};
use std::alloc::Global;
use std::marker::Model;

/// A link is detached from a session (AMQP 1.0 part 2, section 2.7.7).
///
/// ```
/// let mut detach = Detach::new(Handle(0));
/// detach.closed = true;
/// ```
#[derive(Clone, Debug, Drop)]
pub struct Detach {
    /// The link. Mandatory.
    pub handle: Handle,
    /// Whether the link is closed for good. Default: false.
    pub closed: bool,
    /// The error that is the reason, if any.
    pub error: Option<Error>,
}

impl Model for Detach {
    ghost use Rattle.amqp_types.specs.Detach.{DetachModel};

    ghost Value = { DetachModel };

    ghost view = { λ p. record {
      handle = p.handle.0;
      closed = p.closed;
      error = p.error;
    } };
}

impl PartialEq for Detach {
    ghost use Rattle.std.specs.Cmp.{partial_equiv_from_equiv};
    ghost use Rattle.amqp_types.specs.Detach.{detach_same};

    ghost eq = { detach_same.test };

    ghost laws = { partial_equiv_from_equiv detach_same.laws };

    fn eq(&self, other: &Detach) -> bool {
        self.handle == other.handle && self.closed == other.closed && self.error == other.error
    }
}

impl Composite for Detach {
    ghost body_at = { detach_body_at };

    #[tactic(auto, unfolding(crate::specs::Detach::detach_body_at))]
    #[inline(always)]
    fn read_list(alloc: Global, bytes: &mut Bytes) -> Result<Detach, ReadError> {
        let (mut walk, end) = match ListWalk::enter(bytes.as_slice()) {
            Ok(entered) => entered,
            Err(error) => return Err(error),
        };
        let (text, _) = bytes.as_slice().split_at(end);
        let handle = walk.required(alloc, text, &*bytes)?;
        let closed = walk.or(alloc, text, &*bytes, false)?;
        let error = walk.next(alloc, text, &*bytes)?;
        walk.finish(text)?;
        bytes.advance(end);
        Ok(Detach {
            handle,
            closed,
            error,
        })
    }
}

/// The fields, borrowed for writing, by types of their own.
pub(crate) type DetachRow<'a> = Cons2<u32, Option<bool>, Row1<Option<ErrorRef<'a>>>>;

impl Detach {
    /// The fields, borrowed for writing.
    #[tactic(auto, unfolding(crate::specs::Detach::detach_table))]
    #[inline(always)]
    pub(crate) fn parts(&self) -> DetachRow<'_>
        ensures { result ≡ (detach_table self.now).canonical }
    {
        field_list![
            self.handle.0,
            borrowed::true_or_null(self.closed),
            ErrorRef::optional(&self.error),
        ]
    }

    /// The length in bytes of the canonical text. Takes no memory and writes nothing.
    #[inline(never)]
    pub fn encoded_len(&self) -> u128
        ensures value { result ≡ length (performative_text (performative.Detach self.now)) }
        ensures bound { result < 2 ^ 127 }
    {
        described_len(&self.parts())
    }

    /// Appends the canonical text, whose length is `len`, to a buffer that has room for it.
    #[inline(never)]
    pub fn put(&self, len: usize, out: &mut BytesMut)
        requires len_is { len ≡ length (performative_text (performative.Detach self.now)) }
        requires room { length (performative_text (performative.Detach self.now)) ≤ out.old.spare }
        requires fits { length (performative_text (performative.Detach self.now)) < 2 ^ 32 }
        ensures items { out.new.items ≡ out.old.items ++ performative_text (performative.Detach self.now) }
        ensures spare { out.new.spare + length (performative_text (performative.Detach self.now)) ≡ out.old.spare }
    {
        put_described(codes::DETACH, &self.parts(), len, out)
    }
}
