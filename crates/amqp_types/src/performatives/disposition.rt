//! Disposition (AMQP 1.0 part 2, section 2.7.6).

ghost use Rattle.std.specs.Prelude.{◌≡◌, ◌<◌, ◌≤◌, ◌+◌, ◌^◌, ◌++◌, length, List, ℕ, Option};
ghost use Rattle.amqp_values.specs.Reading.{Gives};
ghost use Rattle.amqp_types.specs.Disposition.{disposition_body_at, disposition_table};
ghost use Rattle.amqp_types.specs.declared.performatives.Performative.TheVariants as performative;
ghost use Rattle.amqp_types.specs.Performatives.{performative_text};

use crate::borrowed;
use crate::definitions::Role;
use amqp_values::{
    Composite, Cons2, Cons4, ListWalk, NoMore, Raw, ReadError, Verbatim, codes, described_len,
    field_list, put_described,
};
use bytes::{Bytes, BytesMut};
use std::alloc::Global;
use std::marker::Model;

/// The state of deliveries, and whether they are settled (AMQP 1.0 part 2, section 2.7.6).
///
/// ```
/// let mut disposition = Disposition::new(Role::Receiver, 0);
/// disposition.last = Some(9);              // the deliveries 0 to 9
/// disposition.settled = true;
/// disposition.state = Some(Raw::accepted());
/// ```
#[derive(Clone, Debug, Drop)]
pub struct Disposition {
    /// The end of the link on which the sender of the frame stands. Mandatory.
    pub role: Role,
    /// The first delivery that is meant. Mandatory.
    pub first: u32,
    /// The last delivery that is meant. None: the first alone.
    pub last: Option<u32>,
    /// Whether the deliveries are settled. Default: false.
    pub settled: bool,
    /// The state of the deliveries.
    pub state: Option<Raw>,
    /// Whether the peer may delay its answer. Default: false.
    pub batchable: bool,
}

impl Model for Disposition {
    ghost use Rattle.amqp_types.specs.Disposition.{DispositionModel};

    ghost Value = { DispositionModel };

    ghost view = { λ p. record {
      role = p.role;
      first = p.first;
      last = p.last;
      settled = p.settled;
      state = p.state;
      batchable = p.batchable;
    } };
}

impl PartialEq for Disposition {
    ghost use Rattle.std.specs.Cmp.{partial_equiv_from_equiv};
    ghost use Rattle.amqp_types.specs.Disposition.{disposition_same};

    ghost eq = { disposition_same.test };

    ghost laws = { partial_equiv_from_equiv disposition_same.laws };

    fn eq(&self, other: &Disposition) -> bool {
        self.role == other.role
            && self.first == other.first
            && self.last == other.last
            && self.settled == other.settled
            && self.state == other.state
            && self.batchable == other.batchable
    }
}

impl Composite for Disposition {
    ghost body_at = { disposition_body_at };

    #[tactic(auto, unfolding(crate::specs::Disposition::disposition_body_at))]
    #[inline(always)]
    fn read_list(alloc: Global, bytes: &mut Bytes) -> Result<Disposition, ReadError> {
        let (mut walk, end) = match ListWalk::enter(bytes.as_slice()) {
            Ok(entered) => entered,
            Err(error) => return Err(error),
        };
        let (text, _) = bytes.as_slice().split_at(end);
        let role = walk.required(alloc, text, &*bytes)?;
        let first = walk.required(alloc, text, &*bytes)?;
        let last = walk.next(alloc, text, &*bytes)?;
        let settled = walk.or(alloc, text, &*bytes, false)?;
        let state = walk.next(alloc, text, &*bytes)?;
        let batchable = walk.or(alloc, text, &*bytes, false)?;
        walk.finish(text)?;
        bytes.advance(end);
        Ok(Disposition {
            role,
            first,
            last,
            settled,
            state,
            batchable,
        })
    }
}

/// The fields, borrowed for writing, by types of their own.
pub(crate) type DispositionRow<'a> = Cons4<
    bool,
    u32,
    Option<u32>,
    Option<bool>,
    Cons2<Option<Verbatim<'a>>, Option<bool>, NoMore>,
>;

impl Disposition {
    /// The fields, borrowed for writing.
    #[tactic(auto, unfolding(crate::specs::Disposition::disposition_table))]
    #[inline(always)]
    pub(crate) fn parts(&self) -> DispositionRow<'_>
        ensures { result ≡ (disposition_table self.now).canonical }
    {
        field_list![
            borrowed::role(self.role),
            self.first,
            self.last,
            borrowed::true_or_null(self.settled),
            borrowed::optional_value(&self.state),
            borrowed::true_or_null(self.batchable),
        ]
    }

    /// The length in bytes of the canonical text. Takes no memory and writes nothing.
    #[inline(never)]
    pub fn encoded_len(&self) -> u128
        ensures value { result ≡ length (performative_text (performative.Disposition self.now)) }
        ensures bound { result < 2 ^ 127 }
    {
        described_len(&self.parts())
    }

    /// Appends the canonical text, whose length is `len`, to a buffer that has room for it.
    #[inline(never)]
    pub fn put(&self, len: usize, out: &mut BytesMut)
        requires len_is { len ≡ length (performative_text (performative.Disposition self.now)) }
        requires room { length (performative_text (performative.Disposition self.now)) ≤ out.old.spare }
        requires fits { length (performative_text (performative.Disposition self.now)) < 2 ^ 32 }
        ensures items { out.new.items ≡ out.old.items ++ performative_text (performative.Disposition self.now) }
        ensures spare { out.new.spare + length (performative_text (performative.Disposition self.now)) ≡ out.old.spare }
    {
        put_described(codes::DISPOSITION, &self.parts(), len, out)
    }
}
