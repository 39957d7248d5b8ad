//! Begin (AMQP 1.0 part 2, section 2.7.2).

ghost use Rattle.std.specs.Prelude.{◌≡◌, ◌<◌, ◌≤◌, ◌+◌, ◌^◌, ◌++◌, length, List, ℕ, Option};
ghost use Rattle.amqp_values.specs.Reading.{Gives};
ghost use Rattle.amqp_types.specs.Begin.{begin_body_at, begin_table};
ghost use Rattle.amqp_types.specs.declared.performatives.Performative.TheVariants as performative;
ghost use Rattle.amqp_types.specs.Performatives.{performative_text};

use crate::borrowed;
use crate::definitions::Handle;
use amqp_values::{
    Composite, Cons4, Fields, ListWalk, NoMore, ReadError, Symbol, Symbols, Verbatim, codes,
    described_len, field_list, put_described,
};
use bytes::{Bytes, BytesMut};
use std::alloc::Global;
use std::marker::Model;

/// The parameters that a session begins with (AMQP 1.0 part 2, section 2.7.2).
///
/// ```
/// let mut begin = Begin::new(0, 2048, 2048);
/// begin.remote_channel = Some(3);          // it answers the Begin that came on channel 3
/// ```
#[derive(Clone, Debug, Drop)]
pub struct Begin {
    /// The channel of the Begin that this one answers.
    pub remote_channel: Option<u16>,
    /// The number of the next transfer. Mandatory.
    pub next_outgoing_id: u32,
    /// How many transfers the sender of the frame can take. Mandatory.
    pub incoming_window: u32,
    /// How many transfers the sender of the frame can send. Mandatory.
    pub outgoing_window: u32,
    /// The highest handle that may be used. Default: 4294967295.
    pub handle_max: Handle,
    /// What the sender of the frame can do.
    pub offered_capabilities: Option<Vec<Symbol>>,
    /// What it wants the peer to do.
    pub desired_capabilities: Option<Vec<Symbol>>,
    /// Anything else.
    pub properties: Option<Fields>,
}

impl Model for Begin {
    ghost use Rattle.std.specs.Option.{option_map};
    ghost use Rattle.amqp_types.specs.Begin.{BeginModel};

    ghost Value = { BeginModel };

    ghost view = { λ p. record {
      remote_channel = p.remote_channel;
      next_outgoing_id = p.next_outgoing_id;
      incoming_window = p.incoming_window;
      outgoing_window = p.outgoing_window;
      handle_max = p.handle_max.0;
      offered_capabilities = option_map (λ v. v.items) p.offered_capabilities;
      desired_capabilities = option_map (λ v. v.items) p.desired_capabilities;
      properties = p.properties;
    } };
}

impl PartialEq for Begin {
    ghost use Rattle.std.specs.Cmp.{partial_equiv_from_equiv};
    ghost use Rattle.amqp_types.specs.Begin.{begin_same};

    ghost eq = { begin_same.test };

    ghost laws = { partial_equiv_from_equiv begin_same.laws };

    fn eq(&self, other: &Begin) -> bool {
        self.remote_channel == other.remote_channel
            && self.next_outgoing_id == other.next_outgoing_id
            && self.incoming_window == other.incoming_window
            && self.outgoing_window == other.outgoing_window
            && self.handle_max == other.handle_max
            && self.offered_capabilities == other.offered_capabilities
            && self.desired_capabilities == other.desired_capabilities
            && self.properties == other.properties
    }
}

impl Composite for Begin {
    ghost body_at = { begin_body_at };

    #[tactic(auto, unfolding(crate::specs::Begin::begin_body_at))]
    #[inline(always)]
    fn read_list(alloc: Global, bytes: &mut Bytes) -> Result<Begin, ReadError> {
        let (mut walk, end) = match ListWalk::enter(bytes.as_slice()) {
            Ok(entered) => entered,
            Err(error) => return Err(error),
        };
        let (text, _) = bytes.as_slice().split_at(end);
        let remote_channel = walk.next(alloc, text, &*bytes)?;
        let next_outgoing_id = walk.required(alloc, text, &*bytes)?;
        let incoming_window = walk.required(alloc, text, &*bytes)?;
        let outgoing_window = walk.required(alloc, text, &*bytes)?;
        let handle_max = walk.or(alloc, text, &*bytes, Handle(u32::MAX))?;
        let offered_capabilities = walk.next(alloc, text, &*bytes)?;
        let desired_capabilities = walk.next(alloc, text, &*bytes)?;
        let properties = walk.next(alloc, text, &*bytes)?;
        walk.finish(text)?;
        bytes.advance(end);
        Ok(Begin {
            remote_channel,
            next_outgoing_id,
            incoming_window,
            outgoing_window,
            handle_max,
            offered_capabilities,
            desired_capabilities,
            properties,
        })
    }
}

/// The fields, borrowed for writing, by types of their own.
pub(crate) type BeginRow<'a> = Cons4<
    Option<u16>,
    u32,
    u32,
    u32,
    Cons4<Option<u32>, Option<Symbols<'a>>, Option<Symbols<'a>>, Option<Verbatim<'a>>, NoMore>,
>;

impl Begin {
    /// The fields, borrowed for writing.
    #[tactic(auto, unfolding(crate::specs::Begin::begin_table))]
    #[inline(always)]
    pub(crate) fn parts(&self) -> BeginRow<'_>
        ensures { result ≡ (begin_table self.now).canonical }
    {
        field_list![
            self.remote_channel,
            self.next_outgoing_id,
            self.incoming_window,
            self.outgoing_window,
            borrowed::uint_or(self.handle_max.0, u32::MAX),
            borrowed::optional_symbols(&self.offered_capabilities),
            borrowed::optional_symbols(&self.desired_capabilities),
            borrowed::optional_fields(&self.properties),
        ]
    }

    /// The length in bytes of the canonical text. Takes no memory and writes nothing.
    #[inline(never)]
    pub fn encoded_len(&self) -> u128
        ensures value { result ≡ length (performative_text (performative.Begin self.now)) }
        ensures bound { result < 2 ^ 127 }
    {
        described_len(&self.parts())
    }

    /// Appends the canonical text, whose length is `len`, to a buffer that has room for it.
    #[inline(never)]
    pub fn put(&self, len: usize, out: &mut BytesMut)
        requires len_is { len ≡ length (performative_text (performative.Begin self.now)) }
        requires room { length (performative_text (performative.Begin self.now)) ≤ out.old.spare }
        requires fits { length (performative_text (performative.Begin self.now)) < 2 ^ 32 }
        ensures items { out.new.items ≡ out.old.items ++ performative_text (performative.Begin self.now) }
        ensures spare { out.new.spare + length (performative_text (performative.Begin self.now)) ≡ out.old.spare }
    {
        put_described(codes::BEGIN, &self.parts(), len, out)
    }
}
