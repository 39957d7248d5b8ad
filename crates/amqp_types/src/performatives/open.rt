//! Open (AMQP 1.0 part 2, section 2.7.1).

ghost use Rattle.std.specs.Prelude.{◌≡◌, ◌<◌, ◌≤◌, ◌+◌, ◌^◌, ◌++◌, length, List, ℕ, Option, IfOk, OnErr};
ghost use Rattle.amqp_memory.specs.Refusal.{SomeRefused};
ghost use Rattle.amqp_values.specs.Reading.{Gives};
ghost use Rattle.amqp_types.specs.Open.{open_body_at, open_table, open_first_same, open_last_same};
ghost use Rattle.amqp_types.specs.declared.performatives.Performative.TheVariants as performative;
ghost use Rattle.amqp_types.specs.Performatives.{performative_text};

use crate::{borrowed, copies};
use amqp_memory::text_again;
use amqp_values::{
    Composite, Cons2, Cons4, Fields, ListWalk, NoMore, ReadError, StringRef, Symbol, Symbols,
    Verbatim, codes, described_len, field_list, put_described,
};
use bytes::{Bytes, BytesMut};
use std::alloc::{AllocError, Global};
use std::marker::Model;

/// The parameters that a connection opens with (AMQP 1.0 part 2, section 2.7.1).
///
/// ```
/// let mut open = Open::new(container_id);  // the other fields have their defaults
/// open.max_frame_size = 65536;
/// ```
#[derive(Debug, Drop)]
pub struct Open {
    /// The name of the container. Mandatory.
    pub container_id: String,
    /// The host that is meant.
    pub hostname: Option<String>,
    /// The largest frame that the sender of the Open takes, in bytes, its size field included. Default: 4294967295.
    pub max_frame_size: u32,
    /// The highest channel that may be used. Default: 65535.
    pub channel_max: u16,
    /// Milliseconds without a frame after which the connection may be closed.
    pub idle_time_out: Option<u32>,
    /// Locales for texts that are sent.
    pub outgoing_locales: Option<Vec<Symbol>>,
    /// Locales for texts that are wanted.
    pub incoming_locales: Option<Vec<Symbol>>,
    /// What the sender of the frame can do.
    pub offered_capabilities: Option<Vec<Symbol>>,
    /// What it wants the peer to do.
    pub desired_capabilities: Option<Vec<Symbol>>,
    /// Anything else.
    pub properties: Option<Fields>,
}

impl Model for Open {
    ghost use Rattle.std.specs.Prelude.{string_bytes};
    ghost use Rattle.std.specs.Option.{option_map};
    ghost use Rattle.amqp_types.specs.Open.{OpenModel};

    ghost Value = { OpenModel };

    ghost view = { λ p. record {
      container_id = string_bytes p.container_id;
      hostname = option_map string_bytes p.hostname;
      max_frame_size = p.max_frame_size;
      channel_max = p.channel_max;
      idle_time_out = p.idle_time_out;
      outgoing_locales = option_map (λ v. v.items) p.outgoing_locales;
      incoming_locales = option_map (λ v. v.items) p.incoming_locales;
      offered_capabilities = option_map (λ v. v.items) p.offered_capabilities;
      desired_capabilities = option_map (λ v. v.items) p.desired_capabilities;
      properties = p.properties;
    } };
}

impl Clone for Open {
    ghost is_clone = { λ p q. q ≡ p };

    fn clone(&self) -> Result<Open, AllocError>
        ensures value { IfOk result (λ q. q ≡ self.now) }
        ensures refused { OnErr result SomeRefused }
    {
        Ok(Open {
            container_id: text_again(&self.container_id)?,
            hostname: copies::text(&self.hostname)?,
            max_frame_size: self.max_frame_size,
            channel_max: self.channel_max,
            idle_time_out: self.idle_time_out,
            outgoing_locales: copies::symbols(&self.outgoing_locales)?,
            incoming_locales: copies::symbols(&self.incoming_locales)?,
            offered_capabilities: copies::symbols(&self.offered_capabilities)?,
            desired_capabilities: copies::symbols(&self.desired_capabilities)?,
            properties: copies::fields(&self.properties)?,
        })
    }
}

impl PartialEq for Open {
    ghost use Rattle.std.specs.Cmp.{partial_equiv_from_equiv};
    ghost use Rattle.amqp_types.specs.Open.{open_same};

    ghost eq = { open_same.test };

    ghost laws = { partial_equiv_from_equiv open_same.laws };

    fn eq(&self, other: &Open) -> bool {
        self.same_first(other) && self.same_last(other)
    }
}

impl Open {
    /// Whether the first fields are the same.
    fn same_first(&self, other: &Open) -> bool
        ensures { result ≡ open_first_same.test self.now other.now }
    {
        self.container_id == other.container_id
            && self.hostname == other.hostname
            && self.max_frame_size == other.max_frame_size
            && self.channel_max == other.channel_max
            && self.idle_time_out == other.idle_time_out
    }

    /// Whether the last fields are the same.
    fn same_last(&self, other: &Open) -> bool
        ensures { result ≡ open_last_same.test self.now other.now }
    {
        self.outgoing_locales == other.outgoing_locales
            && self.incoming_locales == other.incoming_locales
            && self.offered_capabilities == other.offered_capabilities
            && self.desired_capabilities == other.desired_capabilities
            && self.properties == other.properties
    }
}

impl Composite for Open {
    ghost body_at = { open_body_at };

    #[tactic(auto, unfolding(crate::specs::Open::open_body_at))]
    #[inline(always)]
    fn read_list(alloc: Global, bytes: &mut Bytes) -> Result<Open, ReadError> {
        let (mut walk, end) = match ListWalk::enter(bytes.as_slice()) {
            Ok(entered) => entered,
            Err(error) => return Err(error),
        };
        let (text, _) = bytes.as_slice().split_at(end);
        let container_id = walk.required(alloc, text, &*bytes)?;
        let hostname = walk.next(alloc, text, &*bytes)?;
        let max_frame_size = walk.or(alloc, text, &*bytes, u32::MAX)?;
        let channel_max = walk.or(alloc, text, &*bytes, u16::MAX)?;
        let idle_time_out = walk.next(alloc, text, &*bytes)?;
        let outgoing_locales = walk.next(alloc, text, &*bytes)?;
        let incoming_locales = walk.next(alloc, text, &*bytes)?;
        let offered_capabilities = walk.next(alloc, text, &*bytes)?;
        let desired_capabilities = walk.next(alloc, text, &*bytes)?;
        let properties = walk.next(alloc, text, &*bytes)?;
        walk.finish(text)?;
        bytes.advance(end);
        Ok(Open {
            container_id,
            hostname,
            max_frame_size,
            channel_max,
            idle_time_out,
            outgoing_locales,
            incoming_locales,
            offered_capabilities,
            desired_capabilities,
            properties,
        })
    }
}

/// The fields, borrowed for writing, by types of their own.
pub(crate) type OpenRow<'a> = Cons4<
    StringRef<'a>,
    Option<StringRef<'a>>,
    Option<u32>,
    Option<u16>,
    Cons4<
        Option<u32>,
        Option<Symbols<'a>>,
        Option<Symbols<'a>>,
        Option<Symbols<'a>>,
        Cons2<Option<Symbols<'a>>, Option<Verbatim<'a>>, NoMore>,
    >,
>;

impl Open {
    /// The fields, borrowed for writing.
    #[tactic(auto, unfolding(crate::specs::Open::open_table))]
    #[inline(always)]
    pub(crate) fn parts(&self) -> OpenRow<'_>
        ensures { result ≡ (open_table self.now).canonical }
    {
        field_list![
            StringRef(self.container_id.as_str()),
            borrowed::optional_string(&self.hostname),
            borrowed::uint_or(self.max_frame_size, u32::MAX),
            borrowed::ushort_or(self.channel_max, u16::MAX),
            self.idle_time_out,
            borrowed::optional_symbols(&self.outgoing_locales),
            borrowed::optional_symbols(&self.incoming_locales),
            borrowed::optional_symbols(&self.offered_capabilities),
            borrowed::optional_symbols(&self.desired_capabilities),
            borrowed::optional_fields(&self.properties),
        ]
    }

    /// The length in bytes of the canonical text. Takes no memory and writes nothing.
    #[inline(never)]
    pub fn encoded_len(&self) -> u128
        ensures value { result ≡ length (performative_text (performative.Open self.now)) }
        ensures bound { result < 2 ^ 127 }
    {
        described_len(&self.parts())
    }

    /// Appends the canonical text, whose length is `len`, to a buffer that has room for it.
    #[inline(never)]
    pub fn put(&self, len: usize, out: &mut BytesMut)
        requires len_is { len ≡ length (performative_text (performative.Open self.now)) }
        requires room { length (performative_text (performative.Open self.now)) ≤ out.old.spare }
        requires fits { length (performative_text (performative.Open self.now)) < 2 ^ 32 }
        ensures items { out.new.items ≡ out.old.items ++ performative_text (performative.Open self.now) }
        ensures spare { out.new.spare + length (performative_text (performative.Open self.now)) ≡ out.old.spare }
    {
        put_described(codes::OPEN, &self.parts(), len, out)
    }
}
