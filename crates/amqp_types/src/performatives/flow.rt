//! Flow (AMQP 1.0 part 2, section 2.7.4).

ghost use Rattle.std.specs.Prelude.{◌≡◌, ◌<◌, ◌≤◌, ◌+◌, ◌^◌, ◌++◌, length, List, ℕ, Option};
ghost use Rattle.amqp_values.specs.Reading.{Gives};
ghost use Rattle.amqp_types.specs.Flow.{flow_body_at, flow_table, flow_first_same, flow_last_same};
ghost use Rattle.amqp_types.specs.declared.performatives.Performative.TheVariants as performative;
ghost use Rattle.amqp_types.specs.Performatives.{performative_text};

use crate::borrowed;
use crate::definitions::Handle;
use amqp_values::{
    Composite, Cons2, Cons4, Fields, ListWalk, ReadError, Row1, Verbatim, codes, described_len,
    field_list, put_described,
};
use bytes::{Bytes, BytesMut};
use std::alloc::Global;
use std::marker::Model;

/// The windows of a session, and the credit of a link (AMQP 1.0 part 2, section 2.7.4).
///
/// ```
/// let mut flow = Flow::new(Some(0), 2048, 0, 2048);
/// flow.handle = Some(Handle(0));
/// flow.link_credit = Some(10);
/// ```
#[derive(Clone, Debug, Drop)]
pub struct Flow {
    /// The number of the next transfer that is expected.
    pub next_incoming_id: Option<u32>,
    /// How many transfers may come. Mandatory.
    pub incoming_window: u32,
    /// The number of the next transfer that goes out. Mandatory.
    pub next_outgoing_id: u32,
    /// How many transfers may go. Mandatory.
    pub outgoing_window: u32,
    /// The link that is meant, if any.
    pub handle: Option<Handle>,
    /// The delivery count of the link.
    pub delivery_count: Option<u32>,
    /// The link's credit: how many more messages the receiver takes.
    pub link_credit: Option<u32>,
    /// How many messages the sender has ready.
    pub available: Option<u32>,
    /// Whether the sender is to use up its credit. Default: false.
    pub drain: bool,
    /// Whether a flow is wanted in answer. Default: false.
    pub echo: bool,
    /// Anything else.
    pub properties: Option<Fields>,
}

impl Model for Flow {
    ghost use Rattle.std.specs.Option.{option_map};
    ghost use Rattle.amqp_types.specs.Flow.{FlowModel};

    ghost Value = { FlowModel };

    ghost view = { λ p. record {
      next_incoming_id = p.next_incoming_id;
      incoming_window = p.incoming_window;
      next_outgoing_id = p.next_outgoing_id;
      outgoing_window = p.outgoing_window;
      handle = option_map (λ v. v.0) p.handle;
      delivery_count = p.delivery_count;
      link_credit = p.link_credit;
      available = p.available;
      drain = p.drain;
      echo = p.echo;
      properties = p.properties;
    } };
}

impl PartialEq for Flow {
    ghost use Rattle.std.specs.Cmp.{partial_equiv_from_equiv};
    ghost use Rattle.amqp_types.specs.Flow.{flow_same};

    ghost eq = { flow_same.test };

    ghost laws = { partial_equiv_from_equiv flow_same.laws };

    fn eq(&self, other: &Flow) -> bool {
        self.same_first(other) && self.same_last(other)
    }
}

impl Flow {
    /// Whether the first fields are the same.
    fn same_first(&self, other: &Flow) -> bool
        ensures { result ≡ flow_first_same.test self.now other.now }
    {
        self.next_incoming_id == other.next_incoming_id
            && self.incoming_window == other.incoming_window
            && self.next_outgoing_id == other.next_outgoing_id
            && self.outgoing_window == other.outgoing_window
            && self.handle == other.handle
            && self.delivery_count == other.delivery_count
    }

    /// Whether the last fields are the same.
    fn same_last(&self, other: &Flow) -> bool
        ensures { result ≡ flow_last_same.test self.now other.now }
    {
        self.link_credit == other.link_credit
            && self.available == other.available
            && self.drain == other.drain
            && self.echo == other.echo
            && self.properties == other.properties
    }
}

impl Composite for Flow {
    ghost body_at = { flow_body_at };

    #[tactic(auto, unfolding(crate::specs::Flow::flow_body_at))]
    #[inline(always)]
    fn read_list(alloc: Global, bytes: &mut Bytes) -> Result<Flow, ReadError> {
        let (mut walk, end) = match ListWalk::enter(bytes.as_slice()) {
            Ok(entered) => entered,
            Err(error) => return Err(error),
        };
        let (text, _) = bytes.as_slice().split_at(end);
        let next_incoming_id = walk.next(alloc, text, &*bytes)?;
        let incoming_window = walk.required(alloc, text, &*bytes)?;
        let next_outgoing_id = walk.required(alloc, text, &*bytes)?;
        let outgoing_window = walk.required(alloc, text, &*bytes)?;
        let handle = walk.next(alloc, text, &*bytes)?;
        let delivery_count = walk.next(alloc, text, &*bytes)?;
        let link_credit = walk.next(alloc, text, &*bytes)?;
        let available = walk.next(alloc, text, &*bytes)?;
        let drain = walk.or(alloc, text, &*bytes, false)?;
        let echo = walk.or(alloc, text, &*bytes, false)?;
        let properties = walk.next(alloc, text, &*bytes)?;
        walk.finish(text)?;
        bytes.advance(end);
        Ok(Flow {
            next_incoming_id,
            incoming_window,
            next_outgoing_id,
            outgoing_window,
            handle,
            delivery_count,
            link_credit,
            available,
            drain,
            echo,
            properties,
        })
    }
}

/// The fields, borrowed for writing, by types of their own.
pub(crate) type FlowRow<'a> = Cons4<
    Option<u32>,
    u32,
    u32,
    u32,
    Cons4<
        Option<u32>,
        Option<u32>,
        Option<u32>,
        Option<u32>,
        Cons2<Option<bool>, Option<bool>, Row1<Option<Verbatim<'a>>>>,
    >,
>;

impl Flow {
    /// The fields, borrowed for writing.
    #[tactic(auto, unfolding(crate::specs::Flow::flow_table))]
    #[inline(always)]
    pub(crate) fn parts(&self) -> FlowRow<'_>
        ensures { result ≡ (flow_table self.now).canonical }
    {
        field_list![
            self.next_incoming_id,
            self.incoming_window,
            self.next_outgoing_id,
            self.outgoing_window,
            borrowed::optional_handle(self.handle),
            self.delivery_count,
            self.link_credit,
            self.available,
            borrowed::true_or_null(self.drain),
            borrowed::true_or_null(self.echo),
            borrowed::optional_fields(&self.properties),
        ]
    }

    /// The length in bytes of the canonical text. Takes no memory and writes nothing.
    #[inline(never)]
    pub fn encoded_len(&self) -> u128
        ensures value { result ≡ length (performative_text (performative.Flow self.now)) }
        ensures bound { result < 2 ^ 127 }
    {
        described_len(&self.parts())
    }

    /// Appends the canonical text, whose length is `len`, to a buffer that has room for it.
    #[inline(never)]
    pub fn put(&self, len: usize, out: &mut BytesMut)
        requires len_is { len ≡ length (performative_text (performative.Flow self.now)) }
        requires room { length (performative_text (performative.Flow self.now)) ≤ out.old.spare }
        requires fits { length (performative_text (performative.Flow self.now)) < 2 ^ 32 }
        ensures items { out.new.items ≡ out.old.items ++ performative_text (performative.Flow self.now) }
        ensures spare { out.new.spare + length (performative_text (performative.Flow self.now)) ≡ out.old.spare }
    {
        put_described(codes::FLOW, &self.parts(), len, out)
    }
}
