//! Attach (AMQP 1.0 part 2, section 2.7.3).

ghost use Rattle.std.specs.Prelude.{◌≡◌, ◌<◌, ◌≤◌, ◌+◌, ◌^◌, ◌++◌, length, take, List, ℕ, Option};
ghost use Rattle.std.specs.Option.{option_map};
ghost use Rattle.amqp_values.specs.Reading.{Gives};
ghost use Rattle.amqp_values.specs.Slots.{beside};
ghost use Rattle.amqp_values.specs.Walking.{ahead};
ghost use Rattle.amqp_types.specs.Attach.{attach_rest_at, attach_body_at, attach_table, attach_first_same, attach_last_same};
ghost use Rattle.amqp_types.specs.declared.performatives.Performative.TheVariants as performative;
ghost use Rattle.amqp_types.specs.Performatives.{performative_text};

use crate::borrowed;
use crate::definitions::{Handle, ReceiverSettleMode, Role, SenderSettleMode};
use amqp_values::{
    Composite, Cons2, Cons4, Fields, ListWalk, NoMore, Raw, ReadError, StringRef, Symbol, Symbols,
    Verbatim, codes, described_len, field_list, put_described,
};
use bytes::{Bytes, BytesMut};
use std::alloc::Global;
use std::marker::Model;

/// A link is attached to a session (AMQP 1.0 part 2, section 2.7.3).
///
/// ```
/// let mut attach = Attach::new(name, Handle(0), Role::Sender);
/// attach.initial_delivery_count = Some(0); // a sender has to say it
/// ```
#[derive(Clone, Debug, Drop)]
pub struct Attach {
    /// The name of the link. Mandatory.
    pub name: String,
    /// The handle of the link. Mandatory.
    pub handle: Handle,
    /// The end of the link on which the sender of the frame stands. Mandatory.
    pub role: Role,
    /// How the sending end settles. Default: mixed.
    pub snd_settle_mode: SenderSettleMode,
    /// How the receiving end settles. Default: first.
    pub rcv_settle_mode: ReceiverSettleMode,
    /// Where messages come from.
    pub source: Option<Raw>,
    /// Where messages go.
    pub target: Option<Raw>,
    /// The deliveries that are not settled.
    pub unsettled: Option<Fields>,
    /// Whether there are more unsettled deliveries than the map names. Default: false.
    pub incomplete_unsettled: bool,
    /// Where the delivery count begins.
    pub initial_delivery_count: Option<u32>,
    /// The largest message that the sender of the frame takes, in bytes.
    pub max_message_size: Option<u64>,
    /// What the sender of the frame can do.
    pub offered_capabilities: Option<Vec<Symbol>>,
    /// What it wants the peer to do.
    pub desired_capabilities: Option<Vec<Symbol>>,
    /// Anything else.
    pub properties: Option<Fields>,
}

impl Model for Attach {
    ghost use Rattle.std.specs.Prelude.{string_bytes};
    ghost use Rattle.std.specs.Option.{option_map};
    ghost use Rattle.amqp_types.specs.Attach.{AttachModel};

    ghost Value = { AttachModel };

    ghost view = { λ p. record {
      name = string_bytes p.name;
      handle = p.handle.0;
      role = p.role;
      snd_settle_mode = p.snd_settle_mode;
      rcv_settle_mode = p.rcv_settle_mode;
      source = p.source;
      target = p.target;
      unsettled = p.unsettled;
      incomplete_unsettled = p.incomplete_unsettled;
      initial_delivery_count = p.initial_delivery_count;
      max_message_size = p.max_message_size;
      offered_capabilities = option_map (λ v. v.items) p.offered_capabilities;
      desired_capabilities = option_map (λ v. v.items) p.desired_capabilities;
      properties = p.properties;
    } };
}

impl PartialEq for Attach {
    ghost use Rattle.std.specs.Cmp.{partial_equiv_from_equiv};
    ghost use Rattle.amqp_types.specs.Attach.{attach_same};

    ghost eq = { attach_same.test };

    ghost laws = { partial_equiv_from_equiv attach_same.laws };

    fn eq(&self, other: &Attach) -> bool {
        self.same_first(other) && self.same_last(other)
    }
}

impl Attach {
    /// Whether the first fields are the same.
    fn same_first(&self, other: &Attach) -> bool
        ensures { result ≡ attach_first_same.test self.now other.now }
    {
        self.name == other.name
            && self.handle == other.handle
            && self.role == other.role
            && self.snd_settle_mode == other.snd_settle_mode
            && self.rcv_settle_mode == other.rcv_settle_mode
            && self.source == other.source
            && self.target == other.target
    }

    /// Whether the last fields are the same.
    fn same_last(&self, other: &Attach) -> bool
        ensures { result ≡ attach_last_same.test self.now other.now }
    {
        self.unsettled == other.unsettled
            && self.incomplete_unsettled == other.incomplete_unsettled
            && self.initial_delivery_count == other.initial_delivery_count
            && self.max_message_size == other.max_message_size
            && self.offered_capabilities == other.offered_capabilities
            && self.desired_capabilities == other.desired_capabilities
            && self.properties == other.properties
    }
}

impl Composite for Attach {
    ghost body_at = { attach_body_at };

    #[tactic(auto, unfolding(crate::specs::Attach::attach_body_at))]
    #[inline(always)]
    fn read_list(alloc: Global, bytes: &mut Bytes) -> Result<Attach, ReadError> {
        let (mut walk, end) = match ListWalk::enter(bytes.as_slice()) {
            Ok(entered) => entered,
            Err(error) => return Err(error),
        };
        let (text, _) = bytes.as_slice().split_at(end);
        let name = walk.required(alloc, text, &*bytes)?;
        let handle = walk.required(alloc, text, &*bytes)?;
        let role = walk.required(alloc, text, &*bytes)?;
        let snd_settle_mode = walk.or(alloc, text, &*bytes, SenderSettleMode::Mixed)?;
        let rcv_settle_mode = walk.or(alloc, text, &*bytes, ReceiverSettleMode::First)?;
        let source = walk.next(alloc, text, &*bytes)?;
        let target = walk.next(alloc, text, &*bytes)?;
        let unsettled = walk.next(alloc, text, &*bytes)?;
        let incomplete_unsettled = walk.or(alloc, text, &*bytes, false)?;
        let rest = take_rest(alloc, &mut walk, text, &*bytes)?;
        bytes.advance(end);
        Ok(Attach {
            name,
            handle,
            role,
            snd_settle_mode,
            rcv_settle_mode,
            source,
            target,
            unsettled,
            incomplete_unsettled,
            initial_delivery_count: rest.initial_delivery_count,
            max_message_size: rest.max_message_size,
            offered_capabilities: rest.offered_capabilities,
            desired_capabilities: rest.desired_capabilities,
            properties: rest.properties,
        })
    }
}

/// The fields from the delivery count on.
#[derive(Drop)]
struct Rest {
    initial_delivery_count: Option<u32>,
    max_message_size: Option<u64>,
    offered_capabilities: Option<Vec<Symbol>>,
    desired_capabilities: Option<Vec<Symbol>>,
    properties: Option<Fields>,
}

#[tactic(auto, unfolding(crate::specs::Attach::attach_rest_at))]
fn take_rest(
    alloc: Global,
    walk: &mut ListWalk,
    text: &[u8],
    bytes: &Bytes,
) -> Result<Rest, ReadError>
    requires inside { walk.old.at ≤ length text.now }
    requires front { text.now ≡ take (length text.now) bytes.now }
    ensures { let symbols = option_map (λ v. v.items) in
        Gives (λ r. beside r.initial_delivery_count (beside r.max_message_size
        (beside (symbols r.offered_capabilities) (beside (symbols r.desired_capabilities) (beside r.properties tt)))))
        result (ahead text.now walk.new) (attach_rest_at (ahead text.now walk.old)) }
{
    let initial_delivery_count = walk.next(alloc, text, bytes)?;
    let max_message_size = walk.next(alloc, text, bytes)?;
    let offered_capabilities = walk.next(alloc, text, bytes)?;
    let desired_capabilities = walk.next(alloc, text, bytes)?;
    let properties = walk.next(alloc, text, bytes)?;
    walk.finish(text)?;
    Ok(Rest {
        initial_delivery_count,
        max_message_size,
        offered_capabilities,
        desired_capabilities,
        properties,
    })
}

/// The fields, borrowed for writing, by types of their own.
pub(crate) type AttachRow<'a> = Cons4<
    StringRef<'a>,
    u32,
    bool,
    Option<u8>,
    Cons4<
        Option<u8>,
        Option<Verbatim<'a>>,
        Option<Verbatim<'a>>,
        Option<Verbatim<'a>>,
        Cons4<
            Option<bool>,
            Option<u32>,
            Option<u64>,
            Option<Symbols<'a>>,
            Cons2<Option<Symbols<'a>>, Option<Verbatim<'a>>, NoMore>,
        >,
    >,
>;

impl Attach {
    /// The fields, borrowed for writing.
    #[tactic(auto, unfolding(crate::specs::Attach::attach_table))]
    #[inline(always)]
    pub(crate) fn parts(&self) -> AttachRow<'_>
        ensures { result ≡ (attach_table self.now).canonical }
    {
        field_list![
            StringRef(self.name.as_str()),
            self.handle.0,
            borrowed::role(self.role),
            borrowed::sender_mode(self.snd_settle_mode),
            borrowed::receiver_mode(self.rcv_settle_mode),
            borrowed::optional_value(&self.source),
            borrowed::optional_value(&self.target),
            borrowed::optional_fields(&self.unsettled),
            borrowed::true_or_null(self.incomplete_unsettled),
            self.initial_delivery_count,
            self.max_message_size,
            borrowed::optional_symbols(&self.offered_capabilities),
            borrowed::optional_symbols(&self.desired_capabilities),
            borrowed::optional_fields(&self.properties),
        ]
    }

    /// The length in bytes of the canonical text. Takes no memory and writes nothing.
    #[inline(never)]
    pub fn encoded_len(&self) -> u128
        ensures value { result ≡ length (performative_text (performative.Attach self.now)) }
        ensures bound { result < 2 ^ 127 }
    {
        described_len(&self.parts())
    }

    /// Appends the canonical text, whose length is `len`, to a buffer that has room for it.
    #[inline(never)]
    pub fn put(&self, len: usize, out: &mut BytesMut)
        requires len_is { len ≡ length (performative_text (performative.Attach self.now)) }
        requires room { length (performative_text (performative.Attach self.now)) ≤ out.old.spare }
        requires fits { length (performative_text (performative.Attach self.now)) < 2 ^ 32 }
        ensures items { out.new.items ≡ out.old.items ++ performative_text (performative.Attach self.now) }
        ensures spare { out.new.spare + length (performative_text (performative.Attach self.now)) ≡ out.old.spare }
    {
        put_described(codes::ATTACH, &self.parts(), len, out)
    }
}
