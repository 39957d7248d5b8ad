//! Transfer (AMQP 1.0 part 2, section 2.7.5).

ghost use Rattle.std.specs.Prelude.{◌≡◌, ◌<◌, ◌≤◌, ◌+◌, ◌^◌, ◌++◌, length, List, ℕ, Option};
ghost use Rattle.amqp_types.specs.Transfer.{continuation, said_in, transfer_body_at, widest};
ghost use Rattle.amqp_types.specs.Transfer.{transfer_table, transfer_first_same, transfer_last_same};
ghost use Rattle.amqp_types.specs.declared.performatives.Performative.TheVariants as performative;
ghost use Rattle.amqp_types.specs.Performatives.{performative_text};

use crate::borrowed;
use crate::definitions::{DeliveryTag, Handle, ReceiverSettleMode};
use amqp_values::{
    Binary, Composite, Cons4, ListWalk, Raw, ReadError, Row3, Verbatim, codes, described_len,
    field_list, put_described,
};
use bytes::{Bytes, BytesMut};
use std::alloc::Global;
use std::marker::Model;

/// A message, or a part of one, on a link (AMQP 1.0 part 2, section 2.7.5).
///
/// ```
/// let mut transfer = Transfer::new(Handle(0));
/// transfer.delivery_tag = Some(tag);       // a first transfer of a delivery has one
/// transfer.settled = Some(true);
/// ```
#[derive(Clone, Debug, Drop)]
pub struct Transfer {
    /// The link. Mandatory.
    pub handle: Handle,
    /// The number of the delivery.
    pub delivery_id: Option<u32>,
    /// The tag of the delivery.
    pub delivery_tag: Option<DeliveryTag>,
    /// The format of the message.
    pub message_format: Option<u32>,
    /// Whether the sender has settled the delivery.
    pub settled: Option<bool>,
    /// Whether more transfers of the delivery follow. Default: false.
    pub more: bool,
    /// How the receiver is to settle.
    pub rcv_settle_mode: Option<ReceiverSettleMode>,
    /// The state of the delivery.
    pub state: Option<Raw>,
    /// Whether this resumes a delivery. Default: false.
    pub resume: bool,
    /// Whether the delivery is aborted. Default: false.
    pub aborted: bool,
    /// Whether the peer may delay its answer. Default: false.
    pub batchable: bool,
}

/// Which text of a transfer is meant. Where a delivery does not fit one frame, it is cut: each transfer but the last says
/// that more follow, and only the first one says what concerns the whole delivery (AMQP 1.0 part 2, section 2.6.14).
#[derive(Clone, Copy, Debug, PartialEq, Eq)]
pub enum TransferFragment {
    /// The transfer as it is.
    Whole,
    /// The transfer that begins a delivery that is cut.
    First,
    /// A transfer in the middle.
    Middle,
    /// The transfer that ends the delivery. Whether more follow is what the whole transfer says.
    Last,
}

impl Model for Transfer {
    ghost use Rattle.std.specs.Option.{option_map};
    ghost use Rattle.amqp_types.specs.Transfer.{TransferModel};

    ghost Value = { TransferModel };

    ghost view = { λ p. record {
      handle = p.handle.0;
      delivery_id = p.delivery_id;
      delivery_tag = option_map (λ v. v.0) p.delivery_tag;
      message_format = p.message_format;
      settled = p.settled;
      more = p.more;
      rcv_settle_mode = p.rcv_settle_mode;
      state = p.state;
      resume = p.resume;
      aborted = p.aborted;
      batchable = p.batchable;
    } };
}

impl PartialEq for Transfer {
    ghost use Rattle.std.specs.Cmp.{partial_equiv_from_equiv};
    ghost use Rattle.amqp_types.specs.Transfer.{transfer_same};

    ghost eq = { transfer_same.test };

    ghost laws = { partial_equiv_from_equiv transfer_same.laws };

    fn eq(&self, other: &Transfer) -> bool {
        self.same_first(other) && self.same_last(other)
    }
}

impl Transfer {
    /// Whether the first fields are the same.
    fn same_first(&self, other: &Transfer) -> bool
        ensures { result ≡ transfer_first_same.test self.now other.now }
    {
        self.handle == other.handle
            && self.delivery_id == other.delivery_id
            && self.delivery_tag == other.delivery_tag
            && self.message_format == other.message_format
            && self.settled == other.settled
            && self.more == other.more
    }

    /// Whether the last fields are the same.
    fn same_last(&self, other: &Transfer) -> bool
        ensures { result ≡ transfer_last_same.test self.now other.now }
    {
        self.rcv_settle_mode == other.rcv_settle_mode
            && self.state == other.state
            && self.resume == other.resume
            && self.aborted == other.aborted
            && self.batchable == other.batchable
    }
}

impl Composite for Transfer {
    ghost body_at = { transfer_body_at };

    #[tactic(auto, unfolding(crate::specs::Transfer::transfer_body_at))]
    #[inline(always)]
    fn read_list(alloc: Global, bytes: &mut Bytes) -> Result<Transfer, ReadError> {
        let (mut walk, end) = match ListWalk::enter(bytes.as_slice()) {
            Ok(entered) => entered,
            Err(error) => return Err(error),
        };
        let (text, _) = bytes.as_slice().split_at(end);
        let handle = walk.required(alloc, text, &*bytes)?;
        let delivery_id = walk.next(alloc, text, &*bytes)?;
        let delivery_tag = walk.next(alloc, text, &*bytes)?;
        let message_format = walk.next(alloc, text, &*bytes)?;
        let settled = walk.next(alloc, text, &*bytes)?;
        let more = walk.or(alloc, text, &*bytes, false)?;
        let rcv_settle_mode = walk.next(alloc, text, &*bytes)?;
        let state = walk.next(alloc, text, &*bytes)?;
        let resume = walk.or(alloc, text, &*bytes, false)?;
        let aborted = walk.or(alloc, text, &*bytes, false)?;
        let batchable = walk.or(alloc, text, &*bytes, false)?;
        walk.finish(text)?;
        bytes.advance(end);
        Ok(Transfer {
            handle,
            delivery_id,
            delivery_tag,
            message_format,
            settled,
            more,
            rcv_settle_mode,
            state,
            resume,
            aborted,
            batchable,
        })
    }
}

/// The fields, borrowed for writing, by types of their own.
pub(crate) type TransferRow<'a> = Cons4<
    u32,
    Option<u32>,
    Option<Binary<'a>>,
    Option<u32>,
    Cons4<Option<bool>, Option<bool>, Option<u8>, Option<Verbatim<'a>>, Row3<Option<bool>>>,
>;

impl Transfer {
    /// The fields, borrowed for writing.
    #[inline(always)]
    pub(crate) fn parts(&self) -> TransferRow<'_>
        ensures { result ≡ (transfer_table self.now).canonical }
    {
        self.parts_with(self.more)
    }

    /// The fields with this `more`.
    #[inline(always)]
    fn parts_with(&self, more: bool) -> TransferRow<'_>
        ensures { result ≡ (transfer_table (record self.now { more = more })).canonical }
    {
        self.parts_numbered(self.delivery_id, more)
    }

    /// The fields with this number and this `more`.
    #[tactic(auto, unfolding(crate::specs::Transfer::transfer_table))]
    #[inline(always)]
    fn parts_numbered(&self, number: Option<u32>, more: bool) -> TransferRow<'_>
        ensures { result ≡ (transfer_table (record self.now { delivery_id = number; more = more })).canonical }
    {
        field_list![
            self.handle.0,
            number,
            borrowed::optional_tag(&self.delivery_tag),
            self.message_format,
            self.settled,
            borrowed::true_or_null(more),
            borrowed::optional_receiver_mode(self.rcv_settle_mode),
            borrowed::optional_value(&self.state),
            borrowed::true_or_null(self.resume),
            borrowed::true_or_null(self.aborted),
            borrowed::true_or_null(self.batchable),
        ]
    }

    /// The fields of a continuation with this `more`.
    #[tactic(auto, unfolding(crate::specs::Transfer::transfer_table))]
    #[inline(always)]
    fn parts_continued(&self, more: bool) -> TransferRow<'_>
        ensures { result ≡ (transfer_table (record (continuation self.now) { more = more })).canonical }
    {
        field_list![
            self.handle.0,
            None,
            None,
            None,
            None,
            borrowed::true_or_null(more),
            None,
            borrowed::optional_value(&self.state),
            borrowed::true_or_null(self.resume),
            borrowed::true_or_null(self.aborted),
            borrowed::true_or_null(self.batchable),
        ]
    }

    /// The fields of one of the texts.
    #[inline(always)]
    fn parts_in(&self, text: TransferFragment) -> TransferRow<'_>
        ensures { result ≡ (transfer_table (said_in text self.now)).canonical }
    {
        match text {
            TransferFragment::Whole => self.parts(),
            TransferFragment::First => self.parts_with(true),
            TransferFragment::Middle => self.parts_continued(true),
            TransferFragment::Last => self.parts_continued(self.more),
        }
    }

    /// The length in bytes of one of the texts. Takes no memory, and neither clones nor writes anything.
    pub fn encoded_len_in(&self, text: TransferFragment) -> u128
        ensures value { result ≡ length (performative_text (performative.Transfer (said_in text self.now))) }
        ensures bound { result < 2 ^ 127 }
    {
        described_len(&self.parts_in(text))
    }

    /// The fields of one of the texts, with the widest number.
    #[inline(always)]
    fn widest_parts_in(&self, text: TransferFragment) -> TransferRow<'_>
        ensures { result ≡ (transfer_table (said_in text (widest self.now))).canonical }
    {
        match text {
            TransferFragment::Whole => self.parts_numbered(Some(u32::MAX), self.more),
            TransferFragment::First => self.parts_numbered(Some(u32::MAX), true),
            TransferFragment::Middle | TransferFragment::Last => self.parts_in(text),
        }
    }

    /// The length in bytes of one of the texts of the transfer with the widest number that its delivery can get: that takes five bytes
    /// where it stands, and an absent one takes one. So the text is no longer whatever number a session gives it. Takes no memory.
    pub fn widest_len_in(&self, text: TransferFragment) -> u128
        ensures value { result ≡ length (performative_text (performative.Transfer (said_in text (widest self.now)))) }
        ensures bound { result < 2 ^ 127 }
    {
        described_len(&self.widest_parts_in(text))
    }

    /// Appends one of the texts, whose length is `len`, to a buffer that has room for it.
    pub fn put_in(&self, text: TransferFragment, len: usize, out: &mut BytesMut)
        requires len_is { len ≡ length (performative_text (performative.Transfer (said_in text self.now))) }
        requires room { length (performative_text (performative.Transfer (said_in text self.now))) ≤ out.old.spare }
        requires fits { length (performative_text (performative.Transfer (said_in text self.now))) < 2 ^ 32 }
        ensures items { out.new.items ≡ out.old.items ++ performative_text (performative.Transfer (said_in text self.now)) }
        ensures spare { out.new.spare + length (performative_text (performative.Transfer (said_in text self.now))) ≡ out.old.spare }
    {
        put_described(codes::TRANSFER, &self.parts_in(text), len, out)
    }

    /// The length in bytes of the canonical text. Takes no memory and writes nothing.
    #[inline(never)]
    pub fn encoded_len(&self) -> u128
        ensures value { result ≡ length (performative_text (performative.Transfer self.now)) }
        ensures bound { result < 2 ^ 127 }
    {
        described_len(&self.parts())
    }

    /// Appends the canonical text, whose length is `len`, to a buffer that has room for it.
    #[inline(never)]
    pub fn put(&self, len: usize, out: &mut BytesMut)
        requires len_is { len ≡ length (performative_text (performative.Transfer self.now)) }
        requires room { length (performative_text (performative.Transfer self.now)) ≤ out.old.spare }
        requires fits { length (performative_text (performative.Transfer self.now)) < 2 ^ 32 }
        ensures items { out.new.items ≡ out.old.items ++ performative_text (performative.Transfer self.now) }
        ensures spare { out.new.spare + length (performative_text (performative.Transfer self.now)) ≡ out.old.spare }
    {
        put_described(codes::TRANSFER, &self.parts(), len, out)
    }
}
