//! Transfers that are asked for, and that wait for the window, and the frames that they go out as.

ghost use Rattle.std.specs.Prelude.{◌≡◌, ℕ, ◌+◌, ◌%◌, ◌^◌, IfOk, OnErr, true, false, if◌then◌else◌};
ghost use Rattle.std.specs.Option.{option_map};
ghost use Rattle.amqp_memory.specs.Refusal.{SomeRefused};
ghost use Rattle.amqp_session.specs.Transfers.{frame_of, record_of, first_of, kept_tag};
ghost use Rattle.amqp_session.specs.Step.{IsUntagged};

use crate::deliveries::Delivery;
use crate::frame::{SessionFrame, SessionFrameBody};
use crate::numbers::{InputHandle, OutgoingChannel};
use amqp_types::{DeliveryTag, Transfer};
use bytes::Bytes;
use std::alloc::AllocError;
use std::marker::Model;

/// A transfer as it is asked for: for the link of an input handle, with its payload, the first of its delivery or a later one.
#[derive(Drop)]
pub(crate) struct RequestedTransfer {
    pub(crate) input_handle: InputHandle,
    pub(crate) transfer: Transfer,
    pub(crate) payload: Bytes,
    pub(crate) is_first: bool,
}

impl Model for RequestedTransfer {
    ghost use Rattle.amqp_session.specs.Transfers.{RequestedTransfer};

    ghost Value = { RequestedTransfer };

    ghost view = { λ r. record {
      input_handle = r.input_handle.0;
      transfer = r.transfer;
      payload = r.payload;
      is_first = r.is_first;
    } };
}

/// A transfer that was accepted and waits.
///
/// The tag for the record of its delivery is taken when the transfer is accepted, so that it needs no memory when it goes out.
#[derive(Drop)]
pub(crate) struct HeldTransfer {
    requested: RequestedTransfer,
    tag: Option<DeliveryTag>,
}

impl Model for HeldTransfer {
    ghost use Rattle.std.specs.Prelude.{◌≡◌};
    ghost use Rattle.std.specs.Option.{option_map};
    ghost use Rattle.amqp_session.specs.Transfers.{RequestedTransfer, kept_tag};

    ghost Value = { RequestedTransfer };

    ghost view = { λ h. h.requested };

    ghost invariant = { λ h. option_map (λ t. t.0) h.tag ≡ kept_tag h.requested.is_first h.requested.transfer };
}

/// What goes out for one transfer that waited.
#[derive(Drop)]
pub(crate) struct OutgoingTransfer {
    /// Its frame.
    pub(crate) frame: SessionFrame,
    /// The delivery that it opens.
    pub(crate) delivery: Option<Delivery>,
    /// The number of the next delivery.
    pub(crate) next: u32,
}

/// The tag under which a delivery is recorded: that of its first transfer, unless it is settled already.
#[inline(always)]
pub(crate) fn tag_to_keep(
    transfer: &Transfer,
    is_first: bool,
) -> Result<Option<DeliveryTag>, AllocError>
    ensures kept { IfOk result (λ tag. option_map (λ t. t.0) tag ≡ kept_tag is_first transfer.now) }
    ensures refused { OnErr result SomeRefused }
{
    if !is_first || transfer.settled.unwrap_or(false) {
        return Ok(None);
    }
    match &transfer.delivery_tag {
        None => Ok(None),
        Some(tag) => Ok(Some(tag.clone()?)),
    }
}

/// The frame of a transfer, where `delivery` is the number of the next delivery: the first frame of a delivery gets it, and any
/// other none.
#[inline(always)]
pub(crate) fn frame_of(
    channel: OutgoingChannel,
    delivery: u32,
    transfer: Transfer,
    payload: Bytes,
    is_first: bool,
) -> SessionFrame
    ensures { result ≡ frame_of channel.0 delivery
        (record { input_handle = 0; transfer = transfer; payload = payload; is_first = is_first }) }
{
    let mut performative = transfer;
    performative.delivery_id = if is_first { Some(delivery) } else { None };
    SessionFrame::new(
        channel.0,
        SessionFrameBody::Transfer {
            performative,
            payload,
        },
    )
}

/// The delivery under the tag that is kept of its first transfer, if any.
#[inline(always)]
pub(crate) fn record_of(
    delivery: u32,
    input_handle: InputHandle,
    tag: Option<DeliveryTag>,
) -> Option<Delivery>
    ensures { result ≡ option_map (λ tag. record { number = delivery; input_handle = input_handle; tag = tag }) tag }
{
    match tag {
        None => None,
        Some(tag) => Some(Delivery {
            number: delivery,
            input_handle,
            tag,
        }),
    }
}

/// The number of the next delivery, after this transfer.
#[inline(always)]
pub(crate) fn next_delivery(delivery: u32, is_first: bool) -> u32
    ensures { result ≡ (delivery + (if is_first then 1 else 0)) % 2 ^ 32 }
{
    if is_first {
        delivery.wrapping_add(1)
    } else {
        delivery
    }
}

impl RequestedTransfer {
    /// Whether it is the first of its delivery, and has no tag.
    #[inline(always)]
    pub(crate) fn is_untagged(&self) -> bool
        ensures untagged { result ≡ true → IsUntagged self.now }
        ensures tagged { result ≡ false → ¬ (IsUntagged self.now) }
    {
        self.is_first && self.transfer.delivery_tag.is_none()
    }
}

impl HeldTransfer {
    /// The transfer, ready to wait. Its payload and tag are moved or shared, never copied.
    #[inline(always)]
    pub(crate) fn new(requested: RequestedTransfer) -> Result<HeldTransfer, AllocError>
        ensures held { IfOk result (λ held. held ≡ requested) }
        ensures refused { OnErr result SomeRefused }
    {
        let tag = tag_to_keep(&requested.transfer, requested.is_first)?;
        Ok(HeldTransfer { requested, tag })
    }

    /// The number of the next delivery after this transfer, where `delivery` is that before it.
    #[inline(always)]
    pub(crate) fn number_after(&self, delivery: u32) -> u32
        ensures { result ≡ (delivery + first_of self.now) % 2 ^ 32 }
    {
        next_delivery(delivery, self.requested.is_first)
    }

    /// The frame, where `delivery` is the number of the next delivery: the first frame of a delivery gets it, and any other none.
    #[inline(always)]
    pub(crate) fn numbered(self, channel: OutgoingChannel, delivery: u32) -> OutgoingTransfer
        ensures frame { result.frame ≡ frame_of channel.0 delivery self }
        ensures delivery { result.delivery ≡ record_of delivery self }
        ensures next { result.next ≡ (delivery + first_of self) % 2 ^ 32 }
    {
        let HeldTransfer { requested, tag } = self;
        let RequestedTransfer {
            input_handle,
            transfer,
            payload,
            is_first,
        } = requested;
        OutgoingTransfer {
            frame: frame_of(channel, delivery, transfer, payload, is_first),
            delivery: record_of(delivery, input_handle, tag),
            next: next_delivery(delivery, is_first),
        }
    }
}
