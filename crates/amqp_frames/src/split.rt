//! A delivery as transfers that are one frame each, for who keeps the peer's window on the wire (AMQP 1.0 part 2, sections 2.5.6
//! and 2.6.14).

ghost use Rattle.std.specs.Prelude.{◌≡◌, ◌≤◌, ◌<◌, ◌+◌, ◌*◌, IfOk, OnOk, OnErr, length, vec_len, vec_capacity};
ghost use Rattle.amqp_memory.specs.Refusal.{SomeRefused};
ghost use Rattle.amqp_types.specs.Transfer.{said_in};
ghost use Rattle.amqp_types.specs.declared.performatives.transfer.TransferFragment.TheVariants as text;
ghost use Rattle.amqp_frames.specs.Inner.Parts.{AddsParts, TakesParts};
ghost use Rattle.amqp_frames.specs.Split.{InOne, SplitsTo};

use crate::error::Error;
use amqp_memory::{front_of, shared, vector_for, vector_with};
use amqp_types::{DeliveryTag, Raw, Transfer, TransferFragment};
use bytes::Bytes;
use std::alloc::{AllocError, Global};

/// One transfer of a delivery, as a link asks a session to send it.
///
/// ```
/// for part in split_delivery(alloc, &transfer, &payload, max_piece_len)? {
///     inputs.push_back(Input::Transfer(session, link, part.transfer, part.payload, part.is_first))?;
/// }
/// ```
#[derive(Debug, Drop)]
pub struct DeliveryPart {
    /// The transfer.
    pub transfer: Transfer,
    /// Its part of the payload, which shares the bytes of the whole.
    pub payload: Bytes,
    /// Whether it is the first one of the delivery.
    pub is_first: bool,
}

/// The transfers of one delivery, in order. Each is one Transfer frame where a piece has at most `max_piece_len` bytes, whatever number
/// its session gives the delivery; so each takes one from the peer's window, as the session counts. A delivery that fits is one
/// transfer, as it is. Else each but the last is full; the first says that more follow, a later one says nothing again of the delivery,
/// and the last one has the `more` of `transfer`.
///
/// `TooLarge` exactly where the delivery is not one piece, and the text of its first transfer does not fit, or a later one has no room
/// for a byte of payload. `OutOfMemory` where memory is refused: for the list, whose length is known beforehand, or for one more
/// owner of shared bytes. No byte of payload is copied. `transfer` and `payload` stay the caller's.
pub fn split_delivery(
    alloc: Global,
    transfer: &Transfer,
    payload: &Bytes,
    max_piece_len: u32,
) -> Result<Vec<DeliveryPart>, Error>
    ensures { SplitsTo (λ v. v.items) transfer.now payload.now max_piece_len result }
{
    let room = u128::from(max_piece_len.saturating_sub(4));
    let whole = transfer.widest_len_in(TransferFragment::Whole);
    if whole + payload.len() as u128 <= room {
        let parts = in_one(alloc, transfer, payload)?;
        return Ok(parts);
    }
    let first = transfer.widest_len_in(TransferFragment::First);
    let later = transfer.encoded_len_in(TransferFragment::Middle);
    if room < first || room <= later {
        return Err(Error::TooLarge);
    }
    let front = (room - first) as usize;
    let step = (room - later) as usize;
    let parts = in_parts(alloc, transfer, payload, front, step)?;
    Ok(parts)
}

/// The whole delivery in one part.
fn in_one(
    alloc: Global,
    transfer: &Transfer,
    payload: &Bytes,
) -> Result<Vec<DeliveryPart>, AllocError>
    ensures one { IfOk result (λ v. InOne transfer.now payload.now v.items) }
    ensures refused { OnErr result SomeRefused }
{
    let mut parts = vector_with(alloc, 1)?;
    parts.push_reserved(DeliveryPart {
        transfer: begun(transfer, transfer.more)?,
        payload: shared(payload)?,
        is_first: true,
    });
    Ok(parts)
}

/// The first part takes `front` bytes of the payload, each one in the middle `step` bytes, and the last one what is left: at least one
/// byte, and at most `step`.
fn in_parts(
    alloc: Global,
    transfer: &Transfer,
    payload: &Bytes,
    front: usize,
    step: usize,
) -> Result<Vec<DeliveryPart>, AllocError>
    requires some { front < length payload.now }
    requires step { 0 < step }
    ensures parts { IfOk result (λ v. TakesParts transfer.now payload.now front step v.items) }
    ensures refused { OnErr result SomeRefused }
{
    let count = (payload.len() - front - 1) / step;
    let mut parts = vector_for(alloc, payload.as_slice(), count + 2)?;
    let mut rest = shared(payload)?;
    parts.push_reserved(DeliveryPart {
        transfer: begun(transfer, true)?,
        payload: front_of(&mut rest, front)?,
        is_first: true,
    });
    put_middle(transfer, &mut parts, &mut rest, step, count)?;
    parts.push_reserved(DeliveryPart {
        transfer: continued(transfer, transfer.more)?,
        payload: rest,
        is_first: false,
    });
    Ok(parts)
}

/// Appends `count` parts from the middle, each with the next `step` bytes of the payload.
fn put_middle(
    transfer: &Transfer,
    parts: &mut Vec<DeliveryPart>,
    rest: &mut Bytes,
    step: usize,
    count: usize,
) -> Result<(), AllocError>
    requires room { vec_len parts.old + count < vec_capacity parts.old }
    requires long { step * count ≤ length rest.old }
    ensures added { OnOk result (AddsParts (said_in text.Middle transfer.now) step parts.old.items parts.new.items rest.old rest.new (step * count)) }
    ensures room_left { OnOk result (vec_len parts.new < vec_capacity parts.new) }
    ensures refused { OnErr result SomeRefused }
{
    for i in 0..count {
        let transfer = continued(transfer, true)?;
        let payload = front_of(rest, step)?;
        parts.push_reserved(DeliveryPart {
            transfer,
            payload,
            is_first: false,
        });
    }
    Ok(())
}

/// The first transfer of the delivery, with this `more`.
fn begun(transfer: &Transfer, more: bool) -> Result<Transfer, AllocError>
    ensures part { IfOk result (λ t. t ≡ record transfer.now { more = more }) }
    ensures refused { OnErr result SomeRefused }
{
    Ok(Transfer {
        handle: transfer.handle,
        delivery_id: transfer.delivery_id,
        delivery_tag: tag_again(&transfer.delivery_tag)?,
        message_format: transfer.message_format,
        settled: transfer.settled,
        more,
        rcv_settle_mode: transfer.rcv_settle_mode,
        state: state_again(&transfer.state)?,
        resume: transfer.resume,
        aborted: transfer.aborted,
        batchable: transfer.batchable,
    })
}

/// A later transfer of the delivery, with this `more`: it says nothing again that the first one said of the delivery.
fn continued(transfer: &Transfer, more: bool) -> Result<Transfer, AllocError>
    ensures part { IfOk result (λ t. t ≡ record (said_in text.Middle transfer.now) { more = more }) }
    ensures refused { OnErr result SomeRefused }
{
    Ok(Transfer {
        handle: transfer.handle,
        delivery_id: None,
        delivery_tag: None,
        message_format: None,
        settled: None,
        more,
        rcv_settle_mode: None,
        state: state_again(&transfer.state)?,
        resume: transfer.resume,
        aborted: transfer.aborted,
        batchable: transfer.batchable,
    })
}

/// The same tag.
fn tag_again(tag: &Option<DeliveryTag>) -> Result<Option<DeliveryTag>, AllocError>
    ensures same { IfOk result (λ t. t ≡ tag.now) }
    ensures refused { OnErr result SomeRefused }
{
    match tag {
        Some(tag) => Ok(Some(tag.clone()?)),
        None => Ok(None),
    }
}

/// The same state.
fn state_again(state: &Option<Raw>) -> Result<Option<Raw>, AllocError>
    ensures same { IfOk result (λ s. s ≡ state.now) }
    ensures refused { OnErr result SomeRefused }
{
    match state {
        Some(state) => Ok(Some(state.clone()?)),
        None => Ok(None),
    }
}
