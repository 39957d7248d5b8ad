//! The cut of a transfer that does not fit one frame (AMQP 1.0 part 2, section 2.6.14).

ghost use Rattle.std.specs.Prelude.{◌≡◌, ◌≤◌, ◌<◌, ◌+◌, ◌*◌, ◌^◌, ◌++◌, IfOk, OnOk, OnErr, length, vec_len, vec_capacity};
ghost use Rattle.amqp_memory.specs.Refusal.{SomeRefused};
ghost use Rattle.amqp_frames.specs.Frame.{header_text};
ghost use Rattle.amqp_frames.specs.Cut.{transfer_text, first_text, middle_text, last_text, room};
ghost use Rattle.amqp_frames.specs.Inner.Pieces.{Adds, CutsTo, InPieces};

use crate::error::Error;
use crate::head::transfer_head;
use crate::piece::Piece;
use amqp_memory::{front_of, frozen, shared, vector_for};
use amqp_types::laws::transfer_is_spelled;
use amqp_types::{Transfer, TransferFragment};
use bytes::Bytes;
use std::alloc::{AllocError, Global};

/// The pieces of a transfer that does not fit whole, each of at most `limit` bytes; `TooLarge` exactly where the texts of
/// its pieces leave no room for the payload. The pieces are decoded as its first, middle and last transfers.
pub(crate) fn cut(
    alloc: Global,
    channel: u16,
    transfer: &Transfer,
    payload: &Bytes,
    limit: u32,
) -> Result<Vec<Piece>, Error>
    requires header { 4 ≤ limit }
    requires big { room limit < length (transfer_text transfer.now) + length payload.now }
    ensures { CutsTo (λ v. v.items) channel transfer.now payload.now limit result }
{
    let room = u128::from(limit - 4);
    let first = transfer.encoded_len_in(TransferFragment::First);
    if room < first {
        return Err(Error::TooLarge);
    }
    let middle = transfer.encoded_len_in(TransferFragment::Middle);
    if room <= middle {
        return Err(Error::TooLarge);
    }
    let front = (room - first) as usize;
    let step = (room - middle) as usize;
    transfer_is_spelled(transfer);
    let pieces = in_pieces(alloc, channel, transfer, payload, front, step)?;
    Ok(pieces)
}

/// The first piece takes `front` bytes of the payload, each one in the middle `step` bytes, and the last one what is left:
/// at least one byte, and at most `step`. The number of pieces is known before the first is made.
fn in_pieces(
    alloc: Global,
    channel: u16,
    transfer: &Transfer,
    payload: &Bytes,
    front: usize,
    step: usize,
) -> Result<Vec<Piece>, AllocError>
    requires some { front < length payload.now }
    requires step { 0 < step }
    requires first { length (first_text transfer.now) + front + 4 < 2 ^ 32 }
    requires middle { length (middle_text transfer.now) + step + 4 < 2 ^ 32 }
    requires last { length (last_text transfer.now) + step + 4 < 2 ^ 32 }
    ensures pieces { IfOk result (λ v. InPieces channel transfer.now payload.now front step v.items) }
    ensures refused { OnErr result SomeRefused }
{
    let count = (payload.len() - front - 1) / step;
    let mut pieces = vector_for(alloc, payload.as_slice(), count + 2)?;
    let mut rest = shared(payload)?;
    let head = transfer_head(alloc, channel, transfer, TransferFragment::First)?;
    let part = front_of(&mut rest, front)?;
    pieces.push_reserved(Piece::own(head, part));
    put_middle(
        alloc,
        channel,
        transfer,
        &mut pieces,
        &mut rest,
        step,
        count,
    )?;
    let head = transfer_head(alloc, channel, transfer, TransferFragment::Last)?;
    pieces.push_reserved(Piece::own(head, rest));
    Ok(pieces)
}

/// Appends `count` pieces from the middle. They share one head, which is written only if there are any.
fn put_middle(
    alloc: Global,
    channel: u16,
    transfer: &Transfer,
    pieces: &mut Vec<Piece>,
    rest: &mut Bytes,
    step: usize,
    count: usize,
) -> Result<(), AllocError>
    requires room { vec_len pieces.old + count < vec_capacity pieces.old }
    requires long { step * count ≤ length rest.old }
    requires fits { length (middle_text transfer.now) + step + 4 < 2 ^ 32 }
    ensures added { let head = header_text channel ++ middle_text transfer.now in
        OnOk result (Adds head step pieces.old.items pieces.new.items rest.old rest.new (step * count)) }
    ensures room_left { OnOk result (vec_len pieces.new < vec_capacity pieces.new) }
    ensures refused { OnErr result SomeRefused }
{
    if count == 0 {
        return Ok(());
    }
    let head = transfer_head(alloc, channel, transfer, TransferFragment::Middle)?;
    let head = frozen(head)?;
    put_parts(&head, pieces, rest, step, count)
}

/// Appends `count` pieces with this head, each with the next `step` bytes of the payload.
fn put_parts(
    head: &Bytes,
    pieces: &mut Vec<Piece>,
    rest: &mut Bytes,
    step: usize,
    count: usize,
) -> Result<(), AllocError>
    requires room { vec_len pieces.old + count < vec_capacity pieces.old }
    requires long { step * count ≤ length rest.old }
    requires fits { length head.now + step < 2 ^ 32 }
    ensures added { OnOk result (Adds head.now step pieces.old.items pieces.new.items rest.old rest.new (step * count)) }
    ensures room_left { OnOk result (vec_len pieces.new < vec_capacity pieces.new) }
    ensures refused { OnErr result SomeRefused }
{
    for i in 0..count {
        let copy = shared(head)?;
        let part = front_of(rest, step)?;
        pieces.push_reserved(Piece::shared(copy, part));
    }
    Ok(())
}
