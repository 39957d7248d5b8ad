//! Heads of pieces: header and performative, each written into one buffer of a size known beforehand.

ghost use Rattle.std.specs.Prelude.{◌≡◌, ◌≤◌, ◌<◌, ◌+◌, ◌^◌, ◌++◌, IfOk, OnOk, OnErr, length};
ghost use Rattle.amqp_memory.specs.Refusal.{SomeRefused};
ghost use Rattle.amqp_types.specs.Transfer.{said_in};
ghost use Rattle.amqp_frames.specs.Frame.{header_text, text_of};
ghost use Rattle.amqp_frames.specs.Cut.{transfer_text};
ghost use Rattle.amqp_frames.specs.HeaderPool.{CutsOff, CutsOrLeaves};

use crate::frame::FrameBody;
use crate::header_pool::{HeadRoom, OwnRoom};
use amqp_types::{Transfer, TransferFragment};
use bytes::BytesMut;
use std::alloc::{AllocError, Global};

/// A buffer with the header, and room for `len` bytes after it.
#[inline(always)]
fn header<H: HeadRoom>(heads: &mut H, channel: u16, len: usize) -> Result<BytesMut, AllocError>
    requires fits { len < 2 ^ 32 }
    requires short { ¬ H.too_long heads.old (4 + len) }
    ensures header { IfOk result (λ b. (b.items ≡ header_text channel) × (len ≤ b.spare)) }
    ensures room { IfOk result (λ b. H.gives heads.old (4 + len) (b.spare + 4)) }
    ensures refused { OnErr result SomeRefused }
{
    let mut out = heads.take(4 + len)?;
    out.extend_reserved(&[2, 0]);
    out.extend_reserved(&channel.to_be_bytes());
    Ok(out)
}

/// The head of a frame that is whole, whose text has this length: cut off the room, or in a buffer of its own where it is too long
/// for that.
#[tactic(auto, using(crate::proofs::HeaderRoomLemmas::head_cut, crate::proofs::HeaderRoomLemmas::head_left))]
pub(crate) fn whole_head<H: HeadRoom>(
    alloc: Global,
    heads: &mut H,
    channel: u16,
    body: &FrameBody,
    len: usize,
) -> Result<BytesMut, AllocError>
    requires text { len ≡ length (text_of body.now) }
    requires fits { length (text_of body.now) < 2 ^ 32 }
    ensures head { IfOk result (λ b. b.items ≡ header_text channel ++ text_of body.now) }
    ensures room { OnOk result (CutsOrLeaves H.too_long (CutsOff H.gives H.keeps) heads.old (4 + length (text_of body.now)) heads.new) }
    ensures refused { OnErr result SomeRefused }
{
    if heads.is_too_long(4 + len) {
        return own_head(alloc, channel, body, len);
    }
    let mut out = header(heads, channel, len)?;
    body.put_text(len, &mut out);
    heads.cut(out)
}

/// The head of such a frame, in a buffer of its own.
#[inline(never)]
fn own_head(
    alloc: Global,
    channel: u16,
    body: &FrameBody,
    len: usize,
) -> Result<BytesMut, AllocError>
    requires text { len ≡ length (text_of body.now) }
    requires fits { length (text_of body.now) < 2 ^ 32 }
    ensures head { IfOk result (λ b. b.items ≡ header_text channel ++ text_of body.now) }
    ensures refused { OnErr result SomeRefused }
{
    let mut out = header(&mut OwnRoom(alloc), channel, len)?;
    body.put_text(len, &mut out);
    Ok(out)
}

/// The head of a piece of a transfer, with one of its texts.
pub(crate) fn transfer_head(
    alloc: Global,
    channel: u16,
    transfer: &Transfer,
    text: TransferFragment,
) -> Result<BytesMut, AllocError>
    requires { length (transfer_text (said_in text transfer.now)) < 2 ^ 32 }
    ensures head { IfOk result (λ b. b.items ≡ header_text channel ++ transfer_text (said_in text transfer.now)) }
    ensures refused { OnErr result SomeRefused }
{
    let len = transfer.encoded_len_in(text) as usize;
    let mut out = header(&mut OwnRoom(alloc), channel, len)?;
    transfer.put_in(text, len, &mut out);
    Ok(out)
}
