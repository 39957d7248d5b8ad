//! What a frame says, as a record: the table, by the kind of its performative.

ghost use Rattle.std.specs.Prelude.{◌≡◌, ◌≤◌, ◌<◌, ◌+◌, ◌^◌, length, option_map};
ghost use Rattle.amqp_types.specs.Definitions.{receiver_code, sender_code};
ghost use Rattle.amqp_frames.specs.Frame.{payload_of};
ghost use Rattle.amqp_driver.specs.Record.{bare_record, bit, body_record, frame_record, number_or};
ghost use Rattle.amqp_driver.specs.Record.{attach_record, detach_record, disposition_record, error_flag, flow_record, none, transfer_record};
ghost use Rattle.amqp_driver.specs.Record.{disposition_flags, flow_flags, termini, transfer_flags};

use crate::outcome::outcome_of;
use crate::record::{NONE, Record, bare};
use crate::tag::{tag_bytes, tag_size};
use crate::{flag, kind};
use amqp_frames::{Frame, FrameBody};
use amqp_types::{
    Attach, Detach, Disposition, Error, Flow, Handle, ReceiverSettleMode, Role, SenderSettleMode,
    Transfer,
};

/// What a Transfer on this channel says, in a frame that begins at this place and has so many bytes; its payload is the last ones of them. The
/// session and this side's handle are left out.
#[inline(always)]
pub(crate) fn of_transfer(channel: u16, at: u32, size: u32, p: &Transfer, payload: u32) -> Record
    requires fits { at + size < 2 ^ 32 }
    requires inside { 8 + payload ≤ size }
    ensures { result ≡ transfer_record (record (bare_record at size) { channel = channel }) p.now payload }
{
    transfer(on(channel, at, size), p, payload)
}

/// The same of a Flow.
#[inline(always)]
pub(crate) fn of_flow(channel: u16, at: u32, size: u32, p: &Flow) -> Record
    requires least { 8 ≤ size }
    requires fits { at + size < 2 ^ 32 }
    ensures { result ≡ flow_record (record (bare_record at size) { channel = channel }) p.now }
{
    flow(on(channel, at, size), p)
}

/// The same of a Disposition.
#[inline(always)]
pub(crate) fn of_disposition(channel: u16, at: u32, size: u32, p: &Disposition) -> Record
    requires least { 8 ≤ size }
    requires fits { at + size < 2 ^ 32 }
    ensures { result ≡ disposition_record (record (bare_record at size) { channel = channel }) p.now }
{
    disposition(on(channel, at, size), p)
}

/// What is known of a frame on this channel by where it stands.
#[inline(always)]
fn on(channel: u16, at: u32, size: u32) -> Record
    requires least { 8 ≤ size }
    requires fits { at + size < 2 ^ 32 }
    ensures { result ≡ record (bare_record at size) { channel = channel } }
{
    Record {
        channel,
        ..bare(at, size)
    }
}

/// What a frame says that begins at this place and has so many bytes, but for the session and this side's handle.
pub(crate) fn of_frame(at: u32, size: u32, frame: &Frame) -> Record
    requires least { 8 ≤ size }
    requires fits { at + size < 2 ^ 32 }
    requires inside { 8 + length (payload_of frame.now.body) ≤ size }
    ensures { result ≡ frame_record at size frame.now }
{
    of_body(on(frame.channel, at, size), &frame.body)
}

fn of_body(bare: Record, body: &FrameBody) -> Record
    requires inside { length (payload_of body.now) ≤ bare.size }
    requires behind { length (payload_of body.now) ≤ bare.payload_at }
    ensures { result ≡ body_record bare body.now }
{
    match body {
        FrameBody::Open(_) => of_kind(bare, kind::OPENED),
        FrameBody::Begin(_) => of_kind(bare, kind::BEGUN),
        FrameBody::Attach(p) => attach(bare, p),
        FrameBody::Flow(p) => flow(bare, p),
        FrameBody::Transfer {
            performative,
            payload,
        } => transfer(bare, performative, payload.len() as u32),
        FrameBody::Disposition(p) => disposition(bare, p),
        FrameBody::Detach(p) => detach(bare, p),
        FrameBody::End(p) => ending(bare, kind::ENDED, &p.error),
        FrameBody::Close(p) => ending(bare, kind::CLOSED, &p.error),
        FrameBody::Empty => bare,
    }
}

fn of_kind(bare: Record, kind: u8) -> Record
    ensures { result ≡ record bare { kind = kind } }
{
    Record { kind, ..bare }
}

fn attach(bare: Record, p: &Attach) -> Record
    ensures { result ≡ attach_record bare p.now }
{
    let limit = p.max_message_size.unwrap_or(0);
    Record {
        kind: kind::ATTACHED,
        outcome: termini(p),
        flags: bit(p.role == Role::Receiver, flag::RECEIVER)
            + bit(p.initial_delivery_count.is_some(), flag::COUNTED)
            + flag::LINKED,
        input: p.handle.0,
        first: (limit % 0x1_0000_0000) as u32,
        last: (limit / 0x1_0000_0000) as u32,
        count: p.initial_delivery_count.unwrap_or(0),
        credit: sender_code(p.snd_settle_mode),
        available: receiver_code(p.rcv_settle_mode),
        ..bare
    }
}

/// Which termini an Attach has.
fn termini(p: &Attach) -> u8
    ensures { result ≡ termini p.now }
{
    (bit(p.source.is_some(), 1) + bit(p.target.is_some(), 2)) as u8
}

fn sender_code(mode: SenderSettleMode) -> u32
    ensures { result ≡ sender_code mode }
{
    match mode {
        SenderSettleMode::Unsettled => 0,
        SenderSettleMode::Settled => 1,
        SenderSettleMode::Mixed => 2,
    }
}

fn receiver_code(mode: ReceiverSettleMode) -> u32
    ensures { result ≡ receiver_code mode }
{
    match mode {
        ReceiverSettleMode::First => 0,
        ReceiverSettleMode::Second => 1,
    }
}

#[inline(always)]
fn flow(bare: Record, p: &Flow) -> Record
    ensures { result ≡ flow_record bare p.now }
{
    Record {
        kind: kind::FLOW,
        flags: flow_flags(p),
        input: handle_or_none(p.handle),
        count: p.delivery_count.unwrap_or(0),
        credit: p.link_credit.unwrap_or(0),
        available: p.available.unwrap_or(0),
        ..bare
    }
}

fn flow_flags(p: &Flow) -> u16
    ensures { result ≡ flow_flags p.now }
{
    bit(p.drain, flag::DRAIN)
        + bit(p.echo, flag::ECHO)
        + bit(p.link_credit.is_some(), flag::CREDITED)
        + bit(p.delivery_count.is_some(), flag::COUNTED)
        + bit(p.handle.is_some(), flag::LINKED)
        + bit(p.available.is_some(), flag::AVAILABLE)
}

/// The payload has so many bytes: the last ones of the frame.
#[inline(always)]
fn transfer(bare: Record, p: &Transfer, payload: u32) -> Record
    requires inside { payload ≤ bare.size }
    requires behind { payload ≤ bare.payload_at }
    ensures { result ≡ transfer_record bare p.now payload }
{
    let number = p.delivery_id.unwrap_or(0);
    Record {
        kind: kind::TRANSFER,
        outcome: outcome_of(&p.state),
        flags: transfer_flags(p),
        input: p.handle.0,
        first: number,
        last: number,
        format: p.message_format.unwrap_or(0),
        size: bare.size - payload,
        payload_at: bare.payload_at - payload,
        payload,
        tag_size: tag_size(&p.delivery_tag),
        tag: tag_bytes(&p.delivery_tag),
        ..bare
    }
}

#[inline(always)]
fn transfer_flags(p: &Transfer) -> u16
    ensures { result ≡ transfer_flags p.now }
{
    bit(p.delivery_id.is_some(), flag::NUMBERED)
        + bit(p.settled.unwrap_or(false), flag::SETTLED)
        + bit(p.more, flag::MORE)
        + bit(p.aborted, flag::ABORTED)
        + bit(p.state.is_some(), flag::STATED)
        + flag::LINKED
        + bit(p.message_format.is_some(), flag::FORMATTED)
        + bit(p.delivery_tag.is_some(), flag::TAGGED)
}

#[inline(always)]
fn disposition(bare: Record, p: &Disposition) -> Record
    ensures { result ≡ disposition_record bare p.now }
{
    Record {
        kind: kind::DISPOSITION,
        outcome: outcome_of(&p.state),
        flags: disposition_flags(p),
        first: p.first,
        last: p.last.unwrap_or(p.first),
        ..bare
    }
}

fn disposition_flags(p: &Disposition) -> u16
    ensures { result ≡ disposition_flags p.now }
{
    bit(p.settled, flag::SETTLED)
        + bit(p.role == Role::Receiver, flag::RECEIVER)
        + bit(p.state.is_some(), flag::STATED)
}

fn detach(bare: Record, p: &Detach) -> Record
    ensures { result ≡ detach_record bare p.now }
{
    Record {
        kind: kind::DETACHED,
        flags: error_flag(&p.error) + bit(p.closed, flag::FOR_GOOD) + flag::LINKED,
        input: p.handle.0,
        ..bare
    }
}

/// An End or a Close.
fn ending(bare: Record, kind: u8, error: &Option<Error>) -> Record
    ensures { result ≡ record bare { kind = kind; flags = error_flag error.now } }
{
    Record {
        kind,
        flags: error_flag(error),
        ..bare
    }
}

fn error_flag(error: &Option<Error>) -> u16
    ensures value { result ≡ error_flag error.now }
    ensures bound { result ≤ 256 }
{
    bit(error.is_some(), flag::WITH_ERROR)
}

fn handle_or_none(handle: Option<Handle>) -> u32
    ensures { result ≡ number_or none (option_map (λ h. h.0) handle) }
{
    match handle {
        Some(handle) => handle.0,
        None => NONE,
    }
}

/// A flag, where it is set.
#[inline(always)]
fn bit(is_set: bool, flag: u16) -> u16
    ensures value { result ≡ bit is_set flag }
    ensures bound { result ≤ flag }
{
    if is_set { flag } else { 0 }
}
