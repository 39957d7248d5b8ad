//! What an input is made of: numbers, flags, names and performatives.

ghost use Rattle.std.specs.Prelude.{◌≡◌, ◌-◌, length, nat_eq};
ghost use Rattle.std.specs.Int.{w32};
ghost use Rattle.std.specs.Option.{option_map};
ghost use Rattle.amqp_values.specs.Reading.{number_at, byte_at, ReadsFront};
ghost use Rattle.amqp_types.specs.Performatives.{IsPerformative};
ghost use Rattle.amqp_types.specs.declared.performatives.Performative.TheVariants as its;
ghost use Rattle.amqp1.specs.Reading.{flag_of, role_of, mode_of, Reads, ReadsOne, HasTransfer, IsErrorIfAny, IsErrorOrNone, IsSomeError};
ghost use Rattle.amqp1.specs.Inner.Kinds.{whole_of, with_payload, as_open, as_begin, as_attach, as_detach, as_flow, as_transfer, as_disposition};

use amqp_memory::copy_of;
use amqp_types::{
    Attach, Begin, Detach, Disposition, Error, Flow, Open, Performative, ReadError,
    ReceiverSettleMode, Role, Transfer,
};
use amqp_values::Field;
use bytes::Bytes;
use std::alloc::Global;

/// The number in the first four bytes, and what follows.
pub(crate) fn number(input: &[u8]) -> Option<(u32, &[u8])>
    ensures { option_map (λ x. (x.0, x.1.now)) result ≡ number_at w32 input.now }
{
    if input.len() < 4 {
        return None;
    }
    let number = u32::from_be_bytes([input[0], input[1], input[2], input[3]]);
    Some((number, &input[4..]))
}

/// The first byte, and what follows.
pub(crate) fn byte(input: &[u8]) -> Option<(u8, &[u8])>
    ensures { option_map (λ x. (x.0, x.1.now)) result ≡ byte_at input.now }
{
    match input {
        [first, ..] => Some((*first, &input[1..])),
        [] => None,
    }
}

/// A flag: 0 or 1.
pub(crate) fn flag(byte: u8) -> Option<bool>
    ensures { result ≡ flag_of byte }
{
    match byte {
        0 => Some(false),
        1 => Some(true),
        _ => None,
    }
}

/// The role: 0 for the sender, 1 for the receiver.
pub(crate) fn role(byte: u8) -> Option<Role>
    ensures { result ≡ role_of byte }
{
    match byte {
        0 => Some(Role::Sender),
        1 => Some(Role::Receiver),
        _ => None,
    }
}

/// The receiver settle mode.
pub(crate) fn mode(byte: u8) -> Option<ReceiverSettleMode>
    ensures { result ≡ mode_of byte }
{
    match byte {
        0 => Some(ReceiverSettleMode::First),
        1 => Some(ReceiverSettleMode::Second),
        _ => None,
    }
}

/// The performative at the front, and what follows.
fn front(alloc: Global, input: &[u8]) -> Result<(Performative, Bytes), ReadError>
    ensures { ReadsFront IsPerformative input.now result }
{
    let Ok(bytes) = copy_of(alloc, input) else {
        return Err(ReadError::OutOfMemory);
    };
    Performative::read(alloc, bytes)
}

/// The performative that the bytes are.
fn performative(alloc: Global, input: &[u8]) -> Result<Performative, ReadError>
    ensures { ReadsOne (λ p. IsPerformative p input.now) result }
{
    match front(alloc, input) {
        Ok((performative, rest)) => whole(performative, rest),
        Err(error) => Err(error),
    }
}

/// The performative, where nothing follows.
fn whole(performative: Performative, rest: Bytes) -> Result<Performative, ReadError>
    ensures { result ≡ whole_of performative rest }
{
    if rest.is_empty() {
        Ok(performative)
    } else {
        drop(performative);
        Err(ReadError::Malformed)
    }
}

/// The Open that the bytes are.
pub(crate) fn open(alloc: Global, input: &[u8]) -> Result<Open, ReadError>
    ensures { ReadsOne (λ p. IsPerformative (its.Open p) input.now) result }
{
    match performative(alloc, input) {
        Ok(performative) => as_open(performative),
        Err(error) => Err(error),
    }
}

fn as_open(performative: Performative) -> Result<Open, ReadError>
    ensures { result ≡ as_open performative }
{
    match performative {
        Performative::Open(open) => Ok(open),
        other => {
            drop(other);
            Err(ReadError::Malformed)
        }
    }
}

/// The Begin that the bytes are.
pub(crate) fn begin(alloc: Global, input: &[u8]) -> Result<Begin, ReadError>
    ensures { ReadsOne (λ p. IsPerformative (its.Begin p) input.now) result }
{
    match performative(alloc, input) {
        Ok(performative) => as_begin(performative),
        Err(error) => Err(error),
    }
}

fn as_begin(performative: Performative) -> Result<Begin, ReadError>
    ensures { result ≡ as_begin performative }
{
    match performative {
        Performative::Begin(begin) => Ok(begin),
        other => {
            drop(other);
            Err(ReadError::Malformed)
        }
    }
}

/// The Attach that the bytes are.
pub(crate) fn attach(alloc: Global, input: &[u8]) -> Result<Attach, ReadError>
    ensures { ReadsOne (λ p. IsPerformative (its.Attach p) input.now) result }
{
    match performative(alloc, input) {
        Ok(performative) => as_attach(performative),
        Err(error) => Err(error),
    }
}

fn as_attach(performative: Performative) -> Result<Attach, ReadError>
    ensures { result ≡ as_attach performative }
{
    match performative {
        Performative::Attach(attach) => Ok(attach),
        other => {
            drop(other);
            Err(ReadError::Malformed)
        }
    }
}

/// The Detach that the bytes are.
pub(crate) fn detach(alloc: Global, input: &[u8]) -> Result<Detach, ReadError>
    ensures { ReadsOne (λ p. IsPerformative (its.Detach p) input.now) result }
{
    match performative(alloc, input) {
        Ok(performative) => as_detach(performative),
        Err(error) => Err(error),
    }
}

fn as_detach(performative: Performative) -> Result<Detach, ReadError>
    ensures { result ≡ as_detach performative }
{
    match performative {
        Performative::Detach(detach) => Ok(detach),
        other => {
            drop(other);
            Err(ReadError::Malformed)
        }
    }
}

/// The Flow that the bytes are.
pub(crate) fn flow(alloc: Global, input: &[u8]) -> Result<Flow, ReadError>
    ensures { ReadsOne (λ p. IsPerformative (its.Flow p) input.now) result }
{
    match performative(alloc, input) {
        Ok(performative) => as_flow(performative),
        Err(error) => Err(error),
    }
}

fn as_flow(performative: Performative) -> Result<Flow, ReadError>
    ensures { result ≡ as_flow performative }
{
    match performative {
        Performative::Flow(flow) => Ok(flow),
        other => {
            drop(other);
            Err(ReadError::Malformed)
        }
    }
}

/// The Disposition that the bytes are.
pub(crate) fn disposition(alloc: Global, input: &[u8]) -> Result<Disposition, ReadError>
    ensures { ReadsOne (λ p. IsPerformative (its.Disposition p) input.now) result }
{
    match performative(alloc, input) {
        Ok(performative) => as_disposition(performative),
        Err(error) => Err(error),
    }
}

fn as_disposition(performative: Performative) -> Result<Disposition, ReadError>
    ensures { result ≡ as_disposition performative }
{
    match performative {
        Performative::Disposition(disposition) => Ok(disposition),
        other => {
            drop(other);
            Err(ReadError::Malformed)
        }
    }
}

/// The Transfer that the bytes are.
pub(crate) fn transfer(alloc: Global, input: &[u8]) -> Result<Transfer, ReadError>
    ensures { ReadsOne (λ p. IsPerformative (its.Transfer p) input.now) result }
{
    match performative(alloc, input) {
        Ok(performative) => as_transfer(performative),
        Err(error) => Err(error),
    }
}

fn as_transfer(performative: Performative) -> Result<Transfer, ReadError>
    ensures { result ≡ as_transfer performative }
{
    match performative {
        Performative::Transfer(transfer) => Ok(transfer),
        other => {
            drop(other);
            Err(ReadError::Malformed)
        }
    }
}

/// The Transfer that the first `count` bytes are, and the payload, which is all the others.
pub(crate) fn transfer_and_payload(
    alloc: Global,
    count: u32,
    input: &[u8],
) -> Result<(Transfer, Bytes), ReadError>
    ensures { Reads (HasTransfer count input.now) result }
{
    let len = input.len();
    match front(alloc, input) {
        Ok((performative, payload)) => {
            if !has_length(count, len, &payload) {
                drop(performative);
                return Err(ReadError::Malformed);
            }
            with_payload(performative, payload)
        }
        Err(error) => Err(error),
    }
}

/// Whether the performative has this length, where it and the payload after it are `len` bytes.
fn has_length(count: u32, len: usize, payload: &Bytes) -> bool
    ensures { result ≡ nat_eq (len - length payload.now) count }
{
    len.saturating_sub(payload.len()) == count as usize
}

fn with_payload(performative: Performative, payload: Bytes) -> Result<(Transfer, Bytes), ReadError>
    ensures { result ≡ with_payload performative payload }
{
    match performative {
        Performative::Transfer(transfer) => Ok((transfer, payload)),
        other => {
            drop(other);
            Err(ReadError::Malformed)
        }
    }
}

/// None, which 0 says alone; or the error that follows 1.
pub(crate) fn error(alloc: Global, input: &[u8]) -> Result<Option<Error>, ReadError>
    ensures { Reads (IsErrorIfAny input.now) result }
{
    let Some((kind, text)) = byte(input) else {
        return Err(ReadError::Malformed);
    };
    let Some(is_there) = flag(kind) else {
        return Err(ReadError::Malformed);
    };
    if is_there {
        return some_error(alloc, text);
    }
    if text.is_empty() {
        Ok(None)
    } else {
        Err(ReadError::Malformed)
    }
}

/// None, where there are no bytes; or the error that they are.
pub(crate) fn error_or_none(alloc: Global, text: &[u8]) -> Result<Option<Error>, ReadError>
    ensures { Reads (IsErrorOrNone text.now) result }
{
    if text.is_empty() {
        Ok(None)
    } else {
        some_error(alloc, text)
    }
}

/// The error that the bytes are.
fn some_error(alloc: Global, text: &[u8]) -> Result<Option<Error>, ReadError>
    ensures { IsSomeError text.now result }
{
    let Ok(bytes) = copy_of(alloc, text) else {
        return Err(ReadError::OutOfMemory);
    };
    whole_error(alloc, bytes)
}

/// The same, of bytes that the error may share.
#[tactic(auto, using(crate::proofs::ReadingLemmas::whole_front, crate::proofs::ReadingLemmas::at_end, crate::proofs::ReadingLemmas::before_end))]
fn whole_error(alloc: Global, bytes: Bytes) -> Result<Option<Error>, ReadError>
    ensures { IsSomeError bytes result }
{
    let text = bytes.as_slice();
    let [code, ..] = text else {
        Error::never_empty();
        return Err(ReadError::Malformed);
    };
    let mut place = 1;
    match Error::read(alloc, *code, text, &mut place, &bytes) {
        Ok(error) if place == text.len() => Ok(Some(error)),
        Ok(error) => {
            drop(error);
            Err(ReadError::Malformed)
        }
        Err(error) => Err(error),
    }
}
