//! One line of a transcript, read or written.

ghost use Rattle.std.specs.Prelude.{◌≡◌, ◌++◌, IfOk, OnOk, OnErr, codes, string_bytes};
ghost use Rattle.amqp_memory.specs.Refusal.{SomeRefused};
ghost use Rattle.amqp_frames.specs.Piece.{piece_bytes};
ghost use Rattle.hex.specs.Hex.{encode_lower};
ghost use Rattle.fe2o3_amqp.specs.Transcript.{bytes_of};

use super::relay::ReplayRelay;
use amqp_connection::SessionNo;
use amqp_engine::Input;
use amqp_frames::Piece;
use amqp_memory::{bytes_of_vector, digits_of, push_in_text, spelled_by};
use amqp_session::{InputHandle, LinkFlow, SessionSettings};
use amqp_types::{Performative, ReadError, Role};
use bytes::Bytes;
use hex::FromHexError;
use std::alloc::{AllocError, Global};
use std::io::{self, ErrorKind};

/// What a line asks for.
#[derive(Drop)]
pub(super) enum Asked {
    Nothing,
    Input(Input<ReplayRelay>),
    Unreadable,
}

/// The text of a line, without the line feed at its end.
pub(super) fn text_of(line: &[u8]) -> io::Result<&str> {
    let line = line.strip_suffix(b"\n").unwrap_or(line);
    match std::str::from_utf8(line) {
        Ok(text) => Ok(text),
        Err(_) => Err(io::Error::from(ErrorKind::InvalidData)),
    }
}

/// What a line asks for.
pub(super) fn asked_by(alloc: Global, text: &str) -> Result<Asked, AllocError> {
    match text {
        "" => Ok(Asked::Nothing),
        // A carriage return is no part of a name.
        _ if text.contains('\r') => Ok(Asked::Unreadable),
        "open" => Ok(Asked::Input(Input::Open)),
        "close" => Ok(Asked::Input(Input::Close(None))),
        _ => match text.split_once(' ') {
            Some((word, rest)) => asked_with(alloc, word, rest),
            None => Ok(Asked::Unreadable),
        },
    }
}

/// What a line of more than one word asks for.
fn asked_with(alloc: Global, word: &str, rest: &str) -> Result<Asked, AllocError> {
    match word {
        "recv" => received(alloc, rest),
        "send" => sent(alloc, rest),
        "link" => link(alloc, rest),
        "settle" => Ok(settled(rest)),
        _ => match number_of(rest) {
            Some(number) => Ok(of_session(word, number)),
            None => Ok(Asked::Unreadable),
        },
    }
}

/// What a line asks for whose second word is a session's number.
fn of_session(word: &str, number: SessionNo) -> Asked {
    match word {
        "begin" => Asked::Input(Input::Begin(number, SessionSettings::new())),
        "end" => Asked::Input(Input::End(number, None)),
        "release" => Asked::Input(Input::Release(number)),
        "forget" => Asked::Input(Input::Forget(number)),
        _ => Asked::Unreadable,
    }
}

/// The number of these decimal digits; `None` for anything else, for a sign too, and above 4294967295.
fn decimal(text: &str) -> Option<u32> {
    if text.starts_with('+') {
        return None;
    }
    text.parse::<u32>().ok()
}

/// The session's number of these digits.
fn number_of(text: &str) -> Option<SessionNo> {
    decimal(text).map(SessionNo)
}

/// The role of this word.
fn role_of(word: &str) -> Option<Role> {
    match word {
        "receiver" => Some(Role::Receiver),
        "sender" => Some(Role::Sender),
        _ => None,
    }
}

/// What this side settles: after the session's number its own role, the first number, and the last one where it is named.
fn settled(text: &str) -> Asked {
    let Some((number, text)) = text.split_once(' ') else {
        return Asked::Unreadable;
    };
    let Some((role, range)) = text.split_once(' ') else {
        return Asked::Unreadable;
    };
    match (number_of(number), role_of(role)) {
        (Some(number), Some(role)) => settled_range(number, role, range),
        _ => Asked::Unreadable,
    }
}

fn settled_range(number: SessionNo, role: Role, range: &str) -> Asked {
    let Some((first, last)) = range.split_once(' ') else {
        return match decimal(range) {
            Some(first) => Asked::Input(Input::Settle(number, role, first, None)),
            None => Asked::Unreadable,
        };
    };
    match (decimal(first), decimal(last)) {
        (Some(first), Some(last)) => Asked::Input(Input::Settle(number, role, first, Some(last))),
        _ => Asked::Unreadable,
    }
}

/// A link of the name after the session's number, which is not empty and may hold spaces.
fn link(alloc: Global, text: &str) -> Result<Asked, AllocError> {
    let Some((number, name)) = text.split_once(' ') else {
        return Ok(Asked::Unreadable);
    };
    match number_of(number) {
        Some(number) if !name.is_empty() => {
            let name = String::from_str(alloc, name)?;
            Ok(Asked::Input(Input::AllocateLink(number, name, Some(ReplayRelay))))
        }
        _ => Ok(Asked::Unreadable),
    }
}

fn received(alloc: Global, digits: &str) -> Result<Asked, AllocError> {
    match hex_bytes(alloc, digits)? {
        Some(bytes) => Ok(Asked::Input(Input::Received(bytes))),
        None => Ok(Asked::Unreadable),
    }
}

fn sent(alloc: Global, text: &str) -> Result<Asked, AllocError> {
    let Some((number, digits)) = text.split_once(' ') else {
        return Ok(Asked::Unreadable);
    };
    let Some(number) = number_of(number) else {
        return Ok(Asked::Unreadable);
    };
    match hex_bytes(alloc, digits)? {
        Some(bytes) => performative(alloc, number, bytes),
        None => Ok(Asked::Unreadable),
    }
}

fn performative(alloc: Global, number: SessionNo, bytes: Bytes) -> Result<Asked, AllocError> {
    match Performative::read(alloc, bytes) {
        Ok((performative, rest)) => Ok(asked_of(number, performative, rest)),
        Err(ReadError::Malformed) => Ok(Asked::Unreadable),
        Err(ReadError::OutOfMemory) => Err(AllocError),
    }
}

/// What is asked of a session with a performative and what follows it.
fn asked_of(number: SessionNo, performative: Performative, rest: Bytes) -> Asked {
    match performative {
        Performative::Attach(attach) => Asked::Input(Input::Attach(number, attach)),
        Performative::Disposition(disposition) => {
            Asked::Input(Input::Disposition(number, disposition))
        }
        Performative::Detach(detach) => Asked::Input(Input::Detach(number, detach, true)),
        Performative::Flow(flow) => match LinkFlow::try_from(flow) {
            Ok(flow) => Asked::Input(Input::Flow(number, flow)),
            Err(()) => Asked::Unreadable,
        },
        Performative::Transfer(transfer) => {
            let input = InputHandle::from(transfer.handle);
            let is_first = transfer.delivery_tag.is_some();
            Asked::Input(Input::Transfer(number, input, transfer, rest, is_first))
        }
        other => {
            drop(other);
            Asked::Unreadable
        }
    }
}

/// The bytes of these hexadecimal digits, in either case; `None` where their number is odd or another character stands among
/// them. `AllocError` where memory is refused.
pub fn hex_bytes(alloc: Global, text: &str) -> Result<Option<Bytes>, AllocError>
    ensures bytes { IfOk result (λ bytes. bytes ≡ bytes_of text.now) }
    ensures refused { OnErr result SomeRefused }
{
    match spelled_by(alloc, text) {
        Ok(bytes) => Ok(Some(bytes_of_vector(bytes)?)),
        Err(FromHexError::OutOfMemory) => Err(AllocError),
        Err(_) => Ok(None),
    }
}

/// The line of a piece: `out`, a space and its bytes as hexadecimal digits in lower case, without a line feed.
/// `AllocError` where memory is refused.
pub fn out_line(alloc: Global, piece: &Piece) -> Result<String, AllocError>
    ensures line { IfOk result (λ text. string_bytes text ≡ codes "out " ++ encode_lower (piece_bytes piece.now)) }
    ensures refused { OnErr result SomeRefused }
{
    let mut text = amqp_memory::text_of(alloc, "out ")?;
    push_digits(alloc, &mut text, piece.head())?;
    push_digits(alloc, &mut text, piece.payload().as_slice())?;
    Ok(text)
}

/// Appends the digits of these bytes.
fn push_digits(alloc: Global, text: &mut String, bytes: &[u8]) -> Result<(), AllocError>
    ensures digits { OnOk result (string_bytes text.new ≡ string_bytes text.old ++ encode_lower bytes.now) }
    ensures refused { OnErr result SomeRefused }
{
    let digits = digits_of(alloc, bytes)?;
    push_in_text(text, digits.as_str())
}
