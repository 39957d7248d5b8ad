//! What a client shows of itself.

ghost use Rattle.std.specs.Prelude.{◌≡◌, ◌++◌, ◌<◌, ◌≤◌, ◌^◌, ◌⊎◌, option_copied, OnOk, OnErr, IfOk, List, ℕ, length};
ghost use Rattle.std.specs.Option.{option_map};
ghost use Rattle.amqp_memory.specs.Refusal.{RefusedWithin};
ghost use Rattle.amqp_types.specs.Performatives.{performative_text};
ghost use Rattle.amqp_types.specs.declared.performatives.Performative.TheVariants as its;
ghost use Rattle.amqp1.specs.Names.{IsRefusalText, frame_said, text_of};
ghost use Rattle.amqp1.specs.Writing.{Writes};
ghost use Rattle.amqp1.specs.Telling.{refusal_text, open_text, session_text, session_state_text, session_state_number, state_number, option_or_empty, lines, Ungranted, WritesIfGranted};

use crate::names::{refusal_answer, refusal_name};
use crate::refused::{Refused, condition_of};
use crate::status::Status;
use crate::writing::write;
use amqp_connection::SessionNo;
use amqp_engine::Engine;
use amqp_memory::more_in_buffer;
use amqp_session::{IncomingChannel, LinkRelay};
use amqp_types::{ConnectionState, Error, Open, SessionState};
use bytes::BytesMut;
use fe2o3_amqp::PeerAnswer;
use std::alloc::AllocError;

/// Writes the last refusal: its name, a condition and a description, with a line feed between. The condition is the one that answers a frame that
/// is refused so, if any, without a description; or, where the peer ended or closed with an error, those of that error. Nothing where nothing was
/// refused. `NoMemory` where memory is refused.
pub(crate) fn refusal(
    refused: &Refused,
    scratch: &mut BytesMut,
    output: &mut [u8],
) -> (Status, usize)
    ensures { WritesIfGranted (refusal_text refused.now) output.old result.0 result.1 output.new }
{
    scratch.clear();
    match put_refusal(refused, scratch) {
        Ok(()) => write(output, scratch.as_slice()),
        Err(_) => (Status::NoMemory, 0),
    }
}

fn put_refusal(refused: &Refused, out: &mut BytesMut) -> Result<(), AllocError>
    ensures ok { OnOk result (out.new.items ≡ out.old.items ++ refusal_text refused.now) }
    ensures refused { OnErr result (Ungranted (refusal_text refused.now)) }
{
    let name = refused.name.as_bytes();
    if name.is_empty() {
        return Ok(());
    }
    match &refused.peer {
        Some(error) => {
            put_lines(
                name,
                error.condition.as_str().as_bytes(),
                description_of(error),
                out,
            )
        }
        None => put_lines(name, refused.condition.as_bytes(), &[], out),
    }
}

/// Writes the name of the refusals of this number, the condition that answers a frame that is refused so, and the frame that carries it, with a
/// line feed between. Nothing where there are none. `NoMemory` where memory is refused.
pub(crate) fn refusal_lines(
    number: u32,
    scratch: &mut BytesMut,
    output: &mut [u8],
) -> (Status, usize)
    ensures { (text : List ℕ) × IsRefusalText number text × WritesIfGranted text output.old result.0 result.1 output.new }
{
    scratch.clear();
    match put_refusal_lines(refusal_name(number), refusal_answer(number), scratch) {
        Ok(()) => write(output, scratch.as_slice()),
        Err(_) => (Status::NoMemory, 0),
    }
}

fn put_refusal_lines(
    name: Option<&str>,
    answer: Option<PeerAnswer>,
    out: &mut BytesMut,
) -> Result<(), AllocError>
    ensures ok { OnOk result (out.new.items ≡ out.old.items ++ text_of (option_copied name.entry) answer) }
    ensures refused { OnErr result (Ungranted (text_of (option_copied name.entry) answer)) }
{
    match name {
        None => Ok(()),
        Some(name) => put_lines(
            name.as_bytes(),
            condition_of(answer).as_bytes(),
            frame_of(answer),
            out,
        ),
    }
}

/// The frame that carries the condition.
fn frame_of(answer: Option<PeerAnswer>) -> &'static [u8]
    ensures { result.now ≡ frame_said answer }
{
    match answer {
        None => &[],
        Some(PeerAnswer::End(_)) => b"end",
        Some(PeerAnswer::Close(_)) => b"close",
    }
}

/// Appends three texts, with a line feed between.
#[tactic(auto, using(crate::proofs::TellingLemmas::of_first, crate::proofs::TellingLemmas::of_feed, crate::proofs::TellingLemmas::of_second, crate::proofs::TellingLemmas::of_third))]
fn put_lines(
    first: &[u8],
    second: &[u8],
    third: &[u8],
    out: &mut BytesMut,
) -> Result<(), AllocError>
    ensures ok { OnOk result (out.new.items ≡ out.old.items ++ lines first.now second.now third.now) }
    ensures refused { OnErr result (Ungranted (lines first.now second.now third.now)) }
{
    append(first, out)?;
    append(&[10], out)?;
    append(second, out)?;
    append(&[10], out)?;
    append(third, out)
}

/// Appends bytes. `AllocError` where memory is refused.
fn append(bytes: &[u8], out: &mut BytesMut) -> Result<(), AllocError>
    ensures ok { OnOk result (out.new.items ≡ out.old.items ++ bytes.now) }
    ensures refused { OnErr result (RefusedWithin (length bytes.now)) }
{
    more_in_buffer(out, bytes.len())?;
    out.extend_from_slice(bytes)
}

/// What an error says in words.
fn description_of(error: &Error) -> &[u8]
    ensures { result.now ≡ option_or_empty error.now.description }
{
    match &error.description {
        Some(description) => description.as_bytes(),
        None => &[],
    }
}

/// Writes the peer's Open, if it came. `NoMemory` where memory is refused, or its canonical text has more than 4294967295 bytes.
pub(crate) fn remote_open(
    remote: Option<&Open>,
    scratch: &mut BytesMut,
    output: &mut [u8],
) -> (Status, usize)
    ensures { WritesIfGranted (open_text (option_map (λ o. o.now) remote.entry)) output.old result.0 result.1 output.new }
{
    let Some(remote) = remote else {
        return (Status::Done, 0);
    };
    scratch.clear();
    match put_open(remote, scratch) {
        Ok(()) => write(output, scratch.as_slice()),
        Err(_) => (Status::NoMemory, 0),
    }
}

fn put_open(remote: &Open, out: &mut BytesMut) -> Result<(), AllocError>
    ensures ok { OnOk result (out.new.items ≡ out.old.items ++ performative_text (its.Open remote.now)) }
    ensures refused { OnErr result (Ungranted (performative_text (its.Open remote.now))) }
{
    let len = make_room(remote.encoded_len(), out)?;
    remote.put(len, out);
    Ok(())
}

/// Writes the session to which a channel of the peer's leads, if it leads to one.
pub(crate) fn session_of<R: LinkRelay>(
    engine: &Engine<R>,
    channel: u16,
    output: &mut [u8],
) -> (Status, usize)
    ensures { Writes (session_text engine.now channel) output.old result.0 result.1 output.new }
{
    match engine.session_of(IncomingChannel(channel)) {
        Some(session) => write(output, &session.0.to_be_bytes()),
        None => (Status::Done, 0),
    }
}

/// Writes the state of the session of this number, if there is one.
pub(crate) fn session_state<R: LinkRelay>(
    engine: &Engine<R>,
    number: u32,
    output: &mut [u8],
) -> (Status, usize)
    ensures { Writes (session_state_text engine.now number) output.old result.0 result.1 output.new }
{
    match engine.session(SessionNo(number)) {
        Some(session) => write(output, &[session_state_number(*session.local_state())]),
        None => (Status::Done, 0),
    }
}

/// A session's state as a byte, in the order of the states.
fn session_state_number(state: SessionState) -> u8
    ensures { result ≡ session_state_number state }
{
    match state {
        SessionState::Unmapped => 0,
        SessionState::BeginSent => 1,
        SessionState::BeginReceived => 2,
        SessionState::Mapped => 3,
        SessionState::EndSent => 4,
        SessionState::EndReceived => 5,
        SessionState::Discarding => 6,
    }
}

/// The connection's state as a byte, in the order of the states.
pub(crate) fn state_number(state: ConnectionState) -> u8
    ensures { result ≡ state_number state }
{
    match state {
        ConnectionState::Start => 0,
        ConnectionState::HeaderReceived => 1,
        ConnectionState::HeaderSent => 2,
        ConnectionState::HeaderExchange => 3,
        ConnectionState::OpenPipe => 4,
        ConnectionState::OpenClosePipe => 5,
        ConnectionState::OpenReceived => 6,
        ConnectionState::OpenSent => 7,
        ConnectionState::ClosePipe => 8,
        ConnectionState::Opened => 9,
        ConnectionState::CloseReceived => 10,
        ConnectionState::CloseSent => 11,
        ConnectionState::Discarding => 12,
        ConnectionState::End => 13,
    }
}

/// Makes room for a text of so many bytes. `AllocError` where memory is refused, or four bytes cannot say the number.
fn make_room(len: u128, out: &mut BytesMut) -> Result<usize, AllocError>
    ensures ok { IfOk result (λ n. (n ≡ len) × (n < 2 ^ 32) × (n ≤ out.new.spare)) }
    ensures items { out.new.items ≡ out.old.items }
    ensures refused { OnErr result (RefusedWithin len ⊎ (2 ^ 32 ≤ len)) }
{
    if len > u128::from(u32::MAX) {
        return Err(AllocError);
    }
    more_in_buffer(out, len as usize)?;
    Ok(len as usize)
}
