//! What is told of a frame, by what it says and by the engine's answer.

ghost use Rattle.std.specs.Prelude.{◌≡◌};
ghost use Rattle.std.specs.Option.{option_map};
ghost use Rattle.amqp_connection.specs.Connection.{refusal_of};
ghost use Rattle.amqp_driver.specs.Driver.{is_passed_on, told_of};
ghost use Rattle.amqp_driver.specs.Record.{number_or, none};
ghost use Rattle.amqp_driver.specs.Told.{is_attach_wanted, is_begin_wanted, is_over, placed, refused_kind, refused_record};

use crate::kind;
use crate::record::{NONE, Record};
use crate::refusals::refusal_number;
use amqp_connection::{ConnectionInnerError, ConnectionStateError, SessionNo};
use amqp_engine::StepError;
use amqp_session::{OutputHandle, SessionInnerError, SessionStateError};

/// What is told of one frame.
#[derive(Clone, Copy)]
pub(crate) enum Told {
    /// Memory was refused: it was not taken.
    NoMemory,
    /// It was taken, and says nothing.
    Nothing,
    /// It was taken.
    One(Record),
}

/// What is told of a frame, by the engine's answer, by what it says, and by the session and the link that stood there for it before: it is
/// silent, as an empty one, or `anew` the peer begins a session by it.
#[inline(always)]
pub(crate) fn told_of(
    answer: Option<Result<(), StepError>>,
    route: Option<SessionNo>,
    link: Option<OutputHandle>,
    silent: bool,
    anew: bool,
    said: Record,
) -> Told
    ensures { result ≡ told_of answer (option_map (λ n. n.0) route) link silent anew said }
{
    match answer {
        None => Told::NoMemory,
        Some(Ok(())) => {
            if silent {
                Told::Nothing
            } else {
                Told::One(placed(route, link, said))
            }
        }
        Some(Err(error)) => {
            let placed = if is_passed_on(&error) {
                placed(route, link, said)
            } else {
                placed(None, None, said)
            };
            let record = refused(&error, anew, placed);
            drop(error);
            Told::One(record)
        }
    }
}

/// Whether the connection passed the frame on, which was refused so.
fn is_passed_on(error: &StepError) -> bool
    ensures { result ≡ is_passed_on error.now }
{
    match error {
        StepError::Connection(_) => false,
        _ => true,
    }
}

/// A record of this session and this link.
#[inline(always)]
fn placed(reached: Option<SessionNo>, link: Option<OutputHandle>, said: Record) -> Record
    ensures { result ≡ placed (option_map (λ n. n.0) reached) link said }
{
    Record {
        session: session_or_none(reached),
        output: output_or_none(link),
        ..said
    }
}

fn session_or_none(reached: Option<SessionNo>) -> u32
    ensures { result ≡ number_or none (option_map (λ n. n.0) reached) }
{
    match reached {
        Some(number) => number.0,
        None => NONE,
    }
}

fn output_or_none(link: Option<OutputHandle>) -> u32
    ensures { result ≡ number_or none (option_map (λ h. h.0) link) }
{
    match link {
        Some(handle) => handle.0,
        None => NONE,
    }
}

/// The record of a frame that was refused so.
#[inline(never)]
fn refused(error: &StepError, anew: bool, said: Record) -> Record
    ensures { result ≡ refused_record anew error.now said }
{
    if is_over(said.kind, error) {
        return said;
    }
    Record {
        kind: refused_kind(anew, said.kind, error),
        refusal: refusal_number(error),
        ..said
    }
}

fn refused_kind(anew: bool, said: u8, error: &StepError) -> u8
    ensures { result ≡ refused_kind anew said error.now }
{
    if is_attach_wanted(said, error) {
        kind::ATTACH_WANTED
    } else if is_begin_wanted(anew, error) {
        kind::BEGIN_WANTED
    } else {
        kind::REFUSED
    }
}

/// Whether the refusal says how the peer ended, of an End, or how it closed, of a Close: those were taken.
fn is_over(said: u8, error: &StepError) -> bool
    ensures { result ≡ is_over said error.now }
{
    match error {
        StepError::SessionState(SessionStateError::RemoteEnded)
        | StepError::SessionState(SessionStateError::RemoteEndedWithError(_)) => said
            == kind::ENDED,
        StepError::ConnectionState(ConnectionStateError::RemoteClosed)
        | StepError::ConnectionState(ConnectionStateError::RemoteClosedWithError(_)) => {
            said == kind::CLOSED
        }
        _ => false,
    }
}

/// Whether it is the refusal of an Attach whose name no link waits for.
fn is_attach_wanted(said: u8, error: &StepError) -> bool
    ensures { result ≡ is_attach_wanted said error.now }
{
    match error {
        StepError::Session(SessionInnerError::RemoteAttachingLinkNameNotFound) => {
            said == kind::ATTACHED
        }
        _ => false,
    }
}

/// Whether it is the refusal of a Begin by which the peer begins a session.
fn is_begin_wanted(anew: bool, error: &StepError) -> bool
    ensures { result ≡ is_begin_wanted anew error.now }
{
    match error {
        StepError::Connection(ConnectionInnerError::NotImplemented(_)) => anew,
        _ => false,
    }
}
