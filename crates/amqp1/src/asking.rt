//! Requests: the input of the engine that an operation's bytes ask for.

ghost use Rattle.std.specs.Prelude.{◌≡◌, [], Some};
ghost use Rattle.amqp1.specs.Reading.{Reads};
ghost use Rattle.amqp1.specs.Asking.{Asks, AsksInSession, AsksOfSession, AsksOpen, AsksClose, AsksRelease, AsksForget, AsksSettle, HasNumber};
ghost use Rattle.amqp1.specs.Asking.{AsksBegin, AsksEnd, AsksAttach, AsksDetach, AsksFlow, AsksTransfer, AsksDisposition, settings_of, IsBegun, IsNumber};

use crate::operation::Operation;
use crate::reading;
use amqp_connection::SessionNo;
use amqp_engine::Input;
use amqp_session::{InputHandle, LinkFlow, SessionSettings};
use amqp_types::{Begin, ReadError};
use std::alloc::Global;

/// The input that an operation's bytes ask for. `Malformed` exactly where the bytes do not have the operation's form, and for an operation that
/// is no request of this kind; `OutOfMemory` where memory is refused.
pub(crate) fn asked<R>(
    alloc: Global,
    operation: Operation,
    input: &[u8],
) -> Result<Input<R>, ReadError>
    ensures { Reads (Asks operation input.now) result }
{
    match operation {
        Operation::Open => open(input),
        Operation::Close => close(alloc, input),
        Operation::Release => release(input),
        Operation::Forget => forget(input),
        Operation::Settle => settle(input),
        _ => in_session(alloc, operation, input),
    }
}

/// The input of a session, whose number stands at the front.
fn in_session<R>(alloc: Global, operation: Operation, input: &[u8]) -> Result<Input<R>, ReadError>
    ensures { Reads (AsksInSession operation input.now) result }
{
    match reading::number(input) {
        Some((session, rest)) => of_session(alloc, operation, session, rest),
        None => Err(ReadError::Malformed),
    }
}

/// The input of a session, by what follows its number.
fn of_session<R>(
    alloc: Global,
    operation: Operation,
    session: u32,
    rest: &[u8],
) -> Result<Input<R>, ReadError>
    ensures { Reads (AsksOfSession operation session rest.now) result }
{
    match operation {
        Operation::Begin => begin(alloc, session, rest),
        Operation::End => end(alloc, session, rest),
        Operation::Attach => attach(alloc, session, rest),
        Operation::Detach => detach(alloc, session, rest),
        Operation::Flow => flow(alloc, session, rest),
        Operation::Transfer => transfer(alloc, session, rest),
        Operation::Disposition => disposition(alloc, session, rest),
        _ => Err(ReadError::Malformed),
    }
}

fn open<R>(input: &[u8]) -> Result<Input<R>, ReadError>
    ensures { Reads (AsksOpen input.now) result }
{
    if input.is_empty() {
        Ok(Input::Open)
    } else {
        Err(ReadError::Malformed)
    }
}

fn close<R>(alloc: Global, input: &[u8]) -> Result<Input<R>, ReadError>
    ensures { Reads (AsksClose input.now) result }
{
    match reading::error(alloc, input) {
        Ok(error) => Ok(Input::Close(error)),
        Err(error) => Err(error),
    }
}

/// The number that the bytes are.
fn number(input: &[u8]) -> Option<u32>
    ensures { IsNumber input.now result }
{
    match reading::number(input) {
        Some((number, [])) => Some(number),
        _ => None,
    }
}

fn release<R>(input: &[u8]) -> Result<Input<R>, ReadError>
    ensures { Reads (AsksRelease input.now) result }
{
    match number(input) {
        Some(session) => Ok(Input::Release(SessionNo(session))),
        None => Err(ReadError::Malformed),
    }
}

fn forget<R>(input: &[u8]) -> Result<Input<R>, ReadError>
    ensures { Reads (AsksForget input.now) result }
{
    match number(input) {
        Some(session) => Ok(Input::Forget(SessionNo(session))),
        None => Err(ReadError::Malformed),
    }
}

fn settle<R>(input: &[u8]) -> Result<Input<R>, ReadError>
    ensures { Reads (AsksSettle input.now) result }
{
    let Some((session, after)) = reading::number(input) else {
        return Err(ReadError::Malformed);
    };
    let Some((role, numbers)) = reading::byte(after) else {
        return Err(ReadError::Malformed);
    };
    let Some(role) = reading::role(role) else {
        return Err(ReadError::Malformed);
    };
    let Some((first, rest)) = reading::number(numbers) else {
        return Err(ReadError::Malformed);
    };
    let Some(last) = number(rest) else {
        return Err(ReadError::Malformed);
    };
    Ok(Input::Settle(SessionNo(session), role, first, Some(last)))
}

fn begin<R>(alloc: Global, session: u32, input: &[u8]) -> Result<Input<R>, ReadError>
    ensures { Reads (AsksBegin session input.now) result }
{
    match reading::begin(alloc, input) {
        Ok(begin) => begun(session, begin),
        Err(error) => Err(error),
    }
}

/// A session with the settings of a Begin that answers none.
fn begun<R>(session: u32, begin: Begin) -> Result<Input<R>, ReadError>
    ensures { IsBegun session begin result }
{
    if begin.remote_channel.is_some() {
        drop(begin);
        return Err(ReadError::Malformed);
    }
    Ok(Input::Begin(SessionNo(session), settings_of(begin)))
}

/// The settings that a Begin names.
pub(crate) fn settings_of(begin: Begin) -> SessionSettings
    ensures { result ≡ settings_of begin }
{
    SessionSettings {
        next_outgoing_id: begin.next_outgoing_id,
        incoming_window: begin.incoming_window,
        outgoing_window: begin.outgoing_window,
        handle_max: begin.handle_max,
        offered_capabilities: begin.offered_capabilities,
        desired_capabilities: begin.desired_capabilities,
        properties: begin.properties,
    }
}

fn end<R>(alloc: Global, session: u32, input: &[u8]) -> Result<Input<R>, ReadError>
    ensures { Reads (AsksEnd session input.now) result }
{
    match reading::error(alloc, input) {
        Ok(error) => Ok(Input::End(SessionNo(session), error)),
        Err(error) => Err(error),
    }
}

fn attach<R>(alloc: Global, session: u32, input: &[u8]) -> Result<Input<R>, ReadError>
    ensures { Reads (AsksAttach session input.now) result }
{
    match reading::attach(alloc, input) {
        Ok(attach) => Ok(Input::Attach(SessionNo(session), attach)),
        Err(error) => Err(error),
    }
}

fn detach<R>(alloc: Global, session: u32, input: &[u8]) -> Result<Input<R>, ReadError>
    ensures { Reads (AsksDetach session input.now) result }
{
    let Some((flag, rest)) = reading::byte(input) else {
        return Err(ReadError::Malformed);
    };
    let Some(answered) = reading::flag(flag) else {
        return Err(ReadError::Malformed);
    };
    match reading::detach(alloc, rest) {
        Ok(detach) => Ok(Input::Detach(SessionNo(session), detach, answered)),
        Err(error) => Err(error),
    }
}

fn flow<R>(alloc: Global, session: u32, input: &[u8]) -> Result<Input<R>, ReadError>
    ensures { Reads (AsksFlow session input.now) result }
{
    match reading::flow(alloc, input) {
        Ok(flow) => match LinkFlow::try_from(flow) {
            Ok(flow) => Ok(Input::Flow(SessionNo(session), flow)),
            Err(()) => Err(ReadError::Malformed),
        },
        Err(error) => Err(error),
    }
}

fn transfer<R>(alloc: Global, session: u32, input: &[u8]) -> Result<Input<R>, ReadError>
    ensures { Reads (AsksTransfer session input.now) result }
{
    let Some((flag, rest)) = reading::byte(input) else {
        return Err(ReadError::Malformed);
    };
    let Some(first) = reading::flag(flag) else {
        return Err(ReadError::Malformed);
    };
    let Some((count, parts)) = reading::number(rest) else {
        return Err(ReadError::Malformed);
    };
    match reading::transfer_and_payload(alloc, count, parts) {
        Ok((transfer, payload)) => Ok(Input::Transfer(
            SessionNo(session),
            InputHandle(0),
            transfer,
            payload,
            first,
        )),
        Err(error) => Err(error),
    }
}

fn disposition<R>(alloc: Global, session: u32, input: &[u8]) -> Result<Input<R>, ReadError>
    ensures { Reads (AsksDisposition session input.now) result }
{
    match reading::disposition(alloc, input) {
        Ok(disposition) => Ok(Input::Disposition(SessionNo(session), disposition)),
        Err(error) => Err(error),
    }
}
