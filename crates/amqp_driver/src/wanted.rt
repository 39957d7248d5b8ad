//! What a record asks for, and how a refused frame is answered, by the number of its refusal.

ghost use Rattle.std.specs.Prelude.{◌≡◌, IfOk, OnErr};
ghost use Rattle.amqp_memory.specs.Refusal.{SomeRefused};
ghost use Rattle.fe2o3_amqp.specs.Refusals.{has_closed};
ghost use Rattle.amqp_driver.specs.Wanted.{answer_by_number, frame_in, input_for, wanted_by};

use crate::head::has;
use crate::record::Record;
use crate::{answers, kind};
use amqp_connection::SessionNo;
use amqp_engine::Input;
use amqp_types::ConnectionState;
use fe2o3_amqp::{ErrorCondition, PeerAnswer};
use std::alloc::{AllocError, Global};

/// What a record asks for.
#[derive(Clone, Copy)]
pub(crate) enum Wanted {
    /// Nothing, or what the flags do not name.
    Nothing,
    /// This side's Begin.
    Begin,
    /// This side's End, and that the session is let go.
    End,
    /// This side's Close.
    Close,
    /// An End or a Close for a refusal, if one is due.
    Refusal,
}

/// What a record asks for, of the answers that these flags name.
pub(crate) fn wanted_by(flags: u16, record: &Record) -> Wanted
    ensures { result ≡ wanted_by flags «record».now }
{
    if record.kind == kind::BEGIN_WANTED && has(flags, answers::BEGINS) {
        return Wanted::Begin;
    }
    if record.kind == kind::ENDED && has(flags, answers::ENDS) {
        return Wanted::End;
    }
    if record.kind == kind::CLOSED && has(flags, answers::CLOSES) {
        return Wanted::Close;
    }
    if record.kind == kind::REFUSED && has(flags, answers::REFUSALS) {
        return Wanted::Refusal;
    }
    Wanted::Nothing
}

/// How a received frame is answered that was refused for the reason of this number, in [`Record::refusal`](crate::Record): as
/// [`answer_to`](fe2o3_amqp::answer_to) says of the refusal itself, where this side has not closed (AMQP 1.0 part 2, sections 2.7.8, 2.7.9 and
/// 2.8.15 to 2.8.17). `None` where no answer is due, and of a number that no refusal has.
pub fn answer_by_number(refusal: u32) -> Option<PeerAnswer>
    ensures { result ≡ answer_by_number refusal }
{
    match refusal {
        4 => Some(PeerAnswer::Close(ErrorCondition::ResourceLimitExceeded)),
        12 => Some(PeerAnswer::Close(ErrorCondition::DecodeError)),
        13 => Some(PeerAnswer::Close(ErrorCondition::NotImplemented)),
        15 => Some(PeerAnswer::Close(ErrorCondition::ResourceLimitExceeded)),
        21 => Some(PeerAnswer::Close(ErrorCondition::IllegalState)),
        32 => Some(PeerAnswer::Close(ErrorCondition::IllegalState)),
        33 => Some(PeerAnswer::Close(ErrorCondition::NotImplemented)),
        34 => Some(PeerAnswer::Close(ErrorCondition::NotFound)),
        37 => Some(PeerAnswer::Close(ErrorCondition::ResourceLimitExceeded)),
        51 => Some(PeerAnswer::End(ErrorCondition::IllegalState)),
        61 => Some(PeerAnswer::End(ErrorCondition::UnattachedHandle)),
        62 => Some(PeerAnswer::End(ErrorCondition::NotFound)),
        63 => Some(PeerAnswer::End(ErrorCondition::HandleInUse)),
        66 => Some(PeerAnswer::End(ErrorCondition::NotAllowed)),
        69 => Some(PeerAnswer::End(ErrorCondition::UnknownTransaction)),
        70 => Some(PeerAnswer::End(ErrorCondition::ResourceLimitExceeded)),
        _ => None,
    }
}

/// Whether this side's Close went out, so that nothing more may.
pub(crate) fn has_closed(state: ConnectionState) -> bool
    ensures { result ≡ has_closed state }
{
    matches!(
        state,
        ConnectionState::ClosePipe
            | ConnectionState::OpenClosePipe
            | ConnectionState::CloseSent
            | ConnectionState::Discarding
            | ConnectionState::End
    )
}

/// The request by which this session, or the connection, is answered so.
pub(crate) fn input_for<R>(
    alloc: Global,
    session: SessionNo,
    answer: PeerAnswer,
) -> Result<Input<R>, AllocError>
    ensures input { IfOk result (λ i. i ≡ input_for session answer) }
    ensures refused { OnErr result SomeRefused }
{
    match answer {
        PeerAnswer::End(condition) => Ok(Input::End(session, Some(condition.to_error(alloc)?))),
        PeerAnswer::Close(condition) => Ok(Input::Close(Some(condition.to_error(alloc)?))),
    }
}

/// The bytes of a record's frame behind its size, out of the input in which it stands. Fewer where that is shorter.
pub(crate) fn frame_in<'a>(record: &Record, input: &'a [u8]) -> &'a [u8]
    ensures { result.now ≡ frame_in «record».now input.now }
{
    let from = (record.at.saturating_sub(4) as usize).min(input.len());
    let rest = &input[from..];
    &rest[..(record.size as usize + 4).min(rest.len())]
}
