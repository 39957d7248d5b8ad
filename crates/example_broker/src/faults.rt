//! Faults: for which condition the connection is closed (AMQP 1.0 part 2, sections 2.8.15 to 2.8.18).

use amqp_driver::{Asked, BeginAnswer, answer_by_number};
use amqp_endpoints::AttachError;
use fe2o3_amqp::{ConnectionState, ErrorCondition, PeerAnswer, StepError, answer_to};

/// The fault of a frame that was refused, by the number of its refusal.
pub fn refused_fault(refusal: u32) -> ErrorCondition {
    condition_of(answer_by_number(refusal))
}

/// The fault of a request, if it was not done. Where the stream is over, nothing is to be said any more.
pub fn fault_of(asked: Asked) -> Option<ErrorCondition> {
    match asked {
        Asked::Done | Asked::Over => None,
        Asked::TooLarge => Some(ErrorCondition::FrameSizeTooSmall),
        Asked::NoMemory => Some(ErrorCondition::ResourceLimitExceeded),
        Asked::Refused(error) => Some(step_fault(error)),
    }
}

/// The fault of an Attach that was not answered. Without a handle the fault is that of the request for one.
pub fn attach_fault(error: AttachError) -> Option<ErrorCondition> {
    match error {
        AttachError::NoLink => Some(ErrorCondition::NotAllowed),
        AttachError::InUse => Some(ErrorCondition::HandleInUse),
        AttachError::OutOfMemory => Some(ErrorCondition::ResourceLimitExceeded),
        AttachError::Asked(asked) => fault_of(asked),
    }
}

/// The fault of a Begin, if it was not answered.
pub fn begin_fault(answer: BeginAnswer) -> Option<ErrorCondition> {
    match answer {
        BeginAnswer::Done => None,
        BeginAnswer::NotOpened | BeginAnswer::ChannelInUse => Some(ErrorCondition::IllegalState),
        BeginAnswer::TooLarge => Some(ErrorCondition::FrameSizeTooSmall),
        BeginAnswer::Unread(_) => Some(ErrorCondition::DecodeError),
        BeginAnswer::Refused(error) => Some(step_fault(error)),
        BeginAnswer::NoMemory | BeginAnswer::Lost | BeginAnswer::Broken => {
            Some(ErrorCondition::ResourceLimitExceeded)
        }
    }
}

fn step_fault(error: StepError) -> ErrorCondition {
    let answer = answer_to(&error, ConnectionState::Opened);
    drop(error);
    condition_of(answer)
}

fn condition_of(answer: Option<PeerAnswer>) -> ErrorCondition {
    match answer {
        Some(PeerAnswer::End(condition)) | Some(PeerAnswer::Close(condition)) => condition,
        None => ErrorCondition::NotAllowed,
    }
}
