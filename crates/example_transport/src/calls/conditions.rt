//! The conditions that the standard names, as their errors have them.

use fe2o3_amqp::ErrorCondition;
use std::io;

/// Prints each condition, and the text that its error says.
pub fn conditions(rt: &HostRuntime) -> io::Result<()> {
    for condition in [
        ErrorCondition::InternalError,
        ErrorCondition::NotFound,
        ErrorCondition::UnauthorizedAccess,
        ErrorCondition::DecodeError,
        ErrorCondition::ResourceLimitExceeded,
        ErrorCondition::NotAllowed,
        ErrorCondition::InvalidField,
        ErrorCondition::NotImplemented,
        ErrorCondition::ResourceLocked,
        ErrorCondition::PreconditionFailed,
        ErrorCondition::ResourceDeleted,
        ErrorCondition::IllegalState,
        ErrorCondition::FrameSizeTooSmall,
        ErrorCondition::ConnectionForced,
        ErrorCondition::FramingError,
        ErrorCondition::ConnectionRedirect,
        ErrorCondition::WindowViolation,
        ErrorCondition::ErrantLink,
        ErrorCondition::HandleInUse,
        ErrorCondition::UnattachedHandle,
        ErrorCondition::DetachForced,
        ErrorCondition::TransferLimitExceeded,
        ErrorCondition::MessageSizeExceeded,
        ErrorCondition::LinkRedirect,
        ErrorCondition::Stolen,
        ErrorCondition::UnknownTransaction,
    ] {
        spelled(rt, condition)?;
    }
    Ok(())
}

fn spelled(rt: &HostRuntime, condition: ErrorCondition) -> io::Result<()> {
    let error = condition.to_error(rt.alloc())?;
    let printed = println!(rt; "{condition:?}: {error}");
    drop(error);
    printed
}
