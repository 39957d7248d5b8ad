//! Error conditions: what a Detach, an End or a Close says went wrong (AMQP 1.0 part 2, sections 2.8.15 to 2.8.18).

ghost use Rattle.std.specs.Prelude.{◌≡◌, IfOk, OnErr};
ghost use Rattle.amqp_memory.specs.Refusal.{SomeRefused};
ghost use Rattle.fe2o3_amqp.specs.Conditions.{condition_text, error_of};

use amqp_memory::text_of;
use amqp_types::{Error, Symbol};
use std::alloc::{AllocError, Global};

/// A condition that the standard names. A peer may name others too: its [`Error`](crate::definitions::Error) has the text.
///
/// ```
/// let error = ErrorCondition::IllegalState.to_error(alloc)?;
/// let input = Input::Close(Some(error));
/// ```
#[derive(Clone, Copy, Debug, PartialEq, Eq)]
pub enum ErrorCondition {
    /// An internal error, `amqp:internal-error` (section 2.8.15, as all up to `FrameSizeTooSmall`).
    InternalError,
    /// What the peer works with does not exist, `amqp:not-found`.
    NotFound,
    /// The peer may not have access, `amqp:unauthorized-access`.
    UnauthorizedAccess,
    /// Data could not be decoded, `amqp:decode-error`.
    DecodeError,
    /// The peer exceeded the resources that are allotted to it, `amqp:resource-limit-exceeded`.
    ResourceLimitExceeded,
    /// A frame was used in a way that the standard does not allow, `amqp:not-allowed`.
    NotAllowed,
    /// A frame has a field that is not valid, `amqp:invalid-field`.
    InvalidField,
    /// The peer requests a function that is not implemented, `amqp:not-implemented`.
    NotImplemented,
    /// Another client works with it, `amqp:resource-locked`.
    ResourceLocked,
    /// A condition of the request does not hold, `amqp:precondition-failed`.
    PreconditionFailed,
    /// What the peer works with was deleted, `amqp:resource-deleted`.
    ResourceDeleted,
    /// The state does not take this frame, `amqp:illegal-state`.
    IllegalState,
    /// This side cannot send a frame, since its least spelling does not fit the peer's limit, `amqp:frame-size-too-small`.
    FrameSizeTooSmall,
    /// An operator closed the connection, `amqp:connection:forced` (section 2.8.16, as the next two).
    ConnectionForced,
    /// No frame header can be read from the bytes, `amqp:connection:framing-error`.
    FramingError,
    /// The peer is to connect elsewhere, `amqp:connection:redirect`; the error's `info` says where.
    ConnectionRedirect,
    /// The peer sent past the incoming window, `amqp:session:window-violation` (section 2.8.17, as the next three).
    WindowViolation,
    /// Something came for a link that was detached with an error, `amqp:session:errant-link`.
    ErrantLink,
    /// An attach names a handle that an attached link has, `amqp:session:handle-in-use`.
    HandleInUse,
    /// A frame other than an attach names a handle that no attached link has, `amqp:session:unattached-handle`.
    UnattachedHandle,
    /// An operator detached the link, `amqp:link:detach-forced` (section 2.8.18, as the next four).
    DetachForced,
    /// More transfers came than the link's credit allows, `amqp:link:transfer-limit-exceeded`.
    TransferLimitExceeded,
    /// A message is longer than the link allows, `amqp:link:message-size-exceeded`.
    MessageSizeExceeded,
    /// The link is to be attached elsewhere, `amqp:link:redirect`; the error's `info` says where.
    LinkRedirect,
    /// The link was attached elsewhere, `amqp:link:stolen`.
    Stolen,
    /// No transaction has the number, `amqp:transaction:unknown-id` (part 4, section 4.5.8).
    UnknownTransaction,
}

impl ErrorCondition {
    /// The condition as the standard writes it.
    pub fn as_str(self) -> &'static str
        ensures { result.now ≡ condition_text self }
    {
        match self {
            ErrorCondition::InternalError => "amqp:internal-error",
            ErrorCondition::NotFound => "amqp:not-found",
            ErrorCondition::UnauthorizedAccess => "amqp:unauthorized-access",
            ErrorCondition::DecodeError => "amqp:decode-error",
            ErrorCondition::ResourceLimitExceeded => "amqp:resource-limit-exceeded",
            ErrorCondition::NotAllowed => "amqp:not-allowed",
            ErrorCondition::InvalidField => "amqp:invalid-field",
            ErrorCondition::NotImplemented => "amqp:not-implemented",
            ErrorCondition::ResourceLocked => "amqp:resource-locked",
            ErrorCondition::PreconditionFailed => "amqp:precondition-failed",
            ErrorCondition::ResourceDeleted => "amqp:resource-deleted",
            ErrorCondition::IllegalState => "amqp:illegal-state",
            ErrorCondition::FrameSizeTooSmall => "amqp:frame-size-too-small",
            ErrorCondition::ConnectionForced => "amqp:connection:forced",
            ErrorCondition::FramingError => "amqp:connection:framing-error",
            ErrorCondition::ConnectionRedirect => "amqp:connection:redirect",
            ErrorCondition::WindowViolation => "amqp:session:window-violation",
            ErrorCondition::ErrantLink => "amqp:session:errant-link",
            ErrorCondition::HandleInUse => "amqp:session:handle-in-use",
            ErrorCondition::UnattachedHandle => "amqp:session:unattached-handle",
            ErrorCondition::DetachForced => "amqp:link:detach-forced",
            ErrorCondition::TransferLimitExceeded => "amqp:link:transfer-limit-exceeded",
            ErrorCondition::MessageSizeExceeded => "amqp:link:message-size-exceeded",
            ErrorCondition::LinkRedirect => "amqp:link:redirect",
            ErrorCondition::Stolen => "amqp:link:stolen",
            ErrorCondition::UnknownTransaction => "amqp:transaction:unknown-id",
        }
    }

    /// The error of this condition, without description and `info`, as `Input::End` and `Input::Close` take it. `AllocError` where
    /// memory for the condition's text is refused.
    pub fn to_error(self, alloc: Global) -> Result<Error, AllocError>
        ensures error { IfOk result (λ e. e ≡ error_of self) }
        ensures refused { OnErr result SomeRefused }
    {
        let text = text_of(alloc, self.as_str())?;
        Ok(Error {
            condition: Symbol::new(text).unwrap(),
            description: None,
            info: None,
        })
    }
}
