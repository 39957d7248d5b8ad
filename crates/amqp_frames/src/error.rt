//! Why a frame could not be decoded or encoded.

ghost use Rattle.std.specs.Prelude.{◌≡◌};
ghost use Rattle.amqp_frames.specs.FrameError.{error_of};
ghost use Rattle.amqp_frames.specs.declared.error.Error.TheVariants.{OutOfMemory};

use amqp_types::ReadError;
use std::alloc::AllocError;

/// Why a frame could not be decoded or encoded.
#[derive(Debug, Drop, PartialEq, thiserror::Error)]
pub enum Error {
    /// A reader or a writer failed. No call of this crate answers it: it has neither.
    #[error("IO Error {0:?}")]
    Io(String),
    /// The bytes are no frame: fewer than four, or a body that is no performative.
    #[error("Decode Error")]
    DecodeError,
    /// The frame's type is not that of AMQP, or its header is extended.
    #[error("AmqpError: NotImplemented")]
    NotImplemented,
    /// The frame does not fit the limit, whole or cut.
    #[error("too large")]
    TooLarge,
    /// Memory was refused.
    #[error("out of memory")]
    OutOfMemory,
}

impl From<ReadError> for Error {
    ghost from_gives = { λ r e. e ≡ error_of r };

    fn from(error: ReadError) -> Error {
        match error {
            ReadError::Malformed => Error::DecodeError,
            ReadError::OutOfMemory => Error::OutOfMemory,
        }
    }
}

impl From<AllocError> for Error {
    ghost from_gives = { λ _ e. e ≡ OutOfMemory };

    fn from(_error: AllocError) -> Error {
        Error::OutOfMemory
    }
}
