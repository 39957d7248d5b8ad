//! Why bytes could not be read, and why a value could not be written.

ghost use Rattle.std.specs.Prelude.{◌≡◌};
ghost use Rattle.amqp_values.specs.declared.error.ReadError.TheVariants.{OutOfMemory};

use std::alloc::AllocError;
use thiserror::Error;

/// Why a value could not be read.
#[derive(Clone, Copy, Debug, PartialEq, Eq, Error)]
pub enum ReadError {
    /// No front of the bytes is a value of this type (part 1 and part 2 of the standard).
    #[error("malformed")]
    Malformed,
    /// Memory was refused.
    #[error("out of memory")]
    OutOfMemory,
}

/// Why a value could not be written.
#[derive(Clone, Copy, Debug, PartialEq, Eq, Error)]
pub enum WriteError {
    /// The text is longer than the limit that was given.
    #[error("too large")]
    TooLarge,
    /// Memory was refused.
    #[error("out of memory")]
    OutOfMemory,
}

impl From<AllocError> for ReadError {
    ghost from_gives = { λ _ e. e ≡ OutOfMemory };

    fn from(_error: AllocError) -> ReadError {
        ReadError::OutOfMemory
    }
}
