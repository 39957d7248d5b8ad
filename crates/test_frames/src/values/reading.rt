//! What reading a raw value off bytes answers.

use amqp_values::{Raw, ReadError};
use bytes::Bytes;

/// What stands at the front of bytes.
#[derive(Clone, Copy, Debug, PartialEq)]
pub(crate) enum Answer {
    /// A value, and so many bytes after it.
    Value { left: usize },
    /// No value.
    Malformed,
    /// Memory was refused.
    OutOfMemory,
}

/// A value, and nothing after it.
pub(crate) const WHOLE: Answer = Answer::Value { left: 0 };

pub(crate) fn read(bytes: Bytes) -> Answer {
    match Raw::read(bytes) {
        Ok((_, rest)) => Answer::Value { left: rest.len() },
        Err(ReadError::Malformed) => Answer::Malformed,
        Err(ReadError::OutOfMemory) => Answer::OutOfMemory,
    }
}
