//! The error that frames carry.

pub use amqp_types::Error;
