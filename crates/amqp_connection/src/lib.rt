//! The connection of AMQP 1.0: its states, its Opens, the channels of its sessions, and the routes of received frames.
#![tactic(auto)]

mod connection;
mod error;
pub mod laws;
mod numbers;
mod open_error;

pub use connection::Connection;
pub use error::{
    AllocSessionError, ConnectionInnerError, ConnectionStateError, Error, TryCloseError,
};
pub use numbers::SessionNo;
pub use open_error::{NegotiationError, OpenError};
