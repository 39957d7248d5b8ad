//! The engine of AMQP 1.0: a connection and its sessions, from received bytes to sent bytes, and their handles.
#![tactic(auto)]

mod engine;
mod handles;
pub mod laws;

pub use engine::{Answer, Engine, Input, OutputError, Refusal, StepError, Stopped};
pub use handles::{ConnectionHandle, HandledEngine, SessionHandle};
