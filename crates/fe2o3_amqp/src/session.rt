//! Why a handle of a session notes no request, or how the peer's End was answered.

pub use amqp_session::Error;
