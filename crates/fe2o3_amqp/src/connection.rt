//! One side of a connection, and why it fails, as a handle of it says.

pub use amqp_connection::{Connection, Error};
