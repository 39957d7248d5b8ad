//! Why bytes are no frame, or a frame has no bytes.

pub use amqp_frames::Error;
