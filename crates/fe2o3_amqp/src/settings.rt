//! The usual settings of a connection.

/// The longest frame that a connection usually accepts: its max-frame-size, in bytes with the four of its size (AMQP 1.0 part 2,
/// section 2.7.1).
pub const DEFAULT_MAX_FRAME_SIZE: u32 = 262144;

/// The highest channel that a connection usually accepts: its channel-max (AMQP 1.0 part 2, section 2.7.1).
pub const DEFAULT_CHANNEL_MAX: u16 = 255;
