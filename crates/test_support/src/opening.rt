//! Opens and Begins.

use amqp_types::{Begin, Open};

/// An Open of this name with the limits of a transcript's engine, and nothing else.
pub fn open_of(container_id: String) -> Open {
    Open {
        max_frame_size: 262144,
        channel_max: 255,
        ..Open::new(container_id)
    }
}

/// A Begin that answers the one on channel 0, with this incoming window, and an outgoing one of 8.
pub fn begin_of(incoming_window: u32) -> Begin {
    Begin {
        remote_channel: Some(0),
        ..Begin::new(0, incoming_window, 8)
    }
}
