//! The engine that a recorded peer is given, and its Open.

use crate::MAX_FRAME_SIZE;
use fe2o3_amqp::{ConnectionState, DEFAULT_CHANNEL_MAX, Engine, KeyHash, Open, ReplayRelay};
use std::alloc::{AllocError, Global};

/// An engine that has sent its Open and is to begin a session.
pub fn engine(alloc: Global, hash: KeyHash) -> Result<Engine<ReplayRelay>, AllocError> {
    let open = open(alloc, MAX_FRAME_SIZE)?;
    Ok(Engine::keyed(alloc, hash, ConnectionState::HeaderExchange, open))
}

/// This side's Open.
pub fn open(alloc: Global, max_frame_size: u32) -> Result<Open, AllocError> {
    Ok(Open {
        container_id: String::from_str(alloc, "example")?,
        hostname: None,
        max_frame_size,
        channel_max: DEFAULT_CHANNEL_MAX,
        idle_time_out: None,
        outgoing_locales: None,
        incoming_locales: None,
        offered_capabilities: None,
        desired_capabilities: None,
        properties: None,
    })
}
