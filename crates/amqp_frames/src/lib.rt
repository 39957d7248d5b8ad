//! Frames of AMQP 1.0: decoding them, and encoding them into pieces that keep the peer's limit.
#![tactic(auto)]

mod cut;
mod decoder;
mod encoder;
mod error;
mod frame;
mod head;
mod header_pool;
pub mod laws;
mod laying;
mod piece;
mod send_buffer;
mod split;
mod text;
mod woven;

pub use decoder::{FrameDecoder, FrameHead};
pub use encoder::FrameEncoder;
pub use error::Error;
pub use frame::{Frame, FrameBody};
pub use header_pool::HeaderPool;
pub use piece::Piece;
pub use send_buffer::SendBuffer;
pub use split::{DeliveryPart, split_delivery};
