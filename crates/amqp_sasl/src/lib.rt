//! What a connection of AMQP 1.0 needs before its first frame: protocol headers, and SASL.
#![tactic(auto)]

mod body;
mod cursor;
mod frame;
mod header;
pub mod laws;
mod names;
mod opening;
mod place;
mod plain;
mod told;
mod value;
mod walk;
mod writing;

pub use body::{Body, SaslCode};
pub use frame::{FrameFault, MAX_FRAME, ReceivedFrame, read_frame};
pub use header::{Protocol, ReceivedHeader, read_header};
pub use names::is_offered;
pub use opening::{Login, Opening, Phase, Side};
pub use place::Place;
pub use plain::{LoginError, PlainParts, split_plain};
pub use told::{OpeningError, Taken, Told};
pub use writing::{write_challenge, write_init, write_mechanisms, write_outcome, write_response};
