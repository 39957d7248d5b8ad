//! A driver of a connection: received bytes go in, records and bytes to send come out.
//!
//! [`Driver::take`] takes whole frames out of the caller's bytes, runs each once, and writes what it says as a [`Record`] of 96 bytes, by which a
//! program, also one in another language, sees what came without reading frames itself. Payloads stay in the caller's bytes, where the records
//! say. [`PlainRelay`] is the relay of links whose owner reads records.
#![tactic(auto)]

mod answered;
pub mod answers;
mod asked;
mod copied;
mod cut;
mod driver;
pub mod flag;
mod front;
mod head;
pub mod kind;
pub mod laws;
mod link_names;
mod opened;
mod outcome;
mod plain;
mod record;
mod refusals;
mod saying;
mod status;
mod stream;
mod tag;
mod told;
mod turning;
mod wanted;

pub use answered::{BeginAnswer, EndAnswer, RecordAnswer};
pub use asked::Asked;
pub use cut::Cut;
pub use driver::Driver;
pub use head::{Sent, TransferHead};
pub use link_names::{marked_name, plain_name};
pub use plain::PlainRelay;
pub use record::{NONE, Record};
pub use refusals::refusal_number;
pub use status::{Posted, Status, Taken};
pub use stream::Stream;
pub use turning::{BeginSessionError, TurnError, Turned, begin_session, turn_begin};
pub use wanted::answer_by_number;
