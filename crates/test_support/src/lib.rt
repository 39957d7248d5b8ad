//! What crates of tests and of rows share: performatives that they make, the relay of rows, and words of a line.
//!
//! A call that makes a performative takes what tests differ in. All else has its default, or what most tests want; a test changes a field
//! of what it gets. No call has a contract, since no proof of a test needs one.
#![tactic(auto)]

mod comparing;
pub mod digits;
mod links;
mod opening;
pub mod reasons;
mod relay;
mod transfers;
pub mod words;

pub use comparing::are_same;
pub use links::{attach_of, detach_of, link_flow_of};
pub use opening::{begin_of, open_of};
pub use relay::RowRelay;
pub use transfers::{disposition_of, raw_of, transfer_of};
