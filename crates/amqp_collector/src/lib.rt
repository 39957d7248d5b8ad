//! Payloads of deliveries that come in parts, put together up to a bound (AMQP 1.0 part 2, section 2.6.14).
//!
//! ```
//! let mut collector = Collector::new(alloc, 1_000_000);         // one for each link that receives
//! match links.on_transfer(handle, head, given) {                 // what a transfer is to its delivery
//!     Ok(told) => match collector.collect(told.part, payload)? {
//!         Some(whole) => ..,                                     // the delivery is whole: its bytes, in order
//!         None => ..,                                            // more parts come, or it was aborted
//!     },
//! }
//! ```
#![tactic(auto)]

mod collector;
pub mod laws;

pub use collector::{CollectError, Collector};
