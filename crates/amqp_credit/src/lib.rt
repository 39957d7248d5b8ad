//! What one AMQP link counts, without engine, sockets or queues: the credit of its sender and of its receiver, and the
//! parts of the deliveries that come (AMQP 1.0 part 2, sections 2.6.7, 2.6.14, 2.7.4 and 2.7.5).
//!
//! ```
//! let mut receiver = ReceiverCredit::new(0, Some(Renewal { low: 50, high: 100 }));
//! let mut sender = SenderCredit::new(0);
//! if let Some(grant) = receiver.renew() {                              // a flow with a link-credit of 100
//!     sender.on_flow(Some(grant.delivery_count), Some(grant.link_credit), grant.drain);
//! }
//! sender.send()?;                                                      // one delivery more: 99 are left
//! receiver.on_delivery()?;                                             // the same at the other end
//! ```
#![tactic(auto)]

mod assembly;
pub mod laws;
mod part;
mod receiver;
mod sender;
mod serial;

pub use assembly::Assembly;
pub use part::{Part, PartEnd, PartError, PartHead, PartTag};
pub use receiver::{CountPastLimit, Grant, OverCredit, ReceiverCredit, Renewal};
pub use sender::{NoCredit, SenderCredit};
