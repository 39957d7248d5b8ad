//! The ends of AMQP links, without engine, sockets or queues: whether a link is attached, what its credit allows, the parts of its deliveries, and
//! what is to be answered (AMQP 1.0 part 2, sections 2.6 and 2.7). What an end answers is sent by its caller.
//!
//! ```
//! let mut sender = SendingLink::new(0);
//! sender.on_attach(true, None);
//! sender.on_flow(flow);                                        // with a link-credit of 10
//! sender.send(5, PartEnd::Last)?;                              // one delivery more: 9 may be begun
//! ```
#![tactic(auto)]

mod end;
mod ends;
pub mod laws;
mod life;
mod receiving;
mod sending;
mod session;

pub use amqp_credit::{Grant, Part, PartEnd, PartError, PartHead, PartTag, Renewal};
pub use amqp_unsettled::Entry;
pub use end::End;
pub use life::{Life, LinkEnd};
pub use receiving::{LinkFault, ReceivingLink, TransferError};
pub use sending::{CreditFlow, SendError, SenderFlow, SendingLink};
pub use session::{
    AddError, FlowWish, LinkFlow, PeerAttach, PreparedFlow, PreparedPart, ReceivedPart,
    RemoveError, SendPartError, SentPart, SessionLinks, TakePartError,
};
