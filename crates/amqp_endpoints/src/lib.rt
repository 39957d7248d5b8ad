//! The links of one session over a [`Stream`](amqp_driver::Stream): what a program sends on a link keeps to its credit, what comes on one is told as parts
//! of deliveries, credit is granted and renewed, and what is unsettled is known until it is settled or left (AMQP 1.0 part 2, sections 2.6 and 2.7).
//!
//! ```
//! let mut endpoint = SessionEndpoint::new(alloc, SessionNo(0), hash);
//! stream.request(Input::AllocateLink(SessionNo(0), name, Some(relay)));
//! let link = endpoint.attach(&mut stream, attach, None)?;             // a sender's Attach goes out
//! let taken = stream.take(now, received, &mut records);
//! for record in &records[..taken.written] {
//!     let event = endpoint.on_record(record, 0)?;                      // attached, a flow, a part, settled, ended
//!     endpoint.respond(&mut stream, &event, 0);                        // what the link owes: a flow, or a Detach
//! }
//! while let LinkEvent::Due { handle } = endpoint.due_next(&stream) { .. } // what waited for the peer's window
//! let sent = endpoint.send(&mut stream, &head, bytes, 70)?;            // refused where there is no credit
//! ```
#![tactic(auto)]

mod endpoint;
mod event;
mod fitting;
mod flows;
mod inputs;
mod late;
pub mod laws;
mod place;
mod reading;

pub use amqp_links::{FlowWish, Renewal};
pub use endpoint::{AttachError, NoMemory, SendFailure, SentDelivery, SessionEndpoint};
pub use event::{LinkAnswer, LinkEvent, RecordError};
