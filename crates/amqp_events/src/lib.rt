//! Events: what comes for the links of a session, handed out in the order in which it came.
//!
//! A link's relay moves into the session, or into the engine, and no call lends it back. So an [`EventRelay`] shares a queue with the owner:
//! each call of the relay appends one [`Event`] to those that wait, and answers by its [`Policy`]. The owner makes one [`SharedQueue`] for a
//! session, or for several, gives each relay a hold on it, and takes the events out between runs. An event has the number that the owner gave
//! the session, and the link's handles as far as the relay knows them.
//!
//! ```
//! /// The relay of a link on which this side receives, in the owner's session 7.
//! pub fn receiver(queue: &SharedQueue) -> Result<EventRelay<SharedQueue>, AllocError> {
//!     let policy = Policy::new(Role::Receiver, ReceiverSettleMode::First);
//!     Ok(EventRelay::new(queue.share()?, 7, policy))
//! }
//!
//! /// The payloads of the transfers that wait, in order; what else waits is passed over.
//! pub fn take_payloads(queue: &SharedQueue, payloads: &mut Vec<Bytes>) -> Result<(), AllocError> {
//!     for _ in 0..queue.len() {
//!         payloads.reserve(1)?;
//!         let Some(event) = queue.pop() else {
//!             return Ok(());
//!         };
//!         match event.body {
//!             EventBody::Transfer {
//!                 performative: _transfer,
//!                 payload,
//!             } => payloads.push(payload)?,
//!             _other => {}
//!         }
//!     }
//!     Ok(())
//! }
//! ```
//!
//! This is compiled in the crate `test_session`, in `src/events/example.rt`.
//!
//! # Room
//!
//! A queue takes its memory when it is made, for as many events of each kind as [`Room`] says (352 bytes for each, on x86-64), and asks for none
//! after that. What is taken out gives its room back. Each kind has its own room, so no flood of one kind takes that of another:
//!
//! - **Transfers.** A peer that keeps the incoming window sends no more than that before this side's next flow (AMQP 1.0 part 2, section
//!   2.5.6). An engine sends such a flow by itself, once half of the window is used up. So room for one window is enough where the owner empties
//!   the queue before it hands the session more transfers than that, as after each run of so many frames. A transfer past the room is refused
//!   by name (`OutOfMemory`), and so is a peer that sends more than the window.
//! - **Flows.** A peer may send any number. One past the room is refused by name.
//! - **Attaches and detaches.** At most one of each comes to a relay. So room for two events is enough for each relay that is made between two
//!   times that the queue is emptied.
//! - **Dispositions.** A peer settles each open delivery once, and may send any number of unsettled ones before. A disposition and a detach have
//!   no answer by which to refuse them: one past the room is missed, and `missed` counts it. What came before is still there, in order; an owner
//!   who finds that the count has risen has not seen all, and may end the session.
//!
//! The tag of a delivery and the state of a disposition share the received bytes; so does the payload, which is moved. Where such a share is
//! refused (the count of owners is full) a transfer is refused, and a disposition is missed, alike.
//!
//! # What is proved, and what is only tested
//!
//! No contract can say what a cell holds, so none says what is in a [`SharedQueue`]. Therefore a relay is proved for every [`EventSink`], by the
//! sink's relations alone; and an [`EventQueue`], which contracts see as its list of events, is a sink. The law of such a relay is
//! [`laws::law_of_runs`]: after any calls its queue holds what it held, and after that the events of the calls, in order. And which calls a
//! session makes of it is what the session's history says: [`laws::law_of_sessions`].
//!
//! A contract refuses a body of the queue or of the relay by which an event is dropped, two swap, a later one overwrites another, one names
//! another link or carries another payload, one that was refused is half there, or all are refused. What is left to a test is the six lines by
//! which a shared queue borrows its cell, calls the queue, and answers: a body that puts nothing there would meet its contract. The crate
//! `test_session` has a session with two links that share a queue, where the order, the links, the payloads and the refusals are compared. An
//! [`Event`] can't be cloned, so no body puts one in twice. Two freedoms are left: a body may claim that a tag or a state could not be
//! shared. Tests refuse that too.
#![tactic(auto)]

mod event;
pub mod laws;
mod policy;
mod queue;
mod relay;
mod room;
mod shared;
mod sink;

pub use event::{Event, EventBody, EventKind, LinkNames};
pub use policy::{Echoed, Policy, Recorded};
pub use queue::EventQueue;
pub use relay::EventRelay;
pub use room::Room;
pub use shared::SharedQueue;
pub use sink::EventSink;
