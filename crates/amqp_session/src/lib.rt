//! Sessions of AMQP 1.0: transfers within the peer's window, links and what they relay, and why a session stopped.
#![tactic(auto)]

mod copies;
mod deliveries;
mod error;
mod flow;
mod frame;
pub mod keys;
pub mod laws;
mod link;
mod numbers;
mod pair;
mod relay;
mod session;
mod settings;
mod stop;

pub use deliveries::WalkCount;
pub use error::{
    AllocLinkError, BeginError, Error, LinkRelayError, SessionInnerError, SessionStateError,
    TryEndError,
};
pub use flow::LinkFlow;
pub use frame::{SessionFrame, SessionFrameBody, SessionOutgoingItem};
pub use numbers::{IncomingChannel, InputHandle, OutgoingChannel, OutputHandle};
pub use pair::{SessionPair, Side};
pub use relay::LinkRelay;
pub use session::Session;
pub use session::dispositions::num_messages_settled_by_disposition;
pub use settings::{DEFAULT_WINDOW, SessionSettings};
pub use stop::{ConnectionStopReason, SessionStopReason};
