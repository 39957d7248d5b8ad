//! AMQP 1.0 without input or output: a connection and an engine from received bytes to sent bytes.
//!
//! What the crates below offer is offered here too, so that a user needs this crate alone; but `From` is in scope only where the crate of
//! its impl is named too: `amqp_session` for a handle's `Handle` and a channel's `u16`, `amqp_connection` for the `BeginError` of a
//! refused channel. The methods `handle`, `number` and `begin_error` need neither. Each name stands here at the root, but for the laws
//! and the four errors that are named `Error`: those stand in the modules. `Connection` stands in both. The definitions that their
//! contracts cite are offered too, each crate's under its name: `Rattle.fe2o3_amqp.specs.amqp_engine.Promise`. This crate's own part is
//! how a refused frame is answered, and transcripts: an engine that is driven by lines of text.
//!
//! ```
//! let mut engine = Engine::keyed(
//!     alloc,
//!     KeyHash::Keyed(RandomState::new(&rt)?),
//!     ConnectionState::HeaderExchange,
//!     open,
//! );
//! let outcome = engine.run_into(&mut inputs, &mut out, &mut refusals);
//! ```
#![tactic(auto)]

mod conditions;
pub mod connection;
pub mod definitions;
pub mod frames;
pub mod laws;
mod refusals;
pub mod session;
mod settings;
mod transcript;

pub use amqp_connection::{
    AllocSessionError, Connection, ConnectionInnerError, ConnectionStateError, NegotiationError,
    OpenError, SessionNo, TryCloseError,
};
pub use amqp_engine::{
    Answer, ConnectionHandle, Engine, HandledEngine, Input, OutputError, Refusal, SessionHandle,
    StepError, Stopped,
};
pub use amqp_frames::{
    DeliveryPart, Frame, FrameBody, FrameDecoder, FrameEncoder, FrameHead, HeaderPool, Piece,
    SendBuffer, split_delivery,
};
pub use amqp_session::keys::KeyHash;
pub use amqp_session::{
    AllocLinkError, BeginError, ConnectionStopReason, DEFAULT_WINDOW, IncomingChannel, InputHandle,
    LinkFlow, LinkRelay, LinkRelayError, OutgoingChannel, OutputHandle, Session, SessionFrame,
    SessionFrameBody, SessionInnerError, SessionOutgoingItem, SessionPair, SessionSettings,
    SessionStateError, SessionStopReason, Side, TryEndError, WalkCount,
    num_messages_settled_by_disposition,
};
pub use amqp_types::{
    Attach, Begin, Close, ConnectionState, DeliveryNumber, DeliveryTag, Detach, Disposition, End,
    Fields, Flow, Handle, Items, Kind, Open, Performative, Raw, ReadError, ReceiverSettleMode,
    Role, SenderSettleMode, SequenceNo, SessionState, Symbol, Transfer, TransferFragment,
    TransferNumber, Uint, ValueRef, WriteError, is_terminal, rejected,
};
pub use conditions::ErrorCondition;
pub use refusals::{PeerAnswer, answer_to};
pub use settings::{DEFAULT_CHANNEL_MAX, DEFAULT_MAX_FRAME_SIZE};
pub use transcript::{ReplayRelay, err_name, hex_bytes, out_line, replay};
