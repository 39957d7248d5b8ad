//! The types of AMQP 1.0: definitions, states, and the nine performatives with their bytes.
#![tactic(auto)]

mod borrowed;
mod copies;
mod defaults;
mod definitions;
mod error;
mod error_ref;
pub mod laws;
mod outcomes;
mod performatives;
mod states;
mod value_bounds;

pub use amqp_values::{Fields, Items, Raw, ReadError, Symbol, ValueRef, WriteError, is_terminal};
pub use definitions::{
    DeliveryNumber, DeliveryTag, Handle, ReceiverSettleMode, Role, SenderSettleMode, SequenceNo,
    TransferNumber, Uint,
};
pub use error::Error;
pub use outcomes::rejected;
pub use performatives::{
    Attach, Begin, Close, Detach, Disposition, End, Flow, Kind, Open, Performative, Transfer,
    TransferFragment,
};
pub use states::{ConnectionState, SessionState};
