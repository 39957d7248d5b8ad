//! A transport over any reader and any writer: around a [`Stream`](amqp_driver::Stream), or for an engine of one's own. Sockets and TLS are the
//! caller's.
//!
//! A stream has protocol headers, SASL, frames and the time. [`exchange`] writes what waits in it, and has it take what came:
//!
//! ```
//! let mut received = Received::new(alloc, max_frame_size);
//! loop {
//!     let round = exchange(
//!         &mut stream,
//!         now,
//!         &mut received,
//!         &mut records,
//!         &mut input,
//!         &mut output,
//!     )?;
//!     // the records of what was taken; requests go to `stream`
//!     received.take(round.taken.taken);
//!     if round.came == Some(Came::End) || stream.is_over() {
//!         return write_waiting(&mut stream, &mut output);
//!     }
//! }
//! ```
//!
//! For an engine there are protocol headers, sizes, and runs whose output is written; SASL and heartbeats are the caller's too. For a server there
//! are two things besides: [`begin_session`], by which a session that the peer begins is served, and [`marked_name`], by which a sender and a
//! receiver may share a link's name.
//!
//! ```
//! exchange_headers(&mut input, &mut output)?;
//! push(&mut inputs, Input::Open)?;
//! while receive(
//!     alloc,
//!     &mut engine,
//!     &mut inputs,
//!     &mut out,
//!     &mut refusals,
//!     &mut input,
//!     &mut output,
//! )? {
//!     // `refusals` has what this frame was refused for; new requests go to `inputs` by `push`.
//! }
//! ```
#![tactic(auto)]

mod calls;
mod exchanging;
pub mod laws;
mod received;
mod running;
mod stream;

pub use amqp_driver::{
    BeginSessionError, TurnError, Turned, begin_session, marked_name, plain_name, turn_begin,
};
pub use exchanging::{Round, exchange, write_waiting};
pub use received::{Came, Received};
pub use running::{close, push, receive, run};
pub use stream::{exchange_headers, next_frame, write_frame, write_out, write_piece};
