//! A clock for the idle time-outs of one AMQP connection, without threads and without a system clock: the caller says
//! the time, and is told when to beat, that the opening is late, or that the peer is silent (AMQP 1.0 part 2, section
//! 2.4.5).
//!
//! ```
//! let mut clock = IdleClock::new(now, Some(10_000));   // headers, SASL and both Opens: 10 s
//! clock.opened(now, Some(60_000), Some(30_000));       // this side's time-out, and the peer's
//! clock.received(now);                                 // after each batch of bytes that came
//! clock.sent(now);                                     // after each batch of frames that went out
//! let tick = clock.tick(now);                          // Beat: send an empty frame; PeerSilent: close
//! // wait for bytes, or until tick.next, and tick again
//! ```
#![tactic(auto)]

mod clock;
mod due;
pub mod laws;
mod phase;

pub use clock::IdleClock;
pub use due::{Due, Tick};
