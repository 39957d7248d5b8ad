//! What an engine answers.

use super::step_error::StepError;
use amqp_frames::{Frame, Piece};

/// Whether an input was accepted, and what is to be sent for it: what [`Engine::run`](crate::Engine::run) appends. Each input has one
/// `Done` or `Refused`; after it one `Out` or `TooLarge` follows for each frame that it hands out.
///
/// ```
/// /// Writes the frames among the answers, each piece after its size.
/// pub fn send<O: Write>(answers: &Vec<Answer>, output: &mut O) -> io::Result<()> {
///     for answer in answers.iter() {
///         if let Answer::Out(pieces) = answer {
///             for piece in pieces.iter() {
///                 write_piece(piece, output)?;
///             }
///         }
///     }
///     Ok(())
/// }
/// ```
///
/// `write_piece` is the one of `amqp_transport`.
#[derive(Debug, Drop, PartialEq)]
pub enum Answer {
    /// The input was accepted. A transfer that was accepted may still wait for the peer's window.
    Done,
    /// The input was refused.
    Refused(StepError),
    /// The pieces of one frame, in the order in which they are to be sent (AMQP 1.0 part 2, section 2.6.14). A piece is a physical frame
    /// without its four-byte size.
    Out(Vec<Piece>),
    /// A frame that does not fit the peer's limit, handed back.
    TooLarge(Frame),
}

/// Why a waiting frame is not put out.
#[derive(Debug, Drop, PartialEq, thiserror::Error)]
pub enum OutputError {
    /// Memory was refused. The frame still waits.
    #[error("out of memory")]
    Memory,
    /// The frame does not fit the peer's limit. It waits no longer.
    #[error("too large")]
    TooLarge(Frame),
}

/// A run stopped, since memory was refused. The inputs that were not taken are still in the list of inputs, and another run goes on with
/// them.
///
/// ```
/// if let Err(Stopped { done }) = engine.run(&mut inputs, &mut answers) {
///     // `done` inputs were taken, and are answered. The others are still in `inputs`: another run goes on with them.
/// }
/// ```
#[derive(Clone, Copy, Debug, PartialEq, Eq, thiserror::Error)]
#[error("stopped after {done} inputs")]
pub struct Stopped {
    /// How many inputs were taken from the front. Each of them is answered; the frames of the last one may still wait.
    pub done: usize,
}
