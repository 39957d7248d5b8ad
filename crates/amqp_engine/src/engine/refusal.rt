//! What an engine refused, and where.

use super::step_error::StepError;
use amqp_frames::Frame;

/// What was refused in a run that sends into a buffer: what [`Engine::run_into`](crate::Engine::run_into) appends. An input that is
/// accepted has no entry.
///
/// ```
/// for refusal in refusals.iter() {
///     match refusal {
///         Refusal::Input { place, error } => writeln!(log, "input {place}: {error}")?,
///         Refusal::Frame { place: _, frame: _ } => writeln!(log, "a frame does not fit the peer's limit")?,
///     }
/// }
/// ```
#[derive(Debug, Drop, PartialEq)]
pub enum Refusal {
    /// An input was refused.
    Input {
        /// Which input it is: the first one that this run took is 0.
        place: usize,
        /// Why it was refused.
        error: StepError,
    },
    /// A frame that does not fit the peer's limit is handed back.
    Frame {
        /// The input that handed it out, counted as above; `None` where the frame waited from before the run.
        place: Option<usize>,
        /// The frame that does not fit.
        frame: Frame,
    },
}
