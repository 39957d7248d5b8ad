//! What became of a request.

ghost use Rattle.std.specs.Prelude.{◌≡◌};
ghost use Rattle.amqp_connection.specs.Connection.{refusal_of};
ghost use Rattle.amqp_driver.specs.Requests.{asked_of, has_own, is_own};

use amqp_engine::{Refusal, StepError};

/// What became of a request.
#[derive(Debug, Drop)]
pub enum Asked {
    /// It was accepted. What it hands out is to be sent, or waits in the session.
    Done,
    /// It was accepted, and a frame that it hands out is longer than the peer takes (max-frame-size, AMQP 1.0 part 2, section 2.7.1): that
    /// frame is not sent. An Attach with long properties is such a one; a transfer is cut, and fits.
    TooLarge,
    /// It was refused, as [`Input`](amqp_engine::Input) says.
    Refused(StepError),
    /// Memory was refused for what waited in the engine, and the request was not taken: it is gone with what it held, and may be made again.
    /// Some of what waited may be sent, and nothing else has changed.
    NoMemory,
    /// Of a [`Stream`](crate::Stream) that is over: it was not run, and is gone with what it held.
    Over,
}

/// Whether a frame that was handed back is the input's own, and did not wait from before.
fn is_own(refusal: &Refusal) -> bool
    ensures { result ≡ is_own refusal.now }
{
    match refusal {
        Refusal::Input { place: _, error: _ } => false,
        Refusal::Frame { place, frame: _ } => place.is_some(),
    }
}

/// Whether one of them is.
pub(crate) fn has_own(returned: &[Refusal]) -> bool
    ensures { result ≡ has_own returned.now }
{
    for refusal in returned {
        if is_own(refusal) {
            return true;
        }
    }
    false
}

/// The answer, by that of the engine.
pub(crate) fn asked_of(answer: Option<Result<(), StepError>>, own: bool) -> Asked
    ensures { result ≡ asked_of answer own }
{
    match answer {
        None => Asked::NoMemory,
        Some(Err(error)) => Asked::Refused(error),
        Some(Ok(())) => { if own { Asked::TooLarge } else { Asked::Done } }
    }
}
