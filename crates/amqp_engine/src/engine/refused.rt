//! Answers that refuse, each written by a call where the answer stays. Where one of this size is made in place, or handed on as a result, its
//! function pays for it on the ways that it does not take.

ghost use Rattle.std.specs.Prelude.{◌≡◌, None, Err};
ghost use Rattle.amqp_frames.specs.FrameError.{error_of};
ghost use Rattle.amqp_connection.specs.declared.error.ConnectionInnerError.TheVariants as connection;
ghost use Rattle.amqp_engine.specs.declared.engine.step_error.StepError.TheVariants as refused;

use super::step_error::StepError;
use amqp_connection::ConnectionInnerError;
use amqp_frames::Error as FrameError;
use amqp_session::SessionInnerError;
use amqp_types::ReadError;

/// The bytes are no frame.
#[inline(never)]
pub(crate) fn no_frame(outcome: &mut Result<(), StepError>, error: FrameError)
    ensures { outcome.new ≡ Err (refused.Frame error) }
{
    *outcome = Err(StepError::from(error));
}

/// The fields of a frame are not read.
#[inline(never)]
pub(crate) fn unread(outcome: &mut Result<(), StepError>, error: ReadError)
    ensures { outcome.new ≡ Err (refused.Frame (error_of error)) }
{
    *outcome = Err(StepError::from(error));
}

/// The channel of a frame leads to no session.
#[inline(never)]
pub(crate) fn unrouted(outcome: &mut Result<(), StepError>)
    ensures { outcome.new ≡ Err (refused.Connection (connection.NotFound None)) }
{
    *outcome = Err(StepError::Connection(ConnectionInnerError::NotFound(None)));
}

/// No session has the number.
#[inline(never)]
pub(crate) fn no_session(outcome: &mut Result<(), StepError>)
    ensures { outcome.new ≡ Err refused.NoSession }
{
    *outcome = Err(StepError::NoSession);
}

/// The session refuses.
#[inline(never)]
pub(crate) fn by_session(outcome: &mut Result<(), StepError>, error: SessionInnerError)
    ensures { outcome.new ≡ Err (refused.Session error) }
{
    *outcome = Err(StepError::from(error));
}
