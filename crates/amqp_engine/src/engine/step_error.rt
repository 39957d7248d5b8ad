//! Why an input is refused.

use amqp_connection::{AllocSessionError, ConnectionInnerError, ConnectionStateError};
use amqp_frames::Error as FrameError;
use amqp_session::{AllocLinkError, SessionInnerError, SessionStateError};
use amqp_types::ReadError;

/// Why an input is refused. `answer_to` of `fe2o3_amqp` names the End or the Close by which the peer is informed of a refused frame.
#[derive(Debug, Drop, PartialEq, thiserror::Error)]
pub enum StepError {
    /// Frames of an earlier input still wait to be taken out. Nothing has changed.
    #[error("output is waiting")]
    OutputWaiting,
    /// The received bytes are no frame or one that is left out, or memory for its fields was refused. Nothing has changed.
    #[error("{0}")]
    Frame(FrameError),
    /// The connection's state does not take this, or the peer closed. Of a request for this side's Open also: memory for its copy was refused.
    #[error("{0}")]
    ConnectionState(ConnectionStateError),
    /// The connection does not pass the frame on to a session, or the session no longer holds the channel that it is to give back (`Release`).
    #[error("{0}")]
    Connection(ConnectionInnerError),
    /// The session gets no channel. Nothing has changed.
    #[error("{0}")]
    AllocSession(AllocSessionError),
    /// The session's state does not take this, or the peer ended it. Of a `Begin` also: memory for the copy of its settings was refused.
    #[error("{0}")]
    SessionState(SessionStateError),
    /// The session, or the relay of one of its links, refuses this.
    #[error("{0}")]
    Session(SessionInnerError),
    /// The session allots no link. Nothing has changed.
    #[error("{0}")]
    AllocLink(AllocLinkError),
    /// No session has this number. Nothing has changed.
    #[error("no session")]
    NoSession,
    /// A session of this number is there or was forgotten (`Begin`); or it holds a channel, or frames can still reach it (`Forget`).
    /// Nothing has changed.
    #[error("session in use")]
    SessionInUse,
    /// Room of the engine's own was refused: for a new session (`Begin`), for a number that stays used (`Forget`), or for the copy of the
    /// error of a received Close or End, which is kept for handles. Nothing has changed, and what the input held is dropped.
    #[error("out of memory")]
    OutOfMemory,
}

impl From<ConnectionInnerError> for StepError {
    ghost use Rattle.std.specs.Prelude.{◌≡◌};
    ghost use Rattle.amqp_engine.specs.declared.engine.step_error.StepError.TheVariants.{Connection};

    ghost from_gives = { λ error e. e ≡ Connection error };

    fn from(error: ConnectionInnerError) -> StepError {
        StepError::Connection(error)
    }
}

impl From<SessionStateError> for StepError {
    ghost use Rattle.std.specs.Prelude.{◌≡◌};
    ghost use Rattle.amqp_engine.specs.declared.engine.step_error.StepError.TheVariants.{SessionState};

    ghost from_gives = { λ error e. e ≡ SessionState error };

    fn from(error: SessionStateError) -> StepError {
        StepError::SessionState(error)
    }
}

impl From<SessionInnerError> for StepError {
    ghost use Rattle.std.specs.Prelude.{◌≡◌};
    ghost use Rattle.amqp_engine.specs.declared.engine.step_error.StepError.TheVariants.{Session};

    ghost from_gives = { λ error e. e ≡ Session error };

    fn from(error: SessionInnerError) -> StepError {
        StepError::Session(error)
    }
}

impl From<ConnectionStateError> for StepError {
    ghost use Rattle.std.specs.Prelude.{◌≡◌};
    ghost use Rattle.amqp_engine.specs.declared.engine.step_error.StepError.TheVariants.{ConnectionState};

    ghost from_gives = { λ error e. e ≡ ConnectionState error };

    fn from(error: ConnectionStateError) -> StepError {
        StepError::ConnectionState(error)
    }
}

impl From<FrameError> for StepError {
    ghost use Rattle.std.specs.Prelude.{◌≡◌};
    ghost use Rattle.amqp_engine.specs.declared.engine.step_error.StepError.TheVariants.{Frame};

    ghost from_gives = { λ error e. e ≡ Frame error };

    fn from(error: FrameError) -> StepError {
        StepError::Frame(error)
    }
}

impl From<ReadError> for StepError {
    ghost use Rattle.std.specs.Prelude.{◌≡◌};
    ghost use Rattle.amqp_frames.specs.FrameError.{error_of};
    ghost use Rattle.amqp_engine.specs.declared.engine.step_error.StepError.TheVariants.{Frame};

    ghost from_gives = { λ error e. e ≡ Frame (error_of error) };

    fn from(error: ReadError) -> StepError {
        StepError::Frame(FrameError::from(error))
    }
}

impl From<AllocLinkError> for StepError {
    ghost use Rattle.std.specs.Prelude.{◌≡◌};
    ghost use Rattle.amqp_engine.specs.declared.engine.step_error.StepError.TheVariants.{AllocLink};

    ghost from_gives = { λ error e. e ≡ AllocLink error };

    fn from(error: AllocLinkError) -> StepError {
        StepError::AllocLink(error)
    }
}
