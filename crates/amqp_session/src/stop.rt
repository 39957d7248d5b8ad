//! Why a connection or a session stopped.

ghost use Rattle.std.specs.Prelude.{◌≡◌};
ghost use Rattle.amqp_session.specs.declared.stop.SessionStopReason.TheVariants.{ConnectionStopped};

/// Why a connection stopped (AMQP 1.0 part 2, section 2.4.6). The first reason that is recorded stays.
#[derive(Clone, Copy, Debug, PartialEq, Eq)]
pub enum ConnectionStopReason {
    /// This side closed it.
    Closed,
    /// This side closed it with an error.
    ClosedWithError,
    /// The peer closed it.
    RemoteClosed,
    /// The peer closed it with an error.
    RemoteClosedWithError,
}

/// Why a session stopped (AMQP 1.0 part 2, section 2.5.5). The first reason that is recorded stays.
#[derive(Clone, Copy, Debug, PartialEq, Eq)]
pub enum SessionStopReason {
    /// This side ended it.
    Ended,
    /// This side ended it with an error.
    EndedWithError,
    /// The peer ended it.
    RemoteEnded,
    /// The peer ended it with an error.
    RemoteEndedWithError,
    /// Its connection stopped.
    ConnectionStopped(ConnectionStopReason),
}

impl From<ConnectionStopReason> for SessionStopReason {
    ghost from_gives = { λ c s. s ≡ ConnectionStopped c };

    fn from(reason: ConnectionStopReason) -> SessionStopReason {
        SessionStopReason::ConnectionStopped(reason)
    }
}
