//! What a tick answers.

/// What is due.
#[derive(Clone, Copy, Debug, PartialEq, Eq)]
pub enum Due {
    /// Nothing.
    Nothing,
    /// An empty frame, since nothing was sent for half of the peer's time-out. The clock takes it as sent.
    Beat,
    /// The connection was not open within its limit. It is to be dropped; the clock is over.
    OpeningLate,
    /// Nothing was received for as long as this side's time-out. A Close is due, with the error
    /// `amqp:resource-limit-exceeded`; the clock is over.
    PeerSilent,
}

/// What a tick answers.
#[derive(Clone, Copy, Debug, PartialEq, Eq)]
#[must_use]
pub struct Tick {
    /// What is due now.
    pub due: Due,
    /// When the next tick is wanted, in milliseconds of the caller's clock: always a time to come. `None` where none
    /// is wanted: nothing comes due, or not before 2^64.
    pub next: Option<u64>,
}
