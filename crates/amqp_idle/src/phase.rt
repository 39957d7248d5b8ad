//! Where a connection stands for its clock, and spans of time.

ghost use Rattle.std.specs.Prelude.{◌≡◌};
ghost use Rattle.amqp_idle.specs.Idle.{lasting, halved, has_passed, later_by, earlier, due_in, next_in};

use crate::due::Due;

/// Where a connection stands.
#[derive(Clone, Copy, Debug, PartialEq, Eq)]
pub(crate) enum Phase {
    /// It is opening, since this time, and may be for so long.
    Opening(u64, Option<u32>),
    /// It is open: how long the peer may be silent, and after how long this side beats.
    Open(Option<u32>, Option<u32>),
    /// One of both was told that ends a clock.
    Over,
}

impl Phase {
    /// What is due at a time.
    pub(crate) fn due(self, sent: u64, received: u64, now: u64) -> Due
        ensures { result ≡ due_in self sent received now }
    {
        match self {
            Phase::Opening(began, limit) if has_passed(began, limit, now) => Due::OpeningLate,
            Phase::Open(silence, _) if has_passed(received, silence, now) => Due::PeerSilent,
            Phase::Open(_, beat) if has_passed(sent, beat, now) => Due::Beat,
            _ => Due::Nothing,
        }
    }

    /// When something is due next.
    pub(crate) fn next(self, sent: u64, received: u64) -> Option<u64>
        ensures { result ≡ next_in self sent received }
    {
        match self {
            Phase::Opening(began, limit) => later_by(began, limit),
            Phase::Open(silence, beat) => earlier(
                later_by(received, silence),
                later_by(sent, beat),
            ),
            Phase::Over => None,
        }
    }
}

/// How long a time-out of an Open lasts: 0 is the same as none (AMQP 1.0 part 2, section 2.7.1).
pub(crate) fn lasting(timeout: Option<u32>) -> Option<u32>
    ensures { result ≡ lasting timeout }
{
    match timeout {
        Some(0) => None,
        other => other,
    }
}

/// Half of a time-out, and at least 1 ms.
pub(crate) fn halved(timeout: Option<u32>) -> Option<u32>
    ensures { result ≡ halved timeout }
{
    match timeout {
        Some(span) => Some((span / 2).max(1)),
        None => None,
    }
}

/// Whether so long has passed since a time.
fn has_passed(since: u64, span: Option<u32>, now: u64) -> bool
    ensures { result ≡ has_passed since span now }
{
    match later_by(since, span) {
        Some(time) => time <= now,
        None => false,
    }
}

/// The time that lies so long after another one, if 64 bits hold it.
fn later_by(since: u64, span: Option<u32>) -> Option<u64>
    ensures { result ≡ later_by since span }
{
    since.checked_add(u64::from(span?))
}

/// The earlier one of two times.
fn earlier(time: Option<u64>, other: Option<u64>) -> Option<u64>
    ensures { result ≡ earlier time other }
{
    match (time, other) {
        (Some(time), Some(other)) => Some(time.min(other)),
        (None, other) => other,
        (time, None) => time,
    }
}
