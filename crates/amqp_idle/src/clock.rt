//! The clock.

ghost use Rattle.std.specs.Prelude.{◌≡◌};
ghost use Rattle.amqp_idle.specs.Idle.{new_clock, next_of, is_over, OpenedStep, SentStep, ReceivedStep, TickStep};

use crate::due::{Due, Tick};
use crate::phase::{Phase, halved, lasting};
use std::marker::Model;

/// A clock for the idle time-outs of one connection (AMQP 1.0 part 2, section 2.4.5). It tells when to send an empty
/// frame, that the peer is silent, and before that, that the opening takes too long.
///
/// Each call is told the time, in milliseconds of any clock that the caller has. A time before the latest one that was
/// told counts as that: the clock never goes back. It asks for no memory, and each call takes a few instructions.
///
/// ```
/// let mut clock = IdleClock::new(0, Some(10_000));
/// clock.opened(20, Some(60_000), Some(30_000));
/// let tick = clock.tick(20);                       // Due::Nothing, and Some(15_020) as the next time
/// let tick = clock.tick(15_020);                   // Due::Beat, and Some(30_020)
/// ```
///
/// After this side's Close no frame may go out, an empty one neither (section 2.4.5): tick no more then.
#[derive(Clone, Copy, Debug)]
pub struct IdleClock {
    seen: u64,
    sent: u64,
    received: u64,
    phase: Phase,
}

impl Model for IdleClock {
    ghost use Rattle.amqp_idle.specs.Idle.{IdleView};

    ghost Value = { IdleView };

    ghost view = { λ c. record { seen = c.seen; sent = c.sent; received = c.received; phase = c.phase } };

    ghost inverse = { λ v. record { seen = v.seen; sent = v.sent; received = v.received; phase = v.phase } };
}

impl IdleClock {
    /// A clock of a connection that is opening from `now` on. `opening_limit` is how many milliseconds that may take:
    /// protocol headers, SASL and both Opens. `None` sets no limit; with 0 the first tick before [`IdleClock::opened`]
    /// tells that it is late.
    pub fn new(now: u64, opening_limit: Option<u32>) -> IdleClock
        ensures { result ≡ new_clock now opening_limit }
    {
        IdleClock {
            seen: now,
            sent: now,
            received: now,
            phase: Phase::Opening(now, opening_limit),
        }
    }

    /// Both Opens have passed. `ours` is for how many milliseconds nothing may be received: what this side's Open asks
    /// for, or longer, since the standard advises to ask for half of it. `peers` is the `idle-time-out` of the peer's
    /// Open. `None` and 0 are no time-out (AMQP 1.0 part 2, section 2.7.1). Both count from now. It answers false, and
    /// changes nothing, where it was called before or the clock is over.
    pub fn opened(&mut self, now: u64, ours: Option<u32>, peers: Option<u32>) -> bool
        ensures { OpenedStep self.old now ours peers result self.new }
    {
        if !matches!(self.phase, Phase::Opening(..)) {
            return false;
        }
        self.phase = Phase::Open(lasting(ours), halved(lasting(peers)));
        self.sent(now);
        self.received(now);
        true
    }

    /// A frame went out, an empty one or another: this side need not beat for half of the peer's time-out from now on.
    /// Before the opening, and once the clock is over, it only tells the time.
    #[inline(always)]
    pub fn sent(&mut self, now: u64)
        ensures { SentStep self.old now self.new }
    {
        self.seen = self.seen.max(now);
        self.sent = self.seen;
    }

    /// Bytes of whole frames came in: the peer may be silent for as long as this side's time-out from now on. Before
    /// the opening, and once the clock is over, it only tells the time.
    #[inline(always)]
    pub fn received(&mut self, now: u64)
        ensures { ReceivedStep self.old now self.new }
    {
        self.seen = self.seen.max(now);
        self.received = self.seen;
    }

    /// What is due at this time, and when the next tick is wanted. [`Due::Beat`] counts as sent now: the caller sends
    /// an empty frame. After [`Due::OpeningLate`] and [`Due::PeerSilent`], which are told once, the clock is over:
    /// nothing is told any more, and no tick is wanted. Where a beat is due and the peer is silent too, the latter is
    /// told.
    pub fn tick(&mut self, now: u64) -> Tick
        ensures { TickStep self.old now result self.new }
    {
        self.seen = self.seen.max(now);
        let due = self.phase.due(self.sent, self.received, self.seen);
        match due {
            Due::Nothing => {}
            Due::Beat => self.sent = self.seen,
            Due::OpeningLate | Due::PeerSilent => self.phase = Phase::Over,
        }
        Tick {
            due,
            next: self.next(),
        }
    }

    /// When the next tick is wanted, in milliseconds of the caller's clock: the time at which something is due, if
    /// nothing is sent or received before. A time that has come already means at once. `None` where nothing comes
    /// due, or not before 2^64. Ask for it, or tick, right after [`IdleClock::opened`]: what was answered before it
    /// holds no longer.
    pub fn next(&self) -> Option<u64>
        ensures { result ≡ next_of self.now }
    {
        self.phase.next(self.sent, self.received)
    }

    /// Whether it was told that the opening is late, or that the peer is silent. Then nothing is told any more.
    pub fn is_over(&self) -> bool
        ensures { result ≡ is_over self.now.phase }
    {
        matches!(self.phase, Phase::Over)
    }
}
