//! Room: how many events of each kind may wait.

ghost use Rattle.std.specs.Prelude.{◌≡◌, ◌<◌, ◌+◌, ◌^◌};
ghost use Rattle.amqp_events.specs.Room.{room_of, total, raised, lowered};

use crate::event::EventKind;

/// A number of events of each kind, each 0 to 4294967295: what [`SharedQueue::with_room`](crate::SharedQueue::with_room) takes memory for.
///
/// ```
/// let room = Room {
///     links: 2,
///     flows: 16,
///     transfers: 5000, // one incoming window
///     dispositions: 64,
/// };
/// let queue = SharedQueue::with_room(alloc, room)?;
/// ```
#[derive(Clone, Copy, Debug, PartialEq, Eq)]
pub struct Room {
    /// Attaches and detaches. At most one of each comes to a relay.
    pub links: u32,
    /// Flows. A peer may send any number of them.
    pub flows: u32,
    /// Transfers. A peer that keeps the session's incoming window sends no more of them than that before this side's next flow (AMQP 1.0
    /// part 2, section 2.5.6).
    pub transfers: u32,
    /// Dispositions. A peer settles each open delivery once; it may send any number of unsettled ones.
    pub dispositions: u32,
}

impl Room {
    /// The number of one kind.
    pub fn of(&self, kind: EventKind) -> u32
        ensures { result ≡ room_of self.now kind }
    {
        match kind {
            EventKind::Link => self.links,
            EventKind::Flow => self.flows,
            EventKind::Transfer => self.transfers,
            EventKind::Disposition => self.dispositions,
        }
    }

    /// The number of all kinds together, below 2^34.
    pub fn total(&self) -> usize
        ensures value { result ≡ total self.now }
        ensures bound { result < 2 ^ 34 }
    {
        self.links as usize
            + self.flows as usize
            + self.transfers as usize
            + self.dispositions as usize
    }

    /// One more of the kind.
    pub(crate) fn raise(&mut self, kind: EventKind)
        requires { room_of self.old kind + 1 < 2 ^ 32 }
        ensures { self.new ≡ raised self.old kind }
    {
        match kind {
            EventKind::Link => self.links += 1,
            EventKind::Flow => self.flows += 1,
            EventKind::Transfer => self.transfers += 1,
            EventKind::Disposition => self.dispositions += 1,
        }
    }

    /// One less of the kind.
    pub(crate) fn lower(&mut self, kind: EventKind)
        requires { 0 < room_of self.old kind }
        ensures { self.new ≡ lowered self.old kind }
    {
        match kind {
            EventKind::Link => self.links -= 1,
            EventKind::Flow => self.flows -= 1,
            EventKind::Transfer => self.transfers -= 1,
            EventKind::Disposition => self.dispositions -= 1,
        }
    }
}
