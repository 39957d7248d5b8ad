//! Where a relay puts its events.

ghost use Rattle.std.specs.Prelude.{Result};
ghost use Rattle.amqp_session.specs.declared.error.LinkRelayError.{LinkRelayError};
ghost use Rattle.amqp_events.specs.declared.event.Event.{Event};
ghost use Rattle.amqp_events.specs.Queue.{Pushes, Misses};

use crate::event::Event;
use crate::queue::EventQueue;
use amqp_session::LinkRelayError;

/// Where a relay puts its events. A relation says of each call how the sink before it, what is put, the answer and the sink after it belong
/// together: a relay is proved for every sink, by these relations alone.
pub trait EventSink: Drop {
    /// The relation of taking an event, or refusing it.
    ghost puts: { Self → Event → Result (Unit {0}) LinkRelayError → Self → Type 0 };

    /// The relation of noting that an event was missed.
    ghost misses: { Self → Self → Type 0 };

    /// Takes an event, after all that it took before, or refuses it.
    fn put(&mut self, event: Event) -> Result<(), LinkRelayError>
        ensures { puts self.old event result self.new };

    /// Notes that an event was missed which nobody can refuse.
    fn miss(&mut self)
        ensures { misses self.old self.new };
}

impl EventSink for EventQueue {
    ghost puts = { Pushes };

    ghost misses = { Misses };

    fn put(&mut self, event: Event) -> Result<(), LinkRelayError> {
        self.push(event)
    }

    fn miss(&mut self) {
        EventQueue::miss(self)
    }
}
