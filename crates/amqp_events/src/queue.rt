//! The queue of events, as a value.

ghost use Rattle.std.specs.Prelude.{◌≡◌, [], ◌∷◌, ◌++◌, length, true, IfOk, OnErr};
ghost use Rattle.std.specs.VecDeque.{deque_capacity};
ghost use Rattle.amqp_memory.specs.Refusal.{RefusedWithin};
ghost use Rattle.amqp_events.specs.Event.{kind_of};
ghost use Rattle.amqp_events.specs.Room.{total};
ghost use Rattle.amqp_events.specs.Queue.{new_queue, has_room, Pushes, Pops, Misses};

use crate::event::{Event, EventKind};
use crate::room::Room;
use amqp_memory::queue_with;
use amqp_session::LinkRelayError;
use std::alloc::{AllocError, Global};
use std::collections::VecDeque;
use std::marker::Model;
use std::mem;

/// The events that wait, in the order in which they came. Memory for as many of each kind as there is room for is taken when the queue is
/// made; after that it asks for none. An empty queue begins at the first place of its memory, so that a queue of few events, taken as they come,
/// touches little of it. A contract sees the room, the list of the events, and how many were missed.
///
/// ```
/// let mut queue = EventQueue::with_room(alloc, room)?;
/// queue.push(event)?;        // `OutOfMemory` where there is no room for its kind
/// let first = queue.pop();
/// ```
#[derive(Drop)]
pub struct EventQueue {
    room: Room,
    used: Room,
    events: VecDeque<Event>,
    missed: u64,
}

impl Model for EventQueue {
    ghost use Rattle.std.specs.Prelude.{◌≡◌, ◌≤◌};
    ghost use Rattle.std.specs.VecDeque.{deque_capacity};
    ghost use Rattle.amqp_events.specs.Room.{total, counted, Fits};
    ghost use Rattle.amqp_events.specs.Queue.{QueueView};

    ghost Value = { QueueView };

    ghost view = { λ q. record { room = q.room; events = q.events.items; missed = q.missed } };

    ghost invariant = { λ q. (q.used ≡ counted q.events.items) × Fits q.used q.room × (total q.room ≤ deque_capacity q.events) };
}

impl EventQueue {
    /// A queue of no events, with room for so many of each kind. `AllocError` where memory for them is refused.
    pub fn with_room(alloc: Global, room: Room) -> Result<EventQueue, AllocError>
        ensures empty { IfOk result (λ q. q ≡ new_queue room) }
        ensures refused { OnErr result (RefusedWithin (total room)) }
    {
        let events = queue_with(alloc, room.total())?;
        Ok(EventQueue {
            room,
            used: Room {
                links: 0,
                flows: 0,
                transfers: 0,
                dispositions: 0,
            },
            events,
            missed: 0,
        })
    }

    /// How many events wait.
    pub fn len(&self) -> usize
        ensures { result ≡ length self.now.events }
    {
        self.events.len()
    }

    /// How many events were missed since the queue was made, up to 18446744073709551615: an event that nobody can refuse, of a disposition
    /// or a detach, for which there was no room.
    pub fn missed(&self) -> u64
        ensures { result ≡ self.now.missed }
    {
        self.missed
    }

    /// Whether there is room for one more event of the kind.
    pub fn has_room(&self, kind: EventKind) -> bool
        ensures { result ≡ has_room self.now kind }
    {
        self.used.of(kind) < self.room.of(kind)
    }

    /// Appends an event to those that wait. `OutOfMemory` exactly where there is no room for one more of its kind: then the queue stays as it
    /// was, and the event is dropped.
    pub fn push(&mut self, event: Event) -> Result<(), LinkRelayError>
        ensures { Pushes self.old event result self.new }
    {
        if !self.has_room(event.body.kind()) {
            drop(event);
            return Err(LinkRelayError::OutOfMemory);
        }
        self.append(event);
        Ok(())
    }

    /// Takes the event that came first, and gives its room back. `None` where no event waits.
    pub fn pop(&mut self) -> Option<Event>
        ensures { Pops self.old result self.new }
    {
        let event = self.events.pop_front()?;
        self.used.lower(event.body.kind());
        begin_anew(&mut self.events);
        Some(event)
    }

    /// Counts one more event as missed.
    pub fn miss(&mut self)
        ensures { Misses self.old self.new }
    {
        let missed = &mut self.missed;
        *missed = missed.saturating_add(1);
    }

    /// Appends an event to those that wait, where there is room for one more of its kind.
    fn append(&mut self, event: Event)
        requires { has_room self.old (kind_of event.body) ≡ true }
        ensures { self.new ≡ record self.old { events = self.old.events ++ event ∷ [] } }
    {
        let kind = event.body.kind();
        self.events.push_back_reserved(event);
        self.used.raise(kind);
    }
}

/// Has a ring that is empty begin at the first of its places, in the same memory. Else events that come one at a time go through all places, and
/// make the whole of the memory resident.
fn begin_anew(events: &mut VecDeque<Event>)
    ensures items { events.new.items ≡ events.old.items }
    ensures capacity { deque_capacity events.new ≡ deque_capacity events.old }
{
    if !events.is_empty() {
        return;
    }
    let none = VecDeque::new(*events.allocator());
    let ring = mem::replace(events, none);
    drop(mem::replace(events, VecDeque::from_vec(ring.into_vec())));
}
