//! A queue that relays share with their owner.

ghost use Rattle.std.specs.Prelude.{◌≡◌, ◌⊎◌, IfErr, OnErr};
ghost use Rattle.amqp_memory.specs.Refusal.{RefusedWithin, SomeRefused};
ghost use Rattle.amqp_events.specs.Room.{total};
ghost use Rattle.amqp_session.specs.declared.error.LinkRelayError.TheVariants.{OutOfMemory};

use crate::event::Event;
use crate::queue::EventQueue;
use crate::room::Room;
use crate::sink::EventSink;
use amqp_memory::{held, hold_again};
use amqp_session::LinkRelayError;
use std::alloc::{AllocError, Global};
use std::cell::RefCell;
use std::rc::Rc;

/// A hold on a queue of events, of which there may be several: one for the owner, and one for each relay. No contract can say what a cell holds;
/// what each call does to the queue is what [`EventQueue`]'s call of that name does.
///
/// ```
/// let queue = SharedQueue::with_room(alloc, room)?;
/// let relay = EventRelay::new(queue.share()?, 7, policy); // goes to the session, by `Input::AllocateLink`
/// // After a run of the engine:
/// for _ in 0..queue.len() {
///     if let Some(event) = queue.pop() {
///         // ..
///     }
/// }
/// ```
#[derive(Drop)]
pub struct SharedQueue {
    queue: Rc<RefCell<EventQueue>>,
}

impl SharedQueue {
    /// A queue of no events, as `EventQueue::with_room` makes it. `AllocError` where memory is refused.
    pub fn with_room(alloc: Global, room: Room) -> Result<SharedQueue, AllocError>
        ensures refused { OnErr result (RefusedWithin (total room) ⊎ SomeRefused) }
    {
        let queue = EventQueue::with_room(alloc, room)?;
        let Ok(queue) = held(alloc, RefCell::new(queue)) else {
            return Err(AllocError);
        };
        Ok(SharedQueue { queue })
    }

    /// Another hold on the same queue. It takes no memory. `AllocError` where there are as many holds as can be counted.
    pub fn share(&self) -> Result<SharedQueue, AllocError>
        ensures refused { OnErr result SomeRefused }
    {
        Ok(SharedQueue {
            queue: hold_again(&self.queue)?,
        })
    }

    /// Takes the event that came first, and gives its room back. `None` where no event waits.
    pub fn pop(&self) -> Option<Event> {
        match self.queue.try_borrow_mut() {
            Ok(mut queue) => queue.pop(),
            Err(_) => None,
        }
    }

    /// How many events wait.
    pub fn len(&self) -> usize {
        match self.queue.try_borrow() {
            Ok(queue) => queue.len(),
            Err(_) => 0,
        }
    }

    /// How many events were missed since the queue was made, up to 18446744073709551615: dispositions and detaches for which there was no room.
    pub fn missed(&self) -> u64 {
        match self.queue.try_borrow() {
            Ok(queue) => queue.missed(),
            Err(_) => 0,
        }
    }
}

impl EventSink for SharedQueue {
    ghost puts = { λ old event result new. IfErr result (λ why. why ≡ OutOfMemory) };

    ghost misses = { λ old new. Unit {0} };

    fn put(&mut self, event: Event) -> Result<(), LinkRelayError> {
        match self.queue.try_borrow_mut() {
            Ok(mut queue) => queue.push(event),
            Err(_) => Err(LinkRelayError::OutOfMemory),
        }
    }

    fn miss(&mut self) {
        if let Ok(mut queue) = self.queue.try_borrow_mut() {
            queue.miss();
        }
    }
}
