//! What waits for the peer's session window (AMQP 1.0 part 2, section 2.5.6).

ghost use Rattle.std.specs.Prelude.{◌≡◌};
ghost use Rattle.amqp_endpoints.specs.Places.{PutsPlace, place_at};
ghost use Rattle.amqp_endpoints.specs.Waiting.{HoldsBack, TakesDue, held_back, is_held_back, listed};

use super::SessionEndpoint;
use crate::event::{LinkAnswer, LinkEvent};
use crate::late::LateLink;
use crate::place::LinkPlace;
use amqp_driver::{Asked, Stream};
use amqp_memory::push_in_queue;
use amqp_session::LinkRelay;

impl SessionEndpoint {
    /// A link of which a call was answered [`LinkAnswer::HeldBack`], once all that had been sent in the session by then has gone out: [`LinkEvent::Due`].
    /// Called after each record until it answers [`LinkEvent::Nothing`], it tells each such link once, in the order of the calls.
    ///
    /// ```
    /// while let LinkEvent::Due { handle } = endpoint.due_next(&stream) {
    ///     endpoint.respond(&mut stream, &LinkEvent::Due { handle }, 0);        // the answer to a drain, or to a Detach
    /// }
    /// ```
    pub fn due_next<R: LinkRelay>(&mut self, stream: &Stream<R>) -> LinkEvent
        ensures { TakesDue self.old.late self.old stream.now result self.new }
    {
        let Some(late) = self.late.front() else {
            return LinkEvent::Nothing;
        };
        let late = *late;
        if self.sent.saturating_sub(late.sent) < self.held_back(stream) {
            return LinkEvent::Nothing;
        }
        drop(self.late.pop_front());
        self.list(late.handle, false);
        LinkEvent::Due {
            handle: late.handle,
        }
    }

    /// How many transfers of the session wait.
    fn held_back<R: LinkRelay>(&self, stream: &Stream<R>) -> u64
        ensures { result ≡ held_back self.now stream.now }
    {
        match stream.engine().session(self.session) {
            Some(session) => session.held_back() as u64,
            None => 0,
        }
    }

    /// Whether the last transfer of the link waits: fewer were sent in the session after it than wait.
    pub(super) fn is_held_back<R: LinkRelay>(&self, stream: &Stream<R>, handle: u32) -> bool
        ensures { result ≡ is_held_back self.now stream.now handle }
    {
        let last = self.places.get(handle).sent;
        last > 0 && self.sent.saturating_sub(last) < self.held_back(stream)
    }

    /// A call of the link waits: it is listed, unless it is already. Nothing changes where memory is refused.
    pub(super) fn hold_back(&mut self, handle: u32) -> LinkAnswer
        ensures { HoldsBack self.old handle result self.new }
    {
        if self.places.get(handle).is_listed {
            return LinkAnswer::HeldBack;
        }
        let late = LateLink {
            handle,
            sent: self.sent,
        };
        match push_in_queue(&mut self.late, late) {
            Ok(()) => {
                self.list(handle, true);
                LinkAnswer::HeldBack
            }
            Err(_) => LinkAnswer::Asked(Asked::NoMemory),
        }
    }

    /// The link is listed from now on, or it is not.
    fn list(&mut self, handle: u32, is_listed: bool)
        ensures place { PutsPlace self.old.places handle (listed self.old handle is_listed) self.new.places }
        ensures rest { self.new ≡ record self.old { places = self.new.places } }
    {
        let place = self.places.get(handle);
        self.places.put(handle, LinkPlace { is_listed, ..place });
    }
}
