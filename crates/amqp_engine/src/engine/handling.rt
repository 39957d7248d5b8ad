//! What handles ask of an engine: they note requests to close and to end (wishes), and take outcomes; a run takes the wishes.

ghost use Rattle.std.specs.Prelude.{◌≡◌, IsSome, None, is_some, nat_eq};
ghost use Rattle.std.specs.Map.{lookup};
ghost use Rattle.std.specs.FinMap as map;
ghost use Rattle.amqp_engine.specs.Handles.{close_noted, close_taken, end_noted, end_taken};
ghost use Rattle.amqp_engine.specs.Inner.Places.{has_entries, TakesEnd};

use super::Engine;
use super::handle_state::{CloseOutcome, EndOutcome};
use super::wish::Wish;
use amqp_connection::SessionNo;
use amqp_session::LinkRelay;
use amqp_types::Error;

impl<R: LinkRelay> Engine<R> {
    /// Notes that a Close is requested. One that is noted already stays.
    pub(crate) fn note_close(&mut self, error: Option<Error>)
        ensures { self.new ≡ close_noted error self.old }
    {
        self.kept.note_close(error);
    }

    /// Notes that an End of this session is requested. One that is noted already stays.
    pub(crate) fn note_end(&mut self, number: SessionNo, error: Option<Error>)
        requires { IsSome (lookup (nat_eq number.0) self.old.sessions) }
        ensures { self.new ≡ end_noted number.0 error self.old }
    {
        self.kept.note_end(number, error);
    }

    /// Gives out how the peer's Close was answered.
    pub(crate) fn take_close_outcome(&mut self) -> Option<CloseOutcome>
        ensures value { result ≡ self.old.outcomes.connection }
        ensures taken { self.new ≡ close_taken self.old }
    {
        self.kept.take_close_outcome()
    }

    /// Gives out how the peer's End for this session was answered.
    pub(crate) fn take_end_outcome(&mut self, number: SessionNo) -> Option<EndOutcome>
        ensures value { result ≡ map.get self.old.outcomes.sessions number.0 }
        ensures taken { self.new ≡ end_taken number.0 self.old }
    {
        self.kept.take_end_outcome(number)
    }

    /// Whether a Close is noted.
    pub(crate) fn has_noted_close(&self) -> bool
        ensures { result ≡ is_some self.now.wishes.close }
    {
        self.kept.has_close()
    }

    /// Takes the Close that is noted.
    pub(crate) fn take_noted_close(&mut self) -> Option<Wish>
        ensures value { result ≡ self.old.wishes.close }
        ensures taken { self.new ≡ record self.old { wishes = record self.old.wishes { close = None } } }
    {
        self.kept.take_close()
    }

    /// Whether an End is noted.
    pub(crate) fn has_noted_end(&self) -> bool
        ensures { result ≡ has_entries (map.entries self.now.wishes.ends) }
    {
        self.kept.lowest_end().is_some()
    }

    /// Takes the End that is noted of the lowest session.
    pub(crate) fn take_noted_end(&mut self) -> Option<(SessionNo, Wish)>
        ensures taken { TakesEnd self.old.wishes result self.new.wishes }
        ensures same { self.new ≡ record self.old { wishes = self.new.wishes } }
    {
        self.kept.take_end()
    }
}
