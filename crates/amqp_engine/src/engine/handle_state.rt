//! What an engine keeps for handles: how the peer closed and ended, until a handle asks for it, and what handles have requested (their
//! wishes). Each session has a place here from its Begin on, so that keeping and noting take no memory.

ghost use Rattle.std.specs.Prelude.{◌≡◌, ◌<◌, OnOk, OnErr, IfOk, IsSome, None, true, is_some};
ghost use Rattle.std.specs.Option.{option_map};
ghost use Rattle.amqp_memory.specs.Refusal.{SomeRefused};
ghost use Rattle.amqp_engine.specs.declared.engine.step_error.StepError.TheVariants as no;
ghost use Rattle.amqp_connection.specs.Connection.{refusal_of};
ghost use Rattle.std.specs.FinMap as map;
ghost use Rattle.amqp_engine.specs.Kept.{no_outcomes, no_wishes, close_answer, end_answer, close_kept, end_kept, close_wished, end_wished};
ghost use Rattle.amqp_engine.specs.Inner.Places.{IsCloseCopy, IsEndCopy, SameKept, Swaps, has_wish, has_entries, TakesEnd};
ghost use Rattle.std.specs.Prelude.{nat_eq};
ghost use Rattle.std.specs.Map.{lookup};
ghost use Rattle.indexmap.specs.IndexMap.{index_map_len};

use super::step_error::StepError;
use super::wish::Wish;
use amqp_connection::{ConnectionStateError, SessionNo};
use amqp_memory::{more_in_heap_for, more_in_map};
use amqp_session::SessionStateError;
use amqp_types::Error;
use indexmap::IndexMap;
use std::alloc::{AllocError, Global};
use std::collections::BinaryHeap;
use std::marker::Model;
use std::mem;

/// How a Close of the peer's was answered.
pub(crate) type CloseOutcome = Result<(), ConnectionStateError>;

/// How an End of the peer's was answered.
pub(crate) type EndOutcome = Result<(), SessionStateError>;

/// A copy of the error of a Close or an End.
pub(crate) fn copy_of(error: &Option<Error>) -> Result<Option<Error>, AllocError>
    ensures same { IfOk result (λ e. e ≡ error.now) }
    ensures named { OnErr result (IsSome error.now) }
    ensures refused { OnErr result SomeRefused }
{
    match error {
        None => Ok(None),
        Some(error) => Ok(Some(error.clone()?)),
    }
}

/// What is kept of a Close that was answered so: its answer, with the copy of its error.
pub(crate) fn close_answer(
    reply: &Result<(), ConnectionStateError>,
    copy: Option<Error>,
) -> Option<CloseOutcome>
    requires copied { IsCloseCopy (refusal_of reply.now) copy }
    ensures { result ≡ close_answer (option_map (λ e. no.ConnectionState e) (refusal_of reply.now)) }
{
    match reply {
        Ok(()) => {
            drop(copy);
            Some(Ok(()))
        }
        Err(ConnectionStateError::RemoteClosed) => {
            drop(copy);
            Some(Err(ConnectionStateError::RemoteClosed))
        }
        Err(ConnectionStateError::RemoteClosedWithError(_)) => {
            Some(Err(ConnectionStateError::RemoteClosedWithError(copy.unwrap())))
        }
        Err(_) => {
            drop(copy);
            None
        }
    }
}

/// What is kept of an End that was answered so: its answer, with the copy of its error.
pub(crate) fn end_answer(reply: &Result<(), StepError>, copy: Option<Error>) -> Option<EndOutcome>
    requires copied { IsEndCopy (refusal_of reply.now) copy }
    ensures { result ≡ end_answer (refusal_of reply.now) }
{
    match reply {
        Ok(()) => {
            drop(copy);
            Some(Ok(()))
        }
        Err(StepError::SessionState(SessionStateError::RemoteEnded)) => {
            drop(copy);
            Some(Err(SessionStateError::RemoteEnded))
        }
        Err(StepError::SessionState(SessionStateError::RemoteEndedWithError(_))) => {
            Some(Err(SessionStateError::RemoteEndedWithError(copy.unwrap())))
        }
        Err(_) => {
            drop(copy);
            None
        }
    }
}

/// What is kept of one session.
#[derive(Drop)]
pub(crate) struct SessionSlot {
    outcome: Option<EndOutcome>,
    wish: Option<Wish>,
}

/// What an engine keeps for handles.
#[derive(Drop)]
pub(crate) struct HandleState {
    outcome: Option<CloseOutcome>,
    close: Option<Wish>,
    places: IndexMap<u32, SessionSlot>,
    /// The sessions whose End is noted: `u32::MAX` less the number, so that the lowest number is the greatest.
    queue: BinaryHeap<u32>,
}

impl Model for HandleState {
    ghost use Rattle.std.specs.Prelude.{◌-◌, min};
    ghost use Rattle.std.specs.Coded.{codes};
    ghost use Rattle.std.specs.FinMap as map;
    ghost use Rattle.std.specs.BinaryHeap.{heap_items, heap_len, heap_capacity};
    ghost use Rattle.indexmap.specs.IndexMap.{index_map_len, spare};
    ghost use Rattle.amqp_engine.specs.Inner.Places.{KeptView, kept_view, Queued};

    ghost Value = { KeptView };

    ghost coded = { Prim.hlevel (codes, map.code) };

    ghost view = { λ t. kept_view t.outcome t.close t.places.entries
        (min (spare t.places) (heap_capacity t.queue - index_map_len t.places)) };

    ghost invariant = { λ t. Queued t.places.entries (heap_items t.queue) (heap_len t.queue) (heap_capacity t.queue) };
}

/// Puts an outcome into the session's place, and gives what stood there.
fn swap_outcome(
    places: &mut IndexMap<u32, SessionSlot>,
    number: SessionNo,
    outcome: Option<EndOutcome>,
) -> Option<EndOutcome>
    ensures swaps { Swaps (λ p. p.outcome) (λ p. record p { outcome = outcome }) number.0 places.old.entries result places.new.entries }
    ensures len { index_map_len places.new ≡ index_map_len places.old }
{
    match places.get_mut(&number.0) {
        Some(place) => mem::replace(&mut place.outcome, outcome),
        None => {
            drop(outcome);
            None
        }
    }
}

/// Puts a wish into the session's place, and gives what stood there.
fn swap_wish(
    places: &mut IndexMap<u32, SessionSlot>,
    number: SessionNo,
    wish: Option<Wish>,
) -> Option<Wish>
    ensures swaps { Swaps (λ p. p.wish) (λ p. record p { wish = wish }) number.0 places.old.entries result places.new.entries }
    ensures len { index_map_len places.new ≡ index_map_len places.old }
{
    match places.get_mut(&number.0) {
        Some(place) => mem::replace(&mut place.wish, wish),
        None => {
            drop(wish);
            None
        }
    }
}

/// Whether an End of this session is noted.
fn is_noted(places: &IndexMap<u32, SessionSlot>, number: SessionNo) -> bool
    ensures { result ≡ has_wish (lookup (nat_eq number.0) places.now.entries) }
{
    match places.get(&number.0) {
        Some(place) => place.wish.is_some(),
        None => false,
    }
}

impl HandleState {
    /// Nothing is kept.
    pub(crate) fn new(alloc: Global) -> HandleState
        ensures outcomes { result.outcomes ≡ no_outcomes }
        ensures wishes { result.wishes ≡ no_wishes }
        ensures places { result.places ≡ map.empty }
    {
        HandleState {
            outcome: None,
            close: None,
            places: IndexMap::new(alloc),
            queue: BinaryHeap::new(alloc),
        }
    }

    /// Makes room for one more session.
    pub(crate) fn reserve(&mut self) -> Result<(), AllocError>
        ensures same { SameKept self.old self.new }
        ensures ok { OnOk result (0 < self.new.room) }
        ensures refused { OnErr result SomeRefused }
    {
        more_in_map(&mut self.places, 1)?;
        more_in_heap_for(&mut self.queue, &self.places, self.places.len() + 1)
    }

    /// Gives the session a place.
    pub(crate) fn add(&mut self, number: SessionNo)
        requires room { 0 < self.old.room }
        requires fresh { map.get self.old.places number.0 ≡ None }
        ensures outcomes { self.new.outcomes ≡ self.old.outcomes }
        ensures wishes { self.new.wishes ≡ self.old.wishes }
        ensures places { self.new.places ≡ map.insert self.old.places number.0 true }
    {
        let place = SessionSlot {
            outcome: None,
            wish: None,
        };
        drop(self.places.insert(number.0, place).unwrap());
    }

    /// Takes away the session's place, with its outcome.
    pub(crate) fn forget(&mut self, number: SessionNo)
        requires unwished { map.get self.old.wishes.ends number.0 ≡ None }
        ensures outcomes { self.new.outcomes ≡ record self.old.outcomes { sessions = map.remove self.old.outcomes.sessions number.0 } }
        ensures wishes { self.new.wishes ≡ self.old.wishes }
        ensures places { self.new.places ≡ map.remove self.old.places number.0 }
    {
        drop(self.places.swap_remove(&number.0));
    }

    /// Whether an End of this session is noted.
    pub(crate) fn is_wished(&self, number: SessionNo) -> bool
        ensures { result ≡ is_some (map.get self.now.wishes.ends number.0) }
    {
        is_noted(&self.places, number)
    }

    /// Keeps how the peer's Close was answered. The last answer stays.
    pub(crate) fn keep_close(&mut self, answer: Option<CloseOutcome>)
        ensures outcomes { self.new.outcomes ≡ close_kept answer self.old.outcomes }
        ensures wishes { self.new.wishes ≡ self.old.wishes }
        ensures places { self.new.places ≡ self.old.places }
    {
        if answer.is_some() {
            drop(mem::replace(&mut self.outcome, answer));
        }
    }

    /// Keeps how an End of the peer's for this session was answered. The last answer stays.
    pub(crate) fn keep_end(&mut self, number: SessionNo, answer: Option<EndOutcome>)
        requires known { IsSome answer → IsSome (map.get self.old.places number.0) }
        ensures outcomes { self.new.outcomes ≡ end_kept number.0 answer self.old.outcomes }
        ensures wishes { self.new.wishes ≡ self.old.wishes }
        ensures places { self.new.places ≡ self.old.places }
    {
        if answer.is_some() {
            drop(swap_outcome(&mut self.places, number, answer));
        }
    }

    /// Gives out how the peer's Close was answered.
    pub(crate) fn take_close_outcome(&mut self) -> Option<CloseOutcome>
        ensures value { result ≡ self.old.outcomes.connection }
        ensures outcomes { self.new.outcomes ≡ record self.old.outcomes { connection = None } }
        ensures wishes { self.new.wishes ≡ self.old.wishes }
        ensures places { self.new.places ≡ self.old.places }
    {
        self.outcome.take()
    }

    /// Gives out how the peer's End for this session was answered.
    pub(crate) fn take_end_outcome(&mut self, number: SessionNo) -> Option<EndOutcome>
        ensures value { result ≡ map.get self.old.outcomes.sessions number.0 }
        ensures outcomes { self.new.outcomes ≡ record self.old.outcomes { sessions = map.remove self.old.outcomes.sessions number.0 } }
        ensures wishes { self.new.wishes ≡ self.old.wishes }
        ensures places { self.new.places ≡ self.old.places }
    {
        swap_outcome(&mut self.places, number, None)
    }

    /// Notes that a Close is requested. One that is noted already stays.
    pub(crate) fn note_close(&mut self, error: Option<Error>)
        ensures outcomes { self.new.outcomes ≡ self.old.outcomes }
        ensures wishes { self.new.wishes ≡ close_wished error self.old.wishes }
        ensures places { self.new.places ≡ self.old.places }
    {
        if self.close.is_none() {
            drop(mem::replace(&mut self.close, Some(Wish::of(error))));
        }
    }

    /// Notes that an End of this session is requested. One that is noted already stays.
    pub(crate) fn note_end(&mut self, number: SessionNo, error: Option<Error>)
        requires known { IsSome (map.get self.old.places number.0) }
        ensures outcomes { self.new.outcomes ≡ self.old.outcomes }
        ensures wishes { self.new.wishes ≡ end_wished number.0 error self.old.wishes }
        ensures places { self.new.places ≡ self.old.places }
    {
        if is_noted(&self.places, number) {
            drop(error);
            return;
        }
        drop(swap_wish(&mut self.places, number, Some(Wish::of(error))));
        self.queue.push(u32::MAX - number.0).unwrap();
    }

    /// Takes the Close that is noted.
    pub(crate) fn take_close(&mut self) -> Option<Wish>
        ensures value { result ≡ self.old.wishes.close }
        ensures outcomes { self.new.outcomes ≡ self.old.outcomes }
        ensures wishes { self.new.wishes ≡ record self.old.wishes { close = None } }
        ensures places { self.new.places ≡ self.old.places }
    {
        self.close.take()
    }

    /// Whether a Close is noted.
    pub(crate) fn has_close(&self) -> bool
        ensures { result ≡ is_some self.now.wishes.close }
    {
        self.close.is_some()
    }

    /// The lowest session whose End is noted.
    pub(crate) fn lowest_end(&self) -> Option<SessionNo>
        ensures { is_some result ≡ has_entries (map.entries self.now.wishes.ends) }
    {
        match self.queue.peek() {
            Some(top) => Some(SessionNo(u32::MAX - *top)),
            None => None,
        }
    }

    /// Takes the End that is noted of the lowest session.
    pub(crate) fn take_end(&mut self) -> Option<(SessionNo, Wish)>
        ensures outcomes { self.new.outcomes ≡ self.old.outcomes }
        ensures wishes { TakesEnd self.old.wishes result self.new.wishes }
        ensures places { self.new.places ≡ self.old.places }
    {
        let Some(top) = self.queue.pop() else {
            return None;
        };
        let number = SessionNo(u32::MAX - top);
        let wish = swap_wish(&mut self.places, number, None).unwrap();
        Some((number, wish))
    }
}
