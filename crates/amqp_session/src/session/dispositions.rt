//! Dispositions of a session's open deliveries (AMQP 1.0 part 2, sections 2.6.12 and 2.7.6).

ghost use Rattle.std.specs.Prelude.{◌≡◌, ◌≤◌, ◌<◌, ◌+◌, ◌^◌, ℕ, List, [], Bool, true, false, Some, None, if◌then◌else◌, length, take, IfSome, IfNone, IfOk, OnErr, Ok, Err, IsTrue, ◌↔◌};
ghost use Rattle.amqp_session.specs.declared.error.SessionInnerError.TheVariants as Refused;
ghost use Rattle.std.specs.Option.{option_map};
ghost use Rattle.std.specs.Result.{result_map_both};
ghost use Rattle.amqp_memory.specs.Refusal.{SomeRefused};
ghost use Rattle.amqp_session.specs.Deliveries.{AreCounts, nothing_read, read_more, risen, stepped, with_role};
ghost use Rattle.amqp_session.specs.Relay.{DispositionQuestion};
ghost use Rattle.amqp_session.specs.Inner.Walks.{AreAnswered, IsSplit, IsWalked, range_of, turned};
ghost use Rattle.amqp_session.specs.Disposing.{span, num_messages, in_order, meant, not_meant, AsksEach, rows_of, IsBounded, HasTerminal, TakeDispositionStep, SendDispositionStep};
ghost use Rattle.amqp_session.specs.Room.{LacksEchoes, RoomyDispositionStep};

use super::Session;
use super::range::SerialRange;
use super::runs::with_state;
use super::walk::{ask_each, ask_one};
use crate::deliveries::{Deliveries, WalkCount};
use crate::error::SessionInnerError;
use crate::frame::{SessionFrame, SessionFrameBody};
use crate::link::Links;
use crate::relay::LinkRelay;
use amqp_memory::vector_with;
use amqp_types::{Disposition, Raw, Role, is_terminal};
use std::alloc::{AllocError, Global};

/// How many messages a disposition over these delivery numbers settles: one where no last is named. The numbers are serial
/// numbers, so a range may pass 4294967295; one over half of the circle or more is backward, and counts as one message.
pub fn num_messages_settled_by_disposition(first: u32, last: Option<u32>) -> u32
    ensures { result ≡ num_messages first last }
{
    match SerialRange::forward(first, last) {
        Some(range) => range.len(),
        None => 1,
    }
}

impl<R: LinkRelay> Session<R> {
    /// Takes the peer's disposition of open deliveries: those that this side sent, where the peer is receiver, and else those
    /// that it received. It means the open ones from `first` to `last`, or `first` alone where no last is named, in this order.
    /// The numbers are serial numbers, so a range may pass 4294967295; one over half of the circle or more is backward, and means
    /// none. The relay of each delivery's link is asked, if one is attached. It is accepted in every state.
    ///
    /// Settled, it takes the deliveries away: `None`, without memory and without an error. Unsettled, they stay open, and the
    /// answer is one settled disposition for each run of numbers without gaps whose relays answered true: of role sender, with the same
    /// state. The caller sends them, by [`Session::on_outgoing_disposition`].
    ///
    /// `OutOfMemory` where an unsettled one over a forward range is refused memory: before any relay is asked, or after all were,
    /// where a relay asked for an echo and its state cannot be shared. The deliveries stay open then. Where none of the role is open, no
    /// memory is asked for.
    #[inline(always)]
    pub fn on_incoming_disposition(
        &mut self,
        disposition: Disposition,
    ) -> Result<Option<Vec<Disposition>>, SessionInnerError>
        ensures step { (asked : List (DispositionQuestion R))
            × TakeDispositionStep R.gives.disposition_gives self.old.view disposition asked
            (result_map_both (option_map (λ v. v.items)) (λ e. e) result) self.new.view }
        ensures bound { IsBounded disposition (rows_of disposition self.old.view) result self.new.last_walk }
        ensures reads { self.new.reads ≡ read_more disposition.role self.new.last_walk self.old.reads }
    {
        match self.on_incoming_disposition_if_room(disposition) {
            Some(answer) => answer,
            None => {
                self.last_walk = WalkCount::new();
                // prover
                let _sent = self.sent.reads();
                let _received = self.received.reads();
                Err(SessionInnerError::OutOfMemory)
            }
        }
    }

    /// [`Session::on_incoming_disposition`], but where memory is refused before any relay is asked: then the answer is `None`, and nothing has
    /// changed, so that the disposition may come again. Else `OutOfMemory` is of the state of an echo alone.
    #[inline(always)]
    pub fn on_incoming_disposition_if_room(
        &mut self,
        disposition: Disposition,
    ) -> Option<Result<Option<Vec<Disposition>>, SessionInnerError>>
        ensures none { IfNone result ((self.new ≡ self.old) × LacksEchoes self.old.view disposition) }
        ensures step { IfSome result (λ r. (asked : List (DispositionQuestion R))
            × RoomyDispositionStep R.gives.disposition_gives self.old.view disposition asked
            (result_map_both (option_map (λ v. v.items)) (λ e. e) r) self.new.view) }
        ensures bound { IfSome result (λ r. IsBounded disposition (rows_of disposition self.old.view) r self.new.last_walk) }
        ensures reads { IfSome result (λ r. self.new.reads ≡ read_more disposition.role self.new.last_walk self.old.reads) }
    {
        let Some(range) = SerialRange::forward(disposition.first, disposition.last) else {
            self.last_walk = WalkCount::new();
            return Some(Ok(self.nothing_meant(disposition.settled)));
        };
        if disposition.settled {
            self.last_walk = WalkCount::new();
            self.take_away(&disposition, range);
            return Some(Ok(None));
        }
        self.ask(&disposition, range)
    }

    /// The frame of a disposition, in every state. A terminal state opens the remote outgoing window again by the messages that the
    /// disposition settles, up to 4294967295. The deliveries stay open: [`Session::settle`] lets them go. Takes no memory.
    pub fn on_outgoing_disposition(&mut self, disposition: Disposition) -> SessionFrame
        ensures step { (terminal : Bool) × SendDispositionStep self.old.view disposition terminal result self.new.view }
        ensures walk { self.new.last_walk ≡ self.old.last_walk }
        ensures reads { self.new.reads ≡ self.old.reads }
    {
        if has_terminal(&disposition.state) {
            self.receiving.widen(num_messages_settled_by_disposition(
                disposition.first,
                disposition.last,
            ));
        }
        SessionFrame::new(
            self.outgoing_channel.0,
            SessionFrameBody::Disposition(disposition),
        )
    }

    /// The answer to a disposition that means no delivery.
    #[inline(always)]
    fn nothing_meant(&self, settled: bool) -> Option<Vec<Disposition>>
        ensures answer { option_map (λ v. v.items) result ≡ (if settled then None else Some []) }
        ensures counts { AreCounts self.now.reads }
    {
        // prover
        let _sent = self.sent.reads();
        let _received = self.received.reads();
        if settled {
            return None;
        }
        Some(Vec::new(self.alloc))
    }

    /// Asks the relays about a settled disposition over a forward range, and takes the deliveries of its role away.
    fn take_away(&mut self, disposition: &Disposition, range: SerialRange)
        requires range { range ≡ range_of disposition.now }
        requires settled { disposition.now.settled ≡ true }
        requires forward { span disposition.now.first disposition.now.last < 2 ^ 31 }
        requires unread { self.old.last_walk ≡ nothing_read }
        ensures asked { (asked : List (DispositionQuestion R))
            × AsksEach R.gives.disposition_gives disposition.now
            (meant disposition.now (rows_of disposition.now self.old.view)) asked self.old.view.links self.new.view.links }
        ensures view { self.new.view ≡ record self.old.view {
          links = self.new.view.links;
          deliveries = with_role disposition.now.role (not_meant disposition.now (rows_of disposition.now self.old.view)) self.old.view.deliveries;
        } }
        ensures walk { IsWalked disposition.now (rows_of disposition.now self.old.view) self.new.last_walk }
        ensures reads { self.new.reads ≡ read_more disposition.now.role self.new.last_walk self.old.reads }
    {
        let (links, walk) = (&mut self.links, &mut self.last_walk);
        match disposition.role {
            Role::Receiver => settle(self.alloc, links, &mut self.sent, walk, disposition, range),
            Role::Sender => settle(
                self.alloc,
                links,
                &mut self.received,
                walk,
                disposition,
                range,
            ),
        }
    }

    /// Asks the relays of an unsettled disposition over a forward range about the deliveries of its role. `None` where memory is refused
    /// before, and nothing changes.
    fn ask(
        &mut self,
        disposition: &Disposition,
        range: SerialRange,
    ) -> Option<Result<Option<Vec<Disposition>>, SessionInnerError>>
        requires range { range ≡ range_of disposition.now }
        requires settled { disposition.now.settled ≡ false }
        requires forward { span disposition.now.first disposition.now.last < 2 ^ 31 }
        ensures none { IfNone result ((self.new ≡ self.old) × ¬ (rows_of disposition.now self.old.view ≡ []) × SomeRefused) }
        ensures asked { IfSome result (λ r. (asked : List (DispositionQuestion R))
            × AsksEach R.gives.disposition_gives disposition.now
            (meant disposition.now (rows_of disposition.now self.old.view)) asked self.old.view.links self.new.view.links
            × AreAnswered disposition.now (rows_of disposition.now self.old.view) asked (result_map_both (option_map (λ v. v.items)) (λ e. e) r)) }
        ensures view { self.new.view ≡ record self.old.view { links = self.new.view.links } }
        ensures walk { IfSome result (λ r. IsWalked disposition.now (rows_of disposition.now self.old.view) self.new.last_walk) }
        ensures reads { IfSome result (λ r. self.new.reads ≡ read_more disposition.now.role self.new.last_walk self.old.reads) }
    {
        let (links, walk) = (&mut self.links, &mut self.last_walk);
        match disposition.role {
            Role::Receiver => ask(self.alloc, links, &mut self.sent, walk, disposition, range),
            Role::Sender => ask(
                self.alloc,
                links,
                &mut self.received,
                walk,
                disposition,
                range,
            ),
        }
    }
}

/// Whether a state is terminal, if one is there.
fn has_terminal(state: &Option<Raw>) -> bool
    ensures { IsTrue result ↔ HasTerminal state.now }
{
    match state {
        None => false,
        Some(state) => is_terminal(state),
    }
}

/// Asks the relays about a settled disposition over a forward range, and takes the deliveries that it means away.
fn settle<R: LinkRelay>(
    alloc: Global,
    links: &mut Links<R>,
    rows: &mut Deliveries,
    walk: &mut WalkCount,
    disposition: &Disposition,
    range: SerialRange,
)
    requires range { range ≡ range_of disposition.now }
    requires settled { disposition.now.settled ≡ true }
    requires forward { span disposition.now.first disposition.now.last < 2 ^ 31 }
    requires unread { walk.old ≡ nothing_read }
    ensures rows { rows.new.rows ≡ not_meant disposition.now rows.old.rows }
    ensures asked { (asked : List (DispositionQuestion R))
        × AsksEach R.gives.disposition_gives disposition.now (meant disposition.now rows.old.rows) asked links.old links.new }
    ensures walk { IsWalked disposition.now rows.old.rows walk.new }
    ensures reads { rows.new.reads ≡ risen walk.new rows.old.reads }
{
    let before = rows.reads();
    let from = rows.place_of(range.first);
    let count = tell(alloc, links, rows, disposition, range, from);
    *walk = rows.reads().since(before);
    rows.remove(from, count);
}

/// Asks the relays of the deliveries that a settled disposition means, from the place of its first number on, and says how many are meant.
#[inline(always)]
fn tell<R: LinkRelay>(
    alloc: Global,
    links: &mut Links<R>,
    rows: &mut Deliveries,
    disposition: &Disposition,
    range: SerialRange,
    from: usize,
) -> usize
    requires range { range ≡ range_of disposition.now }
    requires from { from ≤ length rows.old.rows }
    requires order { in_order disposition.now.first rows.old.rows ≡ turned from rows.old.rows }
    requires settled { disposition.now.settled ≡ true }
    requires forward { span disposition.now.first disposition.now.last < 2 ^ 31 }
    ensures within { result ≤ length rows.old.rows }
    ensures split { IsSplit disposition.now (turned from rows.old.rows) result }
    ensures asked { (asked : List (DispositionQuestion R))
        × AsksEach R.gives.disposition_gives disposition.now (take result (turned from rows.old.rows)) asked links.old links.new }
    ensures read { (k : ℕ) × (k ≤ result + 1) × (result ≤ k) × (rows.new ≡ stepped k rows.old) }
{
    if range.span == 0 {
        return ask_one(links, rows, disposition, range, from);
    }
    tell_each(alloc, links, rows, disposition, range, from)
}

/// The same over a range of several numbers, or of any.
#[inline(never)]
fn tell_each<R: LinkRelay>(
    alloc: Global,
    links: &mut Links<R>,
    rows: &mut Deliveries,
    disposition: &Disposition,
    range: SerialRange,
    from: usize,
) -> usize
    requires range { range ≡ range_of disposition.now }
    requires from { from ≤ length rows.old.rows }
    requires order { in_order disposition.now.first rows.old.rows ≡ turned from rows.old.rows }
    requires settled { disposition.now.settled ≡ true }
    requires forward { span disposition.now.first disposition.now.last < 2 ^ 31 }
    ensures within { result ≤ length rows.old.rows }
    ensures split { IsSplit disposition.now (turned from rows.old.rows) result }
    ensures asked { (asked : List (DispositionQuestion R))
        × AsksEach R.gives.disposition_gives disposition.now (take result (turned from rows.old.rows)) asked links.old links.new }
    ensures read { (k : ℕ) × (k ≤ result + 1) × (result ≤ k) × (rows.new ≡ stepped k rows.old) }
{
    let mut no_echoes = Vec::new(alloc);
    ask_each(links, rows, disposition, range, from, &mut no_echoes)
}

/// Asks the relays of an unsettled disposition over a forward range, and gives the echoes. Room for them is taken before, or `None` is the
/// answer and nothing changes: what may be refused after it is the state, where an echo says it again.
fn ask<R: LinkRelay>(
    alloc: Global,
    links: &mut Links<R>,
    rows: &mut Deliveries,
    walk: &mut WalkCount,
    disposition: &Disposition,
    range: SerialRange,
) -> Option<Result<Option<Vec<Disposition>>, SessionInnerError>>
    requires range { range ≡ range_of disposition.now }
    requires settled { disposition.now.settled ≡ false }
    requires forward { span disposition.now.first disposition.now.last < 2 ^ 31 }
    ensures none { IfNone result ((links.new ≡ links.old) × (rows.new ≡ rows.old) × (walk.new ≡ walk.old) × ¬ (rows.old.rows ≡ []) × SomeRefused) }
    ensures asked { IfSome result (λ r. (asked : List (DispositionQuestion R))
        × AsksEach R.gives.disposition_gives disposition.now (meant disposition.now rows.old.rows) asked links.old links.new
        × AreAnswered disposition.now rows.old.rows asked (result_map_both (option_map (λ v. v.items)) (λ e. e) r)) }
    ensures rows { rows.new.rows ≡ rows.old.rows }
    ensures walk { IfSome result (λ r. IsWalked disposition.now rows.old.rows walk.new) }
    ensures reads { IfSome result (λ r. rows.new.reads ≡ risen walk.new rows.old.reads) }
{
    let most = rows.len().min(range.most_runs());
    let Ok(room) = vector_with(alloc, most) else {
        return None;
    };
    let mut echoes = room;
    let before = rows.reads();
    let from = rows.place_of(range.first);
    ask_each(links, rows, disposition, range, from, &mut echoes);
    *walk = rows.reads().since(before);
    Some(answer_of(with_state(echoes, &disposition.state)))
}

/// What is answered by these echoes.
fn answer_of(
    echoes: Result<Vec<Disposition>, AllocError>,
) -> Result<Option<Vec<Disposition>>, SessionInnerError>
    ensures ok { IfOk echoes (λ v. result ≡ Ok (Some v)) }
    ensures err { OnErr echoes (result ≡ Err Refused.OutOfMemory) }
{
    match echoes {
        Ok(echoes) => Ok(Some(echoes)),
        Err(_) => Err(SessionInnerError::OutOfMemory),
    }
}
