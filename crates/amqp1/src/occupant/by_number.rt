//! The calls on a session's links, by the numbers and the bytes that C says.

ghost use Rattle.std.specs.Prelude.{◌≡◌};
ghost use Rattle.amqp1.specs.Delivering.{delivered_of};
ghost use Rattle.amqp1.specs.LinkNumbers.{AttachesFor, DetachesFor, DisposesFor, DueFor, FlowsFor, ForgetsFor, LeavesAllFor, LeavesFor, RemovesFor, RespondsFor, SendsFor, SettledFor, SettlesFor, TellsEvent, TellsFor, TellsLink, TellsUnsettled, WantedFor, is_set, removed_status, renewal_of, wish_at};
ghost use Rattle.amqp1.specs.Reading.{role_of};

use super::Occupant;
use crate::delivered::{Delivered, Unsettled, delivered_of, send_status, unsettled_of};
use crate::event::{Event, event_asked, event_of, link_of};
use crate::reading;
use crate::status::Status;
use amqp_driver::{PlainRelay, Record, TransferHead};
use amqp_endpoints::{LinkEvent, RecordError, Renewal};
use amqp_links::{Entry, FlowWish, RemoveError};
use amqp_session::{LinkRelay, OutputHandle};
use amqp_types::{ReadError, Role};

/// The wish of this kind: 0 grants so much credit, 1 drains, 2 renews, 3 answers, where so many messages are ready. `None` of another.
fn wish_at(kind: u32, number: u32) -> Option<FlowWish>
    ensures { result ≡ wish_at kind number }
{
    match kind {
        0 => Some(FlowWish::Grant(number)),
        1 => Some(FlowWish::Drain),
        2 => Some(FlowWish::Renew),
        3 => Some(FlowWish::Answer(number)),
        _ => None,
    }
}

/// Whether a number of C's says yes.
fn is_set(number: u32) -> bool
    ensures { result ≡ is_set number }
{
    number != 0
}

/// The rule of renewal. None where the high mark is 0.
fn renewal_of(low: u32, high: u32) -> Option<Renewal>
    ensures { result ≡ renewal_of low high }
{
    if high == 0 {
        None
    } else {
        Some(Renewal { low, high })
    }
}

/// The role of a number: 0 for the sender, 1 for the receiver.
fn role_of(number: u32) -> Option<Role>
    ensures { result ≡ role_of number }
{
    match number {
        0 => Some(Role::Sender),
        1 => Some(Role::Receiver),
        _ => None,
    }
}

/// A handle is written, and the status is `Done`; or nothing is.
fn tell_link(attached: Result<OutputHandle, Status>, link: &mut u32) -> Status
    ensures { TellsLink attached link.old result link.new }
{
    match attached {
        Ok(handle) => {
            *link = handle.0;
            Status::Done
        }
        Err(status) => status,
    }
}

/// A delivery is written, and the status is `Done`; or there is none.
fn tell_unsettled(entry: Option<Entry>, told: &mut Unsettled) -> Status
    ensures { TellsUnsettled entry told.old result told.new }
{
    match entry {
        Some(entry) => {
            *told = unsettled_of(entry);
            Status::Done
        }
        None => Status::Nothing,
    }
}

/// The status of a link that is to be taken away.
fn removed_status(removed: Result<(), RemoveError>) -> Status
    ensures { result ≡ removed_status removed }
{
    match removed {
        Ok(()) => Status::Done,
        Err(RemoveError::NoLink) => Status::NoLink,
        Err(RemoveError::NotDetached) => Status::NotDetached,
        Err(RemoveError::Unsettled) => Status::Unsettled,
    }
}

impl Occupant {
    /// A link is attached, by the bytes of its Attach; its handle is written, which is allotted to this name, or, where it is empty, to that of the Attach. It
    /// renews its credit from `low` up to `high`, unless that is 0.
    pub fn attach_for(
        &mut self,
        session: u32,
        text: &[u8],
        name: &[u8],
        low: u32,
        high: u32,
        link: &mut u32,
    ) -> Status
        ensures { AttachesFor ⟦<PlainRelay as LinkRelay>⟧.gives session text.now name.now (renewal_of low high) link.old self.old result link.new self.new }
    {
        match std::str::from_utf8(name) {
            Ok(name) => self.attach_text(session, text, name, low, high, link),
            Err(_) => Status::BadArgument,
        }
    }

    /// The same under a name that is text.
    fn attach_text(
        &mut self,
        session: u32,
        text: &[u8],
        name: &str,
        low: u32,
        high: u32,
        link: &mut u32,
    ) -> Status
        ensures { AttachesFor ⟦<PlainRelay as LinkRelay>⟧.gives session text.now name.now (renewal_of low high) link.old self.old result link.new self.new }
    {
        match reading::attach(self.alloc, text) {
            Ok(attach) => {
                let attached = self.attach(session, name, attach, renewal_of(low, high));
                tell_link(attached, link)
            }
            Err(ReadError::Malformed) => Status::BadArgument,
            Err(ReadError::OutOfMemory) => Status::NoMemory,
        }
    }

    /// A flow of a link is sent, for the wish of this kind.
    pub fn flow_for(&mut self, session: u32, link: u32, kind: u32, number: u32) -> Status
        ensures { FlowsFor ⟦<PlainRelay as LinkRelay>⟧.gives session link (wish_at kind number) self.old result self.new }
    {
        match wish_at(kind, number) {
            Some(wish) => self.say(session, link, wish),
            None => Status::BadArgument,
        }
    }

    /// A Detach of a link is sent, with the error of these bytes, or without one where there are none.
    pub fn detach_for(&mut self, session: u32, link: u32, closed: u32, error: &[u8]) -> Status
        ensures { DetachesFor ⟦<PlainRelay as LinkRelay>⟧.gives session link (is_set closed) error.now self.old result self.new }
    {
        match reading::error_or_none(self.alloc, error) {
            Ok(error) => self.detach(session, link, is_set(closed), error),
            Err(ReadError::Malformed) => Status::BadArgument,
            Err(ReadError::OutOfMemory) => Status::NoMemory,
        }
    }

    /// What a link owes for an event is sent.
    pub fn respond_for(&mut self, event: &Event, available: u32) -> Status
        ensures { RespondsFor ⟦<PlainRelay as LinkRelay>⟧.gives event.now available self.old result self.new }
    {
        let asked = event_asked(event);
        self.respond(event.session, &asked, available)
    }

    /// What was told is written as an event, with the credit of its link.
    fn tell_event(
        &self,
        session: u32,
        told: Result<LinkEvent, RecordError>,
        event: &mut Event,
    ) -> Status
        ensures { TellsEvent session self.now told event.old result event.new }
    {
        match told {
            Ok(told) => {
                let credit = self.credit(session, link_of(&told));
                *event = event_of(session, told, credit);
                Status::Done
            }
            Err(RecordError::NotNext) => Status::NotNext,
            Err(RecordError::OutOfMemory) => Status::NoMemory,
        }
    }

    /// A record is told to the links of its session, and what it is to them is written.
    pub fn tell_for(&mut self, told: &Record, given: u64, event: &mut Event) -> Status
        ensures { TellsFor told.now given event.old self.old result event.new self.new }
    {
        let answer = self.tell(told, given);
        self.tell_event(told.session, answer, event)
    }

    /// The peer's Attach that came first is told to the link that answers it, and what it is to that is written.
    pub fn wanted_for(&mut self, told: &Record, link: u32, event: &mut Event) -> Status
        ensures { WantedFor told.now link event.old self.old result event.new self.new }
    {
        let answer = self.tell_wanted(told, link);
        self.tell_event(told.session, answer, event)
    }

    /// A link that is due is written. `Nothing` where there is none.
    pub fn due_for(&mut self, session: u32, event: &mut Event) -> Status
        ensures { DueFor session event.old self.old result event.new self.new }
    {
        match self.due_next(session) {
            LinkEvent::Nothing => Status::Nothing,
            due => {
                let credit = self.credit(session, link_of(&due));
                *event = event_of(session, due, credit);
                Status::Done
            }
        }
    }

    /// A transfer is sent on a link, and what became of it is written.
    pub fn send_for(
        &mut self,
        head: &TransferHead,
        bytes: &[u8],
        given: u64,
        told: &mut Delivered,
    ) -> Status
        ensures { SendsFor ⟦<PlainRelay as LinkRelay>⟧.gives head.now bytes.now given self.old result told.new self.new }
    {
        let sent = self.send(head, bytes, given);
        *told = delivered_of(&sent);
        send_status(&sent)
    }

    /// A disposition of deliveries is sent.
    pub fn settle_for(
        &mut self,
        session: u32,
        role: u32,
        first: u32,
        last: u32,
        settled: u32,
        outcome: u8,
    ) -> Status
        ensures { SettlesFor ⟦<PlainRelay as LinkRelay>⟧.gives session (role_of role) first last (is_set settled) outcome self.old result self.new }
    {
        match role_of(role) {
            Some(role) => self.settle(session, role, first, last, is_set(settled), outcome),
            None => Status::BadArgument,
        }
    }

    /// A disposition of any state is sent, by its bytes.
    pub fn dispose_for(&mut self, session: u32, text: &[u8]) -> Status
        ensures { DisposesFor ⟦<PlainRelay as LinkRelay>⟧.gives session text.now self.old result self.new }
    {
        match reading::disposition(self.alloc, text) {
            Ok(disposition) => self.settle_by(session, disposition),
            Err(ReadError::Malformed) => Status::BadArgument,
            Err(ReadError::OutOfMemory) => Status::NoMemory,
        }
    }

    /// The oldest unsettled delivery of a range, which is settled, is taken out and written.
    pub fn settled_for(
        &mut self,
        session: u32,
        role: u32,
        first: u32,
        last: u32,
        told: &mut Unsettled,
    ) -> Status
        ensures { SettledFor session (role_of role) first last told.old self.old result told.new self.new }
    {
        match role_of(role) {
            Some(role) => {
                let entry = self.settled_next(session, role, first, last);
                tell_unsettled(entry, told)
            }
            None => Status::BadArgument,
        }
    }

    /// The oldest delivery that is left on a link is taken out and written.
    pub fn left_for(&mut self, session: u32, link: u32, told: &mut Unsettled) -> Status
        ensures { LeavesFor ⟦<PlainRelay as LinkRelay>⟧.gives session link told.old self.old result told.new self.new }
    {
        match self.left_next(session, link) {
            Ok(entry) => tell_unsettled(entry, told),
            Err(_) => Status::NoMemory,
        }
    }

    /// The oldest delivery that is left in a session which is over is taken out and written.
    pub fn left_of_for(&mut self, session: u32, role: u32, told: &mut Unsettled) -> Status
        ensures { LeavesAllFor session (role_of role) told.old self.old result told.new self.new }
    {
        match role_of(role) {
            Some(role) => {
                let entry = self.left_of(session, role);
                tell_unsettled(entry, told)
            }
            None => Status::BadArgument,
        }
    }

    /// A link is taken away that is over.
    pub fn remove_for(&mut self, session: u32, link: u32) -> Status
        ensures { RemovesFor session link self.old result self.new }
    {
        removed_status(self.remove(session, link))
    }

    /// The session has no links any more. `Nothing` where it had none.
    pub fn forget_for(&mut self, session: u32) -> Status
        ensures { ForgetsFor session self.old result self.new }
    {
        if self.forget_links(session) {
            Status::Done
        } else {
            Status::Nothing
        }
    }
}
