//! Settlement of a session's deliveries, and what is left on its links.

ghost use Rattle.amqp1.specs.LinkCalls.{LeavesAllOf, LeavesIn, LeavesOf, RemovesLink, SettlesLink, SettlesLinkBy, SettlesNextOf};

use super::Occupant;
use crate::status::Status;
use amqp_driver::PlainRelay;
use amqp_endpoints::{NoMemory, SessionEndpoint};
use amqp_links::{Entry, RemoveError};
use amqp_session::{LinkRelay, keys};
use amqp_types::{Disposition, Role};

/// The oldest delivery that is left on the links of a session which is over.
fn left_in(links: &mut SessionEndpoint, role: Role) -> Option<Entry>
    ensures { LeavesIn role links.old result links.new }
{
    match role {
        Role::Sender => links.left_of_sent(),
        Role::Receiver => links.left_of_received(),
    }
}

impl Occupant {
    /// A disposition of a session's deliveries is sent, by [`SessionEndpoint::settle`](amqp_endpoints::SessionEndpoint::settle). `Nothing` where the session
    /// has no links; `BadArgument` of an outcome that is none.
    pub fn settle(
        &mut self,
        session: u32,
        role: Role,
        first: u32,
        last: u32,
        settled: bool,
        outcome: u8,
    ) -> Status
        ensures { SettlesLink ⟦<PlainRelay as LinkRelay>⟧.gives session role first last settled outcome self.old result self.new }
    {
        let Some(links) = keys::get(&self.links, &self.hints, session) else {
            return Status::Nothing;
        };
        self.client
            .settle(links, role, first, last, settled, outcome)
    }

    /// The same by a disposition of any state, by [`SessionEndpoint::settle_by`](amqp_endpoints::SessionEndpoint::settle_by). `Nothing` where the session has
    /// no links.
    pub fn settle_by(&mut self, session: u32, disposition: Disposition) -> Status
        ensures { SettlesLinkBy ⟦<PlainRelay as LinkRelay>⟧.gives session disposition self.old result self.new }
    {
        let Some(links) = keys::get(&self.links, &self.hints, session) else {
            drop(disposition);
            return Status::Nothing;
        };
        self.client.settle_by(links, disposition)
    }

    /// Takes out the oldest unsettled delivery of a range, which is settled.
    pub fn settled_next(&mut self, session: u32, role: Role, first: u32, last: u32) -> Option<Entry>
        ensures { SettlesNextOf session role first last self.old result self.new }
    {
        let hint = self.hints.of(session);
        let Some(links) = keys::get_mut(&mut self.links, hint, &session) else {
            return None;
        };
        links.settled_next(role, first, last)
    }

    /// Takes out the oldest delivery that is left unsettled on a link, once the peer has detached it, and the session lets it go, by
    /// [`SessionEndpoint::left_next`](amqp_endpoints::SessionEndpoint::left_next).
    ///
    /// # Errors
    /// That of the call.
    pub fn left_next(&mut self, session: u32, link: u32) -> Result<Option<Entry>, NoMemory>
        ensures { LeavesOf ⟦<PlainRelay as LinkRelay>⟧.gives session link self.old result self.new }
    {
        let hint = self.hints.of(session);
        let Some(links) = keys::get_mut(&mut self.links, hint, &session) else {
            return Ok(None);
        };
        self.client.left_next(links, link)
    }

    /// Takes out the oldest delivery that is left unsettled in a session which is over: of those that this side sent, where its role is
    /// [`Role::Sender`], and else of those that have come.
    pub fn left_of(&mut self, session: u32, role: Role) -> Option<Entry>
        ensures { LeavesAllOf session role self.old result self.new }
    {
        let hint = self.hints.of(session);
        let Some(links) = keys::get_mut(&mut self.links, hint, &session) else {
            return None;
        };
        left_in(links, role)
    }

    /// The handle of a link has no end any more.
    pub fn remove(&mut self, session: u32, link: u32) -> Result<(), RemoveError>
        ensures { RemovesLink session link self.old result self.new }
    {
        let hint = self.hints.of(session);
        let Some(links) = keys::get_mut(&mut self.links, hint, &session) else {
            return Err(RemoveError::NoLink);
        };
        links.remove(link)
    }
}
