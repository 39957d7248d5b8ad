//! Flows and Detaches of a session's links, and what they owe.

ghost use Rattle.amqp1.specs.Occupant.{Says};
ghost use Rattle.amqp1.specs.LinkCalls.{detaching, responding, saying};

use super::Occupant;
use crate::status::Status;
use amqp_driver::PlainRelay;
use amqp_endpoints::LinkEvent;
use amqp_links::FlowWish;
use amqp_session::{LinkRelay, keys};
use amqp_types::Error;

impl Occupant {
    /// A flow of a link is sent, for this wish, by [`SessionEndpoint::say`](amqp_endpoints::SessionEndpoint::say). `Nothing` where none is wanted.
    pub fn say(&mut self, session: u32, link: u32, wish: FlowWish) -> Status
        ensures { Says (saying ⟦<PlainRelay as LinkRelay>⟧.gives link wish) session self.old result self.new }
    {
        let hint = self.hints.of(session);
        let Some(links) = keys::get_mut(&mut self.links, hint, &session) else {
            return Status::Nothing;
        };
        self.client.say(links, link, wish)
    }

    /// Sends what a link owes for an event, if it owes anything, by [`SessionEndpoint::respond`](amqp_endpoints::SessionEndpoint::respond).
    pub fn respond(&mut self, session: u32, event: &LinkEvent, available: u32) -> Status
        ensures { Says (responding ⟦<PlainRelay as LinkRelay>⟧.gives event.now available) session self.old result self.new }
    {
        let hint = self.hints.of(session);
        let Some(links) = keys::get_mut(&mut self.links, hint, &session) else {
            return Status::Nothing;
        };
        self.client.respond_on(links, event, available)
    }

    /// A Detach of a link is sent, by [`SessionEndpoint::detach`](amqp_endpoints::SessionEndpoint::detach). `Nothing` where none may be sent.
    pub fn detach(&mut self, session: u32, link: u32, closed: bool, error: Option<Error>) -> Status
        ensures { Says (detaching ⟦<PlainRelay as LinkRelay>⟧.gives link closed error) session self.old result self.new }
    {
        let hint = self.hints.of(session);
        let Some(links) = keys::get_mut(&mut self.links, hint, &session) else {
            drop(error);
            return Status::Nothing;
        };
        self.client.detach(links, link, closed, error)
    }
}
