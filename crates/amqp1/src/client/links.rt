//! The links of a session, and the stream: each call is one of the session's endpoint, and a refusal of the request that it makes is kept.

ghost use Rattle.amqp1.specs.LinkCalls.{LinksAttach, LinksAttachAs, LinksLeave, LinksSend, LinksSettle, detaching, responding, saying, settling, settling_by};
ghost use Rattle.amqp_endpoints.specs.Waiting.{TakesDue};
ghost use Rattle.amqp1.specs.Occupant.{LinksSay};

use super::Client;
use crate::status::Status;
use amqp_driver::{PlainRelay, TransferHead};
use amqp_endpoints::{LinkEvent, NoMemory, Renewal, SendFailure, SentDelivery, SessionEndpoint};
use amqp_links::{Entry, FlowWish};
use amqp_session::{LinkRelay, OutputHandle};
use amqp_types::{Attach, Disposition, Error, Role};

impl Client {
    /// [`SessionEndpoint::say`].
    pub(crate) fn say(&mut self, links: &mut SessionEndpoint, link: u32, wish: FlowWish) -> Status
        ensures { LinksSay (saying ⟦<PlainRelay as LinkRelay>⟧.gives link wish) links.old self.old result self.new links.new }
    {
        let answer = links.say(&mut self.stream, link, wish);
        self.note_said(answer)
    }

    /// [`SessionEndpoint::respond`].
    pub(crate) fn respond_on(
        &mut self,
        links: &mut SessionEndpoint,
        event: &LinkEvent,
        available: u32,
    ) -> Status
        ensures { LinksSay (responding ⟦<PlainRelay as LinkRelay>⟧.gives event.now available) links.old self.old result self.new links.new }
    {
        let answer = links.respond(&mut self.stream, event, available);
        self.note_said(answer)
    }

    /// [`SessionEndpoint::detach`].
    pub(crate) fn detach(
        &mut self,
        links: &mut SessionEndpoint,
        link: u32,
        closed: bool,
        error: Option<Error>,
    ) -> Status
        ensures { LinksSay (detaching ⟦<PlainRelay as LinkRelay>⟧.gives link closed error) links.old self.old result self.new links.new }
    {
        let answer = links.detach(&mut self.stream, link, closed, error);
        self.note_said(answer)
    }

    /// [`SessionEndpoint::settle`].
    pub(crate) fn settle(
        &mut self,
        links: &SessionEndpoint,
        role: Role,
        first: u32,
        last: u32,
        settled: bool,
        outcome: u8,
    ) -> Status
        ensures { LinksSettle (settling ⟦<PlainRelay as LinkRelay>⟧.gives role first last settled outcome) links.now self.old result self.new }
    {
        let asked = links.settle(&mut self.stream, role, first, last, settled, outcome);
        self.note_settled(asked)
    }

    /// [`SessionEndpoint::settle_by`].
    pub(crate) fn settle_by(&mut self, links: &SessionEndpoint, disposition: Disposition) -> Status
        ensures { LinksSettle (settling_by ⟦<PlainRelay as LinkRelay>⟧.gives disposition) links.now self.old result self.new }
    {
        let asked = links.settle_by(&mut self.stream, disposition);
        self.note_settled(Some(asked))
    }

    /// [`SessionEndpoint::left_next`].
    pub(crate) fn left_next(
        &mut self,
        links: &mut SessionEndpoint,
        link: u32,
    ) -> Result<Option<Entry>, NoMemory>
        ensures { LinksLeave ⟦<PlainRelay as LinkRelay>⟧.gives link links.old self.old result self.new links.new }
    {
        links.left_next(&mut self.stream, link)
    }

    /// [`SessionEndpoint::due_next`].
    pub(crate) fn due_next(&self, links: &mut SessionEndpoint) -> LinkEvent
        ensures { TakesDue links.old.late links.old self.now.stream result links.new }
    {
        links.due_next(&self.stream)
    }

    /// [`SessionEndpoint::attach_under`], with the Attach's own name where this one is empty.
    pub(crate) fn attach(
        &mut self,
        links: &mut SessionEndpoint,
        name: &str,
        attach: Attach,
        renewal: Option<Renewal>,
    ) -> Result<OutputHandle, Status>
        ensures { LinksAttach ⟦<PlainRelay as LinkRelay>⟧.gives name.now attach renewal links.old self.old result self.new links.new }
    {
        if name.is_empty() {
            self.attach_by_name(links, attach, renewal)
        } else {
            self.attach_under(links, name, attach, renewal)
        }
    }

    /// [`SessionEndpoint::attach`].
    fn attach_by_name(
        &mut self,
        links: &mut SessionEndpoint,
        attach: Attach,
        renewal: Option<Renewal>,
    ) -> Result<OutputHandle, Status>
        ensures { LinksAttachAs ⟦<PlainRelay as LinkRelay>⟧.gives attach.name attach renewal links.old self.old result self.new links.new }
    {
        let attached = links.attach(&mut self.stream, attach, renewal);
        self.note_attached(attached)
    }

    /// [`SessionEndpoint::attach_under`].
    fn attach_under(
        &mut self,
        links: &mut SessionEndpoint,
        name: &str,
        attach: Attach,
        renewal: Option<Renewal>,
    ) -> Result<OutputHandle, Status>
        ensures { LinksAttachAs ⟦<PlainRelay as LinkRelay>⟧.gives name.now attach renewal links.old self.old result self.new links.new }
    {
        let attached = links.attach_under(&mut self.stream, name, attach, renewal);
        self.note_attached(attached)
    }

    /// [`SessionEndpoint::send`].
    pub(crate) fn send_on(
        &mut self,
        links: &mut SessionEndpoint,
        head: &TransferHead,
        bytes: &[u8],
        given: u64,
    ) -> Result<SentDelivery, SendFailure>
        ensures { LinksSend ⟦<PlainRelay as LinkRelay>⟧.gives head.now bytes.now given links.old self.old result self.new links.new }
    {
        links.send(&mut self.stream, head, bytes, given)
    }
}
