//! Records that come for a session's links.

ghost use Rattle.amqp1.specs.LinkCalls.{DuesOf, TellsLinks, TellsWanted};

use super::Occupant;
use amqp_driver::Record;
use amqp_endpoints::{LinkEvent, RecordError};
use amqp_session::keys;

impl Occupant {
    /// A record is told to the links of its session, by [`SessionEndpoint::on_record`](amqp_endpoints::SessionEndpoint::on_record).
    pub fn tell(&mut self, told: &Record, given: u64) -> Result<LinkEvent, RecordError>
        ensures { TellsLinks told.now given self.old result self.new }
    {
        let hint = self.hints.of(told.session);
        let Some(links) = keys::get_mut(&mut self.links, hint, &told.session) else {
            return Ok(LinkEvent::Nothing);
        };
        links.on_record(told, given)
    }

    /// The peer's Attach that came before this side's is told to the link that answers it, by
    /// [`SessionEndpoint::on_wanted`](amqp_endpoints::SessionEndpoint::on_wanted).
    pub fn tell_wanted(&mut self, told: &Record, link: u32) -> Result<LinkEvent, RecordError>
        ensures { TellsWanted told.now link self.old result self.new }
    {
        let hint = self.hints.of(told.session);
        let Some(links) = keys::get_mut(&mut self.links, hint, &told.session) else {
            return Ok(LinkEvent::Nothing);
        };
        links.on_wanted(told, link)
    }

    /// A link of a session of which a call was held back, and is due, by [`SessionEndpoint::due_next`](amqp_endpoints::SessionEndpoint::due_next).
    pub fn due_next(&mut self, session: u32) -> LinkEvent
        ensures { DuesOf session self.old result self.new }
    {
        let hint = self.hints.of(session);
        let Some(links) = keys::get_mut(&mut self.links, hint, &session) else {
            return LinkEvent::Nothing;
        };
        self.client.due_next(links)
    }
}
