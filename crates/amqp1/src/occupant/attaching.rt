//! Attaches of a session's links.

ghost use Rattle.amqp1.specs.LinkCalls.{AttachesLinkOf, AttachesOn};

use super::Occupant;
use crate::status::Status;
use amqp_driver::PlainRelay;
use amqp_endpoints::Renewal;
use amqp_session::{LinkRelay, OutputHandle, keys};
use amqp_types::Attach;

impl Occupant {
    /// Attaches a link whose handle is allotted to this name, or, where it is empty, to that of the Attach, by
    /// [`SessionEndpoint::attach_under`](amqp_endpoints::SessionEndpoint::attach_under). Its handle.
    ///
    /// # Errors
    /// `NoMemory`; or `Refused`, with the name of the refusal: `NoLink` or `InUse`, or that of the request.
    pub fn attach(
        &mut self,
        session: u32,
        name: &str,
        attach: Attach,
        renewal: Option<Renewal>,
    ) -> Result<OutputHandle, Status>
        ensures { AttachesLinkOf ⟦<PlainRelay as LinkRelay>⟧.gives session name.now attach renewal self.old result self.new }
    {
        match self.provide(session) {
            Ok(()) => self.attach_on(session, name, attach, renewal),
            Err(_) => {
                drop(attach);
                Err(Status::NoMemory)
            }
        }
    }

    /// The same, of a session that has links.
    fn attach_on(
        &mut self,
        session: u32,
        name: &str,
        attach: Attach,
        renewal: Option<Renewal>,
    ) -> Result<OutputHandle, Status>
        ensures { AttachesOn ⟦<PlainRelay as LinkRelay>⟧.gives session name.now attach renewal self.old result self.new }
    {
        let hint = self.hints.of(session);
        let Some(links) = keys::get_mut(&mut self.links, hint, &session) else {
            drop(attach);
            return Err(Status::Nothing);
        };
        self.client.attach(links, name, attach, renewal)
    }
}
