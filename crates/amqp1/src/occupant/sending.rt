//! Transfers that are to be sent on a session's links.

ghost use Rattle.amqp1.specs.LinkCalls.{SendsLink};

use super::Occupant;
use amqp_driver::{PlainRelay, TransferHead};
use amqp_endpoints::{SendFailure, SentDelivery};
use amqp_links::SendPartError;
use amqp_session::{LinkRelay, keys};

impl Occupant {
    /// Sends a transfer on a link of the head's session, by [`SessionEndpoint::send`](amqp_endpoints::SessionEndpoint::send).
    ///
    /// # Errors
    /// Those of that call; and [`SendPartError::NoSender`] where the session has no links.
    pub fn send(
        &mut self,
        head: &TransferHead,
        bytes: &[u8],
        given: u64,
    ) -> Result<SentDelivery, SendFailure>
        ensures { SendsLink ⟦<PlainRelay as LinkRelay>⟧.gives head.now bytes.now given self.old result self.new }
    {
        let hint = self.hints.of(head.session);
        let Some(links) = keys::get_mut(&mut self.links, hint, &head.session) else {
            return Err(SendFailure::Link(SendPartError::NoSender));
        };
        self.client.send_on(links, head, bytes, given)
    }
}
