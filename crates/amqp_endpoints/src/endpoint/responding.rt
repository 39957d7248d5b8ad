//! What a link owes for what came, and sends.

ghost use Rattle.std.specs.Prelude.{◌≡◌};
ghost use Rattle.amqp_links.specs.declared.session.granting.FlowWish.TheVariants.{Renew};
ghost use Rattle.amqp_endpoints.specs.Flowing.{AsksEnd, EndsFor, Pays, Releases, SaysFlow};
ghost use Rattle.amqp_endpoints.specs.Forgetting.{EndsAfter, Forgets, PassesAfter, RenewsAfter, settled_number};
ghost use Rattle.amqp_endpoints.specs.Places.{place_at};
ghost use Rattle.amqp_endpoints.specs.Responding.{Responds};

use super::SessionEndpoint;
use crate::event::{LinkAnswer, LinkEvent};
use crate::flows::fault_error;
use amqp_driver::{Asked, Stream};
use amqp_links::{FlowWish, LinkFault, ReceivedPart};
use amqp_session::LinkRelay;
use amqp_types::Role;

/// The number of the delivery that a part settles or aborts, where it was unsettled.
fn settled_number(told: ReceivedPart) -> Option<u32>
    ensures { result ≡ settled_number told }
{
    match told.settled {
        Some(_) => Some(told.part.number),
        None => None,
    }
}

impl SessionEndpoint {
    /// Sends what a link owes for an event that [`SessionEndpoint::on_record`] told, if it owes anything: a flow, where credit is to be renewed or the peer asked for
    /// one; or a Detach, in answer to the peer's, or for what the peer may not do, with the condition of [`LinkFault::condition`]. `available` is how many
    /// messages are ready to be sent on the link. Of what is settled by the relay's answer, or by a later part, and of what is passed over, the session lets its
    /// own records go.
    ///
    /// Where the answer is [`Asked::NoMemory`] it may be called again. Where it is [`LinkAnswer::HeldBack`] the link still owes it, and
    /// [`SessionEndpoint::due_next`] tells when it is to be called again, with [`LinkEvent::Due`].
    pub fn respond<R: LinkRelay>(
        &mut self,
        stream: &mut Stream<R>,
        event: &LinkEvent,
        available: u32,
    ) -> LinkAnswer
        ensures { Responds R.gives self.old stream.old event.now available result stream.new self.new }
    {
        match *event {
            LinkEvent::Attached { handle, life: _ } => self.renew(stream, handle),
            LinkEvent::Part { handle, part } => {
                self.after_part(stream, handle, settled_number(part))
            }
            LinkEvent::Flow { handle, used: _ } => {
                self.say(stream, handle, FlowWish::Answer(available))
            }
            LinkEvent::Fault {
                handle,
                fault,
                number,
            } => self.after_fault(stream, handle, fault, number),
            LinkEvent::PassedOver { handle: _, number } => self.after_passing(stream, number),
            LinkEvent::Ended {
                handle,
                end: _,
                closed,
            } => self.detach(stream, handle, closed, None),
            LinkEvent::Due { handle } => self.pay(stream, handle, available),
            LinkEvent::Settled {
                role,
                first,
                last,
                by_peer,
            } => self.release(stream, role, first, last, by_peer),
            LinkEvent::Nothing => LinkAnswer::NotWanted,
        }
    }

    /// A link sends what it owes the peer: a Detach, where one is to be sent; else a flow in answer.
    fn pay<R: LinkRelay>(
        &mut self,
        stream: &mut Stream<R>,
        handle: u32,
        available: u32,
    ) -> LinkAnswer
        ensures { Pays (place_at self.old.places handle).owes R.gives self.old stream.old handle available result stream.new self.new }
    {
        let place = self.places.get(handle);
        if place.owes {
            self.detach(stream, handle, place.closes, None)
        } else {
            self.say(stream, handle, FlowWish::Answer(available))
        }
    }

    /// The session lets the delivery that has come with this number go, where there is one. Whether memory was there for it.
    fn forget<R: LinkRelay>(&self, stream: &mut Stream<R>, number: Option<u32>) -> bool
        ensures { Forgets number R.gives self.now stream.old result stream.new }
    {
        match number {
            Some(number) => self.let_one_go(stream, Role::Receiver, number),
            None => true,
        }
    }

    /// A part has come, which settles the delivery of this number, or none.
    fn after_part<R: LinkRelay>(
        &mut self,
        stream: &mut Stream<R>,
        handle: u32,
        number: Option<u32>,
    ) -> LinkAnswer
        ensures { RenewsAfter number R.gives self.old stream.old handle result stream.new self.new }
    {
        if self.forget(stream, number) {
            self.renew(stream, handle)
        } else {
            LinkAnswer::Asked(Asked::NoMemory)
        }
    }

    /// The peer did what it may not do, by a transfer of the delivery of this number, or by a flow.
    fn after_fault<R: LinkRelay>(
        &mut self,
        stream: &mut Stream<R>,
        handle: u32,
        fault: LinkFault,
        number: Option<u32>,
    ) -> LinkAnswer
        ensures { EndsAfter number R.gives self.old stream.old handle fault result stream.new self.new }
    {
        if self.forget(stream, number) {
            self.end_for(stream, handle, fault)
        } else {
            LinkAnswer::Asked(Asked::NoMemory)
        }
    }

    /// A transfer of the delivery of this number, or of one that it does not name, was passed over.
    fn after_passing<R: LinkRelay>(&self, stream: &mut Stream<R>, number: Option<u32>) -> LinkAnswer
        ensures { PassesAfter number R.gives self.now stream.old result stream.new }
    {
        if self.forget(stream, number) {
            LinkAnswer::NotWanted
        } else {
            LinkAnswer::Asked(Asked::NoMemory)
        }
    }

    /// The session lets deliveries go that this side's relay has settled. What the peer has settled is gone.
    fn release<R: LinkRelay>(
        &self,
        stream: &mut Stream<R>,
        role: Role,
        first: u32,
        last: u32,
        by_peer: bool,
    ) -> LinkAnswer
        ensures { Releases by_peer R.gives self.now stream.old role first last result stream.new }
    {
        if by_peer {
            LinkAnswer::NotWanted
        } else {
            LinkAnswer::Asked(self.let_go(stream, role, first, last))
        }
    }

    /// A flow that renews a link's credit is sent, if one is due. That is looked at first, since mostly none is.
    #[tactic(auto, using(amqp_links::proofs::DueLemmas::none_prepared))]
    fn renew<R: LinkRelay>(&mut self, stream: &mut Stream<R>, handle: u32) -> LinkAnswer
        ensures { SaysFlow R.gives self.old stream.old handle Renew result stream.new self.new }
    {
        if self.links.is_renewal_due(handle) {
            self.say(stream, handle, FlowWish::Renew)
        } else {
            LinkAnswer::NotWanted
        }
    }

    /// Ends a link for a fault, where this side has not detached it. The text of the error is made then alone.
    fn end_for<R: LinkRelay>(
        &mut self,
        stream: &mut Stream<R>,
        handle: u32,
        fault: LinkFault,
    ) -> LinkAnswer
        ensures { EndsFor R.gives self.old stream.old handle fault result stream.new self.new }
    {
        match self.awaits(handle) {
            Some(waits) => LinkAnswer::Asked(self.ask_end(stream, handle, fault, waits)),
            None => LinkAnswer::NotWanted,
        }
    }

    /// The Detach that ends a link for a fault is requested, with the condition of the fault.
    fn ask_end<R: LinkRelay>(
        &mut self,
        stream: &mut Stream<R>,
        handle: u32,
        fault: LinkFault,
        waits: bool,
    ) -> Asked
        ensures { AsksEnd R.gives self.old stream.old handle fault waits result stream.new self.new }
    {
        match fault_error(self.alloc, fault) {
            Ok(error) => self.ask_detach(stream, handle, true, Some(error), waits),
            Err(_) => Asked::NoMemory,
        }
    }
}
