//! Flows of a session's links: credit that comes, and credit that is granted.

ghost use Rattle.std.specs.Prelude.{◌≡◌};
ghost use Rattle.amqp_links.specs.Ends.{end_at};
ghost use Rattle.amqp_links.specs.Granting.{FlowsAt, AnswersAt, GrantsAt, DrainsAt, RenewsAt, of_sender, of_receiver};
ghost use Rattle.amqp_links.specs.PreparingFlow.{FinishesFlow, PreparesFlow, PreparesReceiver, PreparesSender, SaysAt, WishStep, due_at};

use super::SessionLinks;
use crate::end::End;
use crate::receiving::{LinkFault, ReceivingLink};
use crate::sending::{CreditFlow, SenderFlow, SendingLink};
use amqp_credit::Grant;

/// What a flow of this side says of a link (AMQP 1.0 part 2, section 2.7.4).
#[derive(Clone, Copy, Debug, PartialEq, Eq)]
#[must_use]
pub struct LinkFlow {
    /// The flow's `delivery-count`.
    pub delivery_count: u32,
    /// The flow's `link-credit`.
    pub link_credit: u32,
    /// The flow's `available`, which a sender's has.
    pub available: Option<u32>,
    /// The flow's `drain`.
    pub drain: bool,
}

/// What a link is to say in a flow.
#[derive(Clone, Copy, Debug, PartialEq, Eq)]
pub enum FlowWish {
    /// As [`SessionLinks::grant`]: so much credit.
    Grant(u32),
    /// As [`SessionLinks::drain`].
    Drain,
    /// As [`SessionLinks::renew`].
    Renew,
    /// As [`SessionLinks::answer`]: so many messages are ready.
    Answer(u32),
}

/// A flow that is to go out now.
#[derive(Clone, Copy, Debug)]
#[must_use]
pub struct PreparedFlow {
    handle: u32,
    said: LinkFlow,
    end: End,
}

impl SessionLinks {
    /// A flow of the peer's has come for the link that has this handle. To a sending end it gives credit; a receiving end counts what the sender used up,
    /// and answers how many of the credit that were: 0 for a sending end. `None` where no end has the handle. A flow that is wanted in answer comes from
    /// [`SessionLinks::answer`].
    ///
    /// # Errors
    /// [`LinkFault::CountPastLimit`] of a receiving end: this side detaches then.
    pub fn on_flow(&mut self, handle: u32, flow: CreditFlow) -> Option<Result<u32, LinkFault>>
        ensures { FlowsAt (end_at self.old.ends handle) self.old handle flow result self.new }
    {
        match self.end(handle)? {
            End::Sending(link) => {
                let mut link = link;
                link.on_flow(flow);
                self.put(handle, End::Sending(link));
                Some(Ok(0))
            }
            End::Receiving(link) => {
                let mut link = link;
                let used = link.on_flow(flow.delivery_count, flow.echo);
                self.put(handle, End::Receiving(link));
                Some(used)
            }
        }
    }

    /// The flow that is to be sent for the link that has this handle, if one is: the peer asked for an echo; or, of a sending end, where so many messages
    /// are ready, it asked to drain, nothing is ready, no delivery is under way, and some credit is left, which is used up then (section 2.6.7). `None`
    /// where the link is not attached, or no end has the handle.
    pub fn answer(&mut self, handle: u32, available: u32) -> Option<LinkFlow>
        ensures { AnswersAt (end_at self.old.ends handle) self.old handle available result self.new }
    {
        self.say(handle, FlowWish::Answer(available))
    }

    /// From now on the peer may begin so many deliveries more on the link that has this handle. It answers the flow that is to be sent; `None` where no
    /// receiving end has the handle, or it is not attached, and nothing changes then.
    pub fn grant(&mut self, handle: u32, link_credit: u32) -> Option<LinkFlow>
        ensures { GrantsAt (end_at self.old.ends handle) self.old handle link_credit result self.new }
    {
        self.say(handle, FlowWish::Grant(link_credit))
    }

    /// The peer is asked to send what it has, and to use up the credit that is left then. It answers as [`SessionLinks::grant`].
    pub fn drain(&mut self, handle: u32) -> Option<LinkFlow>
        ensures { DrainsAt (end_at self.old.ends handle) self.old handle result self.new }
    {
        self.say(handle, FlowWish::Drain)
    }

    /// Grants what the link's rule of renewal wants, and answers the flow that is to be sent. `None` where none is wanted, no receiving end has the handle,
    /// or it is not attached; nothing changes then. Call it after each delivery.
    pub fn renew(&mut self, handle: u32) -> Option<LinkFlow>
        ensures { RenewsAt (end_at self.old.ends handle) self.old handle result self.new }
    {
        self.say(handle, FlowWish::Renew)
    }

    /// The flow that a link says for this wish.
    fn say(&mut self, handle: u32, wish: FlowWish) -> Option<LinkFlow>
        ensures { SaysAt wish (end_at self.old.ends handle) self.old handle result self.new }
    {
        match self.prepare_flow(handle, wish) {
            Some(prepared) => Some(self.having_said(&prepared)),
            None => None,
        }
    }

    fn having_said(&mut self, prepared: &PreparedFlow) -> LinkFlow
        ensures said { result ≡ prepared.now.said }
        ensures finishes { FinishesFlow (end_at self.old.ends prepared.now.handle) prepared.now self.old self.new }
    {
        self.finish_flow(prepared);
        prepared.said
    }

    /// The first half of the call for this wish, for a caller whose flow may still lack memory: what the link would say, and where it would stand then. `None`
    /// where that call answers `None`. Nothing changes. What is answered is given to [`SessionLinks::finish_flow`] once the flow is on its way, before any
    /// other call.
    pub fn prepare_flow(&self, handle: u32, wish: FlowWish) -> Option<PreparedFlow>
        ensures { PreparesFlow wish (end_at self.now.ends handle) handle result }
    {
        match self.end(handle)? {
            End::Sending(link) => prepare_sender(link, handle, wish),
            End::Receiving(link) => prepare_receiver(link, handle, wish),
        }
    }

    /// Whether a flow is due that renews the credit of the link that has this handle: whether [`SessionLinks::renew`] would answer one, and
    /// [`SessionLinks::prepare_flow`] for [`FlowWish::Renew`]. It costs less than to ask these.
    #[inline(always)]
    pub fn is_renewal_due(&self, handle: u32) -> bool
        ensures { result ≡ due_at (end_at self.now.ends handle) }
    {
        self.ends.is_renewal_due(handle)
    }

    /// The flow that was prepared is on its way: its link stands as after it. Where no end has the handle any more nothing changes.
    pub fn finish_flow(&mut self, prepared: &PreparedFlow)
        ensures { FinishesFlow (end_at self.old.ends prepared.now.handle) prepared.now self.old self.new }
    {
        if self.end(prepared.handle).is_some() {
            self.put(prepared.handle, prepared.end);
        }
    }
}

impl PreparedFlow {
    /// The flow.
    pub fn said(&self) -> LinkFlow
        ensures { result ≡ self.now.said }
    {
        self.said
    }
}

/// What a sending end says.
fn prepare_sender(link: SendingLink, handle: u32, wish: FlowWish) -> Option<PreparedFlow>
    ensures { PreparesSender wish link handle result }
{
    let FlowWish::Answer(available) = wish else {
        return None;
    };
    let mut link = link;
    let told = link.answer(available)?;
    Some(PreparedFlow {
        handle,
        said: of_sender(told),
        end: End::Sending(link),
    })
}

/// What a receiving end says.
fn prepare_receiver(link: ReceivingLink, handle: u32, wish: FlowWish) -> Option<PreparedFlow>
    ensures { PreparesReceiver wish link handle result }
{
    let mut link = link;
    let told = wished(&mut link, wish)?;
    Some(PreparedFlow {
        handle,
        said: of_receiver(told),
        end: End::Receiving(link),
    })
}

fn wished(link: &mut ReceivingLink, wish: FlowWish) -> Option<Grant>
    ensures { WishStep wish link.old result link.new }
{
    match wish {
        FlowWish::Grant(link_credit) => link.grant(link_credit),
        FlowWish::Drain => link.drain(),
        FlowWish::Renew => link.renew(),
        FlowWish::Answer(_) => link.answer(),
    }
}

fn of_sender(flow: SenderFlow) -> LinkFlow
    ensures { result ≡ of_sender flow }
{
    LinkFlow {
        delivery_count: flow.delivery_count,
        link_credit: flow.link_credit,
        available: Some(flow.available),
        drain: flow.drain,
    }
}

fn of_receiver(grant: Grant) -> LinkFlow
    ensures { result ≡ of_receiver grant }
{
    LinkFlow {
        delivery_count: grant.delivery_count,
        link_credit: grant.link_credit,
        available: None,
        drain: grant.drain,
    }
}
