//! The receiving end of a link.

ghost use Rattle.std.specs.Prelude.{◌≡◌, Ok};
ghost use Rattle.amqp_links.specs.Receiving.{new_receiving, AttachStep, GrantStep, DrainStep, RenewStep, HeardStep, AnswerStep, is_renewal_due};
ghost use Rattle.amqp_links.specs.Receiving.{TakesStep, DetachStep, EndsStep, condition_of, prepared_part, refusing, with_taken};
ghost use Rattle.amqp_credit.specs.Assembly.{number_in};

use crate::life::{Life, LinkEnd, attached, detached, end_of};
use amqp_credit::{Assembly, Grant, Part, PartError, PartHead, ReceiverCredit, Renewal};
use std::marker::Model;

/// What the sender did that it may not do. The link is to be ended with an error.
#[derive(Clone, Copy, Debug, PartialEq, Eq)]
pub enum LinkFault {
    /// It began a delivery where the credit was 0.
    OverCredit,
    /// Its flow says a count past all that was granted.
    CountPastLimit,
    /// A part of a delivery has no place there, or is too large.
    Part(PartError),
}

impl LinkFault {
    /// The condition of the Detach that ends the link for it (AMQP 1.0 part 2, sections 2.8.15 and 2.8.18).
    pub fn condition(self) -> &'static str
        ensures { result.now ≡ condition_of self }
    {
        match self {
            LinkFault::OverCredit => "amqp:link:transfer-limit-exceeded",
            LinkFault::Part(PartError::TooLarge) => "amqp:link:message-size-exceeded",
            LinkFault::CountPastLimit | LinkFault::Part(_) => "amqp:invalid-field",
        }
    }
}

/// Why a transfer is not told.
#[derive(Clone, Copy, Debug, PartialEq, Eq)]
pub enum TransferError {
    /// The link is not attached on both sides, or this side has detached it: the transfer is to be passed over (section 2.6.6).
    NotAttached,
    /// The sender may not do this. This side detaches, for [`LinkFault::condition`], and tells no transfer of the link any more.
    Fault(LinkFault),
}

/// The receiving end of one link (AMQP 1.0 part 2, sections 2.6.7 and 2.6.14): whether it is attached, how many deliveries may come, and to which
/// delivery each transfer belongs. It asks for no memory, keeps no payload, and each call takes a few instructions. What is answered is sent by the
/// caller. A sender that does what it may not do has its link detached, and nothing more of it is told.
///
/// ```
/// let mut link = ReceivingLink::new(Some(Renewal { low: 50, high: 100 }), Some(65_536));
/// link.on_attach(true, 0);                                 // the peer's Attach comes
/// if let Some(grant) = link.renew() { .. }                 // a flow with a link-credit of 100 goes out
/// let part = link.on_transfer(head)?;                      // a transfer comes: which delivery, its first part, its last one
/// ```
#[derive(Clone, Copy, Debug)]
pub struct ReceivingLink {
    life: Life,
    credit: ReceiverCredit,
    parts: Assembly,
    renewal: Option<Renewal>,
    echo: bool,
}

impl Model for ReceivingLink {
    ghost use Rattle.amqp_links.specs.Receiving.{ReceivingView};

    ghost Value = { ReceivingView };

    ghost view = { λ r. record { life = r.life; credit = r.credit; parts = r.parts; renewal = r.renewal; echo = r.echo } };

    ghost inverse = { λ v. record { life = v.life; credit = v.credit; parts = v.parts; renewal = v.renewal; echo = v.echo } };
}

impl ReceivingLink {
    /// The end of a link whose Attach, from this side, has this `max-message-size`: `None` and 0 set no limit. `renewal` says when credit is renewed; with
    /// `None` it never is by itself. Nothing is granted until the peer has attached.
    pub fn new(renewal: Option<Renewal>, max_message_size: Option<u64>) -> ReceivingLink
        ensures { result ≡ new_receiving renewal max_message_size }
    {
        ReceivingLink {
            life: Life::Attaching,
            credit: ReceiverCredit::new(0, renewal),
            parts: Assembly::new(max_message_size),
            renewal,
            echo: false,
        }
    }

    /// The peer's Attach has come. It accepts the link where it has a source (section 2.6.3), with this `initial-delivery-count`. Where the link is not
    /// [`Life::Attaching`], nothing changes.
    pub fn on_attach(&mut self, is_accepted: bool, initial_delivery_count: u32)
        ensures { AttachStep self.old is_accepted initial_delivery_count self.new }
    {
        if self.life == Life::Attaching {
            self.credit = ReceiverCredit::new(initial_delivery_count, self.renewal);
        }
        self.life = attached(self.life, is_accepted);
    }

    /// From now on the sender may begin so many deliveries more. It answers what to say in a flow; `None` where the link is not attached, and nothing
    /// changes then.
    pub fn grant(&mut self, link_credit: u32) -> Option<Grant>
        ensures { GrantStep self.old link_credit result self.new }
    {
        if self.life != Life::Attached {
            return None;
        }
        Some(self.credit.grant(link_credit))
    }

    /// The sender is asked to send what it has, and to use up the credit that is left then. It answers what to say in a flow; `None` where the link is not
    /// attached, and nothing changes then.
    pub fn drain(&mut self) -> Option<Grant>
        ensures { DrainStep self.old result self.new }
    {
        if self.life != Life::Attached {
            return None;
        }
        Some(self.credit.drain())
    }

    /// Grants what the rule of renewal wants, and answers what to say in a flow. `None` where no flow is wanted, or the link is not attached; nothing
    /// changes then. Call it after each delivery.
    pub fn renew(&mut self) -> Option<Grant>
        ensures { RenewStep self.old result self.new }
    {
        if self.life != Life::Attached {
            return None;
        }
        self.credit.renew()
    }

    /// Whether [`ReceivingLink::renew`] would answer a flow.
    #[inline(always)]
    pub fn is_renewal_due(&self) -> bool
        ensures { result ≡ is_renewal_due self.now }
    {
        self.life == Life::Attached && self.credit.wants_flow().is_some()
    }

    /// A flow of the sender has come for this link, with this `delivery-count`, and perhaps with `echo`. It answers how many of the credit the sender used
    /// up. Where the link is not attached it changes nothing, and 0 were.
    ///
    /// # Errors
    /// [`LinkFault::CountPastLimit`]: this side detaches then.
    pub fn on_flow(&mut self, delivery_count: Option<u32>, echo: bool) -> Result<u32, LinkFault>
        ensures { HeardStep self.old delivery_count echo result self.new }
    {
        if self.life != Life::Attached {
            return Ok(0);
        }
        match self.credit.on_flow(delivery_count) {
            Ok(used) => {
                self.echo = self.echo || echo;
                Ok(used)
            }
            Err(_) => {
                self.life = Life::Detaching;
                Err(LinkFault::CountPastLimit)
            }
        }
    }

    /// What a flow is to say, where the sender asked for an echo, which is answered then. `None` where it did not, or the link is not attached.
    pub fn answer(&mut self) -> Option<Grant>
        ensures { AnswerStep self.old result self.new }
    {
        if self.life != Life::Attached || !self.echo {
            return None;
        }
        self.echo = false;
        Some(self.credit.flow_state())
    }

    /// A transfer has come, and says this of its part. It answers what the part is to its delivery. A part that begins a delivery takes one of the credit.
    ///
    /// # Errors
    /// [`TransferError::NotAttached`], and nothing changes; or [`TransferError::Fault`], and this side detaches: no transfer is told any more.
    #[tactic(auto, using(crate::proofs::TakingLemmas::takes, crate::proofs::TakingLemmas::refuses))]
    pub fn on_transfer(&mut self, head: PartHead) -> Result<Part, TransferError>
        ensures { TakesStep self.old head result self.new }
    {
        match self.prepare(head) {
            Ok(part) => {
                self.finish(head, part);
                Ok(part)
            }
            Err(error) => {
                self.refuse(error);
                Err(error)
            }
        }
    }

    /// What [`ReceivingLink::on_transfer`] answers, before anything has changed: first by the credit, where a delivery begins, and then by the parts before it.
    #[inline(always)]
    pub(crate) fn prepare(&self, head: PartHead) -> Result<Part, TransferError>
        ensures { result ≡ prepared_part self.now head }
    {
        if self.life != Life::Attached {
            return Err(TransferError::NotAttached);
        }
        if self.parts.under_way().is_none() && self.credit.credit() == 0 {
            return Err(TransferError::Fault(LinkFault::OverCredit));
        }
        match self.parts.prepare(head) {
            Ok(part) => Ok(part),
            Err(error) => Err(TransferError::Fault(LinkFault::Part(error))),
        }
    }

    /// The part that was prepared for this head is told: it counts.
    #[inline(always)]
    #[tactic(auto, using(crate::proofs::TakingLemmas::prepares_part))]
    pub(crate) fn finish(&mut self, head: PartHead, part: Part)
        requires prepared { Ok part ≡ prepared_part self.old head }
        ensures { self.new ≡ with_taken self.old head part }
    {
        self.parts.finish(head, part);
        if part.is_first {
            drop(self.credit.on_delivery());
        }
    }

    /// A transfer was refused for this reason: this side detaches for a fault.
    pub(crate) fn refuse(&mut self, error: TransferError)
        ensures { self.new ≡ refusing error self.old }
    {
        if matches!(error, TransferError::Fault(_)) {
            self.life = Life::Detaching;
        }
    }

    /// This side detaches. Nothing is told of the link then but the peer's Detach.
    pub fn detach(&mut self)
        ensures { DetachStep self.old self.new }
    {
        self.life = detached(self.life);
    }

    /// The peer's Detach has come: it answers what that was. The link is over then, and a delivery that is under way will not end.
    pub fn on_detach(&mut self) -> LinkEnd
        ensures { EndsStep self.old result self.new }
    {
        let end = end_of(self.life);
        self.life = Life::Detached;
        end
    }

    /// Where the link stands.
    pub fn life(&self) -> Life
        ensures { result ≡ self.now.life }
    {
        self.life
    }

    /// How many deliveries the sender may still begin.
    pub fn credit(&self) -> u32
        ensures { result ≡ self.now.credit.credit }
    {
        self.credit.credit()
    }

    /// The number of the delivery that is under way, if one is.
    pub fn under_way(&self) -> Option<u32>
        ensures { result ≡ number_in self.now.parts.current }
    {
        self.parts.under_way()
    }
}
