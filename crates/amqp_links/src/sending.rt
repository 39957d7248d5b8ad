//! The sending end of a link.

ghost use Rattle.std.specs.Prelude.{◌≡◌};
ghost use Rattle.amqp_links.specs.Sending.{new_sending, AttachStep, FlowsStep, SendsStep, AnswerStep, DetachStep, EndsStep};
ghost use Rattle.amqp_links.specs.Sending.{having_sent, is_ready, is_too_large, left_under_way, may_begin, prepared_send, size_with};

use crate::life::{Life, LinkEnd, attached, detached, end_of};
use amqp_credit::{PartEnd, SenderCredit};
use std::marker::Model;

/// What a flow of the receiver says of its link (AMQP 1.0 part 2, section 2.7.4).
#[derive(Clone, Copy, Debug, PartialEq, Eq)]
pub struct CreditFlow {
    /// Its `delivery-count`.
    pub delivery_count: Option<u32>,
    /// Its `link-credit`.
    pub link_credit: Option<u32>,
    /// Its `drain`; false where it is not set.
    pub drain: bool,
    /// Its `echo`; false where it is not set.
    pub echo: bool,
}

/// What a flow of the sender says of its link (section 2.7.4).
#[derive(Clone, Copy, Debug, PartialEq, Eq)]
#[must_use]
pub struct SenderFlow {
    /// The flow's `delivery-count`.
    pub delivery_count: u32,
    /// The flow's `link-credit`.
    pub link_credit: u32,
    /// The flow's `available`: how many messages are ready.
    pub available: u32,
    /// The flow's `drain`: as the receiver said it last.
    pub drain: bool,
}

/// Why nothing was sent. Nothing changes then.
#[derive(Clone, Copy, Debug, PartialEq, Eq)]
pub enum SendError {
    /// The link is not attached on both sides.
    NotAttached,
    /// The delivery would have more bytes than the receiver's `max-message-size` allows.
    TooLarge,
    /// No delivery is under way that could be aborted.
    NoneUnderWay,
    /// The credit is 0: no delivery may be begun.
    NoCredit,
}

/// A transfer that the link allows: whether it begins its delivery, and how many bytes are under way after it, if more of it follows.
#[derive(Clone, Copy, Debug)]
pub(crate) struct Sendable {
    pub(crate) is_first: bool,
    pub(crate) under_way: Option<u64>,
}

/// The sending end of one link (AMQP 1.0 part 2, sections 2.6.7 and 2.6.14): whether it is attached, how many deliveries it may begin, and the
/// delivery that is under way. It asks for no memory, and each call takes a few instructions. What is answered is sent by the caller.
///
/// ```
/// let mut link = SendingLink::new(0);                      // an Attach goes out
/// link.on_attach(true, Some(65_536));                      // the peer's comes
/// link.on_flow(flow);                                      // and a flow of it, with credit
/// link.send(payload.len() as u64, PartEnd::Last)?;         // one transfer may go out
/// if let Some(flow) = link.answer(0) { .. }                // where the receiver drains, or asks for an echo: this flow goes out
/// ```
#[derive(Clone, Copy, Debug)]
pub struct SendingLink {
    life: Life,
    credit: SenderCredit,
    limit: Option<u64>,
    under_way: Option<u64>,
    drain: bool,
    echo: bool,
}

impl Model for SendingLink {
    ghost use Rattle.amqp_links.specs.Sending.{SendingView};

    ghost Value = { SendingView };

    ghost view = { λ s. record { life = s.life; credit = s.credit; limit = s.limit; under_way = s.under_way; drain = s.drain; echo = s.echo } };

    ghost inverse = { λ v. record { life = v.life; credit = v.credit; limit = v.limit; under_way = v.under_way; drain = v.drain; echo = v.echo } };
}

impl SendingLink {
    /// The end of a link whose Attach, from this side, has this `initial-delivery-count`. It may send nothing until the peer has attached, and has
    /// given credit.
    pub fn new(initial_delivery_count: u32) -> SendingLink
        ensures { result ≡ new_sending initial_delivery_count }
    {
        SendingLink {
            life: Life::Attaching,
            credit: SenderCredit::new(initial_delivery_count),
            limit: None,
            under_way: None,
            drain: false,
            echo: false,
        }
    }

    /// The peer's Attach has come. It accepts the link where it has a target (section 2.6.3), with this `max-message-size`: `None` and 0 set no limit. Where
    /// the link is not [`Life::Attaching`], nothing changes.
    pub fn on_attach(&mut self, is_accepted: bool, max_message_size: Option<u64>)
        ensures { AttachStep self.old is_accepted max_message_size self.new }
    {
        if self.life == Life::Attaching {
            self.limit = max_message_size;
        }
        self.life = attached(self.life, is_accepted);
    }

    /// A flow of the receiver has come for this link. It gives credit, and may ask for a flow in answer. Where the link is not attached it changes nothing.
    pub fn on_flow(&mut self, flow: CreditFlow)
        ensures { FlowsStep self.old flow self.new }
    {
        if self.life != Life::Attached {
            return;
        }
        self.credit
            .on_flow(flow.delivery_count, flow.link_credit, flow.drain);
        if flow.link_credit.is_some() {
            self.drain = flow.drain;
        }
        self.echo = self.echo || flow.echo;
    }

    /// A transfer is to be sent, with a payload of so many bytes: it begins a delivery, or goes on with the one that is under way. One that begins a
    /// delivery takes one of the credit. `end` says whether the delivery ends with it; the bytes of one that aborts it do not count.
    ///
    /// # Errors
    /// Each [`SendError`] says when, in this order. Nothing changes then.
    #[tactic(auto, using(crate::proofs::PreparingLemmas::sent, crate::proofs::PreparingLemmas::not_sent))]
    pub fn send(&mut self, size: u64, end: PartEnd) -> Result<(), SendError>
        ensures { SendsStep self.old size end result self.new }
    {
        match self.prepare(size, end) {
            Ok(sendable) => {
                self.finish(sendable);
                Ok(())
            }
            Err(error) => Err(error),
        }
    }

    /// What [`SendingLink::send`] answers, before anything has changed, and how the link stands after it.
    #[inline(always)]
    pub(crate) fn prepare(&self, size: u64, end: PartEnd) -> Result<Sendable, SendError>
        ensures { result ≡ prepared_send self.now size end }
    {
        if self.life != Life::Attached {
            return Err(SendError::NotAttached);
        }
        let whole = size_with(self.under_way, size, end);
        if is_too_large(self.limit, whole, end) {
            return Err(SendError::TooLarge);
        }
        let is_first = self.under_way.is_none();
        if is_first {
            self.may_begin(end)?;
        }
        Ok(Sendable {
            is_first,
            under_way: left_under_way(end, whole),
        })
    }

    /// Whether a transfer may begin a delivery: where there is credit, and it aborts none.
    #[inline(always)]
    fn may_begin(&self, end: PartEnd) -> Result<(), SendError>
        ensures { result ≡ may_begin self.now end }
    {
        if matches!(end, PartEnd::Aborted) {
            Err(SendError::NoneUnderWay)
        } else if self.credit.credit() == 0 {
            Err(SendError::NoCredit)
        } else {
            Ok(())
        }
    }

    /// The transfer that was prepared is sent.
    #[inline(always)]
    pub(crate) fn finish(&mut self, sendable: Sendable)
        ensures { self.new ≡ having_sent self.old sendable }
    {
        if sendable.is_first {
            drop(self.credit.send());
        }
        self.under_way = sendable.under_way;
    }

    /// The flow that is to be sent, if one is, where so many messages are ready: the receiver asked for an echo; or it asked to drain, nothing is ready and no
    /// delivery is under way, and some credit is left, which is used up then (section 2.6.7). `None` where the link is not attached.
    pub fn answer(&mut self, available: u32) -> Option<SenderFlow>
        ensures { AnswerStep self.old available result self.new }
    {
        if self.life != Life::Attached {
            return None;
        }
        let is_drained = is_ready(available, self.under_way) && self.credit.drain_wanted();
        if !is_drained && !self.echo {
            return None;
        }
        if is_drained {
            drop(self.credit.use_up());
        }
        self.echo = false;
        Some(SenderFlow {
            delivery_count: self.credit.delivery_count(),
            link_credit: self.credit.credit(),
            available,
            drain: self.drain,
        })
    }

    /// This side detaches. Nothing more is sent then.
    pub fn detach(&mut self)
        ensures { DetachStep self.old self.new }
    {
        self.life = detached(self.life);
    }

    /// The peer's Detach has come: it answers what that was. The link is over then, and what is under way will not end.
    pub fn on_detach(&mut self) -> LinkEnd
        ensures { EndsStep self.old result self.new }
    {
        let end = end_of(self.life);
        self.life = Life::Detached;
        end
    }

    /// Where the link stands.
    pub fn life(&self) -> Life
        ensures { result ≡ self.now.life }
    {
        self.life
    }

    /// How many deliveries may be begun, once it is attached.
    pub fn credit(&self) -> u32
        ensures { result ≡ self.now.credit.credit }
    {
        self.credit.credit()
    }

    /// The `delivery-count` for a flow of this end.
    pub fn delivery_count(&self) -> u32
        ensures { result ≡ self.now.credit.count }
    {
        self.credit.delivery_count()
    }

    /// How many bytes the delivery that is under way has so far, if one is.
    pub fn under_way(&self) -> Option<u64>
        ensures { result ≡ self.now.under_way }
    {
        self.under_way
    }
}

/// How many bytes the delivery has with a transfer of so many; those of one that aborts it do not count.
fn size_with(under_way: Option<u64>, size: u64, end: PartEnd) -> u64
    ensures { result ≡ size_with under_way size end }
{
    let before = under_way.unwrap_or(0);
    match end {
        PartEnd::Aborted => before,
        PartEnd::More | PartEnd::Last => before.saturating_add(size),
    }
}

/// Whether a delivery has more bytes than the limit; 0 is none. One that is aborted never has.
fn is_too_large(limit: Option<u64>, size: u64, end: PartEnd) -> bool
    ensures { result ≡ is_too_large limit size end }
{
    match (limit, end) {
        (None | Some(0), _) | (_, PartEnd::Aborted) => false,
        (Some(limit), _) => size > limit,
    }
}

/// The delivery that is under way after a transfer.
fn left_under_way(end: PartEnd, size: u64) -> Option<u64>
    ensures { result ≡ left_under_way end size }
{
    match end {
        PartEnd::More => Some(size),
        PartEnd::Last | PartEnd::Aborted => None,
    }
}

/// Whether nothing is left to send, so that credit may be used up.
fn is_ready(available: u32, under_way: Option<u64>) -> bool
    ensures { result ≡ is_ready available under_way }
{
    available == 0 && under_way.is_none()
}
