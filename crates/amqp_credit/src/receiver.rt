//! The credit of a link, as its receiving end counts it.

ghost use Rattle.std.specs.Prelude.{◌≡◌};
ghost use Rattle.amqp_credit.specs.Receiver.{new_receiver, GrantStep, DrainStep, HeardStep, DeliveryStep, RenewStep};
ghost use Rattle.amqp_credit.specs.Receiver.{wanted, told_by};

use crate::serial::{advanced, is_behind, past};
use std::marker::Model;

/// A delivery was begun where the credit is 0. The caller may end the link, with the error
/// `amqp:link:transfer-limit-exceeded`.
#[derive(Clone, Copy, Debug, PartialEq, Eq)]
pub struct OverCredit;

/// The sender says that it has come to a count past all that was granted. The caller may end the link, with the error
/// `amqp:invalid-field`.
#[derive(Clone, Copy, Debug, PartialEq, Eq)]
pub struct CountPastLimit;

/// When credit is renewed: where fewer than `low` are left, there are to be `high` again. A `low` above `high` counts
/// as `high`.
#[derive(Clone, Copy, Debug, PartialEq, Eq)]
pub struct Renewal {
    /// It is renewed where fewer deliveries than these are left.
    pub low: u32,
    /// The credit after a renewal, in deliveries.
    pub high: u32,
}

/// What a flow of the receiving end says of its link (AMQP 1.0 part 2, section 2.7.4).
#[derive(Clone, Copy, Debug, PartialEq, Eq)]
#[must_use]
pub struct Grant {
    /// The flow's `delivery-count`.
    pub delivery_count: u32,
    /// The flow's `link-credit`.
    pub link_credit: u32,
    /// The flow's `drain`.
    pub drain: bool,
}

/// The credit of a link, as its receiving end counts it (AMQP 1.0 part 2, section 2.6.7): how many deliveries the
/// sender may still begin. It asks for no memory, and each call takes a few instructions. Counts of deliveries are
/// serial numbers, which wrap at 2^32.
///
/// [`ReceiverCredit::grant`], [`ReceiverCredit::renew`] and [`ReceiverCredit::drain`] answer what a flow is to say: the
/// caller sends it. [`ReceiverCredit::on_delivery`] and [`ReceiverCredit::on_flow`] take what comes.
///
/// ```
/// let mut receiver = ReceiverCredit::new(0, Some(Renewal { low: 2, high: 3 }));
/// let grant = receiver.renew();                  // Some: a flow with a link-credit of 3
/// receiver.on_delivery()?;                       // two are left: not fewer than the low mark
/// let grant = receiver.renew();                  // None
/// receiver.on_delivery()?;
/// let grant = receiver.renew();                  // Some: a delivery-count of 2, and a link-credit of 3
/// ```
#[derive(Clone, Copy, Debug)]
pub struct ReceiverCredit {
    count: u32,
    credit: u32,
    draining: bool,
    renewal: Option<Renewal>,
}

impl Model for ReceiverCredit {
    ghost use Rattle.amqp_credit.specs.Receiver.{ReceiverView};

    ghost Value = { ReceiverView };

    ghost view = { λ r. record { count = r.count; credit = r.credit; draining = r.draining; renewal = r.renewal } };

    ghost inverse = { λ v. record { count = v.count; credit = v.credit; draining = v.draining; renewal = v.renewal } };
}

impl ReceiverCredit {
    /// The credit of a link whose Attach, from the sender, has this `initial-delivery-count`. It is 0 until it is
    /// granted. `renewal` says when it is renewed; with `None` it never is by itself.
    pub fn new(initial_delivery_count: u32, renewal: Option<Renewal>) -> ReceiverCredit
        ensures { result ≡ new_receiver initial_delivery_count renewal }
    {
        ReceiverCredit {
            count: initial_delivery_count,
            credit: 0,
            draining: false,
            renewal,
        }
    }

    /// From now on the sender may begin so many deliveries more, whatever was granted before; a drain ends. It answers
    /// what to say in a flow. Where this is less than the credit was, deliveries that are on the way may come past it.
    pub fn grant(&mut self, link_credit: u32) -> Grant
        ensures { GrantStep self.old link_credit result self.new }
    {
        self.credit = link_credit;
        self.draining = false;
        self.flow_state()
    }

    /// The sender is asked to send what it has, and to use up the credit that is left then. It answers what to say in a
    /// flow. Until the next [`ReceiverCredit::grant`] nothing is renewed.
    pub fn drain(&mut self) -> Grant
        ensures { DrainStep self.old result self.new }
    {
        self.draining = true;
        self.flow_state()
    }

    /// A flow of the sender has come for this link, with this `delivery-count`. It answers how many of the credit the
    /// sender used up, as it does where it drains: the count goes on by these, and the credit is fewer by as many. A
    /// flow without a count, or with one that lies behind, changes nothing, and 0 were used up: some senders count a
    /// delivery only as it ends.
    ///
    /// # Errors
    /// [`CountPastLimit`] where the count lies past all that was granted. Nothing changes then.
    pub fn on_flow(&mut self, delivery_count: Option<u32>) -> Result<u32, CountPastLimit>
        ensures { HeardStep self.old delivery_count result self.new }
    {
        let count = delivery_count.unwrap_or(self.count);
        let used = past(count, self.count);
        if used <= self.credit {
            self.count = count;
            self.credit -= used;
            Ok(used)
        } else if is_behind(count, self.count) {
            Ok(0)
        } else {
            Err(CountPastLimit)
        }
    }

    /// A delivery is begun: its first part came, or all of it. It takes one of the credit, and the count goes on by
    /// one.
    ///
    /// # Errors
    /// [`OverCredit`] where the credit is 0. Nothing changes then.
    pub fn on_delivery(&mut self) -> Result<(), OverCredit>
        ensures { DeliveryStep self.old result self.new }
    {
        if self.credit == 0 {
            return Err(OverCredit);
        }
        self.count = advanced(self.count, 1);
        self.credit -= 1;
        Ok(())
    }

    /// The credit that is to be announced, where the rule of renewal wants a flow: the credit has fallen below its
    /// `low`, and the sender is not asked to drain.
    pub fn wants_flow(&self) -> Option<u32>
        ensures { result ≡ wanted self.now }
    {
        if self.draining {
            return None;
        }
        let renewal = self.renewal?;
        if self.credit < renewal.low.min(renewal.high) {
            Some(renewal.high)
        } else {
            None
        }
    }

    /// Grants what [`ReceiverCredit::wants_flow`] says, and answers what to say in a flow. `None` where no flow is
    /// wanted; nothing changes then.
    pub fn renew(&mut self) -> Option<Grant>
        ensures { RenewStep self.old result self.new }
    {
        let high = self.wants_flow()?;
        Some(self.grant(high))
    }

    /// What a flow says of this link now, as for an answer where the sender asks for an `echo`.
    pub fn flow_state(&self) -> Grant
        ensures { result ≡ told_by self.now }
    {
        Grant {
            delivery_count: self.count,
            link_credit: self.credit,
            drain: self.draining,
        }
    }

    /// How many deliveries the sender may still begin.
    pub fn credit(&self) -> u32
        ensures { result ≡ self.now.credit }
    {
        self.credit
    }

    /// The sender's `delivery-count`, as far as this end has seen it: modulo 2^32.
    pub fn delivery_count(&self) -> u32
        ensures { result ≡ self.now.count }
    {
        self.count
    }

    /// Whether the sender was asked to drain, and nothing was granted since.
    pub fn is_draining(&self) -> bool
        ensures { result ≡ self.now.draining }
    {
        self.draining
    }
}
