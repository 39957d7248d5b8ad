//! The credit of a link, as its sending end counts it.

ghost use Rattle.std.specs.Prelude.{◌≡◌};
ghost use Rattle.amqp_credit.specs.Sender.{new_sender, FlowStep, SendStep, UseUpStep, is_drain_wanted};

use crate::serial::{advanced, past};
use std::marker::Model;

/// The credit is 0: no delivery may be begun until a flow of the receiver gives more.
#[derive(Clone, Copy, Debug, PartialEq, Eq)]
pub struct NoCredit;

/// The credit of a link, as its sending end counts it (AMQP 1.0 part 2, section 2.6.7): how many deliveries it may
/// still begin. It asks for no memory, and each call takes a few instructions. Counts of deliveries are serial numbers,
/// which wrap at 2^32.
///
/// A new one has no credit. [`SenderCredit::on_flow`] takes what the receiver says, and [`SenderCredit::send`] begins a
/// delivery. What the count is goes into each flow that this end sends.
///
/// ```
/// let mut sender = SenderCredit::new(0);
/// sender.on_flow(Some(0), Some(10), true);       // ten deliveries may begin, and the receiver asks to drain
/// sender.send()?;                                // nine are left
/// let used = sender.use_up();                    // 9: nothing more is there to send
/// let count = sender.delivery_count();           // 10, for the flow that answers
/// ```
#[derive(Clone, Copy, Debug)]
pub struct SenderCredit {
    initial: u32,
    count: u32,
    credit: u32,
    drain: bool,
}

impl Model for SenderCredit {
    ghost use Rattle.amqp_credit.specs.Sender.{SenderView};

    ghost Value = { SenderView };

    ghost view = { λ s. record { initial = s.initial; count = s.count; credit = s.credit; drain = s.drain } };

    ghost inverse = { λ v. record { initial = v.initial; count = v.count; credit = v.credit; drain = v.drain } };
}

impl SenderCredit {
    /// The credit of a link whose Attach, from this end, has this `initial-delivery-count`. It is 0 until a flow comes.
    pub fn new(initial_delivery_count: u32) -> SenderCredit
        ensures { result ≡ new_sender initial_delivery_count }
    {
        SenderCredit {
            initial: initial_delivery_count,
            count: initial_delivery_count,
            credit: 0,
            drain: false,
        }
    }

    /// A flow of the receiver has come for this link, with these fields. The credit is then what is left of
    /// `link_credit` from the receiver's count on: what was sent and it has not seen is taken off, and 0 is the least.
    /// `delivery_count` is `None` where the receiver had not seen this end's Attach: it stands for the initial one. A
    /// count that this end has not come to yet is one of a whole turn before. A flow without `link_credit` says
    /// nothing of credit, and changes nothing.
    pub fn on_flow(&mut self, delivery_count: Option<u32>, link_credit: Option<u32>, drain: bool)
        ensures { FlowStep self.old delivery_count link_credit drain self.new }
    {
        if let Some(granted) = link_credit {
            let seen = delivery_count.unwrap_or(self.initial);
            self.credit = granted.saturating_sub(past(self.count, seen));
            self.drain = drain;
        }
    }

    /// One more delivery is begun, whole or its first part: it takes one of the credit, and the count goes on by one.
    ///
    /// # Errors
    /// [`NoCredit`] where the credit is 0. Nothing changes then.
    pub fn send(&mut self) -> Result<(), NoCredit>
        ensures { SendStep self.old result self.new }
    {
        if self.credit == 0 {
            return Err(NoCredit);
        }
        self.count = advanced(self.count, 1);
        self.credit -= 1;
        Ok(())
    }

    /// Uses up the credit that is left where the receiver asked to drain (section 2.6.7): the count goes on by it, and
    /// the credit is 0. It answers how many were used up; 0 where no drain is wanted, and nothing changes then. Call
    /// it where nothing more is there to send, and then send a flow with the new count.
    pub fn use_up(&mut self) -> u32
        ensures { UseUpStep self.old result self.new }
    {
        let used = if self.drain { self.credit } else { 0 };
        self.count = advanced(self.count, used);
        self.credit -= used;
        used
    }

    /// Whether the last flow with a credit asked to drain, and some of the credit is left.
    pub fn drain_wanted(&self) -> bool
        ensures { result ≡ is_drain_wanted self.now }
    {
        self.drain && self.credit > 0
    }

    /// How many deliveries may be begun.
    pub fn credit(&self) -> u32
        ensures { result ≡ self.now.credit }
    {
        self.credit
    }

    /// The `delivery-count` for a flow of this end: the initial one, and one for each delivery that was begun and each
    /// credit that was used up, modulo 2^32.
    pub fn delivery_count(&self) -> u32
        ensures { result ≡ self.now.count }
    {
        self.count
    }
}
