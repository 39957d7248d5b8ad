//! Parts of deliveries that are sent.

ghost use Rattle.std.specs.Prelude.{◌≡◌};
ghost use Rattle.amqp_links.specs.Ends.{end_at};
ghost use Rattle.amqp_links.specs.Noting.{entry_of};
ghost use Rattle.amqp_links.specs.SendingParts.{SendsAt, settles};
ghost use Rattle.amqp_links.specs.Preparing.{PreparesAt, NotesPrepared, FinishesAt, CancelsSend, opens};

use super::SessionLinks;
use super::noting::settle_own;
use crate::sending::{SendError, Sendable};
use amqp_credit::PartEnd;
use amqp_unsettled::{Entry, InsertError};

/// A transfer that is to be sent: a part of a delivery.
#[derive(Clone, Copy, Debug, PartialEq, Eq)]
pub struct SentPart {
    /// The delivery's number, the same of each part of it: as the session gives it.
    pub number: u32,
    /// How many bytes the payload has.
    pub size: u64,
    /// Whether the delivery ends with it.
    pub end: PartEnd,
    /// The transfer's `settled`.
    pub settled: bool,
    /// What is given back once the delivery is settled, or left. That of the first part counts.
    pub given: u64,
}

/// Why nothing is sent. Nothing has changed then.
#[derive(Clone, Copy, Debug, PartialEq, Eq)]
pub enum SendPartError {
    /// No sending end has the handle.
    NoSender,
    /// The link does not allow it.
    Link(SendError),
    /// The delivery's number does not lie after each one that is unsettled, by less than 2^31.
    NotNext,
    /// Memory was refused.
    OutOfMemory,
}

/// A transfer that the link allows, and whose delivery is unsettled where it begins one: it is to go out now.
#[derive(Clone, Copy, Debug)]
#[must_use]
pub struct PreparedPart {
    handle: u32,
    part: SentPart,
    sendable: Sendable,
}

impl PreparedPart {
    /// The part, as it was prepared.
    pub fn part(&self) -> SentPart
        ensures { result ≡ self.now.part }
    {
        self.part
    }

    /// Whether it begins its delivery.
    pub fn is_first(&self) -> bool
        ensures { result ≡ self.now.sendable.is_first }
    {
        self.sendable.is_first
    }

    /// Whether its delivery is unsettled from it on.
    fn opens(&self) -> bool
        ensures { result ≡ opens self.now.sendable.is_first self.now.part }
    {
        self.sendable.is_first && !self.part.settles()
    }
}

impl SessionLinks {
    /// A transfer is to be sent on the link that has this handle: it begins a delivery, which takes one of the credit, or goes on with the one that is under
    /// way. A delivery is unsettled from its first part on, unless that is settled. A later part that is settled, or aborts the delivery, settles it: what was
    /// given with it is answered then (AMQP 1.0 part 2, sections 2.6.12 to 2.6.14).
    ///
    /// # Errors
    /// Each [`SendPartError`] says when, in this order.
    pub fn send(&mut self, handle: u32, part: SentPart) -> Result<Option<u64>, SendPartError>
        ensures { SendsAt (end_at self.old.ends handle) self.old handle part result self.new }
    {
        match self.prepare_send(handle, part) {
            Ok(prepared) => Ok(self.finish_send(&prepared)),
            Err(error) => Err(error),
        }
    }

    /// The first half of [`SessionLinks::send`], for a caller whose transfer may still be refused by somebody else, or lack memory: all that can be refused
    /// here is, and all memory is asked for. The link stands as before. What is answered is given to [`SessionLinks::finish_send`] once the transfer is on
    /// its way, or to [`SessionLinks::cancel_send`] where it is not, before any other call.
    ///
    /// # Errors
    /// Those of [`SessionLinks::send`]: nothing has changed then.
    #[tactic(auto, using(crate::proofs::PreparingLemmas::no_sender, crate::proofs::PreparingLemmas::prepared, crate::proofs::PreparingLemmas::not_prepared))]
    pub fn prepare_send(
        &mut self,
        handle: u32,
        part: SentPart,
    ) -> Result<PreparedPart, SendPartError>
        ensures { PreparesAt (end_at self.old.ends handle) self.old handle part result self.new }
    {
        match self.ends.prepare_send(handle, part.size, part.end) {
            None => Err(SendPartError::NoSender),
            Some(Ok(sendable)) => self.note_prepared(PreparedPart {
                handle,
                part,
                sendable,
            }),
            Some(Err(error)) => Err(SendPartError::Link(error)),
        }
    }

    /// Its delivery is unsettled, where it begins one that is not settled.
    fn note_prepared(&mut self, prepared: PreparedPart) -> Result<PreparedPart, SendPartError>
        ensures { NotesPrepared prepared self.old result self.new }
    {
        if !prepared.opens() {
            return Ok(prepared);
        }
        match self.sent.insert(prepared.part.entry(prepared.handle)) {
            Ok(()) => Ok(prepared),
            Err(InsertError::NotNext) => Err(SendPartError::NotNext),
            Err(InsertError::OutOfMemory) => Err(SendPartError::OutOfMemory),
        }
    }

    /// The transfer that was prepared is on its way: its link stands as after it. It answers as [`SessionLinks::send`]. Where no end has the handle any more
    /// nothing changes.
    pub fn finish_send(&mut self, prepared: &PreparedPart) -> Option<u64>
        ensures { FinishesAt (end_at self.old.ends prepared.now.handle) prepared.now self.old result self.new }
    {
        if self.end(prepared.handle).is_none() {
            return None;
        }
        self.ends.finish_send(prepared.handle, prepared.sendable);
        if prepared.sendable.is_first || !prepared.part.settles() {
            return None;
        }
        settle_own(&mut self.sent, prepared.handle, prepared.part.number)
    }

    /// The transfer that was prepared is not sent: all stands as before [`SessionLinks::prepare_send`].
    pub fn cancel_send(&mut self, prepared: &PreparedPart)
        ensures { CancelsSend prepared.now self.old self.new }
    {
        if prepared.opens() {
            drop(self.sent.remove(prepared.part.number));
        }
    }
}

impl SentPart {
    /// Whether it settles its delivery: it says so, or it aborts it.
    fn settles(self) -> bool
        ensures { result ≡ settles self }
    {
        self.settled || matches!(self.end, PartEnd::Aborted)
    }

    /// What is unsettled where it begins a delivery of this link.
    fn entry(self, handle: u32) -> Entry
        ensures { result ≡ entry_of self.number handle self.given }
    {
        Entry {
            number: self.number,
            link: handle,
            given: self.given,
        }
    }
}
