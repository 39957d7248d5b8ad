//! Parts of deliveries that have come.

ghost use Rattle.std.specs.Prelude.{◌≡◌, Ok, Some};
ghost use Rattle.amqp_links.specs.Ends.{end_at};
ghost use Rattle.amqp_links.specs.TakingParts.{TakesAt, NotesOn, prepared_at, with_part};

use super::SessionLinks;
use super::noting::note;
use crate::receiving::TransferError;
use amqp_credit::{Part, PartHead};
use amqp_unsettled::{Entry, InsertError};

/// What a transfer that has come is to its delivery.
#[derive(Clone, Copy, Debug, PartialEq, Eq)]
#[must_use]
pub struct ReceivedPart {
    /// The part.
    pub part: Part,
    /// What was given with the unsettled delivery of this number on this link, where this part settles or aborts it and is not its first one. A peer that uses the
    /// number of an unsettled delivery again, which it may not (AMQP 1.0 part 2, section 2.8.4), settles that one so.
    pub settled: Option<u64>,
}

/// Why a transfer is not told.
#[derive(Clone, Copy, Debug, PartialEq, Eq)]
pub enum TakePartError {
    /// No receiving end has the handle. Nothing has changed.
    NoReceiver,
    /// The link does not allow it. Where it is a [`TransferError::Fault`], this side detaches; else nothing has changed.
    Link(TransferError),
    /// The number of the delivery that begins does not lie after each one that is unsettled, by less than 2^31. Nothing has changed.
    NotNext,
    /// Memory was refused. Nothing has changed.
    OutOfMemory,
}

impl SessionLinks {
    /// A transfer has come for the link that has this handle, and says this of its part. It answers what the part is to its delivery. A delivery is unsettled
    /// from its first part on, unless that is settled: with `given`, which is given back once it is settled or left. A later part that settles or aborts it
    /// gives that back (AMQP 1.0 part 2, sections 2.6.12 to 2.6.14).
    ///
    /// # Errors
    /// Each [`TakePartError`] says when, in this order.
    #[tactic(auto, using(crate::proofs::TakingLemmas::not_there, crate::proofs::TakingLemmas::noted, crate::proofs::TakingLemmas::refused))]
    pub fn on_transfer(
        &mut self,
        handle: u32,
        head: PartHead,
        given: u64,
    ) -> Result<ReceivedPart, TakePartError>
        ensures { TakesAt (end_at self.old.ends handle) self.old handle head given result self.new }
    {
        match self.ends.prepare_part(handle, head) {
            None => Err(TakePartError::NoReceiver),
            Some(Ok(part)) => self.note_on(handle, head, part, given),
            Some(Err(error)) => {
                self.ends.refuse_part(handle, error);
                Err(TakePartError::Link(error))
            }
        }
    }

    /// The end that has the handle has this part, once it is noted.
    #[inline(always)]
    fn note_on(
        &mut self,
        handle: u32,
        head: PartHead,
        part: Part,
        given: u64,
    ) -> Result<ReceivedPart, TakePartError>
        requires prepared { Some (Ok part) ≡ prepared_at (end_at self.old.ends handle) head }
        ensures { NotesOn (with_part (end_at self.old.ends handle) head part) self.old handle part given result self.new }
    {
        let entry = Entry {
            number: part.number,
            link: handle,
            given,
        };
        match note(&mut self.received, part.is_first, part.settled, entry) {
            Ok(settled) => {
                self.ends.finish_part(handle, head, part);
                Ok(ReceivedPart { part, settled })
            }
            Err(InsertError::NotNext) => Err(TakePartError::NotNext),
            Err(InsertError::OutOfMemory) => Err(TakePartError::OutOfMemory),
        }
    }
}
