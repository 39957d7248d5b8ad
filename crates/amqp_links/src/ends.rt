//! The ends of a session's links, by their handles.

ghost use Rattle.std.specs.Prelude.{◌≡◌, ◌≢◌, ◌≤◌, ◌<◌, ℕ, max, [], None, Some, Ok, OnOk, OnErr, length, vec_len, vec_capacity};
ghost use Rattle.amqp_memory.specs.Refusal.{SomeRefused};
ghost use Rattle.amqp_links.specs.Ends.{end_at, Puts};
ghost use Rattle.amqp_links.specs.Preparing.{having_sent_on, sendable_on};
ghost use Rattle.amqp_links.specs.PreparingFlow.{due_at};
ghost use Rattle.amqp_links.specs.TakingParts.{prepared_at, refusing_at, with_part};

use crate::end::End;
use crate::receiving::TransferError;
use crate::sending::{SendError, Sendable};
use amqp_credit::{Part, PartEnd, PartHead};
use amqp_memory::more_in_vector;
use std::alloc::{AllocError, Global};
use std::marker::Model;

/// The ends of a session's links, each at the place that its handle is. There are as many places as the highest handle asked for.
#[derive(Drop)]
pub(crate) struct Ends {
    places: Vec<Option<End>>,
}

impl Model for Ends {
    ghost use Rattle.std.specs.Prelude.{List, Option};
    ghost use Rattle.amqp_links.specs.declared.end.End.{End};

    ghost Value = { List (Option End) };

    ghost view = { λ e. e.places.items };
}

impl Ends {
    pub(crate) fn new(alloc: Global) -> Ends
        ensures { result ≡ [] }
    {
        Ends {
            places: Vec::new(alloc),
        }
    }

    /// The end that has this handle.
    #[inline(always)]
    pub(crate) fn get(&self, handle: u32) -> Option<End>
        ensures { result ≡ end_at self.now handle }
    {
        match self.places.get(handle as usize) {
            Some(place) => *place,
            None => None,
        }
    }

    /// Whether the credit of the link that has this handle is to be renewed. The end is looked at where it stands.
    #[inline(always)]
    pub(crate) fn is_renewal_due(&self, handle: u32) -> bool
        ensures { result ≡ due_at (end_at self.now handle) }
    {
        match self.places.get(handle as usize) {
            Some(Some(End::Receiving(link))) => link.is_renewal_due(),
            _ => false,
        }
    }

    /// What a transfer that is to go out on the link of this handle is. `None` where no sending end has it. The end is looked at where it stands.
    #[inline(always)]
    pub(crate) fn prepare_send(
        &self,
        handle: u32,
        size: u64,
        end: PartEnd,
    ) -> Option<Result<Sendable, SendError>>
        ensures { result ≡ sendable_on (end_at self.now handle) size end }
    {
        match self.places.get(handle as usize) {
            Some(Some(End::Sending(link))) => Some(link.prepare(size, end)),
            _ => None,
        }
    }

    /// The transfer that was prepared is sent. The end is changed where it stands.
    #[inline(always)]
    pub(crate) fn finish_send(&mut self, handle: u32, sendable: Sendable)
        ensures { Puts self.old handle (having_sent_on (end_at self.old handle) sendable) self.new }
    {
        if (handle as usize) < self.places.len() {
            send_in(&mut self.places[handle as usize], sendable);
        }
    }

    /// What a part that comes on the link of this handle is. `None` where no receiving end has it. The end is looked at where it stands.
    #[inline(always)]
    pub(crate) fn prepare_part(
        &self,
        handle: u32,
        head: PartHead,
    ) -> Option<Result<Part, TransferError>>
        ensures { result ≡ prepared_at (end_at self.now handle) head }
    {
        match self.places.get(handle as usize) {
            Some(Some(End::Receiving(link))) => Some(link.prepare(head)),
            _ => None,
        }
    }

    /// The part that was prepared is told. The end is changed where it stands.
    #[inline(always)]
    pub(crate) fn finish_part(&mut self, handle: u32, head: PartHead, part: Part)
        requires prepared { Some (Ok part) ≡ prepared_at (end_at self.old handle) head }
        ensures { Puts self.old handle (with_part (end_at self.old handle) head part) self.new }
    {
        if (handle as usize) < self.places.len() {
            finish_in(&mut self.places[handle as usize], head, part);
        }
    }

    /// A transfer was refused on the link of this handle.
    pub(crate) fn refuse_part(&mut self, handle: u32, error: TransferError)
        ensures { Puts self.old handle (refusing_at error (end_at self.old handle)) self.new }
    {
        if (handle as usize) < self.places.len() {
            refuse_in(&mut self.places[handle as usize], error);
        }
    }

    /// Puts an end, or none, in the place of one that is there.
    #[inline(always)]
    pub(crate) fn replace(&mut self, handle: u32, end: Option<End>)
        requires { end_at self.old handle ≢ None }
        ensures { Puts self.old handle end self.new }
    {
        self.places[handle as usize] = end;
    }

    /// Makes a place for this handle, where there is none. Nothing changes where memory is refused.
    pub(crate) fn make_room(&mut self, handle: u32) -> Result<(), AllocError>
        ensures same { (k : ℕ) → end_at self.new k ≡ end_at self.old k }
        ensures ok { OnOk result (handle < length self.new) }
        ensures err { OnErr result (self.new ≡ self.old) }
        ensures lacking { OnErr result (length self.old ≤ handle) }
        ensures refused { OnErr result SomeRefused }
    {
        let at = handle as usize;
        if at < self.places.len() {
            return Ok(());
        }
        let lacking = at + 1 - self.places.len();
        more_in_vector(&mut self.places, lacking)?;
        fill_up(&mut self.places, at + 1);
        Ok(())
    }

    /// Puts an end where none is. Nothing changes where memory is refused, and none is asked for where there is a place.
    pub(crate) fn insert(&mut self, handle: u32, end: End) -> Result<(), AllocError>
        ensures ok { OnOk result (Puts self.old handle (Some end) self.new) }
        ensures err { OnErr result (self.new ≡ self.old) }
        ensures lacking { OnErr result (length self.old ≤ handle) }
        ensures refused { OnErr result SomeRefused }
    {
        self.make_room(handle)?;
        self.places[handle as usize] = Some(end);
        Ok(())
    }
}

/// The transfer that was prepared is sent, by the end that is there.
#[inline(always)]
fn send_in(place: &mut Option<End>, sendable: Sendable)
    ensures { place.new ≡ having_sent_on place.old sendable }
{
    if let Some(End::Sending(link)) = place {
        link.finish(sendable);
    }
}

/// The part that was prepared is told, by the end that is there.
#[inline(always)]
#[tactic(auto, using(crate::proofs::TakingLemmas::told_there))]
fn finish_in(place: &mut Option<End>, head: PartHead, part: Part)
    requires prepared { Some (Ok part) ≡ prepared_at place.old head }
    ensures { place.new ≡ with_part place.old head part }
{
    if let Some(End::Receiving(link)) = place {
        link.finish(head, part);
    }
}

/// A transfer was refused, by the end that is there.
fn refuse_in(place: &mut Option<End>, error: TransferError)
    ensures { place.new ≡ refusing_at error place.old }
{
    if let Some(End::Receiving(link)) = place {
        link.refuse(error);
    }
}

/// Makes places without an end, up to so many.
fn fill_up(places: &mut Vec<Option<End>>, count: usize)
    requires room { count ≤ vec_capacity places.old }
    ensures same { (k : ℕ) → end_at places.new.items k ≡ end_at places.old.items k }
    ensures len { vec_len places.new ≡ max (vec_len places.old) count }
    ensures capacity { vec_capacity places.new ≡ vec_capacity places.old }
{
    while places.len() < count {
        places.push_reserved(None);
    }
}
