//! What an endpoint keeps of each link beside its end.

ghost use Rattle.std.specs.Prelude.{◌≡◌, ◌≤◌, ◌<◌, ℕ, max, [], OnOk, OnErr, length, vec_len, vec_capacity};
ghost use Rattle.amqp_memory.specs.Refusal.{SomeRefused};
ghost use Rattle.amqp_endpoints.specs.Places.{PutsPlace, having_sent, no_place, place_at};
ghost use Rattle.amqp_endpoints.specs.Reading.{part_tag};
ghost use Rattle.amqp_endpoints.specs.Telling.{with_tag};

use crate::reading::part_tag;
use amqp_driver::Record;
use amqp_links::PartTag;
use amqp_memory::more_in_vector;
use std::alloc::{AllocError, Global};
use std::marker::Model;

/// What is kept of one link.
#[derive(Clone, Copy, Debug)]
pub(crate) struct LinkPlace {
    /// The number of the delivery that this side began last.
    pub(crate) begun: u32,
    /// Whether a Detach of this side's is still to be sent.
    pub(crate) owes: bool,
    /// Whether that one closes the link for good.
    pub(crate) closes: bool,
    /// Whether the link is listed among those of which a call waits for the peer's window.
    pub(crate) is_listed: bool,
    /// How many bytes the tag has of the delivery that came last.
    pub(crate) tag_size: u16,
    /// That tag, and zeros after it.
    pub(crate) tag: [u8; 32],
    /// How many transfers had been sent in the session with the last one of this link; 0 where it has sent none.
    pub(crate) sent: u64,
}

impl LinkPlace {
    /// Nothing was begun, has come, or is owed.
    pub(crate) fn none() -> LinkPlace
        ensures { result ≡ no_place }
    {
        LinkPlace {
            begun: 0,
            owes: false,
            closes: false,
            is_listed: false,
            tag_size: 0,
            tag: [0; 32],
            sent: 0,
        }
    }
}

/// The places of the links, by their handles.
#[derive(Drop)]
pub(crate) struct Places {
    list: Vec<LinkPlace>,
}

impl Model for Places {
    ghost use Rattle.std.specs.Prelude.{List};
    ghost use Rattle.amqp_endpoints.specs.declared.place.LinkPlace.{LinkPlace};

    ghost Value = { List LinkPlace };

    ghost view = { λ p. p.list.items };
}

impl Places {
    pub(crate) fn new(alloc: Global) -> Places
        ensures { result ≡ [] }
    {
        Places {
            list: Vec::new(alloc),
        }
    }

    /// The place of a handle.
    #[inline(always)]
    pub(crate) fn get(&self, handle: u32) -> LinkPlace
        ensures { result ≡ place_at self.now handle }
    {
        match self.list.get(handle as usize) {
            Some(place) => *place,
            None => LinkPlace::none(),
        }
    }

    /// Keeps the tag of the delivery that has begun by this record. Where there is no place for the handle, nothing changes.
    pub(crate) fn keep_tag(&mut self, handle: u32, told: &Record)
        ensures { PutsPlace self.old handle (with_tag (place_at self.old handle) told.now) self.new }
    {
        if (handle as usize) < self.list.len() {
            let place = &mut self.list[handle as usize];
            place.tag_size = told.tag_size;
            place.tag = told.tag;
        }
    }

    /// Notes that a transfer was sent on the link, of the delivery of this number where it is the first one, with which so many had been sent in the session.
    /// Where there is no place for the handle, nothing changes.
    #[inline(always)]
    pub(crate) fn note_sent(&mut self, handle: u32, number: u32, is_first: bool, sent: u64)
        ensures { PutsPlace self.old handle (having_sent (place_at self.old handle) number is_first sent) self.new }
    {
        if (handle as usize) < self.list.len() {
            let place = &mut self.list[handle as usize];
            if is_first {
                place.begun = number;
            }
            place.sent = sent;
        }
    }

    /// What the tag of a Transfer is beside the one that is kept, which is looked at where it stands.
    #[inline(always)]
    pub(crate) fn part_tag(&self, handle: u32, told: &Record) -> PartTag
        ensures { result ≡ part_tag (place_at self.now handle) told.now }
    {
        match self.list.get(handle as usize) {
            Some(place) => part_tag(place, told),
            None => part_tag(&LinkPlace::none(), told),
        }
    }

    /// Changes the place of a handle. Where there is none, nothing changes.
    #[inline(always)]
    pub(crate) fn put(&mut self, handle: u32, place: LinkPlace)
        ensures { PutsPlace self.old handle place self.new }
    {
        if (handle as usize) < self.list.len() {
            self.list[handle as usize] = place;
        }
    }

    /// Makes a place for this handle, where there is none. Nothing changes where memory is refused.
    pub(crate) fn make_room(&mut self, handle: u32) -> Result<(), AllocError>
        ensures same { (k : ℕ) → place_at self.new k ≡ place_at self.old k }
        ensures ok { OnOk result (handle < length self.new) }
        ensures err { OnErr result (self.new ≡ self.old) }
        ensures refused { OnErr result SomeRefused }
    {
        let at = handle as usize;
        if at < self.list.len() {
            return Ok(());
        }
        let lacking = at + 1 - self.list.len();
        more_in_vector(&mut self.list, lacking)?;
        fill_up(&mut self.list, at + 1);
        Ok(())
    }
}

/// Makes empty places, up to so many.
fn fill_up(list: &mut Vec<LinkPlace>, count: usize)
    requires room { count ≤ vec_capacity list.old }
    ensures same { (k : ℕ) → place_at list.new.items k ≡ place_at list.old.items k }
    ensures len { vec_len list.new ≡ max (vec_len list.old) count }
    ensures capacity { vec_capacity list.new ≡ vec_capacity list.old }
{
    while list.len() < count {
        list.push_reserved(LinkPlace::none());
    }
}
