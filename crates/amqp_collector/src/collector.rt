//! What has come of the delivery that is under way on a link.

ghost use Rattle.std.specs.Prelude.{◌≡◌, ◌+◌, ◌≤◌, ◌^◌, false, length, nat_le, true};
ghost use Rattle.amqp_collector.specs.Collector.{Appends, Collects, Ends, Keeps, begun, new_collector, without};

use amqp_links::{Part, PartEnd};
use amqp_memory::{frozen_front, more_in_buffer};
use bytes::{Bytes, BytesMut};
use std::alloc::{AllocError, Global};
use std::marker::Model;

/// Why the payload of a part is not collected.
#[derive(Clone, Copy, Debug, PartialEq, Eq)]
pub enum CollectError {
    /// The delivery has more bytes than are held. What was held of it is let go, and the rest of its parts is passed
    /// over.
    TooLarge,
    /// Memory was refused. What was held is held still, and the part may be told again.
    OutOfMemory,
}

/// The payloads of the deliveries that come on one link, whose parts are put together. A delivery of one part is handed
/// on as it came, and copied nowhere. Of others it holds at most as many bytes as it was made for, and nothing once
/// they have ended.
#[derive(Drop)]
pub struct Collector {
    alloc: Global,
    most: u32,
    held: BytesMut,
    is_lost: bool,
}

impl Model for Collector {
    ghost use Rattle.amqp_collector.specs.Collector.{CollectorView};

    ghost Value = { CollectorView };

    ghost view = { λ c. record { most = c.most; held = c.held.items; lost = c.is_lost } };
}

impl Collector {
    /// A collector that holds so many bytes at most. It asks for no memory.
    pub fn new(alloc: Global, most: u32) -> Collector
        ensures { result ≡ new_collector most }
    {
        Collector {
            alloc,
            most,
            held: BytesMut::new(alloc),
            is_lost: false,
        }
    }

    /// A part of a delivery has come, with this payload. It answers the payload of the whole delivery where the part is
    /// its last one. `None` where more parts come, the delivery is aborted, or an earlier part of it was too much. A
    /// part that begins a delivery has what was held of another one let go, which did not end. `part` is what a link
    /// tells of the transfer: [`ReceivedPart::part`](amqp_links::ReceivedPart::part).
    ///
    /// # Errors
    /// Each [`CollectError`] says when.
    pub fn collect(&mut self, part: Part, payload: Bytes) -> Result<Option<Bytes>, CollectError>
        ensures { Collects self.old part payload result self.new }
    {
        if part.is_first {
            self.begin();
        }
        match part.end {
            PartEnd::More => self.keep(payload),
            PartEnd::Last => self.end(payload),
            PartEnd::Aborted => {
                drop(payload);
                self.begin();
                Ok(None)
            }
        }
    }

    /// How many bytes it holds of a delivery that is under way.
    pub fn held(&self) -> usize
        ensures { result ≡ length self.now.held }
    {
        self.held.len()
    }

    /// Nothing is held.
    fn begin(&mut self)
        ensures { self.new ≡ begun self.old }
    {
        self.held = BytesMut::new(self.alloc);
        self.is_lost = false;
    }

    /// What was held is let go, and the rest of the delivery is passed over.
    fn lose(&mut self)
        ensures { self.new ≡ without self.old }
    {
        self.held = BytesMut::new(self.alloc);
        self.is_lost = true;
    }

    /// Whether a payload may be held beside what is.
    fn fits(&self, payload: &Bytes) -> bool
        ensures is { result ≡ nat_le (length self.now.held + length payload.now) self.now.most }
        ensures small { result ≡ true → length payload.now ≤ 2 ^ 34 }
    {
        let most = self.most as usize;
        self.held.len() <= most && payload.len() <= most - self.held.len()
    }

    /// A payload stands behind what is held. Nothing changes where memory is refused.
    fn append(&mut self, payload: &Bytes) -> Result<(), AllocError>
        requires small { length payload.now ≤ 2 ^ 34 }
        ensures { Appends self.old payload.now result self.new }
    {
        match more_in_buffer(&mut self.held, payload.len()) {
            Ok(()) => {
                self.held.extend_reserved(&payload[..]);
                Ok(())
            }
            Err(error) => Err(error),
        }
    }

    /// A part has come, and more of its delivery follows.
    fn keep(&mut self, payload: Bytes) -> Result<Option<Bytes>, CollectError>
        ensures { Keeps self.old payload result self.new }
    {
        if self.is_lost {
            drop(payload);
            return Ok(None);
        }
        if !self.fits(&payload) {
            drop(payload);
            self.lose();
            return Err(CollectError::TooLarge);
        }
        let appended = self.append(&payload);
        drop(payload);
        match appended {
            Ok(()) => Ok(None),
            Err(_) => Err(CollectError::OutOfMemory),
        }
    }

    /// The last part has come.
    fn end(&mut self, payload: Bytes) -> Result<Option<Bytes>, CollectError>
        ensures { Ends self.old payload result self.new }
    {
        if self.is_lost {
            drop(payload);
            self.begin();
            return Ok(None);
        }
        if !self.fits(&payload) {
            drop(payload);
            self.begin();
            return Err(CollectError::TooLarge);
        }
        if self.held.is_empty() {
            return Ok(Some(payload));
        }
        self.end_held(payload)
    }

    /// The last part has come of a delivery of which bytes are held.
    fn end_held(&mut self, payload: Bytes) -> Result<Option<Bytes>, CollectError>
        requires fits { nat_le (length self.old.held + length payload) self.old.most ≡ true }
        requires small { length payload ≤ 2 ^ 34 }
        requires there { self.old.lost ≡ false }
        ensures { Ends self.old payload result self.new }
    {
        let before = self.held.len();
        let appended = self.append(&payload);
        drop(payload);
        let Ok(()) = appended else {
            return Err(CollectError::OutOfMemory);
        };
        let whole = self.held.len();
        match frozen_front(&mut self.held, whole) {
            Ok(bytes) => {
                self.begin();
                Ok(Some(bytes))
            }
            Err(_) => {
                self.held.truncate(before);
                Err(CollectError::OutOfMemory)
            }
        }
    }
}
