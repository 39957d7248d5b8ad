//! Links on which the client sends, and the message that is coming on each.

use crate::message::Message;
use crate::queue::Queue;
use amqp_driver::Record;
use amqp_links::{End, Life, Part, PartEnd};
use std::io;

/// A sender gets new credit where fewer messages than these are left of it.
const FEW: u32 = 251;

/// So much credit it has then. No link has a rule by which it renews its credit itself: that would not look whether the queue has room.
pub const CREDIT: u32 = 500;

/// How many bytes a message may have.
pub const MOST_MESSAGE: u64 = 1048576;

/// A link on which the client sends.
#[derive(Drop)]
pub struct Sender {
    /// The session.
    pub session: u32,
    /// This side's handle.
    pub handle: u32,
    /// Whether the client settles first, where a transfer does not say.
    pub is_second: bool,
    /// Whether it does so with the delivery that is coming.
    pub waits: bool,
    /// What is coming, unless it finds no room.
    coming: Option<Message>,
}

impl Sender {
    /// The link of an Attach of the client's.
    pub fn new(record: &Record, handle: u32) -> Sender {
        Sender {
            session: record.session,
            handle,
            is_second: record.available == 1,
            waits: false,
            coming: None,
        }
    }

    /// Takes a part of a message. Where that is whole with it, it answers whether the queue has it: it had no room for it else.
    pub fn take(
        &mut self,
        queue: &mut Queue,
        part: Part,
        payload: &[u8],
    ) -> io::Result<Option<bool>> {
        if part.is_first {
            self.coming = Some(queue.begin()?);
        }
        if queue.is_full() || part.end == PartEnd::Aborted {
            self.drop_coming(queue);
        }
        if let Some(message) = self.coming.as_mut() {
            queue.grow(message, payload)?;
        }
        if part.end != PartEnd::Last {
            return Ok(None);
        }
        match self.coming.take() {
            Some(message) => {
                queue.keep(message)?;
                Ok(Some(true))
            }
            None => Ok(Some(false)),
        }
    }

    /// What is coming is let go.
    pub fn drop_coming(&mut self, queue: &mut Queue) {
        if let Some(message) = self.coming.take() {
            queue.let_go(message);
        }
    }
}

/// Whether a link on which the client sends is to get credit, where there is room: of what it has few messages are left.
pub fn lacks_credit(end: Option<End>) -> bool {
    let Some(end) = end else {
        return false;
    };
    match end {
        End::Receiving(link) => link.life() == Life::Attached && link.credit() < FEW,
        End::Sending(_) => false,
    }
}
