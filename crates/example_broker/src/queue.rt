//! The queue: the messages that wait, and those that are sent and not settled.

use crate::message::Message;
use std::alloc::{AllocError, Global};
use std::collections::BTreeMap;
use std::io;

/// How many messages may be sent and not settled, and how many may have come and not be settled.
pub const MOST_UNSETTLED: usize = 2048;

/// How many messages wait before senders get no more credit.
const MOST_WAITING: usize = 16384;

/// How many bytes of memory messages may take, about: those that wait, those that are sent and not settled, and those that are coming. A
/// message that finds no room is released.
const MOST_BYTES: usize = 67108864;

/// The messages, by their numbers: in the order in which they began to come.
#[derive(Drop)]
pub struct Queue {
    alloc: Global,
    waiting: BTreeMap<u64, Message>,
    sent: BTreeMap<u64, Message>,
    /// How many have begun to come.
    begun: u64,
    /// How many bytes of memory all messages take, about.
    held: usize,
}

impl Queue {
    /// Without messages.
    pub fn new(alloc: Global) -> Queue {
        Queue {
            alloc,
            waiting: BTreeMap::new(alloc),
            sent: BTreeMap::new(alloc),
            begun: 0,
            held: 0,
        }
    }

    /// A message begins to come.
    pub fn begin(&mut self) -> Result<Message, AllocError> {
        let message = Message::new(self.alloc, self.begun)?;
        self.begun = self.begun.wrapping_add(1);
        self.held = self.held.saturating_add(message.weight());
        Ok(message)
    }

    /// Puts a part to a message that is coming.
    pub fn grow(&mut self, message: &mut Message, part: &[u8]) -> Result<(), AllocError> {
        self.held = self.held.saturating_sub(message.weight());
        message.push(part)?;
        self.held = self.held.saturating_add(message.weight());
        Ok(())
    }

    /// A message that has come whole waits from now on.
    pub fn keep(&mut self, message: Message) -> io::Result<()> {
        let mut message = message;
        self.held = self.held.saturating_sub(message.weight());
        message.end();
        self.held = self.held.saturating_add(message.weight());
        drop(self.waiting.insert(message.number(), message)?);
        Ok(())
    }

    /// A message that nobody waits for any more.
    pub fn let_go(&mut self, message: Message) {
        self.held = self.held.saturating_sub(message.weight());
        drop(message);
    }

    /// The first message that waits.
    pub fn first(&self) -> Option<&Message> {
        match self.waiting.first_key_value() {
            Some((_, message)) => Some(message),
            None => None,
        }
    }

    /// The first message that waits is sent.
    pub fn send_first(&mut self, is_settled: bool) -> io::Result<()> {
        let Some((number, message)) = self.waiting.pop_first() else {
            return Ok(());
        };
        if is_settled {
            self.let_go(message);
        } else {
            drop(self.sent.insert(number, message)?);
        }
        Ok(())
    }

    /// A message that was sent is settled: it is done with, or goes back to its place in the queue.
    pub fn settle(&mut self, number: u64, is_back: bool) -> io::Result<()> {
        let Some(message) = self.sent.remove(&number) else {
            return Ok(());
        };
        if is_back {
            drop(self.waiting.insert(number, message)?);
        } else {
            self.let_go(message);
        }
        Ok(())
    }

    /// How many messages are sent and not settled.
    pub fn unsettled(&self) -> usize {
        self.sent.len()
    }

    /// How many messages may be sent now.
    pub fn ready(&self) -> u32 {
        if self.sent.len() >= MOST_UNSETTLED {
            return 0;
        }
        u32::try_from(self.waiting.len()).unwrap_or(u32::MAX)
    }

    /// Whether there is no room for more of a message.
    pub fn is_full(&self) -> bool {
        self.held >= MOST_BYTES
    }

    /// Whether senders may get credit.
    pub fn has_room(&self) -> bool {
        !self.is_full() && self.waiting.len() < MOST_WAITING
    }
}
