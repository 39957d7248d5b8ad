//! A message: its number, which is the tag of its deliveries, and its bytes.

use std::alloc::{AllocError, Global};

/// How many bytes the tag has.
pub const TAG: u16 = 8;

/// How many bytes of memory a message takes beside its own, about.
const BESIDE: usize = 192;

/// A message, as far as it has come.
#[derive(Drop)]
pub struct Message {
    number: u64,
    /// The tag, and then what came: as a delivery is sent.
    bytes: Vec<u8>,
}

impl Message {
    /// A message of which nothing has come.
    pub fn new(alloc: Global, number: u64) -> Result<Message, AllocError> {
        let mut bytes = Vec::new(alloc);
        bytes.extend_from_slice(&number.to_be_bytes())?;
        Ok(Message { number, bytes })
    }

    /// Puts a part behind the others.
    pub fn push(&mut self, part: &[u8]) -> Result<(), AllocError> {
        self.bytes.extend_from_slice(part)
    }

    /// It is whole: it takes no more memory than it has bytes.
    pub fn end(&mut self) {
        self.bytes.shrink_to_fit();
    }

    pub fn number(&self) -> u64 {
        self.number
    }

    /// Its tag, and its own bytes.
    pub fn bytes(&self) -> &[u8] {
        self.bytes.as_slice()
    }

    /// How many bytes of its own it has.
    pub fn size(&self) -> u32 {
        let size = self.bytes.len().saturating_sub(TAG as usize);
        u32::try_from(size).unwrap_or(u32::MAX)
    }

    /// How many bytes of memory it takes, about.
    pub fn weight(&self) -> usize {
        self.bytes.capacity().saturating_add(BESIDE)
    }
}
