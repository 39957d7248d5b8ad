//! What is known of an unsettled delivery, and why one is not taken.

ghost use Rattle.std.specs.Prelude.{◌≡◌};

use crate::numbered::Numbered;

/// An unsettled delivery.
#[derive(Clone, Copy, Debug, PartialEq, Eq)]
pub struct Entry {
    /// Its delivery number, a serial number (AMQP 1.0 part 2, section 2.8.4).
    pub number: u32,
    /// The link that it belongs to, by a number of the caller's. A table keeps a list for each number up to the
    /// highest: so low ones cost least, as the handles of a session.
    pub link: u32,
    /// What the caller gave with it.
    pub given: u64,
}

impl Numbered for Entry {
    ghost number_of = { λ e. e.number };

    #[inline(always)]
    fn number(&self) -> u32 {
        self.number
    }
}

/// Why a delivery is not taken. Nothing has changed then.
#[derive(Clone, Copy, Debug, PartialEq, Eq)]
pub enum InsertError {
    /// Its number does not lie after that of each delivery in the table, by less than 2^31.
    NotNext,
    /// Memory was refused: for the delivery, or for the lists of the links up to its own.
    OutOfMemory,
}
