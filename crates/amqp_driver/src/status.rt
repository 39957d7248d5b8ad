//! What a call took, and why it stopped.

ghost use Rattle.std.specs.Prelude.{◌≡◌};

/// Why a call stopped.
#[derive(Clone, Copy, Debug, PartialEq, Eq)]
pub enum Status {
    /// What is left is no whole frame; of [`Driver::send`](crate::Driver::send): nothing is left.
    Done,
    /// A whole frame is left, or a transfer, and there is no place for what is to be said of it.
    Full,
    /// A size stands there that no frame may have: below 8, or above this side's max-frame-size (AMQP 1.0 part 2, sections 2.3.1 and 2.7.1).
    BadSize,
    /// Memory was refused, and the next frame or transfer was not taken: a later call may take it.
    NoMemory,
    /// Of [`Driver::send`](crate::Driver::send): the bytes end before the tag and the payload of the next transfer do.
    Short,
    /// What was told last comes before the rest: it is to be answered, or what follows is of another layer. Then the rest is given again.
    Again,
    /// Of a stream that is not open: a call of this side is awaited.
    Waits,
    /// The connection is over: nothing is taken any more.
    Over,
    /// Of a stream that is not open: the SASL frame to send would have more than 512 bytes (AMQP 1.0 part 5, section 5.3.1).
    TooLarge,
}

/// What a call took.
#[derive(Clone, Copy, Debug, PartialEq, Eq)]
pub struct Taken {
    /// Why it stopped.
    pub status: Status,
    /// How many bytes were taken: whole frames.
    pub taken: usize,
    /// How many records were written.
    pub written: usize,
    /// Where the status is `Done`: how many bytes the next frame has, those that are there and its size counted, and 4 where its size is not
    /// whole. Else 0.
    pub wanted: usize,
}

/// What a call of [`Driver::send`](crate::Driver::send) took.
#[derive(Clone, Copy, Debug, PartialEq, Eq)]
pub struct Posted {
    /// Why it stopped.
    pub status: Status,
    /// How many transfers were taken: so many of the heads, and so many places of `sent` were written.
    pub taken: usize,
    /// How many of the bytes they have.
    pub used: usize,
}
