//! Channels and handles, one type for each direction: where they are mixed up, the code does not compile.

ghost use Rattle.std.specs.Prelude.{◌≡◌};

use amqp_types::Handle;

/// The channel of frames that this side sends for a session (AMQP 1.0 part 2, section 2.3.1). Equality, order and hash
/// are those of the number.
#[derive(Clone, Copy, Debug, PartialEq, Eq, PartialOrd, Ord, Hash)]
pub struct OutgoingChannel(pub u16);

/// The channel of frames that the peer sends for a session (AMQP 1.0 part 2, section 2.3.1). Equality, order and hash are
/// those of the number.
#[derive(Clone, Copy, Debug, PartialEq, Eq, PartialOrd, Ord, Hash)]
pub struct IncomingChannel(pub u16);

/// The handle under which this side names a link in the frames that it sends (AMQP 1.0 part 2, section 2.6.2). Equality,
/// order and hash are those of the number.
#[derive(Clone, Copy, Debug, PartialEq, Eq, PartialOrd, Ord, Hash)]
pub struct OutputHandle(pub u32);

/// The handle under which the peer names a link in the frames that it sends (AMQP 1.0 part 2, section 2.6.2). Equality,
/// order and hash are those of the number.
#[derive(Clone, Copy, Debug, PartialEq, Eq, PartialOrd, Ord, Hash)]
pub struct InputHandle(pub u32);

impl OutgoingChannel {
    /// The channel's number: 0 to 65535. `u16::from` gives the same, where this crate is named in `crates.txt`.
    pub fn number(self) -> u16
        ensures { result ≡ self.0 }
    {
        let OutgoingChannel(number) = self;
        number
    }
}

impl IncomingChannel {
    /// The channel's number: 0 to 65535. `u16::from` gives the same, where this crate is named in `crates.txt`.
    pub fn number(self) -> u16
        ensures { result ≡ self.0 }
    {
        let IncomingChannel(number) = self;
        number
    }
}

impl OutputHandle {
    /// The handle as frames have it. `Handle::from` gives the same, where this crate is named in `crates.txt`.
    pub fn handle(self) -> Handle
        ensures { result ≡ record { 0 = self.0 } }
    {
        let OutputHandle(number) = self;
        Handle(number)
    }
}

impl InputHandle {
    /// The handle as frames have it. `Handle::from` gives the same, where this crate is named in `crates.txt`.
    pub fn handle(self) -> Handle
        ensures { result ≡ record { 0 = self.0 } }
    {
        let InputHandle(number) = self;
        Handle(number)
    }
}

impl From<OutgoingChannel> for u16 {
    ghost from_gives = { λ c n. n ≡ c.0 };

    fn from(channel: OutgoingChannel) -> u16 {
        channel.0
    }
}

impl From<IncomingChannel> for u16 {
    ghost from_gives = { λ c n. n ≡ c.0 };

    fn from(channel: IncomingChannel) -> u16 {
        channel.0
    }
}

impl From<Handle> for OutputHandle {
    ghost from_gives = { λ h o. o ≡ record { 0 = h.0 } };

    fn from(handle: Handle) -> OutputHandle {
        OutputHandle(handle.0)
    }
}

impl From<OutputHandle> for Handle {
    ghost from_gives = { λ o h. h ≡ record { 0 = o.0 } };

    fn from(handle: OutputHandle) -> Handle {
        Handle(handle.0)
    }
}

impl From<Handle> for InputHandle {
    ghost from_gives = { λ h i. i ≡ record { 0 = h.0 } };

    fn from(handle: Handle) -> InputHandle {
        InputHandle(handle.0)
    }
}

impl From<InputHandle> for Handle {
    ghost from_gives = { λ i h. h ≡ record { 0 = i.0 } };

    fn from(handle: InputHandle) -> Handle {
        Handle(handle.0)
    }
}
