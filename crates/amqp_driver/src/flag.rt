//! The flags of records, in [`Record::flags`](crate::Record): what a frame says besides. No flag changes its meaning.

ghost use Rattle.std.specs.Prelude.{◌≡◌, ◌<◌};
ghost use Rattle.amqp_driver.specs.Heads.{has};

use crate::head::has;

/// Whether a flag is set among those of a record or of a head.
///
/// ```
/// if flag::is_set(record.flags, flag::SETTLED) { .. }
/// ```
pub fn is_set(flags: u16, flag: u16) -> bool
    requires { 0 < flag }
    ensures { result ≡ has flags flag }
{
    has(flags, flag)
}

/// A transfer gives the number of its delivery: it is the first one.
pub const NUMBERED: u16 = 1;

/// A transfer or a disposition is settled.
pub const SETTLED: u16 = 2;

/// More transfers of the delivery follow.
pub const MORE: u16 = 4;

/// The delivery is aborted.
pub const ABORTED: u16 = 8;

/// The role of the peer in an attach or a disposition is that of the receiver.
pub const RECEIVER: u16 = 16;

/// A transfer or a disposition has a state: `outcome` says which.
pub const STATED: u16 = 32;

/// A flow asks that the credit be used up.
pub const DRAIN: u16 = 64;

/// A flow asks for a flow in answer.
pub const ECHO: u16 = 128;

/// A detach, an End or a Close names an error.
pub const WITH_ERROR: u16 = 256;

/// A detach closes the link for good.
pub const FOR_GOOD: u16 = 512;

/// A flow gives a credit, in `credit`.
pub const CREDITED: u16 = 1024;

/// A flow gives the delivery count, and an attach its initial one, in `count`.
pub const COUNTED: u16 = 2048;

/// The frame names a link: by the handle in `input`.
pub const LINKED: u16 = 4096;

/// A transfer gives the format of its message, in `format`.
pub const FORMATTED: u16 = 8192;

/// A transfer gives the tag of its delivery, of `tag_size` bytes.
pub const TAGGED: u16 = 16384;

/// A flow says how many messages are ready, in `available`.
pub const AVAILABLE: u16 = 32768;
