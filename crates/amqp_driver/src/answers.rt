//! The answers that [`Stream::answer`](crate::Stream::answer) may give: flags, each a power of two. No flag changes its meaning.

/// A Begin of the peer's is answered, a record of [`BEGIN_WANTED`](crate::kind::BEGIN_WANTED).
pub const BEGINS: u16 = 1;

/// An End of the peer's is answered, and its session is let go, a record of [`ENDED`](crate::kind::ENDED).
pub const ENDS: u16 = 2;

/// A Close of the peer's is answered, a record of [`CLOSED`](crate::kind::CLOSED).
pub const CLOSES: u16 = 4;

/// A frame that was refused is answered, a record of [`REFUSED`](crate::kind::REFUSED).
pub const REFUSALS: u16 = 8;

/// All of them.
pub const ALL: u16 = 15;
