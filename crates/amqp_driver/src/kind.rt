//! The kinds of records, in [`Record::kind`](crate::Record): what a frame was. No number changes its meaning.

/// An Open (AMQP 1.0 part 2, section 2.7.1).
pub const OPENED: u8 = 1;

/// A Begin (section 2.7.2).
pub const BEGUN: u8 = 2;

/// An Attach (section 2.7.3).
pub const ATTACHED: u8 = 3;

/// An Attach whose name no link of this side waits for: it was refused, and `refusal` says so. The owner may attach a link of that name.
pub const ATTACH_WANTED: u8 = 4;

/// A Flow (section 2.7.4).
pub const FLOW: u8 = 5;

/// A Transfer (section 2.7.5).
pub const TRANSFER: u8 = 6;

/// A Disposition (section 2.7.6).
pub const DISPOSITION: u8 = 7;

/// A Detach (section 2.7.7).
pub const DETACHED: u8 = 8;

/// An End (section 2.7.8).
pub const ENDED: u8 = 9;

/// A Close (section 2.7.9).
pub const CLOSED: u8 = 10;

/// A frame that was refused, or bytes that are none: `refusal` says why, and the other fields what it said, where it was read.
pub const REFUSED: u8 = 11;

/// A Begin that answers none, on a channel that leads to no session: the peer begins one (section 2.5.1). It was refused, and `refusal` says so.
/// The owner may answer it, by [`Driver::answer_begin`](crate::Driver::answer_begin).
pub const BEGIN_WANTED: u8 = 12;

/// The peer's header of SASL, before the stream is open (section 2.2; part 5, section 5.3.1). A server's mechanisms wait to be sent.
pub const SASL_HEADER: u8 = 13;

/// The peer's header of AMQP (section 2.2): the stream is open, and frames follow.
pub const AMQP_HEADER: u8 = 14;

/// The mechanisms of a server, which stand in the payload (part 5, section 5.3.3.1). The login of the number `first`, from 0 on, was chosen.
pub const MECHANISM_CHOSEN: u8 = 15;

/// A client asks to be let in (part 5, section 5.3.3.2). The mechanism's name stands at `first` and has `last` bytes; the initial response stands
/// in the payload; the host that it asks for stands at `count` and has `credit` bytes. Where there is no response or no host, its place is
/// [`NONE`](crate::NONE).
pub const LOGIN_ASKED: u8 = 16;

/// A server's challenge, which stands in the payload (part 5, section 5.3.3.3).
pub const CHALLENGED: u8 = 17;

/// A client's response to a challenge, which stands in the payload (part 5, section 5.3.3.4). It asks to be let in.
pub const RESPONDED: u8 = 18;

/// A server's outcome `ok` (part 5, section 5.3.3.5). Its additional data stand in the payload, whose place is [`NONE`](crate::NONE) where there
/// are none.
pub const LOGGED_IN: u8 = 19;

/// The stream is not opened, and is over: `refusal` says why.
///
/// | `refusal` | |
/// |---|---|
/// | 101 | none of this side's logins is among the mechanisms of the server, which stand in the payload |
/// | 102 | the client chose a mechanism that was not offered: its name stands at `first` and has `last` bytes. The outcome `auth` waits to be sent |
/// | 103 | the server's outcome, whose code is `outcome` (1 auth, 2 sys, 3 sys-perm, 4 sys-temp), with its additional data in the payload |
/// | 104 | the header of another protocol, whose id is `first`: 0 AMQP, 2 TLS, 3 SASL |
/// | 105 | eight bytes that are no header of AMQP 1.0 |
/// | 106 | bytes with which no header begins |
/// | 107 | bytes that are no SASL frame |
/// | 108 | a SASL frame that has no place there |
pub const NOT_OPENED: u8 = 20;
