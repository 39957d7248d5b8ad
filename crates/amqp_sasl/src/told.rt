//! What an opening tells of each thing that it takes, and why it refuses a call.

use crate::body::{Body, SaslCode};
use crate::frame::FrameFault;
use crate::header::Protocol;
use crate::place::Place;
use thiserror::Error;

/// What [`Opening::take`](crate::Opening::take) took off the front of the received bytes, and what it tells of it.
#[derive(Clone, Copy, Debug, PartialEq, Eq)]
pub struct Taken {
    /// How many bytes were taken: those of one header or of one frame, or none.
    pub len: usize,
    /// What is told. Its places are places of the received bytes.
    pub told: Told,
}

/// What an opening tells. After those that say so it is over: nothing more is taken, and nothing more goes out.
#[derive(Clone, Copy, Debug, PartialEq, Eq)]
pub enum Told {
    /// Nothing was taken: so many bytes are needed in all.
    Wants(usize),
    /// Nothing was taken: a call of this side comes first, `login` or `challenge` of a server, `respond` of a client.
    Waits,
    /// Nothing was taken: the opening is done, or over.
    Ended,
    /// The peer's header of SASL was taken. A server's mechanisms went out.
    Greeted,
    /// The peer's header of AMQP was taken. The opening is done: frames of AMQP follow.
    Opened,
    /// The mechanisms of the server were taken, and sasl-init went out.
    Chosen {
        /// The place among this side's logins of the one that was chosen, from 0 on.
        login: usize,
        /// Where the server's mechanisms stand.
        mechanisms: Place,
    },
    /// None of this side's logins is among the mechanisms of the server, which stand there. It is over.
    NoMechanism(Place),
    /// The client's choice was taken. The next call is `login` or `challenge`.
    LoginAsked {
        /// The mechanism, which is one of those that were offered.
        mechanism: Place,
        /// The initial response, if any.
        response: Option<Place>,
        /// The host that the client asks for, if any.
        hostname: Option<Place>,
    },
    /// The client chose a mechanism that was not offered, whose name stands there. The outcome `auth` went out. It is over.
    NotOffered(Place),
    /// The server's challenge was taken. The next call is `respond`.
    Challenged(Place),
    /// The client's response was taken. The next call is `login` or `challenge`.
    Responded(Place),
    /// The server's outcome `ok` was taken, with its additional data, if any. The header of AMQP went out.
    LoggedIn(Option<Place>),
    /// The server's outcome was taken, and it is not `ok`. It is over.
    Refused {
        /// The outcome.
        code: SaslCode,
        /// Its additional data, if any.
        additional: Option<Place>,
    },
    /// The header of another protocol than the one that was awaited was taken. It is over.
    OtherProtocol(Protocol),
    /// These eight bytes were taken, which are no header. It is over.
    OtherHeader([u8; 8]),
    /// Nothing was taken: no header begins as the received bytes do. It is over.
    NotAmqp,
    /// Nothing was taken: no SASL frame stands there. It is over.
    Malformed(FrameFault),
    /// A frame was taken that has no place there. It is over.
    Unexpected(Body),
}

/// Why an opening refused a call. Nothing changed, and nothing was taken or appended.
#[derive(Clone, Copy, Debug, PartialEq, Eq, Error)]
pub enum OpeningError {
    /// The call has no place there: a `begin` that is not the first one, a `take` before it, or an answer to nothing that was asked.
    #[error("wrong time")]
    WrongTime,
    /// The SASL frame to send would have more than 512 bytes.
    #[error("too large")]
    TooLarge,
    /// Memory was refused.
    #[error("out of memory")]
    OutOfMemory,
}
