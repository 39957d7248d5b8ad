//! Frames of a session: a channel and a performative (AMQP 1.0 part 2, section 2.3).

ghost use Rattle.std.specs.Prelude.{◌≡◌};

use amqp_types::{Attach, Begin, Detach, Disposition, End, Flow, Transfer};
use bytes::Bytes;
use std::fmt;

/// A frame that a session sends or gets: a channel, a performative, and the payload of a transfer.
#[derive(Debug, Drop, PartialEq)]
pub struct SessionFrame {
    /// The channel: 0 to 65535.
    pub channel: u16,
    /// The performative.
    pub body: SessionFrameBody,
}

/// The performative of a session's frame, with the payload of a transfer.
#[derive(Drop, PartialEq)]
pub enum SessionFrameBody {
    /// A link is attached (AMQP 1.0 part 2, section 2.7.3).
    Attach(Attach),
    /// Numbers and windows of the session, and credit of a link (section 2.7.4).
    Flow(Flow),
    /// A delivery, or a part of one (section 2.7.5).
    Transfer {
        /// The performative of the transfer.
        performative: Transfer,
        /// The message, or the part of it that this transfer carries. It is moved or shared, never copied.
        payload: Bytes,
    },
    /// The state of deliveries (section 2.7.6).
    Disposition(Disposition),
    /// A link is detached (section 2.7.7).
    Detach(Detach),
    /// The session is begun (section 2.7.2).
    Begin(Begin),
    /// The session is ended (section 2.7.8).
    End(End),
}

/// What a call of a session hands out, to be sent in order.
///
/// ```
/// match session.on_incoming_flow(flow)? {
///     None => {}                                             // nothing goes out
///     Some(SessionOutgoingItem::SingleFrame(frame)) => send(frame),
///     Some(SessionOutgoingItem::MultipleFrames(frames)) => send_all(frames),
/// }
/// ```
#[derive(Debug, Drop, PartialEq)]
pub enum SessionOutgoingItem {
    /// One frame.
    SingleFrame(SessionFrame),
    /// At least one frame, in the order in which they are to be sent.
    MultipleFrames(Vec<SessionFrame>),
}

impl fmt::Debug for SessionFrameBody {
    fn fmt<W: fmt::Write>(&self, f: &mut fmt::Formatter<W>) -> fmt::Result {
        match self {
            SessionFrameBody::Attach(p) => write!(f, "Attach({p:?})"),
            SessionFrameBody::Flow(p) => write!(f, "Flow({p:?})"),
            SessionFrameBody::Transfer {
                performative,
                payload,
            } => {
                let len = payload.len();
                write!(
                    f,
                    "Transfer {{ performative: {performative:?}, payload.len: {len} }}"
                )
            }
            SessionFrameBody::Disposition(p) => write!(f, "Disposition({p:?})"),
            SessionFrameBody::Detach(p) => write!(f, "Detach({p:?})"),
            SessionFrameBody::Begin(p) => write!(f, "Begin({p:?})"),
            SessionFrameBody::End(p) => write!(f, "End({p:?})"),
        }
    }
}

impl SessionFrame {
    /// The frame of these parts.
    pub fn new(channel: u16, body: SessionFrameBody) -> SessionFrame
        ensures { result ≡ record { channel = channel; body = body } }
    {
        SessionFrame { channel, body }
    }
}
