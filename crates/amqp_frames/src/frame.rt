//! Frames: a channel and a body (AMQP 1.0 part 2, section 2.3).

ghost use Rattle.std.specs.Prelude.{◌≡◌};
ghost use Rattle.amqp_frames.specs.declared.frame.FrameBody.TheVariants.{Empty};

use amqp_types::{Attach, Begin, Close, Detach, Disposition, End, Flow, Open, Transfer};
use bytes::Bytes;
use std::fmt;

/// A frame of AMQP, without its four-byte size and its header's fixed bytes.
///
/// ```
/// let frame = Frame::new(0, FrameBody::Close(Close { error: None }));
/// ```
#[derive(Debug, Drop, PartialEq)]
pub struct Frame {
    /// The channel: 0 to 65535.
    pub channel: u16,
    /// The body.
    pub body: FrameBody,
}

/// The body of a frame: a performative, or nothing (AMQP 1.0 part 2, section 2.3.2).
#[derive(Drop, PartialEq)]
pub enum FrameBody {
    /// Attaches a link (section 2.7.3).
    Attach(Attach),
    /// Tells the windows of a session, and the credit of a link (section 2.7.4).
    Flow(Flow),
    /// Carries a delivery, or a part of one (section 2.7.5), with its payload.
    Transfer {
        /// What the transfer says.
        performative: Transfer,
        /// The message, or the part of it that this transfer carries. A decoded payload shares the received bytes.
        payload: Bytes,
    },
    /// Tells the state of deliveries (section 2.7.6).
    Disposition(Disposition),
    /// Detaches a link (section 2.7.7).
    Detach(Detach),
    /// Begins a session (section 2.7.2).
    Begin(Begin),
    /// Ends a session (section 2.7.8).
    End(End),
    /// Opens a connection (section 2.7.1).
    Open(Open),
    /// Closes a connection (section 2.7.9).
    Close(Close),
    /// No body: the frame only shows that its sender is alive.
    Empty,
}

impl fmt::Debug for FrameBody {
    fn fmt<W: fmt::Write>(&self, f: &mut fmt::Formatter<W>) -> fmt::Result {
        match self {
            FrameBody::Attach(p) => write!(f, "Attach({p:?})"),
            FrameBody::Flow(p) => write!(f, "Flow({p:?})"),
            FrameBody::Transfer {
                performative,
                payload,
            } => {
                let len = payload.len();
                write!(
                    f,
                    "Transfer {{ performative: {performative:?}, payload.len: {len} }}"
                )
            }
            FrameBody::Disposition(p) => write!(f, "Disposition({p:?})"),
            FrameBody::Detach(p) => write!(f, "Detach({p:?})"),
            FrameBody::Begin(p) => write!(f, "Begin({p:?})"),
            FrameBody::End(p) => write!(f, "End({p:?})"),
            FrameBody::Open(p) => write!(f, "Open({p:?})"),
            FrameBody::Close(p) => write!(f, "Close({p:?})"),
            FrameBody::Empty => write!(f, "Empty"),
        }
    }
}

impl Frame {
    /// The frame of these parts.
    pub fn new(channel: u16, body: FrameBody) -> Frame
        ensures { result ≡ record { channel = channel; body = body } }
    {
        Frame { channel, body }
    }

    /// The empty frame on channel 0.
    pub fn empty() -> Frame
        ensures { result ≡ record { channel = 0; body = Empty } }
    {
        Frame::new(0, FrameBody::Empty)
    }

    /// The channel.
    pub fn channel(&self) -> u16
        ensures { result ≡ self.now.channel }
    {
        self.channel
    }

    /// The body.
    pub fn body(&self) -> &FrameBody
        ensures { result.now ≡ self.now.body }
    {
        &self.body
    }

    /// The body, moved out.
    pub fn into_body(self) -> FrameBody
        ensures { result ≡ self.body }
    {
        self.body
    }
}
