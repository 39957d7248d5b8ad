//! An event: what came for a link, and how the link is named.

ghost use Rattle.std.specs.Prelude.{◌≡◌, Some};
ghost use Rattle.amqp_events.specs.Event.{kind_of, under};

use amqp_session::{InputHandle, LinkFlow, OutputHandle};
use amqp_types::{Attach, DeliveryTag, Detach, Handle, Raw, Role, Transfer};
use bytes::Bytes;

/// The names of a link, as far as its relay knows them (AMQP 1.0 part 2, section 2.6.2).
#[derive(Clone, Copy, Debug, PartialEq, Eq)]
pub struct LinkNames {
    /// The number that the owner gave the session.
    pub session: u32,
    /// The handle in the frames that the peer sends: each of them names it, but for a disposition.
    pub input: Option<InputHandle>,
    /// The handle in the frames that this side sends. A relay gets to know it with a flow and with a detach.
    pub output: Option<OutputHandle>,
}

/// What came for a link, and how the link is named.
///
/// ```
/// let link = event.link;
/// match event.body {
///     EventBody::Attached(attach) => attached(link.input, attach),
///     EventBody::Transfer {
///         performative,
///         payload,
///     } => received(performative, payload),
///     _other => {}
/// }
/// ```
#[derive(Drop)]
pub struct Event {
    /// The link. A transfer that comes after a flow has the output handle too, and so has a disposition; that one has the input handle that
    /// came last.
    pub link: LinkNames,
    /// What came.
    pub body: EventBody,
}

/// What came, by its performative (AMQP 1.0 part 2, section 2.7).
#[derive(Drop)]
pub enum EventBody {
    /// The peer attached the link.
    Attached(Attach),
    /// The link's part of the peer's flow.
    Flow(LinkFlow),
    /// A transfer.
    Transfer {
        /// The performative of the transfer.
        performative: Transfer,
        /// The message, or the part of it that this transfer carries. It is moved, never copied.
        payload: Bytes,
    },
    /// The peer's disposition, as it concerns one open delivery: a range of several has an event for each.
    Disposition {
        /// The peer's end of the link.
        role: Role,
        /// Whether the peer settled the delivery.
        settled: bool,
        /// The state of the delivery at the peer.
        state: Option<Raw>,
        /// The delivery.
        tag: DeliveryTag,
    },
    /// The peer detached the link.
    Detached {
        /// The peer's detach.
        detach: Detach,
        /// Whether the peer began the detach, and does not answer one of this side.
        remote_initiated: bool,
    },
}

/// The kind of an event: a queue has room for each kind by itself.
#[derive(Clone, Copy, Debug, PartialEq, Eq)]
pub enum EventKind {
    /// An Attach or a Detach.
    Link,
    /// A Flow.
    Flow,
    /// A Transfer.
    Transfer,
    /// A Disposition.
    Disposition,
}

impl LinkNames {
    /// The same link, where a frame of the peer's names it by this handle.
    pub(crate) fn under(self, handle: Handle) -> LinkNames
        ensures { result ≡ under handle.0 self }
    {
        LinkNames {
            input: Some(InputHandle(handle.0)),
            ..self
        }
    }
}

impl EventBody {
    /// The kind of the event.
    pub fn kind(&self) -> EventKind
        ensures { result ≡ kind_of self.now }
    {
        match self {
            EventBody::Attached(_) => EventKind::Link,
            EventBody::Flow(_) => EventKind::Flow,
            EventBody::Transfer { .. } => EventKind::Transfer,
            EventBody::Disposition { .. } => EventKind::Disposition,
            EventBody::Detached { .. } => EventKind::Link,
        }
    }
}
