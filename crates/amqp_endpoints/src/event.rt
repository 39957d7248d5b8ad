//! What a record is to the links of a session.

use amqp_driver::Asked;
use amqp_links::{Life, LinkEnd, LinkFault, ReceivedPart};
use amqp_types::Role;

/// What a record is to the links of a session. [`SessionEndpoint::respond`](crate::SessionEndpoint::respond) sends what the link owes for it.
#[derive(Clone, Copy, Debug, PartialEq, Eq)]
#[must_use]
pub enum LinkEvent {
    /// It says nothing of them: it is of another session, of a link that has no end here, or of a kind that says nothing of links.
    Nothing,
    /// The peer's Attach has come for the link of this handle, which stands so: [`Life::Refused`] where the peer refuses it, and its Detach is to follow.
    Attached {
        /// This side's handle of the link.
        handle: u32,
        /// Where the link stands.
        life: Life,
    },
    /// A flow has come for the link of this handle. To a sender it may give credit, or ask for a flow in answer; of what a receiver has granted, the sender
    /// has used up so many without a delivery.
    Flow {
        /// This side's handle of the link.
        handle: u32,
        /// How many of the credit were used up.
        used: u32,
    },
    /// A part of a delivery has come on the link of this handle. Its bytes stand in the input, where the record says. Of one that settles or aborts its delivery
    /// [`SessionEndpoint::respond`](crate::SessionEndpoint::respond) has the session let that go.
    Part {
        /// This side's handle of the link.
        handle: u32,
        /// What it is to its delivery.
        part: ReceivedPart,
    },
    /// A transfer has come on the link of this handle, which is not attached: it is passed over (AMQP 1.0 part 2, section 2.6.6).
    PassedOver {
        /// This side's handle of the link.
        handle: u32,
        /// The number of its delivery, where it says one: [`SessionEndpoint::respond`](crate::SessionEndpoint::respond) has the session let that go.
        number: Option<u32>,
    },
    /// The peer did what it may not do. This side ends the link of this handle for it, and tells no delivery of it any more.
    Fault {
        /// This side's handle of the link.
        handle: u32,
        /// What it did.
        fault: LinkFault,
        /// The number of the delivery of a transfer that is at fault, where it says one: the session lets that go too.
        number: Option<u32>,
    },
    /// The deliveries of a range of numbers are settled: [`SessionEndpoint::settled_next`](crate::SessionEndpoint::settled_next) gives each of them back.
    Settled {
        /// The role of this side: [`Role::Sender`] where it sent them.
        role: Role,
        /// The first number.
        first: u32,
        /// The last number.
        last: u32,
        /// Whether the peer has settled them. Else this side's relay has answered by a settled disposition, and the session lets them go by
        /// [`SessionEndpoint::respond`](crate::SessionEndpoint::respond).
        by_peer: bool,
    },
    /// The peer's Detach has come for the link of this handle.
    Ended {
        /// This side's handle of the link.
        handle: u32,
        /// What it was.
        end: LinkEnd,
        /// Whether it closes the link for good.
        closed: bool,
    },
    /// No transfer of the link of this handle waits for the peer's window any more, and a call of it was answered [`LinkAnswer::HeldBack`] before:
    /// [`SessionEndpoint::respond`](crate::SessionEndpoint::respond) sends what it owes the peer, and what else was asked for may be asked for again.
    Due {
        /// This side's handle of the link.
        handle: u32,
    },
}

/// What became of a call that is to send a flow or a Detach for a link.
#[derive(Debug, Drop)]
#[must_use]
pub enum LinkAnswer {
    /// None is wanted, and nothing happens.
    NotWanted,
    /// It would overtake transfers of the link which the session holds back for the peer's window (AMQP 1.0 part 2, section 2.5.6): nothing is sent, and the
    /// link stands as before. [`SessionEndpoint::due_next`](crate::SessionEndpoint::due_next) tells when the call may be made again. Or it is a Detach, and the
    /// peer's Attach is still to come: [`LinkEvent::Attached`] tells it then.
    HeldBack,
    /// It was requested, and this became of it.
    Asked(Asked),
}

/// Why a record is not told. Nothing has changed then, and the same record may be given again.
#[derive(Clone, Copy, Debug, PartialEq, Eq)]
pub enum RecordError {
    /// The number of the delivery that begins does not lie after each one that is unsettled, by less than 2^31 (section 2.8.10).
    NotNext,
    /// Memory was refused.
    OutOfMemory,
}
