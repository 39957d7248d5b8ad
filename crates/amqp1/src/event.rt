//! What a record is to the links of its session, in numbers.

ghost use Rattle.std.specs.Prelude.{◌≡◌};
ghost use Rattle.amqp1.specs.Events.{end_number, ending_flag, event_asked, event_of, fault_at, fault_number, given_flag, given_or_none, life_number, link_of};
ghost use Rattle.amqp1.specs.Events.{number_asked, numbered_event, part_asked, part_event, part_flags, role_flag, settled_event};

use amqp_endpoints::LinkEvent;
use amqp_links::{Life, LinkEnd, LinkFault, Part, PartEnd, PartError, ReceivedPart};
use amqp_types::Role;

/// What a record is to the links of its session. The layout is that of C, in 48 bytes without padding. A field of which nothing is said is 0.
#[derive(Clone, Copy, Debug, PartialEq, Eq)]
#[repr(C)]
pub struct Event {
    /// Of a part: what was given with its delivery, which this part settles or aborts; where a flag says so.
    pub given: u64,
    /// Of a part: how many bytes the delivery has so far.
    pub size: u64,
    /// The session.
    pub session: u32,
    /// What it is: 0 nothing, 1 attached, 2 a flow, 3 a part, 4 passed over, 5 a fault, 6 settled, 7 ended, 8 due.
    pub kind: u32,
    /// This side's handle of the link. 4294967295 where it is of none, as where deliveries are settled.
    pub link: u32,
    /// Of a part, the number of the delivery; so of what is passed over, and of a fault, where a flag says that its transfer names one; of what is settled,
    /// the first one.
    pub first: u32,
    /// The same; of what is settled, the last one.
    pub last: u32,
    /// Of an Attach, where the link stands; of a flow, how many of the credit were used up; of a fault, which one it is; of a Detach, what it was.
    pub detail: u32,
    /// The credit of the link, after the event.
    pub credit: u32,
    /// 1 the first part of a delivery, 2 its last one, 4 it is aborted, 8 it is settled so far, 16 `given` says what was given, 32 the Detach is for good,
    /// 64 the deliveries that are settled have come, 128 the peer has settled them, 256 a transfer that is passed over, or at fault, names its delivery.
    pub flags: u32,
}

/// Where a link stands, in the order of the lives.
fn life_number(life: Life) -> u32
    ensures { result ≡ life_number life }
{
    match life {
        Life::Attaching => 0,
        Life::Refused => 1,
        Life::Attached => 2,
        Life::Detaching => 3,
        Life::Detached => 4,
    }
}

/// What a Detach was, in the order of the ends.
fn end_number(end: LinkEnd) -> u32
    ensures { result ≡ end_number end }
{
    match end {
        LinkEnd::Refused => 0,
        LinkEnd::ByPeer => 1,
        LinkEnd::Answered => 2,
        LinkEnd::Stray => 3,
    }
}

/// What the peer did that it may not do.
fn fault_number(fault: LinkFault) -> u32
    ensures { result ≡ fault_number fault }
{
    match fault {
        LinkFault::OverCredit => 1,
        LinkFault::CountPastLimit => 2,
        LinkFault::Part(PartError::NoneUnderWay) => 3,
        LinkFault::Part(PartError::NoNumber) => 4,
        LinkFault::Part(PartError::NoTag) => 5,
        LinkFault::Part(PartError::OtherDelivery) => 6,
        LinkFault::Part(PartError::OtherFormat) => 7,
        LinkFault::Part(PartError::TooLarge) => 8,
    }
}

/// The fault of a number. `None` where no fault has it.
fn fault_at(number: u32) -> Option<LinkFault>
    ensures { result ≡ fault_at number }
{
    match number {
        1 => Some(LinkFault::OverCredit),
        2 => Some(LinkFault::CountPastLimit),
        3 => Some(LinkFault::Part(PartError::NoneUnderWay)),
        4 => Some(LinkFault::Part(PartError::NoNumber)),
        5 => Some(LinkFault::Part(PartError::NoTag)),
        6 => Some(LinkFault::Part(PartError::OtherDelivery)),
        7 => Some(LinkFault::Part(PartError::OtherFormat)),
        8 => Some(LinkFault::Part(PartError::TooLarge)),
        _ => None,
    }
}

fn given_or_none(given: Option<u64>) -> u64
    ensures { result ≡ given_or_none given }
{
    given.unwrap_or(0)
}

/// That something was given, as a flag.
fn given_flag(given: Option<u64>) -> u32
    ensures { result ≡ given_flag given }
{
    if given.is_some() { 16 } else { 0 }
}

/// Where a delivery ends, as a flag.
fn ending_flag(end: PartEnd) -> u32
    ensures { result ≡ ending_flag end }
{
    match end {
        PartEnd::More => 0,
        PartEnd::Last => 2,
        PartEnd::Aborted => 4,
    }
}

fn part_flags(told: ReceivedPart) -> u32
    ensures { result ≡ part_flags told }
{
    let first = if told.part.is_first { 1 } else { 0 };
    let settled = if told.part.settled { 8 } else { 0 };
    first + ending_flag(told.part.end) + settled + given_flag(told.settled)
}

/// The role of this side, as a flag: that of deliveries that have come.
fn role_flag(role: Role) -> u32
    ensures { result ≡ role_flag role }
{
    match role {
        Role::Sender => 0,
        Role::Receiver => 64,
    }
}

/// An event of a link with nothing but a detail.
fn plain_event(session: u32, kind: u32, link: u32, detail: u32, credit: u32) -> Event
    ensures { result ≡ record { given = 0; size = 0; session = session; kind = kind; link = link; first = 0; last = 0; detail = detail; credit = credit; flags = 0 } }
{
    Event {
        given: 0,
        size: 0,
        session,
        kind,
        link,
        first: 0,
        last: 0,
        detail,
        credit,
        flags: 0,
    }
}

fn part_event(session: u32, link: u32, told: ReceivedPart, credit: u32) -> Event
    ensures { result ≡ part_event session link told credit }
{
    Event {
        given: given_or_none(told.settled),
        size: told.part.size,
        first: told.part.number,
        last: told.part.number,
        flags: part_flags(told),
        ..plain_event(session, 3, link, 0, credit)
    }
}

/// An event of a transfer that names its delivery by this number, or names none.
fn numbered_event(number: Option<u32>, event: Event) -> Event
    ensures { result ≡ numbered_event number event }
{
    match number {
        Some(number) => Event {
            first: number,
            last: number,
            flags: 256,
            ..event
        },
        None => event,
    }
}

/// Deliveries are settled. They are of no link, so there is no credit.
fn settled_event(session: u32, role: Role, first: u32, last: u32, by_peer: bool) -> Event
    ensures { result ≡ settled_event session role first last by_peer }
{
    Event {
        first,
        last,
        flags: role_flag(role) + if by_peer { 128 } else { 0 },
        ..plain_event(session, 6, u32::MAX, 0, 0)
    }
}

/// What a record is to the links of this session, in numbers, with the credit of its link.
pub(crate) fn event_of(session: u32, event: LinkEvent, credit: u32) -> Event
    ensures { result ≡ event_of session event credit }
{
    match event {
        LinkEvent::Nothing => plain_event(session, 0, u32::MAX, 0, credit),
        LinkEvent::Attached { handle, life } => {
            plain_event(session, 1, handle, life_number(life), credit)
        }
        LinkEvent::Flow { handle, used } => plain_event(session, 2, handle, used, credit),
        LinkEvent::Part { handle, part } => part_event(session, handle, part, credit),
        LinkEvent::PassedOver { handle, number } => {
            numbered_event(number, plain_event(session, 4, handle, 0, credit))
        }
        LinkEvent::Fault {
            handle,
            fault,
            number,
        } => numbered_event(
            number,
            plain_event(session, 5, handle, fault_number(fault), credit),
        ),
        LinkEvent::Settled {
            role,
            first,
            last,
            by_peer,
        } => settled_event(session, role, first, last, by_peer),
        LinkEvent::Ended {
            handle,
            end,
            closed,
        } => Event {
            flags: if closed { 32 } else { 0 },
            ..plain_event(session, 7, handle, end_number(end), credit)
        },
        LinkEvent::Due { handle } => plain_event(session, 8, handle, 0, credit),
    }
}

/// The link of an event. 4294967295 where it is of none.
pub(crate) fn link_of(event: &LinkEvent) -> u32
    ensures { result ≡ link_of event.now }
{
    match *event {
        LinkEvent::Attached { handle, life: _ }
        | LinkEvent::Flow { handle, used: _ }
        | LinkEvent::Part { handle, part: _ }
        | LinkEvent::PassedOver { handle, number: _ }
        | LinkEvent::Fault {
            handle,
            fault: _,
            number: _,
        }
        | LinkEvent::Due { handle }
        | LinkEvent::Ended {
            handle,
            end: _,
            closed: _,
        } => handle,
        LinkEvent::Nothing
        | LinkEvent::Settled {
            role: _,
            first: _,
            last: _,
            by_peer: _,
        } => u32::MAX,
    }
}

/// The number of the delivery that a transfer names which is passed over, or at fault.
fn number_asked(event: &Event) -> Option<u32>
    ensures { result ≡ number_asked event.now }
{
    if event.flags / 256 % 2 == 1 {
        Some(event.first)
    } else {
        None
    }
}

/// What a part is: of its delivery the number alone counts, and what was given with it.
fn part_asked(event: &Event) -> ReceivedPart
    ensures { result ≡ part_asked event.now }
{
    ReceivedPart {
        part: Part {
            number: event.first,
            is_first: false,
            end: PartEnd::Last,
            settled: true,
            size: 0,
        },
        settled: if event.flags / 16 % 2 == 1 {
            Some(event.given)
        } else {
            None
        },
    }
}

/// What a link may owe for an event in numbers.
pub(crate) fn event_asked(event: &Event) -> LinkEvent
    ensures { result ≡ event_asked event.now }
{
    let handle = event.link;
    match event.kind {
        1 => LinkEvent::Attached {
            handle,
            life: Life::Attached,
        },
        3 => LinkEvent::Part {
            handle,
            part: part_asked(event),
        },
        4 => LinkEvent::PassedOver {
            handle,
            number: number_asked(event),
        },
        2 => LinkEvent::Flow {
            handle,
            used: event.detail,
        },
        5 => match fault_at(event.detail) {
            Some(fault) => LinkEvent::Fault {
                handle,
                fault,
                number: number_asked(event),
            },
            None => LinkEvent::Nothing,
        },
        7 => LinkEvent::Ended {
            handle,
            end: LinkEnd::ByPeer,
            closed: event.flags / 32 % 2 == 1,
        },
        6 => LinkEvent::Settled {
            role: if event.flags / 64 % 2 == 1 {
                Role::Receiver
            } else {
                Role::Sender
            },
            first: event.first,
            last: event.last,
            by_peer: event.flags / 128 % 2 == 1,
        },
        8 => LinkEvent::Due { handle },
        _ => LinkEvent::Nothing,
    }
}
