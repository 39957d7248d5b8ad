//! What a record says of a link.

ghost use Rattle.std.specs.Prelude.{◌≡◌, ◌<◌};
ghost use Rattle.amqp_endpoints.specs.Reading.{credit_flow, first_attach, has_terminus, if_set, is_settled, part_head, part_tag, peer_attach, settled_range};

use crate::event::LinkEvent;
use crate::place::LinkPlace;
use amqp_driver::Record;
use amqp_driver::flag::{self, is_set};
use amqp_links::{CreditFlow, PartHead, PartTag, PeerAttach};
use amqp_types::Role;

/// Whether an Attach has the terminus of the peer's: that of its own role (AMQP 1.0 part 2, section 2.6.3).
fn has_terminus(told: &Record) -> bool
    ensures { result ≡ has_terminus told.now }
{
    if is_set(told.flags, flag::RECEIVER) {
        told.outcome >= 2
    } else {
        told.outcome % 2 == 1
    }
}

/// What an Attach of the peer's says that came before this side's: it refuses nothing, whatever terminus it lacks.
pub(crate) fn first_attach(told: &Record) -> PeerAttach
    ensures { result ≡ first_attach told.now }
{
    PeerAttach {
        is_accepted: true,
        ..peer_attach(told)
    }
}

/// What an Attach of the peer's says that answers this side's.
pub(crate) fn peer_attach(told: &Record) -> PeerAttach
    ensures { result ≡ peer_attach told.now }
{
    PeerAttach {
        is_accepted: has_terminus(told),
        initial_delivery_count: told.count,
        max_message_size: Some(u64::from(told.first) + u64::from(told.last) * 0x1_0000_0000),
    }
}

/// A number that is there where a flag is set.
fn if_set(told: &Record, flag: u16, number: u32) -> Option<u32>
    requires { 0 < flag }
    ensures { result ≡ if_set told.now flag number }
{
    if is_set(told.flags, flag) {
        Some(number)
    } else {
        None
    }
}

/// What a Flow says.
pub(crate) fn credit_flow(told: &Record) -> CreditFlow
    ensures { result ≡ credit_flow told.now }
{
    CreditFlow {
        delivery_count: if_set(told, flag::COUNTED, told.count),
        link_credit: if_set(told, flag::CREDITED, told.credit),
        drain: is_set(told.flags, flag::DRAIN),
        echo: is_set(told.flags, flag::ECHO),
    }
}

/// The tag of a Transfer, beside that of the delivery that came last. One of more than 32 bytes, which the standard does not allow (section 2.8.7), is another
/// one each time.
#[inline(always)]
pub(crate) fn part_tag(place: &LinkPlace, told: &Record) -> PartTag
    ensures { result ≡ part_tag place.now told.now }
{
    if !is_set(told.flags, flag::TAGGED) {
        return PartTag::Absent;
    }
    if told.tag_size <= 32 && told.tag_size == place.tag_size && told.tag == place.tag {
        PartTag::Same
    } else {
        PartTag::New
    }
}

/// What a Transfer says of its part of a delivery, whose tag is this beside that of the delivery that came last.
#[inline(always)]
pub(crate) fn part_head(tag: PartTag, told: &Record) -> PartHead
    ensures { result ≡ part_head tag told.now }
{
    PartHead {
        number: if_set(told, flag::NUMBERED, told.first),
        tag,
        format: if_set(told, flag::FORMATTED, told.format),
        settled: Some(is_set(told.flags, flag::SETTLED)),
        more: is_set(told.flags, flag::MORE),
        aborted: is_set(told.flags, flag::ABORTED),
        size: told.payload,
    }
}

/// Whether a Disposition settles: it says so; or it has a terminal state of a receiver, which the relay of a sender answers by a settled one (section 2.6.12).
fn is_settled(told: &Record) -> bool
    ensures { result ≡ is_settled told.now }
{
    is_set(told.flags, flag::SETTLED)
        || is_set(told.flags, flag::RECEIVER) && told.outcome >= 1 && told.outcome <= 4
}

/// The range of deliveries that a Disposition settles, if it settles.
pub(crate) fn settled_range(told: &Record) -> LinkEvent
    ensures { result ≡ settled_range told.now }
{
    if !is_settled(told) {
        return LinkEvent::Nothing;
    }
    let role = if is_set(told.flags, flag::RECEIVER) {
        Role::Sender
    } else {
        Role::Receiver
    };
    LinkEvent::Settled {
        role,
        first: told.first,
        last: told.last,
        by_peer: is_set(told.flags, flag::SETTLED),
    }
}
