//! The receiving end: each call once, and what the sender may not do.

use crate::same::{holds, same};
use amqp_links::{
    Grant, Life, LinkEnd, LinkFault, Part, PartEnd, PartError, PartHead, PartTag, ReceivingLink,
    Renewal, TransferError,
};
use std::test::Fail;

/// A transfer that begins a delivery.
pub fn first(number: u32, size: u32, more: bool) -> PartHead {
    PartHead {
        number: Some(number),
        tag: PartTag::New,
        format: None,
        settled: None,
        more,
        aborted: false,
        size,
    }
}

/// A transfer that goes on with one.
fn next(size: u32, more: bool) -> PartHead {
    PartHead {
        number: None,
        tag: PartTag::Absent,
        ..first(0, size, more)
    }
}

fn part(number: u32, is_first: bool, end: PartEnd, size: u64) -> Result<Part, TransferError> {
    Ok(Part {
        number,
        is_first,
        end,
        settled: false,
        size,
    })
}

fn fault(fault: LinkFault) -> Result<Part, TransferError> {
    Err(TransferError::Fault(fault))
}

fn grant(count: u32, credit: u32, drain: bool) -> Option<Grant> {
    Some(Grant {
        delivery_count: count,
        link_credit: credit,
        drain,
    })
}

/// A link that is attached, at the count 7, with a limit of ten bytes.
fn attached() -> ReceivingLink {
    let mut link = ReceivingLink::new(Some(Renewal { low: 1, high: 2 }), Some(10));
    link.on_attach(true, 7);
    link
}

#[test]
fn deliveries_are_told_within_the_credit(rt: HostRuntime) -> Result<(), Fail> {
    let mut link = ReceivingLink::new(None, None);
    same(&rt, link.grant(1), None);
    same(&rt, link.drain(), None);
    same(&rt, link.renew(), None);
    same(
        &rt,
        link.on_transfer(first(0, 1, false)),
        Err(TransferError::NotAttached),
    );
    link.on_attach(true, 7);
    same(&rt, link.grant(2), grant(7, 2, false));
    same(
        &rt,
        link.on_transfer(first(3, 4, true)),
        part(3, true, PartEnd::More, 4),
    );
    same(&rt, link.under_way(), Some(3));
    same(&rt, link.credit(), 1);
    same(
        &rt,
        link.on_transfer(next(5, false)),
        part(3, false, PartEnd::Last, 9),
    );
    same(&rt, link.under_way(), None);
    same(
        &rt,
        link.on_transfer(first(4, 0, false)),
        part(4, true, PartEnd::Last, 0),
    );
    same(
        &rt,
        link.on_transfer(first(5, 0, false)),
        fault(LinkFault::OverCredit),
    );
    same(&rt, link.life(), Life::Detaching);
    same(&rt, link.grant(9), None);
    same(
        &rt,
        link.on_transfer(first(6, 0, false)),
        Err(TransferError::NotAttached),
    );
    same(&rt, link.on_detach(), LinkEnd::Answered);
    Ok(())
}

#[test]
fn what_a_sender_may_not_do_detaches_the_link(rt: HostRuntime) -> Result<(), Fail> {
    let mut large = attached();
    holds(&rt, large.renew().is_some());
    same(
        &rt,
        large.on_transfer(first(0, 11, false)),
        fault(LinkFault::Part(PartError::TooLarge)),
    );
    same(&rt, large.life(), Life::Detaching);
    let mut other = attached();
    holds(&rt, other.renew().is_some());
    same(
        &rt,
        other.on_transfer(first(0, 1, true)),
        part(0, true, PartEnd::More, 1),
    );
    same(
        &rt,
        other.on_transfer(first(1, 1, false)),
        fault(LinkFault::Part(PartError::OtherDelivery)),
    );
    let mut ahead = attached();
    holds(&rt, ahead.renew().is_some());
    same(
        &rt,
        ahead.on_flow(Some(10), false),
        Err(LinkFault::CountPastLimit),
    );
    same(&rt, ahead.life(), Life::Detaching);
    same(&rt, ahead.on_flow(Some(8), true), Ok(0));
    Ok(())
}

#[test]
fn each_fault_has_its_condition(rt: HostRuntime) -> Result<(), Fail> {
    holds(
        &rt,
        LinkFault::OverCredit.condition() == "amqp:link:transfer-limit-exceeded",
    );
    holds(
        &rt,
        LinkFault::Part(PartError::TooLarge).condition() == "amqp:link:message-size-exceeded",
    );
    holds(
        &rt,
        LinkFault::Part(PartError::NoTag).condition() == "amqp:invalid-field",
    );
    holds(
        &rt,
        LinkFault::CountPastLimit.condition() == "amqp:invalid-field",
    );
    Ok(())
}

#[test]
fn credit_is_renewed_and_drained(rt: HostRuntime) -> Result<(), Fail> {
    let mut link = attached();
    same(&rt, link.renew(), grant(7, 2, false));
    same(&rt, link.renew(), None);
    holds(&rt, link.on_transfer(first(0, 1, false)).is_ok());
    same(&rt, link.renew(), None);
    holds(&rt, link.on_transfer(first(1, 1, false)).is_ok());
    same(&rt, link.renew(), grant(9, 2, false));
    same(&rt, link.drain(), grant(9, 2, true));
    same(&rt, link.on_flow(Some(11), false), Ok(2));
    same(&rt, link.renew(), None);
    same(&rt, link.grant(1), grant(11, 1, false));
    Ok(())
}

#[test]
fn an_echo_is_answered_once(rt: HostRuntime) -> Result<(), Fail> {
    let mut link = attached();
    same(&rt, link.answer(), None);
    same(&rt, link.on_flow(None, true), Ok(0));
    same(&rt, link.on_flow(Some(7), false), Ok(0));
    same(&rt, link.answer(), grant(7, 0, false));
    same(&rt, link.answer(), None);
    link.detach();
    same(&rt, link.on_detach(), LinkEnd::Answered);
    let mut refused = ReceivingLink::new(None, None);
    refused.on_attach(false, 0);
    same(&rt, refused.life(), Life::Refused);
    same(&rt, refused.on_detach(), LinkEnd::Refused);
    Ok(())
}
