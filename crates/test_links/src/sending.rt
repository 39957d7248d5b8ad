//! The sending end: each call once, and what it refuses.

use crate::same::{holds, same};
use amqp_links::{CreditFlow, Life, LinkEnd, PartEnd, SendError, SenderFlow, SendingLink};
use std::test::Fail;

/// A flow with this credit, at this count.
fn credit(count: u32, credit: u32, drain: bool, echo: bool) -> CreditFlow {
    CreditFlow {
        delivery_count: Some(count),
        link_credit: Some(credit),
        drain,
        echo,
    }
}

fn told(count: u32, credit: u32, available: u32, drain: bool) -> Option<SenderFlow> {
    Some(SenderFlow {
        delivery_count: count,
        link_credit: credit,
        available,
        drain,
    })
}

#[test]
fn a_link_sends_while_it_is_attached(rt: HostRuntime) -> Result<(), Fail> {
    let mut link = SendingLink::new(5);
    same(&rt, link.life(), Life::Attaching);
    same(
        &rt,
        link.send(1, PartEnd::Last),
        Err(SendError::NotAttached),
    );
    link.on_flow(credit(5, 9, false, true));
    same(&rt, link.answer(0), None);
    link.on_attach(true, None);
    same(&rt, link.life(), Life::Attached);
    same(&rt, link.send(1, PartEnd::Last), Err(SendError::NoCredit));
    link.on_flow(credit(5, 2, false, false));
    same(&rt, link.credit(), 2);
    same(&rt, link.send(1, PartEnd::Last), Ok(()));
    same(&rt, link.credit(), 1);
    same(&rt, link.delivery_count(), 6);
    link.detach();
    same(&rt, link.life(), Life::Detaching);
    same(
        &rt,
        link.send(1, PartEnd::Last),
        Err(SendError::NotAttached),
    );
    same(&rt, link.on_detach(), LinkEnd::Answered);
    same(&rt, link.life(), Life::Detached);
    same(&rt, link.on_detach(), LinkEnd::Stray);
    link.detach();
    same(&rt, link.life(), Life::Detached);
    Ok(())
}

#[test]
fn a_delivery_in_parts_takes_one_of_the_credit(rt: HostRuntime) -> Result<(), Fail> {
    let mut link = SendingLink::new(0);
    link.on_attach(true, Some(10));
    link.on_flow(credit(0, 1, false, false));
    same(&rt, link.send(11, PartEnd::Last), Err(SendError::TooLarge));
    same(&rt, link.send(4, PartEnd::More), Ok(()));
    same(&rt, link.under_way(), Some(4));
    same(&rt, link.credit(), 0);
    same(&rt, link.send(7, PartEnd::More), Err(SendError::TooLarge));
    same(&rt, link.send(6, PartEnd::Last), Ok(()));
    same(&rt, link.under_way(), None);
    same(&rt, link.send(1, PartEnd::More), Err(SendError::NoCredit));
    same(
        &rt,
        link.send(0, PartEnd::Aborted),
        Err(SendError::NoneUnderWay),
    );
    link.on_flow(credit(1, 1, false, false));
    same(&rt, link.send(9, PartEnd::More), Ok(()));
    same(&rt, link.send(9, PartEnd::Aborted), Ok(()));
    same(&rt, link.under_way(), None);
    same(&rt, link.delivery_count(), 2);
    Ok(())
}

#[test]
fn a_drain_is_answered_once_nothing_is_left(rt: HostRuntime) -> Result<(), Fail> {
    let mut link = SendingLink::new(0);
    link.on_attach(true, Some(0));
    link.on_flow(credit(0, 5, true, false));
    same(&rt, link.answer(3), None);
    same(&rt, link.send(1, PartEnd::More), Ok(()));
    same(&rt, link.answer(0), None);
    same(&rt, link.send(1, PartEnd::Last), Ok(()));
    same(&rt, link.answer(0), told(5, 0, 0, true));
    same(&rt, link.answer(0), None);
    same(&rt, link.send(1, PartEnd::Last), Err(SendError::NoCredit));
    Ok(())
}

#[test]
fn an_echo_is_answered_once(rt: HostRuntime) -> Result<(), Fail> {
    let mut link = SendingLink::new(0);
    link.on_attach(true, None);
    link.on_flow(credit(0, 5, false, true));
    let bare = CreditFlow {
        delivery_count: None,
        link_credit: None,
        drain: false,
        echo: false,
    };
    link.on_flow(bare);
    same(&rt, link.answer(7), told(0, 5, 7, false));
    same(&rt, link.answer(7), None);
    Ok(())
}

#[test]
fn a_link_that_is_refused(rt: HostRuntime) -> Result<(), Fail> {
    let mut link = SendingLink::new(0);
    link.on_attach(false, None);
    same(&rt, link.life(), Life::Refused);
    link.on_flow(credit(0, 5, false, false));
    same(
        &rt,
        link.send(1, PartEnd::Last),
        Err(SendError::NotAttached),
    );
    same(&rt, link.on_detach(), LinkEnd::Refused);
    let mut other = SendingLink::new(0);
    other.on_attach(true, None);
    other.on_attach(false, Some(1));
    same(&rt, other.life(), Life::Attached);
    other.on_flow(credit(0, 5, false, false));
    holds(&rt, other.send(9, PartEnd::Last).is_ok());
    same(&rt, other.on_detach(), LinkEnd::ByPeer);
    Ok(())
}
