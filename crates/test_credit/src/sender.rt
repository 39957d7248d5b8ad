//! The sender's credit: each call once, and counts and credit at the ends of their range.

use crate::same::{holds, same};
use amqp_credit::{NoCredit, SenderCredit};
use std::test::Fail;

const LAST: u32 = 4_294_967_295;

#[test]
fn credit_is_given_and_taken(rt: HostRuntime) -> Result<(), Fail> {
    let mut sender = SenderCredit::new(7);
    same(&rt, sender.credit(), 0);
    same(&rt, sender.delivery_count(), 7);
    same(&rt, sender.send(), Err(NoCredit));
    sender.on_flow(Some(7), Some(2), false);
    same(&rt, sender.credit(), 2);
    same(&rt, sender.send(), Ok(()));
    same(&rt, sender.credit(), 1);
    same(&rt, sender.delivery_count(), 8);
    same(&rt, sender.send(), Ok(()));
    same(&rt, sender.send(), Err(NoCredit));
    same(&rt, sender.delivery_count(), 9);
    same(&rt, sender.credit(), 0);
    Ok(())
}

#[test]
fn what_the_receiver_has_not_seen_is_taken_off(rt: HostRuntime) -> Result<(), Fail> {
    let mut sender = SenderCredit::new(0);
    sender.on_flow(None, Some(5), false);
    same(&rt, sender.send(), Ok(()));
    same(&rt, sender.send(), Ok(()));
    same(&rt, sender.send(), Ok(()));
    sender.on_flow(Some(1), Some(5), false);
    same(&rt, sender.credit(), 3);
    sender.on_flow(None, Some(5), false);
    same(&rt, sender.credit(), 2);
    sender.on_flow(Some(1), Some(1), false);
    same(&rt, sender.credit(), 0);
    same(&rt, sender.send(), Err(NoCredit));
    Ok(())
}

#[test]
fn a_flow_without_credit_changes_nothing(rt: HostRuntime) -> Result<(), Fail> {
    let mut sender = SenderCredit::new(0);
    sender.on_flow(Some(0), None, true);
    holds(&rt, !sender.drain_wanted());
    sender.on_flow(Some(0), Some(3), true);
    sender.on_flow(Some(2), None, false);
    same(&rt, sender.credit(), 3);
    holds(&rt, sender.drain_wanted());
    Ok(())
}

#[test]
fn a_drain_uses_up_what_is_left_once(rt: HostRuntime) -> Result<(), Fail> {
    let mut sender = SenderCredit::new(LAST - 1);
    same(&rt, sender.use_up(), 0);
    sender.on_flow(None, Some(4), false);
    same(&rt, sender.use_up(), 0);
    sender.on_flow(None, Some(4), true);
    same(&rt, sender.send(), Ok(()));
    holds(&rt, sender.drain_wanted());
    same(&rt, sender.use_up(), 3);
    same(&rt, sender.credit(), 0);
    same(&rt, sender.delivery_count(), 2);
    holds(&rt, !sender.drain_wanted());
    same(&rt, sender.use_up(), 0);
    same(&rt, sender.delivery_count(), 2);
    same(&rt, sender.send(), Err(NoCredit));
    Ok(())
}

#[test]
fn a_drain_without_credit_uses_up_nothing(rt: HostRuntime) -> Result<(), Fail> {
    let mut sender = SenderCredit::new(3);
    sender.on_flow(Some(3), Some(0), true);
    holds(&rt, !sender.drain_wanted());
    same(&rt, sender.use_up(), 0);
    same(&rt, sender.delivery_count(), 3);
    sender.on_flow(Some(3), Some(1), false);
    same(&rt, sender.send(), Ok(()));
    Ok(())
}

#[test]
fn counts_wrap(rt: HostRuntime) -> Result<(), Fail> {
    let mut sender = SenderCredit::new(LAST);
    sender.on_flow(Some(LAST), Some(3), false);
    same(&rt, sender.send(), Ok(()));
    same(&rt, sender.delivery_count(), 0);
    same(&rt, sender.send(), Ok(()));
    sender.on_flow(Some(LAST), Some(3), false);
    same(&rt, sender.credit(), 1);
    sender.on_flow(Some(1), Some(3), false);
    same(&rt, sender.credit(), 3);
    Ok(())
}

#[test]
fn all_of_the_credit_there_is(rt: HostRuntime) -> Result<(), Fail> {
    let mut sender = SenderCredit::new(10);
    sender.on_flow(Some(10), Some(LAST), true);
    same(&rt, sender.credit(), LAST);
    same(&rt, sender.send(), Ok(()));
    same(&rt, sender.credit(), LAST - 1);
    same(&rt, sender.use_up(), LAST - 1);
    same(&rt, sender.delivery_count(), 9);
    Ok(())
}

#[test]
fn a_count_that_was_never_told_gives_no_credit(rt: HostRuntime) -> Result<(), Fail> {
    let mut sender = SenderCredit::new(10);
    sender.on_flow(Some(11), Some(100), false);
    same(&rt, sender.credit(), 0);
    sender.on_flow(Some(11), Some(LAST), false);
    same(&rt, sender.credit(), 0);
    sender.on_flow(Some(LAST), Some(100), false);
    same(&rt, sender.credit(), 89);
    Ok(())
}
