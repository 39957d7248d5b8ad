//! The receiver's credit: each call once, and renewals.

use crate::same::{holds, same};
use amqp_credit::{Grant, OverCredit, ReceiverCredit, Renewal};
use std::test::Fail;

/// What a flow says.
pub fn says(delivery_count: u32, link_credit: u32, drain: bool) -> Grant {
    Grant {
        delivery_count,
        link_credit,
        drain,
    }
}

#[test]
fn credit_is_granted_and_taken(rt: HostRuntime) -> Result<(), Fail> {
    let mut receiver = ReceiverCredit::new(5, None);
    same(&rt, receiver.credit(), 0);
    same(&rt, receiver.on_delivery(), Err(OverCredit));
    same(&rt, receiver.grant(2), says(5, 2, false));
    same(&rt, receiver.on_delivery(), Ok(()));
    same(&rt, receiver.credit(), 1);
    same(&rt, receiver.delivery_count(), 6);
    same(&rt, receiver.flow_state(), says(6, 1, false));
    same(&rt, receiver.on_delivery(), Ok(()));
    same(&rt, receiver.on_delivery(), Err(OverCredit));
    same(&rt, receiver.delivery_count(), 7);
    same(&rt, receiver.wants_flow(), None);
    same(&rt, receiver.renew(), None);
    Ok(())
}

#[test]
fn a_drain_is_answered(rt: HostRuntime) -> Result<(), Fail> {
    let mut receiver = ReceiverCredit::new(0, None);
    let _told = receiver.grant(10);
    same(&rt, receiver.on_delivery(), Ok(()));
    holds(&rt, !receiver.is_draining());
    same(&rt, receiver.drain(), says(1, 9, true));
    holds(&rt, receiver.is_draining());
    same(&rt, receiver.on_delivery(), Ok(()));
    same(&rt, receiver.on_flow(Some(10)), Ok(8));
    same(&rt, receiver.credit(), 0);
    same(&rt, receiver.delivery_count(), 10);
    holds(&rt, receiver.is_draining());
    same(&rt, receiver.on_delivery(), Err(OverCredit));
    same(&rt, receiver.grant(1), says(10, 1, false));
    holds(&rt, !receiver.is_draining());
    Ok(())
}

#[test]
fn credit_is_renewed_below_the_low_mark(rt: HostRuntime) -> Result<(), Fail> {
    let mut receiver = ReceiverCredit::new(0, Some(Renewal { low: 2, high: 3 }));
    same(&rt, receiver.wants_flow(), Some(3));
    same(&rt, receiver.renew(), Some(says(0, 3, false)));
    same(&rt, receiver.wants_flow(), None);
    same(&rt, receiver.renew(), None);
    same(&rt, receiver.on_delivery(), Ok(()));
    same(&rt, receiver.wants_flow(), None);
    same(&rt, receiver.on_delivery(), Ok(()));
    same(&rt, receiver.credit(), 1);
    same(&rt, receiver.wants_flow(), Some(3));
    same(&rt, receiver.renew(), Some(says(2, 3, false)));
    same(&rt, receiver.credit(), 3);
    Ok(())
}

#[test]
fn nothing_is_renewed_in_a_drain(rt: HostRuntime) -> Result<(), Fail> {
    let mut receiver = ReceiverCredit::new(0, Some(Renewal { low: 2, high: 3 }));
    same(&rt, receiver.drain(), says(0, 0, true));
    same(&rt, receiver.wants_flow(), None);
    same(&rt, receiver.renew(), None);
    same(&rt, receiver.grant(0), says(0, 0, false));
    same(&rt, receiver.renew(), Some(says(0, 3, false)));
    Ok(())
}

#[test]
fn a_low_mark_above_the_high_one_counts_as_that(rt: HostRuntime) -> Result<(), Fail> {
    let mut receiver = ReceiverCredit::new(0, Some(Renewal { low: 9, high: 2 }));
    same(&rt, receiver.renew(), Some(says(0, 2, false)));
    same(&rt, receiver.wants_flow(), None);
    same(&rt, receiver.on_delivery(), Ok(()));
    same(&rt, receiver.renew(), Some(says(1, 2, false)));
    let _told = receiver.grant(5);
    same(&rt, receiver.wants_flow(), None);
    let mut none = ReceiverCredit::new(0, Some(Renewal { low: 9, high: 0 }));
    same(&rt, none.renew(), None);
    Ok(())
}
