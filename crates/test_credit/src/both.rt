//! Both ends of one link.

use crate::same::{holds, same};
use amqp_credit::{NoCredit, ReceiverCredit, Renewal, SenderCredit};
use std::test::Fail;

#[test]
fn a_thousand_deliveries_over_the_wrap(rt: HostRuntime) -> Result<(), Fail> {
    let mut sender = SenderCredit::new(4_294_966_795);
    let mut receiver = ReceiverCredit::new(4_294_966_795, Some(Renewal { low: 10, high: 30 }));
    for _ in 0..1_000u32 {
        if let Some(grant) = receiver.renew() {
            sender.on_flow(
                Some(grant.delivery_count),
                Some(grant.link_credit),
                grant.drain,
            );
        }
        same(&rt, sender.send(), Ok(()));
        same(&rt, receiver.on_delivery(), Ok(()));
        same(&rt, sender.credit(), receiver.credit());
    }
    same(&rt, sender.delivery_count(), 499);
    same(&rt, receiver.delivery_count(), 499);
    Ok(())
}

#[test]
fn deliveries_pass_a_grant_on_the_way(rt: HostRuntime) -> Result<(), Fail> {
    let mut sender = SenderCredit::new(0);
    let mut receiver = ReceiverCredit::new(0, None);
    let first = receiver.grant(2);
    sender.on_flow(None, Some(first.link_credit), first.drain);
    same(&rt, sender.send(), Ok(()));
    same(&rt, sender.send(), Ok(()));
    let second = receiver.grant(3);
    same(&rt, receiver.on_delivery(), Ok(()));
    sender.on_flow(
        Some(second.delivery_count),
        Some(second.link_credit),
        second.drain,
    );
    same(&rt, sender.credit(), 1);
    same(&rt, sender.send(), Ok(()));
    same(&rt, sender.send(), Err(NoCredit));
    same(&rt, receiver.on_delivery(), Ok(()));
    same(&rt, receiver.on_delivery(), Ok(()));
    same(&rt, receiver.credit(), 0);
    Ok(())
}

#[test]
fn a_drain_goes_there_and_back(rt: HostRuntime) -> Result<(), Fail> {
    let mut sender = SenderCredit::new(0);
    let mut receiver = ReceiverCredit::new(0, None);
    let grant = receiver.grant(5);
    sender.on_flow(
        Some(grant.delivery_count),
        Some(grant.link_credit),
        grant.drain,
    );
    same(&rt, sender.send(), Ok(()));
    let drain = receiver.drain();
    sender.on_flow(
        Some(drain.delivery_count),
        Some(drain.link_credit),
        drain.drain,
    );
    holds(&rt, sender.drain_wanted());
    same(&rt, sender.use_up(), 4);
    same(&rt, receiver.on_delivery(), Ok(()));
    same(&rt, receiver.on_flow(Some(sender.delivery_count())), Ok(4));
    same(&rt, sender.delivery_count(), receiver.delivery_count());
    same(&rt, sender.credit(), receiver.credit());
    Ok(())
}
