//! Both ends of a link, face to face: ten thousand deliveries by renewed credit, and a drain.

use crate::receiving::first;
use crate::same::{holds, same};
use amqp_links::{CreditFlow, Grant, PartEnd, ReceivingLink, Renewal, SendingLink};
use std::test::Fail;

/// The flow that this grant is.
fn flow(grant: Grant) -> CreditFlow {
    CreditFlow {
        delivery_count: Some(grant.delivery_count),
        link_credit: Some(grant.link_credit),
        drain: grant.drain,
        echo: false,
    }
}

#[test]
fn ten_thousand_deliveries(rt: HostRuntime) -> Result<(), Fail> {
    let mut sender = SendingLink::new(4_294_967_290);
    let mut receiver = ReceivingLink::new(Some(Renewal { low: 5, high: 10 }), None);
    sender.on_attach(true, None);
    receiver.on_attach(true, 4_294_967_290);
    for number in 0..10_000 {
        if let Some(grant) = receiver.renew() {
            sender.on_flow(flow(grant));
        }
        same(&rt, sender.send(3, PartEnd::Last), Ok(()));
        holds(&rt, receiver.on_transfer(first(number, 3, false)).is_ok());
        same(&rt, sender.credit(), receiver.credit());
    }
    if let Some(grant) = receiver.drain() {
        sender.on_flow(flow(grant));
    }
    if let Some(used) = sender.answer(0) {
        holds(
            &rt,
            receiver.on_flow(Some(used.delivery_count), false).is_ok(),
        );
    }
    same(&rt, receiver.credit(), 0);
    same(&rt, sender.credit(), 0);
    Ok(())
}
