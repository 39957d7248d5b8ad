//! Deliveries that a receiver settles second: the session keeps a record of each, and lets it go with what ends it.

use crate::both::attached_by;
use crate::same::{holds, same};
use crate::side::{SESSION, Side, exchange, is_all_done, pair, pass};
use amqp_driver::{Sent, TransferHead, flag};
use amqp_endpoints::{FlowWish, LinkEvent};
use amqp_links::{LinkFault, PartEnd};
use amqp_types::{ReceiverSettleMode, Role};
use std::alloc::Global;
use std::test::Fail;

fn attached_second(alloc: Global) -> Result<(Side, Side), Fail> {
    attached_by(alloc, ReceiverSettleMode::Second)
}

/// How the last part ended its delivery, and what was given with it.
fn end_of(event: LinkEvent) -> Option<(PartEnd, Option<u64>)> {
    match event {
        LinkEvent::Part { handle: _, part } => Some((part.part.end, part.settled)),
        _ => None,
    }
}

#[test]
fn both_sides_settle(rt: HostRuntime) -> Result<(), Fail> {
    let (mut client, mut server) = attached_second(rt.alloc())?;
    same(&rt, client.send(0, b"tone", 0), Ok(0));
    holds(&rt, pass(rt.alloc(), &mut client, &mut server));
    same(&rt, server.open_deliveries(), 1);
    let stated = server
        .endpoint
        .settle(&mut server.stream, Role::Receiver, 0, 0, false, 1);
    holds(&rt, is_all_done(stated));
    holds(&rt, pass(rt.alloc(), &mut server, &mut client));
    let by_relay = LinkEvent::Settled {
        role: Role::Sender,
        first: 0,
        last: 0,
        by_peer: false,
    };
    same(&rt, client.last(), by_relay);
    same(&rt, client.open_deliveries(), 0);
    holds(&rt, pass(rt.alloc(), &mut client, &mut server));
    let by_peer = LinkEvent::Settled {
        role: Role::Receiver,
        first: 0,
        last: 0,
        by_peer: true,
    };
    same(&rt, server.last(), by_peer);
    same(&rt, server.open_deliveries(), 0);
    drop(client);
    drop(server);
    Ok(())
}

#[test]
fn an_aborted_delivery_leaves_nothing(rt: HostRuntime) -> Result<(), Fail> {
    let (mut client, mut server) = attached_second(rt.alloc())?;
    for number in 0..4 {
        same(&rt, client.send(0, b"tone", flag::MORE), Ok(number));
        holds(&rt, pass(rt.alloc(), &mut client, &mut server));
        same(&rt, server.open_deliveries(), 1);
        same(&rt, client.send(0, b"tone", flag::ABORTED), Ok(number));
        holds(&rt, pass(rt.alloc(), &mut client, &mut server));
        same(
            &rt,
            end_of(server.last()),
            Some((PartEnd::Aborted, Some(7))),
        );
        same(&rt, server.open_deliveries(), 0);
        same(&rt, client.open_deliveries(), 0);
        holds(&rt, pass(rt.alloc(), &mut server, &mut client));
    }
    drop(client);
    drop(server);
    Ok(())
}

#[test]
fn a_delivery_that_is_settled_later_leaves_nothing(rt: HostRuntime) -> Result<(), Fail> {
    let (mut client, mut server) = attached_second(rt.alloc())?;
    same(&rt, client.send(0, b"tone", flag::MORE), Ok(0));
    same(&rt, client.send(0, b"tone", flag::SETTLED), Ok(0));
    holds(&rt, pass(rt.alloc(), &mut client, &mut server));
    same(&rt, end_of(server.last()), Some((PartEnd::Last, Some(7))));
    same(&rt, server.open_deliveries(), 0);
    drop(client);
    drop(server);
    Ok(())
}

/// A transfer goes out by the stream itself, whatever credit its link has.
fn send_past(client: &mut Side) {
    let head = TransferHead {
        session: SESSION.0,
        link: 0,
        format: 0,
        payload: 1,
        flags: flag::NUMBERED | flag::TAGGED,
        tag_size: 1,
    };
    let mut sent = [Sent {
        number: 0,
        refusal: 0,
    }];
    let _ = client.stream.send(&[head], b"t1", &mut sent);
}

/// A receiver of the server's that has granted a credit of 1.
fn with_credit_of_1(alloc: Global) -> Result<(Side, Side), Fail> {
    let (mut client, mut server) = pair(alloc)?;
    server.mode = ReceiverSettleMode::Second;
    let _ = client.attach(alloc, "q", Role::Sender, None, None)?;
    exchange(alloc, &mut client, &mut server)?;
    let _ = server.attach(alloc, "q", Role::Receiver, None, None)?;
    drop(
        server
            .endpoint
            .say(&mut server.stream, 0, FlowWish::Grant(1)),
    );
    exchange(alloc, &mut server, &mut client)?;
    Ok((client, server))
}

#[test]
fn a_delivery_past_the_credit_leaves_nothing(rt: HostRuntime) -> Result<(), Fail> {
    let (mut client, mut server) = with_credit_of_1(rt.alloc())?;
    same(&rt, client.send(0, b"tone", 0), Ok(0));
    send_past(&mut client);
    send_past(&mut client);
    holds(&rt, pass(rt.alloc(), &mut client, &mut server));
    same(&rt, server.count, 3);
    let fault = LinkEvent::Fault {
        handle: 0,
        fault: LinkFault::OverCredit,
        number: Some(1),
    };
    same(&rt, server.events[1], fault);
    let passed = LinkEvent::PassedOver {
        handle: 0,
        number: Some(2),
    };
    same(&rt, server.events[2], passed);
    // What the link told is unsettled still, and nothing else is kept.
    same(&rt, server.open_deliveries(), 1);
    drop(client);
    drop(server);
    Ok(())
}
