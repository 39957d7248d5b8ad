//! Both ends of a link: credit, deliveries, settlement, and the end.

use crate::same::{holds, same};
use crate::side::{Side, exchange, is_all_done, is_sent, pair, pass};
use amqp_driver::flag;
use amqp_endpoints::{FlowWish, LinkAnswer, LinkEvent, Renewal, SendFailure};
use amqp_links::{Entry, Life, LinkEnd, PartEnd, SendError, SendPartError};
use amqp_types::{ReceiverSettleMode, Role};
use std::alloc::Global;
use std::test::Fail;

/// A sender of the client's and a receiver of the server's, on one link, with a credit of 2 that is renewed where less than 1 is left.
pub fn attached(alloc: Global) -> Result<(Side, Side), Fail> {
    attached_by(alloc, ReceiverSettleMode::First)
}

/// The same, where the receiver settles by this mode.
pub fn attached_by(alloc: Global, mode: ReceiverSettleMode) -> Result<(Side, Side), Fail> {
    let (mut client, mut server) = pair(alloc)?;
    server.mode = mode;
    let _ = client.attach(alloc, "q", Role::Sender, None, None)?;
    exchange(alloc, &mut client, &mut server)?;
    let renewal = Renewal { low: 1, high: 2 };
    let _ = server.attach(alloc, "q", Role::Receiver, Some(renewal), Some(100))?;
    exchange(alloc, &mut server, &mut client)?;
    Ok((client, server))
}

/// The number of the first part that is told, and how its delivery ends.
fn part(side: &Side) -> Option<(u32, bool, PartEnd, u64)> {
    match side.events[0] {
        LinkEvent::Part { handle: _, part } => Some((
            part.part.number,
            part.part.is_first,
            part.part.end,
            part.part.size,
        )),
        _ => None,
    }
}

#[test]
fn a_link_is_attached_and_has_credit(rt: HostRuntime) -> Result<(), Fail> {
    let (client, server) = attached(rt.alloc())?;
    same(
        &rt,
        client.events[0],
        LinkEvent::Attached {
            handle: 0,
            life: Life::Attached,
        },
    );
    same(
        &rt,
        client.events[1],
        LinkEvent::Flow { handle: 0, used: 0 },
    );
    same(&rt, client.count, 2);
    drop(client);
    drop(server);
    Ok(())
}

#[test]
fn a_link_is_attached_under_another_name(rt: HostRuntime) -> Result<(), Fail> {
    let (mut client, mut server) = pair(rt.alloc())?;
    let _ = client.attach(rt.alloc(), "q", Role::Sender, None, None)?;
    exchange(rt.alloc(), &mut client, &mut server)?;
    same(&rt, server.attach_under(rt.alloc(), "theirs: q", "q")?, 0);
    exchange(rt.alloc(), &mut server, &mut client)?;
    same(
        &rt,
        client.events[0],
        LinkEvent::Attached {
            handle: 0,
            life: Life::Attached,
        },
    );
    same(&rt, client.send(0, b"tone", 0), Ok(0));
    drop(client);
    drop(server);
    Ok(())
}

#[test]
fn deliveries_go_by_credit(rt: HostRuntime) -> Result<(), Fail> {
    let (mut client, mut server) = attached(rt.alloc())?;
    same(&rt, client.send(0, b"tone", 0), Ok(0));
    same(&rt, client.send(0, b"ttwo", flag::SETTLED), Ok(1));
    let no_credit = Err(SendFailure::Link(SendPartError::Link(SendError::NoCredit)));
    same(&rt, client.send(0, b"tthree", 0), no_credit);
    exchange(rt.alloc(), &mut client, &mut server)?;
    same(&rt, part(&server), Some((0, true, PartEnd::Last, 3)));
    same(&rt, server.count, 2);
    same(&rt, server.endpoint.links().is_renewal_due(0), false);
    // The credit was renewed.
    exchange(rt.alloc(), &mut server, &mut client)?;
    same(&rt, client.send(0, b"tthree", flag::MORE), Ok(2));
    same(&rt, client.send(0, b"tfour", flag::MORE), Ok(2));
    same(&rt, client.send(0, b"tfive", 0), Ok(2));
    exchange(rt.alloc(), &mut client, &mut server)?;
    same(&rt, server.count, 3);
    same(&rt, part(&server), Some((2, true, PartEnd::More, 5)));
    drop(client);
    drop(server);
    Ok(())
}

#[test]
fn what_is_unsettled_is_given_back_once(rt: HostRuntime) -> Result<(), Fail> {
    let (mut client, mut server) = attached(rt.alloc())?;
    same(&rt, client.send(0, b"tone", 0), Ok(0));
    same(&rt, client.send(0, b"ttwo", 0), Ok(1));
    exchange(rt.alloc(), &mut client, &mut server)?;
    let asked = server
        .endpoint
        .settle(&mut server.stream, Role::Receiver, 0, 1, true, 1);
    holds(&rt, is_all_done(asked));
    let entry = |number, given| {
        Some(Entry {
            number,
            link: 0,
            given,
        })
    };
    let mut next = || server.endpoint.settled_next(Role::Receiver, 0, 1);
    same(&rt, next(), entry(0, 7));
    same(&rt, next(), entry(1, 7));
    same(&rt, next(), None);
    exchange(rt.alloc(), &mut server, &mut client)?;
    let settled = client.last();
    same(
        &rt,
        settled,
        LinkEvent::Settled {
            role: Role::Sender,
            first: 0,
            last: 1,
            by_peer: true,
        },
    );
    same(
        &rt,
        client.endpoint.settled_next(Role::Sender, 0, 1),
        entry(0, 70),
    );
    same(
        &rt,
        client.endpoint.settled_next(Role::Sender, 0, 1),
        entry(1, 70),
    );
    same(&rt, client.endpoint.settled_next(Role::Sender, 0, 1), None);
    drop(client);
    drop(server);
    Ok(())
}

#[test]
fn a_link_is_detached_and_attached_again(rt: HostRuntime) -> Result<(), Fail> {
    let (mut client, mut server) = attached(rt.alloc())?;
    same(&rt, client.send(0, b"tone", 0), Ok(0));
    exchange(rt.alloc(), &mut client, &mut server)?;
    let answer = server.endpoint.detach(&mut server.stream, 0, true, None);
    holds(&rt, is_sent(answer));
    let again = server.endpoint.detach(&mut server.stream, 0, true, None);
    holds(&rt, matches!(again, LinkAnswer::NotWanted));
    exchange(rt.alloc(), &mut server, &mut client)?;
    let ended = LinkEvent::Ended {
        handle: 0,
        end: LinkEnd::ByPeer,
        closed: true,
    };
    same(&rt, client.last(), ended);
    let left = Entry {
        number: 0,
        link: 0,
        given: 70,
    };
    same(&rt, client.open_deliveries(), 1);
    same(&rt, client.left_next(0), Some(left));
    same(&rt, client.left_next(0), None);
    same(&rt, client.open_deliveries(), 0);
    same(&rt, client.endpoint.left_of_sent(), None);
    same(&rt, client.endpoint.session().0, 0);
    same(&rt, client.endpoint.remove(0), Ok(()));
    exchange(rt.alloc(), &mut client, &mut server)?;
    let answered = LinkEvent::Ended {
        handle: 0,
        end: LinkEnd::Answered,
        closed: true,
    };
    same(&rt, server.events[0], answered);
    same(&rt, server.endpoint.left_of_received().is_some(), true);
    same(&rt, server.endpoint.left_of_received(), None);
    same(&rt, server.endpoint.remove(0), Ok(()));
    same(
        &rt,
        client.attach(rt.alloc(), "q", Role::Sender, None, None)?,
        0,
    );
    drop(client);
    drop(server);
    Ok(())
}

#[test]
fn a_drain_is_answered(rt: HostRuntime) -> Result<(), Fail> {
    let (mut client, mut server) = attached(rt.alloc())?;
    let answer = server
        .endpoint
        .say(&mut server.stream, 0, FlowWish::Grant(5));
    holds(&rt, is_sent(answer));
    let answer = server.endpoint.say(&mut server.stream, 0, FlowWish::Drain);
    holds(&rt, is_sent(answer));
    exchange(rt.alloc(), &mut server, &mut client)?;
    exchange(rt.alloc(), &mut client, &mut server)?;
    same(
        &rt,
        server.events[0],
        LinkEvent::Flow { handle: 0, used: 5 },
    );
    let no_credit = Err(SendFailure::Link(SendPartError::Link(SendError::NoCredit)));
    same(&rt, client.send(0, b"tone", 0), no_credit);
    drop(client);
    drop(server);
    Ok(())
}

#[test]
fn a_later_part_settles_a_delivery(rt: HostRuntime) -> Result<(), Fail> {
    let (mut client, mut server) = attached(rt.alloc())?;
    same(&rt, client.send(0, b"tone", flag::MORE), Ok(0));
    same(
        &rt,
        client.send(0, b"ttwo", flag::MORE | flag::SETTLED),
        Ok(0),
    );
    same(&rt, client.open_deliveries(), 0);
    same(&rt, client.endpoint.links().sent(0), None);
    same(&rt, client.send(0, b"tthree", flag::SETTLED), Ok(0));
    holds(&rt, pass(rt.alloc(), &mut client, &mut server));
    same(&rt, server.count, 3);
    same(&rt, part(&server), Some((0, true, PartEnd::More, 3)));
    same(&rt, server.endpoint.left_of_received(), None);
    same(&rt, server.open_deliveries(), 0);
    drop(client);
    drop(server);
    Ok(())
}

#[test]
fn a_delivery_is_aborted(rt: HostRuntime) -> Result<(), Fail> {
    let (mut client, mut server) = attached(rt.alloc())?;
    same(&rt, client.send(0, b"tone", flag::MORE), Ok(0));
    same(&rt, client.endpoint.links().sent(0).is_some(), true);
    same(&rt, client.open_deliveries(), 1);
    same(&rt, client.send(0, b"ttwo", flag::ABORTED), Ok(0));
    same(&rt, client.endpoint.links().sent(0).is_some(), false);
    same(&rt, client.open_deliveries(), 0);
    exchange(rt.alloc(), &mut client, &mut server)?;
    same(&rt, part(&server), Some((0, true, PartEnd::More, 3)));
    let last = match server.events[1] {
        LinkEvent::Part { handle: _, part } => Some((part.part.end, part.settled)),
        _ => None,
    };
    same(&rt, last, Some((PartEnd::Aborted, Some(7))));
    same(&rt, server.endpoint.left_of_received(), None);
    same(&rt, server.open_deliveries(), 0);
    drop(client);
    drop(server);
    Ok(())
}
