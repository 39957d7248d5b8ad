//! What waits for the peer's session window, and what the session lets go.

use crate::both::attached;
use crate::same::{holds, same};
use crate::side::{Side, exchange, is_all_done, is_done, is_sent, pair_by};
use amqp_endpoints::{FlowWish, LinkAnswer, LinkEvent};
use amqp_links::{Entry, LinkEnd};
use amqp_session::SessionSettings;
use amqp_types::{Disposition, Raw, Role};
use std::alloc::Global;
use std::test::Fail;

/// A receiver of the client's with a credit of 9, whose session takes two transfers at a time, and a sender of the server's, which has sent five.
fn with_window_of_two(alloc: Global) -> Result<(Side, Side), Fail> {
    let mut settings = SessionSettings::new();
    settings.incoming_window = 2;
    let (mut client, mut server) = pair_by(alloc, settings, u32::MAX)?;
    let _ = client.attach(alloc, "q", Role::Receiver, None, None)?;
    exchange(alloc, &mut client, &mut server)?;
    let _ = server.attach(alloc, "q", Role::Sender, None, None)?;
    exchange(alloc, &mut server, &mut client)?;
    drop(
        client
            .endpoint
            .say(&mut client.stream, 0, FlowWish::Grant(9)),
    );
    exchange(alloc, &mut client, &mut server)?;
    for _ in 0..5 {
        let _ = server.send(0, b"tone", 0);
    }
    Ok((client, server))
}

/// Each side's bytes come to the other one, so often. How many parts came to the client, and its last event.
fn turns(
    alloc: Global,
    client: &mut Side,
    server: &mut Side,
    count: usize,
) -> Result<(usize, LinkEvent), Fail> {
    let mut parts: usize = 0;
    for _ in 0..count {
        exchange(alloc, server, client)?;
        for event in &client.events {
            if matches!(event, LinkEvent::Part { handle: 0, part: _ }) {
                parts = parts.saturating_add(1);
            }
        }
        exchange(alloc, client, server)?;
    }
    Ok((parts, client.last()))
}

#[test]
fn a_detach_waits_for_transfers(rt: HostRuntime) -> Result<(), Fail> {
    let (mut client, mut server) = with_window_of_two(rt.alloc())?;
    let answer = server.endpoint.detach(&mut server.stream, 0, true, None);
    holds(&rt, matches!(answer, LinkAnswer::HeldBack));
    let again = server.endpoint.detach(&mut server.stream, 0, true, None);
    holds(&rt, matches!(again, LinkAnswer::HeldBack));
    same(
        &rt,
        server.endpoint.due_next(&server.stream),
        LinkEvent::Nothing,
    );
    let (parts, _) = turns(rt.alloc(), &mut client, &mut server, 2)?;
    same(&rt, parts, 4);
    same(&rt, server.last(), LinkEvent::Due { handle: 0 });
    let answer = server.endpoint.detach(&mut server.stream, 0, true, None);
    holds(&rt, is_sent(answer));
    let ended = LinkEvent::Ended {
        handle: 0,
        end: LinkEnd::ByPeer,
        closed: true,
    };
    same(
        &rt,
        turns(rt.alloc(), &mut client, &mut server, 1)?,
        (1, ended),
    );
    drop(client);
    drop(server);
    Ok(())
}

#[test]
fn the_answer_to_a_drain_waits_for_transfers(rt: HostRuntime) -> Result<(), Fail> {
    let (mut client, mut server) = with_window_of_two(rt.alloc())?;
    let answer = client.endpoint.say(&mut client.stream, 0, FlowWish::Drain);
    holds(&rt, is_sent(answer));
    exchange(rt.alloc(), &mut client, &mut server)?;
    let (parts, last) = turns(rt.alloc(), &mut client, &mut server, 3)?;
    same(&rt, parts, 5);
    same(&rt, last, LinkEvent::Flow { handle: 0, used: 4 });
    drop(client);
    drop(server);
    Ok(())
}

#[test]
fn the_answer_to_a_detach_waits_for_transfers(rt: HostRuntime) -> Result<(), Fail> {
    let (mut client, mut server) = with_window_of_two(rt.alloc())?;
    let answer = client.endpoint.detach(&mut client.stream, 0, true, None);
    holds(&rt, is_sent(answer));
    exchange(rt.alloc(), &mut client, &mut server)?;
    let _ = turns(rt.alloc(), &mut client, &mut server, 3)?;
    let answered = LinkEvent::Ended {
        handle: 0,
        end: LinkEnd::Answered,
        closed: true,
    };
    same(&rt, client.last(), answered);
    for number in 0..5 {
        let left = Entry {
            number,
            link: 0,
            given: 70,
        };
        same(&rt, server.left_next(0), Some(left));
    }
    same(&rt, server.left_next(0), None);
    same(&rt, server.open_deliveries(), 0);
    same(&rt, server.endpoint.remove(0), Ok(()));
    drop(client);
    drop(server);
    Ok(())
}

#[test]
fn the_session_lets_go_what_the_relay_settles(rt: HostRuntime) -> Result<(), Fail> {
    let (mut client, mut server) = attached(rt.alloc())?;
    same(&rt, client.send(0, b"tone", 0), Ok(0));
    exchange(rt.alloc(), &mut client, &mut server)?;
    let asked = server
        .endpoint
        .settle(&mut server.stream, Role::Receiver, 0, 0, false, 1);
    holds(&rt, is_all_done(asked));
    exchange(rt.alloc(), &mut server, &mut client)?;
    let settled = LinkEvent::Settled {
        role: Role::Sender,
        first: 0,
        last: 0,
        by_peer: false,
    };
    same(&rt, client.last(), settled);
    same(&rt, client.open_deliveries(), 0);
    exchange(rt.alloc(), &mut client, &mut server)?;
    let settled = LinkEvent::Settled {
        role: Role::Receiver,
        first: 0,
        last: 0,
        by_peer: true,
    };
    same(&rt, server.last(), settled);
    drop(client);
    drop(server);
    Ok(())
}

/// Rejected, without an error.
fn rejected(alloc: Global) -> Result<Option<Raw>, Fail> {
    let bytes = bytes::Bytes::copy_from_slice(alloc, b"\x00\x53\x25\x45")?;
    Ok(Raw::of_bytes(bytes))
}

#[test]
fn a_delivery_is_rejected(rt: HostRuntime) -> Result<(), Fail> {
    let (mut client, mut server) = attached(rt.alloc())?;
    same(&rt, client.send(0, b"tone", 0), Ok(0));
    exchange(rt.alloc(), &mut client, &mut server)?;
    let mut disposition = Disposition::new(Role::Receiver, 0);
    disposition.settled = true;
    disposition.state = rejected(rt.alloc())?;
    let asked = server.endpoint.settle_by(&mut server.stream, disposition);
    holds(&rt, is_done(asked));
    same(&rt, server.open_deliveries(), 0);
    exchange(rt.alloc(), &mut server, &mut client)?;
    let settled = LinkEvent::Settled {
        role: Role::Sender,
        first: 0,
        last: 0,
        by_peer: true,
    };
    same(&rt, client.last(), settled);
    drop(client);
    drop(server);
    Ok(())
}
