//! Attaches and Detaches that are not requested: what does not fit the peer's frame, and what comes too early.

use crate::same::{holds, same};
use crate::side::{SESSION, Side, exchange, is_sent, pair, pair_by, pass};
use amqp_driver::{Asked, PlainRelay};
use amqp_endpoints::{AttachError, LinkAnswer, LinkEvent};
use amqp_engine::Input;
use amqp_events::Policy;
use amqp_links::{Life, LinkEnd};
use amqp_session::SessionSettings;
use amqp_types::{Attach, Error, Handle, ReceiverSettleMode, Role};
use amqp_values::Symbol;
use std::alloc::Global;
use std::test::Fail;

/// A pair of sides whose frames have at most 512 bytes.
fn small_pair(alloc: Global) -> Result<(Side, Side), Fail> {
    pair_by(alloc, SessionSettings::new(), 512)
}

/// So many letters.
fn letters(alloc: Global, count: usize) -> Result<String, Fail> {
    let mut text = String::new(alloc);
    for _ in 0..count {
        text.push('x')?;
    }
    Ok(text)
}

/// An error with a description of so many letters.
fn error_of(alloc: Global, count: usize) -> Result<Error, Fail> {
    let condition = String::from_str(alloc, "amqp:internal-error")?;
    match Symbol::new(condition) {
        Some(condition) => Ok(Error {
            condition,
            description: Some(letters(alloc, count)?),
            info: None,
        }),
        None => Err(Fail::new("no symbol")),
    }
}

/// The client detaches its link with an error whose description has so many letters.
fn detach(alloc: Global, client: &mut Side, count: usize) -> Result<LinkAnswer, Fail> {
    let error = error_of(alloc, count)?;
    Ok(
        client
            .endpoint
            .detach(&mut client.stream, 0, true, Some(error)),
    )
}

#[test]
fn an_error_that_does_not_fit_is_not_sent(rt: HostRuntime) -> Result<(), Fail> {
    let (mut client, mut server) = small_pair(rt.alloc())?;
    let _ = client.attach(rt.alloc(), "q", Role::Sender, None, None)?;
    holds(&rt, pass(rt.alloc(), &mut client, &mut server));
    let _ = server.attach(rt.alloc(), "q", Role::Receiver, None, None)?;
    holds(&rt, pass(rt.alloc(), &mut server, &mut client));
    let first = detach(rt.alloc(), &mut client, 600)?;
    holds(&rt, matches!(first, LinkAnswer::Asked(Asked::TooLarge)));
    holds(&rt, pass(rt.alloc(), &mut client, &mut server));
    same(&rt, server.count, 0);
    holds(&rt, is_sent(detach(rt.alloc(), &mut client, 400)?));
    holds(&rt, pass(rt.alloc(), &mut client, &mut server));
    let ended = LinkEvent::Ended {
        handle: 0,
        end: LinkEnd::ByPeer,
        closed: true,
    };
    same(&rt, server.events[0], ended);
    drop(client);
    drop(server);
    Ok(())
}

/// An Attach of a sender's named by so many letters, which are allotted a handle.
fn named(alloc: Global, client: &mut Side, count: usize) -> Result<Attach, Fail> {
    let relay = PlainRelay::new(Policy::new(Role::Sender, ReceiverSettleMode::First));
    let name = letters(alloc, count)?;
    drop(
        client
            .stream
            .request(Input::AllocateLink(SESSION, name.clone()?, Some(relay))),
    );
    Ok(Attach::new(name, Handle(0), Role::Sender))
}

#[test]
fn an_attach_that_does_not_fit_is_not_sent(rt: HostRuntime) -> Result<(), Fail> {
    let (mut client, mut server) = small_pair(rt.alloc())?;
    let attach = named(rt.alloc(), &mut client, 600)?;
    let asked = client.endpoint.attach(&mut client.stream, attach, None);
    holds(
        &rt,
        matches!(asked, Err(AttachError::Asked(Asked::TooLarge))),
    );
    drop(asked);
    holds(&rt, client.endpoint.links().end(0).is_none());
    holds(&rt, pass(rt.alloc(), &mut client, &mut server));
    holds(&rt, server.wanted.is_none());
    let attach = named(rt.alloc(), &mut client, 400)?;
    let asked = client.endpoint.attach(&mut client.stream, attach, None);
    holds(&rt, asked.is_ok());
    drop(asked);
    holds(&rt, pass(rt.alloc(), &mut client, &mut server));
    holds(&rt, server.wanted.is_some());
    drop(client);
    drop(server);
    Ok(())
}

#[test]
fn a_detach_waits_for_the_peers_attach(rt: HostRuntime) -> Result<(), Fail> {
    let (mut client, mut server) = pair(rt.alloc())?;
    let _ = client.attach(rt.alloc(), "q", Role::Sender, None, None)?;
    let answer = client.endpoint.detach(&mut client.stream, 0, true, None);
    holds(&rt, matches!(answer, LinkAnswer::HeldBack));
    holds(&rt, pass(rt.alloc(), &mut client, &mut server));
    same(&rt, server.count, 0);
    let _ = server.attach(rt.alloc(), "q", Role::Receiver, None, None)?;
    holds(&rt, pass(rt.alloc(), &mut server, &mut client));
    let attached = LinkEvent::Attached {
        handle: 0,
        life: Life::Attached,
    };
    same(&rt, client.events[0], attached);
    let answer = client.endpoint.detach(&mut client.stream, 0, true, None);
    holds(&rt, is_sent(answer));
    holds(&rt, pass(rt.alloc(), &mut client, &mut server));
    holds(&rt, pass(rt.alloc(), &mut server, &mut client));
    let answered = LinkEvent::Ended {
        handle: 0,
        end: LinkEnd::Answered,
        closed: true,
    };
    same(&rt, client.events[0], answered);
    same(&rt, client.endpoint.remove(0), Ok(()));
    drop(client);
    drop(server);
    Ok(())
}
