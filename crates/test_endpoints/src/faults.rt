//! What a sender may not do ends its link.

use crate::both::attached;
use crate::same::{holds, same};
use crate::side::{exchange, is_sent, pair};
use amqp_driver::{NONE, Record, flag, kind};
use amqp_endpoints::{LinkAnswer, LinkEvent, SendFailure};
use amqp_links::{Life, LinkEnd, LinkFault, PartError, RemoveError, SendError, SendPartError};
use amqp_types::Role;
use std::test::Fail;

#[test]
fn a_delivery_past_the_limit_ends_the_link(rt: HostRuntime) -> Result<(), Fail> {
    let (mut client, mut server) = attached(rt.alloc())?;
    let mut record = Record {
        kind: kind::TRANSFER,
        flags: flag::NUMBERED | flag::TAGGED | flag::LINKED,
        session: 0,
        output: 0,
        payload: 101,
        tag_size: 1,
        ..Record::empty()
    };
    let fault = LinkEvent::Fault {
        handle: 0,
        fault: LinkFault::Part(PartError::TooLarge),
        number: Some(0),
    };
    same(&rt, server.endpoint.on_record(&record, 0), Ok(fault));
    record.payload = 1;
    same(
        &rt,
        server.endpoint.on_record(&record, 0),
        Ok(LinkEvent::PassedOver {
            handle: 0,
            number: Some(0),
        }),
    );
    record.session = 1;
    same(
        &rt,
        server.endpoint.on_record(&record, 0),
        Ok(LinkEvent::Nothing),
    );
    let answer = server.endpoint.respond(&mut server.stream, &fault, 0);
    holds(&rt, is_sent(answer));
    let again = server.endpoint.respond(&mut server.stream, &fault, 0);
    holds(&rt, matches!(again, LinkAnswer::NotWanted));
    exchange(rt.alloc(), &mut server, &mut client)?;
    holds(
        &rt,
        matches!(
            client.events[0],
            LinkEvent::Ended {
                handle: 0,
                end: _,
                closed: true
            }
        ),
    );
    drop(client);
    drop(server);
    Ok(())
}

#[test]
fn a_flow_of_the_session_is_of_no_link(rt: HostRuntime) -> Result<(), Fail> {
    let (client, mut server) = attached(rt.alloc())?;
    let record = Record {
        kind: kind::FLOW,
        flags: flag::ECHO,
        session: 0,
        ..Record::empty()
    };
    same(
        &rt,
        server.endpoint.on_record(&record, 0),
        Ok(LinkEvent::Nothing),
    );
    drop(client);
    drop(server);
    Ok(())
}

#[test]
fn a_link_is_refused(rt: HostRuntime) -> Result<(), Fail> {
    let (mut client, mut server) = pair(rt.alloc())?;
    let link = client.attach(rt.alloc(), "q", Role::Sender, None, None)?;
    exchange(rt.alloc(), &mut client, &mut server)?;
    // The peer's Attach has no target.
    let record = Record {
        kind: kind::ATTACHED,
        flags: flag::RECEIVER | flag::LINKED,
        outcome: 1,
        session: 0,
        output: link,
        input: 0,
        ..Record::empty()
    };
    let refused = LinkEvent::Attached {
        handle: link,
        life: Life::Refused,
    };
    same(&rt, client.endpoint.on_record(&record, 0), Ok(refused));
    let not_attached = SendFailure::Link(SendPartError::Link(SendError::NotAttached));
    same(&rt, client.send(link, b"tone", 0), Err(not_attached));
    let detached = Record {
        kind: kind::DETACHED,
        flags: flag::LINKED | flag::FOR_GOOD | flag::WITH_ERROR,
        output: NONE,
        ..record
    };
    let ended = LinkEvent::Ended {
        handle: link,
        end: LinkEnd::Refused,
        closed: true,
    };
    same(&rt, client.endpoint.on_record(&detached, 0), Ok(ended));
    same(
        &rt,
        client.endpoint.remove(link),
        Err(RemoveError::NotDetached),
    );
    let answer = client.endpoint.respond(&mut client.stream, &ended, 0);
    holds(&rt, is_sent(answer));
    same(&rt, client.endpoint.remove(link), Ok(()));
    drop(client);
    drop(server);
    Ok(())
}
