//! The links of one session: each call once, and what is refused.

use crate::receiving::first;
use crate::same::{holds, same};
use amqp_links::{
    AddError, CreditFlow, End, Entry, Life, LinkEnd, LinkFault, LinkFlow, PartEnd, PartHead,
    PartTag, PeerAttach, PreparedPart, ReceivedPart, RemoveError, Renewal, SendError,
    SendPartError, SentPart, SessionLinks, TakePartError, TransferError,
};
use std::alloc::Global;
use std::process::Abort;
use std::test::Fail;

const ACCEPTED: PeerAttach = PeerAttach {
    is_accepted: true,
    initial_delivery_count: 0,
    max_message_size: Some(10),
};

/// A flow of the receiver's, with this credit.
fn credit(link_credit: u32, drain: bool, echo: bool) -> CreditFlow {
    CreditFlow {
        delivery_count: Some(0),
        link_credit: Some(link_credit),
        drain,
        echo,
    }
}

fn part(number: u32, end: PartEnd, settled: bool) -> SentPart {
    SentPart {
        number,
        size: 3,
        end,
        settled,
        given: u64::from(number) * 10,
    }
}

fn entry(number: u32, link: u32) -> Option<Entry> {
    Some(Entry {
        number,
        link,
        given: u64::from(number) * 10,
    })
}

/// A sender on handle 2 and a receiver on handle 0, both attached, with credit of 5 for each.
fn attached(rt: &impl Abort, alloc: Global) -> SessionLinks {
    let mut links = SessionLinks::new(alloc);
    same(rt, links.add_sender(2, 0), Ok(()));
    same(
        rt,
        links.add_receiver(0, Some(Renewal { low: 3, high: 5 }), Some(8)),
        Ok(()),
    );
    same(rt, links.on_attach(2, ACCEPTED), Some(Life::Attached));
    same(rt, links.on_attach(0, ACCEPTED), Some(Life::Attached));
    same(rt, links.on_flow(2, credit(5, false, false)), Some(Ok(0)));
    same(
        rt,
        links.renew(0),
        Some(LinkFlow {
            delivery_count: 0,
            link_credit: 5,
            available: None,
            drain: false,
        }),
    );
    links
}

fn life(links: &SessionLinks, handle: u32) -> Option<Life> {
    match links.end(handle)? {
        End::Sending(link) => Some(link.life()),
        End::Receiving(link) => Some(link.life()),
    }
}

#[test]
fn links_come_and_go(rt: HostRuntime) -> Result<(), Fail> {
    let mut links = SessionLinks::new(rt.alloc());
    same(&rt, links.add_sender(1, 0), Ok(()));
    same(&rt, links.add_receiver(1, None, None), Err(AddError::InUse));
    holds(&rt, links.end(0).is_none());
    same(&rt, links.on_attach(0, ACCEPTED), None);
    same(
        &rt,
        links.on_attach(
            1,
            PeerAttach {
                is_accepted: false,
                ..ACCEPTED
            },
        ),
        Some(Life::Refused),
    );
    same(&rt, links.remove(1), Err(RemoveError::NotDetached));
    same(&rt, links.on_detach(1), Some(LinkEnd::Refused));
    same(&rt, links.remove(1), Ok(()));
    same(&rt, links.remove(1), Err(RemoveError::NoLink));
    same(&rt, links.add_receiver(1, None, None), Ok(()));
    same(&rt, links.detach(1), Some(Life::Detaching));
    same(&rt, links.detach(0), None);
    same(&rt, links.on_detach(1), Some(LinkEnd::Answered));
    same(&rt, links.on_detach(0), None);
    Ok(())
}

#[test]
fn what_is_sent_is_unsettled(rt: HostRuntime) -> Result<(), Fail> {
    let mut links = attached(&rt, rt.alloc());
    same(
        &rt,
        links.send(0, part(7, PartEnd::Last, false)),
        Err(SendPartError::NoSender),
    );
    same(
        &rt,
        links.send(1, part(7, PartEnd::Last, false)),
        Err(SendPartError::NoSender),
    );
    same(&rt, links.send(2, part(7, PartEnd::Last, false)), Ok(None));
    same(
        &rt,
        links.send(2, part(7, PartEnd::Last, false)),
        Err(SendPartError::NotNext),
    );
    same(&rt, links.send(2, part(8, PartEnd::Last, true)), Ok(None));
    same(&rt, links.send(2, part(9, PartEnd::More, false)), Ok(None));
    same(&rt, links.sent(9), entry(9, 2));
    same(
        &rt,
        links.send(2, part(9, PartEnd::Aborted, false)),
        Ok(Some(90)),
    );
    same(&rt, links.sent(9), None);
    same(&rt, links.send(2, part(10, PartEnd::More, false)), Ok(None));
    same(
        &rt,
        links.send(2, part(10, PartEnd::Last, true)),
        Ok(Some(100)),
    );
    same(
        &rt,
        links.send(
            2,
            SentPart {
                size: 11,
                ..part(11, PartEnd::Last, false)
            },
        ),
        Err(SendPartError::Link(SendError::TooLarge)),
    );
    same(&rt, links.send(2, part(11, PartEnd::Last, false)), Ok(None));
    same(
        &rt,
        links.send(2, part(12, PartEnd::Last, false)),
        Err(SendPartError::Link(SendError::NoCredit)),
    );
    same(&rt, links.settle_received(0, 20), None);
    same(&rt, links.settle_sent(0, 20), entry(7, 2));
    same(&rt, links.settle_sent(0, 20), entry(11, 2));
    same(&rt, links.settle_sent(0, 20), None);
    Ok(())
}

#[test]
fn what_comes_is_unsettled(rt: HostRuntime) -> Result<(), Fail> {
    let mut links = attached(&rt, rt.alloc());
    same(
        &rt,
        links.on_transfer(2, first(7, 3, false), 70),
        Err(TakePartError::NoReceiver),
    );
    same(
        &rt,
        links.on_transfer(1, first(7, 3, false), 70),
        Err(TakePartError::NoReceiver),
    );
    same(
        &rt,
        told(links.on_transfer(0, first(7, 3, false), 70)),
        Some((7, None)),
    );
    same(
        &rt,
        told(links.on_transfer(0, first(8, 3, true), 80)),
        Some((8, None)),
    );
    same(&rt, links.received(8), entry(8, 0));
    let aborts = PartHead {
        aborted: true,
        number: None,
        tag: PartTag::Absent,
        ..first(8, 3, false)
    };
    same(
        &rt,
        told(links.on_transfer(0, aborts, 0)),
        Some((8, Some(80))),
    );
    same(
        &rt,
        told(links.on_transfer(
            0,
            PartHead {
                settled: Some(true),
                ..first(9, 3, false)
            },
            90,
        )),
        Some((9, None)),
    );
    same(&rt, links.received(9), None);
    same(
        &rt,
        links.on_transfer(0, first(7, 3, false), 70),
        Err(TakePartError::NotNext),
    );
    same(
        &rt,
        links.on_transfer(0, first(10, 9, false), 100),
        Err(TakePartError::Link(TransferError::Fault(LinkFault::Part(
            amqp_links::PartError::TooLarge,
        )))),
    );
    same(&rt, life(&links, 0), Some(Life::Detaching));
    same(
        &rt,
        links.on_transfer(0, first(10, 3, false), 100),
        Err(TakePartError::Link(TransferError::NotAttached)),
    );
    same(&rt, links.settle_sent(7, 7), None);
    same(&rt, links.settle_received(7, 7), entry(7, 0));
    Ok(())
}

/// The number of a part, and what was given where it settles its delivery.
fn told(told: Result<ReceivedPart, TakePartError>) -> Option<(u32, Option<u64>)> {
    match told {
        Ok(told) => Some((told.part.number, told.settled)),
        Err(_) => None,
    }
}

#[test]
fn credit_is_granted_and_used_up(rt: HostRuntime) -> Result<(), Fail> {
    let mut links = attached(&rt, rt.alloc());
    let says = |delivery_count, link_credit, available, drain| {
        Some(LinkFlow {
            delivery_count,
            link_credit,
            available,
            drain,
        })
    };
    same(&rt, links.renew(0), None);
    same(&rt, links.grant(0, 9), says(0, 9, None, false));
    same(&rt, links.grant(2, 9), None);
    same(&rt, links.drain(0), says(0, 9, None, true));
    same(&rt, links.drain(2), None);
    same(&rt, links.renew(2), None);
    let used = CreditFlow {
        delivery_count: Some(9),
        link_credit: None,
        drain: false,
        echo: true,
    };
    same(&rt, links.on_flow(0, used), Some(Ok(9)));
    same(&rt, links.answer(0, 0), says(9, 0, None, true));
    same(&rt, links.answer(0, 0), None);
    same(&rt, links.answer(1, 0), None);
    same(&rt, links.on_flow(1, used), None);
    same(&rt, links.on_flow(2, credit(5, true, false)), Some(Ok(0)));
    same(&rt, links.answer(2, 1), None);
    same(&rt, links.answer(2, 0), says(5, 0, Some(0), true));
    let past = CreditFlow {
        delivery_count: Some(10),
        ..used
    };
    same(
        &rt,
        links.on_flow(0, past),
        Some(Err(LinkFault::CountPastLimit)),
    );
    same(&rt, life(&links, 0), Some(Life::Detaching));
    Ok(())
}

#[test]
fn what_is_left_is_told_once(rt: HostRuntime) -> Result<(), Fail> {
    let mut links = attached(&rt, rt.alloc());
    same(&rt, links.send(2, part(7, PartEnd::Last, false)), Ok(None));
    same(&rt, links.send(2, part(8, PartEnd::More, false)), Ok(None));
    same(
        &rt,
        told(links.on_transfer(0, first(7, 3, false), 70)),
        Some((7, None)),
    );
    same(&rt, links.left_next(2), None);
    same(&rt, links.on_detach(2), Some(LinkEnd::ByPeer));
    same(&rt, links.remove(2), Err(RemoveError::Unsettled));
    same(&rt, links.left_next(2), entry(7, 2));
    same(&rt, links.left_next(2), entry(8, 2));
    same(&rt, links.left_next(2), None);
    same(&rt, links.left_next(1), None);
    same(&rt, links.remove(2), Ok(()));
    same(&rt, links.left_next(0), None);
    same(
        &rt,
        links.send(2, part(9, PartEnd::Last, false)),
        Err(SendPartError::NoSender),
    );
    same(&rt, links.left_of_sent(), None);
    same(&rt, links.left_of_received(), entry(7, 0));
    same(&rt, links.left_of_received(), None);
    Ok(())
}

/// The part of the sender, which is prepared.
fn prepared(rt: &impl Abort, links: &mut SessionLinks, part: SentPart) -> PreparedPart {
    match links.prepare_send(2, part) {
        Ok(prepared) => prepared,
        Err(_) => rt.abort(),
    }
}

#[test]
fn a_part_is_sent_in_two_halves(rt: HostRuntime) -> Result<(), Fail> {
    let mut links = attached(&rt, rt.alloc());
    let first = prepared(&rt, &mut links, part(7, PartEnd::More, false));
    holds(&rt, first.is_first());
    same(&rt, first.part(), part(7, PartEnd::More, false));
    same(&rt, links.sent(7), entry(7, 2));
    links.cancel_send(&first);
    same(&rt, links.sent(7), None);
    let again = prepared(&rt, &mut links, part(7, PartEnd::More, false));
    same(&rt, links.finish_send(&again), None);
    same(&rt, links.sent(7), entry(7, 2));
    // The credit of 5 has one less, and a later part is no first one.
    let last = prepared(&rt, &mut links, part(7, PartEnd::Last, true));
    holds(&rt, !last.is_first());
    links.cancel_send(&last);
    same(&rt, links.sent(7), entry(7, 2));
    same(&rt, links.finish_send(&last), Some(70));
    same(&rt, links.sent(7), None);
    for number in 8..12 {
        same(
            &rt,
            links.send(2, part(number, PartEnd::Last, true)),
            Ok(None),
        );
    }
    same(
        &rt,
        links.prepare_send(2, part(12, PartEnd::Last, true)).err(),
        Some(SendPartError::Link(SendError::NoCredit)),
    );
    same(
        &rt,
        links.prepare_send(0, part(12, PartEnd::Last, true)).err(),
        Some(SendPartError::NoSender),
    );
    Ok(())
}

#[test]
fn room_is_made_for_a_link(rt: HostRuntime) -> Result<(), Fail> {
    let mut links = attached(&rt, rt.alloc());
    same(&rt, links.make_room(9), Ok(()));
    same(&rt, links.make_room(2), Ok(()));
    same(&rt, life(&links, 2), Some(Life::Attached));
    same(&rt, life(&links, 9), None);
    same(&rt, links.add_sender(9, 0), Ok(()));
    same(&rt, life(&links, 9), Some(Life::Attaching));
    Ok(())
}
