//! The records of a recorded connection: what each says, and that they are the same in whatever parts it comes.

use crate::given::{PlainDriver, feed, link_up, opened};
use crate::received::{BEGUN, INPUT};
use crate::same::{holds, same};
use amqp_driver::{NONE, Record, flag, kind};
use std::alloc::Global;
use std::mem::size_of;
use std::test::Fail;

/// The records of the recorded connection, where so many bytes come at once. The links are requested once the session has begun.
fn records(alloc: Global, size: usize) -> Result<Vec<Record>, Fail> {
    let mut driver = opened(alloc)?;
    let mut found = Vec::new(alloc);
    let opening = feed(&mut driver, &INPUT[..BEGUN], size, &mut found)?;
    link_up(alloc, &mut driver)?;
    let rest = feed(&mut driver, &INPUT[BEGUN..], size, &mut found)?;
    let unfit = driver.unfit();
    drop(driver);
    if opening != BEGUN || rest != INPUT.len() - BEGUN || unfit != 0 {
        return Err(Fail::new("not all was taken"));
    }
    Ok(found)
}

#[test]
fn the_parts_in_which_it_comes_do_not_count(rt: HostRuntime) -> Result<(), Fail> {
    let whole = records(rt.alloc(), INPUT.len())?;
    same(&rt, whole.len(), 20);
    for size in [1usize, 7, 4096] {
        let parts = records(rt.alloc(), size)?;
        same(
            &rt,
            (size, parts.as_slice() == whole.as_slice()),
            (size, true),
        );
    }
    Ok(())
}

/// The record at a place, or an empty one.
fn record_at(records: &Vec<Record>, place: usize) -> Record {
    match records.get(place) {
        Some(record) => *record,
        None => Record::empty(),
    }
}

fn places(record: &Record) -> (u32, u32, u32, u32) {
    (record.at, record.size, record.payload_at, record.payload)
}

fn links(record: &Record) -> (u32, u32, u32, u16) {
    (record.session, record.output, record.input, record.channel)
}

/// Of an Attach the termini, and how sender and receiver settle.
fn terms(record: &Record) -> (u8, u32, u32) {
    (record.outcome, record.credit, record.available)
}

#[test]
fn each_says_what_its_frame_says(rt: HostRuntime) -> Result<(), Fail> {
    let found = records(rt.alloc(), INPUT.len())?;
    let kinds: [u8; 20] = [
        kind::OPENED,
        kind::BEGUN,
        kind::ATTACHED,
        kind::ATTACHED,
        kind::FLOW,
        kind::FLOW,
        kind::TRANSFER,
        kind::DISPOSITION,
        kind::FLOW,
        kind::TRANSFER,
        kind::DISPOSITION,
        kind::FLOW,
        kind::TRANSFER,
        kind::DISPOSITION,
        kind::FLOW,
        kind::DISPOSITION,
        kind::REFUSED,
        kind::REFUSED,
        kind::ENDED,
        kind::CLOSED,
    ];
    for (i, kind) in kinds.iter().enumerate() {
        same(&rt, (i, record_at(&found, i).kind), (i, *kind));
    }
    Ok(())
}

#[test]
fn an_attach(rt: HostRuntime) -> Result<(), Fail> {
    let found = records(rt.alloc(), 4096)?;
    let sender = record_at(&found, 2);
    same(&rt, links(&sender), (6, 1, 0, 0));
    same(
        &rt,
        sender.flags,
        flag::RECEIVER + flag::COUNTED + flag::LINKED,
    );
    same(&rt, terms(&sender), (3, 0, 0));
    let receiver = record_at(&found, 3);
    same(&rt, links(&receiver), (6, 0, 1, 0));
    same(&rt, receiver.flags, flag::COUNTED + flag::LINKED);
    same(&rt, terms(&receiver), (3, 2, 0));
    Ok(())
}

#[test]
fn a_flow(rt: HostRuntime) -> Result<(), Fail> {
    let found = records(rt.alloc(), 4096)?;
    let flow = record_at(&found, 4);
    same(
        &rt,
        flow.flags,
        flag::CREDITED + flag::COUNTED + flag::LINKED,
    );
    same(
        &rt,
        (flow.count, flow.credit, flow.available),
        (4294967280, 5, 0),
    );
    same(&rt, links(&flow), (6, 1, 0, 0));
    Ok(())
}

#[test]
fn a_transfer(rt: HostRuntime) -> Result<(), Fail> {
    let found = records(rt.alloc(), 4096)?;
    let transfer = record_at(&found, 6);
    let mut tag = [0; 32];
    tag[0] = 0x31;
    same(
        &rt,
        transfer.flags,
        flag::NUMBERED + flag::FORMATTED + flag::TAGGED + flag::LINKED,
    );
    same(
        &rt,
        (transfer.first, transfer.last, transfer.format),
        (0, 0, 0),
    );
    same(&rt, transfer.tag_size, 1);
    holds(&rt, transfer.tag == tag);
    same(&rt, links(&transfer), (6, 0, 1, 0));
    // The places are those of the input from `BEGUN` on.
    same(&rt, places(&transfer), (396, 13, 409, 45));
    same(&rt, (transfer.outcome, transfer.refusal), (0, 0));
    Ok(())
}

#[test]
fn a_disposition(rt: HostRuntime) -> Result<(), Fail> {
    let found = records(rt.alloc(), 4096)?;
    let disposition = record_at(&found, 7);
    same(
        &rt,
        disposition.flags,
        flag::SETTLED + flag::RECEIVER + flag::STATED,
    );
    same(&rt, (disposition.first, disposition.last), (7, 7));
    same(&rt, disposition.outcome, 1);
    same(&rt, links(&disposition), (6, NONE, NONE, 0));
    Ok(())
}

#[test]
fn refusals_and_the_end(rt: HostRuntime) -> Result<(), Fail> {
    let found = records(rt.alloc(), 4096)?;
    let begin = record_at(&found, 16);
    same(&rt, begin.refusal, 34);
    same(&rt, links(&begin), (NONE, NONE, NONE, 1));
    let end = record_at(&found, 17);
    same(&rt, end.refusal, 34);
    let ended = record_at(&found, 18);
    same(&rt, (ended.refusal, ended.flags), (0, 0));
    same(&rt, links(&ended), (6, NONE, NONE, 0));
    let closed = record_at(&found, 19);
    same(&rt, (closed.refusal, closed.flags), (0, 0));
    same(&rt, links(&closed), (NONE, NONE, NONE, 0));
    Ok(())
}

#[test]
fn it_has_96_bytes(rt: HostRuntime) {
    same(&rt, size_of::<Record>(), 96);
}
