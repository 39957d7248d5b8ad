//! What is sent: requests, transfers by their heads, dispositions, and what became of each.

use crate::given::{PlainDriver, feed, link_up, opened};
use crate::received::{BEGUN, INPUT};
use crate::same::{holds, same};
use amqp_connection::SessionNo;
use amqp_driver::{Asked, Posted, Sent, Status, TransferHead, flag, refusal_number};
use amqp_engine::Input;
use amqp_session::{InputHandle, OutputHandle, SessionSettings};
use amqp_types::Role;
use std::alloc::Global;
use std::test::Fail;

/// Where the two Attaches end. The peer's window is 16 transfers, and its frames have at most 1024 bytes.
const ATTACHED: usize = 375;

/// A driver whose session 6 has its links: the one that sends has the peer's handle 0, and this side's handle 1.
pub fn attached(alloc: Global) -> Result<PlainDriver, Fail> {
    let mut driver = opened(alloc)?;
    let mut found = Vec::new(alloc);
    let _ = feed(&mut driver, &INPUT[..BEGUN], BEGUN, &mut found)?;
    link_up(alloc, &mut driver)?;
    let _ = feed(&mut driver, &INPUT[BEGUN..ATTACHED], ATTACHED, &mut found)?;
    let first = driver.out().len();
    driver.sent(first);
    Ok(driver)
}

/// The head of a delivery of the link with this handle of this side's.
pub fn head(link: u32, tag_size: u16, payload: u32) -> TransferHead {
    TransferHead {
        session: 6,
        link,
        format: 0,
        payload,
        flags: flag::NUMBERED + flag::TAGGED,
        tag_size,
    }
}

const NOTHING: Sent = Sent {
    number: 7,
    refusal: 7,
};

fn told(number: u32, refusal: u32) -> Sent {
    Sent { number, refusal }
}

fn posted(status: Status, taken: usize, used: usize) -> Posted {
    Posted {
        status,
        taken,
        used,
    }
}

/// How many transfers the session holds back.
fn held_back(driver: &PlainDriver) -> usize {
    match driver.engine().session(SessionNo(6)) {
        Some(session) => session.held_back(),
        None => 0,
    }
}

#[test]
fn numbers_are_told_while_the_window_is_closed(rt: HostRuntime) -> Result<(), Fail> {
    let mut driver = attached(rt.alloc())?;
    let mut sent = [NOTHING; 18];
    let found = driver.send(&[head(1, 1, 1); 18], &[0x31; 36], &mut sent);
    let held = held_back(&driver);
    drop(driver);
    same(&rt, found, posted(Status::Done, 18, 36));
    same(&rt, held, 2);
    same(&rt, (sent[0], sent[15]), (told(0, 0), told(15, 0)));
    same(&rt, (sent[16], sent[17]), (told(16, 0), told(17, 0)));
    Ok(())
}

#[test]
fn a_refused_one_changes_nothing(rt: HostRuntime) -> Result<(), Fail> {
    let mut driver = attached(rt.alloc())?;
    let mut sent = [NOTHING; 6];
    let heads = [
        head(1, 1, 1),
        head(9, 1, 1),
        head(1, 33, 1),
        head(1, 1, 1020),
        head(1, 1, 2),
        TransferHead {
            session: 5,
            ..head(1, 1, 1)
        },
    ];
    let found = driver.send(&heads, &[0x31; 1064], &mut sent);
    drop(driver);
    same(&rt, found, posted(Status::Done, 6, 1064));
    same(&rt, (sent[0], sent[4]), (told(0, 0), told(1, 0)));
    same(&rt, (sent[1], sent[2]), (told(0, 61), told(0, 92)));
    same(&rt, (sent[3], sent[5]), (told(0, 91), told(0, 2)));
    Ok(())
}

/// The head of a part of a delivery.
fn part(tag_size: u16, flags: u16) -> TransferHead {
    TransferHead {
        flags,
        ..head(1, tag_size, 1)
    }
}

#[test]
fn a_refused_part_takes_the_rest_with_it(rt: HostRuntime) -> Result<(), Fail> {
    let mut driver = attached(rt.alloc())?;
    let mut sent = [NOTHING; 5];
    let heads = [
        part(33, flag::NUMBERED + flag::TAGGED + flag::MORE),
        part(0, flag::MORE),
        part(0, 0),
        part(1, flag::NUMBERED + flag::TAGGED + flag::MORE),
        part(0, 0),
    ];
    let found = driver.send(&heads, &[0x31; 39], &mut sent);
    drop(driver);
    same(&rt, found, posted(Status::Done, 5, 39));
    same(&rt, (sent[0], sent[1]), (told(0, 92), told(0, 92)));
    same(&rt, (sent[2], sent[3]), (told(0, 92), told(0, 0)));
    same(&rt, sent[4], told(0, 0));
    Ok(())
}

#[test]
fn a_link_is_attached_before_it_sends(rt: HostRuntime) -> Result<(), Fail> {
    let mut driver = opened(rt.alloc())?;
    let mut found = Vec::new(rt.alloc());
    let session = SessionNo(6);
    let _ = feed(&mut driver, &INPUT[..BEGUN], BEGUN, &mut found)?;
    let unknown = driver.input_handle_of(session, OutputHandle(1));
    link_up(rt.alloc(), &mut driver)?;
    let waits = driver.input_handle_of(session, OutputHandle(1));
    let mut early = [NOTHING];
    let _ = driver.send(&[head(1, 1, 1)], b"1a", &mut early);
    let _ = feed(&mut driver, &INPUT[BEGUN..ATTACHED], ATTACHED, &mut found)?;
    let (first, second) = (
        driver.input_handle_of(session, OutputHandle(0)),
        driver.input_handle_of(session, OutputHandle(1)),
    );
    let mut sent = [NOTHING];
    let _ = driver.send(&[head(1, 1, 1)], b"1a", &mut sent);
    drop(driver);
    same(&rt, (unknown, waits), (None, None));
    same(
        &rt,
        (first, second),
        (Some(InputHandle(1)), Some(InputHandle(0))),
    );
    same(&rt, (early[0], sent[0]), (told(0, 61), told(0, 0)));
    Ok(())
}

#[test]
fn a_delivery_in_two_transfers(rt: HostRuntime) -> Result<(), Fail> {
    let mut driver = attached(rt.alloc())?;
    let mut sent = [NOTHING; 3];
    let heads = [
        TransferHead {
            flags: flag::NUMBERED + flag::TAGGED + flag::MORE + flag::SETTLED,
            ..head(1, 1, 2)
        },
        TransferHead {
            flags: 0,
            ..head(1, 0, 2)
        },
        head(1, 1, 0),
    ];
    let found = driver.send(&heads, b"1abcd2", &mut sent);
    let frames = driver.out()
        == [
            0x00, 0x00, 0x00, 0x19, 0x02, 0x00, 0x00, 0x01, 0x00, 0x53, 0x14, 0xc0, 0x0a, 0x06,
            0x52, 0x01, 0x43, 0xa0, 0x01, 0x31, 0x40, 0x41, 0x41, 0x61, 0x62, 0x00, 0x00, 0x00,
            0x12, 0x02, 0x00, 0x00, 0x01, 0x00, 0x53, 0x14, 0xc0, 0x03, 0x01, 0x52, 0x01, 0x63,
            0x64, 0x00, 0x00, 0x00, 0x17, 0x02, 0x00, 0x00, 0x01, 0x00, 0x53, 0x14, 0xc0, 0x0a,
            0x05, 0x52, 0x01, 0x52, 0x01, 0xa0, 0x01, 0x32, 0x40, 0x42,
        ]
        .as_slice();
    drop(driver);
    same(&rt, found, posted(Status::Done, 3, 6));
    same(
        &rt,
        (sent[0], sent[1], sent[2]),
        (told(0, 0), told(0, 0), told(1, 0)),
    );
    holds(&rt, frames);
    Ok(())
}

#[test]
fn where_it_stops(rt: HostRuntime) -> Result<(), Fail> {
    let mut driver = attached(rt.alloc())?;
    let mut sent = [NOTHING; 2];
    let short = driver.send(&[head(1, 1, 1); 2], b"1a2", &mut sent);
    let full = driver.send(&[head(1, 1, 1); 3], b"2b3c4d", &mut sent);
    let none = driver.send(&[], b"5", &mut []);
    drop(driver);
    same(&rt, short, posted(Status::Short, 1, 2));
    same(&rt, full, posted(Status::Full, 2, 4));
    same(&rt, none, posted(Status::Done, 0, 0));
    same(&rt, (sent[0], sent[1]), (told(1, 0), told(2, 0)));
    Ok(())
}

/// What became of a request: 0 where it was done, 1000 where a frame was too large, 1001 where memory was refused, else why it was refused.
fn number(asked: Asked) -> u32 {
    match asked {
        Asked::Done => 0,
        Asked::TooLarge => 1000,
        Asked::NoMemory | Asked::Over => 1001,
        Asked::Refused(error) => {
            let number = refusal_number(&error);
            drop(error);
            number
        }
    }
}

#[test]
fn a_request_is_answered(rt: HostRuntime) -> Result<(), Fail> {
    let mut driver = attached(rt.alloc())?;
    let done = number(driver.request(Input::Begin(SessionNo(7), SessionSettings::new())));
    let again = number(driver.request(Input::Begin(SessionNo(7), SessionSettings::new())));
    let flushed = driver.flush().is_ok();
    drop(driver);
    same(&rt, (done, again), (0, 3));
    holds(&rt, flushed);
    Ok(())
}

#[test]
fn a_disposition_by_numbers(rt: HostRuntime) -> Result<(), Fail> {
    let mut driver = attached(rt.alloc())?;
    let none = driver
        .dispose(SessionNo(6), Role::Receiver, 1, 3, true, 2)
        .is_none();
    let asked = driver.dispose(SessionNo(6), Role::Receiver, 1, 3, true, 1);
    let done = match asked {
        Some(asked) => number(asked),
        None => 1002,
    };
    let frame = driver.out()
        == [
            0x00, 0x00, 0x00, 0x18, 0x02, 0x00, 0x00, 0x01, 0x00, 0x53, 0x15, 0xc0, 0x0b, 0x05,
            0x41, 0x52, 0x01, 0x52, 0x03, 0x41, 0x00, 0x53, 0x24, 0x45,
        ]
        .as_slice();
    drop(driver);
    same(&rt, (none, done), (true, 0));
    holds(&rt, frame);
    Ok(())
}
