//! What a server needs: sessions and links that the peer begins, and the end of a connection.

use crate::same::{holds, same};
use amqp_connection::SessionNo;
use amqp_driver::{
    Asked, BeginAnswer, Driver, EndAnswer, NONE, PlainRelay, Record, Status, Taken, kind,
    refusal_number,
};
use amqp_engine::Input;
use amqp_events::Policy;
use amqp_session::keys::KeyHash;
use amqp_session::{IncomingChannel, InputHandle, SessionSettings};
use amqp_types::{ConnectionState, Open, ReceiverSettleMode, Role, SessionState};
use std::alloc::Global;
use std::test::Fail;

/// A driver whose links have relays without a sink.
type PlainDriver = Driver<PlainRelay>;

/// What a client sends without waiting: an Open, a Begin on channel 3 that answers none, an Attach of the link "a" on it, and the Begin again.
pub const PIPELINED: [u8; 103] = [
    0x00, 0x00, 0x00, 0x26, 0x02, 0x00, 0x00, 0x00, 0x00, 0x53, 0x10, 0xc0, 0x19, 0x0a, 0xa1, 0x07,
    0x70, 0x73, 0x65, 0x72, 0x76, 0x65, 0x72, 0x40, 0x70, 0x00, 0x00, 0x04, 0x00, 0x60, 0x00, 0x09,
    0x40, 0x40, 0x40, 0x40, 0x40, 0x40, 0x00, 0x00, 0x00, 0x17, 0x02, 0x00, 0x00, 0x03, 0x00, 0x53,
    0x11, 0xc0, 0x0a, 0x04, 0x40, 0x43, 0x52, 0x10, 0x70, 0x7f, 0xff, 0xff, 0xff, 0x00, 0x00, 0x00,
    0x13, 0x02, 0x00, 0x00, 0x03, 0x00, 0x53, 0x12, 0xc0, 0x06, 0x03, 0xa1, 0x01, 0x61, 0x43, 0x41,
    0x00, 0x00, 0x00, 0x17, 0x02, 0x00, 0x00, 0x03, 0x00, 0x53, 0x11, 0xc0, 0x0a, 0x04, 0x40, 0x43,
    0x52, 0x10, 0x70, 0x7f, 0xff, 0xff, 0xff,
];

/// Where the frames end.
pub const OPEN: usize = 38;

pub const BEGIN: usize = 61;

pub const ATTACH: usize = 80;

/// This side's Begin on channel 0 as the answer to the one on channel 3.
pub const ANSWER: [u8; 28] = [
    0x00, 0x00, 0x00, 0x1c, 0x02, 0x00, 0x00, 0x00, 0x00, 0x53, 0x11, 0xc0, 0x0f, 0x04, 0x60, 0x00,
    0x03, 0x43, 0x70, 0x00, 0x00, 0x13, 0x88, 0x70, 0x00, 0x00, 0x13, 0x88,
];

/// A Begin of the peer's that answers one of this side's on channel 1, without its size.
const THEIRS: [u8; 21] =
    *b"\x02\x00\x00\x00\x00\x53\x11\xc0\x0c\x04\x60\x00\x01\x43\x52\x10\x70\x7f\xff\xff\xff";

/// A Close, and bytes that are no frame.
const CLOSE: [u8; 16] = [
    0x00, 0x00, 0x00, 0x0c, 0x02, 0x00, 0x00, 0x00, 0x00, 0x53, 0x18, 0x45, 0x00, 0x00, 0x00, 0x01,
];

/// A driver of a server, which requested its Open.
fn server(alloc: Global) -> Result<PlainDriver, Fail> {
    let open = Open::new(String::from_str(alloc, "me")?);
    let mut driver: PlainDriver = Driver::new(
        alloc,
        KeyHash::Fixed,
        ConnectionState::HeaderExchange,
        open,
    );
    if number(driver.request(Input::Open)) != 0 {
        return Err(Fail::new("the Open was refused"));
    }
    let size = driver.out().len();
    driver.sent(size);
    Ok(driver)
}

/// What became of a request: 0 where it was done, 1001 where memory was refused or a frame was too large, else why it was refused.
pub fn number(asked: Asked) -> u32 {
    match asked {
        Asked::Done => 0,
        Asked::Refused(error) => {
            let number = refusal_number(&error);
            drop(error);
            number
        }
        _ => 1001,
    }
}

/// What became of an answer, by its place among the names; of a refused one why, from 100 on.
pub fn answered(answer: BeginAnswer) -> u32 {
    match answer {
        BeginAnswer::Done => 0,
        BeginAnswer::Unread(error) => {
            drop(error);
            1
        }
        BeginAnswer::NotOpened => 2,
        BeginAnswer::ChannelInUse => 3,
        BeginAnswer::TooLarge => 4,
        BeginAnswer::NoMemory => 5,
        BeginAnswer::Refused(error) => {
            let number = refusal_number(&error);
            drop(error);
            number.saturating_add(100)
        }
        BeginAnswer::Lost => 7,
        BeginAnswer::Broken => 8,
    }
}

/// Answers the Begin in the frame that ends here, without its size, by a session of this number.
fn answer(driver: &mut PlainDriver, from: usize, to: usize, session: u32) -> u32 {
    match PIPELINED.get(from..to) {
        Some(frame) => answered(driver.answer_begin(
            frame,
            SessionNo(session),
            SessionSettings::new(),
        )),
        None => 1002,
    }
}

/// Takes what stands behind a place.
fn take(driver: &mut PlainDriver, from: usize, records: &mut [Record]) -> Taken {
    match PIPELINED.get(from..) {
        Some(rest) => driver.take(rest, records),
        None => driver.take(&[], records),
    }
}

fn stopped(status: Status, taken: usize, written: usize, wanted: usize) -> Taken {
    Taken {
        status,
        taken,
        written,
        wanted,
    }
}

/// The state of a session; none where there is none.
fn state_of(driver: &PlainDriver, session: u32) -> Option<SessionState> {
    match driver.engine().session(SessionNo(session)) {
        Some(session) => Some(*session.local_state()),
        None => None,
    }
}

#[test]
fn a_pipelined_client_is_served(rt: HostRuntime) -> Result<(), Fail> {
    let mut driver = server(rt.alloc())?;
    let mut records = [Record::empty(); 8];
    let first = take(&mut driver, 0, &mut records);
    let (opened, begun) = (records[0].kind, records[1]);
    let done = answer(&mut driver, OPEN + 4, BEGIN, 7);
    let is_answer = driver.out() == ANSWER.as_slice();
    let state = state_of(&driver, 7);
    let second = take(&mut driver, BEGIN, &mut records);
    let attach = records[0];
    let link = Input::AllocateIncomingLink(
        SessionNo(7),
        String::from_str(rt.alloc(), "a")?,
        PlainRelay::new(Policy::new(Role::Sender, ReceiverSettleMode::First)),
        InputHandle(0),
    );
    let linked = number(driver.request(link));
    let third = take(&mut driver, ATTACH, &mut records);
    let again = records[0];
    let reached = driver.engine().session_of(IncomingChannel(3)) == Some(SessionNo(7));
    drop(driver);
    same(&rt, first, stopped(Status::Again, BEGIN, 2, 0));
    same(
        &rt,
        (opened, begun.kind),
        (kind::OPENED, kind::BEGIN_WANTED),
    );
    same(
        &rt,
        (begun.channel, begun.session, begun.refusal),
        (3, NONE, 33),
    );
    same(&rt, (begun.at, begun.size), (46, 15));
    same(&rt, (done, state), (0, Some(SessionState::Mapped)));
    same(&rt, second, stopped(Status::Again, 19, 1, 0));
    same(
        &rt,
        (attach.kind, attach.session, attach.input),
        (kind::ATTACH_WANTED, 7, 0),
    );
    same(&rt, third, stopped(Status::Done, 23, 1, 4));
    same(
        &rt,
        (again.kind, again.refusal, linked),
        (kind::REFUSED, 33, 0),
    );
    holds(&rt, is_answer && reached);
    Ok(())
}

#[test]
fn what_is_not_answered(rt: HostRuntime) -> Result<(), Fail> {
    let mut driver = server(rt.alloc())?;
    let mut records = [Record::empty(); 8];
    let early = answer(&mut driver, OPEN + 4, BEGIN, 7);
    let _ = take(&mut driver, 0, &mut records);
    let with_size = answer(&mut driver, OPEN, BEGIN, 7);
    let attach = answer(&mut driver, BEGIN + 4, ATTACH, 7);
    let theirs = answered(driver.answer_begin(&THEIRS, SessionNo(7), SessionSettings::new()));
    let quiet = driver.out().is_empty();
    let done = answer(&mut driver, OPEN + 4, BEGIN, 7);
    let in_use = answer(&mut driver, OPEN + 4, BEGIN, 8);
    let none = state_of(&driver, 8).is_none();
    drop(driver);
    same(&rt, (early, with_size, attach), (2, 1, 1));
    same(&rt, (theirs, done, in_use), (1, 0, 3));
    holds(&rt, quiet && none);
    Ok(())
}

#[test]
fn a_number_that_was_used(rt: HostRuntime) -> Result<(), Fail> {
    let mut driver = server(rt.alloc())?;
    let begun = number(driver.request(Input::Begin(SessionNo(6), SessionSettings::new())));
    let mut records = [Record::empty(); 8];
    let _ = take(&mut driver, 0, &mut records);
    let used = answer(&mut driver, OPEN + 4, BEGIN, 6);
    let waits = state_of(&driver, 6);
    let other = answer(&mut driver, OPEN + 4, BEGIN, 7);
    let mapped = state_of(&driver, 7);
    drop(driver);
    same(&rt, begun, 0);
    same(&rt, (used, waits), (103, Some(SessionState::BeginSent)));
    same(&rt, (other, mapped), (0, Some(SessionState::Mapped)));
    Ok(())
}

#[test]
fn nothing_is_taken_behind_the_end(rt: HostRuntime) -> Result<(), Fail> {
    let mut driver = server(rt.alloc())?;
    let mut records = [Record::empty(); 8];
    let _ = driver.take(&PIPELINED[..OPEN], &mut records);
    let closed = number(driver.request(Input::Close(None)));
    let last = driver.take(&CLOSE, &mut records);
    let record = records[0];
    let rest = driver.take(&CLOSE, &mut records);
    let none = driver.take(&[], &mut []);
    drop(driver);
    same(&rt, (closed, record.kind), (0, kind::CLOSED));
    same(&rt, last, stopped(Status::Over, 12, 1, 0));
    same(&rt, rest, stopped(Status::Over, 0, 0, 0));
    same(&rt, none, stopped(Status::Over, 0, 0, 0));
    Ok(())
}

/// The peer's End of channel 3, and this side's of its channel 0.
const THEIR_END: [u8; 12] = [
    0x00, 0x00, 0x00, 0x0c, 0x02, 0x00, 0x00, 0x03, 0x00, 0x53, 0x17, 0x45,
];

const OWN_END: [u8; 12] = [
    0x00, 0x00, 0x00, 0x0c, 0x02, 0x00, 0x00, 0x00, 0x00, 0x53, 0x17, 0x45,
];

/// What became of an answer to an End, by its place among the names.
pub fn ended(answer: EndAnswer) -> u32 {
    match answer {
        EndAnswer::Done => 0,
        EndAnswer::NotEnded => 1,
        EndAnswer::Unsent(asked) => number(asked).saturating_add(1000),
        EndAnswer::NotReleased(asked) => number(asked).saturating_add(2000),
        EndAnswer::NotForgotten(asked) => number(asked).saturating_add(3000),
    }
}

#[test]
fn a_session_that_the_peer_ends(rt: HostRuntime) -> Result<(), Fail> {
    let mut driver = server(rt.alloc())?;
    let mut records = [Record::empty(); 8];
    let _ = take(&mut driver, 0, &mut records);
    let done = answer(&mut driver, OPEN + 4, BEGIN, 7);
    let early = ended(driver.answer_end(SessionNo(7), None));
    let size = driver.out().len();
    driver.sent(size);
    let _ = driver.take(&THEIR_END, &mut records);
    let record = records[0];
    let over = ended(driver.answer_end(SessionNo(7), None));
    let is_end = driver.out() == OWN_END.as_slice();
    let again = ended(driver.answer_end(SessionNo(7), None));
    let used = answer(&mut driver, OPEN + 4, BEGIN, 7);
    let next = answer(&mut driver, OPEN + 4, BEGIN, 8);
    drop(driver);
    same(&rt, (done, early, record.kind), (0, 1, kind::ENDED));
    same(&rt, (over, again), (0, 1));
    same(&rt, (used, next), (103, 0));
    holds(&rt, is_end);
    Ok(())
}
