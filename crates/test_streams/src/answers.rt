//! The answers that records ask for, given by one call.

use crate::same::{holds, same};
use crate::serving::{ATTACH, PIPELINED, answered, ended, number};
use crate::sessions::{END, ENDED};
use crate::streams::{AMQP, PlainStream, sent, stream, take};
use amqp_connection::SessionNo;
use amqp_driver::{Record, RecordAnswer, answer_by_number, answers, kind};
use amqp_engine::Input;
use amqp_sasl::Opening;
use amqp_types::SessionState;
use fe2o3_amqp::{ErrorCondition, PeerAnswer};
use std::alloc::Global;
use std::test::Fail;

/// A Flow on channel 3 that names the handle 9, which no link has.
const FLOW: [u8; 22] =
    *b"\x00\x00\x00\x16\x02\x00\x00\x03\x00\x53\x13\xc0\x09\x05\x40\x52\x10\x43\x52\x10\x52\x09";

/// The peer's Close, and this side's.
const CLOSE: [u8; 12] = *b"\x00\x00\x00\x0c\x02\x00\x00\x00\x00\x53\x18\x45";

/// What became of an answer: its kind, and what the tests of that kind say of it.
fn told(answer: RecordAnswer) -> (u8, u32) {
    match answer {
        RecordAnswer::Nothing => (0, 0),
        RecordAnswer::Begin(begun) => (1, answered(begun)),
        RecordAnswer::End(over) => (2, ended(over)),
        RecordAnswer::Asked(asked) => (3, number(asked)),
        RecordAnswer::NoMemory => (4, 0),
    }
}

/// A server that has opened, and took the Begin of a pipelined client, which the record tells.
fn begun(alloc: Global) -> Result<(PlainStream, Record), Fail> {
    let mut stream = stream(alloc, Opening::plain(alloc))?;
    let _ = number(stream.request(Input::Open));
    let _ = take(&mut stream, 0, &AMQP);
    let mut records = [Record::empty(); 4];
    let _ = stream.take(0, &PIPELINED, &mut records);
    Ok((stream, records[1]))
}

/// The number of the session that answers the client's.
const NUMBER: SessionNo = SessionNo(40);

/// A server whose session 40 answers the client's, and what waited is sent.
fn mapped(alloc: Global) -> Result<PlainStream, Fail> {
    let (mut stream, record) = begun(alloc)?;
    let _ = told(stream.answer(&record, &PIPELINED, answers::BEGINS, NUMBER));
    drop(sent(&mut stream, alloc)?);
    Ok(stream)
}

/// Takes a frame, and answers it: the record's kind, and the answer.
fn give(stream: &mut PlainStream, frame: &[u8], flags: u16) -> (u8, (u8, u32)) {
    let (_, record) = take(stream, 0, frame);
    (
        record.kind,
        told(stream.answer(&record, frame, flags, NUMBER)),
    )
}

fn state_of(stream: &PlainStream, session: u32) -> Option<SessionState> {
    match stream.engine().session(SessionNo(session)) {
        Some(session) => Some(*session.local_state()),
        None => None,
    }
}

#[test]
fn a_begin_is_answered(rt: HostRuntime) -> Result<(), Fail> {
    let (mut stream, record) = begun(rt.alloc())?;
    let others = answers::ENDS | answers::CLOSES | answers::REFUSALS;
    let not_named = told(stream.answer(&record, &PIPELINED, others, NUMBER));
    let elsewhere = told(stream.answer(&record, &[], answers::ALL, NUMBER));
    let done = told(stream.answer(&record, &PIPELINED, answers::ALL, NUMBER));
    let again = told(stream.answer(&record, &PIPELINED, answers::ALL, NUMBER));
    let state = state_of(&stream, 40);
    let attach = match PIPELINED.get(61..ATTACH) {
        Some(frame) => give(&mut stream, frame, answers::ALL),
        None => (0, (9, 9)),
    };
    drop(stream);
    same(&rt, (not_named, elsewhere), ((0, 0), (1, 1)));
    same(&rt, (done, again), ((1, 0), (1, 3)));
    same(&rt, state, Some(SessionState::Mapped));
    same(&rt, attach, (kind::ATTACH_WANTED, (0, 0)));
    Ok(())
}

#[test]
fn an_end_is_answered(rt: HostRuntime) -> Result<(), Fail> {
    let mut stream = mapped(rt.alloc())?;
    let (_, record) = take(&mut stream, 0, &END);
    let not_named = told(stream.answer(&record, &END, answers::ALL & !answers::ENDS, NUMBER));
    let before = state_of(&stream, 40);
    let done = told(stream.answer(&record, &END, answers::ENDS, NUMBER));
    let is_end = stream.out() == ENDED.as_slice();
    let after = state_of(&stream, 40);
    let again = told(stream.answer(&record, &END, answers::ENDS, NUMBER));
    drop(stream);
    same(
        &rt,
        (record.kind, not_named, done),
        (kind::ENDED, (0, 0), (2, 0)),
    );
    same(
        &rt,
        (before, after),
        (Some(SessionState::EndReceived), None),
    );
    same(&rt, again, (2, 1));
    holds(&rt, is_end);
    Ok(())
}

#[test]
fn a_session_that_both_sides_ended_is_let_go(rt: HostRuntime) -> Result<(), Fail> {
    let mut stream = mapped(rt.alloc())?;
    let on = ended(stream.let_go(NUMBER));
    let none = ended(stream.let_go(SessionNo(41)));
    let asked = number(stream.request(Input::End(NUMBER, None)));
    let half = ended(stream.let_go(NUMBER));
    let state = state_of(&stream, 40);
    let _ = take(&mut stream, 0, &END);
    let done = ended(stream.let_go(NUMBER));
    let gone = state_of(&stream, 40);
    let again = ended(stream.let_go(NUMBER));
    drop(stream);
    same(&rt, (on, none, half), (1, 1, 1));
    same(&rt, (asked, done, again), (0, 0, 1));
    same(&rt, (state, gone), (Some(SessionState::EndSent), None));
    Ok(())
}

#[test]
fn a_refused_frame_is_answered(rt: HostRuntime) -> Result<(), Fail> {
    let mut stream = mapped(rt.alloc())?;
    let not_named = give(&mut stream, &FLOW, answers::ALL & !answers::REFUSALS);
    let quiet = stream.out().is_empty();
    let done = give(&mut stream, &FLOW, answers::REFUSALS);
    let out = sent(&mut stream, rt.alloc())?;
    let says_why = out.as_slice().ends_with(b"amqp:session:unattached-handle");
    drop(out);
    let ended = give(&mut stream, &END, answers::ALL);
    let state = state_of(&stream, 40);
    let quiet = quiet && stream.out().is_empty();
    drop(stream);
    same(&rt, not_named, (kind::REFUSED, (0, 0)));
    same(&rt, done, (kind::REFUSED, (3, 0)));
    same(&rt, (ended, state), ((kind::ENDED, (2, 0)), None));
    holds(&rt, says_why && quiet);
    Ok(())
}

#[test]
fn a_close_is_answered(rt: HostRuntime) -> Result<(), Fail> {
    let mut stream = mapped(rt.alloc())?;
    let (_, refused) = take(&mut stream, 0, &FLOW);
    let (_, record) = take(&mut stream, 0, &CLOSE);
    let not_named = told(stream.answer(&record, &CLOSE, answers::ALL & !answers::CLOSES, NUMBER));
    let done = told(stream.answer(&record, &CLOSE, answers::CLOSES, NUMBER));
    let is_close = stream.out() == CLOSE.as_slice();
    let is_over = stream.is_over();
    let late = told(stream.answer(&refused, &FLOW, answers::ALL, NUMBER));
    let again = told(stream.answer(&record, &CLOSE, answers::ALL, NUMBER));
    drop(stream);
    same(
        &rt,
        (record.kind, not_named, done),
        (kind::CLOSED, (0, 0), (3, 0)),
    );
    same(&rt, (late, again), ((0, 0), (3, 1001)));
    holds(&rt, is_close && is_over);
    Ok(())
}

#[test]
fn by_the_number_of_a_refusal(rt: HostRuntime) -> Result<(), Fail> {
    same(
        &rt,
        answer_by_number(61),
        Some(PeerAnswer::End(ErrorCondition::UnattachedHandle)),
    );
    same(
        &rt,
        answer_by_number(33),
        Some(PeerAnswer::Close(ErrorCondition::NotImplemented)),
    );
    same(
        &rt,
        (answer_by_number(0), answer_by_number(101)),
        (None, None),
    );
    Ok(())
}
