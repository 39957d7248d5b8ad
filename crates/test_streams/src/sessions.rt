//! Sessions that the peer of a stream begins and ends.

use crate::same::{holds, same};
use crate::serving::{ANSWER, BEGIN, OPEN, PIPELINED, answered};
use crate::streams::{AMQP, PlainStream, answer_of, sent, stream, take};
use amqp_connection::SessionNo;
use amqp_driver::{Asked, EndAnswer, Record, Status, Taken, kind};
use amqp_engine::Input;
use amqp_sasl::Opening;
use amqp_session::SessionSettings;
use std::test::Fail;

/// The peer's End on channel 3, and this side's on channel 0.
pub const END: [u8; 12] = *b"\x00\x00\x00\x0c\x02\x00\x00\x03\x00\x53\x17\x45";

pub const ENDED: [u8; 12] = *b"\x00\x00\x00\x0c\x02\x00\x00\x00\x00\x53\x17\x45";

/// Answers the Begin that came, by a session of this number.
fn answer(stream: &mut PlainStream, session: u32) -> u32 {
    match PIPELINED.get(OPEN + 4..BEGIN) {
        Some(frame) => answered(stream.answer_begin(
            frame,
            SessionNo(session),
            SessionSettings::new(),
        )),
        None => 1002,
    }
}

#[test]
fn a_session_that_the_peer_begins(rt: HostRuntime) -> Result<(), Fail> {
    let mut stream = stream(rt.alloc(), Opening::plain(rt.alloc()))?;
    holds(&rt, matches!(stream.request(Input::Open), Asked::Done));
    take(&mut stream, 0, &AMQP);
    let mut records = [Record::empty(); 4];
    let taken = stream.take(0, &PIPELINED, &mut records);
    same(&rt, taken, answered_at(61, 2));
    same(&rt, records[1].kind, kind::BEGIN_WANTED);
    same(&rt, answer(&mut stream, 5), 0);
    let out = sent(&mut stream, rt.alloc())?;
    let is_answered = out.as_slice().ends_with(&ANSWER);
    drop(out);
    holds(&rt, is_answered);
    let taken = match PIPELINED.get(BEGIN..) {
        Some(rest) => stream.take(0, rest, &mut records),
        None => taken,
    };
    same(&rt, taken, answered_at(19, 1));
    same(
        &rt,
        (records[0].kind, records[0].session),
        (kind::ATTACH_WANTED, 5),
    );
    let (_, ended) = take(&mut stream, 0, &END);
    same(&rt, (ended.kind, ended.session), (kind::ENDED, 5));
    holds(
        &rt,
        matches!(stream.answer_end(SessionNo(5), None), EndAnswer::Done),
    );
    holds(&rt, stream.engine().session(SessionNo(5)).is_none());
    holds(&rt, stream.out().ends_with(&ENDED));
    same(
        &rt,
        take(&mut stream, 0, &[0, 0, 0, 7]).0.status,
        Status::BadSize,
    );
    same(&rt, answer(&mut stream, 6), 2);
    drop(stream);
    Ok(())
}

/// An answer that is to be followed by the rest.
fn answered_at(taken: usize, written: usize) -> Taken {
    answer_of(Status::Again, taken, written, 0)
}
