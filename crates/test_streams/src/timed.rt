//! Streams and the time: empty frames, a silent peer, a late opening; and their end.

use crate::same::{holds, same};
use crate::streams::{AMQP, PlainStream, sent, stream, take};
use amqp_driver::{Asked, Status, kind};
use amqp_engine::Input;
use amqp_idle::{Due, Tick};
use amqp_sasl::Opening;
use std::alloc::Global;
use std::test::Fail;

/// An Open whose idle-time-out is 100.
pub const OPEN: [u8; 22] =
    *b"\x00\x00\x00\x16\x02\x00\x00\x00\x00\x53\x10\xc0\x09\x05\xa1\x01p\x40\x40\x40\x52\x64";

/// A Close without an error.
const CLOSE: [u8; 12] = *b"\x00\x00\x00\x0c\x02\x00\x00\x00\x00\x53\x18\x45";

const EMPTY: [u8; 8] = *b"\x00\x00\x00\x08\x02\x00\x00\x00";

/// A stream that has opened at the time 10, and of which nothing waits to be sent.
fn opened(alloc: Global) -> Result<PlainStream, Fail> {
    let mut stream = stream(alloc, Opening::plain(alloc))?;
    let is_done = matches!(stream.request(Input::Open), Asked::Done);
    take(&mut stream, 0, &AMQP);
    let (_, told) = take(&mut stream, 10, &OPEN);
    let all = sent(&mut stream, alloc)?;
    drop(all);
    if is_done && told.kind == kind::OPENED {
        Ok(stream)
    } else {
        drop(stream);
        Err(Fail::new("not opened"))
    }
}

/// So many bytes were sent, or all that lie together, where they are fewer.
fn part_sent(stream: &mut PlainStream, count: usize) {
    let count = count.min(stream.out().len());
    stream.sent(count);
}

fn tick(due: Due, next: Option<u64>) -> Tick {
    Tick { due, next }
}

#[test]
fn empty_frames(rt: HostRuntime) -> Result<(), Fail> {
    let mut stream = opened(rt.alloc())?;
    same(&rt, stream.tick(10), tick(Due::Nothing, Some(60)));
    holds(&rt, stream.out().is_empty());
    same(&rt, stream.tick(60), tick(Due::Beat, Some(110)));
    holds(&rt, stream.out() == EMPTY.as_slice());
    same(&rt, stream.tick(110), tick(Due::Beat, Some(160)));
    part_sent(&mut stream, 3);
    holds(&rt, stream.out() == &EMPTY[3..]);
    part_sent(&mut stream, 5);
    holds(&rt, stream.out().is_empty());
    same(&rt, take(&mut stream, 120, &EMPTY).0.taken, 8);
    same(&rt, stream.tick(150), tick(Due::Nothing, Some(160)));
    drop(stream);
    Ok(())
}

#[test]
fn none_beside_another_frame(rt: HostRuntime) -> Result<(), Fail> {
    let mut stream = opened(rt.alloc())?;
    same(&rt, stream.tick(10), tick(Due::Nothing, Some(60)));
    holds(
        &rt,
        matches!(stream.request(Input::Close(None)), Asked::Done),
    );
    let waits = stream.out().len();
    same(&rt, stream.tick(60).due, Due::Beat);
    same(&rt, stream.out().len(), waits);
    let all = sent(&mut stream, rt.alloc())?;
    drop(all);
    same(&rt, stream.tick(160).due, Due::Beat);
    holds(&rt, stream.out().is_empty());
    drop(stream);
    Ok(())
}

#[test]
fn a_silent_peer(rt: HostRuntime) -> Result<(), Fail> {
    let mut stream = opened(rt.alloc())?;
    same(&rt, stream.tick(10), tick(Due::Nothing, Some(60)));
    same(&rt, stream.tick(210), tick(Due::PeerSilent, None));
    holds(&rt, stream.is_over());
    let out = sent(&mut stream, rt.alloc())?;
    let has_condition = out.as_slice().ends_with(b"amqp:resource-limit-exceeded");
    let is_close = out.as_slice().get(8..11) == Some([0x00, 0x53, 0x18].as_slice());
    drop(out);
    holds(&rt, is_close && has_condition);
    same(&rt, take(&mut stream, 220, &EMPTY).0.status, Status::Over);
    same(&rt, stream.tick(220), tick(Due::Nothing, None));
    drop(stream);
    Ok(())
}

#[test]
fn bytes_that_wait_are_heard(rt: HostRuntime) -> Result<(), Fail> {
    let mut stream = opened(rt.alloc())?;
    same(&rt, stream.tick(10), tick(Due::Nothing, Some(60)));
    same(&rt, take(&mut stream, 200, &EMPTY[..4]).0.taken, 0);
    stream.heard(200);
    same(&rt, stream.tick(210), tick(Due::Beat, Some(260)));
    same(&rt, stream.tick(400), tick(Due::PeerSilent, None));
    holds(&rt, stream.is_over());
    drop(stream);
    Ok(())
}

#[test]
fn bytes_that_wait_unheard(rt: HostRuntime) -> Result<(), Fail> {
    let mut stream = opened(rt.alloc())?;
    same(&rt, stream.tick(10), tick(Due::Nothing, Some(60)));
    same(&rt, take(&mut stream, 200, &EMPTY[..4]).0.taken, 0);
    same(&rt, stream.tick(210), tick(Due::PeerSilent, None));
    drop(stream);
    Ok(())
}

#[test]
fn a_late_opening(rt: HostRuntime) -> Result<(), Fail> {
    let mut stream = stream(rt.alloc(), Opening::plain(rt.alloc()))?;
    same(&rt, stream.tick(999), tick(Due::Nothing, Some(1000)));
    same(&rt, stream.tick(1000), tick(Due::OpeningLate, None));
    same(&rt, take(&mut stream, 1000, &AMQP).0.status, Status::Over);
    holds(&rt, stream.out() == AMQP.as_slice());
    drop(stream);
    Ok(())
}

#[test]
fn both_closes(rt: HostRuntime) -> Result<(), Fail> {
    let mut stream = opened(rt.alloc())?;
    holds(
        &rt,
        matches!(stream.request(Input::Close(None)), Asked::Done),
    );
    same(&rt, take(&mut stream, 20, &CLOSE).1.kind, kind::CLOSED);
    holds(&rt, stream.is_over());
    same(&rt, take(&mut stream, 20, &EMPTY).0.status, Status::Over);
    holds(&rt, stream.out() == CLOSE.as_slice());
    drop(stream);
    Ok(())
}

#[test]
fn a_size_that_no_frame_has(rt: HostRuntime) -> Result<(), Fail> {
    let mut stream = opened(rt.alloc())?;
    same(
        &rt,
        take(&mut stream, 20, &[0, 0, 0, 7]).0.status,
        Status::BadSize,
    );
    let is_close = stream.out().get(8..11) == Some([0x00, 0x53, 0x18].as_slice());
    holds(&rt, is_close && stream.is_over());
    same(&rt, take(&mut stream, 20, &EMPTY).0.status, Status::Over);
    drop(stream);
    Ok(())
}
