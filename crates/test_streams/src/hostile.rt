//! Streams whose peer wishes them ill, before they are open.

use crate::same::{holds, same};
use crate::streams::{AMQP, INIT, PlainStream, SASL, server, stream, take};
use crate::timed::OPEN;
use amqp_driver::{Status, kind};
use amqp_idle::Due;
use amqp_sasl::{Opening, SaslCode};
use std::alloc::Global;
use std::test::Fail;

/// Gives these bytes one more at a time, and what they tell at the end: how many bytes were taken, and the kind of the record.
fn drip(stream: &mut PlainStream, input: &[u8]) -> (usize, u8) {
    for end in 0..input.len() {
        let (taken, _) = take(stream, 0, &input[..end]);
        if taken.taken > 0 || taken.status != Status::Done {
            return (0, 0);
        }
    }
    let (taken, told) = take(stream, 0, input);
    (taken.taken, told.kind)
}

#[test]
fn one_byte_at_a_time(rt: HostRuntime) -> Result<(), Fail> {
    let mut stream = server(rt.alloc())?;
    same(&rt, drip(&mut stream, &SASL), (8, kind::SASL_HEADER));
    same(&rt, drip(&mut stream, &INIT), (29, kind::LOGIN_ASKED));
    same(&rt, stream.login(SaslCode::Ok, None), Ok(()));
    same(&rt, drip(&mut stream, &AMQP), (8, kind::AMQP_HEADER));
    same(&rt, drip(&mut stream, &OPEN), (22, kind::OPENED));
    drop(stream);
    Ok(())
}

/// Why a server is over once these bytes came behind the header of SASL, and how many were taken; 0 where it is not over.
fn refused(alloc: Global, input: &[u8]) -> Result<(u32, usize), Fail> {
    let mut stream = server(alloc)?;
    take(&mut stream, 0, &SASL);
    let (taken, told) = take(&mut stream, 0, input);
    let is_over = stream.is_over();
    drop(stream);
    Ok((if is_over { told.refusal } else { 0 }, taken.taken))
}

#[test]
fn frames_of_sasl_that_are_none(rt: HostRuntime) -> Result<(), Fail> {
    same(&rt, refused(rt.alloc(), &[0, 0, 0, 7])?, (107, 0));
    same(&rt, refused(rt.alloc(), &[0, 0, 2, 1])?, (107, 0));
    same(&rt, refused(rt.alloc(), &[0, 0, 2, 0])?, (0, 0));
    same(
        &rt,
        refused(rt.alloc(), &[0xff, 0xff, 0xff, 0xff])?,
        (107, 0),
    );
    same(&rt, refused(rt.alloc(), &SASL)?, (107, 0));
    same(&rt, refused(rt.alloc(), &OPEN)?, (107, 0));
    Ok(())
}

#[test]
fn a_choice_that_is_made_twice(rt: HostRuntime) -> Result<(), Fail> {
    let mut stream = server(rt.alloc())?;
    take(&mut stream, 0, &SASL);
    same(&rt, take(&mut stream, 0, &INIT).1.kind, kind::LOGIN_ASKED);
    same(&rt, take(&mut stream, 0, &INIT).0.status, Status::Waits);
    same(&rt, stream.login(SaslCode::Ok, None), Ok(()));
    let (_, told) = take(&mut stream, 0, &INIT);
    same(&rt, (told.kind, told.refusal), (kind::NOT_OPENED, 105));
    holds(&rt, stream.is_over());
    drop(stream);
    Ok(())
}

#[test]
fn a_frame_before_the_header(rt: HostRuntime) -> Result<(), Fail> {
    let mut stream = stream(rt.alloc(), Opening::plain(rt.alloc()))?;
    let (_, told) = take(&mut stream, 0, &OPEN);
    same(&rt, (told.kind, told.refusal), (kind::NOT_OPENED, 105));
    same(&rt, take(&mut stream, 0, &AMQP).0.status, Status::Over);
    drop(stream);
    Ok(())
}

#[test]
fn a_header_behind_the_header(rt: HostRuntime) -> Result<(), Fail> {
    let mut stream = stream(rt.alloc(), Opening::plain(rt.alloc()))?;
    take(&mut stream, 0, &AMQP);
    let (taken, _) = take(&mut stream, 0, &AMQP);
    same(&rt, (taken.status, taken.taken), (Status::Done, 0));
    drop(stream);
    Ok(())
}

#[test]
fn a_handshake_that_never_ends(rt: HostRuntime) -> Result<(), Fail> {
    let mut stream = server(rt.alloc())?;
    take(&mut stream, 0, &SASL);
    for now in 1..10 {
        take(&mut stream, now * 100, &INIT[..5]);
        same(&rt, stream.tick(now * 100).due, Due::Nothing);
    }
    same(&rt, stream.tick(1000).due, Due::OpeningLate);
    same(&rt, take(&mut stream, 1000, &INIT).0.status, Status::Over);
    drop(stream);
    Ok(())
}
