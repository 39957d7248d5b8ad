//! What hostile peers send: each frame that is none is named, and an opening ends there.

use crate::given::{AMQP, AUTH, CHALLENGE, INIT, SASL, output, place, server, taken};
use crate::same::{holds, same};
use amqp_sasl::{Body, FrameFault, Opening, Told, read_frame};
use std::alloc::Global;
use std::test::Fail;

#[test]
fn a_frame_that_is_none_is_named(rt: HostRuntime) -> Result<(), Fail> {
    let size = Err(FrameFault::Size);
    same(&rt, read_frame(b"\x00\x00\x02\x01"), size);
    same(&rt, read_frame(b"\x00\x00\x00\x07"), size);
    same(&rt, read_frame(b"\xff\xff\xff\xff"), size);
    let offset = Err(FrameFault::Offset);
    same(&rt, read_frame(b"\x00\x00\x00\x08\x01\x01\x00\x00"), offset);
    same(&rt, read_frame(b"\x00\x00\x00\x08\x03\x01\x00\x00"), offset);
    let kind = Err(FrameFault::Type);
    same(&rt, read_frame(b"\x00\x00\x00\x08\x02\x00\x00\x00"), kind);
    Ok(())
}

#[test]
fn a_body_that_is_none_is_named(rt: HostRuntime) -> Result<(), Fail> {
    let body = Err(FrameFault::Body);
    same(&rt, read_frame(b"\x00\x00\x00\x08\x02\x01\x00\x00"), body);
    // no mechanism at all
    same(
        &rt,
        read_frame(b"\x00\x00\x00\x11\x02\x01\x00\x00\x00\x53\x40\xc0\x04\x01\xe0\x01\x00"),
        body,
    );
    // the outcome 5
    same(
        &rt,
        read_frame(b"\x00\x00\x00\x10\x02\x01\x00\x00\x00\x53\x44\xc0\x03\x01\x50\x05"),
        body,
    );
    // a challenge of null
    same(
        &rt,
        read_frame(b"\x00\x00\x00\x0f\x02\x01\x00\x00\x00\x53\x42\xc0\x02\x01\x40"),
        body,
    );
    // a field too many
    same(
        &rt,
        read_frame(b"\x00\x00\x00\x12\x02\x01\x00\x00\x00\x53\x42\xc0\x05\x02\xa0\x01c\x40"),
        body,
    );
    let trailing = Err(FrameFault::Trailing);
    same(
        &rt,
        read_frame(b"\x00\x00\x00\x12\x02\x01\x00\x00\x00\x53\x42\xc0\x04\x01\xa0\x01c\x00"),
        trailing,
    );
    Ok(())
}

/// A server whose mechanisms went out.
fn offering(alloc: Global) -> Result<Opening, Fail> {
    let mut opening = server(alloc)?;
    let mut out = output(alloc);
    opening.begin(&mut out)?;
    opening.take(&SASL, &mut out)?;
    drop(out);
    Ok(opening)
}

#[test]
fn a_header_of_amqp_is_no_login(rt: HostRuntime) -> Result<(), Fail> {
    let mut opening = offering(rt.alloc())?;
    let mut out = output(rt.alloc());
    let told = Told::Malformed(FrameFault::Size);
    same(&rt, opening.take(&AMQP, &mut out), taken(0, told));
    same(&rt, opening.take(&INIT, &mut out), taken(0, Told::Ended));
    holds(&rt, opening.is_over());
    holds(&rt, out.is_empty());
    Ok(())
}

#[test]
fn a_frame_of_another_kind_ends_it(rt: HostRuntime) -> Result<(), Fail> {
    let mut opening = offering(rt.alloc())?;
    let mut out = output(rt.alloc());
    let told = Told::Unexpected(Body::Challenge(place(16, 17)));
    same(&rt, opening.take(&CHALLENGE, &mut out), taken(17, told));
    holds(&rt, opening.is_over());
    Ok(())
}

#[test]
fn a_mechanism_that_is_not_offered_is_refused(rt: HostRuntime) -> Result<(), Fail> {
    let mut opening = offering(rt.alloc())?;
    let mut out = output(rt.alloc());
    // EVIL
    let init = b"\x00\x00\x00\x14\x02\x01\x00\x00\x00\x53\x41\xc0\x07\x01\xa3\x04EVIL";
    let told = Told::NotOffered(place(16, 20));
    same(&rt, opening.take(init, &mut out), taken(20, told));
    holds(&rt, out.as_slice() == AUTH.as_slice());
    holds(&rt, opening.is_over());
    Ok(())
}
