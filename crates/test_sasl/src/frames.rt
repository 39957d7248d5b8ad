//! SASL frames: what is written, and what is read of it.

use crate::given::{AUTH, CHALLENGE, INIT, MECHANISMS, output, place, symbol};
use crate::same::{holds, same};
use amqp_sasl::{
    Body, FrameFault, ReceivedFrame, SaslCode, is_offered, read_frame, write_challenge, write_init,
    write_outcome,
};
use std::test::Fail;

#[test]
fn what_is_written_has_its_bytes(rt: HostRuntime) -> Result<(), Fail> {
    let mut out = output(rt.alloc());
    let plain = symbol(rt.alloc(), "PLAIN")?;
    write_init(&plain, Some(b"\x00me\x00pw"), None, &mut out)?;
    holds(&rt, out.as_slice() == INIT.as_slice());
    out.clear();
    write_challenge(b"c", &mut out)?;
    holds(&rt, out.as_slice() == CHALLENGE.as_slice());
    out.clear();
    write_outcome(SaslCode::Auth, None, &mut out)?;
    holds(&rt, out.as_slice() == AUTH.as_slice());
    Ok(())
}

#[test]
fn names_are_looked_for(rt: HostRuntime) -> Result<(), Fail> {
    let Some(names) = MECHANISMS.get(14..34) else {
        return Err(Fail::new("no such bytes"));
    };
    holds(&rt, is_offered(names, b"PLAIN"));
    holds(&rt, is_offered(names, b"ANONYMOUS"));
    holds(&rt, !is_offered(names, b"PLAI"));
    holds(&rt, !is_offered(b"", b"PLAIN"));
    // one symbol stands for itself
    holds(&rt, is_offered(b"\xa3\x05PLAIN", b"PLAIN"));
    Ok(())
}

#[test]
fn a_descriptor_may_be_a_name_and_a_header_longer(rt: HostRuntime) -> Result<(), Fail> {
    let named =
        b"\x00\x00\x00\x2b\x03\x01\x00\x00\x09\x09\x09\x09\x00\xa3\x17amqp:sasl-response:list\xc0\x03\x01\xa0\x00";
    let frame = ReceivedFrame::Frame {
        len: 43,
        body: Body::Response(place(43, 43)),
    };
    same(&rt, read_frame(named), Ok(frame));
    Ok(())
}

#[test]
fn a_frame_is_read_whatever_follows(rt: HostRuntime) -> Result<(), Fail> {
    let frame = ReceivedFrame::Frame {
        len: 17,
        body: Body::Challenge(place(16, 17)),
    };
    same(&rt, read_frame(&CHALLENGE), Ok(frame));
    same(
        &rt,
        read_frame(b"\x00\x00\x00\x11\x02\x01\x00\x00\x00\x53\x42\xc0\x04\x01\xa0\x01c\x00"),
        Ok(frame),
    );
    same(&rt, read_frame(b""), Ok(ReceivedFrame::Wants(4)));
    same(
        &rt,
        read_frame(b"\x00\x00\x00\x11"),
        Ok(ReceivedFrame::Wants(17)),
    );
    Ok(())
}
