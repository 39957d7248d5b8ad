//! Streams from their first byte on: headers, SASL, frames, and their end.

use crate::same::{holds, same};
use amqp_driver::{Asked, NONE, PlainRelay, Record, Status, Stream, Taken, kind};
use amqp_engine::Input;
use amqp_sasl::{Login, Opening, OpeningError, SaslCode};
use amqp_session::keys::KeyHash;
use amqp_types::Open;
use amqp_values::Symbol;
use bytes::Bytes;
use std::alloc::{AllocError, Global};
use std::test::Fail;

/// A stream whose links have relays without a sink.
pub type PlainStream = Stream<PlainRelay>;

/// The header of AMQP, of TLS and of SASL.
pub const AMQP: [u8; 8] = *b"AMQP\x00\x01\x00\x00";

const TLS: [u8; 8] = *b"AMQP\x02\x01\x00\x00";

pub const SASL: [u8; 8] = *b"AMQP\x03\x01\x00\x00";

/// The mechanism PLAIN alone.
const MECHANISMS: [u8; 24] =
    *b"\x00\x00\x00\x18\x02\x01\x00\x00\x00\x53\x40\xc0\x0b\x01\xe0\x08\x01\xa3\x05PLAIN";

/// The choice of PLAIN by the user `me` with the password `pw`.
pub const INIT: [u8; 29] =
    *b"\x00\x00\x00\x1d\x02\x01\x00\x00\x00\x53\x41\xc0\x10\x02\xa3\x05PLAIN\xa0\x06\x00me\x00pw";

/// The challenge `c`, and the response `r`.
const CHALLENGE: [u8; 17] = *b"\x00\x00\x00\x11\x02\x01\x00\x00\x00\x53\x42\xc0\x04\x01\xa0\x01c";

const RESPONSE: [u8; 17] = *b"\x00\x00\x00\x11\x02\x01\x00\x00\x00\x53\x43\xc0\x04\x01\xa0\x01r";

/// The outcome `ok`, without additional data, and the outcome `auth`.
const OK: [u8; 16] = *b"\x00\x00\x00\x10\x02\x01\x00\x00\x00\x53\x44\xc0\x03\x01\x50\x00";

const AUTH: [u8; 16] = *b"\x00\x00\x00\x10\x02\x01\x00\x00\x00\x53\x44\xc0\x03\x01\x50\x01";

fn there<T: Drop>(value: Option<T>) -> Result<T, Fail> {
    match value {
        Some(value) => Ok(value),
        None => Err(Fail::new("no such value")),
    }
}

fn plain(alloc: Global) -> Result<Symbol, Fail> {
    there(Symbol::new(String::from_str(alloc, "PLAIN")?))
}

/// A stream that begins at 0, and whose Open asks for 200 milliseconds.
pub fn stream(alloc: Global, opening: Opening) -> Result<PlainStream, Fail> {
    let mut open = Open::new(String::from_str(alloc, "me")?);
    open.idle_time_out = Some(200);
    match Stream::new(alloc, 0, Some(1000), opening, KeyHash::Fixed, open) {
        Ok(stream) => Ok(stream),
        Err(_) => Err(Fail::new("no stream")),
    }
}

pub fn server(alloc: Global) -> Result<PlainStream, Fail> {
    let mut mechanisms = Vec::new(alloc);
    mechanisms.push(plain(alloc)?)?;
    let opening = there(Opening::server(alloc, mechanisms))?;
    stream(alloc, opening)
}

fn client(alloc: Global) -> Result<PlainStream, Fail> {
    let mut logins = Vec::new(alloc);
    let login = Login {
        mechanism: plain(alloc)?,
        response: Some(Bytes::copy_from_slice(alloc, b"\x00me\x00pw")?),
    };
    logins.push(login)?;
    stream(alloc, Opening::client(alloc, logins, None))
}

/// Appends what waits to be sent, which is sent then.
pub fn sent(stream: &mut PlainStream, alloc: Global) -> Result<Vec<u8>, AllocError> {
    let mut all = Vec::new(alloc);
    for _ in 0..8 {
        let out = stream.out();
        let count = out.len();
        all.extend_from_slice(out)?;
        stream.sent(count);
    }
    Ok(all)
}

/// Whether these bytes are what waits to be sent; then they are sent.
fn sends(stream: &mut PlainStream, alloc: Global, wanted: &[u8]) -> Result<bool, AllocError> {
    let all = sent(stream, alloc)?;
    let is_same = all.as_slice() == wanted;
    drop(all);
    Ok(is_same)
}

/// What a call takes of these bytes, with one record.
pub fn take(stream: &mut PlainStream, now: u64, input: &[u8]) -> (Taken, Record) {
    let mut records = [Record::empty(); 1];
    let taken = stream.take(now, input, &mut records);
    (taken, records[0])
}

/// An answer of this status.
pub fn answer_of(status: Status, taken: usize, written: usize, wanted: usize) -> Taken {
    Taken {
        status,
        taken,
        written,
        wanted,
    }
}

/// A record of this kind of so many bytes.
fn record(kind: u8, size: u32) -> Record {
    Record {
        kind,
        size,
        ..Record::empty()
    }
}

#[test]
fn frames_wait_for_the_header(rt: HostRuntime) -> Result<(), Fail> {
    let mut stream = stream(rt.alloc(), Opening::plain(rt.alloc()))?;
    holds(&rt, matches!(stream.request(Input::Open), Asked::Done));
    holds(&rt, sends(&mut stream, rt.alloc(), &AMQP)?);
    same(
        &rt,
        take(&mut stream, 0, &AMQP[..5]).0,
        answer_of(Status::Done, 0, 0, 8),
    );
    let (taken, told) = take(&mut stream, 0, &AMQP);
    same(
        &rt,
        (taken, told),
        (
            answer_of(Status::Again, 8, 1, 0),
            record(kind::AMQP_HEADER, 8),
        ),
    );
    holds(
        &rt,
        stream.out().get(8..11) == Some([0x00, 0x53, 0x10].as_slice()),
    );
    same(
        &rt,
        take(&mut stream, 0, &[]).0,
        answer_of(Status::Done, 0, 0, 4),
    );
    drop(stream);
    Ok(())
}

#[test]
fn no_place_for_a_record(rt: HostRuntime) -> Result<(), Fail> {
    let mut stream = stream(rt.alloc(), Opening::plain(rt.alloc()))?;
    let full = stream.take(0, &AMQP, &mut []);
    let open = stream.opening().is_open();
    drop(stream);
    same(&rt, (full, open), (answer_of(Status::Full, 0, 0, 0), false));
    Ok(())
}

#[test]
fn a_server_lets_in(rt: HostRuntime) -> Result<(), Fail> {
    let mut stream = server(rt.alloc())?;
    holds(&rt, sends(&mut stream, rt.alloc(), &SASL)?);
    let greeted = take(&mut stream, 0, &SASL);
    same(
        &rt,
        greeted,
        (
            answer_of(Status::Again, 8, 1, 0),
            record(kind::SASL_HEADER, 8),
        ),
    );
    holds(&rt, sends(&mut stream, rt.alloc(), &MECHANISMS)?);
    let asked = Record {
        payload_at: 23,
        payload: 6,
        first: 16,
        last: 5,
        count: NONE,
        ..record(kind::LOGIN_ASKED, 29)
    };
    same(
        &rt,
        take(&mut stream, 0, &INIT),
        (answer_of(Status::Again, 29, 1, 0), asked),
    );
    same(
        &rt,
        take(&mut stream, 0, &AMQP).0,
        answer_of(Status::Waits, 0, 0, 0),
    );
    same(&rt, stream.challenge(b"c"), Ok(()));
    holds(&rt, sends(&mut stream, rt.alloc(), &CHALLENGE)?);
    let response = Record {
        payload_at: 16,
        payload: 1,
        ..record(kind::RESPONDED, 17)
    };
    same(
        &rt,
        take(&mut stream, 0, &RESPONSE),
        (answer_of(Status::Again, 17, 1, 0), response),
    );
    same(&rt, stream.login(SaslCode::Ok, None), Ok(()));
    let out = sent(&mut stream, rt.alloc())?;
    holds(
        &rt,
        out.as_slice().starts_with(&OK) && out.as_slice().ends_with(&AMQP),
    );
    drop(out);
    same(&rt, take(&mut stream, 0, &AMQP).1.kind, kind::AMQP_HEADER);
    drop(stream);
    Ok(())
}

#[test]
fn a_server_lets_nobody_in_by_another_code(rt: HostRuntime) -> Result<(), Fail> {
    let mut stream = server(rt.alloc())?;
    holds(&rt, matches!(stream.request(Input::Open), Asked::Done));
    take(&mut stream, 0, &SASL);
    take(&mut stream, 0, &INIT);
    let before = sent(&mut stream, rt.alloc())?;
    drop(before);
    same(&rt, stream.login(SaslCode::Auth, None), Ok(()));
    holds(&rt, stream.is_over());
    same(
        &rt,
        stream.login(SaslCode::Ok, None),
        Err(OpeningError::WrongTime),
    );
    holds(&rt, sends(&mut stream, rt.alloc(), &AUTH)?);
    same(
        &rt,
        take(&mut stream, 0, &AMQP).0,
        answer_of(Status::Over, 0, 0, 0),
    );
    holds(
        &rt,
        matches!(stream.request(Input::Close(None)), Asked::Over),
    );
    holds(&rt, stream.out().is_empty());
    drop(stream);
    Ok(())
}

#[test]
fn a_client_logs_in(rt: HostRuntime) -> Result<(), Fail> {
    let mut stream = client(rt.alloc())?;
    holds(&rt, sends(&mut stream, rt.alloc(), &SASL)?);
    take(&mut stream, 0, &SASL);
    let chosen = Record {
        payload_at: 14,
        payload: 10,
        ..record(kind::MECHANISM_CHOSEN, 24)
    };
    same(
        &rt,
        take(&mut stream, 0, &MECHANISMS),
        (answer_of(Status::Again, 24, 1, 0), chosen),
    );
    holds(&rt, sends(&mut stream, rt.alloc(), &INIT)?);
    take(&mut stream, 0, &CHALLENGE);
    same(
        &rt,
        take(&mut stream, 0, &OK).0,
        answer_of(Status::Waits, 0, 0, 0),
    );
    same(&rt, stream.respond(b"r"), Ok(()));
    holds(&rt, sends(&mut stream, rt.alloc(), &RESPONSE)?);
    let logged_in = Record {
        payload_at: NONE,
        ..record(kind::LOGGED_IN, 16)
    };
    same(
        &rt,
        take(&mut stream, 0, &OK),
        (answer_of(Status::Again, 16, 1, 0), logged_in),
    );
    holds(&rt, sends(&mut stream, rt.alloc(), &AMQP)?);
    same(&rt, take(&mut stream, 0, &AMQP).1.kind, kind::AMQP_HEADER);
    drop(stream);
    Ok(())
}

/// The kind and the reason of what a stream without SASL tells of these bytes, and whether it is over then.
fn refused(alloc: Global, input: &[u8]) -> Result<(u8, u32, u32, bool), Fail> {
    let mut stream = stream(alloc, Opening::plain(alloc))?;
    let (_, told) = take(&mut stream, 0, input);
    let is_over = stream.is_over();
    drop(stream);
    Ok((told.kind, told.refusal, told.first, is_over))
}

#[test]
fn other_headers(rt: HostRuntime) -> Result<(), Fail> {
    same(
        &rt,
        refused(rt.alloc(), &TLS)?,
        (kind::NOT_OPENED, 104, 2, true),
    );
    same(
        &rt,
        refused(rt.alloc(), &SASL)?,
        (kind::NOT_OPENED, 104, 3, true),
    );
    same(
        &rt,
        refused(rt.alloc(), b"AMQP\x00\x00\x09\x01")?,
        (kind::NOT_OPENED, 105, 0, true),
    );
    same(
        &rt,
        refused(rt.alloc(), b"GET /")?,
        (kind::NOT_OPENED, 106, 0, true),
    );
    Ok(())
}

#[test]
fn a_login_is_refused(rt: HostRuntime) -> Result<(), Fail> {
    let mut stream = client(rt.alloc())?;
    take(&mut stream, 0, &SASL);
    take(&mut stream, 0, &MECHANISMS);
    let refused = Record {
        refusal: 103,
        outcome: 1,
        payload_at: NONE,
        ..record(kind::NOT_OPENED, 16)
    };
    same(
        &rt,
        take(&mut stream, 0, &AUTH),
        (answer_of(Status::Again, 16, 1, 0), refused),
    );
    same(
        &rt,
        take(&mut stream, 0, &AMQP).0,
        answer_of(Status::Over, 0, 0, 0),
    );
    drop(stream);
    Ok(())
}
