//! Servers: a login, a challenge, a refusal, and calls at a wrong time.

use crate::given::{
    AMQP, AUTH, CHALLENGE, INIT, MECHANISMS, OK, RESPONSE, SASL, output, place, server, taken,
};
use crate::same::{holds, same};
use amqp_sasl::{Opening, OpeningError, Phase, Protocol, SaslCode, Told};
use bytes::BytesMut;
use std::alloc::Global;
use std::test::Fail;

/// The client `me` asks to be let in by PLAIN.
fn asked() -> Told {
    Told::LoginAsked {
        mechanism: place(16, 21),
        response: Some(place(23, 29)),
        hostname: None,
    }
}

/// A server whose client asks to be let in; nothing of what went out is kept.
fn asking(alloc: Global) -> Result<Opening, Fail> {
    let mut opening = server(alloc)?;
    let mut out = output(alloc);
    opening.begin(&mut out)?;
    opening.take(&SASL, &mut out)?;
    opening.take(&INIT, &mut out)?;
    drop(out);
    Ok(opening)
}

/// Whether these bytes are what waits to be sent; then they are sent.
fn sends(out: &mut BytesMut, wanted: &[u8]) -> bool {
    let is_same = out.as_slice() == wanted;
    out.clear();
    is_same
}

#[test]
fn a_client_is_let_in(rt: HostRuntime) -> Result<(), Fail> {
    let mut opening = server(rt.alloc())?;
    let mut out = output(rt.alloc());
    opening.begin(&mut out)?;
    holds(&rt, sends(&mut out, &SASL));
    same(&rt, opening.take(&SASL, &mut out), taken(8, Told::Greeted));
    holds(&rt, sends(&mut out, &MECHANISMS));
    same(&rt, opening.take(&INIT, &mut out), taken(29, asked()));
    opening.login(SaslCode::Ok, None, &mut out)?;
    holds(&rt, out.as_slice().starts_with(&OK));
    holds(&rt, out.as_slice().ends_with(&AMQP));
    holds(&rt, !opening.is_open());
    same(&rt, opening.take(&AMQP, &mut out), taken(8, Told::Opened));
    holds(&rt, opening.is_open());
    Ok(())
}

#[test]
fn a_client_is_challenged(rt: HostRuntime) -> Result<(), Fail> {
    let mut opening = asking(rt.alloc())?;
    let mut out = output(rt.alloc());
    opening.challenge(b"c", &mut out)?;
    holds(&rt, sends(&mut out, &CHALLENGE));
    let told = Told::Responded(place(16, 17));
    same(&rt, opening.take(&RESPONSE, &mut out), taken(17, told));
    same(&rt, opening.phase(), Phase::AsksLogin);
    Ok(())
}

#[test]
fn a_client_is_refused(rt: HostRuntime) -> Result<(), Fail> {
    let mut opening = asking(rt.alloc())?;
    let mut out = output(rt.alloc());
    opening.login(SaslCode::Auth, None, &mut out)?;
    holds(&rt, sends(&mut out, &AUTH));
    holds(&rt, opening.is_over());
    let again = opening.login(SaslCode::Ok, None, &mut out);
    same(&rt, again, Err(OpeningError::WrongTime));
    same(&rt, opening.take(&AMQP, &mut out), taken(0, Told::Ended));
    holds(&rt, out.is_empty());
    Ok(())
}

#[test]
fn nothing_is_taken_before_the_caller_answers(rt: HostRuntime) -> Result<(), Fail> {
    let mut opening = asking(rt.alloc())?;
    let mut out = output(rt.alloc());
    same(&rt, opening.take(&INIT, &mut out), taken(0, Told::Waits));
    let answer = opening.respond(b"", &mut out);
    same(&rt, answer, Err(OpeningError::WrongTime));
    let begin = opening.begin(&mut out);
    same(&rt, begin, Err(OpeningError::WrongTime));
    let long = [0; 513];
    let large = opening.challenge(&long, &mut out);
    same(&rt, large, Err(OpeningError::TooLarge));
    holds(&rt, out.is_empty());
    same(&rt, opening.phase(), Phase::AsksLogin);
    Ok(())
}

#[test]
fn without_sasl_headers_alone_pass(rt: HostRuntime) -> Result<(), Fail> {
    let mut opening = Opening::plain(rt.alloc());
    let mut out = output(rt.alloc());
    let early = opening.take(&AMQP, &mut out);
    same(&rt, early, Err(OpeningError::WrongTime));
    opening.begin(&mut out)?;
    holds(&rt, sends(&mut out, &AMQP));
    same(
        &rt,
        opening.take(b"AMQ", &mut out),
        taken(0, Told::Wants(8)),
    );
    let told = Told::OtherProtocol(Protocol::Sasl);
    same(&rt, opening.take(&SASL, &mut out), taken(8, told));
    holds(&rt, opening.is_over());
    Ok(())
}

#[test]
fn a_server_offers_something(rt: HostRuntime) -> Result<(), Fail> {
    holds(
        &rt,
        Opening::server(rt.alloc(), Vec::new(rt.alloc())).is_none(),
    );
    Ok(())
}
