//! Clients: the choice of a login, a challenge, outcomes.

use crate::given::{
    AMQP, AUTH, CHALLENGE, INIT, MECHANISMS, OK, RESPONSE, SASL, client, output, place, taken,
};
use crate::same::{holds, same};
use amqp_sasl::{Opening, SaslCode, Told};
use std::alloc::Global;
use std::test::Fail;

/// A client whose choice went out.
fn chosen(alloc: Global) -> Result<Opening, Fail> {
    let mut opening = client(alloc)?;
    let mut out = output(alloc);
    opening.begin(&mut out)?;
    opening.take(&SASL, &mut out)?;
    opening.take(&MECHANISMS, &mut out)?;
    drop(out);
    Ok(opening)
}

#[test]
fn the_first_login_that_is_offered_is_chosen(rt: HostRuntime) -> Result<(), Fail> {
    let mut opening = client(rt.alloc())?;
    let mut out = output(rt.alloc());
    opening.begin(&mut out)?;
    same(&rt, opening.take(&SASL, &mut out), taken(8, Told::Greeted));
    holds(&rt, out.as_slice() == SASL.as_slice());
    let told = Told::Chosen {
        login: 1,
        mechanisms: place(14, 34),
    };
    same(&rt, opening.take(&MECHANISMS, &mut out), taken(34, told));
    holds(&rt, out.as_slice().ends_with(&INIT));
    Ok(())
}

#[test]
fn a_client_answers_a_challenge(rt: HostRuntime) -> Result<(), Fail> {
    let mut opening = chosen(rt.alloc())?;
    let mut out = output(rt.alloc());
    let told = Told::Challenged(place(16, 17));
    same(&rt, opening.take(&CHALLENGE, &mut out), taken(17, told));
    same(&rt, opening.take(&OK, &mut out), taken(0, Told::Waits));
    opening.respond(b"r", &mut out)?;
    holds(&rt, out.as_slice() == RESPONSE.as_slice());
    let told = Told::LoggedIn(None);
    same(&rt, opening.take(&OK, &mut out), taken(16, told));
    holds(&rt, out.as_slice().ends_with(&AMQP));
    same(&rt, opening.take(&AMQP, &mut out), taken(8, Told::Opened));
    holds(&rt, opening.is_open());
    Ok(())
}

#[test]
fn a_client_that_is_refused_is_over(rt: HostRuntime) -> Result<(), Fail> {
    let mut opening = chosen(rt.alloc())?;
    let mut out = output(rt.alloc());
    let told = Told::Refused {
        code: SaslCode::Auth,
        additional: None,
    };
    same(&rt, opening.take(&AUTH, &mut out), taken(16, told));
    holds(&rt, opening.is_over());
    holds(&rt, out.is_empty());
    Ok(())
}

#[test]
fn a_client_without_a_login_is_over(rt: HostRuntime) -> Result<(), Fail> {
    let mut opening = Opening::client(rt.alloc(), Vec::new(rt.alloc()), None);
    let mut out = output(rt.alloc());
    opening.begin(&mut out)?;
    opening.take(&SASL, &mut out)?;
    let told = Told::NoMechanism(place(14, 34));
    same(&rt, opening.take(&MECHANISMS, &mut out), taken(34, told));
    holds(&rt, opening.is_over());
    Ok(())
}
