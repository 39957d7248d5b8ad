//! The answers to an unsettled disposition: one for each run of delivery numbers without gaps (AMQP 1.0 part 2, section 2.7.6).

ghost use Rattle.std.specs.Prelude.{◌≡◌, ◌<◌, ◌≤◌, ◌+◌, List, None, IfOk, OnErr, IsSome, false, length, map, vec_len, vec_capacity};
ghost use Rattle.amqp_memory.specs.Refusal.{SomeRefused};
ghost use Rattle.amqp_session.specs.Runs.{DeliveryRange, extended, goes_on};
ghost use Rattle.amqp_session.specs.Disposing.{echo_of};

use amqp_types::{Disposition, Raw, Role};
use std::alloc::AllocError;

/// The answer for the run from `first` to `last`, without a state.
fn echo(first: u32, last: u32) -> Disposition
    ensures { result ≡ echo_of None (record { first = first; last = last }) }
{
    Disposition {
        role: Role::Sender,
        first,
        last: Some(last),
        settled: true,
        state: None,
        batchable: false,
    }
}

/// Adds a number to these answers: it goes on with the last one, or begins one of its own.
pub(super) fn extend(echoes: &mut Vec<Disposition>, number: u32)
    requires { (runs : List DeliveryRange) × (echoes.old.items ≡ map (echo_of None) runs)
        × (goes_on number runs ≡ false → vec_len echoes.old < vec_capacity echoes.old) }
    ensures items { (runs : List DeliveryRange) → echoes.old.items ≡ map (echo_of None) runs → echoes.new.items ≡ map (echo_of None) (extended number runs) }
    ensures len { vec_len echoes.new ≤ vec_len echoes.old + 1 }
    ensures capacity { vec_capacity echoes.new ≡ vec_capacity echoes.old }
{
    if goes_on(echoes, number) {
        let last = echoes.len() - 1;
        let first = echoes[last].first;
        echoes[last] = echo(first, number);
    } else {
        echoes.push_reserved(echo(number, number));
    }
}

/// Whether the number is the next one after the last run.
fn goes_on(echoes: &[Disposition], number: u32) -> bool
    ensures { (runs : List DeliveryRange) → echoes.now ≡ map (echo_of None) runs → result ≡ goes_on number runs }
{
    match echoes.last() {
        None => false,
        Some(echo) => echo.last.unwrap_or(echo.first).wrapping_add(1) == number,
    }
}

/// The same answers, each with the state. Its bytes are shared.
pub(super) fn with_state(
    echoes: Vec<Disposition>,
    state: &Option<Raw>,
) -> Result<Vec<Disposition>, AllocError>
    ensures echoes { IfOk result (λ said. (runs : List DeliveryRange) → echoes.items ≡ map (echo_of None) runs → said.items ≡ map (echo_of state.now) runs) }
    ensures refused { OnErr result (IsSome state.now × (0 < length echoes.items) × SomeRefused) }
{
    let mut said = echoes;
    for i in 0..said.len() {
        said[i].state = cut_of(state)?;
    }
    Ok(said)
}

/// Another cut of the same state: its bytes are shared.
fn cut_of(state: &Option<Raw>) -> Result<Option<Raw>, AllocError>
    ensures cut { IfOk result (λ s. s ≡ state.now) }
    ensures refused { OnErr result (IsSome state.now × SomeRefused) }
{
    match state {
        None => Ok(None),
        Some(state) => Ok(Some(state.clone()?)),
    }
}
