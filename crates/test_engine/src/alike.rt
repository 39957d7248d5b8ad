//! Answers that are compared, and numbers of sessions.

use crate::asking::engine_in;
use crate::given::ReplayEngine;
use crate::running::push;
use crate::same::holds;
use amqp_connection::laws::law_of_session_numbers;
use fe2o3_amqp::{Answer, ConnectionState, Input, SessionNo, StepError};
use std::alloc::Global;
use std::cmp::Ordering;
use std::collections::VecDeque;
use std::hash::{DefaultHasher, Hash, Hasher};

/// What a new engine answers to an Open.
fn opened(alloc: Global) -> Vec<Answer> {
    let mut inputs = VecDeque::new(alloc);
    let mut answers = Vec::new(alloc);
    let mut engine: ReplayEngine = engine_in(alloc, ConnectionState::HeaderExchange);
    let outcome = match push(&mut inputs, Input::Open) {
        true => engine.run(&mut inputs, &mut answers),
        false => Ok(()),
    };
    drop(outcome);
    drop(engine);
    drop(inputs);
    answers
}

#[test]
fn answers_of_two_engines_are_alike(rt: HostRuntime) {
    let first = opened(rt.alloc());
    let second = opened(rt.alloc());
    let is_alike = first.as_slice() == second.as_slice();
    let len = first.len();
    drop(first);
    drop(second);
    holds(&rt, is_alike);
    holds(&rt, len == 2);
}

#[test]
fn a_refusal_is_another_answer(rt: HostRuntime) {
    let refused = Answer::Refused(StepError::NoSession);
    let other = Answer::Refused(StepError::SessionInUse);
    let is_done = refused == Answer::Done;
    let is_other = refused == other;
    drop(refused);
    drop(other);
    holds(&rt, !is_done);
    holds(&rt, !is_other);
}

#[test]
fn numbers_of_sessions_compare_as_numbers(rt: HostRuntime) {
    let mut state = DefaultHasher::new();
    let told = law_of_session_numbers(SessionNo(4294967295), SessionNo(7), &mut state);
    holds(&rt, !told.equal && !told.less);
    holds(&rt, told.order == Ordering::Greater);
    holds(&rt, told.partial_order == Some(Ordering::Greater));
    let mut plain = DefaultHasher::new();
    4294967295u32.hash(&mut plain);
    holds(&rt, state.finish() == plain.finish());
}
