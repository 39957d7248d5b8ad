//! Runs of several inputs: what a step left goes out first, and where memory is refused, the next run goes on.

use crate::asking::{answer, engine_in};
use crate::given::{ReplayEngine, ReplayInput, said};
use crate::same::holds;
use fe2o3_amqp::{Answer, ConnectionState, Input, SessionNo, SessionSettings};
use std::alloc::{AllocError, Global};
use std::collections::VecDeque;

/// The request of a session's Begin, of default settings.
fn begin(number: u32) -> ReplayInput {
    Input::Begin(SessionNo(number), SessionSettings::new())
}

/// Puts an input after the others, if memory is there.
pub fn push<T: Drop>(inputs: &mut VecDeque<T>, input: T) -> bool {
    inputs.push_back(input).is_ok()
}

/// How many inputs a run that stops takes; none where it takes all.
fn stopped_at(
    engine: &mut ReplayEngine,
    inputs: &mut VecDeque<ReplayInput>,
    answers: &mut Vec<Answer>,
) -> Option<usize> {
    match engine.run(inputs, answers) {
        Ok(()) => None,
        Err(stopped) => Some(stopped.done),
    }
}

/// Whether a run takes all inputs: where it stops, a second one goes on, and as many are left as the first did not take.
fn goes_on(
    engine: &mut ReplayEngine,
    inputs: &mut VecDeque<ReplayInput>,
    answers: &mut Vec<Answer>,
) -> bool {
    let total = inputs.len();
    match stopped_at(engine, inputs, answers) {
        None => inputs.is_empty(),
        Some(done) => {
            done.checked_add(inputs.len()) == Some(total)
                && stopped_at(engine, inputs, answers).is_none()
                && inputs.is_empty()
        }
    }
}

/// The lines of the answers, of one run or of two.
fn ran_on(
    alloc: Global,
    engine: &mut ReplayEngine,
    mut inputs: VecDeque<ReplayInput>,
) -> Result<String, AllocError> {
    let mut answers = Vec::new(alloc);
    if !goes_on(engine, &mut inputs, &mut answers) {
        return Err(AllocError);
    }
    match said(alloc, &answers) {
        Ok(text) => Ok(text),
        Err(_refused) => said(alloc, &answers),
    }
}

/// Whether a session begins, whose Begin waits, and a run puts that out before it answers a Begin and a Close.
fn runs_after(alloc: Global, engine: &mut ReplayEngine) -> bool {
    let want = "out 02000000005311c00d04404370000013887000001388
done
out 02000001005311c00d04404370000013887000001388
done
out 0200000000531845
";
    let mut inputs = VecDeque::new(alloc);
    let is_asked = answer(engine, begin(0)) == "done"
        && engine.has_output()
        && push(&mut inputs, begin(1))
        && push(&mut inputs, Input::Close(None));
    match ran_on(alloc, engine, inputs) {
        Ok(text) => is_asked && text.as_str() == want,
        Err(_) => false,
    }
}

#[test]
fn what_a_step_left_is_put_out_before_the_inputs(rt: HostRuntime) {
    let mut engine = engine_in(rt.alloc(), ConnectionState::Opened);
    let is_right = runs_after(rt.alloc(), &mut engine);
    drop(engine);
    holds(&rt, is_right);
}

/// Three Begins and a Close: each hands out a frame.
fn all_hand_out(alloc: Global) -> VecDeque<ReplayInput> {
    let mut inputs = VecDeque::new(alloc);
    let _are_there = push(&mut inputs, begin(2))
        && push(&mut inputs, begin(1))
        && push(&mut inputs, begin(0))
        && push(&mut inputs, Input::Close(None));
    inputs
}

/// What they are answered.
const ALL_HANDED_OUT: &'static str = "done
out 02000000005311c00d04404370000013887000001388
done
out 02000001005311c00d04404370000013887000001388
done
out 02000002005311c00d04404370000013887000001388
done
out 0200000000531845
";

/// Whether the answers are those of a run without a refusal, or an input was refused for memory.
fn is_whole(text: &str) -> bool {
    text == ALL_HANDED_OUT || text.contains("OutOfMemory\n")
}

/// It holds at whichever request for memory one is refused, as `rt try --test --fail-alloc N` does, and with none refused.
#[test]
fn a_stopped_run_goes_on(rt: HostRuntime) {
    let mut engine = engine_in(rt.alloc(), ConnectionState::Opened);
    let mut inputs = all_hand_out(rt.alloc());
    if inputs.len() != 4 {
        inputs = all_hand_out(rt.alloc());
    }
    let is_right = match ran_on(rt.alloc(), &mut engine, inputs) {
        Ok(text) => is_whole(text.as_str()),
        Err(_) => false,
    };
    drop(engine);
    holds(&rt, is_right);
}
