//! Runs: many inputs in a row, with all that is to be sent for them. Received frames and transfers, the most frequent inputs, are told apart where
//! they stand, and are taken out of the list where they are carried out: a way for every input moves all that any of them holds.

ghost use Rattle.std.specs.Prelude.{◌≡◌, ◌<◌, ◌++◌, ◌∷◌, [], Option, Some, None, length, vec_len, vec_capacity};
ghost use Rattle.amqp_connection.specs.Connection.{refusal_of};
ghost use Rattle.amqp_engine.specs.declared.engine.step_error.StepError.{StepError};
ghost use Rattle.amqp_engine.specs.Output.{answer_of};
ghost use Rattle.amqp_engine.specs.Promise.{Ends, NoneLeft};
ghost use Rattle.amqp_engine.specs.Ran.{Ran};
ghost use Rattle.amqp_engine.specs.Inner.Running.{IsReceivedFirst, IsTransferFirst, StepsFirst};

use super::Engine;
use super::answer::{Answer, Stopped};
use super::input::Input;
use super::step_error::StepError;
use crate::laws::{law_of_histories, law_of_views};
use amqp_memory::more_in_vector;
use amqp_session::LinkRelay;
use std::collections::VecDeque;

/// Appends the answer of an input, where there is room for it.
#[inline(always)]
fn put_answer(answers: &mut Vec<Answer>, outcome: Result<(), StepError>)
    requires { vec_len answers.old < vec_capacity answers.old }
    ensures { answers.new.items ≡ answers.old.items ++ answer_of (refusal_of outcome) ∷ [] }
{
    match outcome {
        Ok(()) => answers.push_reserved(Answer::Done),
        Err(error) => put_refusal(answers, error),
    }
}

/// Appends a refusal, where there is room for it.
// No part of `put_answer`, which would pay for the size of these locals.
#[inline(never)]
fn put_refusal(answers: &mut Vec<Answer>, error: StepError)
    requires { vec_len answers.old < vec_capacity answers.old }
    ensures { answers.new.items ≡ answers.old.items ++ answer_of (Some error) ∷ [] }
{
    answers.push_reserved(Answer::Refused(error));
}

impl<R: LinkRelay> Engine<R> {
    /// Runs the inputs, from the front, and appends the answers: what waits is put out first; then for each input `Done`
    /// or `Refused`, and after it one `Out` or `TooLarge` for each frame that it hands out.
    ///
    /// It stops where memory for the place of an answer or for a piece is refused (`Stopped`), and says how many inputs it took; the
    /// others stay in `inputs`. A second call goes on: nothing is put out twice, and nothing is left out. Requests that handles have
    /// noted stay noted: [`HandledEngine::run`](crate::HandledEngine::run) takes them.
    pub fn run(
        &mut self,
        inputs: &mut VecDeque<Input<R>>,
        answers: &mut Vec<Answer>,
    ) -> Result<(), Stopped>
        ensures ran { Ran R.gives [] self.old inputs.old.items answers.old.items self.new inputs.new.items answers.new.items }
        ensures ends { Ends (NoneLeft inputs.new.items self.new) inputs.old.items inputs.new.items result }
        ensures wishes { self.new.wishes ≡ self.old.wishes }
    {
        law_of_histories::<R>();
        law_of_views::<R>();
        let total = inputs.len();
        let Ok(()) = self.put_out(answers) else {
            return Err(Stopped { done: 0 });
        };
        while !inputs.is_empty() {
            // The place of the answer comes first: what is taken is answered.
            let Ok(()) = more_in_vector(answers, 1) else {
                return Err(Stopped {
                    done: total - inputs.len(),
                });
            };
            self.answer_first(inputs, answers);
            let Ok(()) = self.put_out(answers) else {
                return Err(Stopped {
                    done: total - inputs.len(),
                });
            };
        }
        Ok(())
    }

    /// Takes the input at the front, and appends its answer where there is room for it.
    #[inline(always)]
    fn answer_first(&mut self, inputs: &mut VecDeque<Input<R>>, answers: &mut Vec<Answer>)
        requires idle { self.old.waiting ≡ [] }
        requires some { 0 < length inputs.old.items }
        requires room { vec_len answers.old < vec_capacity answers.old }
        ensures { (refusal : Option StepError) × StepsFirst R.gives self.old inputs.old.items refusal self.new inputs.new.items
            × (answers.new.items ≡ answers.old.items ++ answer_of refusal ∷ []) }
    {
        let mut outcome = Ok(());
        match inputs.front() {
            Some(Input::Received(_)) => self.receive_first(inputs, &mut outcome),
            Some(Input::Transfer(..)) => self.transfer_first(inputs, &mut outcome),
            _ => self.step_first(inputs, &mut outcome),
        }
        put_answer(answers, outcome);
    }

    /// Takes the received frame at the front.
    #[inline(always)]
    pub(super) fn receive_first(
        &mut self,
        inputs: &mut VecDeque<Input<R>>,
        outcome: &mut Result<(), StepError>,
    )
        requires idle { self.old.waiting ≡ [] }
        requires clear { refusal_of outcome.old ≡ None }
        requires first { IsReceivedFirst inputs.old.items }
        ensures { StepsFirst R.gives self.old inputs.old.items (refusal_of outcome.new) self.new inputs.new.items }
    {
        match inputs.pop_front() {
            Some(Input::Received(bytes)) => self.receive(bytes, outcome),
            _ => unreachable!(),
        }
    }

    /// Takes the transfer at the front.
    #[inline(always)]
    pub(super) fn transfer_first(
        &mut self,
        inputs: &mut VecDeque<Input<R>>,
        outcome: &mut Result<(), StepError>,
    )
        requires idle { self.old.waiting ≡ [] }
        requires clear { refusal_of outcome.old ≡ None }
        requires first { IsTransferFirst inputs.old.items }
        ensures { StepsFirst R.gives self.old inputs.old.items (refusal_of outcome.new) self.new inputs.new.items }
    {
        match inputs.pop_front() {
            Some(Input::Transfer(number, input, transfer, payload, is_first)) => {
                let _done = self.request_transfer(
                    number, input, transfer, payload, is_first, outcome,
                );
            }
            _ => unreachable!(),
        }
    }

    /// Takes the input at the front, whatever it is.
    #[inline(never)]
    pub(super) fn step_first(
        &mut self,
        inputs: &mut VecDeque<Input<R>>,
        outcome: &mut Result<(), StepError>,
    )
        requires idle { self.old.waiting ≡ [] }
        requires some { 0 < length inputs.old.items }
        ensures { StepsFirst R.gives self.old inputs.old.items (refusal_of outcome.new) self.new inputs.new.items }
    {
        let input = inputs.pop_front().unwrap();
        *outcome = self.dispatch_any(input);
    }
}
