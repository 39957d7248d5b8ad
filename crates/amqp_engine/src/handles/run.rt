//! Runs of a handled engine: what handles have noted (their wishes) becomes requests, and then the inputs are run.

ghost use Rattle.std.specs.Prelude.{◌≡◌, ◌<◌, [], OnOk, OnErr};
ghost use Rattle.std.specs.Vec.{vec_len, vec_capacity};
ghost use Rattle.amqp_memory.specs.Refusal.{SomeRefused};
ghost use Rattle.amqp_engine.specs.Promise.{Ends, NoneLeft};
ghost use Rattle.amqp_engine.specs.HandledRun.{NoWishes, HandledRan};
ghost use Rattle.amqp_engine.specs.Inner.Flushing.{IsWish, Asked, Flushing};

use super::HandledEngine;
use crate::engine::{Answer, Input, Stopped};
use crate::laws::{law_of_histories, law_of_views};
use amqp_memory::more_in_vector;
use amqp_session::LinkRelay;
use std::alloc::AllocError;
use std::collections::VecDeque;

impl<R: LinkRelay> HandledEngine<R> {
    /// Runs the inputs, as [`Engine::run`](crate::Engine::run) does, after what handles have noted. What waits is put out first; then
    /// the Ends that are noted become requests, by rising session number, and then the Close. One that is accepted is answered as its
    /// request: `Done`, and what goes out for it. One that the state does not accept is dropped without an answer. They are not counted
    /// in `Stopped`.
    ///
    /// Where memory is refused (`Stopped`), a noted End or Close that has no place for its answer, and those after it, stay noted, and no
    /// input is taken. A second call goes on.
    pub fn run(
        &mut self,
        inputs: &mut VecDeque<Input<R>>,
        answers: &mut Vec<Answer>,
    ) -> Result<(), Stopped>
        ensures ran { HandledRan R.gives self.old inputs.old.items answers.old.items self.new inputs.new.items answers.new.items }
        ensures ends { Ends (NoneLeft inputs.new.items self.new × NoWishes self.new.wishes) inputs.old.items inputs.new.items result }
    {
        law_of_histories::<R>();
        law_of_views::<R>();
        let Ok(()) = self.flush_requests(answers) else {
            return Err(Stopped { done: 0 });
        };
        self.engine.run(inputs, answers)
    }

    /// Puts out what waits, and requests what handles have noted.
    fn flush_requests(&mut self, answers: &mut Vec<Answer>) -> Result<(), AllocError>
        ensures flushed { Flushing R.gives self.old answers.old.items self.new answers.new.items }
        ensures ok { OnOk result (NoWishes self.new.wishes) }
        ensures idle { OnOk result (self.new.waiting ≡ []) }
        ensures stopped { OnErr result (¬ ((self.new.waiting ≡ []) × NoWishes self.new.wishes)) }
        ensures refused { OnErr result SomeRefused }
    {
        self.engine.put_out(answers)?;
        while self.engine.has_noted_end() {
            // The place of the answer comes first: what is accepted is answered.
            more_in_vector(answers, 1)?;
            let (number, wish) = self.engine.take_noted_end().unwrap();
            self.ask(Input::End(number, wish.into_error()), answers)?;
        }
        if self.engine.has_noted_close() {
            more_in_vector(answers, 1)?;
            let wish = self.engine.take_noted_close().unwrap();
            self.ask(Input::Close(wish.into_error()), answers)?;
        }
        Ok(())
    }

    /// Requests an End or a Close that was noted. It is answered where it is accepted.
    fn ask(&mut self, wish: Input<R>, answers: &mut Vec<Answer>) -> Result<(), AllocError>
        requires idle { self.old.waiting ≡ [] }
        requires wish { IsWish wish }
        requires room { vec_len answers.old < vec_capacity answers.old }
        ensures asked { Asked R.gives self.old wish answers.old.items self.new answers.new.items }
        ensures ok { OnOk result (self.new.waiting ≡ []) }
        ensures err { OnErr result (¬ (self.new.waiting ≡ [])) }
        ensures refused { OnErr result SomeRefused }
    {
        match self.engine.step(wish) {
            Ok(()) => {
                answers.push(Answer::Done).unwrap();
                self.engine.put_out(answers)
            }
            // The state does not accept it.
            Err(refused) => {
                drop(refused);
                Ok(())
            }
        }
    }
}
