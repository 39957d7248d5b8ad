//! Output: waiting frames become pieces.

ghost use Rattle.std.specs.Prelude.{◌≡◌, ◌++◌, ◌<◌, [], List, true, OnOk, OnErr, vec_len, vec_capacity};
ghost use Rattle.amqp_memory.specs.Refusal.{SomeRefused};
ghost use Rattle.amqp_engine.specs.declared.engine.answer.Answer.{Answer};
ghost use Rattle.amqp_engine.specs.History.{OnlyLeft};
ghost use Rattle.amqp_engine.specs.Waits.{has_frames};
ghost use Rattle.amqp_engine.specs.Output.{NextOutput, PutOut};
ghost use Rattle.amqp_engine.specs.Stepped.{Stays};
ghost use Rattle.amqp_engine.specs.Inner.Putting.{EncodesFirst, FirstUnfit, PutsFirst};

use super::Engine;
use super::answer::{Answer, OutputError};
use amqp_frames::{Error, Piece};
use amqp_memory::more_in_vector;
use amqp_session::LinkRelay;
use std::alloc::AllocError;

impl<R: LinkRelay> Engine<R> {
    /// Takes out the first frame that waits, as the pieces that are to be sent for it, in order; `None` where none waits.
    ///
    /// `TooLarge` hands back a frame that does not fit the limit, whole or cut; it waits no longer. `Memory` where memory
    /// is refused; the frame still waits.
    ///
    /// ```
    /// engine.step(Input::Open)?;
    /// while let Some(pieces) = engine.next_output()? {
    ///     for piece in pieces.iter() {
    ///         write_piece(piece, output)?; // of `amqp_transport`
    ///     }
    /// }
    /// ```
    pub fn next_output(&mut self) -> Result<Option<Vec<Piece>>, OutputError>
        ensures next { NextOutput (λ v. v.items) self.old result self.new }
        ensures legal { Stays R.gives self.old self.new }
    {
        if !self.has_output() {
            return Ok(None);
        }
        match self.encode_first() {
            Ok(pieces) => {
                self.waiting.discard();
                Ok(Some(pieces))
            }
            Err(Error::TooLarge) => { Err(OutputError::TooLarge(self.waiting.take().unwrap())) }
            Err(_) => Err(OutputError::Memory),
        }
    }

    /// The pieces of the first frame that waits. The frame still waits.
    #[inline(always)]
    fn encode_first(&mut self) -> Result<Vec<Piece>, Error>
        requires { has_frames self.old.waiting ≡ true }
        ensures { EncodesFirst (λ v. v.items) self.old result self.new }
    {
        let frame = self.waiting.first().unwrap();
        self.encoder.encode_from(self.alloc, &mut self.heads, frame)
    }

    /// Puts out the first frame that waits. Where memory is refused it still waits.
    #[inline(always)]
    fn put_first(&mut self, answers: &mut Vec<Answer>) -> Result<(), AllocError>
        requires { has_frames self.old.waiting ≡ true }
        ensures ok { OnOk result (PutsFirst self.old answers.old.items self.new answers.new.items) }
        ensures err { OnErr result (self.new ≡ self.old) }
        ensures err_answers { OnErr result (answers.new.items ≡ answers.old.items) }
        ensures refused { OnErr result SomeRefused }
    {
        more_in_vector(answers, 1)?;
        match self.encode_first() {
            Ok(out) => {
                self.waiting.discard();
                answers.push_reserved(Answer::Out(out));
                Ok(())
            }
            Err(Error::TooLarge) => {
                self.hand_back(answers);
                Ok(())
            }
            Err(_) => Err(AllocError),
        }
    }

    /// The first frame that waits is handed back as an answer, since it does not fit.
    // No part of `put_first`, which would pay at its entry for the size of these locals.
    #[inline(never)]
    fn hand_back(&mut self, answers: &mut Vec<Answer>)
        requires unfit { FirstUnfit self.old }
        requires room { vec_len answers.old < vec_capacity answers.old }
        ensures { PutsFirst self.old answers.old.items self.new answers.new.items }
    {
        let frame = self.waiting.take().unwrap();
        answers.push_reserved(Answer::TooLarge(frame));
    }

    /// Puts out what waits.
    #[inline(always)]
    pub(crate) fn put_out(&mut self, answers: &mut Vec<Answer>) -> Result<(), AllocError>
        ensures said { (out : List Answer) × (answers.new.items ≡ answers.old.items ++ out)
            × PutOut self.old.limit self.old.waiting self.new.waiting out }
        ensures taken { OnlyLeft self.old self.new }
        ensures ok { OnOk result (self.new.waiting ≡ []) }
        ensures err { OnErr result (¬ (self.new.waiting ≡ [])) }
        ensures refused { OnErr result SomeRefused }
    {
        while self.waiting.has_frames() {
            let Ok(()) = self.put_first(answers) else {
                return Err(AllocError);
            };
        }
        Ok(())
    }
}
