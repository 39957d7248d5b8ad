//! The answer that a record asks for, by the calls that a program may make itself.

ghost use Rattle.amqp_driver.specs.Wanted.{AnswersFor, AnswersIfDue, AnswersRecord, EndsOrLetsGo, ForgetsStream, LetsGoStream, answer_due, session_no};

use super::Stream;
use crate::answered::{EndAnswer, RecordAnswer};
use crate::asked::Asked;
use crate::record::Record;
use crate::wanted::{Wanted, answer_by_number, frame_in, has_closed, input_for, wanted_by};
use amqp_connection::SessionNo;
use amqp_engine::Input;
use amqp_session::{LinkRelay, SessionSettings};
use fe2o3_amqp::PeerAnswer;

impl<R: LinkRelay> Stream<R> {
    /// Gives what a record asks for that [`Stream::take`] told of, of the answers that `flags` names: those of [`answers`](crate::answers), of
    /// which a program takes those that it does not give itself. `input` is the one that was taken: there the record's frame stands.
    ///
    /// - `BEGINS`: a Begin of the peer's is answered by a session of this `number`, which no session of the engine had before, with the settings of
    ///   [`SessionSettings::new`]. Of any other record the number says nothing. Numbers that are given in order take least memory.
    /// - `ENDS`: an End of the peer's is answered by one without an error, unless this side has ended the session before; and the session is let go.
    /// - `CLOSES`: a Close of the peer's is answered by one without an error.
    /// - `REFUSALS`: a frame that was refused is answered by the End of its session or the Close for it, where one is due:
    ///   [`answer_by_number`](crate::answer_by_number) says which. A second one for the same session is refused by the engine.
    ///
    /// Every other record, an Attach that wants an answer too, asks for none. [`RecordAnswer`] has what became of it.
    ///
    /// ```
    /// let taken = stream.take(now, received, &mut records);
    /// for record in &records[..taken.written] {
    ///     handle(record);
    ///     stream.answer(record, received, answers::ALL, SessionNo(next));
    ///     next += u32::from(record.kind == kind::BEGIN_WANTED);
    /// }
    /// ```
    pub fn answer(
        &mut self,
        record: &Record,
        input: &[u8],
        flags: u16,
        number: SessionNo,
    ) -> RecordAnswer
        ensures { AnswersRecord R.gives self.old flags number «record».now input.now result self.new }
    {
        match wanted_by(flags, record) {
            Wanted::Nothing => RecordAnswer::Nothing,
            Wanted::Begin => RecordAnswer::Begin(self.answer_begin(
                frame_in(record, input),
                number,
                SessionSettings::new(),
            )),
            Wanted::End => RecordAnswer::End(self.answer_ended(SessionNo(record.session))),
            Wanted::Close => RecordAnswer::Asked(self.request(Input::Close(None))),
            Wanted::Refusal => self.answer_refused(record),
        }
    }

    /// Answers an End of the peer's, where this side has not ended the session, and lets it go.
    fn answer_ended(&mut self, session: SessionNo) -> EndAnswer
        ensures { EndsOrLetsGo R.gives self.old session result self.new }
    {
        if self.driver.is_ending(session) {
            self.answer_end(session, None)
        } else {
            self.let_go(session)
        }
    }

    /// Answers a frame that was refused, where an answer is due.
    fn answer_refused(&mut self, record: &Record) -> RecordAnswer
        ensures { AnswersIfDue (answer_due self.old «record».now) R.gives self.old (session_no «record».now.session) result self.new }
    {
        if has_closed(*self.engine().connection().local_state()) {
            return RecordAnswer::Nothing;
        }
        match answer_by_number(record.refusal) {
            Some(answer) => self.answer_for(SessionNo(record.session), answer),
            None => RecordAnswer::Nothing,
        }
    }

    /// Requests the End of this session, or the Close.
    fn answer_for(&mut self, session: SessionNo, answer: PeerAnswer) -> RecordAnswer
        ensures { AnswersFor R.gives self.old session answer result self.new }
    {
        match input_for(self.alloc, session, answer) {
            Ok(input) => RecordAnswer::Asked(self.request(input)),
            Err(_) => RecordAnswer::NoMemory,
        }
    }

    /// Lets a session go that both sides have ended: it gives its channel back, and forgets it (AMQP 1.0 part 2, section 2.5.3). `NotEnded` of any
    /// other one, which keeps its channel: nothing has changed. It is two requests, [`Input::Release`] and [`Input::Forget`], of which the second is
    /// made where the first was done: `NotReleased` where that was not, and `NotForgotten` where the second was not.
    pub fn let_go(&mut self, session: SessionNo) -> EndAnswer
        ensures { LetsGoStream R.gives self.old session result self.new }
    {
        if !self.driver.is_ended(session) {
            return EndAnswer::NotEnded;
        }
        match self.request(Input::Release(session)) {
            Asked::Done => self.forget(session),
            asked => EndAnswer::NotReleased(asked),
        }
    }

    fn forget(&mut self, session: SessionNo) -> EndAnswer
        ensures { ForgetsStream R.gives self.old session result self.new }
    {
        match self.request(Input::Forget(session)) {
            Asked::Done => EndAnswer::Done,
            asked => EndAnswer::NotForgotten(asked),
        }
    }
}
