//! The answer to an End of the peer's (AMQP 1.0 part 2, section 2.5.3).

ghost use Rattle.std.specs.Prelude.{◌≡◌, ◌↔◌, IsTrue};
ghost use Rattle.amqp_driver.specs.Ending.{AnswersEnd, Forgets, IsEnded, IsEnding, LetsGo, session_in};

use super::Driver;
use crate::answered::EndAnswer;
use crate::asked::Asked;
use amqp_connection::SessionNo;
use amqp_engine::Input;
use amqp_session::LinkRelay;
use amqp_types::{Error, SessionState};

impl<R: LinkRelay> Driver<R> {
    /// Answers an End of the peer's, as a record of [`ENDED`](crate::kind::ENDED) tells of it: this side ends the session too, with an error or
    /// without, gives its channel back, and forgets it. It is three requests, [`Input::End`], [`Input::Release`] and [`Input::Forget`], of which
    /// each is made where the one before was done; [`EndAnswer`] says how far it went, and why no further. Those that were not made may be made by
    /// [`Driver::request`].
    ///
    /// ```
    /// match driver.answer_end(SessionNo(record.session), None) {
    ///     EndAnswer::Done => {}
    ///     other => report(other),
    /// }
    /// ```
    pub fn answer_end(&mut self, session: SessionNo, error: Option<Error>) -> EndAnswer
        ensures { AnswersEnd R.gives self.old session error result self.new }
    {
        if !self.is_ending(session) {
            drop(error);
            return EndAnswer::NotEnded;
        }
        match self.request(Input::End(session, error)) {
            Asked::Done => self.let_go(session),
            asked => EndAnswer::Unsent(asked),
        }
    }

    /// Whether the peer has ended a session, and this side has not.
    pub(crate) fn is_ending(&self, session: SessionNo) -> bool
        ensures { IsTrue result ↔ IsEnding (session_in self.now session) }
    {
        match self.engine.session(session) {
            Some(session) => *session.local_state() == SessionState::EndReceived,
            None => false,
        }
    }

    /// Whether both sides have ended a session, which is still there.
    pub(crate) fn is_ended(&self, session: SessionNo) -> bool
        ensures { IsTrue result ↔ IsEnded (session_in self.now session) }
    {
        match self.engine.session(session) {
            Some(session) => *session.local_state() == SessionState::Unmapped,
            None => false,
        }
    }

    /// Gives the channel of a session back, and forgets it.
    fn let_go(&mut self, session: SessionNo) -> EndAnswer
        ensures { LetsGo R.gives self.old session result self.new }
    {
        match self.request(Input::Release(session)) {
            Asked::Done => self.forget(session),
            asked => EndAnswer::NotReleased(asked),
        }
    }

    fn forget(&mut self, session: SessionNo) -> EndAnswer
        ensures { Forgets R.gives self.old session result self.new }
    {
        match self.request(Input::Forget(session)) {
            Asked::Done => EndAnswer::Done,
            asked => EndAnswer::NotForgotten(asked),
        }
    }
}
