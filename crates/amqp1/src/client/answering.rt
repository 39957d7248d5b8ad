//! The answers to what the peer begins and ends.

ghost use Rattle.std.specs.Prelude.{◌≡◌};
ghost use Rattle.amqp1.specs.Answering.{AnswersOne, BeginsOne, EndsOne, LetsGoOne, PerformsAnswerBegin, PerformsAnswerEnd, PerformsLetGo};
ghost use Rattle.amqp1.specs.Refused.{last_answered, last_begun, last_ended, last_of};
ghost use Rattle.amqp1.specs.Status.{answered_status, begun_status, ended_status};

use super::Client;
use crate::refused::Refused;
use crate::status::{Status, begun_status, ended_status};
use crate::{answering, reading};
use amqp_connection::SessionNo;
use amqp_driver::{Asked, BeginAnswer, EndAnswer, PlainRelay, Record, RecordAnswer};
use amqp_session::{LinkRelay, SessionSettings};
use amqp_types::{Error, ReadError};

impl Client {
    /// Gives what a record asks for, of the answers that `flags` names, by [`Stream::answer`](amqp_driver::Stream::answer): `input` is the one in
    /// which the record's frame stands. The status says what became of it, and a refusal is kept.
    pub fn answer(&mut self, told: &Record, input: &[u8], flags: u16, number: u32) -> Status
        ensures { AnswersOne ⟦<PlainRelay as LinkRelay>⟧.gives self.old flags number told.now input.now result self.new }
    {
        let answer = self.stream.answer(told, input, flags, SessionNo(number));
        self.note_answer(answer)
    }

    /// Answers a Begin of the peer's, by a session of this number with these settings. `BadArgument` where the bytes do not have the operation's form,
    /// or the frame is no Begin that answers none.
    pub(super) fn answer_begin(&mut self, input: &[u8]) -> Status
        ensures { PerformsAnswerBegin ⟦<PlainRelay as LinkRelay>⟧.gives self.old input.now result self.new }
    {
        let Some((session, text, frame)) = answering::parts(input) else {
            return Status::BadArgument;
        };
        match answering::settings(self.alloc, text) {
            Ok(settings) => self.begin_for(session, settings, frame),
            Err(ReadError::Malformed) => Status::BadArgument,
            Err(ReadError::OutOfMemory) => Status::NoMemory,
        }
    }

    /// Answers the Begin of a frame.
    fn begin_for(&mut self, session: u32, settings: SessionSettings, frame: &[u8]) -> Status
        ensures { BeginsOne ⟦<PlainRelay as LinkRelay>⟧.gives self.old session settings frame.now result self.new }
    {
        let answer = self
            .stream
            .answer_begin(frame, SessionNo(session), settings);
        self.note_begun(answer)
    }

    /// Answers an End of the peer's, and lets the session go. `BadArgument` exactly where the bytes do not have the operation's form.
    pub(super) fn answer_end(&mut self, input: &[u8]) -> Status
        ensures { PerformsAnswerEnd ⟦<PlainRelay as LinkRelay>⟧.gives self.old input.now result self.new }
    {
        let Some((session, text)) = reading::number(input) else {
            return Status::BadArgument;
        };
        match reading::error(self.alloc, text) {
            Ok(error) => self.end_for(session, error),
            Err(ReadError::Malformed) => Status::BadArgument,
            Err(ReadError::OutOfMemory) => Status::NoMemory,
        }
    }

    /// Answers the End of a session.
    fn end_for(&mut self, session: u32, error: Option<Error>) -> Status
        ensures { EndsOne ⟦<PlainRelay as LinkRelay>⟧.gives self.old session error result self.new }
    {
        let answer = self.stream.answer_end(SessionNo(session), error);
        self.note_ended(answer)
    }

    /// Lets a session go that both sides have ended: any other is `Refused`, as `NotEnded`. `BadArgument` exactly where the bytes are no number.
    pub(super) fn let_go(&mut self, input: &[u8]) -> Status
        ensures { PerformsLetGo ⟦<PlainRelay as LinkRelay>⟧.gives self.old input.now result self.new }
    {
        if input.len() != 4 {
            return Status::BadArgument;
        }
        let session = u32::from_be_bytes([input[0], input[1], input[2], input[3]]);
        self.let_session_go(session)
    }

    fn let_session_go(&mut self, session: u32) -> Status
        ensures { LetsGoOne ⟦<PlainRelay as LinkRelay>⟧.gives self.old session result self.new }
    {
        let answer = self.stream.let_go(SessionNo(session));
        self.note_ended(answer)
    }

    /// The status of an answer. Its refusal is kept, if it is one.
    fn note_answer(&mut self, answer: RecordAnswer) -> Status
        ensures status { result ≡ answered_status answer }
        ensures noted { self.new ≡ record self.old { last = last_answered self.old.last self.old.stream.driver.engine.connection.state answer } }
    {
        match answer {
            RecordAnswer::Nothing => Status::Nothing,
            RecordAnswer::NoMemory => Status::NoMemory,
            RecordAnswer::Asked(asked) => self.note(asked),
            RecordAnswer::Begin(begun) => self.note_begun(begun),
            RecordAnswer::End(ended) => self.note_ended(ended),
        }
    }

    /// The status of an answer to a Begin.
    fn note_begun(&mut self, answer: BeginAnswer) -> Status
        ensures status { result ≡ begun_status answer }
        ensures noted { self.new ≡ record self.old { last = last_begun self.old.last self.old.stream.driver.engine.connection.state answer } }
    {
        let status = begun_status(&answer);
        match answer {
            BeginAnswer::NotOpened => self.last = Refused::not_opened(),
            BeginAnswer::ChannelInUse => self.last = Refused::channel_in_use(),
            BeginAnswer::TooLarge => self.last = Refused::too_large(),
            BeginAnswer::Refused(error) => {
                let state = *self.stream.engine().connection().local_state();
                self.last = Refused::of(error, state);
            }
            BeginAnswer::Unread(error) => drop(error),
            BeginAnswer::Done | BeginAnswer::NoMemory | BeginAnswer::Lost | BeginAnswer::Broken =>
                {}
        }
        status
    }

    /// The status of an answer to an End.
    fn note_ended(&mut self, answer: EndAnswer) -> Status
        ensures status { result ≡ ended_status answer }
        ensures noted { self.new ≡ record self.old { last = last_ended self.old.last self.old.stream.driver.engine.connection.state answer } }
    {
        let status = ended_status(&answer);
        match answer {
            EndAnswer::Done => {}
            EndAnswer::NotEnded => self.last = Refused::not_ended(),
            EndAnswer::Unsent(asked) => {
                self.note(asked);
            }
            EndAnswer::NotReleased(asked) | EndAnswer::NotForgotten(asked) => self.note_step(asked),
        }
        status
    }

    /// Keeps why a step was not done, also where that is memory.
    fn note_step(&mut self, asked: Asked)
        ensures { self.new ≡ record self.old { last = last_of self.old.last self.old.stream.driver.engine.connection.state asked } }
    {
        match asked {
            Asked::NoMemory => self.last = Refused::no_memory(),
            other => {
                self.note(other);
            }
        }
    }
}
