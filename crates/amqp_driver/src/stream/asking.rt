//! Requests of a stream, and its calls of SASL.

ghost use Rattle.std.specs.Prelude.{◌≡◌, [], OnOk, OnErr, option_copied};
ghost use Rattle.amqp_memory.specs.Refusal.{SomeRefused};
ghost use Rattle.amqp_driver.specs.Driver.{SendsOnly};
ghost use Rattle.amqp_driver.specs.Settling.{state_of};
ghost use Rattle.amqp_driver.specs.StreamTicking.{AsksStream, BeginsStream, ChallengesStream, DisposesStream, EndsStream, LogsStream, PostsStream, RespondsStream};

use super::Stream;
use crate::answered::{BeginAnswer, EndAnswer};
use crate::asked::Asked;
use crate::head::{Sent, TransferHead};
use crate::status::{Posted, Status};
use amqp_connection::SessionNo;
use amqp_engine::Input;
use amqp_sasl::{OpeningError, SaslCode};
use amqp_session::{LinkRelay, SessionSettings};
use amqp_types::{Error, Role};
use std::alloc::AllocError;

impl<R: LinkRelay> Stream<R> {
    /// A server's answer to a client that asked to be let in: after a record of [`LOGIN_ASKED`](crate::kind::LOGIN_ASKED) or
    /// [`RESPONDED`](crate::kind::RESPONDED). `Ok` lets it in, and nothing else does; after another code the stream is over. The additional data, if
    /// any, are those of the mechanism. The outcome waits to be sent.
    ///
    /// `WrongTime` where no login is asked, or the stream is over; `TooLarge` where the frame would have more than 512 bytes; `OutOfMemory` where
    /// room is refused. Then nothing changes.
    pub fn login(&mut self, code: SaslCode, additional: Option<&[u8]>) -> Result<(), OpeningError>
        ensures { LogsStream code (option_copied additional.entry) self.old result self.new }
    {
        if self.is_over() {
            return Err(OpeningError::WrongTime);
        }
        self.opening.login(code, additional, &mut self.first)
    }

    /// A server's challenge to a client that asked to be let in: one response is awaited then. The errors are those of [`Stream::login`].
    pub fn challenge(&mut self, challenge: &[u8]) -> Result<(), OpeningError>
        ensures { ChallengesStream challenge.now self.old result self.new }
    {
        if self.is_over() {
            return Err(OpeningError::WrongTime);
        }
        self.opening.challenge(challenge, &mut self.first)
    }

    /// A client's response, after a record of [`CHALLENGED`](crate::kind::CHALLENGED). `WrongTime` where there was no challenge, or the stream is
    /// over; the other errors are those of [`Stream::login`].
    pub fn respond(&mut self, response: &[u8]) -> Result<(), OpeningError>
        ensures { RespondsStream response.now self.old result self.new }
    {
        if self.is_over() {
            return Err(OpeningError::WrongTime);
        }
        self.opening.respond(response, &mut self.first)
    }

    /// Runs one request, by [`Driver::request`](crate::Driver::request). Where the stream is over it is not run: `Over`.
    pub fn request(&mut self, input: Input<R>) -> Asked
        ensures { AsksStream R.gives self.old input result self.new }
    {
        if self.is_over() {
            drop(input);
            return Asked::Over;
        }
        self.driver.request(input)
    }

    /// Sends transfers by their heads, by [`Driver::send`](crate::Driver::send). Where the stream is over it takes none: `Over`.
    pub fn send(&mut self, heads: &[TransferHead], bytes: &[u8], sent: &mut [Sent]) -> Posted
        ensures { PostsStream R.gives self.old heads.now bytes.now sent.old result.status result.taken result.used self.new sent.new }
    {
        if self.is_over() {
            return Posted {
                status: Status::Over,
                taken: 0,
                used: 0,
            };
        }
        self.driver.send(heads, bytes, sent)
    }

    /// Requests a disposition by numbers, by [`Driver::dispose`](crate::Driver::dispose). Where the stream is over it is not run: `Over`.
    pub fn dispose(
        &mut self,
        session: SessionNo,
        role: Role,
        first: u32,
        last: u32,
        settled: bool,
        outcome: u8,
    ) -> Option<Asked>
        ensures { DisposesStream R.gives self.old session.0 role first last settled (state_of outcome) result self.new }
    {
        if self.is_over() {
            return Some(Asked::Over);
        }
        self.driver
            .dispose(session, role, first, last, settled, outcome)
    }

    /// Answers a Begin by which the peer begins a session, by [`Driver::answer_begin`](crate::Driver::answer_begin). A stream that is over answers
    /// none: `NotOpened`.
    pub fn answer_begin(
        &mut self,
        frame: &[u8],
        number: SessionNo,
        settings: SessionSettings,
    ) -> BeginAnswer
        ensures { BeginsStream R.gives self.old frame.now number settings result self.new }
    {
        if self.is_over() {
            drop(settings);
            return BeginAnswer::NotOpened;
        }
        self.driver.answer_begin(frame, number, settings)
    }

    /// Answers an End of the peer's and lets the session go, by [`Driver::answer_end`](crate::Driver::answer_end). A stream that is over answers none:
    /// `Unsent(Over)`.
    pub fn answer_end(&mut self, session: SessionNo, error: Option<Error>) -> EndAnswer
        ensures { EndsStream R.gives self.old session error result self.new }
    {
        if self.is_over() {
            drop(error);
            return EndAnswer::Unsent(Asked::Over);
        }
        self.driver.answer_end(session, error)
    }

    /// Sends what waits in the engine, by [`Driver::flush`](crate::Driver::flush), also once the stream is over.
    pub fn flush(&mut self) -> Result<(), AllocError>
        ensures sent { SendsOnly R.gives self.old.driver self.new.driver }
        ensures rest { self.new ≡ record self.old { driver = self.new.driver } }
        ensures all { OnOk result (self.new.driver.engine.waiting ≡ []) }
        ensures left { OnErr result (¬ (self.new.driver.engine.waiting ≡ [])) }
        ensures refused { OnErr result SomeRefused }
    {
        self.driver.flush()
    }
}
