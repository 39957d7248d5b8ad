//! The answer to a Begin of the peer's: a session of the engine's, whose Begin goes out as the answer, and the peer's goes in as the answer to it
//! (AMQP 1.0 part 2, section 2.5.1).

ghost use Rattle.std.specs.Prelude.{◌≡◌, ◌≤◌, ◌↔◌, [], nat_eq, is_ok, IsTrue, IfOk, OnErr};
ghost use Rattle.std.specs.Map.{lookup};
ghost use Rattle.amqp_memory.specs.Refusal.{SomeRefused};
ghost use Rattle.amqp_driver.specs.Answering.{AnswersBegin, FindsBegin, FitsOne, IfFree, own_begin};
ghost use Rattle.amqp_driver.specs.Answering.{Asks, Awaits, Offered, Puts, TakesIn, channel_in, is_out, taken_as, unread_as};
ghost use Rattle.amqp_driver.specs.Turn.{answering};

use super::Driver;
use crate::answered::BeginAnswer;
use crate::turning::{TurnError, read_begin};
use amqp_connection::SessionNo;
use amqp_engine::{Input, OutputError, StepError};
use amqp_frames::laws::pieces_keep_the_limit;
use amqp_frames::{Error, Frame, FrameBody, FrameEncoder, Piece};
use amqp_memory::copy_of;
use amqp_session::{IncomingChannel, LinkRelay, SessionSettings};
use amqp_types::laws::{begin_is_spelled, kinds_are_read, lists_are_read};
use amqp_types::{Begin, ConnectionState};
use std::alloc::AllocError;

/// The most bytes of a frame without its size, which counts itself too.
const MOST: u32 = u32::MAX - 4;

/// Whether a Begin fits one frame, where a frame has at most so many bytes without its size.
fn fits_one(begin: &Begin, limit: u32) -> bool
    ensures { IsTrue result ↔ FitsOne limit begin.now }
{
    4 + begin.encoded_len() <= u128::from(limit.min(MOST))
}

/// The Begin of a session with these settings, as the answer to the one on this channel.
fn answer_of(settings: &SessionSettings, remote: u16) -> Result<Begin, AllocError>
    ensures begin { IfOk result (λ b. b ≡ answering remote (own_begin settings.now)) }
    ensures refused { OnErr result SomeRefused }
{
    let copy = settings.clone()?;
    let first = settings.next_outgoing_id;
    Ok(copy.into_begin(Some(remote), first))
}

/// The answer to what is no Begin that answers none.
fn unread(error: TurnError) -> BeginAnswer
    ensures { result ≡ unread_as error }
{
    match error {
        TurnError::Frame(Error::OutOfMemory) => BeginAnswer::NoMemory,
        other => BeginAnswer::Unread(other),
    }
}

/// A Begin, as the answer to the one on this channel.
fn as_answer(begin: Begin, channel: u16) -> Begin
    ensures { result ≡ answering channel begin }
{
    Begin {
        remote_channel: Some(channel),
        ..begin
    }
}

/// Whether the first frame that waited waits no longer: its pieces, or the frame itself, are thrown away.
fn is_out(output: Result<Option<Vec<Piece>>, OutputError>) -> bool
    ensures { result ≡ is_out output }
{
    match output {
        Ok(pieces) => {
            drop(pieces);
            true
        }
        Err(OutputError::TooLarge(frame)) => {
            drop(frame);
            true
        }
        Err(OutputError::Memory) => false,
    }
}

/// Whether a frame was put into what is to be sent.
fn is_put(put: Result<(), Error>) -> bool
    ensures { result ≡ is_ok put }
{
    match put {
        Ok(()) => true,
        Err(error) => {
            drop(error);
            false
        }
    }
}

/// What became of the peer's Begin, by the engine's answer.
fn taken_as(answer: Option<Result<(), StepError>>) -> BeginAnswer
    ensures { result ≡ taken_as answer }
{
    match answer {
        Some(Ok(())) => BeginAnswer::Done,
        Some(Err(error)) => {
            drop(error);
            BeginAnswer::Broken
        }
        None => BeginAnswer::Broken,
    }
}

impl<R: LinkRelay> Driver<R> {
    /// Answers a Begin by which the peer begins a session, as a record of [`BEGIN_WANTED`](crate::kind::BEGIN_WANTED) tells of it: `frame` has
    /// the bytes of that frame behind its size. A session of the engine's is begun under this number, with these settings; its Begin goes out as
    /// the answer to the peer's, on a channel of this side's own, and the peer's is taken as the answer to it. Then the session is
    /// `Mapped`, and frames on the peer's channel reach it.
    ///
    /// What the engine holds from before is sent first. [`BeginAnswer`] says for each refusal what has changed: nothing, but where the engine
    /// refuses the Begin, or memory was refused.
    ///
    /// ```
    /// let frame = &received[record.at as usize - 4..record.at as usize + record.size as usize];
    /// match driver.answer_begin(frame, SessionNo(0), SessionSettings::new()) {
    ///     BeginAnswer::Done => {}
    ///     other => report(other),
    /// }
    /// ```
    pub fn answer_begin(
        &mut self,
        frame: &[u8],
        number: SessionNo,
        settings: SessionSettings,
    ) -> BeginAnswer
        ensures { AnswersBegin R.gives self.old frame.now number settings result self.new }
    {
        let (remote, theirs) = match self.find_begin(frame) {
            Ok(found) => found,
            Err(why) => {
                drop(settings);
                return why;
            }
        };
        match self.offer(remote, number, settings) {
            Ok(channel) => self.take_theirs(remote, theirs, channel, number),
            Err(why) => {
                drop(theirs);
                why
            }
        }
    }

    /// The channel and the Begin of a frame that is to be answered.
    fn find_begin(&self, frame: &[u8]) -> Result<(u16, Begin), BeginAnswer>
        ensures { FindsBegin self.now frame.now result }
    {
        let Ok(bytes) = copy_of(self.alloc, frame) else {
            return Err(BeginAnswer::NoMemory);
        };
        match read_begin(self.alloc, bytes) {
            Ok((remote, theirs)) => self.if_free(remote, theirs),
            Err(error) => Err(unread(error)),
        }
    }

    /// The same of a Begin that was read, on this channel.
    fn if_free(&self, remote: u16, theirs: Begin) -> Result<(u16, Begin), BeginAnswer>
        ensures { IfFree self.now remote theirs result }
    {
        if *self.engine.connection().local_state() != ConnectionState::Opened {
            drop(theirs);
            return Err(BeginAnswer::NotOpened);
        }
        if self.engine.session_of(IncomingChannel(remote)).is_some() {
            drop(theirs);
            return Err(BeginAnswer::ChannelInUse);
        }
        Ok((remote, theirs))
    }

    /// Begins a session of the engine's, and puts its Begin into what is to be sent, as the answer to the one on the channel `remote`: on which
    /// channel.
    fn offer(
        &mut self,
        remote: u16,
        number: SessionNo,
        settings: SessionSettings,
    ) -> Result<u16, BeginAnswer>
        ensures { Offered R.gives self.old remote number settings result self.new }
    {
        let limit = self.engine.max_piece_len();
        let Ok(answer) = answer_of(&settings, remote) else {
            drop(settings);
            return Err(BeginAnswer::NoMemory);
        };
        if !fits_one(&answer, limit) {
            drop(answer);
            drop(settings);
            return Err(BeginAnswer::TooLarge);
        }
        let Ok(()) = self.flush() else {
            drop(answer);
            drop(settings);
            return Err(BeginAnswer::NoMemory);
        };
        match self.begin_own(number, settings) {
            Ok(channel) => {
                if self.put_begin(limit, channel, answer) {
                    Ok(channel)
                } else {
                    Err(BeginAnswer::Lost)
                }
            }
            Err(why) => {
                drop(answer);
                Err(why)
            }
        }
    }

    /// Begins a session of the engine's, and throws its Begin away, which answers none: on which channel it is.
    fn begin_own(
        &mut self,
        number: SessionNo,
        settings: SessionSettings,
    ) -> Result<u16, BeginAnswer>
        requires { self.old.engine.waiting ≡ [] }
        ensures { Asks R.gives self.old number settings result self.new }
    {
        if let Err(error) = self.engine.step(Input::Begin(number, settings)) {
            return Err(BeginAnswer::Refused(error));
        }
        let channel = self.channel_of(number);
        if !is_out(self.engine.next_output()) {
            return Err(BeginAnswer::Lost);
        }
        Ok(channel)
    }

    /// The channel of a session of this side's. 0 where there is none of this number.
    fn channel_of(&self, number: SessionNo) -> u16
        ensures { result ≡ channel_in (lookup (nat_eq number.0) self.now.engine.sessions) }
    {
        match self.engine.session(number) {
            Some(session) => session.outgoing_channel().0,
            None => 0,
        }
    }

    /// Puts a Begin on this channel into what is to be sent. Whether there was memory.
    fn put_begin(&mut self, limit: u32, channel: u16, begin: Begin) -> bool
        requires least { 4 ≤ limit }
        requires fits { FitsOne limit begin }
        ensures { Puts self.old limit channel begin result self.new }
    {
        pieces_keep_the_limit();
        let frame = Frame::new(channel, FrameBody::Begin(begin));
        let put = FrameEncoder::new(limit).encode_to(self.alloc, &frame, &mut self.out);
        drop(frame);
        is_put(put)
    }

    /// Takes the peer's Begin, on its channel, as the answer to the one that this session sent on its own.
    fn take_theirs(
        &mut self,
        remote: u16,
        theirs: Begin,
        channel: u16,
        number: SessionNo,
    ) -> BeginAnswer
        requires { Awaits self.old remote channel number }
        ensures { TakesIn R.gives self.old remote theirs channel number result self.new }
    {
        kinds_are_read();
        lists_are_read();
        let theirs = as_answer(theirs, channel);
        begin_is_spelled(&theirs);
        if theirs.encoded_len() > u128::from(u32::MAX) {
            drop(theirs);
            return BeginAnswer::Broken;
        }
        let frame = Frame::new(remote, FrameBody::Begin(theirs));
        taken_as(self.run_read(Ok(frame)))
    }
}
