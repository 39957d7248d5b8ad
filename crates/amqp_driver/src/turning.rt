//! The turn of two Begins: how a session that the peer begins is served (AMQP 1.0 part 2, section 2.5.1).
//!
//! An engine refuses a Begin without a `remote-channel` (`NotImplemented`): it only takes the answer to a Begin of its own. So a server begins a
//! session of its own for the one that the peer begins, and turns the two Begins: the engine's goes out as the answer to the peer's, and the
//! peer's goes in as the answer to the engine's. Only the `remote-channel` of each changes.
//!
//! What this does not do, and the server has to:
//!
//! - **Channels.** The engine's frames go out on the channel that it chose, which need not be the peer's; the answer says which two belong
//!   together. Where no channel is left up to both sides' `channel-max`, the session is `Refused`: no End can inform the peer of it, and
//!   the server closes the connection.
//! - **Sizes.** A Begin gains two bytes. The engine's own has fewer than 64 with the usual settings, and fits the 512 that every peer takes. One
//!   with long properties may not fit any more (`TooLarge`). The peer's Begin is not sent anywhere, and has no limit.
//! - **Handles.** The peer's `handle-max` is not checked, here or by the engine: a server compares the handles that it allots.
//! - **The Open.** The engine takes a received Begin in `Opened` alone, after both Opens; one that comes before is refused (`IllegalState`)
//!   once it is handed on.

ghost use Rattle.std.specs.Prelude.{◌≡◌, ◌≤◌, Ok, Err, MatchOption};
ghost use Rattle.amqp_driver.specs.Turn.{IsBegin, ReadsBegin, EncodesWhole, WritesAnswer, TurnsBegin};
ghost use Rattle.amqp_driver.specs.BeginSession.{PutsOwn, GivesPiece, TurnsTwo, BeginsSession};
ghost use Rattle.amqp_driver.specs.declared.turning.TurnError.TheVariants.{HasRemoteChannel};

use amqp_connection::SessionNo;
use amqp_engine::{Answer, Engine, Input, StepError};
use amqp_frames::{Error as FrameError, Frame, FrameBody, FrameDecoder, FrameEncoder};
use amqp_session::{LinkRelay, SessionSettings};
use amqp_types::Begin;
use bytes::Bytes;
use std::alloc::Global;
use std::collections::VecDeque;

/// Why a Begin is not turned.
#[derive(Debug, Drop, PartialEq, thiserror::Error)]
pub enum TurnError {
    /// The frame is no Begin.
    #[error("no Begin")]
    NoBegin,
    /// The Begin has a `remote-channel`: it answers one already.
    #[error("the Begin answers another one")]
    HasRemoteChannel,
    /// The bytes are no frame; or the Begin does not fit the limit with its `remote-channel`; or memory was refused.
    #[error("{0}")]
    Frame(FrameError),
}

/// Why a session that the peer begins is not begun.
#[derive(Debug, Drop, PartialEq, thiserror::Error)]
pub enum BeginSessionError {
    /// The frame is not the Begin of a session that the peer begins. Nothing has changed.
    #[error("{0}")]
    Unread(TurnError),
    /// The engine begins no session: what waited is put out first (`OutputWaiting`), the number was used (`SessionInUse`), no channel is left, or
    /// memory was refused.
    #[error("{0}")]
    Refused(StepError),
    /// The session is begun, and one of the two Begins cannot be turned: memory was refused, or the limit is too small. The engine's Begin was
    /// not sent, or still waits in the engine and answers none. The connection cannot go on: the caller closes the stream.
    #[error("{0}")]
    Unsent(TurnError),
}

/// Two Begins that were turned: each is a frame without its size, and each answers the other.
///
/// ```
/// let limit = engine.max_piece_len();
/// match begin_session(alloc, &mut engine, SessionNo(0), SessionSettings::default(), frame, limit) {
///     Ok(Turned { to_send, to_take }) => {
///         write_frame(&to_send, &mut output)?;
///         push(&mut inputs, Input::Received(to_take))?;
///     }
///     Err(error) => failed(error),
/// }
/// ```
#[derive(Drop)]
pub struct Turned {
    /// This side's Begin, for the peer.
    pub to_send: Bytes,
    /// The peer's Begin, for the engine, as `Input::Received`.
    pub to_take: Bytes,
}

/// The frame of a Begin that answers none, as the answer to the Begin that came on the channel `remote_channel`: the same frame, but for that
/// one field. It has `max_piece_len` bytes at most, which is 4 or more: the peer's `max-frame-size` less four. What follows the Begin
/// in the frame is left out.
///
/// `NoBegin` where the frame is no Begin; `HasRemoteChannel` where the Begin answers one already; `Frame` where the bytes are no frame, where
/// the answer does not fit (`TooLarge`), or where memory is refused.
pub fn turn_begin(
    alloc: Global,
    frame: Bytes,
    remote_channel: u16,
    max_piece_len: u32,
) -> Result<Bytes, TurnError>
    requires { 4 ≤ max_piece_len }
    ensures { TurnsBegin frame remote_channel max_piece_len result }
{
    let (channel, begin) = read_begin(alloc, frame)?;
    answering(alloc, channel, begin, remote_channel, max_piece_len)
}

/// Begins a session of the engine's, under this number and with these settings, for the one that the peer begins by this frame. The engine is
/// asked for its Begin, which is put out; the caller sends `to_send` after its size, and then hands the engine `to_take`: with that the
/// session is `Mapped`. Frames that waited in the engine are to be put out before. `max_piece_len` is as for [`turn_begin`].
///
/// `Unread` where the frame is no Begin of a session that the peer begins; `Refused` where the engine begins no session; `Unsent` where the
/// session is begun and a Begin cannot be turned. [`BeginSessionError`] says of each what has changed.
pub fn begin_session<R: LinkRelay>(
    alloc: Global,
    engine: &mut Engine<R>,
    number: SessionNo,
    settings: SessionSettings,
    frame: Bytes,
    max_piece_len: u32,
) -> Result<Turned, BeginSessionError>
    requires { 4 ≤ max_piece_len }
    ensures { BeginsSession R.gives engine.old number settings frame max_piece_len result engine.new }
{
    let (remote_channel, theirs) = match read_begin(alloc, frame) {
        Ok(read) => read,
        Err(error) => return Err(BeginSessionError::Unread(error)),
    };
    if let Err(error) = engine.step(Input::Begin(number, settings)) {
        drop(theirs);
        return Err(BeginSessionError::Refused(error));
    }
    let own = match own_begin(alloc, engine) {
        Ok(own) => own,
        Err(error) => {
            drop(theirs);
            return Err(BeginSessionError::Unsent(error));
        }
    };
    match turn_both(alloc, own, remote_channel, theirs, max_piece_len) {
        Ok(turned) => Ok(turned),
        Err(error) => Err(BeginSessionError::Unsent(error)),
    }
}

/// The channel and the Begin of a frame that answers none.
pub(crate) fn read_begin(alloc: Global, frame: Bytes) -> Result<(u16, Begin), TurnError>
    ensures { ReadsBegin frame result }
{
    let (frame, rest) = match FrameDecoder::new().decode(alloc, frame) {
        Ok(decoded) => decoded,
        Err(error) => return Err(TurnError::Frame(error)),
    };
    drop(rest);
    let channel = frame.channel;
    match frame.into_body() {
        FrameBody::Begin(begin) => answers_none(channel, begin),
        body => {
            drop(body);
            Err(TurnError::NoBegin)
        }
    }
}

/// The Begin, where it answers none.
fn answers_none(channel: u16, begin: Begin) -> Result<(u16, Begin), TurnError>
    ensures { MatchOption begin.remote_channel (result ≡ Ok (channel, begin)) (λ c. result ≡ Err HasRemoteChannel) }
{
    if begin.remote_channel.is_some() {
        drop(begin);
        return Err(TurnError::HasRemoteChannel);
    }
    Ok((channel, begin))
}

/// The frame of a Begin, as the answer to the one on the channel `remote_channel`.
fn answering(
    alloc: Global,
    channel: u16,
    begin: Begin,
    remote_channel: u16,
    max_piece_len: u32,
) -> Result<Bytes, TurnError>
    requires { 4 ≤ max_piece_len }
    ensures { WritesAnswer channel begin remote_channel max_piece_len result }
{
    let begin = Begin {
        remote_channel: Some(remote_channel),
        ..begin
    };
    let frame = Frame::new(channel, FrameBody::Begin(begin));
    let bytes = in_one_piece(alloc, &frame, max_piece_len);
    drop(frame);
    match bytes {
        Ok(bytes) => Ok(bytes),
        Err(error) => Err(TurnError::Frame(error)),
    }
}

/// The bytes of the frame of a Begin.
fn in_one_piece(alloc: Global, frame: &Frame, max_piece_len: u32) -> Result<Bytes, FrameError>
    requires limit { 4 ≤ max_piece_len }
    requires begin { IsBegin frame.now.body }
    ensures { EncodesWhole frame.now max_piece_len result }
{
    let pieces = FrameEncoder::new(max_piece_len).encode(alloc, frame)?;
    match pieces.first() {
        Some(piece) => piece.to_bytes(alloc),
        None => Err(FrameError::TooLarge),
    }
}

/// The peer's Begin and this side's, each as the answer to the other.
fn turn_both(
    alloc: Global,
    own: Bytes,
    remote_channel: u16,
    theirs: Begin,
    max_piece_len: u32,
) -> Result<Turned, TurnError>
    requires { 4 ≤ max_piece_len }
    ensures { TurnsTwo own remote_channel theirs max_piece_len result }
{
    let (channel, ours) = match read_begin(alloc, own) {
        Ok(read) => read,
        Err(error) => {
            drop(theirs);
            return Err(error);
        }
    };
    let to_take = match answering(alloc, remote_channel, theirs, channel, u32::MAX) {
        Ok(to_take) => to_take,
        Err(error) => {
            drop(ours);
            return Err(error);
        }
    };
    let to_send = answering(alloc, channel, ours, remote_channel, max_piece_len)?;
    Ok(Turned { to_send, to_take })
}

/// Takes the Begin that waits in the engine out of it.
fn own_begin<R: LinkRelay>(alloc: Global, engine: &mut Engine<R>) -> Result<Bytes, TurnError>
    ensures { PutsOwn R.gives engine.old result engine.new }
{
    let mut answers = Vec::new(alloc);
    let mut none = VecDeque::new(alloc);
    let outcome = engine.run(&mut none, &mut answers);
    drop(none);
    let bytes = if outcome.is_ok() {
        only_piece(alloc, answers.as_slice())
    } else {
        Err(FrameError::OutOfMemory)
    };
    drop(answers);
    match bytes {
        Ok(bytes) => Ok(bytes),
        Err(error) => Err(TurnError::Frame(error)),
    }
}

/// The bytes of the one frame among the answers, which is a single piece.
fn only_piece(alloc: Global, answers: &[Answer]) -> Result<Bytes, FrameError>
    ensures { GivesPiece answers.now result }
{
    match answers {
        [Answer::Out(pieces)] => match pieces.first() {
            Some(piece) => piece.to_bytes(alloc),
            None => Err(FrameError::TooLarge),
        },
        _ => Err(FrameError::TooLarge),
    }
}
