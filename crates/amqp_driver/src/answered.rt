//! What became of the answer to a Begin of the peer's, to an End, or to what a record tells.

use crate::asked::Asked;
use crate::turning::TurnError;
use amqp_engine::StepError;

/// What became of the answer to a Begin of the peer's (AMQP 1.0 part 2, section 2.5.1).
#[derive(Debug, Drop)]
pub enum BeginAnswer {
    /// The session is `Mapped`. This side's Begin, which answers the peer's, waits to be sent.
    Done,
    /// The bytes are not the frame of a Begin that answers none. Nothing has changed.
    Unread(TurnError),
    /// The connection is not open: a Begin is taken in `Opened` alone, after both Opens and before a Close. Nothing has changed.
    NotOpened,
    /// The channel of the peer's Begin leads to a session. Nothing has changed.
    ChannelInUse,
    /// This side's Begin, with its properties and capabilities, is longer than the peer takes (max-frame-size, section 2.7.1). Nothing has changed.
    TooLarge,
    /// Memory was refused before the engine was asked: the answer may be given again. Some of what waited in the engine may be sent, and nothing
    /// else has changed.
    NoMemory,
    /// The engine begins no session: the number was used (`SessionInUse`), no channel is left, or memory was refused. What waited in
    /// the engine is sent, and nothing else has changed: the answer may be given again, where it was for memory.
    Refused(StepError),
    /// Memory was refused once the engine had begun: the number is used, and its session holds a channel; its Begin still waits in the engine, and
    /// answers none, or it is gone. The peer has no answer, and may be given one under another number.
    Lost,
    /// This side's Begin waits to be sent, and memory was refused for the peer's, which was not taken: the connection cannot go on, and the
    /// owner closes it.
    Broken,
}

/// What became of the answer to an End of the peer's (AMQP 1.0 part 2, section 2.5.3).
#[derive(Debug, Drop)]
pub enum EndAnswer {
    /// The session is over: this side's End waits to be sent, its channel may be given to another session, and it is forgotten.
    Done,
    /// There is no such session; or, of `answer_end`, the peer has not ended it, or this side has too; or, of `let_go`, not both sides have ended
    /// it. Nothing has changed.
    NotEnded,
    /// This side's End was not done: so the session is still there.
    Unsent(Asked),
    /// This side's End waits to be sent, and the channel was not given back.
    NotReleased(Asked),
    /// This side's End waits to be sent, the channel was given back, and the session was not forgotten.
    NotForgotten(Asked),
}

/// What became of the answer that a record asks for.
#[derive(Debug, Drop)]
pub enum RecordAnswer {
    /// The record asks for no answer, or for none that was named; or its frame was refused, and no answer is due. Nothing has changed.
    Nothing,
    /// To a Begin.
    Begin(BeginAnswer),
    /// To an End.
    End(EndAnswer),
    /// The Close that was requested, or, for a frame that was refused, the End.
    Asked(Asked),
    /// Memory for an error was refused. Nothing has changed: the answer may be given again.
    NoMemory,
}
