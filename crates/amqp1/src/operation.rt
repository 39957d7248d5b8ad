//! What an engine is asked, by number.

ghost use Rattle.std.specs.Prelude.{◌≡◌};
ghost use Rattle.amqp1.specs.Operation.{IsOperation, group_of};

/// What an engine is asked by `amqp1_call`. The crate's page says of each operation what it takes and writes.
#[derive(Clone, Copy, Debug, PartialEq, Eq)]
pub enum Operation {
    /// 2: this side's Open is to be sent.
    Open,
    /// 3: this side's Close is to be sent.
    Close,
    /// 4: a session is begun.
    Begin,
    /// 5: a session is ended.
    End,
    /// 6: a session gives its channel back.
    Release,
    /// 7: a session that is over is let go.
    Forget,
    /// 8: a link is allotted a handle.
    Link,
    /// 9: a link whose attach came is allotted a handle.
    LinkOn,
    /// 10: an Attach is to be sent.
    Attach,
    /// 11: a Detach is to be sent.
    Detach,
    /// 12: a Flow of a link is to be sent.
    Flow,
    /// 13: a Transfer is to be sent.
    Transfer,
    /// 14: a Disposition is to be sent.
    Disposition,
    /// 15: deliveries that this side settles are let go.
    Settle,
    /// 16: bytes that are to be sent are taken.
    Output,
    /// 18: the last refusal is read.
    Refusal,
    /// 19: the peer's Open.
    RemoteOpen,
    /// 20: the most bytes of a piece.
    MaxPieceLen,
    /// 21: how many bytes of payload go out in one frame.
    PayloadRoom,
    /// 23: the session to which a channel of the peer's leads.
    SessionOf,
    /// 24: the connection's state.
    State,
    /// 25: a session's state.
    SessionState,
    /// 27: how many frames did not fit.
    Unfit,
    /// 28: what a refusal of a record is called, and what answers it.
    RefusalText,
    /// 29: a Disposition by numbers is to be sent.
    Dispose,
    /// 30: a client is let in, or it is not.
    Login,
    /// 31: a challenge is to be sent.
    Challenge,
    /// 32: a response is to be sent.
    Respond,
    /// 33: whether the stream is over.
    IsOver,
    /// 34: a Begin of the peer's is answered.
    AnswerBegin,
    /// 35: an End of the peer's is answered, and its session is let go.
    AnswerEnd,
    /// 36: a session that both sides have ended is let go.
    LetGo,
}

impl Operation {
    /// The operation of a number. `None` where no operation has it.
    pub fn of(number: u32) -> Option<Operation>
        ensures { IsOperation number result }
    {
        match number {
            2 => Some(Operation::Open),
            3 => Some(Operation::Close),
            4 => Some(Operation::Begin),
            5 => Some(Operation::End),
            6 => Some(Operation::Release),
            7 => Some(Operation::Forget),
            8 => Some(Operation::Link),
            9 => Some(Operation::LinkOn),
            10 => Some(Operation::Attach),
            11 => Some(Operation::Detach),
            12 => Some(Operation::Flow),
            13 => Some(Operation::Transfer),
            14 => Some(Operation::Disposition),
            15 => Some(Operation::Settle),
            16 => Some(Operation::Output),
            18 => Some(Operation::Refusal),
            19 => Some(Operation::RemoteOpen),
            20 => Some(Operation::MaxPieceLen),
            21 => Some(Operation::PayloadRoom),
            23 => Some(Operation::SessionOf),
            24 => Some(Operation::State),
            25 => Some(Operation::SessionState),
            27 => Some(Operation::Unfit),
            28 => Some(Operation::RefusalText),
            29 => Some(Operation::Dispose),
            30 => Some(Operation::Login),
            31 => Some(Operation::Challenge),
            32 => Some(Operation::Respond),
            33 => Some(Operation::IsOver),
            34 => Some(Operation::AnswerBegin),
            35 => Some(Operation::AnswerEnd),
            36 => Some(Operation::LetGo),
            _ => None,
        }
    }

    /// How it takes its input.
    pub(crate) fn group(self) -> Group
        ensures { result ≡ group_of self }
    {
        match self {
            Operation::Link | Operation::LinkOn => Group::Links,
            Operation::Dispose => Group::Disposes,
            Operation::SessionOf => Group::FindsSession,
            Operation::SessionState => Group::ShowsSession,
            Operation::PayloadRoom => Group::Measures,
            Operation::RefusalText => Group::Names,
            Operation::Output
            | Operation::Refusal
            | Operation::RemoteOpen
            | Operation::MaxPieceLen
            | Operation::State
            | Operation::Unfit
            | Operation::IsOver => Group::Bare,
            Operation::Login => Group::Logs,
            Operation::Challenge => Group::Challenges,
            Operation::Respond => Group::Responds,
            Operation::AnswerBegin => Group::AnswersBegin,
            Operation::AnswerEnd => Group::AnswersEnd,
            Operation::LetGo => Group::LetsGo,
            _ => Group::Asks,
        }
    }
}

/// How an operation takes its input.
#[derive(Clone, Copy, PartialEq, Eq)]
pub(crate) enum Group {
    /// A link.
    Links,
    /// A disposition by numbers.
    Disposes,
    /// A channel.
    FindsSession,
    /// A session.
    ShowsSession,
    /// A transfer.
    Measures,
    /// The number of a refusal.
    Names,
    /// An empty one.
    Bare,
    /// The outcome of a login.
    Logs,
    /// A challenge.
    Challenges,
    /// A response to a challenge.
    Responds,
    /// The peer's Begin, and the session that answers it.
    AnswersBegin,
    /// A session that the peer has ended, and an error.
    AnswersEnd,
    /// A session that both sides have ended.
    LetsGo,
    /// A request of the engine's.
    Asks,
}
