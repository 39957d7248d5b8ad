//! The states of connections and sessions (AMQP 1.0 part 2, sections 2.4.6 and 2.5.5).

/// The state of a connection (part 2, section 2.4.6).
#[derive(Clone, Copy, Debug, PartialEq, Eq)]
pub enum ConnectionState {
    /// Nothing was sent or received.
    Start,
    /// The peer's header came.
    HeaderReceived,
    /// The header went out.
    HeaderSent,
    /// Both headers have passed.
    HeaderExchange,
    /// Header and Open went out, nothing came.
    OpenPipe,
    /// Header, Open and Close went out, nothing came.
    OpenClosePipe,
    /// The peer's Open came.
    OpenReceived,
    /// The Open went out.
    OpenSent,
    /// Open and Close went out, the peer's Open did not come yet.
    ClosePipe,
    /// Both Opens have passed.
    Opened,
    /// The peer's Close came.
    CloseReceived,
    /// The Close went out.
    CloseSent,
    /// The Close went out with an error. All that comes is discarded, but for the peer's Close.
    Discarding,
    /// Both Closes have passed.
    End,
}

/// The state of a session (part 2, section 2.5.5).
#[derive(Clone, Copy, Debug, PartialEq, Eq)]
pub enum SessionState {
    /// The session has not begun, or has ended on both sides.
    Unmapped,
    /// The Begin went out.
    BeginSent,
    /// The peer's Begin came.
    BeginReceived,
    /// Both Begins have passed.
    Mapped,
    /// The End went out.
    EndSent,
    /// The peer's End came.
    EndReceived,
    /// The End went out with an error. All that comes is discarded, but for the peer's End.
    Discarding,
}
