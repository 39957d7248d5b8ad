//! What an engine is given.

use amqp_connection::SessionNo;
use amqp_session::{InputHandle, LinkFlow, SessionSettings, SessionStopReason};
use amqp_types::{Attach, DeliveryNumber, Detach, Disposition, Error, Role, Transfer};
use bytes::Bytes;

/// A received frame, or a local request. `R` relays what comes for the links of a session.
///
/// Each input is refused `OutputWaiting` by [`Engine::step`](crate::Engine::step) while frames wait; a run puts those out first. A request
/// on a session, all that name one but `Begin`, is refused `NoSession` where the engine has none of that number. Such a request does not
/// look at the connection's state.
///
/// ```
/// inputs.push_back(Input::Begin(SessionNo(0), SessionSettings::new()))?;
/// inputs.push_back(Input::Received(frame))?;
/// inputs.push_back(Input::Close(None))?;
/// ```
#[derive(Debug, Drop)]
pub enum Input<R> {
    /// One received frame, without its four-byte size (AMQP 1.0 part 2, section 2.3).
    ///
    /// `Frame` where the bytes are no frame, or where memory for its fields is refused: nothing changes then. Else the refusals are:
    ///
    /// - Of an Open: `ConnectionState(IllegalState)` in every state but `HeaderExchange`, `OpenSent` and `ClosePipe`.
    /// - Of a Close: `OutOfMemory` for the copy of its error (nothing changes then), and `ConnectionState`, as
    ///   `Connection::on_incoming_close` says.
    /// - Of a Begin or an End: `OutOfMemory` for the copy of an End's error (nothing changes then), `Connection` where no session gets
    ///   the frame, and `SessionState`, as `Session::on_incoming_begin` and `Session::on_incoming_end` say.
    /// - Of any other frame of a session: `Connection(NotFound)` where the channel leads to no session. Of these all but a Detach may be
    ///   refused `Session` too.
    Received(Bytes),
    /// This side's Open is to be sent (AMQP 1.0 part 2, section 2.4.1). It is accepted in `HeaderExchange`, `OpenReceived` and
    /// `HeaderSent`. `ConnectionState(IllegalState)` in every other state, `ConnectionState(OutOfMemory)` where the copy of the Open is
    /// refused.
    Open,
    /// This side's Close is to be sent, with an error or without (AMQP 1.0 part 2, section 2.4.3). It is accepted in `Opened`, `OpenSent`,
    /// `OpenPipe` and `CloseReceived`, and then the stop reason is recorded. `ConnectionState(IllegalState)` in every other state.
    Close(Option<Error>),
    /// A session is begun, under a number that no session of the engine had, on the lowest channel that is free (AMQP 1.0 part 2,
    /// section 2.5.1).
    ///
    /// `SessionInUse` where a session has or had the number. `OutOfMemory` where the engine has no room for one more session.
    /// `AllocSession` where no channel is allotted, as in `Start`, `HeaderSent`, `HeaderReceived` and `HeaderExchange`, or once the
    /// connection has stopped.
    /// `SessionState(OutOfMemory)` where the copy of the settings is refused. Nothing changes then.
    Begin(SessionNo, SessionSettings),
    /// The session is ended, with an error or without, or the peer's End is answered (AMQP 1.0 part 2, section 2.5.3). It is accepted where
    /// the session is in `Mapped` or in `EndReceived`, and then the stop reason is recorded. `SessionState(IllegalState)` in every other
    /// state.
    End(SessionNo, Option<Error>),
    /// An output handle is allotted for a link of this name; the relay, if any, waits under the name for the peer's attach. Nothing goes
    /// out: `Attach` sends the attach, with the handle that [`Engine::output_handle`](crate::Engine::output_handle) gives. `AllocLink`
    /// as `Session::allocate_link` is refused.
    AllocateLink(SessionNo, String, Option<R>),
    /// An output handle is allotted for a link of this name, whose attach came on this input handle: its relay is attached
    /// there at once. `AllocLink` as for `AllocateLink`.
    AllocateIncomingLink(SessionNo, String, R, InputHandle),
    /// An attach of a link of the session is to be sent (AMQP 1.0 part 2, section 2.7.3). It is accepted in every state of the session.
    Attach(SessionNo, Attach),
    /// A detach of a link of the session is to be sent, and the link's output handle is released (AMQP 1.0 part 2, section 2.7.7). Where
    /// the peer is to answer it (`true`), the handle stays taken until the answer comes, and a handle without a live link sends nothing.
    /// It is accepted in every state of the session.
    Detach(SessionNo, Detach, bool),
    /// A flow of a link of the session is to be sent (AMQP 1.0 part 2, section 2.7.4). It is accepted in every state of the session.
    Flow(SessionNo, LinkFlow),
    /// A transfer of the link of the input handle is to be sent, with its payload: the first of its delivery, or a later
    /// one (`true` for the first). It waits in the session while the peer's window is used up.
    ///
    /// `Session(IllegalState)` where the session is not in `Mapped`, or where the first transfer of a delivery has no tag.
    /// `Session(OutOfMemory)` where memory is refused. Nothing changes then.
    ///
    /// The peer's window counts transfers (AMQP 1.0 part 2, section 2.5.6), and so does the session: this input is one. Where the transfer
    /// is longer than a piece it goes out as several Transfer frames, which a peer counts one by one: the window may then be passed, and
    /// the peer's next Flow, which names a number further on, leaves this side none, so that the session stalls. A payload of at most
    /// [`Engine::payload_room`](crate::Engine::payload_room) bytes is one frame; a longer delivery is split by
    /// [`split_delivery`](amqp_frames::split_delivery), whose parts are inputs of their own.
    Transfer(SessionNo, InputHandle, Transfer, Bytes, bool),
    /// A disposition of deliveries of the session is to be sent (AMQP 1.0 part 2, section 2.7.6). It is accepted in every state of the
    /// session, and leaves the deliveries open: `Settle` lets them go.
    Disposition(SessionNo, Disposition),
    /// Open deliveries of the session that this side settles by itself are let go (AMQP 1.0 part 2, section 2.6.12). The role is
    /// this side's, as in a disposition that it sends: `Receiver` means those that it received, and `Sender` those that it
    /// sent. It means the open ones from the first number to the last, or the first alone where no last is named; a range of
    /// half of the circle of numbers or more is backward, and means none.
    ///
    /// A settled disposition of the peer's closes a delivery by itself; a disposition of this side's leaves it open. So this is
    /// for a receiver whose relay names its deliveries, after a `Disposition` of its own that settles them, and for a
    /// sender whose echo settles. It is taken in every state of the session. No frame goes out, no relay is asked, and the
    /// session takes no memory. `NoSession` where no session has the number; it is refused for no other reason.
    Settle(SessionNo, Role, DeliveryNumber, Option<DeliveryNumber>),
    /// The session's channel is given back, for another session. Callers do so after the exchange of End: frames of the
    /// session would still carry the channel. The session stays. `Connection(NotFound)` where it no longer holds its channel.
    Release(SessionNo),
    /// The session is let go, with its links and their relays, its open deliveries, the transfers that it holds back, and what is kept
    /// of it for handles. It has to be over (AMQP 1.0 part 2, section 2.5.5): its End was sent and the peer's came, it has given its
    /// channel back (`Release`), and no channel of the peer's leads to it. No frame goes out, and no relay is asked.
    ///
    /// From then on the engine is as if it had never had the session, but for its number, which stays used: `Begin` with it is
    /// `SessionInUse`, and every other request `NoSession`. Numbers that are used in order take one place together, however many they are.
    ///
    /// `NoSession` where no session has the number. `SessionState(IllegalState)` where it is not in `Unmapped`, or where a handle's request
    /// to end it is noted. `SessionInUse` where it holds its channel, or a channel of the peer's leads to it. `OutOfMemory` where memory
    /// is refused for the number. Nothing changes then.
    Forget(SessionNo),
    /// Why the session stopped is recorded, where no reason is recorded yet. It is accepted in every state of the session.
    Stop(SessionNo, SessionStopReason),
}
