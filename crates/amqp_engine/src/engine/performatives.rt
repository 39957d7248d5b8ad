//! What a received performative does, once it is read: the connection takes Open and Close, and every other one goes along its channel's
//! route to a session.

ghost use Rattle.std.specs.Prelude.{◌≡◌, ◌∷◌, [], true, false, Some, None, IfSome, IfNone};
ghost use Rattle.amqp_connection.specs.Connection.{refusal_of};
ghost use Rattle.amqp_frames.specs.declared.frame.FrameBody.TheVariants as body;
ghost use Rattle.amqp_engine.specs.EngineView.{peer_limit};
ghost use Rattle.amqp_engine.specs.Engine.{ReceivedCloseStep, moved, recorded};
ghost use Rattle.amqp_engine.specs.ByHistory.{remote_reason};
ghost use Rattle.amqp_engine.specs.Inner.Taken.{BodyKept, BodyStep, NothingDone, Tries, refusal_or};
ghost use Rattle.amqp_engine.specs.declared.engine.step_error.StepError.TheVariants as no;
ghost use Rattle.amqp_connection.specs.declared.error.ConnectionInnerError.TheVariants as routes;
ghost use Rattle.amqp_session.specs.declared.error.SessionInnerError.TheVariants as Refused;
ghost use Rattle.amqp_engine.specs.RunFrame.{OfRelay};

use super::handle_state::{close_answer, end_answer};
use super::peer_encoder::PeerEncoder;
use super::sessions::{
    attach_received, begin_received, detach_received, disposition_received, end_received,
    flow_received, flow_received_if_room,
};
use super::step_error::StepError;
use super::{Engine, refused};
use amqp_connection::{Connection, ConnectionInnerError, ConnectionStateError};
use amqp_session::{ConnectionStopReason, IncomingChannel, LinkRelay, SessionInnerError, keys};
use amqp_types::{
    Attach, Begin, Close, ConnectionState, Detach, Disposition, End, Error, Flow, Open, Transfer,
};
use bytes::Bytes;

/// Why the connection stops with a Close of the peer.
fn reason_of(error: &Option<Error>) -> ConnectionStopReason
    ensures { result ≡ remote_reason error.now }
{
    match error {
        Some(_) => ConnectionStopReason::RemoteClosedWithError,
        None => ConnectionStopReason::RemoteClosed,
    }
}

/// The limit of a piece from the peer's Open on.
fn limit_of(open: &Open) -> u32
    ensures { result ≡ peer_limit «open».now }
{
    open.max_frame_size.max(512) - 4
}

/// Records how the peer closed, where its Close moved the state to `CloseReceived`.
fn record(connection: &mut Connection, before: ConnectionState, reason: ConnectionStopReason)
    ensures { connection.new ≡ recorded (moved before connection.old.state) reason connection.old }
{
    match (before, *connection.local_state()) {
        (ConnectionState::CloseReceived, _) => {},
        (_, ConnectionState::CloseReceived) => connection.set_connection_stop_reason(reason),
        _ => {},
    }
}

/// Takes the peer's Close.
fn take_close(
    connection: &mut Connection,
    channel: IncomingChannel,
    close: Close,
) -> Result<(), ConnectionStateError>
    ensures { ReceivedCloseStep connection.old close (refusal_of result) connection.new }
{
    let reason = reason_of(&close.error);
    let before = *connection.local_state();
    let answer = connection.on_incoming_close(channel, close);
    record(connection, before, reason);
    answer
}

/// The answer to a Begin that has no route: none, where memory was refused for it.
fn unrouted(error: ConnectionInnerError) -> Option<Result<(), StepError>>
    ensures same { refusal_or (no.Connection routes.OutOfMemory) result ≡ Some (no.Connection error) }
    ensures none { IfNone result (error ≡ routes.OutOfMemory) }
    ensures some { IfSome result (λ a. ¬ (error ≡ routes.OutOfMemory)) }
{
    match error {
        ConnectionInnerError::OutOfMemory => None,
        other => Some(Err(StepError::Connection(other))),
    }
}

impl<R: LinkRelay> Engine<R> {
    #[inline(always)]
    pub(super) fn on_transfer(
        &mut self,
        channel: IncomingChannel,
        transfer: Transfer,
        payload: Bytes,
        outcome: &mut Result<(), StepError>,
    )
        requires idle { self.old.waiting ≡ [] }
        requires clear { refusal_of outcome.old ≡ None }
        ensures { BodyStep R.gives self.old channel.0 (body.Transfer transfer payload) (refusal_of outcome.new) self.new }
    {
        let Some(number) = self.connection.session_tx_by_incoming_channel(channel) else {
            drop(transfer);
            drop(payload);
            return refused::unrouted(outcome);
        };
        let hint = self.hints.of(number.0);
        let Some(session) = keys::get_mut(&mut self.sessions, hint, &number.0) else {
            drop(transfer);
            drop(payload);
            return refused::no_session(outcome);
        };
        match session.take_transfer(transfer, payload) {
            Ok(()) => self.waiting.put_item(session.maybe_outgoing_session_flow()),
            Err(error) => refused::by_session(outcome, error),
        }
    }

    /// The same, and it was taken; or memory was refused for the record of its delivery, and nothing changes.
    #[inline(always)]
    pub(super) fn try_transfer(
        &mut self,
        channel: IncomingChannel,
        transfer: Transfer,
        payload: Bytes,
        outcome: &mut Result<(), StepError>,
    ) -> bool
        requires idle { self.old.waiting ≡ [] }
        requires clear { refusal_of outcome.old ≡ None }
        ensures tried { Tries R.gives self.old channel.0 (body.Transfer transfer payload) result (refusal_of outcome.new) self.new }
        ensures memory { OfRelay R.gives (body.Transfer transfer payload) (refusal_of outcome.new) }
    {
        let Some(number) = self.connection.session_tx_by_incoming_channel(channel) else {
            drop(transfer);
            drop(payload);
            refused::unrouted(outcome);
            return true;
        };
        let hint = self.hints.of(number.0);
        let Some(session) = keys::get_mut(&mut self.sessions, hint, &number.0) else {
            drop(transfer);
            drop(payload);
            refused::no_session(outcome);
            return true;
        };
        match session.take_transfer_if_room(transfer, payload) {
            None => return false,
            Some(Ok(())) => self.waiting.put_item(session.maybe_outgoing_session_flow()),
            Some(Err(error)) => refused::by_session(outcome, error),
        }
        true
    }

    #[inline(always)]
    pub(super) fn on_flow(
        &mut self,
        channel: IncomingChannel,
        flow: Flow,
        outcome: &mut Result<(), StepError>,
    )
        requires idle { self.old.waiting ≡ [] }
        requires clear { refusal_of outcome.old ≡ None }
        ensures { BodyStep R.gives self.old channel.0 (body.Flow flow) (refusal_of outcome.new) self.new }
    {
        let Some(number) = self.connection.session_tx_by_incoming_channel(channel) else {
            drop(flow);
            return refused::unrouted(outcome);
        };
        let hint = self.hints.of(number.0);
        let Some(session) = keys::get_mut(&mut self.sessions, hint, &number.0) else {
            drop(flow);
            return refused::no_session(outcome);
        };
        flow_received(session, &mut self.waiting, flow, outcome);
    }

    /// The same, and it was taken; or memory was refused for what it lets out, and nothing changes.
    #[inline(always)]
    pub(super) fn try_flow(
        &mut self,
        channel: IncomingChannel,
        flow: Flow,
        outcome: &mut Result<(), StepError>,
    ) -> bool
        requires idle { self.old.waiting ≡ [] }
        requires clear { refusal_of outcome.old ≡ None }
        ensures tried { Tries R.gives self.old channel.0 (body.Flow flow) result (refusal_of outcome.new) self.new }
        ensures memory { result ≡ true → OfRelay R.gives (body.Flow flow) (refusal_of outcome.new) }
    {
        let Some(number) = self.connection.session_tx_by_incoming_channel(channel) else {
            drop(flow);
            refused::unrouted(outcome);
            return true;
        };
        let hint = self.hints.of(number.0);
        let Some(session) = keys::get_mut(&mut self.sessions, hint, &number.0) else {
            drop(flow);
            refused::no_session(outcome);
            return true;
        };
        flow_received_if_room(session, &mut self.waiting, flow, outcome)
    }

    /// `false` where memory is refused for it before anything is done: then nothing changes, and the outcome says so.
    #[inline(always)]
    pub(super) fn on_disposition(
        &mut self,
        channel: IncomingChannel,
        disposition: Disposition,
        outcome: &mut Result<(), StepError>,
    ) -> bool
        requires idle { self.old.waiting ≡ [] }
        requires clear { refusal_of outcome.old ≡ None }
        ensures received { BodyStep R.gives self.old channel.0 (body.Disposition disposition) (refusal_of outcome.new) self.new }
        ensures not_done { result ≡ false → NothingDone self.old (body.Disposition disposition) self.new }
        ensures memory { result ≡ true → OfRelay R.gives (body.Disposition disposition) (refusal_of outcome.new) }
    {
        let Some(number) = self.connection.session_tx_by_incoming_channel(channel) else {
            drop(disposition);
            refused::unrouted(outcome);
            return true;
        };
        let hint = self.hints.of(number.0);
        let Some(session) = keys::get_mut(&mut self.sessions, hint, &number.0) else {
            drop(disposition);
            refused::no_session(outcome);
            return true;
        };
        disposition_received(session, &mut self.waiting, disposition, outcome)
    }

    #[inline(always)]
    pub(super) fn on_attach(
        &mut self,
        channel: IncomingChannel,
        attach: Attach,
    ) -> Result<(), StepError>
        requires { self.old.waiting ≡ [] }
        ensures { BodyStep R.gives self.old channel.0 (body.Attach attach) (refusal_of result) self.new }
    {
        match self.try_attach(channel, attach) {
            Some(answer) => answer,
            None => Err(StepError::Session(SessionInnerError::OutOfMemory)),
        }
    }

    /// `None` where memory is refused for its place: then nothing changes, and it is to be refused `Session(OutOfMemory)`.
    #[inline(always)]
    pub(super) fn try_attach(
        &mut self,
        channel: IncomingChannel,
        attach: Attach,
    ) -> Option<Result<(), StepError>>
        requires { self.old.waiting ≡ [] }
        ensures received { BodyStep R.gives self.old channel.0 (body.Attach attach) (refusal_or (no.Session Refused.OutOfMemory) result) self.new }
        ensures none { IfNone result (NothingDone self.old (body.Attach attach) self.new) }
        ensures memory { IfSome result (λ a. OfRelay R.gives (body.Attach attach) (refusal_of a)) }
    {
        let Some(number) = self.connection.session_tx_by_incoming_channel(channel) else {
            drop(attach);
            return Some(Err(StepError::Connection(ConnectionInnerError::NotFound(None))));
        };
        let hint = self.hints.of(number.0);
        let Some(session) = keys::get_mut(&mut self.sessions, hint, &number.0) else {
            drop(attach);
            return Some(Err(StepError::NoSession));
        };
        attach_received(session, attach)
    }

    #[inline(always)]
    pub(super) fn on_detach(
        &mut self,
        channel: IncomingChannel,
        detach: Detach,
    ) -> Result<(), StepError>
        requires { self.old.waiting ≡ [] }
        ensures { BodyStep R.gives self.old channel.0 (body.Detach detach) (refusal_of result) self.new }
    {
        let Some(number) = self.connection.session_tx_by_incoming_channel(channel) else {
            drop(detach);
            return Err(StepError::Connection(ConnectionInnerError::NotFound(None)));
        };
        let hint = self.hints.of(number.0);
        let Some(session) = keys::get_mut(&mut self.sessions, hint, &number.0) else {
            drop(detach);
            return Err(StepError::NoSession);
        };
        detach_received(session, &mut self.waiting, detach)
    }

    /// The connection's acceptance decides the route, also where the session then refuses.
    #[inline(always)]
    pub(super) fn on_begin(
        &mut self,
        channel: IncomingChannel,
        begin: Begin,
    ) -> Result<(), StepError>
        requires { self.old.waiting ≡ [] }
        ensures { BodyStep R.gives self.old channel.0 (body.Begin begin) (refusal_of result) self.new }
    {
        match self.try_begin(channel, begin) {
            Some(answer) => answer,
            None => Err(StepError::Connection(ConnectionInnerError::OutOfMemory)),
        }
    }

    /// `None` where memory is refused for its route: then nothing changes, and it is to be refused `Connection(OutOfMemory)`.
    #[inline(always)]
    pub(super) fn try_begin(
        &mut self,
        channel: IncomingChannel,
        begin: Begin,
    ) -> Option<Result<(), StepError>>
        requires { self.old.waiting ≡ [] }
        ensures received { BodyStep R.gives self.old channel.0 (body.Begin begin) (refusal_or (no.Connection routes.OutOfMemory) result) self.new }
        ensures none { IfNone result (NothingDone self.old (body.Begin begin) self.new) }
        ensures memory { IfSome result (λ a. OfRelay R.gives (body.Begin begin) (refusal_of a)) }
    {
        let number = match self.connection.route_begin(channel, begin.remote_channel) {
            Ok(number) => number,
            Err(error) => {
                drop(begin);
                return unrouted(error);
            }
        };
        let hint = self.hints.of(number.0);
        let Some(session) = keys::get_mut(&mut self.sessions, hint, &number.0) else {
            drop(begin);
            return Some(Err(StepError::NoSession));
        };
        Some(begin_received(session, channel, begin))
    }

    /// `copy` is that of the End's error, which is kept for handles.
    #[inline(always)]
    pub(super) fn on_end(
        &mut self,
        channel: IncomingChannel,
        end: End,
        copy: Option<Error>,
    ) -> Result<(), StepError>
        requires idle { self.old.waiting ≡ [] }
        requires copied { copy ≡ end.error }
        ensures { BodyKept R.gives self.old channel.0 (body.End end) (refusal_of result) self.new }
    {
        let number = self.connection.route_end(channel)?;
        let hint = self.hints.of(number.0);
        let Some(session) = keys::get_mut(&mut self.sessions, hint, &number.0) else {
            drop(end);
            drop(copy);
            return Err(StepError::NoSession);
        };
        let answer = end_received(session, channel, end);
        self.kept.keep_end(number, end_answer(&answer, copy));
        answer
    }

    #[inline(always)]
    pub(super) fn on_open(&mut self, channel: IncomingChannel, open: Open) -> Result<(), StepError>
        requires { self.old.waiting ≡ [] }
        ensures { BodyStep R.gives self.old channel.0 (body.Open «open») (refusal_of result) self.new }
    {
        let limit = limit_of(&open);
        self.connection.on_incoming_open(channel, open)?;
        self.encoder = PeerEncoder::new(limit);
        Ok(())
    }

    /// `copy` is that of the Close's error, which is kept for handles.
    #[inline(always)]
    pub(super) fn on_close(
        &mut self,
        channel: IncomingChannel,
        close: Close,
        copy: Option<Error>,
    ) -> Result<(), StepError>
        requires idle { self.old.waiting ≡ [] }
        requires copied { copy ≡ close.error }
        ensures { BodyKept R.gives self.old channel.0 (body.Close close) (refusal_of result) self.new }
    {
        let answer = take_close(&mut self.connection, channel, close);
        self.kept.keep_close(close_answer(&answer, copy));
        answer?;
        Ok(())
    }
}
