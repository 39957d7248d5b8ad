//! Local requests: what this side wants to be sent.

ghost use Rattle.std.specs.Prelude.{◌≡◌, ℕ, Option, Some, None, List, [], ◌<◌, ◌^◌};
ghost use Rattle.amqp_types.specs.declared.states.SessionState.TheVariants.{Unmapped};
ghost use Rattle.amqp_session.specs.Session.{new_session};
ghost use Rattle.amqp_session.specs.declared.stop.ConnectionStopReason.{ConnectionStopReason};
ghost use Rattle.amqp_session.specs.History as session;
ghost use Rattle.amqp_engine.specs.declared.engine.input.Input.TheVariants as given;
ghost use Rattle.amqp_connection.specs.Connection.{refusal_of};
ghost use Rattle.amqp_engine.specs.Sessions.{BeginRequest, BegunStep, ReleaseRequest};
ghost use Rattle.amqp_engine.specs.Engine.{OpenRequest, CloseRequest, CarriedStep};
ghost use Rattle.amqp_engine.specs.ByHistory.{close_reason};

use super::Engine;
use super::input::Input;
use super::output_queue::OutputQueue;
use super::sessions::{
    allocate_incoming_link, allocate_link, end, send_attach, send_detach, send_disposition,
    send_flow, settle, stop,
};
use super::step_error::StepError;
use amqp_connection::{ConnectionInnerError, SessionNo};
use amqp_memory::more_in_map;
use amqp_session::keys::KeyHash;
use amqp_session::{
    ConnectionStopReason, InputHandle, LinkFlow, LinkRelay, OutgoingChannel, Session, SessionFrame,
    SessionSettings, SessionStateError, SessionStopReason, keys,
};
use amqp_types::{Attach, DeliveryNumber, Detach, Disposition, Error, Role, SessionState};
use std::alloc::Global;

/// Why the connection stops with a Close of this side.
fn reason_of(error: &Option<Error>) -> ConnectionStopReason
    ensures { result ≡ close_reason error.now }
{
    match error {
        Some(_) => ConnectionStopReason::ClosedWithError,
        None => ConnectionStopReason::Closed,
    }
}

/// A new session that has sent its Begin, and the frame.
fn begun<R: LinkRelay>(
    alloc: Global,
    hash: KeyHash,
    settings: SessionSettings,
    channel: OutgoingChannel,
    stop: Option<ConnectionStopReason>,
) -> Result<(Session<R>, SessionFrame), SessionStateError>
    ensures begun { BegunStep (new_session hash settings channel.0 Unmapped stop) result }
    ensures fits { settings.next_outgoing_id < 2 ^ 32 }
{
    let mut session = Session::keyed(alloc, hash, settings, channel, SessionState::Unmapped, stop);
    match session.send_begin() {
        Ok(frame) => Ok((session, frame)),
        Err(error) => {
            drop(session);
            Err(error)
        }
    }
}

impl<R: LinkRelay> Engine<R> {
    /// Carries an input out. The most frequent inputs, received frames and transfers, are picked out here: a function pays at its entry for
    /// the size of its locals, those of all arms.
    #[inline(always)]
    pub(super) fn dispatch(&mut self, input: Input<R>) -> Result<(), StepError>
        requires { self.old.waiting ≡ [] }
        ensures { CarriedStep R.gives self.old input (refusal_of result) self.new }
    {
        match input {
            Input::Received(bytes) => {
                let mut outcome = Ok(());
                self.receive(bytes, &mut outcome);
                outcome
            }
            Input::Transfer(number, input, transfer, payload, is_first) => {
                let mut outcome = Ok(());
                let _done = self.request_transfer(
                    number,
                    input,
                    transfer,
                    payload,
                    is_first,
                    &mut outcome,
                );
                outcome
            }
            other => self.dispatch_any(other),
        }
    }

    /// Carries any input out.
    #[inline(never)]
    pub(super) fn dispatch_any(&mut self, input: Input<R>) -> Result<(), StepError>
        requires { self.old.waiting ≡ [] }
        ensures { CarriedStep R.gives self.old input (refusal_of result) self.new }
    {
        match input {
            Input::Received(bytes) => {
                let mut outcome = Ok(());
                self.receive(bytes, &mut outcome);
                outcome
            }
            Input::Open => self.request_open(),
            Input::Close(error) => self.request_close(error),
            Input::Begin(number, settings) => self.request_begin(number, settings),
            Input::End(number, error) => self.request_end(number, error),
            Input::AllocateLink(number, name, relay) => self.request_link(number, name, relay),
            Input::AllocateIncomingLink(number, name, relay, input) => {
                self.request_incoming_link(number, name, relay, input)
            }
            Input::Attach(number, attach) => self.request_attach(number, attach),
            Input::Detach(number, detach, expects_echo) => {
                self.request_detach(number, detach, expects_echo)
            }
            Input::Flow(number, flow) => self.request_flow(number, flow),
            Input::Transfer(number, input, transfer, payload, is_first) => {
                let mut outcome = Ok(());
                let _done = self.request_transfer(
                    number,
                    input,
                    transfer,
                    payload,
                    is_first,
                    &mut outcome,
                );
                outcome
            }
            Input::Disposition(number, disposition) => self.request_disposition(
                number,
                disposition,
            ),
            Input::Settle(number, role, first, last) => self.request_settle(
                number, role, first, last,
            ),
            Input::Release(number) => self.request_release(number),
            Input::Forget(number) => self.request_forget(number),
            Input::Stop(number, reason) => self.request_stop(number, reason),
        }
    }

    // Each request is carried out by a function of its own: a function pays at its entry for the size of its locals, those of the
    // arms that are not taken too.

    #[inline(never)]
    fn request_end(&mut self, number: SessionNo, error: Option<Error>) -> Result<(), StepError>
        requires { self.old.waiting ≡ [] }
        ensures { CarriedStep R.gives self.old (given.End number error) (refusal_of result) self.new }
    {
        let hint = self.hints.of(number.0);
        let Some(session) = keys::get_mut(&mut self.sessions, hint, &number.0) else {
            drop(error);
            return Err(StepError::NoSession);
        };
        end(session, &mut self.waiting, error)
    }

    #[inline(never)]
    fn request_link(
        &mut self,
        number: SessionNo,
        name: String,
        relay: Option<R>,
    ) -> Result<(), StepError>
        requires { self.old.waiting ≡ [] }
        ensures { CarriedStep R.gives self.old (given.AllocateLink number name relay) (refusal_of result) self.new }
    {
        let hint = self.hints.of(number.0);
        let Some(session) = keys::get_mut(&mut self.sessions, hint, &number.0) else {
            drop(name);
            drop(relay);
            return Err(StepError::NoSession);
        };
        allocate_link(session, name, relay)
    }

    #[inline(never)]
    fn request_incoming_link(
        &mut self,
        number: SessionNo,
        name: String,
        relay: R,
        input: InputHandle,
    ) -> Result<(), StepError>
        requires { self.old.waiting ≡ [] }
        ensures { CarriedStep R.gives self.old (given.AllocateIncomingLink number name relay input) (refusal_of result) self.new }
    {
        let hint = self.hints.of(number.0);
        let Some(session) = keys::get_mut(&mut self.sessions, hint, &number.0) else {
            drop(name);
            drop(relay);
            return Err(StepError::NoSession);
        };
        allocate_incoming_link(session, name, relay, input)
    }

    #[inline(never)]
    fn request_attach(&mut self, number: SessionNo, attach: Attach) -> Result<(), StepError>
        requires { self.old.waiting ≡ [] }
        ensures { CarriedStep R.gives self.old (given.Attach number attach) (refusal_of result) self.new }
    {
        let hint = self.hints.of(number.0);
        let Some(session) = keys::get_mut(&mut self.sessions, hint, &number.0) else {
            drop(attach);
            return Err(StepError::NoSession);
        };
        send_attach(session, &mut self.waiting, attach);
        Ok(())
    }

    #[inline(never)]
    fn request_detach(
        &mut self,
        number: SessionNo,
        detach: Detach,
        expects_echo: bool,
    ) -> Result<(), StepError>
        requires { self.old.waiting ≡ [] }
        ensures { CarriedStep R.gives self.old (given.Detach number detach expects_echo) (refusal_of result) self.new }
    {
        let hint = self.hints.of(number.0);
        let Some(session) = keys::get_mut(&mut self.sessions, hint, &number.0) else {
            drop(detach);
            return Err(StepError::NoSession);
        };
        send_detach(session, &mut self.waiting, detach, expects_echo)
    }

    #[inline(never)]
    fn request_flow(&mut self, number: SessionNo, flow: LinkFlow) -> Result<(), StepError>
        requires { self.old.waiting ≡ [] }
        ensures { CarriedStep R.gives self.old (given.Flow number flow) (refusal_of result) self.new }
    {
        let hint = self.hints.of(number.0);
        let Some(session) = keys::get_mut(&mut self.sessions, hint, &number.0) else {
            drop(flow);
            return Err(StepError::NoSession);
        };
        send_flow(session, &mut self.waiting, flow);
        Ok(())
    }

    #[inline(never)]
    fn request_disposition(
        &mut self,
        number: SessionNo,
        disposition: Disposition,
    ) -> Result<(), StepError>
        requires { self.old.waiting ≡ [] }
        ensures { CarriedStep R.gives self.old (given.Disposition number disposition) (refusal_of result) self.new }
    {
        let hint = self.hints.of(number.0);
        let Some(session) = keys::get_mut(&mut self.sessions, hint, &number.0) else {
            drop(disposition);
            return Err(StepError::NoSession);
        };
        send_disposition(session, &mut self.waiting, disposition);
        Ok(())
    }

    #[inline(never)]
    fn request_settle(
        &mut self,
        number: SessionNo,
        role: Role,
        first: DeliveryNumber,
        last: Option<DeliveryNumber>,
    ) -> Result<(), StepError>
        requires { self.old.waiting ≡ [] }
        ensures { CarriedStep R.gives self.old (given.Settle number role first last) (refusal_of result) self.new }
    {
        let hint = self.hints.of(number.0);
        let Some(session) = keys::get_mut(&mut self.sessions, hint, &number.0) else {
            return Err(StepError::NoSession);
        };
        settle(session, role, first, last);
        Ok(())
    }

    #[inline(never)]
    fn request_stop(
        &mut self,
        number: SessionNo,
        reason: SessionStopReason,
    ) -> Result<(), StepError>
        requires { self.old.waiting ≡ [] }
        ensures { CarriedStep R.gives self.old (given.Stop number reason) (refusal_of result) self.new }
    {
        let hint = self.hints.of(number.0);
        let Some(session) = keys::get_mut(&mut self.sessions, hint, &number.0) else {
            return Err(StepError::NoSession);
        };
        stop(session, reason);
        Ok(())
    }

    #[inline(never)]
    fn request_open(&mut self) -> Result<(), StepError>
        requires { self.old.waiting ≡ [] }
        ensures { OpenRequest self.old (refusal_of result) self.new }
    {
        let frame = self.connection.send_open()?;
        self.waiting.put(OutputQueue::one(frame));
        Ok(())
    }

    #[inline(never)]
    fn request_close(&mut self, error: Option<Error>) -> Result<(), StepError>
        requires { self.old.waiting ≡ [] }
        ensures { CloseRequest self.old error (refusal_of result) self.new }
    {
        let reason = reason_of(&error);
        let frame = self.connection.send_close(error)?;
        self.connection.set_connection_stop_reason(reason);
        self.waiting.put(OutputQueue::one(frame));
        Ok(())
    }

    /// Makes a session on the lowest free channel, and sends its Begin. When memory is refused nothing changes.
    #[inline(never)]
    fn request_begin(
        &mut self,
        number: SessionNo,
        settings: SessionSettings,
    ) -> Result<(), StepError>
        requires { self.old.waiting ≡ [] }
        ensures { (reached : Option ℕ) × (calls : List (session.SessionCall R))
            × BeginRequest R.gives self.old number.0 settings reached calls (refusal_of result) self.new }
    {
        if self.is_used(number) {
            drop(settings);
            return Err(StepError::SessionInUse);
        }
        let Ok(()) = more_in_map(&mut self.sessions, 1) else {
            drop(settings);
            return Err(StepError::OutOfMemory);
        };
        let Ok(()) = self.kept.reserve() else {
            drop(settings);
            return Err(StepError::OutOfMemory);
        };
        let channel = match self.connection.allocate_session(number) {
            Ok(channel) => channel,
            Err(error) => {
                drop(settings);
                return Err(StepError::AllocSession(error));
            }
        };
        let stop = self.connection.connection_stop_reason();
        match begun(self.alloc, self.hash, settings, channel, stop) {
            Ok((session, frame)) => {
                self.hints.note(number.0, self.sessions.len());
                drop(self.sessions.insert(number.0, session).unwrap());
                self.kept.add(number);
                self.waiting.put_frame(frame);
                Ok(())
            }
            Err(error) => {
                self.connection.deallocate_session(channel);
                Err(StepError::SessionState(error))
            }
        }
    }

    /// Gives the session's channel back, where it still holds it.
    #[inline(never)]
    fn request_release(&mut self, number: SessionNo) -> Result<(), StepError>
        ensures { (reached : Option ℕ) × (calls : List (session.SessionCall R))
            × ReleaseRequest self.old number.0 reached calls (refusal_of result) self.new }
    {
        let Some(session) = self.sessions.get(&number.0) else {
            return Err(StepError::NoSession);
        };
        let held = session.outgoing_channel();
        if self.connection.session_tx_by_outgoing_channel(held) != Some(number) {
            return Err(StepError::Connection(ConnectionInnerError::NotFound(None)));
        }
        self.connection.deallocate_session(held);
        Ok(())
    }
}
