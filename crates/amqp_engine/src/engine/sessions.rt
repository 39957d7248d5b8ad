//! What is asked of one session: by a request, or by a frame that reached it.

ghost use Rattle.std.specs.Prelude.{◌≡◌, None, [], true, false, string_bytes, IfSome, IfNone};
ghost use Rattle.amqp_memory.specs.Refusal.{SomeRefused};
ghost use Rattle.amqp_session.specs.declared.error.SessionInnerError.TheVariants as Refused;
ghost use Rattle.amqp_frames.specs.declared.frame.FrameBody.TheVariants as body;
ghost use Rattle.amqp_engine.specs.declared.engine.step_error.StepError.TheVariants as no;
ghost use Rattle.amqp_engine.specs.RunFrame.{OfRelay};
ghost use Rattle.amqp_engine.specs.Inner.Taken.{refusal_or};
ghost use Rattle.amqp_engine.specs.Calls.{end_reason, remote_end_reason, ReceivedDispositionCalls};
ghost use Rattle.amqp_engine.specs.Inner.Calls.{EndCalls, AllocateLinkCalls, AllocateIncomingCalls, AttachCalls, DetachCalls, ReceivedAttachCalls, ReceivedDetachCalls, FlowCalls, SettleCalls, StopCalls, ReceivedBeginCalls, ReceivedEndCalls, ReceivedFlowCalls, DispositionCalls};
ghost use Rattle.amqp_types.specs.Disposition.{DispositionModel};
ghost use Rattle.amqp_session.specs.declared.frame.SessionFrameBody.TheVariants as said;
ghost use Rattle.amqp_connection.specs.Connection.{refusal_of};
ghost use Rattle.amqp_engine.specs.Sessions.{Answered, SendsAll, RecordedEnd, comes_to_end};

use super::output_queue::OutputQueue;
use super::refused;
use super::step_error::StepError;
use amqp_session::{
    IncomingChannel, InputHandle, LinkFlow, LinkRelay, Session, SessionFrame, SessionFrameBody,
    SessionInnerError, SessionStopReason,
};
use amqp_types::{
    Attach, Begin, DeliveryNumber, Detach, Disposition, End, Error, Flow, Role, SessionState,
};
use std::collections::VecDeque;

/// Why a session stops with an End of this side.
fn end_reason(error: &Option<Error>) -> SessionStopReason
    ensures { result ≡ end_reason error.now }
{
    match error {
        Some(_) => SessionStopReason::EndedWithError,
        None => SessionStopReason::Ended,
    }
}

/// Why a session stops with an End of the peer's.
fn remote_end_reason(end: &End) -> SessionStopReason
    ensures { result ≡ remote_end_reason end.now.error }
{
    match end.error {
        Some(_) => SessionStopReason::RemoteEndedWithError,
        None => SessionStopReason::RemoteEnded,
    }
}

/// Whether the peer's End moved the state from the one to the other: this side sent none before.
fn comes_to_end(before: SessionState, after: SessionState) -> bool
    ensures { result ≡ comes_to_end before after }
{
    match (before, after) {
        (SessionState::EndReceived, _) => false,
        (_, SessionState::EndReceived) => true,
        _ => false,
    }
}

pub(crate) fn end<R: LinkRelay>(
    session: &mut Session<R>,
    waiting: &mut OutputQueue,
    error: Option<Error>,
) -> Result<(), StepError>
    requires { waiting.old ≡ [] }
    ensures { Answered R.gives session.old.view (EndCalls error) (refusal_of result) waiting.new session.new.view }
{
    let reason = end_reason(&error);
    let frame = session.send_end(error)?;
    session.set_session_stop_reason(reason);
    waiting.put_frame(frame);
    Ok(())
}

pub(crate) fn allocate_link<R: LinkRelay>(
    session: &mut Session<R>,
    name: String,
    relay: Option<R>,
) -> Result<(), StepError>
    ensures { Answered R.gives session.old.view (AllocateLinkCalls (string_bytes name) relay) (refusal_of result) [] session.new.view }
{
    session.allocate_link(name, relay)?;
    Ok(())
}

pub(crate) fn allocate_incoming_link<R: LinkRelay>(
    session: &mut Session<R>,
    name: String,
    relay: R,
    input: InputHandle,
) -> Result<(), StepError>
    ensures { Answered R.gives session.old.view (AllocateIncomingCalls (string_bytes name) relay input) (refusal_of result) [] session.new.view }
{
    session.allocate_incoming_link(name, relay, input)?;
    Ok(())
}

pub(crate) fn send_attach<R: LinkRelay>(
    session: &mut Session<R>,
    waiting: &mut OutputQueue,
    attach: Attach,
)
    ensures { Answered R.gives session.old.view (AttachCalls attach) None waiting.new session.new.view }
{
    waiting.put_frame(session.on_outgoing_attach(attach));
}

pub(crate) fn send_detach<R: LinkRelay>(
    session: &mut Session<R>,
    waiting: &mut OutputQueue,
    detach: Detach,
    expects_echo: bool,
) -> Result<(), StepError>
    requires { waiting.old ≡ [] }
    ensures { Answered R.gives session.old.view (DetachCalls detach expects_echo) (refusal_of result) waiting.new session.new.view }
{
    waiting.put_first(session.on_outgoing_detach(detach, expects_echo)?);
    Ok(())
}

pub(crate) fn send_flow<R: LinkRelay>(
    session: &mut Session<R>,
    waiting: &mut OutputQueue,
    flow: LinkFlow,
)
    ensures { Answered R.gives session.old.view (FlowCalls flow) None waiting.new session.new.view }
{
    waiting.put_frame(session.on_outgoing_flow(flow));
}

pub(crate) fn send_disposition<R: LinkRelay>(
    session: &mut Session<R>,
    waiting: &mut OutputQueue,
    disposition: Disposition,
)
    ensures { Answered R.gives session.old.view (DispositionCalls disposition) None waiting.new session.new.view }
{
    waiting.put_frame(session.on_outgoing_disposition(disposition));
}

/// What this side settles by itself. No frame goes out, whatever was let go.
pub(crate) fn settle<R: LinkRelay>(
    session: &mut Session<R>,
    role: Role,
    first: DeliveryNumber,
    last: Option<DeliveryNumber>,
)
    ensures { Answered R.gives session.old.view (SettleCalls role first last) None [] session.new.view }
{
    session.settle(role, first, last);
}

pub(crate) fn stop<R: LinkRelay>(session: &mut Session<R>, reason: SessionStopReason)
    ensures { Answered R.gives session.old.view (StopCalls reason) None [] session.new.view }
{
    session.set_session_stop_reason(reason);
}

pub(crate) fn begin_received<R: LinkRelay>(
    session: &mut Session<R>,
    channel: IncomingChannel,
    begin: Begin,
) -> Result<(), StepError>
    ensures { Answered R.gives session.old.view (ReceivedBeginCalls channel.0 begin) (refusal_of result) [] session.new.view }
{
    session.on_incoming_begin(channel, begin)?;
    Ok(())
}

/// Records why the peer ended the session, where its End came before one of this side.
fn record_end<R: LinkRelay>(session: &mut Session<R>, ends: bool, reason: SessionStopReason)
    ensures { RecordedEnd session.old.view reason ends session.new.view }
{
    if ends {
        session.set_session_stop_reason(reason);
    }
}

/// The peer's End. Records the reason unless this side sent End first.
pub(crate) fn end_received<R: LinkRelay>(
    session: &mut Session<R>,
    channel: IncomingChannel,
    end: End,
) -> Result<(), StepError>
    ensures { Answered R.gives session.old.view (ReceivedEndCalls channel.0 end) (refusal_of result) [] session.new.view }
{
    let reason = remote_end_reason(&end);
    let before = *session.local_state();
    let answer = session.on_incoming_end(channel, end);
    let ends = comes_to_end(before, *session.local_state());
    record_end(session, ends, reason);
    answer?;
    Ok(())
}

/// The peer's attach. `None` where memory is refused for its place: nothing changes, and it is to be refused `Session(OutOfMemory)`.
pub(crate) fn attach_received<R: LinkRelay>(
    session: &mut Session<R>,
    attach: Attach,
) -> Option<Result<(), StepError>>
    ensures answered { Answered R.gives session.old.view (ReceivedAttachCalls attach) (refusal_or (no.Session Refused.OutOfMemory) result) [] session.new.view }
    ensures none { IfNone result ((session.new ≡ session.old) × SomeRefused) }
    ensures memory { IfSome result (λ a. OfRelay R.gives (body.Attach attach) (refusal_of a)) }
{
    match session.on_incoming_attach_if_room(attach) {
        None => None,
        Some(Ok(())) => Some(Ok(())),
        Some(Err(error)) => Some(Err(StepError::from(error))),
    }
}

/// The peer's detach. The detach by which the link's relay answers goes out, and no answer to it is awaited.
pub(crate) fn detach_received<R: LinkRelay>(
    session: &mut Session<R>,
    waiting: &mut OutputQueue,
    detach: Detach,
) -> Result<(), StepError>
    requires { waiting.old ≡ [] }
    ensures { Answered R.gives session.old.view (ReceivedDetachCalls detach) (refusal_of result) waiting.new session.new.view }
{
    match session.on_incoming_detach(detach)? {
        None => Ok(()),
        Some(answer) => {
            waiting.put_first(session.on_outgoing_detach(answer, false)?);
            Ok(())
        }
    }
}

pub(crate) fn flow_received<R: LinkRelay>(
    session: &mut Session<R>,
    waiting: &mut OutputQueue,
    flow: Flow,
    outcome: &mut Result<(), StepError>,
)
    requires idle { waiting.old ≡ [] }
    requires clear { refusal_of outcome.old ≡ None }
    ensures { Answered R.gives session.old.view (ReceivedFlowCalls flow) (refusal_of outcome.new) waiting.new session.new.view }
{
    match session.on_incoming_flow(flow) {
        Ok(item) => waiting.put_item(item),
        Err(error) => refused::by_session(outcome, error),
    }
}

/// The same, and it was taken; or memory was refused for what it lets out, and nothing changes.
pub(crate) fn flow_received_if_room<R: LinkRelay>(
    session: &mut Session<R>,
    waiting: &mut OutputQueue,
    flow: Flow,
    outcome: &mut Result<(), StepError>,
) -> bool
    requires idle { waiting.old ≡ [] }
    requires clear { refusal_of outcome.old ≡ None }
    ensures done { result ≡ true → Answered R.gives session.old.view (ReceivedFlowCalls flow) (refusal_of outcome.new) waiting.new session.new.view }
    ensures not_done { result ≡ false → (session.new ≡ session.old) × (waiting.new ≡ waiting.old) × SomeRefused }
    ensures memory { result ≡ true → OfRelay R.gives (body.Flow flow) (refusal_of outcome.new) }
{
    match session.on_incoming_flow_if_room(flow) {
        None => return false,
        Some(Ok(item)) => waiting.put_item(item),
        Some(Err(error)) => refused::by_session(outcome, error),
    }
    true
}

/// Sends each disposition, in order, on the session's channel. They wait as dispositions, and become frames as they are put out: that takes
/// no memory.
#[inline(never)]
fn send_each<R: LinkRelay>(
    session: &mut Session<R>,
    dispositions: Vec<Disposition>,
) -> VecDeque<Disposition>
    ensures same { result.items ≡ dispositions.items }
    ensures sent { SendsAll R.gives session.old.view dispositions.items session.new.view }
{
    let mut waiting = VecDeque::from(dispositions);
    for _turn in 0..waiting.len() {
        let disposition = waiting.pop_front().unwrap();
        let frame = session.on_outgoing_disposition(disposition);
        waiting.push_back_reserved(disposition_in(frame));
    }
    waiting
}

/// The disposition of a session's frame.
fn disposition_in(frame: SessionFrame) -> Disposition
    requires { (d : DispositionModel) × (frame.body ≡ said.Disposition d) }
    ensures { frame.body ≡ said.Disposition result }
{
    match frame.body {
        SessionFrameBody::Disposition(disposition) => disposition,
        _ => unreachable!(),
    }
}

/// The peer's disposition. What the relays answer goes out, one disposition for each run of deliveries. `false` where memory is refused before
/// any relay is asked: nothing changes, and it is refused `Session(OutOfMemory)`.
#[inline(always)]
pub(crate) fn disposition_received<R: LinkRelay>(
    session: &mut Session<R>,
    waiting: &mut OutputQueue,
    disposition: Disposition,
    outcome: &mut Result<(), StepError>,
) -> bool
    requires idle { waiting.old ≡ [] }
    requires clear { refusal_of outcome.old ≡ None }
    ensures answered { Answered R.gives session.old.view (ReceivedDispositionCalls disposition) (refusal_of outcome.new) waiting.new session.new.view }
    ensures not_done { result ≡ false → (session.new ≡ session.old) × (waiting.new ≡ waiting.old) × (disposition.settled ≡ false) × SomeRefused }
    ensures memory { result ≡ true → OfRelay R.gives (body.Disposition disposition) (refusal_of outcome.new) }
{
    match session.on_incoming_disposition_if_room(disposition) {
        None => {
            refused::by_session(outcome, SessionInnerError::OutOfMemory);
            return false;
        }
        Some(Ok(None)) => {},
        Some(Ok(Some(echoes))) => {
            let channel = session.outgoing_channel();
            waiting.put_dispositions(channel, send_each(session, echoes));
        }
        Some(Err(error)) => refused::by_session(outcome, error),
    }
    true
}
