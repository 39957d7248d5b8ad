//! The calls of a pair, for one of its sessions: the frames on the way to it, and those on the way to the other.

ghost use Rattle.std.specs.Prelude.{◌≡◌, ◌≤◌, ◌<◌, ◌+◌, ◌++◌, [], ◌∷◌, length, true};
ghost use Rattle.std.specs.VecDeque.{deque_len, deque_capacity};
ghost use Rattle.amqp_session.specs.Items.{item_frames};
ghost use Rattle.amqp_session.specs.Session.{flow_frame};
ghost use Rattle.amqp_session.specs.Linking.{attach_frame};
ghost use Rattle.amqp_session.specs.History.{SendsAttach, SendsFlow};
ghost use Rattle.amqp_session.specs.Pair.{BeginAt, FrameAt, TransferAt, ArriveAt, TakesBody, FlowIsTaken, TransferIsTaken, AttachIsTaken, BeginIsTaken, IsOfPair, AreOfPair};

use crate::error::SessionInnerError;
use crate::flow::LinkFlow;
use crate::frame::{SessionFrame, SessionFrameBody, SessionOutgoingItem};
use crate::numbers::IncomingChannel;
use crate::relay::LinkRelay;
use crate::session::Session;
use crate::session::held::RequestedTransfer;
use amqp_memory::more_in_queue;
use amqp_types::{Attach, Begin, Flow, Transfer};
use bytes::Bytes;
use std::collections::VecDeque;

/// Appends what a session hands out to the frames on the way.
fn put(going: &mut VecDeque<SessionFrame>, item: Option<SessionOutgoingItem>)
    requires { deque_len going.old + length (item_frames item) ≤ deque_capacity going.old }
    ensures { going.new.items ≡ going.old.items ++ item_frames item }
{
    match item {
        None => {}
        Some(SessionOutgoingItem::SingleFrame(frame)) => going.push_back_reserved(frame),
        Some(SessionOutgoingItem::MultipleFrames(frames)) => {
            going.append(&mut VecDeque::from_vec(frames)).unwrap();
        }
    }
}

/// The session sends its Begin.
pub(super) fn begin_at<R: LinkRelay>(
    me: &mut Session<R>,
    going: &mut VecDeque<SessionFrame>,
) -> Result<(), SessionInnerError>
    ensures { BeginAt R.gives me.old.view going.old.items result me.new.view going.new.items }
{
    if !me.can_begin() {
        return Err(SessionInnerError::IllegalState);
    }
    let Ok(()) = more_in_queue(going, 1) else {
        return Err(SessionInnerError::OutOfMemory);
    };
    match me.send_begin() {
        Ok(frame) => {
            going.push_back_reserved(frame);
            Ok(())
        }
        Err(error) => Err(SessionInnerError::from(error)),
    }
}

/// The session sends an attach.
pub(super) fn attach_at<R: LinkRelay>(
    me: &Session<R>,
    attach: Attach,
    going: &mut VecDeque<SessionFrame>,
) -> Result<(), SessionInnerError>
    ensures { FrameAt R.gives (SendsAttach attach (attach_frame me.now.view attach)) me.now.view going.old.items result
        me.now.view going.new.items }
{
    if !me.can_send() {
        drop(attach);
        return Err(SessionInnerError::IllegalState);
    }
    let Ok(()) = more_in_queue(going, 1) else {
        drop(attach);
        return Err(SessionInnerError::OutOfMemory);
    };
    going.push_back_reserved(me.on_outgoing_attach(attach));
    Ok(())
}

/// The session sends a link's flow.
pub(super) fn flow_at<R: LinkRelay>(
    me: &Session<R>,
    flow: LinkFlow,
    going: &mut VecDeque<SessionFrame>,
) -> Result<(), SessionInnerError>
    ensures { FrameAt R.gives (SendsFlow flow (flow_frame me.now.view flow)) me.now.view going.old.items result
        me.now.view going.new.items }
{
    if !me.can_send() {
        return Err(SessionInnerError::IllegalState);
    }
    let Ok(()) = more_in_queue(going, 1) else {
        return Err(SessionInnerError::OutOfMemory);
    };
    going.push_back_reserved(me.on_outgoing_flow(flow));
    Ok(())
}

/// The session takes a transfer to be sent.
pub(super) fn transfer_at<R: LinkRelay>(
    me: &mut Session<R>,
    requested: RequestedTransfer,
    going: &mut VecDeque<SessionFrame>,
) -> Result<(), SessionInnerError>
    ensures { TransferAt R.gives requested me.old.view going.old.items result me.new.view going.new.items }
{
    if !me.can_send() {
        drop(requested);
        return Err(SessionInnerError::IllegalState);
    }
    if requested.is_untagged() {
        drop(requested);
        return Err(SessionInnerError::IllegalState);
    }
    let Ok(()) = me.make_room(going) else {
        drop(requested);
        return Err(SessionInnerError::OutOfMemory);
    };
    let RequestedTransfer {
        input_handle,
        transfer,
        payload,
        is_first,
    } = requested;
    match me.on_outgoing_transfer(input_handle, transfer, payload, is_first) {
        Ok(item) => {
            put(going, item);
            Ok(())
        }
        Err(error) => Err(error),
    }
}

/// A Begin comes.
fn take_begin<R: LinkRelay>(
    me: &mut Session<R>,
    channel: u16,
    begin: Begin,
    going: &VecDeque<SessionFrame>,
) -> Result<(), SessionInnerError>
    ensures { BeginIsTaken R.gives channel begin me.old.view going.now.items result me.new.view going.now.items }
{
    match me.on_incoming_begin(IncomingChannel(channel), begin) {
        Ok(()) => Ok(()),
        Err(error) => Err(SessionInnerError::from(error)),
    }
}

/// A flow comes.
fn take_flow<R: LinkRelay>(
    me: &mut Session<R>,
    flow: Flow,
    going: &mut VecDeque<SessionFrame>,
) -> Result<(), SessionInnerError>
    requires { deque_len going.old + (length me.old.view.sending.held + 1) ≤ deque_capacity going.old }
    ensures { FlowIsTaken R.gives flow me.old.view going.old.items result me.new.view going.new.items }
{
    match me.on_incoming_flow(flow) {
        Ok(item) => {
            put(going, item);
            Ok(())
        }
        Err(error) => Err(error),
    }
}

/// A transfer comes, and a session flow is asked for.
fn take_transfer<R: LinkRelay>(
    me: &mut Session<R>,
    transfer: Transfer,
    payload: Bytes,
    going: &mut VecDeque<SessionFrame>,
) -> Result<(), SessionInnerError>
    requires { deque_len going.old + 1 ≤ deque_capacity going.old }
    ensures { TransferIsTaken R.gives transfer payload me.old.view going.old.items result me.new.view going.new.items }
{
    match me.on_incoming_transfer(transfer, payload) {
        Ok(_reply) => {
            put(going, me.maybe_outgoing_session_flow());
            Ok(())
        }
        Err(error) => Err(error),
    }
}

/// A frame comes.
fn take<R: LinkRelay>(
    me: &mut Session<R>,
    frame: SessionFrame,
    going: &mut VecDeque<SessionFrame>,
) -> Result<(), SessionInnerError>
    requires room { deque_len going.old + (length me.old.view.sending.held + 1) ≤ deque_capacity going.old }
    requires known { IsOfPair frame.body }
    ensures { TakesBody R.gives frame.channel frame.body me.old.view going.old.items result me.new.view going.new.items }
{
    let SessionFrame { channel, body } = frame;
    match body {
        SessionFrameBody::Begin(begin) => take_begin(me, channel, begin, going),
        SessionFrameBody::Attach(attach) => me.on_incoming_attach(attach),
        SessionFrameBody::Flow(flow) => take_flow(me, flow, going),
        SessionFrameBody::Transfer {
            performative,
            payload,
        } => take_transfer(me, performative, payload, going),
        SessionFrameBody::Disposition(_) | SessionFrameBody::Detach(_) | SessionFrameBody::End(_) =>
            { unreachable!() }
    }
}

/// The first frame on the way comes to the session.
pub(super) fn arrive_at<R: LinkRelay>(
    me: &mut Session<R>,
    coming: &mut VecDeque<SessionFrame>,
    going: &mut VecDeque<SessionFrame>,
) -> Result<(), SessionInnerError>
    requires { AreOfPair coming.old.items }
    ensures { ArriveAt R.gives me.old.view coming.old.items going.old.items result me.new.view coming.new.items going.new.items }
{
    if coming.is_empty() {
        return Ok(());
    }
    let Ok(()) = me.make_room(going) else {
        return Err(SessionInnerError::OutOfMemory);
    };
    let frame = coming.pop_front().unwrap();
    take(me, frame, going)
}
