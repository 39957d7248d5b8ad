//! Each conversion of numbers, flows, reasons and errors.

use crate::same::{holds, same};
use amqp_session::{
    BeginError, ConnectionStopReason, Error, IncomingChannel, InputHandle, LinkFlow,
    LinkRelayError, OutgoingChannel, OutputHandle, SessionFrame, SessionFrameBody,
    SessionInnerError, SessionStateError, SessionStopReason,
};
use amqp_types::{Flow, Handle};
use bytes::Bytes;
use std::alloc::{AllocError, Global};
use std::fmt::Display;
use std::test::Fail;
use test_support::{are_same, transfer_of};

#[test]
fn numbers_keep_their_value(rt: HostRuntime) {
    same(&rt, u16::from(OutgoingChannel(3)), 3);
    same(&rt, u16::from(IncomingChannel(4)), 4);
    holds(&rt, OutputHandle::from(Handle(5)) == OutputHandle(5));
    holds(&rt, Handle::from(OutputHandle(6)) == Handle(6));
    holds(&rt, InputHandle::from(Handle(7)) == InputHandle(7));
    holds(&rt, Handle::from(InputHandle(8)) == Handle(8));
    holds(&rt, InputHandle(1) < InputHandle(2));
}

/// A flow with a credit of 9, for the link of a handle or for none.
fn flow(handle: Option<Handle>) -> Flow {
    Flow {
        handle,
        link_credit: Some(9),
        ..Flow::new(None, 1, 0, 8)
    }
}

/// Handle and credit of the flow as one of a link, if it is one.
fn as_link_flow(flow: Flow) -> Option<(Handle, Option<u32>)> {
    match LinkFlow::try_from(flow) {
        Ok(flow) => Some((flow.handle, flow.link_credit)),
        Err(()) => None,
    }
}

#[test]
fn a_link_flow_needs_a_handle(rt: HostRuntime) {
    holds(&rt, as_link_flow(flow(None)).is_none());
    holds(
        &rt,
        as_link_flow(flow(Some(Handle(2)))) == Some((Handle(2), Some(9))),
    );
}

#[test]
fn refusals_and_reasons_go_on_under_their_names(rt: HostRuntime) {
    let told = SessionInnerError::from(SessionStateError::RemoteEnded);
    holds(&rt, are_same(told, SessionInnerError::RemoteEnded));
    let told = SessionInnerError::from(LinkRelayError::TransferFrameToSender);
    let want = SessionInnerError::TransferFrameToSender;
    holds(&rt, are_same(told, want));
    let told = Error::from(LinkRelayError::UnattachedHandle);
    holds(&rt, are_same(told, Error::UnattachedHandle));
    let told = Error::from(SessionInnerError::HandleInUse);
    holds(&rt, are_same(told, Error::HandleInUse));
    let told = Error::from(SessionStateError::OutOfMemory);
    holds(&rt, are_same(told, Error::OutOfMemory));
    let told = BeginError::from(SessionStateError::IllegalState);
    holds(&rt, are_same(told, BeginError::IllegalState));
    let stopped = SessionStopReason::from(ConnectionStopReason::Closed);
    let want = SessionStopReason::ConnectionStopped(ConnectionStopReason::Closed);
    holds(&rt, stopped == want);
}

fn shown<T: Display + Drop>(alloc: Global, error: T) -> Result<String, AllocError> {
    format!(in alloc; "{error}")
}

#[test]
fn errors_are_printed(rt: HostRuntime) -> Result<(), Fail> {
    let text = shown(rt.alloc(), SessionStateError::IllegalState)?;
    same(&rt, text.as_str(), "Illegal session state");
    drop(text);
    let stopped = SessionInnerError::ConnectionStopped(ConnectionStopReason::Closed);
    let text = shown(rt.alloc(), stopped)?;
    same(&rt, text.as_str(), "The connection stopped: Closed");
    drop(text);
    Ok(())
}

fn carrier() -> SessionFrame {
    let performative = transfer_of(0, None);
    let payload = Bytes::from_static(b"12345");
    SessionFrame::new(
        1,
        SessionFrameBody::Transfer {
            performative,
            payload,
        },
    )
}

fn printed(alloc: Global, frame: &SessionFrame) -> Result<String, AllocError> {
    format!(in alloc; "{frame:?}")
}

#[test]
fn frames_are_printed(rt: HostRuntime) -> Result<(), Fail> {
    let frame = carrier();
    let text = printed(rt.alloc(), &frame);
    drop(frame);
    let text = text?;
    holds(&rt, text.as_str().ends_with("payload.len: 5 } }"));
    Ok(())
}
