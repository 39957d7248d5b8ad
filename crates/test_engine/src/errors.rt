//! Conversions of errors of the connection.

use crate::given::error;
use crate::same::holds;
use bytes::Bytes;
use fe2o3_amqp::connection::Error;
use fe2o3_amqp::{
    AllocSessionError, BeginError, ConnectionInnerError, ConnectionStateError,
    ConnectionStopReason, NegotiationError, OpenError, TryCloseError,
};
use std::alloc::Global;
use std::fmt::Display;
use std::test::Fail;
use test_support::are_same;

#[test]
fn states_are_told_as_inner_errors(rt: HostRuntime) {
    let told = ConnectionInnerError::from(ConnectionStateError::IllegalState);
    holds(&rt, are_same(told, ConnectionInnerError::IllegalState));
    let told = ConnectionInnerError::from(ConnectionStateError::RemoteClosed);
    holds(&rt, are_same(told, ConnectionInnerError::RemoteClosed));
}

#[test]
fn states_are_told_as_errors(rt: HostRuntime) {
    let told = Error::from(ConnectionStateError::RemoteClosed);
    holds(&rt, are_same(told, Error::RemoteClosed));
    let told = Error::from(ConnectionStateError::OutOfMemory);
    holds(&rt, are_same(told, Error::OutOfMemory));
}

#[test]
fn an_error_of_the_peers_is_kept(rt: HostRuntime) -> Result<(), Fail> {
    let closed = ConnectionStateError::RemoteClosedWithError(error(rt.alloc(), "a:b")?);
    let told = Error::from(closed);
    let is_right =
        matches!(&told, Error::RemoteClosedWithError(e) if e.condition.as_str() == "a:b");
    drop(told);
    holds(&rt, is_right);
    Ok(())
}

#[test]
fn inner_errors_are_told_as_errors(rt: HostRuntime) {
    let told = Error::from(ConnectionInnerError::NotFound(None));
    holds(&rt, are_same(told, Error::NotFound(None)));
    let told = Error::from(ConnectionInnerError::NotImplemented(None));
    holds(&rt, are_same(told, Error::NotImplemented(None)));
}

#[test]
fn negotiation_errors_are_told_as_those_of_an_open(rt: HostRuntime) {
    let header = Bytes::from_static(b"HTTP");
    let told = OpenError::from(NegotiationError::ProtocolHeaderMismatch(header));
    let want = OpenError::ProtocolHeaderMismatch(Bytes::from_static(b"HTTP"));
    holds(&rt, are_same(told, want));
    let told = OpenError::from(NegotiationError::SaslError {
        code: 1,
        additional_data: None,
    });
    let want = OpenError::SaslError {
        code: 1,
        additional_data: None,
    };
    holds(&rt, are_same(told, want));
}

#[test]
fn states_are_told_as_those_of_an_open(rt: HostRuntime) {
    let told = OpenError::from(ConnectionStateError::IllegalState);
    holds(&rt, are_same(told, OpenError::IllegalState));
    let told = OpenError::from(ConnectionStateError::RemoteClosed);
    holds(&rt, are_same(told, OpenError::RemoteClosed));
}

#[test]
fn refused_channels_are_told_as_those_of_a_begin(rt: HostRuntime) {
    let told = BeginError::from(AllocSessionError::ChannelMaxReached);
    holds(&rt, are_same(told, BeginError::LocalChannelMaxReached));
    let stopped = AllocSessionError::ConnectionStopped(ConnectionStopReason::Closed);
    let told = BeginError::from(stopped);
    let want = BeginError::ConnectionStopped(ConnectionStopReason::Closed);
    holds(&rt, are_same(told, want));
}

/// Whether an error is displayed as this text.
fn is_displayed<E: Display>(alloc: Global, error: &E, want: &str) -> bool {
    match format!(in alloc; "{error}") {
        Ok(text) => text.as_str() == want,
        Err(_) => false,
    }
}

#[test]
fn errors_are_displayed(rt: HostRuntime) {
    let closed = TryCloseError::AlreadyClosed;
    holds(
        &rt,
        is_displayed(rt.alloc(), &closed, "Illegal local state"),
    );
    let refused = AllocSessionError::ChannelMaxReached;
    let text = "Reached connection channel max";
    holds(&rt, is_displayed(rt.alloc(), &refused, text));
}
