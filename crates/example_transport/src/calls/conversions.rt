//! Handles, channels and errors, each as the type that the next call takes.

use fe2o3_amqp::{
    AllocSessionError, ConnectionStopReason, Handle, IncomingChannel, InputHandle, OutgoingChannel,
    OutputHandle,
};
use std::io;

/// Prints what each conversion gives.
pub fn conversions(rt: &HostRuntime) -> io::Result<()> {
    handles(rt)?;
    println!(rt; "OutgoingChannel(11) is {}", OutgoingChannel(11).number())?;
    println!(rt;
        "IncomingChannel(65535) is {}",
        IncomingChannel(65535).number()
    )?;
    refused_channels(rt)
}

fn handles(rt: &HostRuntime) -> io::Result<()> {
    println!(rt; "OutputHandle(7) is {:?}", OutputHandle(7).handle())?;
    println!(rt;
        "InputHandle(4294967295) is {:?}",
        InputHandle(4294967295).handle()
    )?;
    println!(rt; "Handle(9) is {:?}", OutputHandle::from(Handle(9)))?;
    println!(rt; "Handle(10) is {:?}", InputHandle::from(Handle(10)))
}

/// Why a session gets no channel, as why it does not begin.
fn refused_channels(rt: &HostRuntime) -> io::Result<()> {
    refused_channel(rt, AllocSessionError::ConnectionNotOpened)?;
    let reason = ConnectionStopReason::RemoteClosed;
    refused_channel(rt, AllocSessionError::ConnectionStopped(reason))?;
    refused_channel(rt, AllocSessionError::ChannelMaxReached)?;
    refused_channel(rt, AllocSessionError::OutOfMemory)
}

fn refused_channel(rt: &HostRuntime, error: AllocSessionError) -> io::Result<()> {
    let told = error.begin_error();
    let printed = println!(rt; "{error:?} is {told:?}");
    drop(told);
    printed
}
