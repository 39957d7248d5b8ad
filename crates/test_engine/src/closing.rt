//! A close from the first wish to its outcome, as the README shows it.

use crate::asking::engine_in;
use crate::example::closing;
use crate::given::peer_close;
use crate::same::holds;
use bytes::Bytes;
use fe2o3_amqp::connection::Error;
use fe2o3_amqp::{ConnectionHandle, ConnectionState, HandledEngine, ReplayRelay};
use std::alloc::Global;
use std::io;

fn handled(alloc: Global) -> HandledEngine<ReplayRelay> {
    HandledEngine::new(engine_in(alloc, ConnectionState::Opened))
}

fn wishes(engine: &mut HandledEngine<ReplayRelay>, handle: &mut ConnectionHandle) -> bool {
    handle.close(engine).is_ok()
}

fn name(told: &io::Result<Option<Result<(), Error>>>) -> &'static str {
    match told {
        Ok(None) => "nothing",
        Ok(Some(Ok(()))) => "closed",
        _ => "another",
    }
}

/// What `closing` tells, and how many bytes went out by then.
fn turn(
    alloc: Global,
    engine: &mut HandledEngine<ReplayRelay>,
    handle: &mut ConnectionHandle,
    frame: Option<Bytes>,
    sent: &mut Vec<u8>,
) -> (&'static str, usize) {
    let told = closing(alloc, engine, handle, frame, sent);
    let name = name(&told);
    drop(told);
    (name, sent.len())
}

#[test]
fn a_close_is_told_once_the_peer_answered(rt: HostRuntime) {
    let alloc = rt.alloc();
    let mut sent = Vec::new(alloc);
    let mut engine = handled(alloc);
    let mut handle = engine.connection_handle();
    let is_wished = wishes(&mut engine, &mut handle);
    let first = turn(alloc, &mut engine, &mut handle, None, &mut sent);
    let close = Some(peer_close());
    let second = turn(alloc, &mut engine, &mut handle, close, &mut sent);
    drop(engine);
    drop(handle);
    drop(sent);
    holds(&rt, is_wished);
    holds(&rt, [first, second] == [("nothing", 8), ("closed", 8)]);
}
