//! Single inputs of an engine, whose frames wait until they are taken.

use crate::asking::{answer, engine_in, puts_out};
use crate::given::ReplayEngine;
use crate::same::holds;
use fe2o3_amqp::{ConnectionState, Input};
use std::alloc::Global;

/// Whether this side's Open waits, is refused a second time while it does, and is taken once.
fn opens(alloc: Global, engine: &mut ReplayEngine) -> bool {
    let open = "out 02000000005310c00c04a1004070000400006000ff\n";
    puts_out(alloc, engine, "")
        && answer(engine, Input::Open) == "done"
        && answer(engine, Input::Open) == "OutputWaiting"
        && puts_out(alloc, engine, open)
        && puts_out(alloc, engine, "")
}

#[test]
fn an_open_waits_until_it_is_taken(rt: HostRuntime) {
    let mut engine = engine_in(rt.alloc(), ConnectionState::HeaderExchange);
    let is_right = opens(rt.alloc(), &mut engine);
    let is_sent = *engine.connection().local_state() == ConnectionState::OpenSent;
    drop(engine);
    holds(&rt, is_right);
    holds(&rt, is_sent);
}
