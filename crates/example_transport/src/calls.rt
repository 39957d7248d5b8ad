//! What a user calls over `fe2o3_amqp` and `bytes` alone, as the README says. It prints handles and channels as numbers, what the peer is
//! told of each refusal, and the End with which a refused frame is answered.

mod answering;
mod conditions;
mod conversions;
mod refusals;

use answering::answering;
use conditions::conditions;
use conversions::conversions;
use refusals::{refusals, states};
use std::io;

/// Prints what the calls answer.
pub fn calls(rt: &HostRuntime) -> io::Result<()> {
    conversions(rt)?;
    refusals(rt)?;
    states(rt)?;
    conditions(rt)?;
    answering(rt)
}
