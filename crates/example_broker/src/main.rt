//! A broker with one queue in memory, over framed bytes: standard input is what one client sends, standard output what it is sent.
//!
//! Both begin with the protocol header of AMQP 1.0. Whatever address a link names, its messages go to the one queue or come from it. The
//! queue lives as long as the connection. `tools/try_server.py` puts a socket in front of it.
#![tactic(auto)]

mod attaching;
mod broker;
mod faults;
mod giving;
mod message;
mod queue;
mod senders;
mod taking;

use broker::Broker;
use fe2o3_amqp::KeyHash;
use std::hash::RandomState;
use std::io::{self, BufWriter};

fn main(rt: HostRuntime) -> anyhow::Result<()> {
    let alloc = rt.alloc();
    let mut output = BufWriter::new(alloc, io::writer(&rt))?;
    let mut input = rt.reader();
    // The client cannot know this key, and so cannot choose names, handles and channels that collide.
    let hash = KeyHash::Keyed(RandomState::new(&rt)?);
    let mut broker = Broker::new(alloc, hash)?;
    let outcome = broker.serve(&mut input, &mut output);
    drop(broker);
    Ok(outcome?)
}
