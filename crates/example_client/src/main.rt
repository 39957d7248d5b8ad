//! A client to copy: it sends messages to an address, waits until the server has settled each, and closes.
//!
//! Its words are the address and the messages. Standard input is what the server sends, and standard output what it is sent, so that a socket can
//! be put there: `socat TCP:HOST:5672 EXEC:"out/example_client ADDRESS hello world"`. What came is said on standard error.
#![tactic(auto)]

mod client;
mod message;

use anyhow::bail;
use client::Client;
use fe2o3_amqp::KeyHash;
use std::env;
use std::hash::RandomState;
use std::io::{self, BufWriter};

fn main(rt: HostRuntime) -> anyhow::Result<()> {
    let alloc = rt.alloc();
    let mut words = env::args(&rt)?;
    drop(words.next());
    let Some(address) = words.next() else {
        bail!("no address");
    };
    let mut messages = Vec::new(alloc);
    for word in words {
        messages.push(word)?;
    }
    // The server cannot know this key, and so cannot choose handles and channels that collide.
    let hash = KeyHash::Keyed(RandomState::new(&rt)?);
    let mut client = Client::new(alloc, hash, address, messages)?;
    let mut output = BufWriter::new(alloc, io::writer(&rt))?;
    client.run(&rt, &mut rt.reader(), &mut output)
}
