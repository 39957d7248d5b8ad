//! Performatives of one kind, read from hexadecimal digits. Each call ends the life of the performative that it was read as.

use amqp_session::LinkFlow;
use amqp_types::{Attach, Detach, Disposition, Flow, Performative, Transfer};
use bytes::Bytes;
use std::alloc::Global;
use test_support::digits;

/// The performative that the digits say, without what follows it.
fn alone(alloc: Global, digits: &str) -> anyhow::Result<Performative> {
    let (performative, rest) = digits::performative(alloc, digits)?;
    drop(rest);
    Ok(performative)
}

/// What was found, or an error that says what there is none of.
fn wanted<T: Drop>(found: Option<T>, kind: &str) -> anyhow::Result<T> {
    match found {
        Some(found) => Ok(found),
        None => Err(anyhow::anyhow!("no {kind}")),
    }
}

fn as_attach(performative: Performative) -> Option<Attach> {
    match performative {
        Performative::Attach(attach) => Some(attach),
        other => {
            drop(other);
            None
        }
    }
}

fn as_flow(performative: Performative) -> Option<Flow> {
    match performative {
        Performative::Flow(flow) => Some(flow),
        other => {
            drop(other);
            None
        }
    }
}

fn as_transfer(performative: Performative) -> Option<Transfer> {
    match performative {
        Performative::Transfer(transfer) => Some(transfer),
        other => {
            drop(other);
            None
        }
    }
}

fn as_disposition(performative: Performative) -> Option<Disposition> {
    match performative {
        Performative::Disposition(said) => Some(said),
        other => {
            drop(other);
            None
        }
    }
}

fn as_detach(performative: Performative) -> Option<Detach> {
    match performative {
        Performative::Detach(detach) => Some(detach),
        other => {
            drop(other);
            None
        }
    }
}

pub fn attach(alloc: Global, digits: &str) -> anyhow::Result<Attach> {
    let read = alone(alloc, digits)?;
    wanted(as_attach(read), "attach")
}

fn of_link(flow: Flow) -> anyhow::Result<LinkFlow> {
    match LinkFlow::try_from(flow) {
        Ok(flow) => Ok(flow),
        Err(()) => Err(anyhow::anyhow!("no flow of a link")),
    }
}

/// A flow that names a handle.
pub fn link_flow(alloc: Global, digits: &str) -> anyhow::Result<LinkFlow> {
    let read = alone(alloc, digits)?;
    of_link(wanted(as_flow(read), "flow")?)
}

/// A transfer and its payload.
pub fn transfer(alloc: Global, digits: &str) -> anyhow::Result<(Transfer, Bytes)> {
    let (read, payload) = digits::performative(alloc, digits)?;
    match as_transfer(read) {
        Some(transfer) => Ok((transfer, payload)),
        None => {
            drop(payload);
            Err(anyhow::anyhow!("no transfer"))
        }
    }
}

pub fn disposition(alloc: Global, digits: &str) -> anyhow::Result<Disposition> {
    let read = alone(alloc, digits)?;
    wanted(as_disposition(read), "disposition")
}

pub fn detach(alloc: Global, digits: &str) -> anyhow::Result<Detach> {
    let read = alone(alloc, digits)?;
    wanted(as_detach(read), "detach")
}
