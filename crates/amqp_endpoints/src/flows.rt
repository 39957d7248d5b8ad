//! Flows and Detaches of this side's links.

ghost use Rattle.std.specs.Prelude.{◌≡◌, IfOk, OnErr};
ghost use Rattle.amqp_memory.specs.Refusal.{SomeRefused};
ghost use Rattle.amqp_endpoints.specs.Flowing.{detach_of, fault_error, flow_of};

use amqp_links::LinkFault;
use amqp_memory::text_of;
use amqp_session::LinkFlow;
use amqp_types::{Detach, Error, Handle};
use amqp_values::Symbol;
use std::alloc::{AllocError, Global};

/// The flow that says this of the link that has this handle.
pub(crate) fn flow_of(handle: u32, said: amqp_links::LinkFlow) -> LinkFlow
    ensures { result ≡ flow_of handle said }
{
    LinkFlow {
        handle: Handle(handle),
        delivery_count: Some(said.delivery_count),
        link_credit: Some(said.link_credit),
        available: said.available,
        drain: said.drain,
        echo: false,
        properties: None,
    }
}

/// The Detach of the link that has this handle.
pub(crate) fn detach_of(handle: u32, closed: bool, error: Option<Error>) -> Detach
    ensures { result ≡ detach_of handle closed error }
{
    Detach {
        handle: Handle(handle),
        closed,
        error,
    }
}

/// The error by which a link ends for a fault (AMQP 1.0 part 2, sections 2.8.15 and 2.8.18).
pub(crate) fn fault_error(alloc: Global, fault: LinkFault) -> Result<Error, AllocError>
    ensures value { IfOk result (λ e. e ≡ fault_error fault) }
    ensures refused { OnErr result SomeRefused }
{
    let text = text_of(alloc, fault.condition())?;
    Ok(Error {
        condition: Symbol::new(text).unwrap(),
        description: None,
        info: None,
    })
}
