//! The part of a Flow that speaks of one link (AMQP 1.0 part 2, section 2.7.4).

ghost use Rattle.std.specs.Prelude.{◌≡◌, IfOk, OnErr};
ghost use Rattle.std.specs.Result.{result_ok};
ghost use Rattle.amqp_memory.specs.Refusal.{SomeRefused};
ghost use Rattle.amqp_session.specs.LinkFlow.{link_flow_of, link_part, plain_link_flow};

use crate::copies;
use amqp_types::{Fields, Flow, Handle};
use std::alloc::AllocError;

/// The fields of a Flow that a link sends or gets. The session fills in its own fields.
///
/// ```
/// let mut flow = LinkFlow::new(handle.handle()); // `handle`: the link's output handle
/// flow.link_credit = Some(10);
/// let input = Input::Flow(SessionNo(0), flow);
/// ```
#[derive(Debug, Drop, PartialEq)]
pub struct LinkFlow {
    /// The link: in a flow that this side sends its output handle, in a flow of the peer's its input handle.
    pub handle: Handle,
    /// The delivery count of the link, modulo 2^32 (section 2.6.7).
    pub delivery_count: Option<u32>,
    /// How many messages the receiver of the link takes from the delivery count on (section 2.6.7).
    pub link_credit: Option<u32>,
    /// How many messages wait at the sender (section 2.6.7).
    pub available: Option<u32>,
    /// Whether the sender is to use up the credit at once (section 2.6.7).
    pub drain: bool,
    /// Whether the peer is to answer with a flow.
    pub echo: bool,
    /// Properties of the flow.
    pub properties: Option<Fields>,
}

impl Clone for LinkFlow {
    ghost is_clone = { λ p q. q ≡ p };

    fn clone(&self) -> Result<LinkFlow, AllocError>
        ensures value { IfOk result (λ q. q ≡ self.now) }
        ensures refused { OnErr result SomeRefused }
    {
        Ok(LinkFlow {
            handle: self.handle,
            delivery_count: self.delivery_count,
            link_credit: self.link_credit,
            available: self.available,
            drain: self.drain,
            echo: self.echo,
            properties: copies::fields(&self.properties)?,
        })
    }
}

impl LinkFlow {
    /// The flow of a link that says nothing of it but its handle: no credit, no count, nothing drained, no answer wanted.
    pub fn new(handle: Handle) -> LinkFlow
        ensures { result ≡ plain_link_flow handle.0 }
    {
        LinkFlow {
            handle,
            delivery_count: None,
            link_credit: None,
            available: None,
            drain: false,
            echo: false,
            properties: None,
        }
    }

    /// The link's part of a flow that names this handle.
    pub(crate) fn of(handle: Handle, flow: Flow) -> LinkFlow
        ensures { result ≡ link_flow_of handle.0 flow }
    {
        LinkFlow {
            handle,
            delivery_count: flow.delivery_count,
            link_credit: flow.link_credit,
            available: flow.available,
            drain: flow.drain,
            echo: flow.echo,
            properties: flow.properties,
        }
    }
}

impl TryFrom<Flow> for LinkFlow {
    type Error = ();

    ghost try_from_gives = { λ flow r. result_ok r ≡ link_part flow };

    /// The link's part of a flow. Fails exactly where the flow names no handle.
    fn try_from(flow: Flow) -> Result<LinkFlow, ()> {
        let Some(handle) = flow.handle else {
            return Err(());
        };
        Ok(LinkFlow::of(handle, flow))
    }
}
