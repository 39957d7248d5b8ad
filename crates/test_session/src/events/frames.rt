//! What the tests' peer sends.

use amqp_session::LinkFlow;
use amqp_types::{Attach, Disposition, Flow, Handle, ReceiverSettleMode, Role, Transfer};
use std::alloc::{AllocError, Global};
use test_support::{attach_of, disposition_of, link_flow_of, transfer_of};

/// The attach of a sender that begins at the delivery-count 0, with the receiver's second mode.
pub fn attach(alloc: Global, name: &str, handle: u32) -> Result<Attach, AllocError> {
    let mut attach = attach_of(String::from_str(alloc, name)?, handle, Role::Sender);
    attach.rcv_settle_mode = ReceiverSettleMode::Second;
    attach.initial_delivery_count = Some(0);
    Ok(attach)
}

/// A flow for a link, with an echo asked for.
pub fn link_flow(handle: u32, credit: u32) -> LinkFlow {
    let mut flow = link_flow_of(handle, credit, true);
    flow.delivery_count = Some(2);
    flow.available = Some(7);
    flow.drain = true;
    flow
}

/// The frame of such a flow.
pub fn flow(handle: u32, credit: u32) -> Flow {
    Flow {
        handle: Some(Handle(handle)),
        delivery_count: Some(2),
        link_credit: Some(credit),
        available: Some(7),
        drain: true,
        echo: true,
        ..Flow::new(Some(0), 100, 0, 100)
    }
}

/// An unsettled transfer of this number, with the tag `t`.
pub fn transfer(handle: u32, number: u32) -> Transfer {
    let mut transfer = transfer_of(handle, Some(b"t"));
    transfer.delivery_id = Some(number);
    transfer.message_format = Some(0);
    transfer
}

/// A sender's settled disposition of one delivery.
pub fn settled(number: u32) -> Disposition {
    disposition_of(Role::Sender, number, None, true, None)
}
