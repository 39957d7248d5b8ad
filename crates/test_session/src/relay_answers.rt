//! Both kinds of relay answer through the trait alone.

use crate::relays::{Asked, Choosing, Quiet};
use crate::same::{holds, same};
use amqp_session::{LinkRelay, LinkRelayError, OutputHandle};
use amqp_types::{DeliveryTag, Role};
use bytes::Bytes;
use test_support::{link_flow_of, transfer_of};

/// The credit of a relay's flow in answer to one, if any.
fn credit_of_answer<R: LinkRelay>(relay: &mut R) -> Option<u32> {
    match relay.on_incoming_flow(OutputHandle(1), link_flow_of(6, 20, true)) {
        Ok(Some(answer)) => answer.link_credit,
        _answer => None,
    }
}

/// Whether a relay takes a transfer, and names no delivery.
fn takes_transfer<R: LinkRelay>(relay: &mut R) -> Result<bool, LinkRelayError> {
    let named = relay.on_incoming_transfer(transfer_of(0, Some(b"t")), Bytes::from_static(b"m"))?;
    Ok(named.is_none())
}

/// Whether a relay wants an unsettled disposition echoed.
fn wants_echo<R: LinkRelay>(relay: &mut R) -> bool {
    let tag = DeliveryTag(Bytes::from_static(b"t"));
    relay.on_incoming_disposition(Role::Receiver, false, None, &tag)
}

#[test]
fn a_quiet_relay_takes_what_comes(rt: HostRuntime) {
    let asked = Asked::new();
    let mut quiet = Quiet { asked: &asked };
    holds(&rt, credit_of_answer(&mut quiet).is_none());
    holds(&rt, takes_transfer(&mut quiet) == Ok(true));
    holds(&rt, wants_echo(&mut quiet));
    same(&rt, asked.counts(), [0, 0, 3]);
}

#[test]
fn a_choosing_relay_answers_while_it_has_credit(rt: HostRuntime) {
    let mut choosing = Choosing { credit: 1 };
    holds(&rt, wants_echo(&mut choosing));
    holds(&rt, credit_of_answer(&mut choosing) == Some(20));
    holds(&rt, credit_of_answer(&mut choosing).is_none());
    holds(
        &rt,
        takes_transfer(&mut choosing) == Err(LinkRelayError::TransferFrameToSender),
    );
    holds(&rt, !wants_echo(&mut choosing));
}
