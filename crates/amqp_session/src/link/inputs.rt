//! The relays that are attached, by input handle.

ghost use Rattle.std.specs.Prelude.{◌≡◌, ◌<◌, Some, None, IsSome, OnOk, OnErr, nat_eq, slice_get};
ghost use Rattle.std.specs.FinMap.{get};
ghost use Rattle.std.specs.Map.{lookup, set_value};
ghost use Rattle.indexmap.specs.IndexMap.{spare, hasher_of};
ghost use Rattle.amqp_memory.specs.Refusal.{SomeRefused};
ghost use Rattle.amqp_session.specs.Links.{inputs_of};
ghost use Rattle.amqp_session.specs.Relay.{of_flow, of_transfer, of_disposition, Asked};
ghost use Rattle.amqp_session.specs.Disposing.{question_of};
ghost use Rattle.amqp_session.specs.declared.link.AttachedLink.{AttachedLink};

use super::AttachedLink;
use crate::deliveries::Delivery;
use crate::error::LinkRelayError;
use crate::flow::LinkFlow;
use crate::keys::{self, Hints, Numbered};
use crate::numbers::InputHandle;
use crate::relay::LinkRelay;
use amqp_memory::more_in_map;
use amqp_types::{DeliveryNumber, DeliveryTag, Disposition, Transfer};
use bytes::Bytes;
use std::alloc::AllocError;

/// Makes a place for a handle under which nothing stands.
pub(super) fn make_place<R: Drop>(
    inputs: &mut Numbered<AttachedLink<R>>,
    hints: &Hints,
    input: InputHandle,
) -> Result<(), AllocError>
    ensures entries { inputs.new.entries ≡ inputs.old.entries }
    ensures hasher { hasher_of inputs.new ≡ hasher_of inputs.old }
    ensures room { OnOk result (get (inputs_of inputs.new.entries) input.0 ≡ None → 0 < spare inputs.new) }
    ensures free { OnErr result (get (inputs_of inputs.old.entries) input.0 ≡ None) }
    ensures refused { OnErr result SomeRefused }
{
    if keys::get(inputs, hints, input.0).is_some() {
        return Ok(());
    }
    more_in_map(inputs, 1)
}

/// Asks the relay under a handle about a flow.
pub(super) fn ask_flow<R: LinkRelay>(
    inputs: &mut Numbered<AttachedLink<R>>,
    hints: &Hints,
    input: InputHandle,
    flow: LinkFlow,
) -> Result<Option<LinkFlow>, LinkRelayError>
    requires { IsSome (lookup (nat_eq input.0) inputs.old.entries) }
    ensures asked { Asked (of_flow R.gives.flow_gives) (lookup (nat_eq input.0) inputs.old.entries) flow result
        (λ link. inputs.new.entries ≡ set_value (nat_eq input.0) inputs.old.entries link) }
    ensures hasher { hasher_of inputs.new ≡ hasher_of inputs.old }
{
    let at = keys::index_of(inputs, hints, input.0).unwrap();
    let link = inputs.get_index_mut(at).unwrap();
    link.relay.on_incoming_flow(link.handle, flow)
}

/// Asks the relay of a link about a disposition of a delivery.
#[inline(always)]
fn ask<R: LinkRelay>(
    link: &mut AttachedLink<R>,
    disposition: &Disposition,
    delivery: &Delivery,
) -> bool
    ensures asked { of_disposition R.gives.disposition_gives link.old.handle link.old.relay (question_of disposition.now delivery.now) result link.new.relay }
    ensures handle { link.new.handle ≡ link.old.handle }
{
    let (role, settled, state) = (
        disposition.role,
        disposition.settled,
        disposition.state.as_ref(),
    );
    link.relay
        .on_incoming_disposition(role, settled, state, &delivery.tag)
}

/// Asks the relay at the index of a delivery's input handle about a disposition of it.
#[inline(always)]
pub(super) fn ask_disposition<R: LinkRelay>(
    inputs: &mut Numbered<AttachedLink<R>>,
    at: usize,
    disposition: &Disposition,
    delivery: &Delivery,
) -> bool
    requires { (link : AttachedLink R) × (slice_get inputs.old.entries at ≡ Some (delivery.now.input_handle.0, link)) }
    ensures asked { Asked (of_disposition R.gives.disposition_gives) (lookup (nat_eq delivery.now.input_handle.0) inputs.old.entries)
        (question_of disposition.now delivery.now) result
        (λ link. inputs.new.entries ≡ set_value (nat_eq delivery.now.input_handle.0) inputs.old.entries link) }
    ensures hasher { hasher_of inputs.new ≡ hasher_of inputs.old }
{
    let link = inputs.get_index_mut(at).unwrap();
    ask(link, disposition, delivery)
}
