//! The links of a session: names, handles and relays.

ghost use Rattle.std.specs.Prelude.{◌≡◌, ◌<◌, ℕ, Option, IsSome, is_some, IfOk, IfErr, OnOk, length};
ghost use Rattle.amqp_session.specs.Links.{no_links, attached_at, put_at};
ghost use Rattle.amqp_session.specs.Relay.{of_flow, of_transfer, Asked, IsUnasked, DispositionQuestion};
ghost use Rattle.amqp_session.specs.Disposing.{AsksAt, has_agreed};

pub mod handles;
mod inputs;
pub(crate) mod leaving;
mod live;
mod names;

use self::handles::HandleSlot;
use crate::deliveries::{Deliveries, Delivery};
use crate::error::{LinkRelayError, SessionInnerError};
use crate::flow::LinkFlow;
use crate::keys::{self, Hints, KeyHash, Numbered};
use crate::numbers::{InputHandle, OutputHandle};
use crate::relay::LinkRelay;
use amqp_types::{DeliveryNumber, DeliveryTag, Disposition, Transfer};
use bytes::Bytes;
use indexmap::IndexMap;
use slab::Slab;
use std::alloc::Global;
use std::marker::Model;

/// A link that is attached: its relay, and the output handle that the session keeps beside it.
#[derive(Drop)]
pub struct AttachedLink<R> {
    /// The output handle.
    pub handle: OutputHandle,
    /// The relay.
    pub relay: R,
}

/// A live link: its output handle, the relay that waits for the peer's attach, if any, and the input handle of the peer's last attach.
#[derive(Drop)]
pub struct LiveLink<R> {
    /// The output handle.
    pub handle: OutputHandle,
    /// The relay that waits.
    pub waiting: Option<R>,
    /// The input handle that the peer's last attach gave, which need not be the link's any more.
    pub input: Option<InputHandle>,
}

/// The live links by name, the output handles that are taken, and the relays by input handle.
#[derive(Drop)]
pub(crate) struct Links<R> {
    names: IndexMap<String, LiveLink<R>, KeyHash>,
    handles: Slab<HandleSlot>,
    inputs: Numbered<AttachedLink<R>>,
    hints: Hints,
}

impl<R> Model for Links<R> {
    ghost use Rattle.std.specs.Prelude.{◌≡◌};
    ghost use Rattle.indexmap.specs.IndexMap.{hasher_of};
    ghost use Rattle.amqp_session.specs.Links.{LinksView, names_of, handles_of, inputs_of, links_code};

    ghost Value = { LinksView R };

    ghost coded = { links_code R.code };

    ghost view = { λ l. record {
      hash = hasher_of l.names;
      names = names_of l.names.entries;
      handles = handles_of l.handles;
      inputs = inputs_of l.inputs.entries;
      next = l.handles.vacant_key;
    } };

    ghost invariant = { λ l. hasher_of l.inputs ≡ hasher_of l.names };
}

impl<R: LinkRelay> Links<R> {
    /// No link. Names and input handles are found by this hash.
    pub(crate) fn new(alloc: Global, hash: KeyHash) -> Self
        ensures { result ≡ no_links hash }
    {
        Links {
            names: IndexMap::with_hasher(alloc, hash),
            handles: Slab::new(alloc),
            inputs: IndexMap::with_hasher(alloc, hash),
            hints: Hints::new(),
        }
    }

    /// Whether a link is attached under the input handle.
    #[inline(always)]
    pub(crate) fn is_attached(&self, input: InputHandle) -> bool
        ensures { result ≡ is_some (attached_at input.0 self.now) }
    {
        keys::get(&self.inputs, &self.hints, input.0).is_some()
    }

    /// Asks the relay under an input handle about a flow.
    pub(crate) fn ask_flow(
        &mut self,
        input: InputHandle,
        flow: LinkFlow,
    ) -> Result<Option<LinkFlow>, LinkRelayError>
        requires { IsSome (attached_at input.0 self.old) }
        ensures { Asked (of_flow R.gives.flow_gives) (attached_at input.0 self.old) flow result
            (λ link. self.new ≡ put_at input.0 link self.old) }
    {
        inputs::ask_flow(&mut self.inputs, &self.hints, input, flow)
    }

    /// Asks the relay under the handle of a transfer about it, once there is room for the record of its delivery; or says why none
    /// was asked.
    #[inline(always)]
    pub(crate) fn ask_transfer(
        &mut self,
        transfer: Transfer,
        payload: Bytes,
        received: &mut Deliveries,
    ) -> Result<Result<Option<(DeliveryNumber, DeliveryTag)>, LinkRelayError>, SessionInnerError>
        ensures asked { IfOk result (λ answer. Asked (of_transfer R.gives.transfer_gives) (attached_at transfer.handle self.old)
            (transfer, payload) answer (λ link. self.new ≡ put_at transfer.handle link self.old)) }
        ensures unasked { IfErr result (λ e. IsUnasked (attached_at transfer.handle self.old) e × (self.new ≡ self.old)) }
        ensures room { OnOk result (length received.new.rows < received.new.capacity) }
        ensures rows { received.new.rows ≡ received.old.rows }
        ensures reads { received.new.reads ≡ received.old.reads }
    {
        let Some(at) = keys::index_of(&self.inputs, &self.hints, transfer.handle.0) else {
            drop(transfer);
            return Err(SessionInnerError::UnattachedHandle);
        };
        let Ok(()) = received.reserve(1) else {
            drop(transfer);
            return Err(SessionInnerError::OutOfMemory);
        };
        let link = self.inputs.get_index_mut(at).unwrap();
        Ok(link.relay.on_incoming_transfer(transfer, payload))
    }

    /// Asks the relay under the input handle of a delivery, if one is attached there, about a disposition of the delivery, and
    /// says whether it answered true.
    #[inline(always)]
    pub(crate) fn ask_disposition(&mut self, disposition: &Disposition, delivery: &Delivery) -> bool
        ensures { (asked : Option (DispositionQuestion R))
            × AsksAt R.gives.disposition_gives disposition.now delivery.now asked self.old self.new × (result ≡ has_agreed asked) }
    {
        let Some(at) = keys::index_of(&self.inputs, &self.hints, delivery.input_handle.0) else {
            return false;
        };
        inputs::ask_disposition(&mut self.inputs, at, disposition, delivery)
    }
}
