//! The relay of the links of rows: it takes what comes, and answers by a fixed rule.

ghost use Rattle.std.specs.Prelude.{⊤};

use amqp_session::{LinkFlow, LinkRelay, LinkRelayError, OutputHandle};
use amqp_types::{Attach, DeliveryNumber, DeliveryTag, Detach, Raw, Role, Transfer};
use bytes::Bytes;

/// Accepts an attach, once it has refused as many as it is to; answers a flow that asks for an echo with the same flow on its
/// output handle; keeps a transfer open that is not settled and has a number and a tag; answers a detach that the peer began with one
/// on its output handle, closed alike and without an error. It asks for an echo of an unsettled disposition where that has no
/// state, or the delivery's tag does not begin with `n`; a deaf one asks for none.
#[derive(Drop)]
pub struct RowRelay {
    /// How many attaches it is still to refuse.
    pub refusals: u32,
    /// Whether it asks for no echo.
    pub is_deaf: bool,
}

impl RowRelay {
    /// One that accepts each attach, and may ask for echoes.
    pub fn new() -> Self {
        RowRelay {
            refusals: 0,
            is_deaf: false,
        }
    }
}

impl LinkRelay for RowRelay {
    ghost gives = { record {
      attach_gives = λ old attach result new. ⊤;
      flow_gives = λ old handle flow result new. ⊤;
      transfer_gives = λ old transfer payload result new. ⊤;
      disposition_gives = λ old role settled state tag result new. ⊤;
      detach_gives = λ old handle detach remote_initiated result new. ⊤;
    } };

    fn on_incoming_attach(&mut self, attach: Attach) -> Result<(), LinkRelayError> {
        drop(attach);
        if self.refusals > 0 {
            self.refusals -= 1;
            return Err(LinkRelayError::TransferFrameToSender);
        }
        Ok(())
    }

    fn on_incoming_flow(
        &mut self,
        handle: OutputHandle,
        flow: LinkFlow,
    ) -> Result<Option<LinkFlow>, LinkRelayError> {
        if !flow.echo {
            drop(flow);
            return Ok(None);
        }
        Ok(Some(LinkFlow {
            handle: handle.into(),
            echo: false,
            ..flow
        }))
    }

    fn on_incoming_transfer(
        &mut self,
        mut transfer: Transfer,
        payload: Bytes,
    ) -> Result<Option<(DeliveryNumber, DeliveryTag)>, LinkRelayError> {
        drop(payload);
        let is_settled = transfer.settled == Some(true);
        let number = transfer.delivery_id;
        let tag = transfer.delivery_tag.take();
        drop(transfer);
        match (number, tag) {
            (Some(number), Some(tag)) if !is_settled => Ok(Some((number, tag))),
            (_, tag) => {
                drop(tag);
                Ok(None)
            }
        }
    }

    fn on_incoming_disposition(
        &mut self,
        _role: Role,
        settled: bool,
        state: Option<&Raw>,
        tag: &DeliveryTag,
    ) -> bool {
        !settled && !self.is_deaf && (state.is_none() || !tag.0.as_slice().starts_with(b"n"))
    }

    fn on_incoming_detach(
        &mut self,
        handle: OutputHandle,
        detach: Detach,
        remote_initiated: bool,
    ) -> Option<Detach> {
        let closed = detach.closed;
        drop(detach);
        if !remote_initiated {
            return None;
        }
        Some(Detach {
            closed,
            ..Detach::new(handle.into())
        })
    }
}
