//! The relay of a transcript's links: it takes what comes, and answers by a fixed rule.

ghost use Rattle.std.specs.Prelude.{◌≡◌, Ok, not};
ghost use Rattle.fe2o3_amqp.specs.ReplayRelay.{echo_of, opened_by, answer_of};

use amqp_session::{LinkFlow, LinkRelay, LinkRelayError, OutputHandle};
use amqp_types::{Attach, DeliveryNumber, DeliveryTag, Detach, Raw, Role, Transfer};
use bytes::Bytes;

/// The relay of the links of [`replay`](crate::replay). It accepts an attach; answers a flow that asks for an echo with the same flow on its
/// output handle; keeps a transfer open that is not settled and has a number and a tag; asks for an echo of every unsettled
/// disposition; and answers a detach that the peer began with one on its output handle, closed alike and without an error.
///
/// ```
/// let link = Input::AllocateLink(SessionNo(0), name, Some(ReplayRelay));
/// ```
#[derive(Clone, Copy, Debug)]
pub struct ReplayRelay;

impl LinkRelay for ReplayRelay {
    ghost gives = { record {
      attach_gives = λ old attach result new. result ≡ Ok tt;
      flow_gives = λ old handle flow result new. result ≡ Ok (echo_of handle flow);
      transfer_gives = λ old transfer payload result new. result ≡ Ok (opened_by transfer);
      disposition_gives = λ old role settled state tag result new. result ≡ not settled;
      detach_gives = λ old handle detach remote_initiated result new. result ≡ answer_of handle detach remote_initiated;
    } };

    fn on_incoming_attach(&mut self, _attach: Attach) -> Result<(), LinkRelayError> {
        Ok(())
    }

    fn on_incoming_flow(
        &mut self,
        handle: OutputHandle,
        flow: LinkFlow,
    ) -> Result<Option<LinkFlow>, LinkRelayError> {
        if !flow.echo {
            return Ok(None);
        }
        Ok(Some(LinkFlow {
            handle: handle.into(),
            echo: false,
            ..flow
        }))
    }

    fn on_incoming_transfer(
        &mut self,
        transfer: Transfer,
        _payload: Bytes,
    ) -> Result<Option<(DeliveryNumber, DeliveryTag)>, LinkRelayError> {
        if transfer.settled == Some(true) {
            return Ok(None);
        }
        match (transfer.delivery_id, transfer.delivery_tag) {
            (Some(number), Some(tag)) => Ok(Some((number, tag))),
            _ => Ok(None),
        }
    }

    fn on_incoming_disposition(
        &mut self,
        _role: Role,
        settled: bool,
        _state: Option<&Raw>,
        _tag: &DeliveryTag,
    ) -> bool {
        !settled
    }

    fn on_incoming_detach(
        &mut self,
        handle: OutputHandle,
        detach: Detach,
        remote_initiated: bool,
    ) -> Option<Detach> {
        if !remote_initiated {
            return None;
        }
        Some(Detach {
            handle: handle.into(),
            closed: detach.closed,
            error: None,
        })
    }
}
