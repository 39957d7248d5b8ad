//! The relays of the measured links: they take what comes, and ask for nothing.

ghost use Rattle.std.specs.Prelude.{◌≡◌, Ok, None, false};
ghost use Rattle.fe2o3_amqp.specs.ReplayRelay.{named};
ghost use Rattle.bench_engine.specs.Relay.{kept_by};

use bytes::Bytes;
use fe2o3_amqp::{
    Attach, DeliveryNumber, DeliveryTag, Detach, LinkFlow, LinkRelay, LinkRelayError, OutputHandle,
    Raw, Role, Transfer,
};

/// What a measured link's relay does with the deliveries that come.
#[derive(Clone, Copy)]
pub enum Relay {
    /// It takes each, and names none, so that none is kept open.
    Taker,
    /// It names each that has a number and a tag, so that the session keeps it open.
    Namer,
}

impl LinkRelay for Relay {
    ghost gives = { record {
      attach_gives = λ old attach result new. result ≡ Ok tt;
      flow_gives = λ old handle flow result new. result ≡ Ok None;
      transfer_gives = λ old transfer payload result new. result ≡ Ok (kept_by old (named transfer.delivery_id transfer.delivery_tag));
      disposition_gives = λ old role settled state tag result new. result ≡ false;
      detach_gives = λ old handle detach remote_initiated result new. result ≡ None;
    } };

    // prover
    fn on_incoming_attach(&mut self, attach: Attach) -> Result<(), LinkRelayError> {
        drop(attach);
        Ok(())
    }

    fn on_incoming_flow(
        &mut self,
        _handle: OutputHandle,
        flow: LinkFlow,
    ) -> Result<Option<LinkFlow>, LinkRelayError> {
        drop(flow);
        Ok(None)
    }

    fn on_incoming_transfer(
        &mut self,
        transfer: Transfer,
        payload: Bytes,
    ) -> Result<Option<(DeliveryNumber, DeliveryTag)>, LinkRelayError> {
        drop(payload);
        match self {
            Relay::Taker => {
                drop(transfer);
                Ok(None)
            }
            Relay::Namer => Ok(number_and_tag(transfer)),
        }
    }

    fn on_incoming_disposition(
        &mut self,
        _role: Role,
        _settled: bool,
        _state: Option<&Raw>,
        _tag: &DeliveryTag,
    ) -> bool {
        false
    }

    fn on_incoming_detach(
        &mut self,
        _handle: OutputHandle,
        detach: Detach,
        _remote_initiated: bool,
    ) -> Option<Detach> {
        drop(detach);
        None
    }
}

/// The number and the tag of a transfer that has both.
#[inline]
fn number_and_tag(transfer: Transfer) -> Option<(DeliveryNumber, DeliveryTag)>
    ensures { result ≡ named transfer.delivery_id transfer.delivery_tag }
{
    match (transfer.delivery_id, transfer.delivery_tag) {
        (Some(number), Some(tag)) => Some((number, tag)),
        _ => None,
    }
}
