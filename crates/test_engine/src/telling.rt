//! A relay that has a choice, and counts what it is told.

ghost use Rattle.std.specs.Prelude.{◌≡◌, ◌⊎◌, ⊤, Some, None, Ok};

use bytes::Bytes;
use fe2o3_amqp::{
    Attach, DeliveryNumber, DeliveryTag, Detach, LinkFlow, LinkRelay, LinkRelayError, OutputHandle,
    Raw, Role, Transfer,
};
use std::sync::atomic::{AtomicUsize, Ordering};

/// What relays were told.
#[derive(Drop)]
pub struct Told {
    /// How many attaches.
    attaches: AtomicUsize,
    /// How many transfers.
    transfers: AtomicUsize,
    /// How many detaches that the peer began.
    begun: AtomicUsize,
    /// How many detaches that answer this side's.
    answers: AtomicUsize,
}

impl Told {
    /// Nothing yet.
    pub fn new() -> Self {
        Told {
            attaches: AtomicUsize::new(0),
            transfers: AtomicUsize::new(0),
            begun: AtomicUsize::new(0),
            answers: AtomicUsize::new(0),
        }
    }

    /// How many attaches, transfers, detaches that the peer began, and detaches that answer this side's.
    pub fn counts(&self) -> [usize; 4] {
        [
            self.attaches.load(Ordering::SeqCst),
            self.transfers.load(Ordering::SeqCst),
            self.begun.load(Ordering::SeqCst),
            self.answers.load(Ordering::SeqCst),
        ]
    }
}

/// Refuses so many attaches, and then takes what comes. Its relations say less than it does: any answer to an attach, to a
/// flow, to a disposition or to a detach may come.
#[derive(Drop)]
pub struct Telling<'a> {
    pub told: &'a Told,
    pub refusals: u32,
}

impl<'a> LinkRelay for Telling<'a> {
    ghost gives = { record {
      attach_gives = λ old attach answer new. ⊤;
      flow_gives = λ old handle flow answer new. (answer ≡ Ok None) ⊎ (answer ≡ Ok (Some flow));
      transfer_gives = λ old transfer payload answer new. answer ≡ Ok None;
      disposition_gives = λ old role settled state tag answer new. ⊤;
      detach_gives = λ old handle detach remote_initiated answer new. (answer ≡ None) ⊎ (answer ≡ Some detach);
    } };

    fn on_incoming_attach(&mut self, attach: Attach) -> Result<(), LinkRelayError> {
        drop(attach);
        self.told.attaches.fetch_add(1, Ordering::SeqCst);
        if self.refusals > 0 {
            self.refusals -= 1;
            return Err(LinkRelayError::TransferFrameToSender);
        }
        Ok(())
    }

    fn on_incoming_flow(
        &mut self,
        _handle: OutputHandle,
        _flow: LinkFlow,
    ) -> Result<Option<LinkFlow>, LinkRelayError> {
        Ok(None)
    }

    fn on_incoming_transfer(
        &mut self,
        _transfer: Transfer,
        _payload: Bytes,
    ) -> Result<Option<(DeliveryNumber, DeliveryTag)>, LinkRelayError> {
        self.told.transfers.fetch_add(1, Ordering::SeqCst);
        Ok(None)
    }

    fn on_incoming_disposition(
        &mut self,
        _role: Role,
        settled: bool,
        _state: Option<&Raw>,
        _tag: &DeliveryTag,
    ) -> bool {
        !settled
    }

    fn on_incoming_detach(
        &mut self,
        _handle: OutputHandle,
        detach: Detach,
        remote_initiated: bool,
    ) -> Option<Detach> {
        if !remote_initiated {
            self.told.answers.fetch_add(1, Ordering::SeqCst);
            return None;
        }
        self.told.begun.fetch_add(1, Ordering::SeqCst);
        Some(detach)
    }
}
