//! Two kinds of relay: one that counts how often it is asked, and whose answers are known, and one that has a choice.

ghost use Rattle.std.specs.Prelude.{⊤, ◌≡◌, ◌⊎◌, Bool, true, false, Option, Some, None, Ok, Err, not};
ghost use Rattle.amqp_session.specs.declared.error.LinkRelayError.TheVariants.{TransferFrameToSender};

use amqp_session::{LinkFlow, LinkRelay, LinkRelayError, OutputHandle};
use amqp_types::{Attach, DeliveryNumber, DeliveryTag, Detach, Raw, Role, Transfer};
use bytes::Bytes;
use std::sync::atomic::{AtomicUsize, Ordering};

/// How often relays were asked.
#[derive(Drop)]
pub struct Asked {
    attaches: AtomicUsize,
    detaches: AtomicUsize,
    others: AtomicUsize,
}

impl Asked {
    /// Not yet.
    pub fn new() -> Self {
        Asked {
            attaches: AtomicUsize::new(0),
            detaches: AtomicUsize::new(0),
            others: AtomicUsize::new(0),
        }
    }

    /// How often about an attach, about a detach, and about anything else.
    pub fn counts(&self) -> [usize; 3] {
        [
            self.attaches.load(Ordering::SeqCst),
            self.detaches.load(Ordering::SeqCst),
            self.others.load(Ordering::SeqCst),
        ]
    }
}

/// Accepts what it is told, counts it, and has nothing to say, but that it names each transfer that has a number and a tag.
#[derive(Drop)]
pub struct Quiet<'a> {
    pub asked: &'a Asked,
}

impl<'a> LinkRelay for Quiet<'a> {
    ghost gives = { record {
      attach_gives = λ old attach answer new. answer ≡ Ok tt;
      flow_gives = λ old handle flow answer new. answer ≡ Ok None;
      transfer_gives = λ old transfer payload answer new. ⊤;
      disposition_gives = λ old role settled state tag answer new. answer ≡ not settled;
      detach_gives = λ old handle detach remote_initiated answer new. answer ≡ None;
    } };

    fn on_incoming_attach(&mut self, _attach: Attach) -> Result<(), LinkRelayError> {
        self.asked.attaches.fetch_add(1, Ordering::SeqCst);
        Ok(())
    }

    fn on_incoming_flow(
        &mut self,
        _handle: OutputHandle,
        _flow: LinkFlow,
    ) -> Result<Option<LinkFlow>, LinkRelayError> {
        self.asked.others.fetch_add(1, Ordering::SeqCst);
        Ok(None)
    }

    fn on_incoming_transfer(
        &mut self,
        transfer: Transfer,
        _payload: Bytes,
    ) -> Result<Option<(DeliveryNumber, DeliveryTag)>, LinkRelayError> {
        self.asked.others.fetch_add(1, Ordering::SeqCst);
        match (transfer.delivery_id, transfer.delivery_tag) {
            (Some(number), Some(tag)) => Ok(Some((number, tag))),
            _ => Ok(None),
        }
    }

    fn on_incoming_disposition(
        &mut self,
        _role: Role,
        settled: bool,
        _state: Option<&Raw>,
        _tag: &DeliveryTag,
    ) -> bool {
        self.asked.others.fetch_add(1, Ordering::SeqCst);
        !settled
    }

    fn on_incoming_detach(
        &mut self,
        _handle: OutputHandle,
        _detach: Detach,
        _remote_initiated: bool,
    ) -> Option<Detach> {
        self.asked.detaches.fetch_add(1, Ordering::SeqCst);
        None
    }
}

/// Takes as many flows as it has credit for, and refuses transfers. Its relations say less: they allow any answer to a flow.
#[derive(Drop)]
pub struct Choosing {
    pub credit: u32,
}

impl LinkRelay for Choosing {
    ghost gives = { record {
      attach_gives = λ old attach answer new. (answer ≡ Ok tt) ⊎ (new ≡ old);
      flow_gives = λ old handle flow answer new. (answer ≡ Ok None) ⊎ (answer ≡ Ok (Some flow));
      transfer_gives = λ old transfer payload answer new. answer ≡ Err TransferFrameToSender;
      disposition_gives = λ old role settled state tag answer new. new ≡ old;
      detach_gives = λ old handle detach remote_initiated answer new. (answer ≡ None) ⊎ (answer ≡ Some detach);
    } };

    fn on_incoming_attach(&mut self, _attach: Attach) -> Result<(), LinkRelayError> {
        Ok(())
    }

    fn on_incoming_flow(
        &mut self,
        _handle: OutputHandle,
        flow: LinkFlow,
    ) -> Result<Option<LinkFlow>, LinkRelayError> {
        if self.credit == 0 {
            return Ok(None);
        }
        self.credit -= 1;
        Ok(Some(flow))
    }

    fn on_incoming_transfer(
        &mut self,
        _transfer: Transfer,
        _payload: Bytes,
    ) -> Result<Option<(DeliveryNumber, DeliveryTag)>, LinkRelayError> {
        Err(LinkRelayError::TransferFrameToSender)
    }

    fn on_incoming_disposition(
        &mut self,
        _role: Role,
        _settled: bool,
        _state: Option<&Raw>,
        _tag: &DeliveryTag,
    ) -> bool {
        self.credit > 0
    }

    fn on_incoming_detach(
        &mut self,
        _handle: OutputHandle,
        detach: Detach,
        remote_initiated: bool,
    ) -> Option<Detach> {
        if remote_initiated { Some(detach) } else { None }
    }
}
