//! What a session takes of the peer's transfers (AMQP 1.0 part 2, sections 2.5.6 and 2.7.5).

ghost use Rattle.std.specs.Prelude.{◌≡◌, ◌<◌, Option, Err, IfSome, IfNone, length};
ghost use Rattle.amqp_session.specs.Deliveries.{with_record, RecordFits};
ghost use Rattle.amqp_session.specs.Relay.{TransferQuestion};
ghost use Rattle.amqp_session.specs.Step.{TakeTransferStep, named_delivery, without_answer};
ghost use Rattle.amqp_session.specs.Room.{LacksRecord, RelayLacks};
ghost use Rattle.amqp_session.specs.Errors.{inner_of_relay};

use super::Session;
use crate::deliveries::{Deliveries, Delivery, Tags};
use crate::error::{LinkRelayError, SessionInnerError};
use crate::numbers::InputHandle;
use crate::relay::LinkRelay;
use amqp_types::{DeliveryNumber, DeliveryTag, Disposition, Transfer};
use bytes::Bytes;

/// No relay was asked, for this reason. Where an answer of this size is made in place, its function pays for it on the ways that it does
/// not take.
fn refused(error: SessionInnerError) -> Result<(), SessionInnerError>
    ensures { result ≡ Err error }
{
    Err(error)
}

/// The relay refuses.
fn refused_by_relay(error: LinkRelayError) -> Result<(), SessionInnerError>
    ensures { result ≡ Err (inner_of_relay error) }
{
    Err(SessionInnerError::from(error))
}

impl<R: LinkRelay> Session<R> {
    /// Takes a transfer of the peer and its payload, in every state: its number is counted, whatever is then answered. The relay of its
    /// link gets it, and the delivery that the relay names is open from now on. The answer is always `None`. A transfer past the incoming
    /// window is not refused here.
    ///
    /// `UnattachedHandle` where no link is attached under the handle. `OutOfMemory` where memory is refused: for the record
    /// of a delivery it is taken before the relay is asked. An error of the relay is passed on. Nothing is recorded then.
    #[inline(always)]
    pub fn on_incoming_transfer(
        &mut self,
        transfer: Transfer,
        payload: Bytes,
    ) -> Result<Option<Disposition>, SessionInnerError>
        ensures step { (asked : Option (TransferQuestion R))
            × TakeTransferStep R.gives.transfer_gives self.old.view transfer payload asked result self.new.view }
        ensures walk { self.new.last_walk ≡ self.old.last_walk }
        ensures reads { self.new.reads ≡ self.old.reads }
    {
        match self.take_transfer(transfer, payload) {
            Ok(()) => Ok(None),
            Err(error) => Err(error),
        }
    }

    /// [`Session::on_incoming_transfer`], without the answer that is always `None`.
    pub fn take_transfer(
        &mut self,
        transfer: Transfer,
        payload: Bytes,
    ) -> Result<(), SessionInnerError>
        ensures step { (asked : Option (TransferQuestion R))
            × TakeTransferStep R.gives.transfer_gives self.old.view transfer payload asked (without_answer result) self.new.view }
        ensures walk { self.new.last_walk ≡ self.old.last_walk }
        ensures reads { self.new.reads ≡ self.old.reads }
    {
        match self.take_transfer_if_room(transfer, payload) {
            Some(answer) => answer,
            None => {
                self.receiving.count();
                refused(SessionInnerError::OutOfMemory)
            }
        }
    }

    /// [`Session::take_transfer`], but where memory is refused for the record of a delivery: then the answer is `None`, and nothing has changed, so
    /// that the transfer may come again. Else `OutOfMemory` is an error of the relay alone.
    pub fn take_transfer_if_room(
        &mut self,
        transfer: Transfer,
        payload: Bytes,
    ) -> Option<Result<(), SessionInnerError>>
        ensures none { IfNone result ((self.new ≡ self.old) × LacksRecord self.old.view transfer.handle) }
        ensures step { IfSome result (λ r. (asked : Option (TransferQuestion R))
            × TakeTransferStep R.gives.transfer_gives self.old.view transfer payload asked (without_answer r) self.new.view) }
        ensures memory { IfSome result (λ r. RelayLacks R.gives.transfer_gives transfer payload r) }
        ensures walk { self.new.last_walk ≡ self.old.last_walk }
        ensures reads { self.new.reads ≡ self.old.reads }
    {
        let input = InputHandle(transfer.handle.0);
        let state_len = match &transfer.state {
            None => 0,
            Some(state) => state.bytes().len(),
        };
        let beside = payload.len().saturating_add(state_len);
        let asked = self
            .links
            .ask_transfer(transfer, payload, &mut self.received);
        match asked {
            Err(SessionInnerError::OutOfMemory) => None,
            Err(unasked) => {
                self.receiving.count();
                Some(refused(unasked))
            }
            Ok(Err(error)) => {
                self.receiving.count();
                Some(refused_by_relay(error))
            }
            Ok(Ok(named)) => {
                self.receiving.count();
                record_named(&mut self.tags, &mut self.received, input, named, beside);
                Some(Ok(()))
            }
        }
    }
}

/// Records the delivery that a relay named, if any. Its tag is a copy where so many bytes came `beside` it that a cut would keep much, or many
/// deliveries are open; else it keeps the frame.
#[inline(always)]
fn record_named(
    tags: &mut Tags,
    deliveries: &mut Deliveries,
    input: InputHandle,
    named: Option<(DeliveryNumber, DeliveryTag)>,
    beside: usize,
)
    requires { length deliveries.old.rows < deliveries.old.capacity }
    ensures rows { deliveries.new.rows ≡ with_record (named_delivery input.0 named) deliveries.old.rows }
    ensures reads { deliveries.new.reads ≡ deliveries.old.reads }
    ensures fits { RecordFits (named_delivery input.0 named) }
{
    if let Some((number, tag)) = named {
        let is_copied = beside > KEPT || deliveries.len() >= FEW;
        let tag = if is_copied {
            tags.own(tag, beside)
        } else {
            tag
        };
        deliveries.record(Delivery {
            number,
            input_handle: input,
            tag,
        });
    }
}

/// How many open deliveries may keep their frames. Many frames are much memory, and are dear to let go in another order than they came.
const FEW: usize = 256;

/// How many bytes of payload and state a frame may have that an open delivery keeps in memory by its tag.
const KEPT: usize = 256;
