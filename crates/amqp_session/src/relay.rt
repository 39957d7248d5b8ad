//! What a session asks of its links: each link has a relay, and the session does what the relay answers.

ghost use Rattle.std.specs.Prelude.{ℕ, List, Bool, Option, Result, option_copied};
ghost use Rattle.amqp_session.specs.Relay.{Relays};
ghost use Rattle.amqp_types.specs.Attach.{AttachModel};
ghost use Rattle.amqp_types.specs.Detach.{DetachModel};
ghost use Rattle.amqp_types.specs.Transfer.{TransferModel};
ghost use Rattle.amqp_types.specs.declared.definitions.Role.{Role};
ghost use Rattle.amqp_types.specs.declared.definitions.DeliveryTag.{DeliveryTag};
ghost use Rattle.amqp_session.specs.declared.numbers.OutputHandle.{OutputHandle};
ghost use Rattle.amqp_session.specs.declared.flow.LinkFlow.{LinkFlow};
ghost use Rattle.amqp_session.specs.declared.error.LinkRelayError.{LinkRelayError};

use crate::error::LinkRelayError;
use crate::flow::LinkFlow;
use crate::numbers::OutputHandle;
use amqp_types::{Attach, DeliveryNumber, DeliveryTag, Detach, Raw, Role, Transfer};
use bytes::Bytes;

/// What stands for a link in a session: it is asked about what comes for the link, and answers (AMQP 1.0 part 2, section 2.6).
///
/// A relation says of each call how the relay before it, its arguments, its answer and the relay after it belong together; so a
/// relay may have a choice. A session reserves memory for all that may follow before it asks. `EventRelay` of `amqp_events` is a relay
/// that puts what comes into a queue. One of your own:
///
/// ```
/// /// Accepts what comes, and has nothing to say.
/// #[derive(Drop)]
/// pub struct Quiet;
///
/// impl LinkRelay for Quiet {
///     ghost gives = { record {
///       attach_gives = λ old attach answer new. (answer ≡ Ok tt) × (new ≡ old);
///       flow_gives = λ old handle flow answer new. (answer ≡ Ok None) × (new ≡ old);
///       transfer_gives = λ old transfer payload answer new. (answer ≡ Ok None) × (new ≡ old);
///       disposition_gives = λ old role settled state tag answer new. (answer ≡ not settled) × (new ≡ old);
///       detach_gives = λ old handle detach remote_initiated answer new. (answer ≡ None) × (new ≡ old);
///     } };
///
///     fn on_incoming_attach(&mut self, _attach: Attach) -> Result<(), LinkRelayError> {
///         Ok(())
///     }
///     // the other four calls alike
/// }
/// ```
///
/// An open delivery has a record, which stays until the peer's settled disposition names it, or until this side lets it go by
/// `Session::settle`, of which an engine is asked by `Input::Settle` (AMQP 1.0 part 2, section 2.6.12). Nothing else closes one:
/// no disposition of this side, settled or not, no echo, no detach, no End. Where neither comes, the session keeps the record until
/// another delivery of the same number replaces it.
pub trait LinkRelay: Drop {
    /// What a relay may answer: for each call a relation of the relay before, the arguments, the answer and the relay after.
    ghost gives: { Relays Self };

    /// The peer attached the link. After a refusal the relay goes on to wait, and the session answers the error by the same name.
    fn on_incoming_attach(&mut self, attach: Attach) -> Result<(), LinkRelayError>
        ensures { gives.attach_gives self.old attach result self.new };

    /// A flow came for the link, whose output handle is given. The answer is a flow to be sent at once, if any. After a refusal nothing
    /// goes out, and the session answers the error by the same name.
    fn on_incoming_flow(
        &mut self,
        handle: OutputHandle,
        flow: LinkFlow,
    ) -> Result<Option<LinkFlow>, LinkRelayError>
        ensures { gives.flow_gives self.old handle flow result self.new };

    /// A transfer came for the link, with its payload. The answer names the delivery by number and tag where it is open from
    /// now on. It should name one only where the peer's settled disposition of it will come, or where this side calls
    /// `Session::settle` for it: so none that came settled, and none that this side settles at once. After a refusal nothing is recorded,
    /// and the session answers the error by the same name.
    fn on_incoming_transfer(
        &mut self,
        transfer: Transfer,
        payload: Bytes,
    ) -> Result<Option<(DeliveryNumber, DeliveryTag)>, LinkRelayError>
        ensures { gives.transfer_gives self.old transfer payload result self.new };

    /// A disposition came of the delivery with this tag; `role` is the peer's. The answer says whether a settled one is to be sent back. A
    /// settled one takes the delivery away, whatever the answer. An unsettled one leaves it open, also where one is sent back: if the peer
    /// then sends no settled one, this side calls `Session::settle` for it.
    fn on_incoming_disposition(
        &mut self,
        role: Role,
        settled: bool,
        state: Option<&Raw>,
        tag: &DeliveryTag,
    ) -> bool
        ensures { gives.disposition_gives self.old role settled (option_copied state.entry) tag.now result self.new };

    /// The peer detached the link, whose output handle is given: by itself (`remote_initiated`), or in answer to this side's detach. The
    /// answer is a detach to be sent, if any.
    fn on_incoming_detach(
        &mut self,
        handle: OutputHandle,
        detach: Detach,
        remote_initiated: bool,
    ) -> Option<Detach>
        ensures { gives.detach_gives self.old handle detach remote_initiated result self.new };
}
