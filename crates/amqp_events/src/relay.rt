//! The relay: it puts what comes for its link into a sink, and answers by its policy.

ghost use Rattle.std.specs.Prelude.{◌≡◌, None, Some, IfOk, OnErr, option_copied};
ghost use Rattle.amqp_memory.specs.Refusal.{SomeRefused};
ghost use Rattle.amqp_events.specs.Event.{under_both, disposed};
ghost use Rattle.amqp_events.specs.Telling.{Tells, Notes, Stays, AttachTold, FlowTold, TransferTold, DispositionTold, DetachTold};

use crate::event::{Event, EventBody, LinkNames};
use crate::policy::Policy;
use crate::sink::EventSink;
use amqp_session::{InputHandle, LinkFlow, LinkRelay, LinkRelayError, OutputHandle};
use amqp_types::{Attach, DeliveryNumber, DeliveryTag, Detach, Raw, Role, Transfer};
use bytes::Bytes;
use std::alloc::AllocError;

/// The relay of one link. Each call puts one event into the sink, and answers by the policy. Where the sink refuses an attach, a flow or a
/// transfer, the call is refused alike, and the relay stays as it was; a disposition or a detach, which has no such answer, is missed then.
/// A transfer to the sending end of a link is refused `TransferFrameToSender`, and has no event.
///
/// ```
/// let policy = Policy::new(Role::Receiver, ReceiverSettleMode::First);
/// let relay = EventRelay::new(queue.share()?, 7, policy);
/// let input = Input::AllocateLink(SessionNo(7), name, Some(relay));
/// ```
#[derive(Drop)]
pub struct EventRelay<S> {
    sink: S,
    link: LinkNames,
    policy: Policy,
}

impl<S> EventRelay<S> {
    /// A relay of a link in the session with this number, which is the owner's choice and stands in each event. Its handles are not known yet.
    pub fn new(sink: S, session: u32, policy: Policy) -> EventRelay<S>
        ensures { result ≡ record {
          sink = sink;
          link = record { session = session; input = None; output = None };
          policy = policy;
        } }
    {
        EventRelay {
            sink,
            link: LinkNames {
                session,
                input: None,
                output: None,
            },
            policy,
        }
    }

    /// A relay of a link that stands under this input handle from the start, as `Session::allocate_incoming_link` puts it: no attach comes to
    /// it.
    pub fn attached(sink: S, session: u32, input: InputHandle, policy: Policy) -> EventRelay<S>
        ensures { result ≡ record {
          sink = sink;
          link = record { session = session; input = Some input; output = None };
          policy = policy;
        } }
    {
        let mut relay = EventRelay::new(sink, session, policy);
        relay.link.input = Some(input);
        relay
    }

    /// The sink. The rest of the relay is dropped.
    pub fn into_sink(self) -> S
        ensures { result ≡ self.sink }
    {
        self.sink
    }
}

impl<S: EventSink> EventRelay<S> {
    /// Puts an event into the sink. Where it is taken, its names are those that are known from then on.
    fn tell(&mut self, event: Event) -> Result<(), LinkRelayError>
        ensures { Tells S.puts self.old event result self.new }
    {
        let link = event.link;
        self.sink.put(event)?;
        self.link = link;
        Ok(())
    }

    /// Puts an event into the sink that nobody can refuse.
    fn note(&mut self, event: Event)
        ensures told { Notes S.puts S.misses self.old.sink event self.new.sink }
        ensures stays { Stays self.old self.new }
    {
        if self.sink.put(event).is_err() {
            self.sink.miss();
        }
    }

    /// The names of the link, where both of its handles are given with a frame.
    fn names(&self, input: InputHandle, output: OutputHandle) -> LinkNames
        ensures { result ≡ under_both input.0 output self.now.link }
    {
        LinkNames {
            session: self.link.session,
            input: Some(input),
            output: Some(output),
        }
    }
}

/// The event of a disposition. Tag and state share their bytes; it fails only where these cannot be shared.
fn disposition_event(
    link: LinkNames,
    role: Role,
    settled: bool,
    state: Option<&Raw>,
    tag: &DeliveryTag,
) -> Result<Event, AllocError>
    ensures event { IfOk result (λ e. e ≡ disposed link role settled (option_copied state.entry) tag.now) }
    ensures refused { OnErr result SomeRefused }
{
    let state = match state {
        None => None,
        Some(state) => Some(state.clone()?),
    };
    let tag = tag.clone()?;
    let body = EventBody::Disposition {
        role,
        settled,
        state,
        tag,
    };
    Ok(Event { link, body })
}

impl<S: EventSink> LinkRelay for EventRelay<S> {
    ghost gives = { record {
      attach_gives = λ old attach result new. AttachTold S.puts old attach result new;
      flow_gives = λ old handle flow result new. FlowTold S.puts old handle flow result new;
      transfer_gives = λ old transfer payload result new. TransferTold S.puts old transfer payload result new;
      disposition_gives = λ old role settled state tag result new. DispositionTold S.puts S.misses old role settled state tag result new;
      detach_gives = λ old handle detach remote_initiated result new. DetachTold S.puts S.misses old handle detach remote_initiated result new;
    } };

    fn on_incoming_attach(&mut self, attach: Attach) -> Result<(), LinkRelayError> {
        let link = self.link.under(attach.handle);
        let body = EventBody::Attached(attach);
        self.tell(Event { link, body })
    }

    fn on_incoming_flow(
        &mut self,
        handle: OutputHandle,
        flow: LinkFlow,
    ) -> Result<Option<LinkFlow>, LinkRelayError> {
        let link = self.names(InputHandle::from(flow.handle), handle);
        let answer = self.policy.flow_answer(handle, &flow);
        let body = EventBody::Flow(flow);
        self.tell(Event { link, body })?;
        Ok(answer)
    }

    fn on_incoming_transfer(
        &mut self,
        transfer: Transfer,
        payload: Bytes,
    ) -> Result<Option<(DeliveryNumber, DeliveryTag)>, LinkRelayError> {
        if self.policy.role == Role::Sender {
            drop(transfer);
            return Err(LinkRelayError::TransferFrameToSender);
        }
        let Ok(named) = self.policy.opened(&transfer) else {
            drop(transfer);
            return Err(LinkRelayError::OutOfMemory);
        };
        let link = self.link.under(transfer.handle);
        let body = EventBody::Transfer {
            performative: transfer,
            payload,
        };
        self.tell(Event { link, body })?;
        Ok(named)
    }

    fn on_incoming_disposition(
        &mut self,
        role: Role,
        settled: bool,
        state: Option<&Raw>,
        tag: &DeliveryTag,
    ) -> bool {
        match disposition_event(self.link, role, settled, state, tag) {
            Ok(event) => self.note(event),
            Err(_) => self.sink.miss(),
        }
        self.policy.echoes(role, settled, state)
    }

    fn on_incoming_detach(
        &mut self,
        handle: OutputHandle,
        detach: Detach,
        remote_initiated: bool,
    ) -> Option<Detach> {
        let link = self.names(InputHandle::from(detach.handle), handle);
        let answer = self.policy.detach_answer(handle, &detach, remote_initiated);
        let body = EventBody::Detached {
            detach,
            remote_initiated,
        };
        self.note(Event { link, body });
        answer
    }
}
