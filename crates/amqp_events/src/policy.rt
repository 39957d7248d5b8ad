//! Policy: what a relay answers, by link.

ghost use Rattle.std.specs.Prelude.{◌≡◌, ◌↔◌, true, false, IfOk, OnErr, IsSome, IsTrue, option_copied};
ghost use Rattle.amqp_memory.specs.Refusal.{SomeRefused};
ghost use Rattle.amqp_events.specs.declared.policy.Recorded.TheVariants.{OfModeSecond};
ghost use Rattle.amqp_events.specs.declared.policy.Echoed.TheVariants.{Terminal};
ghost use Rattle.amqp_events.specs.Policy.{is_recorded, opened_by, flow_answer, detach_answer, IsEchoed};

use amqp_session::{LinkFlow, OutputHandle};
use amqp_types::{
    DeliveryNumber, DeliveryTag, Detach, Raw, ReceiverSettleMode, Role, Transfer, is_terminal,
};
use std::alloc::AllocError;

/// What the relay of a link answers.
///
/// ```
/// let mut policy = Policy::new(Role::Sender, ReceiverSettleMode::First);
/// policy.echoed = Echoed::Never;
/// policy.answers_detaches = true;
/// ```
#[derive(Clone, Copy, Debug, PartialEq, Eq)]
pub struct Policy {
    /// The end of the link on which this side stands. A transfer to the sending end is refused.
    pub role: Role,
    /// How the receiving end of the link settles, where a transfer does not say (AMQP 1.0 part 2, sections 2.7.3 and 2.7.5).
    pub rcv_settle_mode: ReceiverSettleMode,
    /// Which received deliveries the session records as open.
    pub recorded: Recorded,
    /// Which dispositions of the peer are answered by a settled one.
    pub echoed: Echoed,
    /// Whether a flow with `echo` is answered (AMQP 1.0 part 2, section 2.7.4). The answer says what the peer's flow said: a relay does not
    /// know what this side sends or grants. An owner who keeps those numbers leaves this off, and sends its own flow.
    pub answers_flows: bool,
    /// Whether a detach that the peer began is answered by one. It releases neither name nor handle: an owner who leaves this off and sends its
    /// own detach has both back.
    pub answers_detaches: bool,
}

/// Which received deliveries are named to the session, which keeps a record of each until the peer settles it, or this side lets it go (AMQP
/// 1.0 part 2, section 2.6.12). A delivery that came settled, that is aborted, or whose transfer lacks its number or its tag is never named.
#[derive(Clone, Copy, Debug, PartialEq, Eq)]
pub enum Recorded {
    /// None.
    Never,
    /// Those that the receiver settles after the sender: of receiver settle mode `second`.
    OfModeSecond,
    /// Those of either mode. What this side settles by itself it lets go by `Session::settle`.
    OfEitherMode,
}

/// Which unsettled dispositions of a receiving peer are answered by a settled one with the same state (AMQP 1.0 part 2, section 2.6.12).
#[derive(Clone, Copy, Debug, PartialEq, Eq)]
pub enum Echoed {
    /// None.
    Never,
    /// Those with a terminal state (AMQP 1.0 part 3, section 3.4).
    Terminal,
    /// Each, whatever its state.
    Unsettled,
}

impl Policy {
    /// The policy of an end of a link. Deliveries of receiver settle mode `second` are recorded, dispositions with a terminal state are
    /// echoed, and flows and detaches are the owner's to answer.
    pub fn new(role: Role, rcv_settle_mode: ReceiverSettleMode) -> Policy
        ensures { result ≡ record {
          role = role;
          rcv_settle_mode = rcv_settle_mode;
          recorded = OfModeSecond;
          echoed = Terminal;
          answers_flows = false;
          answers_detaches = false;
        } }
    {
        Policy {
            role,
            rcv_settle_mode,
            recorded: Recorded::OfModeSecond,
            echoed: Echoed::Terminal,
            answers_flows: false,
            answers_detaches: false,
        }
    }

    /// Whether a delivery is recorded whose first transfer this is: by its mode, and not where it came settled or aborted.
    pub fn is_recorded(&self, transfer: &Transfer) -> bool
        ensures { result ≡ is_recorded self.now transfer.now }
    {
        if transfer.settled == Some(true) || transfer.aborted {
            return false;
        }
        match self.recorded {
            Recorded::Never => false,
            Recorded::OfEitherMode => true,
            Recorded::OfModeSecond => {
                transfer.rcv_settle_mode.unwrap_or(self.rcv_settle_mode)
                    == ReceiverSettleMode::Second
            }
        }
    }

    /// The number and the tag of the delivery that a received transfer opens, if any. The tag shares its bytes with the transfer. `AllocError`
    /// only where a delivery is opened and its bytes cannot be shared.
    pub fn opened(
        &self,
        transfer: &Transfer,
    ) -> Result<Option<(DeliveryNumber, DeliveryTag)>, AllocError>
        ensures opened { IfOk result (λ named. named ≡ opened_by self.now transfer.now) }
        ensures opens { OnErr result (IsSome (opened_by self.now transfer.now)) }
        ensures refused { OnErr result SomeRefused }
    {
        if !self.is_recorded(transfer) {
            return Ok(None);
        }
        match (transfer.delivery_id, &transfer.delivery_tag) {
            (Some(number), Some(tag)) => Ok(Some((number, tag.clone()?))),
            _ => Ok(None),
        }
    }

    /// Whether the peer's disposition of a delivery is to be answered by a settled one. `role` is the peer's: a disposition of a sending
    /// peer, and a settled one, is never answered.
    pub fn echoes(&self, role: Role, settled: bool, state: Option<&Raw>) -> bool
        ensures { IsTrue result ↔ IsEchoed self.now.echoed role settled (option_copied state.entry) }
    {
        if settled || role == Role::Sender {
            return false;
        }
        match self.echoed {
            Echoed::Never => false,
            Echoed::Unsettled => true,
            Echoed::Terminal => match state {
                None => false,
                Some(state) => is_terminal(state),
            },
        }
    }

    /// The flow that answers a flow of the peer's. `None` where `answers_flows` is off, or where the peer asks for no echo. `handle` is the
    /// link's output handle.
    pub fn flow_answer(&self, handle: OutputHandle, flow: &LinkFlow) -> Option<LinkFlow>
        ensures { result ≡ flow_answer self.now handle flow.now }
    {
        if !self.answers_flows || !flow.echo {
            return None;
        }
        Some(LinkFlow {
            handle: handle.into(),
            delivery_count: flow.delivery_count,
            link_credit: flow.link_credit,
            available: flow.available,
            drain: flow.drain,
            echo: false,
            properties: None,
        })
    }

    /// The detach that answers a detach of the peer's: closed alike, without an error. `None` where `answers_detaches` is off, or where the
    /// peer did not begin the detach. `handle` is the link's output handle.
    pub fn detach_answer(
        &self,
        handle: OutputHandle,
        detach: &Detach,
        remote_initiated: bool,
    ) -> Option<Detach>
        ensures { result ≡ detach_answer self.now handle detach.now remote_initiated }
    {
        if !self.answers_detaches || !remote_initiated {
            return None;
        }
        Some(Detach {
            handle: handle.into(),
            closed: detach.closed,
            error: None,
        })
    }
}
