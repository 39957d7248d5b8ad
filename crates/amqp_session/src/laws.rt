//! Laws: what holds of every history of a session, as contracts of functions that do nothing; and how channels and handles
//! compare.

ghost use Rattle.std.specs.Prelude.{ℕ, Result, List, Option, Some, ◌≡◌, ◌⊎◌, ◌<◌, ◌/◌, nat_eq, nat_lt, true};
ghost use Rattle.std.specs.List.{fold};
ghost use Rattle.std.specs.Hash as fed;
ghost use Rattle.std.specs.Ordering.{nat_cmp};
ghost use Rattle.amqp_session.specs.declared.frame.SessionOutgoingItem.{SessionOutgoingItem};
ghost use Rattle.amqp_session.specs.States.{is_mapped};
ghost use Rattle.amqp_session.specs.Step.{SessionFlowStep};
ghost use Rattle.amqp_session.specs.Session.{SessionView};
ghost use Rattle.amqp_session.specs.History.{SessionCall, Made, LeadsTo};
ghost use Rattle.amqp_session.specs.Headline.{Headline, Stands};
ghost use Rattle.amqp_session.specs.Numbers.{NumbersAreKnown, number_after};
ghost use Rattle.amqp_session.specs.Sending.{number_shown};
ghost use Rattle.amqp_session.specs.Linked.{HandlesMeet, LinksAgree, ShownAgree, AwaitedOnce};
ghost use Rattle.amqp_session.specs.OutgoingFrames.{OnChannel, calls_frames};
ghost use Rattle.amqp_session.specs.Settings.{SettingsModel};
ghost use Rattle.amqp_session.specs.Transfers.{RequestedTransfer};
ghost use Rattle.amqp_session.specs.declared.error.AllocLinkError.{AllocLinkError};
ghost use Rattle.amqp_session.specs.declared.flow.LinkFlow.{LinkFlow};
ghost use Rattle.amqp_session.specs.declared.numbers.OutputHandle.{OutputHandle as HandleModel};
ghost use Rattle.amqp_session.specs.declared.pair.Side.{Side};
ghost use Rattle.amqp_types.specs.Attach.{AttachModel};
ghost use Rattle.amqp_session.specs.Pair.{PairView, Said, new_pair, AllocateLinkStep, BeginStep, AttachStep, FlowStep, TransferStep, ArriveStep};
ghost use Rattle.amqp_session.specs.PairLedger.{FitsSettings};
ghost use Rattle.amqp_session.specs.PairOrder.{IsMove, PairCall, PairChain, ArrivesInOrder, AreHistories};

use crate::numbers::{IncomingChannel, InputHandle, OutgoingChannel, OutputHandle};
use crate::relay::LinkRelay;
use std::cmp::Ordering;
use std::hash::{Hash, Hasher};

/// Whatever calls a session has seen, what it shows is what its history gives: the numbers and windows of both directions,
/// what waits, the state, the peer's channel, the stop reason, the open deliveries of both roles, which a settled disposition takes
/// away, and the links: how each output handle is taken, which link is live by each name and which relay stands under each input
/// handle. And the transfers handed out, and then those held back, are all requested ones but untagged, unmapped and memory
/// refusals, in order, each delivery numbered once, on its first frame alone, each inside the peer's latest window; after an
/// accepted transfer or mapped Flow one waits only while it is used up (AMQP 1.0 part 2, sections 2.5.6 and 2.6).
pub fn law_of_views<R: LinkRelay>()
    ensures stands { let g = R.gives in
        (m : Made) (h : List (SessionCall R)) (v : SessionView R) → LeadsTo g m h v → Stands m h v }
    ensures headline { let g = R.gives in
        (m : Made) (h : List (SessionCall R)) (v : SessionView R) → LeadsTo g m h v → Headline m h }
{}

/// The number of a delivery is known as its first transfer is accepted, also while that is held back: it is how many deliveries were
/// accepted before, modulo 2^32. The frame that goes out for the transfer, by whatever call and however much later, carries it, and the
/// session shows it before it takes the transfer ([`Session::next_delivery_number`](crate::Session::next_delivery_number); AMQP 1.0 part
/// 2, section 2.6.12).
pub fn law_of_numbers<R: LinkRelay>()
    ensures known { let g = R.gives in
        (m : Made) (h : List (SessionCall R)) (v : SessionView R) → LeadsTo g m h v → NumbersAreKnown m h }
    ensures shown { let g = R.gives in
        (m : Made) (h : List (SessionCall R)) (v : SessionView R) → LeadsTo g m h v → number_shown v.sending ≡ number_after h }
{}

/// Every frame that a session hands out, of whatever kind, is on the channel that the session was made with.
pub fn law_of_channels<R: LinkRelay>()
    ensures { let g = R.gives in
        (m : Made) (h : List (SessionCall R)) (v : SessionView R) → LeadsTo g m h v → OnChannel m.channel (calls_frames h) }
{}

/// Each call of a pair is a move of one side: calls of its session, which take frames from the front of those on the way to it, and append
/// what they hand out to those on the way to the other. And whatever moves a new pair has seen, the calls of each side's session are a
/// history of it, and what each side sent is what the other received, followed by what is still on the way: in order, each frame once
/// (AMQP 1.0 part 2, section 2.5.6).
pub fn law_of_pairs<R: LinkRelay>()
    ensures allocate_link { let g = R.gives in
        (side : Side) (name : List ℕ) (relay : Option R) (handle : Result HandleModel AllocLinkError) (p q : PairView R)
        → AllocateLinkStep g side name relay handle p q → IsMove g side p q }
    ensures begin { let g = R.gives in
        (side : Side) (result : Said) (p q : PairView R) → BeginStep g side result p q → IsMove g side p q }
    ensures send_attach { let g = R.gives in
        (side : Side) (a : AttachModel) (result : Said) (p q : PairView R) → AttachStep g side a result p q → IsMove g side p q }
    ensures send_flow { let g = R.gives in
        (side : Side) (l : LinkFlow) (result : Said) (p q : PairView R) → FlowStep g side l result p q → IsMove g side p q }
    ensures send_transfer { let g = R.gives in
        (side : Side) (h : RequestedTransfer) (result : Said) (p q : PairView R) → TransferStep g side h result p q
        → IsMove g side p q }
    ensures arrive { let g = R.gives in
        (side : Side) (result : Said) (p q : PairView R) → ArriveStep g side result p q → IsMove g side p q }
    ensures histories { let g = R.gives in
        (s t : SettingsModel) (h : List (PairCall R)) (p : PairView R) → FitsSettings s → FitsSettings t
        → PairChain g (new_pair s t) h p → AreHistories g s t h p }
    ensures order { let g = R.gives in
        (s t : SettingsModel) (h : List (PairCall R)) (p : PairView R) → PairChain g (new_pair s t) h p → ArrivesInOrder h p }
{}

/// After any calls the live links' names and output handles are one to one, as the history says it and as the session shows it:
/// two live links never share a name or an output handle, and a handle whose detach the peer is still to answer has no live
/// link. A detach of this side that the peer is to answer goes out at most once for each allotment of its output handle: the
/// handle was allotted before the first one, and again between any two. The input handle that a live link has, by
/// [`Session::input_handle_of`](crate::Session::input_handle_of), leads back to its output handle (AMQP 1.0 part 2, sections 2.6.1 to 2.6.6).
pub fn law_of_links<R: LinkRelay>()
    ensures history { let g = R.gives in
        (m : Made) (h : List (SessionCall R)) (v : SessionView R) → LeadsTo g m h v → LinksAgree h }
    ensures shown { let g = R.gives in
        (m : Made) (h : List (SessionCall R)) (v : SessionView R) → LeadsTo g m h v → ShownAgree v.links }
    ensures meet { let g = R.gives in
        (m : Made) (h : List (SessionCall R)) (v : SessionView R) → LeadsTo g m h v → HandlesMeet v.links }
    ensures awaited_once { let g = R.gives in
        (m : Made) (h : List (SessionCall R)) (v : SessionView R) → LeadsTo g m h v → AwaitedOnce h }
{}

/// After the session was asked for a session flow in `Mapped`, the count of the transfers that came since the last one is 0
/// or below half of the incoming window, rounded down. So where the session is asked after each transfer, half of its window
/// is never consumed and not reported.
pub fn law_of_session_flows<R: LinkRelay>()
    ensures { (v w : SessionView R) (item : Option SessionOutgoingItem) → SessionFlowStep v item w → is_mapped v.state ≡ true →
        (w.receiving.unreported ≡ 0) ⊎ (w.receiving.unreported < v.settings.incoming_window / 2) }
{}

/// How two numbers compare, by each way to ask.
#[derive(Clone, Copy, Debug, PartialEq, Eq)]
pub struct Compared {
    /// Whether they are equal: `==`.
    pub equal: bool,
    /// Which comes first: `cmp`.
    pub order: Ordering,
    /// The same by `partial_cmp`, which always knows.
    pub partial_order: Option<Ordering>,
    /// Whether the first is less: `<`.
    pub less: bool,
}

/// Whether two channels that this side sends on are equal, and how they compare: as their numbers do. The first is hashed as its number.
pub fn law_of_outgoing_channels<H: Hasher>(
    outgoing: OutgoingChannel,
    other: OutgoingChannel,
    state: &mut H,
) -> Compared
    ensures equality { result.equal ≡ nat_eq outgoing.0 other.0 }
    ensures order { result.order ≡ nat_cmp outgoing.0 other.0 }
    ensures partial_order { result.partial_order ≡ Some (nat_cmp outgoing.0 other.0) }
    ensures less { result.less ≡ nat_lt outgoing.0 other.0 }
    ensures hash { state.new ≡ fold H.write state.old (fed.u16 outgoing.0) }
{
    outgoing.hash(state);
    Compared {
        equal: outgoing == other,
        order: outgoing.cmp(&other),
        partial_order: outgoing.partial_cmp(&other),
        less: outgoing < other,
    }
}

/// Whether two channels that the peer sends on are equal, and how they compare: as their numbers do. The first is hashed as its number.
pub fn law_of_incoming_channels<H: Hasher>(
    incoming: IncomingChannel,
    other: IncomingChannel,
    state: &mut H,
) -> Compared
    ensures equality { result.equal ≡ nat_eq incoming.0 other.0 }
    ensures order { result.order ≡ nat_cmp incoming.0 other.0 }
    ensures partial_order { result.partial_order ≡ Some (nat_cmp incoming.0 other.0) }
    ensures less { result.less ≡ nat_lt incoming.0 other.0 }
    ensures hash { state.new ≡ fold H.write state.old (fed.u16 incoming.0) }
{
    incoming.hash(state);
    Compared {
        equal: incoming == other,
        order: incoming.cmp(&other),
        partial_order: incoming.partial_cmp(&other),
        less: incoming < other,
    }
}

/// Whether two handles of this side are equal, and how they compare: as their numbers do. The first is hashed as its number.
pub fn law_of_output_handles<H: Hasher>(
    output: OutputHandle,
    other: OutputHandle,
    state: &mut H,
) -> Compared
    ensures equality { result.equal ≡ nat_eq output.0 other.0 }
    ensures order { result.order ≡ nat_cmp output.0 other.0 }
    ensures partial_order { result.partial_order ≡ Some (nat_cmp output.0 other.0) }
    ensures less { result.less ≡ nat_lt output.0 other.0 }
    ensures hash { state.new ≡ fold H.write state.old (fed.u32 output.0) }
{
    output.hash(state);
    Compared {
        equal: output == other,
        order: output.cmp(&other),
        partial_order: output.partial_cmp(&other),
        less: output < other,
    }
}

/// Whether two handles of the peer are equal, and how they compare: as their numbers do. The first is hashed as its number.
pub fn law_of_input_handles<H: Hasher>(
    input: InputHandle,
    other: InputHandle,
    state: &mut H,
) -> Compared
    ensures equality { result.equal ≡ nat_eq input.0 other.0 }
    ensures order { result.order ≡ nat_cmp input.0 other.0 }
    ensures partial_order { result.partial_order ≡ Some (nat_cmp input.0 other.0) }
    ensures less { result.less ≡ nat_lt input.0 other.0 }
    ensures hash { state.new ≡ fold H.write state.old (fed.u32 input.0) }
{
    input.hash(state);
    Compared {
        equal: input == other,
        order: input.cmp(&other),
        partial_order: input.partial_cmp(&other),
        less: input < other,
    }
}
