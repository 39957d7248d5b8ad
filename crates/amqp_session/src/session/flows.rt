//! What a session takes from its peer's Flow (AMQP 1.0 part 2, sections 2.5.6 and 2.7.4).

ghost use Rattle.std.specs.Prelude.{◌≡◌, ◌≤◌, ◌<◌, ◌^◌, ◌+◌, ◌++◌, ℕ, [], true, false, Option, Some, None, Err, IsSome, IfSome, IfNone, IfOk, OnOk, OnErr, length, vec_len, vec_capacity};
ghost use Rattle.std.specs.Option.{option_map};
ghost use Rattle.amqp_memory.specs.Refusal.{SomeRefused};
ghost use Rattle.amqp_session.specs.Items.{HandsOut, is_some_list, first_frame};
ghost use Rattle.amqp_session.specs.States.{is_mapped};
ghost use Rattle.amqp_session.specs.Links.{attached_at};
ghost use Rattle.amqp_session.specs.Relay.{FlowQuestion};
ghost use Rattle.amqp_session.specs.Sending.{let_out, drained, opened_by, ready_count, moved};
ghost use Rattle.amqp_session.specs.Receiving.{numbered_anew};
ghost use Rattle.amqp_session.specs.Session.{flow_frame, lets};
ghost use Rattle.amqp_session.specs.Step.{FlowStep, LinkFlowStep, FlowUnasked, FlowFits, flow_base, flow_moved};
ghost use Rattle.amqp_session.specs.Room.{FlowLacks, LacksFrames, LinkFlowLacks};
ghost use Rattle.amqp_session.specs.Inner.Flows.{moved_by, numbers_of};

use super::Session;
use super::receiving::Receiving;
use super::transfers::Sending;
use crate::deliveries::Deliveries;
use crate::error::{LinkRelayError, SessionInnerError};
use crate::flow::LinkFlow;
use crate::frame::{SessionFrame, SessionOutgoingItem};
use crate::numbers::{InputHandle, OutgoingChannel};
use crate::relay::LinkRelay;
use amqp_memory::vector_with;
use amqp_types::Flow;
use std::alloc::{AllocError, Global};

/// The numbers of a flow, by which the windows move.
#[derive(Clone, Copy)]
pub(crate) struct FlowNumbers {
    /// The number from which the peer's window begins.
    pub(crate) base: u32,
    pub(crate) incoming_window: u32,
    pub(crate) next_outgoing_id: u32,
    pub(crate) outgoing_window: u32,
}

impl FlowNumbers {
    /// These, each of four bytes.
    fn new(
        base: u32,
        incoming_window: u32,
        next_outgoing_id: u32,
        outgoing_window: u32,
    ) -> FlowNumbers
        ensures is { result ≡ record { base = base; incoming_window = incoming_window; next_outgoing_id = next_outgoing_id; outgoing_window = outgoing_window } }
        ensures base { base < 2 ^ 32 }
        ensures incoming_window { incoming_window < 2 ^ 32 }
        ensures next_outgoing_id { next_outgoing_id < 2 ^ 32 }
        ensures outgoing_window { outgoing_window < 2 ^ 32 }
    {
        FlowNumbers {
            base,
            incoming_window,
            next_outgoing_id,
            outgoing_window,
        }
    }

    /// Moves both windows.
    fn put(self, sending: &mut Sending, receiving: &mut Receiving)
        ensures sending { sending.new ≡ moved sending.old self.base self.incoming_window }
        ensures receiving { receiving.new ≡ numbered_anew self.next_outgoing_id self.outgoing_window receiving.old }
    {
        sending.move_window(self.base, self.incoming_window);
        receiving.set_numbers(self.next_outgoing_id, self.outgoing_window);
    }
}

/// Memory for what a flow lets out: for a list of frames, and for the deliveries that they open. None is taken where nothing
/// goes out.
fn reserve_for_drain(
    alloc: Global,
    count: usize,
    deliveries: &mut Deliveries,
) -> Result<Vec<SessionFrame>, AllocError>
    requires { count < 2 ^ 32 }
    ensures frames { IfOk result (λ frames. frames.items ≡ []) }
    ensures room { IfOk result (λ frames. vec_len frames + count ≤ vec_capacity frames) }
    ensures first { IfOk result (λ frames. 0 < count → vec_len frames + count + 1 ≤ vec_capacity frames) }
    ensures records { OnOk result (length deliveries.new.rows + count ≤ deliveries.new.capacity) }
    ensures rows { deliveries.new.rows ≡ deliveries.old.rows }
    ensures reads { deliveries.new.reads ≡ deliveries.old.reads }
    ensures wanted { OnErr result (0 < count) }
    ensures refused { OnErr result SomeRefused }
{
    if count == 0 {
        deliveries.reserve(0)?;
        return Ok(Vec::new(alloc));
    }
    let frames = vector_with(alloc, count + 1)?;
    deliveries.reserve(count)?;
    Ok(frames)
}

/// Hands out a frame that stands first, if any, and after it what the window lets out.
fn emit_drained(
    channel: OutgoingChannel,
    first: Option<SessionFrame>,
    sending: &mut Sending,
    deliveries: &mut Deliveries,
    room: Vec<SessionFrame>,
) -> Option<SessionOutgoingItem>
    requires empty { room.items ≡ [] }
    requires room { vec_len room + ready_count sending.old ≤ vec_capacity room }
    requires first { 0 < ready_count sending.old → vec_len room + ready_count sending.old + 1 ≤ vec_capacity room }
    requires records { length deliveries.old.rows + ready_count sending.old ≤ deliveries.old.capacity }
    ensures item { HandsOut (is_some_list (let_out channel.0 sending.old)) (first_frame first ++ let_out channel.0 sending.old) result }
    ensures sending { sending.new ≡ drained sending.old }
    ensures opened { deliveries.new.rows ≡ opened_by sending.old deliveries.old.rows }
    ensures reads { deliveries.new.reads ≡ deliveries.old.reads }
{
    let mut frames = room;
    if sending.ready() == 0 {
        sending.drain(channel, &mut frames, deliveries);
        return alone(first);
    }
    if let Some(frame) = first {
        frames.push(frame).unwrap();
    }
    sending.drain(channel, &mut frames, deliveries);
    Some(SessionOutgoingItem::MultipleFrames(frames))
}

/// One frame alone, if any.
fn alone(frame: Option<SessionFrame>) -> Option<SessionOutgoingItem>
    ensures { HandsOut false (first_frame frame) result }
{
    match frame {
        None => None,
        Some(frame) => Some(SessionOutgoingItem::SingleFrame(frame)),
    }
}

impl<R: LinkRelay> Session<R> {
    /// Takes the peer's Flow: it gives both windows and the peer's next number, in every state and whatever is then
    /// answered. A flow that names a link goes on to its relay. What goes out is the relay's flow, if any, and after it, in
    /// `Mapped`, the transfers that waited and that the new window lets out: a list of frames where a transfer goes out.
    ///
    /// The new window for transfers of this side is `incoming_window` less the transfers that went out since the flow's
    /// `next_incoming_id`, never below 0. Without a `next_incoming_id` they are counted from this side's first number.
    ///
    /// `UnattachedHandle` where no link is attached under the handle. `OutOfMemory` where memory is refused: it is taken for the transfers
    /// that are let out, before the relay is asked, and none where none is let out. An error of the relay is passed on. Nothing goes out
    /// then, and only the windows and numbers have moved.
    pub fn on_incoming_flow(
        &mut self,
        flow: Flow,
    ) -> Result<Option<SessionOutgoingItem>, SessionInnerError>
        ensures step { (asked : Option (FlowQuestion R)) × FlowStep R.gives.flow_gives self.old.view flow asked result self.new.view }
        ensures walk { self.new.last_walk ≡ self.old.last_walk }
        ensures reads { self.new.reads ≡ self.old.reads }
    {
        let numbers = self.numbers_of(&flow);
        match self.on_incoming_flow_if_room(flow) {
            Some(answer) => answer,
            None => {
                numbers.put(&mut self.sending, &mut self.receiving);
                Err(SessionInnerError::OutOfMemory)
            }
        }
    }

    /// [`Session::on_incoming_flow`], but where memory is refused for the transfers that are let out: then the answer is `None`, and nothing
    /// has changed, so that the flow may come again. Else `OutOfMemory` is an error of the relay alone.
    pub fn on_incoming_flow_if_room(
        &mut self,
        flow: Flow,
    ) -> Option<Result<Option<SessionOutgoingItem>, SessionInnerError>>
        ensures none { IfNone result ((self.new ≡ self.old) × LacksFrames self.old.view flow) }
        ensures step { IfSome result (λ r. (asked : Option (FlowQuestion R))
            × FlowStep R.gives.flow_gives self.old.view flow asked r self.new.view) }
        ensures memory { IfSome result (λ r. FlowLacks R.gives.flow_gives flow flow.handle r) }
        ensures walk { self.new.last_walk ≡ self.old.last_walk }
        ensures reads { self.new.reads ≡ self.old.reads }
    {
        let numbers = self.numbers_of(&flow);
        match flow.handle {
            None => self.flow_of_session(numbers),
            Some(handle) => self.flow_of_link(
                InputHandle::from(handle),
                LinkFlow::of(handle, flow),
                numbers,
            ),
        }
    }

    /// The numbers that a flow says.
    fn numbers_of(&self, flow: &Flow) -> FlowNumbers
        ensures numbers { result ≡ numbers_of self.now.view flow.now }
        ensures fits { FlowFits self.now.view flow.now }
    {
        FlowNumbers::new(
            flow.next_incoming_id
                .unwrap_or(self.settings.next_outgoing_id),
            flow.incoming_window,
            flow.next_outgoing_id,
            flow.outgoing_window,
        )
    }

    /// What a flow lets out that names no link.
    fn flow_of_session(
        &mut self,
        numbers: FlowNumbers,
    ) -> Option<Result<Option<SessionOutgoingItem>, SessionInnerError>>
        ensures none { IfNone result ((self.new ≡ self.old) × ¬ (lets (moved_by numbers self.old.view) ≡ []) × SomeRefused) }
        ensures step { IfSome result (λ r. FlowUnasked (moved_by numbers self.old.view) None r self.new.view) }
        ensures ok { IfSome result (λ r. OnErr r ⊥) }
        ensures walk { self.new.last_walk ≡ self.old.last_walk }
        ensures reads { self.new.reads ≡ self.old.reads }
    {
        if !self.can_send() {
            numbers.put(&mut self.sending, &mut self.receiving);
            return Some(Ok(None));
        }
        let ready = self
            .sending
            .ready_from(numbers.base, numbers.incoming_window);
        let Ok(room) = reserve_for_drain(self.alloc, ready, &mut self.sent) else {
            return None;
        };
        numbers.put(&mut self.sending, &mut self.receiving);
        let channel = self.outgoing_channel;
        Some(Ok(emit_drained(channel, None, &mut self.sending, &mut self.sent, room)))
    }

    /// What a flow for a link lets out.
    fn flow_of_link(
        &mut self,
        input: InputHandle,
        flow: LinkFlow,
        numbers: FlowNumbers,
    ) -> Option<Result<Option<SessionOutgoingItem>, SessionInnerError>>
        ensures none { IfNone result ((self.new ≡ self.old) × IsSome (attached_at input.0 self.old.view.links)
            × ¬ (lets (moved_by numbers self.old.view) ≡ []) × SomeRefused) }
        ensures step { IfSome result (λ r. (asked : Option (FlowQuestion R))
            × LinkFlowStep R.gives.flow_gives (moved_by numbers self.old.view) input.0 flow asked r self.new.view) }
        ensures memory { IfSome result (λ r. LinkFlowLacks R.gives.flow_gives flow r) }
        ensures walk { self.new.last_walk ≡ self.old.last_walk }
        ensures reads { self.new.reads ≡ self.old.reads }
    {
        if !self.links.is_attached(input) {
            drop(flow);
            numbers.put(&mut self.sending, &mut self.receiving);
            return Some(Err(SessionInnerError::UnattachedHandle));
        }
        if self.can_send() {
            self.flow_of_mapped(input, flow, numbers)
        } else {
            Some(self.flow_of_unmapped(input, flow, numbers))
        }
    }

    /// In `Mapped` the relay's flow goes out, and after it what the window lets out.
    fn flow_of_mapped(
        &mut self,
        input: InputHandle,
        flow: LinkFlow,
        numbers: FlowNumbers,
    ) -> Option<Result<Option<SessionOutgoingItem>, SessionInnerError>>
        requires mapped { is_mapped self.old.view.state ≡ true }
        requires attached { IsSome (attached_at input.0 self.old.view.links) }
        ensures none { IfNone result ((self.new ≡ self.old) × ¬ (lets (moved_by numbers self.old.view) ≡ []) × SomeRefused) }
        ensures step { IfSome result (λ r. (asked : Option (FlowQuestion R))
            × LinkFlowStep R.gives.flow_gives (moved_by numbers self.old.view) input.0 flow asked r self.new.view) }
        ensures memory { IfSome result (λ r. LinkFlowLacks R.gives.flow_gives flow r) }
        ensures walk { self.new.last_walk ≡ self.old.last_walk }
        ensures reads { self.new.reads ≡ self.old.reads }
    {
        let ready = self
            .sending
            .ready_from(numbers.base, numbers.incoming_window);
        let Ok(room) = reserve_for_drain(self.alloc, ready, &mut self.sent) else {
            drop(flow);
            return None;
        };
        numbers.put(&mut self.sending, &mut self.receiving);
        match self.links.ask_flow(input, flow) {
            Err(error) => Some(Err(SessionInnerError::from(error))),
            Ok(echo) => {
                let first = self.echo(echo);
                Some(Ok(emit_drained(
                    self.outgoing_channel,
                    first,
                    &mut self.sending,
                    &mut self.sent,
                    room,
                )))
            }
        }
    }

    /// Outside `Mapped` the relay's flow alone goes out.
    fn flow_of_unmapped(
        &mut self,
        input: InputHandle,
        flow: LinkFlow,
        numbers: FlowNumbers,
    ) -> Result<Option<SessionOutgoingItem>, SessionInnerError>
        requires mapped { is_mapped self.old.view.state ≡ false }
        requires attached { IsSome (attached_at input.0 self.old.view.links) }
        ensures step { (asked : Option (FlowQuestion R))
            × LinkFlowStep R.gives.flow_gives (moved_by numbers self.old.view) input.0 flow asked result self.new.view }
        ensures memory { LinkFlowLacks R.gives.flow_gives flow result }
        ensures walk { self.new.last_walk ≡ self.old.last_walk }
        ensures reads { self.new.reads ≡ self.old.reads }
    {
        numbers.put(&mut self.sending, &mut self.receiving);
        match self.links.ask_flow(input, flow) {
            Err(error) => Err(SessionInnerError::from(error)),
            Ok(echo) => Ok(alone(self.echo(echo))),
        }
    }

    /// The frame of the relay's flow, if any.
    fn echo(&self, flow: Option<LinkFlow>) -> Option<SessionFrame>
        ensures { result ≡ option_map (flow_frame self.now.view) flow }
    {
        match flow {
            None => None,
            Some(flow) => Some(self.on_outgoing_flow(flow)),
        }
    }
}
