//! The sending half of a session: the one place that numbers a transfer and lowers the window.

ghost use Rattle.std.specs.Prelude.{◌≡◌, ℕ, ◌+◌, ◌-◌, ◌^◌, ◌%◌, ◌<◌, ◌≤◌, ◌++◌, [], ◌∷◌, length, take, drop, vec_len, vec_capacity, unwrap_or, OnOk, OnErr, IfOk, IsTrue, false};
ghost use Rattle.std.specs.Option.{option_map};
ghost use Rattle.std.specs.VecDeque.{deque_len, deque_capacity};
ghost use Rattle.amqp_memory.specs.Refusal.{SomeRefused};
ghost use Rattle.amqp_session.specs.Transfers.{numbered, firsts, opened, kept_tag};
ghost use Rattle.amqp_session.specs.Deliveries.{with_record};
ghost use Rattle.amqp_session.specs.Items.{HandsOut};
ghost use Rattle.amqp_session.specs.Step.{is_some_held};
ghost use Rattle.amqp_session.specs.Sending.{new_sending, joined, begun, moved, ready_count, let_out, opened_by, drained, number_shown};

use super::held::{HeldTransfer, RequestedTransfer, frame_of, next_delivery, record_of};
use crate::deliveries::{Deliveries, Delivery};
use crate::frame::{SessionFrame, SessionOutgoingItem};
use crate::numbers::{InputHandle, OutgoingChannel};
use amqp_memory::{more_in_queue, more_in_queue_beside, vector_with};
use amqp_types::{DeliveryTag, Transfer};
use bytes::Bytes;
use std::alloc::{AllocError, Global};
use std::collections::VecDeque;
use std::marker::Model;

/// The numbers of the transfers and deliveries that this side sends, the peer's window, and the transfers that wait for it
/// (AMQP 1.0 part 2, section 2.5.6).
#[derive(Drop)]
pub(crate) struct Sending {
    next_outgoing_id: u32,
    remote_incoming_window: u32,
    next_delivery: u32,
    /// The number of the next delivery that is accepted: past those that wait. It is kept, so that nobody counts what waits.
    next_accepted: u32,
    held: VecDeque<HeldTransfer>,
}

impl Model for Sending {
    ghost use Rattle.std.specs.Prelude.{◌≡◌, ◌+◌, ◌%◌, ◌^◌};
    ghost use Rattle.amqp_session.specs.Items.{HandsOut};
    ghost use Rattle.amqp_session.specs.Step.{is_some_held};
    ghost use Rattle.amqp_session.specs.Sending.{SendingView};
    ghost use Rattle.amqp_session.specs.Transfers.{firsts};

    ghost Value = { SendingView };

    ghost view = { λ s. record {
      next_outgoing_id = s.next_outgoing_id;
      remote_incoming_window = s.remote_incoming_window;
      next_delivery = s.next_delivery;
      held = s.held.items;
    } };

    ghost invariant = { λ s. s.next_accepted ≡ (s.next_delivery + firsts s.held.items) % 2 ^ 32 };
}

/// How many transfers there may be room for that none waits in: a place for each of a few costs less than to ask for it again and again.
const SPARE: usize = 16;

/// Gives back room that those that wait do not need: what many of them once took does not stay for the life of the session. There is room for
/// four times as many at most, or for a few. It takes no memory.
fn give_back(held: &mut VecDeque<HeldTransfer>)
    ensures { held.new.items ≡ held.old.items }
{
    let len = held.len();
    if held.capacity() > SPARE && held.capacity() / 4 >= len {
        held.shrink_to(len * 2);
    }
}

/// Records the delivery, if any.
fn record_opened(deliveries: &mut Deliveries, delivery: Option<Delivery>)
    requires room { length deliveries.old.rows < deliveries.old.capacity }
    ensures rows { deliveries.new.rows ≡ with_record delivery deliveries.old.rows }
    ensures capacity { deliveries.old.capacity ≤ deliveries.new.capacity }
    ensures reads { deliveries.new.reads ≡ deliveries.old.reads }
{
    if let Some(delivery) = delivery {
        deliveries.record(delivery);
    }
}

/// Hands out the first `count` that wait, each delivery numbered once, and records the deliveries that they open.
fn hand_out(
    held: &mut VecDeque<HeldTransfer>,
    frames: &mut Vec<SessionFrame>,
    deliveries: &mut Deliveries,
    channel: OutgoingChannel,
    count: usize,
    first: u32,
) -> u32
    requires enough { count ≤ length held.old.items }
    requires room { vec_len frames.old + count ≤ vec_capacity frames.old }
    requires records { length deliveries.old.rows + count ≤ deliveries.old.capacity }
    ensures held { held.new.items ≡ drop count held.old.items }
    ensures frames { frames.new.items ≡ frames.old.items ++ numbered channel.0 first (take count held.old.items) }
    ensures opened { deliveries.new.rows ≡ opened first (take count held.old.items) deliveries.old.rows }
    ensures reads { deliveries.new.reads ≡ deliveries.old.reads }
    ensures delivery { result ≡ (first + firsts (take count held.old.items)) % 2 ^ 32 }
{
    let mut delivery = first;
    for i in 0..count {
        let waiting = held.pop_front().unwrap();
        let out = waiting.numbered(channel, delivery);
        delivery = out.next;
        record_opened(deliveries, out.delivery);
        frames.push(out.frame).unwrap();
    }
    delivery
}

impl Sending {
    /// Nothing waits, nothing went out, and the window is 0.
    pub(crate) fn new(alloc: Global, next_outgoing_id: u32) -> Sending
        ensures { result ≡ new_sending next_outgoing_id }
    {
        Sending {
            next_outgoing_id,
            remote_incoming_window: 0,
            next_delivery: 0,
            next_accepted: 0,
            held: VecDeque::new(alloc),
        }
    }

    /// The number of the next transfer.
    pub(crate) fn next_outgoing_id(&self) -> u32
        ensures { result ≡ self.now.next_outgoing_id }
    {
        self.next_outgoing_id
    }

    /// How many transfers may still go out.
    pub(crate) fn remote_incoming_window(&self) -> u32
        ensures { result ≡ self.now.remote_incoming_window }
    {
        self.remote_incoming_window
    }

    /// The number that the next delivery gets whose first transfer is accepted, past those that wait.
    pub(crate) fn next_delivery_number(&self) -> u32
        ensures { result ≡ number_shown self.now }
    {
        self.next_accepted
    }

    /// How many transfers wait.
    pub(crate) fn held_back(&self) -> usize
        ensures { result ≡ length self.now.held }
    {
        self.held.len()
    }

    /// Makes room in a list of frames for all that wait, and for one frame more.
    pub(crate) fn make_room(&self, frames: &mut VecDeque<SessionFrame>) -> Result<(), AllocError>
        ensures items { frames.new.items ≡ frames.old.items }
        ensures room { OnOk result (deque_len frames.new + (length self.now.held + 1) ≤ deque_capacity frames.new) }
        ensures refused { OnErr result SomeRefused }
    {
        more_in_queue_beside(frames, &self.held, self.held.len() + 1)
    }

    /// A received Begin gives the window.
    pub(crate) fn begin_window(&mut self, width: u32)
        ensures begun { self.new ≡ begun self.old width }
        ensures fits { width < 2 ^ 32 }
    {
        self.remote_incoming_window = width;
    }

    /// A received Flow gives the window from `base` on.
    pub(crate) fn move_window(&mut self, base: u32, width: u32)
        ensures moved { self.new ≡ moved self.old base width }
        ensures width { width < 2 ^ 32 }
        ensures base { base < 2 ^ 32 }
    {
        self.remote_incoming_window = width.saturating_sub(
            self.next_outgoing_id.wrapping_sub(base),
        );
    }

    /// How many transfers the window would let out that a received Flow gives.
    pub(crate) fn ready_from(&self, base: u32, width: u32) -> usize
        ensures value { result ≡ ready_count (moved self.now base width) }
        ensures few { result < 2 ^ 32 }
    {
        let window = width.saturating_sub(self.next_outgoing_id.wrapping_sub(base));
        self.held.len().min(window as usize)
    }

    /// How many transfers the window lets out.
    pub(crate) fn ready(&self) -> usize
        ensures value { result ≡ ready_count self.now }
        ensures few { result < 2 ^ 32 }
    {
        self.held.len().min(self.remote_incoming_window as usize)
    }

    /// Hands out what the window lets out, and records the deliveries that it opens.
    pub(crate) fn drain(
        &mut self,
        channel: OutgoingChannel,
        frames: &mut Vec<SessionFrame>,
        deliveries: &mut Deliveries,
    )
        requires room { vec_len frames.old + ready_count self.old ≤ vec_capacity frames.old }
        requires records { length deliveries.old.rows + ready_count self.old ≤ deliveries.old.capacity }
        ensures drained { self.new ≡ drained self.old }
        ensures frames { frames.new.items ≡ frames.old.items ++ let_out channel.0 self.old }
        ensures opened { deliveries.new.rows ≡ opened_by self.old deliveries.old.rows }
        ensures reads { deliveries.new.reads ≡ deliveries.old.reads }
    {
        let count = self.held.len().min(self.remote_incoming_window as usize);
        self.next_delivery = hand_out(
            &mut self.held,
            frames,
            deliveries,
            channel,
            count,
            self.next_delivery,
        );
        give_back(&mut self.held);
        self.next_outgoing_id = self.next_outgoing_id.wrapping_add(count as u32);
        self.remote_incoming_window -= count as u32;
    }

    /// The transfer waits, since the window is used up. When memory is refused nothing changes.
    #[inline(never)]
    fn hold_back(&mut self, held: HeldTransfer) -> Result<(), AllocError>
        requires { self.old.remote_incoming_window ≡ 0 }
        ensures ok { OnOk result (self.new ≡ drained (joined self.old held)) }
        ensures err { OnErr result (self.new ≡ self.old) }
        ensures refused { OnErr result SomeRefused }
    {
        // prover
        let (_next, _delivery) = (self.next_outgoing_id, self.next_delivery);
        more_in_queue(&mut self.held, 1)?;
        self.next_accepted = held.number_after(self.next_accepted);
        self.held.push_back_reserved(held);
        Ok(())
    }

    /// Whether a transfer goes out alone: none waits, and the window is not used up.
    #[inline(always)]
    pub(crate) fn can_send_now(&self) -> bool
        ensures way { IsTrue result → (self.now.held ≡ []) × (0 < self.now.remote_incoming_window) }
        ensures no_way { result ≡ false → self.now.held ≡ [] → self.now.remote_incoming_window ≡ 0 }
    {
        self.remote_incoming_window != 0 && self.held.is_empty()
    }

    /// The transfer goes out alone, with the tag of its record: none waits, and the window is not used up.
    pub(crate) fn send_alone(
        &mut self,
        channel: OutgoingChannel,
        input_handle: InputHandle,
        transfer: Transfer,
        payload: Bytes,
        is_first: bool,
        tag: Option<DeliveryTag>,
        deliveries: &mut Deliveries,
    ) -> SessionFrame
        requires alone { self.old.held ≡ [] }
        requires open_window { 0 < self.old.remote_incoming_window }
        requires records { length deliveries.old.rows < deliveries.old.capacity }
        requires tag { option_map (λ t. t.0) tag ≡ kept_tag is_first transfer }
        ensures frame { let_out channel.0 (joined self.old
            (record { input_handle = input_handle.0; transfer = transfer; payload = payload; is_first = is_first }))
            ≡ result ∷ [] }
        ensures drained { self.new ≡ drained (joined self.old
            (record { input_handle = input_handle.0; transfer = transfer; payload = payload; is_first = is_first })) }
        ensures opened { deliveries.new.rows ≡ opened_by (joined self.old
            (record { input_handle = input_handle.0; transfer = transfer; payload = payload; is_first = is_first }))
            deliveries.old.rows }
        ensures reads { deliveries.new.reads ≡ deliveries.old.reads }
    {
        let delivery = self.next_delivery;
        record_opened(deliveries, record_of(delivery, input_handle, tag));
        self.next_delivery = next_delivery(delivery, is_first);
        self.next_accepted = self.next_delivery;
        self.next_outgoing_id = self.next_outgoing_id.wrapping_add(1);
        self.remote_incoming_window -= 1;
        frame_of(channel, delivery, transfer, payload, is_first)
    }

    /// The transfer joins those that wait, as the last, and the window lets out what it can. When memory is refused nothing changes.
    #[inline(never)]
    fn send_after(
        &mut self,
        alloc: Global,
        channel: OutgoingChannel,
        held: HeldTransfer,
        deliveries: &mut Deliveries,
    ) -> Result<Vec<SessionFrame>, AllocError>
        ensures frames { IfOk result (λ frames. frames.items ≡ let_out channel.0 (joined self.old held)) }
        ensures drained { OnOk result (self.new ≡ drained (joined self.old held)) }
        ensures opened { OnOk result (deliveries.new.rows ≡ opened_by (joined self.old held) deliveries.old.rows) }
        ensures err { OnErr result (self.new ≡ self.old) }
        ensures err_rows { OnErr result (deliveries.new.rows ≡ deliveries.old.rows) }
        ensures reads { deliveries.new.reads ≡ deliveries.old.reads }
        ensures refused { OnErr result SomeRefused }
    {
        more_in_queue(&mut self.held, 1)?;
        let count = (self.held.len() + 1).min(self.remote_incoming_window as usize);
        let mut frames = vector_with(alloc, count)?;
        deliveries.reserve(count)?;
        self.next_accepted = held.number_after(self.next_accepted);
        self.held.push_back_reserved(held);
        self.drain(channel, &mut frames, deliveries);
        Ok(frames)
    }

    /// Takes a transfer that does not go out alone: it waits while the window is used up; else those that wait go out first, and
    /// then it, while the window lasts. On a refusal nothing changes.
    #[inline(always)]
    pub(crate) fn queue_and_drain(
        &mut self,
        alloc: Global,
        channel: OutgoingChannel,
        requested: RequestedTransfer,
        deliveries: &mut Deliveries,
    ) -> Result<Option<SessionOutgoingItem>, AllocError>
        requires waits { self.old.held ≡ [] → self.old.remote_incoming_window ≡ 0 }
        ensures item { IfOk result (λ item. HandsOut (is_some_held self.old.held) (let_out channel.0 (joined self.old requested)) item) }
        ensures drained { OnOk result (self.new ≡ drained (joined self.old requested)) }
        ensures opened { OnOk result (deliveries.new.rows ≡ opened_by (joined self.old requested)
            deliveries.old.rows) }
        ensures err { OnErr result (self.new ≡ self.old) }
        ensures err_rows { OnErr result (deliveries.new.rows ≡ deliveries.old.rows) }
        ensures reads { deliveries.new.reads ≡ deliveries.old.reads }
        ensures refused { OnErr result SomeRefused }
    {
        let held = HeldTransfer::new(requested)?;
        if self.remote_incoming_window == 0 {
            self.hold_back(held)?;
            return Ok(None);
        }
        Ok(Some(SessionOutgoingItem::MultipleFrames(self.send_after(
            alloc, channel, held, deliveries,
        )?)))
    }
}
