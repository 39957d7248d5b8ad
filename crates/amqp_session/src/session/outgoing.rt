//! What a session sends for its links, and its own flows (AMQP 1.0 part 2, section 2.5.6).

ghost use Rattle.std.specs.Prelude.{◌≡◌, ◌≤◌, ◌+◌, ◌/◌, [], length, true, OnOk, OnErr};
ghost use Rattle.std.specs.VecDeque.{deque_len, deque_capacity};
ghost use Rattle.amqp_memory.specs.Refusal.{SomeRefused};
ghost use Rattle.amqp_session.specs.Session.{session_flow, flow_frame};
ghost use Rattle.amqp_session.specs.States.{is_mapped};
ghost use Rattle.amqp_session.specs.Step.{IsUntagged, SendFlowStep, SendTransferStep, SessionFlowStep};

use super::Session;
use super::held::{RequestedTransfer, tag_to_keep};
use crate::error::SessionInnerError;
use crate::flow::LinkFlow;
use crate::frame::{SessionFrame, SessionFrameBody, SessionOutgoingItem};
use crate::numbers::InputHandle;
use crate::relay::LinkRelay;
use amqp_types::{Flow, SessionState, Transfer};
use bytes::Bytes;
use std::alloc::AllocError;
use std::collections::VecDeque;

impl<R: LinkRelay> Session<R> {
    /// The frame of a link's flow, with the session's numbers and windows (section 2.7.4). Takes no memory, and changes nothing.
    pub fn on_outgoing_flow(&self, flow: LinkFlow) -> SessionFrame
        ensures { SendFlowStep self.now.view flow result self.now.view }
    {
        SessionFrame::new(
            self.outgoing_channel.0,
            SessionFrameBody::Flow(Flow {
                handle: Some(flow.handle),
                delivery_count: flow.delivery_count,
                link_credit: flow.link_credit,
                available: flow.available,
                drain: flow.drain,
                echo: flow.echo,
                properties: flow.properties,
                ..self.session_flow()
            }),
        )
    }

    /// Takes a transfer for the link of an input handle, with its payload: the first of its delivery, or a later one.
    ///
    /// It waits while the peer's window is used up (`None`). Else those that wait go out first, and then it, while the window
    /// lasts. A first transfer gets the number of the next delivery as it goes out, and the delivery is open from then on
    /// unless it is settled already. Any other transfer has no delivery-id, whatever it came with.
    ///
    /// It counts once in the window, also where an encoder cuts it into several frames, which the peer counts one by one. A caller that
    /// keeps the window on the wire splits a delivery beforehand (`split_delivery` of `amqp_frames`; part 2, section 2.6.14).
    ///
    /// `IllegalState` outside `Mapped`, and where the first transfer of a delivery has no tag. `OutOfMemory` where memory is
    /// refused. Nothing changes then.
    pub fn on_outgoing_transfer(
        &mut self,
        input_handle: InputHandle,
        transfer: Transfer,
        payload: Bytes,
        is_first: bool,
    ) -> Result<Option<SessionOutgoingItem>, SessionInnerError>
        ensures step { SendTransferStep self.old.view
            (record { input_handle = input_handle.0; transfer = transfer; payload = payload; is_first = is_first })
            result self.new.view }
        ensures walk { self.new.last_walk ≡ self.old.last_walk }
        ensures reads { self.new.reads ≡ self.old.reads }
    {
        if !self.can_send() || (is_first && transfer.delivery_tag.is_none()) {
            drop(transfer);
            return Err(SessionInnerError::IllegalState);
        }
        if !self.sending.can_send_now() {
            return self.queue_and_drain(RequestedTransfer {
                input_handle,
                transfer,
                payload,
                is_first,
            });
        }
        let Ok(()) = self.sent.reserve(1) else {
            drop(transfer);
            return Err(SessionInnerError::OutOfMemory);
        };
        let Ok(tag) = tag_to_keep(&transfer, is_first) else {
            drop(transfer);
            return Err(SessionInnerError::OutOfMemory);
        };
        Ok(Some(SessionOutgoingItem::SingleFrame(
            self.sending.send_alone(
                self.outgoing_channel,
                input_handle,
                transfer,
                payload,
                is_first,
                tag,
                &mut self.sent,
            ),
        )))
    }

    /// Makes room in a list of frames for what one call may hand out: all that wait, and one frame more.
    pub(crate) fn make_room(&self, frames: &mut VecDeque<SessionFrame>) -> Result<(), AllocError>
        ensures items { frames.new.items ≡ frames.old.items }
        ensures room { OnOk result (deque_len frames.new + (length self.now.view.sending.held + 1) ≤ deque_capacity frames.new) }
        ensures refused { OnErr result SomeRefused }
    {
        self.sending.make_room(frames)
    }

    /// Takes a transfer that does not go out alone.
    // No part of `on_outgoing_transfer`, which would pay at its entry for the size of these locals.
    #[inline(never)]
    fn queue_and_drain(
        &mut self,
        requested: RequestedTransfer,
    ) -> Result<Option<SessionOutgoingItem>, SessionInnerError>
        requires mapped { is_mapped self.old.view.state ≡ true }
        requires tagged { ¬ (IsUntagged requested) }
        requires waits { self.old.view.sending.held ≡ [] → self.old.view.sending.remote_incoming_window ≡ 0 }
        ensures step { SendTransferStep self.old.view requested result self.new.view }
        ensures walk { self.new.last_walk ≡ self.old.last_walk }
        ensures reads { self.new.reads ≡ self.old.reads }
    {
        let channel = self.outgoing_channel;
        match self
            .sending
            .queue_and_drain(self.alloc, channel, requested, &mut self.sent)
        {
            Ok(item) => Ok(item),
            Err(_) => Err(SessionInnerError::OutOfMemory),
        }
    }

    /// A flow of the session alone, in `Mapped`, where the transfers that came since the last one are at least half of the
    /// incoming window, rounded down: it opens the peer's window again. `None` where fewer came, and in every other state. Takes no
    /// memory.
    pub fn maybe_outgoing_session_flow(&mut self) -> Option<SessionOutgoingItem>
        ensures step { SessionFlowStep self.old.view result self.new.view }
        ensures walk { self.new.last_walk ≡ self.old.last_walk }
        ensures reads { self.new.reads ≡ self.old.reads }
    {
        let is_due = matches!(self.state, SessionState::Mapped)
            && self.settings.incoming_window / 2 <= self.receiving.unreported;
        if !is_due {
            return None;
        }
        let flow = self.session_flow();
        self.receiving.set_reported();
        Some(SessionOutgoingItem::SingleFrame(SessionFrame::new(
            self.outgoing_channel.0,
            SessionFrameBody::Flow(flow),
        )))
    }

    /// What a flow of the session alone says.
    pub(super) fn session_flow(&self) -> Flow
        ensures { result ≡ session_flow self.now.view }
    {
        Flow {
            next_incoming_id: Some(self.receiving.next_incoming_id),
            incoming_window: self.settings.incoming_window,
            next_outgoing_id: self.sending.next_outgoing_id(),
            outgoing_window: self.settings.outgoing_window,
            handle: None,
            delivery_count: None,
            link_credit: None,
            available: None,
            drain: false,
            echo: false,
            properties: None,
        }
    }
}
