//! A pair of sessions, one at each end, without a network: what one hands out is on its way to the other, in order (AMQP 1.0
//! part 2, sections 2.5 and 2.5.6).

ghost use Rattle.std.specs.Prelude.{◌≡◌, ◌<◌, ◌^◌, length, string_bytes};
ghost use Rattle.amqp_session.specs.Pair.{new_pair, session_at, way_to, AllocateLinkStep, BeginStep, AttachStep, FlowStep, TransferStep, ArriveStep, PairHolds};

mod calls;
mod debug;

use self::calls::{arrive_at, attach_at, begin_at, flow_at, transfer_at};
use crate::error::{AllocLinkError, SessionInnerError};
use crate::flow::LinkFlow;
use crate::frame::SessionFrame;
use crate::numbers::{InputHandle, OutgoingChannel, OutputHandle};
use crate::relay::LinkRelay;
use crate::session::Session;
use crate::session::held::RequestedTransfer;
use crate::settings::SessionSettings;
use amqp_types::{Attach, SessionState, Transfer};
use bytes::Bytes;
use std::alloc::Global;
use std::collections::VecDeque;
use std::marker::Model;

/// A side of a pair: which of its two sessions is meant.
#[derive(Clone, Copy, Debug, PartialEq, Eq)]
pub enum Side {
    /// The session that [`SessionPair::new`] makes of its first settings.
    A,
    /// The session that it makes of its second settings.
    B,
}

/// Two sessions, each the other's peer, and the frames on the way to each.
///
/// ```
/// let mut pair: SessionPair<R> = SessionPair::new(alloc, SessionSettings::new(), SessionSettings::new());
/// pair.begin(Side::A)?;
/// pair.arrive(Side::B)?; // A's Begin comes to B
/// pair.begin(Side::B)?;
/// pair.arrive(Side::A)?; // B's Begin comes to A: both sessions are in Mapped
/// ```
#[derive(Drop)]
pub struct SessionPair<R> {
    a: Session<R>,
    b: Session<R>,
    to_a: VecDeque<SessionFrame>,
    to_b: VecDeque<SessionFrame>,
}

impl<R> Model for SessionPair<R> {
    ghost use Rattle.std.specs.Coded.{codes};
    ghost use Rattle.amqp_session.specs.Links.{links_code};
    ghost use Rattle.amqp_session.specs.Pair.{PairView};
    ghost use Rattle.amqp_session.specs.PairLedger.{Tallies, core};

    ghost Value = { PairView R };

    ghost coded = { Prim.hlevel (codes, links_code) };

    ghost view = { λ p. record { a = p.a.view; b = p.b.view; to_a = p.to_a.items; to_b = p.to_b.items } };

    ghost invariant = { λ p. Tallies (core p.a.view) (core p.b.view) p.to_a.items p.to_b.items };
}

/// Both numbers are of four bytes: the proof reads it, and the code does nothing.
fn note_range(first: u32, window: u32)
    ensures { (first < 2 ^ 32) × (window < 2 ^ 32) }
{}

impl<R: LinkRelay> SessionPair<R> {
    /// Two sessions in `Unmapped` with these settings, each on channel 0, and nothing on the way. Takes no memory.
    pub fn new(alloc: Global, a: SessionSettings, b: SessionSettings) -> SessionPair<R>
        ensures view { result ≡ new_pair a b }
        ensures holds { PairHolds result }
    {
        note_range(a.next_outgoing_id, a.incoming_window);
        note_range(b.next_outgoing_id, b.incoming_window);
        SessionPair {
            a: Session::new(alloc, a, OutgoingChannel(0), SessionState::Unmapped, None),
            b: Session::new(alloc, b, OutgoingChannel(0), SessionState::Unmapped, None),
            to_a: VecDeque::new(alloc),
            to_b: VecDeque::new(alloc),
        }
    }

    /// The session of a side, to be looked at.
    pub fn session(&self, side: Side) -> &Session<R>
        ensures view { result.now.view ≡ session_at side self.now }
        ensures holds { PairHolds self.now }
    {
        match side {
            Side::A => &self.a,
            Side::B => &self.b,
        }
    }

    /// How many frames are on the way to a side.
    pub fn on_the_way(&self, side: Side) -> usize
        ensures value { result ≡ length (way_to side self.now) }
        ensures holds { PairHolds self.now }
    {
        match side {
            Side::A => self.to_a.len(),
            Side::B => self.to_b.len(),
        }
    }

    /// Allots an output handle for a link of a side, as [`Session::allocate_link`] does, and is refused as it is.
    pub fn allocate_link(
        &mut self,
        side: Side,
        name: String,
        relay: Option<R>,
    ) -> Result<OutputHandle, AllocLinkError>
        ensures step { AllocateLinkStep R.gives side (string_bytes name) relay result self.old self.new }
        ensures holds { PairHolds self.new }
    {
        match side {
            Side::A => self.a.allocate_link(name, relay),
            Side::B => self.b.allocate_link(name, relay),
        }
    }

    /// A side sends its Begin, which is then on the way to the other: as [`Session::send_begin`].
    ///
    /// `IllegalState` in any state of the session but `Unmapped` and `BeginReceived`, whatever the memory. Else `OutOfMemory`
    /// where memory is refused. Nothing changes then.
    pub fn begin(&mut self, side: Side) -> Result<(), SessionInnerError>
        ensures step { BeginStep R.gives side result self.old self.new }
        ensures holds { PairHolds self.new }
    {
        match side {
            Side::A => begin_at(&mut self.a, &mut self.to_b),
            Side::B => begin_at(&mut self.b, &mut self.to_a),
        }
    }

    /// A side sends an attach, which is then on the way to the other.
    ///
    /// `IllegalState` outside `Mapped`. `OutOfMemory` where memory is refused. Nothing changes then.
    pub fn send_attach(&mut self, side: Side, attach: Attach) -> Result<(), SessionInnerError>
        ensures step { AttachStep R.gives side attach result self.old self.new }
        ensures holds { PairHolds self.new }
    {
        match side {
            Side::A => attach_at(&self.a, attach, &mut self.to_b),
            Side::B => attach_at(&self.b, attach, &mut self.to_a),
        }
    }

    /// A side sends a link's flow, which is then on the way to the other.
    ///
    /// `IllegalState` outside `Mapped`. `OutOfMemory` where memory is refused. Nothing changes then.
    pub fn send_flow(&mut self, side: Side, flow: LinkFlow) -> Result<(), SessionInnerError>
        ensures step { FlowStep R.gives side flow result self.old self.new }
        ensures holds { PairHolds self.new }
    {
        match side {
            Side::A => flow_at(&self.a, flow, &mut self.to_b),
            Side::B => flow_at(&self.b, flow, &mut self.to_a),
        }
    }

    /// A side takes a transfer for the link of an input handle, as [`Session::on_outgoing_transfer`] does: what its session then
    /// hands out is on the way to the other.
    ///
    /// `IllegalState` outside `Mapped`, and where the first transfer of a delivery has no tag, whatever the memory. Else
    /// `OutOfMemory` where memory is refused. Nothing changes then.
    pub fn send_transfer(
        &mut self,
        side: Side,
        input_handle: InputHandle,
        transfer: Transfer,
        payload: Bytes,
        is_first: bool,
    ) -> Result<(), SessionInnerError>
        ensures step { TransferStep R.gives side
            (record { input_handle = input_handle.0; transfer = transfer; payload = payload; is_first = is_first })
            result self.old self.new }
        ensures holds { PairHolds self.new }
    {
        let requested = RequestedTransfer {
            input_handle,
            transfer,
            payload,
            is_first,
        };
        match side {
            Side::A => transfer_at(&mut self.a, requested, &mut self.to_b),
            Side::B => transfer_at(&mut self.b, requested, &mut self.to_a),
        }
    }

    /// The first frame on the way to a side, if any, comes to its session; what the session hands out is on the way to the
    /// other. After an accepted transfer the session is asked for a session flow.
    ///
    /// `Ok` where no frame is on the way: nothing changes then. `OutOfMemory` where memory for what may go out is refused: nothing changes
    /// then either, and the frame is still on the way. Else the session's answer; a frame that it refuses is gone.
    pub fn arrive(&mut self, side: Side) -> Result<(), SessionInnerError>
        ensures step { ArriveStep R.gives side result self.old self.new }
        ensures holds { PairHolds self.new }
    {
        match side {
            Side::A => arrive_at(&mut self.a, &mut self.to_a, &mut self.to_b),
            Side::B => arrive_at(&mut self.b, &mut self.to_b, &mut self.to_a),
        }
    }
}
