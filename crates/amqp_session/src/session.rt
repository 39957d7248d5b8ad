//! A session: its state, its numbers, its links and its open deliveries (AMQP 1.0 part 2, section 2.5).

ghost use Rattle.std.specs.Prelude.{◌≡◌, ◌+◌, ℕ, length};
ghost use Rattle.amqp_session.specs.States.{is_mapped};
ghost use Rattle.amqp_session.specs.Deliveries.{nothing_counted, nothing_read};
ghost use Rattle.amqp_session.specs.Sending.{number_shown};
ghost use Rattle.amqp_session.specs.Session.{new_session};
ghost use Rattle.amqp_session.specs.declared.keys.KeyHash.TheVariants.{Fixed};
ghost use Rattle.amqp_session.specs.Step.{StopStep};

mod begin_end;
mod debug;
pub mod dispositions;
mod flows;
pub(crate) mod held;
mod incoming;
mod links;
mod outgoing;
pub(crate) mod range;
pub mod receiving;
mod runs;
mod settling;
pub(crate) mod transfers;
mod walk;

use self::receiving::Receiving;
use self::transfers::Sending;
use crate::deliveries::{Deliveries, Tags, WalkCount};
use crate::keys::KeyHash;
use crate::link::Links;
use crate::numbers::{IncomingChannel, OutgoingChannel};
use crate::relay::LinkRelay;
use crate::settings::SessionSettings;
use crate::stop::{ConnectionStopReason, SessionStopReason};
use amqp_types::SessionState;
use std::alloc::Global;
use std::marker::Model;

/// A session (AMQP 1.0 part 2, section 2.5). It takes received performatives and makes frames; it does no input or output, and never
/// blocks. Each link has a relay of the type `R`.
///
/// Calls that begin with `on_incoming_` take what the peer sent. Those that begin with `on_outgoing_`, and `send_begin` and
/// `send_end`, take what this side wants to send, and give the frames. A call that the state refuses changes nothing. When
/// memory is refused nothing goes out, and only the numbers of what was received change. A call whose text names no state is accepted in
/// every state.
///
/// ```
/// let channel = OutgoingChannel(0);
/// let mut session: Session<R> = Session::new(alloc, SessionSettings::new(), channel, SessionState::Unmapped, None);
/// let begin = session.send_begin()?;                             // the frame to send: the state is BeginSent
/// session.on_incoming_begin(IncomingChannel(3), their_begin)?;   // Mapped
/// let handle = session.allocate_link(name, Some(relay))?;
/// let end = session.send_end(None)?;                             // EndSent
/// session.on_incoming_end(IncomingChannel(3), their_end)?;       // Unmapped
/// ```
pub struct Session<R> {
    alloc: Global,
    state: SessionState,
    settings: SessionSettings,
    outgoing_channel: OutgoingChannel,
    incoming_channel: Option<IncomingChannel>,
    connection_stop: Option<ConnectionStopReason>,
    session_stop: Option<SessionStopReason>,
    sending: Sending,
    receiving: Receiving,
    links: Links<R>,
    sent: Deliveries,
    received: Deliveries,
    tags: Tags,
    last_walk: WalkCount,
}

// prover
impl<R: Drop> Drop for Session<R> {
    fn drop(self) {
        let Session {
            alloc: _,
            state: _,
            settings,
            outgoing_channel: _,
            incoming_channel: _,
            connection_stop: _,
            session_stop: _,
            sending,
            receiving: _,
            links,
            sent,
            received,
            tags,
            last_walk: _,
        } = self;
        drop(settings);
        drop(sending);
        drop(links);
        drop(sent);
        drop(received);
        drop(tags);
    }
}

impl<R> Model for Session<R> {
    ghost use Rattle.std.specs.Coded.{codes};
    ghost use Rattle.std.specs.Option.{option_map};
    ghost use Rattle.amqp_session.specs.Links.{links_code};
    ghost use Rattle.amqp_session.specs.Session.{SessionModel};

    ghost Value = { SessionModel R };

    ghost coded = { Prim.hlevel (codes, links_code) };

    ghost view = { λ s. record {
      view = record {
        state = s.state;
        settings = s.settings;
        outgoing_channel = s.outgoing_channel.0;
        incoming_channel = option_map (λ c. c.0) s.incoming_channel;
        connection_stop = s.connection_stop;
        session_stop = s.session_stop;
        sending = s.sending;
        receiving = s.receiving;
        links = s.links;
        deliveries = record { receiver = s.sent.rows; sender = s.received.rows };
      };
      last_walk = s.last_walk;
      reads = record { receiver = s.sent.reads; sender = s.received.reads };
    } };
}

impl<R: LinkRelay> Session<R> {
    /// A session with these settings on an outgoing channel, in a state (a new one is in `Unmapped`), with the reason why its connection
    /// stopped, if it did. Nothing waits, no link is attached, no delivery is open, and the numbers that the peer gives are 0. Takes no
    /// memory. Its links are found by [`KeyHash::Fixed`].
    pub fn new(
        alloc: Global,
        settings: SessionSettings,
        outgoing_channel: OutgoingChannel,
        state: SessionState,
        connection_stop: Option<ConnectionStopReason>,
    ) -> Self
        ensures view { result.view ≡ new_session Fixed settings outgoing_channel.0 state connection_stop }
        ensures walk { result.last_walk ≡ nothing_read }
        ensures reads { result.reads ≡ record { receiver = nothing_counted; sender = nothing_counted } }
    {
        Session::keyed(
            alloc,
            KeyHash::Fixed,
            settings,
            outgoing_channel,
            state,
            connection_stop,
        )
    }

    /// The same session as [`Session::new`] makes, whose links are found by this hash.
    pub fn keyed(
        alloc: Global,
        hash: KeyHash,
        settings: SessionSettings,
        outgoing_channel: OutgoingChannel,
        state: SessionState,
        connection_stop: Option<ConnectionStopReason>,
    ) -> Self
        ensures view { result.view ≡ new_session hash settings outgoing_channel.0 state connection_stop }
        ensures walk { result.last_walk ≡ nothing_read }
        ensures reads { result.reads ≡ record { receiver = nothing_counted; sender = nothing_counted } }
    {
        let next_outgoing_id = settings.next_outgoing_id;
        Session {
            alloc,
            state,
            settings,
            outgoing_channel,
            incoming_channel: None,
            connection_stop,
            session_stop: None,
            sending: Sending::new(alloc, next_outgoing_id),
            receiving: Receiving::new(),
            links: Links::new(alloc, hash),
            sent: Deliveries::new(alloc),
            received: Deliveries::new(alloc),
            tags: Tags::new(alloc),
            last_walk: WalkCount::new(),
        }
    }

    /// The state (AMQP 1.0 part 2, section 2.5.5).
    pub fn local_state(&self) -> &SessionState
        ensures { result.now ≡ self.now.view.state }
    {
        &self.state
    }

    /// Whether a transfer may be requested, and a link allotted: exactly in `Mapped`.
    pub fn can_send(&self) -> bool
        ensures { result ≡ is_mapped self.now.view.state }
    {
        matches!(self.state, SessionState::Mapped)
    }

    /// The channel of the frames that go out.
    pub fn outgoing_channel(&self) -> OutgoingChannel
        ensures { result.0 ≡ self.now.view.outgoing_channel }
    {
        self.outgoing_channel
    }

    /// Why the session stopped, if that is recorded.
    pub fn session_stop_reason(&self) -> Option<SessionStopReason>
        ensures { result ≡ self.now.view.session_stop }
    {
        self.session_stop
    }

    /// Why the connection had stopped when the session was made, if it had.
    pub fn connection_stop_reason(&self) -> Option<ConnectionStopReason>
        ensures { result ≡ self.now.view.connection_stop }
    {
        self.connection_stop
    }

    /// Records why the session stopped, where no reason is recorded yet: the first one stays.
    pub fn set_session_stop_reason(&mut self, reason: SessionStopReason)
        ensures step { StopStep self.old.view reason self.new.view }
        ensures walk { self.new.last_walk ≡ self.old.last_walk }
        ensures reads { self.new.reads ≡ self.old.reads }
    {
        if self.session_stop.is_none() {
            self.session_stop = Some(reason);
        }
    }

    /// The number of the next transfer that goes out, modulo 2^32 (section 2.5.6).
    pub fn next_outgoing_id(&self) -> u32
        ensures { result ≡ self.now.view.sending.next_outgoing_id }
    {
        self.sending.next_outgoing_id()
    }

    /// The number of the next transfer that is expected, modulo 2^32 (section 2.5.6).
    pub fn next_incoming_id(&self) -> u32
        ensures { result ≡ self.now.view.receiving.next_incoming_id }
    {
        self.receiving.next_incoming_id
    }

    /// The number that the next delivery gets whose first transfer is accepted, modulo 2^32, also where that transfer is then held back:
    /// deliveries are numbered in the order in which they are accepted, and those that wait count (section 2.6.12). A later transfer of a
    /// delivery, and a transfer that is refused, leave it as it is; so does going out. It takes the same time however many wait.
    pub fn next_delivery_number(&self) -> u32
        ensures { result ≡ number_shown self.now.view.sending }
    {
        self.sending.next_delivery_number()
    }

    /// How many transfers the peer still takes: 0 to 4294967295 (section 2.5.6).
    pub fn remote_incoming_window(&self) -> u32
        ensures { result ≡ self.now.view.sending.remote_incoming_window }
    {
        self.sending.remote_incoming_window()
    }

    /// How many transfers the peer may still send: 0 to 4294967295 (section 2.5.6).
    pub fn remote_outgoing_window(&self) -> u32
        ensures { result ≡ self.now.view.receiving.remote_outgoing_window }
    {
        self.receiving.remote_outgoing_window
    }

    /// How many transfers wait for the peer's window.
    pub fn held_back(&self) -> usize
        ensures { result ≡ length self.now.view.sending.held }
    {
        self.sending.held_back()
    }

    /// How many deliveries are open: sent or received, and not settled.
    pub fn open_deliveries(&self) -> usize
        ensures { result ≡ length self.now.view.deliveries.receiver + length self.now.view.deliveries.sender }
    {
        self.sent.len() + self.received.len()
    }

    /// How much the latest `on_incoming_disposition` read of the open deliveries: 0 and 0 before the first one, and where its
    /// range was backward.
    pub fn last_walk(&self) -> WalkCount
        ensures { result ≡ self.now.last_walk }
    {
        self.last_walk
    }
}
