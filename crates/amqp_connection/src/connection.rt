//! The connection: its state, its Opens, its channels and the routes of received frames.

ghost use Rattle.std.specs.Prelude.{◌≡◌};
ghost use Rattle.std.specs.Option.{option_map};
ghost use Rattle.amqp_session.specs.declared.stop.ConnectionStopReason.{ConnectionStopReason};
ghost use Rattle.amqp_session.specs.declared.keys.KeyHash.TheVariants.{Fixed};
ghost use Rattle.amqp_connection.specs.Connection.{new_connection, stopped};

mod allocation;
mod channel_table;
mod debug;
mod open_close;
mod route_counts;
mod route_table;
mod routing;

use amqp_session::ConnectionStopReason;
use amqp_session::keys::KeyHash;
use amqp_types::{ConnectionState, Open};
use channel_table::ChannelTable;
use route_table::RouteTable;
use std::alloc::Global;
use std::marker::Model;

/// One side of a connection (AMQP 1.0 part 2, section 2.4). It has no input and no output: received performatives are
/// given to `on_incoming_` calls, and `send_` calls give the frame that is to be sent. A call whose text names no state is accepted in
/// every state.
///
/// ```
/// let mut connection = Connection::new(alloc, ConnectionState::HeaderExchange, our_open);
/// let frame = connection.send_open()?;                               // to be sent: the state is OpenSent
/// connection.on_incoming_open(IncomingChannel(0), their_open)?;      // Opened
/// let channel = connection.allocate_session(SessionNo(7))?;          // the lowest free one, here 0
/// let close = connection.send_close(None)?;                          // CloseSent
/// connection.on_incoming_close(IncomingChannel(0), their_close)?;    // End
/// ```
pub struct Connection {
    state: ConnectionState,
    stop_reason: Option<ConnectionStopReason>,
    local_open: Open,
    remote_open: Option<Open>,
    agreed_channel_max: u16,
    session_by_outgoing_channel: ChannelTable,
    session_by_incoming_channel: RouteTable,
}

// prover
impl Drop for Connection {
    fn drop(self) {
        let Connection {
            state: _,
            stop_reason: _,
            local_open,
            remote_open,
            agreed_channel_max: _,
            session_by_outgoing_channel,
            session_by_incoming_channel,
        } = self;
        drop(local_open);
        drop(remote_open);
        drop(session_by_outgoing_channel);
        drop(session_by_incoming_channel);
    }
}

impl Model for Connection {
    ghost use Rattle.std.specs.Coded.{codes};
    ghost use Rattle.amqp_session.specs.Hashing.{hash_code};
    ghost use Rattle.amqp_connection.specs.Channels.{channel_table_code};
    ghost use Rattle.amqp_connection.specs.Connection.{ConnectionView};

    ghost Value = { ConnectionView };

    ghost coded = { Prim.hlevel (codes, channel_table_code, hash_code) };

    ghost view = { λ c. record {
      state = c.state;
      stop_reason = c.stop_reason;
      local_open = c.local_open;
      remote_open = c.remote_open;
      agreed_channel_max = c.agreed_channel_max;
      hash = c.session_by_incoming_channel.hash;
      session_by_outgoing_channel = c.session_by_outgoing_channel;
      session_by_incoming_channel = c.session_by_incoming_channel.routes;
    } };
}

impl Connection {
    /// A connection in this state, which is to send this Open. No channel is held, no channel of the peer's leads to a session, and no stop
    /// reason is recorded. Takes no memory. Its routes are found by [`KeyHash::Fixed`].
    pub fn new(alloc: Global, state: ConnectionState, local_open: Open) -> Connection
        ensures { result ≡ new_connection Fixed state local_open }
    {
        Connection::keyed(alloc, KeyHash::Fixed, state, local_open)
    }

    /// The same connection as [`Connection::new`] makes, whose routes are found by this hash.
    pub fn keyed(
        alloc: Global,
        hash: KeyHash,
        state: ConnectionState,
        local_open: Open,
    ) -> Connection
        ensures { result ≡ new_connection hash state local_open }
    {
        Connection {
            state,
            stop_reason: None,
            agreed_channel_max: local_open.channel_max,
            local_open,
            remote_open: None,
            session_by_outgoing_channel: ChannelTable::new(alloc),
            session_by_incoming_channel: RouteTable::new(alloc, hash),
        }
    }

    /// The state (AMQP 1.0 part 2, section 2.4.6).
    pub fn local_state(&self) -> &ConnectionState
        ensures { result.now ≡ self.now.state }
    {
        &self.state
    }

    /// The Open of this side, which was handed to [`Connection::new`].
    pub fn local_open(&self) -> &Open
        ensures { result.now ≡ self.now.local_open }
    {
        &self.local_open
    }

    /// The peer's Open that was accepted last, if one was: with its max-frame-size, channel-max and idle-time-out, and what it offers
    /// (AMQP 1.0 part 2, section 2.7.1).
    pub fn remote_open(&self) -> Option<&Open>
        ensures { option_map (λ o. o.now) result ≡ self.now.remote_open }
    {
        self.remote_open.as_ref()
    }

    /// Why the connection stopped, where a reason is recorded.
    pub fn connection_stop_reason(&self) -> Option<ConnectionStopReason>
        ensures { result ≡ self.now.stop_reason }
    {
        self.stop_reason
    }

    /// Records why the connection stopped. The first reason that is recorded stays. No call of a connection records one by itself: an
    /// engine does.
    pub fn set_connection_stop_reason(&mut self, reason: ConnectionStopReason)
        ensures { self.new ≡ stopped self.old reason }
    {
        if self.stop_reason.is_none() {
            self.stop_reason = Some(reason);
        }
    }
}
