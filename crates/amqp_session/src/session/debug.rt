//! What `{:?}` shows of a session: its state, why it stopped, its numbers and windows, and how much waits and is open.

use super::Session;
use crate::relay::LinkRelay;
use std::fmt;

impl<R: LinkRelay> fmt::Debug for Session<R> {
    fn fmt<W: fmt::Write>(&self, f: &mut fmt::Formatter<W>) -> fmt::Result {
        f.debug_struct("Session")
            .field("local_state", &self.state)
            .field("outgoing_channel", &self.outgoing_channel)
            .field("session_stop_reason", &self.session_stop)
            .field("connection_stop_reason", &self.connection_stop)
            .field("next_outgoing_id", &self.next_outgoing_id())
            .field("next_incoming_id", &self.next_incoming_id())
            .field("remote_incoming_window", &self.remote_incoming_window())
            .field("remote_outgoing_window", &self.remote_outgoing_window())
            .field("held_back", &self.held_back())
            .field("open_deliveries", &self.open_deliveries())
            .finish_non_exhaustive()
    }
}
