//! What `{:?}` shows of an engine: its connection, how many sessions it has, and whether frames wait.

use super::Engine;
use amqp_session::LinkRelay;
use std::fmt;

impl<R: LinkRelay> fmt::Debug for Engine<R> {
    fn fmt<W: fmt::Write>(&self, f: &mut fmt::Formatter<W>) -> fmt::Result {
        f.debug_struct("Engine")
            .field("connection", &self.connection)
            .field("sessions", &self.sessions.len())
            .field("has_output", &self.has_output())
            .finish_non_exhaustive()
    }
}
