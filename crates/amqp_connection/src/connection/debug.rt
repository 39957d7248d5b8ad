//! What `{:?}` shows of a connection.

use super::Connection;
use std::fmt;

impl fmt::Debug for Connection {
    fn fmt<W: fmt::Write>(&self, f: &mut fmt::Formatter<W>) -> fmt::Result {
        f.debug_struct("Connection")
            .field("local_state", &self.state)
            .field("connection_stop_reason", &self.stop_reason)
            .field("agreed_channel_max", &self.agreed_channel_max)
            .finish_non_exhaustive()
    }
}
