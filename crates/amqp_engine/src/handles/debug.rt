//! What `{:?}` shows of an engine with handles: the engine.

use super::HandledEngine;
use amqp_session::LinkRelay;
use std::fmt;

impl<R: LinkRelay> fmt::Debug for HandledEngine<R> {
    fn fmt<W: fmt::Write>(&self, f: &mut fmt::Formatter<W>) -> fmt::Result {
        f.debug_struct("HandledEngine")
            .field("engine", &self.engine)
            .finish()
    }
}
