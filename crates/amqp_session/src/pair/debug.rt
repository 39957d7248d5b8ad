//! What `{:?}` shows of a pair: both sessions, and how many frames are on the way to each.

use super::SessionPair;
use crate::relay::LinkRelay;
use std::fmt;

impl<R: LinkRelay> fmt::Debug for SessionPair<R> {
    fn fmt<W: fmt::Write>(&self, f: &mut fmt::Formatter<W>) -> fmt::Result {
        f.debug_struct("SessionPair")
            .field("a", &self.a)
            .field("b", &self.b)
            .field("to_a", &self.to_a.len())
            .field("to_b", &self.to_b.len())
            .finish()
    }
}
