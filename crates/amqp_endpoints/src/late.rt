//! A link of which a call waits for the peer's session window.

/// A link of which a call waits for the peer's session window.
#[derive(Clone, Copy, Debug)]
pub(crate) struct LateLink {
    /// This side's handle of the link.
    pub(crate) handle: u32,
    /// How many transfers had been sent in the session when the call was made: once these have gone out, it may be made again.
    pub(crate) sent: u64,
}
