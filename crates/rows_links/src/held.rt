//! What is held between two lines.

use amqp_links::{PreparedFlow, PreparedPart, SessionLinks};
use std::alloc::Global;

/// The links of a session, and what was prepared last.
#[derive(Drop)]
pub struct Held {
    /// The links.
    pub links: SessionLinks,
    /// A transfer that was prepared.
    pub part: Option<PreparedPart>,
    /// A flow that was prepared.
    pub flow: Option<PreparedFlow>,
}

impl Held {
    /// No links, and nothing prepared.
    pub fn new(alloc: Global) -> Held {
        Held {
            links: SessionLinks::new(alloc),
            part: None,
            flow: None,
        }
    }
}
