//! Attaches and Detaches of a session's links.

ghost use Rattle.std.specs.Prelude.{◌≡◌};
ghost use Rattle.amqp_links.specs.Ends.{end_at};
ghost use Rattle.amqp_links.specs.Attaching.{AttachesAt, DetachesAt, EndsAt};

use super::SessionLinks;
use crate::end::End;
use crate::life::{Life, LinkEnd};

/// What an Attach of the peer's says (AMQP 1.0 part 2, section 2.7.3).
#[derive(Clone, Copy, Debug, PartialEq, Eq)]
pub struct PeerAttach {
    /// Whether it has a terminus of the peer's: for a sending end a target, for a receiving one a source. Without one the peer refuses the link
    /// (section 2.6.3).
    pub is_accepted: bool,
    /// Its `initial-delivery-count`, which a sender's has.
    pub initial_delivery_count: u32,
    /// Its `max-message-size`: `None` and 0 set no limit.
    pub max_message_size: Option<u64>,
}

impl SessionLinks {
    /// The peer's Attach has come for the link that has this handle. It answers where the link stands then; `None` where no end has the handle. Where the
    /// link is not [`Life::Attaching`], nothing changes.
    pub fn on_attach(&mut self, handle: u32, attach: PeerAttach) -> Option<Life>
        ensures { AttachesAt (end_at self.old.ends handle) self.old handle attach result self.new }
    {
        match self.end(handle)? {
            End::Sending(link) => {
                let mut link = link;
                link.on_attach(attach.is_accepted, attach.max_message_size);
                self.put(handle, End::Sending(link));
                Some(link.life())
            }
            End::Receiving(link) => {
                let mut link = link;
                link.on_attach(attach.is_accepted, attach.initial_delivery_count);
                self.put(handle, End::Receiving(link));
                Some(link.life())
            }
        }
    }

    /// This side detaches the link that has this handle: nothing is sent or told of it then but the peer's Detach. It answers where the link stands then;
    /// `None` where no end has the handle.
    pub fn detach(&mut self, handle: u32) -> Option<Life>
        ensures { DetachesAt (end_at self.old.ends handle) self.old handle result self.new }
    {
        match self.end(handle)? {
            End::Sending(link) => {
                let mut link = link;
                link.detach();
                self.put(handle, End::Sending(link));
                Some(link.life())
            }
            End::Receiving(link) => {
                let mut link = link;
                link.detach();
                self.put(handle, End::Receiving(link));
                Some(link.life())
            }
        }
    }

    /// The peer's Detach has come for the link that has this handle. It answers what that was; `None` where no end has the handle. What is unsettled on
    /// the link stays until it is settled or told by [`SessionLinks::left_next`].
    pub fn on_detach(&mut self, handle: u32) -> Option<LinkEnd>
        ensures { EndsAt (end_at self.old.ends handle) self.old handle result self.new }
    {
        match self.end(handle)? {
            End::Sending(link) => {
                let mut link = link;
                let end = link.on_detach();
                self.put(handle, End::Sending(link));
                Some(end)
            }
            End::Receiving(link) => {
                let mut link = link;
                let end = link.on_detach();
                self.put(handle, End::Receiving(link));
                Some(end)
            }
        }
    }
}
