//! The numbers of what the peer sends.

ghost use Rattle.std.specs.Prelude.{◌≡◌};
ghost use Rattle.amqp_session.specs.Disposing.{widened};
ghost use Rattle.amqp_session.specs.Receiving.{counted, nothing_received, numbered_anew, reported};

/// The numbers of the transfers that the peer sends (AMQP 1.0 part 2, section 2.5.6).
#[derive(Clone, Copy, Debug, PartialEq, Eq)]
pub struct Receiving {
    /// The number of the peer's next transfer.
    pub next_incoming_id: u32,
    /// The remote outgoing window.
    pub remote_outgoing_window: u32,
    /// How many transfers came since the last session flow, at most 4294967295.
    pub unreported: u32,
}

impl Receiving {
    /// All numbers are 0.
    pub(crate) fn new() -> Receiving
        ensures { result ≡ nothing_received }
    {
        Receiving {
            next_incoming_id: 0,
            remote_outgoing_window: 0,
            unreported: 0,
        }
    }

    /// A transfer came: it takes the next number, and one of the window.
    #[inline(always)]
    pub(crate) fn count(&mut self)
        ensures { self.new ≡ counted self.old }
    {
        self.next_incoming_id = self.next_incoming_id.wrapping_add(1);
        self.remote_outgoing_window = self.remote_outgoing_window.saturating_sub(1);
        self.unreported = self.unreported.saturating_add(1);
    }

    /// The peer says its next number and its outgoing window.
    pub(crate) fn set_numbers(&mut self, next: u32, window: u32)
        ensures { self.new ≡ numbered_anew next window self.old }
    {
        self.next_incoming_id = next;
        self.remote_outgoing_window = window;
    }

    /// The remote outgoing window grows by these messages, up to 4294967295.
    pub(crate) fn widen(&mut self, messages: u32)
        ensures { self.new ≡ widened messages self.old }
    {
        self.remote_outgoing_window = self.remote_outgoing_window.saturating_add(messages);
    }

    /// A session flow goes out.
    pub(crate) fn set_reported(&mut self)
        ensures { self.new ≡ reported self.old }
    {
        self.unreported = 0;
    }
}
