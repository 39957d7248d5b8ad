//! Settlement: what is unsettled is settled, or left where its link goes.

ghost use Rattle.std.specs.Prelude.{◌≡◌, find};
ghost use Rattle.amqp_unsettled.specs.Table.{has_number, is_of};
ghost use Rattle.amqp_links.specs.Ends.{end_at};
ghost use Rattle.amqp_links.specs.Settling.{SettlesSent, SettlesReceived, LeavesSent, LeavesReceived, LeavesNext, LeavesSentOfAll, LeavesReceivedOfAll, left_at, left_of};

use super::SessionLinks;
use crate::end::End;
use crate::life::Life;
use amqp_unsettled::Entry;

impl SessionLinks {
    /// Takes out the oldest unsettled delivery of those that this side sent, of the range from `first` to `last`, both of them in it: a disposition of the
    /// receiver's, or of this side, settles them. Called until it answers `None`, it gives back each one once, in the order of their numbers (AMQP 1.0
    /// part 2, section 2.7.6).
    pub fn settle_sent(&mut self, first: u32, last: u32) -> Option<Entry>
        ensures { SettlesSent first last self.old result self.new }
    {
        self.sent.settle_next(first, last)
    }

    /// The same of the deliveries that have come.
    pub fn settle_received(&mut self, first: u32, last: u32) -> Option<Entry>
        ensures { SettlesReceived first last self.old result self.new }
    {
        self.received.settle_next(first, last)
    }

    /// The unsettled delivery that this side sent with this number, if there is one.
    pub fn sent(&self, number: u32) -> Option<Entry>
        ensures { result ≡ find (has_number number) self.now.sent }
    {
        self.sent.get(number)
    }

    /// The unsettled delivery that has come with this number, if there is one.
    pub fn received(&self, number: u32) -> Option<Entry>
        ensures { result ≡ find (has_number number) self.now.received }
    {
        self.received.get(number)
    }

    /// Takes out the oldest delivery that is left unsettled on the link that has this handle, once the peer has detached. Called until it answers `None`, it
    /// tells each one once, in the order of their numbers, so that a program can send it again (section 2.6.13). `None` too where the link goes on, or no end
    /// has the handle; nothing changes then.
    pub fn left_next(&mut self, handle: u32) -> Option<Entry>
        ensures { LeavesNext (end_at self.old.ends handle) self.old handle result self.new }
    {
        match self.end(handle)? {
            End::Sending(link) => self.left_sent(link.life(), handle),
            End::Receiving(link) => self.left_received(link.life(), handle),
        }
    }

    /// The delivery that [`SessionLinks::left_next`] takes out.
    pub fn left(&self, handle: u32) -> Option<Entry>
        ensures { result ≡ left_at (end_at self.now.ends handle) self.now handle }
    {
        match self.end(handle)? {
            End::Sending(link) => self.sent_left(link.life(), handle),
            End::Receiving(link) => self.received_left(link.life(), handle),
        }
    }

    fn sent_left(&self, life: Life, handle: u32) -> Option<Entry>
        ensures { result ≡ left_of life (find (is_of handle) self.now.sent) }
    {
        match life {
            Life::Detached => self.sent.next_of(handle),
            _ => None,
        }
    }

    fn received_left(&self, life: Life, handle: u32) -> Option<Entry>
        ensures { result ≡ left_of life (find (is_of handle) self.now.received) }
    {
        match life {
            Life::Detached => self.received.next_of(handle),
            _ => None,
        }
    }

    fn left_sent(&mut self, life: Life, handle: u32) -> Option<Entry>
        ensures { LeavesSent life self.old handle result self.new }
    {
        match life {
            Life::Detached => self.sent.remove_next_of(handle),
            _ => None,
        }
    }

    fn left_received(&mut self, life: Life, handle: u32) -> Option<Entry>
        ensures { LeavesReceived life self.old handle result self.new }
    {
        match life {
            Life::Detached => self.received.remove_next_of(handle),
            _ => None,
        }
    }

    /// Takes out the oldest delivery of those that this side sent, of any link: it is left unsettled where the session is over. Called until it answers `None`, it
    /// tells each one once, in the order of their numbers.
    pub fn left_of_sent(&mut self) -> Option<Entry>
        ensures { LeavesSentOfAll self.old result self.new }
    {
        self.sent.remove_oldest()
    }

    /// The same of the deliveries that have come.
    pub fn left_of_received(&mut self) -> Option<Entry>
        ensures { LeavesReceivedOfAll self.old result self.new }
    {
        self.received.remove_oldest()
    }
}
