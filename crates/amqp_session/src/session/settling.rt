//! What this side settles by itself is let go (AMQP 1.0 part 2, section 2.6.12).

ghost use Rattle.std.specs.Prelude.{◌≡◌};
ghost use Rattle.amqp_session.specs.Disposing.{SettleStep};

use super::Session;
use super::range::SerialRange;
use crate::relay::LinkRelay;
use amqp_types::{DeliveryNumber, Role};

impl<R: LinkRelay> Session<R> {
    /// Lets open deliveries go that this side settles by itself, and answers how many they were. `role` is this side's role in
    /// them, as in a disposition that it sends: `Receiver` means those that it received, and `Sender` those that it sent.
    ///
    /// It means the open ones from `first` to `last`, or `first` alone where no last is named. The numbers are serial numbers, so a
    /// range may pass 4294967295; one over half of the circle or more is backward, and means none: the answer is 0 then.
    ///
    /// It is taken in every state, never fails, and takes no memory. No relay is asked and no frame made: the peer is informed by
    /// [`Session::on_outgoing_disposition`], which leaves the deliveries open. However wide the range is, it costs two binary
    /// searches and one cut of the table, and [`Session::last_walk`] stays.
    pub fn settle(
        &mut self,
        role: Role,
        first: DeliveryNumber,
        last: Option<DeliveryNumber>,
    ) -> usize
        ensures step { SettleStep self.old.view role first last result self.new.view }
        ensures walk { self.new.last_walk ≡ self.old.last_walk }
        ensures reads { self.new.reads ≡ self.old.reads }
    {
        let Some(range) = SerialRange::forward(first, last) else {
            return 0;
        };
        match role {
            Role::Receiver => self.received.let_go(range),
            Role::Sender => self.sent.let_go(range),
        }
    }
}
