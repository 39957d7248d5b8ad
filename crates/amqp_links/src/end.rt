//! One end of a link: a sender's or a receiver's.

ghost use Rattle.std.specs.Prelude.{◌≡◌};
ghost use Rattle.amqp_links.specs.Session.{life_of};

use crate::life::Life;
use crate::receiving::ReceivingLink;
use crate::sending::SendingLink;

/// One end of a link, as this side has it (AMQP 1.0 part 2, section 2.6).
#[derive(Clone, Copy, Debug)]
pub enum End {
    /// This side sends.
    Sending(SendingLink),
    /// This side receives.
    Receiving(ReceivingLink),
}

impl End {
    /// Where it stands.
    pub fn life(self) -> Life
        ensures { result ≡ life_of self }
    {
        match self {
            End::Sending(link) => link.life(),
            End::Receiving(link) => link.life(),
        }
    }
}
