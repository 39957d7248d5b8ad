//! A law of a program's own over the links of a session: a contract here, with a short proof, by public laws alone.
#![tactic(auto)]

ghost use Rattle.amqp_links.specs.SessionHistory.{OfLinks};
ghost use Rattle.example_link_laws.specs.Limits.{EachBeforeLimit};

use amqp_links::laws::{law_of_limits, law_of_session_links};

/// Of every history of a session's links: on each link that sends, no delivery was begun past the limit of the
/// receiver's last flow, whatever came for the others (AMQP 1.0 part 2, section 2.6.7).
pub fn law_of_links()
    ensures { OfLinks (λ H v. EachBeforeLimit H) }
{
    law_of_session_links();
    law_of_limits();
}
