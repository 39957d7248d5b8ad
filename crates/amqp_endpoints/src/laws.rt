//! Laws: what holds of every history of calls, as contracts of functions that do nothing.

ghost use Rattle.amqp_endpoints.specs.History.{HaveHistories};

use amqp_session::LinkRelay;

/// Whatever is called on an endpoint, and whatever the stream answers, its links are those of a history of calls of [`SessionLinks`](amqp_links::SessionLinks):
/// so the laws of `amqp_links` hold of them. Nothing is sent on a link but while both sides have attached it, and within the credit of the peer's last flow; no
/// more deliveries are told than were granted, each part once and in its place; each unsettled delivery is given back once; and no link changes another
/// (AMQP 1.0 part 2, sections 2.6.7, 2.6.12 and 2.6.14).
pub fn law_of_endpoints<R: LinkRelay>()
    ensures { HaveHistories R.gives }
{}
