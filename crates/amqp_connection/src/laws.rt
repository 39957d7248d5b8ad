//! Laws: what holds of every history of a connection, as contracts of functions that do nothing; and how numbers of sessions compare.

ghost use Rattle.std.specs.Prelude.{List, ◌≡◌, Some, nat_eq, nat_lt};
ghost use Rattle.std.specs.List.{fold};
ghost use Rattle.std.specs.Hash as fed;
ghost use Rattle.std.specs.Ordering.{nat_cmp};
ghost use Rattle.amqp_types.specs.declared.states.ConnectionState.{ConnectionState};
ghost use Rattle.amqp_types.specs.Open.{OpenModel};
ghost use Rattle.amqp_connection.specs.Connection.{ConnectionView};
ghost use Rattle.amqp_connection.specs.History.{Entry, LeadsTo};
ghost use Rattle.amqp_connection.specs.ByHistory.{Stands, OneEach};

use crate::numbers::SessionNo;
use amqp_session::laws::Compared;
use std::hash::{Hash, Hasher};

/// Whatever calls a connection has seen, what contracts see of it is what they give: the state, by its tables; the stop reason; the
/// Open; the highest channel that both sides allow; the channels that are held; and the routes of received frames. And one that was
/// made in `HeaderExchange` hands out at most one Open and one Close (AMQP 1.0 part 2, section 2.4).
pub fn law_of_views()
    ensures stands { (s : ConnectionState) (o : OpenModel) (H : List Entry) (v : ConnectionView) → LeadsTo s o H v → Stands s o H v }
    ensures one_each { (s : ConnectionState) (o : OpenModel) (H : List Entry) (v : ConnectionView) → LeadsTo s o H v → OneEach s H }
{}

/// Whether two session numbers are equal, and how they compare: as their numbers do. The first is hashed as its number.
pub fn law_of_session_numbers<H: Hasher>(
    number: SessionNo,
    other: SessionNo,
    state: &mut H,
) -> Compared
    ensures equality { result.equal ≡ nat_eq number.0 other.0 }
    ensures order { result.order ≡ nat_cmp number.0 other.0 }
    ensures partial_order { result.partial_order ≡ Some (nat_cmp number.0 other.0) }
    ensures less { result.less ≡ nat_lt number.0 other.0 }
    ensures hash { state.new ≡ fold H.write state.old (fed.u32 number.0) }
{
    number.hash(state);
    Compared {
        equal: number == other,
        order: number.cmp(&other),
        partial_order: number.partial_cmp(&other),
        less: number < other,
    }
}
