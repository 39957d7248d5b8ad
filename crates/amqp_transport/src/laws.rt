//! Laws: functions that do nothing; the contract of each is a theorem.

ghost use Rattle.amqp_transport.specs.Exchange.{RoundsByCalls, WritingByCalls};

pub use amqp_driver::laws::marks_tell_apart;
use fe2o3_amqp::LinkRelay;

/// [`exchange`](crate::exchange) and [`write_waiting`](crate::write_waiting) are made of a stream's own calls, also where they fail: so what holds
/// over every chain of its calls holds with them in it, as that frames are run only after a login (`law_of_logins` of `amqp_driver`).
pub fn law_of_rounds<R: LinkRelay>()
    ensures rounds { RoundsByCalls R.gives }
    ensures writing { WritingByCalls R.gives }
{}
