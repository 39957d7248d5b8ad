//! Laws: what holds of every call, as contracts of functions that do nothing.

ghost use Rattle.std.specs.Prelude.{◌≡◌, List, ℕ};
ghost use Rattle.amqp_types.specs.declared.definitions.Role.{Role};
ghost use Rattle.amqp_driver.specs.Cutting.{CutsWell};
ghost use Rattle.amqp_driver.specs.declared.head.TransferHead.{TransferHead};
ghost use Rattle.amqp_driver.specs.Laws.{AnswersByCalls, AnswersByNumber, BeginsGoOn, EndsGoOn, HistoryGoesOn, LetsGoByCalls, NumbersAreTold, PayloadIsThere, SendsGoOn};
ghost use Rattle.amqp_driver.specs.LinkNames.{marked};
ghost use Rattle.amqp_driver.specs.StreamLife.{FramesComeAfter, SendsInOrder, StaysOver, StreamsGoOn, TimeIsTold};

use amqp_engine::laws::{law_of_engine_numbers, law_of_histories};
use amqp_sasl::laws::opens_by_login;
use amqp_session::LinkRelay;

/// The frames that [`Driver::take`](crate::Driver::take) takes are entries by which a legal history goes on, and the history keeps its headline:
/// what is proved of every history of an engine holds of a driver's.
pub fn law_of_takes<R: LinkRelay>()
    ensures { HistoryGoesOn R.gives }
{
    law_of_histories::<R>();
}

/// The payload of a transfer stands in the input where its record says.
pub fn law_of_payloads<R: LinkRelay>()
    ensures { PayloadIsThere R.gives }
{}

/// The transfers for which [`Driver::send`](crate::Driver::send) asks the engine are entries by which a legal history goes on, and the history
/// keeps its headline. And the number that is told of an accepted first transfer is the one by which the history of its session knows the
/// delivery, also where the transfer is held back: [`law_of_engine_numbers`](amqp_engine::laws::law_of_engine_numbers) says that its frame
/// carries that one (AMQP 1.0 part 2, section 2.6.12).
pub fn law_of_sends<R: LinkRelay>()
    ensures goes_on { SendsGoOn R.gives }
    ensures numbers { NumbersAreTold R.gives }
{
    law_of_histories::<R>();
    law_of_engine_numbers::<R>();
}

/// A part that [`Driver::cut`](crate::Driver::cut) makes fits one frame, so that [`Driver::send`](crate::Driver::send) takes it under the same
/// limit; and both parts have the payload between them (AMQP 1.0 part 2, section 2.6.14).
pub fn law_of_cuts()
    ensures { (limit : ℕ) (h : TransferHead) (bytes : List ℕ) → CutsWell limit h bytes }
{}

/// The steps of [`Driver::answer_begin`](crate::Driver::answer_begin), the engine's Begin and the peer's as its answer, are entries by which a
/// legal history goes on, and the history keeps its headline; also where the answer stops on the way.
pub fn law_of_begins<R: LinkRelay>()
    ensures { BeginsGoOn R.gives }
{
    law_of_histories::<R>();
}

/// The requests of [`Driver::answer_end`](crate::Driver::answer_end) are entries by which a legal history goes on, and the history keeps its
/// headline; also where it goes no further than one of them.
pub fn law_of_answered_ends<R: LinkRelay>()
    ensures { EndsGoOn R.gives }
{
    law_of_histories::<R>();
}

/// Whatever names a peer chooses: marked names are the same only where the roles are, and the names.
pub fn marks_tell_apart()
    ensures { (r s : Role) (n m : List ℕ) → marked r n ≡ marked s m → (r ≡ s) × (n ≡ m) }
{}

/// Over any chain of calls from a new stream: a received frame is run only after the peer's header of AMQP was taken, and, where SASL is asked for,
/// after a login: of a server its own [`Stream::login`](crate::Stream::login) with the code `Ok`, while a client asked; of a client the
/// server's outcome `ok` (AMQP 1.0 part 2, section 2.2; part 5, section 5.3).
pub fn law_of_logins<R: LinkRelay>()
    ensures { FramesComeAfter R.gives }
{
    opens_by_login();
}

/// Over any chain of calls from a new stream: its clock is told what came and what was sent, at its time, and what is asked of it. So the laws of
/// [`IdleClock`](amqp_idle::IdleClock) hold of a stream (AMQP 1.0 part 2, section 2.4.5).
pub fn law_of_time<R: LinkRelay>()
    ensures { TimeIsTold R.gives }
{}

/// A stream that is over stays so: whatever is called, nothing is taken, nothing is asked for, and nothing is due.
pub fn law_of_ends<R: LinkRelay>()
    ensures { StaysOver R.gives }
{}

/// Over any chain of calls from a new stream: what went out, and what waits, are this side's first header, what its opening sends after that, and,
/// once the stream is open, the frames: all that the driver handed out, in its order, and empty frames between what two calls handed out, each
/// where nothing waited (AMQP 1.0 part 2, sections 2.2 and 2.4.5). Nothing stands between them.
pub fn law_of_order<R: LinkRelay>()
    ensures { SendsInOrder R.gives }
{}

/// Over any chain of calls of a stream: whatever legal history its engine has before, it goes on by them, and all of it keeps the headline.
pub fn law_of_streams<R: LinkRelay>()
    ensures { StreamsGoOn R.gives }
{
    law_of_histories::<R>();
}

/// [`Stream::answer`](crate::Stream::answer) and [`Stream::let_go`](crate::Stream::let_go) are made of other calls: so what holds over any chain of
/// calls of a stream holds with them in it.
pub fn law_of_answers<R: LinkRelay>()
    ensures answers { AnswersByCalls R.gives }
    ensures lets_go { LetsGoByCalls R.gives }
{}

/// By the number of its refusal a frame is answered as [`answer_to`](fe2o3_amqp::answer_to) says of the refusal itself (AMQP 1.0 part 2, sections
/// 2.8.15 to 2.8.17).
pub fn law_of_numbered_answers()
    ensures { AnswersByNumber }
{}
