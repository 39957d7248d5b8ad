//! Laws: what holds of every history of an engine, as contracts of functions that do nothing.

ghost use Rattle.std.specs.Prelude.{List};
ghost use Rattle.amqp_types.specs.declared.states.ConnectionState.{ConnectionState};
ghost use Rattle.amqp_types.specs.Open.{OpenModel};
ghost use Rattle.amqp_engine.specs.EngineView.{EngineView};
ghost use Rattle.amqp_engine.specs.Entry.{Entry};
ghost use Rattle.amqp_engine.specs.Legal.{Legal};
ghost use Rattle.amqp_engine.specs.Headline.{Headline};
ghost use Rattle.amqp_engine.specs.Views.{Stands};
ghost use Rattle.amqp_engine.specs.TwoRuns.{RunsIntoAreOne, TwoRunsAreOne, WishedRunsAreOne};
ghost use Rattle.amqp_engine.specs.OneFrame.{TransfersAreFrames};
ghost use Rattle.amqp_engine.specs.Numbers.{EngineKnows, EngineShows};

use amqp_session::{LinkRelay, laws as session};

/// Whatever an engine has been given, what contracts see of it is what its history gives: its sessions; of its
/// connection the state, the stop reason, the Open, the channel maximum, the channels that are held and the routes of received
/// frames; the limit of a piece; and the frames that wait.
pub fn law_of_views<R: LinkRelay>()
    ensures { (state : ConnectionState) (o : OpenModel) (H : List (Entry R)) (w : EngineView R)
        → Legal R.gives state o H w → Stands state o H w }
{
    session::law_of_views::<R>();
}

/// Every legal history has the properties of `Headline`. One of them: an engine made in `HeaderExchange` hands out at most one
/// Open and one Close (AMQP 1.0 part 2, section 2.4).
pub fn law_of_histories<R: LinkRelay>()
    ensures { (state : ConnectionState) (o : OpenModel) (H : List (Entry R)) (w : EngineView R)
        → Legal R.gives state o H w → Headline state o H }
{
    session::law_of_views::<R>();
    session::law_of_channels::<R>();
}

/// Two runs in a row are one run over both lists of inputs: what the second one appends goes on where the first one stopped, also where
/// frames waited between them. Nothing is put out twice, and nothing is left out.
pub fn law_of_two_runs<R: LinkRelay>()
    ensures { TwoRunsAreOne R.gives }
{
    law_of_histories::<R>();
    law_of_views::<R>();
}

/// The same of two runs of which the second has wishes of its own, as a [`HandledEngine`](crate::HandledEngine) runs them; handles may note
/// wishes between the two. All entries of both, in order, are those of one run.
pub fn law_of_wished_runs<R: LinkRelay>()
    ensures { WishedRunsAreOne R.gives }
{
    law_of_histories::<R>();
    law_of_views::<R>();
}

/// The same of two calls of [`Engine::run_into`](crate::Engine::run_into): what they append to the buffer, in order, and what they append to
/// the refusals, with the places of the second counted from the first input of the first.
pub fn law_of_runs_into<R: LinkRelay>()
    ensures { RunsIntoAreOne R.gives }
{
    law_of_two_runs::<R>();
}

/// Of every run: where each transfer that was requested is one piece under some limit, whatever number its delivery gets, and no limit of
/// the run is below that one, each transfer that the run puts out is one Transfer frame. So the Transfer frames of a session are the
/// transfers of its headline: in order, each delivery numbered once, each inside the peer's latest window (AMQP 1.0 part 2, sections
/// 2.5.6 and 2.6.14). [`split_delivery`](amqp_frames::split_delivery) makes such transfers.
pub fn law_of_transfer_frames<R: LinkRelay>()
    ensures { TransfersAreFrames R.gives }
{
    law_of_views::<R>();
}

/// Of each session of an engine: the number of a delivery is known as its first transfer is accepted, also while that is held back. It is how
/// many deliveries of the session were accepted before, modulo 2^32. The frame that goes out for the transfer, by whatever input and however
/// much later, carries it, also where the session is forgotten since. And a session that is there shows it before it takes the transfer:
/// [`Session::next_delivery_number`](amqp_session::Session::next_delivery_number) (AMQP 1.0 part 2, section 2.6.12).
pub fn law_of_engine_numbers<R: LinkRelay>()
    ensures known { EngineKnows R.gives }
    ensures shown { EngineShows R.gives }
{
    law_of_histories::<R>();
    law_of_views::<R>();
}
