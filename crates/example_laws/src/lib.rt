//! Laws of a program's own over the promise of a run: each is a contract here, with a short proof, by public laws alone.
#![tactic(auto)]

ghost use Rattle.std.specs.Prelude.{ℕ, List, []};
ghost use Rattle.fe2o3_amqp.specs.amqp_types.declared.states.ConnectionState.{ConnectionState};
ghost use Rattle.fe2o3_amqp.specs.amqp_types.Open.{OpenModel};
ghost use Rattle.fe2o3_amqp.specs.amqp_engine.EngineView.{EngineView};
ghost use Rattle.fe2o3_amqp.specs.amqp_engine.Entry.{Entry};
ghost use Rattle.fe2o3_amqp.specs.amqp_engine.Legal.{Legal};
ghost use Rattle.fe2o3_amqp.specs.amqp_engine.Promise.{Ends, NoneLeft};
ghost use Rattle.example_laws.specs.Answered.{Answered};
ghost use Rattle.example_laws.specs.Mapped.{DoneInMapped};

use fe2o3_amqp::laws::law_of_histories;
use fe2o3_amqp::{Answer, Engine, Input, LinkRelay, Stopped};
use std::collections::VecDeque;

/// Of every history that an engine may have: a transfer that is done was asked of a session in Mapped (AMQP 1.0 part 2, section 2.5.6).
pub fn law_of_done_transfers<R: LinkRelay>()
    ensures { (s : ConnectionState) (o : OpenModel) (H : List (Entry R)) (v : EngineView R) → Legal R.gives s o H v → DoneInMapped s H }
{
    law_of_histories::<R>();
}

/// Runs the inputs, by the contract of `Engine::run`, and says more of its entries: each has its answer, in order, and an Attach that is done was sent.
/// Where it is `Ok`, all were taken, and no frame waits; else memory was refused.
pub fn run<R: LinkRelay>(
    engine: &mut Engine<R>,
    inputs: &mut VecDeque<Input<R>>,
    answers: &mut Vec<Answer>,
) -> Result<(), Stopped>
    ensures answered { Answered R.gives engine.old inputs.old.items answers.old.items engine.new inputs.new.items answers.new.items }
    ensures ends { Ends (NoneLeft inputs.new.items engine.new) inputs.old.items inputs.new.items result }
{
    engine.run(inputs, answers)
}
