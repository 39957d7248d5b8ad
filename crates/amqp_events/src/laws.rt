//! The laws of relays over queues, as the contracts of functions that do nothing.

ghost use Rattle.std.specs.Prelude.{List};
ghost use Rattle.amqp_events.specs.Runs.{Told, Queued, Run, RunGives};
ghost use Rattle.amqp_events.specs.Attached.{Hears, HearsAttach, HearsDetach};

use crate::queue::EventQueue;
use crate::relay::EventRelay;
use amqp_session::LinkRelay;
use amqp_session::laws::law_of_views;

/// Of any calls of a relay over a queue of its own: its queue then holds what it held, and after that the events of the calls, in
/// their order. An attach, a flow or a transfer has exactly one where it was accepted, and none where it was refused. A disposition or a
/// detach has one, or is among those that were missed, by which the count has risen. Each event has the arguments of its call and the names
/// that were known then; nothing else is in the queue, and nothing that was there is gone.
pub fn law_of_runs()
    ensures { let g = ⟦<EventRelay<EventQueue> as LinkRelay>⟧.gives in
        (old new : Queued) (ts : List Told) → Run g old ts new → RunGives old ts new }
{}

/// Over every history of a session whose links have such relays, the queue of a relay that stands under an input handle holds after any calls
/// what it held before them, and after that the events of the flows, transfers and dispositions that the history says it was asked, in
/// their order. The same holds of the peer's attach, of which the relay that waits under the name is asked, and of its detach.
pub fn law_of_sessions()
    ensures attached { Hears ⟦<EventRelay<EventQueue> as LinkRelay>⟧.gives }
    ensures attach { HearsAttach ⟦<EventRelay<EventQueue> as LinkRelay>⟧.gives }
    ensures detach { HearsDetach ⟦<EventRelay<EventQueue> as LinkRelay>⟧.gives }
{
    law_of_runs();
    law_of_views::<EventRelay<EventQueue>>();
}
