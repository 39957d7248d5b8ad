//! Laws: what holds of every history of a clock, as contracts of functions that do nothing.

ghost use Rattle.std.specs.Prelude.{ℕ, Option, List, ◌≡◌};
ghost use Rattle.amqp_idle.specs.Idle.{IdleView, is_over};
ghost use Rattle.amqp_idle.specs.History.{IdleCall, LeadsTo, Always, is_ended};
ghost use Rattle.amqp_idle.specs.Laws.{OpensOnce, TellsWhatIsDue, BeatsWhereIdle, BeatsInTime, SilentWhereIdle};
ghost use Rattle.amqp_idle.specs.Laws.{SilentAtOnce, SilentInTime, LateOpenings, QuietAfterEnd};
ghost use Rattle.amqp_idle.specs.Laws.{NextIsExact, AnswerIsExact};

/// Each tick tells what is due by the calls before it, and nothing else. An opening is taken where none was before,
/// and the clock is not over.
pub fn law_of_ticks()
    ensures opened { Always (λ start limit H. OpensOnce H) }
    ensures due { Always (λ start limit H. TellsWhatIsDue start limit H) }
{}

/// A beat is told only where nothing was sent for at least half of the peer's time-out. And where each call comes no
/// later than the tick that was wanted last, no more than that half passes from one thing that is sent to the next
/// one, and from the last one to the end: so no more than the peer's time-out (AMQP 1.0 part 2, section 2.4.5).
pub fn law_of_beats()
    ensures idle { Always (λ start limit H. BeatsWhereIdle start H) }
    ensures in_time { Always (λ start limit H. BeatsInTime start H) }
{}

/// The peer is told to be silent only where nothing was received for as long as this side's time-out, and the opening
/// to be late only where it was not over within its limit; both at the first tick at which that is so. Where each
/// call comes no later than the tick that was wanted last, no silence lasts longer than this side's time-out untold.
/// After one of both nothing is told, so each is told once at most, and the clock is over: it is only then (AMQP 1.0
/// part 2, section 2.4.5).
pub fn law_of_ends()
    ensures silent { Always (λ start limit H. SilentWhereIdle start H) }
    ensures at_once { Always (λ start limit H. SilentAtOnce start H) }
    ensures in_time { Always (λ start limit H. SilentInTime start H) }
    ensures late { Always (λ start limit H. LateOpenings start limit H) }
    ensures quiet { Always (λ start limit H. QuietAfterEnd H) }
    ensures over { (start : ℕ) (limit : Option ℕ) (H : List IdleCall) (v : IdleView) → LeadsTo start limit H v →
        is_over v.phase ≡ is_ended H }
{}

/// The time that a tick answers, or [`IdleClock::next`](crate::IdleClock::next), is the first one at which something
/// is due, if nothing else happens: a tick before it tells nothing, and one at it or after it tells something. A
/// tick's is to come.
pub fn law_of_next()
    ensures tick { Always (λ start limit H. NextIsExact start H) }
    ensures question { Always (λ start limit H. AnswerIsExact start H) }
{}
