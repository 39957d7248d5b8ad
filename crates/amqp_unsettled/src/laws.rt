//! Laws: what holds of every history of calls, as contracts of functions that do nothing.

ghost use Rattle.std.specs.Prelude.{◌≡◌};
ghost use Rattle.amqp_unsettled.specs.History.{OfTables, unsettled_after};
ghost use Rattle.amqp_unsettled.specs.Laws.{GivenOnce, OnceInAll, GivenAsAsked, AnswersByHistory};
ghost use Rattle.amqp_unsettled.specs.Laws.{SettlesAll, TellsAll, TellsAllOfSession, InOrder};

/// What is given back was put in before, with this number, link and value, and was not given back since; it is what
/// was asked for. Each delivery that was put in was given back, or is still there: once in all.
pub fn law_of_giving_back()
    ensures once { OfTables (λ H t. GivenOnce H) }
    ensures asked { OfTables (λ H t. GivenAsAsked H) }
    ensures in_all { OfTables OnceInAll }
{}

/// What is unsettled is what was put in, in order, and not given back since. Each answer is by that.
pub fn law_of_answers()
    ensures exact { OfTables (λ H t. t ≡ unsettled_after H) }
    ensures answers { OfTables (λ H t. AnswersByHistory H) }
{}

/// A range that is settled, call by call until `None`, gives back each unsettled delivery of it, in order, and leaves
/// the others; the same of a link that goes, and of the whole session (AMQP 1.0 part 2, sections 2.6.12 and 2.6.13).
pub fn law_of_ranges()
    ensures range { OfTables (λ H t. SettlesAll H) }
    ensures link { OfTables (λ H t. TellsAll H) }
    ensures session { OfTables (λ H t. TellsAllOfSession H) }
{}

/// At each time the numbers of what is unsettled rise in serial order: each lies after those of all older ones.
pub fn law_of_order()
    ensures { OfTables (λ H t. InOrder t) }
{}
