//! Laws: what holds of every history of parts, as contracts of functions that do nothing.

ghost use Rattle.amqp_collector.specs.History.{HeldWithin, OfCollectors, WholeIsParts};

/// What is answered as a whole is the payloads of its delivery's parts, one after the other, in the order in which they
/// came; and no more is ever held than the bound (AMQP 1.0 part 2, section 2.6.14).
pub fn law_of_wholes()
    ensures parts { OfCollectors (λ most H v. WholeIsParts H) }
    ensures bound { OfCollectors (λ most H v. HeldWithin most v) }
{}
