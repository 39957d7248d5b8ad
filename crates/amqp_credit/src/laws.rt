//! Laws: what holds of every history of calls, as contracts of functions that do nothing.

ghost use Rattle.amqp_credit.specs.SenderHistory.{OfSenders};
ghost use Rattle.amqp_credit.specs.SenderLaws as sender;
ghost use Rattle.amqp_credit.specs.ReceiverHistory.{OfReceivers};
ghost use Rattle.amqp_credit.specs.ReceiverLaws as receiver;
ghost use Rattle.amqp_credit.specs.Assembly.{HalvesRefuse, HalvesTake};
ghost use Rattle.amqp_credit.specs.AssemblyHistory.{OfAssemblies};
ghost use Rattle.amqp_credit.specs.AssemblyLaws as parts;
ghost use Rattle.amqp_credit.specs.Pair.{OfPairs, NoneRefused, CreditIsKept, EndsAgree};

/// A sender begins a delivery only where fewer were begun since the last flow, and used up, than the credit that the
/// flow left; and none before the first one. What is answered of credit and of drains is what the history says: a
/// drain uses up what is left, once. The count that is told is the initial one, and one for each delivery that was
/// begun and each credit that was used up; with the credit that is left it comes to the limit that the last flow said
/// (AMQP 1.0 part 2, section 2.6.7).
pub fn law_of_senders()
    ensures begun { OfSenders (λ initial H. sender.BegunWithinCredit initial H) }
    ensures taken { OfSenders (λ initial H. sender.TakenWithinCredit initial H) }
    ensures answers { OfSenders (λ initial H. sender.AnswersByHistory initial H) }
    ensures once { OfSenders (λ initial H. sender.UsedUpOnce H) }
    ensures count { OfSenders (λ initial H. sender.CountIsExact initial H) }
    ensures limit { OfSenders (λ initial H. sender.LimitIsKept initial H) }
{}

/// A receiver takes no more deliveries than it granted last, and none before the first grant. What is answered of
/// credit, of counts and of drains is what the history says (AMQP 1.0 part 2, section 2.6.7).
pub fn law_of_receivers()
    ensures taken { OfReceivers (λ initial renewal H. receiver.TakenWithinGrant H) }
    ensures answers { OfReceivers (λ initial renewal H. receiver.AnswersByHistory initial H) }
    ensures count { OfReceivers (λ initial renewal H. receiver.CountIsExact initial H) }
{}

/// A renewal is told where the rule wants one, by the credit that is left: only where that is below the low mark, and
/// up to the high one. Right after it none is wanted.
pub fn law_of_renewals()
    ensures rule { OfReceivers (λ initial renewal H. receiver.RenewsByRule renewal H) }
    ensures below { OfReceivers (λ initial renewal H. receiver.RenewedBelowLow renewal H) }
    ensures once { OfReceivers (λ initial renewal H. receiver.RenewedOnce H) }
{}

/// Each part that is accepted belongs to one delivery: the first part gives its number and a tag, and until the last
/// one, or one that aborts it, only parts of it are accepted; after that none. The size that is told is that of all its
/// parts, within the limit, and it is settled where one of them says so (AMQP 1.0 part 2, sections 2.6.14 and 2.7.5).
/// A part that is refused has the reason that is told.
pub fn law_of_parts()
    ensures belong { OfAssemblies (λ limit H. parts.BelongToOne H) }
    ensures in_a_row { OfAssemblies (λ limit H. parts.InARow H) }
    ensures sizes { OfAssemblies (λ limit H. parts.SizesAddUp H) }
    ensures within { OfAssemblies (λ limit H. parts.NoneTooLarge limit H) }
    ensures refused { OfAssemblies (λ limit H. parts.RefusedForReason limit H) }
    ensures under_way { OfAssemblies (λ limit H. parts.UnderWayIsExact H) }
{}

/// Two halves of a call are the whole one: a part that is prepared and then finished is accepted as `on_part` accepts it;
/// and one that is refused as it is prepared is refused, and changes nothing.
pub fn law_of_halves()
    ensures take { HalvesTake }
    ensures refuse { HalvesRefuse }
{}

/// Of both ends of one link, where flows and deliveries come in order: what the sender begins is never refused, and no
/// flow of it is; what it may still begin, with what is on the way, is no more than the receiver granted; and with
/// nothing on the way both have the same count and credit. A receiver that grants less than its credit is is left out:
/// deliveries that are on the way may pass it (AMQP 1.0 part 2, section 2.6.7).
pub fn law_of_pair()
    ensures refused { OfPairs (λ H p. NoneRefused H) }
    ensures kept { OfPairs (λ H p. CreditIsKept p) }
    ensures agree { OfPairs (λ H p. EndsAgree p) }
{}
