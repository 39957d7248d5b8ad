//! Laws: what holds of every history of calls, as contracts of functions that do nothing.

ghost use Rattle.amqp_links.specs.SendingHistory as sending;
ghost use Rattle.amqp_links.specs.SendingHistory.{OfSendings};
ghost use Rattle.amqp_links.specs.SendingCredit.{BegunBeforeLimit, CreditIs, FlowsSay, NoneBegunBefore};
ghost use Rattle.amqp_links.specs.ReceivingHistory as receiving;
ghost use Rattle.amqp_links.specs.ReceivingHistory.{OfReceivings};
ghost use Rattle.amqp_links.specs.ReceivingCredit.{NoneToldBefore, ToldWithinGrant};
ghost use Rattle.amqp_links.specs.Joined.{OfJoined, NoneRefused, ComeInOrder, CreditIsKept, EndsAgree};
ghost use Rattle.amqp_links.specs.SessionHistory.{OfLinks, EachIsAlone};
ghost use Rattle.amqp_links.specs.UnsettledHistory.{AreTables};
ghost use Rattle.amqp_links.specs.Preparing.{CancelRestores, HalvesSend};
ghost use Rattle.amqp_links.specs.PreparingFlow.{HalvesSay};

/// A sending end stands where its Attaches and Detaches say. It sends nothing but while both sides have attached and neither has detached. Its credit is
/// that of a `SenderCredit` to which the same flows came and which began the same deliveries: so `law_of_senders` of `amqp_credit` holds of it, and no
/// delivery is begun past what the receiver's last flow gave (AMQP 1.0 part 2, section 2.6.7).
pub fn law_of_sending()
    ensures stands { OfSendings (λ initial H v. sending.StandsBy H v) }
    ensures sent { OfSendings (λ initial H v. sending.SentWhereAttached H) }
    ensures credit { OfSendings (λ initial H v. sending.IsCreditOf initial H v) }
{}

/// Of each delivery that a sending end begins: the count of the link is past that which the receiver's last flow had seen by less than the credit of that
/// flow. So it stands before the limit, which is that flow's delivery-count and link-credit; and none is begun before a flow gives credit. Count and credit
/// are what the receiver's flows, the deliveries that were begun, and the drains that were answered make of them; and each flow of this side says them
/// (AMQP 1.0 part 2, section 2.6.7).
pub fn law_of_limits()
    ensures limit { OfSendings (λ initial H v. BegunBeforeLimit initial H) }
    ensures none { OfSendings (λ initial H v. NoneBegunBefore H) }
    ensures credit { OfSendings (λ initial H v. CreditIs initial H v) }
    ensures flows { OfSendings (λ initial H v. FlowsSay initial H) }
{}

/// A receiving end stands where its Attaches and Detaches say, and what its sender may not do detaches it. It tells no transfer but while it is
/// attached. The parts that it tells are those of an `Assembly`, and its credit is that of a `ReceiverCredit` that granted the same and took the same
/// deliveries: so `law_of_parts`, `law_of_receivers` and `law_of_renewals` of `amqp_credit` hold of it. No more deliveries are told than were granted,
/// and each part is told once, of its delivery, up to the last one (AMQP 1.0 part 2, sections 2.6.7 and 2.6.14).
pub fn law_of_receiving()
    ensures stands { OfReceivings (λ renewal limit H v. receiving.StandsBy H v) }
    ensures told { OfReceivings (λ renewal limit H v. receiving.ToldWhereAttached H) }
    ensures parts { OfReceivings (λ renewal limit H v. receiving.IsAssemblyOf limit H v) }
    ensures credit { OfReceivings (λ renewal limit H v. receiving.IsCreditOf renewal H v) }
{}

/// Of the deliveries that a receiving end tells: since a grant, whether asked for or by the rule of renewal, no more are told than it granted, until the next
/// one; and none is told before the first (AMQP 1.0 part 2, section 2.6.7).
pub fn law_of_grants()
    ensures within { OfReceivings (λ renewal limit H v. ToldWithinGrant H) }
    ensures none { OfReceivings (λ renewal limit H v. NoneToldBefore H) }
{}

/// Of both ends of a link that both sides have attached, where transfers and flows come in order: each transfer that is sent comes once, in the order in which they
/// were sent, or is on the way, and the receiver refuses none: its credit is never passed, nor its max-message-size, and each part belongs to its delivery. What the
/// sender may still begin, with what is on the way, is no more than was granted; and with nothing on the way both have the same count and credit, and a delivery is
/// under way at both or at none. A receiver that grants less than its credit is is left out: deliveries that are on the way may pass it (AMQP 1.0 part 2, sections
/// 2.6.7 and 2.6.14).
pub fn law_of_joined_ends()
    ensures refused { OfJoined (λ H p. NoneRefused H) }
    ensures order { OfJoined (λ H p. ComeInOrder H p) }
    ensures kept { OfJoined (λ H p. CreditIsKept p) }
    ensures agree { OfJoined (λ H p. EndsAgree p) }
{}

/// A handle of a session has an end where one was added and not removed since. That end is a sending or a receiving one, as it was added, and it stands as if it
/// were the only one: where the calls with its handle, since it was added, lead it. So `law_of_sending` and `law_of_receiving` hold of each link, whatever
/// comes for the others (AMQP 1.0 part 2, section 2.6).
pub fn law_of_session_links()
    ensures { OfLinks EachIsAlone }
{}

/// What is unsettled on a session's links is that of two tables, one for each direction, whose calls the history alone gives: a delivery is put in by its first part,
/// unless that is settled, and taken out by a later part that settles or aborts it, by a range that is settled, or as what is left. So `law_of_giving_back`,
/// `law_of_ranges` and the others of `amqp_unsettled` hold of it: each unsettled delivery is given back once, and none that is not there (AMQP 1.0 part 2, sections
/// 2.6.12 and 2.6.13).
pub fn law_of_settlement()
    ensures { OfLinks AreTables }
{}

/// Two halves of a call are the whole one: a part of a delivery, or a flow, that is prepared and then finished does what `send`, or the call of its wish, does.
/// And a part that is prepared and then not sent leaves its session's links as they were: its delivery is not unsettled, its link has the credit that it had, and
/// no other delivery is touched.
pub fn law_of_halves()
    ensures send { HalvesSend }
    ensures say { HalvesSay }
    ensures cancel { CancelRestores }
{}
