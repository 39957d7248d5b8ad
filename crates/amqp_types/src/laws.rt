//! Laws of values and performatives: a walk over parts gives them all, and what was written is read. A law answers
//! nothing: its contract holds of every value that it is called with.

ghost use Rattle.amqp_types.specs.declared.performatives.Performative.TheVariants as performative;
ghost use Rattle.amqp_types.specs.Items.{WalksGiveItems};
ghost use Rattle.amqp_types.specs.Kinds.{KindsAreRead};
ghost use Rattle.amqp_types.specs.Performatives.{ListsAreRead};
ghost use Rattle.amqp_types.specs.Spelled.{CutIsSpelled, IsReadBack, IsSpelledIfShort, TextsAreSpelled};

use crate::performatives::{
    Attach, Begin, Close, Detach, Disposition, End, Flow, Open, Performative, Transfer,
};
use crate::value_bounds;

/// [`Items`](crate::Items) ends after as many calls of `next` as its count says, and the parts that it gave, joined, are the
/// data after the count.
pub fn items_are_walked()
    ensures { WalksGiveItems }
{}

/// [`Kind::read`](crate::Kind::read) takes exactly the descriptors of a kind.
pub fn kinds_are_read()
    ensures { KindsAreRead }
{}

/// The list after a descriptor is read exactly by the table of its kind.
pub fn lists_are_read()
    ensures { ListsAreRead }
{}

/// The text that [`Performative::write`] appends spells that performative, if it has at most 4294967295 bytes. Reading it
/// gives the performative back, and leaves what follows it. The text of each transfer that a transfer is cut into spells
/// that one.
pub fn text_is_read(performative: &Performative)
    ensures spelled { IsSpelledIfShort performative.now }
    ensures cut { CutIsSpelled performative.now }
    ensures read { IsReadBack performative.now }
{
    value_bounds::performative(performative);
}

/// The canonical text of an Open spells it, if it has at most 4294967295 bytes.
#[tactic(auto, using(crate::proofs::BodyCanonicalLemmas::open_canonical))]
pub fn open_is_spelled(p: &Open)
    ensures { IsSpelledIfShort (performative.Open p.now) }
{
    value_bounds::open(p);
}

/// The canonical text of a Begin spells it, if it has at most 4294967295 bytes.
#[tactic(auto, using(crate::proofs::BodyCanonicalLemmas::begin_canonical))]
pub fn begin_is_spelled(p: &Begin)
    ensures { IsSpelledIfShort (performative.Begin p.now) }
{
    value_bounds::begin(p);
}

/// The canonical text of an Attach spells it, if it has at most 4294967295 bytes.
#[tactic(auto, using(crate::proofs::BodyCanonicalLemmas::attach_canonical))]
pub fn attach_is_spelled(p: &Attach)
    ensures { IsSpelledIfShort (performative.Attach p.now) }
{
    value_bounds::attach(p);
}

/// The canonical text of a Flow spells it, if it has at most 4294967295 bytes.
#[tactic(auto, using(crate::proofs::BodyCanonicalLemmas::flow_canonical))]
pub fn flow_is_spelled(p: &Flow)
    ensures { IsSpelledIfShort (performative.Flow p.now) }
{
    value_bounds::flow(p);
}

/// The canonical text of a Disposition spells it, if it has at most 4294967295 bytes.
#[tactic(auto, using(crate::proofs::BodyCanonicalLemmas::disposition_canonical))]
pub fn disposition_is_spelled(p: &Disposition)
    ensures { IsSpelledIfShort (performative.Disposition p.now) }
{
    value_bounds::disposition(p);
}

/// The canonical text of a Detach spells it, if it has at most 4294967295 bytes.
#[tactic(auto, using(crate::proofs::BodyCanonicalLemmas::detach_canonical))]
pub fn detach_is_spelled(p: &Detach)
    ensures { IsSpelledIfShort (performative.Detach p.now) }
{
    value_bounds::detach(p);
}

/// The canonical text of an End spells it, if it has at most 4294967295 bytes.
#[tactic(auto, using(crate::proofs::BodyCanonicalLemmas::end_canonical))]
pub fn end_is_spelled(p: &End)
    ensures { IsSpelledIfShort (performative.End p.now) }
{
    value_bounds::end(p);
}

/// The canonical text of a Close spells it, if it has at most 4294967295 bytes.
#[tactic(auto, using(crate::proofs::BodyCanonicalLemmas::close_canonical))]
pub fn close_is_spelled(p: &Close)
    ensures { IsSpelledIfShort (performative.Close p.now) }
{
    value_bounds::close(p);
}

/// The canonical text of a Transfer spells it, and so does that of each transfer that it is cut into, if it has at most
/// 4294967295 bytes.
pub fn transfer_is_spelled(p: &Transfer)
    ensures { TextsAreSpelled p.now }
{
    value_bounds::transfer(p);
}
