//! The parts of the deliveries that come over one link.

ghost use Rattle.std.specs.Prelude.{◌≡◌, Ok};
ghost use Rattle.amqp_credit.specs.Assembly.{new_assembly, PartStep, begun, belongs, differs};
ghost use Rattle.amqp_credit.specs.Assembly.{goes_on, with_part, settles, end_of, part_of, fits};
ghost use Rattle.amqp_credit.specs.Assembly.{format_of, finished, number_in, prepared};

use crate::part::{Part, PartEnd, PartError, PartHead, PartTag};
use std::marker::Model;

/// A delivery so far.
#[derive(Clone, Copy, Debug, PartialEq, Eq)]
pub(crate) struct Delivery {
    pub(crate) number: u32,
    pub(crate) format: Option<u32>,
    pub(crate) settled: bool,
    pub(crate) size: u64,
}

/// The parts of the deliveries that come over one link: to which delivery each transfer belongs, and what it makes of
/// it (AMQP 1.0 part 2, sections 2.6.14 and 2.7.5). Deliveries of one link are not interleaved: one ends before the
/// next begins. It asks for no memory, and keeps no payload.
///
/// ```
/// let mut parts = Assembly::new(Some(65_536));
/// let part = parts.on_part(first)?;              // is_first, and end is More: count the delivery, keep the payload
/// let part = parts.on_part(second)?;             // the same number, and end is Last: the delivery is whole
/// ```
#[derive(Clone, Copy, Debug)]
pub struct Assembly {
    limit: Option<u64>,
    current: Option<Delivery>,
}

impl Model for Assembly {
    ghost use Rattle.amqp_credit.specs.Assembly.{AssemblyView};

    ghost Value = { AssemblyView };

    ghost view = { λ a. record { limit = a.limit; current = a.current } };

    ghost inverse = { λ v. record { limit = v.limit; current = v.current } };
}

impl Assembly {
    /// The parts of a link on which no delivery has begun. `max_message_size` is that of this end's Attach: how many
    /// bytes the payload of a delivery has at most. `None` and 0 set no limit (section 2.7.3).
    pub fn new(max_message_size: Option<u64>) -> Assembly
        ensures { result ≡ new_assembly max_message_size }
    {
        Assembly {
            limit: max_message_size,
            current: None,
        }
    }

    /// A transfer has come, and says this of its part. It answers what the part is to its delivery. Where none is under
    /// way, a part begins one; else it goes on with it, and may repeat its number, tag and format. A delivery that is
    /// whole or aborted is under way no more. Where a part aborts, `more` is ignored, and so is its payload.
    ///
    /// # Errors
    /// Each [`PartError`] says when. Nothing changes then.
    #[tactic(auto, using(crate::proofs::HalvesLemmas::takes, crate::proofs::HalvesLemmas::refuses))]
    pub fn on_part(&mut self, head: PartHead) -> Result<Part, PartError>
        ensures { PartStep self.old head result self.new }
    {
        match self.prepare(head) {
            Ok(part) => {
                self.finish(head, part);
                Ok(part)
            }
            Err(error) => Err(error),
        }
    }

    /// The first half of [`Assembly::on_part`], for a caller who may still refuse the part: what it answers. Nothing
    /// changes. What is answered is given to [`Assembly::finish`], with the same head, before any other call.
    ///
    /// # Errors
    /// Those of [`Assembly::on_part`].
    #[inline(always)]
    pub fn prepare(&self, head: PartHead) -> Result<Part, PartError>
        ensures { result ≡ prepared self.now head }
    {
        let delivery = with_part(belongs(self.current, head)?, head);
        let end = end_of(head);
        if fits(self.limit, delivery.size, end) {
            Ok(part_of(delivery, self.current.is_none(), end))
        } else {
            Err(PartError::TooLarge)
        }
    }

    /// The part that was prepared for this head is taken: its delivery has it from now on. It is the one that
    /// [`Assembly::prepare`] would answer now.
    #[inline(always)]
    #[tactic(auto, using(crate::proofs::HalvesLemmas::takes_as))]
    pub fn finish(&mut self, head: PartHead, part: Part)
        requires prepared { Ok part ≡ prepared self.old head }
        ensures step { PartStep self.old head (Ok part) self.new }
        ensures is { self.new ≡ finished self.old head part }
    {
        if matches!(part.end, PartEnd::More) {
            self.current = Some(Delivery {
                number: part.number,
                format: format_of(self.current, head),
                settled: part.settled,
                size: part.size,
            });
        } else {
            self.current = None;
        }
    }

    /// The number of the delivery that is under way, if there is one.
    pub fn under_way(&self) -> Option<u32>
        ensures { result ≡ number_in self.now.current }
    {
        Some(self.current?.number)
    }
}

/// The delivery that a part belongs to, before it counts: that under way, or else one that it begins.
#[inline(always)]
fn belongs(current: Option<Delivery>, head: PartHead) -> Result<Delivery, PartError>
    ensures { result ≡ belongs current head }
{
    match current {
        Some(delivery) => goes_on(delivery, head),
        None => begun(head),
    }
}

/// The delivery that a part begins.
fn begun(head: PartHead) -> Result<Delivery, PartError>
    ensures { result ≡ begun head.number head.tag head.format }
{
    match (head.number, head.tag) {
        (None, PartTag::Absent) => Err(PartError::NoneUnderWay),
        (None, _) => Err(PartError::NoNumber),
        (_, PartTag::Absent) => Err(PartError::NoTag),
        (Some(number), _) => Ok(Delivery {
            number,
            format: head.format,
            settled: false,
            size: 0,
        }),
    }
}

/// The delivery that is under way, where a part goes on with it.
fn goes_on(delivery: Delivery, head: PartHead) -> Result<Delivery, PartError>
    ensures { result ≡ goes_on delivery head }
{
    if matches!(head.tag, PartTag::New) || differs(Some(delivery.number), head.number) {
        Err(PartError::OtherDelivery)
    } else if differs(delivery.format, head.format) {
        Err(PartError::OtherFormat)
    } else {
        Ok(delivery)
    }
}

/// Whether a part gives another number than the first one did. It may leave it out.
fn differs(first: Option<u32>, given: Option<u32>) -> bool
    ensures { result ≡ differs first given }
{
    match (first, given) {
        (_, None) => false,
        (None, Some(_)) => true,
        (Some(first), Some(given)) => first != given,
    }
}

/// A delivery with one part more. What aborts it counts as settled, and adds no bytes.
#[inline(always)]
fn with_part(delivery: Delivery, head: PartHead) -> Delivery
    ensures { result ≡ with_part delivery head }
{
    let size = if head.aborted { 0 } else { head.size };
    Delivery {
        settled: delivery.settled || settles(head),
        size: delivery.size.saturating_add(u64::from(size)),
        ..delivery
    }
}

/// Whether a part settles its delivery, or aborts it.
#[inline(always)]
fn settles(head: PartHead) -> bool
    ensures { result ≡ settles head }
{
    head.aborted || matches!(head.settled, Some(true))
}

/// Whether the delivery ends with a part.
#[inline(always)]
fn end_of(head: PartHead) -> PartEnd
    ensures { result ≡ end_of head.more head.aborted }
{
    if head.aborted {
        PartEnd::Aborted
    } else if head.more {
        PartEnd::More
    } else {
        PartEnd::Last
    }
}

/// The message format of the delivery that a part belongs to: that of its first part.
#[inline(always)]
fn format_of(current: Option<Delivery>, head: PartHead) -> Option<u32>
    ensures { result ≡ format_of current head }
{
    match current {
        Some(delivery) => delivery.format,
        None => head.format,
    }
}

/// What a part is to its delivery, which has it already.
#[inline(always)]
fn part_of(delivery: Delivery, is_first: bool, end: PartEnd) -> Part
    ensures { result ≡ part_of delivery is_first end }
{
    Part {
        number: delivery.number,
        is_first,
        end,
        settled: delivery.settled,
        size: delivery.size,
    }
}

/// Whether a delivery of this size is within the limit; 0 is none. One that is aborted always is.
#[inline(always)]
fn fits(limit: Option<u64>, size: u64, end: PartEnd) -> bool
    ensures { result ≡ fits limit size end }
{
    match (limit, end) {
        (None | Some(0), _) | (_, PartEnd::Aborted) => true,
        (Some(limit), _) => size <= limit,
    }
}
