//! Records that come for a session's links.

ghost use Rattle.std.specs.Prelude.{◌≡◌};
ghost use Rattle.amqp_endpoints.specs.Places.{PutsPlace, place_at};
ghost use Rattle.amqp_endpoints.specs.Reading.{first_attach};
ghost use Rattle.amqp_endpoints.specs.Telling.{OnRecord, TellsAny, TellsAttach, TellsDetach, TellsFlow, TellsLink, TellsOther, TellsPart, is_unanswered, keeps_tag, link_by, owing};

use super::SessionEndpoint;
use crate::event::{LinkEvent, RecordError};
use crate::place::LinkPlace;
use crate::reading::{credit_flow, first_attach, part_head, peer_attach, settled_range};
use amqp_driver::{NONE, Record, flag, kind};
use amqp_links::{LinkEnd, Part, PartEnd, PeerAttach, TakePartError, TransferError};

/// Whether a Detach of the peer's is to be answered by one.
fn is_unanswered(end: LinkEnd) -> bool
    ensures { result ≡ is_unanswered end }
{
    matches!(end, LinkEnd::Refused | LinkEnd::ByPeer)
}

/// Whether the tag of a delivery is kept: where it begins, and more of it follows.
fn keeps_tag(part: Part) -> bool
    ensures { result ≡ keeps_tag part }
{
    part.is_first && matches!(part.end, PartEnd::More)
}

impl SessionEndpoint {
    /// A record that [`Stream::take`](amqp_driver::Stream::take) wrote is told to the links of its session, and what it is to them is answered. Every record is
    /// told once, in the order in which they were written. `given` is kept with a delivery that begins by it and is unsettled, and given back with it.
    ///
    /// A Disposition settles where it says so, and where it has a terminal state of a receiver: a relay answers that one by a settled one, as
    /// `Policy::new` of `amqp_events` has it (AMQP 1.0 part 2, section 2.6.12).
    ///
    /// # Errors
    /// Each [`RecordError`] says when. Nothing has changed then, and the record may be told again.
    ///
    /// ```
    /// match endpoint.on_record(record, 0)? {
    ///     LinkEvent::Part { handle, part } => ..,                  // its payload stands at record.payload_at
    ///     LinkEvent::Settled { role, first, last } => {
    ///         while let Some(entry) = endpoint.settled_next(role, first, last) { .. }
    ///     }
    ///     _ => {}
    /// }
    /// ```
    #[inline(always)]
    pub fn on_record(&mut self, told: &Record, given: u64) -> Result<LinkEvent, RecordError>
        ensures { OnRecord self.old told.now given result self.new }
    {
        if told.session != self.session.0 {
            return Ok(LinkEvent::Nothing);
        }
        if told.kind == kind::DISPOSITION {
            return Ok(settled_range(told));
        }
        self.on_any(told, given)
    }

    /// A record that is no Disposition is told to its link, if it is of one.
    #[inline(never)]
    fn on_any(&mut self, told: &Record, given: u64) -> Result<LinkEvent, RecordError>
        ensures { TellsAny (link_by self.old told.now) self.old told.now given result self.new }
    {
        match self.link_by(told) {
            Some(handle) => self.on_link(told, handle, given),
            None => Ok(LinkEvent::Nothing),
        }
    }

    /// The peer's Attach that came before this side's, as a record of [`ATTACH_WANTED`](amqp_driver::kind::ATTACH_WANTED), is told to the link that answers
    /// it, which [`SessionEndpoint::attach`] has attached under this handle. It refuses nothing, also where it has no source or no target (section 2.6.3).
    /// [`LinkEvent::Nothing`] where no end has the handle.
    ///
    /// # Errors
    /// [`RecordError::OutOfMemory`] where memory was refused. Nothing has changed then, and it may be told again.
    pub fn on_wanted(&mut self, told: &Record, handle: u32) -> Result<LinkEvent, RecordError>
        ensures { TellsAttach self.old told.now handle (first_attach told.now) result self.new }
    {
        self.on_attach(told, handle, first_attach(told))
    }

    /// An Attach of the peer's is told to the link that has this handle: it says this.
    fn on_attach(
        &mut self,
        told: &Record,
        handle: u32,
        attach: PeerAttach,
    ) -> Result<LinkEvent, RecordError>
        ensures { TellsAttach self.old told.now handle attach result self.new }
    {
        if self.links.end(handle).is_none() {
            return Ok(LinkEvent::Nothing);
        }
        let Ok(()) = self.inputs.put(told.input, handle) else {
            return Err(RecordError::OutOfMemory);
        };
        match self.links.on_attach(handle, attach) {
            Some(life) => Ok(LinkEvent::Attached { handle, life }),
            None => Ok(LinkEvent::Nothing),
        }
    }

    /// This side's handle of the link of a record: also where this side has detached it.
    #[inline(always)]
    fn link_by(&self, told: &Record) -> Option<u32>
        ensures { result ≡ link_by self.now told.now }
    {
        if told.output != NONE {
            return Some(told.output);
        }
        if flag::is_set(told.flags, flag::LINKED) {
            self.inputs.of(told.input)
        } else {
            None
        }
    }

    /// A record is told to the link that has this handle.
    #[inline(always)]
    fn on_link(&mut self, told: &Record, handle: u32, given: u64) -> Result<LinkEvent, RecordError>
        ensures { TellsLink self.old told.now handle given result self.new }
    {
        if told.kind == kind::TRANSFER {
            self.on_transfer(told, handle, given)
        } else {
            self.on_other(told, handle)
        }
    }

    /// A record that is no Transfer is told to the link that has this handle. It stands apart, since most are Transfers.
    #[inline(never)]
    fn on_other(&mut self, told: &Record, handle: u32) -> Result<LinkEvent, RecordError>
        ensures { TellsOther self.old told.now handle result self.new }
    {
        if told.kind == kind::FLOW {
            Ok(self.on_flow(told, handle))
        } else if told.kind == kind::ATTACHED {
            self.on_attach(told, handle, peer_attach(told))
        } else if told.kind == kind::DETACHED {
            Ok(self.on_detach(told, handle))
        } else {
            Ok(LinkEvent::Nothing)
        }
    }

    fn on_flow(&mut self, told: &Record, handle: u32) -> LinkEvent
        ensures { TellsFlow self.old told.now handle result self.new }
    {
        match self.links.on_flow(handle, credit_flow(told)) {
            None => LinkEvent::Nothing,
            Some(Ok(used)) => LinkEvent::Flow { handle, used },
            Some(Err(fault)) => {
                self.owe(handle, true);
                LinkEvent::Fault {
                    handle,
                    fault,
                    number: None,
                }
            }
        }
    }

    #[inline(always)]
    fn on_transfer(
        &mut self,
        told: &Record,
        handle: u32,
        given: u64,
    ) -> Result<LinkEvent, RecordError>
        ensures { TellsPart self.old told.now handle given result self.new }
    {
        let head = part_head(self.places.part_tag(handle, told), told);
        let number = head.number;
        match self.links.on_transfer(handle, head, given) {
            Ok(part) => {
                if keeps_tag(part.part) {
                    self.places.keep_tag(handle, told);
                }
                Ok(LinkEvent::Part { handle, part })
            }
            Err(TakePartError::NoReceiver) => Ok(LinkEvent::Nothing),
            Err(TakePartError::Link(TransferError::NotAttached)) => {
                Ok(LinkEvent::PassedOver { handle, number })
            }
            Err(TakePartError::Link(TransferError::Fault(fault))) => {
                self.owe(handle, true);
                Ok(LinkEvent::Fault {
                    handle,
                    fault,
                    number,
                })
            }
            Err(TakePartError::NotNext) => Err(RecordError::NotNext),
            Err(TakePartError::OutOfMemory) => Err(RecordError::OutOfMemory),
        }
    }

    fn on_detach(&mut self, told: &Record, handle: u32) -> LinkEvent
        ensures { TellsDetach self.old told.now handle result self.new }
    {
        self.inputs.forget(told.input);
        let Some(end) = self.links.on_detach(handle) else {
            return LinkEvent::Nothing;
        };
        let closed = flag::is_set(told.flags, flag::FOR_GOOD);
        if is_unanswered(end) {
            self.owe(handle, closed);
        }
        LinkEvent::Ended {
            handle,
            end,
            closed,
        }
    }

    /// This side's Detach is to be sent for the link that has this handle. It closes the link for good, or not.
    fn owe(&mut self, handle: u32, closes: bool)
        ensures place { PutsPlace self.old.places handle (owing self.old handle closes) self.new.places }
        ensures rest { self.new ≡ record self.old { places = self.new.places } }
    {
        let place = self.places.get(handle);
        self.places.put(
            handle,
            LinkPlace {
                owes: true,
                closes,
                ..place
            },
        );
    }
}
