//! The links of one session: their ends, and what is unsettled on them.

ghost use Rattle.std.specs.Prelude.{◌≡◌, ◌≢◌, [], None, OnOk, OnErr};
ghost use Rattle.amqp_memory.specs.Refusal.{SomeRefused};
ghost use Rattle.amqp_links.specs.declared.end.End.TheVariants as end;
ghost use Rattle.amqp_links.specs.Ends.{end_at};
ghost use Rattle.amqp_links.specs.Sending.{new_sending};
ghost use Rattle.amqp_links.specs.Receiving.{new_receiving};
ghost use Rattle.amqp_links.specs.Session.{no_links, AddsEnd, HasRoom, RemovesEnd, PutsEnd};

mod attaching;
mod granting;
mod noting;
mod sending;
mod settling;
mod taking;

use crate::end::End;
use crate::ends::Ends;
use crate::life::Life;
use crate::receiving::ReceivingLink;
use crate::sending::SendingLink;
use amqp_credit::Renewal;
use amqp_unsettled::Unsettled;
pub use attaching::PeerAttach;
pub use granting::{FlowWish, LinkFlow, PreparedFlow};
pub use sending::{PreparedPart, SendPartError, SentPart};
use std::alloc::{AllocError, Global};
use std::marker::Model;
pub use taking::{ReceivedPart, TakePartError};

/// Why the end of a link is not added. Nothing has changed then.
#[derive(Clone, Copy, Debug, PartialEq, Eq)]
pub enum AddError {
    /// The handle has an end already.
    InUse,
    /// Memory was refused. Not where [`SessionLinks::make_room`] has made room.
    OutOfMemory,
}

/// Why the end of a link is not removed. Nothing has changed then.
#[derive(Clone, Copy, Debug, PartialEq, Eq)]
pub enum RemoveError {
    /// No end has the handle.
    NoLink,
    /// The peer's Detach has not come.
    NotDetached,
    /// Deliveries of the link are unsettled: [`SessionLinks::left_next`] tells them.
    Unsettled,
}

/// The links of one session (AMQP 1.0 part 2, sections 2.6 and 2.7): the end of each, by this side's handle, and which deliveries are unsettled in
/// either direction, by their numbers. It has no engine and sends nothing: what an end answers is sent by its caller, and what comes for a link is
/// told to it. Each call finds its link at once, however many there are, and changes no other.
///
/// ```
/// let mut links = SessionLinks::new(alloc);
/// links.add_sender(0, 0)?;                                 // an Attach goes out on handle 0
/// links.on_attach(0, attach);                              // the peer's comes
/// links.on_flow(0, flow);                                  // and a flow of it, with credit
/// links.send(0, SentPart { number: 7, size: 5, end: PartEnd::Last, settled: false, given: 70 })?;
/// while let Some(entry) = links.settle_sent(7, 7) {        // a settled disposition comes
///     confirm(entry.given);                                // 70
/// }
/// ```
///
/// Its memory is that of the highest handle that was added, and of what is unsettled.
#[derive(Drop)]
pub struct SessionLinks {
    ends: Ends,
    sent: Unsettled,
    received: Unsettled,
}

impl Model for SessionLinks {
    ghost use Rattle.amqp_links.specs.Session.{LinksView};

    ghost Value = { LinksView };

    ghost view = { λ s. record { ends = s.ends; sent = s.sent; received = s.received } };
}

impl SessionLinks {
    /// A session without links. It asks for no memory.
    pub fn new(alloc: Global) -> SessionLinks
        ensures { result ≡ no_links }
    {
        SessionLinks {
            ends: Ends::new(alloc),
            sent: Unsettled::new(alloc),
            received: Unsettled::new(alloc),
        }
    }

    /// Makes room for an end of this handle, so that one can be added to it without memory.
    ///
    /// # Errors
    /// `AllocError` where memory was refused. Nothing has changed then.
    pub fn make_room(&mut self, handle: u32) -> Result<(), AllocError>
        ensures ok { OnOk result (HasRoom self.old handle self.new) }
        ensures err { OnErr result (self.new ≡ self.old) }
        ensures refused { OnErr result SomeRefused }
    {
        self.ends.make_room(handle)
    }

    /// A sending end has this handle from now on, whose Attach, from this side, has this `initial-delivery-count`. The handle is the one that the session
    /// has allotted: the lowest that is free.
    ///
    /// # Errors
    /// Each [`AddError`] says when.
    pub fn add_sender(&mut self, handle: u32, initial_delivery_count: u32) -> Result<(), AddError>
        ensures { AddsEnd self.old handle (end.Sending (new_sending initial_delivery_count)) result self.new }
    {
        self.add(
            handle,
            End::Sending(SendingLink::new(initial_delivery_count)),
        )
    }

    /// A receiving end has this handle from now on, whose Attach, from this side, has this `max-message-size`: `None` and 0 set no limit. `renewal` says
    /// when credit is renewed; with `None` it never is by itself.
    ///
    /// # Errors
    /// Each [`AddError`] says when.
    pub fn add_receiver(
        &mut self,
        handle: u32,
        renewal: Option<Renewal>,
        max_message_size: Option<u64>,
    ) -> Result<(), AddError>
        ensures { AddsEnd self.old handle (end.Receiving (new_receiving renewal max_message_size)) result self.new }
    {
        self.add(
            handle,
            End::Receiving(ReceivingLink::new(renewal, max_message_size)),
        )
    }

    fn add(&mut self, handle: u32, end: End) -> Result<(), AddError>
        ensures { AddsEnd self.old handle end result self.new }
    {
        if self.ends.get(handle).is_some() {
            return Err(AddError::InUse);
        }
        match self.ends.insert(handle, end) {
            Ok(()) => Ok(()),
            Err(_) => Err(AddError::OutOfMemory),
        }
    }

    /// The end that has this handle. A change of it is none of the session's.
    pub fn end(&self, handle: u32) -> Option<End>
        ensures { result ≡ end_at self.now.ends handle }
    {
        self.ends.get(handle)
    }

    /// The handle has no end any more, and may be given to another link: the peer has detached, and nothing is unsettled on the link. The memory by which
    /// its deliveries were found goes.
    ///
    /// # Errors
    /// Each [`RemoveError`] says when, in this order.
    pub fn remove(&mut self, handle: u32) -> Result<(), RemoveError>
        ensures { RemovesEnd (end_at self.old.ends handle) self.old handle result self.new }
    {
        let Some(end) = self.ends.get(handle) else {
            return Err(RemoveError::NoLink);
        };
        if end.life() != Life::Detached {
            return Err(RemoveError::NotDetached);
        }
        if self.sent.count_of(handle) > 0 || self.received.count_of(handle) > 0 {
            return Err(RemoveError::Unsettled);
        }
        self.sent.forget_link(handle);
        self.received.forget_link(handle);
        self.ends.replace(handle, None);
        Ok(())
    }

    /// Puts an end in the place of the one that has the handle.
    #[inline(always)]
    fn put(&mut self, handle: u32, end: End)
        requires { end_at self.old.ends handle ≢ None }
        ensures { PutsEnd self.old handle end self.new }
    {
        self.ends.replace(handle, Some(end));
    }
}
