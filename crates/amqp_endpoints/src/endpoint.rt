//! The endpoint of one session: its links.

ghost use Rattle.std.specs.Prelude.{◌≡◌, OnOk, OnErr};
ghost use Rattle.amqp_memory.specs.Refusal.{SomeRefused};
ghost use Rattle.amqp_endpoints.specs.Endpoint.{LeavesReceived, LeavesSent, HasRoom, Removes, SettlesNext, Stands, new_endpoint};

mod attaching;
mod flowing;
mod responding;
mod sending;
mod settling;
mod telling;
mod waiting;

use crate::inputs::Inputs;
use crate::late::LateLink;
use crate::place::Places;
use amqp_connection::SessionNo;
use amqp_links::{Entry, RemoveError, SessionLinks};
use amqp_session::keys::KeyHash;
use amqp_types::Role;
pub use attaching::AttachError;
pub use sending::{SendFailure, SentDelivery};
pub use settling::NoMemory;
use std::alloc::{AllocError, Global};
use std::collections::VecDeque;
use std::marker::Model;

/// The links of one session over a [`Stream`](amqp_driver::Stream) (AMQP 1.0 part 2, section 2.6): the end of each, by this side's handle, and what is
/// unsettled on them. Each call that sends goes by the stream, which is handed to it; what comes for the session's links is told to
/// [`SessionEndpoint::on_record`], record by record, in order. It finds a link at once, however many there are.
///
/// Its memory is that of the highest handle that was attached, of what is unsettled, and of the links of which a call waits.
#[derive(Drop)]
pub struct SessionEndpoint {
    alloc: Global,
    session: SessionNo,
    links: SessionLinks,
    places: Places,
    inputs: Inputs,
    sent: u64,
    late: VecDeque<LateLink>,
}

impl Model for SessionEndpoint {
    ghost use Rattle.std.specs.Coded.{codes};
    ghost use Rattle.std.specs.FinMap as map;
    ghost use Rattle.amqp_endpoints.specs.Endpoint.{EndpointView, input_table_code};

    ghost Value = { EndpointView };

    ghost coded = { Prim.hlevel (codes, input_table_code) };

    ghost view = { λ e. record { session = e.session; links = e.links; places = e.places; inputs = e.inputs; sent = e.sent; late = e.late.items } };
}

impl SessionEndpoint {
    /// The endpoint of the session that has this number in the stream's engine, without links. It asks for no memory. The peer's handles are found by this
    /// hash: [`Stream::new`](amqp_driver::Stream::new) is handed the same.
    pub fn new(alloc: Global, session: SessionNo, hash: KeyHash) -> SessionEndpoint
        ensures { result ≡ new_endpoint session }
    {
        SessionEndpoint {
            alloc,
            session,
            links: SessionLinks::new(alloc),
            places: Places::new(alloc),
            inputs: Inputs::new(alloc, hash),
            sent: 0,
            late: VecDeque::new(alloc),
        }
    }

    /// The session.
    pub fn session(&self) -> SessionNo
        ensures { result ≡ self.now.session }
    {
        self.session
    }

    /// The ends of its links, and what is unsettled on them.
    pub fn links(&self) -> &SessionLinks
        ensures { result.now ≡ self.now.links }
    {
        &self.links
    }

    /// Takes out the oldest unsettled delivery of a range of numbers, which is settled: of those that this side sent, where its role is
    /// [`Role::Sender`], and else of those that have come. Called until it answers `None`, it gives each one back once, in the order of their numbers.
    pub fn settled_next(&mut self, role: Role, first: u32, last: u32) -> Option<Entry>
        ensures { SettlesNext role first last self.old result self.new }
    {
        match role {
            Role::Sender => self.links.settle_sent(first, last),
            Role::Receiver => self.links.settle_received(first, last),
        }
    }

    /// The same of all that this side sent, on any link: for a session that is over.
    pub fn left_of_sent(&mut self) -> Option<Entry>
        ensures { LeavesSent self.old result self.new }
    {
        self.links.left_of_sent()
    }

    /// The same of all that has come.
    pub fn left_of_received(&mut self) -> Option<Entry>
        ensures { LeavesReceived self.old result self.new }
    {
        self.links.left_of_received()
    }

    /// The handle has no end any more: both sides have detached, and nothing is unsettled on the link. A link that this side attaches may have it again.
    ///
    /// # Errors
    /// Each [`RemoveError`] says when; and [`RemoveError::NotDetached`] too where this side's Detach is still to be sent.
    pub fn remove(&mut self, handle: u32) -> Result<(), RemoveError>
        ensures { Removes self.old handle result self.new }
    {
        if self.places.get(handle).owes {
            return Err(RemoveError::NotDetached);
        }
        self.links.remove(handle)
    }

    /// Makes room for a link of this handle.
    fn make_room(&mut self, handle: u32) -> Result<(), AllocError>
        ensures ok { OnOk result (HasRoom self.old handle self.new) }
        ensures err { OnErr result (Stands self.old self.new) }
        ensures refused { OnErr result SomeRefused }
    {
        self.links.make_room(handle)?;
        self.places.make_room(handle)
    }
}
