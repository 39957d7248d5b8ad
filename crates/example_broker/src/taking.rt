//! What comes for the links of a session, and what the broker does for it.

use crate::broker::Broker;
use amqp_driver::{PlainRelay, Record, Stream};
use amqp_endpoints::{LinkEvent, RecordError, SessionEndpoint};
use amqp_links::{Entry, Part, ReceivedPart};
use fe2o3_amqp::{ErrorCondition, FrameBody, ReceiverSettleMode, Role};
use std::io::{self, ErrorKind};

/// The outcomes that records know, and that this broker gives (AMQP 1.0 part 3, section 3.4).
const ACCEPTED: u8 = 1;

const RELEASED: u8 = 3;

const MODIFIED: u8 = 4;

/// Which deliveries are unsettled no more, of those that this side has this role in: a range of them, those of a link, or all.
#[derive(Clone, Copy)]
enum Closed {
    Range(Role, u32, u32),
    Link(Role, u32),
    Session(Role),
}

impl Closed {
    fn role(self) -> Role {
        match self {
            Closed::Range(role, _, _) | Closed::Link(role, _) | Closed::Session(role) => role,
        }
    }

    /// The oldest that is left.
    fn next_of(
        self,
        endpoint: &mut SessionEndpoint,
        stream: &mut Stream<PlainRelay>,
    ) -> io::Result<Option<Entry>> {
        match self {
            Closed::Range(role, first, last) => Ok(endpoint.settled_next(role, first, last)),
            Closed::Link(_, handle) => match endpoint.left_next(stream, handle) {
                Ok(left) => Ok(left),
                Err(_) => Err(io::Error::from(ErrorKind::OutOfMemory)),
            },
            Closed::Session(Role::Sender) => Ok(endpoint.left_of_sent()),
            Closed::Session(Role::Receiver) => Ok(endpoint.left_of_received()),
        }
    }
}

impl Broker {
    /// A record is told to the links of its session.
    pub fn tell(&mut self, record: &Record) -> io::Result<LinkEvent> {
        let Some(endpoint) = self.sessions.get_mut(&record.session) else {
            return Ok(LinkEvent::Nothing);
        };
        match endpoint.on_record(record, 0) {
            Ok(event) => {
                self.take_event(record, event)?;
                Ok(event)
            }
            Err(RecordError::OutOfMemory) => Err(io::Error::from(ErrorKind::OutOfMemory)),
            Err(RecordError::NotNext) => {
                self.fault = Some(ErrorCondition::InvalidField);
                Ok(LinkEvent::Nothing)
            }
        }
    }

    fn take_event(&mut self, record: &Record, event: LinkEvent) -> io::Result<()> {
        let session = record.session;
        match event {
            LinkEvent::Part { handle, part } => self.take_part(record, handle, part),
            LinkEvent::Settled {
                role,
                first,
                last,
                ..
            } => { self.take_settled(record, role, first, last) }
            LinkEvent::Fault { handle, .. } => {
                self.drop_coming(session, handle);
                Ok(())
            }
            LinkEvent::Ended { handle, .. } => {
                self.respond(session, event);
                self.leave_link(session, handle)
            }
            _ => Ok(()),
        }
    }

    /// A part of a message. One that is whole is accepted, or released where the queue has no room for it; and it is settled, unless the client
    /// settles first.
    fn take_part(&mut self, record: &Record, handle: u32, told: ReceivedPart) -> io::Result<()> {
        let part = told.part;
        if part.is_first && !part.settled {
            self.unsettled = self.unsettled.saturating_add(1);
        }
        if told.settled.is_some() {
            self.unsettled = self.unsettled.saturating_sub(1);
        }
        let Some(at) = self.place_of(record.session, handle) else {
            return Ok(());
        };
        let waits = self.waits(at, record, part)?;
        let Some(sender) = self.senders.get_mut(at) else {
            return Ok(());
        };
        sender.waits = waits;
        let payload = payload_in(self.received.bytes(), record);
        let taken = sender.take(&mut self.queue, part, payload)?;
        match taken {
            Some(is_kept) if !part.settled => {
                self.answer(record.session, part.number, is_kept, !waits)
            }
            _ => Ok(()),
        }
    }

    /// Whether the client settles a delivery first: as its first transfer says, or else its link.
    fn waits(&self, at: usize, record: &Record, part: Part) -> io::Result<bool> {
        let Some(sender) = self.senders.get(at) else {
            return Ok(false);
        };
        if !part.is_first || !sender.is_second {
            return Ok(sender.waits && !part.is_first);
        }
        match self.body_in(record)? {
            Some(
                FrameBody::Transfer {
                    performative,
                    payload,
                },
            ) => {
                let mode = performative.rcv_settle_mode;
                drop(performative);
                drop(payload);
                Ok(mode != Some(ReceiverSettleMode::First))
            }
            other => {
                drop(other);
                Ok(true)
            }
        }
    }

    /// The client is told what became of a message of its.
    fn answer(
        &mut self,
        session: u32,
        number: u32,
        is_kept: bool,
        is_settled: bool,
    ) -> io::Result<()> {
        let Some(endpoint) = self.sessions.get_mut(&session) else {
            return Ok(());
        };
        let outcome = if is_kept { ACCEPTED } else { RELEASED };
        let asked = endpoint.settle(
            &mut self.stream,
            Role::Receiver,
            number,
            number,
            is_settled,
            outcome,
        );
        self.note(asked);
        if !is_settled {
            return Ok(());
        }
        let closed = Closed::Range(Role::Receiver, number, number);
        self.close(session, closed, false)
    }

    /// The client settles deliveries. It gives messages back, "released" or "modified", so that somebody else may have them; or it does not.
    fn take_settled(
        &mut self,
        record: &Record,
        role: Role,
        first: u32,
        last: u32,
    ) -> io::Result<()> {
        let is_back = record.outcome == RELEASED || record.outcome == MODIFIED;
        self.close(record.session, Closed::Range(role, first, last), is_back)
    }

    /// A link is over: what is left of it is given back, and its handle is free.
    fn leave_link(&mut self, session: u32, handle: u32) -> io::Result<()> {
        let role = match self.place_of(session, handle) {
            Some(_) => Role::Receiver,
            None => Role::Sender,
        };
        self.close(session, Closed::Link(role, handle), true)?;
        if let Some(endpoint) = self.sessions.get_mut(&session) {
            drop(endpoint.remove(handle));
        }
        self.drop_coming(session, handle);
        self.senders
            .retain(|it| it.session != session || it.handle != handle);
        self.consumers
            .retain(|it| it.session != session || it.handle != handle);
        Ok(())
    }

    /// A session is over: what is left of it is given back.
    pub fn leave_session(&mut self, session: u32) -> io::Result<()> {
        self.close(session, Closed::Session(Role::Sender), true)?;
        self.close(session, Closed::Session(Role::Receiver), true)?;
        for sender in self.senders.iter_mut() {
            if sender.session == session {
                sender.drop_coming(&mut self.queue);
            }
        }
        self.senders.retain(|it| it.session != session);
        self.consumers.retain(|it| it.session != session);
        drop(self.sessions.remove(&session));
        Ok(())
    }

    /// Deliveries are unsettled no more. What was given with one that this side sent is the number of its message.
    fn close(&mut self, session: u32, closed: Closed, is_back: bool) -> io::Result<()> {
        let role = closed.role();
        let most = match role {
            Role::Sender => self.queue.unsettled(),
            Role::Receiver => self.unsettled,
        };
        for _ in 0..most {
            let Some(endpoint) = self.sessions.get_mut(&session) else {
                return Ok(());
            };
            let Some(entry) = closed.next_of(endpoint, &mut self.stream)? else {
                return Ok(());
            };
            match role {
                Role::Sender => self.queue.settle(entry.given, is_back)?,
                Role::Receiver => self.unsettled = self.unsettled.saturating_sub(1),
            }
        }
        Ok(())
    }

    /// The place of a link on which the client sends.
    pub fn place_of(&self, session: u32, handle: u32) -> Option<usize> {
        self.senders
            .iter()
            .position(|it| it.session == session && it.handle == handle)
    }

    fn drop_coming(&mut self, session: u32, handle: u32) {
        let Some(at) = self.place_of(session, handle) else {
            return;
        };
        if let Some(sender) = self.senders.get_mut(at) {
            sender.drop_coming(&mut self.queue);
        }
    }
}

/// The payload that a record tells of.
fn payload_in<'a>(received: &'a [u8], record: &Record) -> &'a [u8] {
    let at = record.payload_at as usize;
    let to = at.saturating_add(record.payload as usize);
    received.get(at..to).unwrap_or(&[])
}
