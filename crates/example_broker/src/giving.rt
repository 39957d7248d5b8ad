//! Links on which the client receives: messages are sent on them, as deliveries of several transfers where they are long.

use crate::broker::Broker;
use crate::faults::refused_fault;
use crate::message::{Message, TAG};
use amqp_driver::{PlainRelay, Record, Status, Stream, TransferHead, flag};
use amqp_endpoints::{FlowWish, SendFailure, SessionEndpoint};
use amqp_links::{End, Life, SendPartError};
use fe2o3_amqp::{ErrorCondition, SessionNo};
use std::io::{self, ErrorKind};

/// A link on which the client receives.
#[derive(Clone, Copy)]
pub struct Consumer {
    /// The session.
    pub session: u32,
    /// This side's handle.
    pub handle: u32,
    /// Whether messages are settled as they are sent.
    is_settled: bool,
    /// How many bytes a message may have that the client takes; 0 sets no limit.
    most: u64,
}

impl Consumer {
    /// The link of an Attach of the client's.
    pub fn new(record: &Record, handle: u32) -> Consumer {
        Consumer {
            session: record.session,
            handle,
            is_settled: record.credit == 1,
            most: u64::from(record.last) << 32 | u64::from(record.first),
        }
    }

    fn takes(&self, message: &Message) -> bool {
        self.most == 0 || u64::from(message.size()) <= self.most
    }

    /// The head of a delivery.
    fn head(&self, message: &Message) -> TransferHead {
        let flags = flag::NUMBERED | flag::TAGGED | flag::FORMATTED;
        TransferHead {
            session: self.session,
            link: self.handle,
            format: 0,
            payload: message.size(),
            flags: if self.is_settled {
                flags | flag::SETTLED
            } else {
                flags
            },
            tag_size: TAG,
        }
    }
}

impl Broker {
    /// Sends messages on the links that have credit, and then the flows that clients wait for.
    pub fn deliver(&mut self) -> io::Result<()> {
        for at in 0..self.consumers.len() {
            let Some(consumer) = self.consumers.get(at).copied() else {
                return Ok(());
            };
            for _ in 0..self.queue.ready() {
                if !self.send_first(consumer)? {
                    break;
                }
            }
            // A flow would overtake the transfers that wait in the session, and its count has them.
            if self.is_open(consumer.session) {
                let wish = FlowWish::Answer(self.queue.ready());
                self.say(consumer.session, consumer.handle, wish);
            }
        }
        Ok(())
    }

    /// Sends the first message on a link, if that may take one. Whether it is sent.
    fn send_first(&mut self, consumer: Consumer) -> io::Result<bool> {
        let is_open = self.is_open(consumer.session);
        let Some(endpoint) = self.sessions.get_mut(&consumer.session) else {
            return Ok(false);
        };
        let Some(message) = self.queue.first() else {
            return Ok(false);
        };
        if !is_open || !has_credit(endpoint.links().end(consumer.handle)) {
            return Ok(false);
        }
        if !consumer.takes(message) {
            let why = ErrorCondition::MessageSizeExceeded;
            self.detach(consumer.session, consumer.handle, why)?;
            return Ok(false);
        }
        let sent = send_whole(endpoint, &mut self.stream, &consumer, message);
        self.note_sent(consumer, sent)
    }

    /// Whether nothing waits in a session for the client's window. Of messages that are settled as they are sent no more than one waits so.
    fn is_open(&self, session: u32) -> bool {
        match self.stream.engine().session(SessionNo(session)) {
            Some(session) => session.held_back() == 0,
            None => false,
        }
    }

    fn note_sent(&mut self, consumer: Consumer, sent: Result<(), SendFailure>) -> io::Result<bool> {
        match sent {
            Ok(()) => {
                self.queue.send_first(consumer.is_settled)?;
                Ok(true)
            }
            Err(SendFailure::Refused(number)) => {
                self.fault = Some(refused_fault(number));
                Ok(false)
            }
            Err(SendFailure::Link(SendPartError::OutOfMemory))
            | Err(SendFailure::Stopped(Status::NoMemory)) => {
                Err(io::Error::from(ErrorKind::OutOfMemory))
            }
            Err(_) => Ok(false),
        }
    }
}

/// Whether a delivery may be begun on the link of this end.
fn has_credit(end: Option<End>) -> bool {
    let Some(end) = end else {
        return false;
    };
    match end {
        End::Sending(link) => link.life() == Life::Attached && link.credit() > 0,
        End::Receiving(_) => false,
    }
}

/// Sends a message, in as many transfers as it takes.
fn send_whole(
    endpoint: &mut SessionEndpoint,
    stream: &mut Stream<PlainRelay>,
    consumer: &Consumer,
    message: &Message,
) -> Result<(), SendFailure> {
    let mut head = consumer.head(message);
    let mut rest = message.bytes();
    for _ in 0..=message.size() {
        let Ok(cut) = stream.driver().cut(&head, rest) else {
            return Err(SendFailure::Stopped(Status::NoMemory));
        };
        if cut.refusal != 0 {
            return Err(SendFailure::Refused(cut.refusal));
        }
        match endpoint.send(stream, &cut.part, rest, message.number()) {
            Ok(_) => {}
            Err(failure) => return Err(failure),
        }
        if cut.more == 0 {
            break;
        }
        let size = (cut.part.payload as usize).saturating_add(cut.part.tag_size as usize);
        rest = rest.get(size..).unwrap_or(&[]);
        head = cut.rest;
    }
    Ok(())
}
