//! The broker: what a client's frames ask of a stream, and who does it.

use crate::faults::{begin_fault, fault_of, refused_fault};
use crate::giving::Consumer;
use crate::queue::{MOST_UNSETTLED, Queue};
use crate::senders::{CREDIT, Sender, lacks_credit};
use amqp_driver::{Asked, EndAnswer, PlainRelay, Record, Status, Stream, kind};
use amqp_endpoints::{FlowWish, LinkAnswer, LinkEvent, SessionEndpoint};
use amqp_sasl::Opening;
use amqp_transport::{Came, Received, Round, exchange, write_waiting};
use bytes::Bytes;
use fe2o3_amqp::{
    DEFAULT_CHANNEL_MAX, ErrorCondition, FrameBody, FrameDecoder, Input, KeyHash, Open, SessionNo,
    SessionSettings,
};
use std::alloc::Global;
use std::collections::BTreeMap;
use std::io::{self, ErrorKind, Read, Write};

/// How many links whose transfers have gone out are told what they owe after one record, at most.
const DUE_AT_ONCE: usize = 64;

/// The largest frame that this side takes.
const MAX_FRAME_SIZE: u32 = 65536;

/// A broker with one client.
#[derive(Drop)]
pub struct Broker {
    pub alloc: Global,
    pub stream: Stream<PlainRelay>,
    pub received: Received,
    hash: KeyHash,
    /// The number of the next session.
    begun: u32,
    /// The links of each session, by its number.
    pub sessions: BTreeMap<u32, SessionEndpoint>,
    pub senders: Vec<Sender>,
    pub consumers: Vec<Consumer>,
    pub queue: Queue,
    /// How many deliveries have come and are not settled.
    pub unsettled: usize,
    /// What the client did that it may not do, if anything: the connection closes for it.
    pub fault: Option<ErrorCondition>,
}

impl Broker {
    /// A broker whose queue is empty. By the hash names, handles and channels are found that the client chooses.
    pub fn new(alloc: Global, hash: KeyHash) -> anyhow::Result<Broker> {
        let open = open(alloc)?;
        let stream = Stream::new(alloc, 0, None, Opening::plain(alloc), hash, open)?;
        Ok(Broker {
            alloc,
            stream,
            received: Received::new(alloc, MAX_FRAME_SIZE),
            hash,
            begun: 0,
            sessions: BTreeMap::new(alloc),
            senders: Vec::new(alloc),
            consumers: Vec::new(alloc),
            queue: Queue::new(alloc),
            unsettled: 0,
            fault: None,
        })
    }

    /// Opens, and takes frames until the client's Close, a fault of the client's, or the end of the input.
    pub fn serve<I: Read, O: Write>(&mut self, input: &mut I, output: &mut O) -> io::Result<()> {
        drop(self.stream.request(Input::Open));
        for _ in 0..u64::MAX {
            if !self.round(input, output)? {
                break;
            }
        }
        write_waiting(&mut self.stream, output)
    }

    /// One round: sends what waits, and takes a frame at most, for one record is all that there is room for. So each is answered before the
    /// next one is run. Whether the connection goes on.
    fn round<I: Read, O: Write>(&mut self, input: &mut I, output: &mut O) -> io::Result<bool> {
        let mut records = [Record::empty()];
        let round = exchange(
            &mut self.stream,
            0,
            &mut self.received,
            &mut records,
            input,
            output,
        )?;
        let goes_on = self.take_round(round, &records[0])?;
        self.received.take(round.taken.taken);
        Ok(goes_on)
    }

    fn take_round(&mut self, round: Round, record: &Record) -> io::Result<bool> {
        if round.taken.status == Status::NoMemory {
            return Err(io::Error::from(ErrorKind::OutOfMemory));
        }
        if round.taken.written > 0 && !self.take(record)? {
            return Ok(false);
        }
        Ok(round.came != Some(Came::End) && !self.stream.is_over())
    }

    /// Takes a record; sends then what can be sent, what its link owes, and credit. A fault closes the connection.
    fn take(&mut self, record: &Record) -> io::Result<bool> {
        if record.kind == kind::CLOSED {
            drop(self.stream.request(Input::Close(None)));
            return Ok(false);
        }
        let event = self.look_at(record)?;
        self.deliver()?;
        self.respond(record.session, event);
        self.pay(record.session);
        self.renew();
        if self.stream.driver().unfit() > 0 {
            self.fault = Some(ErrorCondition::FrameSizeTooSmall);
        }
        let Some(fault) = self.fault else {
            return Ok(true);
        };
        let error = fault.to_error(self.alloc)?;
        drop(self.stream.request(Input::Close(Some(error))));
        Ok(false)
    }

    /// A Begin and an End of the client's are answered, an Attach makes a link; anything else is told to the links.
    fn look_at(&mut self, record: &Record) -> io::Result<LinkEvent> {
        match record.kind {
            kind::BEGIN_WANTED => self.take_begin(record)?,
            kind::ATTACH_WANTED => self.take_attach(record)?,
            kind::ENDED => self.take_end(record.session)?,
            kind::REFUSED => self.fault = Some(refused_fault(record.refusal)),
            _ => return self.tell(record),
        }
        Ok(LinkEvent::Nothing)
    }

    /// What the frame of a record says, if it can be read.
    pub fn body_in(&self, record: &Record) -> io::Result<Option<FrameBody>> {
        let frame = frame_in(self.received.bytes(), record);
        let frame = Bytes::copy_from_slice(self.alloc, frame)?;
        match FrameDecoder::new().decode(self.alloc, frame) {
            Ok((frame, rest)) => {
                drop(rest);
                Ok(Some(frame.into_body()))
            }
            Err(_) => Ok(None),
        }
    }

    /// A session that the client begins is one that this side's engine begins.
    fn take_begin(&mut self, record: &Record) -> io::Result<()> {
        let number = self.begun;
        self.begun = number.saturating_add(1);
        let endpoint = SessionEndpoint::new(self.alloc, SessionNo(number), self.hash);
        drop(self.sessions.insert(number, endpoint)?);
        let answer = self.stream.answer_begin(
            frame_in(self.received.bytes(), record),
            SessionNo(number),
            SessionSettings::default(),
        );
        self.fault = begin_fault(answer);
        Ok(())
    }

    /// The session is over on both sides, and so are its links.
    fn take_end(&mut self, number: u32) -> io::Result<()> {
        let answer = self.stream.answer_end(SessionNo(number), None);
        if !matches!(&answer, EndAnswer::Done) {
            self.fault = Some(ErrorCondition::ResourceLimitExceeded);
        }
        drop(answer);
        self.leave_session(number)
    }

    /// What the link of an event owes for it: credit is granted elsewhere, and what a receiver asked for is answered behind its messages.
    pub fn respond(&mut self, session: u32, event: LinkEvent) {
        let is_owed = match event {
            LinkEvent::Fault { .. }
            | LinkEvent::PassedOver { .. }
            | LinkEvent::Part { .. }
            | LinkEvent::Ended { .. }
            | LinkEvent::Settled { .. } => true,
            LinkEvent::Flow { handle, used: _ } => self.place_of(session, handle).is_some(),
            _ => false,
        };
        if !is_owed {
            return;
        }
        let Some(endpoint) = self.sessions.get_mut(&session) else {
            return;
        };
        let answer = endpoint.respond(&mut self.stream, &event, 0);
        self.note_said(answer);
    }

    /// Links whose transfers waited for the client's window say what they owe, once these have gone out. A handle is free whose link is over.
    fn pay(&mut self, session: u32) {
        for _ in 0..DUE_AT_ONCE {
            let Some(endpoint) = self.sessions.get_mut(&session) else {
                return;
            };
            let LinkEvent::Due { handle } = endpoint.due_next(&self.stream) else {
                return;
            };
            let answer = endpoint.respond(&mut self.stream, &LinkEvent::Due { handle }, 0);
            drop(endpoint.remove(handle));
            self.note_said(answer);
        }
    }

    /// A link says what it is to say, if anything.
    pub fn say(&mut self, session: u32, handle: u32, wish: FlowWish) {
        let Some(endpoint) = self.sessions.get_mut(&session) else {
            return;
        };
        let answer = endpoint.say(&mut self.stream, handle, wish);
        self.note_said(answer);
    }

    /// Grants credit to the links on which the client sends, where it is due, and while there is room for messages.
    fn renew(&mut self) {
        if !self.queue.has_room() || self.unsettled >= MOST_UNSETTLED {
            return;
        }
        for at in 0..self.senders.len() {
            let Some(sender) = self.senders.get(at) else {
                return;
            };
            let (session, handle) = (sender.session, sender.handle);
            if self.lacks_credit(session, handle) {
                self.say(session, handle, FlowWish::Grant(CREDIT));
            }
        }
    }

    /// Whether a link on which the client sends has little credit left.
    fn lacks_credit(&self, session: u32, handle: u32) -> bool {
        let Some(endpoint) = self.sessions.get(&session) else {
            return false;
        };
        lacks_credit(endpoint.links().end(handle))
    }

    /// The same of a flow or a Detach. One that waits is not done yet.
    pub fn note_said(&mut self, answer: LinkAnswer) {
        match answer {
            LinkAnswer::Asked(asked) => self.note(Some(asked)),
            LinkAnswer::HeldBack | LinkAnswer::NotWanted => {}
        }
    }

    /// What was asked for, if anything, is done, or a fault.
    pub fn note(&mut self, asked: Option<Asked>) {
        let Some(asked) = asked else {
            return;
        };
        if let Some(fault) = fault_of(asked) {
            self.fault = Some(fault);
        }
    }
}

/// This side's Open.
fn open(alloc: Global) -> io::Result<Open> {
    let name = String::from_str(alloc, "example_broker")?;
    Ok(Open {
        max_frame_size: MAX_FRAME_SIZE,
        channel_max: DEFAULT_CHANNEL_MAX,
        ..Open::new(name)
    })
}

/// The bytes of a frame behind its size: its performative stands four bytes behind their beginning.
fn frame_in<'a>(received: &'a [u8], record: &Record) -> &'a [u8] {
    let at = record.at as usize;
    let to = at.saturating_add(record.size as usize);
    received.get(at.saturating_sub(4)..to).unwrap_or(&[])
}
