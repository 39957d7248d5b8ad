//! The client: each record of what the server says has it do the next thing.

ghost use Rattle.std.specs.Prelude.{◌≡◌, OnOk, length};

use crate::message::{head, message, source, target};
use amqp_driver::{Asked, PlainRelay, Record, Status, Stream, TransferHead, answers, flag, kind};
use amqp_endpoints::{LinkEvent, SendFailure, SessionEndpoint};
use amqp_events::Policy;
use amqp_links::{SendError, SendPartError};
use amqp_sasl::Opening;
use amqp_transport::{Came, Received, Round, exchange, write_waiting};
use anyhow::bail;
use fe2o3_amqp::{
    Attach, Handle, Input, KeyHash, Open, ReceiverSettleMode, Role, SessionNo, SessionSettings,
};
use std::alloc::Global;
use std::io::{Read, Write};

/// The name of the client, and of its link.
const NAME: &str = "example_client";

/// The one session.
const SESSION: SessionNo = SessionNo(0);

/// The largest frame that this side takes.
const MAX_FRAME_SIZE: u32 = 65536;

/// What the stream answers by itself: an End, a Close, and what the server may not do. A session that the server begins it leaves unanswered.
const ANSWERS: u16 = answers::ENDS | answers::CLOSES | answers::REFUSALS;

/// The state of a delivery that a record calls accepted.
const ACCEPTED: u8 = 1;

/// A connection with one session and one link, and how many of its messages were sent, settled and accepted.
#[derive(Drop)]
pub struct Client {
    alloc: Global,
    stream: Stream<PlainRelay>,
    received: Received,
    endpoint: SessionEndpoint,
    address: String,
    messages: Vec<String>,
    link: Option<u32>,
    sent: usize,
    settled: usize,
    accepted: usize,
}

impl Client {
    /// A client that has sent nothing. One that logs in takes `Opening::client(alloc, logins, None)`.
    pub fn new(
        alloc: Global,
        hash: KeyHash,
        address: String,
        messages: Vec<String>,
    ) -> anyhow::Result<Client> {
        let mut open = Open::new(String::from_str(alloc, NAME)?);
        open.max_frame_size = MAX_FRAME_SIZE;
        Ok(Client {
            alloc,
            stream: Stream::new(alloc, 0, None, Opening::plain(alloc), hash, open)?,
            received: Received::new(alloc, MAX_FRAME_SIZE),
            endpoint: SessionEndpoint::new(alloc, SESSION, hash),
            address,
            messages,
            link: None,
            sent: 0,
            settled: 0,
            accepted: 0,
        })
    }

    /// Opens, and goes on until both sides have closed or the input ends. It is well only where each message was accepted.
    pub fn run<I: Read, O: Write>(
        &mut self,
        rt: &HostRuntime,
        input: &mut I,
        output: &mut O,
    ) -> anyhow::Result<()>
        ensures { OnOk result (self.new.accepted ≡ length self.new.messages.items) }
    {
        self.ask(Input::Open)?;
        for _ in 0..u64::MAX {
            if !self.round(rt, input, output)? {
                break;
            }
        }
        write_waiting(&mut self.stream, output)?;
        if self.accepted != self.messages.len() {
            bail!("{} messages were accepted", self.accepted);
        }
        Ok(())
    }

    /// Sends what waits, and takes a frame at most, for there is room for one record. Whether the connection goes on.
    fn round<I: Read, O: Write>(
        &mut self,
        rt: &HostRuntime,
        input: &mut I,
        output: &mut O,
    ) -> anyhow::Result<bool> {
        let (stream, received) = (&mut self.stream, &mut self.received);
        let mut records = [Record::empty()];
        // The time is 0 at each call: this client keeps none.
        let round = exchange(stream, 0, received, &mut records, input, output)?;
        if round.taken.written > 0 {
            self.take(rt, &records[0])?;
        }
        self.received.take(round.taken.taken);
        self.goes_on(round)
    }

    fn goes_on(&self, round: Round) -> anyhow::Result<bool> {
        if round.taken.status == Status::NoMemory {
            bail!("no memory");
        }
        Ok(round.came != Some(Came::End) && !self.stream.is_over())
    }

    /// Connection, session and link are made one after the other, and ended the other way round.
    fn take(&mut self, rt: &HostRuntime, record: &Record) -> anyhow::Result<()> {
        let input = self.received.bytes();
        say_error(rt, record, input)?;
        drop(self.stream.answer(record, input, ANSWERS, SESSION));
        match record.kind {
            kind::OPENED => self.ask(Input::Begin(SESSION, SessionSettings::default())),
            kind::BEGUN => self.attach(),
            kind::ENDED => self.ask(Input::Close(None)),
            _ => self.follow(rt, record),
        }
    }

    fn ask(&mut self, input: Input<PlainRelay>) -> anyhow::Result<()> {
        match self.stream.request(input) {
            Asked::Done => Ok(()),
            asked => bail!("not done: {asked:?}"),
        }
    }

    /// The link gets a handle, and then its Attach goes out. Its relay has a delivery settled whose state is final.
    fn attach(&mut self) -> anyhow::Result<()> {
        let name = String::from_str(self.alloc, NAME)?;
        let relay = PlainRelay::new(Policy::new(Role::Sender, ReceiverSettleMode::First));
        self.ask(Input::AllocateLink(SESSION, name.clone()?, Some(relay)))?;
        let mut attach = Attach::new(name, Handle(0), Role::Sender);
        attach.source = source(self.alloc)?;
        attach.target = target(self.alloc, self.address.as_str())?;
        match self.endpoint.attach(&mut self.stream, attach, None) {
            Ok(handle) => self.link = Some(handle.0),
            Err(error) => bail!("not attached: {error:?}"),
        }
        Ok(())
    }

    /// Tells the link what came, sends what may be sent now, and what the link owes: an answer to a drain comes behind the messages.
    fn follow(&mut self, rt: &HostRuntime, record: &Record) -> anyhow::Result<()> {
        let event = match self.endpoint.on_record(record, 0) {
            Ok(event) => event,
            Err(error) => bail!("not told: {error:?}"),
        };
        self.note(rt, event, record.outcome)?;
        self.send_waiting()?;
        drop(self.endpoint.respond(&mut self.stream, &event, 0));
        let due = self.endpoint.due_next(&self.stream);
        drop(self.endpoint.respond(&mut self.stream, &due, 0));
        self.finish(event)
    }

    /// Says what came, and counts what is settled.
    fn note(&mut self, rt: &HostRuntime, event: LinkEvent, outcome: u8) -> anyhow::Result<()> {
        match event {
            LinkEvent::Settled { first, last, .. } => self.settle(first, last, outcome),
            LinkEvent::Nothing => return Ok(()),
            _ => {}
        }
        eprintln!(rt; "{event:?}: {} sent, {} accepted", self.sent, self.accepted)?;
        Ok(())
    }

    /// Takes out each delivery of a range that is settled.
    fn settle(&mut self, first: u32, last: u32, outcome: u8) {
        for _ in 0..self.sent {
            if self
                .endpoint
                .settled_next(Role::Sender, first, last)
                .is_none()
            {
                break;
            }
            self.settled = self.settled.saturating_add(1);
            if outcome == ACCEPTED {
                self.accepted = self.accepted.saturating_add(1);
            }
        }
    }

    /// The link is detached once each message is settled, and the session ends behind it.
    fn finish(&mut self, event: LinkEvent) -> anyhow::Result<()> {
        if let LinkEvent::Ended { .. } = event {
            return self.ask(Input::End(SESSION, None));
        }
        if let Some(link) = self.link
            && self.settled == self.messages.len()
        {
            drop(self.endpoint.detach(&mut self.stream, link, true, None));
        }
        Ok(())
    }

    /// Sends messages while the link has credit.
    fn send_waiting(&mut self) -> anyhow::Result<()> {
        let Some(link) = self.link else {
            return Ok(());
        };
        for at in self.sent..self.messages.len() {
            if !self.send(link, at)? {
                break;
            }
            self.sent = at + 1;
        }
        Ok(())
    }

    /// Sends a message, in as many transfers as it takes. Whether the link has credit for it.
    fn send(&mut self, link: u32, at: usize) -> anyhow::Result<bool> {
        let Some(text) = self.messages.get(at) else {
            return Ok(false);
        };
        let bytes = message(self.alloc, u32::try_from(at)?, text.as_str())?;
        let mut rest = bytes.as_slice();
        let mut head = head(link, rest.len());
        for _ in 0..=bytes.len() {
            let cut = self.stream.driver().cut(&head, rest)?;
            if !self.send_part(&cut.part, rest)? {
                return Ok(false);
            }
            if cut.more == 0 {
                break;
            }
            rest = after(&cut.part, rest);
            head = cut.rest;
        }
        Ok(true)
    }

    fn send_part(&mut self, part: &TransferHead, bytes: &[u8]) -> anyhow::Result<bool> {
        match self.endpoint.send(&mut self.stream, part, bytes, 0) {
            Ok(_) => Ok(true),
            Err(
                SendFailure::Link(
                    SendPartError::Link(SendError::NoCredit | SendError::NotAttached),
                ),
            ) => Ok(false),
            Err(failure) => bail!("not sent: {failure:?}"),
        }
    }
}

/// Says why the server ends a link, the session or the connection, or why its frame was refused. The text of an error stands in the frame.
fn say_error(rt: &HostRuntime, record: &Record, input: &[u8]) -> anyhow::Result<()> {
    if record.refusal != 0 {
        eprintln!(rt; "refused: {}", record.refusal)?;
    }
    if flag::is_set(record.flags, flag::WITH_ERROR) {
        let at = record.at as usize;
        let frame = input.get(at..at + record.size as usize);
        eprintln!(rt; "ended: {}", frame.unwrap_or(&[]).escape_ascii())?;
    }
    Ok(())
}

/// What comes behind the tag and the payload of a part.
fn after<'a>(part: &TransferHead, bytes: &'a [u8]) -> &'a [u8] {
    let size = part.payload as usize + part.tag_size as usize;
    bytes.get(size..).unwrap_or(&[])
}
