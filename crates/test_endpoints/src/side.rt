//! One side of a connection, with one session and the endpoint of its links.

use amqp_connection::SessionNo;
use amqp_driver::{Asked, PlainRelay, Record, Status, Stream, TransferHead, answers, flag, kind};
use amqp_endpoints::{LinkAnswer, LinkEvent, Renewal, SendFailure, SessionEndpoint};
use amqp_engine::Input;
use amqp_events::Policy;
use amqp_links::Entry;
use amqp_sasl::Opening;
use amqp_session::keys::KeyHash;
use amqp_session::{InputHandle, SessionSettings};
use amqp_types::{Attach, Handle, Open, Raw, ReceiverSettleMode, Role};
use std::alloc::{AllocError, Global};
use std::test::Fail;

/// The number of the session on either side.
pub const SESSION: SessionNo = SessionNo(0);

/// How many events one exchange tells.
pub const MOST: usize = 8;

/// A side, and what the records of the last exchange were to its links.
pub struct Side {
    pub stream: Stream<PlainRelay>,
    pub endpoint: SessionEndpoint,
    pub events: [LinkEvent; MOST],
    pub count: usize,
    pub wanted: Option<Record>,
    /// How the receiving end of its links settles.
    pub mode: ReceiverSettleMode,
}

impl Drop for Side {
    fn drop(self) {
        let Side {
            stream,
            endpoint,
            events: _,
            count: _,
            wanted: _,
            mode: _,
        } = self;
        drop(stream);
        drop(endpoint);
    }
}

/// A side that is to open, and takes frames of at most so many bytes.
fn new_side(alloc: Global, largest: u32) -> Result<Side, Fail> {
    let mut open = Open::new(String::from_str(alloc, "me")?);
    open.max_frame_size = largest;
    match Stream::new(alloc, 0, None, Opening::plain(alloc), KeyHash::Fixed, open) {
        Ok(stream) => Ok(Side {
            stream,
            endpoint: SessionEndpoint::new(alloc, SESSION, KeyHash::Fixed),
            events: [LinkEvent::Nothing; MOST],
            count: 0,
            wanted: None,
            mode: ReceiverSettleMode::First,
        }),
        Err(_) => Err(Fail::new("no stream")),
    }
}

/// Two sides whose session is mapped.
pub fn pair(alloc: Global) -> Result<(Side, Side), Fail> {
    pair_by(alloc, SessionSettings::new(), u32::MAX)
}

/// The same, where the client begins the session by these settings, and each takes frames of at most so many bytes.
pub fn pair_by(
    alloc: Global,
    settings: SessionSettings,
    largest: u32,
) -> Result<(Side, Side), Fail> {
    let mut client = new_side(alloc, largest)?;
    let mut server = new_side(alloc, largest)?;
    let _ = is_done(client.stream.request(Input::Open));
    let _ = is_done(server.stream.request(Input::Open));
    exchange(alloc, &mut client, &mut server)?;
    exchange(alloc, &mut server, &mut client)?;
    let begin = Input::Begin(SESSION, settings);
    let _ = is_done(client.stream.request(begin));
    exchange(alloc, &mut client, &mut server)?;
    exchange(alloc, &mut server, &mut client)?;
    Ok((client, server))
}

pub fn is_done(asked: Asked) -> bool {
    matches!(asked, Asked::Done)
}

/// Whether something was asked for, and is done.
pub fn is_all_done(asked: Option<Asked>) -> bool {
    match asked {
        Some(asked) => is_done(asked),
        None => false,
    }
}

/// Whether a flow or a Detach was asked for, and is done.
pub fn is_sent(answer: LinkAnswer) -> bool {
    match answer {
        LinkAnswer::Asked(asked) => is_done(asked),
        LinkAnswer::HeldBack | LinkAnswer::NotWanted => false,
    }
}

/// What waits to be sent, which is sent then.
fn sent(stream: &mut Stream<PlainRelay>, alloc: Global) -> Result<Vec<u8>, AllocError> {
    let mut all = Vec::new(alloc);
    for _ in 0..16 {
        let out = stream.out();
        let count = out.len();
        all.extend_from_slice(out)?;
        stream.sent(count);
    }
    Ok(all)
}

/// What [`pass`] does; a failure where memory was refused.
pub fn exchange(alloc: Global, from: &mut Side, to: &mut Side) -> Result<(), Fail> {
    if pass(alloc, from, to) {
        Ok(())
    } else {
        Err(Fail::new("memory was refused"))
    }
}

/// All that waits on one side comes to the other one, which answers what a record asks for, tells its links, and says what they owe. Whether memory was there.
pub fn pass(alloc: Global, from: &mut Side, to: &mut Side) -> bool {
    let Ok(bytes) = sent(&mut from.stream, alloc) else {
        return false;
    };
    let mut at = 0;
    to.count = 0;
    to.events = [LinkEvent::Nothing; MOST];
    let mut records = [Record::empty(); MOST];
    for _ in 0..16 {
        let rest = &bytes[at.min(bytes.len())..];
        let taken = to.stream.take(0, rest, &mut records);
        for record in records.get(..taken.written).unwrap_or(&[]) {
            to.tell(record, rest);
        }
        at = at.saturating_add(taken.taken);
        if taken.status != Status::Again && taken.status != Status::Full {
            break;
        }
    }
    drop(bytes);
    true
}

impl Side {
    /// The last event that was told.
    pub fn last(&self) -> LinkEvent {
        match self.events.get(self.count.saturating_sub(1)) {
            Some(event) => *event,
            None => LinkEvent::Nothing,
        }
    }

    /// A record is told to the links.
    fn tell(&mut self, record: &Record, input: &[u8]) {
        drop(self.stream.answer(record, input, answers::BEGINS, SESSION));
        if record.kind == kind::ATTACH_WANTED {
            self.wanted = Some(*record);
        }
        let Ok(event) = self.endpoint.on_record(record, 7) else {
            return;
        };
        self.follow(event);
        for _ in 0..MOST {
            let due = self.endpoint.due_next(&self.stream);
            if due == LinkEvent::Nothing {
                break;
            }
            self.follow(due);
        }
    }

    /// An event is kept, and what the link owes for it is sent.
    fn follow(&mut self, event: LinkEvent) {
        if event != LinkEvent::Nothing && self.count < MOST {
            self.events[self.count] = event;
            self.count += 1;
        }
        drop(self.endpoint.respond(&mut self.stream, &event, 0));
    }

    /// How many deliveries its session has open.
    pub fn open_deliveries(&self) -> usize {
        match self.stream.engine().session(SESSION) {
            Some(session) => session.open_deliveries(),
            None => 0,
        }
    }

    /// The next delivery that is left on a link.
    pub fn left_next(&mut self, link: u32) -> Option<Entry> {
        match self.endpoint.left_next(&mut self.stream, link) {
            Ok(left) => left,
            Err(_) => None,
        }
    }

    /// Attaches a link of this name.
    pub fn attach(
        &mut self,
        alloc: Global,
        name: &str,
        role: Role,
        renewal: Option<Renewal>,
        limit: Option<u64>,
    ) -> Result<u32, Fail> {
        let policy = Policy::new(role, self.mode);
        let relay = PlainRelay::new(policy);
        let name = String::from_str(alloc, name)?;
        let said = name.clone()?;
        let asked = match self.wanted {
            None => self
                .stream
                .request(Input::AllocateLink(SESSION, name, Some(relay))),
            Some(record) => self.stream.request(Input::AllocateIncomingLink(
                SESSION,
                name,
                relay,
                InputHandle(record.input),
            )),
        };
        drop(asked);
        let mut attach = Attach::new(said, Handle(0), role);
        attach.max_message_size = limit;
        attach.source = Some(terminus(alloc)?);
        attach.target = Some(terminus(alloc)?);
        match self.endpoint.attach(&mut self.stream, attach, renewal) {
            Ok(handle) => {
                self.answer(handle.0);
                Ok(handle.0)
            }
            Err(_) => Err(Fail::new("not attached")),
        }
    }

    /// Attaches a receiver of this name whose handle is allotted to another one, in answer to the peer's Attach.
    pub fn attach_under(&mut self, alloc: Global, under: &str, name: &str) -> Result<u32, Fail> {
        let Some(record) = self.wanted else {
            return Err(Fail::new("no Attach has come"));
        };
        let relay = PlainRelay::new(Policy::new(Role::Receiver, ReceiverSettleMode::First));
        drop(
            self.stream.request(Input::AllocateIncomingLink(
                SESSION,
                String::from_str(alloc, under)?,
                relay,
                InputHandle(record.input),
            )),
        );
        let mut attach = Attach::new(String::from_str(alloc, name)?, Handle(0), Role::Receiver);
        attach.source = Some(terminus(alloc)?);
        attach.target = Some(terminus(alloc)?);
        let renewal = Some(Renewal { low: 1, high: 2 });
        match self
            .endpoint
            .attach_under(&mut self.stream, under, attach, renewal)
        {
            Ok(handle) => {
                self.answer(handle.0);
                Ok(handle.0)
            }
            Err(_) => Err(Fail::new("not attached")),
        }
    }

    /// The peer's Attach, where it came first, is told to the link, which says what it owes.
    fn answer(&mut self, handle: u32) {
        let Some(record) = self.wanted else {
            return;
        };
        self.wanted = None;
        if let Ok(event) = self.endpoint.on_wanted(&record, handle) {
            drop(self.endpoint.respond(&mut self.stream, &event, 0));
        }
    }

    /// Sends a delivery of these bytes, with a tag of one byte, or a part of one by these flags; its number, or why not.
    pub fn send(&mut self, link: u32, bytes: &[u8], flags: u16) -> Result<u32, SendFailure> {
        let head = TransferHead {
            session: 99,
            link,
            format: 0,
            payload: u32::try_from(bytes.len().saturating_sub(1)).unwrap_or(0),
            flags: flags | flag::TAGGED,
            tag_size: 1,
        };
        match self.endpoint.send(&mut self.stream, &head, bytes, 70) {
            Ok(sent) => Ok(sent.number),
            Err(failure) => Err(failure),
        }
    }
}

/// A source or a target without fields: a described list of none.
fn terminus(alloc: Global) -> Result<Raw, Fail> {
    let bytes = bytes::Bytes::copy_from_slice(alloc, b"\x00\x53\x28\x45")?;
    match Raw::of_bytes(bytes) {
        Some(raw) => Ok(raw),
        None => Err(Fail::new("no value")),
    }
}
