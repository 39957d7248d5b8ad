//! A client: one side of a connection.

ghost use Rattle.std.specs.Prelude.{◌≡◌, IfOk, OnErr, Option, drop};
ghost use Rattle.amqp_memory.specs.Refusal.{SomeRefused};
ghost use Rattle.amqp_sasl.specs.declared.opening.Phase.TheVariants.{Fresh};
ghost use Rattle.amqp_driver.specs.Cutting.{cut_of};
ghost use Rattle.amqp_driver.specs.Driver.{seen};
ghost use Rattle.amqp_driver.specs.StreamTaking.{TakesStream, heard};
ghost use Rattle.amqp_driver.specs.StreamTicking.{PostsStream, TicksStream};
ghost use Rattle.amqp1.specs.declared.operation.Operation.{Operation};
ghost use Rattle.amqp1.specs.declared.operation.Group.TheVariants.{Bare};
ghost use Rattle.amqp1.specs.Operation.{IsOperation, group_of};
ghost use Rattle.amqp1.specs.Making.{BeginsAs, Makes, is_zero, unread_of};
ghost use Rattle.amqp1.specs.Client.{Calls, Performs, IfEmpty};

mod answering;
mod links;
mod logging_in;
mod requesting;
mod telling;

use crate::how::{How, limit_of};
use crate::key::hash_of;
use crate::logins::{self, LoginHead};
use crate::operation::{Group, Operation};
use crate::reading;
use crate::refused::Refused;
use crate::status::Status;
use amqp_driver::{Cut, PlainRelay, Posted, Record, Sent, Stream, Taken, TransferHead};
use amqp_idle::Tick;
use amqp_sasl::Opening;
use amqp_session::LinkRelay;
use amqp_types::{Open, ReadError};
use bytes::BytesMut;
use std::alloc::{AllocError, Global};
use std::marker::Model;

/// One side of a connection: a stream, and the last refusal of a request.
pub struct Client {
    alloc: Global,
    stream: Stream<PlainRelay>,
    last: Refused,
    /// Room for texts. Nothing that it holds between calls is read.
    scratch: BytesMut,
}

// By hand, so that whoever holds a client calls this: a drop that is derived is written out, and proved, in each crate that has one.
impl Drop for Client {
    fn drop(self) {
        let Client {
            alloc: _,
            stream,
            last,
            scratch,
        } = self;
        drop(stream);
        drop(last);
        drop(scratch);
    }
}

impl Model for Client {
    ghost use Rattle.std.specs.Coded.{codes};
    ghost use Rattle.std.specs.FinMap as map;
    ghost use Rattle.amqp_session.specs.Hashing.{hash_code};
    ghost use Rattle.amqp_session.specs.Links.{links_code};
    ghost use Rattle.amqp_connection.specs.Channels.{channel_table_code};
    ghost use Rattle.amqp1.specs.ClientView.{ClientView};

    ghost Value = { ClientView };

    ghost coded = { Prim.hlevel (codes, channel_table_code, hash_code, links_code, map.code) };

    ghost view = { λ c. record { stream = c.stream; last = c.last } };
}

/// Whether all of these bytes are 0, as in a key that nobody drew.
#[tactic(auto, using(crate::proofs::ClientLemmas::zero_first, crate::proofs::ClientLemmas::zero_last))]
fn is_zero(bytes: &[u8]) -> bool
    ensures { result ≡ is_zero bytes.now }
{
    for byte in bytes {
        if *byte != 0 {
            return false;
        }
    }
    true
}

/// The status of bytes that were not read.
fn unread(error: ReadError) -> Status
    ensures { result ≡ unread_of error }
{
    match error {
        ReadError::Malformed => Status::BadArgument,
        ReadError::OutOfMemory => Status::NoMemory,
    }
}

impl Client {
    /// A client whose stream begins now, with the key, the time and the side of SASL that `how` says, with the logins of these sizes, whose bytes
    /// stand one after the other behind the host's, and with this side's Open.
    ///
    /// The error is a status's number: 4 (`BadArgument`) where what is said asks for none, as the crate's page says, or the key is 16 zeros; 2
    /// (`NoMemory`) where memory is refused.
    pub fn new(
        alloc: Global,
        how: &How,
        open_bytes: &[u8],
        heads: &[LoginHead],
        bytes: &[u8],
    ) -> Result<Client, i32>
        ensures { Makes ⟦<PlainRelay as LinkRelay>⟧.gives how.now open_bytes.now heads.now bytes.now result }
    {
        if is_zero(&how.key) {
            return Err(Status::BadArgument.number());
        }
        let ours = match reading::open(alloc, open_bytes) {
            Ok(ours) => ours,
            Err(error) => return Err(unread(error).number()),
        };
        let opening = match logins::opening(alloc, how.side, how.host, heads, bytes) {
            Ok(opening) => opening,
            Err(error) => return Err(unread(error).number()),
        };
        Client::begin(alloc, how, opening, ours)
    }

    /// A client whose stream begins with this opening and this Open.
    fn begin(alloc: Global, how: &How, opening: Opening, ours: Open) -> Result<Client, i32>
        requires { opening.phase ≡ Fresh }
        ensures { BeginsAs ⟦<PlainRelay as LinkRelay>⟧.gives how.now opening ours result }
    {
        let hash = hash_of(&how.key);
        match Stream::new(alloc, how.time, limit_of(how.limit), opening, hash, ours) {
            Ok(stream) => Ok(Client {
                alloc,
                stream,
                last: Refused::nothing(),
                scratch: BytesMut::new(alloc),
            }),
            Err(_) => Err(Status::NoMemory.number()),
        }
    }

    /// Takes what came at this time: a header, a SASL frame, or whole frames, by [`Stream::take`].
    pub fn take(&mut self, now: u64, input: &[u8], records: &mut [Record]) -> Taken
        ensures taken { TakesStream ⟦<PlainRelay as LinkRelay>⟧.gives self.old.stream now (seen input.now) records.old
            result.status result.taken result.written result.wanted self.new.stream records.new }
        ensures last { self.new.last ≡ self.old.last }
    {
        self.stream.take(now, input, records)
    }

    /// Tells that bytes came at this time, though none of them are taken yet, by [`Stream::heard`].
    pub fn heard(&mut self, now: u64)
        ensures hears { self.new.stream ≡ record self.old.stream { clock = heard 1 now self.old.stream.clock } }
        ensures last { self.new.last ≡ self.old.last }
    {
        self.stream.heard(now);
    }

    /// Tells the time, and does what is due, by [`Stream::tick`].
    pub fn tick(&mut self, now: u64) -> Tick
        ensures ticks { TicksStream ⟦<PlainRelay as LinkRelay>⟧.gives self.old.stream now result self.new.stream }
        ensures last { self.new.last ≡ self.old.last }
    {
        self.stream.tick(now)
    }

    /// Sends transfers by their heads, by [`Stream::send`].
    pub fn send(&mut self, heads: &[TransferHead], bytes: &[u8], sent: &mut [Sent]) -> Posted
        ensures sent { PostsStream ⟦<PlainRelay as LinkRelay>⟧.gives self.old.stream heads.now bytes.now sent.old
            result.status result.taken result.used self.new.stream sent.new }
        ensures last { self.new.last ≡ self.old.last }
    {
        self.stream.send(heads, bytes, sent)
    }

    /// Cuts a head whose payload is longer than a frame, by [`Driver::cut`].
    pub fn cut(&self, head: &TransferHead, bytes: &[u8]) -> Result<Cut, AllocError>
        ensures ok { IfOk result (λ c. c ≡ cut_of self.now.stream.driver.engine.limit head.now bytes.now) }
        ensures refused { OnErr result SomeRefused }
    {
        self.stream.driver().cut(head, bytes)
    }

    /// Does the operation of this number, as [`Client::perform`] does, and answers the status by its number. 4 (`BadArgument`) and 0 where no
    /// operation has the number: nothing changes then.
    pub fn call(&mut self, operation: u32, input: &[u8], output: &mut [u8]) -> (i32, usize)
        ensures { (o : Option Operation) × IsOperation operation o
            × Calls ⟦<PlainRelay as LinkRelay>⟧.gives o self.old input.now output.old result.0 result.1 self.new output.new }
    {
        match Operation::of(operation) {
            Some(operation) => {
                let (status, written) = self.perform(operation, input, output);
                (status.number(), written)
            }
            None => (Status::BadArgument.number(), 0),
        }
    }

    /// Does an operation on the bytes of `input`, and writes what it answers to the front of `output`. The answer is the status, and how many
    /// bytes were written: with `TooSmall` how many are needed. The crate's page says of each operation what it takes and writes.
    pub fn perform(
        &mut self,
        operation: Operation,
        input: &[u8],
        output: &mut [u8],
    ) -> (Status, usize)
        ensures { Performs ⟦<PlainRelay as LinkRelay>⟧.gives operation self.old input.now output.old result.0 result.1 self.new output.new }
    {
        match operation.group() {
            Group::Links => self.link(operation, input, output),
            Group::Disposes => (self.dispose(input), 0),
            Group::FindsSession => self.session_of(input, output),
            Group::ShowsSession => self.session_state(input, output),
            Group::Measures => self.payload_room(input, output),
            Group::Names => self.refusal_text(input, output),
            Group::Bare => self.if_empty(operation, input, output),
            Group::Logs => (self.login(input), 0),
            Group::Challenges => (self.challenge(input), 0),
            Group::Responds => (self.respond(input), 0),
            Group::AnswersBegin => (self.answer_begin(input), 0),
            Group::AnswersEnd => (self.answer_end(input), 0),
            Group::LetsGo => (self.let_go(input), 0),
            Group::Asks => (self.ask(operation, input), 0),
        }
    }

    /// What is asked by an empty input.
    fn if_empty(&mut self, operation: Operation, input: &[u8], output: &mut [u8]) -> (Status, usize)
        requires { group_of operation ≡ Bare }
        ensures { IfEmpty ⟦<PlainRelay as LinkRelay>⟧.gives operation self.old input.now output.old result.0 result.1 self.new output.new }
    {
        if !input.is_empty() {
            return (Status::BadArgument, 0);
        }
        match operation {
            Operation::Output => self.output(output),
            _ => self.tell(operation, output),
        }
    }
}
