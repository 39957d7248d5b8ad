//! The calls of the client alone: no session's links change by them.

ghost use Rattle.std.specs.Prelude.{◌≡◌, IfOk, OnErr, Option};
ghost use Rattle.amqp_memory.specs.Refusal.{SomeRefused};
ghost use Rattle.amqp_driver.specs.Cutting.{cut_of};
ghost use Rattle.amqp_driver.specs.Driver.{seen};
ghost use Rattle.amqp_driver.specs.StreamTaking.{TakesStream, heard};
ghost use Rattle.amqp_driver.specs.StreamTicking.{PostsStream, TicksStream};
ghost use Rattle.amqp1.specs.Answering.{AnswersOne};
ghost use Rattle.amqp1.specs.Client.{Calls};
ghost use Rattle.amqp1.specs.Occupant.{OnClient};
ghost use Rattle.amqp1.specs.Operation.{IsOperation};
ghost use Rattle.amqp1.specs.declared.operation.Operation.{Operation};

use super::Occupant;
use crate::status::Status;
use amqp_driver::{Cut, PlainRelay, Posted, Record, Sent, Taken, TransferHead};
use amqp_idle::Tick;
use amqp_session::LinkRelay;
use std::alloc::AllocError;

impl Occupant {
    /// [`Client::call`](crate::client::Client::call).
    pub fn call(&mut self, operation: u32, input: &[u8], output: &mut [u8]) -> (i32, usize)
        ensures { OnClient (λ c c'. (o : Option Operation) × IsOperation operation o
            × Calls ⟦<PlainRelay as LinkRelay>⟧.gives o c input.now output.old result.0 result.1 c' output.new) self.old self.new }
    {
        self.client.call(operation, input, output)
    }

    /// [`Client::take`](crate::client::Client::take).
    pub fn take(&mut self, now: u64, input: &[u8], records: &mut [Record]) -> Taken
        ensures { OnClient (λ c c'. TakesStream ⟦<PlainRelay as LinkRelay>⟧.gives c.stream now (seen input.now) records.old
            result.status result.taken result.written result.wanted c'.stream records.new × (c'.last ≡ c.last)) self.old self.new }
    {
        self.client.take(now, input, records)
    }

    /// [`Client::answer`](crate::client::Client::answer).
    pub fn answer(&mut self, told: &Record, input: &[u8], flags: u16, number: u32) -> Status
        ensures { OnClient (λ c c'. AnswersOne ⟦<PlainRelay as LinkRelay>⟧.gives c flags number told.now input.now result c') self.old self.new }
    {
        self.client.answer(told, input, flags, number)
    }

    /// [`Client::heard`](crate::client::Client::heard).
    pub fn heard(&mut self, now: u64)
        ensures { OnClient (λ c c'. (c'.stream ≡ record c.stream { clock = heard 1 now c.stream.clock }) × (c'.last ≡ c.last)) self.old self.new }
    {
        self.client.heard(now);
    }

    /// [`Client::tick`](crate::client::Client::tick).
    pub fn tick(&mut self, now: u64) -> Tick
        ensures { OnClient (λ c c'. TicksStream ⟦<PlainRelay as LinkRelay>⟧.gives c.stream now result c'.stream × (c'.last ≡ c.last)) self.old self.new }
    {
        self.client.tick(now)
    }

    /// [`Client::send`](crate::client::Client::send): transfers, whatever their links allow.
    pub fn post(&mut self, heads: &[TransferHead], bytes: &[u8], sent: &mut [Sent]) -> Posted
        ensures { OnClient (λ c c'. PostsStream ⟦<PlainRelay as LinkRelay>⟧.gives c.stream heads.now bytes.now sent.old
            result.status result.taken result.used c'.stream sent.new × (c'.last ≡ c.last)) self.old self.new }
    {
        self.client.send(heads, bytes, sent)
    }

    /// [`Client::cut`](crate::client::Client::cut).
    pub fn cut(&self, head: &TransferHead, bytes: &[u8]) -> Result<Cut, AllocError>
        ensures ok { IfOk result (λ c. c ≡ cut_of self.now.client.stream.driver.engine.limit head.now bytes.now) }
        ensures refused { OnErr result SomeRefused }
    {
        self.client.cut(head, bytes)
    }
}
