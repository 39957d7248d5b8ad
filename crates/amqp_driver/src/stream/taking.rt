//! What a stream takes: a header, a SASL frame, or whole frames.

ghost use Rattle.std.specs.Prelude.{◌≡◌, ◌≢◌, [], IfOk, OnErr};
ghost use Rattle.amqp_memory.specs.Refusal.{SomeRefused};
ghost use Rattle.amqp_values.specs.Text.{IsSymbolText};
ghost use Rattle.amqp_driver.specs.Driver.{seen};
ghost use Rattle.amqp_driver.specs.StreamTaking.{ClosesFor, TakesFrames, TakesStream, TakesThing, error_of, heard, is_bad_size, status_of_error, status_of_told, wanted_of};

use super::Stream;
use crate::driver::{Driver, seen};
use crate::opened::record_of_told;
use crate::record::Record;
use crate::status::{Status, Taken};
use amqp_engine::Input;
use amqp_memory::text_of;
use amqp_sasl::{OpeningError, Told};
use amqp_session::LinkRelay;
use amqp_types::Error;
use amqp_values::Symbol;
use std::alloc::{AllocError, Global};

/// An error of this condition.
fn error_of(alloc: Global, condition: &str) -> Result<Error, AllocError>
    requires { IsSymbolText condition.now }
    ensures value { IfOk result (λ e. e ≡ error_of condition.now) }
    ensures refused { OnErr result SomeRefused }
{
    let text = text_of(alloc, condition)?;
    Ok(Error {
        condition: Symbol::new(text).unwrap(),
        description: None,
        info: None,
    })
}

/// Requests a Close for this condition, where memory for it is granted. It is refused where this side has closed, or has not opened.
pub(super) fn close_for<R: LinkRelay>(alloc: Global, driver: &mut Driver<R>, condition: &str)
    requires { IsSymbolText condition.now }
    ensures { ClosesFor R.gives condition.now driver.old driver.new }
{
    match error_of(alloc, condition) {
        Ok(error) => drop(driver.request(Input::Close(Some(error)))),
        Err(_) => {}
    }
}

/// That nothing was done.
fn idle(status: Status) -> Taken
    ensures { result ≡ record { status = status; taken = 0; written = 0; wanted = 0 } }
{
    Taken {
        status,
        taken: 0,
        written: 0,
        wanted: 0,
    }
}

/// Why a call stops, by what the opening tells.
fn status_of_told(told: &Told) -> Status
    ensures { result ≡ status_of_told told.now }
{
    match told {
        Told::Wants(_) => Status::Done,
        Told::Waits => Status::Waits,
        Told::Ended => Status::Over,
        _ => Status::Again,
    }
}

/// How many bytes the next header or SASL frame has, where it is not whole.
fn wanted_of(told: &Told) -> usize
    ensures { result ≡ wanted_of told.now }
{
    match told {
        Told::Wants(count) => *count,
        _ => 0,
    }
}

/// Why a call stops, by what the opening refuses.
fn status_of_error(error: OpeningError) -> Status
    ensures { result ≡ status_of_error error }
{
    match error {
        OpeningError::WrongTime => Status::Waits,
        OpeningError::TooLarge => Status::TooLarge,
        OpeningError::OutOfMemory => Status::NoMemory,
    }
}

/// Whether a call stopped at a size that no frame may have.
fn is_bad_size(status: Status) -> bool
    ensures { result ≡ is_bad_size status }
{
    matches!(status, Status::BadSize)
}

impl<R: LinkRelay> Stream<R> {
    /// Takes what came at the time `now`, and writes what it says to the next places of `records`.
    ///
    /// Before the stream is open it takes one header or one SASL frame off the front of the input, tells it by one record, and answers `Again`: the
    /// rest is given again. It takes nothing where a part of one is left (`Done`, with how many bytes it has), where `login`, `challenge` or
    /// `respond` is awaited (`Waits`), where there is no place for a record (`Full`), where memory is refused (`NoMemory`), or where the SASL
    /// frame to send would be too long (`TooLarge`).
    ///
    /// Once it is open it takes whole frames, as [`Driver::take`] does. At a size that no frame may have it closes, for
    /// `amqp:connection:framing-error`, and is over (`BadSize`).
    ///
    /// A stream that is over takes nothing (`Over`). Of an input of more than 4294967295 bytes the others are not looked at.
    pub fn take(&mut self, now: u64, input: &[u8], records: &mut [Record]) -> Taken
        ensures { TakesStream R.gives self.old now (seen input.now) records.old
            result.status result.taken result.written result.wanted self.new records.new }
    {
        if self.is_over() {
            return idle(Status::Over);
        }
        if self.opening.is_open() {
            return self.take_frames(now, input, records);
        }
        if records.is_empty() {
            return idle(Status::Full);
        }
        self.take_thing(now, seen(input), records)
    }

    /// Bytes came at the time `now`, though none of them are taken yet: the peer is not silent (AMQP 1.0 part 2, section 2.4.5).
    ///
    /// A program that reads a socket faster than it takes calls it as it reads, so that a peer whose bytes wait in the program is not called silent.
    /// [`Stream::take`] says the same of the bytes that it takes. It tells the time, and nothing else changes: of a stream that is over, or not yet
    /// open, no more follows from it.
    pub fn heard(&mut self, now: u64)
        ensures { self.new ≡ record self.old { clock = heard 1 now self.old.clock } }
    {
        self.hear(1, now);
    }

    /// Takes one header or one SASL frame.
    fn take_thing(&mut self, now: u64, input: &[u8], records: &mut [Record]) -> Taken
        requires { records.old ≢ [] }
        ensures { TakesThing self.old now input.now records.old
            result.status result.taken result.written result.wanted self.new records.new }
    {
        let took = match self.opening.take(input, &mut self.first) {
            Ok(took) => took,
            Err(error) => return idle(status_of_error(error)),
        };
        self.hear(took.len, now);
        let written = match record_of_told(took.len, &took.told) {
            Some(record) => {
                records[0] = record;
                1
            }
            None => 0,
        };
        Taken {
            status: status_of_told(&took.told),
            taken: took.len,
            written,
            wanted: wanted_of(&took.told),
        }
    }

    /// Takes whole frames.
    fn take_frames(&mut self, now: u64, input: &[u8], records: &mut [Record]) -> Taken
        ensures { TakesFrames R.gives self.old now (seen input.now) records.old
            result.status result.taken result.written result.wanted self.new records.new }
    {
        let taken = self.driver.take(input, records);
        self.hear(taken.taken, now);
        self.is_bad = is_bad_size(taken.status);
        if self.is_bad {
            close_for(
                self.alloc,
                &mut self.driver,
                "amqp:connection:framing-error",
            );
        }
        taken
    }

    /// So many bytes came.
    fn hear(&mut self, count: usize, now: u64)
        ensures { self.new ≡ record self.old { clock = heard count now self.old.clock } }
    {
        if count > 0 {
            self.clock.received(now);
        }
    }
}
