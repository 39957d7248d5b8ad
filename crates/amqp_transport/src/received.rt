//! Bytes that came from a reader and are not taken yet.

ghost use Rattle.std.specs.Prelude.{◌≡◌, ◌+◌, ◌≤◌, ◌<◌, ◌^◌, ◌⊎◌, ◌++◌, ℕ, List, [], length, drop, MatchResult};
ghost use Rattle.std.specs.Io.KnownBytes.{Consumes, IsAtEnd, Keeps};
ghost use Rattle.amqp_transport.specs.Failing.{ReadFailed, NoMemory};
ghost use Rattle.amqp_transport.specs.Received.{Reads, read_count};

use crate::calls::read;
use amqp_memory::more_in_buffer;
use bytes::BytesMut;
use std::alloc::Global;
use std::io::{self, Read};
use std::marker::Model;

/// How many bytes memory is taken for before any of them has come. A read asks for at least half as many, where there may be so many.
const STEP: usize = 16384;

/// What a read gave.
#[derive(Clone, Copy, Debug, PartialEq, Eq)]
pub enum Came {
    /// So many bytes, at least one.
    Bytes(usize),
    /// None: the input has ended.
    End,
    /// None, and nothing was read: so many bytes wait as there may be.
    Full,
}

/// The bytes that came and are not taken yet, in their order, and how many they may be. For a [`Stream`](amqp_driver::Stream) that is no less
/// than the max-frame-size of its Open (AMQP 1.0 part 2, section 2.7.1), and no less than 512, the greatest SASL frame (part 5, section 5.3.1):
/// then each frame finds room.
///
/// Memory is taken as bytes come, and given back where none is left.
pub struct Received {
    alloc: Global,
    bytes: BytesMut,
    bound: u32,
}

impl Drop for Received {
    fn drop(self) {
        let Received {
            alloc: _,
            bytes,
            bound: _,
        } = self;
        drop(bytes);
    }
}

impl Model for Received {
    ghost use Rattle.std.specs.Prelude.{◌≤◌, length};
    ghost use Rattle.amqp_transport.specs.Received.{ReceivedView};

    ghost Value = { ReceivedView };

    ghost view = { λ r. record { bytes = r.bytes.items; bound = r.bound } };

    ghost invariant = { λ r. length r.bytes.items ≤ r.bound };
}

impl Received {
    /// No bytes yet, and `bound` at most. Takes no memory.
    pub fn new(alloc: Global, bound: u32) -> Received
        ensures { result ≡ record { bytes = []; bound = bound } }
    {
        Received {
            alloc,
            bytes: BytesMut::new(alloc),
            bound,
        }
    }

    /// The bytes: [`Stream::take`](amqp_driver::Stream::take) takes them.
    pub fn bytes(&self) -> &[u8]
        ensures value { result.now ≡ self.now.bytes }
        ensures bound { length result.now ≤ self.now.bound }
    {
        self.bytes.as_slice()
    }

    /// Takes the first `count` bytes off, or all where they are fewer. Where none is left their memory is given back.
    pub fn take(&mut self, count: usize)
        ensures { self.new ≡ record self.old { bytes = drop count self.old.bytes } }
    {
        let count = count.min(self.bytes.len());
        self.bytes.advance(count);
        self.free_if_empty();
    }

    /// Reads once, behind the bytes that are there: what the input gives, and no more than there is room for. Memory is asked for 16384 bytes
    /// in all, or for as many more as have come.
    ///
    /// An error of `input` is passed on, and `OutOfMemory` says that memory was refused: then nothing was read, and a later call goes on.
    pub fn read<I: Read>(&mut self, input: &mut I) -> io::Result<Came>
        ensures { Reads self.old (I.remaining input.old) (I.remaining input.new) result self.new }
    {
        let at = self.bytes.len();
        let room = self.bound as usize - at;
        if room == 0 {
            return Ok(Came::Full);
        }
        let more = at.max(STEP.saturating_sub(at));
        let outcome = read_behind(&mut self.bytes, input, room.min(more));
        self.free_if_empty();
        match outcome {
            Ok(0) => Ok(Came::End),
            Ok(count) => Ok(Came::Bytes(count)),
            Err(error) => Err(error),
        }
    }

    /// Gives the memory back, where no byte is left.
    fn free_if_empty(&mut self)
        ensures { self.new ≡ self.old }
    {
        if self.bytes.is_empty() {
            self.bytes = BytesMut::new(self.alloc);
        }
    }
}

/// Reads once, at most so many bytes, behind those that are there.
fn read_behind<I: Read>(bytes: &mut BytesMut, input: &mut I, most: usize) -> io::Result<usize>
    requires some { 0 < most }
    requires few { length bytes.old.items + most < 2 ^ 32 }
    ensures read { MatchResult result
        (λ n. (more : List ℕ) × (length more ≡ n) × (n ≤ most) × (bytes.new.items ≡ bytes.old.items ++ more)
        × Consumes (I.remaining input.old) (I.remaining input.new) more × (n ≡ 0 → IsAtEnd (I.remaining input.new)))
        (λ e. (bytes.new.items ≡ bytes.old.items) × Keeps (I.remaining input.old) (I.remaining input.new) × (ReadFailed e ⊎ NoMemory e)) }
{
    let at = bytes.len();
    more_in_buffer(bytes, most)?;
    bytes.advance_mut(most);
    let outcome = read(input, &mut bytes.as_mut_slice()[at..]);
    let count = count_of(&outcome);
    bytes.truncate(at + count);
    outcome
}

/// How many bytes a read gave.
fn count_of(outcome: &io::Result<usize>) -> usize
    ensures { result ≡ read_count outcome.now }
{
    match outcome {
        Ok(count) => *count,
        Err(_) => 0,
    }
}
