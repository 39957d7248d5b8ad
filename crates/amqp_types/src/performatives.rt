//! The nine performatives, which are the bodies of frames (AMQP 1.0 part 2, section 2.7).

ghost use Rattle.std.specs.Prelude.{◌≡◌, ◌<◌, ◌≤◌, ◌^◌, ◌++◌, ◌↔◌, length, OnOk, OnErr, IfErr};
ghost use Rattle.amqp_memory.specs.Refusal.{SomeRefused};
ghost use Rattle.amqp_values.specs.declared.error.WriteError.TheVariants.{OutOfMemory};
ghost use Rattle.amqp_values.specs.Composite.{composite_at};
ghost use Rattle.amqp_values.specs.Reading.{Answers, Gives, ReadsFront};
ghost use Rattle.amqp_values.specs.Writing.{IsTooLarge};
ghost use Rattle.amqp_types.specs.Performatives.{IsPerformative, body_at, performative_at, performative_text};

mod attach;
mod begin;
mod close;
mod detach;
mod disposition;
mod end;
mod flow;
mod kind;
mod open;
mod transfer;

use amqp_memory::more_in_buffer;
use amqp_values::{Composite, ReadError, WriteError};
pub use attach::Attach;
pub use begin::Begin;
use bytes::{Bytes, BytesMut};
pub use close::Close;
pub use detach::Detach;
pub use disposition::Disposition;
pub use end::End;
pub use flow::Flow;
pub use kind::Kind;
pub use open::Open;
use std::alloc::Global;
pub use transfer::{Transfer, TransferFragment};

/// A performative (part 2, section 2.7).
///
/// ```
/// let (performative, rest) = Performative::read(alloc, bytes)?;
/// performative.write(&mut out, 65536)?;    // its canonical text, of at most 65536 bytes
/// ```
#[derive(Clone, Debug, Drop, PartialEq)]
pub enum Performative {
    /// Opens a connection (section 2.7.1).
    Open(Open),
    /// Begins a session (section 2.7.2).
    Begin(Begin),
    /// Attaches a link (section 2.7.3).
    Attach(Attach),
    /// Tells the windows of a session, and the credit of a link (section 2.7.4).
    Flow(Flow),
    /// Carries a delivery, or a part of one (section 2.7.5).
    Transfer(Transfer),
    /// Tells the state of deliveries (section 2.7.6).
    Disposition(Disposition),
    /// Detaches a link (section 2.7.7).
    Detach(Detach),
    /// Ends a session (section 2.7.8).
    End(End),
    /// Closes a connection (section 2.7.9).
    Close(Close),
}

/// Reads a list by a function of its own, so that who reads one of nine kinds does not pay for the locals of all.
#[inline(never)]
fn list_of<C: Composite>(alloc: Global, bytes: &mut Bytes) -> Result<C, ReadError>
    ensures { Gives (λ x. x) result bytes.new (composite_at C.body_at bytes.old) }
{
    C::read_list(alloc, bytes)
}

/// Reads the list of a performative of this kind.
#[tactic(auto, unfolding(crate::specs::Performatives::body_at))]
fn body(alloc: Global, kind: Kind, bytes: &mut Bytes) -> Result<Performative, ReadError>
    ensures { Gives (λ p. p) result bytes.new (body_at kind bytes.old) }
{
    match kind {
        Kind::Open => Ok(Performative::Open(list_of(alloc, bytes)?)),
        Kind::Begin => Ok(Performative::Begin(list_of(alloc, bytes)?)),
        Kind::Attach => Ok(Performative::Attach(list_of(alloc, bytes)?)),
        Kind::Flow => Ok(Performative::Flow(list_of(alloc, bytes)?)),
        Kind::Transfer => Ok(Performative::Transfer(list_of(alloc, bytes)?)),
        Kind::Disposition => Ok(Performative::Disposition(list_of(alloc, bytes)?)),
        Kind::Detach => Ok(Performative::Detach(list_of(alloc, bytes)?)),
        Kind::End => Ok(Performative::End(list_of(alloc, bytes)?)),
        Kind::Close => Ok(Performative::Close(list_of(alloc, bytes)?)),
    }
}

impl Performative {
    /// Reads the performative at the front of the bytes, and answers it and the rest. Descriptors are numbers or names, and
    /// every spelling of every field is read; raw values and delivery tags are cuts of the bytes, and only texts are
    /// copied.
    ///
    /// `Malformed` exactly where no front of the bytes is a performative: a mandatory field is null, a field is of
    /// another type, or there are more fields than the table has. `OutOfMemory` where memory is refused.
    pub fn read(alloc: Global, bytes: Bytes) -> Result<(Performative, Bytes), ReadError>
        ensures { ReadsFront IsPerformative bytes result }
    {
        Performative::front(alloc, bytes)
    }

    #[tactic(auto, unfolding(crate::specs::Performatives::performative_at))]
    fn front(alloc: Global, bytes: Bytes) -> Result<(Performative, Bytes), ReadError>
        ensures { Answers (λ x. (x.0, x.1)) result (performative_at bytes) }
    {
        let mut rest = bytes;
        let kind = Kind::read(&mut rest)?;
        let performative = body(alloc, kind, &mut rest)?;
        Ok((performative, rest))
    }

    /// The length in bytes of the text that [`Performative::write`] appends. Takes no memory and writes nothing.
    pub fn encoded_len(&self) -> u128
        ensures { result ≡ length (performative_text self.now) }
    {
        match self {
            Performative::Open(p) => p.encoded_len(),
            Performative::Begin(p) => p.encoded_len(),
            Performative::Attach(p) => p.encoded_len(),
            Performative::Flow(p) => p.encoded_len(),
            Performative::Transfer(p) => p.encoded_len(),
            Performative::Disposition(p) => p.encoded_len(),
            Performative::Detach(p) => p.encoded_len(),
            Performative::End(p) => p.encoded_len(),
            Performative::Close(p) => p.encoded_len(),
        }
    }

    /// Appends the whole canonical text, or nothing.
    ///
    /// `TooLarge` exactly where the text has more than `limit` bytes. `OutOfMemory` where the one reservation that this
    /// takes is refused.
    pub fn write(&self, out: &mut BytesMut, limit: u32) -> Result<(), WriteError>
        ensures written { OnOk result (out.new.items ≡ out.old.items ++ performative_text self.now) }
        ensures nothing { OnErr result (out.new.items ≡ out.old.items) }
        ensures too_large { IsTooLarge result ↔ (limit < length (performative_text self.now)) }
        ensures refused { IfErr result (λ e. e ≡ OutOfMemory → SomeRefused) }
    {
        let len = self.encoded_len();
        if len > u128::from(limit) {
            return Err(WriteError::TooLarge);
        }
        let Ok(()) = more_in_buffer(out, len as usize) else {
            return Err(WriteError::OutOfMemory);
        };
        self.put(len as usize, out);
        Ok(())
    }

    /// Appends the canonical text, whose length is `len`, to a buffer that has room for it.
    fn put(&self, len: usize, out: &mut BytesMut)
        requires len_is { len ≡ length (performative_text self.now) }
        requires room { length (performative_text self.now) ≤ out.old.spare }
        requires fits { length (performative_text self.now) < 2 ^ 32 }
        ensures items { out.new.items ≡ out.old.items ++ performative_text self.now }
    {
        match self {
            Performative::Open(p) => p.put(len, out),
            Performative::Begin(p) => p.put(len, out),
            Performative::Attach(p) => p.put(len, out),
            Performative::Flow(p) => p.put(len, out),
            Performative::Transfer(p) => p.put(len, out),
            Performative::Disposition(p) => p.put(len, out),
            Performative::Detach(p) => p.put(len, out),
            Performative::End(p) => p.put(len, out),
            Performative::Close(p) => p.put(len, out),
        }
    }
}
