//! The calls of a reader and of a writer. Where one fails, its caller can cite that the error is its own, and nothing else makes that so.

ghost use Rattle.std.specs.Prelude.{IfOk, IfErr, OnOk, IsTrue};
ghost use Rattle.std.specs.Io.KnownBytes.{Appends, Consumes, Keeps, IsAtEnd, ReadConsumes};
ghost use Rattle.std.specs.Io.{ReadsAtMost};
ghost use Rattle.amqp_transport.specs.Failing.{ReadFailed, WriteFailed, Flushed};

use std::io::{self, BufRead, Read, Write};

/// Whether the input has ended.
#[tactic(auto, unfolding(crate::specs::Failing::ReadFailed))]
pub(crate) fn is_at_end<I: BufRead>(input: &mut I) -> io::Result<bool>
    ensures keeps { OnOk result (Keeps (I.remaining input.old) (I.remaining input.new)) }
    ensures end { IfOk result (λ r. IsTrue r → IsAtEnd (I.remaining input.old)) }
    ensures failed { IfErr result (λ e. ReadFailed e) }
{
    Ok(input.fill_buf()?.is_empty())
}

/// Reads once, at most as many bytes as there are places.
#[inline(always)]
#[tactic(auto, unfolding(crate::specs::Failing::ReadFailed))]
pub(crate) fn read<I: Read>(input: &mut I, places: &mut [u8]) -> io::Result<usize>
    ensures bound { ReadsAtMost result places.new }
    ensures bytes { ReadConsumes (I.remaining input.old) (I.remaining input.new) result places.new }
    ensures failed { IfErr result (λ e. ReadFailed e) }
{
    input.read(places)
}

/// Reads as many bytes as there are places.
#[inline(always)]
#[tactic(auto, unfolding(crate::specs::Failing::ReadFailed))]
pub(crate) fn read_exact<I: Read>(input: &mut I, places: &mut [u8]) -> io::Result<()>
    ensures bytes { OnOk result (Consumes (I.remaining input.old) (I.remaining input.new) places.new) }
    ensures failed { IfErr result (λ e. ReadFailed e) }
{
    input.read_exact(places)
}

/// Writes the bytes.
#[inline(always)]
#[tactic(auto, unfolding(crate::specs::Failing::WriteFailed))]
pub(crate) fn write_all<O: Write>(output: &mut O, bytes: &[u8]) -> io::Result<()>
    ensures bytes { OnOk result (Appends (O.contents output.old) (O.contents output.new) bytes.now) }
    ensures failed { IfErr result (λ e. WriteFailed e) }
{
    output.write_all(bytes)
}

/// Flushes what was written.
#[inline(always)]
#[tactic(auto, unfolding(crate::specs::Failing::WriteFailed, crate::specs::Failing::Flushed))]
pub(crate) fn flush<O: Write>(output: &mut O) -> io::Result<()>
    ensures keeps { Keeps (O.contents output.old) (O.contents output.new) }
    ensures flushed { OnOk result (Flushed output.new) }
    ensures failed { IfErr result (λ e. WriteFailed e) }
{
    output.flush()
}
