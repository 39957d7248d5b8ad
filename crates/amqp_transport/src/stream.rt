//! The stream: the protocol header, and the size before each frame (AMQP 1.0 part 2, sections 2.2 and 2.3).

ghost use Rattle.std.specs.Prelude.{◌≡◌, ◌+◌, ◌<◌, ◌≤◌, ◌^◌, ◌⊎◌, ◌++◌, ℕ, List, [], length, None, IfSome, IfOk, IfErr, OnOk};
ghost use Rattle.std.specs.Int.{w32, to_be_bytes};
ghost use Rattle.std.specs.Io.KnownBytes.{Appends, Consumes, Keeps, IsAtEnd};
ghost use Rattle.amqp_frames.specs.Piece.{piece_bytes};
ghost use Rattle.amqp_frames.specs.Wire.{sized};
ghost use Rattle.amqp_transport.specs.Failing.{ReadFailed, WriteFailed, Flushed, NoMemory};
ghost use Rattle.amqp_transport.specs.Stream.{header, NotExchanged, IsSize, TakesFrame, NoFrame, NotSized};

use crate::calls::{flush, is_at_end, read_exact, write_all};
use amqp_memory::{bytes_of_vector, more_in_vector_exactly};
use bytes::Bytes;
use fe2o3_amqp::{Piece, SendBuffer};
use std::alloc::Global;
use std::io::{self, BufRead, ErrorKind, Read, Write};

/// The protocol header of AMQP 1.0.
const HEADER: [u8; 8] = *b"AMQP\x00\x01\x00\x00";

/// Sends the protocol header, and reads the peer's (AMQP 1.0 part 2, section 2.2): eight bytes each. `InvalidData` where the peer's is another
/// one; an error of `input` or `output` is passed on. After an error the stream is of no use.
pub fn exchange_headers<I: Read, O: Write>(input: &mut I, output: &mut O) -> io::Result<()>
    ensures sent { OnOk result (Appends (O.contents output.old) (O.contents output.new) header) }
    ensures flushed { OnOk result (Flushed output.new) }
    ensures taken { OnOk result (Consumes (I.remaining input.old) (I.remaining input.new) header) }
    ensures err { IfErr result (λ e. NotExchanged (input.new ≡ input.old)
        (Flushed output.new × Appends (O.contents output.old) (O.contents output.new) header)
        (I.remaining input.old) (I.remaining input.new) e) }
{
    write_all(output, &HEADER)?;
    flush(output)?;
    let mut theirs = [0; 8];
    read_exact(input, &mut theirs)?;
    if theirs == HEADER {
        Ok(())
    } else {
        Err(io::Error::from(ErrorKind::InvalidData))
    }
}

/// The next frame, without its four-byte size (AMQP 1.0 part 2, section 2.3); `None` where the input ends before one. It is what
/// `Input::Received` takes.
///
/// `InvalidData` where its size, which counts its own four bytes, is below 8 or above `max_frame_size`, that of this side's Open;
/// `UnexpectedEof` where the input ends inside it. It fails too where memory for the frame is refused, and an error of `input` is passed on.
/// After an error the stream is of no use. Memory is taken as the frame comes: a size that is announced takes none.
pub fn next_frame<I: BufRead>(
    alloc: Global,
    input: &mut I,
    max_frame_size: u32,
) -> io::Result<Option<Bytes>>
    ensures frame { IfOk result (λ r. IfSome r (λ frame.
        TakesFrame max_frame_size (I.remaining input.old) (I.remaining input.new) frame)) }
    ensures end { IfOk result (λ r. r ≡ None → IsAtEnd (I.remaining input.old) × Keeps (I.remaining input.old) (I.remaining input.new)) }
    ensures err { IfErr result (λ e. NoFrame max_frame_size (I.remaining input.old) (I.remaining input.new) e) }
{
    if is_at_end(input)? {
        return Ok(None);
    }
    let size = read_size(input)?;
    if size < 8 || size > max_frame_size {
        return Err(io::Error::from(ErrorKind::InvalidData));
    }
    let frame = read_bytes(alloc, input, size as usize - 4)?;
    Ok(Some(frame))
}

/// Reads the four bytes of a size.
fn read_size<I: Read>(input: &mut I) -> io::Result<u32>
    ensures size { IfOk result (λ n. (size : List ℕ) × IsSize size n × Consumes (I.remaining input.old) (I.remaining input.new) size) }
    ensures err { IfErr result (λ e. ReadFailed e) }
{
    let mut size = [0; 4];
    read_exact(input, &mut size)?;
    Ok(u32::from_be_bytes(size))
}

/// How many bytes of a frame memory is taken for before any of them has come.
const STEP: usize = 16384;

/// Reads so many bytes. Memory is taken as they come: for a step, and then for no more than have come.
fn read_bytes<I: Read>(alloc: Global, input: &mut I, len: usize) -> io::Result<Bytes>
    requires { len ≤ 2 ^ 32 }
    ensures bytes { IfOk result (λ frame. (length frame ≡ len) × Consumes (I.remaining input.old) (I.remaining input.new) frame) }
    ensures err { IfErr result (λ e. ReadFailed e ⊎ NoMemory e) }
{
    let mut frame = Vec::new(alloc);
    while frame.len() < len {
        let more = (len - frame.len()).min(frame.len().max(STEP));
        read_more(input, &mut frame, more)?;
    }
    Ok(bytes_of_vector(frame)?)
}

/// Reads so many bytes behind those that came before.
fn read_more<I: Read>(input: &mut I, frame: &mut Vec<u8>, count: usize) -> io::Result<()>
    requires { count ≤ 2 ^ 32 }
    ensures bytes { OnOk result ((more : List ℕ) × (length more ≡ count) × (frame.new.items ≡ frame.old.items ++ more)
        × Consumes (I.remaining input.old) (I.remaining input.new) more) }
    ensures err { IfErr result (λ e. ReadFailed e ⊎ NoMemory e) }
{
    let at = frame.len();
    more_in_vector_exactly(frame, count)?;
    frame.resize(at + count, 0).unwrap();
    read_exact(input, &mut frame.as_mut_slice()[at..])?;
    Ok(())
}

/// Writes what waits to be sent, and takes it off: `out` is empty then. An error of `output` is passed on; after it the stream is of no use,
/// since part of it may be written.
pub fn write_out<O: Write>(out: &mut SendBuffer, output: &mut O) -> io::Result<()>
    ensures written { OnOk result (Appends (O.contents output.old) (O.contents output.new) out.old.bytes) }
    ensures empty { OnOk result (out.new.bytes ≡ []) }
    ensures err { IfErr result (λ e. WriteFailed e) }
{
    while !out.is_empty() {
        write_chunk(out, output)?;
    }
    Ok(())
}

/// Writes the bytes that lie together at the front, and takes them off.
fn write_chunk<O: Write>(out: &mut SendBuffer, output: &mut O) -> io::Result<()>
    requires { 0 < length out.old.bytes }
    ensures chunk { OnOk result ((chunk : List ℕ) × (0 < length chunk) × (out.old.bytes ≡ chunk ++ out.new.bytes)
        × Appends (O.contents output.old) (O.contents output.new) chunk) }
    ensures err { IfErr result (λ e. WriteFailed e) }
{
    let chunk = out.chunk();
    let len = chunk.len();
    write_all(output, chunk)?;
    out.advance(len);
    Ok(())
}

/// Writes a piece after its size, which counts its own four bytes. The payload is not copied. `InvalidData` where the size does not fit four
/// bytes: nothing is written then. An error of `output` is passed on.
pub fn write_piece<O: Write>(piece: &Piece, output: &mut O) -> io::Result<()>
    ensures written { OnOk result (Appends (O.contents output.old) (O.contents output.new) (sized (piece_bytes piece.now))) }
    ensures fits { OnOk result (length (piece_bytes piece.now) + 4 < 2 ^ 32) }
    ensures err { IfErr result (λ e. NotSized (output.new ≡ output.old) (length (piece_bytes piece.now)) e) }
{
    write_size(piece.len(), output)?;
    write_all(output, piece.head())?;
    write_all(output, piece.payload().as_slice())
}

/// Writes the bytes of a frame after its size, which counts its own four bytes. The errors are those of [`write_piece`].
pub fn write_frame<O: Write>(frame: &Bytes, output: &mut O) -> io::Result<()>
    ensures written { OnOk result (Appends (O.contents output.old) (O.contents output.new) (sized frame.now)) }
    ensures fits { OnOk result (length frame.now + 4 < 2 ^ 32) }
    ensures err { IfErr result (λ e. NotSized (output.new ≡ output.old) (length frame.now) e) }
{
    write_size(frame.len(), output)?;
    write_all(output, frame.as_slice())
}

/// Writes the size of a frame of so many bytes. `InvalidData` where it does not fit four bytes.
fn write_size<O: Write>(len: usize, output: &mut O) -> io::Result<()>
    ensures written { OnOk result (Appends (O.contents output.old) (O.contents output.new) (to_be_bytes w32 (len + 4))) }
    ensures fits { OnOk result (len + 4 < 2 ^ 32) }
    ensures err { IfErr result (λ e. NotSized (output.new ≡ output.old) len e) }
{
    let Ok(size) = u32::try_from(len.saturating_add(4)) else {
        return Err(io::Error::from(ErrorKind::InvalidData));
    };
    write_all(output, &size.to_be_bytes())
}
