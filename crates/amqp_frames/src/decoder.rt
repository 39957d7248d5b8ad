//! The decoder: the frame that stands in received bytes.

ghost use Rattle.std.specs.Prelude.{◌≡◌, ◌<◌, ◌≤◌, length, None, Some, Err};
ghost use Rattle.amqp_types.specs.declared.performatives.kind.Kind.TheVariants as kind;
ghost use Rattle.amqp_frames.specs.Frame.{Decodes};
ghost use Rattle.amqp_frames.specs.Head.{Opens, ReadsFrameOf, as_head};

use crate::error::Error;
use crate::frame::{Frame, FrameBody};
use amqp_types::laws::{kinds_are_read, lists_are_read};
use amqp_types::{Attach, Begin, Close, Detach, Disposition, End, Flow, Kind, Open, Transfer};
use amqp_values::Composite;
use bytes::Bytes;
use std::alloc::Global;

/// Decodes frames. It keeps nothing from one frame to the next.
///
/// ```
/// // `bytes` are one frame without its four-byte size
/// let (frame, rest) = FrameDecoder::new().decode(alloc, bytes)?;
/// ```
#[derive(Clone, Copy, Debug)]
pub struct FrameDecoder;

/// What stands before the fields of a frame's performative.
///
/// ```
/// let head = FrameDecoder::new().head(&mut bytes)?;
/// if head.kind == Some(Kind::Transfer) {
///     // `bytes` are its fields, and its payload after them
/// }
/// ```
#[derive(Clone, Copy, Debug, PartialEq, Eq)]
pub struct FrameHead {
    /// The channel.
    pub channel: u16,
    /// The performative that the fields belong to. None where the frame has no body.
    pub kind: Option<Kind>,
}

impl FrameDecoder {
    /// A decoder.
    pub fn new() -> FrameDecoder {
        FrameDecoder
    }

    /// Reads a frame's header and descriptor from these bytes, which are one frame without its four-byte size. It leaves the
    /// fields and what is after them; who then reads the fields of this kind has decoded the frame.
    ///
    /// The errors are those of [`FrameDecoder::decode`]: `DecodeError` for fewer than four bytes, and where no performative
    /// is named; `NotImplemented` for another frame type or an extended header. It takes no memory, so it never answers
    /// `OutOfMemory`. After an error the bytes are of no use.
    #[inline(always)]
    pub fn head(&self, bytes: &mut Bytes) -> Result<FrameHead, Error>
        ensures { Opens bytes.old bytes.new result }
    {
        kinds_are_read();
        let header = bytes.as_slice();
        if header.len() < 4 {
            return Err(Error::DecodeError);
        }
        // The frame's type, and how many words the header has.
        if header[1] != 0 || header[0] != 2 {
            return Err(Error::NotImplemented);
        }
        let channel = u16::from_be_bytes([header[2], header[3]]);
        bytes.advance(4);
        if bytes.is_empty() {
            return Ok(FrameHead {
                channel,
                kind: None,
            });
        }
        let kind = Some(Kind::read(bytes)?);
        Ok(FrameHead { channel, kind })
    }

    /// The frame in these bytes, which are one frame without its four-byte size, and the rest that it leaves unread.
    ///
    /// No body is the empty frame; after a Transfer all is its payload, and after any other performative it is the rest.
    /// `DecodeError` for fewer than four bytes, and where the body is no performative; `NotImplemented` for another frame
    /// type or an extended header (AMQP 1.0 part 2, section 2.3.1); `OutOfMemory` where memory is refused, which an empty
    /// frame never asks for.
    // A function that hands on an answer of 384 bytes copies it.
    #[inline(always)]
    #[tactic(auto, using(crate::proofs::FrameHeadLemmas::decodes_told, crate::proofs::FrameHeadLemmas::refused_told))]
    pub fn decode(&self, alloc: Global, bytes: Bytes) -> Result<(Frame, Bytes), Error>
        ensures { Decodes bytes result }
    {
        let mut fields = bytes;
        // Each kind's fields are read by a function of its own, which gives the whole answer, and one `match` calls them: a function
        // pays at its entry for the size of its locals, those of the arms that are not taken too, and for each `?` and each
        // `match` inside another one with the size of what it hands on.
        match channel_and_kind(self.head(&mut fields)) {
            Ok((channel, None)) => read_empty(channel, fields),
            Ok((channel, Some(Kind::Open))) => read_open(alloc, channel, fields),
            Ok((channel, Some(Kind::Begin))) => read_begin(alloc, channel, fields),
            Ok((channel, Some(Kind::Attach))) => read_attach(alloc, channel, fields),
            Ok((channel, Some(Kind::Flow))) => read_flow(alloc, channel, fields),
            Ok((channel, Some(Kind::Transfer))) => read_transfer(alloc, channel, fields),
            Ok((channel, Some(Kind::Disposition))) => read_disposition(alloc, channel, fields),
            Ok((channel, Some(Kind::Detach))) => read_detach(alloc, channel, fields),
            Ok((channel, Some(Kind::End))) => read_end(alloc, channel, fields),
            Ok((channel, Some(Kind::Close))) => read_close(alloc, channel, fields),
            Err(error) => refused(error),
        }
    }

    /// The frame of a head, whose fields stand in these bytes: those that [`FrameDecoder::head`] left. And the rest that it leaves unread. Both calls
    /// together answer what [`FrameDecoder::decode`] answers: this one is for who tells the kinds apart first, and reads the fields of some where
    /// they are used.
    ///
    /// `DecodeError` where no fields of the head's kind stand there; `OutOfMemory` where memory is refused, which an empty frame never asks for.
    ///
    /// ```
    /// let head = FrameDecoder::new().head(&mut bytes)?;
    /// let (frame, rest) = FrameDecoder::new().fields(alloc, head, bytes)?;
    /// ```
    #[inline(never)]
    pub fn fields(
        &self,
        alloc: Global,
        head: FrameHead,
        bytes: Bytes,
    ) -> Result<(Frame, Bytes), Error>
        ensures { ReadsFrameOf head.channel head.kind bytes result }
    {
        let channel = head.channel;
        match head.kind {
            None => read_empty(channel, bytes),
            Some(Kind::Open) => read_open(alloc, channel, bytes),
            Some(Kind::Begin) => read_begin(alloc, channel, bytes),
            Some(Kind::Attach) => read_attach(alloc, channel, bytes),
            Some(Kind::Flow) => read_flow(alloc, channel, bytes),
            Some(Kind::Transfer) => read_transfer(alloc, channel, bytes),
            Some(Kind::Disposition) => read_disposition(alloc, channel, bytes),
            Some(Kind::Detach) => read_detach(alloc, channel, bytes),
            Some(Kind::End) => read_end(alloc, channel, bytes),
            Some(Kind::Close) => read_close(alloc, channel, bytes),
        }
    }
}

/// The channel and the kind of a head.
#[inline(always)]
fn channel_and_kind(head: Result<FrameHead, Error>) -> Result<(u16, Option<Kind>), Error>
    ensures { head ≡ as_head result }
{
    match head {
        Ok(FrameHead { channel, kind }) => Ok((channel, kind)),
        Err(error) => Err(error),
    }
}

/// No frame, for this reason.
#[inline(never)]
fn refused(error: Error) -> Result<(Frame, Bytes), Error>
    ensures { result ≡ Err error }
{
    Err(error)
}

#[inline(never)]
fn read_empty(channel: u16, fields: Bytes) -> Result<(Frame, Bytes), Error>
    ensures { ReadsFrameOf channel None fields result }
{
    drop(fields);
    Ok((Frame::new(channel, FrameBody::Empty), Bytes::new()))
}

#[inline(never)]
fn read_open(alloc: Global, channel: u16, fields: Bytes) -> Result<(Frame, Bytes), Error>
    ensures { ReadsFrameOf channel (Some kind.Open) fields result }
{
    lists_are_read();
    let mut rest = fields;
    Ok((
        Frame {
            channel,
            body: FrameBody::Open(Open::read_list(alloc, &mut rest)?),
        },
        rest,
    ))
}

#[inline(never)]
fn read_begin(alloc: Global, channel: u16, fields: Bytes) -> Result<(Frame, Bytes), Error>
    ensures { ReadsFrameOf channel (Some kind.Begin) fields result }
{
    lists_are_read();
    let mut rest = fields;
    Ok((
        Frame {
            channel,
            body: FrameBody::Begin(Begin::read_list(alloc, &mut rest)?),
        },
        rest,
    ))
}

#[inline(never)]
fn read_attach(alloc: Global, channel: u16, fields: Bytes) -> Result<(Frame, Bytes), Error>
    ensures { ReadsFrameOf channel (Some kind.Attach) fields result }
{
    lists_are_read();
    let mut rest = fields;
    Ok((
        Frame {
            channel,
            body: FrameBody::Attach(Attach::read_list(alloc, &mut rest)?),
        },
        rest,
    ))
}

#[inline(never)]
fn read_flow(alloc: Global, channel: u16, fields: Bytes) -> Result<(Frame, Bytes), Error>
    ensures { ReadsFrameOf channel (Some kind.Flow) fields result }
{
    lists_are_read();
    let mut rest = fields;
    Ok((
        Frame {
            channel,
            body: FrameBody::Flow(Flow::read_list(alloc, &mut rest)?),
        },
        rest,
    ))
}

#[inline(never)]
fn read_transfer(alloc: Global, channel: u16, fields: Bytes) -> Result<(Frame, Bytes), Error>
    ensures { ReadsFrameOf channel (Some kind.Transfer) fields result }
{
    lists_are_read();
    let mut rest = fields;
    let performative = match Transfer::read_list(alloc, &mut rest) {
        Ok(performative) => performative,
        Err(error) => return Err(Error::from(error)),
    };
    Ok((
        Frame {
            channel,
            body: FrameBody::Transfer {
                performative,
                payload: rest,
            },
        },
        Bytes::new(),
    ))
}

#[inline(never)]
fn read_disposition(alloc: Global, channel: u16, fields: Bytes) -> Result<(Frame, Bytes), Error>
    ensures { ReadsFrameOf channel (Some kind.Disposition) fields result }
{
    lists_are_read();
    let mut rest = fields;
    Ok((
        Frame {
            channel,
            body: FrameBody::Disposition(Disposition::read_list(alloc, &mut rest)?),
        },
        rest,
    ))
}

#[inline(never)]
fn read_detach(alloc: Global, channel: u16, fields: Bytes) -> Result<(Frame, Bytes), Error>
    ensures { ReadsFrameOf channel (Some kind.Detach) fields result }
{
    lists_are_read();
    let mut rest = fields;
    Ok((
        Frame {
            channel,
            body: FrameBody::Detach(Detach::read_list(alloc, &mut rest)?),
        },
        rest,
    ))
}

#[inline(never)]
fn read_end(alloc: Global, channel: u16, fields: Bytes) -> Result<(Frame, Bytes), Error>
    ensures { ReadsFrameOf channel (Some kind.End) fields result }
{
    lists_are_read();
    let mut rest = fields;
    Ok((
        Frame {
            channel,
            body: FrameBody::End(End::read_list(alloc, &mut rest)?),
        },
        rest,
    ))
}

#[inline(never)]
fn read_close(alloc: Global, channel: u16, fields: Bytes) -> Result<(Frame, Bytes), Error>
    ensures { ReadsFrameOf channel (Some kind.Close) fields result }
{
    lists_are_read();
    let mut rest = fields;
    Ok((
        Frame {
            channel,
            body: FrameBody::Close(Close::read_list(alloc, &mut rest)?),
        },
        rest,
    ))
}
