//! SASL frames, read where they stand (AMQP 1.0 part 5, section 5.3.1; part 2, section 2.3.1).

ghost use Rattle.std.specs.Prelude.{◌≡◌, ◌≤◌, length};
ghost use Rattle.amqp_sasl.specs.ReadFrame.{ReadsFrame, ReadsWhole, size_at, IsSize};

use crate::body::{Body, read_body};

/// The largest SASL frame, in bytes: MIN-MAX-FRAME-SIZE (part 5, section 5.3.1).
pub const MAX_FRAME: usize = 512;

/// Why a frame at the front of received bytes is no SASL frame. The names stand in the order in which it is looked at.
#[derive(Clone, Copy, Debug, PartialEq, Eq)]
pub enum FrameFault {
    /// Its size, of which four bytes tell, is below 8 or above 512.
    Size,
    /// Its body is said to begin inside its header of eight bytes, or after its end.
    Offset,
    /// It is no frame of type 1.
    Type,
    /// None of the five bodies stands after its header.
    Body,
    /// Bytes are left after its body.
    Trailing,
}

/// What stands at the front of received bytes where a SASL frame is expected.
#[derive(Clone, Copy, Debug, PartialEq, Eq)]
pub enum ReceivedFrame {
    /// Too few bytes: so many are needed, those that are there counted.
    Wants(usize),
    /// A whole frame.
    Frame {
        /// How many bytes it has: from 8 to 512.
        len: usize,
        /// What it says, by places in the received bytes.
        body: Body,
    },
}

/// What these bytes say, which are one frame by its size.
#[tactic(auto, using(crate::proofs::FrameLemmas::is_frame, crate::proofs::FrameLemmas::no_body, crate::proofs::FrameLemmas::trailing))]
fn read_whole(frame: &[u8]) -> Result<ReceivedFrame, FrameFault>
    requires size { size_at frame.now ≡ length frame.now }
    requires sized { IsSize (length frame.now) }
    ensures { ReadsWhole frame.now result }
{
    let offset = usize::from(frame[4]) * 4;
    if offset < 8 || offset > frame.len() {
        return Err(FrameFault::Offset);
    }
    if frame[5] != 1 {
        return Err(FrameFault::Type);
    }
    match read_body(frame, offset) {
        Some((body, end)) if end == frame.len() => Ok(ReceivedFrame::Frame { len: end, body }),
        Some(_) => Err(FrameFault::Trailing),
        None => Err(FrameFault::Body),
    }
}

/// Reads the SASL frame at the front of these bytes, of which there may be more. It asks for no memory: what the frame says is told by
/// places in these bytes.
///
/// `Wants` where they are too few to tell, or to hold the frame. [`FrameFault`] names why no SASL frame stands there; all but `Size` are
/// told of a whole frame alone.
///
/// ```
/// match read_frame(bytes)? {
///     ReceivedFrame::Wants(count) => {}              // read on, up to so many bytes
///     ReceivedFrame::Frame { len, body } => {}       // go on at &bytes[len..]
/// }
/// ```
pub fn read_frame(input: &[u8]) -> Result<ReceivedFrame, FrameFault>
    ensures { ReadsFrame input.now result }
{
    if input.len() < 4 {
        return Ok(ReceivedFrame::Wants(4));
    }
    let size = u32::from_be_bytes([input[0], input[1], input[2], input[3]]) as usize;
    if size < 8 || size > MAX_FRAME {
        return Err(FrameFault::Size);
    }
    if input.len() < size {
        return Ok(ReceivedFrame::Wants(size));
    }
    read_whole(&input[..size])
}
