//! Laws of frames and their pieces. A law answers nothing, and does nothing but call other laws: its contract holds of
//! every frame that it is called with.

ghost use Rattle.std.specs.Prelude.{◌<◌, ◌^◌, length};
ghost use Rattle.amqp_frames.specs.Cut.{IsWholePiece};
ghost use Rattle.amqp_frames.specs.Frame.{text_of};
ghost use Rattle.amqp_frames.specs.Piece.{PieceParts, piece_bytes};
ghost use Rattle.amqp_frames.specs.ReadBack.{DecodesTo};
ghost use Rattle.amqp_frames.specs.RoundTrip.{CarriesPayload, CutIsDecoded, CutsAreRead, EmptyIsDecoded, FramesAreDecoded};
ghost use Rattle.amqp_frames.specs.RoundTrip.{IsSpelledBody, KeepsLimit, WholeIsDecoded, WholesAreRead};

use crate::frame::{Frame, FrameBody};
use amqp_types::{Performative, laws};

/// The pieces of a frame keep the limit, and their parts joined are the payload.
pub fn pieces_keep_the_limit()
    ensures limit { KeepsLimit }
    ensures payload { CarriesPayload }
{}

/// Pieces are read back. A frame that is whole is decoded from its piece, on every channel, and leaves nothing; each piece
/// of a transfer that is cut is the frame of its first, middle or last transfer with its part of the payload.
pub fn pieces_are_read()
    ensures whole { WholesAreRead }
    ensures cut { CutsAreRead }
    ensures decoded { FramesAreDecoded }
{}

/// What was encoded is decoded: each frame of this performative, on every channel, with every payload, at every limit
/// of at most 4294967295 that it fits, and each empty frame. A frame that is whole is decoded from its one piece, and
/// leaves nothing; the pieces of a transfer that is cut are decoded as its first, middle and last transfers, each with its
/// part of the payload.
pub fn encoded_is_decoded(performative: &Performative)
    ensures whole { WholeIsDecoded performative.now }
    ensures cut { CutIsDecoded performative.now }
    ensures empty { EmptyIsDecoded }
{
    laws::text_is_read(performative);
}

/// All bytes of a frame in one piece are decoded as that frame.
pub(crate) fn whole_is_read(frame: &Frame)
    ensures { length (text_of frame.now.body) < 2 ^ 32 → (p : PieceParts) → IsWholePiece frame.now p → DecodesTo frame.now (piece_bytes p) }
{
    is_channel(frame.channel);
    body_is_spelled(&frame.body);
}

fn is_channel(_channel: u16)
    ensures { _channel < 2 ^ 16 }
{}

/// The text of a body spells what it says, if it has at most 4294967295 bytes.
fn body_is_spelled(body: &FrameBody)
    ensures { length (text_of body.now) < 2 ^ 32 → IsSpelledBody body.now }
{
    match body {
        FrameBody::Attach(p) => laws::attach_is_spelled(p),
        FrameBody::Flow(p) => laws::flow_is_spelled(p),
        FrameBody::Transfer {
            performative,
            payload: _,
        } => laws::transfer_is_spelled(performative),
        FrameBody::Disposition(p) => laws::disposition_is_spelled(p),
        FrameBody::Detach(p) => laws::detach_is_spelled(p),
        FrameBody::Begin(p) => laws::begin_is_spelled(p),
        FrameBody::End(p) => laws::end_is_spelled(p),
        FrameBody::Open(p) => laws::open_is_spelled(p),
        FrameBody::Close(p) => laws::close_is_spelled(p),
        FrameBody::Empty => {}
    }
}
