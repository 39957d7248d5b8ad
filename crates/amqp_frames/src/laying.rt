//! Frames and pieces laid into a buffer that has room for them, each after its size (AMQP 1.0 part 2, section 2.3).

ghost use Rattle.std.specs.Prelude.{◌≡◌, ◌+◌, ◌≤◌, ◌<◌, ◌^◌, ◌-◌, ◌*◌, ◌++◌, min, length};
ghost use Rattle.std.specs.Int.{w32, to_be_bytes};
ghost use Rattle.amqp_frames.specs.Frame.{header_text, text_of, payload_of};
ghost use Rattle.amqp_frames.specs.Piece.{piece_bytes};
ghost use Rattle.amqp_frames.specs.Wire.{sized, wire_of};
ghost use Rattle.amqp_frames.specs.Inner.Woven.{piece_room, pieces_room};

use crate::frame::{Frame, FrameBody};
use crate::piece::Piece;
use crate::woven::Woven;
use bytes::Bytes;
use std::collections::VecDeque;

/// Appends the size, the header and the text of a frame. The text has this length, and there is room for all.
#[inline(always)]
pub(crate) fn put_head(out: &mut Woven, size: u32, frame: &Frame, len: usize)
    requires text { len ≡ length (text_of frame.now.body) }
    requires fits { length (text_of frame.now.body) < 2 ^ 32 }
    requires room { 8 + length (text_of frame.now.body) ≤ out.old.spare }
    ensures waits { out.new.waits ≡ out.old.waits ++ (to_be_bytes w32 size ++ (header_text frame.now.channel ++ text_of frame.now.body)) }
    ensures spare { out.new.spare + (8 + length (text_of frame.now.body)) ≡ out.old.spare }
    ensures places { out.new.places ≡ out.old.places }
{
    out.put(&size.to_be_bytes());
    out.put(&[2, 0]);
    out.put(&frame.channel.to_be_bytes());
    out.put_text(&frame.body, len);
}

/// Appends the payload of a body. There is room for it.
#[inline(always)]
pub(crate) fn put_payload(out: &mut Woven, body: &FrameBody)
    requires { length (payload_of body.now) ≤ out.old.spare }
    ensures waits { out.new.waits ≡ out.old.waits ++ payload_of body.now }
    ensures spare { out.new.spare + length (payload_of body.now) ≡ out.old.spare }
{
    if let FrameBody::Transfer {
        performative: _,
        payload,
    } = body
    {
        out.put(payload.as_slice());
    }
}

/// How many bytes of the buffer pieces take up, where payloads of up to `most` bytes are copied; the greatest number where it is more.
pub(crate) fn pieces_room(most: usize, pieces: &[Piece]) -> usize
    ensures value { result ≡ min (pieces_room most pieces.now) (2 ^ 64 - 1) }
    ensures bound { result ≤ 2 ^ 33 * length pieces.now }
{
    let mut rest = pieces;
    let mut total: usize = 0;
    while !rest.is_empty() {
        let piece = &rest[0];
        rest = &rest[1..];
        total = total.saturating_add(piece_room(most, piece));
    }
    total
}

/// How many bytes of the buffer a piece takes up.
fn piece_room(most: usize, piece: &Piece) -> usize
    ensures value { result ≡ piece_room most piece.now }
    ensures bound { result ≤ 2 ^ 33 }
{
    let all = 4 + piece.len();
    let payload = piece.payload().len();
    if payload <= most { all } else { all - payload }
}

/// Appends pieces. There is room for them, and places.
pub(crate) fn put_pieces(out: &mut Woven, most: usize, pieces: Vec<Piece>)
    requires room { pieces_room most pieces.items ≤ out.old.spare }
    requires places { length pieces.items ≤ out.old.places }
    ensures waits { out.new.waits ≡ out.old.waits ++ wire_of pieces.items }
    ensures spare { out.old.spare ≤ out.new.spare + pieces_room most pieces.items }
{
    let mut rest = VecDeque::from(pieces);
    while !rest.is_empty() {
        let piece = rest.pop_front().unwrap();
        put_piece(out, most, piece);
    }
}

/// Appends a piece. There is room for it, and a place.
fn put_piece(out: &mut Woven, most: usize, piece: Piece)
    requires room { piece_room most piece ≤ out.old.spare }
    requires place { 1 ≤ out.old.places }
    ensures waits { out.new.waits ≡ out.old.waits ++ sized (piece_bytes piece) }
    ensures spare { out.old.spare ≤ out.new.spare + piece_room most piece }
    ensures places { out.old.places ≤ out.new.places + 1 }
{
    put_size(out, piece.len());
    out.put(piece.head());
    put_part(out, most, piece.into_payload());
}

/// Appends the size of a frame of so many bytes.
fn put_size(out: &mut Woven, len: usize)
    requires len { len < 2 ^ 32 }
    requires room { 4 ≤ out.old.spare }
    ensures waits { out.new.waits ≡ out.old.waits ++ to_be_bytes w32 (len + 4) }
    ensures spare { out.new.spare + 4 ≡ out.old.spare }
    ensures places { out.new.places ≡ out.old.places }
{
    let size = (len as u64 + 4).to_be_bytes();
    out.put(&size[4..]);
}

/// Appends a part of a payload: copied where it has up to `most` bytes, and shared where it is longer.
fn put_part(out: &mut Woven, most: usize, part: Bytes)
    requires room { length part ≤ most → length part ≤ out.old.spare }
    requires place { 1 ≤ out.old.places }
    ensures waits { out.new.waits ≡ out.old.waits ++ part }
    ensures spare { (length part ≤ most → out.new.spare + length part ≡ out.old.spare) × (most < length part → out.new.spare ≡ out.old.spare) }
    ensures places { out.old.places ≤ out.new.places + 1 }
{
    if part.len() <= most {
        out.put(part.as_slice());
    } else {
        out.share(part);
    }
}
