//! The room beside transfers, and pieces as values.

ghost use Rattle.std.specs.Prelude.{◌≤◌};

use crate::given::{continuation, delivery, payload, pieces};
use crate::same::{holds, same};
use amqp_frames::{FrameEncoder, Piece};
use bytes::Bytes;
use std::alloc::Global;
use std::test::Fail;

/// The room beside the transfer of that delivery.
fn room(limit: u32, number: u32) -> Option<u32>
    requires { 4 ≤ limit }
{
    let transfer = delivery(number);
    let room = FrameEncoder::new(limit).payload_room(&transfer);
    drop(transfer);
    room
}

#[test]
fn the_room_beside_a_transfer(rt: HostRuntime) {
    same(&rt, room(24, 0), Some(4));
    same(&rt, room(20, 0), Some(0));
    same(&rt, room(19, 0), None);
    same(&rt, room(24, 4294967295), Some(0));
}

#[test]
fn the_room_with_the_greatest_number(rt: HostRuntime) {
    let encoder = FrameEncoder::new(28);
    let transfer = delivery(7);
    let room = encoder.widest_payload_room(&transfer);
    drop(transfer);
    same(&rt, room, Some(4));
    same(&rt, encoder.max_piece_len(), 28);
}

#[test]
fn a_copy_of_an_encoder_has_its_limit(rt: HostRuntime) -> Result<(), Fail> {
    let copy = FrameEncoder::new(24).clone()?;
    let transfer = delivery(0);
    let room = copy.payload_room(&transfer);
    drop(transfer);
    same(&rt, room, Some(4));
    Ok(())
}

#[test]
fn a_piece_as_one_run_of_bytes(rt: HostRuntime) -> Result<(), Fail> {
    let alloc = rt.alloc();
    let payload = payload(alloc, 2)?;
    let pieces = pieces(alloc, 24, continuation(false), payload)?;
    let found = are_one_run(alloc, &pieces);
    drop(pieces);
    holds(&rt, found?);
    Ok(())
}

/// Whether each piece is this run of thirteen bytes.
fn are_one_run(alloc: Global, pieces: &Vec<Piece>) -> Result<bool, Fail> {
    let want = [2u8, 0, 0, 0, 0x00, 0x53, 0x14, 0xc0, 0x02, 0x01, 0x43, 0, 1];
    let (head, part) = want.as_slice().split_at(11);
    for piece in pieces {
        let bytes = piece.to_bytes(alloc)?;
        if piece.len() != 13 || bytes.as_slice() != want.as_slice() {
            return Ok(false);
        }
        if piece.head() != head || piece.payload().as_slice() != part {
            return Ok(false);
        }
    }
    Ok(true)
}

/// Whether the pieces of a transfer with this payload are those of one with the other.
fn have_the_same_pieces(alloc: Global, one: Bytes, other: Bytes) -> Result<bool, Fail> {
    let one = pieces(alloc, 24, delivery(0), one)?;
    let other = pieces(alloc, 24, delivery(0), other)?;
    Ok(one == other)
}

#[test]
fn pieces_are_compared_by_their_bytes(rt: HostRuntime) -> Result<(), Fail> {
    let alloc = rt.alloc();
    let alike = have_the_same_pieces(alloc, payload(alloc, 25)?, payload(alloc, 25)?)?;
    let unlike = have_the_same_pieces(alloc, payload(alloc, 25)?, payload(alloc, 24)?)?;
    holds(&rt, alike);
    holds(&rt, !unlike);
    Ok(())
}
