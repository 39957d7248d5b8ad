//! The frames of the peer's that carry numbers, without their size (AMQP 1.0 part 2, section 2.7).

use bytes::Bytes;
use fe2o3_amqp::Role;
use std::alloc::{AllocError, Global};

/// A Begin that answers the channel 0: next-outgoing-id 0, and both windows as wide as can be.
const BEGIN: [u8; 24] = [
    2, 0, 0, 0, 0x00, 0x53, 0x11, 0xc0, 15, 4, 0x60, 0, 0, 0x43, 0x70, 0xff, 0xff, 0xff, 0xff,
    0x70, 0xff, 0xff, 0xff, 0xff,
];

/// A Flow of the session: next-incoming-id 0, incoming-window 0, next-outgoing-id 0, and an outgoing window as wide as can be.
const FLOW: [u8; 26] = [
    2, 0, 0, 0, 0x00, 0x53, 0x13, 0xc0, 17, 4, 0x70, 0, 0, 0, 0, 0x70, 0, 0, 0, 0, 0x43, 0x70,
    0xff, 0xff, 0xff, 0xff,
];

/// An unsettled Transfer of the peer's with the number 0 and a tag of four bytes, at the handle 0.
const TRANSFER: [u8; 24] = [
    2, 0, 0, 0, 0x00, 0x53, 0x14, 0xc0, 15, 5, 0x43, 0x70, 0, 0, 0, 0, 0xa0, 4, 0, 0, 0, 0, 0x43,
    0x42,
];

/// The same at a handle that takes four bytes.
const TRANSFER_AT: [u8; 28] = [
    2, 0, 0, 0, 0x00, 0x53, 0x14, 0xc0, 19, 5, 0x70, 0, 0, 0, 0, 0x70, 0, 0, 0, 0, 0xa0, 4, 0, 0,
    0, 0, 0x43, 0x42,
];

/// A Disposition of the receiver's from 0 to 0: settled and accepted.
const DISPOSITION: [u8; 26] = [
    2, 0, 0, 0, 0x00, 0x53, 0x15, 0xc0, 17, 5, 0x41, 0x70, 0, 0, 0, 0, 0x70, 0, 0, 0, 0, 0x41,
    0x00, 0x53, 0x24, 0x45,
];

/// The peer answers the Begin that was sent on this channel, on the same one.
pub fn begin(alloc: Global, channel: u16) -> Result<Bytes, AllocError> {
    let mut frame = BEGIN;
    frame[2..4].copy_from_slice(&channel.to_be_bytes());
    frame[11..13].copy_from_slice(&channel.to_be_bytes());
    Bytes::copy_from_slice(alloc, &frame)
}

/// From the transfer with the number `next` on, the peer takes as many as the window says.
pub fn flow(alloc: Global, channel: u16, next: u32, window: u32) -> Result<Bytes, AllocError> {
    let mut frame = FLOW;
    frame[2..4].copy_from_slice(&channel.to_be_bytes());
    frame[11..15].copy_from_slice(&next.to_be_bytes());
    frame[16..20].copy_from_slice(&window.to_be_bytes());
    Bytes::copy_from_slice(alloc, &frame)
}

/// The peer sends 64 bytes as the delivery with this number, which its tag spells too.
pub fn transfer(alloc: Global, channel: u16, number: u32) -> Result<Bytes, AllocError> {
    let mut frame = [b'x'; 88];
    frame[0..24].copy_from_slice(&TRANSFER);
    frame[2..4].copy_from_slice(&channel.to_be_bytes());
    frame[12..16].copy_from_slice(&number.to_be_bytes());
    frame[18..22].copy_from_slice(&number.to_be_bytes());
    Bytes::copy_from_slice(alloc, &frame)
}

/// The same through the link at this handle.
pub fn transfer_at(
    alloc: Global,
    channel: u16,
    handle: u32,
    number: u32,
) -> Result<Bytes, AllocError> {
    let mut frame = [b'x'; 92];
    frame[0..28].copy_from_slice(&TRANSFER_AT);
    frame[2..4].copy_from_slice(&channel.to_be_bytes());
    frame[11..15].copy_from_slice(&handle.to_be_bytes());
    frame[16..20].copy_from_slice(&number.to_be_bytes());
    frame[22..26].copy_from_slice(&number.to_be_bytes());
    Bytes::copy_from_slice(alloc, &frame)
}

/// The peer, in this role, accepts and settles the deliveries from `first` to `last`.
pub fn settled(
    alloc: Global,
    channel: u16,
    role: Role,
    first: u32,
    last: u32,
) -> Result<Bytes, AllocError> {
    let mut frame = DISPOSITION;
    frame[2..4].copy_from_slice(&channel.to_be_bytes());
    frame[10] = byte_of(role);
    frame[12..16].copy_from_slice(&first.to_be_bytes());
    frame[17..21].copy_from_slice(&last.to_be_bytes());
    Bytes::copy_from_slice(alloc, &frame)
}

/// The byte of a role, a boolean: the receiver's is true.
fn byte_of(role: Role) -> u8 {
    match role {
        Role::Receiver => 0x41,
        Role::Sender => 0x42,
    }
}

/// The same frame on another channel.
pub fn on_channel(alloc: Global, frame: &Bytes, channel: u16) -> Result<Bytes, AllocError> {
    let mut copy = Vec::from_slice(alloc, frame.as_slice())?;
    if copy.len() >= 4 {
        copy[2..4].copy_from_slice(&channel.to_be_bytes());
    }
    Ok(Bytes::from_vec(copy)?)
}
