//! A frame in pieces, each written after its size.

use amqp_transport::write_piece;
use bytes::Bytes;
use fe2o3_amqp::{Frame, FrameDecoder, FrameEncoder};
use std::alloc::Global;
use std::io::{Error, ErrorKind, Write};

/// The most bytes of a piece.
const LIMIT: u32 = 24;

/// Writes the pieces of a frame as they would be sent, in hexadecimal.
pub fn tell<O: Write>(alloc: Global, frame: Bytes, out: &mut O) -> anyhow::Result<()> {
    let (frame, rest) = match FrameDecoder::new().decode(alloc, frame) {
        Ok(decoded) => decoded,
        Err(_) => return Err(Error::from(ErrorKind::InvalidData).into()),
    };
    drop(rest);
    let mut sent = Vec::new(alloc);
    let outcome = write(alloc, &frame, &mut sent);
    drop(frame);
    let digits = hex::encode(alloc, sent.as_slice());
    drop(sent);
    outcome?;
    writeln!(out, "{}", digits?)?;
    Ok(())
}

fn write(alloc: Global, frame: &Frame, sent: &mut Vec<u8>) -> anyhow::Result<()> {
    let pieces = match FrameEncoder::new(LIMIT).encode(alloc, frame) {
        Ok(pieces) => pieces,
        Err(_) => return Err(Error::from(ErrorKind::InvalidData).into()),
    };
    for piece in pieces.iter() {
        write_piece(piece, sent)?;
    }
    Ok(())
}
