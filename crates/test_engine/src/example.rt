//! The example of the README that closes by a handle.

use bytes::Bytes;
use fe2o3_amqp::connection::Error;
use fe2o3_amqp::{Answer, ConnectionHandle, HandledEngine, Input, LinkRelay};
use std::alloc::Global;
use std::collections::VecDeque;
use std::io::{self, ErrorKind, Write};

/// A turn of closing: what is wished is sent to `peer`, and the engine takes the frame that came, if any. Once the peer's Close is
/// answered on both sides, it tells how; until then it tells nothing.
pub fn closing<R: LinkRelay, P: Write>(
    alloc: Global,
    engine: &mut HandledEngine<R>,
    handle: &mut ConnectionHandle,
    frame: Option<Bytes>,
    peer: &mut P,
) -> io::Result<Option<Result<(), Error>>> {
    let mut inputs = VecDeque::new(alloc);
    if let Some(frame) = frame {
        if let Err(input) = inputs.push_back(Input::Received(frame)) {
            drop(input);
            drop(inputs);
            return Err(io::Error::from(ErrorKind::OutOfMemory));
        }
    }
    let mut answers = Vec::new(alloc);
    let outcome = engine.run(&mut inputs, &mut answers);
    let sent = send(&answers, peer);
    // prover
    drop(answers);
    drop(inputs);
    sent?;
    if outcome.is_err() {
        return Err(io::Error::from(ErrorKind::OutOfMemory));
    }
    match handle.try_close(engine) {
        Ok(answer) => Ok(Some(answer)),
        Err(_) => Ok(None),
    }
}

/// Sends the pieces of the frames among the answers.
fn send<P: Write>(answers: &Vec<Answer>, peer: &mut P) -> io::Result<()> {
    for answer in answers.iter() {
        if let Answer::Out(pieces) = answer {
            for piece in pieces.iter() {
                peer.write_all(piece.head())?;
                peer.write_all(piece.payload().as_slice())?;
            }
        }
    }
    Ok(())
}
