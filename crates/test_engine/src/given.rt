//! What the tests start from.

use bytes::Bytes;
use fe2o3_amqp::definitions::Error as AmqpError;
use fe2o3_amqp::{Answer, Engine, Input, Piece, ReplayRelay, Symbol, err_name, out_line};
use std::alloc::{AllocError, Global};
use std::test::Fail;

/// An engine whose links are relayed as those of transcripts are.
pub type ReplayEngine = Engine<ReplayRelay>;

/// An input of such an engine.
pub type ReplayInput = Input<ReplayRelay>;

/// An error with this condition, and nothing else.
pub fn error(alloc: Global, condition: &str) -> Result<AmqpError, Fail> {
    match Symbol::new(String::from_str(alloc, condition)?) {
        Some(condition) => Ok(AmqpError {
            condition,
            description: None,
            info: None,
        }),
        None => Err(Fail::new("no such value")),
    }
}

/// A Close without an error.
pub fn peer_close() -> Bytes {
    Bytes::from_static(&[0x02, 0, 0, 0, 0x00, 0x53, 0x18, 0x45])
}

fn push_line(text: &mut String, line: &str) -> Result<(), AllocError> {
    text.push_str(line)?;
    text.push_str("\n")?;
    Ok(())
}

/// One line for each piece.
fn push_pieces(alloc: Global, text: &mut String, pieces: &Vec<Piece>) -> Result<(), AllocError> {
    for piece in pieces.iter() {
        push_line(text, out_line(alloc, piece)?.as_str())?;
    }
    Ok(())
}

/// The lines of these pieces.
pub fn pieces_said(alloc: Global, pieces: &Vec<Piece>) -> Result<String, AllocError> {
    let mut text = String::new(alloc);
    push_pieces(alloc, &mut text, pieces)?;
    Ok(text)
}

fn push_answer(alloc: Global, text: &mut String, answer: &Answer) -> Result<(), AllocError> {
    match answer {
        Answer::Done => push_line(text, "done"),
        Answer::Refused(error) => push_line(text, err_name(error)),
        Answer::Out(pieces) => push_pieces(alloc, text, pieces),
        Answer::TooLarge(_) => push_line(text, "too large"),
    }
}

/// One line for each answer, and for each piece.
pub fn said(alloc: Global, answers: &Vec<Answer>) -> Result<String, AllocError> {
    let mut text = String::new(alloc);
    for answer in answers.iter() {
        push_answer(alloc, &mut text, answer)?;
    }
    Ok(text)
}
