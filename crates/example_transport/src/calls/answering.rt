//! A frame that is refused, and what the peer is told of it.

use bytes::Bytes;
use fe2o3_amqp::{
    Answer, ConnectionState, Engine, IncomingChannel, Input, Open, PeerAnswer, Piece, ReplayRelay,
    SessionNo, SessionSettings, answer_to, err_name, out_line,
};
use std::alloc::{AllocError, Global};
use std::collections::VecDeque;
use std::io::{self, ErrorKind};

/// The peer's Begin on its channel 5, which answers the one on this side's channel 0.
const BEGIN: &[u8] =
    b"\x02\x00\x00\x05\x00\x53\x11\xc0\x0f\x04\x60\x00\x00\x43\x70\x00\x00\x13\x88\x70\x00\x00\x13\x88";

/// The peer's flow for its handle 7, which no link has.
const FLOW: &[u8] = b"\x02\x00\x00\x05\x00\x53\x13\xc0\x09\x05\x43\x52\x64\x43\x52\x64\x52\x07";

/// An engine without links of its own.
type UserEngine = Engine<ReplayRelay>;

/// Begins a session, is sent a flow for no link, and ends the session with the condition that the standard has for it. Prints the
/// frames that go out, and what is refused.
pub fn answering(rt: &HostRuntime) -> io::Result<()> {
    let open = open(rt.alloc())?;
    let mut engine = Engine::new(rt.alloc(), ConnectionState::Opened, open);
    let outcome = talk(rt, &mut engine);
    drop(engine);
    outcome
}

fn talk(rt: &HostRuntime, engine: &mut UserEngine) -> io::Result<()> {
    let begin = Input::Begin(SessionNo(3), SessionSettings::new());
    ask(rt, engine, begin)?;
    receive(rt, engine, BEGIN)?;
    receive(rt, engine, FLOW)
}

/// Hands a frame on channel 5 to the engine, and tells the peer what is to be told of it.
fn receive(rt: &HostRuntime, engine: &mut UserEngine, frame: &'static [u8]) -> io::Result<()> {
    let Some(answer) = ask(rt, engine, Input::Received(Bytes::from_static(frame)))? else {
        return Ok(());
    };
    let channel = IncomingChannel(5);
    let session = engine.connection().session_tx_by_incoming_channel(channel);
    match (answer, session) {
        (PeerAnswer::End(condition), Some(number)) => {
            let error = condition.to_error(rt.alloc())?;
            ask(rt, engine, Input::End(number, Some(error)))?;
        }
        (PeerAnswer::End(condition) | PeerAnswer::Close(condition), _) => {
            let error = condition.to_error(rt.alloc())?;
            ask(rt, engine, Input::Close(Some(error)))?;
        }
    }
    Ok(())
}

/// Has the engine take the input, prints what it answers, and gives what the peer is to be told of a refusal.
fn ask(
    rt: &HostRuntime,
    engine: &mut UserEngine,
    input: Input<ReplayRelay>,
) -> io::Result<Option<PeerAnswer>> {
    let mut inputs = VecDeque::new(rt.alloc());
    if let Err(input) = inputs.push_back(input) {
        drop(input);
        drop(inputs);
        return Err(io::Error::from(ErrorKind::OutOfMemory));
    }
    let mut answers = Vec::new(rt.alloc());
    let outcome = engine.run(&mut inputs, &mut answers);
    drop(inputs);
    let told = told(rt, &answers, *engine.connection().local_state());
    drop(answers);
    match outcome {
        Ok(()) => told,
        Err(_) => Err(io::Error::from(ErrorKind::OutOfMemory)),
    }
}

/// Prints the answers, and gives what the peer is to be told of the last refusal among them.
fn told(
    rt: &HostRuntime,
    answers: &Vec<Answer>,
    state: ConnectionState,
) -> io::Result<Option<PeerAnswer>> {
    let mut told = None;
    for answer in answers.iter() {
        match answer {
            Answer::Refused(error) => {
                println!(rt; "err {}", err_name(error))?;
                told = answer_to(error, state);
            }
            Answer::Out(pieces) => print(rt, pieces)?,
            Answer::Done | Answer::TooLarge(_) => {}
        }
    }
    Ok(told)
}

/// Prints the pieces of a frame, each without its size.
fn print(rt: &HostRuntime, pieces: &Vec<Piece>) -> io::Result<()> {
    for piece in pieces.iter() {
        let line = out_line(rt.alloc(), piece)?;
        println!(rt; "{line}")?;
    }
    Ok(())
}

fn open(alloc: Global) -> Result<Open, AllocError> {
    Ok(Open {
        container_id: String::from_str(alloc, "user")?,
        hostname: None,
        max_frame_size: 65536,
        channel_max: 255,
        idle_time_out: None,
        outgoing_locales: None,
        incoming_locales: None,
        offered_capabilities: None,
        desired_capabilities: None,
        properties: None,
    })
}
