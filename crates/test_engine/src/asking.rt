//! Asking an engine, one input at a time, with whatever relay.

use crate::given::pieces_said;
use bytes::Bytes;
use fe2o3_amqp::{
    Attach, ConnectionState, Engine, Input, InputHandle, LinkRelay, Piece, Role, SessionNo,
    SessionSettings, err_name, hex_bytes,
};
use std::alloc::{AllocError, Global};
use test_support::{attach_of, detach_of, link_flow_of, open_of, transfer_of};

/// What an input is answered.
pub fn answer<R: LinkRelay>(engine: &mut Engine<R>, input: Input<R>) -> &'static str {
    let answer = engine.step(input);
    let name = match &answer {
        Ok(()) => "done",
        Err(error) => err_name(error),
    };
    drop(answer);
    name
}

/// The answer to a received frame.
pub fn receive<R: LinkRelay>(engine: &mut Engine<R>, frame: Bytes) -> &'static str {
    answer(engine, Input::Received(frame))
}

/// The answer to a received frame, given by its hexadecimal digits.
pub fn receive_digits<R: LinkRelay>(
    alloc: Global,
    engine: &mut Engine<R>,
    digits: &str,
) -> &'static str {
    match hex_bytes(alloc, digits) {
        Ok(Some(bytes)) => receive(engine, bytes),
        _ => "no bytes",
    }
}

/// The pieces of the first frame that waits.
pub fn pieces<R: LinkRelay>(engine: &mut Engine<R>) -> Option<Vec<Piece>> {
    match engine.next_output() {
        Ok(pieces) => pieces,
        Err(error) => {
            drop(error);
            None
        }
    }
}

/// The lines of the first frame that waits, if one waits.
fn next_lines<R: LinkRelay>(alloc: Global, engine: &mut Engine<R>) -> Result<String, AllocError> {
    match pieces(engine) {
        Some(pieces) => pieces_said(alloc, &pieces),
        None => Ok(String::new(alloc)),
    }
}

/// Whether one frame waits, whose only piece is this line with a line feed; without a line, whether no frame waits.
pub fn puts_out<R: LinkRelay>(alloc: Global, engine: &mut Engine<R>, line: &str) -> bool {
    if engine.has_output() == line.is_empty() {
        return false;
    }
    match next_lines(alloc, engine) {
        Ok(text) => text.as_str() == line && !engine.has_output(),
        Err(_) => false,
    }
}

/// An engine in this state, whose Open has no name and the usual limits. Tests drop it by an explicit call: at the end of a scope the proof takes
/// minutes.
pub fn engine_in<R: LinkRelay>(alloc: Global, state: ConnectionState) -> Engine<R> {
    Engine::new(alloc, state, open_of(String::new(alloc)))
}

/// An engine in `Opened` that has session 0, which this Begin of the peer's maps.
pub fn mapped<R: LinkRelay>(alloc: Global, begin: &str) -> Engine<R> {
    let mut engine = engine_in(alloc, ConnectionState::Opened);
    let own = Input::Begin(SessionNo(0), SessionSettings::new());
    let _is_mapped = answer(&mut engine, own) == "done"
        && pieces(&mut engine).is_some()
        && receive_digits(alloc, &mut engine, begin) == "done";
    engine
}

/// What the request of a link is answered, whose relay waits for the peer's attach.
pub fn allot<R: LinkRelay>(
    alloc: Global,
    engine: &mut Engine<R>,
    name: &str,
    relay: R,
) -> &'static str {
    match String::from_str(alloc, name) {
        Ok(name) => answer(engine, Input::AllocateLink(SessionNo(0), name, Some(relay))),
        Err(AllocError) => "no name",
    }
}

/// An attach of this side's, as a receiver.
fn attach(alloc: Global, name: &str, handle: u32) -> Result<Attach, AllocError> {
    Ok(attach_of(String::from_str(alloc, name)?, handle, Role::Receiver))
}

/// What the request of an attach on handle 0 is answered.
pub fn send_attach<R: LinkRelay>(
    alloc: Global,
    engine: &mut Engine<R>,
    name: &str,
) -> &'static str {
    match attach(alloc, name, 0) {
        Ok(attach) => answer(engine, Input::Attach(SessionNo(0), attach)),
        Err(AllocError) => "no name",
    }
}

/// What the request of a flow of handle 0 with credit 20 is answered.
pub fn send_flow<R: LinkRelay>(engine: &mut Engine<R>) -> &'static str {
    let flow = link_flow_of(0, 20, false);
    answer(engine, Input::Flow(SessionNo(0), flow))
}

/// What the request of a detach of handle 0 is answered, closed and without an error, that the peer is to answer.
pub fn send_detach<R: LinkRelay>(engine: &mut Engine<R>) -> &'static str {
    answer(engine, Input::Detach(SessionNo(0), detach_of(0), true))
}

/// What the request of a first transfer on handle 0 is answered.
pub fn send<R: LinkRelay>(
    engine: &mut Engine<R>,
    tag: &'static [u8],
    payload: Bytes,
) -> &'static str {
    let transfer = transfer_of(0, Some(tag));
    answer(
        engine,
        Input::Transfer(SessionNo(0), InputHandle(0), transfer, payload, true),
    )
}
