//! Rows of a connection alone: what its calls answer.

use crate::reading;
use fe2o3_amqp::connection::Connection;
use fe2o3_amqp::{
    ConnectionInnerError, ConnectionStateError, Frame, FrameBody, FrameEncoder, IncomingChannel,
    OutgoingChannel, Performative, Piece, SessionFrame, SessionFrameBody, SessionNo, out_line,
};
use std::alloc::Global;
use test_support::{reasons, words};

/// What the calls of a row answer, whose first line is the state of the connection.
pub fn answer(alloc: Global, text: &str) -> anyhow::Result<String> {
    let (state, lines) = text.split_once('\n').unwrap_or((text, ""));
    let state = reading::state(state)?;
    let mut connection = Connection::new(alloc, state, reading::open(alloc, "replay")?);
    let answers = answers(alloc, &mut connection, lines);
    drop(connection);
    answers
}

fn answers(alloc: Global, connection: &mut Connection, lines: &str) -> anyhow::Result<String> {
    let mut text = String::new(alloc);
    for line in lines.lines() {
        text.push_str(call(alloc, connection, line)?.as_str())?;
        text.push_str("\n")?;
    }
    Ok(text)
}

/// What one call answers.
fn call(alloc: Global, connection: &mut Connection, line: &str) -> anyhow::Result<String> {
    let (word, rest) = words::word(line);
    match word {
        "open" => sent(alloc, connection.send_open()),
        "close" => close(alloc, connection, rest),
        "recv" => received(alloc, connection, rest),
        "allocate" => allocate(alloc, connection, rest),
        "send" => send(alloc, connection, rest),
        "stop" => stop(alloc, connection, rest),
        _ => plain(alloc, connection, word, rest),
    }
}

/// What the calls answer that do not fail.
fn plain(
    alloc: Global,
    connection: &mut Connection,
    word: &str,
    rest: &str,
) -> anyhow::Result<String> {
    match word {
        "deallocate" => {
            let is_given = connection.deallocate_session(OutgoingChannel(words::channel(rest)?));
            Ok(format!(in alloc; "{is_given}")?)
        }
        "route" => route(alloc, connection, rest),
        "holder" => holder(alloc, connection, rest),
        "show" => show(alloc, connection),
        _ => Err(anyhow::anyhow!("no call")),
    }
}

/// The frame as it goes out.
fn frame(alloc: Global, frame: &Frame) -> anyhow::Result<String> {
    let pieces = FrameEncoder::new(u32::MAX).encode(alloc, frame)?;
    let text = only_line(alloc, pieces.as_slice());
    drop(pieces);
    text
}

fn only_line(alloc: Global, pieces: &[Piece]) -> anyhow::Result<String> {
    match pieces {
        [piece] => Ok(out_line(alloc, piece)?),
        _ => Err(anyhow::anyhow!("no whole frame")),
    }
}

/// The same of a frame that nothing else needs.
fn frame_text(alloc: Global, made: Frame) -> anyhow::Result<String> {
    let text = frame(alloc, &made);
    drop(made);
    text
}

fn plain_text(alloc: Global, text: &str) -> anyhow::Result<String> {
    Ok(String::from_str(alloc, text)?)
}

fn refused(alloc: Global, error: &ConnectionStateError) -> anyhow::Result<String> {
    Ok(format!(in alloc; "err {error:?}")?)
}

fn sent(alloc: Global, answer: Result<Frame, ConnectionStateError>) -> anyhow::Result<String> {
    let text = match &answer {
        Ok(made) => frame(alloc, made),
        Err(error) => refused(alloc, error),
    };
    drop(answer);
    text
}

fn taken(alloc: Global, answer: Result<(), ConnectionStateError>) -> anyhow::Result<String> {
    let text = match &answer {
        Ok(()) => plain_text(alloc, "ok"),
        Err(error) => refused(alloc, error),
    };
    drop(answer);
    text
}

/// The session to which a Begin or an End goes, and the frame that it gets.
fn routed(
    alloc: Global,
    answer: Result<(SessionNo, SessionFrame), ConnectionInnerError>,
) -> anyhow::Result<String> {
    match answer {
        Ok((number, frame)) => session_frame(alloc, number, frame),
        Err(error) => not_routed(alloc, error),
    }
}

fn not_routed(alloc: Global, error: ConnectionInnerError) -> anyhow::Result<String> {
    let text = format!(in alloc; "err {error:?}");
    drop(error);
    Ok(text?)
}

fn session_frame(alloc: Global, number: SessionNo, sent: SessionFrame) -> anyhow::Result<String> {
    let text = frame_text(alloc, frame_of(sent))?;
    let number = number.0;
    Ok(format!(in alloc; "session {number}: {text}")?)
}

/// The frame of a session's Begin or End; an empty one where it is neither.
fn frame_of(sent: SessionFrame) -> Frame {
    let channel = sent.channel;
    match sent.body {
        SessionFrameBody::Begin(begin) => Frame::new(channel, FrameBody::Begin(begin)),
        SessionFrameBody::End(end) => Frame::new(channel, FrameBody::End(end)),
        other => {
            drop(other);
            Frame::empty()
        }
    }
}

fn close(alloc: Global, connection: &mut Connection, text: &str) -> anyhow::Result<String> {
    let error = reasons::error(alloc, text)?;
    sent(alloc, connection.send_close(error))
}

/// What is answered to a performative that came on a channel.
fn received(alloc: Global, connection: &mut Connection, text: &str) -> anyhow::Result<String> {
    let (channel, performative) = reading::on_channel(alloc, text)?;
    let channel = IncomingChannel(channel);
    match performative {
        Performative::Open(open) => taken(alloc, connection.on_incoming_open(channel, open)),
        Performative::Close(close) => taken(alloc, connection.on_incoming_close(channel, close)),
        Performative::Begin(begin) => routed(alloc, connection.on_incoming_begin(channel, begin)),
        Performative::End(end) => routed(alloc, connection.on_incoming_end(channel, end)),
        other => {
            drop(other);
            Err(anyhow::anyhow!("no call takes it"))
        }
    }
}

/// The frame of a session's Begin or End.
fn send(alloc: Global, connection: &Connection, text: &str) -> anyhow::Result<String> {
    let (channel, performative) = reading::on_channel(alloc, text)?;
    let channel = OutgoingChannel(channel);
    match performative {
        Performative::Begin(begin) => {
            frame_text(alloc, connection.on_outgoing_begin(channel, begin))
        }
        Performative::End(end) => frame_text(alloc, connection.on_outgoing_end(channel, end)),
        other => {
            drop(other);
            Err(anyhow::anyhow!("no Begin and no End"))
        }
    }
}

fn allocate(alloc: Global, connection: &mut Connection, text: &str) -> anyhow::Result<String> {
    match connection.allocate_session(SessionNo(words::number(text)?)) {
        Ok(channel) => {
            let channel = channel.0;
            Ok(format!(in alloc; "channel {channel}")?)
        }
        Err(error) => Ok(format!(in alloc; "err {error:?}")?),
    }
}

fn stop(alloc: Global, connection: &mut Connection, text: &str) -> anyhow::Result<String> {
    connection.set_connection_stop_reason(reasons::connection_stop(text)?);
    Ok(String::from_str(alloc, "ok")?)
}

fn route(alloc: Global, connection: &Connection, text: &str) -> anyhow::Result<String> {
    let channel = IncomingChannel(words::channel(text)?);
    session(alloc, connection.session_tx_by_incoming_channel(channel))
}

fn holder(alloc: Global, connection: &Connection, text: &str) -> anyhow::Result<String> {
    let channel = OutgoingChannel(words::channel(text)?);
    session(alloc, connection.session_tx_by_outgoing_channel(channel))
}

fn session(alloc: Global, number: Option<SessionNo>) -> anyhow::Result<String> {
    match number {
        Some(SessionNo(number)) => Ok(format!(in alloc; "session {number}")?),
        None => Ok(String::from_str(alloc, "none")?),
    }
}

/// The state, why the connection stopped, the name of its Open, and the state to which the peer's Close would move.
fn show(alloc: Global, connection: &Connection) -> anyhow::Result<String> {
    let state = connection.local_state();
    let reason = connection.connection_stop_reason();
    let name = connection.local_open().container_id.as_str();
    let closed = connection.state_after_incoming_close();
    Ok(format!(in alloc; "{state:?} reason={reason:?} open={name} closed={closed:?}")?)
}
