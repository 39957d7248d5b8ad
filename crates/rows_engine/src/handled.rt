//! Rows of an engine with handles: what its runs and its handles answer, and what it shows.

use crate::inputs::{self, RowInput};
use crate::reading;
use fe2o3_amqp::{
    Answer, ConnectionHandle, Engine, HandledEngine, IncomingChannel, Piece, ReplayRelay,
    SessionHandle, SessionNo, err_name, out_line,
};
use std::alloc::{AllocError, Global};
use std::collections::VecDeque;
use std::fmt::Debug;
use std::mem;
use test_support::{reasons, words};

/// An engine with the inputs that wait for its next run, two handles of its connection, and two of the session that was named last.
#[derive(Drop)]
struct Handled {
    engine: HandledEngine<ReplayRelay>,
    inputs: VecDeque<RowInput>,
    connection: (ConnectionHandle, ConnectionHandle),
    session: Option<(SessionHandle, SessionHandle)>,
}

/// What the lines of a row answer, whose first line is the state of the connection.
pub fn answer(alloc: Global, text: &str) -> anyhow::Result<String> {
    let (state, lines) = text.split_once('\n').unwrap_or((text, ""));
    let mut handled = with_handles(alloc, new_engine(alloc, state)?);
    let answers = answers(alloc, &mut handled, lines);
    drop(handled);
    answers
}

/// This engine with two handles of its connection.
fn with_handles(alloc: Global, engine: HandledEngine<ReplayRelay>) -> Handled {
    let connection = (engine.connection_handle(), engine.connection_handle());
    Handled {
        engine,
        inputs: VecDeque::new(alloc),
        connection,
        session: None,
    }
}

/// An engine in this state. After the state stands the name of its Open, where that is not `replay`.
fn new_engine(alloc: Global, text: &str) -> anyhow::Result<HandledEngine<ReplayRelay>> {
    let (state, name) = words::word(text);
    let state = reading::state(state)?;
    let name = if name.is_empty() { "replay" } else { name };
    let open = reading::open(alloc, name)?;
    Ok(HandledEngine::new(Engine::new(alloc, state, open)))
}

fn answers(alloc: Global, handled: &mut Handled, lines: &str) -> anyhow::Result<String> {
    let mut text = String::new(alloc);
    for line in lines.lines() {
        text.push_str(call(alloc, handled, line)?.as_str())?;
    }
    Ok(text)
}

/// What one line answers.
fn call(alloc: Global, handled: &mut Handled, line: &str) -> anyhow::Result<String> {
    let (word, rest) = words::word(line);
    match word {
        "connection" => of_connection(alloc, &mut handled.engine, &mut handled.connection.0, rest),
        "other" => of_connection(alloc, &mut handled.engine, &mut handled.connection.1, rest),
        "handle" => handle(alloc, handled, rest),
        "session" => of_sessions(alloc, handled, true, rest),
        "twin" => of_sessions(alloc, handled, false, rest),
        "engine" => another(alloc, handled, rest),
        "with" => {
            wait(alloc, &mut handled.inputs, rest)?;
            Ok(String::new(alloc))
        }
        "why" => why(alloc, handled, rest),
        "show" | "route" | "led" | "output" => read(alloc, &handled.engine, word, rest),
        _ => run(alloc, handled, line),
    }
}

/// From now on the handles are handed another engine, new in this state.
fn another(alloc: Global, handled: &mut Handled, state: &str) -> anyhow::Result<String> {
    let engine = new_engine(alloc, state)?;
    drop(mem::replace(&mut handled.engine, engine));
    Ok(String::new(alloc))
}

/// Two handles of this session are made.
fn handle(alloc: Global, handled: &mut Handled, text: &str) -> anyhow::Result<String> {
    let is_made = make_handles(handled, SessionNo(words::number(text)?));
    let word = if is_made { "some\n" } else { "none\n" };
    Ok(String::from_str(alloc, word)?)
}

/// Whether two handles of this session are made; if not, the old ones stay.
fn make_handles(handled: &mut Handled, number: SessionNo) -> bool {
    let Some(first) = handled.engine.session_handle(number) else {
        return false;
    };
    let Some(second) = handled.engine.session_handle(number) else {
        return false;
    };
    drop(mem::replace(&mut handled.session, Some((first, second))));
    true
}

/// A call of a handle of the connection.
fn of_connection(
    alloc: Global,
    engine: &mut HandledEngine<ReplayRelay>,
    handle: &mut ConnectionHandle,
    text: &str,
) -> anyhow::Result<String> {
    let (word, rest) = words::word(text);
    match word {
        "is" => said(alloc, handle.is_closed(engine)),
        "try" => shown(alloc, handle.try_close(engine)),
        "close" => match reasons::error(alloc, rest)? {
            None => shown(alloc, handle.close(engine)),
            Some(error) => shown(alloc, handle.close_with_error(error, engine)),
        },
        _ => Err(anyhow::anyhow!("no call of a handle")),
    }
}

/// A call of a handle of the session that was named last: of the first, or of the second.
fn of_sessions(
    alloc: Global,
    handled: &mut Handled,
    is_first: bool,
    text: &str,
) -> anyhow::Result<String> {
    match &mut handled.session {
        None => Err(anyhow::anyhow!("no session was named")),
        Some((first, second)) => {
            if is_first {
                of_session(alloc, &mut handled.engine, first, text)
            } else {
                of_session(alloc, &mut handled.engine, second, text)
            }
        }
    }
}

fn of_session(
    alloc: Global,
    engine: &mut HandledEngine<ReplayRelay>,
    handle: &mut SessionHandle,
    text: &str,
) -> anyhow::Result<String> {
    let (word, rest) = words::word(text);
    match word {
        "is" => said(alloc, handle.is_ended(engine)),
        "try" => shown(alloc, handle.try_end(engine)),
        "close" => shown(alloc, handle.close(engine)),
        "end" => match reasons::error(alloc, rest)? {
            None => shown(alloc, handle.end(engine)),
            Some(error) => shown(alloc, handle.end_with_error(error, engine)),
        },
        _ => Err(anyhow::anyhow!("no call of a handle")),
    }
}

fn said(alloc: Global, answer: bool) -> anyhow::Result<String> {
    Ok(format!(in alloc; "{answer}\n")?)
}

/// An answer as its `Debug` shows it.
fn shown<T: Debug + Drop>(alloc: Global, answer: T) -> anyhow::Result<String> {
    Ok(format!(in alloc; "{answer:?}\n")?)
}

/// What a run answers, of the inputs that wait and of this one; of those alone, where the word is `run`.
fn run(alloc: Global, handled: &mut Handled, line: &str) -> anyhow::Result<String> {
    let answers = ran(alloc, handled, line)?;
    let text = lines_of(alloc, &answers);
    drop(answers);
    text
}

/// The same, as `Debug` shows it.
fn why(alloc: Global, handled: &mut Handled, line: &str) -> anyhow::Result<String> {
    let answers = ran(alloc, handled, line)?;
    shown(alloc, answers)
}

fn ran(alloc: Global, handled: &mut Handled, line: &str) -> anyhow::Result<Vec<Answer>> {
    if line != "run" {
        wait(alloc, &mut handled.inputs, line)?;
    }
    let mut answers = Vec::new(alloc);
    match handled.engine.run(&mut handled.inputs, &mut answers) {
        Ok(()) => Ok(answers),
        Err(stopped) => {
            drop(answers);
            Err(stopped.into())
        }
    }
}

/// From now on this input waits for the next run.
fn wait(alloc: Global, inputs: &mut VecDeque<RowInput>, line: &str) -> anyhow::Result<()> {
    let (word, rest) = words::word(line);
    hold(inputs, inputs::input(alloc, word, rest)?)?;
    Ok(())
}

fn hold<T: Drop>(items: &mut VecDeque<T>, item: T) -> Result<(), AllocError> {
    items.push_back(item)?;
    Ok(())
}

fn lines_of(alloc: Global, answers: &Vec<Answer>) -> anyhow::Result<String> {
    let mut text = String::new(alloc);
    for answer in answers.iter() {
        text.push_str(line_of(alloc, answer)?.as_str())?;
    }
    Ok(text)
}

/// What is read from the engine: what it or a session shows, where a channel of the peer's leads, whether one leads to a session,
/// and the handle of a live link.
fn read(
    alloc: Global,
    engine: &HandledEngine<ReplayRelay>,
    word: &str,
    rest: &str,
) -> anyhow::Result<String> {
    match word {
        "show" if rest.is_empty() => Ok(format!(in alloc; "{engine:?}\n")?),
        "show" => show(alloc, engine.engine(), rest),
        "route" => {
            let channel = IncomingChannel(words::channel(rest)?);
            let connection = engine.engine().connection();
            shown(alloc, connection.session_tx_by_incoming_channel(channel))
        }
        "led" => {
            let number = inputs::number(rest)?;
            said(alloc, engine.engine().connection().has_route(number))
        }
        _ => {
            let (number, name) = words::word(rest);
            let number = inputs::number(number)?;
            shown(alloc, engine.engine().output_handle(number, name))
        }
    }
}

/// A session as its `Debug` shows it.
fn show(alloc: Global, engine: &Engine<ReplayRelay>, text: &str) -> anyhow::Result<String> {
    match engine.session(inputs::number(text)?) {
        Some(session) => Ok(format!(in alloc; "{session:?}\n")?),
        None => Ok(String::from_str(alloc, "none\n")?),
    }
}

/// The lines of a frame's pieces.
fn lines_of_frame(alloc: Global, pieces: &Vec<Piece>) -> Result<String, AllocError> {
    let mut text = String::new(alloc);
    for piece in pieces.iter() {
        text.push_str(out_line(alloc, piece)?.as_str())?;
        text.push_str("\n")?;
    }
    Ok(text)
}

/// The lines of an answer.
fn line_of(alloc: Global, answer: &Answer) -> anyhow::Result<String> {
    match answer {
        Answer::Done => Ok(String::from_str(alloc, "done\n")?),
        Answer::Refused(error) => {
            let name = err_name(error);
            Ok(format!(in alloc; "err {name}\n")?)
        }
        Answer::Out(pieces) => Ok(lines_of_frame(alloc, pieces)?),
        Answer::TooLarge(_) => Ok(String::from_str(alloc, "err TooLarge\n")?),
    }
}
