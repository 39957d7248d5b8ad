//! Running a script: each input is offered to the engine, and once more where it is refused for memory.

use crate::script::input::{ScriptInput, of_line};
use crate::script::wishes::WishedEngine;
use crate::script::{codec, free, mark, print, reading, replays, say, sending, wishes};
use fe2o3_amqp::{
    Answer, ConnectionState, Engine, HandledEngine, Open, Piece, ReplayRelay, Session,
    SessionInnerError, StepError, err_name, out_line,
};
use std::alloc::{AllocError, Global};
use std::collections::VecDeque;
use test_support::{open_of, words};

/// The engine of a script.
pub type ScriptEngine = Engine<ReplayRelay>;

/// What inputs can be given to.
pub trait Runs {
    /// Runs the inputs; whether none was left for want of memory.
    fn runs(&mut self, inputs: &mut VecDeque<ScriptInput>, answers: &mut Vec<Answer>) -> bool;
}

impl Runs for ScriptEngine {
    fn runs(&mut self, inputs: &mut VecDeque<ScriptInput>, answers: &mut Vec<Answer>) -> bool {
        self.run(inputs, answers).is_ok()
    }
}

impl Runs for WishedEngine {
    fn runs(&mut self, inputs: &mut VecDeque<ScriptInput>, answers: &mut Vec<Answer>) -> bool {
        self.run(inputs, answers).is_ok()
    }
}

fn open(alloc: Global) -> Result<Open, AllocError> {
    Ok(open_of(String::from_str(alloc, "replay")?))
}

/// The Open of a new engine; one request alone is refused, and the second attempt passes.
fn open_again(alloc: Global) -> Result<Open, AllocError> {
    match open(alloc) {
        Ok(open) => Ok(open),
        Err(_) => open(alloc),
    }
}

fn engine_of(alloc: Global, open: Open) -> ScriptEngine {
    Engine::new(alloc, ConnectionState::HeaderExchange, open)
}

/// Runs the lines.
pub fn script(rt: &HostRuntime, text: &str) -> anyhow::Result<()> {
    mark(rt, "@make\n");
    let mut engine = engine_of(rt.alloc(), open_again(rt.alloc())?);
    let outcome = beside(rt, &mut engine, text);
    // prover
    drop(engine);
    outcome
}

/// Runs the lines with a second engine, whose handles are used.
fn beside(rt: &HostRuntime, scripted: &mut ScriptEngine, text: &str) -> anyhow::Result<()> {
    let mut wished = HandledEngine::new(engine_of(rt.alloc(), open_again(rt.alloc())?));
    let outcome = lines(rt, scripted, &mut wished, text);
    drop(wished);
    outcome
}

fn lines(
    rt: &HostRuntime,
    engine: &mut ScriptEngine,
    wished: &mut WishedEngine,
    text: &str,
) -> anyhow::Result<()> {
    for text in text.lines() {
        mark(rt, "@line\n");
        line(rt, engine, wished, text)?;
    }
    Ok(())
}

fn line(
    rt: &HostRuntime,
    engine: &mut ScriptEngine,
    wished: &mut WishedEngine,
    text: &str,
) -> anyhow::Result<()> {
    match words::word(text) {
        ("wished", rest) => wishes::called(rt, wished, rest),
        ("#", _) => begins(rt, engine, text),
        ("call", rest) => codec::called(rt, rest),
        ("free", rest) => free::called(rt, engine, rest),
        ("into", rest) => sending::offered(rt, engine, rest),
        ("replays", _) => {
            mark(rt, "@replays\n");
            replays::called(rt)
        }
        ("show", number) => show(rt, engine, number),
        _ => offered(rt, engine, text),
    }
}

/// A script begins, with a new engine.
fn begins(rt: &HostRuntime, engine: &mut ScriptEngine, title: &str) -> anyhow::Result<()> {
    let new = engine_of(rt.alloc(), open_again(rt.alloc())?);
    drop(std::mem::replace(engine, new));
    print(rt, title)
}

/// Offers the input of a line, and once more where it is refused for memory.
pub fn offered<E: Runs>(rt: &HostRuntime, engine: &mut E, line: &str) -> anyhow::Result<()> {
    for _ in 0..2 {
        if is_answered(rt, engine, line)? {
            return Ok(());
        }
    }
    Err(anyhow::anyhow!("refused twice"))
}

/// Whether the input of a line is answered otherwise than by a refusal for memory.
fn is_answered<E: Runs>(rt: &HostRuntime, engine: &mut E, line: &str) -> anyhow::Result<bool> {
    mark(rt, "@make\n");
    let mut inputs = VecDeque::new(rt.alloc());
    let outcome = match queued(rt.alloc(), &mut inputs, line) {
        Ok(true) => answers(rt, engine, &mut inputs, line.starts_with("take ")),
        Ok(false) => Err(anyhow::anyhow!("no line of a script")),
        Err(_) => Ok(false),
    };
    drop(inputs);
    outcome
}

/// Puts the input of a line into the queue; whether the line says one, or is a run of none. `AllocError` where memory is refused.
pub fn queued(
    alloc: Global,
    inputs: &mut VecDeque<ScriptInput>,
    line: &str,
) -> Result<bool, AllocError> {
    match of_line(alloc, line)? {
        Some(input) => {
            inputs.push_back(input)?;
            Ok(true)
        }
        None => Ok(line == "run"),
    }
}

/// Gives the inputs to the engine, and prints its answers; whether the inputs are not to come again.
fn answers<E: Runs>(
    rt: &HostRuntime,
    engine: &mut E,
    inputs: &mut VecDeque<ScriptInput>,
    is_transfer: bool,
) -> anyhow::Result<bool> {
    mark(rt, "@run\n");
    let mut answers = Vec::new(rt.alloc());
    let outcome = match run(rt, engine, inputs, &mut answers) {
        Ok(()) => printed(rt, &answers, is_transfer),
        Err(error) => Err(error),
    };
    drop(answers);
    outcome
}

/// Runs the engine, and once more where it stops for want of memory.
fn run<E: Runs>(
    rt: &HostRuntime,
    engine: &mut E,
    inputs: &mut VecDeque<ScriptInput>,
    answers: &mut Vec<Answer>,
) -> anyhow::Result<()> {
    if !engine.runs(inputs, answers) {
        print(rt, "~ Stopped")?;
        mark(rt, "@again\n");
        if !engine.runs(inputs, answers) {
            anyhow::bail!("stopped twice");
        }
    }
    mark(rt, "@print\n");
    Ok(())
}

/// Prints the answers; whether none of them is a refusal for memory after which the input is to come again.
fn printed(rt: &HostRuntime, answers: &Vec<Answer>, is_transfer: bool) -> anyhow::Result<bool> {
    let mut is_done = true;
    for answer in answers.iter() {
        match answer {
            Answer::Done => {}
            Answer::Refused(error) => is_done = is_done && refused(rt, error, is_transfer)?,
            Answer::Out(pieces) => out(rt, pieces)?,
            Answer::TooLarge(_) => print(rt, "err TooLarge")?,
        }
    }
    Ok(is_done)
}

/// Prints a refusal; whether the input is not to come again.
pub fn refused(rt: &HostRuntime, error: &StepError, is_transfer: bool) -> anyhow::Result<bool> {
    let name = err_name(error);
    if name != "OutOfMemory" {
        say(rt, "err ")?;
        print(rt, name)?;
        return Ok(true);
    }
    match error {
        StepError::Session(SessionInnerError::OutOfMemory) if is_transfer => {
            print(rt, "~ the session refuses the transfer")?;
            Ok(true)
        }
        _ => {
            print(rt, "~ OutOfMemory")?;
            Ok(false)
        }
    }
}

/// Prints the pieces of a frame.
pub fn out(rt: &HostRuntime, pieces: &Vec<Piece>) -> anyhow::Result<()> {
    for piece in pieces.iter() {
        mark(rt, "@out_line\n");
        let text = line_out(rt, piece)?;
        mark(rt, "@print\n");
        print(rt, text.as_str())?;
    }
    Ok(())
}

/// The line of a piece; the second attempt passes where the first is refused.
fn line_out(rt: &HostRuntime, piece: &Piece) -> anyhow::Result<String> {
    match out_line(rt.alloc(), piece) {
        Ok(text) => Ok(text),
        Err(_) => {
            print(rt, "~ out_line")?;
            Ok(out_line(rt.alloc(), piece)?)
        }
    }
}

fn numbers(alloc: Global, session: &Session<ReplayRelay>) -> Result<String, AllocError> {
    let next = session.next_incoming_id();
    let window = session.remote_outgoing_window();
    let open = session.open_deliveries();
    Ok(format!(in alloc;
        "next-incoming-id={next} remote-outgoing-window={window} open-deliveries={open}"
    )?)
}

fn show(rt: &HostRuntime, engine: &ScriptEngine, number: &str) -> anyhow::Result<()> {
    mark(rt, "@print\n");
    let session = match reading::session(number) {
        Some(number) => engine.session(number),
        None => None,
    };
    let Some(session) = session else {
        anyhow::bail!("no session");
    };
    let text = match numbers(rt.alloc(), session) {
        Ok(text) => text,
        Err(_) => numbers(rt.alloc(), session)?,
    };
    print(rt, text.as_str())
}
