//! Transcripts: lines of text are the inputs of an engine, and lines of text its answers.

mod line;
mod names;
mod relay;

use crate::settings::{DEFAULT_CHANNEL_MAX, DEFAULT_MAX_FRAME_SIZE};
use amqp_engine::{Answer, Engine, Input};
use amqp_types::{ConnectionState, Open};
pub use line::{hex_bytes, out_line};
use line::{Asked, asked_by, text_of};
pub use names::err_name;
pub use relay::ReplayRelay;
use std::alloc::{AllocError, Global};
use std::collections::VecDeque;
use std::io::{self, BufRead, ErrorKind, Write};

/// The status where all lines were read.
const DONE: u8 = 0;

/// The status where a line could not be read.
const BAD_LINE: u8 = 2;

/// The status where the input or an output failed, or memory was refused.
const FAILED: u8 = 3;

/// Runs an engine by the lines of `input`, and answers the status for the process.
///
/// The engine is in `HeaderExchange`; its Open has the container-id `replay`, the max-frame-size 262144, the channel-max
/// 255 and nothing else. A line ends at a line feed. An empty line is skipped; `recv HEX` is a received frame without its
/// size, with digits in either case; `open` and `close` ask for this side's Open and Close. `begin N` begins session N, with
/// default settings; `end N` ends it without an error; `release N` gives its channel back, and `forget N` lets it
/// go once it is over. `link N NAME` allots an output
/// handle of session N for a link of that name, which is the rest of the line, with a [`ReplayRelay`] that waits for the
/// peer's attach. `send N HEX` has session N send one performative with what follows it: an Attach, a Flow that names a link,
/// a Transfer, a Disposition, or a Detach that the peer is to answer. A transfer's input handle has the number of its handle,
/// it is the first of its delivery exactly where it has a tag, and what follows is its payload; after another performative it
/// is dropped. `settle N ROLE FIRST LAST` lets open deliveries of session N go that this side settles by itself, from FIRST to LAST,
/// and `settle N ROLE FIRST` the first alone; ROLE is this side's, `receiver` or `sender`. N, FIRST and LAST are decimal numbers
/// to 4294967295.
///
/// `output` gets `out HEX`, in lower case, for each piece, `err NAME` for each refusal that is not for memory, and
/// `err TooLarge` for a frame that does not fit the peer's limit. What belongs to a line is written, and flushed, before the
/// next line is read.
///
/// The status is 0 at the end of the input. At any other line `errors` gets `bad line K`, where K counts from 1, and the status
/// is 2. The status is 3 where reading or writing fails, where a line is not UTF-8, and where memory is refused. The output of
/// earlier lines stands.
///
/// ```
/// let status = replay(rt.alloc(), &mut input, &mut output, &mut errors);
/// ```
pub fn replay<I: BufRead, O: Write, E: Write>(
    alloc: Global,
    input: &mut I,
    output: &mut O,
    errors: &mut E,
) -> u8 {
    match replay_lines(alloc, input, output) {
        Ok(None) => DONE,
        Ok(Some(number)) => bad_line(errors, number),
        Err(_) => FAILED,
    }
}

fn bad_line<E: Write>(errors: &mut E, number: u64) -> u8 {
    if writeln!(errors, "bad line {number}").is_ok() && errors.flush().is_ok() {
        BAD_LINE
    } else {
        FAILED
    }
}

/// Runs the lines; the number of the first that could not be read.
fn replay_lines<I: BufRead, O: Write>(
    alloc: Global,
    input: &mut I,
    output: &mut O,
) -> io::Result<Option<u64>> {
    let mut engine = new_engine(alloc)?;
    let mut line = Vec::new(alloc);
    for number in 1..u64::MAX {
        line.clear();
        if input.read_until(b'\n', &mut line)? == 0 {
            return Ok(None);
        }
        match asked_by(alloc, text_of(line.as_slice())?)? {
            Asked::Nothing => {}
            Asked::Input(input) => answer(alloc, &mut engine, input, output)?,
            Asked::Unreadable => return Ok(Some(number)),
        }
    }
    Err(io::Error::from(ErrorKind::Other))
}

fn new_engine(alloc: Global) -> Result<Engine<ReplayRelay>, AllocError> {
    let open = Open {
        container_id: String::from_str(alloc, "replay")?,
        hostname: None,
        max_frame_size: DEFAULT_MAX_FRAME_SIZE,
        channel_max: DEFAULT_CHANNEL_MAX,
        idle_time_out: None,
        outgoing_locales: None,
        incoming_locales: None,
        offered_capabilities: None,
        desired_capabilities: None,
        properties: None,
    };
    Ok(Engine::new(alloc, ConnectionState::HeaderExchange, open))
}

/// Gives the engine one input, and writes what it answers.
fn answer<O: Write>(
    alloc: Global,
    engine: &mut Engine<ReplayRelay>,
    input: Input<ReplayRelay>,
    output: &mut O,
) -> io::Result<()> {
    let mut answers = Vec::new(alloc);
    let is_whole = run_one(alloc, engine, input, &mut answers);
    let written = write_answers(alloc, &answers, output);
    drop(answers);
    written?;
    if is_whole {
        Ok(())
    } else {
        Err(io::Error::from(ErrorKind::OutOfMemory))
    }
}

/// Whether the engine took the input and put out all that it answers: not where memory is refused.
fn run_one(
    alloc: Global,
    engine: &mut Engine<ReplayRelay>,
    input: Input<ReplayRelay>,
    answers: &mut Vec<Answer>,
) -> bool {
    let mut inputs = VecDeque::new(alloc);
    let pushed = inputs.push_back(input);
    let is_pushed = pushed.is_ok();
    drop(pushed);
    is_pushed && engine.run(&mut inputs, answers).is_ok()
}

fn write_answers<O: Write>(alloc: Global, answers: &Vec<Answer>, output: &mut O) -> io::Result<()> {
    for answer in answers.iter() {
        write_answer(alloc, answer, output)?;
    }
    output.flush()
}

fn write_answer<O: Write>(alloc: Global, answer: &Answer, output: &mut O) -> io::Result<()> {
    match answer {
        Answer::Done => Ok(()),
        Answer::Refused(error) => write_refusal(err_name(error), output),
        Answer::Out(pieces) => {
            for piece in pieces.iter() {
                writeln!(output, "{}", out_line(alloc, piece)?)?;
            }
            Ok(())
        }
        Answer::TooLarge(_) => writeln!(output, "err TooLarge"),
    }
}

/// Where memory was refused nothing is written, and the program ends.
fn write_refusal<O: Write>(name: &str, output: &mut O) -> io::Result<()> {
    if name == "OutOfMemory" {
        return Err(io::Error::from(ErrorKind::OutOfMemory));
    }
    writeln!(output, "err {name}")
}
