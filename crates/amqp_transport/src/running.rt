//! Running an engine over a reader and a writer: what it is to send is written, and what it refuses is the caller's to look at.

ghost use Rattle.std.specs.Prelude.{◌≡◌, ◌++◌, ◌∷◌, [], map, OnOk, MatchResult};
ghost use Rattle.amqp_transport.specs.Failing.{Flushed, NoMemory};
ghost use Rattle.amqp_transport.specs.Running.{Closes, Receives, Runs, Tries, counted_on, place_on, work};

use crate::calls::flush;
use crate::stream::{next_frame, write_out};
use amqp_engine::laws::{law_of_histories, law_of_two_runs, law_of_views};
use amqp_memory::push_in_queue;
use fe2o3_amqp::definitions::Error;
use fe2o3_amqp::{Engine, Input, LinkRelay, Refusal, SendBuffer};
use std::alloc::Global;
use std::collections::VecDeque;
use std::io::{self, BufRead, ErrorKind, Write};

/// How often a run that met refused memory is tried again.
const TRIES: u32 = 3;

/// Runs the inputs, and writes what is to be sent to `output`, by way of `out`, which is empty before and after a run that is `Ok`. What is
/// refused is appended to `refusals`; the place in a refusal counts the inputs of this call, from 0.
///
/// `Ok` means that each input was taken, in order, that none is left, and that no frame waits in the engine. Where memory is refused it goes
/// on with the inputs that are left. After three tries it answers `OutOfMemory`; the inputs that were not taken are still in `inputs`, frames
/// may wait in the engine, and a later call goes on. An error of `output` is passed on: after it the stream is of no use.
///
/// ```
/// push(&mut inputs, Input::Open)?;
/// run(&mut engine, &mut inputs, &mut out, &mut refusals, &mut output)?;
/// ```
pub fn run<R: LinkRelay, O: Write>(
    engine: &mut Engine<R>,
    inputs: &mut VecDeque<Input<R>>,
    out: &mut SendBuffer,
    refusals: &mut Vec<Refusal>,
    output: &mut O,
) -> io::Result<()>
    ensures runs { Runs R.gives (work engine.old inputs.old.items out.old.bytes refusals.old.items (O.contents output.old))
        (work engine.new inputs.new.items out.new.bytes refusals.new.items (O.contents output.new)) result }
    ensures flushed { OnOk result (Flushed output.new) }
{
    law_of_histories::<R>();
    law_of_views::<R>();
    law_of_two_runs::<R>();
    let total = inputs.len();
    for _ in 1..TRIES {
        let taken = total.saturating_sub(inputs.len());
        if attempt(engine, inputs, out, refusals, output, taken)? {
            return flush(output);
        }
    }
    // prover
    // The last try stands by itself: what it met is said of the error, which a loop could not carry so far.
    let taken = total.saturating_sub(inputs.len());
    if attempt(engine, inputs, out, refusals, output, taken)? {
        return flush(output);
    }
    Err(io::Error::from(ErrorKind::OutOfMemory))
}

/// A try: runs the inputs that are left, and writes what is to be sent. Before it `taken` inputs of the call were taken. Whether all is done.
fn attempt<R: LinkRelay, O: Write>(
    engine: &mut Engine<R>,
    inputs: &mut VecDeque<Input<R>>,
    out: &mut SendBuffer,
    refusals: &mut Vec<Refusal>,
    output: &mut O,
    taken: usize,
) -> io::Result<bool>
    ensures { Tries R.gives taken (work engine.old inputs.old.items out.old.bytes refusals.old.items (O.contents output.old))
        (work engine.new inputs.new.items out.new.bytes refusals.new.items (O.contents output.new)) result }
{
    let before = refusals.len();
    let outcome = engine.run_into(inputs, out, refusals);
    count_all_on(&mut refusals.as_mut_slice()[before..], taken);
    write_out(out, output)?;
    Ok(outcome.is_ok())
}

/// Counts the places of the refusals of a try from the first input of the call.
fn count_all_on(refusals: &mut [Refusal], taken: usize)
    ensures { refusals.new ≡ map (counted_on taken) refusals.old }
{
    for refusal in refusals.iter_mut() {
        count_on(refusal, taken);
    }
}

/// Counts the place of a refusal from the first input of the call: before this try, `taken` inputs were taken.
fn count_on(refusal: &mut Refusal, taken: usize)
    ensures { refusal.new ≡ counted_on taken refusal.old }
{
    match refusal {
        Refusal::Input { place, error: _ } => *place = place.saturating_add(taken),
        Refusal::Frame { place, frame: _ } => *place = place_on(*place, taken),
    }
}

/// A frame that waited from before a try was handed out by the last input that was taken before it, if any was.
fn place_on(place: Option<usize>, taken: usize) -> Option<usize>
    ensures { result ≡ place_on taken place }
{
    match place {
        Some(place) => Some(place.saturating_add(taken)),
        None => taken.checked_sub(1),
    }
}

/// Reads a frame, appends it to the inputs that are left, and runs as [`run`] does. `false` where the input ended before a frame: then too
/// the inputs that were left are run, and what waited is sent. The errors are those of [`next_frame`], where nothing is run, and of [`run`];
/// and `OutOfMemory` where the frame has no place in `inputs`: it is lost then.
pub fn receive<R: LinkRelay, I: BufRead, O: Write>(
    alloc: Global,
    engine: &mut Engine<R>,
    inputs: &mut VecDeque<Input<R>>,
    out: &mut SendBuffer,
    refusals: &mut Vec<Refusal>,
    input: &mut I,
    output: &mut O,
) -> io::Result<bool>
    ensures receives { Receives R.gives (work engine.old inputs.old.items out.old.bytes refusals.old.items (O.contents output.old))
        (work engine.new inputs.new.items out.new.bytes refusals.new.items (O.contents output.new))
        (I.remaining input.old) (I.remaining input.new) result }
    ensures flushed { OnOk result (Flushed output.new) }
{
    let max_frame_size = engine.connection().local_open().max_frame_size;
    let Some(frame) = next_frame(alloc, input, max_frame_size)? else {
        run(engine, inputs, out, refusals, output)?;
        return Ok(false);
    };
    push(inputs, Input::Received(frame))?;
    run(engine, inputs, out, refusals, output)?;
    Ok(true)
}

/// Closes in order (AMQP 1.0 part 2, section 2.4.3): the inputs that are left are run, what waits in the engine goes out, and then this side's
/// Close, with an error or without. The caller goes on to receive until the peer's Close has come, and closes the stream then. Transfers
/// that a session holds back, since the peer's window is used up, do not go out: a caller that wants them sent waits for the peer's flow
/// before this.
///
/// `Ok` means that each input was taken, the Close as the last one. A Close that the state does not accept is in `refusals`. The errors are
/// those of [`run`], and `OutOfMemory` where the Close has no place in `inputs`: it is not requested then.
pub fn close<R: LinkRelay, O: Write>(
    engine: &mut Engine<R>,
    inputs: &mut VecDeque<Input<R>>,
    out: &mut SendBuffer,
    refusals: &mut Vec<Refusal>,
    output: &mut O,
    error: Option<Error>,
) -> io::Result<()>
    ensures closes { Closes R.gives (work engine.old inputs.old.items out.old.bytes refusals.old.items (O.contents output.old))
        (work engine.new inputs.new.items out.new.bytes refusals.new.items (O.contents output.new)) error result }
    ensures flushed { OnOk result (Flushed output.new) }
{
    push(inputs, Input::Close(error))?;
    run(engine, inputs, out, refusals, output)
}

/// Appends an item, such as an input, to the others. `OutOfMemory` where memory is refused: the item is dropped then, and the others stay.
pub fn push<T: Drop>(items: &mut VecDeque<T>, item: T) -> io::Result<()>
    ensures { MatchResult result (λ _. items.new.items ≡ items.old.items ++ item ∷ []) (λ e. (items.new.items ≡ items.old.items) × NoMemory e) }
{
    match push_in_queue(items, item) {
        Ok(()) => Ok(()),
        Err(_) => Err(io::Error::from(ErrorKind::OutOfMemory)),
    }
}
