//! A recorded stream by a [`Stream`](amqp_driver::Stream) over a reader and a writer, in chunks of a size.

use crate::chunks::Chunks;
use crate::handing::Handing;
use crate::opened::open;
use crate::{HEADER, MAX_FRAME_SIZE, Said, begin};
use amqp_driver::{Record, Stream, flag, kind};
use amqp_sasl::Opening;
use amqp_transport::{Came, Received, Round, exchange};
use fe2o3_amqp::{Input, KeyHash, ReplayRelay};
use std::alloc::{AllocError, Global};
use std::io::{self, Write};

/// A stream without SASL.
type PlainStream = Stream<ReplayRelay>;

/// Writes whether a stream of bytes, in chunks of a size, gives what an engine sent and refused that took the frames one by one.
pub fn tell<O: Write>(
    alloc: Global,
    hash: KeyHash,
    bytes: &[u8],
    size: usize,
    alone: &Said,
    out: &mut O,
) -> anyhow::Result<()> {
    let mut stream = stream(alloc, hash, MAX_FRAME_SIZE)?;
    drop(stream.request(Input::Open));
    drop(stream.request(begin()));
    let mut sent = Handing::new(alloc);
    let mut numbers = Vec::new(alloc);
    let mut chunks = Chunks::new(bytes, size);
    let outcome = take_all(alloc, &mut stream, &mut chunks, &mut sent, &mut numbers);
    drop(stream);
    let sent = sent.on();
    let is_same = is_sent(sent.as_slice(), alone) && numbers == alone.numbers;
    drop(sent);
    drop(numbers);
    outcome?;
    let word = if is_same { "the same" } else { "other" };
    writeln!(out, "exchanged by {size}: {word}")?;
    Ok(())
}

/// Whether a header was sent, and then what the engine sent alone.
fn is_sent(sent: &[u8], alone: &Said) -> bool {
    match sent.strip_prefix(HEADER.as_slice()) {
        Some(frames) => frames == alone.sent.as_slice(),
        None => false,
    }
}

/// Takes all that comes, and appends the number of each refusal.
fn take_all(
    alloc: Global,
    stream: &mut PlainStream,
    chunks: &mut Chunks<'_>,
    sent: &mut Handing,
    numbers: &mut Vec<u32>,
) -> anyhow::Result<()> {
    let mut received = Received::new(alloc, MAX_FRAME_SIZE);
    let mut records = [Record::empty(); 4];
    for _ in 0..u64::MAX {
        let round = exchange(stream, 0, &mut received, &mut records, chunks, sent)?;
        note(records.as_slice(), round, numbers)?;
        received.take(round.taken.taken);
        if round.came == Some(Came::End) {
            break;
        }
    }
    Ok(())
}

fn note(records: &[Record], round: Round, numbers: &mut Vec<u32>) -> Result<(), AllocError> {
    for record in records.iter().take(round.taken.written) {
        let number = number_of(record);
        if number > 0 {
            numbers.push(number)?;
        }
    }
    Ok(())
}

/// The number of what a record tells as a refusal. An End and a Close of the peer's are told by an engine as refusals, and not by a record.
fn number_of(record: &Record) -> u32 {
    let with_error = u32::from(record.flags & flag::WITH_ERROR > 0);
    match record.kind {
        kind::CLOSED => 22 + with_error,
        kind::ENDED => 53 + with_error,
        _ => record.refusal,
    }
}

fn stream(alloc: Global, hash: KeyHash, max_frame_size: u32) -> anyhow::Result<PlainStream> {
    let open = open(alloc, max_frame_size)?;
    Ok(Stream::new(alloc, 0, None, Opening::plain(alloc), hash, open)?)
}

/// How a stream of bytes ends, of frames that have at most so many: where its frames end, in the midst of one, or because it is refused.
pub fn ended(
    alloc: Global,
    hash: KeyHash,
    bytes: &[u8],
    max_frame_size: u32,
) -> anyhow::Result<&'static str> {
    let mut stream = stream(alloc, hash, max_frame_size)?;
    let mut received = Received::new(alloc, max_frame_size);
    let mut chunks = Chunks::new(bytes, 3);
    let outcome = take_to_end(&mut stream, &mut received, &mut chunks);
    let is_over = stream.is_over();
    let is_whole = stream.opening().is_open() && received.bytes().is_empty();
    drop(stream);
    drop(received);
    outcome?;
    Ok(match (is_over, is_whole) {
        (true, _) => "over",
        (false, true) => "end",
        (false, false) => "cut off",
    })
}

fn take_to_end(
    stream: &mut PlainStream,
    received: &mut Received,
    chunks: &mut Chunks<'_>,
) -> io::Result<()> {
    let mut records = [Record::empty(); 4];
    for _ in 0..u64::MAX {
        let round = exchange(stream, 0, received, &mut records, chunks, &mut io::sink())?;
        received.take(round.taken.taken);
        if round.came == Some(Came::End) || stream.is_over() {
            break;
        }
    }
    Ok(())
}
