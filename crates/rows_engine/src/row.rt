//! A row, and what it prints.

use crate::{connection, handled};
use fe2o3_amqp::replay;
use std::alloc::Global;
use std::io::{self, Write};
use test_support::words;

/// Takes a line of the row. Where the line is the title of the next one, it prints what the row prints, and that title.
pub fn next(alloc: Global, lines: &mut String, line: &str) -> anyhow::Result<Vec<u8>> {
    if !line.starts_with("-- ") {
        lines.push_str(words::without_note(line))?;
        lines.push_str("\n")?;
        return Ok(Vec::new(alloc));
    }
    let mut text = answer(alloc, lines.as_str())?;
    lines.clear();
    writeln!(text, "{line}")?;
    Ok(text)
}

/// What a row prints: the calls of a connection, or of handles, a transcript that ends on each channel, or else a transcript.
pub fn answer(alloc: Global, lines: &str) -> anyhow::Result<Vec<u8>> {
    if let Some(text) = lines.strip_prefix("connection ") {
        return Ok(connection::answer(alloc, text)?.into_bytes());
    }
    if let Some(text) = lines.strip_prefix("handled ") {
        return Ok(handled::answer(alloc, text)?.into_bytes());
    }
    match lines.strip_prefix("each-channel ") {
        Some(text) => on_each_channel(alloc, text),
        None => transcript(alloc, lines),
    }
}

/// What a transcript prints after which the same performative comes on each channel, and then the lines after `then`: each line, and
/// how often it stands there in a row.
fn on_each_channel(alloc: Global, text: &str) -> anyhow::Result<Vec<u8>> {
    let (body, lines) = text.split_once('\n').unwrap_or((text, ""));
    let (before, after) = lines.split_once("then\n").unwrap_or((lines, ""));
    let mut all = String::from_str(alloc, before)?;
    for channel in 0..=u16::MAX {
        let digits = hex::encode(alloc, &channel.to_be_bytes())?;
        all.push_str(format!(in alloc; "recv 0200{digits}{body}\n")?.as_str())?;
    }
    all.push_str(after)?;
    counted(alloc, transcript(alloc, all.as_str())?.as_slice())
}

/// Each line once that stands several times in a row, after their count.
fn counted(alloc: Global, text: &[u8]) -> anyhow::Result<Vec<u8>> {
    let mut said = Vec::new(alloc);
    let mut last = String::new(alloc);
    let mut count = 0u64;
    for line in std::str::from_utf8(text)?.lines() {
        if line != last.as_str() {
            if count > 0 {
                write_count(&mut said, count, last.as_str())?;
            }
            last = String::from_str(alloc, line)?;
            count = 0;
        }
        count = count.saturating_add(1);
    }
    write_count(&mut said, count, last.as_str())?;
    Ok(said)
}

fn write_count(said: &mut Vec<u8>, count: u64, line: &str) -> io::Result<()> {
    writeln!(said, "{count} {line}")
}

/// What a transcript prints.
fn transcript(alloc: Global, lines: &str) -> anyhow::Result<Vec<u8>> {
    let mut input = lines.as_bytes();
    let mut output = Vec::new(alloc);
    let mut errors = Vec::new(alloc);
    let status = replay(alloc, &mut input, &mut output, &mut errors);
    output.extend_from_slice(errors.as_slice())?;
    if status != 0 {
        writeln!(output, "status {status}")?;
    }
    Ok(output)
}
