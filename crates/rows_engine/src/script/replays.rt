//! `replay` with a reader or a writer that fails at its k-th call.

use crate::script::{print, say};
use fe2o3_amqp::replay;
use std::alloc::Global;
use std::io::{self, BufReader, ErrorKind, Read, Write};

/// A connection that opens, with a session whose two transfers go out, and closes.
const LINES: &[u8] =
    b"open\nrecv 02000000005310c00d04a101614070000400006000ff\nbegin 0\nrecv 02000005005311c009046000004352015208\nsend 0 005314c006034340a0010aff\nsend 0 005314c006034340a0010bfe\nrecv 02000005005313c0080452015201435208\nclose\nrecv 0200000000531845\nrecv 0200000000531845\n";

/// How many calls are tried.
const CALLS: u32 = 1000;

/// Gives at most five bytes at each read, and fails once none is left to it.
#[derive(Drop)]
struct Reads {
    text: &'static [u8],
    left: u32,
}

impl Read for Reads {
    fn read(&mut self, buf: &mut [u8]) -> io::Result<usize> {
        if self.left == 0 {
            return Err(io::Error::from(ErrorKind::Other));
        }
        self.left -= 1;
        let count = self.text.len().min(buf.len()).min(5);
        let (part, rest) = self.text.split_at(count);
        buf[..count].copy_from_slice(part);
        self.text = rest;
        Ok(count)
    }
}

/// Keeps what is written, and fails once no call is left to it.
#[derive(Drop)]
struct Writes {
    text: Vec<u8>,
    left: u32,
}

impl Writes {
    fn call(&mut self) -> io::Result<()> {
        if self.left == 0 {
            return Err(io::Error::from(ErrorKind::Other));
        }
        self.left -= 1;
        Ok(())
    }
}

impl Write for Writes {
    fn write(&mut self, buf: &[u8]) -> io::Result<usize> {
        self.call()?;
        self.text.extend_from_slice(buf)?;
        Ok(buf.len())
    }

    fn flush(&mut self) -> io::Result<()> {
        self.call()
    }
}

/// The status, and what was written, where so many calls pass.
fn ran(alloc: Global, reads: u32, writes: u32) -> anyhow::Result<(u8, Vec<u8>)> {
    let lines = Reads {
        text: LINES,
        left: reads,
    };
    let mut input = BufReader::new(alloc, lines)?;
    let mut output = Writes {
        text: Vec::new(alloc),
        left: writes,
    };
    let mut errors = Vec::new(alloc);
    let status = replay(alloc, &mut input, &mut output, &mut errors);
    drop(errors);
    drop(input);
    Ok((status, output.text))
}

/// Fails at each call in turn until none is left that could fail; whether the status is 3 until then, and what was written a
/// beginning of the whole output. More than ten calls have to fail.
fn all_fail(alloc: Global, whole: &Vec<u8>, of_reader: bool) -> anyhow::Result<bool> {
    for call in 0..CALLS {
        let (reads, writes) = if of_reader {
            (call, CALLS)
        } else {
            (CALLS, call)
        };
        let (status, written) = ran(alloc, reads, writes)?;
        let is_whole = written.as_slice() == whole.as_slice();
        let is_beginning = whole.as_slice().starts_with(written.as_slice());
        drop(written);
        if status == 0 {
            return Ok(call > 10 && is_whole);
        }
        if status != 3 || !is_beginning {
            return Ok(false);
        }
    }
    Ok(false)
}

fn said(is_well: bool) -> &'static str {
    if is_well {
        "status 3 and a beginning"
    } else {
        "otherwise"
    }
}

/// Prints what comes of a reader that fails, and of a writer.
pub fn called(rt: &HostRuntime) -> anyhow::Result<()> {
    let (status, whole) = ran(rt.alloc(), CALLS, CALLS)?;
    let outcome = tried(rt, status, &whole);
    drop(whole);
    outcome
}

fn tried(rt: &HostRuntime, status: u8, whole: &Vec<u8>) -> anyhow::Result<()> {
    if status != 0 {
        anyhow::bail!("the whole transcript is not replayed");
    }
    print(rt, std::str::from_utf8(whole.as_slice())?.trim_end())?;
    say(rt, "reader: ")?;
    print(rt, said(all_fail(rt.alloc(), whole, true)?))?;
    say(rt, "writer: ")?;
    print(rt, said(all_fail(rt.alloc(), whole, false)?))
}
