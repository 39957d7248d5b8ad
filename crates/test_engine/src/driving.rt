//! Another program drives a transcript: it reads the output of a line before it writes the next one.

use crate::same::same;
use fe2o3_amqp::replay;
use std::io::{self, BufReader, ErrorKind, Read, Write};
use std::sync::atomic::{AtomicUsize, Ordering};
use std::test::Fail;

/// How many bytes of output were flushed before line K, counted from 0, may be read.
const WANTED: [usize; 4] = [0, 17, 34, 51];

/// Gives one line at each read, once all output of the lines before it was flushed.
#[derive(Drop)]
struct Lines<'a> {
    flushed: &'a AtomicUsize,
    given: usize,
}

impl<'a> Read for Lines<'a> {
    fn read(&mut self, buf: &mut [u8]) -> io::Result<usize> {
        if self.given >= 4 || buf.len() < 6 {
            return Ok(0);
        }
        if self.flushed.load(Ordering::SeqCst) != WANTED[self.given] {
            return Err(io::Error::from(ErrorKind::Other));
        }
        self.given += 1;
        buf[..6].copy_from_slice(b"close\n");
        Ok(6)
    }
}

/// Counts the bytes that were written before the last flush.
#[derive(Drop)]
struct Counted<'a> {
    flushed: &'a AtomicUsize,
    written: usize,
}

impl<'a> Write for Counted<'a> {
    fn write(&mut self, buf: &[u8]) -> io::Result<usize> {
        self.written = self.written.saturating_add(buf.len());
        Ok(buf.len())
    }

    fn flush(&mut self) -> io::Result<()> {
        self.flushed.store(self.written, Ordering::SeqCst);
        Ok(())
    }
}

#[test]
fn each_line_is_answered_before_the_next_is_read(rt: HostRuntime) -> Result<(), Fail> {
    let flushed = AtomicUsize::new(0);
    let lines = Lines {
        flushed: &flushed,
        given: 0,
    };
    let mut input = BufReader::new(rt.alloc(), lines)?;
    let mut output = Counted {
        flushed: &flushed,
        written: 0,
    };
    let mut errors = Vec::new(rt.alloc());
    let status = replay(rt.alloc(), &mut input, &mut output, &mut errors);
    drop(errors);
    drop(output);
    drop(input);
    same(&rt, status, 0);
    same(&rt, flushed.load(Ordering::SeqCst), 68);
    Ok(())
}
