//! A bad line that cannot be told: the writer of errors fails.

use crate::same::{holds, same};
use fe2o3_amqp::replay;
use std::io::{self, ErrorKind, Write};

/// Fails at a flush, and, if it is told to, at a write before.
#[derive(Drop)]
struct Failing {
    at_writes: bool,
}

impl Write for Failing {
    fn write(&mut self, buf: &[u8]) -> io::Result<usize> {
        if self.at_writes {
            return Err(io::Error::from(ErrorKind::BrokenPipe));
        }
        Ok(buf.len())
    }

    fn flush(&mut self) -> io::Result<()> {
        Err(io::Error::from(ErrorKind::BrokenPipe))
    }
}

/// The status is not that of a bad line, since nobody was told of one; the output of the line before stands.
#[test]
fn a_bad_line_that_cannot_be_told_is_a_failure(rt: HostRuntime) {
    for at_writes in [true, false] {
        let mut errors = Failing { at_writes };
        let mut input: &[u8] = b"close\nno such line\n";
        let mut output = Vec::new(rt.alloc());
        let status = replay(rt.alloc(), &mut input, &mut output, &mut errors);
        drop(errors);
        let stands = output.as_slice() == b"err IllegalState\n".as_slice();
        drop(output);
        same(&rt, status, 3);
        holds(&rt, stands);
    }
}
