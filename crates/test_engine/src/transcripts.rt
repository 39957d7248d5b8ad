//! Transcripts: where a line ends. The rows of transcripts are those of the program `rows_engine`.

use crate::same::same;
use fe2o3_amqp::replay;
use std::alloc::Global;

/// Whether these lines are replayed to this output, this text of errors and this status.
fn replays(alloc: Global, lines: &[u8], output: &[u8], errors: &[u8], status: u8) -> bool {
    let mut input = lines;
    let mut written = Vec::new(alloc);
    let mut told = Vec::new(alloc);
    replay(alloc, &mut input, &mut written, &mut told) == status
        && written.as_slice() == output
        && told.as_slice() == errors
}

/// What a stored row cannot hold: no input at all, a last line without a line feed, a carriage return, a line that is not
/// UTF-8.
#[test]
fn lines_end_at_a_line_feed(rt: HostRuntime) {
    // lines, output, errors, status
    let rows: [(&'static [u8], &'static [u8], &'static [u8], u8); 8] = [
        (b"", b"", b"", 0),
        (b"close", b"err IllegalState\n", b"", 0),
        (b"\nclose", b"err IllegalState\n", b"", 0),
        (b"close\r\n", b"", b"bad line 1\n", 2),
        (b"begin 1\r", b"", b"bad line 1\n", 2),
        (b"link 1 a\r\n", b"", b"bad line 1\n", 2),
        (b"link 1 a\rb\n", b"", b"bad line 1\n", 2),
        (b"close\n\xff\n", b"err IllegalState\n", b"", 3),
    ];
    for (lines, output, errors, status) in rows {
        let found = replays(rt.alloc(), lines, output, errors, status);
        same(&rt, (lines, found), (lines, true));
    }
}
