//! Answers: bytes that go to the front of the output, or the length that they need.

ghost use Rattle.std.specs.Prelude.{◌≡◌, ◌≤◌, ◌+◌, length};
ghost use Rattle.amqp1.specs.Writing.{Writes, fills};

use crate::status::Status;

/// Writes bytes at a place of the output, in which there is room for them.
pub(crate) fn fill(output: &mut [u8], at: usize, bytes: &[u8])
    requires { at + length bytes.now ≤ length output.old }
    ensures { output.new ≡ fills at bytes.now output.old }
{
    output[at..at + bytes.len()].copy_from_slice(bytes);
}

/// Writes the bytes to the front of the output. `TooSmall` where they do not fit: the output stays, and the answer is their length.
pub(crate) fn write(output: &mut [u8], bytes: &[u8]) -> (Status, usize)
    ensures { Writes bytes.now output.old result.0 result.1 output.new }
{
    let len = bytes.len();
    if output.len() < len {
        return (Status::TooSmall, len);
    }
    fill(output, 0, bytes);
    (Status::Done, len)
}
