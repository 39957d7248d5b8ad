//! What stands at the front of bytes.

ghost use Rattle.std.specs.Prelude.{◌≤◌, length};
ghost use Rattle.amqp_driver.specs.Front.{HasSize, Stands};

/// What stands at the front of bytes that came.
#[derive(Clone, Copy, PartialEq, Eq)]
pub(crate) enum Front {
    /// The beginning of a frame, or nothing. The frame has so many bytes: 4 where its size is not whole.
    Part(u32),
    /// A size that no frame may have.
    Bad,
    /// A whole frame, of so many bytes.
    Whole(u32),
}

/// The size at the front, if it is there.
fn size_of(rest: &[u8]) -> Option<u32>
    ensures { HasSize rest.now result }
{
    if rest.len() < 4 {
        return None;
    }
    Some(u32::from_be_bytes([rest[0], rest[1], rest[2], rest[3]]))
}

/// What stands at the front, where a frame has at most `limit` bytes.
pub(crate) fn stands_at_front(rest: &[u8], limit: u32) -> Front
    ensures { Stands limit rest.now result }
{
    let Some(size) = size_of(rest) else {
        return Front::Part(4);
    };
    if size < 8 || size > limit {
        return Front::Bad;
    }
    if rest.len() < size as usize {
        Front::Part(size)
    } else {
        Front::Whole(size)
    }
}

/// Where the whole frames end that stand at a place, one after the other: so many of them at most, and any empty ones among them.
pub(crate) fn end_of_wholes(input: &[u8], from: usize, limit: u32, most: usize) -> usize
    requires { from ≤ length input.now }
    ensures after { from ≤ result }
    ensures within { result ≤ length input.now }
{
    let mut end = from;
    let mut left = most;
    'frames: while let Front::Whole(size) = stands_at_front(&input[end..], limit) {
        if size > 8 {
            if left == 0 {
                break;
            }
            left -= 1;
        }
        end += size as usize;
    }
    end
}
