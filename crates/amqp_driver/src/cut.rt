//! A delivery that is longer than a frame: the head of its first frame, and that of what is left.

ghost use Rattle.std.specs.Prelude.{◌≡◌, true};
ghost use Rattle.amqp_driver.specs.Cutting.{begun, cut_at, goes_on, in_one, in_two, uncut};
ghost use Rattle.amqp_driver.specs.Heads.{has_room};

use crate::flag;
use crate::head::{TOO_LONG, TransferHead, has};

/// A head that is cut (AMQP 1.0 part 2, section 2.6.14). The layout is that of C, in 48 bytes without padding: `part` at 0, `rest` at 20, `more`
/// at 40, `refusal` at 44.
#[derive(Clone, Copy, Debug, PartialEq, Eq)]
#[repr(C)]
pub struct Cut {
    /// The head of the first frame, whose tag and payload stand first in the bytes of the whole. The whole head, where it fits one frame or is
    /// refused.
    pub part: TransferHead,
    /// The head of what is left, whose payload stands behind. It may be longer than a frame again. The whole head, where nothing is left.
    pub rest: TransferHead,
    /// 1 where something is left; else 0.
    pub more: u32,
    /// Why it can not be sent, by its number: 91 where no frame has room for the transfer, or for a byte of payload beside it, and 92 where the tag
    /// has more than 32 bytes. Else 0.
    pub refusal: u32,
}

/// It goes out in one frame.
pub(crate) fn in_one(head: &TransferHead) -> Cut
    ensures { result ≡ in_one head.now }
{
    Cut {
        part: *head,
        rest: *head,
        more: 0,
        refusal: 0,
    }
}

/// It can not be sent, and this is why.
pub(crate) fn uncut(head: &TransferHead, why: u32) -> Cut
    ensures { result ≡ uncut head.now why }
{
    Cut {
        part: *head,
        rest: *head,
        more: 0,
        refusal: why,
    }
}

/// The head of a transfer after which more follow.
pub(crate) fn begun(head: &TransferHead) -> TransferHead
    ensures { result ≡ begun head.now }
{
    TransferHead {
        flags: (head.flags & (u16::MAX - flag::ABORTED)) | flag::MORE,
        ..*head
    }
}

/// Whether a cut after so many bytes of payload leaves some, and gets on: a later transfer of a delivery has one byte at least.
fn goes_on(head: &TransferHead, front: u32) -> bool
    ensures { result ≡ goes_on head.now front }
{
    front < head.payload && (has(head.flags, flag::NUMBERED) || front > 0)
}

/// It is cut after so many bytes of payload. The transfer of the rest says nothing again of the delivery.
fn in_two(head: &TransferHead, front: u32) -> Cut
    requires { goes_on head.now front ≡ true }
    ensures { result ≡ in_two head.now front }
{
    Cut {
        part: TransferHead {
            payload: front,
            ..begun(head)
        },
        rest: TransferHead {
            payload: head.payload - front,
            flags: head.flags & (flag::MORE + flag::ABORTED),
            tag_size: 0,
            ..*head
        },
        more: 1,
        refusal: 0,
    }
}

/// It is cut where its first frame is full.
pub(crate) fn cut_at(head: &TransferHead, room: Option<u32>) -> Cut
    ensures { result ≡ cut_at head.now room }
{
    match room {
        Some(front) if goes_on(head, front) => in_two(head, front),
        _ => uncut(head, TOO_LONG),
    }
}

/// Whether the payload of a head fits.
pub(crate) fn fits(head: &TransferHead, room: Option<u32>) -> bool
    ensures { result ≡ has_room room head.now.payload }
{
    match room {
        Some(room) => head.payload <= room,
        None => false,
    }
}
