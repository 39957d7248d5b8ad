//! A transfer that is to be sent, by its head; and what became of it.

ghost use Rattle.std.specs.Prelude.{◌≡◌, ◌<◌, ◌≤◌, ◌^◌};
ghost use Rattle.std.specs.Option.{option_map};
ghost use Rattle.amqp_driver.specs.Heads.{has, settled_of, transfer_of};
ghost use Rattle.amqp_driver.specs.Sending.{is_of, left_behind, refused_behind, size_of};

use crate::flag;
use amqp_types::{DeliveryTag, Handle, Transfer};

/// The head of one transfer (AMQP 1.0 part 2, section 2.7.5): a delivery, or a part of one. Its tag and its payload stand in the bytes that go with
/// it, one after the other. Numbers are in the order of the host.
///
/// The layout is that of C, in 20 bytes without padding: `session` at 0, `link` at 4, `format` at 8, `payload` at 12, `flags` at 16, `tag_size`
/// at 18.
#[derive(Clone, Copy, Debug, PartialEq, Eq)]
#[repr(C)]
pub struct TransferHead {
    /// The session.
    pub session: u32,
    /// The link, by this side's handle, as every request names it: `output` in the records of its frames. The peer's handle is found by it.
    pub link: u32,
    /// The format of the message, where [`FORMATTED`](crate::flag::FORMATTED) is set.
    pub format: u32,
    /// How many bytes the payload has. Beside the transfer it is to fit one frame: [`Driver::cut`](crate::Driver::cut) cuts a longer one.
    pub payload: u32,
    /// Those of [`flag`](crate::flag): `NUMBERED` where the transfer is the first one of its delivery, `SETTLED`, `MORE` where more transfers
    /// of the delivery follow, `ABORTED`, `FORMATTED`, and `TAGGED` where it has a tag, as each first one has. Others are passed over.
    pub flags: u16,
    /// How many bytes stand before the payload: the tag, where `TAGGED` is set, of at most 32 bytes (section 2.8.7).
    pub tag_size: u16,
}

/// What became of a transfer. The layout is that of C: `number` at 0, `refusal` at 4.
#[derive(Clone, Copy, Debug, PartialEq, Eq)]
#[repr(C)]
pub struct Sent {
    /// The number of its delivery, where it was accepted and is the first one, also while the session holds it back. Else 0.
    pub number: u32,
    /// Why it was refused, by its number: [`refusal_number`](crate::refusal_number) has the list; 91 where the payload does not fit one
    /// frame beside the transfer, and 92 where the tag has more than 32 bytes. 0 where it was accepted.
    pub refusal: u32,
}

/// What a refused part leaves, where more parts of its delivery were to follow: they are refused as it was.
#[derive(Clone, Copy)]
pub(crate) struct Broken {
    session: u32,
    link: u32,
    refusal: u32,
}

impl Broken {
    /// Whether a head is of the same link.
    #[inline(always)]
    fn is_of(self, head: &TransferHead) -> bool
        ensures { result ≡ is_of self head.now }
    {
        self.session == head.session && self.link == head.link
    }
}

/// What is left of a head, by what became of it, and of what was left before it.
#[inline(always)]
pub(crate) fn left_behind(broken: Option<Broken>, head: &TransferHead, sent: Sent) -> Option<Broken>
    ensures { result ≡ left_behind broken head.now sent }
{
    if has(head.flags, flag::MORE) && sent.refusal != 0 {
        return Some(Broken {
            session: head.session,
            link: head.link,
            refusal: sent.refusal,
        });
    }
    match broken {
        Some(before) if before.is_of(head) => None,
        before => before,
    }
}

/// Why a head is refused behind what was left: as a later part of the delivery that was broken so.
#[inline(always)]
pub(crate) fn refused_behind(broken: Option<Broken>, head: &TransferHead) -> Option<u32>
    ensures { result ≡ refused_behind broken head.now }
{
    match broken {
        Some(before) if !has(head.flags, flag::NUMBERED) && before.is_of(head) => {
            Some(before.refusal)
        }
        _ => None,
    }
}

/// The refusal of a transfer whose link is not attached: that of `SessionInnerError::UnattachedHandle`.
pub(crate) const UNATTACHED: u32 = 61;
/// The refusal of a transfer whose payload does not fit one frame beside it.
pub(crate) const TOO_LONG: u32 = 91;
/// The refusal of a transfer whose tag has more than 32 bytes.
pub(crate) const TAG_TOO_LONG: u32 = 92;

/// Whether a flag is set. A flag is a power of two.
pub(crate) fn has(flags: u16, flag: u16) -> bool
    requires { 0 < flag }
    ensures { result ≡ has flags flag }
{
    flags / flag % 2 == 1
}

/// Whether the delivery is settled, as the transfer says: the first one says it in any case, a later one only if it is.
fn settled_of(flags: u16) -> Option<bool>
    ensures { result ≡ settled_of flags }
{
    let settled = has(flags, flag::SETTLED);
    if has(flags, flag::NUMBERED) || settled {
        Some(settled)
    } else {
        None
    }
}

/// The transfer of a head, with its tag, if it has one.
pub(crate) fn transfer_of(head: &TransferHead, tag: Option<DeliveryTag>) -> Transfer
    ensures { result ≡ transfer_of head.now (option_map (λ t. t.0) tag) }
{
    let flags = head.flags;
    Transfer {
        handle: Handle(head.link),
        delivery_id: None,
        delivery_tag: tag,
        message_format: if has(flags, flag::FORMATTED) {
            Some(head.format)
        } else {
            None
        },
        settled: settled_of(flags),
        more: has(flags, flag::MORE),
        rcv_settle_mode: None,
        state: None,
        resume: false,
        aborted: has(flags, flag::ABORTED),
        batchable: false,
    }
}

/// How many bytes a transfer has: its tag and its payload.
pub(crate) fn size_of(head: &TransferHead) -> usize
    ensures size { result ≡ size_of head.now }
    ensures bound { result < 2 ^ 33 }
{
    head.tag_size as usize + head.payload as usize
}

/// Where the bytes of transfers end, as many as there are places for, of `len` bytes in all, where those of the first one begin at `from`.
pub(crate) fn end_of_heads(heads: &[TransferHead], from: usize, len: usize, most: usize) -> usize
    requires { from ≤ len }
    ensures after { from ≤ result }
    ensures within { result ≤ len }
{
    let mut end = from;
    let mut left = most;
    'heads: for head in heads {
        let size = size_of(head);
        if left == 0 || len - end < size {
            return end;
        }
        end += size;
        left -= 1;
    }
    end
}
