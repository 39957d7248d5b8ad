//! A record: what one received frame says, in 96 bytes.

ghost use Rattle.std.specs.Prelude.{◌≡◌, ◌≤◌, ◌<◌, ◌^◌, ◌+◌};
ghost use Rattle.amqp_driver.specs.Record.{bare_record, empty_record};

/// No session, or no link: what stands in [`Record::session`], [`Record::output`] and [`Record::input`] where there is none.
pub const NONE: u32 = 0xffff_ffff;

/// What one received frame says. Numbers are in the order of the host.
///
/// The layout is that of C, in 96 bytes without padding: `kind` at 0, `outcome` at 1, `flags` at 2, `session` at 4, `output` at 8, `input` at
/// 12, `first` at 16, `last` at 20, `format` at 24, `count` at 28, `credit` at 32, `available` at 36, `refusal` at 40, `at` at 44, `size` at
/// 48, `payload_at` at 52, `payload` at 56, `channel` at 60, `tag_size` at 62, `tag` at 64.
///
/// A field of which the frame says nothing is 0; `session`, `output` and `input` are [`NONE`] then. So a session or a handle of the number
/// 4294967295 cannot be told from none: by [`LINKED`](crate::flag::LINKED) a handle can.
#[derive(Clone, Copy, Debug, PartialEq, Eq)]
#[repr(C)]
pub struct Record {
    /// What it is: one of [`kind`](crate::kind).
    pub kind: u8,
    /// The state of deliveries (part 3, section 3.4): 0 none, 1 accepted, 2 rejected, 3 released, 4 modified, 5 received, 6 any other one. It
    /// is told by its descriptor, the number or the name. Of an attach the termini that it has: 0 none, 1 a source, 2 a target, 3 both. A peer
    /// that answers with no source, or no target, of its own refuses the link (section 2.6.3).
    pub outcome: u8,
    /// Those of [`flag`](crate::flag).
    pub flags: u16,
    /// The session that the frame reached.
    pub session: u32,
    /// This side's handle of the link, where one is live: the one that is attached under `input`; of an attach the one of its name.
    pub output: u32,
    /// The peer's handle of the link.
    pub input: u32,
    /// The number of the delivery; of a disposition the first one. Of an attach the low 32 bits of the largest message that the peer takes, in
    /// bytes. Where these and the high ones are both 0, it sets no limit (section 2.7.3).
    pub first: u32,
    /// The number of the delivery; of a disposition the last one. Of an attach the high 32 bits of the largest message that the peer takes.
    pub last: u32,
    /// The format of the message.
    pub format: u32,
    /// The delivery count of a flow, the initial one of an attach.
    pub count: u32,
    /// The credit of a flow. Of an attach how the sending end settles: 0 unsettled, 1 settled, 2 mixed (section 2.8.2), and 2 where it does not say.
    pub credit: u32,
    /// How many messages the sender of a flow has ready. Of an attach how the receiving end settles: 0 first, 1 second (section 2.8.3), and 0 where it
    /// does not say.
    pub available: u32,
    /// Why the frame was refused, by its number: [`refusal_number`](crate::refusal_number) has the list. 0 where it was not. An End or a Close
    /// that was taken has 0, also where it names an error.
    pub refusal: u32,
    /// Where in the input the performative begins: 8 bytes behind the beginning of the frame (section 2.3.1).
    pub at: u32,
    /// How many bytes it has: up to the payload, or up to the end of the frame.
    pub size: u32,
    /// Where in the input the payload begins: at the end of the frame, where there is none.
    pub payload_at: u32,
    /// How many bytes the payload has.
    pub payload: u32,
    /// The channel of the frame.
    pub channel: u16,
    /// How many bytes the tag has, and 65535 where it has more.
    pub tag_size: u16,
    /// The tag, and zeros after it, where it has at most 32 bytes; a longer one stands in the performative, and here are zeros.
    pub tag: [u8; 32],
}

impl Record {
    /// A record of nothing: of no kind, and all else as where a frame says nothing. It fills places that records are written to.
    #[inline(always)]
    pub fn empty() -> Record
        ensures { result ≡ empty_record }
    {
        Record {
            kind: 0,
            outcome: 0,
            flags: 0,
            session: NONE,
            output: NONE,
            input: NONE,
            first: 0,
            last: 0,
            format: 0,
            count: 0,
            credit: 0,
            available: 0,
            refusal: 0,
            at: 0,
            size: 0,
            payload_at: 0,
            payload: 0,
            channel: 0,
            tag_size: 0,
            tag: [0; 32],
        }
    }
}

/// What is known of any bytes of a frame: where they stand. The frame begins at this place and has so many bytes.
#[inline(always)]
pub(crate) fn bare(at: u32, size: u32) -> Record
    requires least { 8 ≤ size }
    requires fits { at + size < 2 ^ 32 }
    ensures { result ≡ bare_record at size }
{
    Record {
        at: at + 8,
        size: size - 8,
        payload_at: at + size,
        ..Record::empty()
    }
}
