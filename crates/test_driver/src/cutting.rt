//! Deliveries that are longer than a frame of the peer's, which has at most 1024 bytes.

use crate::same::{holds, same};
use crate::sending::{attached, head};
use amqp_driver::{Cut, Sent, Status, TransferHead, flag};
use std::test::Fail;

/// A head of a later transfer: whether more follow, and its payload.
fn later(flags: u16, payload: u32) -> TransferHead {
    TransferHead {
        flags,
        ..head(1, 0, payload)
    }
}

/// The first transfer of a delivery, after which more follow.
fn first(payload: u32) -> TransferHead {
    TransferHead {
        flags: flag::NUMBERED + flag::TAGGED + flag::MORE,
        ..head(1, 1, payload)
    }
}

fn whole(head: TransferHead, refusal: u32) -> Cut {
    Cut {
        part: head,
        rest: head,
        more: 0,
        refusal,
    }
}

fn in_two(part: TransferHead, rest: TransferHead) -> Cut {
    Cut {
        part,
        rest,
        more: 1,
        refusal: 0,
    }
}

/// A byte of what is to be sent; 0 where there is none.
fn byte(out: &[u8], at: usize) -> u8 {
    match out.get(at) {
        Some(byte) => *byte,
        None => 0,
    }
}

#[test]
fn a_delivery_in_three_frames(rt: HostRuntime) -> Result<(), Fail> {
    let mut driver = attached(rt.alloc())?;
    let bytes = [0x31; 2501];
    let one = driver.cut(&head(1, 1, 2500), &bytes)?;
    let two = driver.cut(&one.rest, &bytes)?;
    let three = driver.cut(&two.rest, &bytes)?;
    let mut sent = [Sent {
        number: 7,
        refusal: 7,
    }; 3];
    let posted = driver.send(&[one.part, two.part, three.part], &bytes, &mut sent);
    let out = driver.out();
    let sizes = [byte(out, 3), byte(out, 1023), byte(out, 2043)];
    let size = out.len();
    drop(driver);
    same(&rt, one, in_two(first(997), later(0, 1503)));
    same(&rt, two, in_two(later(flag::MORE, 999), later(0, 504)));
    same(&rt, three, whole(later(0, 504), 0));
    same(&rt, (posted.status, posted.used), (Status::Done, 2501));
    holds(
        &rt,
        sent == [Sent {
            number: 0,
            refusal: 0,
        }; 3],
    );
    same(&rt, (size, sizes), (2560, [0xfc, 0xfc, 0x08]));
    Ok(())
}

#[test]
fn what_is_not_cut(rt: HostRuntime) -> Result<(), Fail> {
    let driver = attached(rt.alloc())?;
    let aborted = TransferHead {
        flags: flag::NUMBERED + flag::TAGGED + flag::MORE + flag::ABORTED + flag::SETTLED,
        ..head(1, 1, 998)
    };
    let full = driver.cut(&head(1, 1, 998), b"1")?;
    let more = driver.cut(&head(1, 1, 999), b"1")?;
    let tagged = driver.cut(&head(1, 33, 9), &[0x31; 33])?;
    let ends = driver.cut(&aborted, b"1")?;
    drop(driver);
    same(&rt, full, whole(head(1, 1, 998), 0));
    same(&rt, more, in_two(first(997), later(0, 2)));
    same(&rt, tagged, whole(head(1, 33, 9), 92));
    let flags = flag::MORE + flag::ABORTED;
    same(&rt, (ends.rest.flags, ends.rest.payload), (flags, 1));
    same(&rt, ends.part.flags, aborted.flags - flag::ABORTED);
    Ok(())
}
