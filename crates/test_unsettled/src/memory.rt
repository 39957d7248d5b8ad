//! Where memory is refused.

use crate::calls::entry;
use crate::same::same;
use amqp_unsettled::{InsertError, Unsettled};
use std::process::Abort;
use std::test::Fail;

/// Puts a delivery in. Where memory is refused nothing has changed, and the next try does it.
fn put(rt: &impl Abort, table: &mut Unsettled, number: u32) {
    let before = table.len();
    let done = table.insert(entry(number, number % 2));
    if done == Err(InsertError::OutOfMemory) {
        same(rt, table.len(), before);
        same(rt, table.get(number), None);
        same(rt, table.insert(entry(number, number % 2)), Ok(()));
    } else {
        same(rt, done, Ok(()));
    }
}

/// The link of a delivery: each has one of its own, some way above that of the one before.
fn link_of(number: u32) -> u32 {
    number.wrapping_mul(3)
}

/// The same of links that come one after the other, so that there is no list for any of them.
fn put_on(rt: &impl Abort, table: &mut Unsettled, number: u32) {
    let link = link_of(number);
    if table.insert(entry(number, link)) == Err(InsertError::OutOfMemory) {
        same(rt, table.len(), number as usize);
        same(rt, table.get(number), None);
        same(rt, table.count_of(link), 0);
        same(rt, table.next_of(link), None);
        same(rt, table.count_of(0), number.min(1) as usize);
        same(rt, table.insert(entry(number, link)), Ok(()));
    }
    same(rt, table.count_of(link), 1);
}

/// It holds wherever memory is refused.
#[test]
fn a_refused_link_leaves_nothing(rt: HostRuntime) -> Result<(), Fail> {
    let mut table = Unsettled::new(rt.alloc());
    for number in 0..40u32 {
        put_on(&rt, &mut table, number);
    }
    for number in 0..40u32 {
        let wanted = Some(entry(number, link_of(number)));
        same(&rt, table.remove_next_of(link_of(number)), wanted);
    }
    same(&rt, table.len(), 0);
    Ok(())
}

/// It holds at whichever request for memory one is refused, as `rt try --test --fail-alloc N` does, and with none
/// refused.
#[test]
fn a_refused_delivery_leaves_nothing(rt: HostRuntime) -> Result<(), Fail> {
    let mut table = Unsettled::new(rt.alloc());
    for number in 0..600u32 {
        put(&rt, &mut table, number);
    }
    same(&rt, table.count_of(1), 300);
    for number in 0..600u32 {
        same(
            &rt,
            table.settle_next(0, 700),
            Some(entry(number, number % 2)),
        );
    }
    same(&rt, table.settle_next(0, 700), None);
    Ok(())
}
