//! Many deliveries, in hostile orders.

use crate::calls::entry;
use crate::same::{holds, same};
use amqp_unsettled::Unsettled;
use std::alloc::Global;
use std::process::Abort;
use std::test::Fail;

/// So many deliveries.
const MANY: u32 = 100_000;

/// They pass the wrap.
const FIRST: u32 = 4_294_920_000;

/// The delivery that came after so many.
fn put(rt: &impl Abort, table: &mut Unsettled, i: u32) {
    let entry = entry(FIRST.wrapping_add(i), i % 16);
    same(rt, table.insert(entry), Ok(()));
}

/// This side settles it.
fn settled(rt: &impl Abort, table: &mut Unsettled, i: u32) {
    let number = FIRST.wrapping_add(i);
    same(
        rt,
        table.settle_next(number, number),
        Some(entry(number, i % 16)),
    );
}

fn filled(rt: &impl Abort, alloc: Global) -> Unsettled {
    let mut table = Unsettled::new(alloc);
    for i in 0..MANY {
        put(rt, &mut table, i);
    }
    table
}

#[test]
fn all_at_once(rt: HostRuntime) -> Result<(), Fail> {
    let mut table = filled(&rt, rt.alloc());
    same(&rt, table.len(), 100_000);
    for i in 0..MANY {
        let wanted = Some(entry(FIRST.wrapping_add(i), i % 16));
        same(&rt, table.settle_next(FIRST, 2_000_000_000), wanted);
    }
    same(&rt, table.settle_next(FIRST, 2_000_000_000), None);
    holds(&rt, table.is_empty());
    // And again, where the memory was let go.
    for i in 0..10 {
        put(&rt, &mut table, i);
    }
    settled(&rt, &mut table, 3);
    same(&rt, table.len(), 9);
    Ok(())
}

/// With the last ones the memory of many goes, of all and of each link. They come again.
#[test]
fn links_come_again_where_the_memory_was_let_go(rt: HostRuntime) -> Result<(), Fail> {
    let mut table = Unsettled::new(rt.alloc());
    for _ in 0..3u32 {
        for i in 0..3_000u32 {
            same(&rt, table.insert(entry(i, i % 1_000)), Ok(()));
        }
        for i in 0..3_000u32 {
            same(&rt, table.remove_oldest(), Some(entry(i, i % 1_000)));
        }
        same(&rt, table.count_of(999), 0);
        same(&rt, table.next_of(0), None);
    }
    Ok(())
}

#[test]
fn the_newest_first(rt: HostRuntime) -> Result<(), Fail> {
    let mut table = filled(&rt, rt.alloc());
    for i in 0..MANY {
        settled(&rt, &mut table, MANY - 1 - i);
    }
    holds(&rt, table.is_empty());
    Ok(())
}

#[test]
fn every_second_and_then_the_others(rt: HostRuntime) -> Result<(), Fail> {
    let mut table = filled(&rt, rt.alloc());
    for i in 0..MANY / 2 {
        settled(&rt, &mut table, i * 2);
    }
    same(&rt, table.len(), 50_000);
    same(&rt, table.count_of(0), 0);
    same(&rt, table.count_of(1), 6_250);
    for i in 0..MANY / 2 {
        settled(&rt, &mut table, i * 2 + 1);
    }
    holds(&rt, table.is_empty());
    Ok(())
}

#[test]
fn scattered(rt: HostRuntime) -> Result<(), Fail> {
    let mut table = filled(&rt, rt.alloc());
    for i in 0..MANY {
        settled(&rt, &mut table, i.wrapping_mul(7_919) % MANY);
    }
    holds(&rt, table.is_empty());
    Ok(())
}
