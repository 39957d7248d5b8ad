//! Ranges: past the wrap, as wide as half of the circle, backward, beside what is there, and among what has gone.

use crate::calls::entry;
use crate::same::same;
use amqp_unsettled::{InsertError, Unsettled};
use std::alloc::Global;
use std::process::Abort;
use std::test::Fail;

/// A table with so many deliveries of one link, by rising numbers.
fn filled(rt: &impl Abort, alloc: Global, first: u32, count: u32) -> Unsettled {
    let mut table = Unsettled::new(alloc);
    for i in 0..count {
        same(rt, table.insert(entry(first.wrapping_add(i), 0)), Ok(()));
    }
    table
}

/// A range is settled, and gives these numbers back, which lie side by side.
fn settles(rt: &impl Abort, table: &mut Unsettled, range: (u32, u32), first: u32, count: u32) {
    for i in 0..count {
        let number = first.wrapping_add(i);
        same(
            rt,
            table.settle_next(range.0, range.1),
            Some(entry(number, 0)),
        );
    }
    same(rt, table.settle_next(range.0, range.1), None);
}

#[test]
fn a_range_within(rt: HostRuntime) -> Result<(), Fail> {
    let mut table = filled(&rt, rt.alloc(), 100, 10);
    settles(&rt, &mut table, (103, 105), 103, 3);
    settles(&rt, &mut table, (103, 105), 0, 0);
    settles(&rt, &mut table, (102, 105), 102, 1);
    settles(&rt, &mut table, (106, 106), 106, 1);
    same(&rt, table.len(), 5);
    Ok(())
}

#[test]
fn a_range_that_begins_before_or_ends_after(rt: HostRuntime) -> Result<(), Fail> {
    let mut table = filled(&rt, rt.alloc(), 100, 10);
    settles(&rt, &mut table, (50, 101), 100, 2);
    settles(&rt, &mut table, (108, 4_000), 108, 2);
    settles(&rt, &mut table, (0, 99), 0, 0);
    settles(&rt, &mut table, (110, 200), 0, 0);
    settles(&rt, &mut table, (4_294_967_290, 103), 102, 2);
    settles(&rt, &mut table, (0, 2_147_483_647), 104, 4);
    same(&rt, table.len(), 0);
    Ok(())
}

#[test]
fn a_range_past_the_wrap(rt: HostRuntime) -> Result<(), Fail> {
    let mut table = filled(&rt, rt.alloc(), 4_294_967_292, 8);
    same(&rt, table.get(3), Some(entry(3, 0)));
    same(&rt, table.get(4_294_967_295), Some(entry(4_294_967_295, 0)));
    settles(&rt, &mut table, (4_294_967_294, 1), 4_294_967_294, 4);
    settles(
        &rt,
        &mut table,
        (2_200_000_000, 4_294_967_293),
        4_294_967_292,
        2,
    );
    settles(&rt, &mut table, (4_294_967_290, 2), 2, 1);
    settles(&rt, &mut table, (3, 3), 3, 1);
    same(&rt, table.len(), 0);
    Ok(())
}

#[test]
fn a_range_that_does_not_go_forward_has_none(rt: HostRuntime) -> Result<(), Fail> {
    let mut table = filled(&rt, rt.alloc(), 100, 10);
    settles(&rt, &mut table, (105, 104), 0, 0);
    settles(&rt, &mut table, (109, 100), 0, 0);
    // Half of the circle, and more.
    settles(&rt, &mut table, (100, 2_147_483_748), 0, 0);
    settles(&rt, &mut table, (0, 4_294_967_295), 0, 0);
    same(&rt, table.len(), 10);
    // The widest that goes forward, and costs no more than a narrow one.
    settles(&rt, &mut table, (105, 2_147_483_752), 105, 5);
    settles(&rt, &mut table, (2_147_483_752, 104), 0, 0);
    settles(&rt, &mut table, (2_147_483_753, 104), 100, 5);
    same(&rt, table.len(), 0);
    Ok(())
}

#[test]
fn a_table_as_wide_as_half_of_the_circle(rt: HostRuntime) -> Result<(), Fail> {
    let mut table = Unsettled::new(rt.alloc());
    for number in [3_000_000_000, 4_294_967_295, 0, 852_516_351] {
        same(&rt, table.insert(entry(number, 0)), Ok(()));
    }
    same(
        &rt,
        table.find_next(2_999_999_999, 852_516_350),
        Some(entry(3_000_000_000, 0)),
    );
    settles(
        &rt,
        &mut table,
        (852_516_351, 2_999_999_998),
        852_516_351,
        1,
    );
    settles(
        &rt,
        &mut table,
        (3_000_000_001, 852_516_351),
        4_294_967_295,
        2,
    );
    settles(
        &rt,
        &mut table,
        (852_516_353, 3_000_000_000),
        3_000_000_000,
        1,
    );
    Ok(())
}

/// Deliveries from the middle on go first, and the cells that they had stay: a range that begins among these gives what
/// comes after them, whichever it is.
#[test]
fn a_range_that_begins_among_those_that_have_gone(rt: HostRuntime) -> Result<(), Fail> {
    let mut table = filled(&rt, rt.alloc(), 0, 60);
    settles(&rt, &mut table, (20, 39), 20, 20);
    for first in 20..40u32 {
        same(&rt, table.find_next(first, 39), None);
        same(&rt, table.find_next(first, 59), Some(entry(40, 0)));
    }
    same(&rt, table.settle_next(25, 39), None);
    same(&rt, table.settle_next(25, 40), Some(entry(40, 0)));
    same(&rt, table.settle_next(30, 59), Some(entry(41, 0)));
    same(&rt, table.settle_next(10, 59), Some(entry(10, 0)));
    settles(&rt, &mut table, (0, 9), 0, 10);
    settles(&rt, &mut table, (0, 19), 11, 9);
    settles(&rt, &mut table, (0, 59), 42, 18);
    same(&rt, table.len(), 0);
    Ok(())
}

/// The newest one comes and goes again and again, as where its transfer is refused, each time on another link.
#[test]
fn the_newest_comes_and_goes(rt: HostRuntime) -> Result<(), Fail> {
    let mut table = filled(&rt, rt.alloc(), 0, 100);
    settles(&rt, &mut table, (50, 99), 50, 50);
    for link in 0..40u32 {
        let newest = entry(50, link);
        let before = table.count_of(link);
        same(&rt, table.insert(newest), Ok(()));
        same(&rt, table.insert(newest), Err(InsertError::NotNext));
        same(&rt, table.count_of(link), before.wrapping_add(1));
        same(&rt, table.remove(50), Some(newest));
        same(&rt, table.count_of(link), before);
    }
    settles(&rt, &mut table, (0, 60), 0, 50);
    Ok(())
}
