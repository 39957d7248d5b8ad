//! Each call, and what it answers.

use crate::same::{holds, same};
use amqp_unsettled::{Entry, InsertError, Unsettled};
use std::test::Fail;

/// A delivery whose value follows from its number.
pub fn entry(number: u32, link: u32) -> Entry {
    Entry {
        number,
        link,
        given: u64::from(number) * 10 + 1,
    }
}

#[test]
fn a_new_table_has_nothing(rt: HostRuntime) -> Result<(), Fail> {
    let mut table = Unsettled::new(rt.alloc());
    holds(&rt, table.is_empty());
    same(&rt, table.len(), 0);
    same(&rt, table.get(0), None);
    same(&rt, table.find_next(0, 9), None);
    same(&rt, table.count_of(0), 0);
    same(&rt, table.remove(0), None);
    same(&rt, table.settle_next(0, 9), None);
    same(&rt, table.remove_next_of(0), None);
    same(&rt, table.remove_oldest(), None);
    Ok(())
}

#[test]
fn what_was_put_in_is_found_and_stays(rt: HostRuntime) -> Result<(), Fail> {
    let mut table = Unsettled::new(rt.alloc());
    same(&rt, table.insert(entry(7, 0)), Ok(()));
    same(&rt, table.insert(entry(8, 1)), Ok(()));
    same(&rt, table.insert(entry(10, 0)), Ok(()));
    holds(&rt, !table.is_empty());
    same(&rt, table.len(), 3);
    same(
        &rt,
        table.get(8),
        Some(Entry {
            number: 8,
            link: 1,
            given: 81,
        }),
    );
    same(&rt, table.get(9), None);
    same(&rt, table.find_next(8, 10), Some(entry(8, 1)));
    same(&rt, table.find_next(9, 9), None);
    same(&rt, table.count_of(0), 2);
    same(&rt, table.count_of(1), 1);
    same(&rt, table.count_of(2), 0);
    same(&rt, table.len(), 3);
    Ok(())
}

#[test]
fn what_is_taken_out_is_given_once(rt: HostRuntime) -> Result<(), Fail> {
    let mut table = Unsettled::new(rt.alloc());
    for number in 0..6u32 {
        same(&rt, table.insert(entry(number, number % 2)), Ok(()));
    }
    same(&rt, table.remove(2), Some(entry(2, 0)));
    same(&rt, table.remove(2), None);
    same(&rt, table.settle_next(2, 3), Some(entry(3, 1)));
    same(&rt, table.settle_next(2, 3), None);
    same(&rt, table.remove_next_of(1), Some(entry(1, 1)));
    same(&rt, table.remove_oldest(), Some(entry(0, 0)));
    same(&rt, table.remove_next_of(1), Some(entry(5, 1)));
    same(&rt, table.remove_next_of(1), None);
    same(&rt, table.count_of(0), 1);
    same(&rt, table.remove_next_of(0), Some(entry(4, 0)));
    same(&rt, table.remove_oldest(), None);
    holds(&rt, table.is_empty());
    Ok(())
}

#[test]
fn a_number_that_is_not_next_is_refused(rt: HostRuntime) -> Result<(), Fail> {
    let mut table = Unsettled::new(rt.alloc());
    same(&rt, table.insert(entry(5, 0)), Ok(()));
    same(&rt, table.insert(entry(9, 0)), Ok(()));
    let not_next = Err(InsertError::NotNext);
    same(&rt, table.insert(entry(9, 1)), not_next);
    same(&rt, table.insert(entry(7, 1)), not_next);
    same(&rt, table.insert(entry(5, 1)), not_next);
    same(&rt, table.insert(entry(4, 1)), not_next);
    // As far as half of the circle after the oldest one.
    same(&rt, table.insert(entry(2_147_483_653, 1)), not_next);
    same(&rt, table.len(), 2);
    same(&rt, table.count_of(1), 0);
    same(&rt, table.get(9), Some(entry(9, 0)));
    same(&rt, table.insert(entry(2_147_483_652, 1)), Ok(()));
    // Where the oldest has gone a later one may come.
    same(&rt, table.insert(entry(2_147_483_653, 2)), not_next);
    same(&rt, table.remove(5), Some(entry(5, 0)));
    same(&rt, table.insert(entry(2_147_483_653, 2)), Ok(()));
    same(&rt, table.len(), 3);
    Ok(())
}

#[test]
fn an_empty_table_takes_any_number(rt: HostRuntime) -> Result<(), Fail> {
    let mut table = Unsettled::new(rt.alloc());
    for number in [4_294_967_295, 0, 2_147_483_648, 5] {
        same(&rt, table.insert(entry(number, 3)), Ok(()));
        same(&rt, table.remove_oldest(), Some(entry(number, 3)));
    }
    Ok(())
}
