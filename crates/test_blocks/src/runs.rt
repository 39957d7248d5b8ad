//! Long runs beside a plain list.

use crate::beside::Beside;
use std::alloc::Global;
use std::process::Abort;
use std::test::Fail;

/// So many items, put in one after the other.
fn filled(rt: &impl Abort, alloc: Global, count: u64) -> Result<Beside, Fail> {
    let mut both = Beside::new(alloc);
    for item in 0..count {
        both.push_back(rt, item)?;
    }
    Ok(both)
}

#[test]
fn items_come_at_the_front_in_the_middle_and_scattered(rt: HostRuntime) -> Result<(), Fail> {
    let mut both = filled(&rt, rt.alloc(), 1_000)?;
    both.are_equal(&rt);
    for item in 0..600 {
        both.insert(&rt, 0, item)?;
    }
    for item in 0..600 {
        let middle = both.len() / 2;
        both.insert(&rt, middle, item)?;
    }
    for item in 0..1_000usize {
        let rank = item.wrapping_mul(7_919) % (both.len() % 10_000 + 1);
        both.insert(&rt, rank, item as u64)?;
    }
    both.are_equal(&rt);
    Ok(())
}

#[test]
fn items_leave_at_the_front_and_scattered(rt: HostRuntime) -> Result<(), Fail> {
    let mut both = filled(&rt, rt.alloc(), 4_000)?;
    for _ in 0..900 {
        both.pop_front(&rt);
    }
    both.are_equal(&rt);
    for step in 0..2_900usize {
        let rank = step.wrapping_mul(7_919) % (both.len() % 10_000).max(1);
        both.remove_range(&rt, rank, rank + 1);
    }
    both.are_equal(&rt);
    for _ in 0..200 {
        both.pop_front(&rt);
    }
    both.are_equal(&rt);
    Ok(())
}

#[test]
fn stretches_leave(rt: HostRuntime) -> Result<(), Fail> {
    let cuts = [
        (300, 1_000),
        (0, 700),
        (256, 512),
        (10, 12),
        (1_200, 1_900),
        (100, 1_142),
        (0, 100),
    ];
    let mut both = filled(&rt, rt.alloc(), 3_602)?;
    for (from, to) in cuts {
        both.remove_range(&rt, from, to);
        both.are_equal(&rt);
    }
    Ok(())
}

#[test]
fn items_take_the_place_of_others(rt: HostRuntime) -> Result<(), Fail> {
    let mut both = filled(&rt, rt.alloc(), 1_500)?;
    for step in 0..500usize {
        both.replace(&rt, step * 3, 7);
    }
    both.are_equal(&rt);
    Ok(())
}

#[test]
fn many_items_come_where_all_blocks_are_full(rt: HostRuntime) -> Result<(), Fail> {
    let mut both = filled(&rt, rt.alloc(), 2_048)?;
    both.insert_many(&rt, 1_000, 7_919)?;
    both.are_equal(&rt);
    let mut back = filled(&rt, rt.alloc(), 1_024)?;
    back.insert_many(&rt, 300, 1_023)?;
    back.are_equal(&rt);
    Ok(())
}

#[test]
fn a_small_list_grows_and_shrinks(rt: HostRuntime) -> Result<(), Fail> {
    let mut both = Beside::new(rt.alloc());
    for item in 0..1_000u64 {
        both.push_back(&rt, item)?;
        both.push_back(&rt, item + 1)?;
        both.pop_front(&rt);
        both.pop_front(&rt);
        both.insert(&rt, 0, item)?;
        both.remove_range(&rt, 0, 1);
    }
    both.are_equal(&rt);
    Ok(())
}
