//! Links that go, among others.

use crate::calls::entry;
use crate::same::same;
use amqp_unsettled::Unsettled;
use std::test::Fail;

#[test]
fn each_of_many_links_is_told_its_own(rt: HostRuntime) -> Result<(), Fail> {
    let mut table = Unsettled::new(rt.alloc());
    // The numbers of each link pass the wrap.
    let first: u32 = 4_294_967_000;
    for i in 0..700u32 {
        same(
            &rt,
            table.insert(entry(first.wrapping_add(i), i % 7)),
            Ok(()),
        );
    }
    for link in [3, 0, 6, 1, 5, 2, 4] {
        same(&rt, table.count_of(link), 100);
        for i in 0..100u32 {
            let number = first.wrapping_add(i * 7 + link);
            same(&rt, table.remove_next_of(link), Some(entry(number, link)));
        }
        same(&rt, table.remove_next_of(link), None);
        same(&rt, table.count_of(link), 0);
    }
    same(&rt, table.len(), 0);
    Ok(())
}

#[test]
fn a_link_that_comes_again_has_what_came_since(rt: HostRuntime) -> Result<(), Fail> {
    let mut table = Unsettled::new(rt.alloc());
    same(&rt, table.insert(entry(1, 65_535)), Ok(()));
    same(&rt, table.insert(entry(2, 0)), Ok(()));
    same(&rt, table.remove_next_of(65_535), Some(entry(1, 65_535)));
    same(&rt, table.remove_next_of(65_535), None);
    same(&rt, table.insert(entry(3, 65_535)), Ok(()));
    same(&rt, table.settle_next(1, 3), Some(entry(2, 0)));
    same(&rt, table.count_of(65_535), 1);
    same(&rt, table.remove_next_of(65_535), Some(entry(3, 65_535)));
    Ok(())
}

/// Of links without a list nothing is told, be their numbers between others or past them all.
#[test]
fn a_link_that_had_no_delivery_has_none(rt: HostRuntime) -> Result<(), Fail> {
    let mut table = Unsettled::new(rt.alloc());
    same(&rt, table.insert(entry(1, 40)), Ok(()));
    for link in [0, 39, 41, 4_294_967_295] {
        same(&rt, table.count_of(link), 0);
        same(&rt, table.next_of(link), None);
        same(&rt, table.remove_next_of(link), None);
    }
    same(&rt, table.next_of(40), Some(entry(1, 40)));
    same(&rt, table.insert(entry(2, 39)), Ok(()));
    same(&rt, table.insert(entry(3, 41)), Ok(()));
    same(&rt, table.count_of(39), 1);
    same(&rt, table.count_of(40), 1);
    same(&rt, table.count_of(41), 1);
    Ok(())
}

/// A hundred links in turn, each with four hundred of its own: the newest goes, one in the middle, and the oldest.
#[test]
fn links_in_turn_are_settled_from_either_end(rt: HostRuntime) -> Result<(), Fail> {
    let mut table = Unsettled::new(rt.alloc());
    let first: u32 = 4_294_947_296;
    for i in 0..40_000u32 {
        same(
            &rt,
            table.insert(entry(first.wrapping_add(i), i % 100)),
            Ok(()),
        );
    }
    for link in 0..100u32 {
        let newest = first.wrapping_add(39_900 + link);
        let oldest = first.wrapping_add(link);
        let middle = first.wrapping_add(20_000 + link);
        same(&rt, table.remove(newest), Some(entry(newest, link)));
        same(&rt, table.remove(middle), Some(entry(middle, link)));
        same(&rt, table.next_of(link), Some(entry(oldest, link)));
        same(&rt, table.remove(oldest), Some(entry(oldest, link)));
        same(&rt, table.remove(oldest), None);
        same(&rt, table.count_of(link), 397);
    }
    same(&rt, table.len(), 39_700);
    Ok(())
}

#[test]
fn a_link_that_goes_after_a_part_was_settled(rt: HostRuntime) -> Result<(), Fail> {
    let mut table = Unsettled::new(rt.alloc());
    for number in 0..20u32 {
        same(&rt, table.insert(entry(number, number / 10)), Ok(()));
    }
    for number in [5, 7, 6, 9, 8] {
        same(
            &rt,
            table.settle_next(number, number),
            Some(entry(number, 0)),
        );
    }
    for number in 0..5u32 {
        same(&rt, table.remove_next_of(0), Some(entry(number, 0)));
    }
    same(&rt, table.remove_next_of(0), None);
    same(&rt, table.len(), 10);
    same(&rt, table.remove_oldest(), Some(entry(10, 1)));
    Ok(())
}

/// What is unsettled on a link that is forgotten stays, and a link without any can have deliveries again.
#[test]
fn a_link_that_is_forgotten_keeps_what_is_unsettled(rt: HostRuntime) -> Result<(), Fail> {
    let mut table = Unsettled::new(rt.alloc());
    same(&rt, table.insert(entry(1, 4)), Ok(()));
    same(&rt, table.insert(entry(2, 5)), Ok(()));
    table.forget_link(4);
    same(&rt, table.count_of(4), 1);
    same(&rt, table.remove_next_of(4), Some(entry(1, 4)));
    table.forget_link(4);
    table.forget_link(4_294_967_295);
    same(&rt, table.count_of(4), 0);
    same(&rt, table.next_of(5), Some(entry(2, 5)));
    same(&rt, table.insert(entry(3, 4)), Ok(()));
    same(&rt, table.remove_next_of(4), Some(entry(3, 4)));
    same(&rt, table.len(), 1);
    Ok(())
}
