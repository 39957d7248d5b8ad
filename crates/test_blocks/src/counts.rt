//! How many blocks there are after orders that leave few items in each.

use crate::same::{holds, same};
use amqp_blocks::Blocks;
use std::alloc::Global;
use std::process::Abort;
use std::test::Fail;

/// How many items two neighbours hold together at most where they become one.
const FEW: usize = 64;

/// So many items, put in one after the other.
fn filled(rt: &impl Abort, alloc: Global, count: usize) -> Result<Blocks<usize>, Fail> {
    let mut blocks = Blocks::new(alloc);
    for item in 0..count {
        push_back(rt, &mut blocks, item)?;
    }
    Ok(blocks)
}

fn push_back(rt: &impl Abort, blocks: &mut Blocks<usize>, item: usize) -> Result<(), Fail> {
    blocks.reserve(1)?;
    holds(rt, blocks.len() < 100_000);
    blocks.push_back(item);
    Ok(())
}

fn insert(rt: &impl Abort, blocks: &mut Blocks<usize>, rank: usize) -> Result<(), Fail> {
    blocks.reserve(1)?;
    holds(rt, blocks.len() < 100_000 && rank <= blocks.len());
    blocks.insert(rank, rank);
    Ok(())
}

fn remove_range(rt: &impl Abort, blocks: &mut Blocks<usize>, from: usize, to: usize) {
    holds(rt, from <= to && to <= blocks.len());
    blocks.remove_range(from, to);
}

/// Two neighbours hold more than `FEW` together, but for the first two.
fn are_few(rt: &impl Abort, blocks: &Blocks<usize>) {
    let (count, items) = (blocks.blocks(), blocks.len());
    let most = (items / FEW).saturating_mul(2).saturating_add(2);
    assert!(rt; count <= most, "{count} blocks for {items} items");
}

#[test]
fn blocks_are_counted(rt: HostRuntime) -> Result<(), Fail> {
    let mut blocks = Blocks::new(rt.alloc());
    same(&rt, blocks.blocks(), 0);
    push_back(&rt, &mut blocks, 7)?;
    same(&rt, blocks.blocks(), 1);
    for item in 0..256 {
        push_back(&rt, &mut blocks, item)?;
    }
    same(&rt, blocks.blocks(), 2);
    blocks.pop_front();
    same(&rt, blocks.blocks(), 2);
    remove_range(&rt, &mut blocks, 0, 255);
    same(&rt, blocks.blocks(), 1);
    blocks.pop_front();
    same(&rt, blocks.blocks(), 0);
    Ok(())
}

#[test]
fn blocks_are_few_where_items_come_in_the_middle(rt: HostRuntime) -> Result<(), Fail> {
    let mut blocks = filled(&rt, rt.alloc(), 5_000)?;
    for _ in 0..5_000 {
        let middle = blocks.len() / 2;
        insert(&rt, &mut blocks, middle)?;
    }
    are_few(&rt, &blocks);
    Ok(())
}

#[test]
fn blocks_are_few_where_items_come_in_falling_and_rising_order(
    rt: HostRuntime,
) -> Result<(), Fail> {
    let mut blocks = filled(&rt, rt.alloc(), 2_000)?;
    for _ in 0..2_000 {
        insert(&rt, &mut blocks, 0)?;
    }
    for rank in 1_000..3_000 {
        insert(&rt, &mut blocks, rank)?;
    }
    are_few(&rt, &blocks);
    Ok(())
}

#[test]
fn blocks_are_few_where_items_come_in_falling_order_before_the_last_of_a_block(
    rt: HostRuntime,
) -> Result<(), Fail> {
    let mut blocks = filled(&rt, rt.alloc(), 2_000)?;
    for _ in 0..2_000 {
        insert(&rt, &mut blocks, 1_023)?;
    }
    are_few(&rt, &blocks);
    Ok(())
}

#[test]
fn blocks_are_few_where_every_second_item_left(rt: HostRuntime) -> Result<(), Fail> {
    let mut blocks = filled(&rt, rt.alloc(), 10_000)?;
    for rank in 0..5_000 {
        remove_range(&rt, &mut blocks, rank, rank + 1);
    }
    are_few(&rt, &blocks);
    Ok(())
}

#[test]
fn blocks_are_few_where_all_left_but_each_200th(rt: HostRuntime) -> Result<(), Fail> {
    let mut blocks = filled(&rt, rt.alloc(), 40_000)?;
    for rank in 0..200 {
        for _ in 1..200 {
            remove_range(&rt, &mut blocks, rank + 1, rank + 2);
        }
    }
    same(&rt, blocks.len(), 200);
    are_few(&rt, &blocks);
    Ok(())
}

#[test]
fn blocks_are_few_where_stretches_left(rt: HostRuntime) -> Result<(), Fail> {
    let mut blocks = filled(&rt, rt.alloc(), 40_000)?;
    for rank in 0..200 {
        remove_range(&rt, &mut blocks, rank + 1, rank + 200);
    }
    same(&rt, blocks.len(), 200);
    are_few(&rt, &blocks);
    Ok(())
}

#[test]
fn blocks_are_few_where_items_left_from_the_last_on(rt: HostRuntime) -> Result<(), Fail> {
    let mut blocks = filled(&rt, rt.alloc(), 20_000)?;
    for step in 0..100usize {
        let rank = (99 - step) * 200;
        remove_range(&rt, &mut blocks, rank, rank + 199);
    }
    same(&rt, blocks.len(), 100);
    are_few(&rt, &blocks);
    Ok(())
}
