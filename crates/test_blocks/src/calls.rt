//! Each call once, with the values that it gives.

use crate::same::{holds, same};
use amqp_blocks::Blocks;
use std::process::Abort;
use std::test::Fail;

/// Stops the test where a sequence has other items.
fn has(rt: &impl Abort, blocks: &Blocks<u32>, wanted: &[u32]) {
    same(rt, blocks.len(), wanted.len());
    for rank in 0..wanted.len() {
        same(rt, (rank, item_of(rt, blocks, rank)), (rank, wanted[rank]));
    }
}

/// The item of a rank.
fn item_of(rt: &impl Abort, blocks: &Blocks<u32>, rank: usize) -> u32 {
    holds(rt, rank < blocks.len());
    *blocks.get(rank)
}

#[test]
fn a_new_sequence_is_empty(rt: HostRuntime) -> Result<(), Fail> {
    let mut blocks: Blocks<u32> = Blocks::new(rt.alloc());
    same(&rt, blocks.len(), 0);
    holds(&rt, blocks.is_empty());
    same(&rt, blocks.first().copied(), None);
    same(&rt, blocks.last().copied(), None);
    same(&rt, blocks.pop_front(), None);
    blocks.remove_range(0, 0);
    blocks.reserve(0)?;
    same(&rt, blocks.len(), 0);
    Ok(())
}

#[test]
fn each_call_gives_what_it_says(rt: HostRuntime) -> Result<(), Fail> {
    let mut blocks: Blocks<u32> = Blocks::new(rt.alloc());
    blocks.reserve(3)?;
    blocks.push_back(10);
    blocks.reserve(1)?;
    blocks.push_back(30);
    blocks.reserve(1)?;
    holds(&rt, blocks.len() == 2);
    blocks.insert(1, 20);
    blocks.reserve(1)?;
    holds(&rt, blocks.len() == 3);
    blocks.insert(3, 40);
    has(&rt, &blocks, &[10, 20, 30, 40]);
    same(&rt, blocks.first().copied(), Some(10));
    same(&rt, blocks.last().copied(), Some(40));
    holds(&rt, blocks.len() == 4);
    blocks.replace(2, 33);
    same(&rt, *blocks.seek(2), 33);
    same(&rt, *blocks.get(2), 33);
    same(&rt, blocks.pop_front(), Some(10));
    holds(&rt, blocks.len() == 3);
    blocks.remove_range(0, 2);
    has(&rt, &blocks, &[40]);
    holds(&rt, !blocks.is_empty());
    same(&rt, blocks.pop_front(), Some(40));
    holds(&rt, blocks.is_empty());
    Ok(())
}

#[test]
fn an_item_is_sought_in_any_block(rt: HostRuntime) -> Result<(), Fail> {
    let mut blocks: Blocks<u32> = Blocks::new(rt.alloc());
    for item in 0..600 {
        blocks.reserve(1)?;
        holds(&rt, blocks.len() < 600);
        blocks.push_back(item);
    }
    holds(&rt, blocks.len() == 600);
    for rank in [0, 255, 256, 511, 599, 0, 599, 300, 301] {
        holds(&rt, rank < blocks.len());
        same(&rt, *blocks.seek(rank) as usize, rank);
    }
    Ok(())
}
