//! A sequence in blocks beside a plain list, which gets the same changes.

use crate::same::{holds, same};
use amqp_blocks::Blocks;
use std::alloc::Global;
use std::process::Abort;
use std::test::Fail;

/// No run has more items.
const MOST: usize = 100_000;

/// A sequence and a plain list of the same items.
#[derive(Drop)]
pub struct Beside {
    blocks: Blocks<u64>,
    plain: Vec<u64>,
}

impl Beside {
    /// Both with no items.
    pub fn new(alloc: Global) -> Beside {
        Beside {
            blocks: Blocks::new(alloc),
            plain: Vec::new(alloc),
        }
    }

    /// How many items the plain list has.
    pub fn len(&self) -> usize {
        self.plain.len()
    }

    /// Puts an item after the last.
    pub fn push_back(&mut self, rt: &impl Abort, item: u64) -> Result<(), Fail> {
        holds(rt, self.blocks.len() < MOST);
        self.blocks.reserve(1)?;
        self.blocks.push_back(item);
        self.plain.push(item)?;
        Ok(())
    }

    /// Puts an item before that of a rank.
    pub fn insert(&mut self, rt: &impl Abort, rank: usize, item: u64) -> Result<(), Fail> {
        self.blocks.reserve(1)?;
        holds(rt, self.blocks.len() < MOST && rank <= self.blocks.len());
        self.blocks.insert(rank, item);
        holds(rt, rank < self.blocks.len() && rank <= self.plain.len());
        same(rt, *self.blocks.seek(rank), item);
        self.plain.insert(rank, item)?;
        Ok(())
    }

    /// Makes room for items, then puts them in at scattered ranks, with no call in between.
    pub fn insert_many(&mut self, rt: &impl Abort, count: usize, step: usize) -> Result<(), Fail> {
        insert_many(rt, &mut self.blocks, &mut self.plain, count, step)
    }

    /// Puts an item in the place of another.
    pub fn replace(&mut self, rt: &impl Abort, rank: usize, item: u64) {
        holds(rt, rank < self.blocks.len() && rank < self.plain.len());
        self.blocks.replace(rank, item);
        self.plain[rank] = item;
    }

    /// Takes the first item out.
    pub fn pop_front(&mut self, rt: &impl Abort) {
        let item = self.blocks.pop_front();
        holds(rt, self.plain.len() > 0);
        same(rt, item, Some(self.plain.remove(0)));
    }

    /// Takes a stretch out.
    pub fn remove_range(&mut self, rt: &impl Abort, from: usize, to: usize) {
        holds(
            rt,
            from <= to && to <= self.blocks.len() && to <= self.plain.len(),
        );
        self.blocks.remove_range(from, to);
        self.plain.drain(from..to);
    }

    /// Whether both have the same items, their ends and lengths among them.
    pub fn are_equal(&self, rt: &impl Abort) {
        same(rt, self.blocks.len(), self.plain.len());
        same(rt, self.blocks.is_empty(), self.plain.is_empty());
        same(rt, self.blocks.first(), self.plain.first());
        same(rt, self.blocks.last(), self.plain.last());
        for rank in 0..self.plain.len() {
            let item = item_of(rt, &self.blocks, rank);
            same(rt, (rank, item), (rank, self.plain[rank]));
        }
    }
}

/// The item of a rank.
fn item_of(rt: &impl Abort, blocks: &Blocks<u64>, rank: usize) -> u64 {
    holds(rt, rank < blocks.len());
    *blocks.get(rank)
}

/// Makes room for items, then puts them in at scattered ranks, with no call in between.
fn insert_many(
    rt: &impl Abort,
    blocks: &mut Blocks<u64>,
    plain: &mut Vec<u64>,
    count: usize,
    step: usize,
) -> Result<(), Fail> {
    blocks.reserve(count)?;
    for i in 0..count {
        holds(rt, blocks.len() < MOST);
        let rank = i.wrapping_mul(step) % (blocks.len() + 1);
        let item = i as u64;
        blocks.insert(rank, item);
        holds(rt, rank <= plain.len());
        plain.insert(rank, item)?;
    }
    Ok(())
}
