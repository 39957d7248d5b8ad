//! A sequence in blocks: an item comes or goes anywhere among many at a small cost.
//!
//! | Call | What it costs |
//! |---|---|
//! | `len`, `first`, `last`, `blocks` | constant |
//! | `push_back`, `pop_front` | constant; where a block comes or goes, a step for each block |
//! | `get`, `locate`, `replace` | a search of the running lengths of the blocks; constant in the block that `remember` was given |
//! | `insert` | that, and at most a block that moves, and a step for each block between it and the block of the change before; where an end is four times as near, for each up to there |
//! | `remove_range` | the same, and dropping what leaves; of several blocks, a step for each block from that of the change before on |
//! | `reserve` | constant, but for the memory that is asked for |
#![tactic(auto)]

mod adding;
mod cascade;
mod cutting;
mod ends;
mod free;
mod inserting;
mod joining;
mod leaving;
mod lengths;
mod removing;
mod rings;
mod room;
mod search;
mod sequence;

pub use sequence::{BLOCK, Blocks};
