//! The sequence.

ghost use Rattle.std.specs.Prelude.{◌≡◌, ◌==◌, ◌↔◌, ◌+◌, ◌-◌, ◌*◌, ◌^◌, ◌/◌, ◌<◌, ◌≤◌, [], ◌∷◌, ◌++◌, max, length, take, drop, slice_get, slice_set, slice_index_or, Some, IsSome, OnOk, OnErr, option_copied};
ghost use Rattle.std.specs.List.{insert};
ghost use Rattle.std.specs.Option.{option_to_list};
ghost use Rattle.std.specs.Borrow.{sem};
ghost use Rattle.amqp_memory.specs.Refusal.{RefusedWithin};
ghost use Rattle.amqp_blocks.specs.Chunked.{Block, items_of, start_of, HasItem};

use crate::cascade::end_of;
use crate::ends::Ends;
use crate::free::make_lacking;
use crate::inserting::{put_before, put_last};
use crate::leaving::pop;
use crate::removing::remove_some;
use crate::rings::write_at;
use crate::search::{Place, locate_near};
use std::alloc::{AllocError, Global};
use std::collections::VecDeque;
use std::marker::Model;

/// The most items in a block.
pub const BLOCK: usize = 256;

/// Items in order, in blocks that are never empty.
///
/// ```
/// let mut blocks = Blocks::new(alloc);
/// blocks.reserve(2)?;
/// blocks.push_back(7);
/// blocks.insert(0, 5);                     // 5, 7
/// let first = blocks.pop_front();          // Some(5)
/// ```
#[derive(Drop)]
pub struct Blocks<T> {
    blocks: Vec<VecDeque<T>>,
    // Where each block ends: the items up to there, and `base` more.
    ends: Ends,
    // How many items have left at the front.
    base: usize,
    // How many items there are.
    count: usize,
    // Empty rings for the blocks to come.
    spare: Vec<VecDeque<T>>,
    // The block that was remembered last, which may be another one by now.
    sought: usize,
}

impl<T> Model for Blocks<T> {
    ghost use Rattle.std.specs.Prelude.{◌≡◌, length};
    ghost use Rattle.amqp_blocks.specs.Chunked.{Sequence, items_of, room_of, end_room, IsSound};

    ghost Value = { Sequence T };

    ghost view = { λ s. record { items = items_of s.blocks.items; room = room_of s.blocks.items s.spare.items; blocks = length s.blocks.items; spare = length s.spare.items; at_end = end_room s.blocks.items } };

    ghost invariant = { λ s. IsSound s.base s.blocks s.ends s.spare × (s.count ≡ length (items_of s.blocks.items)) };
}

/// The item of a place.
#[inline(always)]
fn item_of<T>(blocks: &Vec<VecDeque<T>>, place: Place) -> &T
    requires at { HasItem blocks.now.items place.block place.at }
    requires block { place.block < length blocks.now.items }
    ensures value { slice_get (items_of blocks.now.items) (start_of blocks.now.items place.block + place.at) ≡ Some result.now }
{
    &blocks[place.block][place.at]
}

impl<T> Blocks<T> {
    ghost use Rattle.amqp_blocks.specs.Lending.{LeftAlone};

    /// A sequence of no items, with no spare rings. It asks for no memory.
    pub fn new(alloc: Global) -> Blocks<T>
        ensures items { result.items ≡ [] }
        ensures room { result.room ≡ 0 }
        ensures rings { (result.blocks ≡ 0) × (result.spare ≡ 0) × (result.at_end ≡ 0) }
    {
        Blocks {
            blocks: Vec::new(alloc),
            ends: Ends::new(alloc),
            base: 0,
            count: 0,
            spare: Vec::new(alloc),
            sought: 0,
        }
    }

    /// How many items there are.
    #[inline(always)]
    pub fn len(&self) -> usize
        ensures { result ≡ length self.now.items }
    {
        self.count
    }

    /// Whether there are no items.
    pub fn is_empty(&self) -> bool
        ensures { result ≡ (length self.now.items == 0) }
    {
        self.len() == 0
    }

    /// How many blocks the items are in. Neighbours that have few items together become one as items leave: so there are few where many left.
    pub fn blocks(&self) -> usize
        ensures count { result ≡ self.now.blocks }
        ensures most { result ≤ length self.now.items }
        ensures least { length self.now.items ≤ 256 * result }
    {
        self.blocks.len()
    }

    /// The item of a rank, which is below the length.
    #[inline(always)]
    pub fn get(&self, rank: usize) -> &T
        requires within { rank < length self.now.items }
        ensures value { slice_get self.now.items rank ≡ Some result.now }
    {
        let place = locate_near(&self.ends, self.base, self.sought, rank);
        item_of(&self.blocks, place)
    }

    /// The item of a rank, which is below the length. Its block is remembered: what is in it is found at once.
    #[inline(always)]
    pub fn seek(&mut self, rank: usize) -> &T
        requires within { rank < length self.old.items }
        ensures* kept { sem 𝓛 (LeftAlone T.row self.entry) }
        ensures value { slice_get self.old.items rank ≡ Some result.now }
    {
        let place = locate_near(&self.ends, self.base, self.sought, rank);
        self.sought = place.block;
        item_of(&self.blocks, place)
    }

    /// The first item, or `None` where there is none.
    #[inline(always)]
    pub fn first(&self) -> Option<&T>
        ensures { option_copied result ≡ slice_get self.now.items 0 }
    {
        if self.blocks.len() == 0 {
            return None;
        }
        Some(item_of(&self.blocks, Place { block: 0, at: 0 }))
    }

    /// The last item, or `None` where there is none.
    #[inline(always)]
    pub fn last(&self) -> Option<&T>
        ensures { option_copied result ≡ slice_get self.now.items (length self.now.items - 1) }
    {
        let count = self.blocks.len();
        if count == 0 {
            return None;
        }
        let end = end_of(&self.blocks, count - 1);
        let place = Place {
            block: end.block,
            at: end.at - 1,
        };
        Some(item_of(&self.blocks, place))
    }

    /// Makes room for so many items more, wherever they come. It fails only where memory was refused, and the room is not there without it. A
    /// refusal leaves all items as they were. This call alone makes spare rings, which are empty and for the blocks to come: none where there is
    /// one for each item, and else until there is one for each 256 items, and one more. Where there is a block each takes 256 items. One block
    /// alone gets none beside it while 256 items are all there are to be.
    #[inline(always)]
    pub fn reserve(&mut self, additional: usize) -> Result<(), AllocError>
        ensures items { self.new.items ≡ self.old.items }
        ensures kept { self.old.room ≤ self.new.room }
        ensures room { OnOk result (additional ≤ self.new.room) }
        ensures lacking { OnErr result (self.old.room < additional) }
        ensures refused { OnErr result (RefusedWithin (256 + additional)) }
        ensures at_once { additional ≤ self.old.spare → self.new ≡ self.old }
        ensures blocks { self.new.blocks ≡ self.old.blocks }
        ensures spare { self.old.spare ≤ self.new.spare }
        ensures most { self.new.spare ≤ max self.old.spare (additional / 256 + 1) }
        ensures alone { self.old.blocks ≡ 1 → length self.old.items + additional ≤ 256 → self.new.spare ≡ self.old.spare }
        ensures wide { 0 < self.old.blocks → self.old.room + 256 * (self.new.spare - self.old.spare) ≤ self.new.room }
        ensures at_end { self.old.at_end ≤ self.new.at_end }
    {
        // Each spare ring has a place.
        if additional <= self.spare.len() {
            return Ok(());
        }
        make_lacking(
            &mut self.blocks,
            &mut self.ends,
            self.base,
            &mut self.spare,
            additional,
        )
    }

    /// Puts an item after the last one. It needs room for one, and asks for no memory. A block is begun, with a spare ring, only where the last
    /// one takes no item more.
    #[inline(always)]
    pub fn push_back(&mut self, item: T)
        requires room { 0 < self.old.room }
        requires few { length self.old.items < 2 ^ 33 }
        ensures items { self.new.items ≡ self.old.items ++ item ∷ [] }
        ensures room { self.old.room ≤ self.new.room + 1 }
        ensures blocks { self.new.blocks ≤ self.old.blocks + 1 }
        ensures rings { self.new.blocks + self.new.spare ≡ self.old.blocks + self.old.spare }
        ensures grows { self.old.blocks ≤ self.new.blocks }
        ensures begun { 0 < self.old.at_end → self.new.blocks ≡ self.old.blocks }
        ensures taken { self.old.at_end ≡ 0 → 0 < self.old.spare → self.new.blocks ≡ self.old.blocks + 1 }
        ensures at_end { self.old.at_end ≤ self.new.at_end + 1 }
    {
        put_last(
            &mut self.blocks,
            &mut self.ends,
            self.base,
            &mut self.spare,
            item,
        );
        self.count += 1;
    }

    /// Puts an item before that of a rank, or after the last where the rank is the length. It needs room for one, and asks for no memory. After the last
    /// it begins a block only where `push_back` does.
    pub fn insert(&mut self, rank: usize, item: T)
        requires room { 0 < self.old.room }
        requires few { length self.old.items < 2 ^ 33 }
        requires within { rank ≤ length self.old.items }
        ensures items { self.new.items ≡ insert self.old.items rank item }
        ensures room { self.old.room ≤ self.new.room + 1 }
        ensures blocks { self.new.blocks ≤ self.old.blocks + 1 }
        ensures rings { self.new.blocks + self.new.spare ≡ self.old.blocks + self.old.spare }
        ensures grows { self.old.blocks ≤ self.new.blocks }
        ensures begun { rank ≡ length self.old.items → 0 < self.old.at_end → self.new.blocks ≡ self.old.blocks }
        ensures taken { rank ≡ length self.old.items → self.old.at_end ≡ 0 → 0 < self.old.spare → self.new.blocks ≡ self.old.blocks + 1 }
        ensures at_end { rank ≡ length self.old.items → self.old.at_end ≤ self.new.at_end + 1 }
    {
        put_before(
            &mut self.blocks,
            &mut self.ends,
            self.base,
            &mut self.spare,
            self.sought,
            rank,
            item,
        );
        self.count += 1;
    }

    /// Puts an item in the place of that of a rank, which is dropped. The rings stay as they are.
    pub fn replace(&mut self, rank: usize, item: T)
    where
        T: Drop,
        requires within { rank < length self.old.items }
        ensures items { self.new.items ≡ slice_set self.old.items rank item }
        ensures room { self.new.room ≡ self.old.room }
        ensures rings { (self.new.blocks ≡ self.old.blocks) × (self.new.spare ≡ self.old.spare) × (self.new.at_end ≡ self.old.at_end) }
    {
        let place = locate_near(&self.ends, self.base, self.sought, rank);
        write_at(&mut self.blocks, place, item);
    }

    /// Takes the first item out, or answers `None` where there is none. The ring of a block that goes is kept as a spare one only where there
    /// are fewer than two, and no spare one is let go.
    #[inline(always)]
    pub fn pop_front(&mut self) -> Option<T>
        ensures items { self.old.items ≡ option_to_list result ++ self.new.items }
        ensures variant { IsSome result ↔ (0 < length self.old.items) }
        ensures blocks { self.new.blocks ≤ self.old.blocks }
        ensures rings { self.new.blocks + self.new.spare ≤ self.old.blocks + self.old.spare }
        ensures spare { (self.old.spare ≤ self.new.spare) × (self.new.spare ≤ max self.old.spare 2) }
    {
        if self.blocks.len() == 0 {
            return None;
        }
        let (item, base) = pop(&mut self.blocks, &mut self.ends, &mut self.spare, self.base);
        self.base = base;
        self.count -= 1;
        Some(item)
    }

    /// Takes the items of the ranks from `from` on and below `to` out, and drops them. Rings are kept as `pop_front` keeps them.
    pub fn remove_range(&mut self, from: usize, to: usize)
    where
        T: Drop,
        requires order { from ≤ to }
        requires within { to ≤ length self.old.items }
        ensures items { self.new.items ≡ take from self.old.items ++ drop to self.old.items }
        ensures blocks { self.new.blocks ≤ self.old.blocks }
        ensures rings { self.new.blocks + self.new.spare ≤ self.old.blocks + self.old.spare }
        ensures spare { (self.old.spare ≤ self.new.spare) × (self.new.spare ≤ max self.old.spare 2) }
    {
        if from == to {
            return;
        }
        self.base = remove_some(
            &mut self.blocks,
            &mut self.ends,
            self.base,
            &mut self.spare,
            self.sought,
            from,
            to,
        );
        self.count -= to - from;
    }
}
