//! The channels of this side: which are held, and the lowest that is free, found without a walk.

ghost use Rattle.std.specs.Prelude.{◌≡◌, ℕ, ◌≤◌, Option, Some, IsSome};
ghost use Rattle.std.specs.Ordering.{nat_cmp};
ghost use Rattle.std.specs.FinMap as map;
ghost use Rattle.amqp_connection.specs.Channels.{AllotStep};

use amqp_memory::{more_in_heap, more_in_map};
use amqp_session::OutgoingChannel;
use indexmap::IndexMap;
use std::alloc::Global;
use std::collections::BinaryHeap;
use std::marker::Model;

/// Why no channel is allotted.
#[derive(Clone, Copy, Debug, PartialEq, Eq)]
pub(crate) enum AllotError {
    /// All up to the maximum are held.
    Full,
    /// Memory was refused.
    OutOfMemory,
}

/// The channels that are held, each with the number of its session.
#[derive(Drop)]
pub(crate) struct ChannelTable {
    held: IndexMap<u16, u32>,
    /// Given back: `u16::MAX` less the channel, so that the lowest channel is the greatest.
    free: BinaryHeap<u16>,
    /// No channel from here on was ever held.
    next: u32,
}

impl Model for ChannelTable {
    ghost use Rattle.std.specs.Prelude.{ℕ};
    ghost use Rattle.std.specs.Ordering.{nat_cmp};
    ghost use Rattle.std.specs.Coded.{coded_ℕ};
    ghost use Rattle.std.specs.FinMap as map;
    ghost use Rattle.std.specs.BinaryHeap.{heap_items, heap_len, heap_capacity};
    ghost use Rattle.indexmap.specs.IndexMap.{index_map_len};
    ghost use Rattle.amqp_connection.specs.Channels.{Channelled};

    ghost Value = { map.FinMap nat_cmp ℕ };

    ghost coded = { map.code coded_ℕ coded_ℕ };

    ghost view = { λ t. map.from_entries t.held.entries };

    ghost invariant = { λ t. Channelled t.held.entries (index_map_len t.held) (heap_items t.free) (heap_len t.free)
        (heap_capacity t.free) t.next };
}

impl ChannelTable {
    /// No channel is held.
    pub(crate) fn new(alloc: Global) -> ChannelTable
        ensures { result ≡ map.empty }
    {
        ChannelTable {
            held: IndexMap::new(alloc),
            free: BinaryHeap::new(alloc),
            next: 0,
        }
    }

    /// The session that holds the channel.
    pub(crate) fn holder(&self, channel: OutgoingChannel) -> Option<u32>
        ensures { result ≡ map.get self.now channel.0 }
    {
        self.held.get(&channel.0).copied()
    }

    /// Gives the lowest channel that is not held, in a time that grows with the logarithm of their number.
    pub(crate) fn allot(&mut self, max: u16, number: u32) -> Result<OutgoingChannel, AllotError>
        ensures { AllotStep self.old max number result self.new }
    {
        match self.free.peek() {
            Some(top) => {
                let channel = u16::MAX - *top;
                if channel > max {
                    return Err(AllotError::Full);
                }
                let Ok(()) = more_in_map(&mut self.held, 1) else {
                    return Err(AllotError::OutOfMemory);
                };
                self.free.pop().unwrap();
                self.held.insert(channel, number).unwrap();
                Ok(OutgoingChannel(channel))
            }
            None => {
                if self.next > u32::from(max) {
                    return Err(AllotError::Full);
                }
                let Ok(()) = more_in_map(&mut self.held, 1) else {
                    return Err(AllotError::OutOfMemory);
                };
                // Then no memory is needed when it is given back.
                let Ok(()) = more_in_heap(&mut self.free, self.next as usize + 1) else {
                    return Err(AllotError::OutOfMemory);
                };
                let channel = self.next as u16;
                self.held.insert(channel, number).unwrap();
                self.next += 1;
                Ok(OutgoingChannel(channel))
            }
        }
    }

    /// Gives a channel back, which takes no memory.
    pub(crate) fn give_back(&mut self, channel: OutgoingChannel)
        requires { IsSome (map.get self.old channel.0) }
        ensures { self.new ≡ map.remove self.old channel.0 }
    {
        self.held.swap_remove(&channel.0).unwrap();
        self.free.push(u16::MAX - channel.0).unwrap();
    }
}
