//! Memory of a session's own for the tags of open deliveries: what they came in need not be kept for them.

ghost use Rattle.std.specs.Prelude.{◌≡◌, ◌≤◌, [], length, IfOk, OnOk, OnErr};
ghost use Rattle.amqp_memory.specs.Refusal.{SomeRefused};

use amqp_memory::{buffer_with, copy_of, frozen_front};
use amqp_types::DeliveryTag;
use bytes::{Bytes, BytesMut};
use std::alloc::{AllocError, Global};

/// Blocks of memory that tags are copied into, one after another. A block goes when the last of its tags does.
#[derive(Drop)]
pub(crate) struct Tags {
    alloc: Global,
    /// What is left of the latest block.
    room: BytesMut,
}

/// How many bytes a block has. It is short, since one tag keeps the whole of it.
const BLOCK: usize = 512;

/// How many bytes a tag has at most (AMQP 1.0 part 2, section 2.8.7). A peer may send a longer one all the same.
const LONGEST: usize = 32;

impl Tags {
    /// No block yet.
    pub(crate) fn new(alloc: Global) -> Tags {
        Tags {
            alloc,
            room: BytesMut::new(alloc),
        }
    }

    /// The same tag as a copy: in a block, or in a buffer of its own where it is longer than the standard has it. Where memory is refused it stays
    /// what it is. So does a longer one that is most of what it came in: `beside` tells how many bytes of payload and state came with it.
    #[inline(never)]
    pub(crate) fn own(&mut self, tag: DeliveryTag, beside: usize) -> DeliveryTag
        ensures { result ≡ tag }
    {
        let len = tag.0.len();
        if len > LONGEST && len >= beside {
            return tag;
        }
        match self.copied(&tag.0) {
            Ok(own) => DeliveryTag(own),
            Err(_) => tag,
        }
    }

    /// These bytes, in a block or, where they are too many for one, in a buffer of their own.
    fn copied(&mut self, bytes: &[u8]) -> Result<Bytes, AllocError>
        ensures copy { IfOk result (λ b. b ≡ bytes.now) }
        ensures refused { OnErr result SomeRefused }
    {
        if bytes.len() > LONGEST {
            return copy_of(self.alloc, bytes);
        }
        self.make_room(bytes.len())?;
        self.room.extend_reserved(bytes);
        frozen_front(&mut self.room, bytes.len())
    }

    /// Room for so many bytes: in the latest block, where they fit or none of its tags is left, and else in another.
    fn make_room(&mut self, len: usize) -> Result<(), AllocError>
        requires short { len ≤ 32 }
        ensures empty { OnOk result (self.new.room.items ≡ []) }
        ensures room { OnOk result (len ≤ self.new.room.spare) }
        ensures refused { OnErr result SomeRefused }
    {
        self.room.clear();
        if !self.room.try_reclaim(len) {
            self.room = buffer_with(self.alloc, BLOCK)?;
        }
        Ok(())
    }
}
