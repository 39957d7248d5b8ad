//! The modes of many links: the peer chose their input handles.

use super::Link;
use crate::bench::Bench;
use crate::frames;
use crate::relay::Relay;
use fe2o3_amqp::{Input, InputHandle};
use std::hash::{FoldHasher, Hasher};

/// The bits of a hash by which colliding handles are alike: a map takes the upper ones for its tag and the lower ones for its place.
const ALIKE: u64 = 0xff00_001f;

/// The hash of a handle in a map that names no hash of its own. Its key is fixed, so a peer can work it out.
fn fixed_hash(handle: u32) -> u64 {
    let mut hasher = FoldHasher::default();
    hasher.write(&handle.to_le_bytes());
    let hash = hasher.finish();
    hash ^ (hash >> 32)
}

/// The next handle after this one whose hash is alike the hash of 0; the last of all, where there is none.
fn colliding_after(handle: u32) -> u32 {
    let wanted = fixed_hash(0);
    for next in handle.saturating_add(1)..u32::MAX {
        if (fixed_hash(next) ^ wanted) & ALIKE == 0 {
            return next;
        }
    }
    u32::MAX
}

/// So many handles from 1 on; where they are to collide, only those that do.
fn choose(handles: &mut Vec<u32>, count: u32, collide: bool) -> anyhow::Result<()> {
    let mut handle = 0;
    for _ in 0..count {
        handle = if collide {
            colliding_after(handle)
        } else {
            handle.wrapping_add(1)
        };
        handles.push(handle)?;
    }
    Ok(())
}

impl<'a> Link<'a> {
    /// OPEN links more are attached. Then COUNT times a transfer comes to one of them, in a scattered order, and the peer settles it.
    pub(super) fn use_links(&self, bench: &mut Bench, collide: bool) -> anyhow::Result<()> {
        let mut handles = Vec::new(self.alloc);
        let outcome = match choose(&mut handles, self.plan.open, collide) {
            Ok(()) => self.use_each(bench, handles.as_slice()),
            Err(error) => Err(error),
        };
        drop(handles);
        outcome
    }

    fn use_each(&self, bench: &mut Bench, handles: &[u32]) -> anyhow::Result<()> {
        self.attach_each(bench, handles)?;
        let mut place = 0;
        for number in 0..self.plan.count {
            let handle = handles.get(place as usize).copied().unwrap_or(0);
            self.give_through(bench, handle, number)?;
            self.pass(bench)?;
            place = self.scattered_after(place);
        }
        bench.take()
    }

    fn attach_each(&self, bench: &mut Bench, handles: &[u32]) -> anyhow::Result<()> {
        for handle in handles {
            self.give_link_at(bench, *handle)?;
            self.pass(bench)?;
        }
        bench.take()
    }

    /// A link comes at this handle, which its name tells.
    fn give_link_at(&self, bench: &mut Bench, handle: u32) -> anyhow::Result<()> {
        let name = format!(in self.alloc; "link {handle}")?;
        bench.give(Input::AllocateIncomingLink(
            self.session(),
            name,
            Relay::Namer,
            InputHandle(handle),
        ))?;
        Ok(())
    }

    /// The delivery of this number comes through the link at a handle, and the peer settles it.
    fn give_through(&self, bench: &mut Bench, handle: u32, number: u32) -> anyhow::Result<()> {
        let frame = frames::transfer_at(self.alloc, self.channel, handle, number)?;
        bench.give(Input::Received(frame))?;
        self.give_peer_settled(bench, number)?;
        Ok(())
    }
}
