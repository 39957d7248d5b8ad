//! What C keeps: a slot, and whether an occupant lies there.

ghost use Rattle.std.specs.Prelude.{◌≡◌, ◌<◌, IsSome, IsNone, IsSomeAnd, Some};

use crate::occupant::Occupant;
use crate::slot::Slot;
use raw_box::RawBox;
use std::alloc::Global;

/// The place, as `amqp1.h` declares it. All of it is zero before the first call.
#[repr(C)]
pub struct Place {
    /// 0 where nothing lies here. It tells the code what `slot.held` tells the proofs, so that no pointer is compared.
    pub full: u32,
    /// The occupant, if one lies here.
    pub slot: Slot,
    /// What the number says of the slot.
    pub ghost filled: { 0 < full → IsSome slot.held },
}

impl Drop for Place {
    fn drop(self) {
        drop(self.into_occupant());
    }
}

impl Place {
    /// A place where nothing lies.
    pub fn empty(alloc: Global) -> Place
        ensures { result.full ≡ 0 }
    {
        Place {
            full: 0,
            slot: Slot::empty(alloc),
        }
    }

    /// The place where this occupant lies.
    pub fn of(occupant: Box<Occupant>) -> Place
        ensures full { result.full ≡ 1 }
        ensures held { result.slot.held ≡ Some occupant.value }
    {
        Place {
            full: 1,
            slot: Slot::of(RawBox::of(occupant)),
        }
    }

    /// The occupant, if one lies here.
    pub fn into_occupant(self) -> Option<Box<Occupant>>
        ensures none { self.full ≡ 0 → IsNone result }
        ensures some { 0 < self.full → IsSomeAnd result (λ b. self.slot.held ≡ Some b.value) }
    {
        let Place { full, slot } = self;
        if full == 0 {
            drop(slot);
            return None;
        }
        Some(slot.into_raw().into_box())
    }
}
