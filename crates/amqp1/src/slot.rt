//! A pointer that C keeps, under which an occupant lies or nothing.

ghost use Rattle.std.specs.Prelude.{◌≡◌, IsSome};
ghost use Rattle.std.specs.Coded.{coded_option};
ghost use Rattle.std.specs.declared.option.Option.{Option};
ghost use Rattle.std.specs.declared.option.Option.TheVariants.{None, Some};
ghost use Rattle.amqp1.specs.OccupantView.{OccupantView};
ghost use Rattle.amqp1.specs.contracts.occupant.Occupant.{the_row};
ghost use Rattle.amqp1.specs.Inner.Slot.{slot_owns};

use crate::occupant::Occupant;
use raw_box::RawBox;
use std::alloc::Global;
use std::marker::Model;

/// The pointer, and in `held` the occupant that lies under it. No field that C can read says whether one does.
#[repr(C)]
#[derive(Drop)]
pub struct Slot {
    at: *mut u8,
    alloc: Global,
    /// The occupant.
    pub ghost held: { Option OccupantView } by { coded_option the_row.coded },
}

impl Model for Slot {
    ghost also_owns = { λ s. slot_owns s.alloc s.at s.held };
}

impl Slot {
    /// A slot under which nothing lies.
    pub fn empty(alloc: Global) -> Slot
        ensures { result.held ≡ None }
    {
        Slot {
            at: std::ptr::null_mut(),
            alloc,
        }
    }

    /// The slot of an occupant, from what its box is made of.
    pub fn of(raw: RawBox<Occupant, Global>) -> Slot
        ensures { result.held ≡ Some raw.value }
    {
        let RawBox { at, alloc } = raw;
        Slot {
            at: at as *mut u8,
            alloc,
        }
    }

    /// What the box of the occupant is made of.
    pub fn into_raw(self) -> RawBox<Occupant, Global>
        requires { IsSome self.held }
        ensures { self.held ≡ Some result.value }
    {
        let Slot { at, alloc } = self;
        RawBox {
            at: at as *mut Occupant,
            alloc,
        }
    }
}
