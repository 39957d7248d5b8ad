//! The exports of settlement on a session's links, and of what goes: each is one call of the endpoint of a session.

ghost use Rattle.std.specs.Prelude.{◌≡◌, ◌<◌};
ghost use Rattle.amqp1.specs.declared.status.Status.TheVariants as status;
ghost use Rattle.amqp1.specs.LinkNumbers.{DisposesFor, ForgetsFor, LeavesAllFor, LeavesFor, RemovesFor, SettledFor, SettlesFor, is_set};
ghost use Rattle.amqp1.specs.Place.{DoesThere, Is};
ghost use Rattle.amqp1.specs.Reading.{role_of};

use crate::delivered::Unsettled;
use crate::place::Place;
use crate::status::Status;
use amqp_driver::PlainRelay;
use amqp_session::LinkRelay;
use std::alloc::Global;

/// Sends a disposition of deliveries, by `SessionEndpoint::settle`: `role` is this side's, 0 for the sender and 1 for the receiver. `NO_ENGINE` where nothing lies in the place.
#[unsafe(no_mangle)]
pub extern "C" fn amqp1_link_settle(
    alloc: Global,
    place: &mut Place,
    session: u32,
    role: u32,
    first: u32,
    last: u32,
    settled: u32,
    outcome: u8,
) -> i32
    ensures empty { place.old.full ≡ 0 → Is result status.NoEngine × (place.new.full ≡ 0) }
    ensures settled { 0 < place.old.full → (0 < place.new.full)
        × DoesThere place.old.slot.held result place.new.slot.held (λ o s o'. SettlesFor ⟦<PlainRelay as LinkRelay>⟧.gives session (role_of role) first last (is_set settled) outcome o s o') }
{
    let old = std::mem::replace(place, Place::empty(alloc));
    match old.into_occupant() {
        None => Status::NoEngine.number(),
        Some(mut occupant) => {
            let status = occupant.settle_for(session, role, first, last, settled, outcome);
            *place = Place::of(occupant);
            status.number()
        }
    }
}

/// Sends a disposition of any state, by `SessionEndpoint::settle_by`: `disposition` is PERF of it. `NO_ENGINE` where nothing lies in the place.
#[unsafe(no_mangle)]
pub extern "C" fn amqp1_link_dispose(
    alloc: Global,
    place: &mut Place,
    session: u32,
    disposition: &[u8],
) -> i32
    ensures empty { place.old.full ≡ 0 → Is result status.NoEngine × (place.new.full ≡ 0) }
    ensures settled { 0 < place.old.full → (0 < place.new.full)
        × DoesThere place.old.slot.held result place.new.slot.held (λ o s o'. DisposesFor ⟦<PlainRelay as LinkRelay>⟧.gives session disposition.now o s o') }
{
    let old = std::mem::replace(place, Place::empty(alloc));
    match old.into_occupant() {
        None => Status::NoEngine.number(),
        Some(mut occupant) => {
            let status = occupant.dispose_for(session, disposition);
            *place = Place::of(occupant);
            status.number()
        }
    }
}

/// Takes out the oldest unsettled delivery of a range, which is settled, by `SessionEndpoint::settled_next`. It goes to `told`. `NO_ENGINE`, and nothing is written, where nothing lies in the place.
#[unsafe(no_mangle)]
pub extern "C" fn amqp1_link_settled(
    alloc: Global,
    place: &mut Place,
    session: u32,
    role: u32,
    first: u32,
    last: u32,
    told: &mut Unsettled,
) -> i32
    ensures empty { place.old.full ≡ 0 → Is result status.NoEngine × (place.new.full ≡ 0) × (told.new ≡ told.old) }
    ensures given { 0 < place.old.full → (0 < place.new.full)
        × DoesThere place.old.slot.held result place.new.slot.held (λ o s o'. SettledFor session (role_of role) first last told.old o s told.new o') }
{
    let old = std::mem::replace(place, Place::empty(alloc));
    match old.into_occupant() {
        None => Status::NoEngine.number(),
        Some(mut occupant) => {
            let status = occupant.settled_for(session, role, first, last, told);
            *place = Place::of(occupant);
            status.number()
        }
    }
}

/// Takes out the oldest delivery that is left on a link, by `SessionEndpoint::left_next`. It goes to `told`. `NO_ENGINE`, and nothing is written, where nothing lies in the place.
#[unsafe(no_mangle)]
pub extern "C" fn amqp1_link_left(
    alloc: Global,
    place: &mut Place,
    session: u32,
    link: u32,
    told: &mut Unsettled,
) -> i32
    ensures empty { place.old.full ≡ 0 → Is result status.NoEngine × (place.new.full ≡ 0) × (told.new ≡ told.old) }
    ensures given { 0 < place.old.full → (0 < place.new.full)
        × DoesThere place.old.slot.held result place.new.slot.held (λ o s o'. LeavesFor ⟦<PlainRelay as LinkRelay>⟧.gives session link told.old o s told.new o') }
{
    let old = std::mem::replace(place, Place::empty(alloc));
    match old.into_occupant() {
        None => Status::NoEngine.number(),
        Some(mut occupant) => {
            let status = occupant.left_for(session, link, told);
            *place = Place::of(occupant);
            status.number()
        }
    }
}

/// Takes out the oldest delivery that is left in a session which is over, by `SessionEndpoint::left_of_sent` or `left_of_received`. It goes to `told`. `NO_ENGINE`, and nothing is written, where nothing lies in the place.
#[unsafe(no_mangle)]
pub extern "C" fn amqp1_link_left_of(
    alloc: Global,
    place: &mut Place,
    session: u32,
    role: u32,
    told: &mut Unsettled,
) -> i32
    ensures empty { place.old.full ≡ 0 → Is result status.NoEngine × (place.new.full ≡ 0) × (told.new ≡ told.old) }
    ensures given { 0 < place.old.full → (0 < place.new.full)
        × DoesThere place.old.slot.held result place.new.slot.held (λ o s o'. LeavesAllFor session (role_of role) told.old o s told.new o') }
{
    let old = std::mem::replace(place, Place::empty(alloc));
    match old.into_occupant() {
        None => Status::NoEngine.number(),
        Some(mut occupant) => {
            let status = occupant.left_of_for(session, role, told);
            *place = Place::of(occupant);
            status.number()
        }
    }
}

/// Takes a link away that is over, by `SessionEndpoint::remove`. `NO_ENGINE` where nothing lies in the place.
#[unsafe(no_mangle)]
pub extern "C" fn amqp1_link_remove(
    alloc: Global,
    place: &mut Place,
    session: u32,
    link: u32,
) -> i32
    ensures empty { place.old.full ≡ 0 → Is result status.NoEngine × (place.new.full ≡ 0) }
    ensures removed { 0 < place.old.full → (0 < place.new.full)
        × DoesThere place.old.slot.held result place.new.slot.held (λ o s o'. RemovesFor session link o s o') }
{
    let old = std::mem::replace(place, Place::empty(alloc));
    match old.into_occupant() {
        None => Status::NoEngine.number(),
        Some(mut occupant) => {
            let status = occupant.remove_for(session, link);
            *place = Place::of(occupant);
            status.number()
        }
    }
}

/// Lets the links of a session go: what is unsettled on them is not told any more. `NO_ENGINE` where nothing lies in the place.
#[unsafe(no_mangle)]
pub extern "C" fn amqp1_link_forget(alloc: Global, place: &mut Place, session: u32) -> i32
    ensures empty { place.old.full ≡ 0 → Is result status.NoEngine × (place.new.full ≡ 0) }
    ensures forgotten { 0 < place.old.full → (0 < place.new.full)
        × DoesThere place.old.slot.held result place.new.slot.held (λ o s o'. ForgetsFor session o s o') }
{
    let old = std::mem::replace(place, Place::empty(alloc));
    match old.into_occupant() {
        None => Status::NoEngine.number(),
        Some(mut occupant) => {
            let status = occupant.forget_for(session);
            *place = Place::of(occupant);
            status.number()
        }
    }
}
