//! The exports of links: each is one call of the endpoint of a session.

ghost use Rattle.std.specs.Prelude.{◌≡◌, ◌<◌};
ghost use Rattle.amqp1.specs.declared.status.Status.TheVariants as status;
ghost use Rattle.amqp1.specs.LinkNumbers.{AttachesFor, DetachesFor, DueFor, FlowsFor, RespondsFor, SendsFor, TellsFor, WantedFor, is_set, renewal_of, wish_at};
ghost use Rattle.amqp1.specs.Place.{DoesThere, Is};
ghost use Rattle.amqp1.specs.Occupant.{credit_at, links_of};

use crate::delivered::Delivered;
use crate::event::Event;
use crate::place::Place;
use crate::status::Status;
use amqp_driver::{PlainRelay, Record, TransferHead};
use amqp_session::LinkRelay;
use std::alloc::Global;

/// Attaches a link, by `SessionEndpoint::attach_under`: `attach` is PERF of its Attach, by which it is a sender's or a receiver's; a handle has been allotted to
/// `name`, or, where that is empty, to its own. A receiver renews its credit from `low` up to `high`, unless that is 0. The handle goes to `link`. `NO_ENGINE`, and nothing is written, where nothing lies in the place.
#[unsafe(no_mangle)]
pub extern "C" fn amqp1_link_attach(
    alloc: Global,
    place: &mut Place,
    session: u32,
    attach: &[u8],
    name: &[u8],
    low: u32,
    high: u32,
    link: &mut u32,
) -> i32
    ensures empty { place.old.full ≡ 0 → Is result status.NoEngine × (place.new.full ≡ 0) × (link.new ≡ link.old) }
    ensures attached { 0 < place.old.full → (0 < place.new.full)
        × DoesThere place.old.slot.held result place.new.slot.held (λ o s o'. AttachesFor ⟦<PlainRelay as LinkRelay>⟧.gives session attach.now name.now (renewal_of low high) link.old o s link.new o') }
{
    let old = std::mem::replace(place, Place::empty(alloc));
    match old.into_occupant() {
        None => Status::NoEngine.number(),
        Some(mut occupant) => {
            let status = occupant.attach_for(session, attach, name, low, high, link);
            *place = Place::of(occupant);
            status.number()
        }
    }
}

/// Tells the peer's Attach that came before this side's, as a record of its kind, to the link that answers it, by `SessionEndpoint::on_wanted`. What it
/// is to that goes to `event`. `NO_ENGINE`, and nothing is written, where nothing lies in the place.
#[unsafe(no_mangle)]
pub extern "C" fn amqp1_link_wanted(
    alloc: Global,
    place: &mut Place,
    record: &Record,
    link: u32,
    event: &mut Event,
) -> i32
    ensures empty { place.old.full ≡ 0 → Is result status.NoEngine × (place.new.full ≡ 0) × (event.new ≡ event.old) }
    ensures told { 0 < place.old.full → (0 < place.new.full)
        × DoesThere place.old.slot.held result place.new.slot.held (λ o s o'. WantedFor «record».now link event.old o s event.new o') }
{
    let old = std::mem::replace(place, Place::empty(alloc));
    match old.into_occupant() {
        None => Status::NoEngine.number(),
        Some(mut occupant) => {
            let status = occupant.wanted_for(record, link, event);
            *place = Place::of(occupant);
            status.number()
        }
    }
}

/// Tells a record to the links of its session, by `SessionEndpoint::on_record`. What it is to them goes to `event`; `given` is kept with an unsettled
/// delivery that begins by it. `NO_ENGINE`, and nothing is written, where nothing lies in the place.
#[unsafe(no_mangle)]
pub extern "C" fn amqp1_link_event(
    alloc: Global,
    place: &mut Place,
    record: &Record,
    given: u64,
    event: &mut Event,
) -> i32
    ensures empty { place.old.full ≡ 0 → Is result status.NoEngine × (place.new.full ≡ 0) × (event.new ≡ event.old) }
    ensures told { 0 < place.old.full → (0 < place.new.full)
        × DoesThere place.old.slot.held result place.new.slot.held (λ o s o'. TellsFor «record».now given event.old o s event.new o') }
{
    let old = std::mem::replace(place, Place::empty(alloc));
    match old.into_occupant() {
        None => Status::NoEngine.number(),
        Some(mut occupant) => {
            let status = occupant.tell_for(record, given, event);
            *place = Place::of(occupant);
            status.number()
        }
    }
}

/// Tells a link of a session of which a call was held back for the peer's window, and is due, by `SessionEndpoint::due_next`. It goes to `event`. `NO_ENGINE`, and
/// nothing is written, where nothing lies in the place.
#[unsafe(no_mangle)]
pub extern "C" fn amqp1_link_due(
    alloc: Global,
    place: &mut Place,
    session: u32,
    event: &mut Event,
) -> i32
    ensures empty { place.old.full ≡ 0 → Is result status.NoEngine × (place.new.full ≡ 0) × (event.new ≡ event.old) }
    ensures told { 0 < place.old.full → (0 < place.new.full)
        × DoesThere place.old.slot.held result place.new.slot.held (λ o s o'. DueFor session event.old o s event.new o') }
{
    let old = std::mem::replace(place, Place::empty(alloc));
    match old.into_occupant() {
        None => Status::NoEngine.number(),
        Some(mut occupant) => {
            let status = occupant.due_for(session, event);
            *place = Place::of(occupant);
            status.number()
        }
    }
}

/// Sends what a link owes for an event, by `SessionEndpoint::respond`. `NO_ENGINE` where nothing lies in the place.
#[unsafe(no_mangle)]
pub extern "C" fn amqp1_link_respond(
    alloc: Global,
    place: &mut Place,
    event: &Event,
    available: u32,
) -> i32
    ensures empty { place.old.full ≡ 0 → Is result status.NoEngine × (place.new.full ≡ 0) }
    ensures responded { 0 < place.old.full → (0 < place.new.full)
        × DoesThere place.old.slot.held result place.new.slot.held (λ o s o'. RespondsFor ⟦<PlainRelay as LinkRelay>⟧.gives event.now available o s o') }
{
    let old = std::mem::replace(place, Place::empty(alloc));
    match old.into_occupant() {
        None => Status::NoEngine.number(),
        Some(mut occupant) => {
            let status = occupant.respond_for(event, available);
            *place = Place::of(occupant);
            status.number()
        }
    }
}

/// Sends a flow of a link, by `SessionEndpoint::say`: `wish` is 0 to grant so much credit, 1 to drain, 2 to renew, 3 to answer where so many messages are
/// ready. `NO_ENGINE` where nothing lies in the place.
#[unsafe(no_mangle)]
pub extern "C" fn amqp1_link_flow(
    alloc: Global,
    place: &mut Place,
    session: u32,
    link: u32,
    wish: u32,
    number: u32,
) -> i32
    ensures empty { place.old.full ≡ 0 → Is result status.NoEngine × (place.new.full ≡ 0) }
    ensures sent { 0 < place.old.full → (0 < place.new.full)
        × DoesThere place.old.slot.held result place.new.slot.held (λ o s o'. FlowsFor ⟦<PlainRelay as LinkRelay>⟧.gives session link (wish_at wish number) o s o') }
{
    let old = std::mem::replace(place, Place::empty(alloc));
    match old.into_occupant() {
        None => Status::NoEngine.number(),
        Some(mut occupant) => {
            let status = occupant.flow_for(session, link, wish, number);
            *place = Place::of(occupant);
            status.number()
        }
    }
}

/// Sends a Detach of a link, by `SessionEndpoint::detach`: with the error of these bytes, or without one where there are none. `NO_ENGINE` where nothing lies in the place.
#[unsafe(no_mangle)]
pub extern "C" fn amqp1_link_detach(
    alloc: Global,
    place: &mut Place,
    session: u32,
    link: u32,
    closed: u32,
    error: &[u8],
) -> i32
    ensures empty { place.old.full ≡ 0 → Is result status.NoEngine × (place.new.full ≡ 0) }
    ensures detached { 0 < place.old.full → (0 < place.new.full)
        × DoesThere place.old.slot.held result place.new.slot.held (λ o s o'. DetachesFor ⟦<PlainRelay as LinkRelay>⟧.gives session link (is_set closed) error.now o s o') }
{
    let old = std::mem::replace(place, Place::empty(alloc));
    match old.into_occupant() {
        None => Status::NoEngine.number(),
        Some(mut occupant) => {
            let status = occupant.detach_for(session, link, closed, error);
            *place = Place::of(occupant);
            status.number()
        }
    }
}

/// Sends a transfer on a link, by `SessionEndpoint::send`. What became of it goes to `told`. `NO_ENGINE`, and nothing is written, where nothing lies in the place.
#[unsafe(no_mangle)]
pub extern "C" fn amqp1_link_send(
    alloc: Global,
    place: &mut Place,
    head: &TransferHead,
    bytes: &[u8],
    given: u64,
    told: &mut Delivered,
) -> i32
    ensures empty { place.old.full ≡ 0 → Is result status.NoEngine × (place.new.full ≡ 0) × (told.new ≡ told.old) }
    ensures sent { 0 < place.old.full → (0 < place.new.full)
        × DoesThere place.old.slot.held result place.new.slot.held (λ o s o'. SendsFor ⟦<PlainRelay as LinkRelay>⟧.gives head.now bytes.now given o s told.new o') }
{
    let old = std::mem::replace(place, Place::empty(alloc));
    match old.into_occupant() {
        None => Status::NoEngine.number(),
        Some(mut occupant) => {
            let status = occupant.send_for(head, bytes, given, told);
            *place = Place::of(occupant);
            status.number()
        }
    }
}

/// The credit of a link: how many deliveries this side may begin on it, or the peer may. It goes to `credit`, and is 0 where there is no such link. `NO_ENGINE`, and
/// nothing is written, where nothing lies in the place.
#[unsafe(no_mangle)]
pub extern "C" fn amqp1_link_credit(
    alloc: Global,
    place: &mut Place,
    session: u32,
    link: u32,
    credit: &mut u32,
) -> i32
    ensures empty { place.old.full ≡ 0 → Is result status.NoEngine × (place.new.full ≡ 0) × (credit.new ≡ credit.old) }
    ensures seen { 0 < place.old.full → (0 < place.new.full)
        × DoesThere place.old.slot.held result place.new.slot.held
        (λ o s o'. (s ≡ status.Done) × (o' ≡ o) × (credit.new ≡ credit_at (links_of o session) link)) }
{
    let old = std::mem::replace(place, Place::empty(alloc));
    match old.into_occupant() {
        None => Status::NoEngine.number(),
        Some(occupant) => {
            *credit = occupant.credit(session, link);
            *place = Place::of(occupant);
            Status::Done.number()
        }
    }
}
