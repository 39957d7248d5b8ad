//! The exports.

ghost use Rattle.std.specs.Prelude.{◌≡◌, ◌<◌, ◌⊎◌, Some};
ghost use Rattle.amqp_memory.specs.Refusal.{SomeRefused};
ghost use Rattle.amqp1.specs.declared.status.Status.TheVariants as status;
ghost use Rattle.amqp1.specs.Place.{AnswersThere, CallsThere, CutsThere, HearsThere, Is, MadeThere, SendsThere, TakesThere, TicksThere};
ghost use Rattle.amqp1.specs.Ticking.{due_number, next_number, ticked_of};

use crate::client::Client;
use crate::how::How;
use crate::key::hash_of;
use crate::logins::LoginHead;
use crate::occupant::Occupant;
use crate::place::Place;
use crate::status::Status;
use amqp_driver::{Cut, PlainRelay, Record, Sent, TransferHead};
use amqp_idle::{Due, Tick};
use amqp_memory::boxed;
use amqp_session::LinkRelay;
use std::alloc::Global;

/// 0.1.0: the major number times 65536, and the minor one times 256, and the patch.
const VERSION: u32 = 256;

/// What `amqp1_take` took: bytes, and records that it wrote; and how many bytes the next frame has, where a part of it is left.
#[repr(C)]
#[derive(Drop)]
pub struct Took {
    /// How many bytes were taken: whole frames.
    pub taken: usize,
    /// How many records were written.
    pub written: usize,
    /// Where the status is `DONE`: how many bytes the next frame has, and 4 where its size is not whole. Else 0.
    pub wanted: usize,
}

/// What `amqp1_tick` answers, in 16 bytes without padding.
#[repr(C)]
#[derive(Drop)]
pub struct Ticked {
    /// When the next tick is wanted, in milliseconds of the caller's clock. 18446744073709551615 where none is.
    pub next: u64,
    /// What was due, and is done: 0 nothing, 1 an empty frame, 2 the opening is late, 3 the peer is silent.
    pub due: u32,
    /// 0.
    pub reserved: u32,
}

/// What `amqp1_send` took.
#[repr(C)]
#[derive(Drop)]
pub struct Went {
    /// How many transfers were taken: so many of the heads, and so many places of `sent` were written.
    pub taken: usize,
    /// How many of the bytes they have.
    pub used: usize,
}

/// The version of the library.
#[unsafe(no_mangle)]
pub extern "C" fn amqp1_version() -> u32
    ensures { result ≡ 256 }
{
    VERSION
}

/// Makes a client in a place where nothing lies, by `Client::new`. `BAD_ARGUMENT` where one lies there already.
#[unsafe(no_mangle)]
pub extern "C" fn amqp1_new(
    alloc: Global,
    place: &mut Place,
    how: &How,
    open_bytes: &[u8],
    logins: &[LoginHead],
    bytes: &[u8],
) -> i32
    ensures taken { 0 < place.old.full → Is result status.BadArgument × (place.new ≡ place.old) }
    ensures made { place.old.full ≡ 0 →
        MadeThere ⟦<PlainRelay as LinkRelay>⟧.gives how.now open_bytes.now logins.now bytes.now result place.new.full place.new.slot.held }
{
    if place.full != 0 {
        return Status::BadArgument.number();
    }
    match Client::new(alloc, how, open_bytes, logins, bytes) {
        Ok(client) => put(
            alloc,
            place,
            Occupant::new(alloc, client, hash_of(&how.key)),
        ),
        Err(status) => status,
    }
}

/// Puts an occupant into a place where nothing lies, or lets it go where there is no memory for its box.
fn put(alloc: Global, place: &mut Place, occupant: Occupant) -> i32
    requires { place.old.full ≡ 0 }
    ensures { (Is result status.Done × (place.new.full ≡ 1) × (place.new.slot.held ≡ Some occupant))
        ⊎ (Is result status.NoMemory × (place.new.full ≡ 0) × SomeRefused) }
{
    match boxed(alloc, occupant) {
        Ok(boxed) => {
            *place = Place::of(boxed);
            Status::Done.number()
        }
        Err(failed) => {
            drop(failed);
            Status::NoMemory.number()
        }
    }
}

/// Has the client that lies in the place do one operation, by `Client::call`. `NO_ENGINE`, and nothing is written, where none lies there.
#[unsafe(no_mangle)]
pub extern "C" fn amqp1_call(
    alloc: Global,
    place: &mut Place,
    operation: u32,
    input: &[u8],
    output: &mut [u8],
    written: &mut usize,
) -> i32
    ensures empty { place.old.full ≡ 0 →
        Is result status.NoEngine × (place.new.full ≡ 0) × (output.new ≡ output.old) × (written.new ≡ written.old) }
    ensures called { 0 < place.old.full → (0 < place.new.full)
        × CallsThere ⟦<PlainRelay as LinkRelay>⟧.gives operation place.old.slot.held input.now output.old
        result written.new place.new.slot.held output.new }
{
    let old = std::mem::replace(place, Place::empty(alloc));
    match old.into_occupant() {
        None => Status::NoEngine.number(),
        Some(mut occupant) => {
            let (status, length) = occupant.call(operation, input, output);
            *written = length;
            *place = Place::of(occupant);
            status
        }
    }
}

/// Takes what came at this time, by `Stream::take`: a header, a SASL frame, or whole frames, of which each is run once, in order; and writes a
/// record of each. What it took goes to `answer`. `NO_ENGINE`, and nothing is written, where no client lies in the place.
#[unsafe(no_mangle)]
pub extern "C" fn amqp1_take(
    alloc: Global,
    place: &mut Place,
    now: u64,
    input: &[u8],
    records: &mut [Record],
    answer: &mut Took,
) -> i32
    ensures empty { place.old.full ≡ 0 →
        Is result status.NoEngine × (place.new.full ≡ 0) × (records.new ≡ records.old) × (answer.new ≡ answer.old) }
    ensures taken { 0 < place.old.full → (0 < place.new.full)
        × TakesThere ⟦<PlainRelay as LinkRelay>⟧.gives place.old.slot.held now input.now records.old
        result answer.new place.new.slot.held records.new }
{
    let old = std::mem::replace(place, Place::empty(alloc));
    match old.into_occupant() {
        None => Status::NoEngine.number(),
        Some(mut occupant) => {
            let took = occupant.take(now, input, records);
            answer.taken = took.taken;
            answer.written = took.written;
            answer.wanted = took.wanted;
            *place = Place::of(occupant);
            Status::of_driver(took.status).number()
        }
    }
}

/// Gives what a record asks for that `amqp1_take` wrote, of the answers that `flags` names, by `Stream::answer`: `input` is the one of that call, and
/// `number` that of a session that begins. What became of it is the status. `NO_ENGINE` where no client lies in the place.
#[unsafe(no_mangle)]
pub extern "C" fn amqp1_answer(
    alloc: Global,
    place: &mut Place,
    record: &Record,
    input: &[u8],
    flags: u16,
    number: u32,
) -> i32
    ensures empty { place.old.full ≡ 0 → Is result status.NoEngine × (place.new.full ≡ 0) }
    ensures answered { 0 < place.old.full → (0 < place.new.full)
        × AnswersThere ⟦<PlainRelay as LinkRelay>⟧.gives place.old.slot.held flags number «record».now input.now result place.new.slot.held }
{
    let old = std::mem::replace(place, Place::empty(alloc));
    match old.into_occupant() {
        None => Status::NoEngine.number(),
        Some(mut occupant) => {
            let status = occupant.answer(record, input, flags, number);
            *place = Place::of(occupant);
            status.number()
        }
    }
}

/// Tells that bytes came at this time, though none of them are taken yet, by `Stream::heard`. `NO_ENGINE` where no client lies in the place.
#[unsafe(no_mangle)]
pub extern "C" fn amqp1_heard(alloc: Global, place: &mut Place, now: u64) -> i32
    ensures empty { place.old.full ≡ 0 → Is result status.NoEngine × (place.new.full ≡ 0) }
    ensures heard { 0 < place.old.full → (0 < place.new.full) × HearsThere place.old.slot.held now result place.new.slot.held }
{
    let old = std::mem::replace(place, Place::empty(alloc));
    match old.into_occupant() {
        None => Status::NoEngine.number(),
        Some(mut occupant) => {
            occupant.heard(now);
            *place = Place::of(occupant);
            Status::Done.number()
        }
    }
}

/// What was due, as a number.
fn due_number(due: Due) -> u32
    ensures { result ≡ due_number due }
{
    match due {
        Due::Nothing => 0,
        Due::Beat => 1,
        Due::OpeningLate => 2,
        Due::PeerSilent => 3,
    }
}

/// When the next tick is wanted, as a number.
fn next_number(next: Option<u64>) -> u64
    ensures { result ≡ next_number next }
{
    match next {
        Some(time) => time,
        None => u64::MAX,
    }
}

/// What a tick answers, in numbers.
fn ticked_of(tick: Tick) -> Ticked
    ensures { result ≡ ticked_of tick }
{
    Ticked {
        next: next_number(tick.next),
        due: due_number(tick.due),
        reserved: 0,
    }
}

/// Tells the time, and does what is due, by `Stream::tick`. What that was, and when the next tick is wanted, goes to `answer`. `NO_ENGINE`, and
/// nothing is written, where no client lies in the place.
#[unsafe(no_mangle)]
pub extern "C" fn amqp1_tick(alloc: Global, place: &mut Place, now: u64, answer: &mut Ticked) -> i32
    ensures empty { place.old.full ≡ 0 →
        Is result status.NoEngine × (place.new.full ≡ 0) × (answer.new ≡ answer.old) }
    ensures ticked { 0 < place.old.full → (0 < place.new.full)
        × TicksThere ⟦<PlainRelay as LinkRelay>⟧.gives place.old.slot.held now result answer.new place.new.slot.held }
{
    let old = std::mem::replace(place, Place::empty(alloc));
    match old.into_occupant() {
        None => Status::NoEngine.number(),
        Some(mut occupant) => {
            let tick = occupant.tick(now);
            *answer = ticked_of(tick);
            *place = Place::of(occupant);
            Status::Done.number()
        }
    }
}

/// Sends transfers by their heads, and writes what became of each, by `Stream::send`. What it took goes to `answer`. `NO_ENGINE`, and nothing is
/// written, where no client lies in the place.
#[unsafe(no_mangle)]
pub extern "C" fn amqp1_send(
    alloc: Global,
    place: &mut Place,
    heads: &[TransferHead],
    bytes: &[u8],
    sent: &mut [Sent],
    answer: &mut Went,
) -> i32
    ensures empty { place.old.full ≡ 0 →
        Is result status.NoEngine × (place.new.full ≡ 0) × (sent.new ≡ sent.old) × (answer.new ≡ answer.old) }
    ensures sent { 0 < place.old.full → (0 < place.new.full)
        × SendsThere ⟦<PlainRelay as LinkRelay>⟧.gives place.old.slot.held heads.now bytes.now sent.old
        result answer.new place.new.slot.held sent.new }
{
    let old = std::mem::replace(place, Place::empty(alloc));
    match old.into_occupant() {
        None => Status::NoEngine.number(),
        Some(mut occupant) => {
            let went = occupant.post(heads, bytes, sent);
            answer.taken = went.taken;
            answer.used = went.used;
            *place = Place::of(occupant);
            Status::of_driver(went.status).number()
        }
    }
}

/// Cuts a head whose payload is longer than a frame, by `Driver::cut`: what comes of it goes to `answer`. `NO_MEMORY`, and nothing is written, where
/// memory was refused for a copy of the tag. `NO_ENGINE`, and nothing is written, where no client lies in the place.
#[unsafe(no_mangle)]
pub extern "C" fn amqp1_cut(
    alloc: Global,
    place: &mut Place,
    head: &TransferHead,
    bytes: &[u8],
    answer: &mut Cut,
) -> i32
    ensures empty { place.old.full ≡ 0 →
        Is result status.NoEngine × (place.new.full ≡ 0) × (answer.new ≡ answer.old) }
    ensures cut { 0 < place.old.full → (0 < place.new.full)
        × CutsThere place.old.slot.held head.now bytes.now answer.old result answer.new place.new.slot.held }
{
    let old = std::mem::replace(place, Place::empty(alloc));
    match old.into_occupant() {
        None => Status::NoEngine.number(),
        Some(occupant) => {
            let cut = occupant.cut(head, bytes);
            *place = Place::of(occupant);
            let Ok(cut) = cut else {
                return Status::NoMemory.number();
            };
            *answer = cut;
            Status::Done.number()
        }
    }
}

/// Frees the client, if one lies in the place. Nothing does then.
#[unsafe(no_mangle)]
pub extern "C" fn amqp1_free(alloc: Global, place: &mut Place)
    ensures { place.new.full ≡ 0 }
{
    *place = Place::empty(alloc);
}
