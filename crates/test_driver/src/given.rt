//! What the tests start from: a driver, and how it is fed.

use amqp_connection::SessionNo;
use amqp_driver::{Driver, PlainRelay, Record, Status};
use amqp_engine::{Input, Refusal};
use amqp_events::Policy;
use amqp_session::SessionSettings;
use amqp_session::keys::KeyHash;
use amqp_types::{ConnectionState, Open, ReceiverSettleMode, Role};
use std::alloc::{AllocError, Global};
use std::collections::VecDeque;
use std::test::Fail;

/// A driver whose links have relays without a sink.
pub type PlainDriver = Driver<PlainRelay>;

/// An input of such a driver.
type PlainInput = Input<PlainRelay>;

fn text(alloc: Global, text: &str) -> Result<String, AllocError> {
    String::from_str(alloc, text)
}

/// The request of a link of session 6, of this side in this role.
fn link(alloc: Global, name: &str, role: Role) -> Result<PlainInput, AllocError> {
    let relay = PlainRelay::new(Policy::new(role, ReceiverSettleMode::First));
    Ok(Input::AllocateLink(SessionNo(6), text(alloc, name)?, Some(relay)))
}

/// Runs the inputs: whether all were accepted.
fn run(alloc: Global, driver: &mut PlainDriver, inputs: &mut VecDeque<PlainInput>) -> bool {
    let mut refusals: Vec<Refusal> = Vec::new(alloc);
    let ran = driver.run(inputs, &mut refusals).is_ok();
    let none = refusals.is_empty();
    drop(refusals);
    ran && none
}

/// A driver that requested an Open, and two sessions: 4 on channel 0, and 6 on channel 1.
pub fn opened(alloc: Global) -> Result<PlainDriver, Fail> {
    let open = Open::new(text(alloc, "me")?);
    let mut driver: PlainDriver = Driver::new(
        alloc,
        KeyHash::Fixed,
        ConnectionState::HeaderExchange,
        open,
    );
    let mut inputs = VecDeque::new(alloc);
    inputs.push_back(Input::Open)?;
    inputs.push_back(Input::Begin(SessionNo(4), SessionSettings::new()))?;
    inputs.push_back(Input::Begin(SessionNo(6), SessionSettings::new()))?;
    if !run(alloc, &mut driver, &mut inputs) {
        return Err(Fail::new("a request was refused"));
    }
    Ok(driver)
}

/// Requests the links of session 6: handle 0 for the one that receives, and 1 for the one that sends.
pub fn link_up(alloc: Global, driver: &mut PlainDriver) -> Result<(), Fail> {
    let mut inputs = VecDeque::new(alloc);
    inputs.push_back(link(alloc, "py-rcv", Role::Receiver)?)?;
    inputs.push_back(link(alloc, "py-snd", Role::Sender)?)?;
    if !run(alloc, driver, &mut inputs) {
        return Err(Fail::new("a request was refused"));
    }
    Ok(())
}

/// A record whose places are those of an input in which its own begins here.
fn moved(record: &Record, at: usize) -> Record {
    let by = u32::try_from(at).unwrap_or(0);
    Record {
        at: record.at.wrapping_add(by),
        payload_at: record.payload_at.wrapping_add(by),
        ..*record
    }
}

/// Appends the first records, moved so.
fn push(
    found: &mut Vec<Record>,
    records: &[Record],
    written: usize,
    at: usize,
) -> Result<(), AllocError> {
    for (i, record) in records.iter().enumerate() {
        if i < written {
            found.push(moved(record, at))?;
        }
    }
    Ok(())
}

/// Takes what stands behind a place, by three records at once, and appends them. Up to which place it was taken.
fn take(
    driver: &mut PlainDriver,
    input: &[u8],
    from: usize,
    found: &mut Vec<Record>,
) -> Result<usize, AllocError> {
    let mut records = [Record::empty(); 3];
    let mut at = from;
    for _ in 0..64 {
        let Some(rest) = input.get(at..) else {
            return Ok(at);
        };
        let taken = driver.take(rest, &mut records);
        push(found, &records, taken.written, at)?;
        at = at.saturating_add(taken.taken);
        if taken.status != Status::Full {
            return Ok(at);
        }
    }
    Ok(at)
}

/// Takes the input as it comes, so many bytes at once, and appends the records. Up to which place it was taken.
pub fn feed(
    driver: &mut PlainDriver,
    input: &[u8],
    size: usize,
    found: &mut Vec<Record>,
) -> Result<usize, AllocError> {
    let mut at = 0;
    let mut come = 0;
    for end in 0..=input.len() {
        if come == size || end == input.len() {
            at = take(driver, &input[..end], at, found)?;
            come = 0;
        }
        come = usize::saturating_add(come, 1);
    }
    Ok(at)
}
