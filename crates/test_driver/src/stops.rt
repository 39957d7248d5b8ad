//! Why a call stops, and what is to be sent.

use crate::given::opened;
use crate::received::INPUT;
use crate::same::{holds, same};
use amqp_driver::{Record, Status, Taken, kind, refusal_number};
use amqp_engine::StepError;
use amqp_session::SessionInnerError;
use amqp_types::ConnectionState;
use std::alloc::Global;
use std::test::Fail;

/// What a call takes of these bytes, with so many records of eight.
fn taken(
    alloc: Global,
    input: &[u8],
    places: usize,
) -> Result<(Taken, Record, ConnectionState), Fail> {
    let mut driver = opened(alloc)?;
    let mut records = [Record::empty(); 8];
    let taken = match records.get_mut(..places) {
        Some(records) => driver.take(input, records),
        None => driver.take(input, &mut []),
    };
    let state = *driver.engine().connection().local_state();
    drop(driver);
    Ok((taken, records[0], state))
}

/// An answer of this status.
fn stopped(status: Status, taken: usize, written: usize, wanted: usize) -> Taken {
    Taken {
        status,
        taken,
        written,
        wanted,
    }
}

#[test]
fn at_a_part_of_a_frame(rt: HostRuntime) -> Result<(), Fail> {
    let rows: [(usize, Taken); 6] = [
        (0, stopped(Status::Done, 0, 0, 4)),
        (3, stopped(Status::Done, 0, 0, 4)),
        (4, stopped(Status::Done, 0, 0, 38)),
        (37, stopped(Status::Done, 0, 0, 38)),
        (38, stopped(Status::Done, 38, 1, 4)),
        (44, stopped(Status::Done, 38, 1, 25)),
    ];
    for (len, want) in rows {
        let (found, _, _) = taken(rt.alloc(), &INPUT[..len.min(INPUT.len())], 8)?;
        same(&rt, (len, found), (len, want));
    }
    Ok(())
}

#[test]
fn where_the_records_are_full(rt: HostRuntime) -> Result<(), Fail> {
    let (found, record, state) = taken(rt.alloc(), &INPUT, 1)?;
    same(&rt, found, stopped(Status::Full, 38, 1, 0));
    same(&rt, record.kind, kind::OPENED);
    same(&rt, state, ConnectionState::Opened);
    let (none, record, state) = taken(rt.alloc(), &INPUT, 0)?;
    same(&rt, none, stopped(Status::Full, 0, 0, 0));
    same(&rt, record.kind, 0);
    same(&rt, state, ConnectionState::OpenSent);
    Ok(())
}

#[test]
fn at_a_size_that_no_frame_has(rt: HostRuntime) -> Result<(), Fail> {
    let (small, _, _) = taken(rt.alloc(), &[0, 0, 0, 8, 2, 0, 0, 0, 0, 0, 0, 7], 8)?;
    same(&rt, small, stopped(Status::BadSize, 8, 0, 0));
    let (whole, record, _) = taken(rt.alloc(), &[0, 0, 0, 8, 3, 0, 0, 0], 8)?;
    same(&rt, whole, stopped(Status::Done, 8, 1, 4));
    same(&rt, (record.kind, record.refusal), (kind::REFUSED, 13));
    Ok(())
}

#[test]
fn what_is_to_be_sent(rt: HostRuntime) -> Result<(), Fail> {
    let mut driver = opened(rt.alloc())?;
    let first = driver.out().len();
    let is_open = driver.out().get(8..11) == Some([0x00, 0x53, 0x10].as_slice());
    driver.sent(first);
    let second = driver.out().len();
    drop(driver);
    holds(&rt, is_open && first > second);
    Ok(())
}

#[test]
fn numbers_of_refusals(rt: HostRuntime) {
    same(&rt, refusal_number(&StepError::NoSession), 2);
    let unattached = StepError::Session(SessionInnerError::UnattachedHandle);
    let number = refusal_number(&unattached);
    drop(unattached);
    same(&rt, number, 61);
}
