//! Each call once, with the values that it gives.

use crate::same::{holds, same};
use amqp_idle::{Due, IdleClock, Tick};
use std::process::Abort;
use std::test::Fail;

/// Stops the test where a tick does not answer this.
pub fn ticks(rt: &impl Abort, clock: &mut IdleClock, now: u64, due: Due, next: Option<u64>) {
    same(rt, clock.tick(now), Tick { due, next });
}

#[test]
fn a_connection_opens_and_beats(rt: HostRuntime) -> Result<(), Fail> {
    let mut clock = IdleClock::new(1_000, Some(10_000));
    same(&rt, clock.next(), Some(11_000));
    ticks(&rt, &mut clock, 10_999, Due::Nothing, Some(11_000));
    holds(&rt, clock.opened(10_999, Some(60_000), Some(30_000)));
    same(&rt, clock.next(), Some(25_999));
    ticks(&rt, &mut clock, 25_998, Due::Nothing, Some(25_999));
    ticks(&rt, &mut clock, 25_999, Due::Beat, Some(40_999));
    clock.sent(30_000);
    same(&rt, clock.next(), Some(45_000));
    ticks(&rt, &mut clock, 40_999, Due::Nothing, Some(45_000));
    ticks(&rt, &mut clock, 45_000, Due::Beat, Some(60_000));
    ticks(&rt, &mut clock, 60_500, Due::Beat, Some(70_999));
    holds(&rt, !clock.is_over());
    Ok(())
}

#[test]
fn a_peer_falls_silent(rt: HostRuntime) -> Result<(), Fail> {
    let mut clock = IdleClock::new(0, None);
    holds(&rt, clock.opened(5, Some(1_000), None));
    same(&rt, clock.next(), Some(1_005));
    clock.received(700);
    clock.sent(1_500);
    ticks(&rt, &mut clock, 1_699, Due::Nothing, Some(1_700));
    holds(&rt, !clock.is_over());
    ticks(&rt, &mut clock, 1_700, Due::PeerSilent, None);
    holds(&rt, clock.is_over());
    ticks(&rt, &mut clock, 9_000, Due::Nothing, None);
    clock.received(9_001);
    clock.sent(9_002);
    holds(&rt, !clock.opened(9_003, Some(1), Some(1)));
    same(&rt, clock.next(), None);
    ticks(&rt, &mut clock, 99_000, Due::Nothing, None);
    Ok(())
}

#[test]
fn an_opening_is_late(rt: HostRuntime) -> Result<(), Fail> {
    let mut clock = IdleClock::new(100, Some(50));
    clock.sent(120);
    clock.received(140);
    ticks(&rt, &mut clock, 149, Due::Nothing, Some(150));
    ticks(&rt, &mut clock, 150, Due::OpeningLate, None);
    holds(&rt, clock.is_over());
    holds(&rt, !clock.opened(151, Some(10), Some(10)));
    ticks(&rt, &mut clock, 1_000, Due::Nothing, None);
    Ok(())
}

#[test]
fn a_second_opening_changes_nothing(rt: HostRuntime) -> Result<(), Fail> {
    let mut clock = IdleClock::new(0, None);
    holds(&rt, clock.opened(0, None, Some(20)));
    holds(&rt, !clock.opened(5, Some(2), Some(2)));
    same(&rt, clock.next(), Some(10));
    ticks(&rt, &mut clock, 3, Due::Nothing, Some(10));
    Ok(())
}

#[test]
fn silence_is_told_where_a_beat_is_due_too(rt: HostRuntime) -> Result<(), Fail> {
    let mut clock = IdleClock::new(0, Some(1));
    holds(&rt, clock.opened(0, Some(10), Some(20)));
    ticks(&rt, &mut clock, 10, Due::PeerSilent, None);
    Ok(())
}
