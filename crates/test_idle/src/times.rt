//! Clocks that jump, go back, or come to the end of 64 bits.

use crate::calls::ticks;
use crate::same::{holds, same};
use amqp_idle::{Due, IdleClock};
use std::test::Fail;

const LAST: u64 = 18_446_744_073_709_551_615;

#[test]
fn a_clock_jumps_far_forward(rt: HostRuntime) -> Result<(), Fail> {
    let mut clock = IdleClock::new(0, Some(10));
    let mut silent = IdleClock::new(0, None);
    let mut beating = IdleClock::new(0, None);
    holds(&rt, silent.opened(1, Some(60_000), Some(30_000)));
    holds(&rt, beating.opened(1, None, Some(30_000)));
    ticks(&rt, &mut clock, LAST, Due::OpeningLate, None);
    ticks(&rt, &mut silent, LAST, Due::PeerSilent, None);
    ticks(&rt, &mut beating, LAST, Due::Beat, None);
    ticks(&rt, &mut beating, LAST, Due::Nothing, None);
    ticks(&rt, &mut beating, 0, Due::Nothing, None);
    holds(&rt, !beating.is_over());
    Ok(())
}

#[test]
fn a_time_that_is_earlier_counts_as_the_latest_one(rt: HostRuntime) -> Result<(), Fail> {
    let mut clock = IdleClock::new(1_000, Some(500));
    ticks(&rt, &mut clock, 0, Due::Nothing, Some(1_500));
    holds(&rt, clock.opened(10, Some(100), Some(100)));
    same(&rt, clock.next(), Some(1_050));
    clock.sent(1_020);
    clock.received(7);
    same(&rt, clock.next(), Some(1_070));
    ticks(&rt, &mut clock, 1_070, Due::Beat, Some(1_120));
    clock.sent(3);
    ticks(&rt, &mut clock, 1_069, Due::Nothing, Some(1_120));
    ticks(&rt, &mut clock, 1_120, Due::PeerSilent, None);
    Ok(())
}

#[test]
fn nothing_wraps_at_the_end(rt: HostRuntime) -> Result<(), Fail> {
    let mut opening = IdleClock::new(LAST - 4, Some(5));
    same(&rt, opening.next(), None);
    ticks(&rt, &mut opening, LAST, Due::Nothing, None);
    holds(&rt, opening.opened(LAST, Some(1), Some(1)));
    ticks(&rt, &mut opening, LAST, Due::Nothing, None);
    let mut clock = IdleClock::new(LAST - 10, Some(10));
    same(&rt, clock.next(), Some(LAST));
    holds(&rt, clock.opened(LAST - 10, Some(11), Some(20)));
    same(&rt, clock.next(), Some(LAST));
    ticks(&rt, &mut clock, LAST, Due::Beat, None);
    clock.sent(LAST);
    clock.received(LAST);
    ticks(&rt, &mut clock, LAST, Due::Nothing, None);
    Ok(())
}

#[test]
fn a_thousand_beats_come_when_they_were_said(rt: HostRuntime) -> Result<(), Fail> {
    let mut clock = IdleClock::new(0, None);
    holds(&rt, clock.opened(0, Some(10_001), Some(20_000)));
    let mut now = 0;
    for beats in 1..1_001u64 {
        now = clock.next().unwrap_or(0);
        same(&rt, now, beats * 10_000);
        ticks(&rt, &mut clock, now, Due::Beat, Some(now.wrapping_add(1)));
        clock.received(now);
    }
    same(&rt, now, 10_000_000);
    Ok(())
}
