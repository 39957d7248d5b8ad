//! Time-outs at the ends of their range, and none.

use crate::calls::ticks;
use crate::same::{holds, same};
use amqp_idle::{Due, IdleClock};
use std::test::Fail;

#[test]
fn a_time_out_of_one_millisecond(rt: HostRuntime) -> Result<(), Fail> {
    let mut clock = IdleClock::new(0, None);
    holds(&rt, clock.opened(0, Some(2), Some(1)));
    ticks(&rt, &mut clock, 0, Due::Nothing, Some(1));
    ticks(&rt, &mut clock, 1, Due::Beat, Some(2));
    clock.received(1);
    ticks(&rt, &mut clock, 2, Due::Beat, Some(3));
    ticks(&rt, &mut clock, 3, Due::PeerSilent, None);
    let mut other = IdleClock::new(0, None);
    holds(&rt, other.opened(0, Some(1), Some(3)));
    ticks(&rt, &mut other, 0, Due::Nothing, Some(1));
    ticks(&rt, &mut other, 1, Due::PeerSilent, None);
    Ok(())
}

#[test]
fn the_longest_time_out(rt: HostRuntime) -> Result<(), Fail> {
    let mut clock = IdleClock::new(10, Some(4_294_967_295));
    same(&rt, clock.next(), Some(4_294_967_305));
    holds(
        &rt,
        clock.opened(10, Some(4_294_967_295), Some(4_294_967_295)),
    );
    ticks(
        &rt,
        &mut clock,
        2_147_483_656,
        Due::Nothing,
        Some(2_147_483_657),
    );
    ticks(
        &rt,
        &mut clock,
        2_147_483_657,
        Due::Beat,
        Some(4_294_967_304),
    );
    ticks(
        &rt,
        &mut clock,
        4_294_967_304,
        Due::Beat,
        Some(4_294_967_305),
    );
    ticks(&rt, &mut clock, 4_294_967_305, Due::PeerSilent, None);
    Ok(())
}

#[test]
fn a_time_out_of_zero_is_none(rt: HostRuntime) -> Result<(), Fail> {
    let mut clock = IdleClock::new(0, None);
    same(&rt, clock.next(), None);
    ticks(&rt, &mut clock, 1_000_000, Due::Nothing, None);
    holds(&rt, clock.opened(1_000_000, Some(0), Some(0)));
    same(&rt, clock.next(), None);
    ticks(&rt, &mut clock, 9_000_000_000, Due::Nothing, None);
    let mut other = IdleClock::new(0, None);
    holds(&rt, other.opened(0, None, None));
    ticks(&rt, &mut other, 9_000_000_000, Due::Nothing, None);
    Ok(())
}

#[test]
fn an_opening_without_time_is_late_at_once(rt: HostRuntime) -> Result<(), Fail> {
    let mut clock = IdleClock::new(7, Some(0));
    same(&rt, clock.next(), Some(7));
    ticks(&rt, &mut clock, 7, Due::OpeningLate, None);
    let mut other = IdleClock::new(7, Some(0));
    holds(&rt, other.opened(7, None, None));
    ticks(&rt, &mut other, 7, Due::Nothing, None);
    Ok(())
}
