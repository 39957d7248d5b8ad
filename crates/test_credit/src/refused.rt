//! Counts of a sender that jump, go back, or pass what was granted.

use crate::receiver::says;
use crate::same::same;
use amqp_credit::{CountPastLimit, OverCredit, ReceiverCredit};
use std::test::Fail;

const LAST: u32 = 4_294_967_295;

#[test]
fn a_count_past_the_limit_is_refused(rt: HostRuntime) -> Result<(), Fail> {
    let mut receiver = ReceiverCredit::new(LAST, None);
    same(&rt, receiver.on_flow(Some(LAST)), Ok(0));
    same(&rt, receiver.on_flow(Some(0)), Err(CountPastLimit));
    same(&rt, receiver.grant(3), says(LAST, 3, false));
    same(&rt, receiver.on_flow(Some(3)), Err(CountPastLimit));
    same(&rt, receiver.flow_state(), says(LAST, 3, false));
    same(&rt, receiver.on_flow(Some(2)), Ok(3));
    same(&rt, receiver.flow_state(), says(2, 0, false));
    same(&rt, receiver.on_delivery(), Err(OverCredit));
    same(
        &rt,
        receiver.on_flow(Some(2_147_483_649)),
        Err(CountPastLimit),
    );
    Ok(())
}

#[test]
fn a_count_behind_changes_nothing(rt: HostRuntime) -> Result<(), Fail> {
    let mut receiver = ReceiverCredit::new(0, None);
    let _told = receiver.grant(5);
    same(&rt, receiver.on_delivery(), Ok(()));
    same(&rt, receiver.on_flow(Some(0)), Ok(0));
    same(&rt, receiver.on_flow(None), Ok(0));
    same(&rt, receiver.on_flow(Some(2_147_483_649)), Ok(0));
    same(&rt, receiver.flow_state(), says(1, 4, false));
    same(&rt, receiver.on_flow(Some(1)), Ok(0));
    same(&rt, receiver.on_flow(Some(2)), Ok(1));
    same(&rt, receiver.flow_state(), says(2, 3, false));
    Ok(())
}

#[test]
fn all_of_the_credit_is_used_up(rt: HostRuntime) -> Result<(), Fail> {
    let mut receiver = ReceiverCredit::new(10, None);
    same(&rt, receiver.grant(LAST), says(10, LAST, false));
    same(&rt, receiver.on_delivery(), Ok(()));
    same(&rt, receiver.flow_state(), says(11, LAST - 1, false));
    same(&rt, receiver.on_flow(Some(9)), Ok(LAST - 1));
    same(&rt, receiver.flow_state(), says(9, 0, false));
    Ok(())
}

#[test]
fn a_lower_grant_takes_credit_back(rt: HostRuntime) -> Result<(), Fail> {
    let mut receiver = ReceiverCredit::new(0, None);
    let _told = receiver.grant(100);
    same(&rt, receiver.on_delivery(), Ok(()));
    same(&rt, receiver.grant(0), says(1, 0, false));
    same(&rt, receiver.on_delivery(), Err(OverCredit));
    same(&rt, receiver.on_flow(Some(1)), Ok(0));
    same(&rt, receiver.flow_state(), says(1, 0, false));
    Ok(())
}
