//! The policy: what is recorded, echoed and answered.

use super::frames::{link_flow, transfer};
use crate::same::holds;
use amqp_events::{Echoed, Policy, Recorded};
use amqp_session::OutputHandle;
use amqp_types::{ReceiverSettleMode, Role};
use test_support::{detach_of, raw_of};

fn receiver() -> Policy {
    Policy::new(Role::Receiver, ReceiverSettleMode::First)
}

/// One that records unsettled deliveries of either mode.
fn recorder() -> Policy {
    Policy {
        recorded: Recorded::OfEitherMode,
        ..receiver()
    }
}

/// Whether a transfer of this mode, settled and aborted so, is recorded.
fn records(
    policy: Policy,
    mode: Option<ReceiverSettleMode>,
    settled: Option<bool>,
    aborted: bool,
) -> bool {
    let mut coming = transfer(5, 3);
    coming.rcv_settle_mode = mode;
    coming.settled = settled;
    coming.aborted = aborted;
    let is_recorded = policy.is_recorded(&coming);
    drop(coming);
    is_recorded
}

/// The number and the first byte of the tag of the delivery that a transfer opens.
fn opened(policy: Policy) -> Option<(u32, u8)> {
    let coming = transfer(5, 3);
    let named = policy.opened(&coming);
    drop(coming);
    match &named {
        Ok(Some((number, tag))) if !tag.0.is_empty() => Some((*number, tag.0.as_slice()[0])),
        _ => None,
    }
}

#[test]
fn deliveries_of_mode_second_are_recorded_and_named(rt: HostRuntime) {
    let policy = receiver();
    let none = Policy {
        recorded: Recorded::Never,
        ..policy
    };
    let second = Some(ReceiverSettleMode::Second);
    let found = [
        records(policy, None, None, false),
        records(policy, second, None, false),
        records(policy, second, Some(false), false),
        records(policy, second, Some(true), false),
        records(policy, second, None, true),
        records(recorder(), None, None, false),
        records(none, second, None, false),
    ];
    holds(&rt, found == [false, true, true, false, false, true, false]);
    holds(&rt, opened(recorder()) == Some((3, 116)));
    holds(&rt, opened(policy).is_none());
}

/// Whether a disposition with the state of these bytes, or with none, is echoed.
fn echoes(policy: Policy, role: Role, settled: bool, state: &'static [u8]) -> bool {
    let state = raw_of(state);
    let answer = policy.echoes(role, settled, state.as_ref());
    drop(state);
    answer
}

const ACCEPTED: &[u8] = b"\x00\x53\x24\x45";

const RECEIVED: &[u8] = b"\x00\x53\x23\x45";

#[test]
fn terminal_states_are_echoed(rt: HostRuntime) {
    let policy = receiver();
    let all = Policy {
        echoed: Echoed::Unsettled,
        ..policy
    };
    let none = Policy {
        echoed: Echoed::Never,
        ..policy
    };
    let found = [
        echoes(policy, Role::Receiver, false, ACCEPTED),
        echoes(policy, Role::Receiver, false, RECEIVED),
        echoes(policy, Role::Sender, false, ACCEPTED),
        echoes(all, Role::Receiver, false, RECEIVED),
        echoes(all, Role::Receiver, false, b""),
        echoes(all, Role::Receiver, true, b""),
        echoes(none, Role::Receiver, false, b""),
    ];
    holds(&rt, found == [true, false, false, true, true, false, false]);
}

/// Handle, credit and echo of the flow that answers one.
fn flow_answer(policy: Policy) -> Option<(u32, Option<u32>, bool)> {
    let flow = link_flow(5, 20);
    let answer = policy.flow_answer(OutputHandle(1), &flow);
    drop(flow);
    match &answer {
        Some(said) => Some((said.handle.0, said.link_credit, said.echo)),
        None => None,
    }
}

/// Handle and closing of the detach that answers one.
fn detach_answer(policy: Policy, remote_initiated: bool) -> Option<(u32, bool)> {
    let coming = detach_of(5);
    let answer = policy.detach_answer(OutputHandle(1), &coming, remote_initiated);
    drop(coming);
    match &answer {
        Some(said) => Some((said.handle.0, said.closed)),
        None => None,
    }
}

#[test]
fn flows_and_detaches_are_answered_where_it_says_so(rt: HostRuntime) {
    let silent = receiver();
    let talks = Policy {
        answers_flows: true,
        answers_detaches: true,
        ..silent
    };
    holds(&rt, flow_answer(silent).is_none());
    holds(&rt, flow_answer(talks) == Some((1, Some(20), false)));
    let detaches = [
        detach_answer(silent, true),
        detach_answer(talks, true),
        detach_answer(talks, false),
    ];
    holds(&rt, detaches == [None, Some((1, true)), None]);
}
