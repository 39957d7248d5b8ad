//! The laws at types of their own: both kinds of relay, and a hasher.

use crate::relays::{Choosing, Quiet};
use crate::same::{holds, same};
use amqp_session::laws::{
    Compared, law_of_incoming_channels, law_of_input_handles, law_of_links, law_of_numbers,
    law_of_outgoing_channels, law_of_output_handles, law_of_session_flows, law_of_views,
};
use amqp_session::{IncomingChannel, InputHandle, OutgoingChannel, OutputHandle};
use std::cmp::Ordering;
use std::hash::{DefaultHasher, Hash, Hasher};

#[test]
fn laws_speak_of_both_relays(_rt: HostRuntime) {
    law_of_views::<Quiet>();
    law_of_views::<Choosing>();
    law_of_links::<Quiet>();
    law_of_links::<Choosing>();
    law_of_numbers::<Quiet>();
    law_of_numbers::<Choosing>();
    law_of_session_flows::<Quiet>();
    law_of_session_flows::<Choosing>();
}

/// Each way to compare two numbers tells this order.
fn compared(order: Ordering) -> Compared {
    Compared {
        equal: order == Ordering::Equal,
        order,
        partial_order: Some(order),
        less: order == Ordering::Less,
    }
}

#[test]
fn channels_compare_as_their_numbers(rt: HostRuntime) {
    let mut state = DefaultHasher::new();
    let sent = law_of_outgoing_channels(OutgoingChannel(1), OutgoingChannel(2), &mut state);
    holds(&rt, sent == compared(Ordering::Less));
    let came = law_of_incoming_channels(IncomingChannel(3), IncomingChannel(3), &mut state);
    holds(&rt, came == compared(Ordering::Equal));
    let mut plain = DefaultHasher::new();
    1u16.hash(&mut plain);
    3u16.hash(&mut plain);
    same(&rt, state.finish(), plain.finish());
}

#[test]
fn handles_compare_as_their_numbers(rt: HostRuntime) {
    let mut state = DefaultHasher::new();
    let sent = law_of_output_handles(OutputHandle(4294967295), OutputHandle(0), &mut state);
    holds(&rt, sent == compared(Ordering::Greater));
    let came = law_of_input_handles(InputHandle(7), InputHandle(8), &mut state);
    holds(&rt, came == compared(Ordering::Less));
    let mut plain = DefaultHasher::new();
    4294967295u32.hash(&mut plain);
    7u32.hash(&mut plain);
    same(&rt, state.finish(), plain.finish());
}
