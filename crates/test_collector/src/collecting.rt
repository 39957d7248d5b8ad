//! Parts come, and what is answered.

use amqp_collector::{CollectError, Collector};
use amqp_links::{Part, PartEnd};
use bytes::Bytes;
use std::process::Abort;
use std::test::Fail;

/// A part of the delivery 7.
fn part(is_first: bool, end: PartEnd) -> Part {
    Part {
        number: 7,
        is_first,
        end,
        settled: false,
        size: 0,
    }
}

/// What is answered to a part with these bytes.
fn told(
    collector: &mut Collector,
    is_first: bool,
    end: PartEnd,
    bytes: &'static [u8],
) -> Result<Option<Bytes>, CollectError> {
    collector.collect(part(is_first, end), Bytes::from_static(bytes))
}

/// Stops the test where this is not so.
fn holds(rt: &impl Abort, is_so: bool) {
    assert!(rt; is_so);
}

/// Stops the test where the answer is not this payload of a whole delivery.
fn is_whole(rt: &impl Abort, answer: Result<Option<Bytes>, CollectError>, wanted: &[u8]) {
    match answer {
        Ok(Some(whole)) => {
            holds(rt, &whole[..] == wanted);
            drop(whole);
        }
        other => {
            drop(other);
            holds(rt, false);
        }
    }
}

/// Stops the test where something is answered.
fn is_none(rt: &impl Abort, answer: Result<Option<Bytes>, CollectError>) {
    holds(rt, matches!(&answer, Ok(None)));
    drop(answer);
}

/// Stops the test where the delivery is not too large.
fn is_too_large(rt: &impl Abort, answer: Result<Option<Bytes>, CollectError>) {
    holds(rt, matches!(&answer, Err(CollectError::TooLarge)));
    drop(answer);
}

#[test]
fn a_delivery_in_one_part_and_one_in_three(rt: HostRuntime) -> Result<(), Fail> {
    let mut it = Collector::new(rt.alloc(), 10);
    is_whole(&rt, told(&mut it, true, PartEnd::Last, b"one"), b"one");
    is_none(&rt, told(&mut it, true, PartEnd::More, b"ab"));
    is_none(&rt, told(&mut it, false, PartEnd::More, b"c"));
    holds(&rt, it.held() == 3);
    is_whole(
        &rt,
        told(&mut it, false, PartEnd::Last, b"defg"),
        b"abcdefg",
    );
    holds(&rt, it.held() == 0);
    is_whole(&rt, told(&mut it, true, PartEnd::Last, b""), b"");
    Ok(())
}

#[test]
fn a_delivery_is_aborted(rt: HostRuntime) -> Result<(), Fail> {
    let mut it = Collector::new(rt.alloc(), 10);
    is_none(&rt, told(&mut it, true, PartEnd::More, b"ab"));
    is_none(&rt, told(&mut it, false, PartEnd::Aborted, b"cd"));
    holds(&rt, it.held() == 0);
    is_whole(&rt, told(&mut it, true, PartEnd::Last, b"e"), b"e");
    Ok(())
}

#[test]
fn a_delivery_is_too_large(rt: HostRuntime) -> Result<(), Fail> {
    let mut it = Collector::new(rt.alloc(), 4);
    is_none(&rt, told(&mut it, true, PartEnd::More, b"abc"));
    is_too_large(&rt, told(&mut it, false, PartEnd::More, b"de"));
    holds(&rt, it.held() == 0);
    is_none(&rt, told(&mut it, false, PartEnd::More, b"f"));
    is_none(&rt, told(&mut it, false, PartEnd::Last, b"g"));
    is_whole(&rt, told(&mut it, true, PartEnd::Last, b"1234"), b"1234");
    is_too_large(&rt, told(&mut it, true, PartEnd::Last, b"12345"));
    is_none(&rt, told(&mut it, true, PartEnd::More, b"12"));
    is_too_large(&rt, told(&mut it, false, PartEnd::Last, b"345"));
    is_none(&rt, told(&mut it, true, PartEnd::More, b"12"));
    is_whole(&rt, told(&mut it, false, PartEnd::Last, b"34"), b"1234");
    Ok(())
}

#[test]
fn a_delivery_begins_before_another_has_ended(rt: HostRuntime) -> Result<(), Fail> {
    let mut it = Collector::new(rt.alloc(), 4);
    is_none(&rt, told(&mut it, true, PartEnd::More, b"abc"));
    is_none(&rt, told(&mut it, true, PartEnd::More, b"de"));
    is_whole(&rt, told(&mut it, false, PartEnd::Last, b"f"), b"def");
    is_too_large(&rt, told(&mut it, true, PartEnd::More, b"abcde"));
    is_whole(&rt, told(&mut it, true, PartEnd::Last, b"g"), b"g");
    Ok(())
}
