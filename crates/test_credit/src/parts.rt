//! Parts of deliveries, as a test writes them.

use crate::same::same;
use amqp_credit::{Assembly, Part, PartEnd, PartError, PartHead, PartTag};
use std::process::Abort;

/// The first part of a delivery, with a number and a tag.
pub fn first(number: u32, more: bool, size: u32) -> PartHead {
    PartHead {
        number: Some(number),
        tag: PartTag::New,
        format: Some(0),
        settled: None,
        more,
        aborted: false,
        size,
    }
}

/// A part that goes on, and leaves out what it may.
pub fn goes_on(more: bool, size: u32) -> PartHead {
    PartHead {
        number: None,
        tag: PartTag::Absent,
        format: None,
        settled: None,
        more,
        aborted: false,
        size,
    }
}

/// Stops the test where a part is not accepted as this.
pub fn is_part(
    rt: &impl Abort,
    parts: &mut Assembly,
    head: PartHead,
    number: u32,
    is_first: bool,
    end: PartEnd,
    settled: bool,
    size: u64,
) {
    let part = Part {
        number,
        is_first,
        end,
        settled,
        size,
    };
    same(rt, parts.on_part(head), Ok(part));
}

/// Stops the test where a part is not refused for this reason.
pub fn is_refused(rt: &impl Abort, parts: &mut Assembly, head: PartHead, error: PartError) {
    same(rt, parts.on_part(head), Err(error));
}
