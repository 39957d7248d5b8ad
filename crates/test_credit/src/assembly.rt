//! Deliveries in one part and in many, aborted ones, and parts that are refused.

use crate::parts::{first, goes_on, is_part, is_refused};
use crate::same::same;
use amqp_credit::{Assembly, Part, PartEnd, PartError, PartHead, PartTag};
use std::test::Fail;

#[test]
fn a_delivery_in_one_part_and_one_in_three(rt: HostRuntime) -> Result<(), Fail> {
    let mut parts = Assembly::new(None);
    same(&rt, parts.under_way(), None);
    is_part(
        &rt,
        &mut parts,
        first(4, false, 10),
        4,
        true,
        PartEnd::Last,
        false,
        10,
    );
    same(&rt, parts.under_way(), None);
    is_part(
        &rt,
        &mut parts,
        first(5, true, 100),
        5,
        true,
        PartEnd::More,
        false,
        100,
    );
    same(&rt, parts.under_way(), Some(5));
    is_part(
        &rt,
        &mut parts,
        goes_on(true, 20),
        5,
        false,
        PartEnd::More,
        false,
        120,
    );
    is_part(
        &rt,
        &mut parts,
        goes_on(false, 3),
        5,
        false,
        PartEnd::Last,
        false,
        123,
    );
    same(&rt, parts.under_way(), None);
    is_refused(&rt, &mut parts, goes_on(false, 3), PartError::NoneUnderWay);
    Ok(())
}

#[test]
fn a_part_in_two_halves(rt: HostRuntime) -> Result<(), Fail> {
    let mut parts = Assembly::new(Some(100));
    let head = first(7, true, 60);
    let part = Part {
        number: 7,
        is_first: true,
        end: PartEnd::More,
        settled: false,
        size: 60,
    };
    let prepared = parts.prepare(head);
    same(&rt, prepared, Ok(part));
    same(&rt, parts.under_way(), None);
    if let Ok(prepared) = prepared {
        parts.finish(head, prepared);
    }
    same(&rt, parts.under_way(), Some(7));
    let other = PartHead {
        format: Some(1),
        ..goes_on(false, 1)
    };
    same(&rt, parts.prepare(other), Err(PartError::OtherFormat));
    same(
        &rt,
        parts.prepare(goes_on(false, 41)),
        Err(PartError::TooLarge),
    );
    is_part(
        &rt,
        &mut parts,
        goes_on(false, 40),
        7,
        false,
        PartEnd::Last,
        false,
        100,
    );
    same(&rt, parts.under_way(), None);
    Ok(())
}

#[test]
fn a_part_may_repeat_what_the_first_one_gave(rt: HostRuntime) -> Result<(), Fail> {
    let mut parts = Assembly::new(Some(0));
    is_part(
        &rt,
        &mut parts,
        first(4_294_967_295, true, 1),
        4_294_967_295,
        true,
        PartEnd::More,
        false,
        1,
    );
    let again = PartHead {
        tag: PartTag::Same,
        ..first(4_294_967_295, true, 1)
    };
    is_part(
        &rt,
        &mut parts,
        again,
        4_294_967_295,
        false,
        PartEnd::More,
        false,
        2,
    );
    is_refused(
        &rt,
        &mut parts,
        first(4_294_967_295, true, 1),
        PartError::OtherDelivery,
    );
    let other = PartHead {
        tag: PartTag::Absent,
        ..first(0, true, 1)
    };
    is_refused(&rt, &mut parts, other, PartError::OtherDelivery);
    let tag = PartHead {
        tag: PartTag::New,
        ..goes_on(true, 1)
    };
    is_refused(&rt, &mut parts, tag, PartError::OtherDelivery);
    let format = PartHead {
        format: Some(1),
        ..goes_on(true, 1)
    };
    is_refused(&rt, &mut parts, format, PartError::OtherFormat);
    is_part(
        &rt,
        &mut parts,
        goes_on(false, 1),
        4_294_967_295,
        false,
        PartEnd::Last,
        false,
        3,
    );
    Ok(())
}

#[test]
fn a_first_part_has_a_number_and_a_tag(rt: HostRuntime) -> Result<(), Fail> {
    let mut parts = Assembly::new(None);
    let numberless = PartHead {
        number: None,
        ..first(1, true, 1)
    };
    is_refused(&rt, &mut parts, numberless, PartError::NoNumber);
    let tagless = PartHead {
        tag: PartTag::Absent,
        ..first(1, true, 1)
    };
    is_refused(&rt, &mut parts, tagless, PartError::NoTag);
    same(&rt, parts.under_way(), None);
    let formatless = PartHead {
        format: None,
        tag: PartTag::Same,
        ..first(1, true, 1)
    };
    is_part(
        &rt,
        &mut parts,
        formatless,
        1,
        true,
        PartEnd::More,
        false,
        1,
    );
    let late = PartHead {
        format: Some(0),
        ..goes_on(true, 1)
    };
    is_refused(&rt, &mut parts, late, PartError::OtherFormat);
    Ok(())
}

#[test]
fn a_delivery_is_settled_where_a_part_says_so(rt: HostRuntime) -> Result<(), Fail> {
    let mut parts = Assembly::new(None);
    is_part(
        &rt,
        &mut parts,
        first(1, true, 0),
        1,
        true,
        PartEnd::More,
        false,
        0,
    );
    let settled = PartHead {
        settled: Some(true),
        ..goes_on(true, 0)
    };
    is_part(&rt, &mut parts, settled, 1, false, PartEnd::More, true, 0);
    let unsettled = PartHead {
        settled: Some(false),
        ..goes_on(false, 0)
    };
    is_part(&rt, &mut parts, unsettled, 1, false, PartEnd::Last, true, 0);
    is_part(
        &rt,
        &mut parts,
        first(2, false, 0),
        2,
        true,
        PartEnd::Last,
        false,
        0,
    );
    Ok(())
}

#[test]
fn a_delivery_is_aborted(rt: HostRuntime) -> Result<(), Fail> {
    let mut parts = Assembly::new(Some(5));
    is_part(
        &rt,
        &mut parts,
        first(1, true, 5),
        1,
        true,
        PartEnd::More,
        false,
        5,
    );
    let aborts = PartHead {
        aborted: true,
        ..goes_on(true, 1_000)
    };
    is_part(&rt, &mut parts, aborts, 1, false, PartEnd::Aborted, true, 5);
    same(&rt, parts.under_way(), None);
    let at_once = PartHead {
        aborted: true,
        ..first(1, true, 4_294_967_295)
    };
    is_part(&rt, &mut parts, at_once, 1, true, PartEnd::Aborted, true, 0);
    is_refused(&rt, &mut parts, aborts, PartError::NoneUnderWay);
    is_part(
        &rt,
        &mut parts,
        first(1, false, 5),
        1,
        true,
        PartEnd::Last,
        false,
        5,
    );
    Ok(())
}

#[test]
fn a_delivery_is_too_large(rt: HostRuntime) -> Result<(), Fail> {
    let mut parts = Assembly::new(Some(4_294_967_296));
    is_part(
        &rt,
        &mut parts,
        first(1, true, 4_294_967_295),
        1,
        true,
        PartEnd::More,
        false,
        4_294_967_295,
    );
    is_refused(&rt, &mut parts, goes_on(true, 2), PartError::TooLarge);
    is_part(
        &rt,
        &mut parts,
        goes_on(true, 1),
        1,
        false,
        PartEnd::More,
        false,
        4_294_967_296,
    );
    is_refused(
        &rt,
        &mut parts,
        goes_on(true, 4_294_967_295),
        PartError::TooLarge,
    );
    is_part(
        &rt,
        &mut parts,
        goes_on(false, 0),
        1,
        false,
        PartEnd::Last,
        false,
        4_294_967_296,
    );
    let mut small = Assembly::new(Some(1));
    is_refused(&rt, &mut small, first(1, false, 2), PartError::TooLarge);
    same(&rt, small.under_way(), None);
    Ok(())
}
