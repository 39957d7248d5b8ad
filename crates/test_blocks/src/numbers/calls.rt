//! Each call once, with the values that it gives.

use amqp_numbers::NumberSet;
use std::test::Fail;

#[test]
fn each_call_gives_what_it_says(rt: HostRuntime) -> Result<(), Fail> {
    let mut set = NumberSet::new(rt.alloc());
    assert!(rt; !set.contains(0));
    assert!(rt; !set.contains(4_294_967_295));
    set.insert(7)?;
    assert!(rt; set.contains(7));
    assert!(rt; !set.contains(6));
    assert!(rt; !set.contains(8));
    set.insert(7)?;
    assert!(rt; set.contains(7));
    set.insert(9)?;
    assert!(rt; !set.contains(8));
    set.insert(8)?;
    assert!(rt; set.contains(7) && set.contains(8) && set.contains(9));
    assert!(rt; !set.contains(6) && !set.contains(10));
    Ok(())
}

#[test]
fn both_ends_are_numbers_as_others(rt: HostRuntime) -> Result<(), Fail> {
    let mut set = NumberSet::new(rt.alloc());
    set.insert(4_294_967_295)?;
    assert!(rt; set.contains(4_294_967_295));
    assert!(rt; !set.contains(0));
    set.insert(0)?;
    assert!(rt; set.contains(0));
    assert!(rt; !set.contains(1) && !set.contains(4_294_967_294));
    set.insert(4_294_967_294)?;
    set.insert(1)?;
    set.insert(4_294_967_295)?;
    set.insert(0)?;
    assert!(rt; set.contains(1) && set.contains(4_294_967_294));
    assert!(rt; !set.contains(2) && !set.contains(4_294_967_293));
    Ok(())
}
