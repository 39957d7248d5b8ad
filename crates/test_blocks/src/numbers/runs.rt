//! Long runs beside a plain list.

use amqp_numbers::NumberSet;
use std::alloc::Global;
use std::process::Abort;
use std::test::Fail;

/// The plain list says of each number below this whether it is in the set.
const COUNT: usize = 600;

/// A set and a plain list of the same numbers.
#[derive(Drop)]
struct Beside {
    set: NumberSet,
    plain: Vec<bool>,
}

impl Beside {
    /// Both with no numbers.
    fn new(alloc: Global) -> Result<Beside, Fail> {
        Ok(Beside {
            set: NumberSet::new(alloc),
            plain: vec![in alloc; false; COUNT]?,
        })
    }

    /// Puts a number into both.
    fn insert(&mut self, rt: &impl Abort, number: usize) -> Result<(), Fail> {
        assert!(rt; number < self.plain.len() && number < COUNT);
        self.set.insert(number as u32)?;
        self.plain[number] = true;
        Ok(())
    }

    /// Whether both hold the same numbers.
    fn are_equal(&self, rt: &impl Abort) {
        for (number, is_in) in self.plain.iter().enumerate() {
            assert!(rt; number < COUNT);
            assert_eq!(rt; self.set.contains(number as u32), *is_in, "at {number}");
        }
    }
}

#[test]
fn numbers_come_in_order(rt: HostRuntime) -> Result<(), Fail> {
    let mut both = Beside::new(rt.alloc())?;
    for number in 0..COUNT / 2 {
        both.insert(&rt, number)?;
    }
    both.are_equal(&rt);
    for number in COUNT / 2..COUNT {
        both.insert(&rt, number)?;
    }
    both.are_equal(&rt);
    Ok(())
}

#[test]
fn numbers_come_backwards(rt: HostRuntime) -> Result<(), Fail> {
    let mut both = Beside::new(rt.alloc())?;
    for away in 0..COUNT - 100 {
        both.insert(&rt, COUNT - 1 - away)?;
    }
    both.are_equal(&rt);
    Ok(())
}

#[test]
fn every_second_number_comes_and_then_the_gaps(rt: HostRuntime) -> Result<(), Fail> {
    let mut both = Beside::new(rt.alloc())?;
    for half in 0..COUNT / 2 {
        both.insert(&rt, half * 2)?;
    }
    both.are_equal(&rt);
    for step in 0..COUNT / 4 {
        both.insert(&rt, step * 7_919 % (COUNT / 2) * 2 + 1)?;
    }
    both.are_equal(&rt);
    for half in 0..COUNT / 2 {
        both.insert(&rt, half * 2 + 1)?;
    }
    both.are_equal(&rt);
    Ok(())
}

#[test]
fn numbers_come_scattered_and_again(rt: HostRuntime) -> Result<(), Fail> {
    let mut both = Beside::new(rt.alloc())?;
    for step in 0..400usize {
        both.insert(&rt, step * 7_919 % COUNT)?;
        both.insert(&rt, step * 104_729 % COUNT)?;
    }
    both.are_equal(&rt);
    Ok(())
}
