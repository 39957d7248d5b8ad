//! Random calls beside a plain list.

use crate::calls::entry;
use crate::same::same;
use amqp_unsettled::{Entry, InsertError, Unsettled};
use std::alloc::Global;
use std::process::Abort;
use std::test::Fail;

/// Which deliveries are meant.
#[derive(Clone, Copy)]
enum Meant {
    Number(u32),
    Range(u32, u32),
    Link(u32),
    Any,
}

/// Whether a delivery is meant: a number is in a range where the range is no shorter up to it.
fn means(meant: Meant, entry: Entry) -> bool {
    match meant {
        Meant::Number(number) => entry.number == number,
        Meant::Range(first, last) => {
            let span = last.wrapping_sub(first);
            span < 0x8000_0000 && entry.number.wrapping_sub(first) <= span
        }
        Meant::Link(link) => entry.link == link,
        Meant::Any => true,
    }
}

/// The place of the first one that is meant.
fn place(plain: &[Entry], meant: Meant) -> Option<usize> {
    for i in 0..plain.len() {
        if means(meant, plain[i]) {
            return Some(i);
        }
    }
    None
}

/// Whether a number lies after each one.
fn is_next(plain: &[Entry], number: u32) -> bool {
    for entry in plain {
        let far = number.wrapping_sub(entry.number);
        if far == 0 || far >= 0x8000_0000 {
            return false;
        }
    }
    true
}

/// Takes the first one out that is meant.
fn take(plain: &mut Vec<Entry>, meant: Meant) -> Option<Entry> {
    let at = place(plain.as_slice(), meant)?;
    if at < plain.len() {
        Some(plain.remove(at))
    } else {
        None
    }
}

/// How many are meant.
fn count(plain: &[Entry], meant: Meant) -> usize {
    let mut found: usize = 0;
    for entry in plain {
        if means(meant, *entry) {
            found = found.wrapping_add(1);
        }
    }
    found
}

/// Numbers that seem random: the high half of a linear congruential generator.
#[derive(Clone, Copy)]
struct Random {
    state: u64,
}

impl Random {
    fn below(&mut self, most: u32) -> u32 {
        self.state = self
            .state
            .wrapping_mul(6_364_136_223_846_793_005)
            .wrapping_add(1_442_695_040_888_963_407);
        (self.state >> 33) as u32 % most.max(1)
    }
}

/// A table, and a plain list of the same deliveries.
#[derive(Drop)]
struct Beside {
    table: Unsettled,
    plain: Vec<Entry>,
    last: u32,
}

impl Beside {
    fn new(alloc: Global, last: u32) -> Beside {
        Beside {
            table: Unsettled::new(alloc),
            plain: Vec::new(alloc),
            last,
        }
    }

    fn insert(&mut self, rt: &impl Abort, entry: Entry) -> Result<(), Fail> {
        if is_next(self.plain.as_slice(), entry.number) {
            same(rt, self.table.insert(entry), Ok(()));
            self.plain.push(entry)?;
            self.last = entry.number;
        } else {
            same(rt, self.table.insert(entry), Err(InsertError::NotNext));
        }
        Ok(())
    }

    fn take(&mut self, rt: &impl Abort, meant: Meant) {
        let found = match meant {
            Meant::Number(number) => self.table.remove(number),
            Meant::Range(first, last) => self.table.settle_next(first, last),
            Meant::Link(link) => self.table.remove_next_of(link),
            Meant::Any => self.table.remove_oldest(),
        };
        same(rt, found, take(&mut self.plain, meant));
    }

    fn ask(&self, rt: &impl Abort, number: u32, link: u32) {
        same(rt, self.table.len(), self.plain.len());
        let plain = self.plain.as_slice();
        same(
            rt,
            self.table.count_of(link),
            count(plain, Meant::Link(link)),
        );
        let place = place(plain, Meant::Number(number));
        same(rt, self.table.get(number).is_some(), place.is_some());
    }

    /// One call of some kind, about a number near the newest one.
    fn call(&mut self, rt: &impl Abort, random: &mut Random) -> Result<(), Fail> {
        let near = self.last.wrapping_sub(random.below(80));
        let link = random.below(5);
        match random.below(12) {
            0 => self.take(rt, Meant::Number(near)),
            1 => self.take(rt, Meant::Range(near, near.wrapping_add(random.below(9)))),
            2 => self.take(rt, Meant::Range(near, near.wrapping_sub(random.below(9)))),
            3 => self.take(rt, Meant::Link(link)),
            4 => self.take(rt, Meant::Any),
            5 => self.insert(rt, entry(near, link))?,
            6 => self.ask(rt, near, link),
            _ => {
                let next = self.last.wrapping_add(random.below(3)).wrapping_add(1);
                self.insert(rt, entry(next, link))?;
            }
        }
        Ok(())
    }

    /// All that is left, the oldest first.
    fn empty(&mut self, rt: &impl Abort) {
        for _ in 0..self.plain.len() {
            self.take(rt, Meant::Any);
        }
        same(rt, self.table.len(), 0);
    }
}

#[test]
fn random_calls(rt: HostRuntime) -> Result<(), Fail> {
    for seed in 0..12u32 {
        let mut random = Random {
            state: u64::from(seed),
        };
        let mut both = Beside::new(rt.alloc(), 4_294_967_200);
        for _ in 0..1_500 {
            both.call(&rt, &mut random)?;
        }
        both.empty(&rt);
    }
    Ok(())
}
