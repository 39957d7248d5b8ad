//! The modes of received deliveries that the relay names: the session keeps each of them open.

use super::Link;
use crate::bench::Bench;
use crate::frames;
use fe2o3_amqp::{Input, Role};
use std::alloc::AllocError;

impl<'a> Link<'a> {
    /// COUNT times a batch comes, and this side accepts it by one disposition and settles it.
    pub(super) fn receive_named(&mut self, bench: &mut Bench) -> anyhow::Result<()> {
        for _ in 0..self.plan.count {
            let first = self.next;
            for _ in 0..self.plan.batch {
                self.give_next(bench)?;
            }
            self.give_own_settled(bench, first, self.next.wrapping_sub(1))?;
            bench.take()?;
        }
        Ok(())
    }

    /// OPEN come, numbered from `first` on. Then COUNT times one more comes, and the peer settles the oldest.
    pub(super) fn settle_oldest(&mut self, bench: &mut Bench, first: u32) -> anyhow::Result<()> {
        self.next = first;
        self.come_in(bench)?;
        for i in 0..self.plan.count {
            self.give_next(bench)?;
            self.give_peer_settled(bench, first.wrapping_add(i))?;
            self.pass(bench)?;
        }
        bench.take()
    }

    /// COUNT times OPEN come, in a scattered order of their numbers, and are settled from the lowest number on.
    pub(super) fn receive_scattered(&self, bench: &mut Bench) -> anyhow::Result<()> {
        for _ in 0..self.plan.count {
            self.come_scattered(bench)?;
            for number in 0..self.plan.open {
                self.give_peer_settled(bench, number)?;
                self.pass(bench)?;
            }
            bench.take()?;
        }
        Ok(())
    }

    fn come_in(&mut self, bench: &mut Bench) -> anyhow::Result<()> {
        for _ in 0..self.plan.open {
            self.give_next(bench)?;
            self.pass(bench)?;
        }
        bench.take()
    }

    fn come_scattered(&self, bench: &mut Bench) -> anyhow::Result<()> {
        let mut number = 0;
        for _ in 0..self.plan.open {
            self.give_received(bench, number)?;
            self.pass(bench)?;
            number = self.scattered_after(number);
        }
        bench.take()
    }

    /// The next transfer of the peer's comes.
    fn give_next(&mut self, bench: &mut Bench) -> Result<(), AllocError> {
        let number = self.next;
        self.next = number.wrapping_add(1);
        self.give_received(bench, number)
    }

    /// A transfer of the peer's comes, which is the delivery of this number.
    fn give_received(&self, bench: &mut Bench, number: u32) -> Result<(), AllocError> {
        let frame = frames::transfer(self.alloc, self.channel, number)?;
        bench.give(Input::Received(frame))
    }

    /// The peer settles a received delivery.
    pub(super) fn give_peer_settled(
        &self,
        bench: &mut Bench,
        number: u32,
    ) -> Result<(), AllocError> {
        let frame = frames::settled(self.alloc, self.channel, Role::Sender, number, number)?;
        bench.give(Input::Received(frame))
    }

    /// This side accepts the deliveries from `first` to `last`, and lets them go.
    fn give_own_settled(&self, bench: &mut Bench, first: u32, last: u32) -> anyhow::Result<()> {
        self.give_accepted(bench, first, last)?;
        bench.give(Input::Settle(self.session(), Role::Receiver, first, Some(last)))?;
        Ok(())
    }
}
