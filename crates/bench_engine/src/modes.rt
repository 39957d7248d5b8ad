//! The modes: what a session is given, and when.

mod links;
mod received;

use crate::bench::{Bench, Plan};
use crate::frames;
use crate::relay::Relay;
use bytes::Bytes;
use fe2o3_amqp::{
    DeliveryTag, Disposition, Handle, Input, InputHandle, Raw, Role, SessionNo, SessionSettings,
    Transfer,
};
use std::alloc::{AllocError, Global};

/// The accepted state.
const ACCEPTED: &[u8] = &[0x00, 0x53, 0x24, 0x45];

/// How far the widest range reaches.
const WIDEST: u32 = 0x7fff_ffff;

/// How many go out after the peak.
const AFTER_PEAK: u32 = 10;

/// How far a scattered number is from the one before it. It is a prime: among OPEN numbers, none comes twice before each has come,
/// unless OPEN is a multiple of it.
const STRIDE: u32 = 7919;

/// A session with one link, and the number of its next transfer.
#[derive(Drop)]
struct Link<'a> {
    alloc: Global,
    plan: &'a Plan,
    channel: u16,
    next: u32,
}

/// Opens the connection, and does in each session what the mode says. An unknown mode does nothing.
pub fn run(alloc: Global, bench: &mut Bench, mode: &str, plan: &Plan) -> anyhow::Result<()> {
    open(bench, plan)?;
    for channel in 0..plan.sessions {
        let mut link = Link {
            alloc,
            plan,
            channel,
            next: 0,
        };
        link.begin(bench, relay_of(mode))?;
        link.measure(bench, mode)?;
    }
    Ok(())
}

/// The relay of the link in this mode.
fn relay_of(mode: &str) -> Relay {
    match mode {
        "named" | "oldest" | "wrapped" | "arrivals" => Relay::Namer,
        _ => Relay::Taker,
    }
}

fn open(bench: &mut Bench, plan: &Plan) -> anyhow::Result<()> {
    bench.give(Input::Open)?;
    bench.give(Input::Received(plan.peer_open.clone()?))?;
    bench.run()
}

impl<'a> Link<'a> {
    fn session(&self) -> SessionNo {
        SessionNo(u32::from(self.channel))
    }

    fn begin(&self, bench: &mut Bench, relay: Relay) -> anyhow::Result<()> {
        bench.give(Input::Begin(self.session(), SessionSettings::new()))?;
        self.give_begun(bench)?;
        self.give_link(bench, relay)?;
        bench.run()
    }

    /// The peer answers the Begin.
    fn give_begun(&self, bench: &mut Bench) -> Result<(), AllocError> {
        let answer = frames::begin(self.alloc, self.channel)?;
        bench.give(Input::Received(answer))
    }

    fn give_link(&self, bench: &mut Bench, relay: Relay) -> Result<(), AllocError> {
        let name = String::from_str(self.alloc, "link")?;
        bench.give(Input::AllocateIncomingLink(self.session(), name, relay, InputHandle(0)))
    }

    fn measure(&mut self, bench: &mut Bench, mode: &str) -> anyhow::Result<()> {
        match mode {
            "receive" => self.receive(bench),
            "send" => self.send(bench),
            "unsettled" => self.send_unsettled(bench),
            "held" => self.hold(bench),
            "named" => self.receive_named(bench),
            "oldest" => self.settle_oldest(bench, 0),
            "wrapped" => self.settle_oldest(bench, 0u32.wrapping_sub(self.plan.open / 2)),
            "arrivals" => self.receive_scattered(bench),
            "links" => self.use_links(bench, false),
            "colliding" => self.use_links(bench, true),
            _ => {
                self.go_out(bench, self.plan.open)?;
                self.settle(bench, mode)
            }
        }
    }

    fn settle(&mut self, bench: &mut Bench, mode: &str) -> anyhow::Result<()> {
        match mode {
            "forward" => self.settle_by(bench, 0, 1),
            "backward" => self.settle_by(bench, self.next.wrapping_sub(1), u32::MAX),
            "middle" => self.settle_by(bench, self.plan.open / 2, 1),
            "second" => self.settle_by(bench, 0, 2),
            "scattered" => self.settle_scattered(bench),
            "range" => self.settle_range(bench, self.next.wrapping_sub(1)),
            "wide" => self.settle_range(bench, WIDEST),
            "peak" => self.settle_after_peak(bench),
            _ => Ok(()),
        }
    }

    /// Runs where a batch is there.
    fn pass(&self, bench: &mut Bench) -> anyhow::Result<()> {
        if bench.given() >= self.plan.batch as usize {
            bench.take()?;
        }
        Ok(())
    }

    /// That many transfers go out unsettled.
    fn go_out(&mut self, bench: &mut Bench, count: u32) -> anyhow::Result<()> {
        for _ in 0..count {
            self.give_transfer(bench, false)?;
            self.pass(bench)?;
        }
        bench.take()
    }

    fn receive(&self, bench: &mut Bench) -> anyhow::Result<()> {
        let frame = frames::on_channel(self.alloc, &self.plan.transfer, self.channel)?;
        let outcome = self.receive_each(bench, &frame);
        drop(frame);
        outcome
    }

    fn receive_each(&self, bench: &mut Bench, frame: &Bytes) -> anyhow::Result<()> {
        for _ in 0..self.plan.count {
            for _ in 0..self.plan.batch {
                bench.give(Input::Received(frame.clone()?))?;
            }
            self.give_accepted(bench, 0, self.plan.batch)?;
            bench.take()?;
        }
        Ok(())
    }

    fn send(&mut self, bench: &mut Bench) -> anyhow::Result<()> {
        for _ in 0..self.plan.count {
            for _ in 0..self.plan.batch {
                self.give_transfer(bench, true)?;
            }
            bench.take()?;
        }
        Ok(())
    }

    fn send_unsettled(&mut self, bench: &mut Bench) -> anyhow::Result<()> {
        for _ in 0..self.plan.count {
            let first = self.next;
            self.go_out(bench, self.plan.batch)?;
            for i in 0..self.plan.batch {
                let number = first.wrapping_add(i);
                self.give_settled(bench, number, number)?;
            }
            bench.take()?;
        }
        Ok(())
    }

    /// The window is closed first; from then on each flow opens it for what waits.
    fn hold(&mut self, bench: &mut Bench) -> anyhow::Result<()> {
        self.give_flow(bench, 0, 0)?;
        for _ in 0..self.plan.count {
            let first = self.next;
            for _ in 0..self.plan.batch {
                self.give_transfer(bench, false)?;
            }
            self.give_flow(bench, first, self.plan.batch)?;
            bench.take()?;
        }
        Ok(())
    }

    /// COUNT are settled: `first`, and from there on each number that is `step` further; to go back is a step of nearly 2^32.
    fn settle_by(&self, bench: &mut Bench, first: u32, step: u32) -> anyhow::Result<()> {
        for i in 0..self.plan.count {
            let number = first.wrapping_add(step.wrapping_mul(i));
            self.give_settled(bench, number, number)?;
            self.pass(bench)?;
        }
        bench.take()
    }

    fn settle_scattered(&self, bench: &mut Bench) -> anyhow::Result<()> {
        let mut number = 0;
        for _ in 0..self.plan.count {
            self.give_settled(bench, number, number)?;
            self.pass(bench)?;
            number = self.scattered_after(number);
        }
        bench.take()
    }

    /// The number after this one in a scattered order of those below OPEN.
    fn scattered_after(&self, number: u32) -> u32 {
        number
            .wrapping_add(STRIDE)
            .checked_rem(self.plan.open)
            .unwrap_or(0)
    }

    fn settle_range(&self, bench: &mut Bench, last: u32) -> anyhow::Result<()> {
        for _ in 0..self.plan.count {
            self.give_settled(bench, 0, last)?;
            bench.take()?;
        }
        Ok(())
    }

    fn settle_after_peak(&mut self, bench: &mut Bench) -> anyhow::Result<()> {
        let first = self.next;
        self.give_settled(bench, 0, first)?;
        bench.take()?;
        self.go_out(bench, AFTER_PEAK)?;
        self.settle_by(bench, first, 1)
    }

    /// The next transfer goes out.
    #[inline(never)]
    fn give_transfer(&mut self, bench: &mut Bench, settled: bool) -> Result<(), AllocError> {
        self.next = self.next.wrapping_add(1);
        let tag = self.plan.tag.clone()?;
        let payload = self.plan.payload.clone()?;
        let transfer = Transfer {
            handle: Handle(0),
            delivery_id: None,
            delivery_tag: Some(DeliveryTag(tag)),
            message_format: Some(0),
            settled: Some(settled),
            more: false,
            rcv_settle_mode: None,
            state: None,
            resume: false,
            aborted: false,
            batchable: false,
        };
        bench.give(Input::Transfer(self.session(), InputHandle(0), transfer, payload, true))
    }

    /// This side accepts the received deliveries from `first` to `last`.
    fn give_accepted(&self, bench: &mut Bench, first: u32, last: u32) -> anyhow::Result<()> {
        let (state, rest) = Raw::read(Bytes::from_static(ACCEPTED))?;
        drop(rest);
        let disposition = Disposition {
            role: Role::Receiver,
            first,
            last: Some(last),
            settled: true,
            state: Some(state),
            batchable: false,
        };
        bench.give(Input::Disposition(self.session(), disposition))?;
        Ok(())
    }

    /// The peer settles the sent deliveries from `first` to `last`.
    fn give_settled(&self, bench: &mut Bench, first: u32, last: u32) -> Result<(), AllocError> {
        let frame = frames::settled(self.alloc, self.channel, Role::Receiver, first, last)?;
        bench.give(Input::Received(frame))
    }

    /// The peer takes that many transfers from `next` on.
    fn give_flow(&self, bench: &mut Bench, next: u32, window: u32) -> Result<(), AllocError> {
        let frame = frames::flow(self.alloc, self.channel, next, window)?;
        bench.give(Input::Received(frame))
    }
}
