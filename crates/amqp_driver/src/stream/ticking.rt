//! The time of a stream (AMQP 1.0 part 2, section 2.4.5).

ghost use Rattle.std.specs.Prelude.{◌≡◌, codes};
ghost use Rattle.amqp_idle.specs.declared.due.Due.TheVariants as due;
ghost use Rattle.amqp_driver.specs.Stream.{is_opened, is_running, waiting};
ghost use Rattle.amqp_driver.specs.StreamTicking.{DoesDue, DoesTick, TellsOpened, TicksStream, beaten, no_tick};

use super::Stream;
use super::taking::close_for;
use amqp_idle::{Due, Tick};
use amqp_session::LinkRelay;
use amqp_types::ConnectionState;

/// That nothing is due, and no tick is wanted.
fn no_tick() -> Tick
    ensures { result ≡ no_tick }
{
    Tick {
        due: Due::Nothing,
        next: None,
    }
}

impl<R: LinkRelay> Stream<R> {
    /// Tells the time, in milliseconds of the clock that [`Stream::new`] was told, and does what is due. It answers what that was, and when the next
    /// tick is wanted. It is called then at the latest, and after each batch of other calls, since these may move that time.
    ///
    /// From both Opens on: where nothing was sent for half of the peer's `idle-time-out` an empty frame waits to be sent, unless something else
    /// does (`Beat`). Where nothing came for as long as this side's own, the stream closes, for `amqp:resource-limit-exceeded`, and is over
    /// (`PeerSilent`). Where both Opens have not passed within the limit of [`Stream::new`], it is over (`OpeningLate`). A side that has closed
    /// sends no empty frames. A stream that is over wants no tick.
    pub fn tick(&mut self, now: u64) -> Tick
        ensures { TicksStream R.gives self.old now result self.new }
    {
        if self.is_over() {
            return no_tick();
        }
        self.tell_opened(now);
        let tick = self.clock.tick(now);
        self.do_due(tick.due);
        tick
    }

    /// Tells the clock of both Opens, once they have passed.
    fn tell_opened(&mut self, now: u64)
        ensures clock { TellsOpened (is_opened self.old.driver.engine.connection) self.old.driver.engine.connection now self.old.clock self.new.clock }
        ensures rest { self.new ≡ record self.old { clock = self.new.clock } }
    {
        let connection = self.driver.engine().connection();
        if matches!(connection.local_state(), ConnectionState::OpenReceived) {
            return;
        }
        if let Some(open) = connection.remote_open() {
            let ours = connection.local_open().idle_time_out;
            self.clock.opened(now, ours, open.idle_time_out);
        }
    }

    /// Does what is due.
    fn do_due(&mut self, due: Due)
        ensures { DoesDue R.gives due self.old self.new }
    {
        match due {
            Due::Beat => self.beat(),
            Due::PeerSilent => self.close_silent(),
            Due::Nothing | Due::OpeningLate => {}
        }
    }

    /// Sends an empty frame, where neither side has closed and nothing else waits.
    fn beat(&mut self)
        ensures { self.new ≡ beaten self.old }
    {
        if !self.is_running() {
            return;
        }
        if self.out().is_empty() {
            self.beat = 8;
        }
    }

    /// Closes, since the peer is silent.
    fn close_silent(&mut self)
        ensures { DoesDue R.gives due.PeerSilent self.old self.new }
    {
        close_for(self.alloc, &mut self.driver, "amqp:resource-limit-exceeded");
    }

    /// Whether both sides have opened, and neither has closed.
    fn is_running(&self) -> bool
        ensures { result ≡ is_running self.now }
    {
        self.opening.is_open()
            && matches!(
                self.driver.engine().connection().local_state(),
                ConnectionState::Opened
            )
    }
}
