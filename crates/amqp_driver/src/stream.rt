//! A stream: one side of a connection, from its first byte to its last.

ghost use Rattle.std.specs.Prelude.{◌≡◌, ◌≤◌, ◌++◌, [], List, ℕ, IfOk, length};
ghost use Rattle.amqp_types.specs.declared.states.ConnectionState.TheVariants.{HeaderExchange};
ghost use Rattle.amqp_engine.specs.Legal.{Legal};
ghost use Rattle.amqp_driver.specs.Stream.{Begun, beat_bytes, having_sent, is_over, waiting};

mod answering;
mod asking;
mod taking;
mod ticking;

use crate::driver::Driver;
use amqp_engine::Engine;
use amqp_idle::IdleClock;
use amqp_sasl::{Opening, OpeningError};
use amqp_session::LinkRelay;
use amqp_session::keys::KeyHash;
use amqp_types::{ConnectionState, Open};
use bytes::BytesMut;
use std::alloc::Global;
use std::marker::Model;

/// A frame without a body, with its size.
const EMPTY_FRAME: [u8; 8] = [0, 0, 0, 8, 2, 0, 0, 0];

/// One side of a connection from the stream's first byte on: protocol headers, SASL where it is asked for, frames, and the time (AMQP 1.0 part 2,
/// sections 2.2 and 2.4.5; part 5, section 5.3). Received bytes go in by [`Stream::take`], which tells what came by records; requests go in by
/// [`Stream::request`] and [`Stream::send`]; what is to be sent stands in [`Stream::out`], and [`Stream::tick`] says what is due. It does no
/// input or output itself, and reads no clock.
///
/// No frame is run before both headers of AMQP have passed, and, where SASL is asked for, before a login: a server's own [`Stream::login`] with
/// the code `Ok`, or a client's outcome `ok`. Requests that are made before wait to be sent until then.
///
/// ```
/// let mut stream = Stream::new(alloc, now, Some(10_000), Opening::plain(alloc), hash, open)?;
/// stream.request(Input::Open);
/// write(stream.out());                               // and then stream.sent(count)
/// let taken = stream.take(now, received, &mut records);   // go on at &received[taken.taken..], where it says `Again`
/// let tick = stream.tick(now);                       // by tick.next at the latest, the next one
/// ```
pub struct Stream<R> {
    alloc: Global,
    opening: Opening,
    first: BytesMut,
    clock: IdleClock,
    /// At most 8.
    beat: usize,
    is_bad: bool,
    driver: Driver<R>,
}

impl<R: Drop> Drop for Stream<R> {
    fn drop(self) {
        let Stream {
            alloc: _,
            opening,
            first,
            clock: _,
            beat: _,
            is_bad: _,
            driver,
        } = self;
        drop(opening);
        drop(first);
        drop(driver);
    }
}

impl<R> Model for Stream<R> {
    ghost use Rattle.std.specs.Coded.{codes};
    ghost use Rattle.std.specs.FinMap as map;
    ghost use Rattle.std.specs.Prelude.{◌≤◌};
    ghost use Rattle.amqp_session.specs.Hashing.{hash_code};
    ghost use Rattle.amqp_session.specs.Links.{links_code};
    ghost use Rattle.amqp_connection.specs.Channels.{channel_table_code};
    ghost use Rattle.amqp_driver.specs.Stream.{StreamView};

    ghost Value = { StreamView R };

    ghost coded = { Prim.hlevel (codes, channel_table_code, hash_code, links_code, map.code) };

    ghost view = { λ s. record {
      opening = s.opening;
      first = s.first.items;
      clock = s.clock;
      beat = s.beat;
      is_bad = s.is_bad;
      driver = s.driver;
    } };

    ghost invariant = { λ s. s.beat ≤ 8 };
}

/// The last so many bytes of an empty frame.
fn beat_bytes(count: usize) -> &'static [u8]
    requires { count ≤ 8 }
    ensures { result.now ≡ beat_bytes count }
{
    &EMPTY_FRAME[8 - count..]
}

impl<R: LinkRelay> Stream<R> {
    /// A stream that begins at the time `now`, in milliseconds of any clock that the caller has. `opening_limit` is how many milliseconds headers,
    /// SASL and both Opens may take: `None` sets no limit. `opening` is a new one, and says which side this is; [`Engine::keyed`] says what the hash
    /// is for. The stream's first header waits to be sent.
    ///
    /// `OutOfMemory` where room for the header is refused; `WrongTime` where the opening is not new.
    pub fn new(
        alloc: Global,
        now: u64,
        opening_limit: Option<u32>,
        opening: Opening,
        hash: KeyHash,
        local_open: Open,
    ) -> Result<Stream<R>, OpeningError>
        ensures begun { Begun opening now opening_limit hash local_open result }
        ensures legal { IfOk result (λ s. Legal R.gives HeaderExchange local_open [] s.driver.engine) }
    {
        let mut opening = opening;
        let mut first = BytesMut::new(alloc);
        opening.begin(&mut first)?;
        Ok(Stream {
            alloc,
            opening,
            first,
            clock: IdleClock::new(now, opening_limit),
            beat: 0,
            is_bad: false,
            driver: Driver::new(alloc, hash, ConnectionState::HeaderExchange, local_open),
        })
    }

    /// The driver of its frames: its engine, and what it asks without changing anything.
    pub fn driver(&self) -> &Driver<R>
        ensures { result.now ≡ self.now.driver }
    {
        &self.driver
    }

    /// The engine: its connection, and its sessions.
    pub fn engine(&self) -> &Engine<R>
        ensures { result.now ≡ self.now.driver.engine }
    {
        self.driver.engine()
    }

    /// Where the opening stands.
    pub fn opening(&self) -> &Opening
        ensures { result.now ≡ self.now.opening }
    {
        &self.opening
    }

    /// Whether it is over: a header or a login was refused, the opening was late or the peer silent, a size came that no frame may have, or both
    /// Closes have passed. Then nothing is taken and nothing is asked for any more. What waits is still to be sent.
    pub fn is_over(&self) -> bool
        ensures { result ≡ is_over self.now }
    {
        self.opening.is_over()
            || self.clock.is_over()
            || self.is_bad
            || matches!(
                self.driver.engine().connection().local_state(),
                ConnectionState::End
            )
    }

    /// The next bytes to send, as many as lie together: a prefix of what waits, and empty only where nothing waits. Headers and SASL frames
    /// come first; frames wait until the peer's header of AMQP has come.
    pub fn out(&self) -> &[u8]
        ensures front { (rest : List ℕ) × (waiting self.now ≡ result.now ++ rest) }
        ensures some { result.now ≡ [] → waiting self.now ≡ [] }
        ensures beat { self.now.beat ≤ 8 }
    {
        if !self.first.is_empty() {
            return self.first.as_slice();
        }
        if !self.opening.is_open() {
            return &[];
        }
        if self.beat > 0 {
            return beat_bytes(self.beat);
        }
        self.driver.out()
    }

    /// Takes the first `count` bytes off: they were sent. No more than wait.
    pub fn sent(&mut self, count: usize)
        requires { count ≤ length (waiting self.old) }
        ensures { self.new ≡ having_sent count self.old }
    {
        if count == 0 {
            return;
        }
        let of_first = count.min(self.first.len());
        self.first.advance(of_first);
        self.free_first();
        let of_beat = (count - of_first).min(self.beat);
        self.beat -= of_beat;
        self.driver.sent(count - of_first - of_beat);
        self.clock.sent(0);
    }

    /// Gives the room of headers and SASL back, where none of them waits.
    fn free_first(&mut self)
        ensures { self.new ≡ self.old }
    {
        if self.first.is_empty() {
            self.first = BytesMut::new(self.alloc);
        }
    }
}
