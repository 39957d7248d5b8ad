//! A driver: one side of a connection, as an engine and the bytes that it has to send.

ghost use Rattle.std.specs.Prelude.{◌≡◌, ◌≤◌, ◌++◌, [], List, ℕ, length, drop};
ghost use Rattle.amqp_engine.specs.EngineView.{new_engine};
ghost use Rattle.amqp_engine.specs.Legal.{Legal};
ghost use Rattle.amqp_engine.specs.Promise.{Ends, NoneLeft};
ghost use Rattle.amqp_engine.specs.RunInto.{RanInto};

mod answering;
mod by_fields;
mod cutting;
mod ending;
mod sending;
mod settling;
mod taking;
mod telling;

use amqp_engine::{Engine, Input, Refusal, Stopped};
use amqp_frames::SendBuffer;
use amqp_session::LinkRelay;
use amqp_session::keys::KeyHash;
use amqp_types::{ConnectionState, Open};
use std::alloc::Global;
use std::collections::VecDeque;
use std::marker::Model;
pub(crate) use taking::seen;

/// One side of a connection. Received bytes go in by [`Driver::take`], which runs each whole frame once and writes what it says as a
/// [`Record`](crate::Record); requests go in by [`Driver::run`]. What is to be sent stands in [`Driver::out`]. It does no input or output
/// itself, and it begins behind the protocol headers (AMQP 1.0 part 2, section 2.2).
///
/// A contract sees the engine, the bytes that wait to be sent, and how many frames did not fit.
pub struct Driver<R> {
    alloc: Global,
    engine: Engine<R>,
    out: SendBuffer,
    /// Empty between calls.
    returned: Vec<Refusal>,
    unfit: u32,
}

impl<R: Drop> Drop for Driver<R> {
    fn drop(self) {
        let Driver {
            alloc: _,
            engine,
            out,
            returned,
            unfit: _,
        } = self;
        drop(engine);
        drop(out);
        drop(returned);
    }
}

impl<R> Model for Driver<R> {
    ghost use Rattle.std.specs.Coded.{codes};
    ghost use Rattle.std.specs.FinMap as map;
    ghost use Rattle.std.specs.Prelude.{◌≡◌, []};
    ghost use Rattle.amqp_session.specs.Hashing.{hash_code};
    ghost use Rattle.amqp_session.specs.Links.{links_code};
    ghost use Rattle.amqp_connection.specs.Channels.{channel_table_code};
    ghost use Rattle.amqp_driver.specs.Driver.{DriverView};

    ghost Value = { DriverView R };

    ghost coded = { Prim.hlevel (codes, channel_table_code, hash_code, links_code, map.code) };

    ghost view = { λ d. record { engine = d.engine; to_send = d.out.bytes; unfit = d.unfit } };

    ghost invariant = { λ d. d.returned.items ≡ [] };
}

impl<R: LinkRelay> Driver<R> {
    /// A driver whose connection is in this state and is to send this Open; [`Engine::keyed`] says what the hash is for. Takes no memory.
    pub fn new(alloc: Global, hash: KeyHash, state: ConnectionState, local_open: Open) -> Driver<R>
        ensures new { result ≡ record { engine = new_engine hash state local_open; to_send = []; unfit = 0 } }
        ensures legal { Legal R.gives state local_open [] result.engine }
    {
        Driver {
            alloc,
            engine: Engine::keyed(alloc, hash, state, local_open),
            out: SendBuffer::new(alloc),
            returned: Vec::new(alloc),
            unfit: 0,
        }
    }

    /// The engine: its connection, and its sessions.
    pub fn engine(&self) -> &Engine<R>
        ensures { result.now ≡ self.now.engine }
    {
        &self.engine
    }

    /// The next bytes to send, as many as lie together: a front of what waits, and empty only where nothing waits.
    pub fn out(&self) -> &[u8]
        ensures front { (rest : List ℕ) × (self.now.to_send ≡ result.now ++ rest) }
        ensures some { result.now ≡ [] → self.now.to_send ≡ [] }
    {
        self.out.chunk()
    }

    /// Takes the first `count` bytes off: they were sent. No more than wait.
    pub fn sent(&mut self, count: usize)
        requires { count ≤ length self.old.to_send }
        ensures { self.new ≡ record self.old { to_send = drop count self.old.to_send } }
    {
        self.out.advance(count);
    }

    /// How many frames that [`Driver::take`] was to send did not fit the peer's limit, and were not sent: at most 4294967295 are counted. A side
    /// whose transfers fit its peer's max-frame-size sees none.
    pub fn unfit(&self) -> u32
        ensures { result ≡ self.now.unfit }
    {
        self.unfit
    }

    /// Runs the inputs, as [`Engine::run_into`] does: what is to be sent waits in [`Driver::out`], and what is refused is appended to
    /// `refusals`. Where memory is refused it stops, and says how many it took; the others stay in `inputs`.
    pub fn run(
        &mut self,
        inputs: &mut VecDeque<Input<R>>,
        refusals: &mut Vec<Refusal>,
    ) -> Result<(), Stopped>
        ensures ran { RanInto R.gives self.old.engine inputs.old.items self.old.to_send refusals.old.items self.new.engine inputs.new.items self.new.to_send refusals.new.items }
        ensures ends { Ends (NoneLeft inputs.new.items self.new.engine) inputs.old.items inputs.new.items result }
        ensures unfit { self.new.unfit ≡ self.old.unfit }
    {
        self.engine.run_into(inputs, &mut self.out, refusals)
    }
}
