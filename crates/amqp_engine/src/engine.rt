//! The engine: received frames and local requests go in, the bytes of frames come out.

ghost use Rattle.std.specs.Prelude.{◌≡◌, [], Some, IfSome, is_some, nat_eq};
ghost use Rattle.std.specs.Map.{lookup};
ghost use Rattle.std.specs.FinMap as map;
ghost use Rattle.std.specs.Option.{option_map};
ghost use Rattle.amqp_session.specs.declared.keys.KeyHash.TheVariants.{Fixed};
ghost use Rattle.amqp_engine.specs.Waits.{has_frames};
ghost use Rattle.amqp_engine.specs.EngineView.{new_engine, output_handle_at, own_limit};
ghost use Rattle.amqp_engine.specs.Stepped.{Stepped};
ghost use Rattle.amqp_engine.specs.Legal.{Legal};
ghost use Rattle.amqp_connection.specs.Connection.{refusal_of};

pub mod answer;
mod debug;
mod forgetting;
pub(crate) mod handle_state;
mod handling;
pub mod input;
mod limits;
mod output;
mod output_queue;
mod peer_encoder;
mod performatives;
mod received;
pub mod refusal;
mod refused;
mod request_transfer;
mod requested;
mod run;
mod run_frame;
mod run_into;
mod run_one;
mod run_received;
mod sessions;
pub mod step_error;
pub(crate) mod wish;

use crate::laws::law_of_histories;
use amqp_connection::{Connection, SessionNo};
use amqp_frames::{FrameDecoder, HeaderPool};
use amqp_numbers::NumberSet;
use amqp_session::keys::{Hints, KeyHash};
use amqp_session::{IncomingChannel, LinkRelay, OutputHandle, Session};
use amqp_types::{ConnectionState, Open};
pub use answer::{Answer, OutputError, Stopped};
use handle_state::HandleState;
use indexmap::IndexMap;
pub use input::Input;
use output_queue::OutputQueue;
use peer_encoder::PeerEncoder;
pub use refusal::Refusal;
use std::alloc::Global;
use std::marker::Model;
pub use step_error::StepError;

/// A connection with its sessions and its frames. Received frames and local requests go in; the frames that are to be sent, or
/// refusals, come out (AMQP 1.0 part 2, sections 2.3 to 2.5). It does no input or output itself. Each link of a session has a
/// relay of the type `R`.
///
/// [`Engine::run`] and [`Engine::run_into`] take many inputs in a row. [`Engine::step`] and [`Engine::next_output`] are the same, one by one.
///
/// ```
/// /// Requests this side's Open. The answers are `Done`, and after it the pieces of the Open.
/// pub fn open<R: LinkRelay>(
///     alloc: Global,
///     engine: &mut Engine<R>,
///     answers: &mut Vec<Answer>,
/// ) -> io::Result<()> {
///     let mut inputs = VecDeque::new(alloc);
///     push(&mut inputs, Input::Open)?;
///     match engine.run(&mut inputs, answers) {
///         Ok(()) => Ok(()),
///         Err(_stopped) => Err(io::Error::from(ErrorKind::OutOfMemory)),
///     }
/// }
/// ```
///
/// `push` is the one of `amqp_transport`. The engine itself is made by
/// `Engine::keyed(alloc, KeyHash::Keyed(RandomState::new(&rt)?), ConnectionState::HeaderExchange, open)`, where `alloc` is `rt.alloc()`.
pub struct Engine<R> {
    alloc: Global,
    hash: KeyHash,
    connection: Connection,
    sessions: IndexMap<u32, Session<R>>,
    /// At which index of that map a session may be. A hint may be wrong, so no contract speaks of it.
    hints: Hints,
    /// The numbers of the sessions that were forgotten.
    forgotten: NumberSet,
    decoder: FrameDecoder,
    encoder: PeerEncoder,
    heads: HeaderPool,
    waiting: OutputQueue,
    kept: HandleState,
}

// prover
impl<R: Drop> Drop for Engine<R> {
    fn drop(self) {
        let Engine {
            alloc: _,
            hash: _,
            connection,
            sessions,
            hints: _,
            forgotten,
            decoder: _,
            encoder: _,
            heads,
            waiting,
            kept,
        } = self;
        drop(connection);
        drop(sessions);
        drop(forgotten);
        drop(heads);
        drop(waiting);
        drop(kept);
    }
}

impl<R> Model for Engine<R> {
    ghost use Rattle.std.specs.Coded.{codes};
    ghost use Rattle.std.specs.FinMap as map;
    ghost use Rattle.std.specs.Prelude.{◌≡◌};
    ghost use Rattle.amqp_session.specs.Hashing.{hash_code};
    ghost use Rattle.amqp_session.specs.Links.{links_code};
    ghost use Rattle.amqp_connection.specs.Channels.{channel_table_code};
    ghost use Rattle.amqp_engine.specs.EngineView.{EngineView, views_of, walks_of};
    ghost use Rattle.amqp_engine.specs.Inner.Places.{Seated};

    ghost Value = { EngineView R };

    ghost coded = { Prim.hlevel (codes, channel_table_code, hash_code, links_code, map.code) };

    ghost view = { λ e. record {
      connection = e.connection;
      sessions = views_of e.sessions.entries;
      walks = walks_of e.sessions.entries;
      forgotten = e.forgotten;
      limit = e.encoder;
      waiting = e.waiting;
      outcomes = e.kept.outcomes;
      wishes = e.kept.wishes;
    } };

    ghost invariant = { λ e. Seated e.sessions.entries e.kept.places × (e.connection.hash ≡ e.hash) };
}

/// The limit of a piece before the peer's Open.
fn first_limit(local_open: &Open) -> u32
    ensures { result ≡ own_limit local_open.now }
{
    local_open.max_frame_size.saturating_sub(4).max(4)
}

impl<R: LinkRelay> Engine<R> {
    /// An engine whose connection is in this state and is to send this Open, with no session. Takes no memory. After an exchange of
    /// protocol headers the state is `HeaderExchange`.
    ///
    /// Until the peer's Open is accepted, a piece has at most the `max_frame_size` of `local_open` less 4 bytes, and the limit is never
    /// below 4 (AMQP 1.0 part 2, section 2.7.1). Names of links, input handles and incoming channels are found by [`KeyHash::Fixed`]. Use
    /// [`Engine::keyed`] for a peer that is not trusted.
    pub fn new(alloc: Global, state: ConnectionState, local_open: Open) -> Engine<R>
        ensures legal { Legal R.gives state local_open [] result }
        ensures new { result ≡ new_engine Fixed state local_open }
    {
        Engine::keyed(alloc, KeyHash::Fixed, state, local_open)
    }

    /// The same engine as [`Engine::new`] makes, which finds names of links, input handles and incoming channels by this hash. With a key
    /// that the peer does not know, the peer cannot choose them so that they collide.
    pub fn keyed(
        alloc: Global,
        hash: KeyHash,
        state: ConnectionState,
        local_open: Open,
    ) -> Engine<R>
        ensures legal { Legal R.gives state local_open [] result }
        ensures new { result ≡ new_engine hash state local_open }
    {
        Engine {
            alloc,
            hash,
            encoder: PeerEncoder::new(first_limit(&local_open)),
            heads: HeaderPool::new(alloc),
            decoder: FrameDecoder::new(),
            connection: Connection::keyed(alloc, hash, state, local_open),
            sessions: IndexMap::new(alloc),
            forgotten: NumberSet::new(alloc),
            waiting: OutputQueue::none(),
            kept: HandleState::new(alloc),
            hints: Hints::new(),
        }
    }

    /// The connection: its state, its stop reason, both Opens, and where frames of the peer's go.
    pub fn connection(&self) -> &Connection
        ensures { result.now ≡ self.now.connection }
    {
        &self.connection
    }

    /// The session with this number. `None` where no session was begun under it, or where it was forgotten. A session that has ended
    /// is still there until [`Input::Forget`] takes it away.
    pub fn session(&self, number: SessionNo) -> Option<&Session<R>>
        ensures found { IfSome result (λ s. lookup (nat_eq number.0) self.now.sessions ≡ Some s.now.view) }
        ensures walk { IfSome result (λ s. lookup (nat_eq number.0) self.now.walks ≡ Some s.now.last_walk) }
        ensures known { is_some result ≡ is_some (lookup (nat_eq number.0) self.now.sessions) }
    {
        self.sessions.get(&number.0)
    }

    /// The number of the session to which frames on this channel of the peer's go (AMQP 1.0 part 2, section 2.5.1). `None` where they go to
    /// none: no accepted Begin on the channel named a session, or an accepted End came on it since.
    pub fn session_of(&self, channel: IncomingChannel) -> Option<SessionNo>
        ensures { result ≡ option_map (λ n. record { 0 = n }) (map.get self.now.connection.session_by_incoming_channel channel.0) }
    {
        self.connection.session_tx_by_incoming_channel(channel)
    }

    /// The output handle of the live link of this name in a session: the one that its Attach, its transfers and its flows go out with.
    /// `None` where there is no such session, or no such link.
    pub fn output_handle(&self, number: SessionNo, name: &str) -> Option<OutputHandle>
        ensures { result ≡ output_handle_at name.now (lookup (nat_eq number.0) self.now.sessions) }
    {
        self.session(number)?.output_handle(name)
    }

    /// Whether frames wait to be put out. While they do, [`Engine::step`] refuses each input with `OutputWaiting`.
    pub fn has_output(&self) -> bool
        ensures { result ≡ has_frames self.now.waiting }
    {
        self.waiting.has_frames()
    }

    /// Takes one input: connection and sessions do what it asks, and the frames that this hands out wait to be put out. [`Input`] says
    /// of each input when it is accepted, and how it is refused else.
    ///
    /// Nothing changes where the refusal is `OutputWaiting` (frames still wait), `Frame` (the received bytes are no frame, or
    /// memory for its fields is refused), `NoSession`, `SessionInUse`, `AllocSession`, or `OutOfMemory`. A `Begin` is refused
    /// `OutOfMemory` where the engine has no room for one more session, a `Forget` where it has none for the number, and a received
    /// Close or End with an error where the copy that the engine keeps for handles is refused. Every other refusal is that of the
    /// connection or of the session.
    ///
    /// The input is used up, whatever the answer: a refused request is gone with what it held.
    pub fn step(&mut self, input: Input<R>) -> Result<(), StepError>
        ensures { Stepped R.gives self.old input (refusal_of result) self.new }
    {
        law_of_histories::<R>();
        if self.has_output() {
            drop(input);
            return Err(StepError::OutputWaiting);
        }
        self.dispatch(input)
    }
}
