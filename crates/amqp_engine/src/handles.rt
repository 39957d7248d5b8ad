//! Handles over an engine: a handle closes the connection, or ends a session, and gives the peer's answer once.
//!
//! A handle is a value; its calls are handed the engine, which notes the request until the next run. Such a noted request is the handle's
//! *wish*. A dropped handle requests nothing.

ghost use Rattle.std.specs.Prelude.{◌≡◌, IfSome, is_some, nat_eq, false};
ghost use Rattle.std.specs.Map.{lookup};

mod connection_handle;
mod debug;
mod run;
mod session_handle;

use crate::engine::Engine;
use amqp_connection::SessionNo;
use amqp_session::LinkRelay;
pub use connection_handle::ConnectionHandle;
pub use session_handle::SessionHandle;
use std::marker::Model;

/// An engine whose connection and sessions have handles, with what the handles have requested.
///
/// ```
/// let mut engine = HandledEngine::new(engine);
/// let mut handle = engine.connection_handle();
/// handle.close(&mut engine)?;
/// engine.run(&mut inputs, &mut answers)?; // sends the Close
/// // Once the peer's Close came and was run:
/// let closed = handle.try_close(&mut engine);
/// ```
#[derive(Drop)]
pub struct HandledEngine<R> {
    engine: Engine<R>,
}

impl<R> Model for HandledEngine<R> {
    ghost use Rattle.std.specs.Coded.{codes};
    ghost use Rattle.std.specs.FinMap as map;
    ghost use Rattle.amqp_session.specs.Hashing.{hash_code};
    ghost use Rattle.amqp_session.specs.Links.{links_code};
    ghost use Rattle.amqp_connection.specs.Channels.{channel_table_code};
    ghost use Rattle.amqp_engine.specs.EngineView.{EngineView};

    ghost Value = { EngineView R };

    ghost coded = { Prim.hlevel (codes, channel_table_code, hash_code, links_code, map.code) };

    ghost view = { λ h. h.engine };
}

impl<R: LinkRelay> HandledEngine<R> {
    /// The engine as it stands, with its sessions; handles may be made of it from now on.
    pub fn new(engine: Engine<R>) -> HandledEngine<R>
        ensures { result ≡ engine }
    {
        HandledEngine { engine }
    }

    /// The engine, to be looked at. Only [`HandledEngine::run`] and the handles change it.
    pub fn engine(&self) -> &Engine<R>
        ensures { result.now ≡ self.now }
    {
        &self.engine
    }

    /// A handle of the connection. Any number of them may be made. The engine keeps one answer of the peer: the first handle that asks takes
    /// it, and a later one gets `IllegalState`.
    pub fn connection_handle(&self) -> ConnectionHandle
        ensures { result ≡ false }
    {
        ConnectionHandle::new()
    }

    /// A handle of the session with this number. `None` where no session has it: it was not begun, or was forgotten. Any number of handles
    /// may be made.
    pub fn session_handle(&self, number: SessionNo) -> Option<SessionHandle>
        ensures known { is_some result ≡ is_some (lookup (nat_eq number.0) self.now.sessions) }
        ensures new { IfSome result (λ h. h ≡ record { number = number.0; answered = false }) }
    {
        match self.engine.session(number) {
            Some(_) => Some(SessionHandle::new(number)),
            None => None,
        }
    }
}
