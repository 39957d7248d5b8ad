//! The opening of a connection: headers and SASL, before the first frame of AMQP (AMQP 1.0 part 2, section 2.2; part 5, section 5.3).

ghost use Rattle.std.specs.Prelude.{◌≡◌, ◌≢◌, ◌≤◌, ◌↔◌, ◌+◌, ◌++◌, [], None, length, true, OnOk, OnErr, IsSome, IfSome, IfOk, option_copied, option_map, string_bytes};
ghost use Rattle.amqp_memory.specs.Refusal.{SomeRefused};
ghost use Rattle.amqp_sasl.specs.declared.opening.Side.TheVariants as side;
ghost use Rattle.amqp_sasl.specs.Opening.{is_over, is_done, Begins, Logs, Challenges, Responds, fresh};

mod reading;
mod sending;

use crate::body::SaslCode;
use crate::told::OpeningError;
use amqp_values::Symbol;
use bytes::{Bytes, BytesMut};
use std::alloc::Global;
use std::marker::Model;

/// A way of logging in: a mechanism, and what its initial response is. It has no `Debug`, since a response may hold a password.
#[derive(Drop)]
pub struct Login {
    /// The mechanism's name.
    pub mechanism: Symbol,
    /// The initial response, if the mechanism has one.
    pub response: Option<Bytes>,
}

/// Which side an opening is of, and whether SASL is asked for.
#[derive(Clone, Copy, Debug, PartialEq, Eq)]
pub enum Side {
    /// Either side, without SASL.
    Plain,
    /// The client of SASL.
    Client,
    /// The server of SASL.
    Server,
}

/// Where an opening stands.
#[derive(Clone, Copy, Debug, PartialEq, Eq)]
pub enum Phase {
    /// Nothing has gone out.
    Fresh,
    /// This side's first header is out, and the peer's is awaited.
    AwaitsHeader,
    /// A client awaits the mechanisms of the server.
    AwaitsMechanisms,
    /// A client awaits a challenge or the outcome.
    AwaitsOutcome,
    /// A client was challenged: `respond` is awaited.
    AsksResponse,
    /// A server awaits the client's choice of a mechanism.
    AwaitsInit,
    /// A client asks a server to be let in: `login` or `challenge` is awaited.
    AsksLogin,
    /// A server awaits the response to its challenge.
    AwaitsResponse,
    /// SASL is done, and this side's header of AMQP is out: the peer's is awaited.
    AwaitsAmqp,
    /// Both headers of AMQP have passed: frames of AMQP follow.
    Open,
    /// The connection is not opened.
    Over,
}

/// The opening of a connection, on one side. It has no input and no output: received bytes are given to [`Opening::take`], which takes
/// one header or one frame off their front, and each call appends what is to be sent to a buffer.
///
/// ```
/// let mut opening = Opening::client(alloc, logins, None);
/// opening.begin(&mut out)?;                          // the header of SASL is to be sent
/// let taken = opening.take(received, &mut out)?;     // go on at &received[taken.len..]
/// if opening.is_open() {}                            // frames of AMQP follow
/// ```
#[derive(Drop)]
pub struct Opening {
    side: Side,
    /// A client's logins, in the order in which it prefers them.
    logins: Vec<Login>,
    /// The host that a client asks for.
    hostname: Option<String>,
    /// The mechanisms that a server offers.
    mechanisms: Vec<Symbol>,
    phase: Phase,
}

impl Model for Opening {
    ghost use Rattle.std.specs.Prelude.{◌≡◌, ◌≢◌, [], string_bytes};
    ghost use Rattle.std.specs.Option.{option_map};
    ghost use Rattle.amqp_sasl.specs.declared.opening.Side.TheVariants.{Server};
    ghost use Rattle.amqp_sasl.specs.Opening.{OpeningView};

    ghost Value = { OpeningView };

    ghost view = { λ o. record {
      side = o.side;
      logins = o.logins.items;
      hostname = option_map string_bytes o.hostname;
      names = o.mechanisms.items;
      phase = o.phase;
    } };

    ghost invariant = { λ o. o.side ≡ Server → o.mechanisms.items ≢ [] };
}

impl Opening {
    /// The opening of either side, without SASL.
    pub fn plain(alloc: Global) -> Opening
        ensures { result ≡ fresh side.Plain [] None [] }
    {
        Opening {
            side: Side::Plain,
            logins: Vec::new(alloc),
            hostname: None,
            mechanisms: Vec::new(alloc),
            phase: Phase::Fresh,
        }
    }

    /// The opening of a client that logs in: by the first of these logins whose mechanism the server offers. The host, if any, is the one
    /// that it asks for.
    pub fn client(alloc: Global, logins: Vec<Login>, hostname: Option<String>) -> Opening
        ensures { result ≡ fresh side.Client logins.items (option_map string_bytes hostname) [] }
    {
        Opening {
            side: Side::Client,
            logins,
            hostname,
            mechanisms: Vec::new(alloc),
            phase: Phase::Fresh,
        }
    }

    /// The opening of a server that offers these mechanisms; `None` where there is none, which the standard does not allow (part 5,
    /// section 5.3.3.1).
    pub fn server(alloc: Global, mechanisms: Vec<Symbol>) -> Option<Opening>
        ensures some { IsSome result ↔ (mechanisms.items ≢ []) }
        ensures value { IfSome result (λ o. o ≡ fresh side.Server [] None mechanisms.items) }
    {
        if mechanisms.is_empty() {
            return None;
        }
        Some(Opening {
            side: Side::Server,
            logins: Vec::new(alloc),
            hostname: None,
            mechanisms,
            phase: Phase::Fresh,
        })
    }

    /// Where it stands.
    pub fn phase(&self) -> Phase
        ensures { result ≡ self.now.phase }
    {
        self.phase
    }

    /// Whether both headers of AMQP have passed, after a login where SASL was asked for: frames of AMQP follow.
    pub fn is_open(&self) -> bool
        ensures { result ≡ is_done self.now.phase }
    {
        matches!(self.phase, Phase::Open)
    }

    /// Whether the connection is not opened: nothing is taken any more, and nothing goes out.
    pub fn is_over(&self) -> bool
        ensures { result ≡ is_over self.now.phase }
    {
        matches!(self.phase, Phase::Over)
    }

    /// Appends this side's first header to what is to be sent: that of SASL where it is asked for, else that of AMQP. It is the first call.
    ///
    /// `WrongTime` where it is not the first one; `OutOfMemory` where room for eight bytes is refused. Then nothing changes.
    pub fn begin(&mut self, out: &mut BytesMut) -> Result<(), OpeningError>
        ensures { Begins self.old out.old.items result out.new.items self.new }
    {
        if self.phase != Phase::Fresh {
            return Err(OpeningError::WrongTime);
        }
        sending::header(sending::first(self.side), out)?;
        self.phase = Phase::AwaitsHeader;
        Ok(())
    }

    /// A server's answer to a client that asked to be let in. `Ok` lets it in: the outcome is appended, and the header of AMQP. Another
    /// code does not: its outcome is appended, and the opening is over. The additional data, if any, are those of the mechanism.
    ///
    /// `WrongTime` where no login is asked; `TooLarge` where the frame would have more than 512 bytes; `OutOfMemory` where room is refused.
    /// Then nothing changes.
    pub fn login(
        &mut self,
        code: SaslCode,
        additional: Option<&[u8]>,
        out: &mut BytesMut,
    ) -> Result<(), OpeningError>
        ensures { Logs code (option_copied additional.entry) self.old out.old.items result out.new.items self.new }
    {
        if self.phase != Phase::AsksLogin {
            return Err(OpeningError::WrongTime);
        }
        if code == SaslCode::Ok {
            sending::let_in(additional, out)?;
            self.phase = Phase::AwaitsAmqp;
        } else {
            sending::outcome(code, additional, out)?;
            self.phase = Phase::Over;
        }
        Ok(())
    }

    /// A server's challenge to a client that asked to be let in: the frame is appended, and one response is awaited.
    ///
    /// The errors are those of [`Opening::login`].
    pub fn challenge(&mut self, challenge: &[u8], out: &mut BytesMut) -> Result<(), OpeningError>
        ensures { Challenges challenge.now self.old out.old.items result out.new.items self.new }
    {
        if self.phase != Phase::AsksLogin {
            return Err(OpeningError::WrongTime);
        }
        sending::challenge(challenge, out)?;
        self.phase = Phase::AwaitsResponse;
        Ok(())
    }

    /// A client's response to a challenge: the frame is appended, and another challenge or the outcome is awaited.
    ///
    /// `WrongTime` where there was no challenge; the other errors are those of [`Opening::login`].
    pub fn respond(&mut self, response: &[u8], out: &mut BytesMut) -> Result<(), OpeningError>
        ensures { Responds response.now self.old out.old.items result out.new.items self.new }
    {
        if self.phase != Phase::AsksResponse {
            return Err(OpeningError::WrongTime);
        }
        sending::response(response, out)?;
        self.phase = Phase::AwaitsOutcome;
        Ok(())
    }
}
