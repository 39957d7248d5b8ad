//! What an opening takes: a header, or a SASL frame.

ghost use Rattle.std.specs.Prelude.{◌≡◌, ◌≢◌, ◌≤◌, [], length, take, Ok};
ghost use Rattle.std.specs.Option.{option_map};
ghost use Rattle.amqp_sasl.specs.SaslFrame.{part, names_in, has_name, AreWithin, IsWithin};
ghost use Rattle.amqp_sasl.specs.declared.opening.Phase.TheVariants as phase;
ghost use Rattle.amqp_sasl.specs.Opening.{after_header, greeted, choose, on_mechanisms, on_outcome, on_init, on_body, Acts, TakesHeader, TakesFrame, Takes};

use super::{Login, Opening, Phase, Side, sending};
use crate::body::{Body, SaslCode};
use crate::frame::{ReceivedFrame, read_frame};
use crate::header::{Protocol, ReceivedHeader, read_header};
use crate::names::is_offered;
use crate::place::Place;
use crate::told::{OpeningError, Taken, Told};
use amqp_values::Symbol;
use bytes::BytesMut;

/// Where the taking of a header leads; `None` where it is not the one that is awaited.
fn after_header(side: Side, phase: Phase, protocol: Protocol) -> Option<Phase>
    ensures { result ≡ after_header side phase protocol }
{
    match (side, phase, protocol) {
        (Side::Plain, Phase::AwaitsHeader, Protocol::Amqp) => Some(Phase::Open),
        (Side::Client, Phase::AwaitsHeader, Protocol::Sasl) => Some(Phase::AwaitsMechanisms),
        (Side::Server, Phase::AwaitsHeader, Protocol::Sasl) => Some(Phase::AwaitsInit),
        (_, Phase::AwaitsAmqp, Protocol::Amqp) => Some(Phase::Open),
        _ => None,
    }
}

/// The first login whose mechanism is among those that these bytes spell, and its place.
fn choose<'a>(logins: &'a [Login], names: &[u8]) -> Option<(usize, &'a Login)>
    ensures { option_map (λ x. (x.0, x.1.now)) result ≡ choose logins.now (names_in names.now) }
{
    for (place, login) in logins.iter().enumerate() {
        if is_offered(names, login.mechanism.as_str().as_bytes()) {
            return Some((place, login));
        }
    }
    None
}

/// Whether this side offers a mechanism.
fn offers(mechanisms: &[Symbol], name: &[u8]) -> bool
    ensures { result ≡ has_name name.now mechanisms.now }
{
    mechanisms
        .iter()
        .any(|mechanism| mechanism.as_str().as_bytes() == name)
}

impl Opening {
    /// Takes one header or one SASL frame off the front of received bytes, of which there may be more: what follows stays the caller's.
    /// What it answers to what was taken is appended to what is to be sent. [`Told`] says what was taken, or why nothing was.
    ///
    /// `WrongTime` before `begin`; `TooLarge` where the frame to send would have more than 512 bytes; `OutOfMemory` where room for it is
    /// refused. Then nothing is taken and nothing changes, and the call may be made again.
    pub fn take(&mut self, input: &[u8], out: &mut BytesMut) -> Result<Taken, OpeningError>
        ensures { Takes self.old input.now out.old.items result out.new.items self.new }
    {
        match self.phase {
            Phase::Fresh => Err(OpeningError::WrongTime),
            Phase::AwaitsHeader | Phase::AwaitsAmqp => self.take_header(input, out),
            Phase::AsksLogin | Phase::AsksResponse => Ok(Taken {
                len: 0,
                told: Told::Waits,
            }),
            Phase::Open | Phase::Over => Ok(Taken {
                len: 0,
                told: Told::Ended,
            }),
            _ => self.take_frame(input, out),
        }
    }

    /// It is over, after so many bytes.
    fn end(&mut self, len: usize, told: Told) -> Result<Taken, OpeningError>
        ensures answer { result ≡ Ok (record { len = len; told = told }) }
        ensures over { self.new ≡ record self.old { phase = phase.Over } }
    {
        self.phase = Phase::Over;
        Ok(Taken { len, told })
    }

    fn take_header(&mut self, input: &[u8], out: &mut BytesMut) -> Result<Taken, OpeningError>
        ensures { TakesHeader self.old input.now out.old.items result out.new.items self.new }
    {
        match read_header(input) {
            ReceivedHeader::Header(protocol) => self.greet(protocol, out),
            ReceivedHeader::Other(came) => self.end(8, Told::OtherHeader(came)),
            ReceivedHeader::Begun => Ok(Taken {
                len: 0,
                told: Told::Wants(8),
            }),
            ReceivedHeader::NotAmqp => self.end(0, Told::NotAmqp),
        }
    }

    /// The header of this protocol has come.
    fn greet(&mut self, protocol: Protocol, out: &mut BytesMut) -> Result<Taken, OpeningError>
        ensures { Acts (greeted self.old protocol (after_header self.old.side self.old.phase protocol)) self.old out.old.items result out.new.items self.new }
    {
        let Some(phase) = after_header(self.side, self.phase, protocol) else {
            return self.end(8, Told::OtherProtocol(protocol));
        };
        if phase == Phase::AwaitsInit {
            sending::mechanisms(self.mechanisms.as_slice(), out)?;
        }
        self.phase = phase;
        let told = if phase == Phase::Open {
            Told::Opened
        } else {
            Told::Greeted
        };
        Ok(Taken { len: 8, told })
    }

    fn take_frame(&mut self, input: &[u8], out: &mut BytesMut) -> Result<Taken, OpeningError>
        ensures { TakesFrame self.old input.now out.old.items result out.new.items self.new }
    {
        match read_frame(input) {
            Ok(ReceivedFrame::Wants(count)) => Ok(Taken {
                len: 0,
                told: Told::Wants(count),
            }),
            Ok(ReceivedFrame::Frame { len, body }) => self.on_body(&input[..len], body, out),
            Err(fault) => self.end(0, Told::Malformed(fault)),
        }
    }

    /// What is done about a frame, which has these bytes.
    fn on_body(
        &mut self,
        frame: &[u8],
        body: Body,
        out: &mut BytesMut,
    ) -> Result<Taken, OpeningError>
        requires { AreWithin (length frame.now) body }
        ensures { Acts (on_body self.old frame.now (length frame.now) self.old.phase body) self.old out.old.items result out.new.items self.new }
    {
        let len = frame.len();
        match (self.phase, body) {
            (Phase::AwaitsMechanisms, Body::Mechanisms(names)) => self.on_mechanisms(
                frame, names, out,
            ),
            (Phase::AwaitsOutcome, Body::Challenge(challenge)) => {
                self.phase = Phase::AsksResponse;
                Ok(Taken {
                    len,
                    told: Told::Challenged(challenge),
                })
            }
            (Phase::AwaitsOutcome, Body::Outcome { code, additional }) => self.on_outcome(
                len, code, additional, out,
            ),
            (
                Phase::AwaitsInit,
                Body::Init {
                    mechanism,
                    response,
                    hostname,
                },
            ) => self.on_init(frame, mechanism, response, hostname, out),
            (Phase::AwaitsResponse, Body::Response(response)) => {
                self.phase = Phase::AsksLogin;
                Ok(Taken {
                    len,
                    told: Told::Responded(response),
                })
            }
            _ => self.end(len, Told::Unexpected(body)),
        }
    }

    fn on_mechanisms(
        &mut self,
        frame: &[u8],
        names: Place,
        out: &mut BytesMut,
    ) -> Result<Taken, OpeningError>
        requires { IsWithin (length frame.now) names }
        ensures { Acts (on_mechanisms self.old (length frame.now) names (choose self.old.logins (names_in (part frame.now names)))) self.old out.old.items result out.new.items self.new }
    {
        let len = frame.len();
        let Some((place, login)) = choose(self.logins.as_slice(), &frame[names.from..names.to])
        else {
            return self.end(len, Told::NoMechanism(names));
        };
        sending::init(login, &self.hostname, out)?;
        self.phase = Phase::AwaitsOutcome;
        Ok(Taken {
            len,
            told: Told::Chosen {
                login: place,
                mechanisms: names,
            },
        })
    }

    fn on_outcome(
        &mut self,
        len: usize,
        code: SaslCode,
        additional: Option<Place>,
        out: &mut BytesMut,
    ) -> Result<Taken, OpeningError>
        ensures { Acts (on_outcome len code additional) self.old out.old.items result out.new.items self.new }
    {
        if code != SaslCode::Ok {
            return self.end(len, Told::Refused { code, additional });
        }
        sending::header(Protocol::Amqp, out)?;
        self.phase = Phase::AwaitsAmqp;
        Ok(Taken {
            len,
            told: Told::LoggedIn(additional),
        })
    }

    fn on_init(
        &mut self,
        frame: &[u8],
        mechanism: Place,
        response: Option<Place>,
        hostname: Option<Place>,
        out: &mut BytesMut,
    ) -> Result<Taken, OpeningError>
        requires { IsWithin (length frame.now) mechanism }
        ensures { Acts (on_init (length frame.now) (has_name (part frame.now mechanism) self.old.names) mechanism response hostname) self.old out.old.items result out.new.items self.new }
    {
        let len = frame.len();
        if !offers(
            self.mechanisms.as_slice(),
            &frame[mechanism.from..mechanism.to],
        ) {
            sending::outcome(SaslCode::Auth, None, out)?;
            return self.end(len, Told::NotOffered(mechanism));
        }
        self.phase = Phase::AsksLogin;
        Ok(Taken {
            len,
            told: Told::LoginAsked {
                mechanism,
                response,
                hostname,
            },
        })
    }
}
