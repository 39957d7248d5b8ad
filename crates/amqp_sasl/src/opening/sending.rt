//! What an opening sends: a header, or a SASL frame, or both.

ghost use Rattle.std.specs.Prelude.{◌≡◌, ◌≢◌, ◌++◌, [], option_copied, string_bytes};
ghost use Rattle.std.specs.Option.{option_map};
ghost use Rattle.amqp_sasl.specs.declared.body.SaslCode.TheVariants as code;
ghost use Rattle.amqp_sasl.specs.declared.header.Protocol.TheVariants as protocol;
ghost use Rattle.amqp_sasl.specs.SaslFrame.{mechanisms_are, init_is, challenge_is, response_is, outcome_is, frame_text};
ghost use Rattle.amqp_sasl.specs.Header.{header_text};
ghost use Rattle.amqp_sasl.specs.Opening.{first_header, Sends};
ghost use Rattle.amqp_sasl.specs.Inner.Sending.{as_told};

use super::{Login, Side};
use crate::body::SaslCode;
use crate::header::Protocol;
use crate::told::OpeningError;
use crate::writing::{
    write_challenge, write_init, write_mechanisms, write_outcome, write_response,
};
use amqp_memory::more_in_buffer;
use amqp_values::{Symbol, WriteError};
use bytes::BytesMut;

/// The protocol of a side's first header.
pub(super) fn first(side: Side) -> Protocol
    ensures { result ≡ first_header side }
{
    match side {
        Side::Plain => Protocol::Amqp,
        Side::Client | Side::Server => Protocol::Sasl,
    }
}

/// The header of this protocol.
pub(super) fn header(protocol: Protocol, out: &mut BytesMut) -> Result<(), OpeningError>
    ensures { Sends [] (header_text protocol) out.old.items result out.new.items }
{
    let Ok(()) = more_in_buffer(out, 8) else {
        return Err(OpeningError::OutOfMemory);
    };
    out.extend_reserved(&protocol.header());
    Ok(())
}

/// An answer of a writer as that of a call.
fn told(written: Result<(), WriteError>) -> Result<(), OpeningError>
    ensures { result ≡ as_told written }
{
    match written {
        Ok(()) => Ok(()),
        Err(WriteError::TooLarge) => Err(OpeningError::TooLarge),
        Err(WriteError::OutOfMemory) => Err(OpeningError::OutOfMemory),
    }
}

/// A server's mechanisms.
pub(super) fn mechanisms(names: &[Symbol], out: &mut BytesMut) -> Result<(), OpeningError>
    requires { names.now ≢ [] }
    ensures { Sends (frame_text (mechanisms_are names.now)) [] out.old.items result out.new.items }
{
    told(write_mechanisms(names, out))
}

fn response_of(login: &Login) -> Option<&[u8]>
    ensures { option_map (λ r. r.now) result ≡ login.now.response }
{
    match &login.response {
        Some(response) => Some(response.as_slice()),
        None => None,
    }
}

fn host_of(hostname: &Option<String>) -> Option<&str>
    ensures { option_map (λ r. r.now) result ≡ option_map string_bytes hostname.now }
{
    match hostname {
        Some(hostname) => Some(hostname.as_str()),
        None => None,
    }
}

/// A client's choice of this login.
pub(super) fn init(
    login: &Login,
    hostname: &Option<String>,
    out: &mut BytesMut,
) -> Result<(), OpeningError>
    ensures { Sends (frame_text (init_is login.now.mechanism login.now.response (option_map string_bytes hostname.now))) [] out.old.items result out.new.items }
{
    told(write_init(&login.mechanism, response_of(login), host_of(hostname), out))
}

/// A server's challenge.
pub(super) fn challenge(challenge: &[u8], out: &mut BytesMut) -> Result<(), OpeningError>
    ensures { Sends (frame_text (challenge_is challenge.now)) [] out.old.items result out.new.items }
{
    told(write_challenge(challenge, out))
}

/// A client's response.
pub(super) fn response(response: &[u8], out: &mut BytesMut) -> Result<(), OpeningError>
    ensures { Sends (frame_text (response_is response.now)) [] out.old.items result out.new.items }
{
    told(write_response(response, out))
}

/// A server's outcome.
pub(super) fn outcome(
    code: SaslCode,
    additional: Option<&[u8]>,
    out: &mut BytesMut,
) -> Result<(), OpeningError>
    ensures { Sends (frame_text (outcome_is code (option_copied additional.entry))) [] out.old.items result out.new.items }
{
    told(write_outcome(code, additional, out))
}

/// A server's outcome `ok`, and the header of AMQP.
pub(super) fn let_in(additional: Option<&[u8]>, out: &mut BytesMut) -> Result<(), OpeningError>
    ensures { Sends (frame_text (outcome_is code.Ok (option_copied additional.entry))) (header_text protocol.Amqp) out.old.items result out.new.items }
{
    let Ok(()) = more_in_buffer(out, 520) else {
        return Err(OpeningError::OutOfMemory);
    };
    match write_outcome(SaslCode::Ok, additional, out) {
        Ok(()) => {
            out.extend_reserved(&Protocol::Amqp.header());
            Ok(())
        }
        Err(WriteError::TooLarge) => Err(OpeningError::TooLarge),
        Err(WriteError::OutOfMemory) => Err(OpeningError::OutOfMemory),
    }
}
