//! SASL frames, written (AMQP 1.0 part 5, section 5.3.3): each is appended whole, or nothing is.

ghost use Rattle.std.specs.Prelude.{◌≡◌, ◌≢◌, ◌<◌, ◌≤◌, ◌+◌, ◌^◌, [], OnOk, length, option_map, option_copied};
ghost use Rattle.amqp_values.specs.Writing.{described_text};
ghost use Rattle.amqp_sasl.specs.SaslFrame.{mechanisms_are, init_is, challenge_is, response_is, outcome_is, fields_of, framed, frame_text};
ghost use Rattle.amqp_sasl.specs.WriteFrame.{Appends};

use crate::body::{CHALLENGE, INIT, MECHANISMS, OUTCOME, RESPONSE, SaslCode};
use amqp_memory::more_in_buffer;
use amqp_values::{
    Binary, Cons, Cons2, NoMore, Row, Row1, StringRef, Symbol, SymbolRef, Symbols, WriteError,
    described_len, put_described,
};
use bytes::BytesMut;

/// Appends the frame whose body has this descriptor and these fields.
fn write<R: Row>(code: u8, fields: &R, out: &mut BytesMut) -> Result<(), WriteError>
    requires few { length (R.texts fields.now) ≤ 16 }
    requires long { R.most < 2 ^ 126 }
    ensures text { Appends (framed (described_text code (R.texts fields.now))) out.old.items result out.new.items }
    ensures spare { OnOk result (out.old.spare ≤ out.new.spare + 512) }
{
    let len = described_len(fields);
    if len > 504 {
        return Err(WriteError::TooLarge);
    }
    let len = len as usize;
    let Ok(()) = more_in_buffer(out, 8 + len) else {
        return Err(WriteError::OutOfMemory);
    };
    out.extend_reserved(&((8 + len) as u32).to_be_bytes());
    out.extend_reserved(&[2, 1, 0, 0]);
    put_described(code, fields, len, out);
    Ok(())
}

fn binary(bytes: Option<&[u8]>) -> Option<Binary<'_>>
    ensures { option_map (λ b. b.0.now) result ≡ option_copied bytes.entry }
{
    match bytes {
        Some(bytes) => Some(Binary(bytes)),
        None => None,
    }
}

fn string(text: Option<&str>) -> Option<StringRef<'_>>
    ensures { option_map (λ s. s.0.now) result ≡ option_copied text.entry }
{
    match text {
        Some(text) => Some(StringRef(text)),
        None => None,
    }
}

/// Appends sasl-mechanisms (section 5.3.3.1): a server offers these mechanisms, of which there is one or more.
///
/// `TooLarge` where the frame would have more than 512 bytes; `OutOfMemory` where room for it is refused.
#[tactic(auto, unfolding(crate::specs::SaslFrame::frame_text, crate::specs::SaslFrame::body_text))]
pub fn write_mechanisms(names: &[Symbol], out: &mut BytesMut) -> Result<(), WriteError>
    requires some { names.now ≢ [] }
    ensures { Appends (frame_text (mechanisms_are names.now)) out.old.items result out.new.items }
{
    write(MECHANISMS, &Cons(Symbols(names), NoMore), out)
}

/// Appends sasl-init (section 5.3.3.2): a client has chosen a mechanism. The host is the one that it asks for.
///
/// The errors are those of [`write_mechanisms`].
#[tactic(auto, unfolding(crate::specs::SaslFrame::frame_text, crate::specs::SaslFrame::body_text))]
pub fn write_init(
    mechanism: &Symbol,
    response: Option<&[u8]>,
    hostname: Option<&str>,
    out: &mut BytesMut,
) -> Result<(), WriteError>
    ensures { Appends (frame_text (init_is mechanism.now (option_copied response.entry) (option_copied hostname.entry))) out.old.items result out.new.items }
{
    let fields = Cons2(
        SymbolRef(mechanism),
        binary(response),
        Cons(string(hostname), NoMore),
    );
    write(INIT, &fields, out)
}

/// Appends sasl-challenge (section 5.3.3.3): a server asks for more.
///
/// The errors are those of [`write_mechanisms`].
#[tactic(auto, unfolding(crate::specs::SaslFrame::frame_text, crate::specs::SaslFrame::body_text))]
pub fn write_challenge(challenge: &[u8], out: &mut BytesMut) -> Result<(), WriteError>
    ensures { Appends (frame_text (challenge_is challenge.now)) out.old.items result out.new.items }
{
    write(CHALLENGE, &Cons(Binary(challenge), NoMore), out)
}

/// Appends sasl-response (section 5.3.3.4): a client answers a challenge.
///
/// The errors are those of [`write_mechanisms`].
#[tactic(auto, unfolding(crate::specs::SaslFrame::frame_text, crate::specs::SaslFrame::body_text))]
pub fn write_response(response: &[u8], out: &mut BytesMut) -> Result<(), WriteError>
    ensures { Appends (frame_text (response_is response.now)) out.old.items result out.new.items }
{
    write(RESPONSE, &Cons(Binary(response), NoMore), out)
}

/// Appends sasl-outcome (section 5.3.3.5): the login has ended. The additional data are those of the mechanism.
///
/// The errors are those of [`write_mechanisms`].
#[tactic(auto, unfolding(crate::specs::SaslFrame::frame_text, crate::specs::SaslFrame::body_text))]
pub fn write_outcome(
    code: SaslCode,
    additional: Option<&[u8]>,
    out: &mut BytesMut,
) -> Result<(), WriteError>
    ensures text { Appends (frame_text (outcome_is code (option_copied additional.entry))) out.old.items result out.new.items }
    ensures spare { OnOk result (out.old.spare ≤ out.new.spare + 512) }
{
    let fields = Cons(code.number(), Cons(binary(additional), NoMore));
    write(OUTCOME, &fields, out)
}
