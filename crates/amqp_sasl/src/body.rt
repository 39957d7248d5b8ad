//! Bodies of SASL frames, read where they stand (AMQP 1.0 part 5, section 5.3.3).

ghost use Rattle.std.specs.Prelude.{◌≡◌, ◌≤◌, ◌∷◌, drop, length, IfSome};
ghost use Rattle.amqp_values.specs.Reading.{region_at};
ghost use Rattle.amqp_values.specs.Walking.{ahead};
ghost use Rattle.amqp_sasl.specs.SaslFrame.{code_number, said_in, AreWithin};
ghost use Rattle.amqp_sasl.specs.Inner.Reading.{Reads, code_numbered, mechanisms_at, init_at, challenge_at, response_at, outcome_at, said_at};
ghost use Rattle.amqp_sasl.specs.Inner.Reading.{number_of, meaning_at, name_at, coded_at, descriptor_at, body_at, ReadsBody};

use crate::cursor::{take_byte, take_region, take_u64};
use crate::place::Place;
use crate::value::FieldType;
use crate::walk::{enter, finish, mandatory, mandatory_code, mandatory_names, optional};
use amqp_values::{ListWalk, codes};

/// The descriptor of sasl-mechanisms (part 5, section 5.3.3.1).
pub const MECHANISMS: u8 = 0x40;

/// The descriptor of sasl-init (section 5.3.3.2).
pub const INIT: u8 = 0x41;

/// The descriptor of sasl-challenge (section 5.3.3.3).
pub const CHALLENGE: u8 = 0x42;

/// The descriptor of sasl-response (section 5.3.3.4).
pub const RESPONSE: u8 = 0x43;

/// The descriptor of sasl-outcome (section 5.3.3.5).
pub const OUTCOME: u8 = 0x44;

/// How a login ended (part 5, section 5.3.3.6).
#[derive(Clone, Copy, Debug, PartialEq, Eq)]
pub enum SaslCode {
    /// The login is accepted: 0.
    Ok,
    /// The credentials are refused: 1.
    Auth,
    /// The server failed: 2.
    Sys,
    /// The server failed, and will go on to fail: 3.
    SysPerm,
    /// The server failed, and may be asked again: 4.
    SysTemp,
}

/// The body of a SASL frame. Its texts are told by their places in the frame, so none is copied.
#[derive(Clone, Copy, Debug, PartialEq, Eq)]
pub enum Body {
    /// The mechanisms that a server offers: one symbol, or an array of one symbol or more. [`is_offered`](crate::is_offered) looks for one.
    Mechanisms(Place),
    /// A client has chosen a mechanism.
    Init {
        /// The mechanism's name: ASCII. Mandatory.
        mechanism: Place,
        /// The initial response, if any.
        response: Option<Place>,
        /// The host that the client asks for, if any: UTF-8.
        hostname: Option<Place>,
    },
    /// A server asks for more.
    Challenge(Place),
    /// A client answers a challenge.
    Response(Place),
    /// The login has ended.
    Outcome {
        /// How. Mandatory.
        code: SaslCode,
        /// What the mechanism has to say besides, if anything.
        additional: Option<Place>,
    },
}

impl SaslCode {
    /// Its number, from 0 to 4.
    pub fn number(self) -> u8
        ensures { result ≡ code_number self }
    {
        match self {
            SaslCode::Ok => 0,
            SaslCode::Auth => 1,
            SaslCode::Sys => 2,
            SaslCode::SysPerm => 3,
            SaslCode::SysTemp => 4,
        }
    }

    /// The code with this number; `None` above 4.
    pub(crate) fn numbered(number: u8) -> Option<SaslCode>
        ensures { result ≡ code_numbered number }
    {
        match number {
            0 => Some(SaslCode::Ok),
            1 => Some(SaslCode::Auth),
            2 => Some(SaslCode::Sys),
            3 => Some(SaslCode::SysPerm),
            4 => Some(SaslCode::SysTemp),
            _ => None,
        }
    }
}

#[tactic(auto, unfolding(crate::specs::Inner::Reading::mechanisms_at))]
fn mechanisms(walk: &mut ListWalk, text: &[u8]) -> Option<Body>
    requires { walk.old.at ≤ length text.now }
    ensures value { Reads (said_in text.now) result (ahead text.now walk.new) (mechanisms_at (ahead text.now walk.old)) }
    ensures within { IfSome result (AreWithin (length text.now)) }
{
    let names = mandatory_names(walk, text)?;
    finish(walk, text)?;
    Some(Body::Mechanisms(names))
}

#[tactic(auto, unfolding(crate::specs::Inner::Reading::init_at))]
fn init(walk: &mut ListWalk, text: &[u8]) -> Option<Body>
    requires { walk.old.at ≤ length text.now }
    ensures value { Reads (said_in text.now) result (ahead text.now walk.new) (init_at (ahead text.now walk.old)) }
    ensures within { IfSome result (AreWithin (length text.now)) }
{
    let mechanism = mandatory(FieldType::Symbol, walk, text)?;
    let response = optional(FieldType::Binary, walk, text)?;
    let hostname = optional(FieldType::String, walk, text)?;
    finish(walk, text)?;
    Some(Body::Init {
        mechanism,
        response,
        hostname,
    })
}

#[tactic(auto, unfolding(crate::specs::Inner::Reading::challenge_at))]
fn challenge(walk: &mut ListWalk, text: &[u8]) -> Option<Body>
    requires { walk.old.at ≤ length text.now }
    ensures value { Reads (said_in text.now) result (ahead text.now walk.new) (challenge_at (ahead text.now walk.old)) }
    ensures within { IfSome result (AreWithin (length text.now)) }
{
    let challenge = mandatory(FieldType::Binary, walk, text)?;
    finish(walk, text)?;
    Some(Body::Challenge(challenge))
}

#[tactic(auto, unfolding(crate::specs::Inner::Reading::response_at))]
fn response(walk: &mut ListWalk, text: &[u8]) -> Option<Body>
    requires { walk.old.at ≤ length text.now }
    ensures value { Reads (said_in text.now) result (ahead text.now walk.new) (response_at (ahead text.now walk.old)) }
    ensures within { IfSome result (AreWithin (length text.now)) }
{
    let response = mandatory(FieldType::Binary, walk, text)?;
    finish(walk, text)?;
    Some(Body::Response(response))
}

#[tactic(auto, unfolding(crate::specs::Inner::Reading::outcome_at))]
fn outcome(walk: &mut ListWalk, text: &[u8]) -> Option<Body>
    requires { walk.old.at ≤ length text.now }
    ensures value { Reads (said_in text.now) result (ahead text.now walk.new) (outcome_at (ahead text.now walk.old)) }
    ensures within { IfSome result (AreWithin (length text.now)) }
{
    let code = mandatory_code(walk, text)?;
    let additional = optional(FieldType::Binary, walk, text)?;
    finish(walk, text)?;
    Some(Body::Outcome { code, additional })
}

/// The fields of the body with this descriptor.
#[tactic(auto, unfolding(crate::specs::Inner::Reading::said_at))]
fn fields(descriptor: u64, walk: &mut ListWalk, text: &[u8]) -> Option<Body>
    requires { walk.old.at ≤ length text.now }
    ensures value { Reads (said_in text.now) result (ahead text.now walk.new) (said_at descriptor (ahead text.now walk.old)) }
    ensures within { IfSome result (AreWithin (length text.now)) }
{
    match descriptor {
        0x40 => mechanisms(walk, text),
        0x41 => init(walk, text),
        0x42 => challenge(walk, text),
        0x43 => response(walk, text),
        0x44 => outcome(walk, text),
        _ => None,
    }
}

/// The number that a descriptor's name stands for.
#[tactic(auto, unfolding(crate::specs::Inner::Reading::number_of))]
fn number_of_name(name: &[u8]) -> Option<u64>
    ensures { result ≡ number_of name.now }
{
    if name == b"amqp:sasl-mechanisms:list".as_slice() {
        Some(0x40)
    } else if name == b"amqp:sasl-init:list".as_slice() {
        Some(0x41)
    } else if name == b"amqp:sasl-challenge:list".as_slice() {
        Some(0x42)
    } else if name == b"amqp:sasl-response:list".as_slice() {
        Some(0x43)
    } else if name == b"amqp:sasl-outcome:list".as_slice() {
        Some(0x44)
    } else {
        None
    }
}

/// The number that the name at this place stands for, whose code was read.
fn named(wide: bool, text: &[u8], at: &mut usize) -> Option<u64>
    requires { at.old ≤ length text.now }
    ensures value { Reads (λ x. x) result (drop at.new text.now) (name_at wide (drop at.old text.now)) }
    ensures bound { at.new ≤ length text.now }
{
    let place = take_region(wide, text, at)?;
    number_of_name(&text[place.from..place.to])
}

/// The number of a descriptor, after the byte that says that it is one.
#[tactic(auto, unfolding(crate::specs::Inner::Reading::coded_at, amqp_values::specs::Number::ulong_at))]
fn coded(text: &[u8], at: &mut usize) -> Option<u64>
    requires { at.old ≤ length text.now }
    ensures value { Reads (λ x. x) result (drop at.new text.now) (coded_at (drop at.old text.now)) }
    ensures bound { at.new ≤ length text.now }
{
    match take_byte(text, at)? {
        codes::ULONG0 => Some(0),
        codes::SMALL_ULONG => Some(u64::from(take_byte(text, at)?)),
        codes::ULONG => take_u64(text, at),
        codes::SYMBOL8 => named(false, text, at),
        codes::SYMBOL32 => named(true, text, at),
        _ => None,
    }
}

/// The number of the descriptor at this place, in every spelling: a number, or one of the standard's names.
#[tactic(auto, unfolding(crate::specs::Inner::Reading::descriptor_at))]
fn descriptor(text: &[u8], at: &mut usize) -> Option<u64>
    requires { at.old ≤ length text.now }
    ensures value { Reads (λ x. x) result (drop at.new text.now) (descriptor_at (drop at.old text.now)) }
    ensures bound { at.new ≤ length text.now }
{
    match take_byte(text, at) {
        Some(codes::DESCRIBED) => coded(text, at),
        _ => None,
    }
}

/// The body at a place of the bytes, and where it ends.
#[tactic(auto, unfolding(crate::specs::Inner::Reading::body_at))]
pub(crate) fn read_body(text: &[u8], from: usize) -> Option<(Body, usize)>
    requires { from ≤ length text.now }
    ensures { ReadsBody text.now from result }
{
    let mut at = from;
    let descriptor = descriptor(text, &mut at)?;
    let (mut walk, end) = enter(text, at)?;
    let (list, _) = text.split_at(end);
    let body = fields(descriptor, &mut walk, list)?;
    Some((body, end))
}
