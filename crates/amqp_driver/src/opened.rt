//! What an opening tells, as a record.

ghost use Rattle.std.specs.Prelude.{◌≡◌};
ghost use Rattle.amqp_sasl.specs.Header.{protocol_id};
ghost use Rattle.amqp_sasl.specs.SaslFrame.{code_number};
ghost use Rattle.amqp_driver.specs.StreamRecord.{carrying, carrying_if, hosted_if, naming, narrow, record_of_told, refused, taken_record};

use crate::kind;
use crate::record::{NONE, Record};
use amqp_sasl::{Place, Protocol, SaslCode, Told};

/// A number, as far as four bytes say it.
fn narrow(number: usize) -> u32
    ensures { result ≡ narrow number }
{
    u32::try_from(number).unwrap_or(NONE)
}

/// A thing of this kind, which has so many bytes.
fn taken(kind: u8, len: usize) -> Record
    ensures { result ≡ taken_record kind len }
{
    Record {
        kind,
        size: narrow(len),
        ..Record::empty()
    }
}

/// It carries what stands there.
fn carrying(place: Place, told: Record) -> Record
    ensures { result ≡ carrying place told }
{
    Record {
        payload_at: narrow(place.from),
        payload: narrow(place.to.saturating_sub(place.from)),
        ..told
    }
}

/// It carries what stands there, or nothing.
fn carrying_if(place: Option<Place>, told: Record) -> Record
    ensures { result ≡ carrying_if place told }
{
    match place {
        Some(place) => carrying(place, told),
        None => Record {
            payload_at: NONE,
            ..told
        },
    }
}

/// The name of a mechanism stands there.
fn naming(place: Place, told: Record) -> Record
    ensures { result ≡ naming place told }
{
    Record {
        first: narrow(place.from),
        last: narrow(place.to.saturating_sub(place.from)),
        ..told
    }
}

/// The host that a client asks for stands there, or it asks for none.
fn hosted_if(place: Option<Place>, told: Record) -> Record
    ensures { result ≡ hosted_if place told }
{
    match place {
        Some(place) => Record {
            count: narrow(place.from),
            credit: narrow(place.to.saturating_sub(place.from)),
            ..told
        },
        None => Record {
            count: NONE,
            ..told
        },
    }
}

/// The connection is not opened, for this reason.
fn refused(why: u32, len: usize) -> Record
    ensures { result ≡ refused why len }
{
    Record {
        refusal: why,
        ..taken(kind::NOT_OPENED, len)
    }
}

/// The login was refused, by this code.
fn failed(code: SaslCode, len: usize) -> Record
    ensures { result ≡ record (refused 103 len) { outcome = code_number code } }
{
    Record {
        outcome: code.number(),
        ..refused(103, len)
    }
}

/// The header of this protocol came, which was not awaited.
fn other(protocol: Protocol, len: usize) -> Record
    ensures { result ≡ record (refused 104 len) { first = protocol_id protocol } }
{
    Record {
        first: u32::from(protocol.id()),
        ..refused(104, len)
    }
}

/// A login was chosen among the mechanisms that stand there.
fn chosen(len: usize, login: usize, mechanisms: Place) -> Record
    ensures { result ≡ carrying mechanisms (record (taken_record 15 len) { first = narrow login }) }
{
    let told = Record {
        first: narrow(login),
        ..taken(kind::MECHANISM_CHOSEN, len)
    };
    carrying(mechanisms, told)
}

/// A client asks to be let in.
fn asked(len: usize, mechanism: Place, response: Option<Place>, hostname: Option<Place>) -> Record
    ensures { result ≡ hosted_if hostname (carrying_if response (naming mechanism (taken_record 16 len))) }
{
    let named = naming(mechanism, taken(kind::LOGIN_ASKED, len));
    hosted_if(hostname, carrying_if(response, named))
}

/// The record of what is told of a thing that has so many bytes; `None` of what only waits.
pub(crate) fn record_of_told(len: usize, told: &Told) -> Option<Record>
    ensures { result ≡ record_of_told len told.now }
{
    match told {
        Told::Wants(_) | Told::Waits | Told::Ended => None,
        Told::Greeted => Some(taken(kind::SASL_HEADER, len)),
        Told::Opened => Some(taken(kind::AMQP_HEADER, len)),
        Told::Chosen { login, mechanisms } => Some(chosen(len, *login, *mechanisms)),
        Told::LoginAsked {
            mechanism,
            response,
            hostname,
        } => Some(asked(len, *mechanism, *response, *hostname)),
        Told::Challenged(place) => Some(carrying(*place, taken(kind::CHALLENGED, len))),
        Told::Responded(place) => Some(carrying(*place, taken(kind::RESPONDED, len))),
        Told::LoggedIn(place) => Some(carrying_if(*place, taken(kind::LOGGED_IN, len))),
        Told::NoMechanism(place) => Some(carrying(*place, refused(101, len))),
        Told::NotOffered(place) => Some(naming(*place, refused(102, len))),
        Told::Refused { code, additional } => Some(carrying_if(*additional, failed(*code, len))),
        Told::OtherProtocol(protocol) => Some(other(*protocol, len)),
        Told::OtherHeader(_) => Some(refused(105, len)),
        Told::NotAmqp => Some(refused(106, len)),
        Told::Malformed(_) => Some(refused(107, len)),
        Told::Unexpected(_) => Some(refused(108, len)),
    }
}
