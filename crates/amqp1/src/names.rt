//! What a refusal is called, and what answers it, by its number in a record.

ghost use Rattle.std.specs.Prelude.{◌≡◌, option_copied};
ghost use Rattle.amqp1.specs.Names.{IsAnsweredBy, IsCalled};
ghost use Rattle.amqp1.specs.Inner.NameTables.{answer_at, closing_at, ending_at, name_at, step_name_at, frame_name_at, state_name_at, inner_name_at, alloc_name_at, begun_name_at, session_name_at, link_name_at, own_name_at, opening_name_at, sending_name_at};

use fe2o3_amqp::{ErrorCondition, PeerAnswer};

/// The name of the refusals of this number. `None` where there are none.
#[tactic(auto, using(crate::proofs::NamesLemmas::is_called))]
pub(crate) fn refusal_name(number: u32) -> Option<&'static str>
    ensures { IsCalled number (option_copied result) }
{
    name_at(number)
}

/// The frame that answers a refused frame, with its condition, by the number of its refusal. `None` where none answers it, or no refusal has the
/// number.
#[tactic(auto, using(crate::proofs::NamesLemmas::is_answered))]
pub(crate) fn refusal_answer(number: u32) -> Option<PeerAnswer>
    ensures { IsAnsweredBy number result }
{
    answer_at(number)
}

/// The name, by tables of ten numbers.
fn name_at(number: u32) -> Option<&'static str>
    ensures { option_copied result ≡ name_at number }
{
    match number / 10 {
        0 => step_name(number),
        1 => frame_name(number),
        2 => state_name(number),
        3 => inner_name(number),
        4 => alloc_name(number),
        5 => begun_name(number),
        6 | 7 => session_name(number),
        8 => link_name(number),
        9 => own_name(number),
        10 => opening_name(number),
        _ => sending_name(number),
    }
}

/// The engine's own.
fn step_name(number: u32) -> Option<&'static str>
    ensures { option_copied result ≡ step_name_at number }
{
    match number {
        1 => Some("OutputWaiting"),
        2 => Some("NoSession"),
        3 => Some("SessionInUse"),
        4 => Some("OutOfMemory"),
        _ => None,
    }
}

/// Those of bytes that are no frame.
fn frame_name(number: u32) -> Option<&'static str>
    ensures { option_copied result ≡ frame_name_at number }
{
    match number {
        11 => Some("Io"),
        12 => Some("DecodeError"),
        13 => Some("NotImplemented"),
        14 => Some("TooLarge"),
        15 => Some("OutOfMemory"),
        _ => None,
    }
}

/// Those of an Open or a Close.
fn state_name(number: u32) -> Option<&'static str>
    ensures { option_copied result ≡ state_name_at number }
{
    match number {
        21 => Some("IllegalState"),
        22 => Some("RemoteClosed"),
        23 => Some("RemoteClosedWithError"),
        24 => Some("TransportError"),
        25 => Some("OutOfMemory"),
        _ => None,
    }
}

/// Those of a frame of a session, on the way to it.
fn inner_name(number: u32) -> Option<&'static str>
    ensures { option_copied result ≡ inner_name_at number }
{
    match number {
        31 => Some("TransportError"),
        32 => Some("IllegalState"),
        33 => Some("NotImplemented"),
        34 => Some("NotFound"),
        35 => Some("RemoteClosed"),
        36 => Some("RemoteClosedWithError"),
        37 => Some("OutOfMemory"),
        _ => None,
    }
}

/// Those of a new session.
fn alloc_name(number: u32) -> Option<&'static str>
    ensures { option_copied result ≡ alloc_name_at number }
{
    match number {
        41 => Some("ConnectionNotOpened"),
        42 => Some("ConnectionStopped"),
        43 => Some("ChannelMaxReached"),
        44 => Some("OutOfMemory"),
        _ => None,
    }
}

/// Those of a Begin or an End.
fn begun_name(number: u32) -> Option<&'static str>
    ensures { option_copied result ≡ begun_name_at number }
{
    match number {
        51 => Some("IllegalState"),
        52 => Some("ConnectionStopped"),
        53 => Some("RemoteEnded"),
        54 => Some("RemoteEndedWithError"),
        55 => Some("OutOfMemory"),
        _ => None,
    }
}

/// Those of any other frame of a session.
fn session_name(number: u32) -> Option<&'static str>
    ensures { option_copied result ≡ session_name_at number }
{
    match number {
        61 => Some("UnattachedHandle"),
        62 => Some("RemoteAttachingLinkNameNotFound"),
        63 => Some("HandleInUse"),
        64 => Some("IllegalState"),
        65 => Some("ConnectionStopped"),
        66 => Some("TransferFrameToSender"),
        67 => Some("RemoteEnded"),
        68 => Some("RemoteEndedWithError"),
        69 => Some("UnknownTxnId"),
        70 => Some("OutOfMemory"),
        _ => None,
    }
}

/// Those of a new link.
fn link_name(number: u32) -> Option<&'static str>
    ensures { option_copied result ≡ link_name_at number }
{
    match number {
        81 => Some("SessionNotMapped"),
        82 => Some("SessionStopped"),
        83 => Some("DuplicatedLinkName"),
        84 => Some("HandlesExhausted"),
        85 => Some("OutOfMemory"),
        _ => None,
    }
}

/// Those of transfers that the driver does not send.
fn own_name(number: u32) -> Option<&'static str>
    ensures { option_copied result ≡ own_name_at number }
{
    match number {
        91 => Some("PayloadTooLong"),
        92 => Some("TagTooLong"),
        _ => None,
    }
}

/// Those of a stream that is not opened.
fn opening_name(number: u32) -> Option<&'static str>
    ensures { option_copied result ≡ opening_name_at number }
{
    match number {
        101 => Some("NoMechanism"),
        102 => Some("NotOffered"),
        103 => Some("LoginRefused"),
        104 => Some("OtherProtocol"),
        105 => Some("OtherHeader"),
        106 => Some("NotAmqp"),
        107 => Some("MalformedSasl"),
        108 => Some("UnexpectedSasl"),
        _ => None,
    }
}

/// Those of transfers that a link does not send.
fn sending_name(number: u32) -> Option<&'static str>
    ensures { option_copied result ≡ sending_name_at number }
{
    match number {
        111 => Some("NoSender"),
        112 => Some("NotAttached"),
        113 => Some("TooLarge"),
        114 => Some("NoneUnderWay"),
        115 => Some("NoCredit"),
        116 => Some("NotNext"),
        _ => None,
    }
}

fn answer_at(number: u32) -> Option<PeerAnswer>
    ensures { result ≡ answer_at number }
{
    match closing(number) {
        Some(condition) => Some(PeerAnswer::Close(condition)),
        None => match ending(number) {
            Some(condition) => Some(PeerAnswer::End(condition)),
            None => None,
        },
    }
}

/// The condition of a Close.
fn closing(number: u32) -> Option<ErrorCondition>
    ensures { result ≡ closing_at number }
{
    match number {
        4 | 15 | 37 => Some(ErrorCondition::ResourceLimitExceeded),
        12 => Some(ErrorCondition::DecodeError),
        13 | 33 => Some(ErrorCondition::NotImplemented),
        21 | 32 => Some(ErrorCondition::IllegalState),
        34 => Some(ErrorCondition::NotFound),
        _ => None,
    }
}

/// The condition of an End.
fn ending(number: u32) -> Option<ErrorCondition>
    ensures { result ≡ ending_at number }
{
    match number {
        51 => Some(ErrorCondition::IllegalState),
        61 => Some(ErrorCondition::UnattachedHandle),
        62 => Some(ErrorCondition::NotFound),
        63 => Some(ErrorCondition::HandleInUse),
        66 => Some(ErrorCondition::NotAllowed),
        69 => Some(ErrorCondition::UnknownTransaction),
        70 => Some(ErrorCondition::ResourceLimitExceeded),
        _ => None,
    }
}
