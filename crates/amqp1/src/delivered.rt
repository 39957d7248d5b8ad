//! What became of a transfer on a link, and a delivery that is unsettled no longer, in numbers.

ghost use Rattle.std.specs.Prelude.{◌≡◌};
ghost use Rattle.amqp1.specs.Delivering.{delivered_of, part_refusal, send_refusal, send_status, unsettled_of};

use crate::status::Status;
use amqp_endpoints::{SendFailure, SentDelivery};
use amqp_links::{Entry, SendError, SendPartError};

/// What became of a transfer. The layout is that of C, in 24 bytes without padding.
#[derive(Clone, Copy, Debug, PartialEq, Eq)]
#[repr(C)]
pub struct Delivered {
    /// What was given with its delivery, where `has_given` is 1.
    pub given: u64,
    /// The number of its delivery, where it was accepted. Else 0.
    pub number: u32,
    /// Why it was refused. 0 where it was not.
    pub refusal: u32,
    /// 1 where the transfer settles or aborts a delivery that was unsettled before. Else 0.
    pub has_given: u32,
    /// 0.
    pub reserved: u32,
}

/// A delivery that was unsettled. The layout is that of C, in 16 bytes without padding.
#[derive(Clone, Copy, Debug, PartialEq, Eq)]
#[repr(C)]
pub struct Unsettled {
    /// What was given with it.
    pub given: u64,
    /// Its number.
    pub number: u32,
    /// The link that it belongs to, by this side's handle.
    pub link: u32,
}

/// Why a link does not send, as the number of a refusal. 0 for memory.
fn part_refusal(error: SendPartError) -> u32
    ensures { result ≡ part_refusal error }
{
    match error {
        SendPartError::NoSender => 111,
        SendPartError::Link(SendError::NotAttached) => 112,
        SendPartError::Link(SendError::TooLarge) => 113,
        SendPartError::Link(SendError::NoneUnderWay) => 114,
        SendPartError::Link(SendError::NoCredit) => 115,
        SendPartError::NotNext => 116,
        SendPartError::OutOfMemory => 0,
    }
}

/// Why a transfer is refused, as a number. 0 where it is not taken for another reason.
fn send_refusal(failure: SendFailure) -> u32
    ensures { result ≡ send_refusal failure }
{
    match failure {
        SendFailure::Link(error) => part_refusal(error),
        SendFailure::Refused(why) => why,
        SendFailure::Stopped(_) => 0,
    }
}

/// The status of a transfer.
pub(crate) fn send_status(sent: &Result<SentDelivery, SendFailure>) -> Status
    ensures { result ≡ send_status sent.now }
{
    match *sent {
        Ok(_) => Status::Done,
        Err(SendFailure::Link(SendPartError::OutOfMemory)) => Status::NoMemory,
        Err(SendFailure::Link(_)) | Err(SendFailure::Refused(_)) => Status::Refused,
        Err(SendFailure::Stopped(why)) => Status::of_driver(why),
    }
}

/// What became of a transfer.
pub(crate) fn delivered_of(sent: &Result<SentDelivery, SendFailure>) -> Delivered
    ensures { result ≡ delivered_of sent.now }
{
    match *sent {
        Ok(told) => Delivered {
            given: told.settled.unwrap_or(0),
            number: told.number,
            refusal: 0,
            has_given: if told.settled.is_some() { 1 } else { 0 },
            reserved: 0,
        },
        Err(failure) => Delivered {
            given: 0,
            number: 0,
            refusal: send_refusal(failure),
            has_given: 0,
            reserved: 0,
        },
    }
}

/// A delivery that was unsettled.
pub(crate) fn unsettled_of(entry: Entry) -> Unsettled
    ensures { result ≡ unsettled_of entry }
{
    Unsettled {
        given: entry.given,
        number: entry.number,
        link: entry.link,
    }
}
