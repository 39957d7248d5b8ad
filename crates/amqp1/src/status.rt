//! How a call ends.

ghost use Rattle.std.specs.Prelude.{◌≡◌, pos};
ghost use Rattle.amqp1.specs.LoggingIn.{sasl_status};
ghost use Rattle.amqp1.specs.Status.{begun_status, ended_status, flushed_status, status_number, status_of, taken_status};

use amqp_driver::{Asked, BeginAnswer, EndAnswer, Status as DriverStatus};
use amqp_sasl::OpeningError;
use std::alloc::AllocError;

/// How a call ends. The numbers of `include/amqp1.h`; 6 is never used.
#[derive(Clone, Copy, Debug, PartialEq, Eq)]
pub enum Status {
    /// What was asked is done.
    Done,
    /// It was refused by a name, which `Operation::Refusal` gives.
    Refused,
    /// Memory was refused, and what was asked was not taken: it may be asked again.
    NoMemory,
    /// The output is too small, and nothing changed. The call answers the length that is needed.
    TooSmall,
    /// No such operation, or the input does not have its form. Nothing changed.
    BadArgument,
    /// Nothing lies in the place.
    NoEngine,
    /// A whole frame is left, or a transfer, and there is no place for what is to be said of it.
    Full,
    /// A size stands there that no frame may have.
    BadSize,
    /// The bytes end before those of the next transfer do.
    Short,
    /// What was told last comes before the rest, which is given again.
    Again,
    /// A call of this side is awaited.
    Waits,
    /// The connection is over: nothing is taken any more.
    Over,
    /// The SASL frame to send would have more than 512 bytes.
    TooLarge,
    /// A record asks for no answer, or for none that was named, or none is due. Nothing changed.
    Nothing,
    /// Of the answer to a Begin: memory was refused once the engine had begun, so the number is used, and the peer has no answer.
    Lost,
    /// Of the answer to a Begin: this side's was sent, and memory was refused for the peer's. The connection cannot go on.
    Broken,
    /// Of the answer to an End: the session's channel was not given back.
    NotReleased,
    /// Of the answer to an End: the session's channel was given back, and the session was not let go.
    NotForgotten,
    /// Of a link that is to be taken away: the peer's Detach has not come, or this side's is still to be sent.
    NotDetached,
    /// Of a link that is to be taken away: deliveries of it are unsettled.
    Unsettled,
    /// Of a transfer's record: the number of the delivery that begins does not lie after each one that is unsettled, by less than 2^31.
    NotNext,
    /// Of a link that is to be attached, no handle is allotted to its name; of one to be taken away, no end has the handle.
    NoLink,
    /// Of a link that is to be attached: its handle has an end already.
    InUse,
    /// Of a flow or a Detach of a link: it would overtake transfers that wait for the peer's window. Nothing is sent; ask again once it is due. Of a
    /// Detach also where the peer's Attach has not come: ask again once it has.
    HeldBack,
}

impl Status {
    /// The number.
    pub fn number(self) -> i32
        ensures { result ≡ pos (status_number self) }
    {
        match self {
            Status::Done => 0,
            Status::Refused => 1,
            Status::NoMemory => 2,
            Status::TooSmall => 3,
            Status::BadArgument => 4,
            Status::NoEngine => 5,
            Status::Full => 7,
            Status::BadSize => 8,
            Status::Short => 9,
            Status::Again => 10,
            Status::Waits => 11,
            Status::Over => 12,
            Status::TooLarge => 13,
            Status::Nothing => 14,
            Status::Lost => 15,
            Status::Broken => 16,
            Status::NotReleased => 17,
            Status::NotForgotten => 18,
            Status::NotDetached => 19,
            Status::Unsettled => 20,
            Status::NotNext => 21,
            Status::NoLink => 22,
            Status::InUse => 23,
            Status::HeldBack => 24,
        }
    }

    /// The status of a call of the driver that takes many.
    pub(crate) fn of_driver(status: DriverStatus) -> Status
        ensures { result ≡ taken_status status }
    {
        match status {
            DriverStatus::Done => Status::Done,
            DriverStatus::Full => Status::Full,
            DriverStatus::BadSize => Status::BadSize,
            DriverStatus::NoMemory => Status::NoMemory,
            DriverStatus::Short => Status::Short,
            DriverStatus::Again => Status::Again,
            DriverStatus::Waits => Status::Waits,
            DriverStatus::Over => Status::Over,
            DriverStatus::TooLarge => Status::TooLarge,
        }
    }
}

/// The status of a request.
pub(crate) fn status_of(asked: &Asked) -> Status
    ensures { result ≡ status_of asked.now }
{
    match asked {
        Asked::Done => Status::Done,
        Asked::TooLarge | Asked::Refused(_) | Asked::Over => Status::Refused,
        Asked::NoMemory => Status::NoMemory,
    }
}

/// The status of an answer to a Begin of the peer's.
pub(crate) fn begun_status(answer: &BeginAnswer) -> Status
    ensures { result ≡ begun_status answer.now }
{
    match answer {
        BeginAnswer::Done => Status::Done,
        BeginAnswer::Unread(_) => Status::BadArgument,
        BeginAnswer::NotOpened
        | BeginAnswer::ChannelInUse
        | BeginAnswer::TooLarge
        | BeginAnswer::Refused(_) => Status::Refused,
        BeginAnswer::NoMemory => Status::NoMemory,
        BeginAnswer::Lost => Status::Lost,
        BeginAnswer::Broken => Status::Broken,
    }
}

/// The status of an answer to an End of the peer's.
pub(crate) fn ended_status(answer: &EndAnswer) -> Status
    ensures { result ≡ ended_status answer.now }
{
    match answer {
        EndAnswer::Done => Status::Done,
        EndAnswer::NotEnded => Status::Refused,
        EndAnswer::Unsent(asked) => status_of(asked),
        EndAnswer::NotReleased(_) => Status::NotReleased,
        EndAnswer::NotForgotten(_) => Status::NotForgotten,
    }
}

/// The status of what waits in the engine: all of it was put out, or some waits still.
pub(crate) fn flushed_status(flushed: Result<(), AllocError>) -> Status
    ensures { result ≡ flushed_status flushed }
{
    match flushed {
        Ok(()) => Status::Done,
        Err(_) => Status::NoMemory,
    }
}

/// The status of a call of SASL.
pub(crate) fn sasl_status(answer: &Result<(), OpeningError>) -> Status
    ensures { result ≡ sasl_status answer.now }
{
    match answer {
        Ok(()) => Status::Done,
        Err(OpeningError::WrongTime) | Err(OpeningError::TooLarge) => Status::Refused,
        Err(OpeningError::OutOfMemory) => Status::NoMemory,
    }
}
