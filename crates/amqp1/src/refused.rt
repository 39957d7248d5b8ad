//! The last refusal: its name, and the condition that answers it, or the error with which the peer ended or closed.

ghost use Rattle.std.specs.Prelude.{◌≡◌};
ghost use Rattle.amqp1.specs.Refused.{channel_in_use, condition_said, no_memory, not_ended, not_opened, nothing, over, peer_error, refused_of, too_large, unattached, wrong_time};

use amqp_connection::ConnectionStateError;
use amqp_engine::StepError;
use amqp_session::SessionStateError;
use amqp_types::{ConnectionState, Error};
use fe2o3_amqp::{PeerAnswer, answer_to, err_name};
use std::marker::Model;

/// A refusal of a request.
#[derive(Drop)]
pub(crate) struct Refused {
    /// Its name; none where nothing was refused.
    pub(crate) name: &'static str,
    /// The condition that answers a frame that is refused so, if any.
    pub(crate) condition: &'static str,
    /// The error with which the peer ended, or closed.
    pub(crate) peer: Option<Error>,
}

impl Model for Refused {
    ghost use Rattle.amqp1.specs.Refused.{RefusedModel};

    ghost Value = { RefusedModel };

    ghost view = { λ r. record { name = r.name.now; condition = r.condition.now; peer = r.peer } };
}

impl Refused {
    /// Nothing was refused.
    pub(crate) fn nothing() -> Refused
        ensures { result ≡ nothing }
    {
        Refused {
            name: "",
            condition: "",
            peer: None,
        }
    }

    /// A frame of the request does not fit the peer's limit, or a SASL frame its own.
    pub(crate) fn too_large() -> Refused
        ensures { result ≡ too_large }
    {
        Refused {
            name: "TooLarge",
            condition: "",
            peer: None,
        }
    }

    /// The link of a transfer is not attached by the peer.
    pub(crate) fn unattached() -> Refused
        ensures { result ≡ unattached }
    {
        Refused {
            name: "UnattachedHandle",
            condition: "",
            peer: None,
        }
    }

    /// A request of a stream that is over.
    pub(crate) fn over() -> Refused
        ensures { result ≡ over }
    {
        Refused {
            name: "Over",
            condition: "",
            peer: None,
        }
    }

    /// A call of SASL to which nothing asks.
    pub(crate) fn wrong_time() -> Refused
        ensures { result ≡ wrong_time }
    {
        Refused {
            name: "WrongTime",
            condition: "",
            peer: None,
        }
    }

    /// The answer to a Begin, where the connection is not open.
    pub(crate) fn not_opened() -> Refused
        ensures { result ≡ not_opened }
    {
        Refused {
            name: "NotOpened",
            condition: "",
            peer: None,
        }
    }

    /// The answer to a Begin whose channel leads to a session.
    pub(crate) fn channel_in_use() -> Refused
        ensures { result ≡ channel_in_use }
    {
        Refused {
            name: "ChannelInUse",
            condition: "",
            peer: None,
        }
    }

    /// The answer to the End of a session that the peer has not ended, or this side has too.
    pub(crate) fn not_ended() -> Refused
        ensures { result ≡ not_ended }
    {
        Refused {
            name: "NotEnded",
            condition: "",
            peer: None,
        }
    }

    /// Memory was refused before the engine was asked.
    pub(crate) fn no_memory() -> Refused
        ensures { result ≡ no_memory }
    {
        Refused {
            name: "OutOfMemory",
            condition: "",
            peer: None,
        }
    }

    /// What the engine refused, in this state of the connection.
    pub(crate) fn of(error: StepError, state: ConnectionState) -> Refused
        ensures { result ≡ refused_of error state }
    {
        Refused {
            name: err_name(&error),
            condition: condition_of(answer_to(&error, state)),
            peer: peer_error(error),
        }
    }
}

/// The error of a Close or an End of the peer's, if that is what was refused.
fn peer_error(error: StepError) -> Option<Error>
    ensures { result ≡ peer_error error }
{
    match error {
        StepError::ConnectionState(ConnectionStateError::RemoteClosedWithError(error)) => Some(
            error,
        ),
        StepError::SessionState(SessionStateError::RemoteEndedWithError(error)) => Some(error),
        other => {
            drop(other);
            None
        }
    }
}

/// The text of the condition that answers a refused frame, if any.
pub(crate) fn condition_of(answer: Option<PeerAnswer>) -> &'static str
    ensures { result.now ≡ condition_said answer }
{
    match answer {
        None => "",
        Some(PeerAnswer::End(condition)) | Some(PeerAnswer::Close(condition)) => condition.as_str(),
    }
}
