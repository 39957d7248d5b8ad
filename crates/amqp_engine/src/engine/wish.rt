//! What handles request, noted until a run takes it (a wish): that the connection is closed, or a session ended.

ghost use Rattle.std.specs.Prelude.{◌≡◌};

use amqp_types::Error;
use std::marker::Model;

/// A wish that a connection is closed, or a session ended: with this error, or without one.
#[derive(Drop)]
pub(crate) struct Wish {
    error: Option<Error>,
}

impl Model for Wish {
    ghost use Rattle.std.specs.Prelude.{Option};
    ghost use Rattle.amqp_types.specs.Error.{ErrorModel};

    ghost Value = { Option ErrorModel };

    ghost view = { λ w. w.error };
}

impl Wish {
    /// The wish of an end with this error, if any.
    pub(crate) fn of(error: Option<Error>) -> Wish
        ensures { result ≡ error }
    {
        Wish { error }
    }

    /// The error that it has, if any.
    pub(crate) fn into_error(self) -> Option<Error>
        ensures { result ≡ self }
    {
        self.error
    }
}
