//! Errors, borrowed for writing: as a field of an End, a Close or a Detach, or of an outcome.

ghost use Rattle.std.specs.Prelude.{◌≡◌, ◌^◌};
ghost use Rattle.amqp_values.specs.Writing.{optional_text};
ghost use Rattle.amqp_types.specs.Error.{error_text};

use crate::error::Error;
use amqp_values::{Encode, codes, described_len, put_described};
use bytes::BytesMut;

/// An error, borrowed for writing.
#[derive(Clone, Copy)]
pub(crate) struct ErrorRef<'a>(pub(crate) &'a Error);

impl<'a> ErrorRef<'a> {
    /// An error, or null where there is none.
    #[inline(always)]
    pub(crate) fn optional(error: &'a Option<Error>) -> Option<ErrorRef<'a>>
        ensures { optional_text (λ e. error_text e.0.now) result ≡ optional_text error_text error.now }
    {
        match error {
            Some(error) => Some(ErrorRef(error)),
            None => None,
        }
    }
}

impl Encode for ErrorRef<'_> {
    ghost text = { λ e. error_text e.0.now };

    ghost most = { 2 ^ 104 };

    #[inline(always)]
    fn is_null(&self) -> bool {
        false
    }

    #[inline(always)]
    fn encoded_len(&self) -> u128 {
        described_len(&self.0.parts())
    }

    #[inline(always)]
    fn put(&self, out: &mut BytesMut) {
        let parts = self.0.parts();
        put_described(codes::ERROR, &parts, described_len(&parts) as usize, out)
    }
}
