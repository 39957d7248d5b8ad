//! What fits a frame of the peer's (max-frame-size, AMQP 1.0 part 2, section 2.7.1).

ghost use Rattle.std.specs.Prelude.{◌≡◌, ◌<◌, ◌^◌};
ghost use Rattle.amqp_endpoints.specs.Fitting.{fits};

/// The most bytes of a frame without its size, which counts itself too.
const MOST: u32 = u32::MAX - 4;

/// Whether a performative of so many bytes fits one frame, which has at most `limit` bytes behind its size.
pub(crate) fn fits(len: u128, limit: u32) -> bool
    requires { len < 2 ^ 127 }
    ensures { result ≡ fits len limit }
{
    4 + len <= u128::from(limit.min(MOST))
}
