//! Serial numbers of 4 bytes, which wrap (AMQP 1.0 part 2, section 2.8.10; RFC 1982).

ghost use Rattle.std.specs.Prelude.{◌≡◌};
ghost use Rattle.amqp_unsettled.specs.Serial.{distance, is_after, is_forward, is_within};

/// Less than half of the circle.
pub(crate) const HALF: u32 = 0x8000_0000;

/// How far a number lies after another one, going forward.
#[inline(always)]
pub(crate) fn distance(from: u32, number: u32) -> u32
    ensures { result ≡ distance from number }
{
    number.wrapping_sub(from)
}

/// Whether a number lies after another one: farther forward, by less than half of the circle.
#[inline(always)]
pub(crate) fn is_after(from: u32, number: u32) -> bool
    ensures { result ≡ is_after from number }
{
    // One test in place of two: 0 wraps.
    distance(from, number).wrapping_sub(1) < HALF - 1
}

/// Whether a range goes forward.
#[inline(always)]
pub(crate) fn is_forward(first: u32, last: u32) -> bool
    ensures { result ≡ is_forward first last }
{
    distance(first, last) < HALF
}

/// Whether a range means a number.
#[inline(always)]
pub(crate) fn is_within(first: u32, last: u32, number: u32) -> bool
    ensures { result ≡ is_within first last number }
{
    is_forward(first, last) && distance(first, number) <= distance(first, last)
}
