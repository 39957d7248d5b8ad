//! Serial numbers of 4 bytes, which wrap (AMQP 1.0 part 2, section 2.8.10; RFC 1982).

ghost use Rattle.std.specs.Prelude.{◌≡◌};
ghost use Rattle.amqp_credit.specs.Serial.{advanced, past, is_behind};

/// The number that lies so many after another one.
#[inline(always)]
pub(crate) fn advanced(number: u32, by: u32) -> u32
    ensures { result ≡ advanced number by }
{
    number.wrapping_add(by)
}

/// How many numbers one lies past another one, going forward.
#[inline(always)]
pub(crate) fn past(number: u32, base: u32) -> u32
    ensures { result ≡ past number base }
{
    number.wrapping_sub(base)
}

/// Whether a number lies behind another one: more than half of the circle past it is as much as before it.
#[inline(always)]
pub(crate) fn is_behind(number: u32, base: u32) -> bool
    ensures { result ≡ is_behind number base }
{
    past(number, base) >= 0x8000_0000
}
