//! The range of delivery numbers that a disposition names (AMQP 1.0 part 2, section 2.7.6).

ghost use Rattle.std.specs.Prelude.{◌≡◌, ◌<◌, ◌≤◌, ◌+◌, ◌/◌, ◌^◌, true, false, Some, None, if◌then◌else◌};
ghost use Rattle.amqp_session.specs.Disposing.{is_forward, distance, span};

/// A forward range of serial numbers: those from `first` to `first + span`, modulo 2^32. `span` is less than 2^31, half of the circle.
#[derive(Clone, Copy)]
pub(crate) struct SerialRange {
    pub(crate) first: u32,
    pub(crate) span: u32,
}

impl SerialRange {
    /// The range from the first number to the last, or of the first alone where no last is named. `None` where it is backward: over half
    /// of the circle or more.
    #[inline(always)]
    pub(crate) fn forward(first: u32, last: Option<u32>) -> Option<SerialRange>
        ensures { result ≡ if is_forward first last then Some (record { first = first; span = span first last }) else None }
    {
        let span = last.unwrap_or(first).wrapping_sub(first);
        if span < 0x8000_0000 {
            Some(SerialRange { first, span })
        } else {
            None
        }
    }

    /// How many numbers it has.
    #[inline(always)]
    pub(crate) fn len(self) -> u32
        requires { self.span < 2 ^ 31 }
        ensures { result ≡ self.span + 1 }
    {
        self.span + 1
    }

    /// Whether it has the number.
    #[inline(always)]
    pub(crate) fn has(self, number: u32) -> bool
        ensures inside { result ≡ true → distance self.first number ≤ self.span }
        ensures outside { result ≡ false → self.span < distance self.first number }
    {
        number.wrapping_sub(self.first) <= self.span
    }

    /// How many runs without gaps its numbers can have at most: two of them have a missing number between them.
    #[inline(always)]
    pub(crate) fn most_runs(self) -> usize
        ensures { result ≡ self.span / 2 + 1 }
    {
        self.span as usize / 2 + 1
    }
}
