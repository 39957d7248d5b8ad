//! Items that have numbers.

ghost use Rattle.std.specs.Prelude.{◌≡◌, ℕ};

/// Items that have a serial number each.
pub(crate) trait Numbered: Copy {
    ghost number_of: { Self → ℕ };

    /// The number.
    fn number(&self) -> u32
        ensures { result ≡ number_of self.now };
}

impl Numbered for u32 {
    ghost number_of = { λ n. n };

    #[inline(always)]
    fn number(&self) -> u32 {
        *self
    }
}
