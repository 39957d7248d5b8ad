//! What a call on the links answers, with what it leaves outside the tables.

ghost use Rattle.std.specs.Prelude.{◌≡◌};

/// What a call on the links answers, and what stands in no table after it: what it took out of one, or was given and did not
/// put into one. It is handed back as it stood, so that its relay is asked nothing on the way.
#[derive(Drop)]
pub(crate) struct Leaving<A, L> {
    pub(crate) answer: A,
    pub(crate) left: L,
}

impl<A: Drop, L: Drop> Leaving<A, L> {
    /// An answer, and what is left.
    #[inline(always)]
    pub(super) fn of(answer: A, left: L) -> Self
        ensures answer { result.answer ≡ answer }
        ensures left { result.left ≡ left }
    {
        Leaving { answer, left }
    }

    /// The answer alone. What is left is dropped here.
    #[inline(always)]
    pub(crate) fn answer(self) -> A
        ensures { result ≡ self.answer }
    {
        let Leaving { answer, left } = self;
        drop(left);
        answer
    }
}
