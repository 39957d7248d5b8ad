//! The part of a table in which a place is sought, how a number that was read in it narrows it, and the clues where to read next.

ghost use Rattle.std.specs.Prelude.{◌+◌, ◌-◌, ◌*◌, ◌^◌, ◌<◌, ◌≤◌, min, max, ◌≡◌};

/// The places from `low` up to `high`, and where among them the place is expected. That guess may be wrong.
#[derive(Clone, Copy)]
pub(super) struct Part {
    pub(super) low: usize,
    pub(super) high: usize,
    pub(super) guess: usize,
}

/// More are missing only where the numbers of a table pass 4294967295, or are far apart.
const MOST_MISSING: usize = 0x8000_0000;

/// Where the last search ended: the numbers from `next` on were thought to begin at `place`. It may be wrong by now.
#[derive(Clone, Copy)]
pub(super) struct Landmark {
    place: usize,
    next: u32,
}

impl Landmark {
    /// That of a table with no record.
    pub(super) fn new() -> Landmark {
        Landmark { place: 0, next: 0 }
    }

    /// The numbers after this one are thought to begin at a place.
    #[inline(always)]
    pub(super) fn after(number: u32, place: usize) -> Landmark {
        Landmark {
            place,
            next: number.wrapping_add(1),
        }
    }

    /// Where a number is expected in a table with so many records, and so many numbers missing between them: they are thought to be missing
    /// evenly. Where most are missing the numbers of the table pass 4294967295, and the oldest and the newest stand side by side: it is
    /// expected there.
    #[inline(always)]
    pub(super) fn expected(self, number: u32, len: usize, missing: usize) -> usize {
        if number == self.next || missing > MOST_MISSING {
            return self.place;
        }
        let numbers = len.saturating_add(missing).max(1);
        let far = number.abs_diff(self.next) as usize;
        let steps = far.wrapping_mul(len) / numbers;
        if number < self.next {
            return self.place.saturating_sub(steps);
        }
        self.place.saturating_add(steps)
    }
}

/// What tells where a place is expected: a hint, that so many numbers took so many places, and the place and the number that were read last.
/// They may be wrong.
#[derive(Clone, Copy)]
pub(super) struct Clues {
    hint: usize,
    places: usize,
    numbers: usize,
    last: Option<(usize, u32)>,
}

impl Clues {
    /// Those of a table with so many records, and so many numbers missing between them, of which one may have been read.
    #[inline(always)]
    pub(super) fn of(hint: usize, len: usize, missing: usize, last: Option<(usize, u32)>) -> Clues {
        Clues {
            hint,
            places: len,
            numbers: len.saturating_add(missing),
            last,
        }
    }

    /// These, and a number that was read. From there on numbers are thought to be as far apart as between it and the one before.
    #[inline(always)]
    pub(super) fn learned(self, at: usize, value: u32) -> Clues {
        let (places, numbers) = match self.last {
            Some((place, number)) => (at.abs_diff(place), value.abs_diff(number) as usize),
            None => (self.places, self.numbers),
        };
        Clues {
            hint: self.hint,
            places,
            numbers,
            last: Some((at, value)),
        }
    }

    /// How many places off a number is that is so far off: one at least, and one where it would be more than `most`, since numbers are
    /// missing then which this does not know of.
    #[inline(always)]
    fn steps(self, far: usize, most: usize) -> usize {
        let steps = (far.wrapping_mul(self.places) / self.numbers.max(1)).max(1);
        if steps <= most { steps } else { 1 }
    }

    /// Where a place is expected between these: at the hint, if that is there, and else at the other one.
    #[inline(always)]
    fn guess(self, low: usize, high: usize, other: usize) -> usize {
        if low <= self.hint && self.hint < high {
            return self.hint;
        }
        other
    }
}

/// The place to be read next: the expected one, or the nearest to it that has fewer than `half` places of the part before it, and
/// fewer after it.
#[inline(always)]
pub(super) fn probe(part: Part, half: usize) -> usize
    requires some { part.low < part.high }
    requires half { part.high - part.low < 2 * half }
    requires fits { part.low + half < 2 ^ 64 }
    ensures least { part.low ≤ result }
    ensures most { result < part.high }
    ensures before { result - part.low < half }
    ensures after { part.high - result ≤ half }
{
    let most = (part.high - 1).min(part.low + (half - 1));
    part.guess
        .max(part.low)
        .max(part.high.saturating_sub(half))
        .min(most)
}

/// What is left of a part in which numbers rise, where `number` is sought and `value` was read at a place. Numbers are whole: so the place
/// is no farther from this one than the two numbers are apart. The clues give where it is expected.
#[inline(always)]
pub(super) fn closer(part: Part, at: usize, value: u32, number: u32, clues: Clues) -> Part
    requires least { part.low ≤ at }
    requires most { at < part.high }
    requires fits { part.high ≤ 2 ^ 33 }
    ensures less { value < number → (result.low ≡ at + 1) × (result.high ≡ min part.high (at + (number - value))) }
    ensures more { number ≤ value → (result.low ≡ max part.low (at - (value - number))) × (result.high ≡ at) }
{
    if value == number {
        return Part {
            low: at,
            high: at,
            guess: at,
        };
    }
    if value < number {
        return after(part, at, (number - value) as usize, clues);
    }
    before(part, at, (value - number) as usize, clues)
}

/// The part after the place `at`, up to `far` places after it.
#[inline(always)]
fn after(part: Part, at: usize, far: usize, clues: Clues) -> Part
    requires most { at < part.high }
    requires fits { at + far < 2 ^ 64 }
    ensures low { result.low ≡ at + 1 }
    ensures high { result.high ≡ min part.high (at + far) }
{
    let (low, high) = (at + 1, part.high.min(at + far));
    let steps = clues.steps(far, high.saturating_sub(at));
    let guess = clues.guess(low, high, at.saturating_add(steps));
    Part { low, high, guess }
}

/// The part before the place `at`, from `far` places before it on.
#[inline(always)]
fn before(part: Part, at: usize, far: usize, clues: Clues) -> Part
    ensures low { result.low ≡ max part.low (at - far) }
    ensures high { result.high ≡ at }
{
    let (low, high) = (part.low.max(at.saturating_sub(far)), at);
    let steps = clues.steps(far, at.saturating_sub(low));
    let guess = clues.guess(low, high, at.saturating_sub(steps));
    Part { low, high, guess }
}
