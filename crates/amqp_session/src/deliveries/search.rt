//! The search of a table of open deliveries. It reads numbers by the calls that count, but for those of both ends, which tell how many are
//! missing.

ghost use Rattle.std.specs.Prelude.{◌≡◌, ℕ, ◌+◌, ◌-◌, ◌*◌, ◌^◌, ◌<◌, ◌≤◌, length};
ghost use Rattle.amqp_session.specs.Deliveries.{compared, number_at, IsMissing};

use super::Deliveries;
use super::part::{Clues, Landmark, Part, closer, probe};

impl Deliveries {
    /// Where the numbers from `first` on begin. Numbers are whole and rise: without missing numbers the first one gives the place. Where
    /// more are missing than half of the records, reading the first one could cost a read more than halving the whole table.
    #[inline(always)]
    pub(crate) fn place_of(&mut self, first: u32) -> usize
        ensures few { length self.old.rows ≤ 2 ^ 32 }
        ensures within { result ≤ length self.old.rows }
        ensures below { (i : ℕ) → i < result → number_at self.old.rows i < first }
        ensures above { (i : ℕ) → result ≤ i → i < length self.old.rows → first ≤ number_at self.old.rows i }
        ensures cost { (k : ℕ) × (self.new ≡ compared k self.old) × (2 ^ k ≤ 2 * length self.old.rows + 1) }
    {
        let len = self.len();
        let missing = self.missing();
        if len == 0 || len / 2 < missing {
            return self.place_among_all(first, missing);
        }
        let front = self.first_number();
        if first <= front {
            return 0;
        }
        self.place_after(first, front, missing)
    }

    /// The same by a search of the whole table.
    #[inline(never)]
    fn place_among_all(&mut self, first: u32, missing: usize) -> usize
        ensures within { result ≤ length self.old.rows }
        ensures below { (i : ℕ) → i < result → number_at self.old.rows i < first }
        ensures above { (i : ℕ) → result ≤ i → i < length self.old.rows → first ≤ number_at self.old.rows i }
        ensures cost { (k : ℕ) × (self.new ≡ compared k self.old) × (2 ^ k ≤ 2 * length self.old.rows + 1) }
    {
        let high = self.len();
        let guess = self.landmark().expected(first, high, missing);
        let places = (high + 1).next_power_of_two();
        self.place_in(
            first,
            Part {
                low: 0,
                high,
                guess,
            },
            Clues::of(guess, high, missing, None),
            places,
        )
    }

    /// The same where the front was read, and its number is smaller.
    #[inline(never)]
    fn place_after(&mut self, first: u32, front: u32, missing: usize) -> usize
        requires some { 0 < length self.old.rows }
        requires front { front ≡ number_at self.old.rows 0 }
        requires smaller { front < first }
        requires missing { IsMissing missing self.old.rows }
        requires few_missing { 2 * missing ≤ length self.old.rows }
        ensures within { result ≤ length self.old.rows }
        ensures below { (i : ℕ) → i < result → number_at self.old.rows i < first }
        ensures above { (i : ℕ) → result ≤ i → i < length self.old.rows → first ≤ number_at self.old.rows i }
        ensures cost { (k : ℕ) × (self.new ≡ compared k self.old) × (2 ^ (k + 1) ≤ 2 * length self.old.rows + 1) }
    {
        let len = self.len();
        let far = (first - front) as usize;
        let low = far.saturating_sub(missing).min(len);
        let guess = self.landmark().expected(first, len, missing);
        let places = (len + 1).next_power_of_two() / 2;
        self.place_in(
            first,
            Part {
                low,
                high: far.min(len),
                guess,
            },
            Clues::of(guess, len, missing, Some((0, front))),
            places,
        )
    }

    /// The same by a search of the part that can hold the place, which has fewer places than `places`, a power of two. Two to the power
    /// of the numbers that it reads is at most that.
    #[inline(always)]
    fn place_in(&mut self, first: u32, part: Part, clues: Clues, places: usize) -> usize
        requires order { part.low ≤ part.high }
        requires within { part.high ≤ length self.old.rows }
        requires below { (i : ℕ) → i < part.low → number_at self.old.rows i < first }
        requires above { (i : ℕ) → part.high ≤ i → i < length self.old.rows → first ≤ number_at self.old.rows i }
        requires places { (c : ℕ) × (places ≡ 2 ^ c) }
        requires enough { part.high - part.low < places }
        requires few { places ≤ 2 ^ 34 }
        ensures within { result ≤ length self.old.rows }
        ensures below { (i : ℕ) → i < result → number_at self.old.rows i < first }
        ensures above { (i : ℕ) → result ≤ i → i < length self.old.rows → first ≤ number_at self.old.rows i }
        ensures cost { (k : ℕ) × (self.new ≡ compared k self.old) × (2 ^ k ≤ places) }
    {
        // prover
        let _len = self.len();
        let (mut left, mut clues) = (part, clues);
        let mut half = places;
        while left.low < left.high {
            half /= 2;
            let at = probe(left, half);
            let value = self.number(at);
            clues = clues.learned(at, value);
            left = closer(left, at, value, first, clues);
        }
        self.note(Landmark::after(first, left.low));
        left.low
    }
}
