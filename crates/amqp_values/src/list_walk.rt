//! A walk over the parts of a list where they stand: a place and a count, changed where they are. The text and the bytes that it is
//! the front of are arguments of each call, and nothing is cut off but what is kept.

ghost use Rattle.std.specs.Prelude.{◌≡◌, ◌≢◌, ◌<◌, ◌≤◌, ◌-◌, ◌∷◌, drop, take, length, IfOk, IfErr};
ghost use Rattle.std.specs.Option.{option_map};
ghost use Rattle.amqp_values.specs.declared.error.ReadError.TheVariants.{Malformed};
ghost use Rattle.amqp_values.specs.Walking.{ahead, part_code_at, IsEntered};
ghost use Rattle.amqp_values.specs.Reading.{Gives};
ghost use Rattle.amqp_values.specs.Slots.{default_at, end_at, optional_at, required_at};

use crate::codes;
use crate::cursor::{take_byte, take_count, take_region};
use crate::error::ReadError;
use crate::field::Field;
use bytes::Bytes;
use std::alloc::Global;

/// Where a walk over the parts of a list stands. Its calls take the text, which ends where the list does, and the bytes that the text
/// is the front of: always the same.
#[derive(Clone, Copy, Debug)]
pub struct ListWalk {
    /// How many of the bytes are behind it.
    pub at: usize,
    /// How many parts are left, by the count of the list.
    pub left: u32,
}

impl ListWalk {
    /// The walk over the list at the front of these bytes, and how far the list goes: its text is the bytes up to there. `Malformed`
    /// where no list stands there.
    #[tactic(auto, using(crate::proofs::WalkLemmas::drop_front), unfolding(crate::specs::Composite::list_at))]
    #[inline(always)]
    pub fn enter(bytes: &[u8]) -> Result<(ListWalk, usize), ReadError>
        ensures value { IsEntered bytes.now result }
        ensures malformed { IfErr result (λ e. e ≡ Malformed) }
    {
        let mut at = 0;
        let wide = match take_byte(bytes, &mut at)? {
            codes::LIST0 => return Ok((ListWalk { at, left: 0 }, at)),
            codes::LIST8 => false,
            codes::LIST32 => true,
            _ => return Err(ReadError::Malformed),
        };
        let mut from = take_region(wide, bytes, &mut at)?;
        let (text, _) = bytes.split_at(at);
        let left = take_count(wide, text, &mut from)?;
        Ok((ListWalk { at: from, left }, at))
    }

    /// The code of the next part, which is behind the walk then; that of null also where the list has ended.
    #[tactic(auto, using(crate::proofs::WalkLemmas::byte_is, crate::proofs::WalkLemmas::no_byte), unfolding(crate::specs::Walking::part_code_at))]
    #[inline(always)]
    fn code(&mut self, text: &[u8]) -> Result<u8, ReadError>
        requires { self.old.at ≤ length text.now }
        ensures value { Gives (λ x. x) result (ahead text.now self.new) (part_code_at (ahead text.now self.old)) }
        ensures bound { self.new.at ≤ length text.now }
        ensures behind { IfOk result (λ c. c ≢ 64 → 0 < self.new.at) }
        ensures coded { IfOk result (λ c. c ≢ 64 → drop (self.new.at - 1) text.now ≡ c ∷ drop self.new.at text.now) }
        ensures malformed { IfErr result (λ e. e ≡ Malformed) }
    {
        if self.left == 0 {
            return Ok(codes::NULL);
        }
        self.left -= 1;
        take_byte(text, &mut self.at)
    }

    /// The next field; `None` where it is null or the list has ended (AMQP 1.0 part 1, section 1.4). `Malformed` where what stands there
    /// is not of the type, `OutOfMemory` as [`Field::read`].
    #[tactic(auto, using(crate::proofs::WalkLemmas::no_part, crate::proofs::WalkLemmas::a_part, crate::proofs::WalkLemmas::not_a_part, crate::proofs::WalkLemmas::part_ended))]
    #[inline(always)]
    pub fn next<F: Field>(
        &mut self,
        alloc: Global,
        text: &[u8],
        bytes: &Bytes,
    ) -> Result<Option<F>, ReadError>
        requires inside { self.old.at ≤ length text.now }
        requires front { text.now ≡ take (length text.now) bytes.now }
        ensures value { Gives (option_map F.view) result (ahead text.now self.new) (optional_at F.at (ahead text.now self.old)) }
        ensures bound { self.new.at ≤ length text.now }
    {
        match self.code(text) {
            Ok(codes::NULL) => Ok(None),
            Ok(code) => {
                let mut place = self.at;
                match F::read(alloc, code, text, &mut place, bytes) {
                    Ok(field) => {
                        self.at = place;
                        Ok(Some(field))
                    }
                    Err(error) => Err(error),
                }
            }
            Err(error) => {
                F::never_empty();
                Err(error)
            }
        }
    }

    /// The next field, which is mandatory: `Malformed` also where it is null or the list has ended.
    #[tactic(auto, using(crate::proofs::WalkLemmas::no_part, crate::proofs::WalkLemmas::a_part, crate::proofs::WalkLemmas::not_a_part, crate::proofs::WalkLemmas::part_ended), unfolding(crate::specs::Slots::required_at))]
    #[inline(always)]
    pub fn required<F: Field>(
        &mut self,
        alloc: Global,
        text: &[u8],
        bytes: &Bytes,
    ) -> Result<F, ReadError>
        requires inside { self.old.at ≤ length text.now }
        requires front { text.now ≡ take (length text.now) bytes.now }
        ensures value { Gives F.view result (ahead text.now self.new) (required_at F.at (ahead text.now self.old)) }
        ensures bound { self.new.at ≤ length text.now }
    {
        match self.code(text) {
            Ok(codes::NULL) => Err(ReadError::Malformed),
            Ok(code) => {
                let mut place = self.at;
                let field = F::read(alloc, code, text, &mut place, bytes);
                self.at = place;
                field
            }
            Err(error) => {
                F::never_empty();
                Err(error)
            }
        }
    }

    /// The next field, or its default where it is null or the list has ended.
    #[tactic(auto, using(crate::proofs::WalkLemmas::no_part, crate::proofs::WalkLemmas::a_part, crate::proofs::WalkLemmas::not_a_part, crate::proofs::WalkLemmas::part_ended), unfolding(crate::specs::Slots::default_at))]
    #[inline(always)]
    pub fn or<F: Field>(
        &mut self,
        alloc: Global,
        text: &[u8],
        bytes: &Bytes,
        default: F,
    ) -> Result<F, ReadError>
        requires inside { self.old.at ≤ length text.now }
        requires front { text.now ≡ take (length text.now) bytes.now }
        ensures value { Gives F.view result (ahead text.now self.new) (default_at (F.view default) F.at (ahead text.now self.old)) }
        ensures bound { self.new.at ≤ length text.now }
    {
        match self.code(text) {
            Ok(codes::NULL) => Ok(default),
            Ok(code) => {
                let mut place = self.at;
                let field = F::read(alloc, code, text, &mut place, bytes);
                self.at = place;
                field
            }
            Err(error) => {
                F::never_empty();
                Err(error)
            }
        }
    }

    /// `Malformed` where a part or a byte is left.
    #[tactic(auto, using(crate::proofs::WalkLemmas::byte_is, crate::proofs::WalkLemmas::no_byte), unfolding(crate::specs::Slots::end_at))]
    #[inline(always)]
    pub fn finish(&self, text: &[u8]) -> Result<(), ReadError>
        requires { self.now.at ≤ length text.now }
        ensures value { Gives (λ x. x) result (ahead text.now self.now) (end_at (ahead text.now self.now)) }
        ensures malformed { IfErr result (λ e. e ≡ Malformed) }
    {
        if self.left == 0 && self.at == text.len() {
            Ok(())
        } else {
            Err(ReadError::Malformed)
        }
    }
}
