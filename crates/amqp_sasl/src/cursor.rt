//! Bytes, numbers and regions, read from a place of the received bytes on. Each call moves the place behind what it read.

ghost use Rattle.std.specs.Prelude.{◌≡◌, ◌≤◌, ◌+◌, ◌∷◌, drop, length, IfSome};
ghost use Rattle.std.specs.Int.{w32, w64};
ghost use Rattle.amqp_values.specs.Reading.{byte_at, number_at, count_at, region_at};
ghost use Rattle.amqp_sasl.specs.SaslFrame.{part, IsWithin};
ghost use Rattle.amqp_sasl.specs.Inner.Reading.{Reads};

use crate::place::Place;

#[tactic(auto, using(amqp_values::proofs::WalkLemmas::byte_is, amqp_values::proofs::WalkLemmas::no_byte))]
pub(crate) fn take_byte(text: &[u8], at: &mut usize) -> Option<u8>
    requires { at.old ≤ length text.now }
    ensures value { Reads (λ x. x) result (drop at.new text.now) (byte_at (drop at.old text.now)) }
    ensures moved { IfSome result (λ b. at.new ≡ at.old + 1) }
    ensures read { IfSome result (λ b. drop at.old text.now ≡ b ∷ drop at.new text.now) }
    ensures bound { at.new ≤ length text.now }
{
    let from = *at;
    if from == text.len() {
        return None;
    }
    *at = from + 1;
    Some(text[from])
}

#[tactic(auto, using(amqp_values::proofs::WalkLemmas::drop_past))]
pub(crate) fn take_u32(text: &[u8], at: &mut usize) -> Option<u32>
    requires { at.old ≤ length text.now }
    ensures value { Reads (λ x. x) result (drop at.new text.now) (number_at w32 (drop at.old text.now)) }
    ensures bound { at.new ≤ length text.now }
{
    let (_, front) = text.split_at(*at);
    if front.len() < 4 {
        return None;
    }
    *at += 4;
    Some(u32::from_be_bytes([front[0], front[1], front[2], front[3]]))
}

#[tactic(auto, using(amqp_values::proofs::WalkLemmas::drop_past))]
pub(crate) fn take_u64(text: &[u8], at: &mut usize) -> Option<u64>
    requires { at.old ≤ length text.now }
    ensures value { Reads (λ x. x) result (drop at.new text.now) (number_at w64 (drop at.old text.now)) }
    ensures bound { at.new ≤ length text.now }
{
    let (_, front) = text.split_at(*at);
    if front.len() < 8 {
        return None;
    }
    *at += 8;
    Some(u64::from_be_bytes([
        front[0], front[1], front[2], front[3], front[4], front[5], front[6], front[7],
    ]))
}

/// A length or a count: one byte, or four where it is wide.
pub(crate) fn take_count(wide: bool, text: &[u8], at: &mut usize) -> Option<u32>
    requires { at.old ≤ length text.now }
    ensures value { Reads (λ x. x) result (drop at.new text.now) (count_at wide (drop at.old text.now)) }
    ensures bound { at.new ≤ length text.now }
{
    if wide {
        return take_u32(text, at);
    }
    match take_byte(text, at) {
        Some(byte) => Some(u32::from(byte)),
        None => None,
    }
}

/// Where the bytes stand that a length counts.
#[tactic(auto, using(amqp_values::proofs::WalkLemmas::drop_past, amqp_values::proofs::WalkLemmas::slice_is), unfolding(amqp_values::specs::Reading::region_at, amqp_values::specs::Reading::cut_at))]
pub(crate) fn take_region(wide: bool, text: &[u8], at: &mut usize) -> Option<Place>
    requires { at.old ≤ length text.now }
    ensures value { Reads (part text.now) result (drop at.new text.now) (region_at wide (drop at.old text.now)) }
    ensures within { IfSome result (IsWithin (length text.now)) }
    ensures ends { IfSome result (λ p. p.to ≡ at.new) }
    ensures bound { at.new ≤ length text.now }
{
    let len = match take_count(wide, text, at) {
        Some(len) => len as usize,
        None => return None,
    };
    let from = *at;
    if text.len() - from < len {
        return None;
    }
    *at = from + len;
    Some(Place { from, to: *at })
}
