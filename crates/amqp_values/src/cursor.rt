//! Bytes, numbers and regions, read from a place of the received bytes on. What they answer takes no memory, so they refuse
//! malformed bytes alone.

ghost use Rattle.std.specs.Prelude.{◌≡◌, ◌<◌, ◌≤◌, ◌+◌, ◌^◌, ◌∷◌, drop, length, IfOk, IfErr};
ghost use Rattle.std.specs.Int.{w16, w32, w64};
ghost use Rattle.amqp_values.specs.declared.error.ReadError.TheVariants.{Malformed};
ghost use Rattle.amqp_values.specs.Reading.{Gives, byte_at, number_at, count_at, region_at};
ghost use Rattle.amqp_values.specs.Walking.{IsRegion};

use crate::error::ReadError;

#[tactic(auto, using(crate::proofs::WalkLemmas::byte_is, crate::proofs::WalkLemmas::no_byte))]
#[inline(always)]
pub(crate) fn take_byte(text: &[u8], at: &mut usize) -> Result<u8, ReadError>
    requires { at.old ≤ length text.now }
    ensures value { Gives (λ x. x) result (drop at.new text.now) (byte_at (drop at.old text.now)) }
    ensures moved { IfOk result (λ b. at.new ≡ at.old + 1) }
    ensures read { IfOk result (λ b. drop at.old text.now ≡ b ∷ drop at.new text.now) }
    ensures bound { at.new ≤ length text.now }
    ensures malformed { IfErr result (λ e. e ≡ Malformed) }
{
    let from = *at;
    if from == text.len() {
        return Err(ReadError::Malformed);
    }
    *at = from + 1;
    Ok(text[from])
}

#[tactic(auto, using(crate::proofs::WalkLemmas::drop_past))]
#[inline(always)]
pub(crate) fn take_u16(text: &[u8], at: &mut usize) -> Result<u16, ReadError>
    requires { at.old ≤ length text.now }
    ensures value { Gives (λ x. x) result (drop at.new text.now) (number_at w16 (drop at.old text.now)) }
    ensures bound { at.new ≤ length text.now }
    ensures malformed { IfErr result (λ e. e ≡ Malformed) }
{
    let (_, front) = text.split_at(*at);
    if front.len() < 2 {
        return Err(ReadError::Malformed);
    }
    *at += 2;
    Ok(u16::from_be_bytes([front[0], front[1]]))
}

#[tactic(auto, using(crate::proofs::WalkLemmas::drop_past))]
#[inline(always)]
pub(crate) fn take_u32(text: &[u8], at: &mut usize) -> Result<u32, ReadError>
    requires { at.old ≤ length text.now }
    ensures value { Gives (λ x. x) result (drop at.new text.now) (number_at w32 (drop at.old text.now)) }
    ensures bound { at.new ≤ length text.now }
    ensures malformed { IfErr result (λ e. e ≡ Malformed) }
{
    let (_, front) = text.split_at(*at);
    if front.len() < 4 {
        return Err(ReadError::Malformed);
    }
    *at += 4;
    Ok(u32::from_be_bytes([front[0], front[1], front[2], front[3]]))
}

#[tactic(auto, using(crate::proofs::WalkLemmas::drop_past))]
#[inline(always)]
pub(crate) fn take_u64(text: &[u8], at: &mut usize) -> Result<u64, ReadError>
    requires { at.old ≤ length text.now }
    ensures value { Gives (λ x. x) result (drop at.new text.now) (number_at w64 (drop at.old text.now)) }
    ensures bound { at.new ≤ length text.now }
    ensures malformed { IfErr result (λ e. e ≡ Malformed) }
{
    let (_, front) = text.split_at(*at);
    if front.len() < 8 {
        return Err(ReadError::Malformed);
    }
    *at += 8;
    Ok(u64::from_be_bytes([
        front[0], front[1], front[2], front[3], front[4], front[5], front[6], front[7],
    ]))
}

/// A length or a count: one byte, or four where it is wide.
#[inline(always)]
pub(crate) fn take_count(wide: bool, text: &[u8], at: &mut usize) -> Result<u32, ReadError>
    requires { at.old ≤ length text.now }
    ensures value { Gives (λ x. x) result (drop at.new text.now) (count_at wide (drop at.old text.now)) }
    ensures bound { at.new ≤ length text.now }
    ensures malformed { IfErr result (λ e. e ≡ Malformed) }
{
    if wide {
        return take_u32(text, at);
    }
    match take_byte(text, at) {
        Ok(byte) => Ok(u32::from(byte)),
        Err(error) => Err(error),
    }
}

/// Where a length and that many bytes have the bytes. The place is after them then.
#[tactic(auto, using(crate::proofs::WalkLemmas::drop_past, crate::proofs::WalkLemmas::slice_is), unfolding(crate::specs::Reading::region_at, crate::specs::Reading::cut_at))]
#[inline(always)]
pub(crate) fn take_region(wide: bool, text: &[u8], at: &mut usize) -> Result<usize, ReadError>
    requires { at.old ≤ length text.now }
    ensures value { IsRegion text.now at.new result (region_at wide (drop at.old text.now)) }
    ensures bound { at.new ≤ length text.now }
    ensures short { IfOk result (λ from. at.new < from + 2 ^ 32) }
    ensures malformed { IfErr result (λ e. e ≡ Malformed) }
{
    let len = match take_count(wide, text, at) {
        Ok(len) => len as usize,
        Err(error) => return Err(error),
    };
    let from = *at;
    if text.len() - from < len {
        return Err(ReadError::Malformed);
    }
    *at = from + len;
    Ok(from)
}
