//! Described lists, written: the canonical text of a composite from the table of its fields.

ghost use Rattle.std.specs.Prelude.{◌≡◌, ℕ, ◌+◌, ◌^◌, ◌<◌, ◌≤◌, List, ◌++◌, length, take};
ghost use Rattle.amqp_values.specs.Reading.{joined};
ghost use Rattle.amqp_values.specs.Writing.{trim, list_head, list_text, described_text};

use crate::codes;
use crate::row::{Extent, Row};
use bytes::BytesMut;

#[tactic(auto, unfolding(crate::specs::Writing::list_text))]
#[inline(always)]
fn put_head(out: &mut BytesMut, count: usize, size: usize)
    requires room { length (list_head count size) ≤ out.old.spare }
    requires parts { 0 < count }
    requires few { count ≤ 16 }
    requires fits { length (list_head count size) + size < 2 ^ 32 }
    ensures items { out.new.items ≡ out.old.items ++ list_head count size }
    ensures spare { out.new.spare + length (list_head count size) ≡ out.old.spare }
{
    if size < 255 {
        out.extend_reserved(&[codes::LIST8, (size + 1) as u8, count as u8]);
    } else {
        out.extend_reserved(&[codes::LIST32]);
        out.extend_reserved(&((size + 4) as u32).to_be_bytes());
        out.extend_reserved(&(count as u32).to_be_bytes());
    }
}

/// The size of the parts of a list that has some, whose text has this length.
#[tactic(auto, unfolding(crate::specs::Writing::list_text))]
#[inline(always)]
fn size_in(len: usize) -> usize
    requires { 3 ≤ len }
    ensures { (parts : List (List ℕ)) → 0 < length parts → len ≡ length (list_text parts) → result ≡ length (joined parts) }
{
    if len < 258 { len - 3 } else { len - 9 }
}

/// Appends the list of these fields, whose text has this length.
#[tactic(auto, unfolding(crate::specs::Writing::list_text), using(crate::proofs::TrimLemmas::trim_take))]
#[inline(always)]
fn put_list<R: Row>(fields: &R, len: usize, out: &mut BytesMut)
    requires few { length (R.texts fields.now) ≤ 16 }
    requires long { R.most < 2 ^ 126 }
    requires len_is { len ≡ length (list_text (trim (R.texts fields.now))) }
    requires room { length (list_text (trim (R.texts fields.now))) ≤ out.old.spare }
    requires fits { length (list_text (trim (R.texts fields.now))) < 2 ^ 32 }
    ensures items { out.new.items ≡ out.old.items ++ list_text (trim (R.texts fields.now)) }
    ensures spare { out.new.spare + length (list_text (trim (R.texts fields.now))) ≡ out.old.spare }
{
    // only the count: what would measure the texts is dead code
    let Extent { count, size: _ } = fields.extent();
    if count == 0 {
        out.extend_reserved(&[codes::LIST0]);
    } else {
        put_head(out, count, size_in(len));
        fields.put(count, out);
    }
}

/// The length of the described list of these fields, which is the same for each code of one byte. Takes no memory.
#[tactic(auto, unfolding(crate::specs::Writing::list_text))]
#[inline(always)]
pub fn described_len<R: Row>(fields: &R) -> u128
    requires many { length (R.texts fields.now) ≤ 16 }
    requires long { R.most < 2 ^ 126 }
    ensures value { result ≡ length (described_text 0 (R.texts fields.now)) }
    ensures bound { result ≤ R.most + 12 }
{
    let Extent { count, size } = fields.extent();
    if count == 0 {
        4
    } else if size < 255 {
        size + 6
    } else {
        size + 12
    }
}

/// Appends the described list of these fields, whose text has this length, to a buffer that has room for it.
#[inline(always)]
pub fn put_described<R: Row>(code: u8, fields: &R, len: usize, out: &mut BytesMut)
    requires few { length (R.texts fields.now) ≤ 16 }
    requires long { R.most < 2 ^ 126 }
    requires len_is { len ≡ length (described_text code (R.texts fields.now)) }
    requires room { length (described_text code (R.texts fields.now)) ≤ out.old.spare }
    requires fits { length (described_text code (R.texts fields.now)) < 2 ^ 32 }
    ensures items { out.new.items ≡ out.old.items ++ described_text code (R.texts fields.now) }
    ensures spare { out.new.spare + length (described_text code (R.texts fields.now)) ≡ out.old.spare }
{
    out.extend_reserved(&[codes::DESCRIBED, codes::SMALL_ULONG, code]);
    put_list(fields, len - 3, out);
}
