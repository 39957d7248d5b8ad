//! Requests for texts and byte strings.

ghost use Rattle.std.specs.Prelude.{◌≡◌, ◌+◌, ◌≤◌, ◌<◌, ◌^◌, [], ◌++◌, if◌then◌else◌, is_ok, take, drop, length, slice_range, string_bytes, string_len, string_capacity, OnOk, OnErr, IfOk, IfErr, IsOk};
ghost use Rattle.bytes.specs.Filled.{MakesSpare};
ghost use Rattle.amqp_memory.specs.Refusal.{RefusedWithin, SomeRefused};

use bytes::{Bytes, BytesMut};
use std::alloc::{AllocError, AllocFailed, Global};

/// A copy of a text.
#[inline(always)]
#[tactic(auto, unfolding(crate::specs::Refusal::WasRefused))]
pub fn text_of(alloc: Global, text: &str) -> Result<String, AllocError>
    ensures ok { IfOk result (λ t. string_bytes t ≡ text.now) }
    ensures refused { OnErr result SomeRefused }
{
    String::from_str(alloc, text)
}

/// Another copy of a text.
#[inline(always)]
#[tactic(auto, unfolding(crate::specs::Refusal::WasRefused))]
pub fn text_again(text: &String) -> Result<String, AllocError>
    ensures ok { IfOk result (λ t. string_bytes t ≡ string_bytes text.now) }
    ensures refused { OnErr result SomeRefused }
{
    text.clone()
}

/// Puts a text at the end of another one, for which it makes places where there are none.
#[inline(always)]
#[tactic(auto, unfolding(crate::specs::Refusal::WasRefused))]
pub fn push_in_text(text: &mut String, more: &str) -> Result<(), AllocError>
    ensures bytes { string_bytes text.new ≡ (if is_ok result then string_bytes text.old ++ more.now else string_bytes text.old) }
    ensures len { string_len text.new ≡ (if is_ok result then string_len text.old + length more.now else string_len text.old) }
    ensures capacity { string_capacity text.old ≤ string_capacity text.new }
    ensures succeeds { string_len text.old + length more.now ≤ string_capacity text.old → IsOk result }
    ensures full { OnErr result (string_capacity text.old < string_len text.old + length more.now) }
    ensures refused { OnErr result SomeRefused }
{
    text.push_str(more)
}

/// Cuts the first bytes off, which shares the block: the request is for a count of its owners.
#[inline(always)]
#[tactic(auto, unfolding(crate::specs::Refusal::WasRefused))]
pub fn front_of(bytes: &mut Bytes, at: usize) -> Result<Bytes, AllocError>
    requires { at ≤ length bytes.old }
    ensures front { IfOk result (λ b. b ≡ take at bytes.old) }
    ensures rest { OnOk result (bytes.new ≡ drop at bytes.old) }
    ensures err { OnErr result (bytes.new ≡ bytes.old) }
    ensures whole { at ≡ length bytes.old → IsOk result }
    ensures none { at ≡ 0 → IsOk result }
    ensures refused { OnErr result SomeRefused }
{
    bytes.split_to(at)
}

/// Another owner of the block, which sees the bytes from a place on and up to another: the request is for a count of the owners.
#[inline(always)]
#[tactic(auto, unfolding(crate::specs::Refusal::WasRefused))]
pub fn part_of(bytes: &Bytes, from: usize, to: usize) -> Result<Bytes, AllocError>
    requires order { from ≤ to }
    requires within { to ≤ length bytes.now }
    ensures ok { IfOk result (λ b. b ≡ slice_range bytes.now from to) }
    ensures empty { from ≡ to → IsOk result }
    ensures refused { OnErr result SomeRefused }
{
    bytes.slice(from..to)
}

/// Another owner of the bytes.
#[inline(always)]
#[tactic(auto, unfolding(crate::specs::Refusal::WasRefused))]
pub fn shared(bytes: &Bytes) -> Result<Bytes, AllocError>
    ensures ok { IfOk result (λ b. b ≡ bytes.now) }
    ensures refused { OnErr result SomeRefused }
{
    bytes.clone()
}

/// A copy of bytes.
#[inline(always)]
#[tactic(auto, unfolding(crate::specs::Refusal::WasRefused))]
pub fn copy_of(alloc: Global, bytes: &[u8]) -> Result<Bytes, AllocError>
    ensures ok { IfOk result (λ b. b ≡ bytes.now) }
    ensures refused { OnErr result SomeRefused }
{
    Bytes::copy_from_slice(alloc, bytes)
}

/// A buffer with so many places.
#[inline(always)]
#[tactic(auto, unfolding(crate::specs::Refusal::WasRefused))]
pub fn buffer_with(alloc: Global, places: usize) -> Result<BytesMut, AllocError>
    ensures items { IfOk result (λ b. b.items ≡ []) }
    ensures spare { IfOk result (λ b. places ≤ b.spare) }
    ensures refused { OnErr result (RefusedWithin places) }
    ensures some { places ≤ 2 ^ 34 → OnErr result SomeRefused }
{
    BytesMut::with_capacity(alloc, places)
}

/// Makes places for so many bytes more.
#[inline(always)]
#[tactic(auto, unfolding(crate::specs::Refusal::WasRefused))]
pub fn more_in_buffer(buffer: &mut BytesMut, places: usize) -> Result<(), AllocError>
    ensures items { buffer.new.items ≡ buffer.old.items }
    ensures spare { MakesSpare result buffer.old.spare buffer.new.spare places }
    ensures refused { OnErr result (RefusedWithin places) }
    ensures some { places ≤ 2 ^ 34 → OnErr result SomeRefused }
{
    buffer.reserve(places)
}

/// Cuts the bytes off a buffer, which keeps its room: the request is for a count of the block's owners.
#[inline(always)]
#[tactic(auto, unfolding(crate::specs::Refusal::WasRefused))]
pub fn filled_of(buffer: &mut BytesMut) -> Result<BytesMut, AllocError>
    ensures ok { IfOk result (λ b. b.items ≡ buffer.old.items) }
    ensures rest { OnOk result ((buffer.new.items ≡ []) × (buffer.new.spare ≡ buffer.old.spare)) }
    ensures err { OnErr result (buffer.new ≡ buffer.old) }
    ensures front_spare { IfOk result (λ b. b.spare ≡ 0) }
    ensures empty { length buffer.old.items ≡ 0 → IsOk result }
    ensures refused { OnErr result SomeRefused }
{
    buffer.split()
}

/// The bytes of a buffer, which are copied no more.
#[inline(always)]
#[tactic(auto, unfolding(crate::specs::Refusal::WasRefused))]
pub fn frozen(buffer: BytesMut) -> Result<Bytes, AllocFailed<BytesMut>>
    ensures ok { IfOk result (λ b. b ≡ buffer.items) }
    ensures value_returned { IfErr result (λ e. e.value ≡ buffer) }
    ensures empty { length buffer.items ≡ 0 → IsOk result }
    ensures refused { OnErr result SomeRefused }
{
    buffer.freeze()
}

/// The first bytes of a buffer, which are copied no more.
#[inline(always)]
#[tactic(auto, unfolding(crate::specs::Refusal::WasRefused))]
pub fn frozen_front(buffer: &mut BytesMut, at: usize) -> Result<Bytes, AllocError>
    requires { at ≤ length buffer.old.items }
    ensures front { IfOk result (λ b. b ≡ take at buffer.old.items) }
    ensures rest { OnOk result ((buffer.new.items ≡ drop at buffer.old.items) × (buffer.new.spare ≡ buffer.old.spare)) }
    ensures err { OnErr result (buffer.new ≡ buffer.old) }
    ensures none { at ≡ 0 → IsOk result }
    ensures refused { OnErr result SomeRefused }
{
    buffer.freeze_to(at)
}

/// The bytes of a vector, which are copied no more: the request is for a count of their owners.
#[inline(always)]
#[tactic(auto, unfolding(crate::specs::Refusal::WasRefused))]
pub fn bytes_of_vector(vector: Vec<u8>) -> Result<Bytes, AllocFailed<Vec<u8>>>
    ensures ok { IfOk result (λ b. b ≡ vector.items) }
    ensures value_returned { IfErr result (λ e. e.value.items ≡ vector.items) }
    ensures empty { length vector.items ≡ 0 → IsOk result }
    ensures refused { OnErr result SomeRefused }
{
    Bytes::from_vec(vector)
}
