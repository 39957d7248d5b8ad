//! Requests that grow with what is in memory already: at most 2^34 places for each of its items, and for one more.

ghost use Rattle.std.specs.Prelude.{◌≡◌, ◌+◌, ◌*◌, ◌^◌, ◌≤◌, ◌<◌, [], length, OnOk, OnErr, IfOk, IsOk, vec_len, vec_capacity};
ghost use Rattle.std.specs.VecDeque.{deque_len, deque_capacity};
ghost use Rattle.bytes.specs.Filled.{MakesSpare};
ghost use Rattle.amqp_memory.specs.Refusal.{SomeRefused};

use bytes::BytesMut;
use std::alloc::{AllocError, Global};
use std::collections::VecDeque;

/// A vector with so many places, for what is made of these items.
#[inline(always)]
#[tactic(auto, unfolding(crate::specs::Refusal::WasRefused))]
pub fn vector_for<T, U>(alloc: Global, _of: &[U], places: usize) -> Result<Vec<T>, AllocError>
    requires { places ≤ 2 ^ 34 * (length _of.now + 1) }
    ensures items { IfOk result (λ v. v.items ≡ []) }
    ensures len { IfOk result (λ v. vec_len v ≡ 0) }
    ensures exact { IfOk result (λ v. vec_capacity v ≡ places) }
    ensures succeeds { places ≡ 0 → IsOk result }
    ensures refused { OnErr result SomeRefused }
{
    Vec::with_capacity(alloc, places)
}

/// Makes places in a queue for so many items more, for what is made of these items.
#[inline(always)]
#[tactic(auto, unfolding(crate::specs::Refusal::WasRefused))]
pub fn more_in_queue_for<T, U>(
    queue: &mut VecDeque<T>,
    _of: &[U],
    places: usize,
) -> Result<(), AllocError>
    requires { places ≤ 2 ^ 34 * (length _of.now + 1) }
    ensures items { queue.new.items ≡ queue.old.items }
    ensures len { deque_len queue.new ≡ deque_len queue.old }
    ensures ok { OnOk result (deque_len queue.new + places ≤ deque_capacity queue.new) }
    ensures capacity { deque_capacity queue.old ≤ deque_capacity queue.new }
    ensures full { OnErr result (deque_capacity queue.old < deque_len queue.old + places) }
    ensures refused { OnErr result SomeRefused }
{
    queue.reserve(places)
}

/// Makes places in a queue for so many items more, for what is made of the items of another queue.
#[inline(always)]
#[tactic(auto, unfolding(crate::specs::Refusal::WasRefused))]
pub fn more_in_queue_beside<T, U>(
    queue: &mut VecDeque<T>,
    _of: &VecDeque<U>,
    places: usize,
) -> Result<(), AllocError>
    requires { places ≤ 2 ^ 34 * (deque_len _of.now + 1) }
    ensures items { queue.new.items ≡ queue.old.items }
    ensures len { deque_len queue.new ≡ deque_len queue.old }
    ensures ok { OnOk result (deque_len queue.new + places ≤ deque_capacity queue.new) }
    ensures capacity { deque_capacity queue.old ≤ deque_capacity queue.new }
    ensures full { OnErr result (deque_capacity queue.old < deque_len queue.old + places) }
    ensures refused { OnErr result SomeRefused }
{
    queue.reserve(places)
}

/// Makes places in a buffer for so many bytes more, for what is made of these items.
#[inline(always)]
#[tactic(auto, unfolding(crate::specs::Refusal::WasRefused))]
pub fn more_in_buffer_for<U>(
    buffer: &mut BytesMut,
    _of: &[U],
    places: usize,
) -> Result<(), AllocError>
    requires { places ≤ 2 ^ 34 * (length _of.now + 1) }
    ensures items { buffer.new.items ≡ buffer.old.items }
    ensures spare { MakesSpare result buffer.old.spare buffer.new.spare places }
    ensures refused { OnErr result SomeRefused }
{
    buffer.reserve(places)
}
