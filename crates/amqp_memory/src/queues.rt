//! Requests for the places of a queue.

ghost use Rattle.std.specs.Prelude.{◌≡◌, ◌+◌, ◌≤◌, ◌^◌, ◌<◌, [], ◌∷◌, ◌++◌, if◌then◌else◌, is_ok, IfErr, OnOk, OnErr, IfOk, IsOk};
ghost use Rattle.std.specs.VecDeque.{deque_len, deque_capacity};
ghost use Rattle.amqp_memory.specs.Refusal.{RefusedWithin, SomeRefused};

use std::alloc::{AllocError, AllocFailed, Global};
use std::collections::VecDeque;

/// A queue with so many places.
#[inline(always)]
#[tactic(auto, unfolding(crate::specs::Refusal::WasRefused))]
pub fn queue_with<T>(alloc: Global, places: usize) -> Result<VecDeque<T>, AllocError>
    ensures items { IfOk result (λ q. q.items ≡ []) }
    ensures len { IfOk result (λ q. deque_len q ≡ 0) }
    ensures exact { IfOk result (λ q. deque_capacity q ≡ places) }
    ensures succeeds { places ≡ 0 → IsOk result }
    ensures refused { OnErr result (RefusedWithin places) }
    ensures some { places ≤ 2 ^ 34 → OnErr result SomeRefused }
{
    VecDeque::with_capacity(alloc, places)
}

/// Makes places for so many items more.
#[inline(always)]
#[tactic(auto, unfolding(crate::specs::Refusal::WasRefused))]
pub fn more_in_queue<T>(queue: &mut VecDeque<T>, places: usize) -> Result<(), AllocError>
    ensures items { queue.new.items ≡ queue.old.items }
    ensures len { deque_len queue.new ≡ deque_len queue.old }
    ensures ok { OnOk result (deque_len queue.new + places ≤ deque_capacity queue.new) }
    ensures capacity { deque_capacity queue.old ≤ deque_capacity queue.new }
    ensures full { OnErr result (deque_capacity queue.old < deque_len queue.old + places) }
    ensures refused { OnErr result (RefusedWithin places) }
    ensures some { places ≤ 2 ^ 34 → OnErr result SomeRefused }
{
    queue.reserve(places)
}

/// Puts an item at the end, for which it makes a place where there is none.
#[inline(always)]
#[tactic(auto, unfolding(crate::specs::Refusal::WasRefused))]
pub fn push_in_queue<T>(queue: &mut VecDeque<T>, item: T) -> Result<(), AllocFailed<T>>
    ensures items { queue.new.items ≡ (if is_ok result then queue.old.items ++ item ∷ [] else queue.old.items) }
    ensures len { deque_len queue.new ≡ (if is_ok result then deque_len queue.old + 1 else deque_len queue.old) }
    ensures value_returned { IfErr result (λ y. y.value ≡ item) }
    ensures capacity { deque_capacity queue.old ≤ deque_capacity queue.new }
    ensures succeeds { deque_len queue.old < deque_capacity queue.old → IsOk result }
    ensures in_place { deque_len queue.old < deque_capacity queue.old → deque_capacity queue.new ≡ deque_capacity queue.old }
    ensures full { OnErr result (deque_capacity queue.old ≤ deque_len queue.old) }
    ensures refused { OnErr result SomeRefused }
{
    queue.push_back(item)
}
