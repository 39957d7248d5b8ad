//! Requests for the places of a vector.

ghost use Rattle.std.specs.Prelude.{◌≡◌, ◌+◌, ◌≤◌, ◌^◌, ◌<◌, [], max, OnOk, OnErr, IfOk, IsOk, vec_len, vec_capacity};
ghost use Rattle.amqp_memory.specs.Refusal.{RefusedWithin, SomeRefused};

use std::alloc::{AllocError, Global};

/// A vector with so many places.
#[inline(always)]
#[tactic(auto, unfolding(crate::specs::Refusal::WasRefused))]
pub fn vector_with<T>(alloc: Global, places: usize) -> Result<Vec<T>, AllocError>
    ensures items { IfOk result (λ v. v.items ≡ []) }
    ensures len { IfOk result (λ v. vec_len v ≡ 0) }
    ensures exact { IfOk result (λ v. vec_capacity v ≡ places) }
    ensures succeeds { places ≡ 0 → IsOk result }
    ensures refused { OnErr result (RefusedWithin places) }
    ensures some { places ≤ 2 ^ 34 → OnErr result SomeRefused }
{
    Vec::with_capacity(alloc, places)
}

/// Makes places for so many items more.
#[inline(always)]
#[tactic(auto, unfolding(crate::specs::Refusal::WasRefused))]
pub fn more_in_vector<T>(vector: &mut Vec<T>, places: usize) -> Result<(), AllocError>
    ensures items { vector.new.items ≡ vector.old.items }
    ensures len { vec_len vector.new ≡ vec_len vector.old }
    ensures ok { OnOk result (vec_len vector.new + places ≤ vec_capacity vector.new) }
    ensures capacity { vec_capacity vector.old ≤ vec_capacity vector.new }
    ensures succeeds { vec_len vector.old + places ≤ vec_capacity vector.old → IsOk result }
    ensures full { OnErr result (vec_capacity vector.old < vec_len vector.old + places) }
    ensures err { OnErr result (vec_capacity vector.new ≡ vec_capacity vector.old) }
    ensures refused { OnErr result (RefusedWithin places) }
    ensures some { places ≤ 2 ^ 34 → OnErr result SomeRefused }
{
    vector.reserve(places)
}

/// Makes places for so many items more, and no further ones.
#[inline(always)]
#[tactic(auto, unfolding(crate::specs::Refusal::WasRefused))]
pub fn more_in_vector_exactly<T>(vector: &mut Vec<T>, places: usize) -> Result<(), AllocError>
    ensures items { vector.new.items ≡ vector.old.items }
    ensures len { vec_len vector.new ≡ vec_len vector.old }
    ensures ok { OnOk result (vec_len vector.new + places ≤ vec_capacity vector.new) }
    ensures capacity { vec_capacity vector.old ≤ vec_capacity vector.new }
    ensures succeeds { vec_len vector.old + places ≤ vec_capacity vector.old → IsOk result }
    ensures full { OnErr result (vec_capacity vector.old < vec_len vector.old + places) }
    ensures exact { OnOk result (vec_capacity vector.new ≡ max (vec_capacity vector.old) (vec_len vector.old + places)) }
    ensures err { OnErr result (vec_capacity vector.new ≡ vec_capacity vector.old) }
    ensures refused { OnErr result (RefusedWithin places) }
    ensures some { places ≤ 2 ^ 34 → OnErr result SomeRefused }
{
    vector.reserve_exact(places)
}
