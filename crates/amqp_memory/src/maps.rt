//! Requests for the places of maps that keep an order, of slabs and of heaps.

ghost use Rattle.std.specs.Prelude.{◌≡◌, ◌+◌, ◌*◌, ◌<◌, ◌≤◌, ◌^◌, is_some, if◌then◌else◌, Some, None, OnOk, OnErr, IfOk, IfErr, IsOk};
ghost use Rattle.indexmap.specs.IndexMap.{index_map_len, spare, hasher_of, get, insert_entry, insert_index, IsUnique, IsUnchanged, KeepsRoom, Updates};
ghost use Rattle.slab.specs.Slab.{HasRoomFor};
ghost use Rattle.std.specs.BinaryHeap.{heap_items, heap_len, heap_capacity};
ghost use Rattle.amqp_memory.specs.Refusal.{RefusedWithin, SomeRefused};

use indexmap::IndexMap;
use slab::Slab;
use std::alloc::{AllocError, AllocFailed};
use std::collections::BinaryHeap;
use std::hash::{BuildHasher, Hash};

/// Makes places for so many entries more.
#[inline(always)]
#[tactic(auto, unfolding(crate::specs::Refusal::WasRefused))]
pub fn more_in_map<K: Eq + Hash, V, S: BuildHasher>(
    map: &mut IndexMap<K, V, S>,
    places: usize,
) -> Result<(), AllocError>
    ensures entries { IsUnchanged map.old map.new }
    ensures ok { OnOk result (places ≤ spare map.new) }
    ensures succeeds { places ≤ spare map.old → IsOk result }
    ensures room { KeepsRoom map.old map.new }
    ensures unique { IsUnique K.eq map.new }
    ensures refused { OnErr result (RefusedWithin places) }
    ensures some { places ≤ 2 ^ 34 → OnErr result SomeRefused }
{
    map.reserve(places)
}

/// Puts an entry into a map. Only a new key can want memory.
#[inline(always)]
#[tactic(auto, unfolding(crate::specs::Refusal::WasRefused))]
pub fn put_in_map<K: Eq + Hash + Drop, V, S: BuildHasher>(
    map: &mut IndexMap<K, V, S>,
    key: K,
    value: V,
) -> Result<Option<V>, AllocFailed<(K, V)>>
    ensures old { IfOk result (λ old. old ≡ get K.eq map.old key) }
    ensures updates { OnOk result (Updates K.eq map.old map.new key (Some value)) }
    ensures entries { OnOk result (map.new.entries ≡ insert_entry K.eq map.old.entries key value) }
    ensures len { IfOk result (λ old. index_map_len map.new ≡ index_map_len map.old + (if is_some old then 0 else 1)) }
    ensures value_returned { IfErr result (λ y. y.value ≡ (key, value)) }
    ensures err { OnErr result (IsUnchanged map.old map.new) }
    ensures absent { OnErr result (get K.eq map.old key ≡ None) }
    ensures succeeds { 0 < spare map.old → IsOk result }
    ensures spare { spare map.old ≤ spare map.new + 1 }
    ensures hasher { hasher_of map.new ≡ hasher_of map.old }
    ensures unique { IsUnique K.eq map.new }
    ensures refused { OnErr result SomeRefused }
{
    map.insert(key, value)
}

/// Puts an entry into a map, and says where it stands. Only a new key can want memory.
#[inline(always)]
#[tactic(auto, unfolding(crate::specs::Refusal::WasRefused))]
pub fn put_full_in_map<K: Eq + Hash + Drop, V, S: BuildHasher>(
    map: &mut IndexMap<K, V, S>,
    key: K,
    value: V,
) -> Result<(usize, Option<V>), AllocFailed<(K, V)>>
    ensures index { IfOk result (λ r. r.0 ≡ insert_index K.eq map.old key) }
    ensures within { IfOk result (λ r. r.0 < index_map_len map.new) }
    ensures old { IfOk result (λ r. r.1 ≡ get K.eq map.old key) }
    ensures updates { OnOk result (Updates K.eq map.old map.new key (Some value)) }
    ensures entries { OnOk result (map.new.entries ≡ insert_entry K.eq map.old.entries key value) }
    ensures len { IfOk result (λ r. index_map_len map.new ≡ index_map_len map.old + (if is_some r.1 then 0 else 1)) }
    ensures value_returned { IfErr result (λ y. y.value ≡ (key, value)) }
    ensures err { OnErr result (IsUnchanged map.old map.new) }
    ensures absent { OnErr result (get K.eq map.old key ≡ None) }
    ensures succeeds { 0 < spare map.old → IsOk result }
    ensures spare { spare map.old ≤ spare map.new + 1 }
    ensures hasher { hasher_of map.new ≡ hasher_of map.old }
    ensures unique { IsUnique K.eq map.new }
    ensures refused { OnErr result SomeRefused }
{
    map.insert_full(key, value)
}

/// Makes places for so many values more.
#[inline(always)]
#[tactic(auto, unfolding(crate::specs::Refusal::WasRefused))]
pub fn more_in_slab<T>(slab: &mut Slab<T>, places: usize) -> Result<(), AllocError>
    ensures room { OnOk result (HasRoomFor slab.new places) }
    ensures succeeds { HasRoomFor slab.old places → IsOk result }
    ensures had_room { HasRoomFor slab.old places → slab.new ≡ slab.old }
    ensures capacity { slab.old.capacity ≤ slab.new.capacity }
    ensures rest_kept { slab.new ≡ record slab.old { capacity = slab.new.capacity } }
    ensures refused { OnErr result (RefusedWithin places) }
    ensures some { places ≤ 2 ^ 34 → OnErr result SomeRefused }
{
    slab.reserve(places)
}

/// Makes places for so many items more.
#[inline(always)]
#[tactic(auto, unfolding(crate::specs::Refusal::WasRefused))]
pub fn more_in_heap<T: Ord>(heap: &mut BinaryHeap<T>, places: usize) -> Result<(), AllocError>
    ensures items { heap_items heap.new ≡ heap_items heap.old }
    ensures len { heap_len heap.new ≡ heap_len heap.old }
    ensures capacity { heap_capacity heap.old ≤ heap_capacity heap.new }
    ensures ok { OnOk result (heap_len heap.new + places ≤ heap_capacity heap.new) }
    ensures full { OnErr result (heap_capacity heap.old < heap_len heap.old + places) }
    ensures refused { OnErr result (RefusedWithin places) }
    ensures some { places ≤ 2 ^ 34 → OnErr result SomeRefused }
{
    heap.reserve(places)
}

/// Makes places in a heap for so many items more, for what is kept of the entries of a map.
#[inline(always)]
#[tactic(auto, unfolding(crate::specs::Refusal::WasRefused))]
pub fn more_in_heap_for<T: Ord, K: Eq + Hash, V, S: BuildHasher>(
    heap: &mut BinaryHeap<T>,
    _of: &IndexMap<K, V, S>,
    places: usize,
) -> Result<(), AllocError>
    requires { places ≤ 2 ^ 34 * (index_map_len _of.now + 1) }
    ensures items { heap_items heap.new ≡ heap_items heap.old }
    ensures len { heap_len heap.new ≡ heap_len heap.old }
    ensures capacity { heap_capacity heap.old ≤ heap_capacity heap.new }
    ensures ok { OnOk result (heap_len heap.new + places ≤ heap_capacity heap.new) }
    ensures full { OnErr result (heap_capacity heap.old < heap_len heap.old + places) }
    ensures refused { OnErr result SomeRefused }
{
    heap.reserve(places)
}
