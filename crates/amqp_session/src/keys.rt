//! Maps whose keys the peer chooses: how their keys are hashed, and where they were last put.

ghost use Rattle.std.specs.Prelude.{◌≡◌, ◌<◌, true, Some, None, IfSome, is_some, option_copied, nat_eq, slice_get};
ghost use Rattle.std.specs.Map.{lookup};
ghost use Rattle.std.specs.FinMap.{get, insert, remove};
ghost use Rattle.std.specs.Borrow.{sem};
ghost use Rattle.std.specs.Option.{option_copied_mut};
ghost use Rattle.indexmap.specs.IndexMap.{spare, hasher_of, get_by};
ghost use Rattle.amqp_session.specs.Lending.{lends_under};
ghost use Rattle.amqp_session.specs.Hashing.{hasher_by, numbered};

use indexmap::IndexMap;
use std::alloc::Allocator;
use std::hash::{BuildHasher, DefaultHasher, Hash, RandomState};

/// How keys are hashed that the peer chooses: names of links, input handles and incoming channels.
///
/// A peer that knows the key of a hash can choose names, handles and channels that collide; a look-up among n of them then takes n steps.
///
/// ```
/// let hash = KeyHash::Keyed(RandomState::new(&rt)?);
/// let engine: Engine<R> = Engine::keyed(alloc, hash, ConnectionState::HeaderExchange, open);
/// ```
#[derive(Clone, Copy, Debug)]
pub enum KeyHash {
    /// SipHash under a key that everyone knows. For peers that are trusted, and where no random bytes are at hand.
    Fixed,
    /// SipHash under a key that the peer does not know, as `RandomState::new` draws it.
    Keyed(RandomState),
}

impl BuildHasher for KeyHash {
    type Hasher = DefaultHasher;

    ghost build_hasher = { hasher_by };

    fn build_hasher(&self) -> DefaultHasher {
        match self {
            KeyHash::Fixed => DefaultHasher::new(),
            KeyHash::Keyed(state) => state.build_hasher(),
        }
    }
}

/// How many places are remembered.
const HINTS: usize = 16;

/// At which index of a map keys were last put or moved to: of the keys with the same lowest bits the one that was noted last.
/// A hint may be wrong: a look-up compares the key at that index, and searches the map where it is another one. So [`Hints::new`] and
/// [`Hints::note`] have no clause, and what uses hints, as [`get`] and [`index_of`], is proved whatever they are.
#[derive(Clone, Copy)]
pub struct Hints {
    places: [u32; HINTS],
}

impl Hints {
    /// Nothing was noted: the hint of each key is index 0.
    pub fn new() -> Hints {
        Hints { places: [0; HINTS] }
    }

    /// The index where the key may be.
    #[inline(always)]
    pub fn of(&self, key: u32) -> usize {
        self.places[key as usize % HINTS] as usize
    }

    /// Notes that the key was put at this index, or moved to it. Of an index of 2^32 or more a wrong hint is kept.
    #[inline(always)]
    pub fn note(&mut self, key: u32, index: usize) {
        self.places[key as usize % HINTS] = (index % 0x1_0000_0000) as u32;
    }
}

/// A map by numbers that the peer chooses.
pub type Numbered<V> = IndexMap<u32, V, KeyHash>;

/// The value of a key. `None` where the key is not there.
#[inline(always)]
pub fn get<'a, V>(map: &'a Numbered<V>, hints: &Hints, key: u32) -> Option<&'a V>
    ensures value { option_copied result ≡ lookup (nat_eq key) map.now.entries }
    ensures found { is_some result ≡ is_some (lookup (nat_eq key) map.now.entries) }
{
    if let Some((found, value)) = map.get_index(hints.of(key)) {
        if *found == key {
            return Some(value);
        }
    }
    map.get(&key)
}

/// The index of a key. `None` where the key is not there.
#[inline(always)]
pub fn index_of<V>(map: &Numbered<V>, hints: &Hints, key: u32) -> Option<usize>
    ensures found { is_some result ≡ is_some (lookup (nat_eq key) map.now.entries) }
    ensures there { IfSome result (λ i. (v : V) × (slice_get map.now.entries i ≡ Some (key, v))) }
{
    let hint = hints.of(key);
    if let Some((found, _)) = map.get_index(hint) {
        if *found == key {
            return Some(hint);
        }
    }
    map.get_index_of(&key)
}

/// The value of a key, to be changed. It is looked for first at the index where it may be.
#[inline(always)]
pub fn get_mut<'a, K: Eq + Hash, V, S: BuildHasher, A: Allocator>(
    map: &'a mut IndexMap<K, V, S, A>,
    hint: usize,
    key: &K,
) -> Option<&'a mut V>
    ensures* writes_back { sem 𝓛 (lends_under K.row V.row S.row A.row S.Hasher.row K.Hash S.BuildHasher S.Hasher.Hasher A.Allocator map.entry (K.eq key.now) result) }
    ensures value { option_copied_mut result ≡ get_by (K.eq key.now) map.old }
{
    if let Some((found, _)) = map.get_index(hint) {
        if *key == *found {
            return map.get_index_mut(hint);
        }
    }
    map.get_mut(key)
}

/// Puts a value under a key, and hands back the value that stood there. Takes no memory: room for a new key has to be made before.
pub fn put<V>(map: &mut Numbered<V>, hints: &mut Hints, key: u32, value: V) -> Option<V>
    requires { get (numbered map.old.entries) key ≡ None → 0 < spare map.old }
    ensures put { numbered map.new.entries ≡ insert (numbered map.old.entries) key value }
    ensures left { result ≡ get (numbered map.old.entries) key }
    ensures hasher { hasher_of map.new ≡ hasher_of map.old }
{
    let (index, left) = map.insert_full(key, value).unwrap();
    hints.note(key, index);
    left
}

/// Takes the value of a key away. `None` where the key is not there.
pub fn take<V>(map: &mut Numbered<V>, hints: &mut Hints, key: u32) -> Option<V>
    ensures value { result ≡ get (numbered map.old.entries) key }
    ensures removed { numbered map.new.entries ≡ remove (numbered map.old.entries) key }
    ensures hasher { hasher_of map.new ≡ hasher_of map.old }
{
    let (index, _, value) = map.swap_remove_full(&key)?;
    // The last entry has come here.
    if let Some((moved, _)) = map.get_index(index) {
        hints.note(*moved, index);
    }
    Some(value)
}
