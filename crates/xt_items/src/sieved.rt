//! Maps that tell at once of most keys that they lack.

ghost use Rattle.std.specs.Prelude.{ℕ, Bool, ◌≡◌, ◌<◌, ◌≤◌, [], IfOk, false, filter, length, option_copied, true};
ghost use Rattle.xt_base.specs.Maps.{at, is_in, put as with_entry, without};
ghost use Rattle.xt_base.specs.Places.{place};
ghost use Rattle.xt_base.specs.Sound.{IsRising};
ghost use Rattle.xt_items.specs.Sieves.{ArePassed, passes};

use std::alloc::{AllocError, Global};
use std::marker::Model;
use xt_base::map::NumberMap;
use xt_base::sizes::ROOM;

/// A map beside a word that has bit `key % 64` for each of its keys: it lacks a key whose bit is not set, and then nothing is
/// searched. Clauses see the map.
#[derive(Debug, Drop)]
pub(crate) struct SievedMap<V> {
    map: NumberMap<V>,
    bits: u64,
}

impl<V> Model for SievedMap<V> {
    ghost use Rattle.std.specs.Prelude.{List, ℕ};
    ghost use Rattle.xt_items.specs.Sieves.{ArePassed};

    ghost Value = { List (ℕ × V) };

    ghost view = { λ m. m.map };

    ghost invariant = { λ m. ArePassed m.bits m.map };
}

impl<V> SievedMap<V> {
    /// An empty map. The one error is want of memory.
    pub(crate) fn new(alloc: Global) -> Result<Self, AllocError>
        ensures { IfOk result (λ map. map ≡ []) }
    {
        let map = NumberMap::new(alloc)?;
        Ok(SievedMap { map, bits: 0 })
    }

    /// An empty map, in the room of another.
    pub(crate) fn over(map: NumberMap<V>) -> Self
        requires { map ≡ [] }
        ensures { result ≡ [] }
    {
        SievedMap { map, bits: 0 }
    }

    /// The map alone.
    pub(crate) fn map(&self) -> &NumberMap<V>
        ensures { result.now ≡ self.now }
    {
        &self.map
    }

    /// The same, where nothing is asked of it any more.
    pub(crate) fn into_map(self) -> NumberMap<V>
        ensures { result ≡ self }
    {
        self.map
    }

    /// Its entries, by rising key.
    pub(crate) fn entries(&self) -> &[(u64, V)]
        ensures value { result.now ≡ self.now }
        ensures small { length result.now ≤ ROOM }
        ensures rising { IsRising result.now }
    {
        self.map.entries()
    }

    /// What it has at a key.
    pub(crate) fn get(&self, key: u64) -> Option<&V>
        ensures { option_copied result ≡ at key self.now }
    {
        if !passes(self.bits, key) {
            return None;
        }
        self.map.get(key)
    }

    /// Whether it has a key.
    pub(crate) fn contains(&self, key: u64) -> bool
        ensures { result ≡ is_in key self.now }
    {
        passes(self.bits, key) && self.map.contains(key)
    }

    /// Whether it has a key, for keys that are asked in rising order, as `contains_near` of the map.
    pub(crate) fn contains_near(&self, near: &mut usize, key: u64) -> bool
        ensures { result ≡ is_in key self.now }
    {
        passes(self.bits, key) && self.map.contains_near(near, key)
    }

    /// Puts a value at a key. A new key needs room. It takes no memory.
    pub(crate) fn put(&mut self, key: u64, value: V)
    where
        V: Drop,
        requires { is_in key self.old ≡ false → length self.old < ROOM }
        ensures { self.new ≡ with_entry key value self.old }
    {
        self.map.put(key, value);
        self.bits = with_key(self.bits, key);
    }

    /// Puts a value at a key that it does not have, where it would stand. It takes no memory.
    pub(crate) fn insert_at(&mut self, at: usize, key: u64, value: V)
        requires place { at ≡ place key self.old }
        requires absent { is_in key self.old ≡ false }
        requires room { length self.old < ROOM }
        ensures { self.new ≡ with_entry key value self.old }
    {
        self.map.insert_at(at, key, value);
        self.bits = with_key(self.bits, key);
    }

    /// Takes the entry of a key away; its bit may stay until `refit`.
    pub(crate) fn remove(&mut self, key: u64) -> Option<V>
        ensures value { result ≡ at key self.old }
        ensures rest { self.new ≡ without key self.old }
        ensures gone { is_in key self.new ≡ false }
    {
        self.map.remove(key)
    }

    /// The entries of all keys but those that are kept go; their bits may stay until `refit`.
    pub(crate) fn retain<F: Fn(u64) -> bool>(&mut self, is_kept: F)
    where
        V: Drop,
        requires { F.IsAlwaysCallable is_kept }
        ensures { (kept : ℕ → Bool) → ((key : ℕ) → (r : Bool) → F.post is_kept key r → r ≡ kept key) → self.new ≡ filter (λ e. kept e.0) self.old }
    {
        self.map.retain(is_kept);
    }

    /// No bit stays but those of its keys, once some were taken away.
    pub(crate) fn refit(&mut self)
        ensures { self.new ≡ self.old }
    {
        self.bits = bits_of(self.map.entries());
    }
}

/// Whether the bit of a key is set.
pub(crate) fn passes(bits: u64, key: u64) -> bool
    ensures { result ≡ passes bits key }
{
    bits >> (key % 64) & 1 == 1
}

/// The bits with that of a key.
pub(crate) fn with_key(bits: u64, key: u64) -> u64
    ensures key { passes result key ≡ true }
    ensures others { (k : ℕ) → passes bits k ≡ true → passes result k ≡ true }
{
    bits | 1 << (key % 64)
}

/// The bits of all keys of some entries.
fn bits_of<V>(entries: &[(u64, V)]) -> u64
    ensures { ArePassed result entries.now }
{
    let mut bits = 0;
    for entry in entries {
        bits = with_key(bits, entry.0);
    }
    bits
}
