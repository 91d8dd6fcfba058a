//! A finite map from numbers, for a mount's small tables.

ghost use Rattle.std.specs.Prelude.{ℕ, Bool, List, ◌≡◌, ◌+◌, ◌≤◌, ◌<◌, ◌==◌, ◌∷◌, ◌++◌, [], Some, false, filter, true, length, take, drop, slice_get, IfErr, IfOk, IfSome, IfNone, MatchOption, option_copied};
ghost use Rattle.std.specs.Borrow.{sem};
ghost use Rattle.std.specs.List.{items_where_true};
ghost use Rattle.xt_base.specs.Lending.{lends_value};
ghost use Rattle.xt_base.specs.Maps.{at, is_in, put as with_entry, without};
ghost use Rattle.xt_base.specs.Places.{place};
ghost use Rattle.xt_base.specs.Sound.{IsRising};

use crate::sizes::ROOM;
use std::alloc::{AllocError, Global};
use std::marker::Model;

/// A map from numbers with room for 128 entries, made once: to put an entry takes no memory.
/// Clauses see the list of its entries by rising key.
#[derive(Debug, Drop)]
pub struct NumberMap<V> {
    entries: Vec<(u64, V)>,
}

impl<V> Model for NumberMap<V> {
    ghost use Rattle.std.specs.Prelude.{List, ℕ, ◌≤◌, length, vec_capacity};
    ghost use Rattle.xt_base.specs.Sound.{IsRising};
    ghost use Rattle.xt_base.specs.declared.sizes.TheConstants.{ROOM};

    ghost Value = { List (ℕ × V) };

    ghost view = { λ m. m.entries.items };

    ghost invariant = { λ m. (length m.entries.items ≤ ROOM) × (ROOM ≤ vec_capacity m.entries) × IsRising m.entries.items };
}

impl<V> NumberMap<V> {
    /// An empty map. The one error is want of memory.
    pub fn new(alloc: Global) -> Result<Self, AllocError>
        ensures { IfOk result (λ map. map ≡ []) }
    {
        let entries = Vec::with_capacity(alloc, ROOM)?;
        Ok(NumberMap { entries })
    }

    /// Its entries, by rising key.
    pub fn entries(&self) -> &[(u64, V)]
        ensures value { result.now ≡ self.now }
        ensures small { length result.now ≤ ROOM }
        ensures rising { IsRising result.now }
    {
        &self.entries
    }

    /// How many entries it has.
    pub fn len(&self) -> usize
        ensures value { result ≡ length self.now }
        ensures small { result ≤ ROOM }
    {
        self.entries.len()
    }

    /// Whether it has none.
    pub fn is_empty(&self) -> bool
        ensures { result ≡ (length self.now == 0) }
    {
        self.entries.len() == 0
    }

    /// What it has at a key.
    pub fn get(&self, key: u64) -> Option<&V>
        ensures { option_copied result ≡ at key self.now }
    {
        let at = place_of(&self.entries, key);
        if at < self.entries.len() && self.entries[at].0 == key {
            Some(&self.entries[at].1)
        } else {
            None
        }
    }

    /// The value of a key that it has, to be changed where it stands.
    pub fn value_mut(&mut self, key: u64) -> &mut V
        requires { is_in key self.old ≡ true }
        ensures* writes_back { sem 𝓛 (lends_value V.row self.entry key result) }
        ensures value { at key self.old ≡ Some result.now }
    {
        let at = place_of(&self.entries, key);
        &mut self.entries[at].1
    }

    /// Whether it has a key.
    pub fn contains(&self, key: u64) -> bool
        ensures { result ≡ is_in key self.now }
    {
        self.get(key).is_some()
    }

    /// Whether there is an entry at a place, and it has a key.
    fn has_at(&self, at: usize, key: u64) -> bool
        ensures { result ≡ true → (true ≡ is_in key self.now) × (at < ROOM) }
    {
        at < self.entries.len() && self.entries[at].0 == key
    }

    /// Whether it has a key, for keys that are asked in rising order: `near` is where to look first, which may be
    /// wrong, and then where to look first for the next one.
    pub fn contains_near(&self, near: &mut usize, key: u64) -> bool
        ensures { result ≡ is_in key self.now }
    {
        if self.has_at(*near, key) {
            *near += 1;
            return true;
        }
        let found = self.contains(key);
        let at = place_of(&self.entries, key);
        *near = if found { at + 1 } else { at };
        found
    }

    /// Puts a value at a key. A new key needs room. It takes no memory.
    pub fn put(&mut self, key: u64, value: V)
    where
        V: Drop,
        requires { is_in key self.old ≡ false → length self.old < ROOM }
        ensures { self.new ≡ with_entry key value self.old }
    {
        let at = place_of(&self.entries, key);
        if at < self.entries.len() && self.entries[at].0 == key {
            self.entries[at] = (key, value);
        } else {
            self.entries.insert(at, (key, value)).unwrap();
        }
    }

    /// Puts a value at a key that it does not have, also one that can't be let go. It takes no memory.
    #[inline(always)]
    pub fn put_new(&mut self, key: u64, value: V)
        requires absent { is_in key self.old ≡ false }
        requires room { length self.old < ROOM }
        ensures { self.new ≡ with_entry key value self.old }
    {
        let at = place_of(&self.entries, key);
        self.insert_at(at, key, value);
    }

    /// What it has at a key, or else where the key would stand.
    pub fn find(&self, key: u64) -> Result<&V, usize>
        ensures there { IfOk result (λ value. at key self.now ≡ Some value.now) }
        ensures place { IfErr result (λ at. (at ≡ place key self.now) × (is_in key self.now ≡ false)) }
    {
        let at = place_of(&self.entries, key);
        if at < self.entries.len() && self.entries[at].0 == key {
            Ok(&self.entries[at].1)
        } else {
            Err(at)
        }
    }

    /// Puts a value at a key that it does not have, where `find` said that it would stand. It takes no memory.
    #[inline(always)]
    pub fn insert_at(&mut self, at: usize, key: u64, value: V)
        requires place { at ≡ place key self.old }
        requires absent { is_in key self.old ≡ false }
        requires room { length self.old < ROOM }
        ensures { self.new ≡ with_entry key value self.old }
    {
        // behind all others, as most are, it is made where it stays: a value that is handed to another function is copied there and again
        if at < self.entries.len() {
            self.insert_before(at, key, value);
            return;
        }
        match self.entries.push((key, value)) {
            Ok(()) => {}
            Err(_) => unreachable!(),
        }
    }

    /// The same before another entry.
    #[inline(never)]
    fn insert_before(&mut self, at: usize, key: u64, value: V)
        requires place { at ≡ place key self.old }
        requires absent { is_in key self.old ≡ false }
        requires room { length self.old < ROOM }
        ensures { self.new ≡ with_entry key value self.old }
    {
        match self.entries.insert(at, (key, value)) {
            Ok(()) => {}
            Err(_) => unreachable!(),
        }
    }

    /// The entries of all keys but those that are kept go, in one pass.
    pub fn retain<F: Fn(u64) -> bool>(&mut self, is_kept: F)
    where
        V: Drop,
        requires { F.IsAlwaysCallable is_kept }
        ensures fewer { (stays : List Bool) × (self.new ≡ items_where_true stays self.old) }
        ensures rest { (kept : ℕ → Bool) → ((key : ℕ) → (r : Bool) → F.post is_kept key r → r ≡ kept key) → self.new ≡ filter (λ e. kept e.0) self.old }
    {
        self.entries.retain(|entry| is_kept(entry.0));
    }

    /// Its keys rise: for a proof, at run time nothing.
    fn keys_rise(&self)
        ensures { IsRising self.now }
    {
        let _entries = self.entries();
    }

    /// Puts a value at a key, and hands back the one that stood there. A new key needs room. It takes no memory.
    pub fn exchange(&mut self, key: u64, value: V) -> Option<V>
        requires { is_in key self.old ≡ false → length self.old < ROOM }
        ensures value { result ≡ at key self.old }
        ensures map { self.new ≡ with_entry key value self.old }
    {
        self.keys_rise();
        let before = self.remove(key);
        self.put_new(key, value);
        before
    }

    /// Lets an empty map go, also one of values that can't be.
    pub fn destroy_empty(self)
        requires { self ≡ [] }
    {
        let NumberMap { entries } = self;
        entries.destroy_empty();
    }

    /// Takes the entry of a key away.
    pub fn remove(&mut self, key: u64) -> Option<V>
        ensures value { result ≡ at key self.old }
        ensures rest { self.new ≡ without key self.old }
        ensures gone { is_in key self.new ≡ false }
        ensures room { IfSome result (λ _. length self.new < ROOM) }
        ensures missing { IfNone result (self.new ≡ self.old) }
    {
        let at = place_of(&self.entries, key);
        if at < self.entries.len() && self.entries[at].0 == key {
            let (_, value) = self.entries.remove(at);
            Some(value)
        } else {
            None
        }
    }

    /// Takes all entries away, and keeps the room.
    pub fn clear(&mut self)
    where
        V: Drop,
        ensures { self.new ≡ [] }
    {
        self.entries.clear();
    }

    /// Takes the entry of the least key.
    pub fn pop_first(&mut self) -> Option<(u64, V)>
        ensures { MatchOption result ((self.old ≡ []) × (self.new ≡ [])) (λ e. self.old ≡ e ∷ self.new) }
    {
        if self.entries.is_empty() {
            None
        } else {
            Some(self.entries.remove(0))
        }
    }

    /// Puts another value into the entry at a place among the entries. It takes no memory.
    pub fn replace_at(&mut self, index: usize, value: V)
    where
        V: Drop,
        requires { index < length self.old }
        ensures { IfSome (slice_get self.old index) (λ e. self.new ≡ take index self.old ++ ((e.0, value) ∷ drop (index + 1) self.old)) }
    {
        let key = self.entries[index].0;
        self.entries[index] = (key, value);
    }

    /// Takes the entry at a place among the entries.
    pub fn remove_at(&mut self, index: usize) -> (u64, V)
        requires { index < length self.old }
        ensures value { slice_get self.old index ≡ Some result }
        ensures rest { self.new ≡ take index self.old ++ drop (index + 1) self.old }
    {
        self.entries.remove(index)
    }
}

/// How many entries stand before the first whose key is not below `key`, by halves.
fn place_of<V>(entries: &[(u64, V)], key: u64) -> usize
    requires { IsRising entries.now }
    ensures value { result ≡ place key entries.now }
    ensures range { result ≤ length entries.now }
{
    let mut low = 0;
    let mut high = entries.len();
    while low < high {
        let middle = low + (high - low) / 2;
        if entries[middle].0 < key {
            low = middle + 1;
        } else {
            high = middle;
        }
    }
    low
}
