//! An ordered map whose values can be lent.
ghost use Rattle.std.specs.Prelude.{◌≡◌, [], Bool, IfOk, OnErr, OnOk, is_some, length, not, option_copied, ◌==◌};
ghost use Rattle.std.specs.Borrow.{sem};
ghost use Rattle.std.specs.List.{AllZip};
ghost use Rattle.std.specs.List.Sorted.{IsStrictlySortedBy};
ghost use Rattle.std.specs.Map.{keys_of};
ghost use Rattle.std.specs.Option.{option_copied_mut};
ghost use Rattle.key_map.specs.Entries.{map_get, map_put, map_remove, next_key, entries_from, entries_below, IsCopy, HasSameValues, ClonesCompareEqual};
ghost use Rattle.key_map.specs.Lends.{LendsValue};
ghost use Rattle.key_map.specs.Retain.{TellsOf, all_pass, retain_entries};

use agent_base::NoMemory;
use std::alloc::{AllocError, Global};
use std::collections::BTreeMap;
use std::collections::btree_map::Range;
use std::marker::Model;
use std::ops::Bound;

/// Values by key, in the order of the keys.
#[derive(Debug, Drop)]
pub struct KeyMap<K: Ord + Drop, V: Drop> {
    by_key: BTreeMap<K, V>,
}

impl<K: Ord + Drop, V: Drop> Model for KeyMap<K, V> {
    ghost use Rattle.std.specs.Prelude.{List};

    ghost Value = { List (K × V) };

    ghost view = { λ m. m.by_key.entries };
}

impl<K: Ord + Drop, V: Drop> KeyMap<K, V> {
    /// A map without entries.
    pub fn new(alloc: Global) -> KeyMap<K, V>
        ensures empty { result ≡ [] }
    {
        KeyMap {
            by_key: BTreeMap::new(alloc),
        }
    }

    /// Whether there is no entry.
    pub fn is_empty(&self) -> bool
        ensures empty { result ≡ (length self.now == 0) }
        ensures ordered { IsStrictlySortedBy K.cmp (keys_of self.now) }
    {
        self.by_key.len() == 0
    }

    /// Whether a key is there.
    pub fn contains(&self, key: &K) -> bool
        ensures contains { result ≡ is_some (map_get K.cmp key.now self.now) }
    {
        self.by_key.contains_key(key)
    }

    /// The value of a key.
    pub fn get(&self, key: &K) -> Option<&V>
        ensures value { option_copied result ≡ map_get K.cmp key.now self.now }
        ensures ordered { IsStrictlySortedBy K.cmp (keys_of self.now) }
    {
        prove_eq!(self.by_key.len(), self.by_key.len());
        self.by_key.get(key)
    }

    /// The least key that is greater than `after`, or the least of all without one.
    pub fn next_key(&self, after: Option<&K>) -> Option<&K>
        ensures key { option_copied result ≡ next_key K.cmp (option_copied after.entry) self.now }
        ensures ordered { IsStrictlySortedBy K.cmp (keys_of self.now) }
    {
        let start = match after {
            Some(key) => Bound::Excluded(key),
            None => Bound::Unbounded,
        };
        match self.by_key.range((start, Bound::Unbounded)).next() {
            Some((key, _)) => Some(key),
            None => None,
        }
    }

    /// The entries whose keys are not less than `from`, in their order.
    pub fn range_from(&self, from: &K) -> Range<'_, K, V>
        ensures entries { result ≡ entries_from K.cmp from.now self.now }
        ensures ordered { IsStrictlySortedBy K.cmp (keys_of self.now) }
    {
        self.by_key.range((Bound::Included(from), Bound::Unbounded))
    }

    /// The entries whose keys are less than `to`, in their order.
    pub fn range_below(&self, to: &K) -> Range<'_, K, V>
        ensures entries { result ≡ entries_below K.cmp to.now self.now }
        ensures ordered { IsStrictlySortedBy K.cmp (keys_of self.now) }
    {
        self.by_key.range((Bound::Unbounded, Bound::Excluded(to)))
    }

    /// The value of a key, to be changed.
    pub fn get_mut(&mut self, key: &K) -> Option<&mut V>
        ensures* writes_back { sem 𝓛 (LendsValue K.row V.row K.Ord self.entry key.now result) }
        ensures value { option_copied_mut result ≡ map_get K.cmp key.now self.old }
        ensures ordered { IsStrictlySortedBy K.cmp (keys_of self.old) }
    {
        self.by_key.get_mut(key)
    }

    /// Gives a key a value: in its place where the key is there, else in its order.
    ///
    /// Want of memory leaves the map as it was, and never comes where the key is there.
    pub fn insert(&mut self, key: K, value: V) -> Result<(), NoMemory>
        ensures inserted { OnOk result (self.new ≡ map_put K.cmp key value self.old) }
        ensures memory { OnErr result (map_get K.cmp key self.old ≡ None) }
        ensures unchanged { OnErr result (self.new ≡ self.old) }
        ensures ordered { IsStrictlySortedBy K.cmp (keys_of self.old) }
    {
        match self.by_key.insert(key, value) {
            Ok(_) => Ok(()),
            Err(_) => Err(NoMemory),
        }
    }

    /// Takes a key out with its value, which is given.
    pub fn remove(&mut self, key: &K) -> Option<V>
        ensures value { result ≡ map_get K.cmp key.now self.old }
        ensures removed { self.new ≡ map_remove K.cmp key.now self.old }
        ensures ordered { IsStrictlySortedBy K.cmp (keys_of self.old) }
    {
        prove_eq!(self.by_key.len(), self.by_key.len());
        self.by_key.remove(key)
    }

    /// Keeps the entries whose keys and values pass a test, in their order, and drops the others.
    /// Tells whether one was dropped. It takes no memory.
    pub fn retain<F: Fn(&K, &V) -> bool>(&mut self, stays: F) -> bool
        requires { F.IsAlwaysCallable stays }
        ensures retained { (test : K → V → Bool) → TellsOf test F.Fn stays
            → self.new ≡ retain_entries test self.old }
        ensures went { (test : K → V → Bool) → TellsOf test F.Fn stays
            → result ≡ not (all_pass test self.old) }
        ensures ordered { IsStrictlySortedBy K.cmp (keys_of self.old) }
    {
        let before = self.by_key.len();
        self.by_key.retain(|key, value| stays(key, value));
        self.by_key.len() < before
    }
}

impl<K: Ord + Clone + Drop, V: Drop> KeyMap<K, V> {
    /// Clones of all keys, in their order.
    pub fn keys(&self, alloc: Global) -> Result<Vec<K>, NoMemory>
        ensures keys { IfOk result (λ keys. AllZip K.is_clone (keys_of self.now) keys.items) }
        ensures ordered { IsStrictlySortedBy K.cmp (keys_of self.now) }
    {
        let mut keys = Vec::new(alloc);
        for key in self.by_key.keys() {
            let Ok(()) = keys.push(key.clone()?) else {
                return Err(NoMemory);
            };
        }
        Ok(keys)
    }
}

impl<K: Ord + Clone + Drop, V: Clone + Drop> KeyMap<K, V> {
    /// A map with clones of the values under clones of the keys.
    pub fn copy(&self) -> Result<KeyMap<K, V>, NoMemory>
        ensures copied { IfOk result (λ map. IsCopy K.is_clone V.is_clone self.now map) }
        ensures same { ClonesCompareEqual K.cmp K.is_clone
            → ((value clone : V) → V.is_clone value clone → clone ≡ value)
            → IfOk result (λ map. HasSameValues K.cmp self.now map) }
    {
        match self.by_key.clone() {
            Ok(by_key) => Ok(KeyMap { by_key }),
            Err(_) => Err(NoMemory),
        }
    }
}

impl<K: Ord + Clone + Drop, V: Clone + Drop> Clone for KeyMap<K, V> {
    ghost is_clone = { λ map clone. IsCopy K.is_clone V.is_clone map clone };

    fn clone(&self) -> Result<KeyMap<K, V>, AllocError> {
        Ok(KeyMap {
            by_key: self.by_key.clone()?,
        })
    }
}
