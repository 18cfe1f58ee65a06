//! The buckets of a shed, by storage key.
ghost use Rattle.std.specs.Prelude.{◌≡◌, ◌-◌, ◌^◌, Bool, min, not, if◌then◌else◌, [], Some, None, IfOk, OnErr, OnOk, is_some, option_copied};
ghost use Rattle.std.specs.Borrow.{sem};
ghost use Rattle.std.specs.List.Sorted.{IsStrictlySortedBy};
ghost use Rattle.std.specs.Map.{keys_of};
ghost use Rattle.std.specs.Option.{option_copied_mut};
ghost use Rattle.local_area.specs.Area.{area_weight};
ghost use Rattle.key_map.specs.Entries.{map_get, IsCopy, HasSameValues, ClonesCompareEqual};
ghost use Rattle.key_map.specs.Retain.{TellsOfKeys, all_pass, retain_entries};
ghost use Rattle.buckets.specs.Shed.{area_at, mode_at, pairs_at, fresh_bucket, made, persisted, has_best_effort, has_fresh, persistent_bucket, without_fresh, evicted, count_evicted, is_best_effort, is_fresh, bucket_stays};
ghost use Rattle.buckets.specs.Evicting.{evicted_one, count_evicted_one};
ghost use Rattle.buckets.specs.Lends.{LendsArea};

use agent_base::NoMemory;
use key_map::KeyMap;
use local_area::Area;
use std::alloc::{AllocError, Global};
use std::marker::Model;

/// Whether a bucket may be taken when storage is short.
#[derive(Clone, Copy, Debug, PartialEq, Eq)]
pub enum Mode {
    /// It may be taken. Each bucket begins so.
    BestEffort,
    /// It is kept.
    Persistent,
}

impl Mode {
    // Whether it is best-effort.
    fn is_best_effort(self) -> bool
        ensures { result ≡ is_best_effort self }
    {
        match self {
            Mode::BestEffort => true,
            Mode::Persistent => false,
        }
    }
}

/// One bucket: its mode and its local area.
#[derive(Debug, Drop)]
pub struct Bucket {
    pub mode: Mode,
    pub area: Area,
}

impl Bucket {
    /// A bucket of the same mode with the same pairs.
    pub fn copy(&self) -> Result<Bucket, NoMemory>
        ensures same { IfOk result (λ bucket. bucket ≡ self.now) }
    {
        Ok(Bucket {
            mode: self.mode,
            area: self.area.copy()?,
        })
    }

    // Whether it is best-effort and has no pairs.
    fn is_fresh(&self) -> bool
        ensures fresh { result ≡ is_fresh self.now }
    {
        self.mode.is_best_effort() && self.area.is_empty()
    }
}

impl Clone for Bucket {
    ghost is_clone = { λ bucket clone. clone ≡ bucket };

    fn clone(&self) -> Result<Bucket, AllocError> {
        match self.copy() {
            Ok(bucket) => Ok(bucket),
            Err(NoMemory) => Err(AllocError),
        }
    }
}

/// Buckets by storage key.
///
/// An empty best-effort bucket and an absent one stand apart here. Layers above that compare
/// states leave out the first.
#[derive(Debug, Drop)]
pub struct Shed<K: Ord + Drop> {
    buckets: KeyMap<K, Bucket>,
    alloc: Global,
}

impl<K: Ord + Drop> Model for Shed<K> {
    ghost use Rattle.std.specs.Prelude.{List};
    ghost use Rattle.buckets.specs.declared.shed.Bucket.{Bucket};

    ghost Value = { List (K × Bucket) };

    ghost view = { λ s. s.buckets };
}

impl<K: Ord + Drop> Shed<K> {
    /// A shed without buckets.
    pub fn new(alloc: Global) -> Shed<K>
        ensures empty { result ≡ [] }
    {
        Shed {
            buckets: KeyMap::new(alloc),
            alloc,
        }
    }

    /// Whether a key has a bucket.
    pub fn contains(&self, key: &K) -> bool
        ensures contains { result ≡ is_some (map_get K.cmp key.now self.now) }
    {
        self.buckets.contains(key)
    }

    /// The area of a key, if there is a bucket.
    pub fn area(&self, key: &K) -> Option<&Area>
        ensures area { option_copied result ≡ area_at K.cmp key.now self.now }
    {
        match self.buckets.get(key) {
            Some(bucket) => Some(&bucket.area),
            None => None,
        }
    }

    /// The mode of a key's bucket. A key without one is best-effort.
    pub fn mode(&self, key: &K) -> Mode
        ensures mode { result ≡ mode_at K.cmp key.now self.now }
    {
        match self.buckets.get(key) {
            Some(bucket) => bucket.mode,
            None => Mode::BestEffort,
        }
    }

    /// The bytes of a key's area, and 0 where there is none.
    pub fn usage(&self, key: &K) -> usize
        ensures usage { result ≡ area_weight (pairs_at K.cmp key.now self.now) }
    {
        match self.buckets.get(key) {
            Some(bucket) => bucket.area.weight(),
            None => 0,
        }
    }

    /// The buckets by key, to be read.
    pub fn buckets(&self) -> &KeyMap<K, Bucket>
        ensures buckets { result.now ≡ self.now }
    {
        &self.buckets
    }

    /// The area of a key that has a bucket, to be changed.
    pub fn area_mut(&mut self, key: &K) -> Option<&mut Area>
        ensures* writes_back { sem 𝓛 (LendsArea K.row K.Ord self.entry key.now result) }
        ensures area { option_copied_mut result ≡ area_at K.cmp key.now self.old }
    {
        match self.buckets.get_mut(key) {
            Some(bucket) => Some(&mut bucket.area),
            None => None,
        }
    }

    /// Makes room for a key: its bucket is there afterwards, empty and best-effort if it is new.
    pub fn reserve(&mut self, key: K) -> Result<(), NoMemory>
        ensures made { OnOk result (self.new ≡ made K.cmp key self.old) }
        ensures memory { OnErr result (map_get K.cmp key self.old ≡ None) }
        ensures unchanged { OnErr result (self.new ≡ self.old) }
    {
        if self.buckets.contains(&key) {
            return Ok(());
        }
        let fresh = fresh_bucket(self.alloc);
        self.buckets.insert(key, fresh)
    }

    /// Makes the bucket of a key persistent, where it has one, and tells whether that changed it.
    pub fn persist(&mut self, key: &K) -> bool
        ensures persisted { self.new ≡ persisted K.cmp key.now self.old }
        ensures changed { result ≡ has_best_effort K.cmp key.now self.old }
    {
        match self.buckets.get_mut(key) {
            Some(bucket) => persist_bucket(bucket),
            None => false,
        }
    }

    /// Drops the bucket of a key where it is best-effort and has no pairs.
    pub fn drop_fresh(&mut self, key: &K)
        ensures dropped { self.new ≡ without_fresh K.cmp key.now self.old }
    {
        if self.has_fresh(key) {
            let _ = self.buckets.remove(key);
        }
    }

    /// Takes out the best-effort buckets of these keys, and counts those that had pairs.
    pub fn evict(&mut self, keys: &[K]) -> u32
        ensures evicted { self.new ≡ evicted K.cmp keys.now self.old }
        ensures count { result ≡ min (count_evicted K.cmp keys.now self.old) (2 ^ 32 - 1) }
    {
        let mut count = 0u32;
        for key in keys {
            if self.evict_one(key) {
                count = count.saturating_add(1);
            }
        }
        count
    }

    /// Keeps the buckets whose keys pass a test, and drops the others, each with its mode and its
    /// area. One that is best-effort and has no pairs stands for none, and stays. Tells whether one
    /// was dropped. It takes no memory.
    pub fn retain<F: Fn(&K) -> bool>(&mut self, stays: F) -> bool
        requires { F.IsAlwaysCallable stays }
        ensures retained { (test : K → Bool) → TellsOfKeys test F.Fn stays
            → self.new ≡ retain_entries (bucket_stays test) self.old }
        ensures went { (test : K → Bool) → TellsOfKeys test F.Fn stays
            → result ≡ not (all_pass (bucket_stays test) self.old) }
        ensures ordered { IsStrictlySortedBy K.cmp (keys_of self.old) }
    {
        self.buckets
            .retain(|key, bucket| bucket.is_fresh() || stays(key))
    }

    // Whether a key has a bucket that is best-effort and has no pairs.
    fn has_fresh(&self, key: &K) -> bool
        ensures fresh { result ≡ has_fresh K.cmp key.now self.now }
    {
        match self.buckets.get(key) {
            Some(bucket) => bucket.is_fresh(),
            None => false,
        }
    }

    // Takes out the bucket of one key, if it is best-effort, and tells whether it had pairs.
    fn evict_one(&mut self, key: &K) -> bool
        ensures evicted { self.new ≡ evicted_one K.cmp key.now self.old }
        ensures lost { (if result then 1 else 0) ≡ count_evicted_one K.cmp key.now self.old }
    {
        let Some(bucket) = self.buckets.get(key) else {
            return false;
        };
        if !bucket.mode.is_best_effort() {
            return false;
        }
        let lost = !bucket.area.is_empty();
        let _ = self.buckets.remove(key);
        lost
    }
}

impl<K: Ord + Clone + Drop> Shed<K> {
    /// A shed with equal buckets under clones of the keys.
    pub fn copy(&self) -> Result<Shed<K>, NoMemory>
        ensures copied { IfOk result (λ shed. IsCopy K.is_clone
            (λ bucket copy. copy ≡ bucket) self.now shed) }
        ensures same { ClonesCompareEqual K.cmp K.is_clone → IfOk result
            (λ shed. HasSameValues K.cmp self.now shed) }
    {
        match self.buckets.copy() {
            Ok(buckets) => Ok(Shed {
                buckets,
                alloc: self.alloc,
            }),
            Err(NoMemory) => Err(NoMemory),
        }
    }
}

// Makes a bucket persistent, and tells whether that changed it.
fn persist_bucket(bucket: &mut Bucket) -> bool
    ensures persistent { bucket.new ≡ persistent_bucket bucket.old }
    ensures changed { result ≡ is_best_effort bucket.old.mode }
{
    let changed = bucket.mode.is_best_effort();
    bucket.mode = Mode::Persistent;
    changed
}

// What the bucket of a key begins as.
fn fresh_bucket(alloc: Global) -> Bucket
    ensures fresh { result ≡ fresh_bucket }
{
    Bucket {
        mode: Mode::BestEffort,
        area: Area::new(alloc),
    }
}
