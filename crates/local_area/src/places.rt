//! The pairs of an area in order, where a removal moves no others.
ghost use Rattle.std.specs.Prelude.{◌≡◌, ℕ, ◌+◌, ◌≤◌, ◌<◌, ◌*◌, ◌-◌, ◌++◌, ◌∷◌, [], true, false, length, take, drop, filter, Some, None, IfOk, IfErr, OnOk, OnErr, IsTrue, IsFalse, slice_get, slice_index, string_bytes, option_map, if◌then◌else◌, nat_le};
ghost use Rattle.std.specs.Option.{option_copied};
ghost use Rattle.local_area.specs.Area.{area_get, area_put, area_remove, HasDistinctNames};
ghost use Rattle.local_area.specs.Places.{pair_of, is_pair, is_mark_key, pairs_before, AreTexts, EndsWithMark};

use agent_base::NoMemory;
use indexmap::IndexMap;
use std::alloc::{AllocError, Global};
use std::marker::Model;

// Pairs are counted for so many entries together. Fewer entries than these are moved.
const BLOCK: usize = 256;

// What a mark's key begins with, and no text does: a byte that continues a character.
const MARK: u8 = 0x80;

/// Names and values in the order in which the names came.
///
/// A mark takes the place of a pair that is removed, so that no other pair moves. Marks go all at
/// once, when they are more than a quarter of the entries.
#[derive(Debug, Drop)]
pub struct Places {
    // A name is kept as its bytes, since a mark has a key that is no text.
    entries: IndexMap<Vec<u8>, String>,
    marks: usize,
    // The number of pairs in the first block, in the first two, and so on, as far as they were
    // counted.
    counts: Vec<usize>,
}

impl Model for Places {
    ghost use Rattle.std.specs.Prelude.{List};
    ghost use Rattle.local_area.specs.Area.{Pair};

    ghost Value = { List Pair };

    ghost use Rattle.local_area.specs.Places.{pairs_of, IsPlaces};

    ghost view = { λ p. pairs_of p.entries.entries };

    ghost invariant = { λ p. IsPlaces p.entries.entries p.marks p.counts.items };
}

impl Places {
    /// No pairs.
    pub fn new(alloc: Global) -> Places
        ensures empty { result ≡ [] }
    {
        Places {
            entries: IndexMap::new(alloc),
            marks: 0,
            counts: Vec::new(alloc),
        }
    }

    /// The number of pairs.
    pub fn len(&self) -> usize
        ensures len { result ≡ length self.now }
        ensures distinct { HasDistinctNames self.now }
    {
        self.entries.len() - self.marks
    }

    /// The value of a name.
    pub fn get(&self, name: &str) -> Option<&str>
        ensures value { option_copied result ≡ area_get name.now self.now }
    {
        match self.entries.get(name.as_bytes()) {
            Some(value) => Some(value.as_str()),
            None => None,
        }
    }

    /// The name and the value at a place, counted from 0.
    pub fn nth(&self, n: usize) -> Option<(&str, &str)>
        ensures pair { option_map (λ p. record { name = p.0.now; value = p.1.now }) result
            ≡ slice_get self.now n }
    {
        match self.entry_at(n) {
            Some((key, value)) => match str::from_utf8(key.as_slice()) {
                Ok(name) => Some((name, value.as_str())),
                Err(_) => None,
            },
            None => None,
        }
    }

    /// Gives a name a value, in its place where the name is there, else at the end. Gives the
    /// value that it had.
    pub fn insert(&mut self, name: String, value: String) -> Result<Option<String>, NoMemory>
        ensures stored { OnOk result (self.new
            ≡ area_put (string_bytes name) (string_bytes value) self.old) }
        ensures before { IfOk result (λ before. option_map string_bytes before
            ≡ area_get (string_bytes name) self.old) }
        ensures distinct { HasDistinctNames self.new }
        ensures unchanged { OnErr result (self.new ≡ self.old) }
        ensures absent { OnErr result (area_get (string_bytes name) self.old ≡ None) }
    {
        // For its clause `utf8`.
        let _text = name.as_str().as_bytes();
        match self.entries.insert(name.into_bytes(), value) {
            Ok(before) => Ok(before),
            Err(_) => Err(NoMemory),
        }
    }

    /// Removes a name, and gives the value that it had.
    pub fn remove(&mut self, name: &str) -> Option<String>
        ensures value { option_map string_bytes result ≡ area_get name.now self.old }
        ensures removed { self.new ≡ area_remove name.now self.old }
        ensures distinct { HasDistinctNames self.new }
    {
        if self.entries.len() < BLOCK {
            return self.move_out(name);
        }
        match self.mark_out(name) {
            Ok(value) => value,
            Err(NoMemory) => self.move_out(name),
        }
    }

    /// Removes all pairs.
    pub fn clear(&mut self)
        ensures empty { self.new ≡ [] }
    {
        self.entries.clear();
        self.marks = 0;
        self.counts.clear();
    }

    /// The same pairs in the same order.
    pub fn copy(&self) -> Result<Places, NoMemory>
        ensures same { IfOk result (λ places. places ≡ self.now) }
    {
        let Ok(entries) = self.entries.clone() else {
            return Err(NoMemory);
        };
        let mut places = Places {
            entries,
            marks: self.marks,
            counts: Vec::new(*self.counts.allocator()),
        };
        places.count();
        Ok(places)
    }

    // The entry of the pair at a place.
    fn entry_at(&self, n: usize) -> Option<(&Vec<u8>, &String)>
        ensures pair { option_map (λ p. pair_of (p.0.now, p.1.now)) result ≡ slice_get self.now n }
        ensures texts { AreTexts self.now }
    {
        if self.marks == 0 {
            return self.entries.get_index(n);
        }
        let end = self.entries.len();
        let (block, before) = last_block(self.counts.as_slice(), n);
        nth_pair(&self.entries, block * BLOCK, end, n - before)
    }

    // Removes a name and moves the pairs behind it.
    fn move_out(&mut self, name: &str) -> Option<String>
        ensures value { option_map string_bytes result ≡ area_get name.now self.old }
        ensures removed { self.new ≡ area_remove name.now self.old }
        ensures distinct { HasDistinctNames self.new }
    {
        self.counts.clear();
        self.entries.shift_remove(name.as_bytes())
    }

    // Removes a name and leaves a mark, where there is memory for one.
    fn mark_out(&mut self, name: &str) -> Result<Option<String>, NoMemory>
        ensures value { IfOk result (λ value. option_map string_bytes value
            ≡ area_get name.now self.old) }
        ensures removed { OnOk result (self.new ≡ area_remove name.now self.old) }
        ensures distinct { HasDistinctNames self.new }
        ensures unchanged { OnErr result (self.new ≡ self.old) }
    {
        let Some(place) = self.entries.get_index_of(name.as_bytes()) else {
            return Ok(None);
        };
        let Some(marks) = self.marks.checked_add(1) else {
            return Err(NoMemory);
        };
        if !push_mark(&mut self.entries, self.marks) {
            return Err(NoMemory);
        }
        // The mark is the last entry, and comes to this place.
        let Some((_, value)) = self.entries.swap_remove_index(place) else {
            return Err(NoMemory);
        };
        self.marks = marks;
        lower(&mut self.counts, place / BLOCK);
        self.count();
        self.drop_marks();
        Ok(Some(value))
    }

    // Counts the blocks that were not counted, as far as memory lets.
    fn count(&mut self)
        ensures same { self.new ≡ self.old }
    {
        for block in self.counts.len()..self.entries.len() / BLOCK {
            let before = last_count(self.counts.as_slice());
            let more = count_pairs(&self.entries, block * BLOCK, block * BLOCK + BLOCK);
            let Some(pairs) = before.checked_add(more) else {
                return;
            };
            let Ok(()) = self.counts.push(pairs) else {
                return;
            };
        }
    }

    // Lets the marks go, where they are more than a quarter of the entries.
    fn drop_marks(&mut self)
        ensures same { self.new ≡ self.old }
    {
        if self.marks > self.entries.len() / 4 {
            self.entries.retain(
                |key: &Vec<u8>, value: &mut String| -> bool
                    ensures kept { result ≡ is_pair (key.now, value.old) }
                    ensures same { value.new ≡ value.old }
                { is_pair(key, value) },
            );
            self.marks = 0;
            self.counts.clear();
        }
    }
}

// Whether an entry is a pair, and no mark. Most pairs are seen by their values alone.
fn is_pair(key: &Vec<u8>, value: &String) -> bool
    ensures pair { result ≡ is_pair (key.now, value.now) }
{
    if !value.is_empty() {
        return true;
    }
    match key.first() {
        Some(byte) => *byte != MARK,
        None => true,
    }
}

// A key that no text is.
fn mark_key(number: usize, alloc: Global) -> Result<Vec<u8>, AllocError>
    ensures mark { IfOk result (λ key. is_mark_key key.items ≡ true) }
{
    let mut key = Vec::with_capacity(alloc, 9)?;
    key.push(MARK)?;
    key.extend_from_slice(&number.to_be_bytes())?;
    Ok(key)
}

// Puts a mark behind the entries, where there is memory for one. Marks have numbers, so that no
// two have one key.
fn push_mark(entries: &mut IndexMap<Vec<u8>, String>, number: usize) -> bool
    ensures pushed { IsTrue result → EndsWithMark entries.old.entries entries.new.entries }
    ensures unchanged { IsFalse result → entries.new.entries ≡ entries.old.entries }
{
    let alloc = *entries.allocator();
    let Ok(key) = mark_key(number, alloc) else {
        return false;
    };
    if entries.contains_key(key.as_slice()) {
        return false;
    }
    let Ok(_) = entries.insert(key, String::new(alloc)) else {
        return false;
    };
    true
}

// The pairs in all blocks that were counted.
fn last_count(counts: &[usize]) -> usize
    ensures last { result ≡ pairs_before counts.now (length counts.now) }
{
    match counts.last() {
        Some(count) => *count,
        None => 0,
    }
}

// The last counted block that ends with at most n pairs, counted from 1, and these pairs.
fn last_block(counts: &[usize], n: usize) -> (usize, usize)
    ensures within { result.0 ≤ length counts.now }
    ensures before { result.1 ≡ pairs_before counts.now result.0 }
    ensures reached { result.1 ≤ n }
{
    let block = counts.partition_point(|count: &usize| *count <= n);
    if block == 0 || n < counts[block - 1] {
        return (0, 0);
    }
    (block, counts[block - 1])
}

// The entry of the n-th pair from a place on, among entries that end there.
fn nth_pair(
    entries: &IndexMap<Vec<u8>, String>,
    first: usize,
    end: usize,
    n: usize,
) -> Option<(&Vec<u8>, &String)>
    requires end { end ≡ length entries.now.entries }
    ensures pair { option_map (λ p. (p.0.now, p.1.now)) result
        ≡ slice_get (filter is_pair (drop first entries.now.entries)) n }
{
    let mut left = n;
    for place in first..end {
        let Some((key, value)) = entries.get_index(place) else {
            return None;
        };
        if !is_pair(key, value) {
            continue;
        }
        if left == 0 {
            return Some((key, value));
        }
        left -= 1;
    }
    None
}

// The number of pairs from a place on and before another.
fn count_pairs(entries: &IndexMap<Vec<u8>, String>, first: usize, end: usize) -> usize
    requires order { first ≤ end }
    requires within { end ≤ length entries.now.entries }
    ensures count { length (filter is_pair (take first entries.now.entries)) + result
        ≡ length (filter is_pair (take end entries.now.entries)) }
{
    let mut count = 0;
    for place in first..end {
        let Some((key, value)) = entries.get_index(place) else {
            return count;
        };
        if !is_pair(key, value) {
            continue;
        }
        count += 1;
    }
    count
}

// One pair less in each block from one on.
fn lower(counts: &mut Vec<usize>, first: usize)
    requires { (k : ℕ) → first ≤ k → k < length counts.old.items
        → 0 < slice_index counts.old.items k }
    ensures long { length counts.new.items ≡ length counts.old.items }
    ensures less { (k : ℕ) → first ≤ k → k < length counts.old.items
        → slice_index counts.new.items k + 1 ≡ slice_index counts.old.items k }
    ensures same { (k : ℕ) → k < first → k < length counts.old.items
        → slice_index counts.new.items k ≡ slice_index counts.old.items k }
{
    for block in first..counts.len() {
        counts[block] -= 1;
    }
}
