//! The keys and entries under a site, among those of all sites.
ghost use Rattle.std.specs.Prelude.{◌≡◌, ◌++◌, ◌∷◌, [], IfOk, OnOk, filter, map, reverse};
ghost use Rattle.std.specs.List.{take_while};
ghost use Rattle.std.specs.List.Sorted.{IsStrictlySortedBy};
ghost use Rattle.std.specs.Map.{keys_of};
ghost use Rattle.origin_site.specs.Plain.{plain_site};
ghost use Rattle.storage_key.specs.Plain.{plain_key};
ghost use Rattle.web_storage.specs.Evicting.{AreUnder, entry_of, is_entry_under, key_cmp};

use agent_base::NoMemory;
use key_map::KeyMap;
use origin_site::{Site, same_site};
use std::alloc::Global;
use std::collections::btree_map::Range;
use storage_key::StorageKey;

/// Copies of the keys under a site.
pub fn keys_under<V: Drop>(
    alloc: Global,
    entries: &KeyMap<StorageKey, V>,
    site: &Site,
) -> Result<Vec<StorageKey>, NoMemory>
    ensures keys { let all = map plain_key (keys_of entries.now) in
        IfOk result (λ keys. AreUnder (plain_site site.now) all (map plain_key keys.items)) }
{
    let found = entries_under(alloc, entries, site)?;
    copies(alloc, found)
}

// Copies of the keys of entries.
fn copies<V>(alloc: Global, found: Vec<(&StorageKey, &V)>) -> Result<Vec<StorageKey>, NoMemory>
    ensures keys { IfOk result (λ keys. map plain_key keys.items
        ≡ map plain_key (keys_of (map entry_of found.entry.items))) }
{
    let mut keys = Vec::new(alloc);
    for (key, _) in found {
        push_copy(alloc, key, &mut keys)?;
    }
    Ok(keys)
}

/// The entries whose keys are under a site, in the order of keys, to be read. No key is copied.
///
/// They stand side by side. One search finds the place of a key under the site, and a walk goes
/// from there each way, so that the time grows with the keys under the site.
pub fn entries_under<'a, V: Drop>(
    alloc: Global,
    entries: &'a KeyMap<StorageKey, V>,
    site: &Site,
) -> Result<Vec<(&'a StorageKey, &'a V)>, NoMemory>
    ensures found { IfOk result (λ found. map entry_of found.items
        ≡ filter (is_entry_under (plain_site site.now)) entries.now) }
    ensures ordered { IsStrictlySortedBy key_cmp (keys_of entries.now) }
{
    let mut found = Vec::new(alloc);
    let Some(first) = entries.next_key(None) else {
        return Ok(found);
    };
    let place = place_under(alloc, site, first)?;
    push_below(entries.range_below(&place), site, &mut found)?;
    found.reverse();
    push_from(entries.range_from(&place), site, &mut found)?;
    Ok(found)
}

// A key under a site, which is otherwise as another.
fn place_under(alloc: Global, site: &Site, other: &StorageKey) -> Result<StorageKey, NoMemory>
    ensures under { IfOk result (λ key. plain_site key.top ≡ plain_site site.now) }
{
    Ok(StorageKey {
        top: site.copy(alloc)?,
        origin: other.origin.copy(alloc)?,
        bit: other.bit,
    })
}

// Adds the entries that a range begins with, as long as they are under a site.
fn push_from<'a, V>(
    range: Range<'a, StorageKey, V>,
    site: &Site,
    found: &mut Vec<(&'a StorageKey, &'a V)>,
) -> Result<(), NoMemory>
    ensures pushed { let under =
        take_while (is_entry_under (plain_site site.now)) range.entry in
        OnOk result (map entry_of found.new.items ≡ map entry_of found.old.items ++ under) }
{
    for (key, value) in range {
        if !same_site(site, &key.top) {
            return Ok(());
        }
        push_entry(key, value, found)?;
    }
    Ok(())
}

// Adds the entries that a range ends with, from the last on, as long as they are under a site.
fn push_below<'a, V>(
    range: Range<'a, StorageKey, V>,
    site: &Site,
    found: &mut Vec<(&'a StorageKey, &'a V)>,
) -> Result<(), NoMemory>
    ensures pushed { let under =
        take_while (is_entry_under (plain_site site.now)) (reverse range.entry) in
        OnOk result (map entry_of found.new.items ≡ map entry_of found.old.items ++ under) }
{
    for (key, value) in range.rev() {
        if !same_site(site, &key.top) {
            return Ok(());
        }
        push_entry(key, value, found)?;
    }
    Ok(())
}

fn push_entry<'a, V>(
    key: &'a StorageKey,
    value: &'a V,
    found: &mut Vec<(&'a StorageKey, &'a V)>,
) -> Result<(), NoMemory>
    ensures pushed { OnOk result (map entry_of found.new.items
        ≡ map entry_of found.old.items ++ ((key.now, value.now) ∷ [])) }
{
    match found.push((key, value)) {
        Ok(()) => Ok(()),
        Err(_) => Err(NoMemory),
    }
}

/// Adds a copy of a key.
pub fn push_copy(
    alloc: Global,
    key: &StorageKey,
    keys: &mut Vec<StorageKey>,
) -> Result<(), NoMemory>
    ensures pushed { OnOk result (map plain_key keys.new.items
        ≡ map plain_key keys.old.items ++ (plain_key key.now ∷ [])) }
{
    match keys.push(key.copy(alloc)?) {
        Ok(()) => Ok(()),
        Err(_) => Err(NoMemory),
    }
}
