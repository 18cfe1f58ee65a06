//! Local areas: room for a storage key in a shed, and evictions.
ghost use Rattle.std.specs.Prelude.{◌≡◌, ◌-◌, ◌^◌, ◌&&◌, not, [], IfOk, IsOk, OnOk, OnErr, filter, map, min, is_some, true, false};
ghost use Rattle.std.specs.FinMap as finite;
ghost use Rattle.std.specs.List.{list_all};
ghost use Rattle.std.specs.List.Sorted.{IsStrictlySortedBy};
ghost use Rattle.std.specs.Map.{keys_of};
ghost use Rattle.origin_site.specs.Plain.{plain_site};
ghost use Rattle.unwinding.specs.FiniteCells.{get_cell, set_cell};
ghost use Rattle.storage_key.specs.Key.{key_order};
ghost use Rattle.storage_key.specs.Plain.{plain_key};
ghost use Rattle.storage_key.specs.Stays.{key_stays};
ghost use Rattle.key_map.specs.Entries.{map_get};
ghost use Rattle.buckets.specs.Shed.{is_best_effort};
ghost use Rattle.web_storage.specs.Stored.{areas_in, keys_in};
ghost use Rattle.web_storage.specs.Evicting.{areas_left_by, areas_taken_by, entry_of, key_cmp, keys_taken_of};

use crate::under::{entries_under, push_copy};
use agent_base::NoMemory;
use buckets::{Bucket, Mode, Shed};
use origin_site::Site;
use std::alloc::Global;
use storage_key::StorageKey;
use suffix_list::SuffixList;

/// Makes room for a key in a shed. The key is copied only where it is new.
pub fn reserve_local(
    alloc: Global,
    shed: &mut Shed<StorageKey>,
    key: &StorageKey,
) -> Result<(), NoMemory>
    ensures areas { areas_in shed.new ≡ areas_in shed.old }
    ensures modes { keys_in shed.new ≡ keys_in shed.old }
    ensures there { OnOk result (is_some (map_get key_cmp key.now shed.new) ≡ true) }
    ensures ready { is_some (map_get key_cmp key.now shed.old) ≡ true → IsOk result }
    ensures area { OnErr result (get_cell key_order (areas_in shed.old) (plain_key key.now) ≡ []) }
    ensures mode { OnErr result (finite.contains_key (keys_in shed.old) (plain_key key.now)
        ≡ false) }
{
    if shed.contains(key) {
        return Ok(());
    }
    let key = key.copy(alloc)?;
    shed.reserve(key)
}

/// Empties the local area of a key, whose mode stays.
pub fn clear_local(shed: &mut Shed<StorageKey>, key: &StorageKey)
    ensures areas { areas_in shed.new
        ≡ set_cell key_order (plain_key key.now) [] (areas_in shed.old) }
    ensures modes { keys_in shed.new ≡ keys_in shed.old }
{
    match shed.area_mut(key) {
        Some(area) => area.clear(),
        None => {}
    }
    shed.drop_fresh(key);
}

/// Empties the local areas of the best-effort buckets under a site, and counts those that were not
/// empty.
pub fn evict_local(alloc: Global, shed: &mut Shed<StorageKey>, site: &Site) -> Result<u32, NoMemory>
    ensures evicted { OnOk result (areas_in shed.new
        ≡ areas_left_by (plain_site site.now) (keys_in shed.old) (areas_in shed.old)) }
    ensures count { let taken =
        areas_taken_by (plain_site site.now) (keys_in shed.old) (areas_in shed.old) in
        IfOk result (λ n. n ≡ min (finite.len taken) (2 ^ 32 - 1)) }
    ensures modes { keys_in shed.new ≡ keys_in shed.old }
    ensures unchanged { OnErr result (areas_in shed.new ≡ areas_in shed.old) }
{
    let keys = best_effort_under(alloc, shed, site)?;
    Ok(shed.evict(keys.as_slice()))
}

/// Keeps the buckets whose keys are storage keys under a list, and drops the others. Tells whether
/// one that is not empty, or is persistent, was dropped. It takes no memory.
pub fn migrate_local(shed: &mut Shed<StorageKey>, list: &SuffixList) -> bool
    ensures areas { areas_in shed.new
        ≡ finite.retain_keys (areas_in shed.old) (key_stays list.now.rules) }
    ensures modes { keys_in shed.new
        ≡ finite.retain_keys (keys_in shed.old) (key_stays list.now.rules) }
    ensures went { let areas = finite.keys (areas_in shed.old) in
        let modes = finite.keys (keys_in shed.old) in
        let stays = key_stays list.now.rules in
        result ≡ not (list_all stays areas && list_all stays modes) }
{
    shed.retain(|key| key.stays(list))
}

/// Copies of the keys under a site whose buckets are best-effort. No key that stays is copied.
pub fn best_effort_under(
    alloc: Global,
    shed: &Shed<StorageKey>,
    site: &Site,
) -> Result<Vec<StorageKey>, NoMemory>
    ensures keys { let all = map plain_key (keys_of shed.now) in
        let taken = keys_taken_of (plain_site site.now) (keys_in shed.now) all in
        IfOk result (λ keys. map plain_key keys.items ≡ taken) }
    ensures ordered { IsStrictlySortedBy key_cmp (keys_of shed.now) }
{
    let found = entries_under(alloc, shed.buckets(), site)?;
    best_effort_of(alloc, found)
}

// Copies of the keys of entries whose buckets are best-effort.
fn best_effort_of(
    alloc: Global,
    found: Vec<(&StorageKey, &Bucket)>,
) -> Result<Vec<StorageKey>, NoMemory>
    ensures keys { let entries = map entry_of found.entry.items in
        let best = filter (λ e. is_best_effort e.1.mode) entries in
        IfOk result (λ keys. map plain_key keys.items ≡ map plain_key (keys_of best)) }
{
    let mut keys = Vec::new(alloc);
    for (key, bucket) in found {
        if is_best_effort(bucket) {
            push_copy(alloc, key, &mut keys)?;
        }
    }
    Ok(keys)
}

fn is_best_effort(bucket: &Bucket) -> bool
    ensures { result ≡ is_best_effort bucket.now.mode }
{
    match bucket.mode {
        Mode::BestEffort => true,
        Mode::Persistent => false,
    }
}

/// Whether a key has a local area, which is not empty.
pub fn has_pairs(shed: &Shed<StorageKey>, key: &StorageKey) -> bool
    ensures { result ≡ finite.contains_key (areas_in shed.now) (plain_key key.now) }
{
    match shed.area(key) {
        Some(area) => !area.is_empty(),
        None => false,
    }
}

/// Whether the bucket of a key is persistent.
pub fn is_persistent(shed: &Shed<StorageKey>, key: &StorageKey) -> bool
    ensures { result ≡ finite.contains_key (keys_in shed.now) (plain_key key.now) }
{
    match shed.mode(key) {
        Mode::Persistent => true,
        Mode::BestEffort => false,
    }
}
