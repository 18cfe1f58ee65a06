//! The keys that an eviction takes, and those that are stored, by their texts.
ghost use Rattle.std.specs.Prelude.{◌≡◌, ◌++◌, IfOk, OnOk, filter, map};
ghost use Rattle.std.specs.FinMap as finite;
ghost use Rattle.std.specs.Map.{keys_of};
ghost use Rattle.origin_site.specs.Plain.{plain_site};
ghost use Rattle.storage_key.specs.Plain.{plain_key};
ghost use Rattle.agent_model.specs.Changes.{by_text};
ghost use Rattle.web_storage.specs.Evicting.{areas_taken_by};
ghost use Rattle.web_storage.specs.Listed.{stored_in};
ghost use Rattle.web_storage.specs.Stored.{areas_in, keys_in};
ghost use Rattle.web_storage.specs.Texts.{is_of_kind, keys_of_kind};

use crate::local::{best_effort_under, has_pairs, is_persistent};
use crate::texts::by_text;
use crate::under::push_copy;
use agent_base::NoMemory;
use buckets::{Bucket, Shed};
use origin_site::Site;
use std::alloc::Global;
use std::collections::btree_map::Range;
use storage_key::StorageKey;

/// The keys whose areas an eviction of a site takes, by their texts.
pub fn keys_taken(
    alloc: Global,
    shed: &Shed<StorageKey>,
    site: &Site,
) -> Result<Vec<StorageKey>, NoMemory>
    ensures keys { let taken =
        areas_taken_by (plain_site site.now) (keys_in shed.now) (areas_in shed.now) in
        IfOk result (λ keys. map plain_key keys.items ≡ by_text (finite.keys taken)) }
{
    let mut keys = best_effort_under(alloc, shed, site)?;
    keys.retain(|key| has_pairs(shed, key));
    by_text(alloc, keys)
}

/// The keys that have an area, or a persistent bucket, or both, by their texts.
pub fn keys_stored(alloc: Global, shed: &Shed<StorageKey>) -> Result<Vec<StorageKey>, NoMemory>
    ensures keys { let all = stored_in (areas_in shed.now) (keys_in shed.now) in
        IfOk result (λ keys. map plain_key keys.items ≡ all) }
{
    let mut keys = Vec::new(alloc);
    push_kind(alloc, shed, true, &mut keys)?;
    push_kind(alloc, shed, false, &mut keys)?;
    by_text(alloc, keys)
}

// Adds copies of the keys that have an area, or of those that have a persistent bucket alone, in
// the order of keys.
fn push_kind(
    alloc: Global,
    shed: &Shed<StorageKey>,
    with_area: bool,
    keys: &mut Vec<StorageKey>,
) -> Result<(), NoMemory>
    ensures pushed { let more = keys_of_kind with_area (areas_in shed.now) (keys_in shed.now) in
        OnOk result (map plain_key keys.new.items ≡ map plain_key keys.old.items ++ more) }
{
    match shed.buckets().next_key(None) {
        Some(first) => {
            let all = shed.buckets().range_from(first);
            push_all_of_kind(alloc, shed, all, with_area, keys)
        }
        None => Ok(()),
    }
}

// Adds copies of such keys of a range.
fn push_all_of_kind(
    alloc: Global,
    shed: &Shed<StorageKey>,
    range: Range<'_, StorageKey, Bucket>,
    with_area: bool,
    keys: &mut Vec<StorageKey>,
) -> Result<(), NoMemory>
    ensures pushed { let more =
        filter (is_of_kind with_area (areas_in shed.now) (keys_in shed.now))
        (map plain_key (keys_of range.entry)) in
        OnOk result (map plain_key keys.new.items ≡ map plain_key keys.old.items ++ more) }
{
    for (key, _) in range {
        if is_of_kind(shed, key, with_area) {
            push_copy(alloc, key, keys)?;
        }
    }
    Ok(())
}

fn is_of_kind(shed: &Shed<StorageKey>, key: &StorageKey, with_area: bool) -> bool
    ensures { result
        ≡ is_of_kind with_area (areas_in shed.now) (keys_in shed.now) (plain_key key.now) }
{
    if with_area {
        has_pairs(shed, key)
    } else {
        is_persistent(shed, key) && !has_pairs(shed, key)
    }
}
