//! The row changes of a snapshot, one after another.
ghost use Rattle.std.specs.Prelude.{OnOk, drop, map, take};
ghost use Rattle.access_grants.specs.Plain.{plain_grant};
ghost use Rattle.storage_key.specs.Plain.{plain_key};
ghost use Rattle.row_changes.specs.Change as plain;
ghost use Rattle.row_store.specs.Listing.{mode_rows, pair_rows};
ghost use Rattle.row_store.specs.Pushed.{all_rows, area_rows, is_stored_mode, key_rows_in, rows_of_keys, stored_pairs};

use crate::cells::push_cookies;
use crate::sink::RowSink;
use crate::which::Which;
use access_grants::{GrantRow, Grants};
use agent_base::NoMemory;
use local_area::Area;
use row_changes::ChangeRef;
use std::alloc::Global;
use storage_events::AreaKind;
use storage_key::StorageKey;
use web_cookies::Cookies;
use web_storage::Storage;

/// Adds the row changes of a snapshot, in the order in which they are written, with these cookies
/// of each cell.
pub fn push_all<S: RowSink>(
    alloc: Global,
    storage: &Storage,
    cookies: &Cookies,
    grants: &Grants,
    which: Which,
    sink: &mut S,
) -> Result<(), NoMemory>
    ensures pushed { let more = all_rows which storage.now cookies.now grants.now in
        OnOk result (S.adds sink.old more sink.new) }
{
    push_keys(storage, sink)?;
    push_cookies(alloc, cookies, which, sink)?;
    push_grants(grants.rows(), sink)
}

// Adds what is stored at each key.
fn push_keys<S: RowSink>(storage: &Storage, sink: &mut S) -> Result<(), NoMemory>
    ensures pushed { OnOk result (S.adds sink.old (area_rows storage.now) sink.new) }
{
    let keys = storage.stored_keys()?;
    push_each_key(storage, &keys, sink)
}

fn push_each_key<S: RowSink>(
    storage: &Storage,
    keys: &[StorageKey],
    sink: &mut S,
) -> Result<(), NoMemory>
    ensures pushed { let more = rows_of_keys storage.now (map plain_key keys.now) in
        OnOk result (S.adds sink.old more sink.new) }
{
    for key in keys {
        push_key(storage, key, sink)?;
    }
    Ok(())
}

// Adds what is stored at a key.
fn push_key<S: RowSink>(storage: &Storage, key: &StorageKey, sink: &mut S) -> Result<(), NoMemory>
    ensures pushed { let more = key_rows_in storage.now (plain_key key.now) in
        OnOk result (S.adds sink.old more sink.new) }
{
    push_area(storage, key, sink)?;
    push_mode(storage, key, sink)
}

fn push_area<S: RowSink>(storage: &Storage, key: &StorageKey, sink: &mut S) -> Result<(), NoMemory>
    ensures pushed { let more =
        pair_rows (plain_key key.now) (stored_pairs storage.now (plain_key key.now)) in
        OnOk result (S.adds sink.old more sink.new) }
{
    match storage.area(AreaKind::Local, 0, key) {
        Some(area) => push_pairs(key, area, sink),
        None => Ok(()),
    }
}

fn push_mode<S: RowSink>(storage: &Storage, key: &StorageKey, sink: &mut S) -> Result<(), NoMemory>
    ensures pushed { let more =
        mode_rows (plain_key key.now) (is_stored_mode storage.now (plain_key key.now)) in
        OnOk result (S.adds sink.old more sink.new) }
{
    if storage.is_persistent(key) {
        sink.add(ChangeRef::SetMode { key })?;
    }
    Ok(())
}

fn push_pairs<S: RowSink>(key: &StorageKey, area: &Area, sink: &mut S) -> Result<(), NoMemory>
    ensures pushed { let more = pair_rows (plain_key key.now) area.now in
        OnOk result (S.adds sink.old more sink.new) }
{
    for place in 0..area.len() {
        push_pair(key, area, place, sink)?;
    }
    Ok(())
}

// Adds the pair at a place, if there is one.
fn push_pair<S: RowSink>(
    key: &StorageKey,
    area: &Area,
    place: usize,
    sink: &mut S,
) -> Result<(), NoMemory>
    ensures pushed { let more = pair_rows (plain_key key.now) (take 1 (drop place area.now)) in
        OnOk result (S.adds sink.old more sink.new) }
{
    match area.pair(place) {
        Some((name, value)) => sink.add(ChangeRef::AreaPut { key, name, value }),
        None => Ok(()),
    }
}

// Adds permissions in their order.
fn push_grants<S: RowSink>(grants: &[GrantRow], sink: &mut S) -> Result<(), NoMemory>
    ensures pushed { let more = map (λ row. plain.Grant (plain_grant row)) grants.now in
        OnOk result (S.adds sink.old more sink.new) }
{
    for row in grants {
        sink.add(ChangeRef::Grant { row })?;
    }
    Ok(())
}
