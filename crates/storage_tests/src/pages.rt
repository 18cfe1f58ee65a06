//! Each call that takes memory, with ample memory.
use crate::shared::{list_of, origin_at};
use local_area::Put;
use origin_site::Site;
use std::alloc::Global;
use std::process::Abort;
use std::test::Fail;
use storage_events::AreaKind;
use storage_key::StorageKey;
use web_storage::Storage;

// Where an area is: an address, and the site above it.
type Place = (&'static str, &'static str);

const A: Place = ("https://w.test/", "https://a.test");

const B: Place = ("https://w.test/", "https://b.test");

// The key of a place, with the ancestor bit.
fn key_of(alloc: Global, (address, top): Place) -> Result<StorageKey, Fail> {
    Ok(StorageKey {
        origin: origin_at(alloc, address)?,
        top: Site::read(alloc, top)?,
        bit: true,
    })
}

// Gives a name of one byte a value of one byte.
fn put(
    alloc: Global,
    storage: &mut Storage,
    kind: AreaKind,
    tab: u16,
    at: Place,
    value: &str,
) -> Result<bool, Fail> {
    let key = key_of(alloc, at)?;
    let name = String::from_str(alloc, "k")?;
    let value = String::from_str(alloc, value)?;
    let put = storage.put(kind, tab, &key, name, value);
    Ok(matches!(&put, Ok(Put::Added)))
}

// Whether each of these places gets that name in tab 1.
fn are_put(
    alloc: Global,
    storage: &mut Storage,
    kind: AreaKind,
    places: &[Place],
) -> Result<bool, Fail> {
    let mut done = true;
    for at in places {
        done = done && put(alloc, storage, kind, 1, *at, "v")?;
    }
    Ok(done)
}

// An area, and the value of that name there, or an empty text where there is none.
type Value = (AreaKind, u16, Place, &'static str);

fn has_value(alloc: Global, storage: &Storage, (kind, tab, at, want): Value) -> Result<bool, Fail> {
    let key = key_of(alloc, at)?;
    let found = match storage.area(kind, tab, &key) {
        Some(area) => area.get("k"),
        None => None,
    };
    Ok(found.unwrap_or("") == want)
}

fn check_values(
    rt: &impl Abort,
    alloc: Global,
    storage: &Storage,
    values: &[Value],
) -> Result<(), Fail> {
    for value in values {
        let found = has_value(alloc, storage, *value)?;
        assert!(rt; found, "in tab {} at {}", value.1, value.2.0);
    }
    Ok(())
}

// Removes that name from the local area of tab 1, and clears the session area.
fn is_emptied(alloc: Global, storage: &mut Storage, at: Place) -> Result<bool, Fail> {
    let key = key_of(alloc, at)?;
    let removed = storage.remove(AreaKind::Local, 1, &key, "k");
    storage.clear(AreaKind::Session, 1, &key);
    Ok(matches!(&removed, Ok(Some(_))))
}

// Areas once `A` has a pair of each kind in tab 1, with the values there.
const VALUES: &[Value] = &[
    (AreaKind::Local, 1, A, "1"),
    (AreaKind::Local, 9, A, "1"),
    (AreaKind::Local, 1, B, ""),
    (AreaKind::Session, 1, A, "2"),
    (AreaKind::Session, 2, A, ""),
];

const EMPTIED: &[Value] = &[(AreaKind::Local, 1, A, ""), (AreaKind::Session, 1, A, "")];

// Whether each of both areas there gets its value.
fn are_both_put(alloc: Global, storage: &mut Storage, at: Place) -> Result<bool, Fail> {
    Ok(
        put(alloc, storage, AreaKind::Local, 1, at, "1")?
            && put(alloc, storage, AreaKind::Session, 1, at, "2")?,
    )
}

#[test]
fn areas_of_keys_stand_apart(rt: HostRuntime) -> Result<(), Fail> {
    let alloc = rt.alloc();
    let mut storage = Storage::new(alloc);
    assert!(rt; are_both_put(alloc, &mut storage, A)?);
    check_values(&rt, alloc, &storage, VALUES)?;
    assert!(rt; is_emptied(alloc, &mut storage, A)?);
    check_values(&rt, alloc, &storage, EMPTIED)
}

const KEPT: Place = ("https://v.test/", "https://a.test");

// The least key of all, whose origin is that of `A`.
const FIRST: Place = ("https://w.test/", "http://a.test");

// Keys under the site of `A`, with an origin before and one behind.
const BEFORE: Place = ("https://u.test/", "https://a.test");

const BEHIND: Place = ("https://x.test/", "https://a.test");

// Makes the bucket of one place persistent, and tells whether that of another is not.
fn is_persisted(
    alloc: Global,
    storage: &mut Storage,
    at: Place,
    other: Place,
) -> Result<bool, Fail> {
    let key = key_of(alloc, at)?;
    let other = key_of(alloc, other)?;
    let persisted = storage.persist(&key);
    Ok(persisted.is_ok() && storage.is_persistent(&key) && !storage.is_persistent(&other))
}

// Whether the first eviction empties three areas, and the second none.
fn are_evicted(alloc: Global, storage: &mut Storage) -> Result<bool, Fail> {
    let site = Site::read(alloc, "https://a.test")?;
    Ok(storage.evict(&site) == Ok(3) && storage.evict(&site) == Ok(0))
}

const PLACES: &[Place] = &[KEPT, A, B, FIRST, BEFORE, BEHIND];

// What is used at these places after the evictions.
const USAGES: &[(Place, usize)] = &[
    (KEPT, 2),
    (A, 0),
    (B, 2),
    (FIRST, 2),
    (BEFORE, 0),
    (BEHIND, 0),
];

fn usage(alloc: Global, storage: &Storage, at: Place) -> Result<usize, Fail> {
    Ok(storage.usage(&key_of(alloc, at)?))
}

fn check_usages(rt: &impl Abort, alloc: Global, storage: &Storage) -> Result<(), Fail> {
    for (at, want) in USAGES {
        assert!(rt; usage(alloc, storage, *at)? == *want, "at {}", at.0);
    }
    Ok(())
}

#[test]
fn evictions_spare_persistent_buckets(rt: HostRuntime) -> Result<(), Fail> {
    let alloc = rt.alloc();
    let mut storage = Storage::new(alloc);
    assert!(rt; are_put(alloc, &mut storage, AreaKind::Local, PLACES)?);
    assert!(rt; is_persisted(alloc, &mut storage, KEPT, A)?);
    assert!(rt; are_evicted(alloc, &mut storage)?);
    check_usages(&rt, alloc, &storage)
}

// A key whose top-level site is one where `co.uk` is a suffix.
const SHOP: Place = ("https://w.test/", "https://shop.co.uk");

// What is used at both places under one list after another, and whether a bucket goes.
const LISTS: &[(&str, bool, usize, usize)] = &[
    ("co.uk\ntest", false, 2, 2),
    ("uk\na.test", true, 2, 0),
    ("co.uk\ntest", false, 2, 0),
    ("a.test\n*.a.test\nw.test", false, 2, 0),
];

#[test]
fn buckets_under_another_list_go(rt: HostRuntime) -> Result<(), Fail> {
    let alloc = rt.alloc();
    let mut storage = Storage::new(alloc);
    assert!(rt; are_put(alloc, &mut storage, AreaKind::Local, &[A, SHOP])?);
    assert!(rt; are_put(alloc, &mut storage, AreaKind::Session, &[SHOP])?);
    assert!(rt; is_persisted(alloc, &mut storage, SHOP, A)?);
    for (text, went, at_a, at_shop) in LISTS {
        let list = list_of(alloc, text)?;
        assert!(rt; storage.migrate(&list) == *went, "under {text}");
        assert!(rt;
            usage(alloc, &storage, A)? == *at_a,
            "at a.test under {text}"
        );
        assert!(rt;
            usage(alloc, &storage, SHOP)? == *at_shop,
            "at shop.co.uk under {text}"
        );
    }
    assert!(rt; !storage.is_persistent(&key_of(alloc, SHOP)?));
    check_values(&rt, alloc, &storage, &[(AreaKind::Session, 1, SHOP, "v")])
}

// Copies the session areas of tab 1 under a site to tab 2.
fn copied(storage: &mut Storage, site: &Site) -> bool {
    storage.close(2);
    storage.copy_tab(site, 1, 2).is_ok()
}

// The values under `https://a.test` in tab 2 once they are copied from tab 1.
const COPIED: &[Value] = &[
    (AreaKind::Session, 1, A, "v"),
    (AreaKind::Session, 1, B, "v"),
    (AreaKind::Session, 2, A, "v"),
    (AreaKind::Session, 2, B, ""),
    (AreaKind::Session, 2, FIRST, ""),
    (AreaKind::Session, 2, BEFORE, "v"),
    (AreaKind::Session, 2, BEHIND, "v"),
];

fn is_copied(alloc: Global, storage: &mut Storage) -> Result<bool, Fail> {
    let site = Site::read(alloc, "https://a.test")?;
    Ok(copied(storage, &site))
}

#[test]
fn copies_are_of_one_site(rt: HostRuntime) -> Result<(), Fail> {
    let alloc = rt.alloc();
    let mut storage = Storage::new(alloc);
    let places = &[A, B, FIRST, BEFORE, BEHIND];
    assert!(rt; are_put(alloc, &mut storage, AreaKind::Session, places)?);
    assert!(rt; is_copied(alloc, &mut storage)?);
    check_values(&rt, alloc, &storage, COPIED)
}

// Thousands of pairs, each with a name of its own, in one area.
fn fill(
    alloc: Global,
    storage: &mut Storage,
    kind: AreaKind,
    key: &StorageKey,
) -> Result<bool, Fail> {
    let mut done = true;
    for n in 0..3_000u32 {
        let name = format!(in alloc; "{n}")?;
        let value = String::from_str(alloc, "v")?;
        done = done && storage.put(kind, 1, key, name, value).is_ok();
    }
    Ok(done)
}

// Thousands of tabs, each with an area of its own under one key.
fn fill_tabs(alloc: Global, storage: &mut Storage, key: &StorageKey) -> Result<bool, Fail> {
    let mut done = true;
    for tab in 0..3_000u16 {
        let name = String::from_str(alloc, "k")?;
        let value = String::from_str(alloc, "v")?;
        done = done
            && storage
                .put(AreaKind::Session, tab, key, name, value)
                .is_ok();
    }
    Ok(done)
}

// Areas, and how many pairs they have.
const LENGTHS: &[(AreaKind, u16, usize)] = &[
    (AreaKind::Local, 1, 3_000),
    (AreaKind::Session, 1, 3_001),
    (AreaKind::Session, 2_999, 1),
    (AreaKind::Session, 3_000, 0),
];

fn length(storage: &Storage, kind: AreaKind, tab: u16, key: &StorageKey) -> usize {
    match storage.area(kind, tab, key) {
        Some(area) => area.len(),
        None => 0,
    }
}

// Whether the areas of tab 1 and of thousands of tabs are filled.
fn are_filled(alloc: Global, storage: &mut Storage, key: &StorageKey) -> Result<bool, Fail> {
    Ok(
        fill(alloc, storage, AreaKind::Local, key)?
            && fill(alloc, storage, AreaKind::Session, key)?
            && fill_tabs(alloc, storage, key)?,
    )
}

#[test]
fn thousands_are_kept_in_each_kind_of_area(rt: HostRuntime) -> Result<(), Fail> {
    let alloc = rt.alloc();
    let mut storage = Storage::new(alloc);
    let key = key_of(alloc, A)?;
    assert!(rt; are_filled(alloc, &mut storage, &key)?);
    for (kind, tab, want) in LENGTHS {
        let found = length(&storage, *kind, *tab, &key);
        assert!(rt; found == *want, "in tab {tab}");
    }
    Ok(())
}
