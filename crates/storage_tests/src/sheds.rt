//! A caller of the loan, and each call that takes memory with ample memory.
ghost use Rattle.std.specs.Prelude.{◌≡◌, IfNone};

use buckets::{Mode, Shed};
use local_area::{AreaFault, Put};
use std::alloc::{AllocError, Global};
use std::process::Abort;
use std::test::Fail;

// Puts a pair into the area of a key that has a bucket.
fn put<K: Ord + Drop>(
    shed: &mut Shed<K>,
    key: &K,
    name: String,
    value: String,
) -> Option<Result<Put, AreaFault>>
    ensures none { IfNone result (shed.new ≡ shed.old) }
{
    match shed.area_mut(key) {
        Some(area) => Some(area.put(name, value)),
        None => None,
    }
}

// A shed with one pair of two bytes at each of these keys.
fn shed_of(alloc: Global, keys: &[u32]) -> Result<Shed<u32>, AllocError> {
    let mut shed = Shed::new(alloc);
    for key in keys {
        let name = String::from_str(alloc, "k")?;
        let value = String::from_str(alloc, "v")?;
        if shed.reserve(*key).is_err() {
            return Err(AllocError);
        }
        let _ = put(&mut shed, key, name, value);
    }
    Ok(shed)
}

// Whether two more buckets are there, and which are made persistent.
fn are_persisted(shed: &mut Shed<u32>) -> bool {
    let room = shed.reserve(9).is_ok() && shed.reserve(8).is_ok();
    let first = shed.persist(&5) && shed.persist(&9);
    room && first && !shed.persist(&5) && !shed.persist(&4)
}

// Keys one after another, and how many areas their eviction empties.
const EVICTIONS: &[(&[u32], u32)] = &[(&[3, 5, 8, 9], 1), (&[3, 5, 7, 7], 1), (&[3, 5, 7], 0)];

// A key, and what is used there after the evictions and in a copy from before.
const USAGES: &[(u32, usize, usize)] = &[(3, 0, 2), (5, 2, 2), (7, 0, 2), (8, 0, 0), (1, 0, 0)];

fn check_usages(rt: &impl Abort, shed: &Shed<u32>, copy: &Shed<u32>) {
    for (key, usage, copied) in USAGES {
        assert!(rt; shed.usage(key) == *usage, "at {key}");
        assert!(rt; copy.usage(key) == *copied, "in the copy at {key}");
    }
    assert!(rt; !shed.contains(&8) && shed.contains(&9));
    assert!(rt; shed.mode(&9) == Mode::Persistent);
    assert!(rt; shed.mode(&1) == Mode::BestEffort);
}

fn check_evictions(rt: &impl Abort, shed: &mut Shed<u32>) {
    for (place, (keys, want)) in EVICTIONS.iter().enumerate() {
        assert!(rt; shed.evict(keys) == *want, "eviction {place}");
    }
}

#[test]
fn eviction_spares_persistent_buckets(rt: HostRuntime) -> Result<(), Fail> {
    let mut shed = shed_of(rt.alloc(), &[7, 3, 5])?;
    assert!(rt; are_persisted(&mut shed));
    let Ok(copy) = shed.copy() else {
        assert!(rt; false, "no memory for a copy");
        return Ok(());
    };
    check_evictions(&rt, &mut shed);
    check_usages(&rt, &shed, &copy);
    Ok(())
}

// The least key that stays, whether a bucket goes, and what is used at 3 and 7 afterwards. An empty
// best-effort bucket at 4 is none.
const TESTS: &[(u32, bool, usize, usize)] = &[
    (0, false, 2, 2),
    (3, true, 2, 2),
    (5, true, 0, 2),
    (5, false, 0, 2),
    (8, true, 0, 0),
];

#[test]
fn buckets_whose_keys_pass_stay(rt: HostRuntime) -> Result<(), Fail> {
    let mut shed = shed_of(rt.alloc(), &[7, 3])?;
    assert!(rt; shed.reserve(4).is_ok() && shed.reserve(1).is_ok() && shed.persist(&1));
    for (least, went, at_three, at_seven) in TESTS {
        assert!(rt; shed.retain(|key| *key >= *least) == *went, "from {least}");
        assert!(rt;
            shed.usage(&3) == *at_three && shed.usage(&7) == *at_seven,
            "left from {least}"
        );
    }
    assert!(rt; shed.mode(&1) == Mode::BestEffort);
    Ok(())
}

// A key or none, and the next one that has a bucket.
const KEYS: &[(Option<u32>, Option<u32>)] = &[
    (None, Some(3)),
    (Some(3), Some(5)),
    (Some(4), Some(5)),
    (Some(7), None),
];

fn is_next(shed: &Shed<u32>, after: &Option<u32>, want: &Option<u32>) -> bool {
    shed.buckets().next_key(after.as_ref()) == want.as_ref()
}

// Whether a key has an area with its pair.
fn has_pair(shed: &Shed<u32>, key: u32) -> bool {
    match shed.area(&key) {
        Some(area) => area.get("k") == Some("v"),
        None => false,
    }
}

#[test]
fn keys_come_in_order(rt: HostRuntime) -> Result<(), Fail> {
    let shed = shed_of(rt.alloc(), &[7, 3, 5])?;
    for (place, (after, want)) in KEYS.iter().enumerate() {
        assert!(rt; is_next(&shed, after, want), "key {place}");
    }
    assert!(rt; shed.area(&4).is_none() && has_pair(&shed, 3));
    Ok(())
}
