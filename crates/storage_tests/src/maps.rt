//! A caller of the loans, and each call that takes memory with ample memory.
ghost use Rattle.std.specs.Prelude.{◌≡◌};
ghost use Rattle.key_map.specs.Entries.{map_set};

use key_map::KeyMap;
use std::alloc::Global;
use std::test::Fail;

// Gives a key that is there this value.
fn set<K: Ord + Drop>(map: &mut KeyMap<K, u32>, key: &K, value: u32)
    ensures set { map.new ≡ map_set K.cmp key.now value map.old }
{
    match map.get_mut(key) {
        Some(place) => *place = value,
        None => {}
    }
}

// Keys with the values that are inserted one after another.
const WRITES: &[(u32, u32)] = &[(7, 1), (3, 2), (5, 3), (7, 4), (9, 5)];

// Whether each is inserted, and the last key is there once.
fn are_written(map: &mut KeyMap<u32, u32>) -> bool {
    let mut done = true;
    for (key, value) in WRITES {
        done = done && map.insert(*key, *value) == Ok(());
    }
    done && map.remove(&9) == Some(5) && map.remove(&9).is_none()
}

const VALUES: &[(u32, Option<u32>)] = &[(3, Some(8)), (5, Some(3)), (7, Some(4)), (4, None)];

fn are_found(map: &KeyMap<u32, u32>, values: &[(u32, Option<u32>)]) -> bool {
    values
        .iter()
        .all(|(key, want)| map.get(key).copied() == *want)
}

// Whether these are the keys of a map.
fn are_keys(alloc: Global, map: &KeyMap<u32, u32>, want: &[u32]) -> bool {
    matches!(map.keys(alloc), Ok(keys) if keys.as_slice() == want)
}

#[test]
fn written_values_are_found(rt: HostRuntime) -> Result<(), Fail> {
    let alloc = rt.alloc();
    let mut map = KeyMap::new(alloc);
    assert!(rt; are_written(&mut map));
    let copy = map.clone()?;
    set(&mut map, &3, 8);
    set(&mut map, &4, 8);
    assert!(rt; are_found(&map, VALUES));
    assert!(rt; map.next_key(Some(&3)).copied() == Some(5));
    assert!(rt; are_found(&copy, &[(3, Some(2))]));
    assert!(rt; are_keys(alloc, &map, &[3, 5, 7]));
    Ok(())
}

// The least value that stays, whether an entry goes, and the keys that are left.
const TESTS: &[(u32, bool, &[u32])] = &[
    (0, false, &[3, 5, 7, 9]),
    (3, true, &[5, 7, 9]),
    (3, false, &[5, 7, 9]),
    (5, true, &[9]),
    (6, true, &[]),
    (6, false, &[]),
];

#[test]
fn entries_that_pass_stay(rt: HostRuntime) -> Result<(), Fail> {
    let alloc = rt.alloc();
    let mut map = KeyMap::new(alloc);
    for (key, value) in WRITES {
        assert!(rt; map.insert(*key, *value) == Ok(()));
    }
    for (least, went, left) in TESTS {
        assert!(rt;
            map.retain(|_, value| *value >= *least) == *went,
            "from {least}"
        );
        assert!(rt; are_keys(alloc, &map, left), "left from {least}");
    }
    Ok(())
}

// Thousands of keys, each third of which is taken out again.
fn fill(map: &mut KeyMap<u32, u32>) -> bool {
    let mut done = true;
    for key in 0..5_000u32 {
        done = done && map.insert(key, key).is_ok();
    }
    for third in 0..1_667u32 {
        done = done && map.remove(&(third * 3)).is_some();
    }
    done
}

const KEPT: &[(u32, Option<u32>)] = &[(0, None), (1, Some(1)), (4_998, None), (4_999, Some(4_999))];

#[test]
fn thousands_of_keys_are_kept(rt: HostRuntime) -> Result<(), Fail> {
    let mut map = KeyMap::new(rt.alloc());
    assert!(rt; fill(&mut map));
    assert!(rt; are_found(&map, KEPT));
    assert!(rt; map.next_key(Some(&2_998)).copied() == Some(2_999));
    Ok(())
}
