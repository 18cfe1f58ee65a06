//! A caller of the loan, and each call that takes memory with ample memory.
ghost use Rattle.std.specs.Prelude.{IfNone};
ghost use Rattle.session_area.specs.Sessions.{SameAreas};

use local_area::{AreaFault, Put};
use session_area::Sessions;
use std::alloc::{AllocError, Global};
use std::process::Abort;
use std::test::Fail;

// Puts a pair into the area that a tab has under a key.
fn put<K: Ord + Drop>(
    sessions: &mut Sessions<K>,
    tab: u16,
    key: &K,
    name: String,
    value: String,
) -> Option<Result<Put, AreaFault>>
    ensures none { IfNone result (SameAreas sessions.old sessions.new) }
{
    match sessions.area_mut(tab, key) {
        Ok(area) => Some(area.put(name, value)),
        Err(_) => None,
    }
}

// Areas of tab 1, each of one pair: their keys and its value.
const AREAS: &[(u32, &str)] = &[(7, "v"), (3, "w"), (5, "x")];

fn three_areas(alloc: Global) -> Result<Sessions<u32>, AllocError> {
    let mut sessions = Sessions::new(alloc);
    for (key, value) in AREAS {
        let name = String::from_str(alloc, "k")?;
        let value = String::from_str(alloc, value)?;
        if sessions.reserve(1, *key).is_err() {
            return Err(AllocError);
        }
        let _ = put(&mut sessions, 1, key, name, value);
    }
    Ok(sessions)
}

// A tab, a key, and the value in the area there.
const VALUES: &[(u16, u32, Option<&str>)] = &[
    (2, 7, Some("v")),
    (2, 3, Some("y")),
    (2, 5, None),
    (1, 7, None),
];

fn has_value(sessions: &Sessions<u32>, tab: u16, key: u32, want: Option<&str>) -> bool {
    match sessions.area(tab, &key) {
        Some(area) => area.get("k") == want,
        None => want.is_none(),
    }
}

// A key or none, and the next one that has an area in tab 2.
const KEYS: &[(Option<u32>, Option<u32>)] = &[(None, Some(3)), (Some(3), Some(7)), (Some(7), None)];

fn is_next(sessions: &Sessions<u32>, after: &Option<u32>, want: &Option<u32>) -> bool {
    match sessions.areas(2) {
        Some(areas) => areas.next_key(after.as_ref()) == want.as_ref(),
        None => false,
    }
}

fn check_areas(rt: &impl Abort, sessions: &Sessions<u32>) {
    for (tab, key, want) in VALUES {
        let found = has_value(sessions, *tab, *key, *want);
        assert!(rt; found, "in tab {tab} at {key}");
    }
    for (place, (after, want)) in KEYS.iter().enumerate() {
        assert!(rt; is_next(sessions, after, want), "key {place}");
    }
    assert!(rt; sessions.areas(1).is_none());
}

// Copies areas of tab 1 to tab 2.
fn is_copied(alloc: Global, sessions: &mut Sessions<u32>) -> Result<bool, AllocError> {
    let keys = Vec::from_slice(alloc, &[7, 3, 9, 7])?;
    sessions.close(2);
    Ok(sessions.clone_tab(1, 2, keys).is_ok())
}

// Whether an area that is changed in tab 2 stays as it was in tab 1, with which it was shared.
fn is_changed_apart(alloc: Global, sessions: &mut Sessions<u32>) -> Result<bool, AllocError> {
    let name = String::from_str(alloc, "k")?;
    let value = String::from_str(alloc, "y")?;
    let changed = put(sessions, 2, &3, name, value);
    let is_changed = matches!(&changed, Some(Ok(Put::Changed(_))));
    Ok(is_changed && has_value(sessions, 1, 3, Some("w")))
}

// Closes tab 1, which a copy still has.
fn is_closed_apart(sessions: &mut Sessions<u32>) -> bool {
    let Ok(copy) = sessions.copy() else {
        return false;
    };
    sessions.close(1);
    copy.area(1, &5).is_some()
}

#[test]
fn copied_tab_goes_its_own_way(rt: HostRuntime) -> Result<(), Fail> {
    let alloc = rt.alloc();
    let mut sessions = three_areas(alloc)?;
    assert!(rt; is_copied(alloc, &mut sessions)?);
    assert!(rt; is_changed_apart(alloc, &mut sessions)?);
    assert!(rt; is_closed_apart(&mut sessions));
    check_areas(&rt, &sessions);
    sessions.drop_empty(2, &3);
    assert!(rt; sessions.contains(2, &3));
    Ok(())
}
