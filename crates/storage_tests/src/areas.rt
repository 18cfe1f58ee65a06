//! Areas at the last byte of their quota, and calls that take memory where there is enough.
use local_area::{Area, AreaFault, Put};
use std::alloc::{AllocError, Global};
use std::test::Fail;

fn filled(alloc: Global, len: usize) -> Result<String, AllocError> {
    let mut text = String::new(alloc);
    for _ in 0..len {
        text.push('x')?;
    }
    Ok(text)
}

// Gives a name a value of so many bytes.
fn put_filled(
    alloc: Global,
    area: &mut Area,
    name: &str,
    len: usize,
) -> Result<Result<Put, AreaFault>, AllocError> {
    let name = String::from_str(alloc, name)?;
    Ok(area.put(name, filled(alloc, len)?))
}

/// What a put answers.
#[derive(Clone, Copy)]
enum Want {
    Added,
    Same,
    Quota(u128),
}

// Names, the lengths of the values that they are given, and the answers.
const PUTS: &[(&str, usize, Want)] = &[
    ("a", 1_000_000, Want::Added),
    ("b", 1_000_000, Want::Added),
    ("c", 1_000_000, Want::Added),
    ("d", 1_000_000, Want::Added),
    ("e", 1_000_000, Want::Added),
    ("f", 242_875, Want::Quota(5_242_881)),
    ("f", 242_874, Want::Added),
    ("g", 0, Want::Quota(5_242_881)),
    ("a", 1_000_001, Want::Quota(5_242_881)),
    ("a", 1_000_000, Want::Same),
];

// Whether a name takes a value of so many bytes as it has to.
fn is_put(
    alloc: Global,
    area: &mut Area,
    (name, len, want): (&str, usize, Want),
) -> Result<bool, AllocError> {
    let answer = put_filled(alloc, area, name, len)?;
    Ok(match want {
        Want::Added => answer == Ok(Put::Added),
        Want::Same => answer == Ok(Put::Same),
        Want::Quota(bytes) => answer == Err(AreaFault::Quota(bytes)),
    })
}

#[test]
fn quota_counts_to_its_last_byte(rt: HostRuntime) -> Result<(), Fail> {
    let alloc = rt.alloc();
    let mut area = Area::new(alloc);
    for (place, row) in PUTS.iter().enumerate() {
        assert!(rt; is_put(alloc, &mut area, *row)?, "put {place}");
    }
    assert!(rt; area.weight() == 5_242_880);
    assert!(rt; area.len() == 6);
    Ok(())
}

// Two names with their values, and a second value of the first.
const CHANGES: &[(&str, &str)] = &[("a", "1"), ("b", "2"), ("a", "3")];

fn changed(alloc: Global) -> Result<Area, AllocError> {
    let mut area = Area::new(alloc);
    for (name, value) in CHANGES {
        let name = String::from_str(alloc, name)?;
        if area.put(name, String::from_str(alloc, value)?).is_err() {
            return Err(AllocError);
        }
    }
    Ok(area)
}

// Whether an area loses its second name, and then its first one by a clear.
fn is_emptied(area: &mut Area) -> bool {
    let keys = area.key(0) == Some("a") && area.key(2).is_none();
    let removed = area.remove("b").is_some() && area.remove("b").is_none();
    let weight = area.weight();
    area.clear();
    keys && removed && weight == 2 && area.is_empty()
}

// Whether a copy keeps what its area loses.
fn copy_is_kept(alloc: Global) -> Result<bool, AllocError> {
    let mut area = changed(alloc)?;
    let Ok(copy) = area.copy() else {
        return Ok(false);
    };
    let emptied = is_emptied(&mut area);
    Ok(emptied && copy.get("a") == Some("3") && copy.key(1) == Some("b"))
}

#[test]
fn changed_value_keeps_its_place(rt: HostRuntime) -> Result<(), Fail> {
    assert!(rt; copy_is_kept(rt.alloc())?);
    Ok(())
}
