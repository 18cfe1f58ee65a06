//! Random calls, which are answered as by the lists of the standard.
use crate::lists::Lists;
use agent_base::Label;
use std::alloc::Global;
use std::test::Fail;
use web_locks::{LockAnswer, LockFault, LockMode, LockOptions, LockTable, NoLock};

const OWNERS: [Label; 3] = [
    Label { tab: 1, frame: 0 },
    Label { tab: 1, frame: 3 },
    Label { tab: 2, frame: 0 },
];

const NAMES: [&str; 4] = ["n", "m", "", "-n"];

const IDS: u32 = 6;

// The next of a row of numbers that the first one fixes.
fn next_number(number: u64) -> u64 {
    number
        .wrapping_mul(6_364_136_223_846_793_005)
        .wrapping_add(1_442_695_040_888_963_407)
}

// A request: one in eight steals, one in four does not wait, half are shared.
fn options_of(byte: u8) -> LockOptions {
    LockOptions {
        mode: if byte % 2 == 0 {
            LockMode::Exclusive
        } else {
            LockMode::Shared
        },
        if_available: byte / 2 % 4 == 0,
        steal: byte / 8 % 8 == 0,
    }
}

fn is_supported(name: &str, options: LockOptions) -> bool {
    !name.starts_with('-')
        && !(options.steal && (options.if_available || options.mode == LockMode::Shared))
}

// What the lists answer.
fn listed(
    lists: &mut Lists,
    key: u32,
    name: &'static str,
    owner: Label,
    id: u32,
    options: LockOptions,
) -> Result<Result<LockAnswer, LockFault>, Fail> {
    if !is_supported(name, options) {
        return Ok(Err(LockFault::NotSupported));
    }
    if lists.has(owner, id) {
        return Ok(Err(LockFault::IdUsed));
    }
    Ok(Ok(lists.request(key, name, owner, id, options)?))
}

// Whether both have the same requests of each document, and name the same documents.
fn are_alike(alloc: Global, table: &LockTable<u32>, lists: &Lists) -> Result<bool, Fail> {
    let mut last = None;
    for owner in OWNERS {
        let Ok(rows) = table.rows(alloc, owner) else {
            return Ok(false);
        };
        if !lists.shows(owner, &rows) {
            return Ok(false);
        }
        if lists.count(owner) > 0 {
            if table.next_owner(last) != Some(owner) {
                return Ok(false);
            }
            last = Some(owner);
        }
    }
    Ok(table.next_owner(last) == None)
}

// Whether one call is answered as by the lists. Of 16 calls 10 ask for a lock, 5 release one, and one
// lets a document go.
fn step(
    alloc: Global,
    table: &mut LockTable<u32>,
    lists: &mut Lists,
    number: u64,
) -> Result<bool, Fail> {
    let bytes = number.to_le_bytes();
    let owner = OWNERS[usize::from(bytes[7] % 3)];
    let name = NAMES[usize::from(bytes[6] / 4 % 4)];
    let key = u32::from(bytes[6] % 2);
    let id = u32::from(bytes[5]) % IDS;
    match bytes[7] / 3 % 16 {
        0..10 => {
            let options = options_of(bytes[4]);
            let text = String::from_str(alloc, name)?;
            let want = listed(lists, key, name, owner, id, options)?;
            Ok(table.request(key, text, owner, id, options) == want)
        }
        10..15 => {
            let is_there = lists.release(owner, id)?;
            Ok(table.release(owner, id) == if is_there { Ok(()) } else { Err(NoLock) })
        }
        _ => {
            table.drop_owner(owner);
            lists.terminate(owner)?;
            Ok(true)
        }
    }
}

#[test]
fn random_calls_are_answered_as_by_the_lists(rt: HostRuntime) -> Result<(), Fail> {
    let alloc = rt.alloc();
    let mut table = LockTable::new(alloc);
    let mut lists = Lists::new(alloc);
    let mut number = 20_261_130;
    for _ in 0..3_000 {
        number = next_number(number);
        assert!(rt; step(alloc, &mut table, &mut lists, number)?);
        assert!(rt; are_alike(alloc, &table, &lists)?);
    }
    Ok(())
}
