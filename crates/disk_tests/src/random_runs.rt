//! Random commits and checkpoints with a cut in every call, and a store on a file of the system.
ghost use Rattle.std.specs.Prelude.{◌≡◌, ◌<◌, false, true, IfOk, length};
ghost use Rattle.journal.specs.Journal.{IsAtRest};

use crate::journals::{is_made, is_worked, kept};
use crate::shared::{Bodies, DIGEST, add, disk_of, new_file, path_of};
use disk_model::{Cut, Disk, FileDisk, SystemFile};
use journal::{Journal, OpenFault};
use std::alloc::Global;
use std::fs;
use std::test::Fail;

// The next of a row of numbers that the first one fixes.
fn next_number(number: u64) -> u64 {
    number
        .wrapping_mul(6_364_136_223_846_793_005)
        .wrapping_add(1_442_695_040_888_963_407)
}

// A body of 1 to 16 bytes.
fn body_of(alloc: Global, number: u64) -> Result<Vec<u8>, Fail>
    ensures { IfOk result (λ body. 0 < length body.items) }
{
    let bytes = number.to_le_bytes();
    let mut body = Vec::new(alloc);
    body.resize(1 + usize::from(bytes[7] % 16), bytes[4])?;
    Ok(body)
}

/// The bodies that were committed, and these with the one that was being committed.
#[derive(Debug, Drop)]
pub struct Course {
    pub before: Vec<u8>,
    pub after: Vec<u8>,
}

// One commit in three of four cases, and else a checkpoint.
fn step<D: Disk>(
    alloc: Global,
    journal: &mut Journal,
    disk: &mut D,
    number: u64,
    course: &mut Course,
) -> Result<bool, Fail>
    requires usable { journal.old.shut ≡ false }
    requires at_rest { IsAtRest journal.old (D.view disk.old) }
    ensures usable { IfOk result (λ more. more ≡ true → journal.new.shut ≡ false) }
    ensures at_rest { IfOk result (λ more. more ≡ true → IsAtRest journal.new (D.view disk.new)) }
{
    let is_snapshot = number.to_le_bytes()[6] % 4 == 0;
    let body = body_of(alloc, number)?;
    if is_snapshot {
        let Ok(()) = add(journal, disk, true, &course.before) else {
            return Ok(false);
        };
        return Ok(true);
    }
    course.after.extend_from_slice(&body)?;
    let Ok(()) = add(journal, disk, false, &body) else {
        return Ok(false);
    };
    course.before.extend_from_slice(&body)?;
    Ok(true)
}

/// So many steps on an empty file, until a call fails.
pub fn course_of<D: Disk>(
    alloc: Global,
    disk: &mut D,
    seed: u64,
    steps: u32,
) -> Result<Course, Fail> {
    let mut course = Course {
        before: Vec::new(alloc),
        after: Vec::new(alloc),
    };
    let mut into = Bodies::new(alloc);
    let Ok(mut journal) = Journal::open(alloc, disk, &DIGEST, false, &mut into) else {
        return Ok(course);
    };
    let mut number = seed;
    'steps: for _ in 0..steps {
        number = next_number(number);
        if !step(alloc, &mut journal, disk, number, &mut course)? {
            return Ok(course);
        }
    }
    Ok(course)
}

/// The bodies that the store has after a restart.
pub fn restarted<D: Disk>(alloc: Global, disk: &mut D) -> Result<Result<Vec<u8>, OpenFault>, Fail> {
    let mut into = Bodies::new(alloc);
    let Ok(()) = disk.restart() else {
        return Ok(Err(OpenFault::DeviceFault));
    };
    Ok(
        match Journal::open(alloc, disk, &DIGEST, false, &mut into) {
            Ok(_) => Ok(into.bytes),
            Err(fault) => Err(fault),
        },
    )
}

// Whether the cut came, and whether the bodies from before or from after are there then.
fn keeps(alloc: Global, seed: u64, cut: Cut) -> Result<(bool, bool), Fail> {
    let mut disk = disk_of(alloc, b"", Some(cut), &[])?;
    let course = course_of(alloc, &mut disk, seed, 12)?;
    if disk.changing_calls() < cut.call {
        return Ok((course.before == course.after, false));
    }
    let keeps = match restarted(alloc, &mut disk)? {
        Ok(bytes) => bytes == course.before || bytes == course.after,
        Err(_) => false,
    };
    Ok((keeps, true))
}

#[test]
fn a_cut_keeps_what_random_commits_acknowledged(rt: HostRuntime) -> Result<(), Fail> {
    let alloc = rt.alloc();
    let mut cuts = 0u32;
    for seed in 1..=6 {
        for call in 1..=91 {
            for pick in 0..4 {
                let (kept, is_cut) = keeps(alloc, seed, Cut { call, pick })?;
                assert!(rt; kept, "seed {seed} call {call} pick {pick}");
                cuts = cuts.saturating_add(u32::from(is_cut));
            }
        }
    }
    assert!(rt; cuts > 1000, "{cuts} cuts");
    Ok(())
}

#[test]
fn a_file_of_the_system_has_the_worked_store(rt: HostRuntime) -> Result<(), Fail> {
    let alloc = rt.alloc();
    let path = path_of(&rt, "journal")?;
    let mut disk = FileDisk::new(SystemFile::new(new_file(&rt, &path)?));
    let is_so = is_made(alloc, &mut disk, true, false);
    let found = fs::read(&rt, &path)?;
    let again = kept(alloc, &mut disk);
    fs::remove_file(&rt, &path)?;
    assert!(rt; is_so);
    assert!(rt; is_worked(alloc, &found)?);
    assert!(rt; again == Ok(1));
    Ok(())
}
