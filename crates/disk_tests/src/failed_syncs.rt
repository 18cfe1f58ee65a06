//! A sync that fails, over a file that forgets what it did not write.
use crate::forgetful_file::ForgetfulFile;
use crate::random_runs::{Course, course_of, restarted};
use crate::shared::disk_of;
use disk_model::FileDisk;
use std::alloc::Global;
use std::test::Fail;

// Whether these are the bodies that were committed, or these with the one that was being committed.
fn are_kept(bodies: &[u8], course: &Course) -> bool {
    bodies == course.before.as_slice() || bodies == course.after.as_slice()
}

// Whether the sync of this number was made, and whether what a restart tells after it failed was
// acknowledged, and is there after a cut behind that restart.
fn survives(alloc: Global, seed: u64, fails: u64) -> Result<(bool, bool), Fail> {
    let mut disk = FileDisk::new(ForgetfulFile::new(alloc, fails));
    let course = course_of(alloc, &mut disk, seed, 6)?;
    if !disk.file().has_failed() {
        return Ok((false, course.before == course.after));
    }
    let told = restarted(alloc, &mut disk)?;
    let mut medium = disk_of(alloc, disk.file().medium(), None, &[])?;
    let left = restarted(alloc, &mut medium)?;
    let (Ok(told), Ok(left)) = (told, left) else {
        return Ok((true, false));
    };
    Ok((true, are_kept(&told, &course) && left == told))
}

#[test]
fn what_a_restart_tells_after_a_failed_sync_survives_a_cut(rt: HostRuntime) -> Result<(), Fail> {
    let alloc = rt.alloc();
    let mut failed = 0u32;
    for seed in 1..=3 {
        for fails in 1..=24 {
            let (has_failed, survives) = survives(alloc, seed, fails)?;
            assert!(rt; survives, "seed {seed} sync {fails}");
            failed = failed.saturating_add(u32::from(has_failed));
        }
    }
    assert!(rt; failed > 40, "{failed} syncs failed");
    Ok(())
}
