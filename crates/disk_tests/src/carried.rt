//! A commit and a checkpoint over a disk whose calls its owner carries out, one after another.
use crate::journals::{kept, run};
use crate::shared::{bytes_of, disk_of, sent};
use carried_disk::{CarriedCall, CarriedDisk};
use disk_model::Carried;
use std::alloc::Global;
use std::test::Fail;

// Of each call whether it is a sync, and how many changes a file has that carried it out: an opening
// of an empty file, a commit, a checkpoint.
const CALLS: &[(bool, u64)] = &[
    (false, 0),
    (true, 0),
    (false, 0),
    (true, 0),
    (false, 0),
    (true, 0),
    (false, 0),
    (true, 0),
    (false, 1),
    (true, 1),
    (false, 1),
    (false, 1),
    (true, 1),
    (false, 1),
    (true, 1),
    (false, 1),
    (true, 1),
];

// Writes over what is there, and past the end.
fn write(file: &mut Vec<u8>, at: usize, bytes: &[u8]) -> Result<(), Fail> {
    let Some(end) = at.checked_add(bytes.len()) else {
        return Ok(());
    };
    file.resize(file.len().max(end), 0)?;
    file[at..end].copy_from_slice(bytes);
    Ok(())
}

// Carries out the next call on a file, and answers whether it is a sync.
fn carry(disk: &mut CarriedDisk, file: &mut Vec<u8>) -> Result<Option<bool>, Fail> {
    let is_sync = match disk.next() {
        None => return Ok(None),
        Some(CarriedCall::Sync) => true,
        Some(CarriedCall::Write { at, bytes }) => {
            write(file, at as usize, bytes)?;
            false
        }
    };
    disk.done();
    Ok(Some(is_sync))
}

// Whether the calls are those of the table, and none more.
fn are_carried(alloc: Global, disk: &mut CarriedDisk, file: &mut Vec<u8>) -> Result<bool, Fail> {
    for (is_sync, changes) in CALLS {
        if disk.is_carried() || carry(disk, file)? != Some(*is_sync) {
            return Ok(false);
        }
        let mut left = disk_of(alloc, file, None, &[])?;
        if kept(alloc, &mut left) != Ok(*changes) {
            return Ok(false);
        }
    }
    Ok(disk.is_carried() && file.as_slice() == disk.bytes())
}

#[test]
fn a_file_that_carried_out_some_calls_has_the_change_or_has_it_not(
    rt: HostRuntime,
) -> Result<(), Fail> {
    let alloc = rt.alloc();
    let mut disk = CarriedDisk::new(alloc, Vec::new(alloc));
    assert!(rt; run(alloc, &mut disk, true) == Ok(false));
    let mut file = Vec::new(alloc);
    assert!(rt; are_carried(alloc, &mut disk, &mut file)?);
    assert!(rt; disk.next().is_none());
    Ok(())
}

#[test]
fn a_disk_in_memory_may_go_to_another_thread(rt: HostRuntime) -> Result<(), Fail> {
    let alloc = rt.alloc();
    let mut disk = sent(disk_of(alloc, b"ABC", None, &[])?);
    assert!(rt; bytes_of(alloc, &mut disk)?.as_slice() == b"ABC".as_slice());
    let disk = sent(CarriedDisk::new(alloc, Vec::from_slice(alloc, b"ABC")?));
    assert!(rt; disk.bytes() == b"ABC".as_slice());
    Ok(())
}
