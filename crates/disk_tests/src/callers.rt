//! The caller that the README of `journal` shows.
use crate::shared::{Bodies, DIGEST, disk_of};
use disk_model::Disk;
use journal::{Journal, OpenFault};
use std::alloc::Global;
use std::test::Fail;

// The body of a note, which is one change.
const NOTE: [u8; 4] = *b"note";

// Adds a note to the store on a disk, and answers how many it has when it is opened again.
fn keep<D: Disk>(alloc: Global, disk: &mut D, notes: &mut Bodies) -> Result<u64, OpenFault> {
    let mut journal = Journal::open(alloc, disk, &DIGEST, true, notes)?;
    let Ok(()) = journal.reserve(disk, NOTE.len()) else {
        return Err(OpenFault::NoMemory);
    };
    let Ok(()) = journal.commit(disk, &NOTE, 1) else {
        return Err(OpenFault::DeviceFault);
    };
    let again = Journal::open(alloc, disk, &DIGEST, true, notes)?;
    Ok(again.changes())
}

#[test]
fn a_note_is_there_when_its_store_is_opened_again(rt: HostRuntime) -> Result<(), Fail> {
    let alloc = rt.alloc();
    let mut disk = disk_of(alloc, b"", None, &[])?;
    let mut notes = Bodies::new(alloc);
    assert!(rt; keep(alloc, &mut disk, &mut notes) == Ok(1));
    assert!(rt; keep(alloc, &mut disk, &mut notes) == Ok(2));
    assert!(rt; notes.bytes.as_slice() == b"notenote".as_slice());
    Ok(())
}
