//! What a restart leaves after each pick, and a disk over a file of the system.
use crate::part_file::PartFile;
use crate::shared::{bytes_of, disk_of, new_file, path_of, put};
use disk_model::{Cut, Disk, FileDisk, SystemFile};
use std::alloc::Global;
use std::fs::{self, File, OpenOptions};
use std::test::Fail;

// The bytes after a restart.
fn restarted<D: Disk>(alloc: Global, disk: &mut D) -> Result<Vec<u8>, Fail> {
    let Ok(()) = disk.restart() else {
        return Ok(Vec::new(alloc));
    };
    bytes_of(alloc, disk)
}

// Whether these are the bytes after a restart.
fn has_restarted<D: Disk>(alloc: Global, disk: &mut D, want: &[u8]) -> Result<bool, Fail> {
    Ok(restarted(alloc, disk)?.as_slice() == want)
}

// Whether each call fails.
fn is_off<D: Disk>(disk: &mut D) -> bool {
    disk.len().is_err() && disk.sync().is_err()
}

// Behind synced bytes `XYZ` and `FGHI` are written, and the sync is to be cut: whether it was, and
// each call fails from then on.
fn is_cut<D: Disk>(disk: &mut D) -> bool {
    put(disk, 2, b"XYZ") && put(disk, 5, b"FGHI") && disk.sync().is_err() && is_off(disk)
}

// What a cut of the third changing call leaves, at a restart or where the disk is taken up again.
fn left(alloc: Global, pick: u8, anew: bool) -> Result<Vec<u8>, Fail> {
    let cut = Cut { call: 3, pick };
    let mut disk = disk_of(alloc, b"abcd", Some(cut), &[])?;
    if !is_cut(&mut disk) || disk.changing_calls() != 3 {
        return Ok(Vec::new(alloc));
    }
    if anew {
        return bytes_of(alloc, &mut disk.reopen());
    }
    restarted(alloc, &mut disk)
}

// A pick, and the bytes that it leaves.
const PICKS: &[(u8, &[u8])] = &[
    (0, b"abcd"),
    (1, b"abXYZFGHI"),
    (2, b"ab\xa5\xa5\xa5\xa5\xa5\xa5\xa5"),
    (3, b"abXY\0FG"),
];

fn is_left(alloc: Global, pick: u8, anew: bool, want: &[u8]) -> Result<bool, Fail> {
    Ok(left(alloc, pick, anew)?.as_slice() == want)
}

#[test]
fn a_restart_leaves_what_the_pick_says(rt: HostRuntime) -> Result<(), Fail> {
    let alloc = rt.alloc();
    for (pick, want) in PICKS {
        assert!(rt; is_left(alloc, *pick, false, want)?, "pick {pick}");
        assert!(rt; is_left(alloc, *pick, true, want)?, "pick {pick} anew");
    }
    Ok(())
}

// Whether the first and the third changing call fail, and those between and behind them do not.
fn fails_twice<D: Disk>(disk: &mut D) -> bool {
    !put(disk, 2, b"XYZ") && disk.sync().is_ok() && disk.sync().is_err() && disk.sync().is_ok()
}

// Whether two calls fail, and what is written and synced is there after a restart.
fn power_stays_on(alloc: Global) -> Result<bool, Fail> {
    let mut disk = disk_of(alloc, b"abcd", None, &[1, 3])?;
    Ok(fails_twice(&mut disk) && has_restarted(alloc, &mut disk, b"abXYZ")?)
}

#[test]
fn a_call_that_fails_leaves_the_power_on(rt: HostRuntime) -> Result<(), Fail> {
    assert!(rt; power_stays_on(rt.alloc())?);
    Ok(())
}

// Writes `abXYZ` in two parts.
fn is_written<D: Disk>(disk: &mut D) -> bool {
    put(disk, 0, b"abcd") && put(disk, 2, b"XYZ") && disk.sync().is_ok()
}

// Whether a file takes these bytes, keeps them, and gives none behind its end.
fn file_keeps(alloc: Global, file: File) -> Result<bool, Fail> {
    let mut disk = FileDisk::new(SystemFile::new(file));
    let kept = is_written(&mut disk) && has_restarted(alloc, &mut disk, b"abXYZ")?;
    Ok(kept && disk.read_at(4, &mut [0; 2]).is_err())
}

// Whether a file that is read alone has these bytes, takes none, not at a restart either, and has
// them still.
fn is_read_alone(alloc: Global, file: File) -> Result<bool, Fail> {
    let mut disk = FileDisk::new(SystemFile::new(file));
    let refused = disk.len() == Ok(5) && disk.write_at(0, b"abc").is_err();
    let is_down = refused && disk.restart().is_err();
    Ok(is_down && bytes_of(alloc, &mut disk)?.as_slice() == b"abXYZ".as_slice())
}

#[test]
fn a_file_keeps_what_was_written(rt: HostRuntime) -> Result<(), Fail> {
    let alloc = rt.alloc();
    let path = path_of(&rt, "file_disk")?;
    assert!(rt; file_keeps(alloc, new_file(&rt, &path)?)?);
    let file = OpenOptions::new().read(true).open(&rt, &path)?;
    assert!(rt; is_read_alone(alloc, file)?);
    fs::remove_file(&rt, &path)?;
    Ok(())
}

#[test]
fn a_full_device_is_a_fault(rt: HostRuntime) -> Result<(), Fail> {
    let full = OpenOptions::new().write(true).open(&rt, "/dev/full")?;
    let mut disk = FileDisk::new(SystemFile::new(full));
    assert!(rt; disk.write_at(0, b"abc").is_err());
    Ok(())
}

// How many bytes a piece has at most, the number of the call that fails, whether the write is done,
// the bytes that are read, and whether the read is done.
type Pieces = (usize, u64, bool, &'static [u8], bool);

// The write of seven bytes takes calls 1 to 3 by pieces of three, and the read of eight calls 4 to
// 6.
const PIECES: &[Pieces] = &[
    (8, 0, true, b"aBCDEFGH", true),
    (3, 0, true, b"aBCDEFGH", true),
    (1, 0, true, b"aBCDEFGH", true),
    (3, 1, false, b"ab\0\0\0\0\0\0", false),
    (3, 2, false, b"aBCD\0\0\0\0", false),
    (3, 5, true, b"aBC\0\0\0\0\0", false),
];

// Whether a write of seven bytes behind `ab` and a read of all are done so.
fn are_joined(
    alloc: Global,
    (most, fails, is_written, want, is_read): Pieces,
) -> Result<bool, Fail> {
    let mut disk = FileDisk::new(PartFile::new(alloc, b"ab", most, fails)?);
    let mut bytes = [0; 8];
    let written = disk.write_at(1, b"BCDEFGH").is_ok() == is_written;
    let read = disk.read_at(0, &mut bytes).is_ok() == is_read;
    Ok(written && read && bytes.as_slice() == want)
}

#[test]
fn pieces_are_joined_and_faults_are_told(rt: HostRuntime) -> Result<(), Fail> {
    let alloc = rt.alloc();
    for case in PIECES {
        let found = are_joined(alloc, *case)?;
        assert!(rt; found, "pieces of {}, call {} fails", case.0, case.1);
    }
    Ok(())
}
