//! Cuts in each device call, and the first fault of a store whose bytes were changed by hand.
ghost use Rattle.std.specs.Prelude.{◌≡◌, false};
ghost use Rattle.journal.specs.Journal.{IsAtRest};

use crate::shared::{Bodies, DIGEST, add, bytes_of, disk_of};
use agent_base::Failed;
use disk_model::{Cut, Disk};
use journal::{Journal, OpenFault};
use std::alloc::Global;
use std::test::Fail;

// The body of the worked store: one change that puts `v` under `k` in the area of `https://a.test`.
const BODY: [u8; 52] =
    *b"\x01\0\0\0\x01\x0e\0\0\0https://a.test\x0e\0\0\0https://a.test\0\x01\0\0\0k\x01\0\0\0v";

// Opens the store, and answers how many changes it has.
fn open_it<D: Disk>(alloc: Global, disk: &mut D) -> Result<u64, OpenFault> {
    let mut into = Bodies::new(alloc);
    let journal = Journal::open(alloc, disk, &DIGEST, true, &mut into)?;
    Ok(journal.changes())
}

/// Opens the store, commits the body once, and makes a checkpoint of it where it is asked to.
/// Answers whether the journal is shut, and a fault of its opening.
pub fn run<D: Disk>(alloc: Global, disk: &mut D, has_checkpoint: bool) -> Result<bool, OpenFault> {
    let mut into = Bodies::new(alloc);
    let mut journal = Journal::open(alloc, disk, &DIGEST, false, &mut into)?;
    let Ok(()) = journal.reserve(disk, BODY.len()) else {
        return Err(OpenFault::NoMemory);
    };
    let Ok(()) = journal.commit(disk, &BODY, 1) else {
        return Ok(journal.is_shut());
    };
    if !has_checkpoint {
        return Ok(journal.is_shut() || journal.since() != 1);
    }
    let Ok(()) = journal.reserve(disk, BODY.len()) else {
        return Err(OpenFault::NoMemory);
    };
    let Ok(()) = journal.checkpoint(disk, &DIGEST, &BODY[4..]) else {
        return Ok(journal.is_shut());
    };
    Ok(journal.is_shut() || journal.since() != 0)
}

/// How many changes the store has after a restart.
pub fn kept<D: Disk>(alloc: Global, disk: &mut D) -> Result<u64, OpenFault> {
    let Ok(()) = disk.restart() else {
        return Err(OpenFault::DeviceFault);
    };
    open_it(alloc, disk)
}

// Runs on an empty file with a cut in this call: whether the fault showed, and what is kept.
fn cut_run(alloc: Global, cut: Cut) -> Result<(bool, Result<u64, OpenFault>), Fail> {
    let mut disk = disk_of(alloc, b"", Some(cut), &[])?;
    let shows = match run(alloc, &mut disk, true) {
        Ok(is_shut) => is_shut,
        Err(fault) => fault == OpenFault::DeviceFault,
    };
    Ok((shows, kept(alloc, &mut disk)))
}

// The first and the last of calls, and how many changes are kept where one of them is cut: by pick
// 0, and by the others.
const CUTS: &[(u64, u64, u64, u64)] = &[(1, 9, 0, 0), (10, 11, 0, 1), (12, 18, 1, 1)];

// Whether a cut shows and keeps so many changes.
fn is_kept(alloc: Global, call: u64, pick: u8, want: u64) -> Result<bool, Fail> {
    let (shows, found) = cut_run(alloc, Cut { call, pick })?;
    Ok(shows && found == Ok(want))
}

// Whether each pick keeps what it has to where this call is cut.
fn are_kept(alloc: Global, call: u64, pick_0: u64, others: u64) -> Result<bool, Fail> {
    Ok(
        is_kept(alloc, call, 0, pick_0)?
            && is_kept(alloc, call, 1, others)?
            && is_kept(alloc, call, 2, others)?
            && is_kept(alloc, call, 3, others)?,
    )
}

#[test]
fn a_cut_in_any_call_keeps_what_was_acknowledged(rt: HostRuntime) -> Result<(), Fail> {
    let alloc = rt.alloc();
    for (first, last, pick_0, others) in CUTS {
        for call in *first..=*last {
            assert!(rt; are_kept(alloc, call, *pick_0, *others)?, "call {call}");
        }
    }
    Ok(())
}

/// Whether the file is opened, or a run on it succeeds.
pub fn is_made<D: Disk>(alloc: Global, disk: &mut D, commits: bool, has_checkpoint: bool) -> bool {
    if commits {
        return run(alloc, disk, has_checkpoint) == Ok(false);
    }
    open_it(alloc, disk) == Ok(0)
}

// The calls and the bytes after a run on a file of so many zeros.
fn counts(
    alloc: Global,
    zeros: usize,
    commits: bool,
    has_checkpoint: bool,
) -> Result<(u64, usize), Fail> {
    let file = vec![in alloc; 0; zeros]?;
    let mut disk = disk_of(alloc, &file, None, &[])?;
    if !is_made(alloc, &mut disk, commits, has_checkpoint) {
        return Ok((0, 0));
    }
    let bytes = bytes_of(alloc, &mut disk)?;
    Ok((disk.changing_calls(), bytes.len()))
}

// The zeros that a file has, whether a body is committed and a checkpoint made, and how many calls
// change it and bytes are there then.
type Count = (usize, bool, bool, u64, usize);

const COUNTS: &[Count] = &[
    (0, false, false, 7, 129),
    (1, false, false, 7, 129),
    (129, false, false, 5, 129),
    (300, false, false, 5, 300),
    (0, true, false, 11, 199),
    (0, true, true, 18, 298),
];

fn is_counted(
    alloc: Global,
    (zeros, commits, has_checkpoint, calls, bytes): Count,
) -> Result<bool, Fail> {
    Ok(counts(alloc, zeros, commits, has_checkpoint)? == (calls, bytes))
}

#[test]
fn calls_and_bytes_are_counted(rt: HostRuntime) -> Result<(), Fail> {
    let alloc = rt.alloc();
    for (place, count) in COUNTS.iter().enumerate() {
        assert!(rt; is_counted(alloc, *count)?, "file {place}");
    }
    Ok(())
}

// So many checkpoints in a row.
fn checkpoints<D: Disk>(
    journal: &mut Journal,
    disk: &mut D,
    body: &[u8],
    count: u32,
) -> Result<(), Failed>
    requires usable { journal.old.shut ≡ false }
    requires at_rest { IsAtRest journal.old (D.view disk.old) }
{
    'snapshots: for _ in 0..count {
        add(journal, disk, true, body)?;
    }
    Ok(())
}

// Whether a new store takes one commit of its body, and then so many checkpoints of another.
fn is_filled<D: Disk>(alloc: Global, disk: &mut D, body: &[u8], count: u32) -> bool {
    let mut into = Bodies::new(alloc);
    let Ok(mut journal) = Journal::open(alloc, disk, &DIGEST, false, &mut into) else {
        return false;
    };
    let Ok(()) = add(&mut journal, disk, false, &BODY) else {
        return false;
    };
    checkpoints(&mut journal, disk, body, count).is_ok()
}

// How long the file is then, where the checkpoints have so many bytes.
fn length_after(alloc: Global, count: u32, bytes: usize) -> Result<usize, Fail> {
    let mut disk = disk_of(alloc, b"", None, &[])?;
    let body = vec![in alloc; b'x'; bytes]?;
    if !is_filled(alloc, &mut disk, &body, count) {
        return Ok(0);
    }
    Ok(bytes_of(alloc, &mut disk)?.len())
}

// How many checkpoints of how many bytes are made, and how long the file is then. The live region
// begins at 128 first, and behind the first commit at 199. A snapshot of 20 bytes with its digest and
// both gates has 71 and fits just between them, and one of 21 does not.
const LENGTHS: &[(u32, usize, usize)] = &[
    (0, 0, 199),
    (1, 20, 270),
    (2, 20, 270),
    (1, 21, 271),
    (2, 21, 343),
    (3, 21, 343),
    (40, 16, 266),
    (40, 48, 397),
];

#[test]
fn checkpoints_take_back_room(rt: HostRuntime) -> Result<(), Fail> {
    let alloc = rt.alloc();
    for (count, bytes, want) in LENGTHS {
        let found = length_after(alloc, *count, *bytes)?;
        assert!(rt; found == *want, "{count} checkpoints of {bytes} bytes");
    }
    Ok(())
}

// Whether a run in which the ninth call fails, the power staying on, shuts the journal and keeps no
// change.
fn failing_run_is_shut(alloc: Global) -> Result<bool, Fail> {
    let mut disk = disk_of(alloc, b"", None, &[9])?;
    let is_shut = run(alloc, &mut disk, false) == Ok(true);
    Ok(is_shut && kept(alloc, &mut disk) == Ok(0))
}

#[test]
fn a_call_that_fails_shuts_the_journal(rt: HostRuntime) -> Result<(), Fail> {
    assert!(rt; failing_run_is_shut(rt.alloc())?);
    Ok(())
}

// The worked store: one commit of the body to a new store.
fn worked(alloc: Global) -> Result<Vec<u8>, Fail> {
    let mut file = Vec::new(alloc);
    file.extend_from_slice(b"\x01PBSTORE\x02\0\0\0")?;
    file.extend_from_slice(&DIGEST)?;
    file.extend_from_slice(b"\x01\x01\0\0\0\0\0\0\0\x80\0\0\0\0\0\0\0")?;
    file.resize(128, 0)?;
    file.extend_from_slice(b"\x01\x01\x01\0\0\0\0\0\0\0\x34\0\0\0\0\0\0\0")?;
    file.extend_from_slice(&BODY)?;
    file.push(0)?;
    Ok(file)
}

// The bytes of a new store after one commit.
fn committed(alloc: Global) -> Result<Vec<u8>, Fail> {
    let mut disk = disk_of(alloc, b"", None, &[])?;
    if !is_made(alloc, &mut disk, true, false) {
        return Ok(Vec::new(alloc));
    }
    bytes_of(alloc, &mut disk)
}

/// Whether these are the bytes of the worked store.
pub fn is_worked(alloc: Global, bytes: &[u8]) -> Result<bool, Fail> {
    Ok(worked(alloc)?.as_slice() == bytes)
}

#[test]
fn a_commit_writes_the_worked_store(rt: HostRuntime) -> Result<(), Fail> {
    let alloc = rt.alloc();
    let found = committed(alloc)?;
    assert!(rt; is_worked(alloc, &found)?);
    Ok(())
}

// The worked store with another byte in the place of its version.
fn worked_of(alloc: Global, version: u8) -> Result<Vec<u8>, Fail> {
    let mut file = worked(alloc)?;
    if let Some(byte) = file.get_mut(8) {
        *byte = version;
    }
    Ok(file)
}

// What the opening of the worked store answers, with its version, cut to a length and with one byte
// changed.
fn answer(alloc: Global, version: u8, len: usize, at: usize, byte: u8) -> Result<String, Fail> {
    let mut file = worked_of(alloc, version)?;
    file.truncate(len);
    if at < file.len() {
        file[at] = byte;
    }
    let mut disk = disk_of(alloc, &file, None, &[])?;
    Ok(match open_it(alloc, &mut disk) {
        Ok(changes) => format!(in alloc; "{changes}")?,
        Err(fault) => format!(in alloc; "{fault}")?,
    })
}

// The version of the worked store, to how many bytes it is cut, which byte is changed to what, and
// what its opening answers.
const FAULTS: &[(u8, usize, usize, u8, &str)] = &[
    (2, 199, 0, 0, "0"),
    (2, 199, 0, 0xa5, "1"),
    (2, 199, 1, 0, "store: not a store at 1"),
    (1, 199, 0, 1, "1"),
    (2, 199, 8, 0xa5, "1"),
    (2, 199, 9, 1, "store: not a store at 8"),
    (1, 199, 11, 1, "store: not a store at 8"),
    (2, 199, 44, 0, "store: not a store at 44"),
    (2, 199, 45, 2, "1"),
    (2, 199, 53, 127, "store: not a store at 53"),
    (2, 199, 53, 199, "store: not a store at 53"),
    (2, 199, 61, 0xa5, "1"),
    (2, 199, 78, 1, "store: not a store at 78"),
    (2, 199, 128, 0, "0"),
    (2, 199, 128, 0xa5, "1"),
    (1, 199, 129, 2, "1"),
    (2, 199, 129, 2, "1"),
    (1, 199, 129, 3, "store: not a store at 129"),
    (2, 199, 129, 4, "store: not a store at 129"),
    (2, 199, 130, 2, "store: not a store at 130"),
    (2, 199, 138, 0, "store: not a store at 138"),
    (2, 199, 138, 53, "store: not a store at 199"),
    (2, 199, 138, 54, "store: not a store at 128"),
    (2, 199, 145, 0x80, "store: not a store at 128"),
    (2, 199, 198, 1, "store: not a store at 198"),
    (2, 1, 0, 1, "0"),
    (2, 128, 0, 1, "store: not a store at 0"),
    (2, 198, 0, 1, "store: not a store at 198"),
    // Another list, in the head and in a snapshot.
    (2, 199, 12, 0, "1"),
    (2, 199, 129, 3, "1"),
];

fn is_answer(
    alloc: Global,
    version: u8,
    len: usize,
    at: usize,
    byte: u8,
    want: &str,
) -> Result<bool, Fail> {
    Ok(answer(alloc, version, len, at, byte)?.as_str() == want)
}

#[test]
fn the_first_fault_has_its_offset(rt: HostRuntime) -> Result<(), Fail> {
    let alloc = rt.alloc();
    for (version, len, at, byte, want) in FAULTS {
        let found = is_answer(alloc, *version, *len, *at, *byte, want)?;
        assert!(rt; found, "version {version}, byte {at} of {len} is {byte}");
    }
    Ok(())
}

// The digest of the list that is told of a file, where that of the empty list is given.
fn list_of<D: Disk>(alloc: Global, disk: &mut D) -> Option<[u8; 32]> {
    let mut into = Bodies::new(alloc);
    match Journal::open(alloc, disk, &DIGEST, true, &mut into) {
        Ok(journal) => Some(*journal.digest()),
        Err(_) => None,
    }
}

// The digest of the list that is told of the worked store, with its version, cut to a length and
// with one byte changed.
fn list_told(
    alloc: Global,
    version: u8,
    len: usize,
    at: usize,
    byte: u8,
) -> Result<Option<[u8; 32]>, Fail> {
    let mut file = worked_of(alloc, version)?;
    file.truncate(len);
    if at < file.len() {
        file[at] = byte;
    }
    let mut disk = disk_of(alloc, &file, None, &[])?;
    Ok(list_of(alloc, &mut disk))
}

// The digest of the empty list with 0 in the place of its first byte: that of another list.
fn other_digest() -> [u8; 32] {
    let mut other = DIGEST;
    other[0] = 0;
    other
}

#[test]
fn a_store_opens_under_its_own_list(rt: HostRuntime) -> Result<(), Fail> {
    let alloc = rt.alloc();
    assert!(rt; list_told(alloc, 2, 199, 12, 0xe3)? == Some(DIGEST));
    assert!(rt; list_told(alloc, 1, 199, 12, 0)? == Some(other_digest()));
    assert!(rt; list_told(alloc, 2, 199, 12, 0)? == Some(other_digest()));
    // A snapshot that names a list: the first 32 bytes of the body.
    let named = *b"\x01\0\0\0\x01\x0e\0\0\0https://a.test\x0e\0\0\0https";
    assert!(rt; list_told(alloc, 2, 199, 129, 3)? == Some(named));
    // An unborn file becomes a store under the list that is given, whatever stood in its head.
    assert!(rt; list_told(alloc, 2, 1, 0, 1)? == Some(DIGEST));
    Ok(())
}

// Opens the worked store as one under another list, and puts a snapshot under the empty list in the
// place of its frames, with a cut in this call. The list that is told after a restart.
fn list_after(alloc: Global, cut: Cut) -> Result<Option<[u8; 32]>, Fail> {
    let mut file = worked(alloc)?;
    if let Some(byte) = file.get_mut(12) {
        *byte = 0;
    }
    let mut disk = disk_of(alloc, &file, Some(cut), &[])?;
    let mut into = Bodies::new(alloc);
    if let Ok(mut journal) = Journal::open(alloc, &mut disk, &DIGEST, true, &mut into) {
        let _ = add(&mut journal, &mut disk, true, &BODY[4..]);
    }
    let Ok(()) = disk.restart() else {
        return Ok(None);
    };
    Ok(list_of(alloc, &mut disk))
}

// Whether a cut in this call leaves the store under the other list, or under the empty one.
fn is_under(alloc: Global, call: u64, pick: u8, is_new: bool) -> Result<bool, Fail> {
    let want = if is_new { DIGEST } else { other_digest() };
    Ok(list_after(alloc, Cut { call, pick })? == Some(want))
}

#[test]
fn a_cut_leaves_the_old_list_or_the_new_one(rt: HostRuntime) -> Result<(), Fail> {
    let alloc = rt.alloc();
    for call in 1..9_u64 {
        for pick in 0..4_u8 {
            let is_new = call > 6 && pick > 0;
            assert!(rt;
                is_under(alloc, call, pick, is_new)?,
                "call {call}, pick {pick}"
            );
        }
    }
    Ok(())
}

// How many changing calls the opening of the worked store makes with this version, and which version
// it leaves.
fn calls_and_version(alloc: Global, version: u8) -> Result<(u64, u8), Fail> {
    let file = worked_of(alloc, version)?;
    let mut disk = disk_of(alloc, &file, None, &[])?;
    if open_it(alloc, &mut disk) != Ok(1) {
        return Ok((0, 0));
    }
    let bytes = bytes_of(alloc, &mut disk)?;
    if bytes.len() < 9 {
        return Ok((0, 0));
    }
    Ok((disk.changing_calls(), bytes[8]))
}

#[test]
fn an_opening_leaves_version_1(rt: HostRuntime) -> Result<(), Fail> {
    let alloc = rt.alloc();
    assert!(rt; calls_and_version(alloc, 1)? == (3, 2));
    assert!(rt; calls_and_version(alloc, 2)? == (1, 2));
    assert!(rt; calls_and_version(alloc, 0xa5)? == (1, 0xa5));
    Ok(())
}

const REFUSALS: &[(OpenFault, &str)] = &[
    (
        OpenFault::TooLarge(1_073_741_825),
        "store: too large: 1073741825",
    ),
    (OpenFault::DeviceFault, "device fault"),
    (OpenFault::NoMemory, "no memory"),
];

fn has_text(alloc: Global, fault: OpenFault, text: &str) -> Result<bool, Fail> {
    Ok(format!(in alloc; "{fault}")?.as_str() == text)
}

#[test]
fn refusals_have_their_texts(rt: HostRuntime) -> Result<(), Fail> {
    let alloc = rt.alloc();
    for (fault, text) in REFUSALS {
        assert!(rt; has_text(alloc, *fault, text)?, "{text}");
    }
    Ok(())
}
