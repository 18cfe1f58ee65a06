//! Commits of a journal over a file, and plain writes to one, each with its sync.
ghost use Rattle.std.specs.Prelude.{◌≡◌, ◌<◌, false, OnOk, IfOk, length};
ghost use Rattle.journal.specs.Journal.{IsAtRest};

use crate::watch::Watch;
use agent_base::Failed;
use disk_model::{Disk, FileDisk, SystemFile};
use journal::{Journal, OpenFault, Replay, ReplayFault};
use std::alloc::Global;
use std::fs::{File, OpenOptions};
use std::io;
use std::os::unix::fs::FileExt;

// SHA-256 of the empty list.
const DIGEST: [u8; 32] = [
    0xe3, 0xb0, 0xc4, 0x42, 0x98, 0xfc, 0x1c, 0x14, 0x9a, 0xfb, 0xf4, 0xc8, 0x99, 0x6f, 0xb9, 0x24,
    0x27, 0xae, 0x41, 0xe4, 0x64, 0x9b, 0x93, 0x4c, 0xa4, 0x95, 0x99, 0x1b, 0x78, 0x52, 0xb8, 0x55,
];

// Stands for one state, whatever comes. Each body is one change.
#[derive(Debug, Drop)]
struct AnyBody {
    frames: u64,
}

impl Replay for AnyBody {
    ghost use Rattle.std.specs.Prelude.{◌≡◌, ℕ};
    ghost use Rattle.std.proofs.Common.{inl, refl, sym, ◌∙◌};

    ghost State = { ℕ };

    ghost state = { λ r. 0 };

    ghost empty = { 0 };

    ghost Rules = { Unit {0} };

    ghost rules = { λ r. tt };

    ghost takes = { λ by s kind body t n. (t ≡ 0) × (n ≡ 1) };

    ghost refuses = { λ by s kind body o. ⊥ };

    ghost one_state = { λ by s kind body t u m n one two. one.0 ∙ sym two.0 };

    ghost one_count = { λ by s kind body t u m n one two. one.1 ∙ sym two.1 };

    ghost one_fault = { λ by s kind body o p one two. absurd one };

    ghost apart = { λ by s kind body t n o took refused. refused };

    ghost either = { λ by s kind body. inl (0, 1, (refl, refl)) };

    fn begin(&mut self) {
        self.frames = 0;
    }

    fn frame(&mut self, snapshot: bool, body: &[u8]) -> Result<u64, ReplayFault> {
        let _ = snapshot;
        let _ = body;
        self.frames = self.frames.wrapping_add(1);
        Ok(1)
    }
}

// An empty file, made anew.
fn new_file(rt: &HostRuntime, path: &str) -> io::Result<File> {
    OpenOptions::new()
        .read(true)
        .write(true)
        .create(true)
        .truncate(true)
        .open(rt, path)
}

fn body_of(alloc: Global, len: u32) -> io::Result<Vec<u8>> {
    let mut body = Vec::new(alloc);
    body.resize(len as usize, b'x')?;
    Ok(body)
}

// One commit, in room that it makes.
fn commit_one<D: Disk>(journal: &mut Journal, disk: &mut D, body: &[u8]) -> Result<(), Failed>
    requires usable { journal.old.shut ≡ false }
    requires at_rest { IsAtRest journal.old (D.view disk.old) }
    requires some { 0 < length body.now }
    ensures usable { OnOk result (journal.new.shut ≡ false) }
    ensures at_rest { OnOk result (IsAtRest journal.new (D.view disk.new)) }
{
    let Ok(()) = journal.reserve(disk, body.len()) else {
        return Err(Failed);
    };
    let Ok(()) = journal.commit(disk, body, 1) else {
        return Err(Failed);
    };
    Ok(())
}

// So many commits of one body.
fn commit_all<D: Disk>(
    journal: &mut Journal,
    disk: &mut D,
    body: &[u8],
    count: u32,
) -> Result<(), Failed>
    requires usable { journal.old.shut ≡ false }
    requires at_rest { IsAtRest journal.old (D.view disk.old) }
    requires some { 0 < length body.now }
{
    'commits: for _ in 0..count {
        commit_one(journal, disk, body)?;
    }
    Ok(())
}

// A store on an empty file.
fn new_store<D: Disk>(alloc: Global, disk: &mut D) -> Result<Journal, OpenFault>
    ensures usable { IfOk result (λ j. j.shut ≡ false) }
    ensures at_rest { IfOk result (λ j. IsAtRest j (D.view disk.new)) }
{
    let mut into = AnyBody { frames: 0 };
    Journal::open(alloc, disk, &DIGEST, false, &mut into)
}

fn failed() -> io::Error {
    io::ErrorKind::Other.into()
}

/// Makes a store on a file, and commits so many bodies of so many bytes, one at least.
pub fn run(rt: &HostRuntime, path: &str, count: u32, len: u32) -> io::Result<()> {
    let mut disk = FileDisk::new(SystemFile::new(new_file(rt, path)?));
    let body = body_of(rt.alloc(), len)?;
    if body.is_empty() {
        return Err(io::ErrorKind::InvalidInput.into());
    }
    let Ok(mut journal) = new_store(rt.alloc(), &mut disk) else {
        return Err(failed());
    };
    let watch = Watch::start(rt)?;
    let Ok(()) = commit_all(&mut journal, &mut disk, &body, count) else {
        return Err(failed());
    };
    watch.tell(rt, "commits", count)?;
    let Ok(bytes) = disk.len() else {
        return Err(failed());
    };
    println!(rt; "commits: {} changes, {bytes} bytes", journal.changes())?;
    Ok(())
}

// One write at the end and one sync, so many times.
fn write_all(file: &File, body: &[u8], count: u32) -> io::Result<u64> {
    let mut end: u64 = 0;
    for _ in 0..count {
        let n = file.write_at(body, end)?;
        file.sync_all()?;
        end = end.saturating_add(n as u64);
    }
    Ok(end)
}

/// Writes so many bodies of so many bytes behind one another, and syncs after each.
pub fn run_writes(rt: &HostRuntime, path: &str, count: u32, len: u32) -> io::Result<()> {
    let file = new_file(rt, path)?;
    let body = body_of(rt.alloc(), len)?;
    let watch = Watch::start(rt)?;
    let bytes = write_all(&file, &body, count)?;
    watch.tell(rt, "writes", count)?;
    println!(rt; "writes: {count} writes, {bytes} bytes")?;
    Ok(())
}
