//! What the tests of disks and of journals share.
ghost use Rattle.std.specs.Prelude.{◌≡◌, ◌<◌, false, OnOk, length};
ghost use Rattle.journal.specs.Journal.{IsAtRest};

use agent_base::Failed;
use disk_model::{Cut, Disk, MemDisk};
use journal::{Journal, Replay, ReplayFault};
use std::alloc::Global;
use std::fs::{File, OpenOptions};
use std::path::{AsPath, PathBuf};
use std::test::Fail;
use std::{env, io, process};

/// SHA-256 of the empty list.
pub const DIGEST: [u8; 32] = [
    0xe3, 0xb0, 0xc4, 0x42, 0x98, 0xfc, 0x1c, 0x14, 0x9a, 0xfb, 0xf4, 0xc8, 0x99, 0x6f, 0xb9, 0x24,
    0x27, 0xae, 0x41, 0xe4, 0x64, 0x9b, 0x93, 0x4c, 0xa4, 0x95, 0x99, 0x1b, 0x78, 0x52, 0xb8, 0x55,
];

/// A disk of these bytes, with one cut and the numbers of calls that fail.
pub fn disk_of(
    alloc: Global,
    bytes: &[u8],
    cut: Option<Cut>,
    fails: &[u64],
) -> Result<MemDisk, Fail> {
    let contents = Vec::from_slice(alloc, bytes)?;
    let fails = Vec::from_slice(alloc, fails)?;
    let mut cuts = Vec::new(alloc);
    if let Some(cut) = cut {
        if cut.call > 0 && cut.pick < 4 {
            cuts.push(cut)?;
        }
    }
    Ok(MemDisk::new(alloc, contents, cuts, fails))
}

/// All bytes of a disk.
pub fn bytes_of<D: Disk>(alloc: Global, disk: &mut D) -> Result<Vec<u8>, Fail> {
    let mut bytes = Vec::new(alloc);
    let Ok(len) = disk.len() else {
        return Ok(bytes);
    };
    bytes.resize(len as usize, 0)?;
    let _ = disk.read_at(0, &mut bytes);
    Ok(bytes)
}

/// Writes where the place is within the file or at its end, in room that it makes.
pub fn put<D: Disk>(disk: &mut D, at: u64, bytes: &[u8]) -> bool {
    let Some(end) = at.checked_add(bytes.len() as u64) else {
        return false;
    };
    let Ok(()) = disk.reserve(end, 1) else {
        return false;
    };
    let Ok(len) = disk.len() else {
        return false;
    };
    at <= len && disk.write_at(at, bytes).is_ok()
}

/// Where a test keeps a file, apart from those of other processes.
pub fn path_of(rt: &HostRuntime, name: &str) -> Result<PathBuf, Fail> {
    let alloc = rt.alloc();
    let name = format!(in alloc; "cuvandil_{name}_{}", process::id(rt.process()))?;
    Ok(env::temp_dir(rt)?.join(alloc, name.as_str())?)
}

/// An empty file, made anew.
pub fn new_file<P: AsPath>(rt: &HostRuntime, path: P) -> io::Result<File> {
    OpenOptions::new()
        .read(true)
        .write(true)
        .create(true)
        .truncate(true)
        .open(rt, path)
}

/// The bodies of the changes behind one another. Contracts see one state, whatever comes.
#[derive(Debug, Drop)]
pub struct Bodies {
    pub bytes: Vec<u8>,
}

impl Bodies {
    pub fn new(alloc: Global) -> Bodies {
        Bodies {
            bytes: Vec::new(alloc),
        }
    }
}

impl Replay for Bodies {
    ghost use Rattle.std.specs.Prelude.{◌≡◌, ℕ};
    ghost use Rattle.std.proofs.Common.{inl, refl, sym, ◌∙◌};

    ghost State = { ℕ };

    ghost state = { λ r. 0 };

    ghost empty = { 0 };

    ghost Rules = { Unit {0} };

    ghost rules = { λ r. tt };

    ghost takes = { λ by s kind body t n. (t ≡ 0) × (n ≡ 1) };

    ghost refuses = { λ by s kind body o. ⊥ };

    ghost one_state = { λ by s kind body t u m n one two. one.0 ∙ sym two.0 };

    ghost one_count = { λ by s kind body t u m n one two. one.1 ∙ sym two.1 };

    ghost one_fault = { λ by s kind body o p one two. absurd one };

    ghost apart = { λ by s kind body t n o took refused. refused };

    ghost either = { λ by s kind body. inl (0, 1, (refl, refl)) };

    fn begin(&mut self) {
        self.bytes.clear();
    }

    fn frame(&mut self, snapshot: bool, body: &[u8]) -> Result<u64, ReplayFault> {
        if snapshot {
            self.bytes.clear();
        }
        let Ok(()) = self.bytes.extend_from_slice(body) else {
            return Err(ReplayFault::NoMemory);
        };
        Ok(1)
    }
}

/// A commit or a checkpoint of this body, in room that it makes.
pub fn add<D: Disk>(
    journal: &mut Journal,
    disk: &mut D,
    is_snapshot: bool,
    body: &[u8],
) -> Result<(), Failed>
    requires usable { journal.old.shut ≡ false }
    requires at_rest { IsAtRest journal.old (D.view disk.old) }
    requires some { is_snapshot ≡ false → 0 < length body.now }
    ensures usable { OnOk result (journal.new.shut ≡ false) }
    ensures at_rest { OnOk result (IsAtRest journal.new (D.view disk.new)) }
{
    let Ok(()) = journal.reserve(disk, body.len()) else {
        return Err(Failed);
    };
    let done = if is_snapshot {
        journal.checkpoint(disk, &DIGEST, body)
    } else {
        journal.commit(disk, body, 1)
    };
    let Ok(()) = done else {
        return Err(Failed);
    };
    Ok(())
}

/// A value that may go to another thread.
pub fn sent<T: Send>(value: T) -> T
    ensures { result ≡ value }
{
    value
}
