//! The host of the program: the files of the system.
ghost use Rattle.std.specs.Prelude.{◌≡◌, ◌+◌, Err, IfOk, IfSome, MatchResult, None, OnErr, Some};
ghost use Rattle.std.specs.Prelude.{false, option_map};
ghost use Rattle.agent_base.specs.Counts.{next_count};
ghost use Rattle.hosts.specs.Hosts.{HasOpenCause, HasStoreCause};

use crate::Host;
use crate::host::count_up;
use crate::store_fault::StoreFault;
use agent_base::{Fault, ReadSource};
use arrayvec::ArrayString;
use disk_model::{FileDisk, SystemFile};
use std::fs::{File, Files, OpenOptions, TryLockError};
use std::io;
use std::path::{AsPath, Path};

// The longest path of a store, in bytes. The system takes none that is longer.
const LONGEST_PATH: usize = 4096;

/// The files of the system. It tells nothing of what they hold.
#[derive(Drop)]
pub struct RealHost<R: Files<File = File> + Drop> {
    files: R,
    lists_out: u64,
    store_out: Option<ArrayString<LONGEST_PATH>>,
    faults: u64,
    reads: u64,
    store_faults: u64,
}

impl<R: Files<File = File> + Drop> RealHost<R> {
    /// A host over these files.
    pub fn new(files: R) -> RealHost<R>
        ensures out { (result.lists_out ≡ 0) × (result.store_out ≡ None) }
        ensures faults { (result.faults ≡ 0) × (result.reads ≡ 0) × (result.store_faults ≡ 0) }
    {
        RealHost {
            files,
            lists_out: 0,
            store_out: None,
            faults: 0,
            reads: 0,
            store_faults: 0,
        }
    }

    // Counts an opening that failed.
    fn count_fault(&mut self)
        ensures counted { self.new ≡ record self.old { faults = next_count self.old.faults } }
    {
        self.faults = self.faults.saturating_add(1);
    }
}

// The name of a path, where it is no longer than the system's longest.
fn name_of(path: &str) -> Option<ArrayString<LONGEST_PATH>>
    ensures { IfSome result (λ name. name.bytes ≡ path.now) }
{
    let mut name = ArrayString::new();
    match name.try_push_str(path) {
        Ok(()) => Some(name),
        Err(_) => None,
    }
}

// The folder that a path stands in.
fn folder_of(path: &str) -> Path<'_> {
    match Path::new(path).parent() {
        Some(folder) if !folder.path_text().is_empty() => folder,
        _ => Path::new("."),
    }
}

// Opens the file of a store for this process alone, and makes it where there is none. Nothing is
// opened where another opening has it. Where it has no bytes its folder is synced, so that a cut
// does not take the name of what is written to it.
fn open_alone<R: Files<File = File>>(files: &R, path: &str) -> io::Result<Option<File>> {
    let mut how = OpenOptions::new();
    how.read(true).write(true).create(true);
    let file = how.open(files, path)?;
    match file.try_lock() {
        Ok(()) => {}
        Err(TryLockError::WouldBlock) => return Ok(None),
        Err(TryLockError::Error(why)) => return Err(why),
    }
    if file.metadata()?.len() == 0 {
        File::open(files, folder_of(path))?.sync_all()?;
    }
    Ok(Some(file))
}

impl<R: Files<File = File> + Drop> Host for RealHost<R> {
    type List = ReadSource<File>;

    type Store = FileDisk<SystemFile>;

    ghost lists = { λ _ _. None };

    ghost lists_out = { λ h. h.lists_out };

    ghost faults = { λ h. h.faults };

    ghost reads = { λ h. h.reads };

    ghost store_faults = { λ h. h.store_faults };

    ghost tells_stores = { λ _. false };

    ghost stores = { λ _ _ _. ⊥ };

    ghost store_out = { λ h. option_map (λ name. name.bytes) h.store_out };

    // The trait's clauses on counts, for it tells no bytes, and after them that a file which is not
    // opened is a failure, never want of memory. A host that has as many lists out as it can count
    // opens no other.
    fn open_list(&mut self, path: &str) -> Result<ReadSource<File>, Fault>
        ensures fresh { IfOk result (λ list. list.faults ≡ 0) }
        ensures cause { HasOpenCause self.old.faults self.new.faults result }
        ensures unread { self.new.reads ≡ self.old.reads }
        ensures store_faults { self.new.store_faults ≡ self.old.store_faults }
        ensures out { MatchResult result (λ _. self.new.lists_out ≡ self.old.lists_out + 1)
            (λ _. self.new.lists_out ≡ self.old.lists_out) }
        ensures store_out { self.new.store_out ≡ self.old.store_out }
        ensures no_memory { result ≡ Err Fault.NoMemory → ⊥ }
        ensures count { OnErr result (self.new.faults ≡ next_count self.old.faults) }
    {
        if self.lists_out < u64::MAX
            && let Ok(file) = File::open(&self.files, path)
        {
            self.lists_out += 1;
            return Ok(ReadSource::new(file));
        }
        self.count_fault();
        Err(Fault::Failed)
    }

    fn close_list(&mut self, list: ReadSource<File>) {
        self.lists_out -= 1;
        self.faults = count_up(self.faults, list.faults());
        self.reads = count_up(self.reads, list.faults());
    }

    // The trait's clauses on counts, for it tells no stores, and after them that a file which is
    // not opened is a failure, never want of memory. A file that is there is not cut short. One
    // that another process has open is not opened, and nothing is touched.
    fn open_store(&mut self, path: &str) -> Result<FileDisk<SystemFile>, StoreFault>
        requires { option_map (λ name. name.bytes) self.old.store_out ≡ None }
        ensures fresh { IfOk result (λ store. (store.file.faults ≡ 0) × (store.calls ≡ 0)) }
        ensures cause { HasStoreCause self.old.faults self.new.faults result }
        ensures counts { (self.new.reads ≡ self.old.reads)
            × (self.new.store_faults ≡ self.old.store_faults) }
        ensures lists_out { self.new.lists_out ≡ self.old.lists_out }
        ensures out { MatchResult result
            (λ _. option_map (λ name. name.bytes) self.new.store_out ≡ Some path.now)
            (λ _. self.new.store_out ≡ None) }
        ensures no_memory { result ≡ Err StoreFault.NoMemory → ⊥ }
        ensures count { OnErr result (self.new.faults ≡ next_count self.old.faults) }
    {
        let Some(name) = name_of(path) else {
            self.count_fault();
            return Err(StoreFault::Failed);
        };
        match open_alone(&self.files, path) {
            Ok(Some(file)) => {
                self.store_out = Some(name);
                Ok(FileDisk::new(SystemFile::new(file)))
            }
            Ok(None) => {
                self.count_fault();
                Err(StoreFault::InUse)
            }
            Err(_) => {
                self.count_fault();
                Err(StoreFault::Failed)
            }
        }
    }

    fn close_store(&mut self, path: &str, store: FileDisk<SystemFile>) {
        let _ = path;
        self.store_out = None;
        self.faults = count_up(self.faults, store.file().faults());
        self.store_faults = count_up(self.store_faults, store.file().faults());
    }
}
