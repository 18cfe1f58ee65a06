//! Opens a store, or makes one.
ghost use Rattle.std.specs.Prelude.{◌≡◌, ◌≢◌, ◌⊎◌, ◌+◌, ◌-◌, ◌^◌, ◌<◌, ◌≤◌, ◌++◌, ◌∷◌, [], min};
ghost use Rattle.std.specs.Prelude.{List, ℕ, length, slice_index, true, false, Some, IfOk, IfErr};
ghost use Rattle.std.specs.Prelude.{OnOk, IsErrOf, MatchResult};
ghost use Rattle.disk_model.specs.Disk.{Faults, Goes, IsSettled, LeavesOnly, Makes, Stays, UsesRoom};
ghost use Rattle.journal.specs.Frame.{Frame};
ghost use Rattle.journal.specs.Store.{IsOpen, IsUnborn, IsStore, new_head};
ghost use Rattle.journal.specs.Region.{Runs};
ghost use Rattle.journal.specs.Opening.{IsWithin, IsRefusal, IsOfFile, IsExcused};
ghost use Rattle.journal.specs.Opening.{IsOpening, FileMeans, Opens, IsLimitRefusal, IsOver};
ghost use Rattle.journal.specs.Opening.{IsGrown, IsUpgrade, IsUpgraded, LeavesAlone, LeavesNoMore};
ghost use Rattle.journal.specs.Opening.{OpensUnder, opening_calls};
ghost use Rattle.journal.specs.Journal.{StandsInFile};
ghost use Rattle.journal.specs.Append.{IsMade};
ghost use Rattle.journal.specs.ReaderAnswers.{IsKept, IsStoreRefusal, ReadsAs, OpensAs};
ghost use Rattle.journal.specs.ReaderAnswers.{upgrade_calls, behind_sync};
ghost use Rattle.journal.specs.declared.open_fault.OpenFault.{OpenFault};
ghost use Rattle.journal.specs.declared.open_fault.OpenFault.TheVariants.{DeviceFault};

use crate::gated::{append, settle, upgrade};
use crate::head::{HeadRead, read_head};
use crate::journal::Journal;
use crate::open_fault::OpenFault;
use crate::region::{RegionFault, read_region, region_digest};
use crate::replay::Replay;
use agent_base::Failed;
use disk_model::Disk;
use std::alloc::{AllocError, Global};

// The greatest length of a store that is opened under a limit.
const LIMIT: u64 = 1_073_741_824;

// The whole file.
fn read_all<D: Disk>(alloc: Global, disk: &mut D, len: u64) -> Result<Vec<u8>, OpenFault>
    requires { (c : List ℕ) → (D.view disk.old).contents ≡ Some c → len ≡ length c }
    ensures bytes { IfOk result (λ v. (c : List ℕ) → (D.view disk.old).contents ≡ Some c
        → v.items ≡ c) }
    ensures stays { Stays (D.view disk.old) (D.view disk.new) }
    ensures excused { IfErr result IsExcused }
    ensures device { Opens result (D.view disk.old) (D.view disk.new) }
    ensures room { UsesRoom 0 (D.view disk.old) (D.view disk.new) }
{
    let mut bytes = Vec::new(alloc);
    let Ok(()) = bytes.resize(len as usize, 0) else {
        return Err(OpenFault::NoMemory);
    };
    let Ok(()) = disk.read_at(0, &mut bytes) else {
        return Err(OpenFault::DeviceFault);
    };
    Ok(bytes)
}

// What a born file stands for.
fn read_store<R: Replay>(alloc: Global, bytes: &[u8], into: &mut R) -> Result<Journal, OpenFault>
    requires { IsOpen bytes.now 0 }
    ensures usable { IfOk result (λ j. j.shut ≡ false) }
    ensures frames { IfOk result
        (λ j. ReadsAs (R.takes (R.rules into.old)) R.empty (R.state into.new) j bytes.now) }
    ensures refused { IfErr result (IsStoreRefusal (R.takes (R.rules into.old))
        (R.refuses (R.rules into.old)) R.empty bytes.now) }
    ensures rules { R.rules into.new ≡ R.rules into.old }
{
    let (live, number, begin) = match read_head(bytes) {
        HeadRead::Live(live, number, begin) => (live, number, begin),
        HeadRead::Bad(offset) => return Err(OpenFault::NotAStore(offset)),
    };
    let region = match read_region(bytes, begin as usize, into) {
        Ok(region) => region,
        Err(RegionFault::NotAStore(offset)) => return Err(OpenFault::NotAStore(offset as u64)),
        Err(RegionFault::NoMemory) => return Err(OpenFault::NoMemory),
    };
    Ok(Journal {
        digest: region_digest(bytes, begin as usize),
        live,
        number,
        begin,
        end: region.end as u64,
        changes: region.last,
        base: region.base,
        shut: false,
        block: Vec::new(alloc),
    })
}

// Makes a file that was read, of version 1, one of version 2.
fn leave_first<D: Disk>(disk: &mut D, bytes: &[u8]) -> Result<(), Failed>
    requires long { 9 ≤ length bytes.now }
    requires settled { IsSettled (D.view disk.old) }
    requires on { (D.view disk.old).off ≡ false }
    requires bytes { (c : List ℕ) → (D.view disk.old).contents ≡ Some c → bytes.now ≡ c }
    requires room { 9 ≤ (D.view disk.old).room_end }
    requires writes { 1 ≤ (D.view disk.old).room_writes }
    ensures settled { OnOk result (IsSettled (D.view disk.new)) }
    ensures upgraded { OnOk result
        (Goes IsUpgraded (D.view disk.old).contents (D.view disk.new).contents) }
    ensures kept { Goes IsKept (D.view disk.old).contents (D.view disk.new).contents }
    ensures faults { Faults result (D.view disk.old) (D.view disk.new) }
    ensures calls { (c : List ℕ) → (D.view disk.old).contents ≡ Some c
        → Makes (upgrade_calls c) result (D.view disk.old) (D.view disk.new) }
    ensures any_moment { (c : List ℕ) → (D.view disk.old).contents ≡ Some c
        → LeavesOnly (D.view disk.old) (D.view disk.new) (IsKept c) }
{
    if bytes[8] == 1 { upgrade(disk) } else { Ok(()) }
}

// Opens a born file, which was read.
fn open_born<D: Disk, R: Replay>(
    alloc: Global,
    disk: &mut D,
    bytes: &[u8],
    into: &mut R,
) -> Result<Journal, OpenFault>
    requires gate { IsOpen bytes.now 0 }
    requires settled { IsSettled (D.view disk.old) }
    requires on { (D.view disk.old).off ≡ false }
    requires bytes { (c : List ℕ) → (D.view disk.old).contents ≡ Some c → bytes.now ≡ c }
    requires room { 9 ≤ (D.view disk.old).room_end }
    requires writes { 1 ≤ (D.view disk.old).room_writes }
    ensures frames { IfOk result
        (λ j. ReadsAs (R.takes (R.rules into.old)) R.empty (R.state into.new) j bytes.now) }
    ensures usable { IfOk result (λ j. j.shut ≡ false) }
    ensures rules { R.rules into.new ≡ R.rules into.old }
    ensures refused { (why : OpenFault) → IsErrOf result why → (why ≡ DeviceFault)
        ⊎ IsStoreRefusal (R.takes (R.rules into.old)) (R.refuses (R.rules into.old)) R.empty
        bytes.now why }
    ensures settled { OnOk result (IsSettled (D.view disk.new)) }
    ensures upgraded { OnOk result
        (Goes IsUpgraded (D.view disk.old).contents (D.view disk.new).contents) }
    ensures kept { Goes IsKept (D.view disk.old).contents (D.view disk.new).contents }
    ensures unchanged { (why : OpenFault) → IsErrOf result why → LeavesAlone why
        → Stays (D.view disk.old) (D.view disk.new) }
    ensures device { Opens result (D.view disk.old) (D.view disk.new) }
    ensures calls { (c : List ℕ) → (D.view disk.old).contents ≡ Some c
        → Makes (upgrade_calls c) result (D.view disk.old) (D.view disk.new) }
    ensures any_moment { (c : List ℕ) → (D.view disk.old).contents ≡ Some c
        → LeavesOnly (D.view disk.old) (D.view disk.new) (IsKept c) }
{
    let journal = read_store(alloc, bytes, into)?;
    let Ok(()) = leave_first(disk, bytes) else {
        return Err(OpenFault::DeviceFault);
    };
    Ok(journal)
}

// The head of a new store, behind its gate, and the closed gate of its region.
fn head_of(alloc: Global, digest: &[u8; 32]) -> Result<Vec<u8>, AllocError>
    ensures { IfOk result (λ v. v.items ≡ new_head digest.now) }
{
    let mut block = Vec::new(alloc);
    block.extend_from_slice(b"PBSTORE")?;
    block.extend_from_slice(&[2, 0, 0, 0])?;
    block.extend_from_slice(digest)?;
    block.extend_from_slice(&[1, 1, 0, 0, 0, 0, 0, 0, 0, 128, 0, 0, 0, 0, 0, 0, 0])?;
    block.extend_from_slice(&[0; 17])?;
    block.extend_from_slice(&[0; 50])?;
    block.extend_from_slice(&[0])?;
    Ok(block)
}

// Writes the head of a new store over an unborn file of this length, and opens its gate.
fn write_head<D: Disk>(disk: &mut D, len: u64, block: &[u8]) -> Result<(), Failed>
    requires settled { IsSettled (D.view disk.old) }
    requires on { (D.view disk.old).off ≡ false }
    requires len { (c : List ℕ) → (D.view disk.old).contents ≡ Some c → len ≡ length c }
    requires unborn { (c : List ℕ) → (D.view disk.old).contents ≡ Some c → IsUnborn c }
    requires block { length block.now ≡ 128 }
    requires room { 129 ≤ (D.view disk.old).room_end }
    requires writes { 3 ≤ (D.view disk.old).room_writes }
    ensures written { OnOk result
        (Goes (IsMade block.now) (D.view disk.old).contents (D.view disk.new).contents) }
    ensures settled { OnOk result (IsSettled (D.view disk.new)) }
    ensures any_moment { (c digest : List ℕ) → (D.view disk.old).contents ≡ Some c
        → length digest ≡ 32 → block.now ≡ new_head digest
        → LeavesOnly (D.view disk.old) (D.view disk.new) (λ image. IsUnborn image
        ⊎ IsStore digest image []) }
    ensures faults { Faults result (D.view disk.old) (D.view disk.new) }
    ensures calls { (c : List ℕ) → (D.view disk.old).contents ≡ Some c
        → Makes (behind_sync c) result (D.view disk.old) (D.view disk.new) }
{
    settle(disk, len)?;
    append(disk, 0, block)
}

// Makes a store of an unborn file of this length. Memory is asked for before anything is written.
fn make<D: Disk, R: Replay>(
    alloc: Global,
    disk: &mut D,
    digest: &[u8; 32],
    len: u64,
    into: &mut R,
) -> Result<Journal, OpenFault>
    requires settled { IsSettled (D.view disk.old) }
    requires on { (D.view disk.old).off ≡ false }
    requires len { (c : List ℕ) → (D.view disk.old).contents ≡ Some c → len ≡ length c }
    requires unborn { (c : List ℕ) → (D.view disk.old).contents ≡ Some c → IsUnborn c }
    requires room { 129 ≤ (D.view disk.old).room_end }
    requires writes { 3 ≤ (D.view disk.old).room_writes }
    ensures made { IfOk result (λ j. (d : List ℕ) → (D.view disk.new).contents ≡ Some d
        → StandsInFile j d []) }
    ensures long { OnOk result (Goes IsGrown (D.view disk.old).contents
        (D.view disk.new).contents) }
    ensures usable { IfOk result (λ j. j.shut ≡ false) }
    ensures empty { IfOk result (λ j. (R.state into.new ≡ R.empty) × (j.changes ≡ 0)
        × (j.digest ≡ digest.now)) }
    ensures rules { R.rules into.new ≡ R.rules into.old }
    ensures settled { OnOk result (IsSettled (D.view disk.new)) }
    ensures excused { IfErr result IsExcused }
    ensures unchanged { (why : OpenFault) → IsErrOf result why → LeavesAlone why
        → Stays (D.view disk.old) (D.view disk.new) }
    ensures device { Opens result (D.view disk.old) (D.view disk.new) }
    ensures calls { (c : List ℕ) → (D.view disk.old).contents ≡ Some c
        → Makes (behind_sync c) result (D.view disk.old) (D.view disk.new) }
    ensures any_moment { (c : List ℕ) → (D.view disk.old).contents ≡ Some c
        → LeavesOnly (D.view disk.old) (D.view disk.new) (λ image. IsUnborn image
        ⊎ IsStore digest.now image []) }
{
    let Ok(block) = head_of(alloc, digest) else {
        return Err(OpenFault::NoMemory);
    };
    let Ok(()) = write_head(disk, len, &block) else {
        return Err(OpenFault::DeviceFault);
    };
    into.begin();
    Ok(Journal {
        digest: *digest,
        live: false,
        number: 1,
        begin: 128,
        end: 128,
        changes: 0,
        base: 0,
        shut: false,
        block: Vec::new(alloc),
    })
}

// Whether a file has more than one byte, of which the first is not 0.
fn is_born(bytes: &[u8]) -> bool
    ensures born { result ≡ true → IsOpen bytes.now 0 × (1 < length bytes.now) }
    ensures unborn { result ≡ false → IsUnborn bytes.now }
{
    bytes.len() > 1 && bytes[0] != 0
}

// Opens what a settled disk has, of this length, or makes a store of it.
fn open_settled<D: Disk, R: Replay>(
    alloc: Global,
    disk: &mut D,
    digest: &[u8; 32],
    len: u64,
    into: &mut R,
) -> Result<Journal, OpenFault>
    requires settled { IsSettled (D.view disk.old) }
    requires on { (D.view disk.old).off ≡ false }
    requires len { (c : List ℕ) → (D.view disk.old).contents ≡ Some c → len ≡ length c }
    requires room { 129 ≤ (D.view disk.old).room_end }
    requires writes { 3 ≤ (D.view disk.old).room_writes }
    ensures opened { IfOk result (λ j. Goes (OpensAs (R.takes (R.rules into.old)) R.empty
        (R.state into.new) digest.now j) (D.view disk.old).contents (D.view disk.new).contents) }
    ensures rules { R.rules into.new ≡ R.rules into.old }
    ensures usable { IfOk result (λ j. j.shut ≡ false) }
    ensures settled { OnOk result (IsSettled (D.view disk.new)) }
    ensures refused { (why : OpenFault) → IsErrOf result why → (c : List ℕ)
        → (D.view disk.old).contents ≡ Some c
        → IsRefusal (R.takes (R.rules into.old)) (R.refuses (R.rules into.old)) R.empty false c
        why }
    ensures kept { (c : List ℕ) → (D.view disk.old).contents ≡ Some c → IsOpen c 0 → 1 < length c
        → (d : List ℕ) × ((D.view disk.new).contents ≡ Some d) × IsKept c d }
    ensures unchanged { (why : OpenFault) → IsErrOf result why → LeavesAlone why
        → Stays (D.view disk.old) (D.view disk.new) }
    ensures device { Opens result (D.view disk.old) (D.view disk.new) }
    ensures calls { (c : List ℕ) → (D.view disk.old).contents ≡ Some c
        → Makes (behind_sync c) result (D.view disk.old) (D.view disk.new) }
    ensures any_moment { (c : List ℕ) → (D.view disk.old).contents ≡ Some c
        → LeavesOnly (D.view disk.old) (D.view disk.new) (IsOpening digest.now c) }
{
    let bytes = read_all(alloc, disk, len)?;
    if is_born(&bytes) {
        open_born(alloc, disk, &bytes, into)
    } else {
        make(alloc, disk, digest, len, into)
    }
}

// Opens a store or makes one, without the laws on what the file stands for.
fn open_store<D: Disk, R: Replay>(
    alloc: Global,
    disk: &mut D,
    digest: &[u8; 32],
    limit: bool,
    into: &mut R,
) -> Result<Journal, OpenFault>
    ensures opened { IfOk result (λ j. Goes (OpensAs (R.takes (R.rules into.old)) R.empty
        (R.state into.new) digest.now j) (D.view disk.old).contents (D.view disk.new).contents) }
    ensures rules { R.rules into.new ≡ R.rules into.old }
    ensures usable { IfOk result (λ j. j.shut ≡ false) }
    ensures settled { OnOk result (IsSettled (D.view disk.new)) }
    ensures within { OnOk result ((c : List ℕ) → (D.view disk.old).contents ≡ Some c
        → IsWithin limit c) }
    ensures refused { (why : OpenFault) → IsErrOf result why → (c : List ℕ)
        → (D.view disk.old).contents ≡ Some c
        → IsRefusal (R.takes (R.rules into.old)) (R.refuses (R.rules into.old)) R.empty limit c
        why }
    ensures limit { (c : List ℕ) → (D.view disk.old).contents ≡ Some c → IsOver limit c
        → MatchResult result (λ _. ⊥) (IsLimitRefusal c) }
    ensures kept { (c : List ℕ) → (D.view disk.old).contents ≡ Some c → IsOpen c 0 → 1 < length c
        → (d : List ℕ) × ((D.view disk.new).contents ≡ Some d) × IsKept c d }
    ensures images { (why : OpenFault) → IsErrOf result why → LeavesAlone why
        → LeavesNoMore (D.view disk.old) (D.view disk.new) }
    ensures device { Opens result (D.view disk.old) (D.view disk.new) }
    ensures calls { (c : List ℕ) → (D.view disk.old).contents ≡ Some c
        → Makes (opening_calls c) result (D.view disk.old) (D.view disk.new) }
    ensures any_moment { IsSettled (D.view disk.old) → (c : List ℕ)
        → (D.view disk.old).contents ≡ Some c
        → LeavesOnly (D.view disk.old) (D.view disk.new) (IsOpening digest.now c) }
{
    // What is read from now on is what a cut leaves.
    let Ok(()) = disk.sync() else {
        return Err(OpenFault::DeviceFault);
    };
    let Ok(len) = disk.len() else {
        return Err(OpenFault::DeviceFault);
    };
    if limit && len > LIMIT {
        return Err(OpenFault::TooLarge(len)); // takes no memory, and comes before all that does
    }
    let Ok(()) = disk.reserve(129, 3) else {
        return Err(OpenFault::NoMemory);
    };
    open_settled(alloc, disk, digest, len, into)
}

impl Journal {
    /// Opens a store, under whichever list it was written, and gives its frames to `into` in order.
    ///
    /// A file that is no store yet is made one, under the digest of the list that is given, and a
    /// store of version 1 becomes one of version 2. [`Journal::digest`] tells the store's list.
    /// With `limit` a file over 1,073,741,824 bytes is refused, before any memory is taken. After a
    /// refusal nothing is told of the state of `into`, and its `begin` makes it usable again.
    pub fn open<D: Disk, R: Replay>(
        alloc: Global,
        disk: &mut D,
        digest: &[u8; 32],
        limit: bool,
        into: &mut R,
    ) -> Result<Journal, OpenFault>
        // The file is the journal's store, and its frames lead to the state of `into`.
        ensures opened { IfOk result (λ j. (d : List ℕ) → (D.view disk.new).contents ≡ Some d
            → (frames : List Frame) × StandsInFile j d frames
            × Runs (R.takes (R.rules into.old)) true R.empty 0 frames (R.state into.new)
            j.changes) }
        ensures usable { IfOk result (λ j. j.shut ≡ false) }

        // The journal's digest is that of the list under which the store stands, whichever was
        // given: of an unborn file the given one.
        ensures under { IfOk result (λ j. (c : List ℕ) → (D.view disk.old).contents ≡ Some c
            → OpensUnder digest.now c j.digest) }
        ensures settled { OnOk result (IsSettled (D.view disk.new)) }

        // A born file is as it was, but for the version's byte where it had version 1. Once it is
        // opened, that byte is 2.
        ensures kept { (c : List ℕ) → (D.view disk.old).contents ≡ Some c → IsOpen c 0
            → 1 < length c
            → (d : List ℕ) × ((D.view disk.new).contents ≡ Some d) × ((d ≡ c) ⊎ IsUpgrade c d) }
        ensures upgraded { OnOk result ((c d : List ℕ) → (D.view disk.old).contents ≡ Some c
            → (D.view disk.new).contents ≡ Some d → IsOpen c 0 → 1 < length c
            → IsUpgraded c d) }

        // A file that was made a store has 129 bytes or as many as it had, and a store as many.
        ensures long { OnOk result ((c d : List ℕ) → (D.view disk.old).contents ≡ Some c
            → (D.view disk.new).contents ≡ Some d → IsGrown c d) }

        // The state and the number of changes are those that the file stands for, under whichever
        // list.
        ensures means { (c held : List ℕ) (s : R.State) (n : ℕ)
            → (D.view disk.old).contents ≡ Some c
            → IsWithin limit c → FileMeans (R.takes (R.rules into.old)) R.empty held c s n
            → MatchResult result (λ j. (R.state into.new ≡ s) × (j.changes ≡ n)) IsExcused }

        // The file stands for them under the journal's digest, whatever it was.
        ensures stood { IfOk result (λ j. (c : List ℕ) → (D.view disk.old).contents ≡ Some c
            → FileMeans (R.takes (R.rules into.old)) R.empty j.digest c (R.state into.new)
            j.changes) }

        // The rules by which bodies are read stay.
        ensures rules { R.rules into.new ≡ R.rules into.old }

        // Each refusal of a file has its cause, and comes wherever the cause is.
        ensures refused { (why : OpenFault) → IsErrOf result why → (c : List ℕ)
            → (D.view disk.old).contents ≡ Some c
            → IsRefusal (R.takes (R.rules into.old)) (R.refuses (R.rules into.old)) R.empty limit
            c why }
        ensures exactly { (why : OpenFault) (c : List ℕ) → (D.view disk.old).contents ≡ Some c
            → IsOfFile why
            → IsRefusal (R.takes (R.rules into.old)) (R.refuses (R.rules into.old)) R.empty limit
            c why
            → MatchResult result (λ _. ⊥) (λ w. (w ≡ why) ⊎ IsExcused w) }

        // A file over the limit is refused with its length before any memory is taken.
        ensures limit { (c : List ℕ) → (D.view disk.old).contents ≡ Some c → IsOver limit c
            → MatchResult result (λ _. ⊥) (IsLimitRefusal c) }

        // A file that is refused stays as it is.
        ensures unchanged { (why : OpenFault) → IsErrOf result why → IsOfFile why
            → (D.view disk.new).contents ≡ (D.view disk.old).contents }

        // Each refusal but a device fault comes before anything is written, so that a cut may leave
        // no more than before.
        ensures images { (why : OpenFault) → IsErrOf result why → LeavesAlone why
            → LeavesNoMore (D.view disk.old) (D.view disk.new) }

        ensures device { Opens result (D.view disk.old) (D.view disk.new) }
        ensures calls { (c : List ℕ) → (D.view disk.old).contents ≡ Some c
            → Makes (opening_calls c) result (D.view disk.old) (D.view disk.new) }

        // A cut at any moment leaves the file as it was, or of one of version 1 the file but for
        // that byte, or of an unborn file an unborn one or a store without frames.
        ensures any_moment { IsSettled (D.view disk.old) → (c : List ℕ)
            → (D.view disk.old).contents ≡ Some c
            → LeavesOnly (D.view disk.old) (D.view disk.new) (IsOpening digest.now c) }
    {
        open_store(alloc, disk, digest, limit, into)
    }
}
