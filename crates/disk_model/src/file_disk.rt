//! A disk over a file. It tells what the file tells, and counts its changing calls.
ghost use Rattle.std.specs.Prelude.{◌≡◌, ◌+◌, ◌-◌, ◌^◌, ◌<◌, ◌≤◌, [], List, ℕ, length, Some};
ghost use Rattle.std.specs.Prelude.{◌⊎◌, ◌++◌, ◌∷◌, false, IfOk, IsOk, MatchResult, OnOk, OnErr};
ghost use Rattle.agent_base.specs.Counts.{HasCause};
ghost use Rattle.disk_model.specs.Disk.{Holds, Written, Torn, Goes, Follows, Elapses, Stays};
ghost use Rattle.disk_model.specs.Disk.{Device, HasFailed, IsSettled, UsesRoom};
ghost use Rattle.disk_model.specs.RawFile.{AreTorn, CountsFault, IsTornIn, StaysTorn, WritesBack};

use crate::disk::Disk;
use crate::raw_file::RawFile;
use agent_base::{Failed, NoMemory};
use arrayvec::ArrayVec;
use std::marker::Model;

// The most ranges that a disk over a file remembers. Between two syncs a commit and a checkpoint
// write two at most.
const MOST_RANGES: usize = 8;

/// A disk over an open file that is read and written. Its faults are those that the file counts.
///
/// A system may tell a sync that failed once, and forget what it did not write: the next sync then
/// succeeds, and a read returns bytes that the medium has not got. So the disk remembers the ranges
/// that were written since the last sync that succeeded, and a restart writes them again before
/// anything is told. What a file of the system keeps is not proved: over it, clauses speak of
/// counts alone.
#[derive(Debug, Drop)]
pub struct FileDisk<F: RawFile> {
    file: F,
    calls: u64,
    ranges: ArrayVec<(u64, u64), MOST_RANGES>,
}

impl<F: RawFile> Model for FileDisk<F> {
    ghost use Rattle.disk_model.specs.RawFile.{AreTorn, FileView};

    ghost Value = { FileView F };

    ghost view = { λ d. record { file = d.file; calls = d.calls; ranges = d.ranges.items } };

    ghost invariant = { λ d. AreTorn d.ranges.items (F.view d.file).may_leave };
}

impl<F: RawFile> FileDisk<F> {
    /// A disk over this file, with no changing call made yet.
    pub fn new(file: F) -> FileDisk<F>
        ensures file { result.file ≡ file }
        ensures calls { result.calls ≡ 0 }
        ensures ranges { result.ranges ≡ [] }
    {
        FileDisk {
            file,
            calls: 0,
            ranges: ArrayVec::new(),
        }
    }

    /// The file under the disk.
    pub fn file(&self) -> &F
        ensures { result.now ≡ self.now.file }
    {
        &self.file
    }
}

// Fills all of `into`, piece by piece.
fn read_whole<F: RawFile>(file: &mut F, at: u64, into: &mut [u8]) -> Result<(), Failed>
    requires within { (c : List ℕ) → (F.view file.old).contents ≡ Some c
        → at + length into.old ≤ length c }
    ensures read { OnOk result ((c : List ℕ) → (F.view file.old).contents ≡ Some c
        → Holds c at into.new) }
    ensures stays { Stays (F.view file.old) (F.view file.new) }
    ensures faults { CountsFault result (F.view file.old) (F.view file.new) }
{
    let mut done = 0;
    'pieces: while done < into.len() {
        // Past the last offset there is nothing to read, and the file says so.
        let place = at.saturating_add(done as u64);
        done += file.read_some(place, &mut into[done..])?;
    }
    Ok(())
}

// Writes all of the bytes, piece by piece.
fn write_whole<F: RawFile>(file: &mut F, at: u64, bytes: &[u8]) -> Result<(), Failed>
    requires place { (c : List ℕ) → (F.view file.old).contents ≡ Some c → at ≤ length c }
    requires fits { at + length bytes.now ≤ 2 ^ 64 }
    ensures written { OnOk result (Goes (Written at bytes.now)
        (F.view file.old).contents (F.view file.new).contents) }
    ensures failed { OnErr result (Goes (Torn at (length bytes.now))
        (F.view file.old).contents (F.view file.new).contents) }
    ensures images { Follows (Torn at (length bytes.now))
        (F.view file.old).may_leave (F.view file.new).may_leave }
    ensures torn { 0 < length bytes.now
        → IsTornIn at (length bytes.now) (F.view file.new).may_leave }
    ensures still_torn { StaysTorn (F.view file.old).may_leave (F.view file.new).may_leave }
    ensures time { Elapses (F.view file.old) (F.view file.new) }
    ensures tells { (F.view file.new).tells ≡ (F.view file.old).tells }
    ensures faults { CountsFault result (F.view file.old) (F.view file.new) }
{
    let mut done = 0;
    'pieces: while done < bytes.len() {
        done += file.write_some(at + done as u64, &bytes[done..])?;
    }
    Ok(())
}

// Writes the first bytes from an offset again, as many as it answers.
fn write_some_back<F: RawFile>(file: &mut F, at: u64, piece: &mut [u8]) -> Result<usize, Failed>
    requires some { 0 < length piece.old }
    requires within { (c : List ℕ) → (F.view file.old).contents ≡ Some c
        → at + length piece.old ≤ length c }
    requires torn { IsTornIn at (length piece.old) (F.view file.old).may_leave }
    ensures some { IfOk result (λ n. (0 < n) × (n ≤ length piece.old)) }
    ensures contents { OnOk result
        ((F.view file.new).contents ≡ (F.view file.old).contents) }
    ensures back { WritesBack (F.view file.old) (F.view file.new) }
    ensures faults { CountsFault result (F.view file.old) (F.view file.new) }
{
    let n = file.read_some(at, piece)?;
    file.write_some(at, &piece[..n])
}

// Writes a range again, so far as the file reaches.
fn write_range_back<F: RawFile>(file: &mut F, at: u64, len: u64) -> Result<(), Failed>
    requires torn { 0 < len → IsTornIn at len (F.view file.old).may_leave }
    ensures contents { OnOk result
        ((F.view file.new).contents ≡ (F.view file.old).contents) }
    ensures back { WritesBack (F.view file.old) (F.view file.new) }
    ensures faults { CountsFault result (F.view file.old) (F.view file.new) }
{
    let end = at.saturating_add(len).min(file.len()?);
    let mut piece = [0; 4096];
    let mut done = at;
    'pieces: while done < end {
        let room = (end - done).min(4096) as usize;
        done += write_some_back(file, done, &mut piece[..room])? as u64;
    }
    Ok(())
}

// Writes each range again, and syncs.
fn write_back<F: RawFile>(file: &mut F, ranges: &[(u64, u64)]) -> Result<(), Failed>
    requires torn { AreTorn ranges.now (F.view file.old).may_leave }
    ensures contents { OnOk result
        ((F.view file.new).contents ≡ (F.view file.old).contents) }
    ensures settled { OnOk result (IsSettled (F.view file.new)) }
    ensures images { (c : List ℕ) → (F.view file.new).may_leave c
        → (F.view file.old).may_leave c }
    ensures still_torn { OnErr result
        (StaysTorn (F.view file.old).may_leave (F.view file.new).may_leave) }
    ensures tells { (F.view file.new).tells ≡ (F.view file.old).tells }
    ensures faults { CountsFault result (F.view file.old) (F.view file.new) }
{
    'each: for range in ranges {
        write_range_back(file, range.0, range.1)?;
    }
    file.sync()
}

impl<F: RawFile> Disk for FileDisk<F> {
    ghost use Rattle.disk_model.specs.RawFile.{told_by};
    ghost use Rattle.disk_model.specs.TellsNothing.{over_file_lawful};

    ghost view = { told_by F.view };

    ghost lawful = { λ d. over_file_lawful (F.view d.file) d.calls (length d.ranges)
        (F.lawful d.file) };

    fn len(&mut self) -> Result<u64, Failed> {
        self.file.len()
    }

    fn read_at(&mut self, at: u64, into: &mut [u8]) -> Result<(), Failed> {
        read_whole(&mut self.file, at, into)
    }

    // From here on the trait's clauses, and after them what is remembered.
    fn write_at(&mut self, at: u64, bytes: &[u8]) -> Result<(), Failed>
        requires place { (c : List ℕ) → (told_by F.view self.old).contents ≡ Some c
            → at ≤ length c }
        requires room { at + length bytes.now ≤ (told_by F.view self.old).room_end }
        requires writes { 0 < (told_by F.view self.old).room_writes }
        ensures written { OnOk result (Goes (Written at bytes.now)
            (told_by F.view self.old).contents (told_by F.view self.new).contents) }
        ensures failed { OnErr result (Goes (Torn at (length bytes.now))
            (told_by F.view self.old).contents (told_by F.view self.new).contents) }
        ensures images { Follows (Torn at (length bytes.now))
            (told_by F.view self.old).may_leave (told_by F.view self.new).may_leave }
        ensures time { Elapses (told_by F.view self.old) (told_by F.view self.new) }
        ensures device { Device 1 1 result (told_by F.view self.old)
            (told_by F.view self.new) }
        ensures ranges { self.new.ranges
            ≡ self.old.ranges ++ (at, length bytes.now) ∷ [] }
    {
        self.calls = self.calls.saturating_add(1);
        let made = write_whole(&mut self.file, at, bytes);
        self.ranges.push((at, bytes.len() as u64));
        made
    }

    fn sync(&mut self) -> Result<(), Failed>
        ensures contents { (told_by F.view self.new).contents
            ≡ (told_by F.view self.old).contents }
        ensures settled { OnOk result (IsSettled (told_by F.view self.new)) }
        ensures images { (c : List ℕ) → (told_by F.view self.new).may_leave c
            → (told_by F.view self.old).may_leave c }
        ensures time { Elapses (told_by F.view self.old) (told_by F.view self.new) }
        ensures device { Device 1 0 result (told_by F.view self.old)
            (told_by F.view self.new) }
        ensures ranges { MatchResult result (λ _. self.new.ranges ≡ [])
            (λ _. self.new.ranges ≡ self.old.ranges) }
    {
        self.calls = self.calls.saturating_add(1);
        self.file.sync()?;
        self.ranges.clear();
        Ok(())
    }

    // Where anything is pending a read returns what it did before: what a system may have forgotten
    // is written again, and is on the medium, before the file is looked at. What is not on the
    // medium then is remembered still.
    fn restart(&mut self) -> Result<(), Failed>
        ensures contents { OnOk result (Goes (λ _ d. (told_by F.view self.old).may_leave d)
            (told_by F.view self.old).contents (told_by F.view self.new).contents) }
        ensures anew { OnOk result ((t : ℕ) (c : List ℕ)
            → (told_by F.view self.new).left_since t c
            → (told_by F.view self.new).contents ≡ Some c) }
        ensures failed { OnErr result ((c : List ℕ) → (told_by F.view self.new).may_leave c
            → (told_by F.view self.old).may_leave c) }
        ensures cause { HasCause (told_by F.view self.old).faults
            (told_by F.view self.new).faults result }
        ensures tells { (told_by F.view self.new).tells ≡ (told_by F.view self.old).tells }
        ensures on { OnOk result (((told_by F.view self.new).off ≡ false)
            × ((told_by F.view self.new).failures ≡ (told_by F.view self.old).failures)
            × ((told_by F.view self.new).cuts ≡ (told_by F.view self.old).cuts)) }
        ensures failure { OnErr result
            (HasFailed (told_by F.view self.old) (told_by F.view self.new)) }
        ensures sure { (cuts : List ℕ) → (told_by F.view self.old).cuts ≡ Some cuts
            → IsOk result }
        ensures calls { (told_by F.view self.new).changing
            ≡ (told_by F.view self.old).changing }
        ensures room { UsesRoom 0 (told_by F.view self.old) (told_by F.view self.new) }
        ensures kept { OnOk result (0 < length self.old.ranges
            → (told_by F.view self.new).contents ≡ (told_by F.view self.old).contents) }
        ensures ranges { MatchResult result (λ _. self.new.ranges ≡ [])
            (λ _. (self.new.ranges ≡ self.old.ranges)
            ⊎ ((c : List ℕ) → (told_by F.view self.new).may_leave c
            → (told_by F.view self.old).contents ≡ Some c)) }
    {
        if !self.ranges.is_empty() {
            write_back(&mut self.file, &self.ranges)?;
            self.ranges.clear();
        }
        self.file.restart()
    }

    // The room is there, but for ranges that no sync has brought to the medium.
    fn reserve(&mut self, end: u64, writes: u32) -> Result<(), NoMemory> {
        let _ = end;
        if MOST_RANGES - self.ranges.len() < writes as usize {
            return Err(NoMemory);
        }
        Ok(())
    }
}
