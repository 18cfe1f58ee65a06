//! A disk in memory, whose changing calls are carried out by its owner.
ghost use Rattle.std.specs.Prelude.{◌≡◌, ◌↔◌, ◌+◌, ◌<◌, ◌≤◌, ◌++◌, ◌∷◌, true, false, [], List, ℕ};
ghost use Rattle.std.specs.Prelude.{Some, None, IfOk, OnOk, OnErr, IsOk, IsTrue, MatchOption};
ghost use Rattle.std.specs.Prelude.{length, if◌then◌else◌};
ghost use Rattle.agent_base.specs.Counts.{next_count, HasCause};
ghost use Rattle.disk_model.specs.Disk.{Holds, Written, Torn, Goes, Follows, IsSettled, Elapses};
ghost use Rattle.disk_model.specs.Disk.{Stays, Device, HasFailed, UsesRoom};
ghost use Rattle.disk_model.specs.Carried.{TellsSame};
ghost use Rattle.disk_model.specs.History.{Held, held, at_first, Event, wrote, synced};
ghost use Rattle.carried_disk.specs.Calls.{CarriedView, view_told, event_of, FileStands};
ghost use Rattle.carried_disk.specs.Calls.{CarriesOut, StillStands};
ghost use Rattle.carried_disk.specs.CallBuffers.{IsSteady, KeepsRoom, HasCallRoom};
ghost use Rattle.carried_disk.specs.CarriedLaws.{carried_lawful};

use crate::call_list::{Calls, CarriedCall};
use agent_base::{Failed, NoMemory};
use disk_model::{Carried, Disk, MemDisk};
use std::alloc::Global;
use std::marker::Model;

/// The bytes of a file in memory, with the writes and syncs that its owner has not carried out yet.
///
/// Where the owner carries them out in order on a file that began with the same bytes, a cut of the
/// power at any moment leaves of that file what a cut of this disk may leave, now or at an earlier
/// moment. A sync with nothing written since the last one is no call for the owner.
#[derive(Debug, Drop)]
pub struct CarriedDisk {
    disk: MemDisk,
    calls: Calls,
    unsynced: bool,
    faults: u64,
    changing: u64,
    room_end: u64,
    room_writes: u32,
}

impl Model for CarriedDisk {
    ghost use Rattle.carried_disk.specs.Calls.{CarriedView};
    ghost use Rattle.carried_disk.specs.CallBuffers.{IsSteady, KeepsRoom, HasCallRoom};

    ghost Value = { CarriedView };

    ghost view = { λ d. record {
      disk = d.disk;
      left = d.calls.left;
      unsynced = d.unsynced;
      faults = d.faults;
      changing = d.changing;
      room_end = d.room_end;
      room_writes = d.room_writes;
    } };

    ghost invariant = { λ d. IsSteady d.disk d.unsynced
        × KeepsRoom d.disk d.calls d.room_end d.room_writes
        × HasCallRoom d.unsynced d.room_writes d.calls.room };
}

impl CarriedDisk {
    /// A disk with these bytes, which the owner's file has too, all of them synced. Takes no
    /// memory; [`Disk::reserve`] does.
    pub fn new(alloc: Global, bytes: Vec<u8>) -> CarriedDisk
        ensures file { FileStands (at_first bytes.items) (view_told result).moment result }
        ensures contents { (view_told result).contents ≡ Some bytes.items }
        ensures left { (result.left ≡ []) × (result.unsynced ≡ false) }
        ensures counts { (result.faults ≡ 0) × (result.changing ≡ 0) }
        ensures settled { IsSettled (view_told result) }
    {
        CarriedDisk {
            disk: MemDisk::new(alloc, bytes, Vec::new(alloc), Vec::new(alloc)),
            calls: Calls::new(alloc),
            unsynced: false,
            faults: 0,
            changing: 0,
            room_end: 0,
            room_writes: 0,
        }
    }

    /// The next call that the owner has to carry out on its file. None where none is left.
    ///
    /// A cut while those left are carried out leaves what a cut of this disk might have left since
    /// the moment at which the owner's file stands.
    pub fn next(&self) -> Option<CarriedCall<'_>>
        ensures call { MatchOption result (self.now.left ≡ [])
            (λ call. (rest : List Event) × (self.now.left ≡ event_of call ∷ rest)) }
    {
        self.calls.next()
    }

    /// Whether the owner has carried out every call. Then its file holds what this disk holds.
    pub fn is_carried(&self) -> bool
        ensures none { IsTrue result ↔ (self.now.left ≡ []) }
        ensures file { IsTrue result → (file : Held) (since : ℕ) → FileStands file since self.now
            → FileStands file (view_told self.now).moment self.now }
    {
        self.calls.is_empty()
    }

    /// The bytes that a read returns.
    pub fn bytes(&self) -> &[u8]
        ensures { result.now ≡ (held self.now.disk.past).contents }
    {
        self.disk.bytes()
    }

    // A call that failed.
    fn fault(&mut self) -> Failed
        ensures later { self.old.faults ≤ self.new.faults }
        ensures most { self.new.faults ≤ self.old.faults + 1 }
        ensures counted { self.new ≡ record self.old { faults = next_count self.old.faults } }
    {
        self.faults = self.faults.saturating_add(1);
        Failed
    }
}

impl Carried for CarriedDisk {
    ghost is_done = { CarriesOut };

    /// The owner has carried out the next call. Where none is left, nothing changes.
    fn done(&mut self)
        ensures done { CarriesOut self.old self.new }
        ensures same { TellsSame (view_told self.old) (view_told self.new) }
    {
        self.calls.done();
    }
}

impl Disk for CarriedDisk {
    ghost view = { view_told };

    ghost lawful = { carried_lawful };

    // Each call has the trait's clauses, and after them exactly what this disk does.
    fn len(&mut self) -> Result<u64, Failed>
        ensures len { IfOk result (λ n. (c : List ℕ) → (view_told self.old).contents ≡ Some c
            → n ≡ length c) }
        ensures stays { Stays (view_told self.old) (view_told self.new) }
        ensures device { Device 0 0 result (view_told self.old) (view_told self.new) }
        ensures ok { IsOk result }
        ensures same { self.new ≡ self.old }
    {
        Ok(self.disk.bytes().len() as u64)
    }

    fn read_at(&mut self, at: u64, into: &mut [u8]) -> Result<(), Failed>
        requires within { (c : List ℕ) → (view_told self.old).contents ≡ Some c
            → at + length into.old ≤ length c }
        ensures read { OnOk result ((c : List ℕ) → (view_told self.old).contents ≡ Some c
            → Holds c at into.new) }
        ensures stays { Stays (view_told self.old) (view_told self.new) }
        ensures device { Device 0 0 result (view_told self.old) (view_told self.new) }
        ensures ok { IsOk result }
        ensures same { self.new ≡ self.old }
    {
        let at = at as usize;
        into.copy_from_slice(&self.disk.bytes()[at..at + into.len()]);
        Ok(())
    }

    fn write_at(&mut self, at: u64, bytes: &[u8]) -> Result<(), Failed>
        requires place { (c : List ℕ) → (view_told self.old).contents ≡ Some c → at ≤ length c }
        requires room { at + length bytes.now ≤ (view_told self.old).room_end }
        requires writes { 0 < (view_told self.old).room_writes }
        ensures written { OnOk result (Goes (Written at bytes.now)
            (view_told self.old).contents (view_told self.new).contents) }
        ensures failed { OnErr result (Goes (Torn at (length bytes.now))
            (view_told self.old).contents (view_told self.new).contents) }
        ensures images { Follows (Torn at (length bytes.now))
            (view_told self.old).may_leave (view_told self.new).may_leave }
        ensures time { Elapses (view_told self.old) (view_told self.new) }
        ensures device { Device 1 1 result (view_told self.old) (view_told self.new) }
        ensures ok { IsOk result }
        ensures left { self.new.left ≡ self.old.left ++ wrote at bytes.now ∷ [] }
        ensures file { StillStands self.old self.new }
        ensures unsynced { self.new.unsynced ≡ true }
    {
        self.changing = self.changing.saturating_add(1);
        self.unsynced = true;
        self.room_writes -= 1;
        self.calls.push_write(at, bytes);
        self.disk.write_at(at, bytes)
    }

    // Where nothing was written since the last sync, nothing is left for the owner to do.
    fn sync(&mut self) -> Result<(), Failed>
        ensures contents { (view_told self.new).contents ≡ (view_told self.old).contents }
        ensures settled { OnOk result (IsSettled (view_told self.new)) }
        ensures images { (c : List ℕ) → (view_told self.new).may_leave c
            → (view_told self.old).may_leave c }
        ensures time { Elapses (view_told self.old) (view_told self.new) }
        ensures device { Device 1 0 result (view_told self.old) (view_told self.new) }
        ensures ok { IsOk result }
        ensures left { self.new.left
            ≡ (if self.old.unsynced then self.old.left ++ synced ∷ [] else self.old.left) }
        ensures file { StillStands self.old self.new }
        ensures unsynced { self.new.unsynced ≡ false }
    {
        self.changing = self.changing.saturating_add(1);
        if !self.unsynced {
            return Ok(());
        }
        self.unsynced = false;
        self.calls.push_sync();
        self.disk.sync()
    }

    // The power is taken for cut only where the owner's file has all of it on the medium: else the
    // call fails, and changes the count of faults alone.
    fn restart(&mut self) -> Result<(), Failed>
        ensures contents { OnOk result (Goes (λ _ d. (view_told self.old).may_leave d)
            (view_told self.old).contents (view_told self.new).contents) }
        ensures anew { OnOk result ((t : ℕ) (c : List ℕ) → (view_told self.new).left_since t c
            → (view_told self.new).contents ≡ Some c) }
        ensures failed { OnErr result ((c : List ℕ) → (view_told self.new).may_leave c
            → (view_told self.old).may_leave c) }
        ensures cause { HasCause (view_told self.old).faults (view_told self.new).faults result }
        ensures tells { (view_told self.new).tells ≡ (view_told self.old).tells }
        ensures on { OnOk result (((view_told self.new).off ≡ false)
            × ((view_told self.new).failures ≡ (view_told self.old).failures)
            × ((view_told self.new).cuts ≡ (view_told self.old).cuts)) }
        ensures failure { OnErr result (HasFailed (view_told self.old) (view_told self.new)) }
        ensures sure { (cuts : List ℕ) → (view_told self.old).cuts ≡ Some cuts → IsOk result }
        ensures calls { (view_told self.new).changing ≡ (view_told self.old).changing }
        ensures room { UsesRoom 0 (view_told self.old) (view_told self.new) }
        ensures refused { IsOk result ↔ ((self.old.left ≡ []) × (self.old.unsynced ≡ false)) }
        ensures left { (self.new.left ≡ self.old.left)
            × (self.new.unsynced ≡ self.old.unsynced) }
        ensures file { OnOk result ((file : Held) (since : ℕ) → FileStands file since self.old
            → FileStands file (view_told self.new).moment self.new) }
        ensures kept { (view_told self.new).contents ≡ (view_told self.old).contents }
        ensures same { OnErr result
            (self.new ≡ record self.old { faults = next_count self.old.faults }) }
    {
        if self.unsynced || !self.calls.is_empty() {
            return Err(self.fault());
        }
        self.disk.restart()
    }

    // A write may be as long as the file, and its bytes are kept until it is carried out: so the
    // room is that of so many files. Where it is never written it takes addresses alone.
    fn reserve(&mut self, end: u64, writes: u32) -> Result<(), NoMemory>
        ensures stays { Stays (view_told self.old) (view_told self.new) }
        ensures faults { (view_told self.new).faults ≡ (view_told self.old).faults }
        ensures power { ((view_told self.new).off ≡ (view_told self.old).off)
            × ((view_told self.new).failures ≡ (view_told self.old).failures)
            × ((view_told self.new).cuts ≡ (view_told self.old).cuts) }
        ensures end { OnOk result (end ≤ (view_told self.new).room_end) }
        ensures writes { OnOk result (writes ≤ (view_told self.new).room_writes) }
        ensures room { OnErr result (UsesRoom 0 (view_told self.old) (view_told self.new)) }
        ensures made { OnOk result ((self.new.room_end ≡ end) × (self.new.room_writes ≡ writes)) }
        ensures left { self.new.left ≡ self.old.left }
        ensures file { StillStands self.old self.new }
        ensures past { (self.new.disk.past.first ≡ self.old.disk.past.first)
            × (self.new.disk.past.events ≡ self.old.disk.past.events) }
        ensures unsynced { self.new.unsynced ≡ self.old.unsynced }
    {
        self.calls.reserve(writes as usize, end as usize)?;
        self.disk.reserve(end, writes)?;
        self.room_end = end;
        self.room_writes = writes;
        Ok(())
    }
}
