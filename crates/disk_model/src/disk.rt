//! A disk: a file whose writes may be lost or torn until a sync.
ghost use Rattle.std.specs.Prelude.{◌≡◌, ◌+◌, ◌<◌, ◌≤◌, List, ℕ, length, false, Some};
ghost use Rattle.std.specs.Prelude.{IfOk, OnOk, OnErr, IsOk};
ghost use Rattle.agent_base.specs.Counts.{HasCause};
ghost use Rattle.disk_model.specs.Disk.{View, Holds, Written, Torn, Goes, Follows, IsSettled};
ghost use Rattle.disk_model.specs.Disk.{Elapses, Stays, Device, HasFailed, UsesRoom};
ghost use Rattle.disk_model.specs.Carried.{TellsSame};
ghost use Rattle.disk_model.specs.DiskLaws.{IsLawful};

use agent_base::{Failed, NoMemory};

/// One file of a device. Clauses on its content hold where it tells its content.
///
/// A call that fails has counted a fault, and may have done what it was asked, or a part of it.
pub trait Disk {
    // what the disk tells
    ghost view: { Self → View };

    /// The length in bytes.
    fn len(&mut self) -> Result<u64, Failed>
        ensures len { IfOk result (λ n. (c : List ℕ) → (view self.old).contents ≡ Some c
            → n ≡ length c) }
        ensures stays { Stays (view self.old) (view self.new) }
        ensures device { Device 0 0 result (view self.old) (view self.new) };

    /// Fills `into` from an offset.
    fn read_at(&mut self, at: u64, into: &mut [u8]) -> Result<(), Failed>
        requires within { (c : List ℕ) → (view self.old).contents ≡ Some c
            → at + length into.old ≤ length c }
        ensures read { OnOk result ((c : List ℕ) → (view self.old).contents ≡ Some c
            → Holds c at into.new) }
        ensures stays { Stays (view self.old) (view self.new) }
        ensures device { Device 0 0 result (view self.old) (view self.new) };

    /// Writes over what is there, and past the end. Takes no memory.
    ///
    /// Until a sync, a cut may leave any bytes in the range, also where the write failed.
    fn write_at(&mut self, at: u64, bytes: &[u8]) -> Result<(), Failed>
        requires place { (c : List ℕ) → (view self.old).contents ≡ Some c → at ≤ length c }
        requires room { at + length bytes.now ≤ (view self.old).room_end }
        requires writes { 0 < (view self.old).room_writes }
        ensures written { OnOk result (Goes (Written at bytes.now)
            (view self.old).contents (view self.new).contents) }
        ensures failed { OnErr result (Goes (Torn at (length bytes.now))
            (view self.old).contents (view self.new).contents) }
        ensures images { Follows (Torn at (length bytes.now))
            (view self.old).may_leave (view self.new).may_leave }
        ensures time { Elapses (view self.old) (view self.new) }
        ensures device { Device 1 1 result (view self.old) (view self.new) };

    /// At `Ok` a cut leaves what a read returns. Takes no memory.
    fn sync(&mut self) -> Result<(), Failed>
        ensures contents { (view self.new).contents ≡ (view self.old).contents }
        ensures settled { OnOk result (IsSettled (view self.new)) }
        ensures images { (c : List ℕ) → (view self.new).may_leave c → (view self.old).may_leave c }
        ensures time { Elapses (view self.old) (view self.new) }
        ensures device { Device 1 0 result (view self.old) (view self.new) };

    /// The power is cut and comes back. Takes no memory.
    ///
    /// The contents become one of the images, nothing is pending, and the past that is told begins
    /// here. A disk that tells its cuts does not fail.
    fn restart(&mut self) -> Result<(), Failed>
        ensures contents { OnOk result (Goes (λ _ d. (view self.old).may_leave d)
            (view self.old).contents (view self.new).contents) }
        ensures anew { OnOk result ((t : ℕ) (c : List ℕ) → (view self.new).left_since t c
            → (view self.new).contents ≡ Some c) }
        ensures failed { OnErr result ((c : List ℕ) → (view self.new).may_leave c
            → (view self.old).may_leave c) }
        ensures cause { HasCause (view self.old).faults (view self.new).faults result }
        ensures tells { (view self.new).tells ≡ (view self.old).tells }
        ensures on { OnOk result (((view self.new).off ≡ false)
            × ((view self.new).failures ≡ (view self.old).failures)
            × ((view self.new).cuts ≡ (view self.old).cuts)) }
        ensures failure { OnErr result (HasFailed (view self.old) (view self.new)) }
        ensures sure { (cuts : List ℕ) → (view self.old).cuts ≡ Some cuts → IsOk result }
        ensures calls { (view self.new).changing ≡ (view self.old).changing }
        ensures room { UsesRoom 0 (view self.old) (view self.new) };

    /// Makes room, so that so many writes that end at most at `end` take no memory.
    fn reserve(&mut self, end: u64, writes: u32) -> Result<(), NoMemory>
        ensures stays { Stays (view self.old) (view self.new) }
        ensures faults { (view self.new).faults ≡ (view self.old).faults }
        ensures power { ((view self.new).off ≡ (view self.old).off)
            × ((view self.new).failures ≡ (view self.old).failures)
            × ((view self.new).cuts ≡ (view self.old).cuts) }
        ensures end { OnOk result (end ≤ (view self.new).room_end) }
        ensures writes { OnOk result (writes ≤ (view self.new).room_writes) }
        ensures room { OnErr result (UsesRoom 0 (view self.old) (view self.new)) };

    // what is told keeps to the laws
    ghost lawful: { (disk : Self) → IsLawful (view disk) };
}

/// A disk whose owner carries out its changing calls, one after another, on a file that only the
/// owner can write.
pub trait Carried: Disk {
    // what the disk is once its owner has carried out the next of its calls
    ghost is_done: { (old new : Self) → Type 0 };

    /// The owner has carried out the next call. What the disk tells stays.
    fn done(&mut self)
        ensures done { is_done self.old self.new }
        ensures same { TellsSame (Self.view self.old) (Self.view self.new) };
}
