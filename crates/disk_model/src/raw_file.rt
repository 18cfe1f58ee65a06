//! A file of the system, whose calls may read or write a part of what they are asked.
ghost use Rattle.std.specs.Prelude.{◌≡◌, ◌^◌, ◌<◌, ◌≤◌, List, ℕ, length, Some};
ghost use Rattle.std.specs.Prelude.{IfOk, OnOk, OnErr};
ghost use Rattle.disk_model.specs.Disk.{View, Torn, Goes, Follows, IsSettled, Elapses, Stays};
ghost use Rattle.disk_model.specs.DiskLaws.{IsLawful};
ghost use Rattle.disk_model.specs.RawFile.{HoldsFirst, WrittenFirst, CountsFault, IsTornIn, StaysTorn};

use agent_base::Failed;

/// An open file. What it tells of its bytes and of its faults is said as of a disk; its other
/// counts are not looked at.
///
/// [`FileDisk`](crate::FileDisk) makes a disk of it. Its proof holds for each file that tells, so
/// that of a file of the system only the few lines of [`SystemFile`](crate::SystemFile) are
/// believed.
pub trait RawFile {
    // what the file tells
    ghost view: { Self → View };

    /// The length in bytes.
    fn len(&mut self) -> Result<u64, Failed>
        ensures len { IfOk result (λ n. (c : List ℕ) → (view self.old).contents ≡ Some c
            → n ≡ length c) }
        ensures stays { Stays (view self.old) (view self.new) }
        ensures faults { CountsFault result (view self.old) (view self.new) };

    /// Reads the first bytes from an offset, as many as it answers, and at least one.
    fn read_some(&mut self, at: u64, into: &mut [u8]) -> Result<usize, Failed>
        requires some { 0 < length into.old }
        ensures some { IfOk result (λ n. (0 < n) × (n ≤ length into.old)) }
        ensures read { IfOk result (λ n. (c : List ℕ) → (view self.old).contents ≡ Some c
            → HoldsFirst c at n into.new) }
        ensures stays { Stays (view self.old) (view self.new) }
        ensures faults { CountsFault result (view self.old) (view self.new) };

    /// Writes the first of these bytes, as many as it answers, and at least one.
    ///
    /// Until a sync that succeeds, a cut may leave any bytes in the whole range, and what it might
    /// have left before.
    fn write_some(&mut self, at: u64, bytes: &[u8]) -> Result<usize, Failed>
        requires some { 0 < length bytes.now }
        requires place { (c : List ℕ) → (view self.old).contents ≡ Some c → at ≤ length c }
        ensures some { IfOk result (λ n. (0 < n) × (n ≤ length bytes.now)) }
        ensures written { IfOk result (λ n. Goes (WrittenFirst at bytes.now n)
            (view self.old).contents (view self.new).contents) }
        ensures failed { OnErr result (Goes (Torn at (length bytes.now))
            (view self.old).contents (view self.new).contents) }
        ensures images { Follows (Torn at (length bytes.now))
            (view self.old).may_leave (view self.new).may_leave }
        ensures kept { (c : List ℕ) → (view self.old).may_leave c → (view self.new).may_leave c }
        ensures torn { IsTornIn at (length bytes.now) (view self.new).may_leave }
        ensures still_torn { StaysTorn (view self.old).may_leave (view self.new).may_leave }
        ensures time { Elapses (view self.old) (view self.new) }
        ensures tells { (view self.new).tells ≡ (view self.old).tells }
        ensures faults { CountsFault result (view self.old) (view self.new) };

    /// At `Ok` a cut leaves what a read returns.
    fn sync(&mut self) -> Result<(), Failed>
        ensures contents { (view self.new).contents ≡ (view self.old).contents }
        ensures settled { OnOk result (IsSettled (view self.new)) }
        ensures images { (c : List ℕ) → (view self.new).may_leave c → (view self.old).may_leave c }
        ensures still_torn { OnErr result
            (StaysTorn (view self.old).may_leave (view self.new).may_leave) }
        ensures time { Elapses (view self.old) (view self.new) }
        ensures tells { (view self.new).tells ≡ (view self.old).tells }
        ensures faults { CountsFault result (view self.old) (view self.new) };

    /// The power is cut and comes back. A file of the system stays as it is.
    fn restart(&mut self) -> Result<(), Failed>
        ensures contents { OnOk result (Goes (λ _ d. (view self.old).may_leave d)
            (view self.old).contents (view self.new).contents) }
        ensures anew { OnOk result ((t : ℕ) (c : List ℕ) → (view self.new).left_since t c
            → (view self.new).contents ≡ Some c) }
        ensures failed { OnErr result ((c : List ℕ) → (view self.new).may_leave c
            → (view self.old).may_leave c) }
        ensures tells { (view self.new).tells ≡ (view self.old).tells }
        ensures faults { CountsFault result (view self.old) (view self.new) };

    // what is told keeps to the laws of a disk
    ghost lawful: { (file : Self) → IsLawful (view file) };

    // each offset in what is told is a number of 64 bits
    ghost fits: { (file : Self) (c : List ℕ) → (view file).contents ≡ Some c
        → length c < 2 ^ 64 };
}
