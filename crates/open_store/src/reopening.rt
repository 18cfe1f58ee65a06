//! The power is cut, and the store that is left is opened.
ghost use Rattle.std.specs.Prelude.{◌≡◌, ℕ, List, true, IfErr, IfOk, IsErrOf};
ghost use Rattle.disk_model.specs.Disk.{Makes};
ghost use Rattle.journal.specs.Opening.{IsExcused, LeavesAlone};
ghost use Rattle.journal.specs.declared.open_fault.OpenFault.{OpenFault};
ghost use Rattle.open_store.specs.Reopens.{IsFound, IsReopening, IsStood, LeavesAnew};
ghost use Rattle.open_store.specs.Reopens.{LeavesStores, Reopens};
ghost use Rattle.open_store.specs.Standing.{StandsAt};

use disk_model::Disk;
use journal::{Journal, OpenFault, Replay};
use std::alloc::Global;

/// Cuts the power of a disk, and opens the store that is left, under whichever list it stands. Its
/// frames lead `into` to the state that it stands for.
///
/// Of a disk that tells its contents, and may be left with nothing but stores under one list, it
/// finds one of these, refuses none, and makes one changing call, a sync.
pub fn reopen<D: Disk, R: Replay>(
    alloc: Global,
    disk: &mut D,
    digest: &[u8; 32],
    into: &mut R,
) -> Result<Journal, OpenFault>
    ensures stands { IfOk result (λ j. StandsAt (R.takes (R.rules into.old)) R.empty j
        (D.view disk.new) (R.state into.new)) }
    ensures stood { (D.view disk.old).tells ≡ true
        → IfOk result (λ j. IsStood (R.takes (R.rules into.old)) R.empty digest.now j.digest
        (D.view disk.old) (R.state into.new) j.changes) }
    ensures found { (held : List ℕ) → (D.view disk.old).tells ≡ true
        → LeavesStores (R.takes (R.rules into.old)) R.empty held (D.view disk.old)
        → IfOk result (λ j. (j.digest ≡ held) × IsFound (R.takes (R.rules into.old)) R.empty held
        (D.view disk.old) (R.state into.new) j.changes) }
    ensures excused { (held : List ℕ) → (D.view disk.old).tells ≡ true
        → LeavesStores (R.takes (R.rules into.old)) R.empty held (D.view disk.old)
        → IfErr result IsExcused }

    // A refusal of a file leaves no more than a cut might have left before.
    ensures images { (why : OpenFault) → IsErrOf result why → LeavesAlone why
        → (file : List ℕ) → (D.view disk.new).may_leave file → (D.view disk.old).may_leave file }

    // At each moment from the disk's own restart on, a cut leaves a file that it might have left
    // before, or of an unborn one what an opening makes.
    ensures any_moment { LeavesAnew result (D.view disk.old) (D.view disk.new)
        (IsReopening digest.now (D.view disk.old)) }
    ensures rules { R.rules into.new ≡ R.rules into.old }
    ensures device { Reopens result (D.view disk.old) (D.view disk.new) }
    ensures calls { (held : List ℕ) → (D.view disk.old).tells ≡ true
        → LeavesStores (R.takes (R.rules into.old)) R.empty held (D.view disk.old)
        → Makes 1 result (D.view disk.old) (D.view disk.new) }
{
    if disk.restart().is_err() {
        return Err(OpenFault::DeviceFault);
    }
    Journal::open(alloc, disk, digest, false, into)
}
