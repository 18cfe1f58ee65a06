//! Opens the store on a disk, and reads what is durable under a list.
ghost use Rattle.std.specs.Prelude.{◌≡◌, ℕ, IfOk, List, Some, true};
ghost use Rattle.journal.specs.Opening.{IsWithin};
ghost use Rattle.durable_model.specs.Migrate.{IsUnder, migrate};
ghost use Rattle.durable_model.specs.Saved.{IsValid, Saved};
ghost use Rattle.spelled_model.specs.Rows.{IsReadSavedUnder};
ghost use Rattle.row_store.specs.Stored.{saved_of};
ghost use Rattle.row_opening.specs.Under.{MeansUnder};
ghost use Rattle.store_dumps.specs.Dump.{StandsAsTold};
ghost use Rattle.store_dumps.specs.Opening.{OpensStore, opened};

use disk_model::Disk;
use journal::OpenFault;
use row_opening::open_rows;
use row_store::Parts;
use std::alloc::Global;
use suffix_list::SuffixList;

/// The parts of what stays, under a list, of the durable state that the store on a disk stands for.
pub fn open<D: Disk>(alloc: Global, disk: &mut D, list: &SuffixList) -> Result<Parts, OpenFault>
    ensures opening { OpensStore list.now (D.view disk.old) (D.view disk.new) (opened result) }
    ensures means { (c kept : List ℕ) (d : Saved) (n : ℕ) → (D.view disk.old).contents ≡ Some c
        → IsWithin true c → MeansUnder list.now.digest kept c d n
        → IfOk result (λ parts. saved_of parts ≡ migrate list.now.rules d) }
    ensures stands { IfOk result (λ parts. StandsAsTold list.now (D.view disk.old).contents
        (saved_of parts)) }
    ensures valid { IfOk result (λ parts. IsValid (saved_of parts)) }
    ensures under { IfOk result (λ parts. IsUnder list.now.rules (saved_of parts)) }
    ensures read { IfOk result (λ parts. IsReadSavedUnder list.now.rules (saved_of parts)) }
{
    let opened = open_rows(alloc, disk, list)?;
    Ok(opened.parts)
}
