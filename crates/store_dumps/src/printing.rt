//! Prints the rows of a store.
ghost use Rattle.std.specs.Prelude.{◌≡◌, ℕ, List, Some, true};
ghost use Rattle.journal.specs.Opening.{IsWithin};
ghost use Rattle.durable_model.specs.Migrate.{migrate};
ghost use Rattle.durable_model.specs.Saved.{Saved};
ghost use Rattle.row_opening.specs.Under.{MeansUnder};
ghost use Rattle.store_dumps.specs.Dump.{WriteCounts, Writes, WritesSome, dump_text};
ghost use Rattle.store_dumps.specs.Opening.{OpensStore, opening_of};

use crate::DumpFault;
use crate::opening::open;
use crate::writing::write_rows;
use agent_base::Sink;
use disk_model::Disk;
use std::alloc::Global;
use suffix_list::SuffixList;

/// Opens the store on a disk, and writes a line for each of its rows to `out`.
///
/// A store over the limit of size is refused, and a file that is no store yet is made one. A store
/// under another suffix list is opened as an agent opens it: what of it is none under this list
/// goes from the disk, and the lines are those of what stays. Lines wait in memory, and are written
/// together; where memory is wanting, those that wait are not.
pub fn dump<D: Disk, O: Sink>(
    alloc: Global,
    disk: &mut D,
    list: &SuffixList,
    out: &mut O,
) -> Result<(), DumpFault>
    // What the sink took of the rows of what stays of the state that the file stands for.
    ensures written { (c kept : List ℕ) (d : Saved) (n : ℕ) → (D.view disk.old).contents ≡ Some c
        → IsWithin true c → MeansUnder list.now.digest kept c d n
        → Writes (dump_text (migrate list.now.rules d)) result (O.taken out.old) (O.taken out.new) }
    // They are the rows of one state in each case, which is what stays of the one that the file
    // stands for where the disk tells its contents.
    ensures rows { WritesSome list.now (D.view disk.old).contents result
        (O.taken out.old) (O.taken out.new) }
    ensures count { WriteCounts result (O.faults out.old) (O.faults out.new) }
    ensures opening { OpensStore list.now (D.view disk.old) (D.view disk.new) (opening_of result) }
{
    let parts = open(alloc, disk, list)?;
    let rows = parts.listing(alloc)?;
    write_rows(alloc, &rows, out)
}
