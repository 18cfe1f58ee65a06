//! Opens the store on a disk, and reads what is durable under a list.
ghost use Rattle.std.specs.Prelude.{◌≡◌, ◌⊎◌, ℕ, IfErr, IfOk, IsErrOf, List, MatchResult, Some};
ghost use Rattle.std.specs.Prelude.{true, false};
ghost use Rattle.disk_model.specs.Disk.{IsSettled, LeavesOnly, Makes};
ghost use Rattle.journal.specs.Opening.{IsExcused, IsOfFile, IsRefusal};
ghost use Rattle.journal.specs.Opening.{IsLimitRefusal, IsOver, IsWithin, Opens};
ghost use Rattle.journal.specs.declared.open_fault.OpenFault.{OpenFault};
ghost use Rattle.open_store.specs.Commits.{IsEither2};
ghost use Rattle.open_store.specs.Reopens.{LeavesAnew, Reopens};
ghost use Rattle.durable_model.specs.Migrate.{IsUnder, migrate};
ghost use Rattle.durable_model.specs.Saved.{Saved, nothing_saved};
ghost use Rattle.row_store.specs.Bodies.{Refuses, Takes};
ghost use Rattle.row_store.specs.Stored.{saved_of};
ghost use Rattle.row_opening.specs.Opened.{IsAtBase, IsFound, IsOpened, IsReopeningUnder};
ghost use Rattle.row_opening.specs.Opened.{LeavesUnder};
ghost use Rattle.row_opening.specs.Settling.{IsSettling, settle_calls};
ghost use Rattle.row_opening.specs.Under.{IsOpeningUnder, MakesCalls, MeansUnder};

use disk_model::Disk;
use durable_model::states_migrate;
use journal::{Journal, OpenFault};
use row_store::{Parts, Rows, bodies_mean_states, files_mean_one_state};
use std::alloc::Global;
use suffix_list::SuffixList;

/// A store that was opened, and the parts of the durable state that it stands for.
#[derive(Debug, Drop)]
pub struct Opened {
    pub journal: Journal,
    pub parts: Parts,
}

// Writes the state of rows that is one under a list as one snapshot under it, in the place of what
// the store has. Seven changing calls.
fn rewrite<D: Disk>(
    alloc: Global,
    disk: &mut D,
    list: &SuffixList,
    mut journal: Journal,
    rows: Rows,
) -> Result<Opened, OpenFault>
    requires on { (D.view disk.old).off ≡ false }
    requires stands { (base : Saved) × IsAtBase journal (D.view disk.old) base }
    requires under { IsUnder list.now.rules (saved_of rows.parts) }
    ensures opened { IfOk result (λ o. IsOpened list.now o.journal (D.view disk.new) o.parts) }
    ensures state { IfOk result (λ o. (saved_of o.parts ≡ saved_of rows.parts)
        × (o.journal.changes ≡ journal.changes)) }
    ensures excused { IfErr result IsExcused }
    ensures device { Opens result (D.view disk.old) (D.view disk.new) }
    ensures calls { Makes 7 result (D.view disk.old) (D.view disk.new) }
    ensures any_moment { (base : Saved) → IsAtBase journal (D.view disk.old) base
        → (D.view disk.old).tells ≡ true
        → LeavesOnly (D.view disk.old) (D.view disk.new)
        (IsEither2 Takes nothing_saved journal.digest base journal.changes
        list.now.digest (saved_of rows.parts) journal.changes) }
{
    bodies_mean_states();
    let Ok(body) = rows.snapshot(alloc) else {
        return Err(OpenFault::NoMemory);
    };
    let Ok(()) = journal.reserve(disk, body.len()) else {
        return Err(OpenFault::NoMemory);
    };
    let parts = rows.into_parts_under(list);
    let Ok(()) = journal.checkpoint(disk, &list.digest(), &body) else {
        return Err(OpenFault::DeviceFault);
    };
    Ok(Opened { journal, parts })
}

// Drops what of the rows is none under a list. Where something goes, or the store stands under
// another list, it writes what stays as one snapshot.
fn settle<D: Disk>(
    alloc: Global,
    disk: &mut D,
    list: &SuffixList,
    journal: Journal,
    mut rows: Rows,
) -> Result<Opened, OpenFault>
    requires on { (D.view disk.old).off ≡ false }
    requires stands { IsAtBase journal (D.view disk.old) (saved_of rows.parts) }
    ensures opened { IfOk result (λ o. IsOpened list.now o.journal (D.view disk.new) o.parts) }
    ensures state { let saved = saved_of rows.parts in
        IfOk result (λ o. (saved_of o.parts ≡ migrate list.now.rules saved)
        × (o.journal.changes ≡ journal.changes)) }
    ensures excused { IfErr result IsExcused }
    ensures device { Opens result (D.view disk.old) (D.view disk.new) }
    ensures calls { Makes (settle_calls list.now journal.digest (saved_of rows.parts)) result
        (D.view disk.old) (D.view disk.new) }
    ensures any_moment { (c : List ℕ) → (D.view disk.old).contents ≡ Some c
        → LeavesOnly (D.view disk.old) (D.view disk.new)
        (IsSettling list.now journal.digest (saved_of rows.parts) journal.changes c) }
{
    states_migrate();
    let went = rows.migrate(list);
    if !went && *journal.digest() == list.digest() {
        Ok(Opened {
            journal,
            parts: rows.into_parts_under(list),
        })
    } else {
        rewrite(alloc, disk, list, journal, rows)
    }
}

/// Opens the store on a disk, or makes one where the file is no store yet.
///
/// A store may stand under any list. What of it is none under this one goes; what stays is written
/// as one snapshot under this list, where something went or the list is another.
pub fn open_rows<D: Disk>(
    alloc: Global,
    disk: &mut D,
    list: &SuffixList,
) -> Result<Opened, OpenFault>
    ensures opened { IfOk result (λ o. IsOpened list.now o.journal (D.view disk.new) o.parts) }
    ensures means { (c kept : List ℕ) (d : Saved) (n : ℕ) → (D.view disk.old).contents ≡ Some c
        → IsWithin true c → MeansUnder list.now.digest kept c d n
        → MatchResult result (λ o. (saved_of o.parts ≡ migrate list.now.rules d)
        × (o.journal.changes ≡ n)) IsExcused }
    ensures within { IfOk result (λ _. (c : List ℕ) → (D.view disk.old).contents ≡ Some c
        → IsWithin true c) }
    ensures stood { IfOk result (λ o. (c : List ℕ) → (D.view disk.old).contents ≡ Some c
        → (kept : List ℕ) × (d : Saved)
        × MeansUnder list.now.digest kept c d o.journal.changes
        × (saved_of o.parts ≡ migrate list.now.rules d)) }
    ensures refused { (why : OpenFault) → IsErrOf result why → (c : List ℕ)
        → (D.view disk.old).contents ≡ Some c
        → IsRefusal Takes Refuses nothing_saved true c why }
    ensures exactly { (why : OpenFault) (c : List ℕ) → (D.view disk.old).contents ≡ Some c
        → IsOfFile why → IsRefusal Takes Refuses nothing_saved true c why
        → MatchResult result (λ _. ⊥) (λ w. (w ≡ why) ⊎ IsExcused w) }
    ensures limit { (c : List ℕ) → (D.view disk.old).contents ≡ Some c → IsOver true c
        → MatchResult result (λ _. ⊥) (IsLimitRefusal c) }
    ensures unchanged { (why : OpenFault) → IsErrOf result why → IsOfFile why
        → (D.view disk.new).contents ≡ (D.view disk.old).contents }
    ensures images { (why : OpenFault) → IsErrOf result why → IsOfFile why
        → (file : List ℕ) → (D.view disk.new).may_leave file
        → (D.view disk.old).may_leave file }
    ensures device { Opens result (D.view disk.old) (D.view disk.new) }
    ensures calls { (c : List ℕ) → (D.view disk.old).contents ≡ Some c
        → MakesCalls list.now c result (D.view disk.old) (D.view disk.new) }
    ensures any_moment { IsSettled (D.view disk.old) → (c : List ℕ)
        → (D.view disk.old).contents ≡ Some c
        → LeavesOnly (D.view disk.old) (D.view disk.new) (IsOpeningUnder list.now c) }
{
    states_migrate();
    let mut rows = Rows::new(alloc);
    match Journal::open(alloc, disk, &list.digest(), true, &mut rows) {
        Ok(journal) => settle(alloc, disk, list, journal, rows),
        Err(why) => Err(why),
    }
}

/// Cuts the power of a disk, and opens the store that is left, as [`open_rows`] does.
///
/// Over a disk that tells its contents, and has a store under this list, nothing goes, and nothing
/// is written.
pub fn reopen_rows<D: Disk>(
    alloc: Global,
    disk: &mut D,
    list: &SuffixList,
) -> Result<Opened, OpenFault>
    ensures opened { IfOk result (λ o. IsOpened list.now o.journal (D.view disk.new) o.parts) }
    ensures found { (D.view disk.old).tells ≡ true → LeavesUnder list.now (D.view disk.old)
        → IfOk result (λ o. IsFound list.now.digest (D.view disk.old)
        (saved_of o.parts) o.journal.changes) }
    ensures excused { (D.view disk.old).tells ≡ true → LeavesUnder list.now (D.view disk.old)
        → IfErr result IsExcused }
    ensures any_moment { LeavesAnew result (D.view disk.old) (D.view disk.new)
        (IsReopeningUnder list.now (D.view disk.old)) }
    ensures device { Reopens result (D.view disk.old) (D.view disk.new) }
    ensures calls { (D.view disk.old).tells ≡ true → LeavesUnder list.now (D.view disk.old)
        → Makes 1 result (D.view disk.old) (D.view disk.new) }
{
    states_migrate();
    files_mean_one_state();
    let mut rows = Rows::new(alloc);
    match open_store::reopen(alloc, disk, &list.digest(), &mut rows) {
        Ok(journal) => settle(alloc, disk, list, journal, rows),
        Err(why) => Err(why),
    }
}
