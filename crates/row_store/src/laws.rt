//! The laws that tie durable states to the bodies that they are written in, to suffix lists, and to
//! files.
ghost use Rattle.row_store.specs.FileLaws.{FilesMeanOne, StoresHaveNoFault, StoresMeanOne};
ghost use Rattle.row_store.specs.Laws.{EditsKeepSpelled, EditsKeepSpelledUnder, EditsKeepStorable};
ghost use Rattle.row_store.specs.Laws.{KeepsEachCell, KeepsKept, SnapshotsAreSpelled};
ghost use Rattle.row_store.specs.Laws.{SnapshotsAreSpelledUnder, SnapshotsMean, WrittenBodiesMean};
ghost use Rattle.row_store.specs.MigrateLaws.{MigratedIsRead, MigratedIsSpelled};
ghost use Rattle.row_store.specs.MigrateLaws.{MigratedIsStorable, SpelledStays};
ghost use Rattle.row_store.specs.MigrateLaws.{StayingIsSpelled, UnderIsSpelled};

/// A body of durable changes that are valid one after another means the state that they lead to,
/// and the snapshot of a state means this state. What outlives a restart is told of each cell.
pub fn bodies_mean_states()
    ensures bodies { WrittenBodiesMean }
    ensures storable { EditsKeepStorable }
    ensures snapshots { SnapshotsMean }
    ensures spelled { EditsKeepSpelled }
    ensures spelled_under { EditsKeepSpelledUnder }
    ensures listed { SnapshotsAreSpelled }
    ensures listed_under { SnapshotsAreSpelledUnder }
    ensures kept { KeepsEachCell }
    ensures whole { KeepsKept }
{}

/// What stays of a state under a list is such a state again, and the states of which all stays
/// under a list are those whose row changes have a spelling under it.
pub fn states_stay_spelled()
    ensures storable { MigratedIsStorable }
    ensures spelled { MigratedIsSpelled }
    ensures read { MigratedIsRead }
    ensures staying { StayingIsSpelled }
    ensures stays { SpelledStays }
    ensures under { UnderIsSpelled }
{}

/// A file stands for one state, and one that stands for a state has no fault.
pub fn files_mean_one_state()
    ensures stores { StoresMeanOne }
    ensures files { FilesMeanOne }
    ensures faultless { StoresHaveNoFault }
{}
