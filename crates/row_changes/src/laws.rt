//! The laws that tie row changes to their bytes.
ghost use Rattle.row_changes.specs.Laws.{ReadsBack, IsOneSpelling, BodiesReadBack};
ghost use Rattle.row_changes.specs.Laws.{PiecesAreSpelled, SnapshotsReadBack};
ghost use Rattle.row_changes.specs.Under.{HostsTellRows};

/// A row change reads back from its bytes, whatever stands behind them, and what is read as a row
/// change is its bytes. A whole body reads back as the pieces that were written into it,
/// and each row change that is read of any body has a spelling. Of one that has, the texts of its
/// hosts tell whether it is of rows under a list.
pub fn changes_read_back()
    ensures reads_back { ReadsBack }
    ensures one_spelling { IsOneSpelling }
    ensures bodies { BodiesReadBack }
    ensures snapshots { SnapshotsReadBack }
    ensures spelled { PiecesAreSpelled }
    ensures stays { HostsTellRows }
{}
