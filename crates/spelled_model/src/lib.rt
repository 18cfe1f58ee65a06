//! Each row change that a line makes has a spelling and is of rows under the list, so that a body
//! of row changes that was written of a line is never refused when it is read back, under any list.
//!
//! This crate is definitions and one law. Its function has no body. `specs/` says which worlds,
//! which durable states and which lines the law speaks of.
#![tactic(auto)]

ghost use Rattle.spelled_model.specs.Laws.{LinesAreSpelled, LinesStayRead, OpensRead};
ghost use Rattle.spelled_model.specs.Laws.{NothingIsRead, ReadUnder, RowsStayRead, RowsStayUnder};

/// The row changes of each line have a spelling and are of rows under the list, in every world that
/// a run over a store reaches.
pub fn lines_have_spellings()
    ensures spelled { LinesAreSpelled }
    ensures stays { LinesStayRead }
    ensures opens { OpensRead }
    ensures nothing { NothingIsRead }
    ensures rows { RowsStayRead }
    ensures under { RowsStayUnder }
    ensures read { ReadUnder }
{}
