//! Row changes by themselves.
use crate::bodies::{Edit, put};
use journal::{Replay, ReplayFault};
use row_changes::{Change, read_change};
use row_store::{RowFault, Rows};
use std::alloc::Global;
use std::test::Fail;

/// The row change of an edit.
pub fn change_by(alloc: Global, edit: Edit) -> Result<Change, Fail> {
    let mut bytes = Vec::new(alloc);
    put(&mut bytes, edit)?;
    match read_change(alloc, bytes.as_slice())? {
        Some((change, _)) => Ok(change),
        None => Err(Fail::new("no row change")),
    }
}

/// Applies a row change that has a spelling, where there is room for it.
pub fn apply(rows: &mut Rows, change: Change) -> Result<Result<(), RowFault>, Fail> {
    rows.reserve(&change)?;
    if !rows.has_spelling(&change)? {
        return Err(Fail::new("no spelling"));
    }
    Ok(rows.apply(change))
}

/// The rows behind these row changes, each applied by itself.
pub fn applied(alloc: Global, edits: &[Edit]) -> Result<Rows, Fail> {
    let mut rows = Rows::new(alloc);
    for edit in edits {
        if apply(&mut rows, change_by(alloc, *edit)?)?.is_err() {
            return Err(Fail::new("not applied"));
        }
    }
    Ok(rows)
}

/// What empty rows answer to a frame.
pub fn taken(alloc: Global, snapshot: bool, body: &[u8]) -> Result<u64, ReplayFault> {
    Rows::new(alloc).frame(snapshot, body)
}

/// Whether rows have the state of others, by their snapshots.
pub fn have_one_state(alloc: Global, rows: &Rows, others: &Rows) -> Result<bool, Fail> {
    let ours = rows.snapshot(alloc)?;
    Ok(others.snapshot(alloc)?.as_slice() == ours.as_slice())
}

/// Whether rows have the state that a snapshot frame of these row changes leads to.
pub fn is_as_taken(alloc: Global, rows: &Rows, body: &[u8]) -> Result<bool, Fail> {
    let mut taken = Rows::new(alloc);
    Ok(taken.frame(true, body) == Ok(0) && have_one_state(alloc, rows, &taken)?)
}
