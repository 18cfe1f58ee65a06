//! Where row changes go, one after another.
ghost use Rattle.std.specs.Prelude.{◌≡◌, ◌∷◌, ◌++◌, [], List, OnOk, map};
ghost use Rattle.row_changes.specs.Change.{PlainChange};
ghost use Rattle.row_changes.specs.Plain.{plain_change, plain_ref};
ghost use Rattle.row_store.specs.Kept.{kept_change};

use agent_base::NoMemory;
use row_changes::{Change, ChangeRef, append_row};

/// Where row changes go, one after another.
pub trait RowSink {
    // the second has these row changes behind what the first has
    ghost adds: { Self → List PlainChange → Self → Type 0 };

    /// Takes a row change.
    fn add(&mut self, change: ChangeRef<'_>) -> Result<(), NoMemory>
        ensures added { OnOk result (adds self.old (plain_ref change.entry ∷ []) self.new) };

    // None changes nothing, and others come behind those that were taken.
    ghost none: { (s : Self) → adds s [] s };

    ghost then: { (s t u : Self) (xs ys : List PlainChange)
        → adds s xs t → adds t ys u → adds s (xs ++ ys) u };
}

/// A list of row changes.
impl RowSink for Vec<Change> {
    ghost use Rattle.row_store.specs.Sinks.{IsListed, listed_none, listed_then};

    ghost adds = { λ s rows t. IsListed s.items rows t.items };

    ghost none = { λ s. listed_none s.items };

    ghost then = { λ s t u xs ys first second.
        listed_then s.items t.items u.items xs ys first second };

    fn add(&mut self, change: ChangeRef<'_>) -> Result<(), NoMemory> {
        push_row(self, change.copy(*self.allocator())?)
    }
}

/// A list of row changes as they outlive a restart, so that no cookie has a last use.
#[derive(Debug, Drop)]
pub struct KeptRows {
    pub rows: Vec<Change>,
}

impl RowSink for KeptRows {
    ghost use Rattle.row_store.specs.Kept.{kept_change};
    ghost use Rattle.row_store.specs.Sinks.{IsListed, kept_none, kept_then};

    ghost adds = { λ s rows t. IsListed s.rows.items (map kept_change rows) t.rows.items };

    ghost none = { λ s. kept_none s.rows.items };

    ghost then = { λ s t u xs ys first second.
        kept_then s.rows.items t.rows.items u.rows.items xs ys first second };

    fn add(&mut self, change: ChangeRef<'_>) -> Result<(), NoMemory> {
        let row = without_use(change.copy(*self.rows.allocator())?);
        push_row(&mut self.rows, row)
    }
}

/// The body of a snapshot.
impl RowSink for Vec<u8> {
    ghost use Rattle.row_store.specs.Sinks.{IsWritten, written_none, written_then};

    ghost adds = { λ s rows t. IsWritten s.items rows t.items };

    ghost none = { λ s. written_none s.items };

    ghost then = { λ s t u xs ys first second.
        written_then s.items t.items u.items xs ys first second };

    fn add(&mut self, change: ChangeRef<'_>) -> Result<(), NoMemory> {
        append_row(self, change)
    }
}

// A row change whose cookie comes with no last use.
fn without_use(change: Change) -> Change
    ensures { plain_change result ≡ kept_change (plain_change change) }
{
    match change {
        Change::CookieInsert {
            cell,
            place,
            mut cookie,
        } => {
            cookie.last = 0;
            Change::CookieInsert {
                cell,
                place,
                cookie,
            }
        }
        other => other,
    }
}

fn push_row(rows: &mut Vec<Change>, row: Change) -> Result<(), NoMemory>
    ensures pushed { OnOk result (map plain_change rows.new.items
        ≡ map plain_change rows.old.items ++ (plain_change row ∷ [])) }
{
    match rows.push(row) {
        Ok(()) => Ok(()),
        Err(_) => Err(NoMemory),
    }
}
