//! The cells that have cookies.
ghost use Rattle.std.specs.Prelude.{◌≡◌, ◌++◌, ◌∷◌, [], IfOk, OnOk, filter, map};
ghost use Rattle.std.specs.Map.{keys_of};
ghost use Rattle.cookie_jar.specs.Key.{plain_key};
ghost use Rattle.web_cookies.specs.Listed.{cells_in, is_listed, is_of_kind};

use crate::cookies::Cookies;
use agent_base::NoMemory;
use cookie_jar::{CellKey, Jar};
use partition_limits::CellKind;
use std::alloc::Global;
use std::collections::btree_map::Range;

impl Cookies {
    /// The cells of a kind that have cookies, in the order of keys: unpartitioned ones by the bytes
    /// of their domains, and partitioned ones by top-level site, bit and domain.
    pub fn cells(&self, alloc: Global, kind: CellKind) -> Result<Vec<CellKey>, NoMemory>
        ensures cells { IfOk result (λ cells. map plain_key cells.items ≡ cells_in kind self.now) }
    {
        let mut cells = Vec::new(alloc);
        let Some(first) = self.cells.next_key(None) else {
            return Ok(cells);
        };
        push_cells(alloc, self.cells.range_from(first), kind, &mut cells)?;
        Ok(cells)
    }
}

// Adds copies of the keys of a range whose cells are of a kind and have cookies.
fn push_cells(
    alloc: Global,
    range: Range<'_, CellKey, Jar>,
    kind: CellKind,
    cells: &mut Vec<CellKey>,
) -> Result<(), NoMemory>
    ensures pushed { let more = map plain_key (keys_of (filter (is_listed kind) range.entry)) in
        OnOk result (map plain_key cells.new.items ≡ map plain_key cells.old.items ++ more) }
{
    for (cell, jar) in range {
        if is_of_kind(cell, kind) && jar.len() > 0 {
            push_copy(alloc, cell, cells)?;
        }
    }
    Ok(())
}

fn is_of_kind(cell: &CellKey, kind: CellKind) -> bool
    ensures { result ≡ is_of_kind kind (plain_key cell.now) }
{
    match cell {
        CellKey::Own { .. } => matches!(kind, CellKind::Own),
        CellKey::Partition { .. } => matches!(kind, CellKind::Partition),
    }
}

// Adds a copy of a key.
fn push_copy(alloc: Global, cell: &CellKey, cells: &mut Vec<CellKey>) -> Result<(), NoMemory>
    ensures pushed { OnOk result (map plain_key cells.new.items
        ≡ map plain_key cells.old.items ++ (plain_key cell.now ∷ [])) }
{
    match cells.push(cell.copy(alloc)?) {
        Ok(()) => Ok(()),
        Err(_) => Err(NoMemory),
    }
}
