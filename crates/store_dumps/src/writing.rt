//! Writes rows, each as a line of JSON.
ghost use Rattle.std.specs.Prelude.{◌≡◌, ◌∷◌, ◌++◌, [], Ok, OnOk, map};
ghost use Rattle.row_changes.specs.Plain.{plain_change};
ghost use Rattle.store_dumps.specs.Dump.{WriteCounts, Writes, rows_text};
ghost use Rattle.store_dumps.specs.Opening.{opening_of};

use crate::DumpFault;
use agent_base::{NoMemory, Sink, write_all};
use row_changes::Change;
use row_lines::{Row, print_row};
use std::alloc::Global;
use waiting_lines::write_many;

/// Writes the lines of rows. They wait in memory, and are written together.
pub fn write_rows<O: Sink>(alloc: Global, rows: &[Change], out: &mut O) -> Result<(), DumpFault>
    ensures open { opening_of result ≡ Ok tt }
    ensures written { Writes (rows_text (map plain_change rows.now)) result
        (O.taken out.old) (O.taken out.new) }
    ensures count { WriteCounts result (O.faults out.old) (O.faults out.new) }
{
    let mut waiting = Vec::new(alloc);
    for row in rows {
        hold(row, &mut waiting)?;
        write_many(out, &mut waiting)?;
    }
    Ok(write_all(out, &waiting)?)
}

// The line of a row waits behind what waits already.
fn hold(row: &Change, waiting: &mut Vec<u8>) -> Result<(), NoMemory>
    ensures { OnOk result (waiting.new.items
        ≡ waiting.old.items ++ rows_text (plain_change row.now ∷ [])) }
{
    match Row::of(row) {
        Some(row) => print_row(waiting, row),
        None => Ok(()),
    }
}
