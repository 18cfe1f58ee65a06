//! The line of a row.
ghost use Rattle.std.specs.Prelude.{◌≡◌, ◌++◌, ℕ, List, OnErr, OnOk};
ghost use Rattle.row_lines.specs.Plain.{plain_row};
ghost use Rattle.row_lines.specs.Row.{row_text};

use crate::Row;
use crate::rows::put_row;
use agent_base::NoMemory;
use json::Writer;
use std::alloc::Global;
use std::mem;

/// Puts the line of a row, with its line feed, behind what stands in a buffer.
pub fn print_row(text: &mut Vec<u8>, row: Row<'_>) -> Result<(), NoMemory>
    ensures line { OnOk result (text.new.items ≡ text.old.items ++ row_text (plain_row row.entry)) }
    ensures unchanged { OnErr result (text.new.items ≡ text.old.items) }
{
    let before = text.len();
    let written = put_line(*text.allocator(), text, row);
    if written.is_err() {
        text.truncate(before);
    }
    written
}

// Where memory is wanted, a part of the line may stand there.
fn put_line(alloc: Global, text: &mut Vec<u8>, row: Row<'_>) -> Result<(), NoMemory>
    ensures line { OnOk result (text.new.items ≡ text.old.items ++ row_text (plain_row row.entry)) }
    ensures front { (rest : List ℕ) × (text.new.items ≡ text.old.items ++ rest) }
{
    let mut writer = Writer::new(mem::replace(text, Vec::new(alloc)));
    let written = put_row(alloc, &mut writer, row);
    *text = writer.into_inner();
    written?;
    Ok(text.extend_from_slice(b"\n")?)
}
