//! The lines of a local script.
ghost use Rattle.std.specs.Prelude.{◌≡◌, ◌++◌, ℕ, List, OnErr, OnOk};
ghost use Rattle.local_scripts.specs.Items.{item_of};
ghost use Rattle.local_scripts.specs.declared.item.Item.TheVariants as item;
ghost use Rattle.item_lines.specs.Item.{end_text, item_text};
ghost use Rattle.item_lines.specs.Numbers.{IsEnd, IsInRange};

use crate::entries::{put_end, put_item};
use agent_base::NoMemory;
use json::Writer;
use local_scripts::{Item, Restart};
use std::mem;

/// Puts the line of an entry or a restart, with its line feed, behind what stands in a buffer. The
/// number is the place of the item in its local script, from 0.
pub fn print_item(text: &mut Vec<u8>, number: u64, item: &Item) -> Result<(), NoMemory>
    ensures line { OnOk result
        (text.new.items ≡ text.old.items ++ item_text number (item_of item.now)) }
    ensures unchanged { OnErr result (text.new.items ≡ text.old.items) }
    ensures range { OnOk result (IsInRange (item_of item.now)) }
{
    let before = text.len();
    let written = put_item_line(text, number, item);
    if written.is_err() {
        text.truncate(before);
    }
    written
}

/// Puts the line of the end of a local script, with its line feed, behind what stands in a buffer.
pub fn print_end(text: &mut Vec<u8>, end: &Restart) -> Result<(), NoMemory>
    ensures line { let end = item_of (item.Restarts end.now) in
        OnOk result (text.new.items ≡ text.old.items ++ end_text end) }
    ensures unchanged { OnErr result (text.new.items ≡ text.old.items) }
    ensures range { OnOk result (IsEnd (item_of (item.Restarts end.now))) }
{
    let before = text.len();
    let written = put_end_line(text, end);
    if written.is_err() {
        text.truncate(before);
    }
    written
}

// Where memory is wanted, a part of the line may stand there.
fn put_item_line(text: &mut Vec<u8>, number: u64, item: &Item) -> Result<(), NoMemory>
    ensures line { OnOk result
        (text.new.items ≡ text.old.items ++ item_text number (item_of item.now)) }
    ensures front { (rest : List ℕ) × (text.new.items ≡ text.old.items ++ rest) }
    ensures range { OnOk result (IsInRange (item_of item.now)) }
{
    let alloc = *text.allocator();
    let mut writer = Writer::new(mem::replace(text, Vec::new(alloc)));
    let written = put_item(&mut writer, number, item);
    *text = writer.into_inner();
    written?;
    Ok(text.extend_from_slice(b"\n")?)
}

// Where memory is wanted, a part of the line may stand there.
fn put_end_line(text: &mut Vec<u8>, end: &Restart) -> Result<(), NoMemory>
    ensures line { let end = item_of (item.Restarts end.now) in
        OnOk result (text.new.items ≡ text.old.items ++ end_text end) }
    ensures front { (rest : List ℕ) × (text.new.items ≡ text.old.items ++ rest) }
    ensures range { OnOk result (IsEnd (item_of (item.Restarts end.now))) }
{
    let alloc = *text.allocator();
    let mut writer = Writer::new(mem::replace(text, Vec::new(alloc)));
    let written = put_end(&mut writer, end);
    *text = writer.into_inner();
    written?;
    Ok(text.extend_from_slice(b"\n")?)
}
