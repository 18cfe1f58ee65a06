//! The lines of two local scripts at the place where they differ.
ghost use Rattle.std.specs.Prelude.{◌≡◌, ◌++◌, IfOk, OnOk, slice_get};
ghost use Rattle.shown_scripts.specs.Lines.{IsLineInRange, line_at};
ghost use Rattle.shown_scripts.specs.Differ as spec;
ghost use Rattle.twins.specs.Scripts.{end_in, entries_in};

use agent_base::NoMemory;
use item_lines::{print_end, print_item};
use itoa::Buffer;
use std::alloc::Global;
use twins::LocalScript;

/// The line of an answer to two scripts that differ at this place, with the numbers of the lines
/// that gave the entries there, and the line of each local script there.
pub fn places_text(
    alloc: Global,
    place: u64,
    one: &LocalScript,
    first: Option<u32>,
    other: &LocalScript,
    second: Option<u32>,
) -> Result<Vec<u8>, NoMemory>
    ensures text { IfOk result (λ text. text.items ≡ spec.differ_line place first second
        ++ (line_at place (entries_in one.now) (end_in one.now)
        ++ line_at place (entries_in other.now) (end_in other.now))) }
    ensures first { OnOk result
        (IsLineInRange (slice_get (entries_in one.now) place) (end_in one.now)) }
    ensures second { OnOk result
        (IsLineInRange (slice_get (entries_in other.now) place) (end_in other.now)) }
{
    let mut text = differ_line(alloc, place, first, second)?;
    put_at(&mut text, one, place)?;
    put_at(&mut text, other, place)?;
    Ok(text)
}

// Puts the line of the entry at a place behind what stands in a buffer, or that of the end where
// the entries are over.
fn put_at(text: &mut Vec<u8>, script: &LocalScript, place: u64) -> Result<(), NoMemory>
    ensures line { OnOk result (text.new.items
        ≡ text.old.items ++ line_at place (entries_in script.now) (end_in script.now)) }
    ensures range { OnOk result
        (IsLineInRange (slice_get (entries_in script.now) place) (end_in script.now)) }
{
    match script.entries.get(place as usize) {
        Some(item) => print_item(text, place, item),
        None => print_end(text, &script.end),
    }
}

// The line of an answer, with the numbers of the lines that gave the entries at its place.
fn differ_line(
    alloc: Global,
    place: u64,
    first: Option<u32>,
    second: Option<u32>,
) -> Result<Vec<u8>, NoMemory>
    ensures line { IfOk result (λ line. line.items ≡ spec.differ_line place first second) }
{
    let mut line = Vec::from_slice(alloc, b"{\"differ\":")?;
    line.extend_from_slice(Buffer::new().format(place).as_bytes())?;
    line.extend_from_slice(b",\"first\":")?;
    put_number(&mut line, first)?;
    line.extend_from_slice(b",\"second\":")?;
    put_number(&mut line, second)?;
    line.extend_from_slice(b",\"twin\":\"local\"}\n")?;
    Ok(line)
}

// Puts a number, or `null`, behind what stands in a buffer.
fn put_number(text: &mut Vec<u8>, number: Option<u32>) -> Result<(), NoMemory>
    ensures text { OnOk result (text.new.items ≡ text.old.items ++ spec.number_text number) }
{
    match number {
        Some(number) => {
            let number = u64::from(number);
            Ok(text.extend_from_slice(Buffer::new().format(number).as_bytes())?)
        }
        None => Ok(text.extend_from_slice(b"null")?),
    }
}
