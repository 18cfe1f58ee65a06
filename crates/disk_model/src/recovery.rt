// What a cut makes of a file, by its pick, and what a sync brings over.
ghost use Rattle.std.specs.Prelude.{◌≡◌, ◌⊎◌, ◌+◌, ◌-◌, ◌/◌, max, false, true, [], slice_index};
ghost use Rattle.std.specs.Prelude.{◌<◌, ◌≤◌, nat_lt, if◌then◌else◌, List, ℕ, length, OnOk, OnErr};
ghost use Rattle.std.specs.Prelude.{vec_capacity, vec_len};
ghost use Rattle.disk_model.specs.Image.{greatest_end};
ghost use Rattle.disk_model.specs.History.{Held};
ghost use Rattle.disk_model.specs.Recovery.{IsSpoiled, halves, Recovered};
ghost use Rattle.disk_model.specs.MediumBuffers.{IsPlaced, unless_fresh};

use crate::medium::copy;
use std::alloc::AllocError;

// The byte A5 in a range.
fn spoil_range(contents: &mut [u8], at: usize, len: usize)
    requires { at + len ≤ length contents.old }
    ensures inside { (i : ℕ) → at ≤ i → i < at + len → slice_index contents.new i ≡ 165 }
    ensures outside { (i : ℕ) → (i < at) ⊎ (at + len ≤ i)
        → slice_index contents.new i ≡ slice_index contents.old i }
{
    contents[at..at + len].fill(0xA5);
}

// The byte A5 in each range.
fn spoil(contents: &mut [u8], ranges: &[(usize, usize)])
    requires { greatest_end 0 ranges.now ≤ length contents.old }
    ensures { IsSpoiled contents.old ranges.now contents.new }
{
    for range in ranges {
        spoil_range(contents, range.0, range.1);
    }
}

// So long at least, by zeros.
fn lengthen(file: &mut Vec<u8>, end: usize) -> Result<(), AllocError>
    ensures len { OnOk result (length file.new.items ≡ max (length file.old.items) end) }
    ensures bytes { OnOk result ((i : ℕ)
        → slice_index file.new.items i ≡ slice_index file.old.items i) }
    ensures capacity { vec_capacity file.old ≤ vec_capacity file.new }
    ensures full { OnErr result (vec_capacity file.old < end) }
{
    if file.len() < end {
        file.resize(end, 0)?;
    }
    Ok(())
}

// Puts the bytes of the contents from an offset to another in the same place.
fn place(file: &mut [u8], contents: &[u8], at: usize, end: usize)
    requires order { at ≤ end }
    requires there { end ≤ length file.old }
    requires from { end ≤ length contents.now }
    ensures inside { (i : ℕ) → at ≤ i → i < end
        → slice_index file.new i ≡ slice_index contents.now i }
    ensures outside { (i : ℕ) → (i < at) ⊎ (end ≤ i)
        → slice_index file.new i ≡ slice_index file.old i }
{
    file[at..end].copy_from_slice(&contents[at..end]);
}

// The bytes of a range are in place.
fn keep(synced: &mut Vec<u8>, contents: &[u8], at: usize, len: usize) -> Result<(), AllocError>
    requires { at + len ≤ length contents.now }
    ensures len { OnOk result
        (length synced.new.items ≡ max (if nat_lt 0 len then at + len else 0)
        (length synced.old.items)) }
    ensures inside { OnOk result ((i : ℕ) → at ≤ i → i < at + len
        → slice_index synced.new.items i ≡ slice_index contents.now i) }
    ensures outside { OnOk result ((i : ℕ) → (i < at) ⊎ (at + len ≤ i)
        → slice_index synced.new.items i ≡ slice_index synced.old.items i) }
    ensures capacity { vec_capacity synced.old ≤ vec_capacity synced.new }
    ensures full { OnErr result (vec_capacity synced.old < length contents.now) }
{
    if len > 0 {
        lengthen(synced, at + len)?;
        place(synced, contents, at, at + len);
    }
    Ok(())
}

/// The bytes of each range are in place.
pub fn keep_each(
    synced: &mut Vec<u8>,
    contents: &[u8],
    ranges: &[(usize, usize)],
) -> Result<(), AllocError>
    requires { greatest_end 0 ranges.now ≤ length contents.now }
    ensures placed { OnOk result
        (IsPlaced synced.old.items contents.now ranges.now synced.new.items) }
    ensures capacity { vec_capacity synced.old ≤ vec_capacity synced.new }
    ensures full { OnErr result (vec_capacity synced.old < length contents.now) }
{
    for range in ranges {
        keep(synced, contents, range.0, range.1)?;
    }
    Ok(())
}

// The first half of each range, rounded up.
fn halve(ranges: &mut [(usize, usize)])
    ensures { ranges.new ≡ halves ranges.old }
{
    for range in ranges.iter_mut() {
        range.1 -= range.1 / 2;
    }
}

// The contents after a cut, by its pick. The synced bytes and the ranges are used up.
fn restore(
    contents: &mut Vec<u8>,
    synced: &mut Vec<u8>,
    ranges: &mut [(usize, usize)],
    pick: u8,
) -> Result<(), AllocError>
    requires within { greatest_end 0 ranges.old ≤ length contents.old.items }
    requires shorter { length synced.old.items ≤ length contents.old.items }
    ensures recovered { OnOk result (Recovered pick (record {
      contents = contents.old.items;
      synced = synced.old.items;
      ranges = ranges.old;
    }) contents.new.items) }
    ensures capacity { vec_capacity contents.old ≤ vec_capacity contents.new }
    ensures synced_capacity { vec_capacity synced.old ≤ vec_capacity synced.new }
    ensures full { OnErr result ((vec_capacity synced.old < length contents.old.items)
        ⊎ (vec_capacity contents.old < length contents.old.items)) }
{
    match pick {
        0 => copy(contents, synced),
        1 => Ok(()),
        2 => {
            spoil(contents, ranges);
            Ok(())
        }
        _ => {
            halve(ranges);
            keep_each(synced, contents, ranges)?;
            copy(contents, synced)
        }
    }
}

/// The same, where nothing may have been written yet.
pub fn recover(
    fresh: bool,
    contents: &mut Vec<u8>,
    synced: &mut Vec<u8>,
    ranges: &mut [(usize, usize)],
    pick: u8,
) -> Result<(), AllocError>
    requires within { greatest_end 0 ranges.old ≤ length contents.old.items }
    requires shorter { fresh ≡ false → length synced.old.items ≤ length contents.old.items }
    requires untouched { fresh ≡ true → ranges.old ≡ [] }
    ensures recovered { OnOk result (Recovered pick (record {
      contents = contents.old.items;
      synced = unless_fresh fresh contents.old.items synced.old.items;
      ranges = ranges.old;
    }) contents.new.items) }
    ensures len { OnOk result (length contents.new.items ≤ length contents.old.items) }
    ensures capacity { vec_capacity contents.old ≤ vec_capacity contents.new }
    ensures synced_capacity { vec_capacity synced.old ≤ vec_capacity synced.new }
    ensures full { OnErr result ((fresh ≡ false)
        × ((vec_capacity synced.old < length contents.old.items)
        ⊎ (vec_capacity contents.old < length contents.old.items))) }
{
    if fresh {
        return Ok(());
    }
    restore(contents, synced, ranges, pick)
}
