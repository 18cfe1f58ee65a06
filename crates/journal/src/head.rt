//! The head of a store.
ghost use Rattle.std.specs.Prelude.{◌≡◌, ◌↔◌, ◌+◌, ◌<◌, ◌≤◌, List, ℕ, length, slice_index, Bool};
ghost use Rattle.std.specs.Prelude.{replicate, Some, None, IsTrue};
ghost use Rattle.disk_model.specs.Disk.{Holds};
ghost use Rattle.journal.specs.Store.{slot_bytes, IsOpen};
ghost use Rattle.journal.specs.HeadFault.{IsLive};
ghost use Rattle.journal.specs.ReaderAnswers.{IsHeadRead, IsSlotRead, IsNext};

use crate::fields::number_at;

/// What the head of a born file says.
#[derive(Clone, Copy)]
pub enum HeadRead {
    /// Which slot is live, its number and its begin.
    Live(bool, u64, u64),
    /// The first fault.
    Bad(u64),
}

// Whether these bytes stand there.
fn holds(bytes: &[u8], at: usize, want: &[u8]) -> bool
    requires { at + length want.now ≤ length bytes.now }
    ensures { IsTrue result ↔ Holds bytes.now at want.now }
{
    &bytes[at..at + want.len()] == want
}

/// The digest of a list that stands there.
pub fn digest_at(bytes: &[u8], at: usize) -> [u8; 32]
    requires { at + 32 ≤ length bytes.now }
    ensures len { length result ≡ 32 }
    ensures at { Holds bytes.now at result }
{
    let mut digest = [0; 32];
    digest.copy_from_slice(&bytes[at..at + 32]);
    digest
}

#[derive(Clone, Copy)]
struct Slot {
    is_open: bool,
    number: u64,
    begin: u64,
}

fn read_slot(bytes: &[u8], at: usize) -> Slot
    requires { at + 17 ≤ length bytes.now }
    ensures gate { IsTrue result.is_open ↔ IsOpen bytes.now at }
    ensures says { Holds bytes.now (at + 1) (slot_bytes result.number result.begin) }
{
    Slot {
        is_open: bytes[at] != 0,
        number: number_at(bytes, at + 1),
        begin: number_at(bytes, at + 9),
    }
}

// Of two slots the live one: the second, or the first. None where there is no such.
fn live_slot(first: &Slot, second: &Slot) -> Option<bool>
    ensures some { (live : Bool) → result ≡ Some live
        → IsNext first.now.is_open first.now.number second.now.is_open second.now.number live }
    ensures none { result ≡ None → (live : Bool)
        → IsNext first.now.is_open first.now.number second.now.is_open second.now.number live → ⊥ }
{
    if !first.is_open {
        return if second.is_open { Some(true) } else { None };
    }
    if !second.is_open {
        return Some(false);
    }
    if second.number == first.number.wrapping_add(1) {
        return Some(true);
    }
    if first.number == second.number.wrapping_add(1) {
        return Some(false);
    }
    None
}

// The live slot, where a region may begin there.
fn begin_of(bytes: &[u8], live: bool, slot: &Slot) -> HeadRead
    requires zero { Holds bytes.now 78 (replicate 50 0) }
    requires live { IsLive bytes.now live slot.now.number slot.now.begin }
    ensures { IsSlotRead bytes.now result }
{
    if slot.begin < 128 || slot.begin >= bytes.len() as u64 {
        return HeadRead::Bad(if live { 70 } else { 53 });
    }
    HeadRead::Live(live, slot.number, slot.begin)
}

// The slots of a head, behind a right front.
fn read_slots(bytes: &[u8]) -> HeadRead
    requires { 129 ≤ length bytes.now }
    ensures { IsSlotRead bytes.now result }
{
    let first = read_slot(bytes, 44);
    let second = read_slot(bytes, 61);
    if !first.is_open && !second.is_open {
        return HeadRead::Bad(44);
    }
    let Some(live) = live_slot(&first, &second) else {
        return HeadRead::Bad(61);
    };
    if !holds(bytes, 78, &[0; 50]) {
        return HeadRead::Bad(78);
    }
    if live {
        begin_of(bytes, true, &second)
    } else {
        begin_of(bytes, false, &first)
    }
}

/// Reads a head, with its faults in their order.
pub fn read_head(bytes: &[u8]) -> HeadRead
    requires { IsOpen bytes.now 0 }
    ensures { IsHeadRead bytes.now result }
{
    if bytes.len() < 129 {
        return HeadRead::Bad(0);
    }
    if !holds(bytes, 1, b"PBSTORE") {
        return HeadRead::Bad(1);
    }
    if !holds(bytes, 9, &[0; 3]) {
        return HeadRead::Bad(8);
    }
    read_slots(bytes)
}
