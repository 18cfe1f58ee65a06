//! A block is appended behind a closed gate, which is opened once the block is on the disk.
ghost use Rattle.std.specs.Prelude.{◌≡◌, ◌+◌, ◌<◌, ◌≤◌, ◌∷◌, [], List, ℕ, length, Some, IfOk};
ghost use Rattle.std.specs.Prelude.{OnOk, false};
ghost use Rattle.disk_model.specs.Disk.{Written, Torn, Goes, IsSettled, LeavesOnly, Faults, Makes};
ghost use Rattle.disk_model.specs.Disk.{UsesRoom, Device};
ghost use Rattle.journal.specs.Append.{IsAppending, IsStaging, IsStaged, IsReady, IsSettling};
ghost use Rattle.journal.specs.Append.{settle_calls};

use agent_base::Failed;
use disk_model::Disk;

/// Writes a block behind the gate, and then opens it.
pub fn append<D: Disk>(disk: &mut D, gate: u64, block: &[u8]) -> Result<(), Failed>
    requires settled { IsSettled (D.view disk.old) }
    requires place { (c : List ℕ) → (D.view disk.old).contents ≡ Some c → gate + 1 ≤ length c }
    requires room { gate + 1 + length block.now ≤ (D.view disk.old).room_end }
    requires writes { 2 ≤ (D.view disk.old).room_writes }
    requires some { 0 < length block.now }
    requires fits { gate + 1 + length block.now < 18446744073709551616 }
    ensures written { OnOk result
        (Goes (Written gate (1 ∷ block.now)) (D.view disk.old).contents
        (D.view disk.new).contents) }
    ensures settled { OnOk result (IsSettled (D.view disk.new)) }
    ensures any_moment { (c : List ℕ) → (D.view disk.old).contents ≡ Some c
        → LeavesOnly (D.view disk.old) (D.view disk.new) (IsAppending gate block.now c) }
    ensures device { Device 4 2 result (D.view disk.old) (D.view disk.new) }
{
    disk.write_at(gate + 1, block)?;
    disk.sync()?; // the block is whole on the disk before its gate may open
    disk.write_at(gate, &[1])?;
    disk.sync() // the gate is open on the disk before the caller is told so
}

/// Writes a block and a piece of a slot, which lie apart, and syncs.
pub fn stage<D: Disk>(
    disk: &mut D,
    at: u64,
    block: &[u8],
    slot: u64,
    piece: &[u8],
) -> Result<(), Failed>
    requires settled { IsSettled (D.view disk.old) }
    requires place { (c : List ℕ) → (D.view disk.old).contents ≡ Some c → at ≤ length c }
    requires slot_place { (c : List ℕ) → (D.view disk.old).contents ≡ Some c → slot ≤ length c }
    requires room { at + length block.now ≤ (D.view disk.old).room_end }
    requires slot_room { slot + length piece.now ≤ (D.view disk.old).room_end }
    requires writes { 2 ≤ (D.view disk.old).room_writes }
    ensures written { OnOk result (Goes (IsStaged at block.now slot piece.now)
        (D.view disk.old).contents (D.view disk.new).contents) }
    ensures settled { OnOk result (IsSettled (D.view disk.new)) }
    ensures any_moment { (c : List ℕ) → (D.view disk.old).contents ≡ Some c
        → LeavesOnly (D.view disk.old) (D.view disk.new)
        (IsStaging at (length block.now) slot (length piece.now) c) }
    ensures device { Device 3 2 result (D.view disk.old) (D.view disk.new) }
{
    disk.write_at(at, block)?;
    disk.write_at(slot, piece)?;
    disk.sync() // both are whole on the disk before the slot's gate may open
}

/// Closes the first byte of a file that has at most one, and syncs. Its length is given.
pub fn settle<D: Disk>(disk: &mut D, len: u64) -> Result<(), Failed>
    requires settled { IsSettled (D.view disk.old) }
    requires on { (D.view disk.old).off ≡ false }
    requires len { (c : List ℕ) → (D.view disk.old).contents ≡ Some c → len ≡ length c }
    requires room { 1 ≤ (D.view disk.old).room_end }
    requires writes { 1 ≤ (D.view disk.old).room_writes }
    ensures settled { OnOk result (IsSettled (D.view disk.new)) }
    ensures contents { OnOk result
        (Goes IsReady (D.view disk.old).contents (D.view disk.new).contents) }
    ensures any_moment { (c : List ℕ) → (D.view disk.old).contents ≡ Some c
        → LeavesOnly (D.view disk.old) (D.view disk.new) (IsSettling c) }
    ensures faults { Faults result (D.view disk.old) (D.view disk.new) }
    ensures calls { (c : List ℕ) → (D.view disk.old).contents ≡ Some c
        → Makes (settle_calls c) result (D.view disk.old) (D.view disk.new) }
    ensures room { UsesRoom 1 (D.view disk.old) (D.view disk.new) }
{
    if len > 1 {
        return Ok(());
    }
    disk.write_at(0, &[0])?;
    disk.sync() // the gate is closed on the disk before the head is written behind it
}

/// Writes 2 in the place of a version, and syncs.
pub fn upgrade<D: Disk>(disk: &mut D) -> Result<(), Failed>
    requires settled { IsSettled (D.view disk.old) }
    requires place { (c : List ℕ) → (D.view disk.old).contents ≡ Some c → 9 ≤ length c }
    requires room { 9 ≤ (D.view disk.old).room_end }
    requires writes { 1 ≤ (D.view disk.old).room_writes }
    ensures written { OnOk result (Goes (Written 8 (2 ∷ [])) (D.view disk.old).contents
        (D.view disk.new).contents) }
    ensures torn { Goes (Torn 8 1) (D.view disk.old).contents (D.view disk.new).contents }
    ensures settled { OnOk result (IsSettled (D.view disk.new)) }
    ensures any_moment { (c : List ℕ) → (D.view disk.old).contents ≡ Some c
        → LeavesOnly (D.view disk.old) (D.view disk.new) (Torn 8 1 c) }
    ensures device { Device 2 1 result (D.view disk.old) (D.view disk.new) }
{
    disk.write_at(8, &[2])?;
    disk.sync() // kind 3 may be written from now on
}
