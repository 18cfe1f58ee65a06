//! A checkpoint: a snapshot in the place of the frames, by the two slots of the head.
ghost use Rattle.std.specs.Prelude.{◌≡◌, ◌⊎◌, is_err, ◌+◌, ◌-◌, ◌%◌, ◌<◌, ◌≤◌, ◌^◌, ◌++◌, ◌∷◌, []};
ghost use Rattle.std.specs.Prelude.{not, Bool, List, ℕ, length, slice_index, Some, true, false};
ghost use Rattle.std.specs.Prelude.{IfOk, OnOk, OnErr, nat_le, if◌then◌else◌};
ghost use Rattle.disk_model.specs.Disk.{IsSettled, LeavesOnly, Stays, Device};
ghost use Rattle.journal.specs.Frame.{Frame};
ghost use Rattle.journal.specs.Store.{slot_bytes, other_at};
ghost use Rattle.journal.specs.Journal.{JournalView, StandsInFile, IsAtRest, HasRoom, IsBeforeOrSnapshot};
ghost use Rattle.journal.specs.Journal.{snapshot_frame, snapshot_at, since_of};
ghost use Rattle.journal.specs.CheckpointParts.{IsRegion, IsApart, IsBetween, IsBlock, IsStillStore};
ghost use Rattle.journal.specs.CheckpointParts.{Switches, TakesBlock};

use crate::gated::{append, stage};
use crate::journal::{DeviceFault, Journal, fill};
use agent_base::Failed;
use disk_model::Disk;

// One byte of the file.
fn byte_at<D: Disk>(disk: &mut D, at: u64) -> Result<u8, Failed>
    requires { (c : List ℕ) → (D.view disk.old).contents ≡ Some c → at + 1 ≤ length c }
    ensures byte { IfOk result (λ b. (c : List ℕ) → (D.view disk.old).contents ≡ Some c
        → slice_index c at ≡ b) }
    ensures stays { Stays (D.view disk.old) (D.view disk.new) }
    ensures device { Device 0 0 result (D.view disk.old) (D.view disk.new) }
{
    let mut byte = [0];
    disk.read_at(at, &mut byte)?;
    Ok(byte[0])
}

// Where the slot that is not live stands.
fn other_slot(live: bool) -> u64
    ensures { result ≡ other_at live }
{
    if live { 44 } else { 61 }
}

// The first part: the snapshot's frame, and the other slot's gate closed.
fn stage_snapshot<D: Disk>(
    disk: &mut D,
    live: bool,
    number: u64,
    to: u64,
    block: &[u8],
) -> Result<(), Failed>
    requires ready { TakesBlock (D.view disk.old) to (length block.now) 2 }
    ensures any_moment { (c digest : List ℕ) (begin end : ℕ) (frames : List Frame)
        → (D.view disk.old).contents ≡ Some c
        → IsRegion digest c live number begin end frames → IsApart to (length block.now) begin end
        → LeavesOnly (D.view disk.old) (D.view disk.new) (IsStillStore digest frames) }
    ensures between { OnOk result
        ((c digest : List ℕ) (begin end : ℕ) (frames : List Frame) (f : Frame)
        → (D.view disk.old).contents ≡ Some c
        → IsRegion digest c live number begin end frames → IsApart to (length block.now) begin end
        → IsBlock f block.now
        → (d : List ℕ) × ((D.view disk.new).contents ≡ Some d)
        × IsBetween digest d live number begin frames to f) }
    ensures long { OnOk result ((d : List ℕ) → (D.view disk.new).contents ≡ Some d
        → 129 ≤ length d) }
    ensures settled { OnOk result (IsSettled (D.view disk.new)) }
    ensures device { Device 3 2 result (D.view disk.old) (D.view disk.new) }
{
    let other = other_slot(live);
    let gate = byte_at(disk, other)?;
    if gate == 0 {
        // A closed gate is not written again: until the sync a cut may leave any byte there.
        stage(
            disk,
            to,
            block,
            other + 1,
            &number.wrapping_add(1).to_le_bytes(),
        )
    } else {
        stage(disk, to, block, other, &[0])
    }
}

// What stands behind a slot's gate.
fn slot_piece(number: u64, begin: u64) -> [u8; 16]
    ensures { result ≡ slot_bytes number begin }
{
    let [a, b, c, d, e, f, g, h] = number.to_le_bytes();
    let [i, j, k, l, m, n, o, p] = begin.to_le_bytes();
    [a, b, c, d, e, f, g, h, i, j, k, l, m, n, o, p]
}

// A snapshot's frame at a place of its own, and then the other slot, which tells of it.
fn switch<D: Disk>(
    disk: &mut D,
    live: bool,
    number: u64,
    to: u64,
    block: &[u8],
) -> Result<(), Failed>
    requires ready { TakesBlock (D.view disk.old) to (length block.now) 4 }
    ensures switches { Switches result (D.view disk.old)
        (D.view disk.new) live number to block.now }
    ensures device { Device 7 4 result (D.view disk.old) (D.view disk.new) }
{
    stage_snapshot(disk, live, number, to, block)?;
    append(
        disk,
        other_slot(live),
        &slot_piece(number.wrapping_add(1), to),
    )
}

// Where a snapshot of so many bytes, with both gates, goes: before the live region, or behind it.
fn snapshot_place(len: u64, begin: u64, end: u64) -> u64
    requires fits { end + 1 < 18446744073709551616 }
    requires len_fits { 128 + len < 18446744073709551616 }
    requires order { (128 ≤ begin) × (begin ≤ end) }
    ensures apart { IsApart result len begin end }
    ensures within { result ≤ end + 1 }
    ensures place { result ≡ (if nat_le (128 + len) begin then 128 else end + 1) }
{
    if 128 + len <= begin { 128 } else { end + 1 }
}

impl Journal {
    /// Puts a snapshot of the state that is to stand, under a list of this digest, in the place of
    /// the frames. Takes no memory. Seven changing calls.
    ///
    /// The number of changes stays. After `DeviceFault` the journal is shut, and the store has the
    /// frames from before, under the digest from before, or the snapshot, under the new one.
    pub fn checkpoint<D: Disk>(
        &mut self,
        disk: &mut D,
        digest: &[u8; 32],
        body: &[u8],
    ) -> Result<(), DeviceFault>
        requires usable { self.old.shut ≡ false }
        requires at_rest { IsAtRest self.old (D.view disk.old) }
        requires room { HasRoom self.old (D.view disk.old) (length body.now) }

        // The snapshot stands alone.
        ensures acknowledged { OnOk result ((c : List ℕ) (frames : List Frame)
            → (D.view disk.old).contents ≡ Some c → StandsInFile self.old c frames
            → (d : List ℕ) × ((D.view disk.new).contents ≡ Some d)
            × StandsInFile self.new d (snapshot_frame self.old digest.now body.now ∷ [])) }
        ensures settled { OnOk result (IsSettled (D.view disk.new)) }
        ensures at_rest { OnOk result (IsAtRest self.new (D.view disk.new)) }
        ensures done { OnOk result (self.new ≡ record self.old {
          digest = digest.now;
          live = not self.old.live;
          number = (self.old.number + 1) % 2 ^ 64;
          begin = snapshot_at self.old (length body.now);
          end = snapshot_at self.old (length body.now) + 50 + length body.now;
          base = self.old.changes;
          room = self.new.room;
        }) }

        // A cut at any moment leaves the frames from before, under the digest from before, or the
        // snapshot alone, under the new one.
        ensures any_moment { (c : List ℕ) (frames : List Frame)
            → (D.view disk.old).contents ≡ Some c
            → StandsInFile self.old c frames
            → LeavesOnly (D.view disk.old) (D.view disk.new)
            (IsBeforeOrSnapshot self.old.digest frames
            (snapshot_frame self.old digest.now body.now)) }

        ensures failed { OnErr result
            (self.new ≡ record self.old { shut = true; room = self.new.room }) }
        ensures shut { self.new.shut ≡ is_err result }
        ensures room { self.old.room ≤ self.new.room }
        ensures device { Device 7 4 result (D.view disk.old) (D.view disk.new) }
    {
        self.shut = true;
        let Ok(()) = fill(&mut self.block, true, self.changes, digest, body) else {
            return Err(DeviceFault);
        };
        let to = snapshot_place(self.block.len() as u64, self.begin, self.end);
        let Ok(()) = switch(disk, self.live, self.number, to, &self.block) else {
            return Err(DeviceFault);
        };
        self.digest = *digest;
        self.live = !self.live;
        self.number = self.number.wrapping_add(1);
        self.begin = to;
        self.end = to + 50 + body.len() as u64;
        self.base = self.changes;
        self.shut = false;
        Ok(())
    }
}
