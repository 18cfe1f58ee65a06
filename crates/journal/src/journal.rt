//! The journal: frames behind gates in the live region of a store.
ghost use Rattle.std.specs.Prelude.{◌≡◌, ◌⊎◌, ◌↔◌, ◌+◌, ◌-◌, ◌%◌, ◌^◌, ◌<◌, ◌≤◌, ◌∷◌, ◌++◌, []};
ghost use Rattle.std.specs.Prelude.{List, ℕ, Bool, length, Some, true, false, OnOk, OnErr, is_err};
ghost use Rattle.std.specs.Prelude.{if◌then◌else◌};
ghost use Rattle.std.specs.Prelude.{vec_capacity};
ghost use Rattle.disk_model.specs.Disk.{IsSettled, LeavesOnly, Stays, Device};
ghost use Rattle.journal.specs.Frame.{Frame, encoded, snapshot_kind};
ghost use Rattle.journal.specs.Region.{Runs, StandsForState};
ghost use Rattle.journal.specs.Journal.{JournalView, StandsInFile, IsAtRest, HasRoom, IsBeforeOrAfter};
ghost use Rattle.journal.specs.Journal.{next_frame, since_of};

use crate::gated::append;
use agent_base::NoMemory;
use disk_model::Disk;
use std::alloc::AllocError;
use std::marker::Model;

/// A call of the disk failed, and its count of faults rose. The journal is shut.
#[derive(Clone, Copy, Debug, PartialEq, Eq)]
pub struct DeviceFault;

/// An open store. Its calls are given the disk that it was opened on, as its last call left it.
#[derive(Debug, Drop)]
pub struct Journal {
    pub(crate) digest: [u8; 32],
    pub(crate) live: bool,
    pub(crate) number: u64,
    pub(crate) begin: u64,
    pub(crate) end: u64,
    pub(crate) changes: u64,
    pub(crate) base: u64,
    pub(crate) shut: bool,
    pub(crate) block: Vec<u8>,
}

impl Model for Journal {
    ghost use Rattle.std.specs.Prelude.{◌≤◌, vec_capacity};
    ghost use Rattle.journal.specs.Journal.{JournalView};

    ghost Value = { JournalView };

    ghost view = { λ j. record {
      digest = j.digest;
      live = j.live;
      number = j.number;
      begin = j.begin;
      end = j.end;
      changes = j.changes;
      base = j.base;
      shut = j.shut;
      room = vec_capacity j.block;
    } };

    ghost invariant = { λ j. (128 ≤ j.begin) × (j.begin ≤ j.end) };
}

// The kind of a frame: changes, a snapshot, or a snapshot that names a list.
fn frame_kind(snapshot: bool, list: &[u8]) -> u8
    ensures { result ≡ (if snapshot then snapshot_kind list.now else 1) }
{
    if !snapshot {
        1
    } else if list.is_empty() {
        2
    } else {
        3
    }
}

// A frame with an open gate, and the closed gate behind it, in the room that is there.
#[tactic(auto, unfolding(crate::specs::Frame::encoded))]
pub fn fill(
    block: &mut Vec<u8>,
    snapshot: bool,
    last: u64,
    list: &[u8],
    body: &[u8],
) -> Result<(), AllocError>
    requires fits { length list.now + length body.now < 18446744073709551616 }
    ensures items { OnOk result (block.new.items ≡ 1 ∷ encoded (record {
      snapshot = snapshot;
      last = last;
      list = list.now;
      body = body.now;
    }) ++ 0 ∷ []) }
    ensures capacity { vec_capacity block.old ≤ vec_capacity block.new }
    ensures full { OnErr result
        (vec_capacity block.old < length list.now + length body.now + 19) }
{
    block.clear();
    block.extend_from_slice(&[1, frame_kind(snapshot, list)])?;
    block.extend_from_slice(&last.to_le_bytes())?;
    block.extend_from_slice(&((list.len() + body.len()) as u64).to_le_bytes())?;
    block.extend_from_slice(list)?;
    block.extend_from_slice(body)?;
    block.extend_from_slice(&[0])
}

impl Journal {
    /// Makes room, so that one commit or checkpoint with a body of so many bytes takes no memory.
    ///
    /// Want of memory leaves the room that was there.
    pub fn reserve<D: Disk>(&mut self, disk: &mut D, body: usize) -> Result<(), NoMemory>
        ensures room { OnOk result (HasRoom self.new (D.view disk.new) body) }
        ensures same { self.new ≡ record self.old { room = self.new.room } }
        ensures grown { self.old.room ≤ self.new.room }
        ensures stands { (c : List ℕ) (frames : List Frame) → StandsInFile self.old c frames
            → StandsInFile self.new c frames }
        ensures at_rest { IsAtRest self.old (D.view disk.old)
            → IsAtRest self.new (D.view disk.new) }
        ensures kept { OnErr result ((before : ℕ) → HasRoom self.old (D.view disk.old) before
            → HasRoom self.new (D.view disk.new) before) }
        ensures stays { Stays (D.view disk.old) (D.view disk.new) }
        ensures faults { (D.view disk.new).faults ≡ (D.view disk.old).faults }
        ensures power { ((D.view disk.new).off ≡ (D.view disk.old).off)
            × ((D.view disk.new).failures ≡ (D.view disk.old).failures)
            × ((D.view disk.new).cuts ≡ (D.view disk.old).cuts) }
    {
        let size = body.checked_add(51).ok_or(NoMemory)?;
        let end = self
            .end
            .checked_add(body as u64)
            .ok_or(NoMemory)?
            .checked_add(180)
            .ok_or(NoMemory)?;
        self.block.clear();
        let Ok(()) = self.block.reserve(size) else {
            return Err(NoMemory);
        };
        disk.reserve(end, 4)
    }

    /// Adds a frame with this body. Takes no memory. Four changing calls.
    ///
    /// `changes` is how many changes the body has: another number, or an empty body, is a fault of
    /// the store where it is opened. The number is not looked at, for the journal reads no body. A
    /// batch without changes is not committed: the store has it already, as the frames before it.
    ///
    /// At `Ok` each cut from then on leaves a store that has the frame, until a checkpoint. After
    /// `DeviceFault` the journal is shut, and the store has the frames from before or these and
    /// the new one; opening it again says which.
    pub fn commit<D: Disk>(
        &mut self,
        disk: &mut D,
        body: &[u8],
        changes: u64,
    ) -> Result<(), DeviceFault>
        requires usable { self.old.shut ≡ false }
        requires at_rest { IsAtRest self.old (D.view disk.old) }
        requires room { HasRoom self.old (D.view disk.old) (length body.now) }
        requires some { 0 < length body.now }

        // The new frame stands behind the old ones.
        ensures acknowledged { OnOk result ((c : List ℕ) (frames : List Frame)
            → (D.view disk.old).contents ≡ Some c → StandsInFile self.old c frames
            → (d : List ℕ) × ((D.view disk.new).contents ≡ Some d)
            × StandsInFile self.new d (frames ++ next_frame self.old body.now changes ∷ [])) }
        ensures settled { OnOk result (IsSettled (D.view disk.new)) }
        ensures at_rest { OnOk result (IsAtRest self.new (D.view disk.new)) }
        ensures done { OnOk result (self.new ≡ record self.old {
          end = self.old.end + 18 + length body.now;
          changes = (self.old.changes + changes) % 2 ^ 64;
          room = self.new.room;
        }) }

        // A cut at any moment leaves the frames from before, or these and the new one.
        ensures any_moment { (c : List ℕ) (frames : List Frame)
            → (D.view disk.old).contents ≡ Some c
            → StandsInFile self.old c frames
            → LeavesOnly (D.view disk.old) (D.view disk.new)
            (IsBeforeOrAfter self.old.digest frames (next_frame self.old body.now changes)) }

        ensures failed { OnErr result
            (self.new ≡ record self.old { shut = true; room = self.new.room }) }
        ensures shut { self.new.shut ≡ is_err result }
        ensures room { self.old.room ≤ self.new.room }
        ensures device { Device 4 2 result (D.view disk.old) (D.view disk.new) }
    {
        let last = self.changes.wrapping_add(changes);
        self.shut = true;
        let Ok(()) = fill(&mut self.block, false, last, &[], body) else {
            return Err(DeviceFault);
        };
        let Ok(()) = append(disk, self.end, &self.block[1..]) else {
            return Err(DeviceFault);
        };
        self.end += 18 + body.len() as u64;
        self.changes = last;
        self.shut = false;
        Ok(())
    }

    /// The number of changes since the store was made, modulo 2^64.
    pub fn changes(&self) -> u64
        ensures { result ≡ self.now.changes }
    {
        self.changes
    }

    /// The number of changes in the frames of the live region that are no snapshot, modulo 2^64.
    pub fn since(&self) -> u64
        ensures { result ≡ since_of self.now }
    {
        self.changes.wrapping_sub(self.base)
    }

    /// The digest of the suffix list under which the store stands: that of the last snapshot, where
    /// the live region begins with one that names a list, and else that of the head.
    pub fn digest(&self) -> &[u8; 32]
        ensures { result.now ≡ self.now.digest }
    {
        &self.digest
    }

    /// Whether a device call failed, so that no commit and no checkpoint may follow.
    pub fn is_shut(&self) -> bool
        ensures { result ≡ self.now.shut }
    {
        self.shut
    }
}
