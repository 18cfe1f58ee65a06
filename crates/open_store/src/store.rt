//! The store.
ghost use Rattle.std.specs.Prelude.{◌≡◌, ◌+◌, ◌%◌, ◌^◌, true, ℕ, List, [], length, IsOk, OnErr, OnOk};
ghost use Rattle.disk_model.specs.Disk.{LeavesOnly};
ghost use Rattle.journal.specs.Journal.{HasRoom, since_of};
ghost use Rattle.open_store.specs.Commits.{BodyLeads, CommitDevice, HasRoomFor, IsEither};
ghost use Rattle.open_store.specs.Commits.{IsEither2};
ghost use Rattle.open_store.specs.Standing.{IsReady, IsRoomier, StandsAt};

use agent_base::NoMemory;
use disk_model::Disk;
use journal::{DeviceFault, Journal, Replay};

/// A journal, and the disk that it is on.
#[derive(Debug, Drop)]
pub struct Store<D: Disk + Drop> {
    pub journal: Journal,
    pub disk: D,
}

impl<D: Disk + Drop> Store<D> {
    /// Makes room, so that a commit or a checkpoint with a body of so many bytes takes no memory.
    pub fn reserve(&mut self, body: usize) -> Result<(), NoMemory>
        ensures room { OnOk result (HasRoom self.new.journal (D.view self.new.disk) body) }
        ensures roomier { IsRoomier self.old.journal self.new.journal
            (D.view self.old.disk) (D.view self.new.disk) }
    {
        self.journal.reserve(&mut self.disk, body)
    }

    /// Commits the body of a batch, of so many changes. An empty one has nothing to commit. Takes
    /// no memory. At most four changing calls, and none for an empty body.
    pub fn commit<R: Replay>(&mut self, body: &[u8], changes: u64) -> Result<(), DeviceFault>
        requires ready { IsReady self.old.journal (D.view self.old.disk) }
        requires room { HasRoomFor self.old.journal (D.view self.old.disk) (length body.now) }

        // The store stands for the state that the body leads to.
        ensures done { OnOk result ((by : R.Rules) (base next : R.State)
            → StandsAt (R.takes by) R.empty self.old.journal (D.view self.old.disk) base
            → BodyLeads (R.takes by) base body.now changes next
            → StandsAt (R.takes by) R.empty self.new.journal (D.view self.new.disk) next
            × (self.new.journal.changes % 2 ^ 64 ≡ (self.old.journal.changes + changes) % 2 ^ 64)) }
        ensures ready { OnOk result (IsReady self.new.journal (D.view self.new.disk)) }

        // A cut at any moment leaves the one state or the other.
        ensures any_moment { (by : R.Rules) (base next : R.State)
            → StandsAt (R.takes by) R.empty self.old.journal (D.view self.old.disk) base
            → BodyLeads (R.takes by) base body.now changes next
            → (D.view self.old.disk).tells ≡ true
            → LeavesOnly (D.view self.old.disk) (D.view self.new.disk)
            (IsEither (R.takes by) R.empty self.old.journal.digest
            base self.old.journal.changes
            next ((self.old.journal.changes + changes) % 2 ^ 64)) }

        ensures digest { self.new.journal.digest ≡ self.old.journal.digest }
        // The changes of the last snapshot stay, so that those since it are the ones before and
        // the ones of the body.
        ensures base { self.new.journal.base ≡ self.old.journal.base }
        ensures device { CommitDevice 4 result (D.view self.old.disk) (D.view self.new.disk) }
        // An empty body is committed by no call at all.
        ensures idle { body.now ≡ [] → IsOk result × (self.new ≡ self.old) }
    {
        if body.is_empty() {
            return Ok(());
        }
        self.journal.commit(&mut self.disk, body, changes)
    }

    /// Puts a snapshot of the state that is to stand, under a list of this digest, in the place of
    /// the frames. Takes no memory. At most seven changing calls.
    pub fn checkpoint<R: Replay>(
        &mut self,
        digest: &[u8; 32],
        body: &[u8],
    ) -> Result<(), DeviceFault>
        requires ready { IsReady self.old.journal (D.view self.old.disk) }
        requires room { HasRoom self.old.journal (D.view self.old.disk) (length body.now) }

        // The store stands for the state that the body is a snapshot of, under the new digest,
        // after as many changes as before, none of them since the snapshot.
        ensures done { OnOk result ((by : R.Rules) (base next : R.State) (counted : ℕ)
            → StandsAt (R.takes by) R.empty self.old.journal (D.view self.old.disk) base
            → R.takes by R.empty true body.now next counted
            → StandsAt (R.takes by) R.empty self.new.journal (D.view self.new.disk) next) }
        ensures ready { OnOk result (IsReady self.new.journal (D.view self.new.disk)) }
        ensures digest { OnOk result (self.new.journal.digest ≡ digest.now) }
        ensures changes { OnOk result (self.new.journal.changes ≡ self.old.journal.changes) }
        ensures since { OnOk result (since_of self.new.journal ≡ 0) }

        // A cut at any moment leaves the one state under the old digest, or the other under the new
        // one, after as many changes.
        ensures any_moment { (by : R.Rules) (base next : R.State) (counted : ℕ)
            → StandsAt (R.takes by) R.empty self.old.journal (D.view self.old.disk) base
            → R.takes by R.empty true body.now next counted
            → (D.view self.old.disk).tells ≡ true
            → LeavesOnly (D.view self.old.disk) (D.view self.new.disk)
            (IsEither2 (R.takes by) R.empty
            self.old.journal.digest base self.old.journal.changes
            digest.now next self.old.journal.changes) }

        ensures failed { OnErr result (self.new.journal.digest ≡ self.old.journal.digest) }
        ensures device { CommitDevice 7 result (D.view self.old.disk) (D.view self.new.disk) }
    {
        let _changes = self.journal.changes();
        self.journal.checkpoint(&mut self.disk, digest, body)
    }
}
