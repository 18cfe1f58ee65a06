//! Checkpoints: a snapshot of what is durable in the place of the frames of the store.
ghost use Rattle.std.specs.Prelude.{◌≡◌, true, IfOk, length};
ghost use Rattle.disk_model.specs.Disk.{LeavesOnly};
ghost use Rattle.journal.specs.Journal.{HasRoom};
ghost use Rattle.access_grants.specs.Grant.{HasDistinctPairs};
ghost use Rattle.row_changes.specs.Body.{rows_bytes};
ghost use Rattle.row_store.specs.Listing.{listed};
ghost use Rattle.agent_core.specs.AgentView.{is_due, may_of};
ghost use Rattle.agent_core.specs.Flushing.{Flushes, KeepsOptions};
ghost use Rattle.agent_core.specs.Calls.{IsTidy, OutcomeDevice, PowerAfter, checkpoint_calls};
ghost use Rattle.agent_core.specs.Means.{IsBeforeOrAfter};
ghost use Rattle.agent_core.specs.Seen.{AgentSeen, IsUp};
ghost use Rattle.agent_core.specs.Standing.{Finishes, HasNone, kept_in};

use crate::agent::{Agent, Power};
use crate::outcome::Outcome;
use agent_base::NoMemory;
use disk_model::Disk;
use journal::DeviceFault;
use row_store::{Rows, bodies_mean_states, states_stay_spelled};

impl<'l, D: Disk + Drop> Agent<'l, D> {
    // Makes the checkpoint that is due, if one is due, of an agent that is up and holds nothing.
    pub(crate) fn tend(&mut self) -> Outcome
        requires up { self.old.power ≡ Power.Up }
        requires none { HasNone self.old }
        ensures flushes { Flushes (checkpoint_calls self.old) self.old (D.view self.old.disk)
            self.new (D.view self.new.disk) result }
        ensures power { PowerAfter result self.old.power self.new.power }
    {
        if self.is_due() {
            return self.make_checkpoint();
        }
        Outcome::Replies(Vec::new(self.alloc))
    }

    // Whether a checkpoint is due.
    pub(crate) fn is_due(&self) -> bool
        ensures { result ≡ is_due self.entry.now.checkpoint self.entry.now.journal }
    {
        self.checkpoint != 0 && self.store.journal.since() >= self.checkpoint as u64
    }

    // Makes a checkpoint of an agent that is up and holds nothing.
    fn make_checkpoint(&mut self) -> Outcome
        requires up { self.old.power ≡ Power.Up }
        requires none { HasNone self.old }
        ensures flushes { Flushes 7 self.old (D.view self.old.disk)
            self.new (D.view self.new.disk) result }
        ensures power { PowerAfter result self.old.power self.new.power }
    {
        match self.snapshot() {
            Err(NoMemory) => Outcome::NoMemory,
            Ok(body) => self.reserve_and_put(&body),
        }
    }

    // The body of a snapshot of what outlives a restart.
    fn snapshot(&self) -> Result<Vec<u8>, NoMemory>
        ensures bytes { IfOk result
            (λ body. body.items ≡ rows_bytes (listed (kept_in self.entry.now.memory))) }
        ensures distinct { HasDistinctPairs self.entry.now.memory.grants }
    {
        let grants = self.memory.grants();
        let _distinct = grants.rows();
        row_store::snapshot(
            self.alloc,
            self.memory.storage(),
            self.memory.cookies(),
            grants,
        )
    }

    // Makes room for a snapshot, and puts it in the place of the frames.
    fn reserve_and_put(&mut self, body: &[u8]) -> Outcome
        requires up { self.old.power ≡ Power.Up }
        requires none { HasNone self.old }
        requires snapshot { body.now ≡ rows_bytes (listed (kept_in self.old.memory)) }
        requires distinct { HasDistinctPairs self.old.memory.grants }
        ensures flushes { Flushes 7 self.old (D.view self.old.disk)
            self.new (D.view self.new.disk) result }
        ensures power { PowerAfter result self.old.power self.new.power }
    {
        match self.store.reserve(body.len()) {
            Err(NoMemory) => Outcome::NoMemory,
            Ok(()) => self.put_snapshot(body),
        }
    }

    // Puts a snapshot in the place of the frames.
    fn put_snapshot(&mut self, body: &[u8]) -> Outcome
        requires up { self.old.power ≡ Power.Up }
        requires none { HasNone self.old }
        requires room { HasRoom self.old.journal (D.view self.old.disk) (length body.now) }
        requires snapshot { body.now ≡ rows_bytes (listed (kept_in self.old.memory)) }
        requires distinct { HasDistinctPairs self.old.memory.grants }
        ensures finishes { (ran : AgentSeen) → IsUp self.old (D.view self.old.disk) ran
            → ran.world.rest.now ≡ self.old.now
            → Finishes self.old.memory.rules self.old.now ran
            (may_of self.old (D.view self.old.disk))
            self.new (D.view self.new.disk) (may_of self.new (D.view self.new.disk)) result }
        ensures any_moment { (ran : AgentSeen) → IsUp self.old (D.view self.old.disk) ran
            → (D.view self.old.disk).tells ≡ true
            → LeavesOnly (D.view self.old.disk) (D.view self.new.disk)
            (IsBeforeOrAfter self.old.memory.rules self.old.journal.digest ran ran) }
        ensures rules { KeepsOptions self.old self.new }
        ensures device { OutcomeDevice 7 result (D.view self.old.disk) (D.view self.new.disk) }
        ensures power { PowerAfter result self.old.power self.new.power }
        ensures has_memory { result ≡ Outcome.NoMemory → ⊥ }
        ensures tidy { IsTidy result self.new }
    {
        bodies_mean_states();
        states_stay_spelled();
        let digest = *self.store.journal.digest();
        match self.store.checkpoint::<Rows>(&digest, body) {
            Err(DeviceFault) => {
                self.power = Power::Down;
                Outcome::Down
            }
            Ok(()) => Outcome::Replies(Vec::new(self.alloc)),
        }
    }
}
