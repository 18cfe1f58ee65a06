//! What an agent tells of what it has in memory, which stays as it is, and of its disk, of which no
//! call is made.
//! Where a restart was refused, memory is not what the store stands for, and nothing is told.
ghost use Rattle.std.specs.Prelude.{◌≡◌, ◌↔◌, ◌+◌, ◌%◌, ◌^◌, true, IfOk, IsErr, length, map};
ghost use Rattle.row_changes.specs.Plain.{plain_change};
ghost use Rattle.row_store.specs.Listing.{listed};
ghost use Rattle.agent_memory.specs.AgentState.{world_of};
ghost use Rattle.agent_core.specs.AgentView.{since_opening};
ghost use Rattle.agent_core.specs.Seen.{AgentSeen, IsSeen};
ghost use Rattle.agent_core.specs.Standing.{kept_in};

use crate::agent::{Agent, Power};
use agent_base::NoMemory;
use agent_memory::Memory;
use disk_model::Disk;
use row_changes::Change;

impl<'l, D: Disk + Drop> Agent<'l, D> {
    /// How many durable changes were made since the last opening, those of the lines that wait
    /// among them. It is told modulo 2^64.
    pub fn changes(&self) -> u64
        ensures changes { let v = self.entry.now in
            result ≡ (since_opening v.journal.changes v.opened + v.changes) % 2 ^ 64 }
        // Where the agent is up, it is the number itself.
        ensures up { (a : AgentSeen) → IsSeen self.entry.now (D.view self.entry.now.disk) a
            → a.up ≡ true → result ≡ a.base.count + length a.pending }
    {
        let since = self.store.journal.changes().wrapping_sub(self.opened);
        since.wrapping_add(self.batch.changes())
    }

    /// The row changes of a snapshot of what is in memory, in the order in which one is written:
    /// what outlives a restart, of the lines that wait too. No cookie has a last use.
    pub fn listing(&self) -> Result<Vec<Change>, NoMemory>
        ensures rows { IfOk result (λ rows. map plain_change rows.items
            ≡ listed (kept_in self.entry.now.memory)) }
        ensures spoilt { self.entry.now.power ≡ Power.Spoilt → IsErr result }
    {
        self.has_memory()?;
        row_store::snapshot_rows(
            self.alloc,
            self.memory.storage(),
            self.memory.cookies(),
            self.memory.grants(),
        )
    }

    /// What the agent has in memory: what the next line runs over.
    pub fn memory(&self) -> Result<&Memory<'l>, NoMemory>
        ensures memory { IfOk result (λ memory. memory.now ≡ self.entry.now.memory) }
        // Where the agent is up, it stands for the world that the agent stands for.
        ensures up { (a : AgentSeen) → IsSeen self.entry.now (D.view self.entry.now.disk) a
            → a.up ≡ true → IfOk result (λ memory. world_of memory.now ≡ a.world) }
        ensures spoilt { IsErr result ↔ self.entry.now.power ≡ Power.Spoilt }
    {
        self.has_memory()?;
        Ok(&self.memory)
    }

    /// The disk that the store is on.
    pub fn disk(&self) -> &D
        ensures disk { result.now ≡ self.entry.now.disk }
    {
        &self.store.disk
    }

    // Refuses where a restart was refused: want of memory was its cause, or is told for it.
    fn has_memory(&self) -> Result<(), NoMemory>
        ensures spoilt { IsErr result ↔ self.entry.now.power ≡ Power.Spoilt }
    {
        if self.power == Power::Spoilt {
            return Err(NoMemory);
        }
        Ok(())
    }
}
