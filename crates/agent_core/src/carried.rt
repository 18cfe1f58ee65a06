//! An agent over a disk whose owner carries out its calls.
ghost use Rattle.std.specs.Prelude.{◌≡◌, ℕ};
ghost use Rattle.disk_model.specs.Carried.{TellsSame};
ghost use Rattle.durable_model.specs.Keeping.{AgentDurable};
ghost use Rattle.agent_core.specs.AgentView.{may_of};
ghost use Rattle.agent_core.specs.Seen.{AgentSeen, IsSeen};

use crate::agent::Agent;
use disk_model::Carried;

impl<'l, D: Carried + Drop> Agent<'l, D> {
    /// The owner of the disk has carried out its next call. Nothing else changes, and the agent
    /// stands for what it stood for.
    pub fn call_done(&mut self)
        ensures disk { D.is_done self.old.disk self.new.disk }
        ensures tells { TellsSame (D.view self.old.disk) (D.view self.new.disk) }
        ensures same { self.new ≡ record self.old { disk = self.new.disk } }
        ensures means { (a : AgentSeen) → IsSeen self.old (D.view self.old.disk) a
            → IsSeen self.new (D.view self.new.disk) a }
        // A restart finds no other state than it might have found.
        ensures found { (d : AgentDurable) (n : ℕ) → may_of self.new (D.view self.new.disk) d n
            → may_of self.old (D.view self.old.disk) d n }
    {
        self.store.disk.done();
    }
}
