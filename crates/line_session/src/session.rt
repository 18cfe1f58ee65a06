//! The session.
ghost use Rattle.std.specs.Prelude.{◌≡◌, ◌⊎◌, ◌∷◌, [], ℕ, List, Some, IfErr, IfOk, OnErr, OnOk};
ghost use Rattle.std.specs.Prelude.{IsErrAnd, IsErrOf, MatchResult, Option, false, true};
ghost use Rattle.agent_base.specs.Counts.{Rose};
ghost use Rattle.disk_model.specs.Carried.{TellsSame};
ghost use Rattle.disk_model.specs.Disk.{IsSettled, LeavesOnly};
ghost use Rattle.agent_core.specs.AgentView.{is_down, owes};
ghost use Rattle.agent_core.specs.declared.agent.Power.TheVariants as power;
ghost use Rattle.durable_model.specs.Histories.{opened_at};
ghost use Rattle.durable_model.specs.Migrate.{IsUnder, migrate};
ghost use Rattle.durable_model.specs.Saved.{IsValid, Saved, nothing_saved};
ghost use Rattle.journal.specs.Opening.{IsExcused, IsLimitRefusal, IsOfFile, IsOver, IsRefusal};
ghost use Rattle.journal.specs.declared.open_fault.OpenFault.{OpenFault};
ghost use Rattle.row_store.specs.Bodies.{Refuses};
ghost use Rattle.row_store.specs.Bodies as bodies;
ghost use Rattle.row_opening.specs.Under.{IsOpeningUnder, MeansUnder};
ghost use Rattle.script_actions.specs.Action.{PlainLine};
ghost use Rattle.script_actions.specs.Plain.{step_of};
ghost use Rattle.store_runs.specs.Answers.{answer_text};
ghost use Rattle.store_runs.specs.FaultCounts.{KeepsCount, RoseSince};
ghost use Rattle.line_session.specs.Asked as asked;
ghost use Rattle.line_session.specs.Asked.{asked_by};
ghost use Rattle.line_session.specs.Calls.{text_by, ran_by};
ghost use Rattle.line_session.specs.Refusals.{RefusedSo, IsStop};
ghost use Rattle.line_session.specs.StandsFor.{GoesBy, LineMoments, StandsFor};

use crate::reading::read;
use crate::refused::stopped;
use crate::{LineRefused, Untended};
use agent_base::{NoMemory, Seconds};
use agent_core::{Agent, Options, Refused};
use disk_model::{Carried, Disk};
use journal::OpenFault;
use json::Scratch;
use script_actions::Step;
use std::alloc::Global;
use std::marker::Model;
use store_runs::{Answer, Ending, run_line, tend};
use suffix_list::SuffixList;

/// A session over the store on a disk: lines are given to it one by one.
#[derive(Drop)]
pub struct Session<'l, D: Disk + Drop> {
    alloc: Global,
    agent: Agent<'l, D>,
    // What a line is read over, kept from line to line.
    scratch: Scratch,
    // The answer of the last line that ran, where it is still to be printed.
    unprinted: Option<Answer>,
    // A buffer for one reply.
    text: Vec<u8>,
    printed: Vec<u8>,
}

impl<'l, D: Disk + Drop> Model for Session<'l, D> {
    ghost use Rattle.line_session.specs.SessionView.{SessionView, is_printed, last_reply};

    ghost Value = { SessionView D };

    ghost view = { λ s. record {
      agent = s.agent;
      reply = last_reply s.unprinted s.printed.items;
      printed = is_printed s.unprinted;
    } };
}

impl<'l, D: Disk + Drop> Session<'l, D> {
    /// A session over the store on a disk, or over a new one where the file is no store yet. Its
    /// clock begins at `start`, and a checkpoint is due after `checkpoint` durable changes; 0 is
    /// never. A store under another suffix list is opened too: what of it is none under this list
    /// goes, and what stays is as it was.
    pub fn open(
        alloc: Global,
        disk: D,
        list: &'l SuffixList,
        start: Seconds,
        checkpoint: u32,
    ) -> Result<Session<'l, D>, Refused<D>>
        // It stands for what stays, under the list, of what the file stands for, with no line and
        // no text behind it.
        ensures seen { IfOk result (λ s. (base : Saved) × IsValid base
            × IsUnder list.now.rules base
            × (StandsFor D.view s (opened_at start base) [] []
            × ((c kept : List ℕ) (d : Saved) (n : ℕ) → (D.view disk).contents ≡ Some c
            → MeansUnder list.now.digest kept c d n → base ≡ migrate list.now.rules d)
            × ((c : List ℕ) → (D.view disk).contents ≡ Some c
            → (kept : List ℕ) × (d : Saved) × (n : ℕ) × MeansUnder list.now.digest kept c d n
            × (base ≡ migrate list.now.rules d)))) }
        ensures begun { IfOk result (λ s. (s.agent.memory.rules ≡ list.now.rules)
            × (s.agent.journal.digest ≡ list.now.digest) × (s.agent.checkpoint ≡ checkpoint)
            × (s.reply ≡ []) × (s.printed ≡ true)) }
        ensures refused { IfErr result (λ r. (c : List ℕ)
            → (D.view disk).contents ≡ Some c
            → IsRefusal bodies.Takes Refuses nothing_saved true c r.why) }
        ensures exactly { (why : OpenFault) (c : List ℕ)
            → (D.view disk).contents ≡ Some c → IsOfFile why
            → IsRefusal bodies.Takes Refuses nothing_saved true c why
            → MatchResult result (λ _. ⊥) (λ r. (r.why ≡ why) ⊎ IsExcused r.why) }
        ensures limit { (c : List ℕ) → (D.view disk).contents ≡ Some c → IsOver true c
            → MatchResult result (λ _. ⊥) (λ r. IsLimitRefusal c r.why) }
        ensures unchanged { IfErr result (λ r. IsOfFile r.why
            → (D.view r.disk).contents ≡ (D.view disk).contents) }
        ensures images { IfErr result (λ r. IsOfFile r.why → (file : List ℕ)
            → (D.view r.disk).may_leave file → (D.view disk).may_leave file) }
        ensures tells { MatchResult result
            (λ s. (D.view s.agent.disk).tells ≡ (D.view disk).tells)
            (λ r. (D.view r.disk).tells ≡ (D.view disk).tells) }
        // A call of the disk that failed leaves its count of faults higher.
        ensures counts { MatchResult result
            (λ s. RoseSince D.view (D.view disk).faults s.agent)
            (λ r. r.why ≡ OpenFault.DeviceFault
            → Rose (D.view disk).faults (D.view r.disk).faults) }
        // A cut at any moment leaves what it leaves of the opening of an agent.
        ensures any_moment { IsSettled (D.view disk) → (c : List ℕ)
            → (D.view disk).contents ≡ Some c
            → MatchResult result
            (λ s. LeavesOnly (D.view disk) (D.view s.agent.disk) (IsOpeningUnder list.now c))
            (λ r. LeavesOnly (D.view disk) (D.view r.disk) (IsOpeningUnder list.now c)) }
    {
        let options = Options {
            start,
            batch: 1,
            checkpoint,
        };
        match Agent::open(alloc, disk, list, options) {
            Ok(agent) => Ok(Session {
                alloc,
                agent,
                scratch: Scratch::new(alloc),
                unprinted: None,
                text: Vec::new(alloc),
                printed: Vec::new(alloc),
            }),
            Err(refusal) => Err(refusal),
        }
    }

    /// Runs one line, given without its line feed, and prints its reply. What it changed of what is
    /// durable is on the disk then. A blank line has an empty reply.
    ///
    /// A refused line changes nothing, but for one that opens the store again: where memory is
    /// wanting or no store is found, all lines are refused for want of memory until such a line
    /// finds it.
    pub fn line(&mut self, line: &[u8]) -> Result<(), LineRefused>
        ensures means { GoesBy D.view self.old self.new (asked_by line.now)
            (ran_by result (asked_by line.now)) (text_by result self.new.reply) }
        // Only a line without a fault has a reply, and a blank one an empty one.
        ensures read { OnOk result ((self.new.printed ≡ true)
            × ((l : Option PlainLine) × asked.IsReadAs line.now l)) }
        ensures refused { IfErr result (λ why. RefusedSo self.old self.new line.now why) }
        // Want of memory is never told in place of a reply that is still to be printed.
        ensures owed { self.old.printed ≡ false → IsErrOf result LineRefused.Owed }
        ensures any_moment { (self.new.agent ≡ self.old.agent)
            ⊎ LineMoments D.view self.old.agent self.new.agent (asked_by line.now) }
        ensures counts { KeepsCount D.view self.old.agent self.new.agent }
    {
        if self.unprinted.is_some() {
            return Err(LineRefused::Owed);
        }
        match read(self.alloc, line, &mut self.scratch) {
            Ok(Some(line)) => self.run(&line.step),
            Ok(None) => {
                self.printed.clear();
                Ok(())
            }
            Err(why) => Err(why),
        }
    }

    // Runs a step.
    fn run(&mut self, step: &Step) -> Result<(), LineRefused>
        requires printed { self.old.printed ≡ true }
        ensures means { GoesBy D.view self.old self.new (step_of step.now ∷ [])
            (ran_by result (step_of step.now ∷ [])) (text_by result self.new.reply) }
        ensures printed { OnOk result (self.new.printed ≡ true) }
        ensures refused { IfErr result (λ why. IsStop self.old self.new (step_of step.now) why) }
        ensures any_moment { LineMoments D.view self.old.agent self.new.agent
            (step_of step.now ∷ []) }
        ensures counts { KeepsCount D.view self.old.agent self.new.agent }
    {
        match run_line(&mut self.agent, step) {
            Ok(answer) => {
                self.unprinted = Some(answer);
                match self.print() {
                    Ok(()) => Ok(()),
                    Err(NoMemory) => Err(LineRefused::Unprinted),
                }
            }
            Err(ending) => Err(stopped(ending)),
        }
    }

    /// Prints the reply that is still to be printed, if there is one.
    pub fn print(&mut self) -> Result<(), NoMemory>
        ensures printed { OnOk result (self.new.printed ≡ true) }
        ensures stays { (self.new.agent ≡ self.old.agent) × (self.new.reply ≡ self.old.reply) }
        ensures refused { OnErr result (self.new.printed ≡ false) }
        ensures done { self.old.printed ≡ true → MatchResult result (λ _. Unit {0}) (λ _. ⊥) }
    {
        match &self.unprinted {
            None => return Ok(()),
            Some(answer) => {
                self.printed.clear();
                answer.hold(&mut self.text, &mut self.printed)?;
            }
        }
        self.unprinted = None;
        Ok(())
    }

    /// The reply of the last line that ran, with its line feed, and nothing while it is still to be
    /// printed. Before the first line it is empty.
    pub fn reply(&self) -> &[u8]
        ensures reply { self.now.printed ≡ true → result.now ≡ self.now.reply }
        ensures none { self.now.printed ≡ false → result.now ≡ [] }
    {
        match self.unprinted {
            Some(_) => &[],
            None => &self.printed,
        }
    }

    /// Makes the checkpoint that is due, if one is. It is for an idle moment: no line makes one.
    pub fn tend(&mut self) -> Result<(), Untended>
        ensures means { GoesBy D.view self.old self.new [] [] [] }
        ensures tidy { OnOk result (owes self.new.agent ≡ false) }
        ensures stays { (self.new.reply ≡ self.old.reply)
            × (self.new.printed ≡ self.old.printed) }
        ensures device { IsErrOf result Untended.Device → self.new.agent.power ≡ power.Down }
        ensures counts { KeepsCount D.view self.old.agent self.new.agent }
    {
        match tend(&mut self.agent) {
            Ending::Done => Ok(()),
            Ending::Device => Err(Untended::Device),
            _ => Err(Untended::NoMemory),
        }
    }

    /// Whether a call of the disk failed since the store was last opened.
    pub fn is_down(&self) -> bool
        ensures down { result ≡ is_down self.now.agent.power }
    {
        self.agent.is_down()
    }

    /// The disk that the store is on.
    pub fn disk(&self) -> &D
        ensures disk { result.now ≡ self.now.agent.disk }
    {
        self.agent.disk()
    }

    /// Hands the disk back.
    pub fn into_disk(self) -> D
        ensures { result ≡ self.entry.agent.disk }
    {
        self.agent.into_disk()
    }
}

impl<'l, D: Carried + Drop> Session<'l, D> {
    /// The owner of the disk has carried out its next call. Nothing else changes, and the session
    /// stands for what it stood for.
    pub fn call_done(&mut self)
        ensures disk { D.is_done self.old.agent.disk self.new.agent.disk }
        ensures tells { TellsSame (D.view self.old.agent.disk) (D.view self.new.agent.disk) }
        ensures same { self.new ≡ record self.old {
          agent = record self.old.agent { disk = self.new.agent.disk };
        } }
        ensures means { GoesBy D.view self.old self.new [] [] [] }
    {
        self.agent.call_done();
    }
}
