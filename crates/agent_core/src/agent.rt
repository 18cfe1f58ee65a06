//! The agent over a disk.
ghost use Rattle.std.specs.Prelude.{◌≡◌, ◌⊎◌, ◌+◌, ◌≤◌, ℕ, List, [], Some, Ok, Err, IfOk, IfErr};
ghost use Rattle.std.specs.Prelude.{MatchResult, length, true};
ghost use Rattle.unwinding.specs.Course.{AtBase};
ghost use Rattle.unwinding.specs.CourseSteps.{reopened};
ghost use Rattle.agent_base.specs.Counts.{Rose};
ghost use Rattle.disk_model.specs.Disk.{HasFailed, IsPowered, IsSettled, LeavesOnly, Makes};
ghost use Rattle.journal.specs.Opening.{HasNoFault, IsExcused, IsLimitRefusal, IsOfFile, IsOver};
ghost use Rattle.journal.specs.Opening.{IsRefusal};
ghost use Rattle.journal.specs.declared.open_fault.OpenFault.{OpenFault};
ghost use Rattle.script_actions.specs.Plain.{action_of};
ghost use Rattle.agent_model.specs.Lines.{Rest, no_places};
ghost use Rattle.agent_base.specs.Seconds.{last_moment};
ghost use Rattle.agent_model.specs.TheMachine.{machine};
ghost use Rattle.durable_model.specs.Keeping.{durable_of, keeping};
ghost use Rattle.durable_model.specs.Migrate.{IsUnder, migrate};
ghost use Rattle.durable_model.specs.Saved.{IsValid, Saved, nothing_saved};
ghost use Rattle.row_store.specs.Bodies.{Refuses, Takes};
ghost use Rattle.row_store.specs.Stored.{HasNoSession, saved_of};
ghost use Rattle.row_opening.specs.Opened.{IsOpened};
ghost use Rattle.row_opening.specs.Under.{IsOpeningUnder, MeansUnder};
ghost use Rattle.agent_core.specs.AgentView.{is_down, list_of, longest_batch, may_of, owes};
ghost use Rattle.agent_core.specs.AgentView.{since_opening};
ghost use Rattle.open_store.specs.Commits.{HasRoomFor};
ghost use Rattle.open_store.specs.Reopens.{LeavesAnew};
ghost use Rattle.agent_core.specs.Flushing.{Flushes, KeepsOptions};
ghost use Rattle.agent_core.specs.Calls.{IsIdle, IsTidy, OutcomeDevice, PowerAfter, RestartDevice};
ghost use Rattle.agent_core.specs.Calls.{flush_calls};
ghost use Rattle.agent_core.specs.Means.{Fits, FlushMeans, IsBeforeOrAfter, IsOneFound, LineMeans};
ghost use Rattle.agent_core.specs.Means.{RestartMeans, after_line};
ghost use Rattle.agent_core.specs.Seen.{AgentSeen, IsSeen, IsUp};
ghost use Rattle.agent_core.specs.Openings.{OpensByCalls, resumed};
ghost use Rattle.agent_core.specs.Running.{RunsLine};
ghost use Rattle.agent_core.specs.Standing.{Finishes, IsHeld, power_of};

use crate::open_batch::OpenBatch;
use crate::outcome::Outcome;
use crate::running::run_line;
use agent_base::{NoMemory, Seconds};
use agent_memory::Memory;
use disk_model::Disk;
use durable_model::lines_keep_durable_states;
use journal::{DeviceFault, OpenFault};
use open_store::Store;
use row_opening::{Opened, open_rows, reopen_rows};
use row_store::{Parts, Rows, bodies_mean_states, states_stay_spelled};
use script_actions::Action;
use spelled_model::lines_have_spellings;
use std::alloc::Global;
use std::marker::Model;
use suffix_list::SuffixList;

/// Whether an agent is up.
#[derive(Clone, Copy, Debug, PartialEq, Eq)]
pub enum Power {
    Up,
    /// A call of the disk failed.
    Down,
    /// Memory was wanting at a restart, or what was found there is no store.
    Spoilt,
}

/// How an agent begins.
#[derive(Clone, Copy, Debug)]
pub struct Options {
    /// The clock at the first line.
    pub start: Seconds,
    /// How many lines are committed together, from 1 to 256.
    pub batch: u16,
    /// After so many durable changes since the last snapshot a checkpoint is due; 0 is never.
    pub checkpoint: u32,
}

/// Why no agent was opened, and its disk.
#[derive(Debug, Drop)]
pub struct Refused<D: Disk + Drop> {
    pub why: OpenFault,
    pub disk: D,
}

/// The storage of a browser over a disk, under a suffix list.
#[derive(Debug, Drop)]
pub struct Agent<'l, D: Disk + Drop> {
    pub(crate) alloc: Global,
    list: &'l SuffixList,
    now: Seconds,
    pub(crate) memory: Memory<'l>,
    pub(crate) batch: OpenBatch,
    pub(crate) opened: u64,
    pub(crate) checkpoint: u32,
    pub(crate) power: Power,
    pub(crate) store: Store<D>,
}

impl<'l, D: Disk + Drop> Model for Agent<'l, D> {
    ghost use Rattle.agent_core.specs.AgentView.{AgentView};
    ghost use Rattle.agent_core.specs.Standing.{IsStanding};

    ghost Value = { AgentView D };

    ghost view = { λ a. record {
      memory = a.memory;
      now = a.now;
      batch = a.batch.size;
      body = a.batch.body;
      changes = a.batch.changes;
      held = a.batch.held;
      journal = a.store.journal;
      opened = a.opened;
      checkpoint = a.checkpoint;
      power = a.power;
      disk = a.store.disk;
    } };

    ghost invariant = { λ a. IsStanding a.list.now a.memory a.batch a.power
        a.store.journal (D.view a.store.disk) };
}

// Memory that goes on with what is durable.
fn resume<'l>(alloc: Global, list: &'l SuffixList, now: Seconds, parts: Parts) -> Memory<'l>
    requires sessions { HasNoSession parts.storage }
    ensures in_time { now ≤ last_moment }
    ensures state { result ≡ resumed list.now.rules now parts.storage parts.cookies parts.grants }
{
    let now = now.number();
    Memory::resume(alloc, list, now, parts.storage, parts.cookies, parts.grants)
}

// Whether an agent is up after such a refusal: it never is.
fn power_after(why: &OpenFault) -> Power
    ensures { result ≡ power_of why.now }
{
    match why {
        OpenFault::DeviceFault => Power::Down,
        OpenFault::NotAStore(_) | OpenFault::TooLarge(_) | OpenFault::NoMemory => Power::Spoilt,
    }
}

// An agent over a store that was just opened.
fn begin<'l, D: Disk + Drop>(
    alloc: Global,
    disk: D,
    list: &'l SuffixList,
    options: Options,
    opened: Opened,
) -> Agent<'l, D>
    requires batch { (1 ≤ options.batch) × (options.batch ≤ longest_batch) }
    requires opened { IsOpened list.now opened.journal (D.view disk) opened.parts }
    ensures seen { let at : Rest = record { now = options.start; places = no_places } in
        let s = reopened (machine list.now.rules) keeping at (durable_of (saved_of opened.parts)) in
        IsSeen result (D.view result.disk) s × AtBase s.base (may_of result (D.view result.disk)) }
    ensures disk { result.disk ≡ disk }
    ensures rules { (result.memory.rules ≡ list.now.rules)
        × (result.journal.digest ≡ list.now.digest) × (result.batch ≡ options.batch)
        × (result.checkpoint ≡ options.checkpoint) }
{
    lines_keep_durable_states();
    lines_have_spellings();
    let changes = opened.journal.changes();
    Agent {
        alloc,
        list,
        now: options.start,
        memory: resume(alloc, list, options.start, opened.parts),
        batch: OpenBatch::new(alloc, options.batch),
        opened: changes,
        checkpoint: options.checkpoint,
        power: Power::Up,
        store: Store {
            journal: opened.journal,
            disk,
        },
    }
}

impl<'l, D: Disk + Drop> Agent<'l, D> {
    /// An agent over the store on a disk, or over a new one where the file is no store yet. A store
    /// over 1,073,741,824 bytes is refused.
    ///
    /// A store may stand under another list. What of it is none under this one goes; what stays is
    /// as it was, and is written as one snapshot under this list.
    pub fn open(
        alloc: Global,
        disk: D,
        list: &'l SuffixList,
        options: Options,
    ) -> Result<Agent<'l, D>, Refused<D>>
        requires batch { (1 ≤ options.batch) × (options.batch ≤ longest_batch) }

        // It stands for the world that a restart opens with what stays of the store's state.
        ensures seen { IfOk result (λ a. (base : Saved) × IsValid base
            × IsUnder list.now.rules base
            × (let at : Rest = record { now = options.start; places = no_places } in
            let s = reopened (machine list.now.rules) keeping at (durable_of base) in
            IsSeen a (D.view a.disk) s × AtBase s.base (may_of a (D.view a.disk))
            × ((c kept : List ℕ) (d : Saved) (n : ℕ) → (D.view disk).contents ≡ Some c
            → MeansUnder list.now.digest kept c d n → base ≡ migrate list.now.rules d)
            × ((c : List ℕ) → (D.view disk).contents ≡ Some c
            → (kept : List ℕ) × (d : Saved) × (n : ℕ) × MeansUnder list.now.digest kept c d n
            × (base ≡ migrate list.now.rules d)))) }
        ensures rules { IfOk result (λ a. (a.memory.rules ≡ list.now.rules)
            × (a.journal.digest ≡ list.now.digest) × (a.batch ≡ options.batch)
            × (a.checkpoint ≡ options.checkpoint)) }
        ensures refused { IfErr result (λ r. (c : List ℕ) → (D.view disk).contents ≡ Some c
            → IsRefusal Takes Refuses nothing_saved true c r.why) }
        ensures exactly { (why : OpenFault) (c : List ℕ) → (D.view disk).contents ≡ Some c
            → IsOfFile why → IsRefusal Takes Refuses nothing_saved true c why
            → MatchResult result (λ _. ⊥) (λ r. (r.why ≡ why) ⊎ IsExcused r.why) }
        ensures limit { (c : List ℕ) → (D.view disk).contents ≡ Some c → IsOver true c
            → MatchResult result (λ _. ⊥) (λ r. IsLimitRefusal c r.why) }
        ensures unchanged { IfErr result (λ r. IsOfFile r.why
            → (D.view r.disk).contents ≡ (D.view disk).contents) }
        ensures images { IfErr result (λ r. IsOfFile r.why → (file : List ℕ)
            → (D.view r.disk).may_leave file → (D.view disk).may_leave file) }
        ensures tells { MatchResult result
            (λ a. (D.view a.disk).tells ≡ (D.view disk).tells)
            (λ r. (D.view r.disk).tells ≡ (D.view disk).tells) }
        ensures powered { IfOk result (λ a. IsPowered (D.view disk) (D.view a.disk)) }
        ensures device { IfErr result (λ r. r.why ≡ OpenFault.DeviceFault
            → Rose (D.view disk).faults (D.view r.disk).faults
            × HasFailed (D.view disk) (D.view r.disk)) }
        ensures others { MatchResult result (λ a. HasNoFault (D.view disk) (D.view a.disk))
            (λ r. (r.why ≡ OpenFault.DeviceFault → ⊥)
            → HasNoFault (D.view disk) (D.view r.disk)) }
        ensures calls { (c : List ℕ) → (D.view disk).contents ≡ Some c
            → MatchResult result
            (λ a. OpensByCalls list.now c (Ok tt) (D.view disk) (D.view a.disk))
            (λ r. OpensByCalls list.now c (Err r.why) (D.view disk) (D.view r.disk)) }
        // A cut at any moment leaves the file as it was, but for the byte of its version; of an
        // unborn file an unborn one or a store without frames; or of a store that is written anew a
        // store of its state still, or of what stays of it, under the list.
        ensures any_moment { IsSettled (D.view disk) → (c : List ℕ)
            → (D.view disk).contents ≡ Some c
            → MatchResult result
            (λ a. LeavesOnly (D.view disk) (D.view a.disk) (IsOpeningUnder list.now c))
            (λ r. LeavesOnly (D.view disk) (D.view r.disk) (IsOpeningUnder list.now c)) }
    {
        let mut disk = disk;
        match open_rows(alloc, &mut disk, list) {
            Ok(opened) => Ok(begin(alloc, disk, list, options, opened)),
            Err(why) => Err(Refused { why, disk }),
        }
    }

    /// Runs one line. The last line of a batch commits the batch.
    ///
    /// All memory of a line is taken before anything changes. At most four changing calls of the
    /// disk are made, and none where the line ends no batch, no line of the batch has a durable
    /// change, or memory is wanting.
    pub fn line(&mut self, action: &Action) -> Outcome
        ensures means { (a : AgentSeen) → IsSeen self.old (D.view self.old.disk) a → Fits a
            → (b : AgentSeen) × IsSeen self.new (D.view self.new.disk) b
            × LineMeans self.old.memory.rules self.old.batch (action_of action.now)
            a (may_of self.old (D.view self.old.disk)) b (may_of self.new (D.view self.new.disk))
            result }
        ensures any_moment { (a : AgentSeen) → IsSeen self.old (D.view self.old.disk) a
            → a.up ≡ true → (D.view self.old.disk).tells ≡ true
            → LeavesOnly (D.view self.old.disk) (D.view self.new.disk)
            (IsBeforeOrAfter self.old.memory.rules self.old.journal.digest a
            (after_line self.old.memory.rules a (action_of action.now))) }
        ensures rules { KeepsOptions self.old self.new }
        ensures device { self.old.power ≡ Power.Up
            → OutcomeDevice 4 result (D.view self.old.disk) (D.view self.new.disk) }

        // No call is made, and a checkpoint is due exactly where one was, where no line of the
        // batch has a durable change, where the line waits, and where memory is wanting.
        ensures idle { (a : AgentSeen) → IsSeen self.old (D.view self.old.disk) a
            → (after_line self.old.memory.rules a (action_of action.now)).pending ≡ []
            → IsIdle self.old (D.view self.old.disk) self.new (D.view self.new.disk) }
        ensures waits { result ≡ Outcome.Held
            → IsIdle self.old (D.view self.old.disk) self.new (D.view self.new.disk) }
        ensures spares { result ≡ Outcome.NoMemory
            → IsIdle self.old (D.view self.old.disk) self.new (D.view self.new.disk) }
        // Only the last line of a batch can meet a device fault.
        ensures tried { self.old.power ≡ Power.Up → result ≡ Outcome.Down
            → self.old.batch ≤ length self.old.held + 1 }

        // A call of the disk that failed leaves the agent down, and nothing else changes whether it
        // is up.
        ensures power { PowerAfter result self.old.power self.new.power }
        ensures off { (self.old.power ≡ Power.Up → ⊥) → self.new ≡ self.old }
        ensures answer { (self.old.power ≡ Power.Down → result ≡ Outcome.Down)
            × (self.old.power ≡ Power.Spoilt → result ≡ Outcome.NoMemory) }
    {
        match self.power {
            Power::Down => Outcome::Down,
            Power::Spoilt => Outcome::NoMemory,
            Power::Up => self.run(action),
        }
    }

    /// Commits what is held, and gives out its replies. With nothing held it makes the checkpoint
    /// that is due, if one is due: the store has a snapshot then in the place of its frames.
    ///
    /// All memory of it is taken before anything changes. At most four changing calls are made, for
    /// a checkpoint seven, and none where nothing durable is held and no checkpoint is due, or
    /// memory is wanting.
    pub fn flush(&mut self) -> Outcome
        ensures means { (a : AgentSeen) → IsSeen self.old (D.view self.old.disk) a
            → (b : AgentSeen) × IsSeen self.new (D.view self.new.disk) b
            × FlushMeans self.old.memory.rules
            a (may_of self.old (D.view self.old.disk)) b (may_of self.new (D.view self.new.disk))
            result }
        ensures any_moment { (a : AgentSeen) → IsSeen self.old (D.view self.old.disk) a
            → a.up ≡ true → (D.view self.old.disk).tells ≡ true
            → LeavesOnly (D.view self.old.disk) (D.view self.new.disk)
            (IsBeforeOrAfter self.old.memory.rules self.old.journal.digest a a) }
        ensures rules { KeepsOptions self.old self.new }
        ensures device { self.old.power ≡ Power.Up
            → OutcomeDevice (flush_calls self.old) result
            (D.view self.old.disk) (D.view self.new.disk) }
        // No call is made, and a checkpoint is due exactly where one was, where lines are held,
        // none of which has a durable change, and where memory is wanting.
        ensures idle { (a : AgentSeen) → IsSeen self.old (D.view self.old.disk) a
            → a.pending ≡ [] → (self.old.held ≡ [] → ⊥)
            → IsIdle self.old (D.view self.old.disk) self.new (D.view self.new.disk) }
        ensures spares { result ≡ Outcome.NoMemory
            → IsIdle self.old (D.view self.old.disk) self.new (D.view self.new.disk) }
        // With nothing held no checkpoint is due afterwards.
        ensures tidy { self.old.held ≡ [] → IsTidy result self.new }
        // A call of the disk that failed leaves the agent down, and nothing else changes whether it
        // is up.
        ensures power { PowerAfter result self.old.power self.new.power }
        ensures off { (self.old.power ≡ Power.Up → ⊥) → self.new ≡ self.old }
        ensures answer { (self.old.power ≡ Power.Down → result ≡ Outcome.Down)
            × (self.old.power ≡ Power.Spoilt → result ≡ Outcome.NoMemory) }
    {
        match self.power {
            Power::Down => Outcome::Down,
            Power::Spoilt => Outcome::NoMemory,
            Power::Up => self.settle(),
        }
    }

    /// The power is cut and comes back, and the store is opened again: the tabs, all that a restart
    /// loses, and the open batch are gone. Answers how many durable changes since the last opening
    /// are there, modulo 2^64. The clock goes on. One changing call of the disk is made, a sync.
    pub fn restart(&mut self) -> Result<u64, OpenFault>
        ensures means { (D.view self.old.disk).tells ≡ true → (a : AgentSeen)
            → IsSeen self.old (D.view self.old.disk) a
            → (b : AgentSeen) × IsSeen self.new (D.view self.new.disk) b
            × RestartMeans self.old.memory.rules
            a (may_of self.old (D.view self.old.disk)) b (may_of self.new (D.view self.new.disk))
            result }
        // At each moment from the disk's own restart on, a cut leaves a store that it might have
        // left before: a restart finds no other state than this one might have found.
        ensures any_moment { (a : AgentSeen) → IsSeen self.old (D.view self.old.disk) a
            → LeavesAnew result (D.view self.old.disk) (D.view self.new.disk)
            (IsOneFound self.old (D.view self.old.disk)) }
        ensures rules { KeepsOptions self.old self.new }
        ensures device { RestartDevice result (D.view self.old.disk) (D.view self.new.disk) }
        ensures calls { (D.view self.old.disk).tells ≡ true → (a : AgentSeen)
            → IsSeen self.old (D.view self.old.disk) a
            → Makes 1 result (D.view self.old.disk) (D.view self.new.disk) }
        ensures power { MatchResult result (λ _. self.new.power ≡ Power.Up)
            (λ why. self.new.power ≡ power_of why) }
    {
        self.power = Power::Down;
        match reopen_rows(self.alloc, &mut self.store.disk, self.list) {
            Ok(opened) => Ok(self.go_on(opened)),
            Err(why) => {
                self.power = power_after(&why);
                Err(why)
            }
        }
    }

    // Goes on with the store that a restart opened, and answers how many changes were kept.
    fn go_on(&mut self, opened: Opened) -> u64
        requires opened { IsOpened (list_of self.old) opened.journal (D.view self.old.disk)
            opened.parts }
        ensures seen { let at : Rest = record { now = self.old.now; places = no_places } in
            let d = durable_of (saved_of opened.parts) in
            let s = reopened (machine self.old.memory.rules) keeping at d in
            IsSeen self.new (D.view self.new.disk) s
            × AtBase s.base (may_of self.new (D.view self.new.disk)) }
        ensures kept { result ≡ since_opening opened.journal.changes self.old.opened }
        ensures up { self.new.power ≡ Power.Up }
        ensures disk { self.new.disk ≡ self.old.disk }
        ensures rules { KeepsOptions self.old self.new }
    {
        lines_keep_durable_states();
        lines_have_spellings();
        let changes = opened.journal.changes();
        let kept = changes.wrapping_sub(self.opened);
        self.memory = resume(self.alloc, self.list, self.now, opened.parts);
        self.batch.clear();
        self.opened = changes;
        self.store.journal = opened.journal;
        self.power = Power::Up;
        kept
    }

    // Runs one line of an agent that is up.
    fn run(&mut self, action: &Action) -> Outcome
        requires up { self.old.power ≡ Power.Up }
        ensures runs { RunsLine (action_of action.now) self.old (D.view self.old.disk)
            self.new (D.view self.new.disk) result }
        ensures power { PowerAfter result self.old.power self.new.power }
    {
        lines_keep_durable_states();
        lines_have_spellings();
        match run_line(&mut self.memory, &mut self.batch, &mut self.store, action) {
            Err(NoMemory) => Outcome::NoMemory,
            Ok(()) => {
                if self.batch.is_full() {
                    return self.finish();
                }
                self.now = Seconds::new(self.memory.now());
                Outcome::Held
            }
        }
    }

    // Commits what an agent that is up holds, or else makes the checkpoint that is due.
    fn settle(&mut self) -> Outcome
        requires up { self.old.power ≡ Power.Up }
        ensures flushes { Flushes (flush_calls self.old) self.old (D.view self.old.disk)
            self.new (D.view self.new.disk) result }
        ensures power { PowerAfter result self.old.power self.new.power }
        ensures idle { (a : AgentSeen) → IsSeen self.old (D.view self.old.disk) a
            → a.pending ≡ [] → (self.old.held ≡ [] → ⊥)
            → IsIdle self.old (D.view self.old.disk) self.new (D.view self.new.disk) }
    {
        if self.batch.is_empty() {
            return self.tend();
        }
        match self.store.reserve(self.batch.bytes().len()) {
            Err(NoMemory) => Outcome::NoMemory,
            Ok(()) => self.finish(),
        }
    }

    // Commits the open batch, and gives out its replies.
    fn finish(&mut self) -> Outcome
        requires up { self.old.power ≡ Power.Up }
        requires room { HasRoomFor self.old.journal (D.view self.old.disk) (length self.old.body) }
        ensures finishes { (ran : AgentSeen) → IsUp self.old (D.view self.old.disk) ran
            → Finishes self.old.memory.rules self.old.now ran
            (may_of self.old (D.view self.old.disk))
            self.new (D.view self.new.disk) (may_of self.new (D.view self.new.disk)) result }
        ensures any_moment { (ran : AgentSeen) → IsHeld self.old (D.view self.old.disk) ran
            → (D.view self.old.disk).tells ≡ true
            → LeavesOnly (D.view self.old.disk) (D.view self.new.disk)
            (IsBeforeOrAfter self.old.memory.rules self.old.journal.digest ran ran) }
        ensures rules { KeepsOptions self.old self.new }
        ensures device { OutcomeDevice 4 result (D.view self.old.disk) (D.view self.new.disk) }
        ensures idle { self.old.body ≡ []
            → IsIdle self.old (D.view self.old.disk) self.new (D.view self.new.disk) }
        ensures power { PowerAfter result self.old.power self.new.power }
        ensures ends { result ≡ Outcome.Held → ⊥ }
        ensures has_memory { result ≡ Outcome.NoMemory → ⊥ }
    {
        lines_keep_durable_states();
        bodies_mean_states();
        states_stay_spelled();
        let changes = self.batch.changes();
        match self.store.commit::<Rows>(self.batch.bytes(), changes) {
            Err(DeviceFault) => {
                self.power = Power::Down;
                Outcome::Down
            }
            Ok(()) => {
                self.now = Seconds::new(self.memory.now());
                Outcome::Replies(self.batch.give())
            }
        }
    }

    /// Whether a call of the disk failed since the last good opening.
    pub fn is_down(&self) -> bool
        ensures { result ≡ is_down self.entry.now.power }
    {
        self.power == Power::Down
    }

    /// Whether the next flush makes a checkpoint: the agent is up, it holds no line, and a
    /// checkpoint is due.
    pub fn owes_checkpoint(&self) -> bool
        ensures owes { result ≡ owes self.entry.now }
    {
        self.power == Power::Up && self.batch.is_empty() && self.is_due()
    }

    /// The clock, in seconds since 1970.
    pub fn now(&self) -> u64
        ensures { result ≡ self.entry.now.now }
    {
        self.now.number()
    }

    /// Hands the disk back.
    pub fn into_disk(self) -> D
        ensures { result ≡ self.entry.disk }
    {
        let store = self.store;
        store.disk
    }
}
