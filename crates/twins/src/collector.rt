//! What is collected of a run, for the local script of a site.
ghost use Rattle.std.specs.Prelude.{◌≡◌, ◌<◌, ◌+◌, ◌^◌, ◌++◌, ◌∷◌, [], ℕ, OnOk, map};
ghost use Rattle.unwinding.specs.LocalScript.{happenings};
ghost use Rattle.local_scripts.specs.Items.{entry_of, item_of};
ghost use Rattle.script_courses.specs.Collected.{closing, nothing_collected};
ghost use Rattle.script_courses.specs.Collected.{with_commit, with_restart};
ghost use Rattle.twins.specs.Collectors.{TakesIn, collected_of};

use agent_base::NoMemory;
use local_scripts::{Entry, Item, Restart};
use std::alloc::Global;

/// What is collected of a run so far. How many replies of the site wait for their batch is not
/// kept, since they are told when it is committed.
#[derive(Debug, Drop)]
pub struct Collector {
    /// The entries and restarts so far.
    pub items: Vec<Item>,
    /// Whether events of other sites have left the cookies of the site's domain different.
    pub changed: bool,
    /// How many replies of the site were acknowledged since the last restart.
    pub replies: u64,
    /// How many durable changes of the site their lines made.
    pub changes: u64,
    /// How many durable changes of the site wait for their batch.
    pub waiting: u64,
}

impl Collector {
    /// Nothing has run.
    pub fn new(alloc: Global) -> Collector
        ensures nothing { collected_of result 0 ≡ nothing_collected }
    {
        Collector {
            items: Vec::new(alloc),
            changed: false,
            replies: 0,
            changes: 0,
            waiting: 0,
        }
    }

    /// A line with these entries was executed, and waits for its batch: whether the cookies of the
    /// site's domain are left different now, and how many durable changes of the site it made.
    /// No count reaches its last value in a run of fewer lines.
    pub fn take_in(&mut self, entries: Vec<Entry>, changed: bool, made: u64) -> Result<(), NoMemory>
        ensures taken { OnOk result
            (TakesIn self.old self.new (map entry_of entries.items) changed made) }
    {
        push_all(&mut self.items, entries)?;
        self.changed = changed;
        self.waiting = self.waiting.saturating_add(made);
        Ok(())
    }

    /// What waits was committed, with so many replies of the site.
    pub fn commit(&mut self, replies: u64)
        ensures committed { self.old.replies + replies < 2 ^ 64
            → self.old.changes + self.old.waiting < 2 ^ 64
            → collected_of self.new 0 ≡ with_commit (collected_of self.old replies) }
    {
        self.replies = self.replies.saturating_add(replies);
        self.changes = self.changes.saturating_add(self.waiting);
        self.waiting = 0;
    }

    /// How the open epoch is closed at this moment.
    pub fn closing(&self, moment: u64) -> Restart
        ensures closing { (waiting : ℕ) → item_of (Item.Restarts result)
            ≡ closing moment (collected_of self.now waiting) }
    {
        Restart {
            moment,
            acknowledged: self.replies,
            kept: self.changes,
        }
    }

    /// The store was opened again at this moment: what waits is lost, but for its entries.
    pub fn restart(&mut self, moment: u64) -> Result<(), NoMemory>
        ensures restarted { OnOk result ((waiting : ℕ)
            → collected_of self.new 0 ≡ with_restart moment (collected_of self.old waiting)) }
    {
        let end = self.closing(moment);
        push(&mut self.items, Item::Restarts(end))?;
        self.replies = 0;
        self.changes = 0;
        self.waiting = 0;
        Ok(())
    }
}

fn push_all(items: &mut Vec<Item>, entries: Vec<Entry>) -> Result<(), NoMemory>
    ensures pushed { let more = happenings (map entry_of entries.items) in
        OnOk result (map item_of items.new.items ≡ map item_of items.old.items ++ more) }
{
    for entry in entries {
        push(items, Item::Happens(entry))?;
    }
    Ok(())
}

fn push(items: &mut Vec<Item>, item: Item) -> Result<(), NoMemory>
    ensures pushed { OnOk result (items.new.items ≡ items.old.items ++ (item ∷ [])) }
{
    match items.push(item) {
        Ok(()) => Ok(()),
        Err(_) => Err(NoMemory),
    }
}
