//! A disk in memory, whose power can be cut in a changing call.
ghost use Rattle.std.specs.Prelude.{◌≡◌, ◌↔◌, ◌+◌, ◌<◌, ◌≤◌, true, false, [], List, ℕ, length};
ghost use Rattle.std.specs.Prelude.{Some, None, IfOk, OnOk, OnErr, IsOk, IsErr, IsTrue, is_some};
ghost use Rattle.std.specs.Prelude.{filter, nat_lt, refl, if◌then◌else◌};
ghost use Rattle.agent_base.specs.Counts.{next_count, HasCause};
ghost use Rattle.disk_model.specs.Disk.{Holds, Written, Torn, Goes, Follows, IsSettled, Elapses};
ghost use Rattle.disk_model.specs.Disk.{Stays, Device, HasFailed, UsesRoom};
ghost use Rattle.disk_model.specs.History.{held, after, wrote, synced, Grows};
ghost use Rattle.disk_model.specs.Recovery.{Recovered};
ghost use Rattle.disk_model.specs.Schedule.{AreFrom, next_fails};
ghost use Rattle.disk_model.specs.MemDisk.{MemView, view_of, pick_of, numbers_of, Looks, Calls};
ghost use Rattle.disk_model.specs.Laws.{contents_stay};
ghost use Rattle.disk_model.specs.MemLaws.{mem_lawful};

use crate::disk::Disk;
use crate::medium::Medium;
use crate::schedule::{Cut, Schedule};
use agent_base::{Failed, NoMemory};
use std::alloc::Global;
use std::marker::Model;

/// A disk in memory. It tells its contents, its images and its past.
#[derive(Debug, Drop)]
pub struct MemDisk {
    medium: Medium,
    schedule: Schedule,
    base: u64,
    faults: u64,
    failures: u64,
}

impl Model for MemDisk {
    ghost use Rattle.disk_model.specs.MemDisk.{MemView};

    ghost Value = { MemView };

    ghost view = { λ m. record {
      past = m.medium;
      plan = m.schedule;
      base = m.base;
      faults = m.faults;
      failures = m.failures;
    } };
}

impl MemDisk {
    /// A disk with these bytes, all of them synced. Takes no memory; [`Disk::reserve`] does.
    ///
    /// The power is cut in the calls of `cuts`, and the calls in `fails` fail without a cut. Both
    /// count the writes and syncs from 1 on.
    pub fn new(alloc: Global, bytes: Vec<u8>, cuts: Vec<Cut>, fails: Vec<u64>) -> MemDisk
        requires { AreFrom 1 cuts.items }
        ensures contents { (result.past.first ≡ bytes.items) × (result.past.events ≡ []) }
        ensures plan { result.plan ≡ record {
          calls = 0;
          cuts = cuts.items;
          fails = fails.items;
          off = None;
        } }
        ensures counts { (result.faults ≡ 0) × (result.failures ≡ 0) }
        ensures cuts { fails.items ≡ [] → (view_of result).cuts ≡ Some (numbers_of cuts.items) }
    {
        MemDisk {
            medium: Medium::new(alloc, bytes),
            schedule: Schedule::new(cuts, fails),
            base: 0,
            faults: 0,
            failures: 0,
        }
    }

    /// The disk as the next user finds it: after a restart, with its counts at 0, and without the
    /// cuts and the failing calls that came. The others keep their numbers. Takes no memory.
    pub fn reopen(self) -> MemDisk
        ensures recovered { Recovered (pick_of self.plan) (held self.past) result.past.first }
        ensures anew { result.past.events ≡ [] }
        ensures image { (c : List ℕ) → (view_of result).contents ≡ Some c
            → (view_of self).may_leave c }
        ensures settled { IsSettled (view_of result) }
        ensures plan { result.plan ≡ record {
          calls = 0;
          cuts = self.plan.cuts;
          fails = filter (λ number. nat_lt self.plan.calls number) self.plan.fails;
          off = None;
        } }
        ensures counts { (result.faults ≡ 0) × (result.failures ≡ 0) }
        ensures cuts { result.plan.fails ≡ []
            → (view_of result).cuts ≡ Some (numbers_of self.plan.cuts) }
        ensures room { (result.past.room_end ≡ self.past.room_end)
            × (result.past.room_writes ≡ self.past.room_writes) }
    {
        let mut medium = self.medium;
        let mut schedule = self.schedule;
        let _ = medium.restart(schedule.off().unwrap_or(0));
        schedule.begin_again();
        MemDisk {
            medium,
            schedule,
            base: 0,
            faults: 0,
            failures: 0,
        }
    }

    /// The bytes that a read returns, while the power is on.
    pub fn bytes(&self) -> &[u8]
        ensures contents { result.now ≡ (held self.now.past).contents }
    {
        self.medium.bytes()
    }

    /// How many changing calls were made while the power was on.
    pub fn changing_calls(&self) -> u64
        ensures { result ≡ self.now.plan.calls }
    {
        self.schedule.calls()
    }

    /// How many calls failed.
    pub fn faults(&self) -> u64
        ensures { result ≡ self.now.faults }
    {
        self.faults
    }

    // A call that found the power off.
    fn fault(&mut self) -> Failed
        ensures later { self.old.faults ≤ self.new.faults }
        ensures counted { self.new ≡ record self.old { faults = next_count self.old.faults } }
    {
        self.faults = self.faults.saturating_add(1);
        Failed
    }

    // A call that failed while the power was on.
    fn failure(&mut self) -> Failed
        ensures later { self.old.faults ≤ self.new.faults }
        ensures most { self.new.failures ≤ self.old.failures + 1 }
        ensures counted { self.new ≡ record self.old {
          faults = next_count self.old.faults;
          failures = next_count self.old.failures;
        } }
    {
        self.failures = self.failures.saturating_add(1);
        self.fault()
    }
}

impl Disk for MemDisk {
    ghost view = { view_of };

    ghost lawful = { mem_lawful };

    // Each call has the trait's clauses, and after them exactly what this disk does.
    fn len(&mut self) -> Result<u64, Failed>
        ensures len { IfOk result (λ n. (c : List ℕ) → Some (held self.old.past).contents ≡ Some c
            → n ≡ length c) }
        ensures stays { Stays (view_of self.old) (view_of self.new) }
        ensures device { Device 0 0 result (view_of self.old) (view_of self.new) }
        ensures look { Looks result self.old self.new }
    {
        if self.schedule.is_off() {
            return Err(self.fault());
        }
        Ok(self.medium.bytes().len() as u64)
    }

    fn read_at(&mut self, at: u64, into: &mut [u8]) -> Result<(), Failed>
        requires within { (c : List ℕ) → Some (held self.old.past).contents ≡ Some c
            → at + length into.old ≤ length c }
        ensures read { OnOk result ((c : List ℕ) → Some (held self.old.past).contents ≡ Some c
            → Holds c at into.new) }
        ensures stays { Stays (view_of self.old) (view_of self.new) }
        ensures device { Device 0 0 result (view_of self.old) (view_of self.new) }
        ensures look { Looks result self.old self.new }
    {
        if self.schedule.is_off() {
            return Err(self.fault());
        }
        let at = at as usize;
        into.copy_from_slice(&self.medium.bytes()[at..at + into.len()]);
        Ok(())
    }

    fn write_at(&mut self, at: u64, bytes: &[u8]) -> Result<(), Failed>
        requires place { (c : List ℕ) → Some (held self.old.past).contents ≡ Some c
            → at ≤ length c }
        requires room { at + length bytes.now ≤ self.old.past.room_end }
        requires writes { 0 < self.old.past.room_writes }
        ensures written { OnOk result (Goes (Written at bytes.now)
            (view_of self.old).contents (view_of self.new).contents) }
        ensures failed { OnErr result (Goes (Torn at (length bytes.now))
            (view_of self.old).contents (view_of self.new).contents) }
        ensures images { Follows (Torn at (length bytes.now))
            (view_of self.old).may_leave (view_of self.new).may_leave }
        ensures time { Elapses (view_of self.old) (view_of self.new) }
        ensures device { Device 1 1 result (view_of self.old) (view_of self.new) }
        ensures call { Calls result self.old self.new }
        ensures past { self.old.plan.off ≡ None
            → Grows self.old.past self.new.past (after (held self.old.past) (wrote at bytes.now)) }
    {
        if self.schedule.is_off() {
            return Err(self.fault());
        }
        let fails = self.schedule.call();
        let made = self.medium.write(at as usize, bytes);
        if fails || made.is_err() {
            return Err(self.failure());
        }
        Ok(())
    }

    fn sync(&mut self) -> Result<(), Failed>
        ensures contents { (view_of self.new).contents ≡ (view_of self.old).contents }
        ensures settled { OnOk result (IsSettled (view_of self.new)) }
        ensures images { (c : List ℕ) → (view_of self.new).may_leave c
            → (view_of self.old).may_leave c }
        ensures time { Elapses (view_of self.old) (view_of self.new) }
        ensures device { Device 1 0 result (view_of self.old) (view_of self.new) }
        ensures call { Calls result self.old self.new }
        ensures past { self.old.plan.off ≡ None → Grows self.old.past self.new.past
            (if next_fails self.old.plan then held self.old.past else after
            (held self.old.past) synced) }
    {
        if self.schedule.is_off() {
            return Err(self.fault());
        }
        if self.schedule.call() {
            self.medium.miss();
            return Err(self.failure());
        }
        if self.medium.sync().is_err() {
            return Err(self.failure());
        }
        Ok(())
    }

    fn restart(&mut self) -> Result<(), Failed>
        ensures contents { OnOk result (Goes (λ _ d. (view_of self.old).may_leave d)
            (view_of self.old).contents (view_of self.new).contents) }
        ensures anew { OnOk result ((t : ℕ) (c : List ℕ) → (view_of self.new).left_since t c
            → (view_of self.new).contents ≡ Some c) }
        ensures failed { OnErr result ((c : List ℕ) → (view_of self.new).may_leave c
            → (view_of self.old).may_leave c) }
        ensures cause { HasCause (view_of self.old).faults (view_of self.new).faults result }
        ensures tells { (view_of self.new).tells ≡ (view_of self.old).tells }
        ensures on { OnOk result (((view_of self.new).off ≡ false)
            × ((view_of self.new).failures ≡ (view_of self.old).failures)
            × ((view_of self.new).cuts ≡ (view_of self.old).cuts)) }
        ensures failure { OnErr result (HasFailed (view_of self.old) (view_of self.new)) }
        ensures sure { (cuts : List ℕ) → (view_of self.old).cuts ≡ Some cuts → IsOk result }
        ensures calls { (view_of self.new).changing ≡ (view_of self.old).changing }
        ensures room { UsesRoom 0 (view_of self.old) (view_of self.new) }
        ensures ok { IsOk result }
        ensures recovered { Recovered (pick_of self.old.plan)
            (held self.old.past) self.new.past.first }
        ensures begun { self.new.past.events ≡ [] }
        ensures plan { self.new.plan ≡ record self.old.plan { off = None } }
    {
        let pick = self.schedule.off().unwrap_or(0);
        self.schedule.restart();
        self.base = self.base.saturating_add(1);
        if self.medium.restart(pick).is_err() {
            return Err(self.fault());
        }
        Ok(())
    }

    fn reserve(&mut self, end: u64, writes: u32) -> Result<(), NoMemory>
        ensures stays { Stays (view_of self.old) (view_of self.new) }
        ensures faults { (view_of self.new).faults ≡ (view_of self.old).faults }
        ensures power { ((view_of self.new).off ≡ (view_of self.old).off)
            × ((view_of self.new).failures ≡ (view_of self.old).failures)
            × ((view_of self.new).cuts ≡ (view_of self.old).cuts) }
        ensures end { OnOk result (end ≤ (view_of self.new).room_end) }
        ensures writes { OnOk result (writes ≤ (view_of self.new).room_writes) }
        ensures room { OnErr result (UsesRoom 0 (view_of self.old) (view_of self.new)) }
        ensures past { (self.new.past.first ≡ self.old.past.first)
            × (self.new.past.events ≡ self.old.past.events) }
        ensures same { self.new ≡ record self.old { past = self.new.past } }
    {
        if self.medium.reserve(end as usize, writes as usize).is_err() {
            return Err(NoMemory);
        }
        Ok(())
    }
}
